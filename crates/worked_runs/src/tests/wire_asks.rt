// A wire over lines that end where a test needs it: a worker in memory whose line stops after some bytes or calls, and
// stored bytes instead of a worker. The asks are about the triangle of equal weights, in one shard or in two.
ghost use Rattle.std.specs.Prelude.{◌≡◌, ◌+◌, ◌<◌, ◌≤◌};
ghost use Rattle.wires.specs.Lines.{HasRoom};

use super::rounds::{expect_text, links_to_cut};
use super::same::expect_same;
use frames::Answer;
use link_key::{Cut, Labels};
use ports::{EngineLine, FusedLine, Line, LineFault, Port, PortFault, ScriptLine, Wire};
use std::alloc::Global;
use std::process::Abort;
use worked_graphs::{EQUAL_WEIGHTS, Row, have_labels};

/// The offers of an answer, or why there is none.
type Reply<'a> = Result<&'a [(u32, u32)], PortFault>;

/// A step with a wire: an ask of this round and shard, with its reply, or a call of `shut`.
#[derive(Clone, Copy)]
enum Step<'a> {
    Ask(u32, u32, Reply<'a>),
    Shut,
}

const DOWN: Reply = Err(PortFault::Down);

const CLOSED: Reply = Err(PortFault::Closed);

const HELLO: [u8; 11] = [1, 0, 0, 0, 6, 0, 1, 0, 0, 0, 0];

const NOT_KEPT: [u8; 14] = [5, 0, 0, 0, 9, 0, 0, 0, 1, 0, 0, 0, 5, 2];

// A head of an unknown kind.
const NO_KIND: [u8; 5] = [7, 0, 0, 0, 0];

// The triangle's offers if each vertex is a component by itself.
const OFFERS: Reply = Ok(&[(1, 0), (2, 0), (3, 2)]);

// Whether this is the reply to an ask of this round and shard.
fn is_reply(reply: &Result<Answer, PortFault>, asked: (u32, u32), expected: Reply) -> bool {
    match (reply, expected) {
        (Ok(answer), Ok(offers)) => {
            (answer.round, answer.shard) == asked && answer.offers.pairs() == offers
        }
        (Err(fault), Err(expected)) => *fault == expected,
        (_, _) => false,
    }
}

// An ask of this round and shard gets this reply, or the port is shut.
fn take_step<P: Port<Global>>(rt: &impl Abort, port: &mut P, cut: &Cut, labels: &Labels, step: Step)
    requires { (P.state port.old).cut ≡ cut.now }
    ensures { (P.state port.new).cut ≡ cut.now }
{
    let Step::Ask(round, shard, expected) = step else {
        port.shut();
        return;
    };
    assert!(rt; 1 <= round && shard < cut.len() && port.asks() < 100);
    assert!(rt; have_labels(cut.shard(shard).links, labels.n()));
    let reply = port.ask(round, shard, labels);
    let found = (is_reply(&reply, (round, shard), expected), port.is_open());
    expect_same(rt, found, (true, reply.is_ok()));
}

fn take_steps<P: Port<Global>>(
    rt: &impl Abort,
    port: &mut P,
    cut: &Cut,
    labels: &Labels,
    steps: &[Step],
)
    requires { (P.state port.old).cut ≡ cut.now }
    ensures { (P.state port.new).cut ≡ cut.now }
{
    for step in steps {
        take_step(rt, port, cut, labels, *step);
    }
}

/// Arcs between the vertices 1 to n, the number of even shards, the steps with a wire, and how many asks it counts.
#[derive(Clone, Copy)]
struct Client<'a> {
    n: u32,
    arcs: &'a [Row],
    shards: u32,
    steps: &'a [Step<'a>],
    asks: u64,
}

// A new wire over the line takes the client's steps. Returns the line afterwards.
fn expect_transcript<L: Line + Drop>(
    rt: &impl Abort,
    alloc: Global,
    client: Client,
    line: L,
    worker: u32,
) -> L
    requires worker { worker < 64 }
    requires room { HasRoom (L.state line) }
{
    let links = links_to_cut(rt, alloc, client.n, client.arcs);
    assert!(rt; client.n <= 1 << 26);
    let cut = Cut::even(alloc, links.as_slice(), client.shards).expect(rt, "a cut");
    let labels = Labels::apart(alloc, client.n).expect(rt, "memory");
    let mut wire = Wire::new(alloc, line, &cut, worker);
    take_steps(rt, &mut wire, &cut, &labels, client.steps);
    expect_same(rt, wire.asks(), client.asks);
    wire.into_line()
}

// Two asks for the whole triangle, of rounds 1 and 2, over a new wire get these replies.
fn expect_two<L: Line + Drop>(
    rt: &impl Abort,
    alloc: Global,
    line: L,
    worker: u32,
    replies: (Reply<'static>, Reply<'static>),
)
    requires worker { worker < 64 }
    requires room { HasRoom (L.state line) }
{
    let steps = [Step::Ask(1, 0, replies.0), Step::Ask(2, 0, replies.1)];
    let asks = if replies.1 == CLOSED { 1 } else { 2 };
    let client = Client {
        n: 3,
        arcs: EQUAL_WEIGHTS.arcs,
        shards: 1,
        steps: &steps,
        asks,
    };
    expect_transcript(rt, alloc, client, line, worker);
}

// The replies to two asks over a line that stops after this much. The first ask needs `first`, and both need `both`.
fn stopped(after: u64, first: u64, both: u64) -> (Reply<'static>, Reply<'static>) {
    if after < first {
        (DOWN, CLOSED)
    } else if after < both {
        (OFFERS, DOWN)
    } else {
        (OFFERS, OFFERS)
    }
}

// The hello has 11 bytes and each answer 41.
#[test]
fn a_line_that_stops_after_each_byte(rt: HostRuntime) {
    let alloc = rt.alloc();
    for bytes in 0..94u64 {
        let line = FusedLine::after_bytes(EngineLine::new(alloc, 0).expect(&rt, "memory"), bytes);
        expect_two(&rt, alloc, line, 0, stopped(bytes, 52, 93));
    }
}

// The calls of two asks over an engine. First there are the hello's head and body, the shard, the ask, the answer's
// head, its fields and its offers. Then come the ask and the answer's three.
#[test]
fn a_line_that_stops_after_so_many_calls(rt: HostRuntime) {
    let alloc = rt.alloc();
    for calls in 0..12u64 {
        let line = FusedLine::after_calls(EngineLine::new(alloc, 0).expect(&rt, "memory"), calls);
        expect_two(&rt, alloc, line, 0, stopped(calls, 7, 11));
    }
}

#[test]
fn a_wire_that_was_shut(rt: HostRuntime) {
    let alloc = rt.alloc();
    let line = EngineLine::new(alloc, 0).expect(&rt, "memory");
    let steps = [Step::Ask(1, 0, OFFERS), Step::Shut, Step::Ask(2, 0, CLOSED)];
    let client = Client {
        n: 3,
        arcs: EQUAL_WEIGHTS.arcs,
        shards: 1,
        steps: &steps,
        asks: 1,
    };
    expect_transcript(&rt, alloc, client, line, 0);
}

fn script(rt: &impl Abort, alloc: Global, parts: &[&[u8]]) -> Vec<u8> {
    let mut bytes = Vec::new(alloc);
    for part in parts {
        bytes.extend_from_slice(part).expect(rt, "memory");
    }
    bytes
}

// A wire for this worker gets these parts. The first ask ends with this error, and the wire is closed.
#[test]
fn a_script_in_place_of_a_worker(rt: HostRuntime) {
    let alloc = rt.alloc();
    let scripts: [(u32, &[&[u8]], PortFault); 9] = [
        (1, &[&HELLO], PortFault::WrongHello),
        (0, &[&NOT_KEPT], PortFault::WrongHello),
        (0, &[&HELLO, &NOT_KEPT], PortFault::Gave(2)),
        (0, &[&HELLO, &HELLO], PortFault::Garbled),
        (0, &[&HELLO, &NO_KIND], PortFault::Garbled),
        (0, &[&NO_KIND], PortFault::Garbled),
        (0, &[&HELLO], PortFault::Down),
        (0, &[&HELLO, &NOT_KEPT[..13]], PortFault::Down),
        (0, &[], PortFault::Down),
    ];
    for (worker, parts, fault) in scripts {
        let line = ScriptLine::new(script(&rt, alloc, parts));
        assert!(rt; worker < 64);
        expect_two(&rt, alloc, line, worker, (Err(fault), CLOSED));
    }
}

// The offers of two shards: one has the link between 1 and 2, and the other the link between 2 and 3, whose weight is
// past 32 bits.
const NARROW: Reply = Ok(&[(1, 0), (2, 0)]);

const WIDE: Reply = Ok(&[(2, 0), (3, 0)]);

/// A line that stores all bytes that are put, and counts the puts.
#[derive(Drop)]
struct Keeping<L> {
    line: L,
    kept: Vec<u8>,
    are_all_kept: bool,
    puts: usize,
}

impl<L: Line> Line for Keeping<L> {
    ghost state = { λ s. L.state s.line };

    ghost faithful = { λ s worker. L.faithful s.line worker };

    fn put(&mut self, bytes: &[u8]) -> Result<(), LineFault> {
        let are_kept = self.kept.extend_from_slice(bytes).is_ok();
        self.are_all_kept = self.are_all_kept && are_kept;
        self.puts = self.puts.wrapping_add(1);
        self.line.put(bytes)
    }

    fn get(&mut self, into: &mut [u8]) -> Result<usize, LineFault> {
        self.line.get(into)
    }

    ghost serves = { λ s worker is. L.serves s.line worker is };
}

// A line that stores what is put, and passes it on to this one.
fn kept_line<L: Line>(alloc: Global, line: L) -> Keeping<L>
    ensures { L.state result.line ≡ L.state line }
{
    Keeping {
        line,
        kept: Vec::new(alloc),
        are_all_kept: true,
        puts: 0,
    }
}

/// A frame: its kind, and the numbers of its body, four bytes each.
type Numbers<'a> = (u8, &'a [u32]);

fn text_of(rt: &impl Abort, alloc: Global, frames: &[Numbers]) -> Vec<u8> {
    let mut text = Vec::new(alloc);
    for (kind, numbers) in frames {
        let count = numbers.len().min(1 << 20) as u32;
        text.push(*kind).expect(rt, "memory");
        text.extend_from_slice(&count.wrapping_mul(4).to_be_bytes())
            .expect(rt, "memory");
        for number in numbers.iter() {
            text.extend_from_slice(&number.to_be_bytes())
                .expect(rt, "memory");
        }
    }
    text
}

// A new wire over the line takes the client's steps, and puts these frames meanwhile, each by one put.
fn expect_put<L: Line + Drop>(
    rt: &impl Abort,
    alloc: Global,
    client: Client,
    line: L,
    frames: &[Numbers],
)
    requires room { HasRoom (L.state line) }
{
    let line = expect_transcript(rt, alloc, client, kept_line(alloc, line), 0);
    expect_same(rt, (line.are_all_kept, line.puts), (true, frames.len()));
    let text = text_of(rt, alloc, frames);
    expect_same(rt, line.kept.as_slice(), text.as_slice());
}

const TOO_OLD: Reply = Err(PortFault::TooOld);

// A path whose first link weighs 5 and whose second weighs 2^31.
const NARROW_AND_WIDE: [Row; 2] = [(1, 2, 5), (2, 3, 2147483648)];

// Its shards, and asks for them with three labels.
const NARROW_SHARD: Numbers = (2, &[0, 1, 1, 2, 5]);

const NARROW_ASK: Numbers = (3, &[1, 0, 3, 1, 2, 3]);

const WIDE_SHARD: Numbers = (6, &[1, 1, 2, 3, 0, 1 << 31]);

const WIDE_ASK: Numbers = (3, &[1, 1, 3, 1, 2, 3]);

const AGAIN: Numbers = (3, &[2, 1, 3, 1, 2, 3]);

// A worker of the first version sends its hello and answers the ask for the shard that fits 32 bits. When a shard needs
// the second version, the wire is closed, before or after an answer, and nothing is put for that shard.
#[test]
fn a_worker_of_the_first_version(rt: HostRuntime) {
    let alloc = rt.alloc();
    let answer = [
        4, 0, 0, 0, 28, 0, 0, 0, 1, 0, 0, 0, 0, 0, 0, 0, 2, 0, 0, 0, 1, 0, 0, 0, 0, 0, 0, 0, 2, 0,
        0, 0, 0,
    ];
    let steps = [
        Step::Ask(1, 0, NARROW),
        Step::Ask(1, 1, TOO_OLD),
        Step::Ask(1, 0, CLOSED),
        Step::Ask(1, 1, CLOSED),
    ];
    let transcripts: [(&[Step], u64, &[Numbers]); 2] = [
        (&steps, 2, &[NARROW_SHARD, NARROW_ASK]),
        (&steps[1..], 1, &[]),
    ];
    for (steps, asks, put) in transcripts {
        let line = ScriptLine::new(script(&rt, alloc, &[&HELLO, &answer]));
        let client = Client {
            n: 3,
            arcs: &NARROW_AND_WIDE,
            shards: 2,
            steps,
            asks,
        };
        expect_put(&rt, alloc, client, line, put);
    }
}

// Each shard is sent to an engine only before its first ask.
#[test]
fn shards_of_64_bits(rt: HostRuntime) {
    let alloc = rt.alloc();
    let steps = [
        Step::Ask(1, 0, NARROW),
        Step::Ask(1, 1, WIDE),
        Step::Ask(2, 1, WIDE),
    ];
    let put = [NARROW_SHARD, NARROW_ASK, WIDE_SHARD, WIDE_ASK, AGAIN];
    let client = Client {
        n: 3,
        arcs: &NARROW_AND_WIDE,
        shards: 2,
        steps: &steps,
        asks: 3,
    };
    expect_put(
        &rt,
        alloc,
        client,
        EngineLine::new(alloc, 0).expect(&rt, "memory"),
        &put,
    )
}

// The two shards of the triangle, and asks for them with three labels.
#[test]
fn each_shard_is_sent_before_its_first_ask_alone(rt: HostRuntime) {
    let alloc = rt.alloc();
    let of_one: Reply = Ok(&[(1, 0), (2, 0)]);
    let of_two: Reply = Ok(&[(1, 1), (2, 0), (3, 1)]);
    let steps = [
        Step::Ask(1, 0, of_one),
        Step::Ask(1, 1, of_two),
        Step::Ask(2, 0, of_one),
        Step::Ask(2, 1, of_two),
    ];
    let put: [Numbers; 6] = [
        (2, &[0, 1, 1, 2, 5]),
        (3, &[1, 0, 3, 1, 2, 3]),
        (2, &[1, 2, 2, 3, 5, 1, 3, 5]),
        (3, &[1, 1, 3, 1, 2, 3]),
        (3, &[2, 0, 3, 1, 2, 3]),
        (3, &[2, 1, 3, 1, 2, 3]),
    ];
    let client = Client {
        n: 3,
        arcs: EQUAL_WEIGHTS.arcs,
        shards: 2,
        steps: &steps,
        asks: 4,
    };
    expect_put(
        &rt,
        alloc,
        client,
        EngineLine::new(alloc, 0).expect(&rt, "memory"),
        &put,
    )
}

// Two asks over a new wire get these replies. Each vertex has its own label, and the first and the last are linked.
// Returns the line afterwards.
fn ask_twice<L: Line + Drop>(
    rt: &impl Abort,
    alloc: Global,
    labels: &Labels,
    line: L,
    replies: (Reply, Reply),
) -> L
    requires { HasRoom (L.state line) }
{
    let links = links_to_cut(rt, alloc, labels.n(), &[(1, labels.n(), 7)]);
    let cut = Cut::even(alloc, links.as_slice(), 1).expect(rt, "a cut");
    let mut wire = Wire::new(alloc, line, &cut, 0);
    let steps = [Step::Ask(1, 0, replies.0), Step::Ask(2, 0, replies.1)];
    take_steps(rt, &mut wire, &cut, labels, &steps);
    wire.into_line()
}

// How many puts two asks with these labels need, and their bytes.
fn puts_under(rt: &impl Abort, alloc: Global, labels: &Labels) -> (usize, Vec<u8>) {
    let line = kept_line(alloc, EngineLine::new(alloc, 0).expect(rt, "memory"));
    let offers = [(1, 0), (labels.n(), 0)];
    let line = ask_twice(rt, alloc, labels, line, (Ok(&offers), Ok(&offers)));
    expect_same(rt, line.are_all_kept, true);
    (line.puts, line.kept)
}

// The shard and each ask is one put. If labels store their encoded bytes, an ask is two puts from 64 KiB of labels on.
// The bytes are the same.
#[test]
fn labels_with_and_without_their_bytes(rt: HostRuntime) {
    let alloc = rt.alloc();
    for (n, puts) in [(2, 3), (16_383, 3), (16_384, 5), (16_385, 5), (40_000, 5)] {
        let mut labels = Labels::apart(alloc, n).expect(&rt, "memory");
        let (turned, bytes) = puts_under(&rt, alloc, &labels);
        labels.spell().expect(&rt, "memory");
        let (spelled, same) = puts_under(&rt, alloc, &labels);
        let same = same.as_slice() == bytes.as_slice();
        expect_same(&rt, (n, turned, spelled, same), (n, 3, puts, true));
    }
}

// The calls of two asks with labels of 64 KiB that store their encoded bytes. First there are the hello's head and
// body, the shard, the ask's two parts, the answer's head, its fields and its offers. Then come the ask's two and the
// answer's three.
#[test]
fn a_line_that_stops_between_the_parts_of_an_ask(rt: HostRuntime) {
    let alloc = rt.alloc();
    let mut labels = Labels::apart(alloc, 16_384).expect(&rt, "memory");
    labels.spell().expect(&rt, "memory");
    let offers = [(1, 0), (16_384, 0)];
    for calls in 0..14u64 {
        let line = FusedLine::after_calls(EngineLine::new(alloc, 0).expect(&rt, "memory"), calls);
        let replies: (Reply, Reply) = if calls < 8 {
            (DOWN, CLOSED)
        } else if calls < 13 {
            (Ok(&offers), DOWN)
        } else {
            (Ok(&offers), Ok(&offers))
        };
        ask_twice(&rt, alloc, &labels, line, replies);
    }
}

const MANY: u32 = 10_000;

// A path of 10,000 links, each as heavy as its lower endpoint. The offer for the first vertex is the first link, and
// for every other vertex it is the link before it.
#[test]
fn a_wire_at_ten_thousand_links(rt: HostRuntime) {
    let alloc = rt.alloc();
    let mut arcs = Vec::new(alloc);
    let mut offers = Vec::new(alloc);
    offers.push((1, 0)).expect(&rt, "memory");
    for i in 0..MANY {
        let low = i.wrapping_add(1);
        arcs.push((low, low.wrapping_add(1), i64::from(low)))
            .expect(&rt, "memory");
        offers.push((low.wrapping_add(1), i)).expect(&rt, "memory");
    }
    let reply: Reply = Ok(offers.as_slice());
    let steps = [Step::Ask(1, 0, reply), Step::Ask(2, 0, reply)];
    let client = Client {
        n: MANY + 1,
        arcs: arcs.as_slice(),
        shards: 1,
        steps: &steps,
        asks: 2,
    };
    expect_transcript(
        &rt,
        alloc,
        client,
        EngineLine::new(alloc, 0).expect(&rt, "memory"),
        0,
    );
}

// Asks with no label and with one, and an ask of the last of the most shards that are allowed.
#[test]
fn asks_at_their_bounds(rt: HostRuntime) {
    let alloc = rt.alloc();
    let none: Reply = Ok(&[]);
    let graphs: [(u32, &[Row], u32, u32, Reply); 5] = [
        (0, &[], 1, 0, none),
        (0, &[], 4096, 4095, none),
        (1, &[], 1, 0, none),
        (2, &[(1, 2, 7)], 1, 0, Ok(&[(1, 0), (2, 0)])),
        (2, &[(1, 2, 7)], 4096, 4095, Ok(&[(1, 0), (2, 0)])),
    ];
    for (n, arcs, shards, shard, reply) in graphs {
        let steps = [
            Step::Ask(1, shard, reply),
            Step::Ask(u32::MAX, shard, reply),
        ];
        let client = Client {
            n,
            arcs,
            shards,
            steps: &steps,
            asks: 2,
        };
        expect_transcript(
            &rt,
            alloc,
            client,
            EngineLine::new(alloc, 0).expect(&rt, "memory"),
            0,
        );
    }
}

// Puts these bytes, gets once, and returns how many bytes were received.
fn say(rt: &impl Abort, line: &mut EngineLine<Global>, bytes: &[u8]) -> usize
    requires { line.old.failures + line.old.ends < 100 }
    ensures { line.new.failures + line.new.ends ≤ line.old.failures + line.old.ends + 2 }
{
    assert!(rt; line.put(bytes).is_ok());
    let mut piece = [0; 64];
    line.get(&mut piece).expect(rt, "a piece")
}

// Shard 0 with the link `1 2 7`, and an ask for it of round 1 with two labels. Its answer has 33 bytes.
const ASKED: [u8; 50] = [
    2, 0, 0, 0, 20, 0, 0, 0, 0, 0, 0, 0, 1, 0, 0, 0, 1, 0, 0, 0, 2, 0, 0, 0, 7, 3, 0, 0, 0, 20, 0,
    0, 0, 1, 0, 0, 0, 0, 0, 0, 0, 2, 0, 0, 0, 1, 0, 0, 0, 2,
];

// A session that got bytes which don't begin a frame has ended. Bytes that are put later change nothing, and each get
// finds the end.
#[test]
fn a_session_that_is_over(rt: HostRuntime) {
    let alloc = rt.alloc();
    // Among them are a hello of seven bytes, a hello of another version, and the first three bytes of a frame that may
    // continue.
    let sessions: [(&[u8], usize); 8] = [
        (&[], 33),
        (&NO_KIND, 0),
        (&[1, 0, 0, 0, 7], 0),
        (&[1, 0, 0, 0, 6, 0, 3, 0, 0, 0, 0], 0),
        (&[1, 0, 0, 0, 6, 0, 2, 0, 0, 0, 0], 33),
        (&[6, 0, 0, 0, 0], 0),
        (&[2, 0, 0], 0),
        (&HELLO, 33),
    ];
    for (first, came) in sessions {
        let mut line = EngineLine::new(alloc, 0).expect(&rt, "memory");
        let hello = say(&rt, &mut line, &[]);
        let silent = say(&rt, &mut line, first);
        let answer = say(&rt, &mut line, &ASKED);
        let again = say(&rt, &mut line, &[]);
        expect_same(&rt, (hello, silent, answer, again), (11, 0, came, 0));
    }
}

#[test]
fn texts_of_faults(rt: HostRuntime) {
    let alloc = rt.alloc();
    let texts = [
        (PortFault::Down, "line is down"),
        (PortFault::Garbled, "line is garbled"),
        (PortFault::WrongHello, "hello of another worker"),
        (PortFault::Gave(2), "worker gave code 2"),
        (PortFault::Memory, "no memory"),
        (PortFault::Closed, "port is closed"),
        (PortFault::TooOld, "worker is too old for 64-bit weights"),
    ];
    for (fault, text) in texts {
        expect_text(&rt, alloc, &fault, text);
    }
    expect_text(&rt, alloc, &LineFault::Failed, "line failed")
}
