// A worker's engine over a triangle of equal weights: the frames that it gets, and whole sessions.
ghost use Rattle.std.specs.Prelude.{◌-◌, ◌<◌, ◌^◌};

use super::same::expect_same;
use super::scans::{By, Worker, many_labels, many_links, plain_offers};
use super::sizes::{apart, falling, falling_offers};
use byte_streams::{FusedSink, FusedSource};
use frames::{
    Answer, Frame, FrameFault, encode, encode_ask, encode_shard, fault_bytes, read_frame,
};
use link_key::{Labels, Link, Offers, Shard};
use std::alloc::Global;
use std::process::Abort;
use std::thread::Threads;
use test_memory::{Refusals, Refusing};
use worked_graphs::have_labels;
use worker_engine::{ServeFault, Served, scan, serve, serve_upto};

// The hello of a worker of the first version, and of one of this version.
const FIRST_HELLO: [u8; 11] = [1, 0, 0, 0, 6, 0, 1, 0, 0, 0, 0];

const HELLO: [u8; 11] = [1, 0, 0, 0, 6, 0, 2, 0, 0, 0, 0];

// Shard 0 with a link between 1 and 2 of weight 2^31, and the answer to the short ask.
const SHARD64: [u8; 29] = [
    6, 0, 0, 0, 24, 0, 0, 0, 0, 0, 0, 0, 1, 0, 0, 0, 1, 0, 0, 0, 2, 0, 0, 0, 0, 128, 0, 0, 0,
];

const SHORT_ANSWER: [u8; 33] = [
    4, 0, 0, 0, 28, 0, 0, 0, 1, 0, 0, 0, 0, 0, 0, 0, 2, 0, 0, 0, 1, 0, 0, 0, 0, 0, 0, 0, 2, 0, 0,
    0, 0,
];

// The triangle with the weights 2^32 + 5, 5 and 5 - 2^32, whose lower 32 bits are equal, and the answer to the ask.
const ALIKE_SHARD: [u8; 61] = [
    6, 0, 0, 0, 56, 0, 0, 0, 0, 0, 0, 0, 3, 0, 0, 0, 1, 0, 0, 0, 2, 0, 0, 0, 1, 0, 0, 0, 5, 0, 0,
    0, 2, 0, 0, 0, 3, 0, 0, 0, 0, 0, 0, 0, 5, 0, 0, 0, 1, 0, 0, 0, 3, 255, 255, 255, 255, 0, 0, 0,
    5,
];

const ALIKE_ANSWER: [u8; 41] = [
    4, 0, 0, 0, 36, 0, 0, 0, 1, 0, 0, 0, 0, 0, 0, 0, 3, 0, 0, 0, 1, 0, 0, 0, 2, 0, 0, 0, 2, 0, 0,
    0, 1, 0, 0, 0, 3, 0, 0, 0, 2,
];

const SHARD: [u8; 49] = [
    2, 0, 0, 0, 44, 0, 0, 0, 0, 0, 0, 0, 3, 0, 0, 0, 1, 0, 0, 0, 2, 0, 0, 0, 5, 0, 0, 0, 2, 0, 0,
    0, 3, 0, 0, 0, 5, 0, 0, 0, 1, 0, 0, 0, 3, 0, 0, 0, 5,
];

const ASK: [u8; 29] = [
    3, 0, 0, 0, 24, 0, 0, 0, 1, 0, 0, 0, 0, 0, 0, 0, 3, 0, 0, 0, 1, 0, 0, 0, 2, 0, 0, 0, 3,
];

// The labels have one vertex more, which has no link. A round later that vertex is in the component of vertex 1.
const ASK_OF_FOUR: [u8; 33] = [
    3, 0, 0, 0, 28, 0, 0, 0, 1, 0, 0, 0, 0, 0, 0, 0, 4, 0, 0, 0, 1, 0, 0, 0, 2, 0, 0, 0, 3, 0, 0,
    0, 4,
];

const COARSER_ASK: [u8; 33] = [
    3, 0, 0, 0, 28, 0, 0, 0, 2, 0, 0, 0, 0, 0, 0, 0, 4, 0, 0, 0, 1, 0, 0, 0, 2, 0, 0, 0, 3, 0, 0,
    0, 1,
];

const SHORT_ASK: [u8; 25] = [
    3, 0, 0, 0, 20, 0, 0, 0, 1, 0, 0, 0, 0, 0, 0, 0, 2, 0, 0, 0, 1, 0, 0, 0, 2,
];

const ANSWER: [u8; 41] = [
    4, 0, 0, 0, 36, 0, 0, 0, 1, 0, 0, 0, 0, 0, 0, 0, 3, 0, 0, 0, 1, 0, 0, 0, 0, 0, 0, 0, 2, 0, 0,
    0, 0, 0, 0, 0, 3, 0, 0, 0, 2,
];

const NOT_KEPT: [u8; 14] = [5, 0, 0, 0, 9, 0, 0, 0, 1, 0, 0, 0, 0, 2];

const NO_LABEL: [u8; 14] = [5, 0, 0, 0, 9, 0, 0, 0, 1, 0, 0, 0, 0, 3];

// Another list of links for shard 0: one link between 1 and 2, of weight 7.
const ANOTHER_SHARD: [u8; 25] = [
    2, 0, 0, 0, 20, 0, 0, 0, 0, 0, 0, 0, 1, 0, 0, 0, 1, 0, 0, 0, 2, 0, 0, 0, 7,
];

const ANOTHER_ANSWER: [u8; 33] = [
    4, 0, 0, 0, 28, 0, 0, 0, 1, 0, 0, 0, 0, 0, 0, 0, 2, 0, 0, 0, 1, 0, 0, 0, 0, 0, 0, 0, 2, 0, 0,
    0, 0,
];

// A shard without links, an ask without labels, and its answer.
const EMPTY_SHARD: [u8; 13] = [2, 0, 0, 0, 8, 0, 0, 0, 0, 0, 0, 0, 0];

const EMPTY_SHARD64: [u8; 13] = [6, 0, 0, 0, 8, 0, 0, 0, 0, 0, 0, 0, 0];

const EMPTY_ASK: [u8; 17] = [3, 0, 0, 0, 12, 0, 0, 0, 1, 0, 0, 0, 0, 0, 0, 0, 0];

const EMPTY_ANSWER: [u8; 17] = [4, 0, 0, 0, 12, 0, 0, 0, 1, 0, 0, 0, 0, 0, 0, 0, 0];

// Two links of the triangle, and the answer. The link between 2 and 3 is the least that leaves 3.
const PART: [u8; 37] = [
    2, 0, 0, 0, 32, 0, 0, 0, 0, 0, 0, 0, 2, 0, 0, 0, 1, 0, 0, 0, 2, 0, 0, 0, 5, 0, 0, 0, 2, 0, 0,
    0, 3, 0, 0, 0, 5,
];

const PART_ANSWER: [u8; 41] = [
    4, 0, 0, 0, 36, 0, 0, 0, 1, 0, 0, 0, 0, 0, 0, 0, 3, 0, 0, 0, 1, 0, 0, 0, 0, 0, 0, 0, 2, 0, 0,
    0, 0, 0, 0, 0, 3, 0, 0, 0, 1,
];

// An ask with only the label of vertex 1, and an ask of shard 7.
const ASK_OF_ONE: [u8; 21] = [
    3, 0, 0, 0, 16, 0, 0, 0, 1, 0, 0, 0, 0, 0, 0, 0, 1, 0, 0, 0, 1,
];

const ANOTHER_ASK: [u8; 29] = [
    3, 0, 0, 0, 24, 0, 0, 0, 1, 0, 0, 0, 7, 0, 0, 0, 3, 0, 0, 0, 1, 0, 0, 0, 2, 0, 0, 0, 3,
];

const ANOTHER_NOT_KEPT: [u8; 14] = [5, 0, 0, 0, 9, 0, 0, 0, 1, 0, 0, 0, 7, 2];

fn served(frames: u64, answers: u64, faults: u64) -> Result<Served, ServeFault> {
    Ok(Served {
        frames,
        answers,
        faults,
    })
}

fn joined(rt: &impl Abort, alloc: Global, parts: &[&[u8]]) -> Vec<u8> {
    let mut bytes = Vec::new(alloc);
    for part in parts {
        bytes.extend_from_slice(part).expect(rt, "memory");
    }
    bytes
}

// Returns how a session of worker 0 over these bytes ends, and what it has written. `limit` is a limit of frames, if
// any.
fn session(
    rt: &(impl Abort + Threads + Sync),
    alloc: Global,
    heard: &[&[u8]],
    limit: Option<u64>,
) -> (Result<Served, ServeFault>, Vec<u8>) {
    let bytes = joined(rt, alloc, heard);
    let mut source = bytes.as_slice();
    let mut sink = Vec::new(alloc);
    let end = match limit {
        Some(limit) => serve_upto(rt, alloc, 0, &mut source, &mut sink, limit),
        None => serve(rt, alloc, 0, &mut source, &mut sink),
    };
    (end, sink)
}

#[derive(Clone, Copy)]
struct Ended<'a> {
    end: Result<Served, ServeFault>,
    written: &'a [&'a [u8]],
}

fn expect_session(
    rt: &(impl Abort + Threads + Sync),
    alloc: Global,
    heard: &[&[u8]],
    limit: Option<u64>,
    expected: Ended,
) {
    let (end, sink) = session(rt, alloc, heard, limit);
    let written = joined(rt, alloc, expected.written);
    expect_same(
        rt,
        (end, sink.as_slice()),
        (expected.end, written.as_slice()),
    );
}

// Sessions over whole streams, one that ends inside an ask, and one that ends at an unlawful shard. Each row is one of
// these:
//
// - an ask of a stored shard; a torn ask; an ask of a shard that isn't stored; an ask with too few labels.
// - a hello, to which there is no reply.
// - weights past 32 bits, and a shard that replaces an earlier one.
// - a shard without links in the form for such weights, which is unlawful.
// - shards that are sent again and replace each other.
// - no links, and no labels.
// - two links of the triangle: enough labels, too few labels, and a shard that isn't stored.
#[test]
fn sessions_over_the_triangle(rt: HostRuntime) {
    let torn = Err(ServeFault::Read(FrameFault::Torn));
    let bad_field = Err(ServeFault::Read(FrameFault::BadField));
    let sessions: [(&[&[u8]], Result<Served, ServeFault>, &[&[u8]]); 11] = [
        (&[&SHARD, &ASK], served(2, 1, 0), &[&HELLO, &ANSWER]),
        (&[&SHARD, &ASK[..10]], torn, &[&HELLO]),
        (&[&ASK], served(1, 0, 1), &[&HELLO, &NOT_KEPT]),
        (&[&SHARD, &SHORT_ASK], served(2, 0, 1), &[&HELLO, &NO_LABEL]),
        (
            &[&FIRST_HELLO, &SHARD, &ASK],
            served(3, 1, 0),
            &[&HELLO, &ANSWER],
        ),
        (
            &[&SHARD64, &SHORT_ASK],
            served(2, 1, 0),
            &[&HELLO, &SHORT_ANSWER],
        ),
        (
            &[&SHARD, &ALIKE_SHARD, &ASK],
            served(3, 1, 0),
            &[&HELLO, &ALIKE_ANSWER],
        ),
        (
            &[&SHARD, &ASK, &EMPTY_SHARD64, &ASK],
            bad_field,
            &[&HELLO, &ANSWER],
        ),
        (
            &[&SHARD, &ASK, &ANOTHER_SHARD, &ASK, &SHARD, &SHARD, &ASK],
            served(7, 3, 0),
            &[&HELLO, &ANSWER, &ANOTHER_ANSWER, &ANSWER],
        ),
        (
            &[&EMPTY_SHARD, &EMPTY_ASK, &ASK],
            served(3, 2, 0),
            &[&HELLO, &EMPTY_ANSWER, &EMPTY_ANSWER],
        ),
        (
            &[&PART, &ASK, &ASK_OF_ONE, &ANOTHER_ASK],
            served(4, 1, 2),
            &[&HELLO, &PART_ANSWER, &NO_LABEL, &ANOTHER_NOT_KEPT],
        ),
    ];
    for (heard, end, written) in sessions {
        expect_session(&rt, rt.alloc(), heard, None, Ended { end, written });
    }
}

#[test]
fn a_session_with_a_limit(rt: HostRuntime) {
    let heard: [&[u8]; 2] = [&SHARD, &ASK];
    let too_many = Err(ServeFault::TooMany);
    let limits: [(u64, Result<Served, ServeFault>, &[&[u8]]); 4] = [
        (0, too_many, &[&HELLO]),
        (1, too_many, &[&HELLO]),
        (2, too_many, &[&HELLO, &ANSWER]),
        (3, served(2, 1, 0), &[&HELLO, &ANSWER]),
    ];
    for (limit, end, written) in limits {
        expect_session(&rt, rt.alloc(), &heard, Some(limit), Ended { end, written });
    }
}

#[test]
fn an_ask_torn_at_each_byte(rt: HostRuntime) {
    let torn = Ended {
        end: Err(ServeFault::Read(FrameFault::Torn)),
        written: &[&HELLO, &ANSWER],
    };
    for count in 1..29 {
        let heard: [&[u8]; 3] = [&SHARD, &ASK, &ASK[..count]];
        expect_session(&rt, rt.alloc(), &heard, None, torn);
    }
}

// How many blocks a session over these bytes allocates. The session succeeds.
fn blocks_of_session(rt: &(impl Abort + Threads + Sync), alloc: Global, heard: &[&[u8]]) -> u64 {
    let bytes = joined(rt, alloc, heard);
    let memory = Refusing::new(alloc, Refusals::none());
    let mut source = bytes.as_slice();
    let mut sink = Vec::new(alloc);
    serve(rt, &memory, 0, &mut source, &mut sink).expect(rt, "a session");
    memory.given()
}

// An ask with the labels of the previous one allocates three blocks: for the marks and the names of the scan's numbers,
// and for its offers. The ask itself and the text of the answer need none.
#[test]
fn an_ask_that_comes_again_is_not_stored(rt: HostRuntime) {
    let once = blocks_of_session(&rt, rt.alloc(), &[&SHARD, &ASK]);
    let twice = blocks_of_session(&rt, rt.alloc(), &[&SHARD, &ASK, &ASK]);
    expect_same(&rt, twice.wrapping_sub(once), 3);
}

// An ask with coarser labels than the previous one allocates four blocks: for these labels, for marks, for names and
// for the offers. The list of the shard's live links stays. If all links became live again, a new list would need a
// block, and marks and names none.
#[test]
fn an_ask_under_coarser_labels_keeps_the_list(rt: HostRuntime) {
    let once = blocks_of_session(&rt, rt.alloc(), &[&SHARD, &ASK_OF_FOUR]);
    let twice = blocks_of_session(&rt, rt.alloc(), &[&SHARD, &ASK_OF_FOUR, &COARSER_ASK]);
    expect_same(&rt, twice.wrapping_sub(once), 4);
}

fn replied(
    rt: &(impl Abort + Threads + Sync),
    alloc: Global,
    worker: &mut Worker,
    heard: &[u8],
) -> Option<Vec<u8>> {
    let mut source = heard;
    let frame = read_frame(alloc, &mut source).expect(rt, "a frame");
    match worker.reply(rt, frame) {
        Some(reply) => Some(lawful_text(rt, alloc, &reply)),
        None => None,
    }
}

fn lawful_text(rt: &impl Abort, alloc: Global, frame: &Frame) -> Vec<u8> {
    assert!(rt; frame.is_lawful());
    encode(alloc, frame).expect(rt, "memory")
}

// The frames that a worker gets, and its replies.
const HEARD: [(&[u8], Option<&[u8]>); 8] = [
    (&ASK, Some(&NOT_KEPT)),
    (&SHARD, None),
    (&ASK, Some(&ANSWER)),
    (&SHORT_ASK, Some(&NO_LABEL)),
    (&FIRST_HELLO, None),
    (&ANSWER, None),
    (&NOT_KEPT, None),
    (&ASK, Some(&ANSWER)),
];

#[test]
fn an_engine_hears_each_kind_of_frame(rt: HostRuntime) {
    for by in [By::OneThread, By::Threads] {
        let mut worker = Worker::new(rt.alloc(), by);
        expect_replies(&rt, rt.alloc(), &mut worker);
    }
}

// The worker gets these frames one after the other, and replies like this.
fn expect_replies(rt: &(impl Abort + Threads + Sync), alloc: Global, worker: &mut Worker) {
    for (heard, reply) in HEARD {
        let replied = replied(rt, alloc, worker, heard);
        let found = match &replied {
            Some(bytes) => Some(bytes.as_slice()),
            None => None,
        };
        expect_same(rt, found, reply);
    }
}

// Returns how a session ends, and what it has written, if its source fails. The source gives the shard, the ask and
// `count` bytes of the next ask.
fn cut_session(
    rt: &(impl Abort + Threads + Sync),
    alloc: Global,
    count: usize,
) -> (Result<Served, ServeFault>, Vec<u8>)
    requires { count < 29 }
{
    let bytes = joined(rt, alloc, &[&SHARD, &ASK, &ASK]);
    let mut source = FusedSource::new(bytes, 78 + count, 5);
    let mut sink = Vec::new(alloc);
    let end = serve(rt, alloc, 0, &mut source, &mut sink);
    (end, sink)
}

#[test]
fn reads_that_fail_in_mid_session(rt: HostRuntime) {
    let owed = joined(&rt, rt.alloc(), &[&HELLO, &ANSWER]);
    for count in 0..29 {
        let (end, sink) = cut_session(&rt, rt.alloc(), count);
        let expected = Err(ServeFault::Read(FrameFault::Device));
        expect_same(
            &rt,
            (count, end, sink.as_slice()),
            (count, expected, owed.as_slice()),
        );
    }
}

// A session over these bytes ends at a write, and the sink has taken these bytes.
fn expect_cut(
    rt: &(impl Abort + Threads + Sync),
    alloc: Global,
    heard: &[&[u8]],
    mut sink: FusedSink,
    taken: &[u8],
)
    requires { sink.setbacks < 2 ^ 64 - 1 }
{
    let bytes = joined(rt, alloc, heard);
    let mut source = bytes.as_slice();
    let end = serve(rt, alloc, 0, &mut source, &mut sink);
    expect_same(rt, end, Err(ServeFault::Write));
    expect_same(rt, sink.held() == taken, true);
}

// The hello and the answer have 52 bytes, of which the sink takes `count`.
#[test]
fn writes_that_fail_in_mid_session(rt: HostRuntime) {
    let owed = joined(&rt, rt.alloc(), &[&HELLO, &ANSWER]);
    let heard: [&[u8]; 2] = [&SHARD, &ASK];
    for count in [0, 1, 7, 10, 11, 12, 24, 51] {
        assert!(rt; count < owed.len());
        let taken = &owed[..count];
        let failing = FusedSink::new(rt.alloc(), count, 7).expect(&rt, "memory");
        expect_cut(&rt, rt.alloc(), &heard, failing, taken);
        let stopping = FusedSink::stopped(rt.alloc(), count, 7).expect(&rt, "memory");
        expect_cut(&rt, rt.alloc(), &heard, stopping, taken);
    }
}

// A session gets a shard of these links and two asks for it with these labels. It answers with these offers.
fn expect_answers(
    rt: &(impl Abort + Threads + Sync),
    alloc: Global,
    links: &[Link],
    labels: &Labels,
    expected: Vec<(u32, u32)>,
) {
    let heard = shard_text(rt, alloc, &Shard { number: 3, links });
    let ask = encode_ask(alloc, 1, 3, labels).expect(rt, "memory");
    let offers = Offers::of_pairs(expected).expect(rt, "ascending");
    let text = answer_text(rt, alloc, 1, 3, offers);
    let parts: [&[u8]; 3] = [heard.as_slice(), ask.as_slice(), ask.as_slice()];
    let expected = Ended {
        end: served(3, 2, 0),
        written: &[&HELLO, text.as_slice(), text.as_slice()],
    };
    expect_session(rt, alloc, &parts, None, expected)
}

fn expect_answers_of_many(rt: &(impl Abort + Threads + Sync), alloc: Global) {
    let links = many_links(rt, alloc);
    let labels = many_labels(rt, alloc);
    let expected = plain_offers(rt, alloc, 0, links.as_slice(), &labels);
    expect_answers(rt, alloc, links.as_slice(), &labels, expected)
}

// The same for `count` links that go round the path of n vertices.
fn expect_answers_of_falling(
    rt: &(impl Abort + Threads + Sync),
    alloc: Global,
    n: u32,
    count: u32,
) {
    let links = falling(rt, alloc, n, 0, count);
    let labels = apart(rt, alloc, n);
    let expected = falling_offers(rt, alloc, n, count, &labels);
    expect_answers(rt, alloc, links.as_slice(), &labels, expected)
}

#[test]
fn sessions_over_many_links(rt: HostRuntime) {
    expect_answers_of_many(&rt, rt.alloc());
    for (n, count) in [(7, 65_536), (7, 131_073), (7, 300_000)] {
        expect_answers_of_falling(&rt, rt.alloc(), n, count);
    }
}

// Answers as long as the first write of 64 KiB, which has a head and 8,189 offers. Answers as long as that and the next
// write, which has 8,192 offers. And answers with one offer less and one more.
#[test]
fn answers_of_more_than_a_write(rt: HostRuntime) {
    for n in [8_188, 8_189, 8_190, 16_380, 16_381, 16_382, 30_000] {
        expect_answers_of_falling(&rt, rt.alloc(), n, n);
    }
}

// The hello and an answer of 20,000 offers have 160,028 bytes. The sink takes `count` of them, at most 5,000 at a time.
#[test]
fn writes_that_fail_in_a_long_answer(rt: HostRuntime) {
    let links = falling(&rt, rt.alloc(), 20_000, 0, 20_000);
    let labels = apart(&rt, rt.alloc(), 20_000);
    let pairs = falling_offers(&rt, rt.alloc(), 20_000, 20_000, &labels);
    let offers = Offers::of_pairs(pairs).expect(&rt, "ascending");
    let answer = answer_text(&rt, rt.alloc(), 1, 3, offers);
    let owed = joined(&rt, rt.alloc(), &[&HELLO, answer.as_slice()]);
    let shard = Shard {
        number: 3,
        links: links.as_slice(),
    };
    let heard = shard_text(&rt, rt.alloc(), &shard);
    let ask = encode_ask(rt.alloc(), 1, 3, &labels).expect(&rt, "memory");
    let parts: [&[u8]; 2] = [heard.as_slice(), ask.as_slice()];
    for count in [27, 28, 65_539, 65_540, 65_541, 131_076, 131_077, 160_027] {
        assert!(rt; count < owed.len());
        let failing = FusedSink::new(rt.alloc(), count, 5_000).expect(&rt, "memory");
        expect_cut(&rt, rt.alloc(), &parts, failing, &owed[..count]);
    }
}

// Each of 20,001 vertices has its own label, but this one has the label of the vertex before it. If it is 0, all have
// their own.
fn labels_but(rt: &impl Abort, alloc: Global, vertex: u32) -> Labels {
    let mut list = Vec::with_capacity(alloc, 20_001).expect(rt, "memory");
    for before in 0..20_001u32 {
        let own = before + 1;
        list.push(if own == vertex { before } else { own })
            .expect(rt, "memory");
    }
    Labels::of_list(list).expect(rt, "labels")
}

fn shard_text(rt: &impl Abort, alloc: Global, shard: &Shard) -> Vec<u8> {
    assert!(rt; shard.number < 4096 && shard.links.len() <= 1 << 24);
    encode_shard(alloc, shard).expect(rt, "memory")
}

fn answer_text(rt: &impl Abort, alloc: Global, round: u32, shard: u32, offers: Offers) -> Vec<u8> {
    let answer = Frame::Answer(Answer {
        round,
        shard,
        offers,
    });
    lawful_text(rt, alloc, &answer)
}

// The bytes of an ask of this round and shard, and of its answer. The offers come from a scan of all links.
fn asked_and_answered(
    rt: &impl Abort,
    alloc: Global,
    round: u32,
    shard: &Shard,
    labels: &Labels,
) -> (Vec<u8>, Vec<u8>) {
    let Shard { number, links } = *shard;
    assert!(rt; number < 4096 && links.len() <= 1 << 24 && have_labels(links, labels.n()));
    let ask = encode_ask(alloc, round, number, labels).expect(rt, "memory");
    let offers = scan(alloc, links, labels).expect(rt, "memory");
    (ask, answer_text(rt, alloc, round, number, offers))
}

#[derive(Drop)]
struct Texts {
    heard: Vec<u8>,
    written: Vec<u8>,
}

impl Texts {
    // An ask of a shard that isn't stored, and then one of this shard.
    fn ask(&mut self, rt: &impl Abort, alloc: Global, vertex: u32, shard: &Shard) {
        let labels = labels_but(rt, alloc, vertex);
        let not_held = encode_ask(alloc, vertex, 9, &labels).expect(rt, "memory");
        self.heard
            .extend_from_slice(not_held.as_slice())
            .expect(rt, "memory");
        self.written
            .extend_from_slice(&fault_bytes(vertex, 9, 2))
            .expect(rt, "memory");
        let (ask, answer) = asked_and_answered(rt, alloc, vertex, shard, &labels);
        self.heard
            .extend_from_slice(ask.as_slice())
            .expect(rt, "memory");
        self.written
            .extend_from_slice(answer.as_slice())
            .expect(rt, "memory");
    }

    // The shards are sent, and then there are asks for them with labels that change.
    fn ask_each(&mut self, rt: &impl Abort, alloc: Global, shards: &[Shard]) {
        for shard in shards {
            let text = shard_text(rt, alloc, shard);
            self.heard
                .extend_from_slice(text.as_slice())
                .expect(rt, "memory");
        }
        let vertices: [u32; 10] = [0, 0, 20_001, 20_001, 10_000, 0, 2, 2, 0, 20_001];
        for vertex in vertices {
            for shard in shards {
                self.ask(rt, alloc, vertex, shard);
            }
        }
    }
}

// A session over these frames writes the expected ones.
fn expect_asks(rt: &(impl Abort + Threads + Sync), alloc: Global, shards: &[Shard]) {
    let mut texts = Texts {
        heard: Vec::new(alloc),
        written: Vec::from_slice(alloc, &HELLO).expect(rt, "memory"),
    };
    texts.ask_each(rt, alloc, shards);
    let expected = Ended {
        end: served(42, 20, 20),
        written: &[texts.written.as_slice()],
    };
    expect_session(rt, alloc, &[texts.heard.as_slice()], None, expected)
}

// There are asks for two shards again and again. The labels are the same, differ only in the last, a middle or the
// first piece, coarsen the previous ones, or don't. Each answer is that of a scan of all links, also after an ask of a
// shard that isn't stored.
#[test]
fn asks_under_labels_that_change(rt: HostRuntime) {
    let first = falling(&rt, rt.alloc(), 20_001, 0, 20_000);
    let second = falling(&rt, rt.alloc(), 20_001, 7, 31_000);
    let shards = [
        Shard {
            number: 3,
            links: first.as_slice(),
        },
        Shard {
            number: 4,
            links: second.as_slice(),
        },
    ];
    expect_asks(&rt, rt.alloc(), &shards)
}
