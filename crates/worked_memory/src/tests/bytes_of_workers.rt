// The most bytes that the calls of a worker and of a wire use, per vertex, link and offer, for small and large inputs.
ghost use Rattle.std.specs.Prelude.{◌≤◌, ◌^◌, length};
ghost use Rattle.links.specs.Link.{EndsUpTo};

use super::bytes::{List, Memory, counted, links_in, most_beside};
use super::same::expect_same;
use frames::{Frame, ask_parts, encode_ask, encode_shard, read_frame};
use link_key::{Cut, Labels, Link, Shard};
use ports::{EngineLine, Port, Wire};
use std::alloc::Global;
use std::process::Abort;
use worked_graphs::have_labels;
use worker_engine::{Engine, Scanner, scan};

#[derive(Clone, Copy, Debug, PartialEq, Eq)]
enum Call {
    Scan,
    ScanAgain,
    EncodeShard,
    EncodeAsk,
    AskParts,
    ReadShard,
    ReadAsk,
}

// The peak of a first scan, or of a second scan with the same table. Each vertex is a component by itself.
fn of_scan(rt: &impl Abort, memory: &Memory, call: Call, n: u32, links: &[Link]) -> u64
    requires vertices { n ≤ 2 ^ 26 }
    requires few { length links.now ≤ 2 ^ 24 }
    requires ends { EndsUpTo n links.now }
{
    let labels = Labels::apart(memory, n).expect(rt, "memory");
    assert!(rt; have_labels(links, labels.n()));
    let mut scanner = Scanner::new(memory);
    if call == Call::ScanAgain {
        drop(scanner.scan(links, &labels).expect(rt, "memory"));
    }
    let before = memory.watch();
    if call == Call::ScanAgain {
        drop(scanner.scan(links, &labels).expect(rt, "memory"));
    } else {
        drop(scan(memory, links, &labels).expect(rt, "memory"));
    }
    most_beside(memory, before)
}

fn of_writing(rt: &impl Abort, memory: &Memory, call: Call, n: u32, links: &[Link]) -> u64
    requires vertices { n ≤ 2 ^ 26 }
    requires few { length links.now ≤ 2 ^ 24 }
{
    let mut labels = Labels::apart(memory, n).expect(rt, "memory");
    labels.spell().expect(rt, "memory");
    let before = memory.watch();
    match call {
        Call::EncodeShard => {
            let shard = Shard { number: 0, links };
            drop(encode_shard(memory, &shard).expect(rt, "memory"));
        }
        Call::EncodeAsk => drop(encode_ask(memory, 1, 0, &labels).expect(rt, "memory")),
        _ => expect_same(rt, ask_parts(1, 0, &labels).is_some(), true),
    }
    most_beside(memory, before)
}

fn of_reading(
    rt: &impl Abort,
    alloc: Global,
    memory: &Memory,
    call: Call,
    n: u32,
    links: &[Link],
) -> u64
    requires vertices { n ≤ 2 ^ 26 }
    requires few { length links.now ≤ 2 ^ 24 }
{
    let text = if call == Call::ReadShard {
        let shard = Shard { number: 0, links };
        encode_shard(alloc, &shard).expect(rt, "memory")
    } else {
        let labels = Labels::apart(alloc, n).expect(rt, "memory");
        encode_ask(alloc, 1, 0, &labels).expect(rt, "memory")
    };
    let mut source = text.as_slice();
    drop(read_frame(memory, &mut source).expect(rt, "a frame"));
    memory.bytes().most
}

fn taken(rt: &impl Abort, alloc: Global, call: Call, n: u32, links: &[Link]) -> u64
    requires vertices { n ≤ 2 ^ 26 }
    requires few { length links.now ≤ 2 ^ 24 }
    requires ends { EndsUpTo n links.now }
{
    let memory = counted(alloc);
    match call {
        Call::Scan | Call::ScanAgain => of_scan(rt, &memory, call, n, links),
        Call::EncodeShard | Call::EncodeAsk | Call::AskParts => {
            of_writing(rt, &memory, call, n, links)
        }
        _ => of_reading(rt, alloc, &memory, call, n, links),
    }
}

// The most bytes that the documentation of the call allows. An offer has 8 bytes in a list that doubles as it grows,
// and there is at most one per vertex. Reading a frame may use four times its length for a list, and three times for a
// body.
fn allowed(call: Call, list: List, links: u64) -> u64 {
    let vertices = u64::from(list.n);
    let offers = vertices.wrapping_mul(24).wrapping_add(64);
    // the list of the links, 12 bytes each, and the numbers of their labels, 4 bytes each
    let listed = links
        .wrapping_mul(12)
        .wrapping_add(vertices.wrapping_mul(4));
    // the table, 8 bytes per label, and the marks, a quarter of a byte per vertex
    let table = vertices
        .wrapping_mul(8)
        .wrapping_add(vertices / 4)
        .wrapping_add(64);
    let each_link = if list.weights <= 1_000 { 12 } else { 16 };
    let shard = links.wrapping_mul(each_link).wrapping_add(13);
    let ask = vertices.wrapping_mul(4).wrapping_add(17);
    match call {
        Call::Scan => table.wrapping_add(listed).wrapping_add(offers),
        Call::ScanAgain => listed.wrapping_add(offers),
        Call::EncodeShard => shard,
        Call::EncodeAsk => ask,
        Call::AskParts => 0,
        Call::ReadShard => shard.wrapping_mul(4),
        Call::ReadAsk => ask.wrapping_mul(3),
    }
}

const CALLS: [Call; 7] = [
    Call::Scan,
    Call::ScanAgain,
    Call::EncodeShard,
    Call::EncodeAsk,
    Call::AskParts,
    Call::ReadShard,
    Call::ReadAsk,
];

#[test]
fn bytes_of_scans_and_frames(rt: HostRuntime) {
    for (n, arcs, weights) in [
        (1_000, 2_000, 1_000),
        (100_000, 200_000, 1_000),
        (100, 100_000, i64::MAX),
    ] {
        let list = List { n, arcs, weights };
        let links = links_in(&rt, rt.alloc(), list);
        assert!(&rt; n <= 1 << 26);
        for call in CALLS {
            let took = taken(&rt, rt.alloc(), call, n, links.as_slice());
            let most = allowed(call, list, links.len() as u64);
            expect_same(&rt, (call, list, took.max(most)), (call, list, most));
        }
    }
}

// Reads a frame from these bytes, passes it to the engine and drops the reply. Returns the bytes that are still
// allocated then, and the most that the engine used meanwhile.
fn live_behind<'a>(
    rt: &impl Abort,
    memory: &'a Memory,
    engine: &mut Engine<&'a Memory>,
    text: &[u8],
) -> (u64, u64) {
    let mut source = text;
    let frame: Frame<&Memory> = read_frame(memory, &mut source).expect(rt, "a frame");
    assert!(rt; frame.is_lawful());
    let before = memory.watch();
    drop(engine.hear(frame).expect(rt, "memory"));
    (memory.bytes().now, most_beside(memory, before))
}

// An engine keeps its last shard, 16 bytes per link, and a list of the shard's live links, 12 bytes each. It keeps the
// labels of its last ask, 4 bytes per vertex. It keeps the table of its last scan, 8 bytes and a bit per vertex, and 4
// bytes per vertex for the labels of its numbers.
//
// An ask uses no more than the list, the table and the offers. With the same labels, the second ask, the third ask,
// and the second ask after the shard was sent again leave the same number of bytes allocated.
fn expect_kept(rt: &impl Abort, alloc: Global, list: List) {
    let links = links_in(rt, alloc, list);
    let links = links.as_slice();
    let shard = Shard { number: 0, links };
    let shard = encode_shard(alloc, &shard).expect(rt, "memory");
    assert!(rt; list.n <= 1 << 26);
    let labels = Labels::apart(alloc, list.n).expect(rt, "memory");
    let ask = encode_ask(alloc, 1, 0, &labels).expect(rt, "memory");
    let memory = counted(alloc);
    let mut engine = Engine::new(&memory);
    let [shard, ask] = [shard.as_slice(), ask.as_slice()];
    let mut lives = Vec::new(alloc);
    for text in [shard, ask, ask, ask, shard, ask, ask] {
        let live = live_behind(rt, &memory, &mut engine, text);
        lives.push(live).expect(rt, "memory");
    }
    let behind = |place: usize| lives.get(place).map(|it| it.0);
    expect_same(rt, (behind(3), behind(6)), (behind(2), behind(2)));
    let vertices = u64::from(list.n);
    let links = links.len() as u64;
    let kept = vertices
        .wrapping_mul(17)
        .wrapping_add(links.wrapping_mul(28))
        .wrapping_add(4096);
    let took = vertices
        .wrapping_mul(37)
        .wrapping_add(links.wrapping_mul(12))
        .wrapping_add(4096);
    for (live, most) in &lives {
        expect_same(rt, (*live).max(kept), kept);
        expect_same(rt, (*most).max(took), took);
    }
    drop(engine);
    expect_same(rt, memory.bytes().now, 0);
}

#[test]
fn bytes_that_an_engine_keeps(rt: HostRuntime) {
    for (n, arcs) in [(1_000, 2_000), (20_000, 40_000)] {
        let list = List {
            n,
            arcs,
            weights: 1_000,
        };
        expect_kept(&rt, rt.alloc(), list);
    }
}

// A wire has a buffer for a part of a shard. For a shard of more than a megabyte it uses less than 128 KiB, with the
// answer.
#[test]
fn bytes_of_a_wire_to_a_long_shard(rt: HostRuntime) {
    let list = List {
        n: 100,
        arcs: 100_000,
        weights: i64::MAX,
    };
    let links = links_in(&rt, rt.alloc(), list);
    let calm = counted(rt.alloc());
    let memory = counted(rt.alloc());
    let cut = Cut::even(&calm, links.as_slice(), 1).expect(&rt, "a cut");
    let labels = Labels::apart(&calm, 100).expect(&rt, "memory");
    let line = EngineLine::new(&calm, 0).expect(&rt, "memory");
    let mut wire = Wire::new(&memory, line, &cut, 0);
    assert!(&rt; cut.len() == 1 && have_labels(cut.shard(0).links, labels.n()));
    let answered = wire.ask(1, 0, &labels).is_ok();
    let most = memory.bytes().most;
    let found = (answered, most.max(128 << 10));
    expect_same(&rt, found, (true, 128 << 10));
}
