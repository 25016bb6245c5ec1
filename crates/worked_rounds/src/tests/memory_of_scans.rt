// The blocks that scans and engines allocate, which no contract counts.
ghost use Rattle.std.specs.Prelude.{◌≤◌, ◌^◌};

use super::labels::labels_of;
use super::same::expect_same;
use super::scans::{By, Worker, expect_offers, plain_offers};
use super::sizes::{apart, falling};
use frames::{Frame, Links};
use link_key::{Labels, Link, Offers};
use std::alloc::{Allocator, Global};
use std::process::Abort;
use std::thread::{Threads, available_parallelism};
use test_memory::{Refusals, Refusing};
use worked_graphs::{Row, have_labels, links_of};
use worker_engine::{Engine, Scanner, scan, scan_par};

// The numbers of vertices and links, and the most parts in which the links are scanned.
const PARTS: [(u32, u32, u64); 7] = [
    (3, 131_071, 1),
    (3, 131_072, 2),
    (65_536, 131_072, 2),
    (65_537, 131_072, 1),
    (3, 262_144, 4),
    (65_536, 262_144, 4),
    (65_537, 262_144, 2),
];

// The number of parts in which links are scanned on this machine, if there may be at most `most`.
fn parts(rt: &impl Threads, most: u64) -> u64 {
    match available_parallelism(rt) {
        Ok(processors) if processors.get() >= 4 => most,
        Ok(processors) if processors.get() >= 2 => most.min(2),
        _ => 1,
    }
}

// For `count` links between n vertices: the blocks that a scan by one thread allocates, those of a scan by threads, and
// those still allocated afterwards.
fn blocks(
    rt: &(impl Abort + Threads + Sync),
    alloc: Global,
    n: u32,
    count: u32,
) -> (u64, u64, u64) {
    let links = falling(rt, alloc, n, 0, count);
    let labels = apart(rt, alloc, n);
    blocks_of_scans(rt, alloc, links.as_slice(), &labels)
}

fn blocks_of_scans(
    rt: &(impl Abort + Threads + Sync),
    alloc: Global,
    links: &[Link],
    labels: &Labels,
) -> (u64, u64, u64) {
    assert!(rt; links.len() <= 1 << 24 && have_labels(links, labels.n()));
    let memory = Refusing::new(alloc, Refusals::none());
    drop(scan(&memory, links, labels).expect(rt, "memory"));
    let by_one = memory.given();
    drop(scan_par(rt, &memory, links, labels).expect(rt, "memory"));
    let by_threads = memory.given().wrapping_sub(by_one);
    (by_one, by_threads, memory.live())
}

// One thread allocates a block each for the list, the marks, the table and the names. Threads allocate one for the
// table of each part. Links are scanned by threads whenever there are processors for it. A part has at least as many
// links as there are vertices, so that its table costs no more than its links.
#[test]
fn a_table_for_each_part(rt: HostRuntime) {
    let alloc = rt.alloc();
    for (n, count, most) in PARTS {
        let (by_one, by_threads, live) = blocks(&rt, alloc, n, count);
        let blocks = match parts(&rt, most) {
            1 => by_one,
            parts => by_one.wrapping_sub(4).wrapping_add(parts),
        };
        expect_same(&rt, (n, count, by_threads, live), (n, count, blocks, 0));
    }
}

/// An allocator that counts its blocks, and that may make some allocations fail.
type Memory = Refusing<Global>;

// A scan of no links under the labels of n vertices gives no offers.
fn scan_none<A: Allocator + Copy>(
    rt: &impl Abort,
    alloc: Global,
    scanner: &mut Scanner<A>,
    n: u32,
) {
    let labels = apart(rt, alloc, n);
    expect_offers(rt, &scanner.scan(&[], &labels).expect(rt, "memory"), &[]);
}

// A scanner allocates its marks once, and again only if there are more labels than they have capacity for. The marks of
// 7 labels have capacity for 100.
#[test]
fn the_marks_of_a_scan_are_used_again(rt: HostRuntime) {
    let memory = Refusing::new(rt.alloc(), Refusals::none());
    let mut scanner = Scanner::new(&memory);
    expect_marks(&rt, rt.alloc(), &memory, &mut scanner)
}

fn expect_marks<'a>(
    rt: &impl Abort,
    alloc: Global,
    memory: &'a Memory,
    scanner: &mut Scanner<&'a Memory>,
) {
    for (n, given) in [
        (7, 1),
        (7, 1),
        (3, 1),
        (0, 1),
        (7, 1),
        (100, 1),
        (50, 1),
        (1000, 2),
    ] {
        scan_none(rt, alloc, scanner, n);
        expect_same(rt, (n, memory.given()), (n, given));
    }
}

// How many blocks a worker allocates to keep a shard.
fn blocks_to_keep<'a>(
    rt: &(impl Abort + Threads + Sync),
    memory: &'a Memory,
    worker: &mut Worker<&'a Memory>,
    number: u32,
) -> u64 {
    let links = falling(rt, memory, 3, 0, 2000);
    let before = memory.given();
    worker.keep(rt, number, links);
    memory.given().wrapping_sub(before)
}

// A shard's list is kept without a copy. No memory is allocated for it, except a part of a map for the first shard.
#[test]
fn a_shard_is_kept_without_a_copy(rt: HostRuntime) {
    let memory = Refusing::new(rt.alloc(), Refusals::none());
    let mut worker = Worker::new(&memory, By::OneThread);
    expect_blocks_to_keep(&rt, &memory, &mut worker)
}

fn expect_blocks_to_keep<'a>(
    rt: &(impl Abort + Threads + Sync),
    memory: &'a Memory,
    worker: &mut Worker<&'a Memory>,
) {
    for (number, blocks) in [(0, 1), (1, 0), (2, 0)] {
        let taken = blocks_to_keep(rt, memory, worker, number);
        expect_same(rt, (number, taken), (number, blocks));
    }
}

// The offers of a worker's answer under these labels, and how many allocations it makes meanwhile.
fn answered<'a>(
    rt: &(impl Abort + Threads + Sync),
    memory: &'a Memory,
    worker: &mut Worker<&'a Memory>,
    list: &[u32],
) -> (Offers<&'a Memory>, u64) {
    let labels = labels_of(rt, memory, list);
    let before = memory.asked();
    let offers = worker.answered(rt, 0, labels);
    (offers, memory.asked().wrapping_sub(before))
}

/// The label of the second of two vertices in an ask, and how many blocks the ask allocates.
type Ask = (u32, u64);

// A worker gets asks for links between two vertices: with the labels of each by itself, twice with those of one
// component, and with the first labels again.
fn expect_asks(rt: &(impl Abort + Threads + Sync), memory: &Memory, by: By, asks: &[Ask]) {
    let mut worker = Worker::new(memory, by);
    expect_asks_of(rt, memory, &mut worker, asks)
}

fn expect_asks_of<'a>(
    rt: &(impl Abort + Threads + Sync),
    memory: &'a Memory,
    worker: &mut Worker<&'a Memory>,
    asks: &[Ask],
) {
    worker.keep(rt, 0, falling(rt, memory, 2, 0, 131_072));
    for (second, blocks) in asks {
        let taken = blocks_of_ask(rt, memory, worker, *second);
        expect_same(rt, taken, *blocks);
    }
}

// How many allocations a worker makes to answer, if the second of two vertices has this label.
fn blocks_of_ask<'a>(
    rt: &(impl Abort + Threads + Sync),
    memory: &'a Memory,
    worker: &mut Worker<&'a Memory>,
    second: u32,
) -> u64 {
    let (_offers, taken) = answered(rt, memory, worker, &[1, second]);
    taken
}

const BY_ONE: [Ask; 4] = [(2, 5), (1, 2), (1, 2), (2, 3)];

const BY_HALVES: [Ask; 4] = [(2, 3), (1, 2), (1, 0), (2, 3)];

// An answer with offers allocates one block. With one thread, the first ask lists the links in one block. So does an
// ask whose labels make all links live again. Each of these also allocates one block for the names. At first there is
// one each for the marks and the table, which are used again.
//
// With threads, each part makes a table, and nothing is listed. With the labels of one component, the next ask lists no
// link, so no number has a name. If a list has names, each later ask allocates two blocks for them.
#[test]
fn links_laid_aside_are_scanned_no_more(rt: HostRuntime) {
    let memory = Refusing::new(rt.alloc(), Refusals::none());
    expect_asks(&rt, &memory, By::OneThread, &BY_ONE);
    let by_threads = if parts(&rt, 2) == 2 {
        BY_HALVES
    } else {
        BY_ONE
    };
    expect_asks(&rt, &memory, By::Threads, &by_threads)
}

// Both directions of a link, one after the other.
const DIRECTIONS: [Row; 2] = [(1, 2, 3), (2, 1, 3)];

// A list of the first of them is made before the first scan. A block for both links is replaced by a smaller one. Then
// the marks, the table, the names and the offers get a block each.
#[test]
fn links_of_both_directions_are_listed_at_once(rt: HostRuntime) {
    let memory = Refusing::new(rt.alloc(), Refusals::none());
    let links = links_of(&memory, 2, &DIRECTIONS)
        .expect(&rt, "memory")
        .expect(&rt, "arcs");
    let mut worker = Worker::new(&memory, By::OneThread);
    worker.keep(&rt, 0, links);
    let taken = blocks_of_ask(&rt, &memory, &mut worker, 2);
    expect_same(&rt, taken, 6);
}

/// The labels of three vertices in an ask, and how many allocations the ask makes.
type CoarserAsk = ([u32; 3], u64);

/// The number of links between three vertices, and the asks for them.
type Asked = (u32, [CoarserAsk; 4]);

// A worker gets asks for links between three vertices: with the labels of each by itself, twice with those of two
// components, and with those of one. Each time it answers as a scan does.
fn expect_coarser_asks(
    rt: &(impl Abort + Threads + Sync),
    alloc: Global,
    memory: &Memory,
    by: By,
    asked: &Asked,
) {
    let mut worker = Worker::new(memory, by);
    expect_coarser_asks_of(rt, alloc, memory, &mut worker, asked)
}

fn expect_coarser_asks_of<'a>(
    rt: &(impl Abort + Threads + Sync),
    alloc: Global,
    memory: &'a Memory,
    worker: &mut Worker<&'a Memory>,
    asked: &Asked,
) {
    let (count, asks) = asked;
    let count = *count;
    worker.keep(rt, 0, falling(rt, memory, 3, 0, count));
    for (list, blocks) in asks {
        let (offers, taken) = answered(rt, memory, worker, list);
        expect_same(rt, (count, taken), (count, *blocks));
        expect_scanned(rt, alloc, &offers, count, list);
    }
}

// The offers are those of a scan of the worker's `count` links under these labels.
fn expect_scanned<A: Allocator>(
    rt: &impl Abort,
    alloc: Global,
    offers: &Offers<A>,
    count: u32,
    list: &[u32],
) {
    let links = falling(rt, alloc, 3, 0, count);
    let links = links.as_slice();
    let labels = labels_of(rt, alloc, list);
    assert!(rt; links.len() <= 1 << 24 && have_labels(links, labels.n()));
    let expected = scan(alloc, links, &labels).expect(rt, "memory");
    expect_offers(rt, offers, expected.pairs());
}

// Fewer links than vertices, and more.
const LISTED: [Asked; 3] = [
    (
        1,
        [
            ([1, 2, 3], 5),
            ([1, 1, 3], 2),
            ([1, 1, 3], 2),
            ([1, 1, 1], 2),
        ],
    ),
    (
        2,
        [
            ([1, 2, 3], 5),
            ([1, 1, 3], 4),
            ([1, 1, 3], 3),
            ([1, 1, 1], 2),
        ],
    ),
    (
        2000,
        [
            ([1, 2, 3], 5),
            ([1, 1, 3], 4),
            ([1, 1, 3], 3),
            ([1, 1, 1], 2),
        ],
    ),
];

// Before the first scan the live links are listed, in one block, and numbered. That takes one block for the marks and
// one for the table, which are used again, and one for the names. Each later ask allocates one for the names and one
// for what becomes of them. If only some links are laid aside, it allocates a smaller one for the list. Each answer
// with offers allocates one.
#[test]
fn live_links_are_listed_once(rt: HostRuntime) {
    for by in [By::OneThread, By::Threads] {
        for asked in &LISTED {
            let memory = Refusing::new(rt.alloc(), Refusals::none());
            expect_coarser_asks(&rt, rt.alloc(), &memory, by, asked);
        }
    }
}

// The offers of an engine's answer to an ask for its shard, if each of n vertices is by itself. If the engine runs out
// of memory, it gets the ask once more.
fn answered_at_last<'a>(
    rt: &impl Abort,
    memory: &'a Memory,
    engine: &mut Engine<&'a Memory>,
    n: u32,
) -> Offers<&'a Memory> {
    assert!(rt; n <= 1 << 26);
    for _time in 0..2 {
        let Ok(labels) = Labels::apart(memory, n) else {
            continue;
        };
        let ask = Frame::Ask {
            round: 1,
            shard: 0,
            labels,
        };
        assert!(rt; ask.is_lawful());
        if let Ok(Some(Frame::Answer(answer))) = engine.hear(ask) {
            return answer.offers;
        }
    }
    panic!(rt; "no answer")
}

// An engine gets three asks for the links of a path, and gives these offers each time. Returns how many allocations
// there were before the second ask, and in all.
fn asked_three_times(
    rt: &impl Abort,
    memory: &Memory,
    n: u32,
    expected: &[(u32, u32)],
) -> (u64, u64) {
    let mut engine = Engine::new(memory);
    let shard = Frame::Shard {
        number: 0,
        links: Links::of_list(falling(rt, memory, n, 0, n.saturating_sub(1))),
    };
    assert!(rt; shard.is_lawful());
    expect_same(rt, engine.hear(shard).expect(rt, "memory").is_none(), true);
    expect_offers(rt, &answered_at_last(rt, memory, &mut engine, n), expected);
    let before = memory.asked();
    for _ask in 0..2 {
        expect_offers(rt, &answered_at_last(rt, memory, &mut engine, n), expected);
    }
    (before, memory.asked())
}

// Each allocation of the second and third ask fails once by itself, and then there is another ask for the shard.
#[test]
fn a_list_where_memory_is_wanted(rt: HostRuntime) {
    let n = 4096;
    let links = falling(&rt, rt.alloc(), n, 0, n.saturating_sub(1));
    let labels = apart(&rt, rt.alloc(), n);
    let expected = plain_offers(&rt, rt.alloc(), 0, links.as_slice(), &labels);
    let memory = Refusing::new(rt.alloc(), Refusals::none());
    let (before, all) = asked_three_times(&rt, &memory, n, expected.as_slice());
    expect_same(&rt, before < all, true);
    for number in before..all {
        let memory = Refusing::new(rt.alloc(), Refusals::only(number.wrapping_add(1)));
        asked_three_times(&rt, &memory, n, expected.as_slice());
    }
}
