// Calls that may run out of memory, each with enough memory and at the sizes at which it works in another way. These
// are no link and no label, and one. Then sizes from which on links are scanned by threads or in more parts, one less
// and one more, and the greatest allowed size. The proofs allow a call to give up at some size, so only these tests
// show that it doesn't. Formulas here give the expected results.
ghost use Rattle.std.specs.Prelude.{◌<◌, ◌^◌};

use super::same::expect_same;
use super::scans::{By, Worker, neighbours, plain_offers, scanned};
use link_key::{Labels, Link};
use std::alloc::{Allocator, Global};
use std::process::Abort;
use std::thread::Threads;
use worker_engine::Scanner;

type Size = (u32, u32);

// 131,072 links are scanned in two parts, 262,144 in four parts on four processors, and 524,288 in eight on eight. But
// a part has at least as many links as there are vertices.
const SIZES: [Size; 20] = [
    (0, 0),
    (1, 0),
    (2, 0),
    (2, 1),
    (100, 63),
    (100, 64),
    (100, 65),
    (100, 128),
    (100, 129),
    (3, 65_535),
    (3, 65_536),
    (3, 65_537),
    (3, 131_071),
    (3, 131_072),
    (3, 131_073),
    (65_536, 131_072),
    (65_537, 131_072),
    (3, 262_142),
    (3, 262_144),
    (3, 524_288),
];

// The number of links of the path of n vertices, but at least one.
fn steps(n: u32) -> u32
    ensures some { 0 < result }
    ensures few { result < 2 ^ 20 }
{
    if 1 < n && n < 1 << 20 { n - 1 } else { 1 }
}

// Links that go round the path of n vertices again and again, each lighter than the one before. These are the links
// from index `from` to before index `to`.
pub(crate) fn falling<A: Allocator>(
    rt: &impl Abort,
    alloc: A,
    n: u32,
    from: u32,
    to: u32,
) -> Vec<Link, A> {
    let path = steps(n);
    let mut links = Vec::with_capacity(alloc, to.saturating_sub(from) as usize).expect(
        rt, "memory",
    );
    for i in from..to {
        let low = i % path + 1;
        let weight = -i64::from(i);
        if let Some(link) = Link::of_arc(low, low + 1, weight) {
            links.push(link).expect(rt, "memory");
        }
    }
    links
}

// The offers of `count` such links. The last ones, once round the path, are the least.
pub(crate) fn falling_offers(
    rt: &impl Abort,
    alloc: Global,
    n: u32,
    count: u32,
    labels: &Labels,
) -> Vec<(u32, u32)> {
    let from = count.saturating_sub(n);
    let last = falling(rt, alloc, n, from, count);
    plain_offers(rt, alloc, from, last.as_slice(), labels)
}

pub(crate) fn apart(rt: &impl Abort, alloc: Global, n: u32) -> Labels {
    neighbours(rt, alloc, n, 1)
}

#[test]
fn scans_of_each_size(rt: HostRuntime) {
    let alloc = rt.alloc();
    let mut scanner = Scanner::new(alloc);
    for size in SIZES {
        expect_scan(&rt, alloc, &mut scanner, size);
    }
}

// A scan of such links gives these offers, if each vertex is a component by itself.
fn expect_scan(
    rt: &(impl Abort + Threads + Sync),
    alloc: Global,
    scanner: &mut Scanner,
    size: Size,
) {
    let (n, count) = size;
    let links = falling(rt, alloc, n, 0, count);
    let labels = apart(rt, alloc, n);
    let expected = falling_offers(rt, alloc, n, count, &labels);
    let offers = scanned(rt, alloc, scanner, links.as_slice(), &labels);
    expect_same(rt, (size, offers.pairs()), (size, expected.as_slice()));
}

// A worker that keeps such links answers with their offers, if each component has this many neighbours.
fn expect_answer(
    rt: &(impl Abort + Threads + Sync),
    alloc: Global,
    worker: &mut Worker,
    size: Size,
    component: u32,
)
    requires { 0 < component }
{
    let (n, count) = size;
    let labels = neighbours(rt, alloc, n, component);
    let expected = falling_offers(rt, alloc, n, count, &labels);
    let offers = worker.answered(rt, 0, labels);
    expect_same(rt, (size, offers.pairs()), (size, expected.as_slice()));
}

// The first ask has the labels of each vertex by itself, and goes over all links. The next two have the labels of
// pairs, and the second of them goes over half of the links.
fn expect_answers(rt: &(impl Abort + Threads + Sync), alloc: Global, by: By, size: Size) {
    let mut worker = Worker::new(alloc, by);
    expect_answers_of(rt, alloc, &mut worker, size)
}

fn expect_answers_of(
    rt: &(impl Abort + Threads + Sync),
    alloc: Global,
    worker: &mut Worker,
    size: Size,
) {
    worker.keep(rt, 0, falling(rt, alloc, size.0, 0, size.1));
    for component in [1, 2, 2] {
        expect_answer(rt, alloc, worker, size, component);
    }
}

#[test]
fn engines_of_each_size(rt: HostRuntime) {
    for size in SIZES {
        for by in [By::OneThread, By::Threads] {
            expect_answers(&rt, rt.alloc(), by, size);
        }
    }
}

#[test]
fn an_engine_keeps_the_longest_shard(rt: HostRuntime) {
    expect_answers(&rt, rt.alloc(), By::Threads, (3, 1 << 24))
}

fn expect_shard(
    rt: &(impl Abort + Threads + Sync),
    alloc: Global,
    worker: &mut Worker,
    number: u32,
) {
    worker.keep(rt, number, falling(rt, alloc, 2, 0, 1));
    worker.expect_answer(rt, number, apart(rt, alloc, 2), &[(1, 0), (2, 0)])
}

// An engine keeps the greatest allowed number of shards. Each is sent twice, and there is an ask after each time.
#[test]
fn as_many_shards_as_there_may_be(rt: HostRuntime) {
    for by in [By::OneThread, By::Threads] {
        let mut worker = Worker::new(rt.alloc(), by);
        for turn in 0..8192 {
            expect_shard(&rt, rt.alloc(), &mut worker, turn % 4096);
        }
    }
}
