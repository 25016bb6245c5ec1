// A worker's scan, by one thread and by threads, compared with a plain program. The lists have repeats, and weights
// that many links share. An engine lays links aside as components grow.
ghost use Rattle.std.specs.Prelude.{◌<◌};
ghost use Rattle.frames.specs.FrameValue.{value_of};
ghost use Rattle.frames.specs.Lawful.{IsLawful};
ghost use Rattle.frames.specs.FrameStream.{AreLawful};
ghost use Rattle.worker_replies.specs.Serving.{replies_in};

use super::labels::labels_of;
use super::same::expect_same;
use frames::{Frame, Links};
use link_key::{Labels, Link, Offers};
use std::alloc::{AllocError, Allocator, Global};
use std::process::Abort;
use std::thread::Threads;
use worked_graphs::{Row, have_labels, links_of};
use worker_engine::{Engine, Scanner, scan, scan_par};

// The offers of links that are few enough and whose endpoints all have labels. Each kind of scan gives the same offers.
// The scanner may have been used before.
pub(crate) fn scanned(
    rt: &(impl Abort + Threads + Sync),
    alloc: Global,
    scanner: &mut Scanner,
    links: &[Link],
    labels: &Labels,
) -> Offers {
    assert!(rt; links.len() <= 1 << 24 && have_labels(links, labels.n()));
    let offers = scan(alloc, links, labels).expect(rt, "memory");
    expect_given(rt, scan_par(rt, alloc, links, labels), offers.pairs());
    expect_given(rt, scanner.scan(links, labels), offers.pairs());
    expect_given(rt, scanner.scan_par(rt, links, labels), offers.pairs());
    offers
}

#[derive(Clone, Copy)]
pub(crate) enum By {
    OneThread,
    Threads,
}

#[derive(Drop)]
pub(crate) struct Worker<A: Allocator = Global> {
    engine: Engine<A>,
    by: By,
}

impl<A: Allocator + Copy + Send + Sync> Worker<A> {
    pub(crate) fn new(alloc: A, by: By) -> Self {
        Worker {
            engine: Engine::new(alloc),
            by,
        }
    }

    // The worker's reply to a frame. Both have to be lawful.
    pub(crate) fn reply(
        &mut self,
        rt: &(impl Abort + Threads + Sync),
        frame: Frame<A>,
    ) -> Option<Frame<A>>
        ensures { AreLawful (replies_in result) }
    {
        assert!(rt; frame.is_lawful());
        let heard = match self.by {
            By::OneThread => self.engine.hear(frame),
            By::Threads => self.engine.hear_par(rt, frame),
        };
        heard.expect(rt, "memory")
    }

    // The worker gets a shard with these links, and doesn't reply.
    pub(crate) fn keep(
        &mut self,
        rt: &(impl Abort + Threads + Sync),
        number: u32,
        links: Vec<Link, A>,
    ) {
        let shard = Frame::Shard {
            number,
            links: Links::of_list(links),
        };
        let reply = self.reply(rt, shard);
        expect_same(rt, reply.is_none(), true);
    }

    // The offers of the worker's answer to an ask of this shard with these labels.
    pub(crate) fn answered(
        &mut self,
        rt: &(impl Abort + Threads + Sync),
        shard: u32,
        labels: Labels<A>,
    ) -> Offers<A> {
        let ask = Frame::Ask {
            round: 1,
            shard,
            labels,
        };
        match self.reply(rt, ask).expect(rt, "a reply") {
            Frame::Answer(answer) => answer.offers,
            _ => panic!(rt; "no answer"),
        }
    }

    pub(crate) fn expect_answer(
        &mut self,
        rt: &(impl Abort + Threads + Sync),
        shard: u32,
        labels: Labels<A>,
        expected: &[(u32, u32)],
    ) {
        let offers = self.answered(rt, shard, labels);
        expect_offers(rt, &offers, expected);
    }
}

pub(crate) fn expect_offers<A: Allocator>(
    rt: &impl Abort,
    offers: &Offers<A>,
    expected: &[(u32, u32)],
) {
    expect_same(rt, offers.pairs(), expected);
}

fn expect_given(rt: &impl Abort, given: Result<Offers, AllocError>, expected: &[(u32, u32)]) {
    expect_offers(rt, &given.expect(rt, "memory"), expected);
}

pub(crate) fn links_between(rt: &impl Abort, alloc: Global, n: u32, arcs: &[Row]) -> Vec<Link> {
    let links = links_of(alloc, n, arcs).expect(rt, "memory");
    links.expect(rt, "arcs")
}

// The offers by a plain program. It sorts the links, equal ones by index, and offers for each component the first link
// that leaves it. The index of the first link is `from`.
pub(crate) fn plain_offers(
    rt: &impl Abort,
    alloc: Global,
    from: u32,
    links: &[Link],
    labels: &Labels,
) -> Vec<(u32, u32)> {
    let sorted = ascending(rt, alloc, from, links);
    let labels = labels.as_slice();
    let mut firsts = Vec::from_elem(alloc, None, labels.len()).expect(rt, "memory");
    for (link, place) in &sorted {
        let low = label_of(labels, link.low).expect(rt, "a label");
        let high = label_of(labels, link.high).expect(rt, "a label");
        if low != high {
            offer(firsts.as_mut_slice(), low, *place).expect(rt, "a component");
            offer(firsts.as_mut_slice(), high, *place).expect(rt, "a component");
        }
    }
    numbered(rt, alloc, firsts.as_slice())
}

// The links with their indices, from `from` on, in ascending order.
fn ascending(rt: &impl Abort, alloc: Global, from: u32, links: &[Link]) -> Vec<(Link, u32)> {
    let mut sorted = Vec::new(alloc);
    let mut place = from;
    for link in links {
        sorted.push((*link, place)).expect(rt, "memory");
        place = place.wrapping_add(1);
    }
    sorted.as_mut_slice().sort_unstable();
    sorted
}

fn label_of(labels: &[u32], vertex: u32) -> Option<u32> {
    labels.get((vertex as usize).checked_sub(1)?).copied()
}

// Offers the index for the component of this label, if there is one, unless another index was offered for it before.
fn offer(firsts: &mut [Option<u32>], label: u32, place: u32) -> Option<()> {
    let first = firsts.get_mut((label as usize).checked_sub(1)?)?;
    *first = first.or(Some(place));
    Some(())
}

// The indices that there are, each after the number of its component, counted from 1.
fn numbered(rt: &impl Abort, alloc: Global, firsts: &[Option<u32>]) -> Vec<(u32, u32)> {
    let mut pairs = Vec::new(alloc);
    let mut component: u32 = 0;
    for first in firsts {
        component = component.wrapping_add(1);
        if let Some(place) = *first {
            pairs.push((component, place)).expect(rt, "memory");
        }
    }
    pairs
}

// Components of `size` of n neighbours each, named by the first.
pub(crate) fn neighbours(rt: &impl Abort, alloc: Global, n: u32, size: u32) -> Labels
    requires { 0 < size }
{
    let mut list = Vec::new(alloc);
    for i in 0..n {
        list.push(i.wrapping_sub(i % size).wrapping_add(1))
            .expect(rt, "memory");
    }
    Labels::of_list(list).expect(rt, "labels")
}

const MANY: u32 = 10_000;

// Links between 10,000 vertices. The last 3,000 repeat the first ones, and hundreds of links share each weight.
pub(crate) fn many_links(rt: &impl Abort, alloc: Global) -> Vec<Link> {
    let mut arcs = Vec::new(alloc);
    for i in 0..MANY {
        let j = i % 7000;
        let tail = j.wrapping_mul(7919) % MANY + 1;
        let head = j.wrapping_mul(j) % 9973 + 1;
        let weight = j.wrapping_mul(31) % 17;
        arcs.push((tail, head, i64::from(weight) - 8))
            .expect(rt, "memory");
    }
    links_between(rt, alloc, MANY, arcs.as_slice())
}

// The vertices up to 5,000 form components of fifty, and each greater vertex is a component by itself.
pub(crate) fn many_labels(rt: &impl Abort, alloc: Global) -> Labels {
    let mut list = Vec::new(alloc);
    for i in 0..MANY {
        let first = if i < 5000 { i.wrapping_sub(i % 50) } else { i };
        list.push(first.wrapping_add(1)).expect(rt, "memory");
    }
    Labels::of_list(list).expect(rt, "labels")
}

// Enough links to be scanned by threads, between 1,007 vertices, each near the next. Each link is repeated about forty
// times. The lower 32 bits of each weight are 0.
const NEAR_LINKS: u32 = 300_000;

const PAST_32_BITS: i64 = 1 << 32;

const NEAR: u32 = 1010;

fn near_links(rt: &impl Abort, alloc: Global) -> Vec<Link> {
    let mut arcs = Vec::new(alloc);
    for i in 0..NEAR_LINKS {
        let low = i % 1000 + 1;
        let weight = i64::from(i.wrapping_mul(7919) % 101);
        arcs.push((low, low + i % 7 + 1, weight.wrapping_mul(PAST_32_BITS)))
            .expect(rt, "memory");
    }
    links_between(rt, alloc, NEAR, arcs.as_slice())
}

// What another program found of the offers: how many there are, the first three, the one at an index, and the last
// three.
#[derive(Clone, Copy)]
struct Known {
    count: usize,
    first: [(u32, u32); 3],
    place: usize,
    at_place: (u32, u32),
    last: [(u32, u32); 3],
}

const OF_MANY: Known = Known {
    count: 4358,
    first: [(1, 5184), (51, 6986), (101, 2549)],
    place: 2179,
    at_place: (7418, 5142),
    last: [(9998, 6962), (9999, 4641), (10_000, 2320)],
};

const OF_NEAR: Known = Known {
    count: 1007,
    first: [(1, 0), (2, 0), (3, 202_000)],
    place: 503,
    at_place: (504, 282_497),
    last: [(1005, 130_997), (1006, 19_998), (1007, 76_999)],
};

fn expect_known(rt: &impl Abort, pairs: &[(u32, u32)], known: &Known) {
    let found = (pairs.len(), pairs.get(known.place));
    expect_same(rt, found, (known.count, Some(&known.at_place)));
    let ends = (
        pairs.starts_with(&known.first),
        pairs.ends_with(&known.last),
    );
    expect_same(rt, ends, (true, true));
}

// The offers of a graph of three vertices, each a component by itself, are these.
fn expect_offers_of_three(
    rt: &(impl Abort + Threads + Sync),
    alloc: Global,
    scanner: &mut Scanner,
    arcs: &[Row],
    expected: &[(u32, u32)],
) {
    let labels = Labels::apart(alloc, 3).expect(rt, "memory");
    let links = links_between(rt, alloc, 3, arcs);
    let offers = scanned(rt, alloc, scanner, links.as_slice(), &labels);
    expect_offers(rt, &offers, expected);
}

const TRIANGLE: [Row; 3] = [(1, 2, 5), (2, 3, 5), (1, 3, 5)];

// After a scan of a triangle, the offers of these links are the known ones, and those of the plain program.
fn expect_known_offers(
    rt: &(impl Abort + Threads + Sync),
    alloc: Global,
    scanner: &mut Scanner,
    list: (&[Link], &Labels),
    known: &Known,
) {
    let (links, labels) = list;
    expect_offers_of_three(rt, alloc, scanner, &TRIANGLE, &[(1, 0), (2, 0), (3, 2)]);
    let offers = scanned(rt, alloc, scanner, links, labels);
    expect_known(rt, offers.pairs(), known);
    let expected = plain_offers(rt, alloc, 0, links, labels);
    expect_offers(rt, &offers, expected.as_slice());
}

fn expect_offers_of_many(rt: &(impl Abort + Threads + Sync), alloc: Global, scanner: &mut Scanner) {
    let links = many_links(rt, alloc);
    let labels = many_labels(rt, alloc);
    expect_known_offers(rt, alloc, scanner, (links.as_slice(), &labels), &OF_MANY)
}

fn expect_offers_of_near(rt: &(impl Abort + Threads + Sync), alloc: Global, scanner: &mut Scanner) {
    let links = near_links(rt, alloc);
    let labels = Labels::apart(alloc, NEAR).expect(rt, "memory");
    expect_known_offers(rt, alloc, scanner, (links.as_slice(), &labels), &OF_NEAR)
}

// One scanner for lists of any length. Threads scan some of them.
#[test]
fn scans_one_after_the_other(rt: HostRuntime) {
    let mut scanner = Scanner::new(rt.alloc());
    expect_offers_of_many(&rt, rt.alloc(), &mut scanner);
    expect_offers_of_near(&rt, rt.alloc(), &mut scanner)
}

// Weights whose lower 32 bits are equal, and weights at and next to both limits of 64 bits. Only whole keys tell them
// apart.
#[test]
fn weights_past_32_bits(rt: HostRuntime) {
    let alloc = rt.alloc();
    let graphs: [(&[Row], &[(u32, u32)]); 5] = [
        (
            &[(1, 2, 4294967301), (2, 3, 5), (1, 3, -4294967291)],
            &[(1, 2), (2, 1), (3, 2)],
        ),
        (
            &[(1, 2, 2147483648), (2, 3, -2147483648), (1, 3, 0)],
            &[(1, 2), (2, 1), (3, 1)],
        ),
        (
            &[(1, 2, i64::MAX), (2, 3, i64::MAX - 1), (1, 3, i64::MIN)],
            &[(1, 2), (2, 1), (3, 2)],
        ),
        (
            &[(1, 2, i64::MIN + 1), (2, 3, i64::MIN), (1, 3, i64::MIN + 1)],
            &[(1, 0), (2, 1), (3, 1)],
        ),
        (
            &[(2, 3, i64::MAX), (1, 3, i64::MAX), (1, 3, i64::MAX)],
            &[(1, 1), (2, 0), (3, 1)],
        ),
    ];
    let mut scanner = Scanner::new(alloc);
    for (arcs, expected) in graphs {
        expect_offers_of_three(&rt, alloc, &mut scanner, arcs, expected);
    }
}

// Many weights farther than 2^30 from zero share a short key. Here all three weights share one, or are where sharing
// begins.
const FAR: i64 = 1 << 30;

const FARTHER: i64 = 1 << 33;

#[test]
fn weights_of_one_short_key(rt: HostRuntime) {
    let alloc = rt.alloc();
    let graphs: [([i64; 3], [(u32, u32); 3]); 9] = [
        ([FAR + 2, FAR + 1, FAR + 3], [(1, 0), (2, 1), (3, 1)]),
        ([-FAR - 2, -FAR - 1, -FAR - 3], [(1, 2), (2, 0), (3, 2)]),
        ([FAR, FAR - 1, FAR + 1], [(1, 0), (2, 1), (3, 1)]),
        ([-FAR, 1 - FAR, -FAR - 1], [(1, 2), (2, 0), (3, 2)]),
        ([0, -1, 1], [(1, 0), (2, 1), (3, 1)]),
        ([FARTHER, FARTHER - 1, FARTHER], [(1, 0), (2, 1), (3, 1)]),
        (
            [-FARTHER, 1 - FARTHER, -FARTHER - 1],
            [(1, 2), (2, 0), (3, 2)],
        ),
        (
            [i64::MAX - 1, i64::MAX, i64::MAX - 2],
            [(1, 2), (2, 0), (3, 2)],
        ),
        (
            [i64::MIN + 1, i64::MIN + 2, i64::MIN],
            [(1, 2), (2, 0), (3, 2)],
        ),
    ];
    let mut scanner = Scanner::new(alloc);
    for (weights, expected) in graphs {
        let arcs = [(1, 2, weights[0]), (2, 3, weights[1]), (1, 3, weights[2])];
        expect_offers_of_three(&rt, alloc, &mut scanner, &arcs, &expected);
    }
}

// How many neighbours form a component, and for how many of two shards there are asks.
const COMPONENTS: [(u32, u32); 9] = [
    (1, 2),
    (2, 2),
    (10, 1),
    (50, 2),
    (50, 2),
    (1000, 2),
    (2, 2),
    (10, 1),
    (1, 2),
];

// Two shards of many links. There are asks for them in turn as components grow, and then with labels that don't coarsen
// the last ones.
#[test]
fn many_links_laid_aside(rt: HostRuntime) {
    let alloc = rt.alloc();
    let links = many_links(&rt, alloc);
    let mut worker = Worker::new(alloc, By::OneThread);
    expect_laid_aside(&rt, alloc, &mut worker, links.as_slice())
}

fn expect_laid_aside(
    rt: &(impl Abort + Threads + Sync),
    alloc: Global,
    worker: &mut Worker,
    links: &[Link],
) {
    for number in 0..2 {
        worker.keep(rt, number, links.to_vec(alloc).expect(rt, "memory"));
    }
    for (size, shards) in COMPONENTS {
        for shard in 0..shards {
            expect_plain(rt, alloc, worker, (shard, links), (MANY, size));
        }
    }
}

// The worker answers an ask of a shard of this many vertices with the offers that the plain program finds. `components`
// has the number of vertices and the size of each component.
fn expect_plain(
    rt: &(impl Abort + Threads + Sync),
    alloc: Global,
    worker: &mut Worker,
    shard: (u32, &[Link]),
    components: (u32, u32),
)
    requires { 0 < components.1 }
{
    let (n, size) = components;
    let labels = neighbours(rt, alloc, n, size);
    let expected = plain_offers(rt, alloc, 0, shard.1, &labels);
    worker.expect_answer(rt, shard.0, labels, expected.as_slice())
}

// As components grow, fewer and fewer of the links are live. At the first ask there are enough for a scan by threads.
#[test]
fn many_live_links_by_threads(rt: HostRuntime) {
    let alloc = rt.alloc();
    let links = near_links(&rt, alloc);
    let mut near = Near {
        worker: Worker::new(alloc, By::Threads),
        scanner: Scanner::new(alloc),
    };
    near.expect_fewer_and_fewer(&rt, alloc, links.as_slice())
}

/// A worker that keeps the links of near vertices as its only shard, and a scanner to compare with.
#[derive(Drop)]
struct Near {
    worker: Worker,
    scanner: Scanner,
}

impl Near {
    // The worker gets the links, and answers as the scanner does as components grow, and then with labels that don't
    // coarsen the last ones.
    fn expect_fewer_and_fewer(
        &mut self,
        rt: &(impl Abort + Threads + Sync),
        alloc: Global,
        links: &[Link],
    ) {
        self.worker
            .keep(rt, 0, links.to_vec(alloc).expect(rt, "memory"));
        for size in [1, 2, 4, 8, 8, 16, 1010, 4] {
            self.expect_scanned(rt, alloc, links, size);
        }
    }

    // The worker answers as the scanner scans the links, if each component has `size` neighbours.
    fn expect_scanned(
        &mut self,
        rt: &(impl Abort + Threads + Sync),
        alloc: Global,
        links: &[Link],
        size: u32,
    )
        requires { 0 < size }
    {
        let labels = neighbours(rt, alloc, NEAR, size);
        let expected = scanned(rt, alloc, &mut self.scanner, links, &labels);
        self.worker.expect_answer(rt, 0, labels, expected.pairs())
    }
}

// Lists of about half as many links as vertices, and of twice as many links as vertices.
#[test]
fn half_as_many_links_as_vertices(rt: HostRuntime) {
    let links = near_links(&rt, rt.alloc());
    for by in [By::OneThread, By::Threads] {
        for count in [NEAR / 2 - 1, NEAR / 2, NEAR / 2 + 1, 2 * NEAR] {
            let few = links.as_slice().get(..count as usize).expect(&rt, "links");
            let mut near = Near {
                worker: Worker::new(rt.alloc(), by),
                scanner: Scanner::new(rt.alloc()),
            };
            near.expect_fewer_and_fewer(&rt, rt.alloc(), few);
        }
    }
}

// The distances between the vertices of a path.
const GAPS: [u32; 10] = [1, 254, 255, 256, 510, 511, 2, 3, 1, 7];

// The last vertex of a path of 6,000 links over such vertices.
const FAR_APART: u32 = 1_080_001;

fn far_links(rt: &impl Abort, alloc: Global) -> Vec<Link> {
    let mut arcs = Vec::new(alloc);
    let mut vertex = 1u32;
    for i in 0..600u32 {
        for gap in GAPS {
            let next = vertex.wrapping_add(gap);
            let weight = i.wrapping_mul(7919).wrapping_add(gap) % 101;
            arcs.push((vertex, next, i64::from(weight)))
                .expect(rt, "memory");
            vertex = next;
        }
    }
    links_between(rt, alloc, FAR_APART, arcs.as_slice())
}

// A shard with links between 6,001 of 1,080,001 labels, some near the one before and some far from it.
#[test]
fn links_of_labels_that_lie_far_apart(rt: HostRuntime) {
    let links = far_links(&rt, rt.alloc());
    for by in [By::OneThread, By::Threads] {
        let mut worker = Worker::new(rt.alloc(), by);
        worker.keep(&rt, 0, links.to_vec(rt.alloc()).expect(&rt, "memory"));
        for size in [1, 1, 2, 4, 4, 256, 2048, FAR_APART] {
            expect_plain(
                &rt,
                rt.alloc(),
                &mut worker,
                (0, links.as_slice()),
                (FAR_APART, size),
            );
        }
    }
}

fn expect_under(
    rt: &(impl Abort + Threads + Sync),
    alloc: Global,
    worker: &mut Worker,
    list: &[u32],
    expected: &[(u32, u32)],
) {
    let labels = labels_of(rt, alloc, list);
    worker.expect_answer(rt, 0, labels, expected)
}

#[test]
fn links_laid_aside_are_live_again(rt: HostRuntime) {
    for by in [By::OneThread, By::Threads] {
        let mut worker = Worker::new(rt.alloc(), by);
        expect_live_again(&rt, rt.alloc(), &mut worker);
    }
}

// The worker gets a triangle, and asks for it as components grow, and then with labels that don't coarsen the last
// ones.
fn expect_live_again(rt: &(impl Abort + Threads + Sync), alloc: Global, worker: &mut Worker) {
    let all: &[(u32, u32)] = &[(1, 0), (2, 0), (3, 2)];
    let asked: [(&[u32], &[(u32, u32)]); 5] = [
        (&[1, 2, 3], all),
        (&[1, 1, 3], &[(1, 2), (3, 2)]),
        (&[1, 1, 1], &[]),
        (&[1, 2, 3], all),
        (&[1, 2, 3, 4], all),
    ];
    let triangle = links_between(rt, alloc, 3, &TRIANGLE);
    worker.keep(rt, 0, triangle);
    expect_each(rt, alloc, worker, &asked)
}

fn expect_each(
    rt: &(impl Abort + Threads + Sync),
    alloc: Global,
    worker: &mut Worker,
    asked: &[(&[u32], &[(u32, u32)])],
) {
    for (list, expected) in asked {
        expect_under(rt, alloc, worker, list, expected);
    }
}

// Links in both directions, and links with several weights between the same two vertices: a lesser one after a greater,
// and the other way round. Between 1 or 2 and 3 or 4, and from these to 5, links of one weight have different keys.
const PARALLEL: [Row; 16] = [
    (1, 2, 3),
    (2, 1, 3),
    (2, 1, 1),
    (1, 2, 1),
    (3, 4, 5),
    (4, 3, 4),
    (3, 4, 6),
    (1, 3, 9),
    (2, 4, 8),
    (1, 4, 8),
    (2, 3, 8),
    (5, 6, 7),
    (6, 5, 7),
    (4, 5, 2),
    (3, 5, 2),
    (3, 6, 10),
];

// The offers of these links with labels that coarsen the ones before, and, twice, with labels that don't.
const UNDER: [(&[u32], &[(u32, u32)]); 9] = [
    (
        &[1, 2, 3, 4, 5, 5],
        &[(1, 2), (2, 2), (3, 14), (4, 13), (5, 14)],
    ),
    (&[1, 1, 3, 4, 5, 5], &[(1, 9), (3, 14), (4, 13), (5, 14)]),
    (&[1, 1, 3, 3, 5, 5], &[(1, 9), (3, 14), (5, 14)]),
    (&[1, 1, 1, 1, 5, 5], &[(1, 14), (5, 14)]),
    (&[1, 1, 3, 3, 5, 6], &[(1, 9), (3, 14), (5, 14), (6, 11)]),
    (&[1, 1, 1, 1, 5, 6], &[(1, 14), (5, 14), (6, 11)]),
    (&[1, 1, 1, 1, 1, 6], &[(1, 11), (6, 11)]),
    (&[1, 1, 1, 1, 1, 1], &[]),
    (
        &[1, 2, 3, 4, 5, 6],
        &[(1, 2), (2, 2), (3, 14), (4, 13), (5, 14), (6, 11)],
    ),
];

fn expect_scan(
    rt: &(impl Abort + Threads + Sync),
    alloc: Global,
    scanner: &mut Scanner,
    links: &[Link],
    under: (&[u32], &[(u32, u32)]),
) {
    let (list, expected) = under;
    let labels = labels_of(rt, alloc, list);
    let offers = scanned(rt, alloc, scanner, links, &labels);
    expect_offers(rt, &offers, expected);
}

// Scans of the whole list give the offers of each row.
fn expect_scans(rt: &(impl Abort + Threads + Sync), alloc: Global, links: &[Link]) {
    let mut scanner = Scanner::new(alloc);
    for under in UNDER {
        expect_scan(rt, alloc, &mut scanner, links, under);
    }
}

// A worker that keeps the list answers with the offers of each row.
fn expect_heard(rt: &(impl Abort + Threads + Sync), alloc: Global, by: By, links: &[Link]) {
    let mut worker = Worker::new(alloc, by);
    worker.keep(rt, 0, links.to_vec(alloc).expect(rt, "memory"));
    expect_each(rt, alloc, &mut worker, &UNDER)
}

// The least of parallel links is kept, whichever comes first. A scan of the whole list gives the same offers.
#[test]
fn parallel_links_are_laid_aside(rt: HostRuntime) {
    let alloc = rt.alloc();
    let links = links_between(&rt, alloc, 6, &PARALLEL);
    expect_scans(&rt, alloc, links.as_slice());
    expect_heard(&rt, alloc, By::OneThread, links.as_slice());
    expect_heard(&rt, alloc, By::Threads, links.as_slice())
}
