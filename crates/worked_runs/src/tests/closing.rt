// Books closed by several threads. The picks are those of closing by one thread, and the least of the offered links.
// This holds for enough offers for threads and for too few, for equal links and links of equal weight, and in any order
// of answers.
ghost use Rattle.std.specs.Prelude.{◌≡◌, ◌<◌, ◌≤◌, ◌^◌, length};
ghost use Rattle.round_core.specs.BookValue.{missing};

use super::rounds::opened;
use super::same::expect_same;
use frames::Answer;
use link_key::{Cut, Labels, Link, Offers};
use round_core::{Picks, RoundBook, Solver, Turn};
use std::alloc::Global;
use std::process::Abort;
use std::thread::Threads;
use worked_graphs::{all_have_labels, have_labels};
use worker_engine::scan;

// The link of a shard from a vertex to the next. There are only five weights, so the links of many shards are equal,
// and others tie.
fn step(rt: &impl Abort, shard: u32, vertex: u32) -> Link {
    assert!(rt; 0 < vertex && vertex < 1 << 20);
    let drawn = vertex.wrapping_mul(2_654_435_761) ^ shard.wrapping_mul(40_503);
    let weight = i64::from((drawn >> 9) % 5);
    Link::of_arc(vertex, vertex + 1, weight).expect(rt, "a link")
}

// `shards` shards, each with a link from each of n vertices to the next.
pub(crate) fn paths(rt: &impl Abort, alloc: Global, n: u32, shards: u32) -> Vec<Link>
    ensures few { length result.items ≤ 2 ^ 24 }
{
    let mut links = Vec::new(alloc);
    for shard in 0..shards {
        for vertex in 1..n {
            links.push(step(rt, shard, vertex)).expect(rt, "memory");
        }
    }
    assert!(rt; links.len() <= 1 << 24);
    links
}

// An answer that offers the first `count` links of a path, each for its lower endpoint.
fn first_links(rt: &impl Abort, alloc: Global, shard: u32, count: u32) -> Answer {
    let mut pairs = Vec::new(alloc);
    for place in 0..count {
        assert!(rt; place < 1 << 30);
        pairs.push((place + 1, place)).expect(rt, "memory");
    }
    let offers = Offers::of_pairs(pairs).expect(rt, "ascending");
    Answer {
        round: 1,
        shard,
        offers,
    }
}

// The book after each shard has offered its first links, as many as `counts` says, in this order of the shards.
fn heard<'a>(
    rt: &impl Abort,
    alloc: Global,
    mut book: RoundBook<'a>,
    counts: &[u32],
    order: &[u32],
) -> RoundBook<'a>
    ensures labels { result.labels ≡ book.entry.labels }
    ensures whole { missing result ≡ 0 }
{
    for shard in order {
        assert!(rt; (*shard as usize) < counts.len() && *shard < book.len());
        let answer = first_links(rt, alloc, *shard, counts[*shard as usize]);
        book.take(*shard, answer).expect(rt, "memory");
    }
    assert!(rt; book.missing() == 0);
    book
}

// The least offered link that leaves a vertex, found by going over all of them.
fn least(rt: &impl Abort, alloc: Global, counts: &[u32], vertex: u32) -> Option<Link> {
    let mut offered = Vec::new(alloc);
    let mut shard = 0u32;
    for count in counts {
        if 1 < vertex && vertex - 1 <= *count {
            offered
                .push(step(rt, shard, vertex - 1))
                .expect(rt, "memory");
        }
        if 0 < vertex && vertex <= *count {
            offered.push(step(rt, shard, vertex)).expect(rt, "memory");
        }
        shard = shard.wrapping_add(1);
    }
    offered.sort_unstable();
    offered.first().copied()
}

// The picks of a round over paths of n vertices are the least offered links, if it is closed by several threads or by
// one.
fn expect_least<R: Abort + Threads + Sync>(
    rt: &R,
    alloc: Global,
    n: u32,
    counts: &[u32],
    order: &[u32],
) {
    assert!(rt; n < 1 << 20);
    let labels = Labels::apart(alloc, n).expect(rt, "memory");
    expect_least_under(rt, alloc, &labels, counts, order)
}

// The same under these labels. No offered link joins two vertices with the same label.
fn expect_least_under<R: Abort + Threads + Sync>(
    rt: &R,
    alloc: Global,
    labels: &Labels,
    counts: &[u32],
    order: &[u32],
) {
    let n = labels.n();
    assert!(rt; n < 1 << 20 && order.len() <= 8);
    let shards = order.len() as u32;
    let links = paths(rt, alloc, n, shards);
    let cut = Cut::even(alloc, links.as_slice(), shards).expect(rt, "a cut");
    let book = opened(rt, alloc, &cut, 1, labels);
    let alone = heard(rt, alloc, book, counts, order).close();
    expect_picks(rt, alloc, &alone, n, counts);
    let book = opened(rt, alloc, &cut, 1, labels);
    let beside = heard(rt, alloc, book, counts, order).close_par(rt);
    expect_picks(rt, alloc, &beside, n, counts)
}

fn expect_picks(rt: &impl Abort, alloc: Global, picks: &Picks, n: u32, counts: &[u32])
    requires few { n < 2 ^ 20 }
    requires each_vertex { length picks.now ≡ n }
{
    for vertex in 1..n + 1 {
        let least = least(rt, alloc, counts, vertex);
        expect_same(rt, (vertex, picks.of(vertex)), (vertex, least));
    }
}

// The book after it got the light offers of each shard.
fn heard_light<'a>(rt: &impl Abort, alloc: Global, mut book: RoundBook<'a>) -> RoundBook<'a>
    ensures labels { result.labels ≡ book.entry.labels }
    ensures whole { missing result ≡ 0 }
{
    let (cut, labels) = (book.cut(), book.labels());
    for shard in 0..cut.len() {
        let links = cut.shard(shard).links;
        assert!(rt; have_labels(links, labels.n()) && shard < book.len());
        let answer = Answer {
            round: 1,
            shard,
            offers: scan(alloc, links, labels).expect(rt, "memory"),
        };
        book.take(shard, answer).expect(rt, "memory");
    }
    assert!(rt; book.missing() == 0);
    book
}

// If several threads close a round with the light offers of paths of n vertices, the picks are the least of all links.
fn expect_least_of_all<R: Abort + Threads + Sync>(rt: &R, alloc: Global, n: u32, shards: u32) {
    assert!(rt; 0 < n && n < 1 << 20 && shards <= 8);
    let labels = Labels::apart(alloc, n).expect(rt, "memory");
    let links = paths(rt, alloc, n, shards);
    let cut = Cut::even(alloc, links.as_slice(), shards).expect(rt, "a cut");
    let counts = vec![in alloc; n - 1; shards as usize].expect(rt, "memory");
    let book = opened(rt, alloc, &cut, 1, &labels);
    let picks = heard_light(rt, alloc, book).close_par(rt);
    expect_picks(rt, alloc, &picks, n, counts.as_slice())
}

// An offer for each vertex: as few as one thread counts, and more. The labels are split into four parts, of which the
// last is shorter or equally long. The offers of 40,001 vertices are halved twice when they are checked.
#[test]
fn light_offers_of_one_shard(rt: HostRuntime) {
    for n in [16_383, 16_384, 16_385, 16_387, 40_001] {
        expect_least_of_all(&rt, rt.alloc(), n, 1);
    }
}

// 160,008 light offers. If a link is offered for one component, the pick of the other component that it leaves is no
// greater.
#[test]
fn light_offers_of_many_shards(rt: HostRuntime) {
    expect_least_of_all(&rt, rt.alloc(), 20_001, 8)
}

// 160,000 offers, 20,000 of each shard, which is more than one thread counts. The order of answers changes nothing.
// Each link is offered only for its lower endpoint, so that some are less than the pick of the higher one.
#[test]
fn many_offers(rt: HostRuntime) {
    let counts = [20_000; 8];
    expect_least(&rt, rt.alloc(), 20_001, &counts, &[0, 1, 2, 3, 4, 5, 6, 7]);
    expect_least(&rt, rt.alloc(), 20_001, &counts, &[7, 6, 5, 4, 3, 2, 1, 0])
}

// As many offers. Two answers have nearly all of them, and one has none.
#[test]
fn answers_of_unequal_length(rt: HostRuntime) {
    let counts = [1, 70_000, 0, 69_999, 5];
    expect_least(&rt, rt.alloc(), 70_001, &counts, &[0, 1, 2, 3, 4]);
    expect_least(&rt, rt.alloc(), 70_001, &counts, &[4, 3, 2, 1, 0])
}

#[test]
fn one_answer(rt: HostRuntime) {
    expect_least(&rt, rt.alloc(), 140_001, &[140_000], &[0])
}

// The longer of two answers has nearly all offers.
#[test]
fn two_answers_of_unequal_length(rt: HostRuntime) {
    let counts = [140_000, 3_000];
    expect_least(&rt, rt.alloc(), 140_001, &counts, &[0, 1]);
    expect_least(&rt, rt.alloc(), 140_001, &counts, &[1, 0])
}

// The labels of the vertices up to n. Each vertex has its own label, but the last has the label of the one before it.
fn apart_but_for_the_last(rt: &impl Abort, alloc: Global, n: u32) -> Labels {
    assert!(rt; 1 < n && n < 1 << 20);
    let mut labels = Vec::new(alloc);
    for vertex in 1..n {
        labels.push(vertex).expect(rt, "memory");
    }
    labels.push(n - 1).expect(rt, "memory");
    Labels::of_list(labels).expect(rt, "labels")
}

// There are offers for all vertices but the last, which has the label of the one before it. So there is no pick for the
// last vertex.
#[test]
fn labels_apart_but_for_the_last(rt: HostRuntime) {
    let alloc = rt.alloc();
    let labels = apart_but_for_the_last(&rt, alloc, 10);
    expect_least_under(&rt, alloc, &labels, &[8, 3, 8], &[0, 1, 2]);
    let labels = apart_but_for_the_last(&rt, alloc, 20_002);
    let counts = [20_000; 8];
    expect_least_under(&rt, alloc, &labels, &counts, &[0, 1, 2, 3, 4, 5, 6, 7])
}

#[test]
fn few_offers(rt: HostRuntime) {
    expect_least(&rt, rt.alloc(), 9, &[8, 3, 8], &[0, 1, 2]);
    expect_least(&rt, rt.alloc(), 9, &[8, 3, 8], &[2, 1, 0])
}

#[test]
fn no_offer(rt: HostRuntime) {
    expect_least(&rt, rt.alloc(), 5, &[0, 0], &[1, 0])
}

// The picks of 50 vertices after a step has cleared them.
fn picks_let_go(rt: &impl Abort, alloc: Global) -> Picks {
    let links = paths(rt, alloc, 50, 1);
    let cut = Cut::even(alloc, links.as_slice(), 1).expect(rt, "a cut");
    let mut solver = Solver::new(alloc, 50).expect(rt, "memory");
    let book = opened(rt, alloc, &cut, 1, solver.labels());
    let mut picks = heard(rt, alloc, book, &[49], &[0]).close();
    let turn = solver.step_in_place(&mut picks).expect(rt, "a turn");
    expect_same(rt, turn == Turn::Done, false);
    picks
}

// A book that is opened over cleared picks has only the picks of its own answer, which offers one link.
fn expect_least_over(rt: &impl Abort, alloc: Global, picks: Picks, n: u32) {
    assert!(rt; picks.is_empty() && n < 1 << 20);
    let links = paths(rt, alloc, n, 1);
    let cut = Cut::even(alloc, links.as_slice(), 1).expect(rt, "a cut");
    let labels = Labels::apart(alloc, n).expect(rt, "memory");
    assert!(rt; all_have_labels(&cut, labels.n()));
    let book = RoundBook::open_over(picks, 1, &cut, &labels).expect(rt, "memory");
    assert!(rt; book.len() == 1 && book.missing() == 1);
    let over = heard(rt, alloc, book, &[1], &[0]).close();
    assert!(rt; n < 1 << 20);
    expect_picks(rt, alloc, &over, n, &[1])
}

// With as many labels as the picks had, with fewer, and with more.
#[test]
fn a_book_over_the_picks_of_another(rt: HostRuntime) {
    for n in [50, 30, 80] {
        let picks = picks_let_go(&rt, rt.alloc());
        expect_least_over(&rt, rt.alloc(), picks, n);
    }
}

// The same over picks that were never set.
#[test]
fn a_book_over_no_picks(rt: HostRuntime) {
    for n in [50, 30, 80] {
        let picks = Picks::none(rt.alloc(), 50).expect(&rt, "memory");
        expect_least_over(&rt, rt.alloc(), picks, n);
    }
}
