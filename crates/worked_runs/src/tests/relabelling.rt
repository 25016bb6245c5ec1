// Labels that follow from a round's picks.
ghost use Rattle.std.specs.Prelude.{◌<◌};

use super::rounds::{links_to_cut, opened, picks_of_offers};
use super::same::expect_same;
use super::solving::path;
use link_key::{Cut, Labels};
use round_core::hook_relabel;
use std::alloc::Global;
use std::process::Abort;
use worked_graphs::{EQUAL_WEIGHTS, Row, SMALL_NET};

const MANY: u32 = 10_000;

/// A round over arcs as one shard: the labels before it, the arcs, the offers of its only answer, and the labels after
/// it.
type Round<'a> = (&'a [u32], &'a [Row], &'a [(u32, u32)], &'a [u32]);

fn expect_relabelled(rt: &impl Abort, alloc: Global, round: Round) {
    let (before, arcs, pairs, behind) = round;
    let labels = Labels::of_list(before.to_vec(alloc).expect(rt, "memory")).expect(rt, "labels");
    let links = links_to_cut(rt, alloc, labels.n(), arcs);
    let cut = Cut::even(alloc, links.as_slice(), 1).expect(rt, "a cut");
    let book = opened(rt, alloc, &cut, 1, &labels);
    let picks = picks_of_offers(rt, alloc, book, &[pairs]);
    let made = hook_relabel(alloc, &labels, &picks).expect(rt, "memory");
    expect_same(rt, made.as_slice() == behind, true);
}

#[test]
fn labels_that_are_known(rt: HostRuntime) {
    let first = Labels::of_list([1, 2, 1].to_vec(rt.alloc()).expect(&rt, "memory")).expect(
        &rt, "labels",
    );
    let copy = Vec::from_slice(rt.alloc(), first.as_slice()).expect(&rt, "memory");
    let again = Labels::of_known(copy);
    expect_same(&rt, again.as_slice(), [1, 2, 1].as_slice());
}

// In the first round of the small net the least link of each vertex is picked. In the second round it is the link
// between the two components that are left. An answer that hides links merges fewer components, whether or not its
// offers are the least. An empty answer merges none. There may be no vertex, or one.
//
// In the last rows the triangle's first link has joined 1 and 2, and its last link joins 3 to them.
#[test]
fn rounds_of_small_graphs(rt: HostRuntime) {
    let net = SMALL_NET.arcs;
    let apart = [1, 2, 3, 4, 5, 6].as_slice();
    let merged = [1, 2, 1, 1, 2, 1].as_slice();
    let rounds: [Round; 8] = [
        (
            apart,
            net,
            &[(1, 1), (2, 6), (3, 4), (4, 4), (5, 6), (6, 5)],
            merged,
        ),
        (merged, net, &[(1, 3), (2, 3)], &[1, 1, 1, 1, 1, 1]),
        (apart, net, &[(6, 7)], &[1, 2, 3, 4, 5, 5]),
        (apart, net, &[], apart),
        (&[], &[], &[], &[]),
        (&[1], &[], &[], &[1]),
        (&[1, 2], &[(1, 2, 7)], &[(2, 0)], &[1, 1]),
        (
            &[1, 1, 3],
            EQUAL_WEIGHTS.arcs,
            &[(1, 2), (3, 2)],
            &[1, 1, 1],
        ),
    ];
    for round in rounds {
        expect_relabelled(&rt, rt.alloc(), round);
    }
}

// The labels of many vertices in components of `size` neighbours each, named by the first.
fn neighbours(rt: &impl Abort, alloc: Global, size: u32) -> Vec<u32>
    requires { 0 < size }
{
    let mut labels = Vec::new(alloc);
    for i in 0..MANY {
        labels
            .push(i.wrapping_sub(i % size).wrapping_add(1))
            .expect(rt, "memory");
    }
    labels
}

// Offers for every second vertex from `first` on, which is odd. Each offers the link at that vertex, or the one
// `before` links earlier.
fn offers_from(rt: &impl Abort, alloc: Global, first: u32, before: u32) -> Vec<(u32, u32)> {
    let mut pairs = Vec::new(alloc);
    for half in first / 2..MANY / 2 {
        let behind = 2 * half;
        pairs
            .push((behind + 1, behind.wrapping_sub(before)))
            .expect(rt, "memory");
    }
    pairs
}

// A path from vertex 1 on. Every second arc is picked, and then the rest. The last vertex, whose number is the
// greatest, gets the least label.
#[test]
fn ten_thousand_vertices(rt: HostRuntime) {
    let alloc = rt.alloc();
    let arcs = path(&rt, alloc, MANY - 1);
    let arcs = arcs.as_slice();
    let apart = neighbours(&rt, alloc, 1);
    let lower = neighbours(&rt, alloc, 2);
    let pairs = offers_from(&rt, alloc, 1, 0);
    let first = (apart.as_slice(), arcs, pairs.as_slice(), lower.as_slice());
    expect_relabelled(&rt, alloc, first);
    let ones = neighbours(&rt, alloc, MANY);
    let between = offers_from(&rt, alloc, 3, 1);
    let second = (lower.as_slice(), arcs, between.as_slice(), ones.as_slice());
    expect_relabelled(&rt, alloc, second)
}
