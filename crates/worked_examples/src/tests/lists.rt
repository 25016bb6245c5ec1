// Links of arcs, labels, offers and forests, and the forests of the example graphs.
ghost use Rattle.std.specs.Prelude.{IsTrue};
ghost use Rattle.links.specs.Least.{AreDistinct};
ghost use Rattle.links.specs.Link.{EndsUpTo};

use super::drawn_lists::{expect_forest, expect_one_forest};
use super::same::expect_same;
use link_key::{Forest, Labels, Link, Offers};
use links::repeats::drop_usual_repeats;
use std::alloc::Global;
use std::process::Abort;
use worked_graphs::{Row, WORKED, links_of};

pub(crate) fn links_between(rt: &impl Abort, alloc: Global, n: u32, arcs: &[Row]) -> Vec<Link>
    ensures { EndsUpTo n result.items }
{
    links_of(alloc, n, arcs)
        .expect(rt, "memory")
        .expect(rt, "arcs")
}

// Whether the lower endpoints of the links ascend, so that the links are distinct.
pub(crate) fn have_lows_ascending(links: &[Link]) -> bool
    ensures { IsTrue result → AreDistinct links.now }
{
    links.is_sorted_by(|earlier, later| earlier.low < later.low)
}

// The solver and the simple program find the forest that was worked out by hand.
#[test]
fn forests_of_the_worked_graphs(rt: HostRuntime) {
    for graph in WORKED {
        let forest = expect_one_forest(&rt, rt.alloc(), graph.n, graph.arcs);
        let wanted = links_between(&rt, rt.alloc(), graph.n, graph.forest);
        expect_same(&rt, forest.as_slice(), wanted.as_slice());
    }
}

// A forest closes no cycle, so it is its own forest.
#[test]
fn forests_of_forests(rt: HostRuntime) {
    for graph in WORKED {
        let wanted = links_between(&rt, rt.alloc(), graph.n, graph.forest);
        expect_forest(&rt, rt.alloc(), graph.n, graph.forest, wanted.as_slice());
    }
}

#[test]
fn arcs_to_links(rt: HostRuntime) {
    let link = Link::of_arc(5, 2, 0);
    let parts = link.map(|l| (l.weight, l.low, l.high));
    expect_same(&rt, parts, Some((0, 2, 5)));
    expect_same(&rt, Link::of_arc(3, 3, 1), None);
}

#[test]
fn ascending_lists(rt: HostRuntime) {
    let ascending = links_between(&rt, rt.alloc(), 3, &[(1, 2, 5), (1, 3, 5)]);
    let repeated = links_between(&rt, rt.alloc(), 3, &[(1, 2, 5), (1, 2, 5)]);
    let wanted = ascending.clone().expect(&rt, "memory");
    let forest = Forest::of_list(ascending).expect(&rt, "ascending");
    expect_same(&rt, forest.links(), wanted.as_slice());
    expect_same(&rt, Forest::of_list(repeated).is_none(), true);
}

// Links of the vertices 1 to 4 in the order of their lower endpoints.
#[test]
fn distinct_lists(rt: HostRuntime) {
    let links = links_between(&rt, rt.alloc(), 4, &[(1, 4, 0), (3, 2, 5), (3, 4, -7)]);
    let wanted = links_between(&rt, rt.alloc(), 4, &[(3, 4, -7), (1, 4, 0), (2, 3, 5)]);
    assert!(&rt; have_lows_ascending(links.as_slice()));
    let forest = Forest::of_distinct(links);
    expect_same(&rt, forest.links(), wanted.as_slice());
}

#[test]
fn labels_of_vertices(rt: HostRuntime) {
    let apart = Labels::apart(rt.alloc(), 3).expect(&rt, "memory");
    expect_same(&rt, apart.as_slice(), [1, 2, 3].as_slice());
    let list = [1, 1, 1].to_vec(rt.alloc()).expect(&rt, "memory");
    let own = Labels::of_list(list).expect(&rt, "labels");
    expect_same(&rt, (own.n(), own.of(3)), (3, 1));
    let none = [1, 1, 2].to_vec(rt.alloc()).expect(&rt, "memory");
    expect_same(&rt, Labels::of_list(none).is_none(), true);
}

#[test]
fn offers_of_pairs(rt: HostRuntime) {
    let pairs = [(1, 0), (2, 0), (3, 2)];
    let list = pairs.to_vec(rt.alloc()).expect(&rt, "memory");
    let offers = Offers::of_pairs(list).expect(&rt, "ascending");
    expect_same(&rt, offers.pairs(), pairs.as_slice());
    let repeated = [(1, 0), (1, 2)].to_vec(rt.alloc()).expect(&rt, "memory");
    expect_same(&rt, Offers::of_pairs(repeated).is_none(), true);
}

#[test]
fn offers_that_are_known(rt: HostRuntime) {
    let list = [(1, 0), (3, 2)].to_vec(rt.alloc()).expect(&rt, "memory");
    let first = Offers::of_pairs(list).expect(&rt, "ascending");
    let copy = Vec::from_slice(rt.alloc(), first.pairs()).expect(&rt, "memory");
    let again = Offers::of_known(copy);
    expect_same(&rt, again.pairs(), [(1, 0), (3, 2)].as_slice());
}

// Drops repeats from the links of `arcs`, from an index on. The links of `wanted` are left.
fn expect_once(rt: &impl Abort, alloc: Global, arcs: &[Row], from: usize, wanted: &[Row]) {
    let mut links = links_between(rt, alloc, 70, arcs);
    assert!(rt; from <= links.len());
    drop_usual_repeats(&mut links, from);
    let wanted = links_between(rt, alloc, 70, wanted);
    expect_same(rt, (from, links.as_slice()), (from, wanted.as_slice()));
}

// Two edges in both directions, and then the first one again.
const BOTH_WAYS: [Row; 6] = [
    (1, 2, 7),
    (2, 1, 7),
    (2, 3, 5),
    (3, 2, 5),
    (2, 3, 5),
    (1, 2, 7),
];

#[test]
fn repeats_side_by_side(rt: HostRuntime) {
    let once = [(1, 2, 7), (2, 3, 5), (1, 2, 7)];
    let twice = [(1, 2, 7), (1, 2, 7), (2, 3, 5), (1, 2, 7)];
    expect_once(&rt, rt.alloc(), &BOTH_WAYS, 0, &once);
    expect_once(&rt, rt.alloc(), &BOTH_WAYS, 1, &once);
    expect_once(&rt, rt.alloc(), &BOTH_WAYS, 2, &twice);
    expect_once(&rt, rt.alloc(), &BOTH_WAYS, 5, &BOTH_WAYS);
    expect_once(&rt, rt.alloc(), &BOTH_WAYS, 6, &BOTH_WAYS);
    expect_once(&rt, rt.alloc(), &[], 0, &[]);
}

// The second of two equal links is the 64th, which is among those that are checked first, or the 65th, which isn't.
#[test]
fn repeats_past_the_sample(rt: HostRuntime) {
    for first in [64, 65] {
        let mut arcs = Vec::new(rt.alloc());
        for head in 2..first {
            arcs.push((1, head, 0)).expect(&rt, "memory");
        }
        arcs.push((69, 70, 0)).expect(&rt, "memory");
        let once = arcs.clone().expect(&rt, "memory");
        arcs.push((70, 69, 0)).expect(&rt, "memory");
        let wanted = if first == 64 { &once } else { &arcs };
        expect_once(&rt, rt.alloc(), arcs.as_slice(), 0, wanted.as_slice());
    }
}
