// The triangle of equal weights, split after its second link. The contracts of these calls say that their results are
// those in the laws of rounds. So the premises of these laws can be met. The values were worked out by hand.
ghost use Rattle.std.specs.Prelude.{◌≡◌, length};

use super::rounds::{are_of_triangle, links_to_cut, opened, picks_of_offers, picks_of_scans};
use super::same::expect_same;
use super::solving::expect_links;
use link_key::{Cut, Labels, Link};
use round_core::{Picks, Solver, Turn};
use std::alloc::Global;
use std::process::Abort;
use worked_graphs::{EQUAL_WEIGHTS, all_have_labels, have_labels};
use worker_engine::scan;

// The last link is in the second shard.
const PLACES: [usize; 1] = [2];

// In the first shard, 1 and 2 have the link between them, and 3 has the link to 2. In the second shard, 2 has no link.
const OFFERS: [&[(u32, u32)]; 2] = [&[(1, 0), (2, 0), (3, 1)], &[(1, 0), (3, 0)]];

#[test]
fn light_offers_of_the_shards(rt: HostRuntime) {
    let alloc = rt.alloc();
    let links = links_to_cut(&rt, alloc, 3, EQUAL_WEIGHTS.arcs);
    let cut = Cut::at(alloc, links.as_slice(), &PLACES).expect(&rt, "a cut");
    let labels = Labels::apart(alloc, 3).expect(&rt, "memory");
    for (shard, offers) in OFFERS.into_iter().enumerate() {
        assert!(rt; shard < 2 && (shard as u32) < cut.len());
        let links = cut.shard(shard as u32).links;
        assert!(rt; have_labels(links, labels.n()));
        let found = scan(alloc, links, &labels).expect(&rt, "memory");
        expect_same(&rt, (shard, found.pairs()), (shard, offers));
    }
}

// The pick for 3 is the lesser of both shards' offers, and the pick for 2 is its only offer, whichever shard answers
// first.
#[test]
fn shards_in_either_order(rt: HostRuntime) {
    let alloc = rt.alloc();
    let links = links_to_cut(&rt, alloc, 3, EQUAL_WEIGHTS.arcs);
    let cut = Cut::at(alloc, links.as_slice(), &PLACES).expect(&rt, "a cut");
    let labels = Labels::apart(alloc, 3).expect(&rt, "memory");
    assert!(rt; labels.n() == 3);
    for order in [[0, 1], [1, 0]] {
        let book = opened(&rt, alloc, &cut, 1, &labels);
        let picks = picks_of_scans(&rt, alloc, book, &order);
        expect_same(&rt, are_of_triangle(&picks), true);
    }
}

// If the second shard's offers are hidden, 3 picks the link to 2.
fn are_of_first_shard(picks: &Picks) -> bool
    requires { length picks.now ≡ 3 }
{
    let (least, next) = (Link::of_arc(1, 2, 5), Link::of_arc(2, 3, 5));
    picks.of(1) == least && picks.of(2) == least && picks.of(3) == next
}

// These picks aren't the forest. They still close no cycle, and they span.
#[test]
fn hidden_offers_close_no_cycle(rt: HostRuntime) {
    let alloc = rt.alloc();
    let links = links_to_cut(&rt, alloc, 3, EQUAL_WEIGHTS.arcs);
    let cut = Cut::at(alloc, links.as_slice(), &PLACES).expect(&rt, "a cut");
    let mut solver = Solver::new(alloc, 3).expect(&rt, "memory");
    assert!(rt; solver.labels().n() == 3);
    let book = opened(&rt, alloc, &cut, solver.round(), solver.labels());
    let picks = picks_of_offers(&rt, alloc, book, &[OFFERS[0], &[]]);
    expect_same(&rt, are_of_first_shard(&picks), true);
    let turn = solver.step(&picks).expect(&rt, "a turn");
    let labels = solver.labels().as_slice();
    expect_same(&rt, (turn, labels), (Turn::Merged(2), [1, 1, 1].as_slice()));
    assert!(rt; all_have_labels(&cut, solver.labels().n()));
    let found = solver.finish(&cut).expect(&rt, "a forest");
    expect_links(&rt, alloc, &found, 3, &[(1, 2, 5), (2, 3, 5)]);
}
