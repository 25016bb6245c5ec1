// A solver's steps on the example graphs, and whole runs by one thread.
ghost use Rattle.std.specs.Prelude.{◌≡◌, length};
ghost use Rattle.round_core.specs.Picks.{ArePicksOfHearings};

use super::closing::paths;
use super::rounds::{expect_text, links_to_cut, opened, picks_of_offers, picks_of_scans};
use super::same::expect_same;
use link_key::{Cut, Forest, Labels, Link};
use round_core::{Picks, SolveFault, Solver, Turn, solve_alone};
use std::alloc::Global;
use std::process::Abort;
use std::thread::Threads;
use worked_graphs::{
    A_PATH_OF_EIGHT, EQUAL_WEIGHTS, Row, SMALL_NET, WIDE_WEIGHTS, all_have_labels, links_of,
};

/// A round: the order in which its shards are scanned, what the step returns, and the labels after it.
type Step<'a> = (&'a [u32], Turn, &'a [u32]);

/// Arcs between the vertices 1 to n, split at these positions. Then the rounds, from separate vertices on, and the
/// forest.
#[derive(Clone, Copy)]
struct Rounds<'a> {
    n: u32,
    arcs: &'a [Row],
    places: &'a [usize],
    steps: &'a [Step<'a>],
    forest: &'a [Row],
}

// The picks of the solver's next round if the cut's shards are scanned in this order.
fn next_picks(rt: &impl Abort, alloc: Global, cut: &Cut, order: &[u32], solver: &Solver) -> Picks
    ensures heard { ArePicksOfHearings solver.now.labels result }
    ensures each_vertex { length result ≡ length solver.now.labels }
{
    let book = opened(rt, alloc, cut, solver.round(), solver.labels());
    picks_of_scans(rt, alloc, book, order)
}

// A round whose shards are scanned in this order. From its beginning the labels store their encoded bytes, and the new
// labels store theirs.
fn step(rt: &impl Abort, alloc: Global, cut: &Cut, order: &[u32], solver: &mut Solver) -> Turn {
    let before = solver
        .labels()
        .as_slice()
        .to_vec(alloc)
        .expect(rt, "memory");
    solver.spell_labels().expect(rt, "memory");
    expect_same(rt, solver.labels().as_slice() == before.as_slice(), true);
    expect_same(rt, have_their_bytes(solver.labels()), true);
    let picks = next_picks(rt, alloc, cut, order, solver);
    let turn = solver.step(&picks).expect(rt, "a turn");
    expect_same(rt, have_their_bytes(solver.labels()), true);
    turn
}

// A step that clears the picks gives the same result as one that keeps them. The labels' encoded bytes stay right, and
// no pick is left.
fn expect_same_step(
    rt: &impl Abort,
    alloc: Global,
    cut: &Cut,
    one: &mut Solver,
    other: &mut Solver,
) -> Turn {
    let picks = next_picks(rt, alloc, cut, &[0], one);
    let mut same = next_picks(rt, alloc, cut, &[0], other);
    let turn = one.step(&picks).expect(rt, "a turn");
    let in_place = other.step_in_place(&mut same).expect(rt, "a turn");
    expect_same(rt, (in_place, same.is_empty()), (turn, true));
    expect_same(
        rt,
        other.labels().as_slice() == one.labels().as_slice(),
        true,
    );
    expect_same(rt, have_their_bytes(other.labels()), true);
    turn
}

// Whether the labels store their encoded bytes: four of each, the highest first.
fn have_their_bytes(labels: &Labels) -> bool {
    let Some(mut rest) = labels.spelled() else {
        return false;
    };
    for label in labels.as_slice() {
        match rest.split_first_chunk::<4>() {
            Some((first, behind)) if *first == label.to_be_bytes() => rest = behind,
            _ => return false,
        }
    }
    rest.is_empty()
}

// All steps over a path of n vertices, with picks that are kept and with picks that are cleared, and the forests at the
// end.
fn expect_same_steps(rt: &impl Abort, alloc: Global, n: u32) {
    assert!(rt; 1 < n && n <= 1 << 20);
    let links = paths(rt, alloc, n, 1);
    let cut = Cut::even(alloc, links.as_slice(), 1).expect(rt, "a cut");
    let mut one = Solver::new(alloc, n).expect(rt, "memory");
    let mut other = Solver::new(alloc, n).expect(rt, "memory");
    other.spell_labels().expect(rt, "memory");
    let mut turn = Turn::Merged(0);
    for _ in 0..20 {
        if turn == Turn::Done {
            break;
        }
        turn = expect_same_step(rt, alloc, &cut, &mut one, &mut other);
    }
    expect_same(rt, (turn, one.round()), (Turn::Done, other.round()));
    assert!(rt;
        all_have_labels(&cut, one.labels().n()) && all_have_labels(&cut, other.labels().n())
    );
    let found = other.finish(&cut).expect(rt, "a forest");
    let alone = one.finish(&cut).expect(rt, "a forest");
    expect_same(rt, found.links() == alone.links(), true);
}

#[test]
fn steps_in_place(rt: HostRuntime) {
    for n in [40, 140_001] {
        expect_same_steps(&rt, rt.alloc(), n);
    }
}

// Takes these steps over the cut, from separate vertices on, and returns the solver after them.
fn taken(rt: &impl Abort, alloc: Global, n: u32, cut: &Cut, steps: &[Step]) -> Solver {
    assert!(rt; n <= 1 << 26);
    let mut solver = Solver::new(alloc, n).expect(rt, "memory");
    let mut round = 1u32;
    for (order, expected, behind) in steps {
        expect_same(rt, solver.round(), round);
        let turn = step(rt, alloc, cut, order, &mut solver);
        let same = solver.labels().as_slice() == *behind;
        expect_same(rt, (turn, same), (*expected, true));
        round = round.wrapping_add(if turn == Turn::Done { 0 } else { 1 });
    }
    expect_same(rt, solver.round(), round);
    solver
}

fn expect_rounds(rt: &(impl Abort + Threads + Sync), alloc: Global, rounds: Rounds) {
    let n = rounds.n;
    let links = links_to_cut(rt, alloc, n, rounds.arcs);
    let cut = Cut::at(alloc, links.as_slice(), rounds.places).expect(rt, "a cut");
    let solver = taken(rt, alloc, n, &cut, rounds.steps);
    assert!(rt; all_have_labels(&cut, solver.labels().n()));
    let found = solver.finish(&cut).expect(rt, "a forest");
    expect_links(rt, alloc, &found, n, rounds.forest);
    let by_threads = solver.finish_par(rt, &cut).expect(rt, "a forest");
    expect_same(rt, by_threads.links() == found.links(), true);
}

pub(crate) fn expect_links(rt: &impl Abort, alloc: Global, found: &Forest, n: u32, arcs: &[Row]) {
    let links = links_of(alloc, n, arcs)
        .expect(rt, "memory")
        .expect(rt, "arcs");
    expect_same(rt, found.links() == links.as_slice(), true);
}

fn ascending(rt: &impl Abort, alloc: Global, count: u32) -> Vec<u32> {
    let mut order = Vec::new(alloc);
    for shard in 0..count {
        order.push(shard).expect(rt, "memory");
    }
    order
}

#[test]
fn steps_on_the_small_net(rt: HostRuntime) {
    let merged = [1, 2, 1, 1, 2, 1].as_slice();
    let ones = [1; 6].as_slice();
    let steps: [Step; 3] = [
        (&[0, 1], Turn::Merged(4), merged),
        (&[1, 0], Turn::Merged(1), ones),
        (&[0, 1], Turn::Done, ones),
    ];
    let rounds = Rounds {
        n: 6,
        arcs: SMALL_NET.arcs,
        places: &[4],
        steps: &steps,
        forest: SMALL_NET.forest,
    };
    expect_rounds(&rt, rt.alloc(), rounds)
}

// One round finds the triangle's forest, and the next finds no link to take. The second shard answers first.
#[test]
fn steps_on_the_triangle(rt: HostRuntime) {
    let ones = [1; 3].as_slice();
    let steps: [Step; 2] = [
        (&[1, 0], Turn::Merged(2), ones),
        (&[0, 1], Turn::Done, ones),
    ];
    let rounds = Rounds {
        n: 3,
        arcs: EQUAL_WEIGHTS.arcs,
        places: &[2],
        steps: &steps,
        forest: EQUAL_WEIGHTS.forest,
    };
    expect_rounds(&rt, rt.alloc(), rounds)
}

// No vertex, one, and two. They are in one shard and in the most that are allowed: a cut at no position, and at 4,095.
#[test]
fn steps_at_their_bounds(rt: HostRuntime) {
    let alloc = rt.alloc();
    let places = [0; 4095];
    let order = ascending(&rt, alloc, 4096);
    let graphs: [(u32, &[Row], Turn, &[u32]); 3] = [
        (0, &[], Turn::Done, &[]),
        (1, &[], Turn::Done, &[1]),
        (2, &[(1, 2, 7)], Turn::Merged(1), &[1, 1]),
    ];
    for (n, arcs, first, behind) in graphs {
        let cuts: [(&[usize], &[u32]); 2] = [(&[], &[0]), (&places, order.as_slice())];
        for (places, order) in cuts {
            let steps: [Step; 2] = [(order, first, behind), (order, Turn::Done, behind)];
            let rounds = Rounds {
                n,
                arcs,
                places,
                steps: &steps,
                forest: arcs,
            };
            expect_rounds(&rt, alloc, rounds);
        }
    }
}

// Four vertices with the greatest and the least weights, and the forest. Vertices 1 and 2 are joined by one of the
// greatest links, 3 and 4 by the least. The first of the greatest links between the pairs joins both.
pub(crate) const LIMITS: [Row; 5] = [
    (1, 2, i64::MAX),
    (2, 3, i64::MAX),
    (3, 4, i64::MIN),
    (1, 4, i64::MAX),
    (2, 4, i64::MAX),
];

pub(crate) const LIMITS_FOREST: [Row; 3] = [(3, 4, i64::MIN), (1, 2, i64::MAX), (1, 4, i64::MAX)];

#[test]
fn steps_at_both_limits_of_weights(rt: HostRuntime) {
    let pairs = [1, 1, 3, 3].as_slice();
    let ones = [1; 4].as_slice();
    let steps: [Step; 3] = [
        (&[0, 1], Turn::Merged(2), pairs),
        (&[1, 0], Turn::Merged(1), ones),
        (&[0, 1], Turn::Done, ones),
    ];
    for place in 0..6 {
        let rounds = Rounds {
            n: 4,
            arcs: &LIMITS,
            places: &[place],
            steps: &steps,
            forest: &LIMITS_FOREST,
        };
        expect_rounds(&rt, rt.alloc(), rounds);
    }
}

fn offer(
    rt: &impl Abort,
    alloc: Global,
    cut: &Cut,
    solver: &mut Solver,
    pairs: &[(u32, u32)],
) -> Result<Turn, SolveFault> {
    let book = opened(rt, alloc, cut, solver.round(), solver.labels());
    let picks = picks_of_offers(rt, alloc, book, &[pairs]);
    solver.step(&picks)
}

// A worker that offers one link per round and hides the third. Three vertices can't have a second merging round.
#[test]
fn a_round_past_the_bound(rt: HostRuntime) {
    let alloc = rt.alloc();
    let links = links_to_cut(&rt, alloc, EQUAL_WEIGHTS.n, EQUAL_WEIGHTS.arcs);
    let cut = Cut::even(alloc, links.as_slice(), 1).expect(&rt, "a cut");
    let mut solver = Solver::new(alloc, 3).expect(&rt, "memory");
    let rounds = [
        ((1, 0), Ok(Turn::Merged(1))),
        ((3, 1), Err(SolveFault::Rounds { round: 2 })),
    ];
    for (pair, expected) in rounds {
        let said = offer(&rt, alloc, &cut, &mut solver, &[pair]);
        expect_same(&rt, said, expected);
        expect_same(&rt, solver.labels().as_slice(), [1, 1, 3].as_slice());
        expect_same(&rt, solver.round(), 2);
    }
    expect_missed(&rt, &solver, &cut, Link::of_arc(2, 3, 5));
    expect_missed_by_threads(&rt, solver, &cut, Link::of_arc(2, 3, 5));
}

// The solver misses this link of the cut, if threads search for it.
fn expect_missed_by_threads(
    rt: &(impl Abort + Threads + Sync),
    solver: Solver,
    cut: &Cut,
    expected: Option<Link>,
) {
    assert!(rt; all_have_labels(cut, solver.labels().n()));
    let missed = solver.finish_par(rt, cut).err();
    expect_same(rt, is_missed(missed, expected), true);
}

// Offers of the first `count` links of a path, each for its higher endpoint.
fn first_pairs(rt: &impl Abort, alloc: Global, count: u32) -> Vec<(u32, u32)> {
    let mut pairs = Vec::new(alloc);
    for place in 0..count {
        pairs
            .push((place.wrapping_add(2), place))
            .expect(rt, "memory");
    }
    pairs
}

// A solver after a round with these offers.
fn solver_behind(rt: &impl Abort, alloc: Global, cut: &Cut, pairs: &[(u32, u32)]) -> Solver {
    let mut solver = Solver::new(alloc, 70_001).expect(rt, "memory");
    let said = offer(rt, alloc, cut, &mut solver, pairs);
    expect_same(rt, said.is_ok(), true);
    solver
}

// The first link after `count` links is missed.
fn expect_first_missed(rt: &(impl Abort + Threads + Sync), alloc: Global, cut: &Cut, count: u32) {
    let pairs = first_pairs(rt, alloc, count);
    let solver = solver_behind(rt, alloc, cut, pairs.as_slice());
    let first = count.wrapping_add(1);
    assert!(rt; 0 < first && first < 1 << 20);
    expect_missed_by_threads(rt, solver, cut, Link::of_arc(first, first + 1, 1));
}

// Only the first links of a path are offered. The first of the others is missed, in whichever part of the list threads
// search for it.
#[test]
fn the_first_missed_of_many_links(rt: HostRuntime) {
    let alloc = rt.alloc();
    let arcs = path(&rt, alloc, 70_000);
    let links = links_to_cut(&rt, alloc, 70_001, arcs.as_slice());
    let cut = Cut::even(alloc, links.as_slice(), 1).expect(&rt, "a cut");
    for count in [0, 1, 34_999, 35_000, 35_001, 69_999] {
        expect_first_missed(&rt, alloc, &cut, count);
    }
}

// The picks if one worker offers one link of the triangle for one of its components.
#[test]
fn picks_of_one_offer(rt: HostRuntime) {
    let alloc = rt.alloc();
    let links = links_to_cut(&rt, alloc, EQUAL_WEIGHTS.n, EQUAL_WEIGHTS.arcs);
    let cut = Cut::even(alloc, links.as_slice(), 1).expect(&rt, "a cut");
    let (first, second) = (Link::of_arc(1, 2, 5), Link::of_arc(2, 3, 5));
    let rounds = [
        ([1, 2, 3], (1, 0), [first, first, None]),
        ([1, 1, 3], (3, 1), [second, None, second]),
    ];
    for (labels, pair, expected) in rounds {
        let labels = Labels::of_list(labels.to_vec(alloc).expect(&rt, "memory")).expect(
            &rt, "labels",
        );
        assert!(rt; labels.n() == 3);
        let book = opened(&rt, alloc, &cut, 1, &labels);
        let picks = picks_of_offers(&rt, alloc, book, &[&[pair]]);
        let found = [picks.of(1), picks.of(2), picks.of(3)];
        expect_same(&rt, found, expected);
    }
}

// The picks under these labels of four vertices, with both limits of weights.
#[test]
fn picks_at_both_limits_of_weights(rt: HostRuntime) {
    let alloc = rt.alloc();
    let links = links_to_cut(&rt, alloc, 4, &LIMITS);
    let cut = Cut::even(alloc, links.as_slice(), 2).expect(&rt, "a cut");
    let greatest = Link::of_arc(1, 2, i64::MAX);
    let least = Link::of_arc(3, 4, i64::MIN);
    let between = Link::of_arc(1, 4, i64::MAX);
    let rounds = [
        ([1, 2, 3, 4], [greatest, greatest, least, least]),
        ([1, 1, 3, 3], [between, None, between, None]),
        ([1, 1, 1, 1], [None; 4]),
    ];
    for (labels, expected) in rounds {
        let labels = Labels::of_list(labels.to_vec(alloc).expect(&rt, "memory")).expect(
            &rt, "labels",
        );
        assert!(rt; labels.n() == 4);
        let book = opened(&rt, alloc, &cut, 1, &labels);
        let picks = picks_of_scans(&rt, alloc, book, &[1, 0]);
        let found = [picks.of(1), picks.of(2), picks.of(3), picks.of(4)];
        expect_same(&rt, found, expected);
    }
}

fn expect_missed(rt: &impl Abort, solver: &Solver, cut: &Cut, expected: Option<Link>) {
    assert!(rt; all_have_labels(cut, solver.labels().n()));
    let missed = solver.finish(cut).err();
    expect_same(rt, is_missed(missed, expected), true);
}

fn is_missed(fault: Option<SolveFault>, expected: Option<Link>) -> bool {
    match fault {
        Some(SolveFault::Missed { link }) => expected == Some(link),
        _ => false,
    }
}

/// The number of vertices, the arcs, the number of even shards, the forest, and the number of merging rounds.
type Alone<'a> = (u32, &'a [Row], u32, &'a [Row], u32);

fn expect_alone(rt: &impl Abort, alloc: Global, run: Alone) {
    let (n, arcs, shards, forest, merging) = run;
    let links = links_to_cut(rt, alloc, n, arcs);
    let cut = Cut::even(alloc, links.as_slice(), shards).expect(rt, "a cut");
    assert!(rt; n <= 1 << 26 && all_have_labels(&cut, n));
    let (found, rounds) = solve_alone(alloc, n, &cut).expect(rt, "a forest");
    expect_same(rt, rounds, merging);
    expect_links(rt, alloc, &found, n, forest)
}

// A path of `count` arcs of the same weight.
pub(crate) fn path(rt: &impl Abort, alloc: Global, count: u32) -> Vec<Row> {
    let mut arcs = Vec::new(alloc);
    for v in 0..count {
        let first = v.wrapping_add(1);
        arcs.push((first, first.wrapping_add(1), 1))
            .expect(rt, "memory");
    }
    arcs
}

// A path of 2^16 vertices, in the order of weights. The weight of the arc after vertex v is the number of times that 2
// divides v. So each round makes components of twice as many vertices.
fn doubling_path(rt: &impl Abort, alloc: Global) -> Vec<Row> {
    let mut arcs = Vec::new(alloc);
    for weight in 0..16u32 {
        for pair in 0..32_768u32 >> weight {
            let v = pair.wrapping_mul(2).wrapping_add(1).wrapping_shl(weight);
            arcs.push((v, v.wrapping_add(1), i64::from(weight)))
                .expect(rt, "memory");
        }
    }
    arcs
}

// The path of eight has pairs after one round, groups of four after two, and one component after three. If all edges of
// a path have the same weight, each vertex but the first picks the edge to the one before it, so one round merges them
// all.
#[test]
fn runs_alone(rt: HostRuntime) {
    let alloc = rt.alloc();
    let eight = A_PATH_OF_EIGHT;
    let path = path(&rt, alloc, 10_000);
    let doubling = doubling_path(&rt, alloc);
    let wide = WIDE_WEIGHTS;
    let runs: [Alone; 11] = [
        (0, &[], 1, &[], 0),
        (0, &[], 4096, &[], 0),
        (1, &[], 1, &[], 0),
        (2, &[(1, 2, 7)], 2, &[(1, 2, 7)], 1),
        (8, eight.arcs, 1, eight.forest, 3),
        (8, eight.arcs, 3, eight.forest, 3),
        (8, eight.arcs, 4096, eight.forest, 3),
        (6, wide.arcs, 2, wide.forest, 2),
        (4, &LIMITS, 2, &LIMITS_FOREST, 2),
        (10_001, path.as_slice(), 4, path.as_slice(), 1),
        (65_536, doubling.as_slice(), 64, doubling.as_slice(), 16),
    ];
    for run in runs {
        expect_alone(&rt, alloc, run);
    }
}

#[test]
fn steps_over_ten_thousand_links(rt: HostRuntime) {
    let alloc = rt.alloc();
    let path = path(&rt, alloc, 10_000);
    let mut ones = Vec::new(alloc);
    for _ in 0..10_001u32 {
        ones.push(1).expect(&rt, "memory");
    }
    let (path, ones) = (path.as_slice(), ones.as_slice());
    let steps: [Step; 2] = [
        (&[0, 1, 2], Turn::Merged(10_000), ones),
        (&[2, 1, 0], Turn::Done, ones),
    ];
    let rounds = Rounds {
        n: 10_001,
        arcs: path,
        places: &[3333, 6666],
        steps: &steps,
        forest: path,
    };
    expect_rounds(&rt, alloc, rounds)
}

// A path of `count` arcs. The weight of each is `times` the number of the vertex that it leaves.
fn weighted_path(rt: &impl Abort, alloc: Global, count: u32, times: i64) -> Vec<Row> {
    let mut arcs = Vec::new(alloc);
    for v in 0..count {
        let first = v.wrapping_add(1);
        let weight = i64::from(first).wrapping_mul(times);
        arcs.push((first, first.wrapping_add(1), weight))
            .expect(rt, "memory");
    }
    arcs
}

// Chains of picks as long as the path. If weights ascend, each vertex but the first picks the link to the one before
// it. If they descend, each but the last picks the link to the one after it. One round merges all either way.
#[test]
fn steps_along_chains_of_picks(rt: HostRuntime) {
    let alloc = rt.alloc();
    let mut ones = Vec::new(alloc);
    for _ in 0..70_000u32 {
        ones.push(1).expect(&rt, "memory");
    }
    for times in [1, -1] {
        let arcs = weighted_path(&rt, alloc, 69_999, times);
        let mut forest = arcs.as_slice().to_vec(alloc).expect(&rt, "memory");
        if times < 0 {
            forest.reverse();
        }
        let steps: [Step; 2] = [
            (&[0, 1, 2], Turn::Merged(69_999), ones.as_slice()),
            (&[2, 1, 0], Turn::Done, ones.as_slice()),
        ];
        let rounds = Rounds {
            n: 70_000,
            arcs: arcs.as_slice(),
            places: &[20_000, 50_000],
            steps: &steps,
            forest: forest.as_slice(),
        };
        expect_rounds(&rt, alloc, rounds);
    }
}

// Vertices without links stay by themselves. The label of a component is its least vertex, whichever of its vertices
// the picks lead to.
#[test]
fn steps_beside_lone_vertices(rt: HostRuntime) {
    let alloc = rt.alloc();
    let arcs: [Row; 4] = [(9, 3, 1), (3, 6, 2), (8, 5, 4), (6, 8, 9)];
    let forest: [Row; 4] = [(3, 9, 1), (3, 6, 2), (5, 8, 4), (6, 8, 9)];
    let pairs = [1, 2, 3, 4, 5, 3, 7, 5, 3, 10].as_slice();
    let merged = [1, 2, 3, 4, 3, 3, 7, 3, 3, 10].as_slice();
    let steps: [Step; 3] = [
        (&[0], Turn::Merged(3), pairs),
        (&[0], Turn::Merged(1), merged),
        (&[0], Turn::Done, merged),
    ];
    let rounds = Rounds {
        n: 10,
        arcs: &arcs,
        places: &[],
        steps: &steps,
        forest: &forest,
    };
    expect_rounds(&rt, alloc, rounds)
}

#[test]
fn texts_of_its_faults(rt: HostRuntime) {
    let alloc = rt.alloc();
    let link = Link::of_arc(2, 1, 17).expect(&rt, "a link");
    let texts = [
        (SolveFault::Rounds { round: 2 }, "round 2 is past the bound"),
        (SolveFault::Missed { link }, "link 1 2 17 was missed"),
        (SolveFault::Memory, "no memory"),
    ];
    for (fault, text) in texts {
        expect_text(&rt, alloc, &fault, text);
    }
}
