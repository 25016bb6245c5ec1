// The solver, compared with a simple program on random lists of arcs.
ghost use Rattle.std.specs.Prelude.{◌≤◌, ◌<◌, ◌^◌};

use super::lists::links_between;
use super::same::expect_same;
use link_key::{Link, forest_of, keep_forest, plain_forest};
use std::alloc::Global;
use std::process::Abort;
use worked_graphs::Row;

// Returns the links whose endpoints smaller links don't connect. This is the simple program: to merge two labels, it
// goes over all vertices.
pub(crate) fn slow_forest(rt: &impl Abort, alloc: Global, n: u32, links: &[Link]) -> Vec<Link> {
    let mut sorted = Vec::from_slice(alloc, links).expect(rt, "memory");
    sorted.as_mut_slice().sort_unstable();
    let mut labels: Vec<u32> = (0..=n).collect(alloc).expect(rt, "memory");
    let mut taken = Vec::new(alloc);
    for link in &sorted {
        assert!(rt; (link.low as usize) < labels.len() && (link.high as usize) < labels.len());
        let low = labels[link.low as usize];
        let high = labels[link.high as usize];
        if low != high {
            rename(labels.as_mut_slice(), high, low);
            taken.push(*link).expect(rt, "memory");
        }
    }
    taken
}

pub(crate) fn rename(labels: &mut [u32], from: u32, to: u32) {
    for label in labels.iter_mut() {
        if *label == from {
            *label = to;
        }
    }
}

// The next number below `bound` of a linear congruential generator.
pub(crate) fn draw(state: &mut u64, bound: u32) -> u32
    requires { 0 < bound }
    ensures { result < bound }
{
    *state = state
        .wrapping_mul(6364136223846793005)
        .wrapping_add(1442695040888963407);
    ((*state >> 33) % u64::from(bound)) as u32
}

// Returns `count` random arcs between the vertices 1 to n. Loops and repeats are among them, and each arc has one of
// these weights.
fn drawn_arcs(
    rt: &impl Abort,
    alloc: Global,
    seed: u64,
    n: u32,
    count: u32,
    weights: &[i64; 5],
) -> Vec<Row>
    requires some { 0 < n }
    requires few { n ≤ 2 ^ 26 }
{
    let mut state = seed;
    let mut arcs = Vec::new(alloc);
    for _ in 0..count {
        let tail = draw(&mut state, n) + 1;
        let head = draw(&mut state, n) + 1;
        let place = draw(&mut state, 5) as usize;
        arcs.push((tail, head, weights[place])).expect(rt, "memory");
    }
    arcs
}

// Three calls give exactly these links as the forest of the arcs: on a copy, in the list itself, and in a list that the
// caller keeps.
pub(crate) fn expect_forest(rt: &impl Abort, alloc: Global, n: u32, arcs: &[Row], wanted: &[Link]) {
    assert!(rt; n <= 1 << 26);
    let links = links_between(rt, alloc, n, arcs);
    let forest = plain_forest(alloc, n, links.as_slice()).expect(rt, "memory");
    expect_same(rt, forest.links(), wanted);
    let forest = forest_of(alloc, n, links).expect(rt, "memory");
    expect_same(rt, forest.links(), wanted);
    let links = links_between(rt, alloc, n, arcs);
    let kept = keep_forest(alloc, n, links).expect(rt, "memory");
    expect_same(rt, kept.as_slice(), wanted);
}

// The solver and the simple program find the same forest of a list, which is returned.
pub(crate) fn expect_one_forest(rt: &impl Abort, alloc: Global, n: u32, arcs: &[Row]) -> Vec<Link> {
    let links = links_between(rt, alloc, n, arcs);
    let slow = slow_forest(rt, alloc, n, links.as_slice());
    expect_forest(rt, alloc, n, arcs, slow.as_slice());
    slow
}

// The same for 300 random lists of sixty arcs with these weights.
fn expect_forests(rt: &impl Abort, alloc: Global, weights: &[i64; 5]) {
    for seed in 0..300u32 {
        let n = seed % 39 + 2;
        let arcs = drawn_arcs(rt, alloc, u64::from(seed), n, 60, weights);
        let _forest = expect_one_forest(rt, alloc, n, arcs.as_slice());
    }
}

#[test]
fn drawn_lists(rt: HostRuntime) {
    expect_forests(&rt, rt.alloc(), &[-2, -1, 0, 1, 2]);
}

#[test]
fn drawn_lists_of_extreme_weights(rt: HostRuntime) {
    expect_forests(
        &rt,
        rt.alloc(),
        &[-0x8000_0000, -0x7fff_ffff, 0, 0x7fff_fffe, 0x7fff_ffff],
    );
    expect_forests(
        &rt,
        rt.alloc(),
        &[i64::MIN, i64::MIN + 1, 0, i64::MAX - 1, i64::MAX],
    );
}

// Lists of many sizes. With few vertices most links close a cycle; with many vertices there are many components. Each
// arc is followed by its reverse, as in a file of roads.
#[test]
fn drawn_lists_of_many_sizes(rt: HostRuntime) {
    for count in [0u32, 1, 17, 1_000, 10_000] {
        for n in [count / 40 + 2, count / 4 + 2, count.max(2)] {
            assert!(&rt; 0 < n && n <= 1 << 26);
            let seed = u64::from(count);
            let drawn = drawn_arcs(&rt, rt.alloc(), seed, n, count, &[-7, 0, 3, 4, 50]);
            let mut arcs = Vec::new(rt.alloc());
            for (tail, head, weight) in &drawn {
                arcs.push((*tail, *head, *weight)).expect(&rt, "memory");
                arcs.push((*head, *tail, *weight)).expect(&rt, "memory");
            }
            let _forest = expect_one_forest(&rt, rt.alloc(), n, arcs.as_slice());
        }
    }
}
