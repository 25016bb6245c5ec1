// The solver with threads, on graphs with more links than one thread goes over alone, compared with Kruskal's
// algorithm.
use super::drawn_lists::draw;
use super::lists::links_between;
use super::same::expect_same;
use link_key::{Link, keep_forest_par};
use std::alloc::{AllocError, Global};
use std::process::Abort;
use std::thread::Threads;
use test_memory::{Found, Refusing, refuse_each};
use worked_graphs::{Row, SMALL_NET, have_labels};

// The number of arcs of a random graph, with loops and repeats among them.
const ARCS: u32 = 300_000;

// The most threads that may run at once.
const THREADS: [usize; 7] = [0, 1, 2, 3, 4, 7, 64];

// Returns the root of the tree that v is in, and shortens the path to it. Each vertex has a parent, and a root is its
// own parent.
fn root_of(rt: &impl Abort, parents: &mut [u32], v: u32) -> u32 {
    let mut at = v;
    for _ in 0..parents.len() {
        assert!(rt; (at as usize) < parents.len());
        let parent = parents[at as usize];
        if parent == at {
            return at;
        }
        assert!(rt; (parent as usize) < parents.len());
        let next = parents[parent as usize];
        parents[at as usize] = next;
        at = next;
    }
    at
}

// Returns the links of the forest, by Kruskal's algorithm (1956). It goes over the links in the order of their keys,
// and takes each one that joins two trees.
fn kruskal(rt: &impl Abort, alloc: Global, n: u32, links: &[Link]) -> Vec<Link> {
    let mut sorted = Vec::from_slice(alloc, links).expect(rt, "memory");
    sorted.as_mut_slice().sort_unstable();
    let mut parents: Vec<u32> = (0..=n).collect(alloc).expect(rt, "memory");
    let mut taken = Vec::new(alloc);
    for link in &sorted {
        let low = root_of(rt, parents.as_mut_slice(), link.low);
        let high = root_of(rt, parents.as_mut_slice(), link.high);
        if low != high {
            assert!(rt; (high as usize) < parents.len());
            parents[high as usize] = low;
            taken.push(*link).expect(rt, "memory");
        }
    }
    taken
}

// Arcs between 3 `third` vertices, with up to `weights` weights. An arc joins only vertices whose numbers have the same
// remainder modulo 3, so there are at least three components.
fn drawn_arcs(rt: &impl Abort, alloc: Global, third: u32, weights: u32) -> Vec<Row> {
    assert!(rt; 0 < third && third <= 1 << 24 && 0 < weights);
    let mut state = u64::from(third);
    let mut arcs = Vec::new(alloc);
    for _ in 0..ARCS {
        let rest = draw(&mut state, 3) + 1;
        let tail = 3 * draw(&mut state, third) + rest;
        let head = 3 * draw(&mut state, third) + rest;
        let weight = i64::from(draw(&mut state, weights)).wrapping_sub(500);
        arcs.push((tail, head, weight)).expect(rt, "memory");
    }
    arcs
}

// For each number of threads, the links have exactly this forest.
fn expect_by_threads(
    rt: &(impl Abort + Threads + Sync),
    alloc: Global,
    n: u32,
    links: &[Link],
    wanted: &[Link],
) {
    assert!(rt; n <= 1 << 26 && have_labels(links, n));
    for threads in THREADS {
        let list = links.to_vec(alloc).expect(rt, "memory");
        let kept = keep_forest_par(rt, threads, alloc, n, list).expect(rt, "memory");
        expect_same(rt, (threads, kept.as_slice()), (threads, wanted));
    }
}

#[test]
fn a_small_net_by_threads(rt: HostRuntime) {
    let alloc = rt.alloc();
    let links = links_between(&rt, alloc, 6, SMALL_NET.arcs);
    let wanted = links_between(&rt, alloc, 6, SMALL_NET.forest);
    expect_by_threads(&rt, alloc, 6, links.as_slice(), wanted.as_slice());
    expect_by_threads(&rt, alloc, 6, &[], &[]);
}

// Graphs with many links per vertex, with fewer, and with about one. Many links have the same weight, or few do.
#[test]
fn drawn_graphs_by_threads(rt: HostRuntime) {
    let alloc = rt.alloc();
    for third in [1_000, 20_000, 80_000] {
        for weights in [3, 1_000_000_000] {
            let arcs = drawn_arcs(&rt, alloc, third, weights);
            let n = 3 * third;
            let mut links = links_between(&rt, alloc, n, arcs.as_slice());
            let wanted = kruskal(&rt, alloc, n, links.as_slice());
            expect_by_threads(&rt, alloc, n, links.as_slice(), wanted.as_slice());
            links.as_mut_slice().sort_unstable();
            expect_by_threads(&rt, alloc, n, links.as_slice(), wanted.as_slice());
            links.as_mut_slice().reverse();
            expect_by_threads(&rt, alloc, n, links.as_slice(), wanted.as_slice());
        }
    }
}

// With three threads and this allocator, the links have exactly this forest.
fn solve_in(
    rt: &(impl Abort + Threads + Sync),
    memory: &Refusing<Global>,
    n: u32,
    links: &[Link],
    wanted: &[Link],
) -> Result<(), AllocError> {
    assert!(rt; n <= 1 << 26 && have_labels(links, n));
    let kept = keep_forest_par(rt, 3, memory, n, links.to_vec(memory)?)?;
    expect_same(rt, kept.as_slice(), wanted);
    Ok(())
}

// Each of the allocations fails in turn.
#[test]
fn memory_by_threads(rt: HostRuntime) {
    let arcs = drawn_arcs(&rt, rt.alloc(), 20_000, 1_000);
    let links = links_between(&rt, rt.alloc(), 60_000, arcs.as_slice());
    let wanted = kruskal(&rt, rt.alloc(), 60_000, links.as_slice());
    let found = refuse_each(
        rt.alloc(),
        1_000,
        |memory: &Refusing<Global>| -> Result<(), AllocError> {
            solve_in(&rt, memory, 60_000, links.as_slice(), wanted.as_slice())
        },
    );
    expect_same(&rt, matches!(found, Found::Each(count) if count > 0), true);
}
