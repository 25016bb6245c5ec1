// Runs over files with so many arcs that only a forest of the links read so far is kept. The text is that of the forest
// that a simple program finds for all links, and all links are counted.
ghost use Rattle.std.specs.Prelude.{◌<◌};

use super::drawn_lists::{draw, slow_forest};
use super::lists::links_between;
use super::same::expect_same;
use super::sizes::path_text;
use byte_streams::FusedSource;
use forest_run::{Report, RunFault, run_plain, run_threads};
use gr_text::{GrFault, GrKind, ReadFault};
use link_key::Link;
use std::alloc::Global;
use std::process::Abort;
use std::thread::Threads;
use worked_graphs::Row;

// Numbers of vertices and arcs. A run keeps all links of up to 65,536 arcs, or of up to 15 arcs per vertex. Otherwise,
// a list is long once it has 32,768 links or 10 per vertex, whichever is more.
const SIZES: [(u32, u32); 8] = [
    (2, 65_537),
    (300, 32_768),
    (300, 65_536),
    (300, 65_537),
    (300, 200_000),
    (5_000, 75_000),
    (5_000, 75_001),
    (5_000, 170_000),
];

/// How the weights of a file continue.
#[derive(Clone, Copy)]
pub(super) enum Weights {
    Equal,
    Rising,
    Falling,
    Few,
    Many,
}

fn weight_of(weights: Weights, place: u32, drawn: u32) -> i64 {
    match weights {
        Weights::Equal => 7,
        Weights::Rising => i64::from(place),
        Weights::Falling => i64::from(place).wrapping_neg(),
        Weights::Few => i64::from(drawn % 5),
        Weights::Many => i64::from(drawn),
    }
}

// Returns `count` arcs between the vertices 1 to n, with loops and repeats among them. Their tails go round the
// vertices.
pub(super) fn rows(rt: &impl Abort, alloc: Global, n: u32, count: u32, weights: Weights) -> Vec<Row>
    requires { 0 < n }
{
    let mut state = u64::from(count);
    let mut arcs = Vec::new(alloc);
    for place in 0..count {
        let tail = place % n;
        let head = draw(&mut state, n);
        let drawn = draw(&mut state, 1 << 30);
        let weight = weight_of(weights, place, drawn);
        arcs.push((tail.wrapping_add(1), head.wrapping_add(1), weight))
            .expect(rt, "memory");
    }
    arcs
}

pub(super) fn report_of(vertices: u32, links: &[Link], forest: &[Link]) -> Report {
    let mut total = 0i128;
    for link in forest {
        total = total.wrapping_add(i128::from(link.weight));
    }
    Report {
        vertices,
        links: links.len() as u64,
        rounds: 0,
        shards: 0,
        asked: 0,
        answered: 0,
        alone: 0,
        closed: 0,
        total,
    }
}

pub(super) fn text_of(rt: &impl Abort, alloc: Global, n: u32, links: &[Link]) -> Vec<u8> {
    let mut rows = Vec::new(alloc);
    for link in links {
        rows.push((link.low, link.high, link.weight))
            .expect(rt, "memory");
    }
    path_text(rt, alloc, n, rows.as_slice())
}

// The run writes the text of the simple program's forest and counts all links, for any lengths of the source's pieces.
fn expect_run(rt: &(impl Abort + Threads + Sync), alloc: Global, n: u32, arcs: &[Row]) {
    let file = path_text(rt, alloc, n, arcs);
    let links = links_between(rt, alloc, n, arcs);
    let forest = slow_forest(rt, alloc, n, links.as_slice());
    let text = text_of(rt, alloc, n, forest.as_slice());
    let report = report_of(n, links.as_slice(), forest.as_slice());
    for piece in [1_000, usize::MAX] {
        let bytes = file.clone().expect(rt, "memory");
        let mut source = FusedSource::new(bytes, usize::MAX, piece);
        let mut sink = Vec::new(alloc);
        let ended = run_plain(alloc, &mut source, &mut sink);
        expect_same(rt, ended, Ok(report));
        expect_same(rt, sink.as_slice() == text.as_slice(), true);
    }
    for threads in [0, 1, 3] {
        let mut sink = Vec::new(alloc);
        let ended = run_threads(rt, threads, alloc, &mut file.as_slice(), &mut sink);
        expect_same(rt, ended, Ok(report));
        expect_same(rt, sink.as_slice() == text.as_slice(), true);
    }
}

#[test]
fn files_of_many_arcs(rt: HostRuntime) {
    for (n, count) in SIZES {
        assert!(&rt; 0 < n);
        let arcs = rows(&rt, rt.alloc(), n, count, Weights::Many);
        expect_run(&rt, rt.alloc(), n, arcs.as_slice());
    }
}

#[test]
fn files_of_all_kinds_of_weights(rt: HostRuntime) {
    for weights in [
        Weights::Equal,
        Weights::Rising,
        Weights::Falling,
        Weights::Few,
    ] {
        let arcs = rows(&rt, rt.alloc(), 300, 70_000, weights);
        expect_run(&rt, rt.alloc(), 300, arcs.as_slice());
    }
}

// Each edge is listed in both directions in a row, and some edges three times. Links that repeat the one before are
// dropped.
#[test]
fn files_of_edges_in_both_directions(rt: HostRuntime) {
    for (n, count) in [(300, 1_000), (5_000, 12_000), (5_000, 40_000)] {
        let mut arcs = Vec::new(rt.alloc());
        for (u, v, weight) in rows(&rt, rt.alloc(), n, count, Weights::Few).as_slice() {
            arcs.push((*u, *v, *weight)).expect(&rt, "memory");
            arcs.push((*v, *u, *weight)).expect(&rt, "memory");
            if *weight == 0 {
                arcs.push((*u, *v, *weight)).expect(&rt, "memory");
            }
        }
        expect_run(&rt, rt.alloc(), n, arcs.as_slice());
    }
}

// If all arcs are loops, there is no link. If all arcs are equal, there is one in the forest.
#[test]
fn files_of_loops_and_repeats(rt: HostRuntime) {
    for head in [5, 6] {
        let mut arcs = Vec::new(rt.alloc());
        for _ in 0..70_000u32 {
            arcs.push((5, head, 3)).expect(&rt, "memory");
        }
        expect_run(&rt, rt.alloc(), 10, arcs.as_slice());
    }
}

// An error after dropped links is reported with its own line, and nothing is written.
#[test]
fn faults_behind_many_arcs(rt: HostRuntime) {
    let arcs = rows(&rt, rt.alloc(), 300, 70_000, Weights::Many);
    let mut file = path_text(&rt, rt.alloc(), 300, arcs.as_slice());
    file.extend_from_slice(b"a 1 2 3\n").expect(&rt, "memory");
    let fault = RunFault::Read(ReadFault::Gr(GrFault {
        line: 70_002,
        kind: GrKind::TooManyArcs,
    }));
    for threads in [0, 3] {
        let mut sink = Vec::new(rt.alloc());
        let ended = run_threads(&rt, threads, rt.alloc(), &mut file.as_slice(), &mut sink);
        expect_same(&rt, (ended, sink.is_empty()), (Err(fault), true));
    }
    let mut sink = Vec::new(rt.alloc());
    let ended = run_plain(rt.alloc(), &mut file.as_slice(), &mut sink);
    expect_same(&rt, (ended, sink.is_empty()), (Err(fault), true));
}
