// The example graphs over lines to workers in memory.
use super::runs::{Solved, run_of, run_of_worked};
use super::same::expect_same;
use crate::in_memory::{engines, text_over_workers};
use forest_run::Cutting;
use worked_graphs::{A_PATH_OF_EIGHT, NO_VERTICES, SMALL_NET, WORKED};

// There are asks for both shards in each of three rounds, and both lines are open at the end.
#[test]
fn the_small_net_over_two_workers(rt: HostRuntime) {
    let lines = engines(rt.alloc(), 2).expect(&rt, "memory");
    let counts = run_of_worked(&rt, rt.alloc(), &SMALL_NET, Cutting::Even(2), lines);
    expect_same(&rt, counts, [2, 2, 6, 6, 0, 0]);
}

// The same by the call whose contract defines the text.
#[test]
fn the_text_of_the_small_net(rt: HostRuntime) {
    for workers in 0..3u32 {
        let text = text_over_workers(&rt, rt.alloc(), SMALL_NET.file, Cutting::Even(2), workers);
        let text = text.expect(&rt, "a forest");
        expect_same(&rt, text.as_slice(), SMALL_NET.text);
    }
}

// The coordinator scans each shard itself. A graph without links has one round too.
#[test]
fn no_workers(rt: HostRuntime) {
    let lines = engines(rt.alloc(), 0).expect(&rt, "memory");
    let counts = run_of_worked(&rt, rt.alloc(), &SMALL_NET, Cutting::Even(2), lines);
    expect_same(&rt, counts, [2, 2, 0, 0, 6, 0]);
    let lines = engines(rt.alloc(), 0).expect(&rt, "memory");
    let counts = run_of_worked(&rt, rt.alloc(), &NO_VERTICES, Cutting::Even(1), lines);
    expect_same(&rt, counts, [0, 1, 0, 0, 1, 0]);
}

// A weight past 32 bits, over a worker that has frames for it.
#[test]
fn a_weight_of_64_bits(rt: HostRuntime) {
    let text = b"p sp 2 1\na 1 2 2147483648\n";
    let lines = engines(rt.alloc(), 1).expect(&rt, "memory");
    let solved = Solved {
        file: text,
        text,
        size: (2, 1, 2147483648),
    };
    let counts = run_of(&rt, rt.alloc(), &solved, Cutting::Even(1), lines);
    expect_same(&rt, counts, [1, 1, 2, 2, 0, 0]);
}

// Eight vertices can't have more than three merging rounds.
#[test]
fn a_path_of_eight(rt: HostRuntime) {
    for workers in 1..3u32 {
        let lines = engines(rt.alloc(), workers).expect(&rt, "memory");
        let counts = run_of_worked(&rt, rt.alloc(), &A_PATH_OF_EIGHT, Cutting::Even(3), lines);
        expect_same(&rt, (workers, counts), (workers, [3, 3, 12, 12, 0, 0]));
    }
}

// The most shards that are allowed: without a line, over one, over more than 32, and over the most that are allowed.
// All but eight of the shards are empty.
#[test]
fn the_most_shards(rt: HostRuntime) {
    for (workers, answered, alone) in [
        (0u32, 0, 12_288),
        (1, 12_288, 0),
        (33, 12_288, 0),
        (64, 12_288, 0),
    ] {
        let lines = engines(rt.alloc(), workers.min(64)).expect(&rt, "memory");
        let counts = run_of_worked(&rt, rt.alloc(), &SMALL_NET, Cutting::Even(4096), lines);
        let expected = [2, 4096, answered, answered, alone, 0];
        expect_same(&rt, (workers, counts), (workers, expected));
    }
}

// The graph is in one shard, by an even cut and by a cut at no position, or in five. It is in three of which the first
// two are empty, or in the most that are allowed, with all links in the last. No worker gives a wrong answer.
#[test]
fn each_worked_graph_over_up_to_two_workers(rt: HostRuntime) {
    for graph in WORKED {
        for cutting in [
            Cutting::Even(1),
            Cutting::At(&[]),
            Cutting::Even(5),
            Cutting::At(&[0, 0]),
            Cutting::At(&[0; 4095]),
        ] {
            for workers in 0..3u32 {
                let lines = engines(rt.alloc(), workers).expect(&rt, "memory");
                let counts = run_of_worked(&rt, rt.alloc(), &graph, cutting, lines);
                expect_same(&rt, counts[5], 0);
            }
        }
    }
}
