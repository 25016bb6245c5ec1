// A run larger than every internal buffer, of 40,000 vertices and links and 15 merging rounds. A run of 9,000 links
// between few vertices, and runs of many vertices and few links.
use super::runs::{Solved, run_of};
use super::same::expect_same;
use crate::in_memory::engines;
use forest_run::Cutting;
use std::alloc::Global;
use std::process::Abort;

const MANY: u32 = 40_000;

// The weight of the link from this vertex to the next: how often its number can be halved. So in each round every
// second component is joined to the one after it, and an odd last one to those before it.
fn weight(vertex: u32) -> u32 {
    vertex.trailing_zeros()
}

fn push_arc(rt: &impl Abort, alloc: Global, text: &mut Vec<u8>, vertex: u32) {
    let next = vertex.wrapping_add(1);
    let line = format!(in alloc; "a {vertex} {next} {}\n", weight(vertex)).expect(rt, "memory");
    text.extend_from_slice(line.as_bytes()).expect(rt, "memory");
}

// A ring: the arcs of the path in a scattered order, and the heaviest arc, which closes it.
fn ring(rt: &impl Abort, alloc: Global) -> Vec<u8> {
    let head = b"p sp 40000 40000\na 40000 1 20\n";
    let mut file = Vec::from_slice(alloc, head).expect(rt, "memory");
    for place in 0..MANY - 1 {
        push_arc(rt, alloc, &mut file, 1 + place * 7919 % (MANY - 1));
    }
    file
}

// The path of `count` vertices, sorted by weight and then by vertex, after its problem line.
fn path_text(rt: &impl Abort, alloc: Global, head: &[u8], count: u32) -> Vec<u8> {
    let mut text = Vec::from_slice(alloc, head).expect(rt, "memory");
    for weight_of in 0..16u32 {
        for vertex in 1..count {
            if weight(vertex) == weight_of {
                push_arc(rt, alloc, &mut text, vertex);
            }
        }
    }
    text
}

// The number of components is halved in each round: 40,000, 20,000, and so on to 625, 312, and to 4, 2, 1. The product
// of 1 to n can be halved n times, less the sum of the binary digits of n. 39,999 has ten ones.
#[test]
fn a_ring_of_forty_thousand_over_three_workers(rt: HostRuntime) {
    let alloc = rt.alloc();
    let file = ring(&rt, alloc);
    let text = path_text(&rt, alloc, b"p sp 40000 39999\n", MANY);
    let lines = engines(alloc, 3).expect(&rt, "memory");
    let size = (MANY, u64::from(MANY), 39_989);
    let solved = Solved {
        file: file.as_slice(),
        text: text.as_slice(),
        size,
    };
    let counts = run_of(&rt, alloc, &solved, Cutting::Even(7), lines);
    expect_same(&rt, counts, [15, 7, 112, 112, 0, 0]);
}

const FEW: u32 = 100;

// The path of a hundred vertices, and before it 9,000 heavier arcs to its last vertex.
fn fan(rt: &impl Abort, alloc: Global) -> Vec<u8> {
    let mut file = Vec::from_slice(alloc, b"p sp 100 9099\n").expect(rt, "memory");
    for place in 0..9000u32 {
        let line = format!(in alloc; "a {} 100 {}\n", 1 + place % 99, 20 + place % 13).expect(
            rt, "memory",
        );
        file.extend_from_slice(line.as_bytes()).expect(rt, "memory");
    }
    for vertex in 1..FEW {
        push_arc(rt, alloc, &mut file, vertex);
    }
    file
}

// The coordinator scans the one shard itself. The components are 100, 50, 25, 12, 6, 3, 1, and 99 has four ones.
#[test]
fn many_links_of_few_vertices_without_a_worker(rt: HostRuntime) {
    let alloc = rt.alloc();
    let file = fan(&rt, alloc);
    let text = path_text(&rt, alloc, b"p sp 100 99\n", FEW);
    let lines = engines(alloc, 0).expect(&rt, "memory");
    let solved = Solved {
        file: file.as_slice(),
        text: text.as_slice(),
        size: (FEW, 9099, 95),
    };
    let counts = run_of(&rt, alloc, &solved, Cutting::Even(1), lines);
    expect_same(&rt, counts, [6, 1, 0, 0, 7, 0]);
}

// Two links between the first vertex and the last two. There are 2^17 vertices, one fewer and one more.
#[test]
fn two_links_between_many_vertices(rt: HostRuntime) {
    let alloc = rt.alloc();
    for n in [131_071u32, 131_072, 131_073] {
        let before = n - 1;
        let file = format!(in alloc; "p sp {n} 2\na 1 {n} 5\na {n} {before} 4\n").expect(
            &rt, "memory",
        );
        let text = format!(in alloc; "p sp {n} 2\na {before} {n} 4\na 1 {n} 5\n").expect(
            &rt, "memory",
        );
        let solved = Solved {
            file: file.as_bytes(),
            text: text.as_bytes(),
            size: (n, 2, 9),
        };
        let lines = engines(alloc, 1).expect(&rt, "memory");
        let counts = run_of(&rt, alloc, &solved, Cutting::Even(1), lines);
        expect_same(&rt, counts, [1, 1, 2, 2, 0, 0]);
    }
}
