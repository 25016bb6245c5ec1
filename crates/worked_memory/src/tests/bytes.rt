// The most bytes that calls use at one time, not counting their arguments. They are no more than the documentation
// names per vertex and per link, for small and for large lists. While a block grows, both the old and the new block are
// counted.
ghost use Rattle.std.specs.Prelude.{◌<◌, ◌≤◌, ◌^◌, length};
ghost use Rattle.links.specs.Link.{EndsUpTo};

use super::same::expect_same;
use gr_text::parse;
use link_key::{Cut, Labels, Link, components_of, forest_of, plain_forest};
use round_core::{Picks, RoundBook, Solver, solve_alone};
use std::alloc::Global;
use std::process::Abort;
use test_memory::{Refusals, Refusing};
use worked_graphs::{Row, all_have_labels, have_labels, links_of};

/// An allocator that counts the bytes of one call.
pub(crate) type Memory = Refusing<Global>;

/// The number of vertices, the number of arcs, and a bound above the absolute value of each weight.
#[derive(Clone, Copy, Debug, PartialEq, Eq)]
pub(crate) struct List {
    pub(crate) n: u32,
    pub(crate) arcs: u32,
    pub(crate) weights: i64,
}

// A vertex from 1 to n.
fn vertex(n: u32, number: u64) -> u32
    requires { 0 < n }
{
    (number % u64::from(n)) as u32 + 1
}

// Arcs spread over all vertices, in no order, with loops among them.
fn arcs_in(rt: &impl Abort, alloc: Global, list: List) -> Vec<Row> {
    assert!(rt; 0 < list.n);
    let mut arcs = Vec::new(alloc);
    for i in 0..u64::from(list.arcs) {
        let tail = vertex(list.n, i.wrapping_mul(7919).wrapping_add(1));
        let head = vertex(list.n, i.wrapping_mul(104_729).wrapping_add(3));
        let drawn = i.wrapping_mul(0x1234_5678_9abc_def1).cast_signed();
        let weight = drawn.checked_rem(list.weights).unwrap_or(drawn);
        arcs.push((tail, head, weight)).expect(rt, "memory");
    }
    arcs
}

pub(crate) fn links_in(rt: &impl Abort, alloc: Global, list: List) -> Vec<Link>
    ensures few { length result.items ≤ 2 ^ 24 }
    ensures ends { EndsUpTo list.n result.items }
{
    let arcs = arcs_in(rt, alloc, list);
    let links = links_of(alloc, list.n, arcs.as_slice()).expect(rt, "memory");
    let links = links.expect(rt, "arcs");
    assert!(rt; links.len() <= 1 << 24);
    links
}

// An allocator that counts, and that makes no allocation fail.
pub(crate) fn counted(alloc: Global) -> Memory {
    Refusing::new(alloc, Refusals::none())
}

// The peak since the memory was watched, without the `before` bytes that were allocated then.
pub(crate) fn most_beside(memory: &Memory, before: u64) -> u64 {
    memory.bytes().most.wrapping_sub(before)
}

#[derive(Clone, Copy, Debug, PartialEq, Eq)]
enum Call {
    Apart,
    Spell,
    Picks,
    Solver,
    SpellLabels,
    Cut,
    Book,
    ForestOf,
    PlainForest,
    Components,
    SolveAlone,
    Parse,
}

// The peak of a call that gets a number of vertices and no links.
fn of_vertices(rt: &impl Abort, memory: &Memory, call: Call, n: u32) -> u64
    requires { n ≤ 2 ^ 26 }
{
    let mut labels = Labels::apart(memory, n).expect(rt, "memory");
    let mut solver = Solver::new(memory, n).expect(rt, "memory");
    let before = memory.watch();
    match call {
        Call::Apart => drop(Labels::apart(memory, n).expect(rt, "memory")),
        Call::Spell => labels.spell().expect(rt, "memory"),
        Call::Solver => drop(Solver::new(memory, n).expect(rt, "memory")),
        Call::SpellLabels => solver.spell_labels().expect(rt, "memory"),
        _ => drop(Picks::none(memory, n).expect(rt, "memory")),
    }
    most_beside(memory, before)
}

// The peak of a call that works in a list of its own, or in a copy.
fn of_list(rt: &impl Abort, memory: &Memory, call: Call, n: u32, links: &[Link]) -> u64
    requires vertices { n ≤ 2 ^ 26 }
    requires few { length links.now ≤ 2 ^ 24 }
    requires ends { EndsUpTo n links.now }
{
    let list = links.to_vec(memory).expect(rt, "memory");
    let before = memory.watch();
    match call {
        Call::PlainForest => drop(plain_forest(memory, n, links).expect(rt, "memory")),
        Call::Components => drop(components_of(memory, n, list).expect(rt, "memory")),
        _ => drop(forest_of(memory, n, list).expect(rt, "memory")),
    }
    most_beside(memory, before)
}

// The peak of a call over links that are split into four shards.
fn of_cut(rt: &impl Abort, memory: &Memory, call: Call, n: u32, links: &[Link]) -> u64
    requires vertices { n ≤ 2 ^ 26 }
    requires few { length links.now ≤ 2 ^ 24 }
    requires ends { EndsUpTo n links.now }
{
    let labels = Labels::apart(memory, n).expect(rt, "memory");
    let before = memory.watch();
    let cut = Cut::even(memory, links, 4).expect(rt, "a cut");
    let of_cut = most_beside(memory, before);
    assert!(rt; all_have_labels(&cut, n) && all_have_labels(&cut, labels.n()));
    let before = memory.watch();
    match call {
        Call::Cut => return of_cut,
        Call::Book => drop(RoundBook::open(memory, 1, &cut, &labels).expect(rt, "memory")),
        _ => drop(solve_alone(memory, n, &cut).expect(rt, "memory")),
    }
    most_beside(memory, before)
}

fn of_text(rt: &impl Abort, alloc: Global, list: List) -> u64 {
    let arcs = arcs_in(rt, alloc, list);
    let head = format!(in alloc; "p sp {} {}\n", list.n, arcs.len()).expect(rt, "memory");
    let mut text = Vec::from_slice(alloc, head.as_bytes()).expect(rt, "memory");
    for (u, v, w) in &arcs {
        let line = format!(in alloc; "a {u} {v} {w}\n").expect(rt, "memory");
        text.extend_from_slice(line.as_bytes()).expect(rt, "memory");
    }
    let memory = counted(alloc);
    drop(parse(&memory, text.as_slice()).expect(rt, "a graph"));
    memory.bytes().most
}

fn tree_of(rt: &impl Abort, alloc: Global, n: u32, links: &[Link]) -> Vec<Link>
    requires vertices { n ≤ 2 ^ 26 }
    requires few { length links.now ≤ 2 ^ 24 }
    requires ends { EndsUpTo n links.now }
    ensures few { length result.items ≤ 2 ^ 24 }
    ensures ends { EndsUpTo n result.items }
{
    let forest = plain_forest(alloc, n, links).expect(rt, "memory");
    let tree = forest.links().to_vec(alloc).expect(rt, "memory");
    assert!(rt; tree.len() <= 1 << 24 && have_labels(tree.as_slice(), n));
    tree
}

// Returns the peak of the call over the links of this list, and the number of links that the call gets. It is smaller
// if the call gets only the links of the forest.
fn taken(rt: &impl Abort, alloc: Global, call: Call, list: List, links: &[Link]) -> (u64, u64)
    requires few { length links.now ≤ 2 ^ 24 }
    requires ends { EndsUpTo list.n links.now }
{
    let n = list.n;
    assert!(rt; n <= 1 << 26);
    let memory = counted(alloc);
    let count = links.len() as u64;
    match call {
        Call::Parse => (of_text(rt, alloc, list), count),
        Call::ForestOf | Call::PlainForest => (of_list(rt, &memory, call, n, links), count),
        Call::Components => {
            let tree = tree_of(rt, alloc, n, links);
            let took = of_list(rt, &memory, call, n, tree.as_slice());
            (took, tree.len() as u64)
        }
        Call::Cut | Call::Book | Call::SolveAlone => (of_cut(rt, &memory, call, n, links), count),
        _ => (of_vertices(rt, &memory, call, n), count),
    }
}

// Small and large lists with short and with long keys, and a list with many links between few vertices.
const LISTS: [List; 5] = [
    List {
        n: 1_000,
        arcs: 2_000,
        weights: 1_000,
    },
    List {
        n: 100_000,
        arcs: 200_000,
        weights: 1_000,
    },
    List {
        n: 1_000,
        arcs: 2_000,
        weights: i64::MAX,
    },
    List {
        n: 50_000,
        arcs: 100_000,
        weights: i64::MAX,
    },
    List {
        n: 100,
        arcs: 20_000,
        weights: i64::MAX,
    },
];

// The bytes that the solver uses in addition to its list. At worst it goes over all links in one part. Sampling the
// links uses up to 4096 bytes.
fn to_solve(list: List, links: u64) -> u64 {
    let vertices = u64::from(list.n).wrapping_mul(12);
    links.wrapping_mul(13).wrapping_add(vertices).max(4_096)
}

// The most bytes that the documentation of the call allows, from its bytes per vertex, per link and per shard.
fn allowed(call: Call, list: List, links: u64) -> u64 {
    let vertices = u64::from(list.n);
    match call {
        Call::Apart | Call::Spell | Call::SpellLabels => vertices.wrapping_mul(4),
        Call::Solver => vertices.wrapping_mul(8),
        Call::Picks => vertices.wrapping_mul(16),
        Call::Cut => 4 * 8,
        // 33 bytes per answer, and 8 for its allocator
        Call::Book => vertices.wrapping_mul(16).wrapping_add(4 * 41),
        Call::ForestOf | Call::Components => to_solve(list, links),
        Call::PlainForest => links.wrapping_mul(16).wrapping_add(to_solve(list, links)),
        // the labels, the picks, the links, and the memory of a step
        Call::SolveAlone => vertices.wrapping_mul(48).wrapping_add(4 * 8),
        // 16 per link: the list is at most half empty, and the list that it grew from may exist too
        Call::Parse => links.wrapping_mul(48),
    }
}

const CALLS: [Call; 12] = [
    Call::Apart,
    Call::Spell,
    Call::Picks,
    Call::Solver,
    Call::SpellLabels,
    Call::Cut,
    Call::Book,
    Call::ForestOf,
    Call::PlainForest,
    Call::Components,
    Call::SolveAlone,
    Call::Parse,
];

#[test]
fn bytes_of_vertices_and_links(rt: HostRuntime) {
    for list in LISTS {
        let links = links_in(&rt, rt.alloc(), list);
        for call in CALLS {
            let (took, count) = taken(&rt, rt.alloc(), call, list, links.as_slice());
            let most = allowed(call, list, count);
            expect_same(&rt, (call, list, took.max(most)), (call, list, most));
        }
    }
}

#[test]
fn bytes_of_one_link_between_a_million_vertices(rt: HostRuntime) {
    let list = List {
        n: 1 << 20,
        arcs: 1,
        weights: 1,
    };
    let rows: [(Call, u64, u64); 6] = [
        (Call::ForestOf, 12, 13),
        (Call::PlainForest, 12, 29),
        (Call::Components, 12, 13),
        (Call::Solver, 8, 0),
        (Call::SolveAlone, 48, 128),
        (Call::Parse, 0, 64),
    ];
    let links = links_in(&rt, rt.alloc(), list);
    for (call, each_vertex, beside) in rows {
        let (took, count) = taken(&rt, rt.alloc(), call, list, links.as_slice());
        expect_same(&rt, (call, count), (call, 1));
        let most = u64::from(list.n)
            .wrapping_mul(each_vertex)
            .wrapping_add(beside);
        expect_same(&rt, (call, took.max(most)), (call, most));
    }
}
