// The most bytes that the calls of a round use, per vertex, link, offer, shard and seat.
ghost use Rattle.std.specs.Prelude.{◌≡◌, ◌≤◌, ◌^◌, length};
ghost use Rattle.links.specs.Link.{EndsUpTo};
ghost use Rattle.round_core.specs.Picks.{ArePicksOfHearings};

use super::bytes::{List, Memory, counted, links_in, most_beside};
use super::same::expect_same;
use claim_board::Board;
use frames::Answer;
use link_key::{Cut, Labels, Link};
use round_core::{Picks, RoundBook, Solver, Turn, hook_relabel};
use std::alloc::Global;
use std::process::Abort;
use std::thread::{Threads, available_parallelism};
use worked_graphs::{all_have_labels, have_labels};
use worker_engine::{scan, scan_par};

// A small list, a large one, and one with many links between few vertices.
const LISTS: [List; 3] = [
    List {
        n: 1_000,
        arcs: 2_000,
        weights: 1_000,
    },
    List {
        n: 50_000,
        arcs: 100_000,
        weights: i64::MAX,
    },
    List {
        n: 100,
        arcs: 20_000,
        weights: i64::MAX,
    },
];

// Fails if the call used more than `most` bytes. The failure names the call and the list.
fn expect_at_most(rt: &impl Abort, call: &str, list: List, took: u64, most: u64) {
    expect_same(rt, (call, list, took.max(most)), (call, list, most));
}

// The picks of a round over one shard, whose answer has the offers that a scan of the shard finds.
fn picks_over<'a>(
    rt: &impl Abort,
    memory: &'a Memory,
    cut: &Cut<&'a Memory>,
    labels: &Labels<&'a Memory>,
) -> Picks<&'a Memory>
    ensures heard { ArePicksOfHearings labels.now result }
    ensures each_vertex { length result ≡ length labels.now }
{
    assert!(rt; all_have_labels(cut, labels.n()));
    let mut book = RoundBook::open(memory, 1, cut, labels).expect(rt, "memory");
    assert!(rt; cut.len() == 1);
    let links = cut.shard(0).links;
    assert!(rt; links.len() <= 1 << 24 && have_labels(links, labels.n()));
    let answer = Answer {
        round: 1,
        shard: 0,
        offers: scan(memory, links, labels).expect(rt, "memory"),
    };
    let taken = book.take(0, answer).is_ok();
    assert!(rt; taken && book.missing() == 0);
    book.close()
}

// The first step allocates 24 bytes per vertex and keeps them: for the links, for their numbers and for the least
// vertices. The later steps allocate nothing per vertex. `finish` allocates 16 bytes per link of the forest.
fn expect_steps<'a>(rt: &impl Abort, memory: &'a Memory, cut: &Cut<&'a Memory>, list: List) {
    let n = list.n;
    assert!(rt; n <= 1 << 26);
    let mut solver = Solver::new(memory, n).expect(rt, "memory");
    let mut stays: u64 = 24;
    for _ in 0..26 {
        let picks = picks_over(rt, memory, cut, solver.labels());
        let before = memory.watch();
        let turn = solver.step(&picks).expect(rt, "a turn");
        let most = u64::from(n).wrapping_mul(stays).wrapping_add(8);
        expect_at_most(rt, "step", list, most_beside(memory, before), most);
        if turn == Turn::Done {
            break;
        }
        stays = 0;
    }
    assert!(rt; all_have_labels(cut, solver.labels().n()));
    let before = memory.watch();
    let forest = solver.finish(cut).expect(rt, "a forest");
    let most = (forest.links().len() as u64).wrapping_mul(16);
    expect_at_most(rt, "finish", list, most_beside(memory, before), most);
}

// The same for `step_in_place`, which clears the picks. `finish_par` consumes the solver and copies no link.
fn expect_steps_par<'a>(
    rt: &(impl Abort + Threads + Sync),
    memory: &'a Memory,
    cut: &Cut<&'a Memory>,
    list: List,
) {
    let n = list.n;
    assert!(rt; n <= 1 << 26);
    let mut solver = Solver::new(memory, n).expect(rt, "memory");
    let mut stays: u64 = 24;
    for _ in 0..26 {
        let mut picks = picks_over(rt, memory, cut, solver.labels());
        let before = memory.watch();
        let turn = solver.step_in_place(&mut picks).expect(rt, "a turn");
        let most = u64::from(n).wrapping_mul(stays).wrapping_add(8);
        expect_at_most(rt, "step_in_place", list, most_beside(memory, before), most);
        if turn == Turn::Done {
            break;
        }
        stays = 0;
    }
    assert!(rt; all_have_labels(cut, solver.labels().n()));
    let before = memory.watch();
    let forest = solver.finish_par(rt, cut).expect(rt, "a forest");
    expect_at_most(rt, "finish_par", list, most_beside(memory, before), 0);
    expect_same(rt, forest.links().is_empty(), false);
}

// Making new labels uses 16 bytes per vertex, including the labels themselves, and 16 bytes per component. Here each
// vertex is a component.
fn expect_relabelled<'a>(rt: &impl Abort, memory: &'a Memory, cut: &Cut<&'a Memory>, list: List) {
    let n = list.n;
    assert!(rt; n <= 1 << 26);
    let labels = Labels::apart(memory, n).expect(rt, "memory");
    let picks = picks_over(rt, memory, cut, &labels);
    let before = memory.watch();
    drop(hook_relabel(memory, &labels, &picks).expect(rt, "memory"));
    let most = u64::from(n).wrapping_mul(32).wrapping_add(8);
    expect_at_most(rt, "hook_relabel", list, most_beside(memory, before), most);
}

// A book that reuses the buffer of picks uses 33 bytes per shard and 8 for the allocator of its answer, but nothing
// per vertex.
fn expect_opened_over<'a>(rt: &impl Abort, memory: &'a Memory, cut: &Cut<&'a Memory>, list: List) {
    let n = list.n;
    assert!(rt; n <= 1 << 26);
    let labels = Labels::apart(memory, n).expect(rt, "memory");
    assert!(rt; all_have_labels(cut, labels.n()));
    let picks = Picks::none(memory, n).expect(rt, "memory");
    let before = memory.watch();
    drop(RoundBook::open_over(picks, 1, cut, &labels).expect(rt, "memory"));
    expect_at_most(rt, "open_over", list, most_beside(memory, before), 41);
}

#[test]
fn bytes_of_steps(rt: HostRuntime) {
    for list in LISTS {
        let links = links_in(&rt, rt.alloc(), list);
        let memory = counted(rt.alloc());
        let cut = Cut::even(&memory, links.as_slice(), 1).expect(&rt, "a cut");
        expect_steps(&rt, &memory, &cut, list);
        expect_steps_par(&rt, &memory, &cut, list);
        expect_relabelled(&rt, &memory, &cut, list);
        expect_opened_over(&rt, &memory, &cut, list);
    }
}

// The most parts that a scan by threads has: at most one per processor, and at most the number of links per vertex.
fn parts(rt: &impl Threads, links: u64, n: u64) -> u64 {
    let processors = match available_parallelism(rt) {
        Ok(processors) => processors.get() as u64,
        Err(_) => 1,
    };
    processors.min(links.checked_div(n).unwrap_or(1)).max(1)
}

// A scan by threads uses a table of 8 bytes per vertex for each part. Each offer has 8 bytes in a list that doubles
// as it grows.
#[test]
fn bytes_of_a_scan_by_threads(rt: HostRuntime) {
    for (n, arcs) in [(100, 140_000), (30_000, 140_000)] {
        let list = List {
            n,
            arcs,
            weights: 1_000,
        };
        let links = links_in(&rt, rt.alloc(), list);
        let links = links.as_slice();
        assert!(&rt; n <= 1 << 26);
        let labels = Labels::apart(rt.alloc(), n).expect(&rt, "memory");
        assert!(&rt; have_labels(links, labels.n()));
        let memory = counted(rt.alloc());
        let before = memory.watch();
        drop(scan_par(&rt, &memory, links, &labels).expect(&rt, "memory"));
        let vertices = u64::from(n);
        let tables = parts(&rt, links.len() as u64, vertices).wrapping_mul(8);
        let most = vertices
            .wrapping_mul(tables.wrapping_add(24))
            .wrapping_add(64);
        expect_at_most(&rt, "scan_par", list, most_beside(&memory, before), most);
    }
}

// A board uses 8 bytes per shard and 520 per seat.
#[test]
fn bytes_of_boards(rt: HostRuntime) {
    for (shards, seats) in [(1, 1), (4_096, 1), (1, 64), (4_096, 64)] {
        let memory = counted(rt.alloc());
        let board = Board::open(&memory, shards, seats).expect(&rt, "memory");
        let most = u64::from(shards) * 8 + u64::from(seats) * 520;
        let took = memory.bytes().most;
        expect_same(&rt, (shards, seats, took.max(most)), (shards, seats, most));
        drop(board);
    }
}
