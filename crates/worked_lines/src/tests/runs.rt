// A run over lines into memory, and what holds for each run.
ghost use Rattle.std.specs.Prelude.{◌≤◌, length, All};
ghost use Rattle.wires.specs.Lines.{HasRoom};

use super::same::expect_same;
use forest_run::{Cutting, Report, RunFault, run_lines};
use ports::Line;
use std::alloc::Global;
use std::process::Abort;
use std::sync::Wait;
use std::thread::Threads;
use worked_graphs::Worked;

/// The counts of a run: merging rounds, shards, asks, answers taken, scans without a worker, ports closed.
pub(crate) type Counts = [u64; 6];

// The counts of a report over this many lines. Each ask brought an answer or closed a port. Each shard of each round
// was answered, or scanned without a worker after all ports were closed. The rounds are within the bound.
fn lawful_counts(rt: &impl Abort, report: &Report, lines: usize) -> Counts {
    let rounds = u64::from(report.rounds);
    let shards = u64::from(report.shards);
    let Report {
        asked,
        answered,
        alone,
        closed,
        ..
    } = *report;
    expect_same(rt, asked, answered.wrapping_add(closed));
    expect_same(
        rt,
        answered.wrapping_add(alone),
        rounds.wrapping_add(1).wrapping_mul(shards),
    );
    expect_same(rt, closed <= lines as u64, true);
    expect_same(rt, alone == 0 || closed == lines as u64, true);
    assert!(rt; rounds < 32);
    expect_same(
        rt,
        1u64 << rounds <= u64::from(report.vertices.max(1)),
        true,
    );
    [rounds, shards, asked, answered, alone, closed]
}

/// A file, the text of its forest, its numbers of vertices and links, and the total of its forest.
#[derive(Clone, Copy)]
pub(crate) struct Solved<'a> {
    pub(crate) file: &'a [u8],
    pub(crate) text: &'a [u8],
    pub(crate) size: (u32, u64, i128),
}

// The counts of a run of this file over these lines. The run reads its whole source, and returns as many lines.
pub(crate) fn run_of<L: Line + Send + Drop, R: Threads + Wait + Sync + Abort>(
    rt: &R,
    alloc: Global,
    solved: &Solved,
    cutting: Cutting,
    lines: Vec<L>,
) -> Counts
    requires few { length lines.items ≤ 64 }
    requires room { All (λ line. HasRoom (L.state line)) lines.items }
{
    let count = lines.len();
    let mut source = solved.file;
    let mut sink = Vec::new(alloc);
    let ended = run_lines(rt, alloc, &mut source, cutting, lines, &mut sink);
    let (report, lines) = ended.expect(rt, "a forest");
    expect_same(rt, sink.as_slice(), solved.text);
    expect_same(rt, source.is_empty(), true);
    expect_same(rt, lines.len(), count);
    let size = (report.vertices, report.links, report.total);
    expect_same(rt, size, solved.size);
    lawful_counts(rt, &report, count)
}

// The same for an example graph, whose loops aren't links.
pub(crate) fn run_of_worked<L: Line + Send + Drop, R: Threads + Wait + Sync + Abort>(
    rt: &R,
    alloc: Global,
    graph: &Worked,
    cutting: Cutting,
    lines: Vec<L>,
) -> Counts
    requires few { length lines.items ≤ 64 }
    requires room { All (λ line. HasRoom (L.state line)) lines.items }
{
    let links = graph.arcs.iter().filter(|arc| arc.0 != arc.1).count();
    let solved = Solved {
        file: graph.file,
        text: graph.text,
        size: (graph.n, links as u64, graph.total),
    };
    run_of(rt, alloc, &solved, cutting, lines)
}

// Why a run over these lines fails. It writes nothing.
pub(crate) fn fault_of<L: Line + Send + Drop, R: Threads + Wait + Sync + Abort>(
    rt: &R,
    alloc: Global,
    file: &[u8],
    cutting: Cutting,
    lines: Vec<L>,
) -> Option<RunFault>
    requires few { length lines.items ≤ 64 }
    requires room { All (λ line. HasRoom (L.state line)) lines.items }
{
    let mut source = file;
    let mut sink = Vec::new(alloc);
    let ended = run_lines(rt, alloc, &mut source, cutting, lines, &mut sink);
    expect_same(rt, sink.is_empty(), true);
    ended.err()
}
