ghost use Rattle.std.specs.Prelude.{◌≡◌, ℕ, ◌⊎◌, ◌≤◌, List, [], length, All, IfOk, IfErr, OnOk, vec_capacity};
ghost use Rattle.limits.specs.declared.TheConstants.{MAX_ARCS, MAX_VERTICES, MAX_WORKERS};
ghost use Rattle.byte_streams.specs.Streams.{IsFlushed};
ghost use Rattle.links.specs.Cut.{IsCutFault};
ghost use Rattle.links.specs.Link.{EndsUpTo};
ghost use Rattle.round_core.specs.declared.solver.SolveFault.TheVariants.{Memory};
ghost use Rattle.wires.specs.Lines.{HasRoom};
ghost use Rattle.plain_run.specs.Files.{HasFile, MeansGraph, MeansNothing, IsFirstFaultOf, IsNoRefusal};
ghost use Rattle.plain_run.specs.Outcomes.{known};
ghost use Rattle.forest_run.specs.Cuttings.{cut_refusal, IsCutOf};
ghost use Rattle.forest_run.specs.WiredLines.{AreServed, AreNewLanes, lines_of, FindsOverLines, RefusesOverLines};
ghost use Rattle.forest_run.specs.LinesRun.{run_fault, RanLines, RanServed, EndsWell};

use crate::cutting::Cutting;
use byte_streams::{Sink, Source};
use gr_text::{read_graph_par, write_forest_par};
use limits::MAX_WORKERS;
use links::{Cut, CutFault, Forest, Link};
use plain_run::{Report, RunFault};
use port_rounds::{Lane, solve};
use rayon::current_num_threads;
use round_core::SolveFault;
use std::alloc::{AllocError, Allocator};
use std::sync::Wait;
use std::thread::Threads;
use wires::{Line, Wire};

// Splits the links as requested.
fn cut_links<'a, A: Allocator + Copy>(
    alloc: A,
    links: &'a [Link],
    cutting: Cutting,
) -> Result<Cut<'a, A>, CutFault>
    requires few_links { length links.now ≤ MAX_ARCS }
    ensures cut { IfOk result (IsCutOf cutting.entry links.now) }
    ensures refused { IfErr result (IsCutFault (cut_refusal cutting.entry (length links.now))) }
{
    match cutting {
        Cutting::Even(count) => Cut::even(alloc, links, count),
        Cutting::At(places) => Cut::at(alloc, links, places),
    }
}

// Makes a lane with a new wire over each line. The wire at index `i` is to worker `i`. `lines` is left empty, with its
// memory.
fn open_lanes<'a, L: Line + Drop, A: Allocator + Copy>(
    alloc: A,
    cut: &'a Cut<'a, A>,
    lines: &mut Vec<L, A>,
) -> Result<Vec<Lane<Wire<'a, L, A>, A>, A>, AllocError>
    requires few { length lines.old.items ≤ MAX_WORKERS }
    requires room { All (λ line. HasRoom (L.state line)) lines.old.items }
    ensures lanes { IfOk result (λ lanes. AreNewLanes lines.old.items cut.now lanes.items) }
    ensures left { OnOk result (lines.new.items ≡ []) }
    ensures capacity { OnOk result (length lines.old.items ≤ vec_capacity lines.new) }
{
    let mut lanes = Vec::with_capacity(alloc, lines.len())?;
    lines.reverse();
    while let Some(line) = lines.pop() {
        let worker = lanes.len() as u32;
        lanes.push_reserved(Lane::new(alloc, Wire::new(alloc, line, cut, worker)));
    }
    Ok(lanes)
}

// Moves the lines of the lanes, in their order, into `lines`, which has the capacity for them.
fn close_lanes<'a, L: Line + Drop, A: Allocator + Copy>(
    mut lanes: Vec<Lane<Wire<'a, L, A>, A>, A>,
    lines: &mut Vec<L, A>,
)
    requires none { lines.old.items ≡ [] }
    requires room { length lanes.items ≤ vec_capacity lines.old }
    ensures lines { lines.new.items ≡ lines_of lanes.entry.items }
{
    lanes.reverse();
    while let Some(lane) = lanes.pop() {
        lines.push_reserved(lane.into_port().into_line());
    }
}

fn run_fault_for(fault: SolveFault) -> RunFault
    ensures { result ≡ run_fault fault }
{
    match fault {
        SolveFault::Rounds { round } => RunFault::Rounds { round },
        SolveFault::Missed { link } => RunFault::Missed { link },
        SolveFault::Memory => RunFault::Memory,
    }
}

// Finds a spanning forest of the cut's links over new wires, and takes the lines out of these.
fn solve_lines<
    'a,
    L: Line + Send + Drop,
    A: Allocator + Copy + Send + Sync,
    R: Threads + Wait + Sync,
>(
    rt: &R,
    alloc: A,
    n: u32,
    cut: &'a Cut<'a, A>,
    mut lines: Vec<L, A>,
) -> Result<(Forest<A>, Report, Vec<L, A>), SolveFault>
    requires few { length lines.items ≤ MAX_WORKERS }
    requires room { All (λ line. HasRoom (L.state line)) lines.items }
    requires vertices { n ≤ MAX_VERTICES }
    requires ends { All (EndsUpTo n) cut.now }
    ensures went { IfOk result (λ r. FindsOverLines A L.Line n cut.now lines.items r.2.items r.0 r.1) }
    ensures fault { IfErr result (λ fault. (fault ≡ Memory) ⊎ RefusesOverLines A L.Line n cut.now lines.items fault) }
    ensures served { IfErr result (λ fault. AreServed L.Line lines.items → fault ≡ Memory) }
{
    let mut lanes = open_lanes(alloc, cut, &mut lines)?;
    let (forest, report) = solve(rt, alloc, n, cut, &mut lanes)?;
    close_lanes(lanes, &mut lines);
    Ok((forest, report, lines))
}

/// Reads a graph of at most [`limits::MAX_BYTES`] bytes, finds its minimum spanning forest over lines to workers, and
/// writes the forest's text. It returns what the run did, and the lines as it left them, in their order.
///
/// The links are split as `cutting` says. The worker at line `i`, numbered from 0, is asked about the light offers of
/// one shard after another, as in [`solve`].
///
/// A line is given up for good if it fails or brings anything but an answer, or if the round's book rejects an answer.
/// So is a line if there is no memory for an ask, or if its worker's version has no frame for a shard. Its shards are
/// asked of the other lines, or scanned here if none is left, so the run never fails because of a line.
///
/// A line that was new, with known bytes, is given up for an error only if one of these holds for its last ask, and for
/// no ask before it:
/// - The ask counted a failure or an end.
/// - It brought bytes that fit the error.
/// - There was no memory for it.
/// - It needed a frame that its worker's version doesn't have.
///
/// If all lines carry the sessions of their workers, the links are the minimum spanning forest. Then a line is given up
/// only if it is down, if its worker is too old for a shard, or if memory runs out here or at its worker. Whatever
/// comes over the lines, the links close no cycle and span those of the file.
///
/// It waits for the workers' answers. It reads and writes by as many threads as there are processors. The forest is
/// complete before the first byte is written. After an error the lines are dropped.
///
/// It takes memory for a list of the links, the indices of the cut, and 600 bytes and less than 128 KiB per line. If
/// there is no memory to store the bytes of the labels, each line takes 4 bytes per vertex instead. It also takes what
/// [`solve`] takes, and what [`read_graph_par`] and [`write_forest_par`] take for their threads. The time of a round is
/// that of one scan of the links, shared by the workers.
pub fn run_lines<
    S: Source,
    W: Sink,
    L: Line + Send + Drop,
    A: Allocator + Copy + Send + Sync,
    R: Threads + Wait + Sync,
>(
    rt: &R,
    alloc: A,
    source: &mut S,
    cutting: Cutting,
    lines: Vec<L, A>,
    sink: &mut W,
) -> Result<(Report, Vec<L, A>), RunFault>
    requires source { S.can_read source.old }
    requires sink { W.can_write sink.old }
    requires few { length lines.items ≤ MAX_WORKERS }
    requires room { All (λ line. HasRoom (L.state line)) lines.items }

    // Whatever the workers answer: the source was read to its end and exactly the text of a spanning forest was
    // written, or the error says what was done. A run may succeed, fail on a write, or fail because what came over the
    // lines makes no forest. In these cases, each line was asked as its worker, and it is known why a line was given
    // up.
    ensures ran { RanLines L.Line cutting.entry lines.items result
        (known S.state W.state source.old sink.old) (known S.state W.state source.new sink.new) }

    // If each line is new and carries its worker's session: the minimum spanning forest, after as many rounds as merge
    // components. `ran` says so too, about the forest and the report that it names.
    ensures served { AreServed L.Line lines.items → RanServed cutting.entry result
        (known S.state W.state source.old sink.old) (known S.state W.state source.new sink.new) }

    // If no read fails, a file that doesn't describe a graph is rejected with its first error, or memory runs out. A
    // file that does isn't rejected.
    ensures malformed { (bytes : List ℕ) → HasFile bytes (S.state source.old) (S.state source.new)
        → MeansNothing bytes → IsFirstFaultOf bytes result }
    ensures lawful { (bytes : List ℕ) → HasFile bytes (S.state source.old) (S.state source.new)
        → MeansGraph bytes → IsNoRefusal result }

    // Over such lines, and if the file's graph can be split as requested, a run fails only for lack of memory or
    // because of an error of the sink.
    ensures ends_well { AreServed L.Line lines.items → EndsWell cutting.entry result
        (known S.state W.state source.old sink.old) (known S.state W.state source.new sink.new) }

    // After a successful run, no byte waits for a flush, in a sink that knows which do; and it can be written again.
    ensures flushed { OnOk result (IsFlushed (W.unflushed sink.new)) }
    ensures again { OnOk result (W.can_write sink.new) }
{
    let threads = current_num_threads(rt);
    let graph = match read_graph_par(rt, threads, alloc, source) {
        Ok(graph) => graph,
        Err(fault) => return Err(RunFault::Read(fault)),
    };
    let cut = match cut_links(alloc, graph.links(), cutting) {
        Ok(cut) => cut,
        Err(fault) => return Err(RunFault::Cut(fault)),
    };
    let (forest, report, lines) = match solve_lines(rt, alloc, graph.n(), &cut, lines) {
        Ok(solved) => solved,
        Err(fault) => return Err(run_fault_for(fault)),
    };
    match write_forest_par(rt, threads, alloc, sink, graph.n(), &forest) {
        Ok(_) => Ok((report, lines)),
        Err(fault) => Err(RunFault::Write {
            written: fault.written,
        }),
    }
}
