// Whole runs over the small net, also with weights past 32 bits, and runs over the triangle with stored bytes instead
// of a worker.
ghost use Rattle.std.specs.Prelude.{◌≤◌, length, All, IfOk};
ghost use Rattle.ports.specs.EngineLines.{line_of};
ghost use Rattle.wires.specs.Lines.{HasRoom};

use super::in_turn::{Memory, expect_any, was_refused};
use super::same::expect_same;
use super::wire_asks::FIRST_HELLO;
use byte_streams::{FusedSink, Sink, Source};
use forest_run::{Cutting, Report, RunFault, run_lines, run_plain};
use gr_text::ReadFault;
use limits::MAX_WORKERS;
use link_key::{CutFault, Link};
use ports::{EngineLine, Line, ScriptLine};
use std::alloc::{AllocError, Allocator, Global};
use std::process::Abort;
use std::sync::Wait;
use std::thread::Threads;
use worked_graphs::{EQUAL_WEIGHTS, SMALL_NET, WIDE_WEIGHTS, Worked};

// Whether a run that failed like this was out of memory.
pub(crate) fn wants_memory(fault: RunFault) -> bool {
    fault == RunFault::Memory
        || fault == RunFault::Read(ReadFault::Memory)
        || fault == RunFault::Cut(CutFault::Memory)
}

// A run that succeeded wrote the forest's text and reports its total. A run that failed was out of memory after a
// failed allocation, and wrote nothing.
fn expect_ended(
    rt: &impl Abort,
    memory: &Memory,
    graph: &Worked,
    ended: Result<Report, RunFault>,
    held: &[u8],
) -> Result<Report, AllocError> {
    match ended {
        Ok(report) => {
            expect_same(rt, (held, report.total), (graph.text, graph.total));
            Ok(report)
        }
        Err(fault) => {
            let wants = was_refused(memory) && wants_memory(fault);
            expect_same(rt, (fault, wants, held.is_empty()), (fault, true, true));
            Err(AllocError)
        }
    }
}

fn expect_plain(
    rt: &impl Abort,
    alloc: Global,
    memory: &Memory,
    graph: Worked,
) -> Result<(), AllocError> {
    let mut source = graph.file;
    let mut sink = FusedSink::new(alloc, 100, 7).expect(rt, "memory");
    let ended = run_plain(memory, &mut source, &mut sink);
    expect_ended(rt, memory, &graph, ended, sink.held())?;
    Ok(())
}

pub(crate) fn two_workers<A: Allocator + Copy>(
    alloc: A,
) -> Result<Vec<EngineLine<A>, A>, AllocError>
    ensures few { IfOk result (λ lines. length lines.items ≤ MAX_WORKERS) }
    ensures room { IfOk result (λ lines. All (λ line. HasRoom (line_of line)) lines.items) }
{
    let mut lines = Vec::new(alloc);
    for worker in 0..2u32 {
        lines.push(EngineLine::new(alloc, worker)?)?;
    }
    Ok(lines)
}

// A run over these lines in `shards` shards. Returns how it ended, and how many lines it returned.
pub(crate) fn run_over<
    L: Line + Send + Drop,
    A: Allocator + Copy + Send + Sync,
    S: Source,
    W: Sink,
>(
    rt: &(impl Threads + Wait + Sync),
    lines: Vec<L, A>,
    shards: u32,
    source: &mut S,
    sink: &mut W,
) -> (Result<Report, RunFault>, usize)
    requires can_read { S.can_read source.old }
    requires can_write { W.can_write sink.old }
    requires few { length lines.items ≤ MAX_WORKERS }
    requires room { All (λ line. HasRoom (L.state line)) lines.items }
{
    let alloc = *lines.allocator();
    match run_lines(rt, alloc, source, Cutting::Even(shards), lines, sink) {
        Ok((report, lines)) => (Ok(report), lines.len()),
        Err(fault) => (Err(fault), 0),
    }
}

// A run over two workers, each in memory. If one of them or its wire runs out of memory, its line is closed, and the
// run continues.
fn expect_over_workers<R: Threads + Wait + Sync + Abort>(
    rt: &R,
    alloc: Global,
    memory: &Memory,
    graph: Worked,
) -> Result<(), AllocError> {
    let mut source = graph.file;
    let mut sink = FusedSink::new(alloc, 100, 7).expect(rt, "memory");
    let (ended, count) = run_over(rt, two_workers(memory)?, 2, &mut source, &mut sink);
    let report = expect_ended(rt, memory, &graph, ended, sink.held())?;
    expect_same(rt, (count, report.rounds, report.shards), (2, 2, 2));
    expect_same(rt, report.closed == 0 || was_refused(memory), true);
    Ok(())
}

// A run over a worker of the first version, which is too old for the weights and answers nothing.
fn expect_over_an_old_worker<R: Threads + Wait + Sync + Abort>(
    rt: &R,
    alloc: Global,
    memory: &Memory,
) -> Result<(), AllocError> {
    let mut lines = Vec::new(memory);
    lines.push(ScriptLine::new(FIRST_HELLO.to_vec(memory)?))?;
    let mut source = WIDE_WEIGHTS.file;
    let mut sink = FusedSink::new(alloc, 100, 7).expect(rt, "memory");
    let (ended, _) = run_over(rt, lines, 1, &mut source, &mut sink);
    let report = expect_ended(rt, memory, &WIDE_WEIGHTS, ended, sink.held())?;
    let asks = (report.asked, report.answered, report.alone);
    expect_same(rt, asks, (1, 0, 3));
    expect_same(rt, (report.rounds, report.closed), (2, 1));
    Ok(())
}

/// Stored bytes instead of a worker of the triangle in one shard: an answer of another round, which is rejected, or one
/// that hides all links. Or two answers with one link each, although three vertices can't have a second merging round.
#[derive(Clone, Copy)]
enum Script {
    Stale,
    Hiding,
    PastBound,
}

fn answers_of(script: Script) -> &'static [u8] {
    match script {
        Script::Stale => &[4, 0, 0, 0, 12, 0, 0, 0, 0, 0, 0, 0, 0, 0, 0, 0, 0],
        Script::Hiding => &[4, 0, 0, 0, 12, 0, 0, 0, 1, 0, 0, 0, 0, 0, 0, 0, 0],
        Script::PastBound => &[
            4, 0, 0, 0, 20, 0, 0, 0, 1, 0, 0, 0, 0, 0, 0, 0, 1, 0, 0, 0, 1, 0, 0, 0, 0, 4, 0, 0, 0,
            20, 0, 0, 0, 2, 0, 0, 0, 0, 0, 0, 0, 1, 0, 0, 0, 3, 0, 0, 0, 1,
        ],
    }
}

// The error of a run over them, if it fails.
fn fault_of(script: Script) -> Option<RunFault> {
    match script {
        Script::Stale => None,
        Script::Hiding => match Link::of_arc(1, 2, 5) {
            Some(link) => Some(RunFault::Missed { link }),
            None => None,
        },
        Script::PastBound => Some(RunFault::Rounds { round: 2 }),
    }
}

// A run over such bytes. If the wire runs out of memory, or an answer is rejected, the run continues without the line.
fn expect_over_a_script<R: Threads + Wait + Sync + Abort>(
    rt: &R,
    alloc: Global,
    memory: &Memory,
    script: Script,
) -> Result<(), AllocError> {
    let mut bytes = FIRST_HELLO.to_vec(memory)?;
    bytes.extend_from_slice(answers_of(script))?;
    let mut lines = Vec::new(memory);
    lines.push(ScriptLine::new(bytes))?;
    let mut source = EQUAL_WEIGHTS.file;
    let mut sink = FusedSink::new(alloc, 100, 7).expect(rt, "memory");
    let (ended, _) = run_over(rt, lines, 1, &mut source, &mut sink);
    let expected = fault_of(script);
    if let Err(fault) = ended {
        if expected == Some(fault) {
            expect_same(rt, sink.held().is_empty(), true);
            return Ok(());
        }
    }
    let report = expect_ended(rt, memory, &EQUAL_WEIGHTS, ended, sink.held())?;
    let is_lost = expected.is_none() || was_refused(memory);
    expect_same(rt, (report.closed, is_lost), (1, true));
    Ok(())
}

#[derive(Clone, Copy)]
enum Call {
    RunPlain(Worked),
    RunLines(Worked),
    OldWorker,
    Script(Script),
}

#[test]
fn whole_runs(rt: HostRuntime) {
    for call in [
        Call::RunPlain(SMALL_NET),
        Call::RunPlain(WIDE_WEIGHTS),
        Call::RunLines(SMALL_NET),
        Call::RunLines(WIDE_WEIGHTS),
        Call::OldWorker,
        Call::Script(Script::Stale),
        Call::Script(Script::Hiding),
        Call::Script(Script::PastBound),
    ] {
        expect_any(
            &rt,
            rt.alloc(),
            |memory: &Memory| -> Result<(), AllocError> {
                match call {
                    Call::RunPlain(graph) => expect_plain(&rt, rt.alloc(), memory, graph),
                    Call::RunLines(graph) => expect_over_workers(&rt, rt.alloc(), memory, graph),
                    Call::OldWorker => expect_over_an_old_worker(&rt, rt.alloc(), memory),
                    Call::Script(script) => expect_over_a_script(&rt, rt.alloc(), memory, script),
                }
            },
        );
    }
}
