// Runs over one worker in memory. When the worker or its wire runs out of memory, its line is closed, and the run
// continues without it. First, each allocation of the worker fails by itself, and then each other allocation of the
// run.
ghost use Rattle.std.specs.Prelude.{◌≡◌, length, All, IfOk};
ghost use Rattle.ports.specs.EngineLines.{line_of};
ghost use Rattle.wires.specs.Lines.{HasRoom};

use super::in_turn::{Memory, was_refused};
use super::lists::{even_cut, few_links};
use super::runs::{run_over, wants_memory};
use super::same::expect_same;
use forest_run::{Report, RunFault};
use link_key::{Cut, Labels};
use ports::{EngineLine, Line, Port, Wire};
use std::alloc::{AllocError, Allocator, Global};
use std::process::Abort;
use std::sync::Wait;
use std::thread::Threads;
use test_memory::{Refusals, Refusing};
use worked_graphs::{SMALL_NET, have_labels};

// More allocations than any of these runs makes.
const MOST: u64 = 100;

pub(crate) fn one_line<L: Line + Drop, A: Allocator>(
    memory: A,
    line: L,
) -> Result<Vec<L, A>, AllocError>
    requires { HasRoom (L.state line) }
    ensures few { IfOk result (λ lines. length lines.items ≡ 1) }
    ensures room { IfOk result (λ lines. All (λ line. HasRoom (L.state line)) lines.items) }
{
    let mut lines = Vec::new(memory);
    lines.push(line)?;
    Ok(lines)
}

// A run of the small net in one shard over one line. It writes the forest's text, or runs out of memory. One thread
// makes all of its asks, in the same order each time.
fn run<L: Line + Send + Drop, A: Allocator + Copy + Send + Sync>(
    rt: &(impl Abort + Threads + Wait + Sync),
    alloc: Global,
    lines: Vec<L, A>,
) -> Result<Report, RunFault>
    requires few { length lines.items ≡ 1 }
    requires room { All (λ line. HasRoom (L.state line)) lines.items }
{
    let mut source = SMALL_NET.file;
    let mut text = Vec::new(alloc);
    let (ended, _) = run_over(rt, lines, 1, &mut source, &mut text);
    let written = if ended.is_ok() { SMALL_NET.text } else { &[] };
    expect_same(rt, text.as_slice(), written);
    ended
}

// Each shard of the three rounds was answered, or scanned without a worker. `closed` says whether the one line is
// closed.
fn expect_counts(rt: &impl Abort, report: &Report, closed: u64) {
    let Report {
        asked,
        answered,
        alone,
        ..
    } = *report;
    expect_same(rt, report.closed, closed);
    expect_same(rt, asked, answered.wrapping_add(closed));
    expect_same(rt, answered.wrapping_add(alone), 3);
    expect_same(rt, alone > 0, closed == 1);
}

fn is_answered<'a>(
    rt: &impl Abort,
    wire: &mut Wire<'_, EngineLine<&'a Memory>, &'a Memory>,
    cut: &Cut<&'a Memory>,
    asked: (u32, &Labels<&'a Memory>),
) -> bool
    requires { wire.old.client.cut ≡ cut.now }
    ensures { wire.new.client.cut ≡ cut.now }
{
    let (round, labels) = asked;
    assert!(rt; 1 <= round && cut.len() == 1 && wire.asks() < 3);
    assert!(rt; have_labels(cut.shard(0).links, labels.n()));
    wire.ask(round, 0, labels).is_ok()
}

fn labels_of<'a>(rt: &impl Abort, memory: &'a Memory, list: [u32; 6]) -> Labels<&'a Memory> {
    let list = list.to_vec(memory).expect(rt, "memory");
    Labels::of_list(list).expect(rt, "labels")
}

// Whether each round is answered over a wire that uses `memory`, by a worker on this line.
fn are_answered<'a, 'b>(
    rt: &impl Abort,
    calm: &'a Memory,
    memory: &'a Memory,
    line: EngineLine<&'a Memory>,
    cut: &'b Cut<'b, &'a Memory>,
) -> bool
    requires { HasRoom (line_of line) }
{
    let first = labels_of(rt, calm, [1, 2, 3, 4, 5, 6]);
    let second = labels_of(rt, calm, [1, 2, 1, 1, 2, 1]);
    let third = labels_of(rt, calm, [1; 6]);
    let mut wire = Wire::new(memory, line, cut, 0);
    is_answered(rt, &mut wire, cut, (1, &first))
        && is_answered(rt, &mut wire, cut, (2, &second))
        && is_answered(rt, &mut wire, cut, (3, &third))
}

// The same for the small net in one shard, by a worker with its own allocator. `None` if the worker can't be made.
fn answers<'a>(
    rt: &impl Abort,
    alloc: Global,
    calm: &'a Memory,
    memory: &'a Memory,
    workers: &'a Memory,
) -> Option<bool> {
    let line = EngineLine::new(workers, 0).ok()?;
    let links = few_links(rt, alloc, 6, SMALL_NET.arcs);
    let cut = even_cut(rt, calm, links.as_slice(), 6, 1).expect(rt, "memory");
    Some(are_answered(rt, calm, memory, line, &cut))
}

// A run succeeds although this allocation of its worker fails. Its line is closed if the worker's asks run out of
// memory. Returns whether it is. `None` if no worker is made, or if it makes fewer allocations.
fn is_closed_by_worker(
    rt: &(impl Abort + Threads + Wait + Sync),
    alloc: Global,
    number: u64,
) -> Option<bool> {
    let calm = Refusing::new(alloc, Refusals::none());
    let alone = Refusing::new(alloc, Refusals::only(number));
    let are_answered = answers(rt, alloc, &calm, &calm, &alone)?;
    let workers = Refusing::new(alloc, Refusals::only(number));
    let line = EngineLine::new(&workers, 0).ok()?;
    let lines = one_line(alloc, line).expect(rt, "memory");
    let report = run(rt, alloc, lines).expect(rt, "a forest");
    expect_counts(rt, &report, u64::from(!are_answered));
    if was_refused(&workers) {
        Some(!are_answered)
    } else {
        None
    }
}

// Most of a worker's allocations are such that it can't answer without them.
#[test]
fn a_worker_without_memory_is_given_up(rt: HostRuntime) {
    let mut counts = [0u64; 2];
    for number in 1..MOST {
        if let Some(is_closed) = is_closed_by_worker(&rt, rt.alloc(), number) {
            let place = usize::from(is_closed);
            counts[place] = counts[place].wrapping_add(1);
        }
    }
    let [done_without, closed] = counts;
    expect_same(&rt, done_without > 0 && done_without < closed / 2, true);
}

// Whether a run's line is closed if this allocation of the run fails, but none of its worker. `None` if the run makes
// fewer. A run that fails with out of memory closes no line.
fn is_closed_by_wire(
    rt: &(impl Abort + Threads + Wait + Sync),
    alloc: Global,
    number: u64,
) -> Option<bool> {
    let workers = Refusing::new(alloc, Refusals::none());
    let memory = Refusing::new(alloc, Refusals::only(number));
    let line = EngineLine::new(&workers, 0).ok()?;
    let Ok(lines) = one_line(&memory, line) else {
        return Some(false);
    };
    match run(rt, alloc, lines) {
        Ok(report) => {
            expect_counts(rt, &report, report.closed);
            if was_refused(&memory) {
                Some(report.closed == 1)
            } else {
                None
            }
        }
        Err(fault) => {
            let wants = was_refused(&memory) && wants_memory(fault);
            expect_same(rt, (fault, wants), (fault, true));
            Some(false)
        }
    }
}

// Whether a wire by itself doesn't answer if this allocation fails. `None` if it makes fewer.
fn is_closed_alone(rt: &impl Abort, alloc: Global, number: u64) -> Option<bool> {
    let calm = Refusing::new(alloc, Refusals::none());
    let memory = Refusing::new(alloc, Refusals::only(number));
    let are_answered = answers(rt, alloc, &calm, &memory, &calm)?;
    if was_refused(&memory) {
        Some(!are_answered)
    } else {
        None
    }
}

// As many runs continue without the line as there are allocations that close a wire by itself.
#[test]
fn a_wire_without_memory_is_given_up(rt: HostRuntime) {
    let mut closed = (0u64, 0u64);
    for number in 1..MOST {
        if is_closed_by_wire(&rt, rt.alloc(), number) == Some(true) {
            closed.0 = closed.0.wrapping_add(1);
        }
        if is_closed_alone(&rt, rt.alloc(), number) == Some(true) {
            closed.1 = closed.1.wrapping_add(1);
        }
    }
    expect_same(&rt, (closed.0, closed.0 > 2), (closed.1, true));
}
