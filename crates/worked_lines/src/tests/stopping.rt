// Lines that stop. What one worker doesn't answer another does, or the coordinator if no worker is left.
ghost use Rattle.std.specs.Prelude.{◌<◌};
ghost use Rattle.ports.specs.EngineLines.{line_of};
ghost use Rattle.wires.specs.Lines.{HasRoom};
ghost use Rattle.ports.specs.Testing.{line_of_script, with_stops};

use super::runs::{Counts, run_of_worked};
use super::same::expect_same;
use super::scripts::{Numbers, script_line};
use forest_run::Cutting;
use ports::{EngineLine, Fuse, FusedLine, ScriptLine};
use std::alloc::Global;
use std::process::Abort;
use worked_graphs::{SMALL_NET, WIDE_WEIGHTS, Worked};

// A line to the worker of this number. It stops after this many bytes were got.
fn stopping(
    rt: &impl Abort,
    alloc: Global,
    worker: u32,
    bytes: u64,
) -> FusedLine<EngineLine<Global>>
    requires { worker < 64 }
    ensures room { HasRoom (with_stops (line_of result.line) result.stopped) }
{
    let line = EngineLine::new(alloc, worker).expect(rt, "memory");
    FusedLine::after_bytes(line, bytes)
}

#[test]
fn both_lines_fail_at_their_first_read(rt: HostRuntime) {
    let alloc = rt.alloc();
    let both = [stopping(&rt, alloc, 0, 0), stopping(&rt, alloc, 1, 0)];
    let lines = Vec::from_array(alloc, both).expect(&rt, "memory");
    let counts = run_of_worked(&rt, alloc, &SMALL_NET, Cutting::Even(2), lines);
    expect_same(&rt, counts, [2, 2, 2, 0, 6, 2]);
}

// The other line answers for all shards. The line that fails may not get an ask at all.
#[test]
fn one_of_two_lines_fails_at_its_first_read(rt: HostRuntime) {
    let alloc = rt.alloc();
    let whole = stopping(&rt, alloc, 0, u64::MAX);
    let lines = Vec::from_array(alloc, [whole, stopping(&rt, alloc, 1, 0)]).expect(&rt, "memory");
    let counts = run_of_worked(&rt, alloc, &SMALL_NET, Cutting::Even(2), lines);
    let closed = counts[5];
    expect_same(&rt, closed <= 1, true);
    expect_same(&rt, counts, [2, 2, closed.wrapping_add(6), 6, 0, closed]);
}

/// A graph in this many shards, and how many bytes a line has given after each answer. The hello has 11 bytes.
#[derive(Clone, Copy)]
struct Answered {
    graph: Worked,
    shards: u32,
    ends: &'static [u64],
}

// In one shard the answers have 65, 33 and 17 bytes, whatever the weights. In two shards, each answer has 57 bytes in
// the first round, 33 in the second and 17 in the third. The second shard of the wide weights is the one that needs
// frames of its own.
const WHOLE: Answered = Answered {
    graph: SMALL_NET,
    shards: 1,
    ends: &[76, 109, 126],
};

const WIDE: Answered = Answered {
    graph: WIDE_WEIGHTS,
    shards: 1,
    ends: &[76, 109, 126],
};

const WIDE_IN_TWO: Answered = Answered {
    graph: WIDE_WEIGHTS,
    shards: 2,
    ends: &[68, 125, 158, 191, 208, 225],
};

// The counts of a run over one line that stops after this many bytes. Whole answers are taken, the line is closed at
// the next ask, and the coordinator scans the rest.
fn done_after(answered: Answered, bytes: u64) -> Counts {
    let all = answered.ends.len() as u64;
    let taken = answered.ends.iter().filter(|end| **end <= bytes).count() as u64;
    let closed = u64::from(taken < all);
    let asked = taken.wrapping_add(closed);
    [
        2,
        u64::from(answered.shards),
        asked,
        taken,
        all.wrapping_sub(taken),
        closed,
    ]
}

#[test]
fn a_line_that_stops_after_each_byte(rt: HostRuntime) {
    let alloc = rt.alloc();
    for it in [WHOLE, WIDE, WIDE_IN_TWO] {
        for bytes in 0..231u64 {
            let line = stopping(&rt, alloc, 0, bytes);
            let lines = Vec::from_array(alloc, [line]).expect(&rt, "memory");
            let counts = run_of_worked(&rt, alloc, &it.graph, Cutting::Even(it.shards), lines);
            expect_same(&rt, (bytes, counts), (bytes, done_after(it, bytes)));
        }
    }
}

#[test]
fn a_line_that_stops_after_each_call(rt: HostRuntime) {
    let alloc = rt.alloc();
    for it in [WHOLE, WIDE, WIDE_IN_TWO] {
        for calls in 0..41u64 {
            let engine = EngineLine::new(alloc, 0).expect(&rt, "memory");
            let line = FusedLine::after_calls(engine, calls);
            let lines = Vec::from_array(alloc, [line]).expect(&rt, "memory");
            let counts = run_of_worked(&rt, alloc, &it.graph, Cutting::Even(it.shards), lines);
            expect_same(&rt, counts[0], 2);
        }
    }
}

// A worker of the first version that stops like this. It answers for the shard whose weights fit 32 bits.
fn old_worker(rt: &impl Abort, alloc: Global, fuse: Fuse) -> FusedLine<ScriptLine>
    ensures room { HasRoom (with_stops (line_of_script result.line) result.stopped) }
{
    let answer: Numbers = &[52, 1, 0, 5, 1, 1, 2, 2, 3, 3, 4, 2, 5, 3];
    let line = script_line(alloc, &[answer]).expect(rt, "memory");
    match fuse {
        Fuse::Bytes(bytes) => FusedLine::after_bytes(line, bytes),
        Fuse::Calls(calls) => FusedLine::after_calls(line, calls),
    }
}

// The worker is too old for the other shard, and its line is closed there if it wasn't before. If all weights are in
// one shard, that is before it answers at all.
#[test]
fn a_worker_of_the_first_version_that_stops(rt: HostRuntime) {
    let alloc = rt.alloc();
    for (shards, end, alone) in [(1u32, u64::MAX, 3u64), (2, 68, 6)] {
        for count in 0..71u64 {
            let line = old_worker(&rt, alloc, Fuse::Bytes(count));
            let lines = Vec::from_array(alloc, [line]).expect(&rt, "memory");
            let counts = run_of_worked(&rt, alloc, &WIDE_WEIGHTS, Cutting::Even(shards), lines);
            let taken = u64::from(end <= count);
            let (asked, alone) = (taken.wrapping_add(1), alone.wrapping_sub(taken));
            expect_same(&rt, counts, [2, u64::from(shards), asked, taken, alone, 1]);
            let line = old_worker(&rt, alloc, Fuse::Calls(count));
            let lines = Vec::from_array(alloc, [line]).expect(&rt, "memory");
            let counts = run_of_worked(&rt, alloc, &WIDE_WEIGHTS, Cutting::Even(shards), lines);
            expect_same(&rt, (counts[0], counts[5]), (2, 1));
        }
    }
}
