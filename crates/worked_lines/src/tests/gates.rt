// Lines that answer only after another got an ask, and otherwise fail. They don't fail, because ports get asks at the
// same time, and a port takes over what another hasn't started.
ghost use Rattle.std.specs.Prelude.{◌≡◌, ◌<◌, ◌≤◌, length, All, IfOk};
ghost use Rattle.ports.specs.EngineLines.{line_of};
ghost use Rattle.wires.specs.Lines.{HasRoom};
ghost use Rattle.ports.specs.Testing.{with_stops};

use super::runs::{Solved, run_of, run_of_worked};
use super::same::expect_same;
use forest_run::Cutting;
use ports::{EngineLine, Line, LineFault};
use std::alloc::{AllocError, Global};
use std::sync::atomic::AtomicU64;
use std::sync::atomic::Ordering::SeqCst;
use worked_graphs::SMALL_NET;

// How often a line reads another's count.
const TURNS: u64 = 1 << 28;

/// A line to a worker in memory. It counts its asks, which are its first gets after a put.
///
/// At its first ask it waits until another line got `least` asks, or all lines together if they share one count. It
/// fails if it doesn't see that many within its turns. It also fails if its first ask isn't for shard `first`, whose
/// frame is the first to be put.
#[derive(Drop)]
struct Gate<'a> {
    line: EngineLine<Global>,
    asked: &'a AtomicU64,
    other: &'a AtomicU64,
    least: u64,
    first: u8,
    has_put: bool,
    has_passed: bool,
    stopped: u64,
}

impl<'a> Line for Gate<'a> {
    ghost use Rattle.ports.specs.EngineLines.{line_of, IsEngineLine};
    ghost use Rattle.ports.specs.Testing.{with_stops};
    ghost use Rattle.ports.specs.LineLaws.{fused_serves};
    ghost use Rattle.ports.specs.LineLaws.{engine_serves};

    ghost state = { λ s. with_stops (line_of s.line) s.stopped };

    ghost faithful = { λ s worker. IsEngineLine worker s.line };

    fn put(&mut self, bytes: &[u8]) -> Result<(), LineFault> {
        if !self.has_passed && !self.has_put && !is_of_shard(bytes, self.first) {
            self.stopped += 1;
            return Err(LineFault::Failed);
        }
        self.has_put = true;
        self.line.put(bytes)
    }

    fn get(&mut self, into: &mut [u8]) -> Result<usize, LineFault> {
        if self.has_put && !self.passes() {
            self.stopped += 1;
            return Err(LineFault::Failed);
        }
        self.line.get(into)
    }

    ghost serves = { λ s worker is. fused_serves worker (line_of s.line) s.stopped (engine_serves worker s.line is) };
}

impl<'a> Gate<'a> {
    // Counts an ask, and at the first one waits for the other line.
    fn passes(&mut self) -> bool
        ensures { (self.new.line ≡ self.old.line) × (self.new.stopped ≡ self.old.stopped) }
    {
        self.has_put = false;
        self.asked.fetch_add(1, SeqCst);
        if !self.has_passed {
            self.has_passed = reaches(self.other, self.least);
        }
        self.has_passed
    }
}

// Whether a frame with a shard has this shard. The number is the four bytes after the frame's kind and length.
fn is_of_shard(frame: &[u8], shard: u8) -> bool {
    frame.get(8) == Some(&shard)
}

fn reaches(count: &AtomicU64, least: u64) -> bool {
    for _ in 0..TURNS {
        if count.load(SeqCst) >= least {
            return true;
        }
    }
    false
}

// A gate before the worker of this number, whose first ask is for this shard. `counts` are its own count and the
// other's.
fn gate_to<'a>(
    alloc: Global,
    worker: u32,
    counts: (&'a AtomicU64, &'a AtomicU64),
    least: u64,
    first: u8,
) -> Result<Gate<'a>, AllocError>
    requires { worker < 64 }
    ensures room { IfOk result (λ line. HasRoom (with_stops (line_of line.line) line.stopped)) }
{
    let (asked, other) = counts;
    Ok(Gate {
        line: EngineLine::new(alloc, worker)?,
        asked,
        other,
        least,
        first,
        has_put: false,
        has_passed: false,
        stopped: 0,
    })
}

// Two gates. Each waits until the other got its number of asks, and its first ask is for its shard.
fn two_gates<'a>(
    alloc: Global,
    counts: (&'a AtomicU64, &'a AtomicU64),
    least: (u64, u64),
    first: (u8, u8),
) -> Result<Vec<Gate<'a>>, AllocError>
    ensures few { IfOk result (λ lines. length lines.items ≤ 64) }
    ensures room { IfOk result (λ lines. All (λ line. HasRoom (with_stops (line_of line.line) line.stopped)) lines.items) }
{
    let (zero, one) = counts;
    let mut lines = Vec::new(alloc);
    lines.push(gate_to(alloc, 0, (zero, one), least.0, first.0)?)?;
    lines.push(gate_to(alloc, 1, (one, zero), least.1, first.1)?)?;
    Ok(lines)
}

// Nine gates with one count. Each waits until all got an ask.
fn nine_gates<'a>(alloc: Global, asked: &'a AtomicU64) -> Result<Vec<Gate<'a>>, AllocError>
    ensures few { IfOk result (λ lines. length lines.items ≤ 64) }
    ensures room { IfOk result (λ lines. All (λ line. HasRoom (with_stops (line_of line.line) line.stopped)) lines.items) }
{
    let mut lines = Vec::new(alloc);
    for worker in 0..9u32 {
        lines.push(gate_to(alloc, worker, (asked, asked), 9, 2 * worker as u8)?)?;
    }
    Ok(lines)
}

#[test]
fn lines_that_wait_for_each_other(rt: HostRuntime) {
    let alloc = rt.alloc();
    let (zero, one) = (AtomicU64::new(0), AtomicU64::new(0));
    let lines = two_gates(alloc, (&zero, &one), (1, 1), (0, 1)).expect(&rt, "memory");
    let counts = run_of_worked(&rt, alloc, &SMALL_NET, Cutting::Even(2), lines);
    expect_same(&rt, counts, [2, 2, 6, 6, 0, 0]);
}

// Line 0 waits with one of four shards until the other line got asks for the other three. The other line waits with its
// first ask until line 0 got one. Otherwise it could take all four before the thread of line 0 begins.
#[test]
fn a_line_that_waits_for_three_asks(rt: HostRuntime) {
    let alloc = rt.alloc();
    let (zero, one) = (AtomicU64::new(0), AtomicU64::new(0));
    let lines = two_gates(alloc, (&zero, &one), (3, 1), (0, 2)).expect(&rt, "memory");
    let counts = run_of_worked(&rt, alloc, &SMALL_NET, Cutting::Even(4), lines);
    expect_same(&rt, counts, [2, 4, 12, 12, 0, 0]);
}

// Nine lines over eighteen shards. The first ask of each is for a shard of its own, two after that of the line before.
// Each waits until all got an ask.
#[test]
fn nine_lines_that_wait_for_all(rt: HostRuntime) {
    let alloc = rt.alloc();
    let asked = AtomicU64::new(0);
    let lines = nine_gates(alloc, &asked).expect(&rt, "memory");
    let counts = run_of_worked(&rt, alloc, &SMALL_NET, Cutting::Even(18), lines);
    expect_same(&rt, counts, [2, 18, 54, 54, 0, 0]);
}

/// A line to a worker in memory. If the worker is an old one, its hello has the first version. Any other line waits,
/// before its first byte, until a get of the old one's hello has begun. Contracts don't see the line's bytes, since it
/// changes one.
#[derive(Drop)]
struct Versioned<'a> {
    line: EngineLine<Global>,
    greeted: &'a AtomicU64,
    is_old: bool,
    got: usize,
}

// The index of the version's second byte in a stream that begins with a hello.
const VERSION_AT: usize = 6;

impl<'a> Line for Versioned<'a> {
    ghost use Rattle.std.specs.Prelude.{None};

    ghost state = { λ s. record { sent = None; got = None; failures = (line_of s.line).failures; ends = (line_of s.line).ends } };

    ghost faithful = { λ _ _. ⊥ };

    fn put(&mut self, bytes: &[u8]) -> Result<(), LineFault> {
        self.line.put(bytes)
    }

    fn get(&mut self, into: &mut [u8]) -> Result<usize, LineFault> {
        if !self.is_old {
            reaches(self.greeted, 1);
            return self.line.get(into);
        }
        self.greeted.fetch_add(1, SeqCst);
        let count = self.line.get(into)?;
        if self.got <= VERSION_AT {
            if let Some(version) = into[..count].get_mut(VERSION_AT.wrapping_sub(self.got)) {
                *version = 1;
            }
            self.got = self.got.wrapping_add(count);
        }
        Ok(count)
    }

    ghost serves = { λ _ _ faithful. absurd faithful };
}

// The first worker has the first version, and the first of two shards has a weight past 32 bits. So its first ask
// closes its line. The other worker answers for both shards in both rounds, and the forest is that of the file.
#[test]
fn workers_of_two_versions(rt: HostRuntime) {
    let alloc = rt.alloc();
    let greeted = AtomicU64::new(0);
    let old = Versioned {
        line: EngineLine::new(alloc, 0).expect(&rt, "memory"),
        greeted: &greeted,
        is_old: true,
        got: 0,
    };
    let new = Versioned {
        line: EngineLine::new(alloc, 1).expect(&rt, "memory"),
        greeted: &greeted,
        is_old: false,
        got: 0,
    };
    let lines = Vec::from_array(alloc, [old, new]).expect(&rt, "memory");
    let solved = Solved {
        file: b"p sp 3 2\na 1 2 2147483648\na 2 3 5\n",
        text: b"p sp 3 2\na 2 3 5\na 1 2 2147483648\n",
        size: (3, 2, 2147483653),
    };
    let counts = run_of(&rt, alloc, &solved, Cutting::Even(2), lines);
    expect_same(&rt, counts, [1, 2, 5, 4, 0, 1]);
}
