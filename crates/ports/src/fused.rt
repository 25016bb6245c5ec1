//! A line over another, which fails after a given number of calls or bytes, for tests.
ghost use Rattle.std.specs.Prelude.{◌≡◌, ℕ, ◌+◌, ◌<◌, ◌≤◌, true, false, length, IfOk, OnOk, IsErr};
ghost use Rattle.std.specs.Io.{ReadsAtMost};
ghost use Rattle.wires.specs.Lines.{HasRoom, Puts, Gets};
ghost use Rattle.ports.specs.Testing.{stops_puts, stops_gets, after_call, given_by, GotInto, PassesGet, with_stops};
ghost use Rattle.ports.specs.LineLaws.{fused_serves};

use std::marker::Model;
use wires::{Line, LineFault};

/// What may still pass.
#[derive(Clone, Copy, Debug, PartialEq, Eq)]
pub enum Fuse {
    /// This many calls of `put` and `get` together.
    Calls(u64),
    /// Each put, and gets of this many bytes together.
    Bytes(u64),
}

/// A line over another: its first calls or bytes pass, and each later call fails.
///
/// It is faithful if the inner line is. A stopped call doesn't reach the inner line, and counts as a failure. It
/// allocates nothing.
#[derive(Drop)]
pub struct FusedLine<L> {
    line: L,
    fuse: Fuse,
    stopped: u64,
}

impl<L> Model for FusedLine<L> {
    ghost use Rattle.ports.specs.Testing.{FusedLineState};

    ghost Value = { FusedLineState L };

    ghost view = { λ s. record { line = s.line; fuse = s.fuse; stopped = s.stopped } };
}

impl<L> FusedLine<L> {
    /// The first `calls` calls of `put` and `get` together pass, and each later one fails.
    pub fn after_calls(line: L, calls: u64) -> Self
        ensures { result ≡ record { line = line; fuse = Fuse.Calls calls; stopped = 0 } }
    {
        FusedLine {
            line,
            fuse: Fuse::Calls(calls),
            stopped: 0,
        }
    }

    /// Puts pass, and so do gets until `bytes` bytes were got; each later get fails. The last get that passes returns
    /// no more than are left of them.
    pub fn after_bytes(line: L, bytes: u64) -> Self
        ensures { result ≡ record { line = line; fuse = Fuse.Bytes bytes; stopped = 0 } }
    {
        FusedLine {
            line,
            fuse: Fuse::Bytes(bytes),
            stopped: 0,
        }
    }
}

impl<L: Line> Line for FusedLine<L> {
    ghost state = { λ s. with_stops (L.state s.line) s.stopped };

    ghost faithful = { λ s worker. L.faithful s.line worker };

    fn put(&mut self, bytes: &[u8]) -> Result<(), LineFault>
        requires { HasRoom (with_stops (L.state self.old.line) self.old.stopped) }

        ensures went { Puts result bytes.now (with_stops (L.state self.old.line) self.old.stopped)
            (with_stops (L.state self.new.line) self.new.stopped) }
        ensures faithful { (worker : ℕ) → L.faithful self.old.line worker → L.faithful self.new.line worker }

        // A stopped put doesn't reach the inner line; any other is the inner line's.
        ensures stopped { stops_puts self.old.fuse ≡ true
            → IsErr result × (self.new ≡ record self.old { stopped = self.old.stopped + 1 }) }
        ensures passed { stops_puts self.old.fuse ≡ false
            → (self.new.stopped ≡ self.old.stopped) × (self.new.fuse ≡ after_call self.old.fuse 0) }
    {
        match self.fuse {
            Fuse::Calls(0) => {
                self.stopped += 1;
                return Err(LineFault::Failed);
            }
            Fuse::Calls(left) => self.fuse = Fuse::Calls(left - 1),
            Fuse::Bytes(_) => {}
        }
        self.line.put(bytes)
    }

    fn get(&mut self, into: &mut [u8]) -> Result<usize, LineFault>
        requires can { HasRoom (with_stops (L.state self.old.line) self.old.stopped) }
        requires room { 0 < length into.old }

        ensures bound { ReadsAtMost result into.new }
        ensures went { Gets result into.new (with_stops (L.state self.old.line) self.old.stopped)
            (with_stops (L.state self.new.line) self.new.stopped) }
        ensures faithful { (worker : ℕ) → L.faithful self.old.line worker → L.faithful self.new.line worker }

        // A stopped get doesn't reach the inner line; any other is the inner line's, of no more bytes than may pass.
        ensures stopped { stops_gets self.old.fuse ≡ true
            → IsErr result × (self.new ≡ record self.old { stopped = self.old.stopped + 1 }) }
        ensures passed { stops_gets self.old.fuse ≡ false → self.new.stopped ≡ self.old.stopped }
        ensures fuse { stops_gets self.old.fuse ≡ false
            → self.new.fuse ≡ after_call self.old.fuse (given_by result) }
        ensures behind { stops_gets self.old.fuse ≡ false
            → PassesGet L.state result into.old into.new self.old self.new }
    {
        match self.fuse {
            Fuse::Calls(0) | Fuse::Bytes(0) => {
                self.stopped += 1;
                Err(LineFault::Failed)
            }
            Fuse::Calls(left) => {
                self.fuse = Fuse::Calls(left - 1);
                self.line.get(into)
            }
            Fuse::Bytes(left) => {
                let most = into.len().min(left as usize);
                let n = get_some(&mut self.line, into, most)?;
                self.fuse = Fuse::Bytes(left - n as u64);
                Ok(n)
            }
        }
    }

    ghost serves = { λ s worker faithful. fused_serves worker (L.state s.line) s.stopped (L.serves s.line worker faithful) };
}

fn get_some<L: Line>(line: &mut L, into: &mut [u8], most: usize) -> Result<usize, LineFault>
    requires can { HasRoom (L.state line.old) }
    requires some { 0 < most }
    requires fits { most ≤ length into.old }
    ensures bound { ReadsAtMost result into.new }
    ensures got { GotInto most result into.old into.new (L.state line.old) (L.state line.new) }
    ensures went { Gets result into.new (L.state line.old) (L.state line.new) }
    ensures faithful { (worker : ℕ) → L.faithful line.old worker → L.faithful line.new worker }
{
    line.get(&mut into[..most])
}
