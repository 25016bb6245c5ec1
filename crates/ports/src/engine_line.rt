//! A line to an engine in memory.
ghost use Rattle.std.specs.Prelude.{◌≡◌, ℕ, ◌+◌, ◌-◌, ◌<◌, ◌≤◌, ◌++◌, min, length, Ok, IfOk, IsErr};
ghost use Rattle.std.specs.Io.{ReadsAtMost};
ghost use Rattle.wires.specs.Lines.{HasRoom, IsFresh, Puts, Gets};
ghost use Rattle.ports.specs.EngineLines.{line_of, IsEngineLine};
ghost use Rattle.ports.specs.LineLaws.{engine_serves};

use crate::memory::give;
use crate::session::Session;
use frames::{Frame, VERSION, encode};
use limits::MAX_WORKERS;
use std::alloc::{AllocError, Allocator};
use std::marker::Model;
use wires::{Line, LineFault};
use worker_engine::Engine;

/// A line to an engine in memory. It gets the bytes that the worker's session writes for the bytes put so far, its
/// hello first, and is faithful for that worker.
///
/// It stores all bytes that were put and all that were written. After the session would have ended, whatever comes
/// next, later puts write nothing more. If there is no memory for its bytes or for a shard, that call and all later
/// ones fail. If there is none to reply to an ask, the reply is a fault, as in any session.
#[derive(Drop)]
pub struct EngineLine<A: Allocator> {
    session: Session<A>,
    taken: usize,
    failures: u64,
    ends: u64,
}

impl<A: Allocator> Model for EngineLine<A> {
    ghost use Rattle.std.specs.Prelude.{◌≤◌, length};
    ghost use Rattle.ports.specs.EngineLines.{EngineLineState};

    ghost Value = { EngineLineState };

    ghost view = { λ s. record {
      shelf = s.session.shelf;
      input = s.session.input;
      heard = s.session.heard;
      written = s.session.written;
      taken = s.taken;
      failures = s.failures;
      ends = s.ends;
    } };

    ghost invariant = { λ s. s.taken ≤ length s.session.written };
}

impl<A: Allocator + Copy> EngineLine<A> {
    /// A line to an engine that stores nothing yet, and replies as the worker of this number.
    pub fn new(alloc: A, worker: u32) -> Result<Self, AllocError>
        requires { worker < MAX_WORKERS }
        ensures faithful { IfOk result (IsEngineLine worker) }
        ensures fresh { IfOk result (λ s. IsFresh (line_of s)) }
        ensures no_end { IfOk result (λ s. s.ends ≡ 0) }
    {
        let out = encode(
            alloc,
            &Frame::<A>::Hello {
                version: VERSION,
                worker,
            },
        )?;
        Ok(EngineLine {
            session: Session {
                alloc,
                engine: Engine::new(alloc),
                input: Vec::new(alloc),
                heard: 0,
                out,
            },
            taken: 0,
            failures: 0,
            ends: 0,
        })
    }
}

impl<A: Allocator + Copy> Line for EngineLine<A> {
    ghost state = { λ s. line_of s };

    ghost faithful = { λ s worker. IsEngineLine worker s };

    fn put(&mut self, bytes: &[u8]) -> Result<(), LineFault>
        requires { HasRoom (line_of self.old) }
        ensures went { Puts result bytes.now (line_of self.old) (line_of self.new) }
        ensures faithful { (worker : ℕ) → IsEngineLine worker self.old → IsEngineLine worker self.new }

        // It fails for good.
        ensures failed { 0 < self.old.failures → IsErr result }
    {
        if self.failures > 0 {
            self.failures += 1;
            return Err(LineFault::Failed);
        }
        match self.session.take_in(bytes) {
            Ok(()) => Ok(()),
            Err(_) => {
                self.failures += 1;
                Err(LineFault::Failed)
            }
        }
    }

    fn get(&mut self, into: &mut [u8]) -> Result<usize, LineFault>
        requires can { HasRoom (line_of self.old) }
        requires room { 0 < length into.old }
        ensures bound { ReadsAtMost result into.new }
        ensures went { Gets result into.new (line_of self.old) (line_of self.new) }
        ensures faithful { (worker : ℕ) → IsEngineLine worker self.old → IsEngineLine worker self.new }

        // Until the first failure, it gets as many of the written bytes as are left and fit.
        ensures answer { self.old.failures ≡ 0
            → result ≡ Ok (min (length into.old) (length self.old.written - self.old.taken)) }
        ensures written { self.new.written ≡ self.old.written }
        ensures failed { 0 < self.old.failures → IsErr result }
    {
        if self.failures > 0 {
            self.failures += 1;
            return Err(LineFault::Failed);
        }
        let n = give(self.session.out.as_slice(), self.taken, into);
        if n == 0 {
            self.ends += 1;
            return Ok(0);
        }
        self.taken += n;
        Ok(n)
    }

    ghost serves = { λ s worker is. engine_serves worker s is };
}
