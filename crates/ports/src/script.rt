//! A line that plays stored bytes, for tests.
ghost use Rattle.std.specs.Prelude.{◌≡◌, ℕ, ◌+◌, ◌<◌, ◌≤◌, min, length, Ok, IsOk, vec_len};
ghost use Rattle.std.specs.Io.{ReadsAtMost};
ghost use Rattle.wires.specs.Lines.{HasRoom, Puts, Gets};
ghost use Rattle.ports.specs.Testing.{fresh_script, line_of_script, after_get};

use crate::memory::give;
use std::alloc::{Allocator, Global};
use std::marker::Model;
use wires::{Line, LineFault};

/// A line whose puts succeed and are dropped, and whose gets return the stored bytes in order, then 0.
///
/// It never fails, and is faithful for no worker. It uses the bytes that it was made from, and allocates nothing.
#[derive(Drop)]
pub struct ScriptLine<A: Allocator = Global> {
    bytes: Vec<u8, A>,
    given: usize,
    ends: u64,
}

impl<A: Allocator> Model for ScriptLine<A> {
    ghost use Rattle.std.specs.Prelude.{◌≤◌, take, drop, vec_len};
    ghost use Rattle.ports.specs.Testing.{ScriptLineState};

    ghost Value = { ScriptLineState };

    ghost view = { λ s. record { given = take s.given s.bytes.items; left = drop s.given s.bytes.items; ends = s.ends } };

    ghost invariant = { λ s. s.given ≤ vec_len s.bytes };
}

impl<A: Allocator> ScriptLine<A> {
    /// A line that plays these bytes.
    pub fn new(bytes: Vec<u8, A>) -> Self
        ensures { result ≡ fresh_script bytes.items }
    {
        ScriptLine {
            bytes,
            given: 0,
            ends: 0,
        }
    }
}

impl<A: Allocator> Line for ScriptLine<A> {
    ghost state = { λ s. line_of_script s };

    ghost faithful = { λ _ _. ⊥ };

    fn put(&mut self, _bytes: &[u8]) -> Result<(), LineFault>
        requires { HasRoom (line_of_script self.old) }
        ensures went { Puts result _bytes.now (line_of_script self.old) (line_of_script self.new) }
        ensures faithful { ℕ → ⊥ → ⊥ }
        ensures passes { IsOk result }
        ensures unchanged { self.new ≡ self.old }
    {
        Ok(())
    }

    fn get(&mut self, into: &mut [u8]) -> Result<usize, LineFault>
        requires can { HasRoom (line_of_script self.old) }
        requires room { 0 < length into.old }
        ensures bound { ReadsAtMost result into.new }
        ensures went { Gets result into.new (line_of_script self.old) (line_of_script self.new) }
        ensures faithful { ℕ → ⊥ → ⊥ }

        // It gets as many bytes as are left and fit.
        ensures answer { result ≡ Ok (min (length into.old) (length self.old.left)) }
        ensures after { self.new ≡ after_get self.old (min (length into.old) (length self.old.left)) }
    {
        let n = give(self.bytes.as_slice(), self.given, into);
        if n == 0 {
            self.ends += 1;
            return Ok(0);
        }
        self.given += n;
        Ok(n)
    }

    ghost serves = { λ _ _ faithful. absurd faithful };
}
