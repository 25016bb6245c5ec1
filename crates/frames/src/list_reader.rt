//! Reads the list of a body in pieces through one buffer, so that its bytes are never stored.
ghost use Rattle.std.specs.Prelude.{◌≡◌, ◌≢◌, ℕ, ◌+◌, ◌<◌, ◌≤◌, List, [], ◌++◌, length, IsErr, IfErr, OnOk};
ghost use Rattle.frames.specs.Pieces.{BytesCame, ListCame};
ghost use Rattle.frames.specs.ReadFault.{IsCutShort};
ghost use Rattle.frames.specs.NextFrame.{IsStopped};
ghost use Rattle.frames.specs.Sources.{KeepsSource};
ghost use Rattle.frames.specs.declared.fault.FrameFault.TheVariants.{Memory};

use crate::bodies::{PIECE, read_bytes};
use crate::fault::FrameFault;
use byte_streams::Source;
use std::alloc::AllocError;

// A list that takes its bytes as they arrive.
pub(crate) trait Hears {
    // The second list is the first after it took these bytes.
    ghost heard: { Self → Self → List ℕ → Type 0 };

    // This many bytes are whole items, and may arrive next.
    ghost awaits: { Self → ℕ → Type 0 };

    // It may allocate memory.
    ghost wants: { Self → Type 0 } = { λ _. Unit {0} };

    // How many of the bytes that are left to read next.
    fn piece_of(&self, left: usize) -> usize
        requires awaits { awaits self.now left }
        requires some { 0 < left }
        ensures some { 0 < result }
        ensures within { result ≤ left }
        ensures fits { result ≤ 65536 }
        ensures whole { awaits self.now result };

    // Reserves memory for this many bytes.
    fn make_room(&mut self, bytes: usize) -> Result<(), AllocError>
        ensures heard { (first : Self) (bytes : List ℕ) → heard first self.old bytes → heard first self.new bytes }
        ensures awaits { (left : ℕ) → awaits self.old left → awaits self.new left }
        ensures wants { wants self.new → wants self.old }
        ensures wanted { IsErr result → wants self.old };

    // Takes the next bytes.
    fn hear(&mut self, piece: &[u8]) -> Result<(), AllocError>
        requires awaits { awaits self.old (length piece.now) }
        requires fits { length piece.now ≤ 65536 }
        ensures heard { OnOk result
            ((first : Self) (bytes : List ℕ) → heard first self.old bytes → heard first self.new (bytes ++ piece.now)) }
        ensures awaits { OnOk result ((left : ℕ) → awaits self.old (length piece.now + left) → awaits self.new left) }
        ensures wants { wants self.new → wants self.old }
        ensures wanted { IsErr result → wants self.old };
}

// Reads the next `len` bytes of a stream into a list. Memory for a piece is reserved before it arrives.
pub(crate) fn read_list<S: Source, L: Hears>(
    source: &mut S,
    list: &mut L,
    len: usize,
) -> Result<(), FrameFault>
    requires can { S.can_read source.old }
    requires awaits { L.awaits list.old len }
    requires heard { L.heard list.old list.old [] }
    ensures came { OnOk result (ListCame (L.heard list.old) len list.new (S.state source.old) (S.state source.new)) }
    ensures stopped { IfErr result (λ fault. IsStopped fault len (S.state source.old) (S.state source.new)) }
    ensures wanted { IfErr result (λ fault. fault ≡ Memory → L.wants list.old) }
    ensures kept { KeepsSource S.Source result source.old source.new }
{
    let mut buffer = [0; PIECE];
    let mut left = len;
    while left > 0 {
        let count = list.piece_of(left);
        let piece = &mut buffer[..count];
        list.make_room(count)?;
        read_bytes(source, piece)?;
        list.hear(piece)?;
        left -= count;
    }
    Ok(())
}

// Takes bytes and drops them.
#[derive(Clone, Copy)]
struct Nothing;

impl Hears for Nothing {
    ghost heard = { λ _ _ _. Unit {0} };

    ghost awaits = { λ _ _. Unit {0} };

    ghost wants = { λ _. ⊥ };

    fn piece_of(&self, left: usize) -> usize {
        left.min(PIECE)
    }

    fn make_room(&mut self, _bytes: usize) -> Result<(), AllocError> {
        Ok(())
    }

    fn hear(&mut self, _piece: &[u8]) -> Result<(), AllocError> {
        Ok(())
    }
}

// Reads this many bytes and drops them.
pub(crate) fn pass_over<S: Source>(source: &mut S, len: usize) -> Result<(), FrameFault>
    requires { S.can_read source.old }
    ensures came { OnOk result (BytesCame len (S.state source.old) (S.state source.new)) }
    ensures short { IfErr result (λ fault. IsCutShort fault len (S.state source.old) (S.state source.new)) }
    ensures takes_none { IfErr result (λ fault. fault ≢ Memory) }
    ensures kept { KeepsSource S.Source result source.old source.new }
{
    read_list(source, &mut Nothing, len)
}
