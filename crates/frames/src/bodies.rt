//! Reads bytes of a body from a stream, and the numbers at its beginning.
ghost use Rattle.std.specs.Prelude.{◌≢◌, ◌++◌, length, IfOk, IfErr, OnOk};
ghost use Rattle.byte_streams.specs.Streams.{Gave};
ghost use Rattle.frames.specs.FrameText.{u32_text};
ghost use Rattle.frames.specs.Lawful.{IsU32};
ghost use Rattle.frames.specs.ReadFault.{IsCutShort};
ghost use Rattle.frames.specs.Sources.{KeepsSource};
ghost use Rattle.frames.specs.declared.fault.FrameFault.TheVariants.{Memory};

use crate::fault::FrameFault;
use crate::fields::split_u32;
use byte_streams::{FillFault, Source, fill};

// The most bytes of a list that are read at a time. A reader reserves memory for one piece, and only after the pieces
// before it have arrived.
pub(crate) const PIECE: usize = 65_536;

// Fills `bytes` with the next bytes of a body.
pub(crate) fn read_bytes<S: Source>(source: &mut S, bytes: &mut [u8]) -> Result<(), FrameFault>
    requires { S.can_read source.old }
    ensures came { OnOk result (Gave 0 0 bytes.new (S.state source.old) (S.state source.new)) }
    ensures short { IfErr result
        (λ fault. IsCutShort fault (length bytes.new) (S.state source.old) (S.state source.new)) }
    ensures takes_none { IfErr result (λ fault. fault ≢ Memory) }
    ensures kept { KeepsSource S.Source result source.old source.new }
{
    match fill(source, bytes) {
        Ok(()) => Ok(()),
        Err(FillFault::Failed(_)) => Err(FrameFault::Device),
        Err(FillFault::Ended(_)) => Err(FrameFault::Torn),
    }
}

// Reads the two four-byte numbers at the beginning of a shard's body.
#[tactic(auto, using(crate::proofs::Pieces::two_came))]
pub(crate) fn read_two<S: Source>(source: &mut S) -> Result<(u32, u32), FrameFault>
    requires { S.can_read source.old }
    ensures came { IfOk result
        (λ f. Gave 0 0 (u32_text f.0 ++ u32_text f.1) (S.state source.old) (S.state source.new)) }
    ensures fit { IfOk result (λ f. IsU32 f.0 × IsU32 f.1) }
    ensures short { IfErr result
        (λ fault. IsCutShort fault 8 (S.state source.old) (S.state source.new)) }
    ensures takes_none { IfErr result (λ fault. fault ≢ Memory) }
    ensures kept { KeepsSource S.Source result source.old source.new }
{
    let mut fields = [0; 8];
    read_bytes(source, &mut fields)?;
    let (first, rest) = split_u32(&fields);
    let (second, _) = split_u32(rest);
    Ok((first, second))
}

// Reads the three four-byte numbers at the beginning of the body of an ask or an answer.
#[tactic(auto, using(crate::proofs::Pieces::three_came))]
pub(crate) fn read_three<S: Source>(source: &mut S) -> Result<(u32, u32, u32), FrameFault>
    requires { S.can_read source.old }
    ensures came { IfOk result
        (λ f. Gave 0 0 (u32_text f.0 ++ (u32_text f.1 ++ u32_text f.2)) (S.state source.old) (S.state source.new)) }
    ensures fit { IfOk result (λ f. IsU32 f.0 × IsU32 f.1 × IsU32 f.2) }
    ensures short { IfErr result
        (λ fault. IsCutShort fault 12 (S.state source.old) (S.state source.new)) }
    ensures takes_none { IfErr result (λ fault. fault ≢ Memory) }
    ensures kept { KeepsSource S.Source result source.old source.new }
{
    let mut fields = [0; 12];
    read_bytes(source, &mut fields)?;
    let (first, rest) = split_u32(&fields);
    let (second, rest) = split_u32(rest);
    let (third, _) = split_u32(rest);
    Ok((first, second, third))
}
