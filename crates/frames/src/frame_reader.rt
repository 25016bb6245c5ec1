//! Reads frames from a stream of bytes.
ghost use Rattle.std.specs.Prelude.{◌≢◌, ◌∷◌, IfOk, IfErr};
ghost use Rattle.byte_streams.specs.Streams.{Gave};
ghost use Rattle.frames.specs.FrameValue.{value_of};
ghost use Rattle.frames.specs.FrameText.{u32_text, text_of};
ghost use Rattle.frames.specs.Lawful.{IsLawful};
ghost use Rattle.frames.specs.Refusals.{IsPossible};
ghost use Rattle.frames.specs.ReadFault.{IsReadRefused};
ghost use Rattle.frames.specs.NextFrame.{BodyCame, IsBodyRefused, WantsLate};
ghost use Rattle.frames.specs.Sources.{KeepsSource};

use crate::answer_reader::read_answer;
use crate::ask_reader::read_whole_ask;
use crate::bodies::read_bytes;
use crate::decoding::decode_body;
use crate::fault::FrameFault;
use crate::frame::Frame;
use crate::head::{Head, decode_head};
use crate::shard_reader::read_shard;
use crate::spelling::Spelling;
use byte_streams::{FillFault, Source, fill};
use std::alloc::Allocator;

/// Reads the next frame of a stream.
///
/// It returns these errors:
/// - `Ended` if the stream ended before the frame's first byte, and `Torn` if it ended within the frame.
/// - `Device` if a read failed.
/// - `Memory` if an allocation failed.
/// - Otherwise the error of the head ([`decode_head`](crate::decode_head)) or of the body
///   ([`decode_body`](crate::decode_body)).
///
/// In no case does it read beyond the frame.
///
/// It stores the list of a shard's links, of an ask's labels, or of an answer's offers, and no other part of a body. It
/// reads at most 65,536 bytes at a time into one buffer on the stack, and appends their items to the list. A hello and
/// a fault need no memory.
///
/// Memory for a piece is reserved before the piece arrives, so a head that announces more than the stream has costs
/// little. At first the list takes at most 87,376 bytes for a shard, and 65,536 for an ask or an answer. After a whole
/// piece has arrived, it takes at most three times the bytes that came, or four times while it moves to a larger block.
/// For an ask or an answer it takes at most twice, or three times.
///
/// If a field before the list or a link is unlawful, the rest of the frame is still read, without memory. Whether
/// numbers are labels, or the components of an answer ascend, is checked in one pass after all of them have arrived.
pub fn read_frame<A: Allocator + Copy, S: Source>(
    alloc: A,
    source: &mut S,
) -> Result<Frame<A>, FrameFault>
    requires { S.can_read source.old }

    // On success, exactly the text of the frame was read.
    ensures lawful { IfOk result (λ f. IsLawful (value_of f)) }
    ensures text { IfOk result
        (λ f. Gave 0 0 (text_of (value_of f)) (S.state source.old) (S.state source.new)) }

    // On an error, what was read is rejected for it. A failure and an end are distinguished, and each is counted once.
    ensures refused { IfErr result
        (λ fault. IsReadRefused fault (S.state source.old) (S.state source.new)) }

    ensures kept { KeepsSource S.Source result source.old source.new }
{
    let head = read_head(source)?;
    read_rest(alloc, source, head)
}

// Reads the body that follows a head.
pub(crate) fn read_rest<A: Allocator + Copy, S: Source>(
    alloc: A,
    source: &mut S,
    head: Head,
) -> Result<Frame<A>, FrameFault>
    requires can { S.can_read source.old }
    requires possible { IsPossible head.kind head.length }
    ensures came { IfOk result
        (λ f. BodyCame (value_of f) head.kind head.length (S.state source.old) (S.state source.new)) }
    ensures refused { IfErr result
        (λ fault. IsBodyRefused fault head.kind head.length (S.state source.old) (S.state source.new)) }
    ensures kept { KeepsSource S.Source result source.old source.new }
{
    if !matches!(head.kind, 1 | 5) {
        return read_listed(alloc, source, head);
    }
    let mut fields = [0; 9];
    let body = &mut fields[..head.length as usize];
    read_bytes(source, body)?;
    decode_body(alloc, head, body)
}

// Reads the body of a shard, an ask or an answer.
pub(crate) fn read_listed<A: Allocator, S: Source>(
    alloc: A,
    source: &mut S,
    head: Head,
) -> Result<Frame<A>, FrameFault>
    requires can { S.can_read source.old }
    requires possible { IsPossible head.kind head.length }
    requires listed { (head.kind ≢ 1) × (head.kind ≢ 5) }
    ensures came { IfOk result
        (λ f. BodyCame (value_of f) head.kind head.length (S.state source.old) (S.state source.new)) }
    ensures refused { IfErr result
        (λ fault. IsBodyRefused fault head.kind head.length (S.state source.old) (S.state source.new)) }
    ensures late { IfErr result (λ fault. WantsLate fault head.kind head.length (S.state source.old)) }
    ensures kept { KeepsSource S.Source result source.old source.new }
{
    if head.kind == 3 {
        return read_whole_ask(alloc, source, (head.length as usize - 12) / 4);
    }
    match Spelling::of_kind(head.kind) {
        Some(spelling) => {
            let most = spelling.links_in(head.length as usize - 8);
            read_shard(alloc, source, spelling, most)
        }
        None => {
            let most = (head.length as usize - 12) / 8;
            read_answer(alloc, source, most)
        }
    }
}

pub(crate) fn read_head<S: Source>(source: &mut S) -> Result<Head, FrameFault>
    requires { S.can_read source.old }
    ensures possible { IfOk result (λ head. IsPossible head.kind head.length) }
    ensures came { IfOk result
        (λ head. Gave 0 0 (head.kind ∷ u32_text head.length) (S.state source.old) (S.state source.new)) }
    ensures refused { IfErr result
        (λ fault. IsReadRefused fault (S.state source.old) (S.state source.new)) }
    ensures kept { KeepsSource S.Source result source.old source.new }
{
    let mut bytes = [0; 5];
    match fill(source, &mut bytes) {
        Ok(()) => decode_head(&bytes),
        Err(FillFault::Failed(_)) => Err(FrameFault::Device),
        Err(FillFault::Ended(0)) => Err(FrameFault::Ended),
        Err(FillFault::Ended(_)) => Err(FrameFault::Torn),
    }
}
