//! Reads whole asks from a stream. The labels arrive in pieces and are appended to the list that the frame owns.
ghost use Rattle.std.specs.Prelude.{◌≡◌, ◌+◌, ◌*◌, ◌%◌, ◌≤◌, All, IfOk, IfErr};
ghost use Rattle.std.specs.List.{flat_map};
ghost use Rattle.frames.specs.FrameText.{u32_text};
ghost use Rattle.frames.specs.FrameValue.{value_of};
ghost use Rattle.frames.specs.Lawful.{IsU32};
ghost use Rattle.frames.specs.NextFrame.{BodyCame, IsBodyRefused, WantsLate};
ghost use Rattle.frames.specs.Sources.{KeepsSource};

use crate::bodies::{PIECE, read_three};
use crate::fault::FrameFault;
use crate::frame::Frame;
use crate::list_reader::{Hears, pass_over, read_list};
use crate::next_frame::push_numbers;
use byte_streams::Source;
use limits::{MAX_SHARDS, MAX_VERTICES};
use links::Labels;
use std::alloc::{AllocError, Allocator};

// Reads the body of an ask, whose length is that of `most` labels. If a field before the labels is unlawful, the rest
// of the body is read and dropped, since the stream may end within it.
pub(crate) fn read_whole_ask<A: Allocator, S: Source>(
    alloc: A,
    source: &mut S,
    most: usize,
) -> Result<Frame<A>, FrameFault>
    requires few { most ≤ MAX_VERTICES }
    requires can { S.can_read source.old }
    ensures came { IfOk result
        (λ f. BodyCame (value_of f) 3 (12 + 4 * most) (S.state source.old) (S.state source.new)) }
    ensures refused { IfErr result
        (λ fault. IsBodyRefused fault 3 (12 + 4 * most) (S.state source.old) (S.state source.new)) }
    ensures late { IfErr result (λ fault. WantsLate fault 3 (12 + 4 * most) (S.state source.old)) }
    ensures kept { KeepsSource S.Source result source.old source.new }
{
    let (round, shard, count) = read_three(source)?;
    if shard as usize >= MAX_SHARDS || count as usize != most {
        pass_over(source, 4 * most)?;
        return Err(FrameFault::BadField);
    }
    let mut numbers = Vec::new(alloc);
    read_list(source, &mut numbers, 4 * most)?;
    numbers.shrink_to_fit();
    match Labels::of_list(numbers) {
        Some(labels) => Ok(Frame::Ask {
            round,
            shard,
            labels,
        }),
        None => Err(FrameFault::BadField),
    }
}

impl<A: Allocator> Hears for Vec<u32, A> {
    ghost heard = { λ _ numbers bytes. (flat_map u32_text numbers.items ≡ bytes) × All IsU32 numbers.items };

    ghost awaits = { λ _ left. left % 4 ≡ 0 };

    fn piece_of(&self, left: usize) -> usize {
        left.min(PIECE)
    }

    fn make_room(&mut self, bytes: usize) -> Result<(), AllocError> {
        self.reserve(bytes / 4)
    }

    fn hear(&mut self, piece: &[u8]) -> Result<(), AllocError> {
        push_numbers(self, piece)
    }
}
