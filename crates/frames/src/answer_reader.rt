//! Reads answers from a stream. The offers arrive in pieces through one buffer. Each piece is appended to the answer's
//! list before the next one is read, so the bytes of an answer are never stored.
ghost use Rattle.std.specs.Prelude.{◌≡◌, ◌+◌, ◌*◌, ◌%◌, ◌≤◌, IfOk, IfErr};
ghost use Rattle.frames.specs.FrameValue.{value_of};
ghost use Rattle.frames.specs.NextFrame.{BodyCame, IsBodyRefused, WantsLate};
ghost use Rattle.frames.specs.Pieces.{SpellOffers};
ghost use Rattle.frames.specs.Sources.{KeepsSource};

use crate::bodies::{PIECE, read_three};
use crate::fault::FrameFault;
use crate::frame::Frame;
use crate::items::push_offers;
use crate::list_reader::{Hears, pass_over, read_list};
use byte_streams::Source;
use limits::MAX_SHARD_LINKS;
use links::{Answer, Offers};
use std::alloc::{AllocError, Allocator};

// Reads the body of an answer, whose length is that of `most` offers. If the count is wrong, the rest of the body is
// read and dropped, since the stream may end within it. Whether the components ascend is checked after all of them have
// arrived.
pub(crate) fn read_answer<A: Allocator, S: Source>(
    alloc: A,
    source: &mut S,
    most: usize,
) -> Result<Frame<A>, FrameFault>
    requires few { most ≤ 2 * MAX_SHARD_LINKS }
    requires can { S.can_read source.old }
    ensures came { IfOk result
        (λ f. BodyCame (value_of f) 4 (12 + 8 * most) (S.state source.old) (S.state source.new)) }
    ensures refused { IfErr result
        (λ fault. IsBodyRefused fault 4 (12 + 8 * most) (S.state source.old) (S.state source.new)) }
    ensures late { IfErr result (λ fault. WantsLate fault 4 (12 + 8 * most) (S.state source.old)) }
    ensures kept { KeepsSource S.Source result source.old source.new }
{
    let (round, shard, count) = read_three(source)?;
    if count as usize != most {
        pass_over(source, 8 * most)?;
        return Err(FrameFault::BadField);
    }
    let mut pairs = Vec::new(alloc);
    read_list(source, &mut pairs, 8 * most)?;
    pairs.shrink_to_fit();
    match Offers::of_pairs(pairs) {
        Some(offers) => Ok(Frame::Answer(Answer {
            round,
            shard,
            offers,
        })),
        None => Err(FrameFault::BadField),
    }
}

impl<A: Allocator> Hears for Vec<(u32, u32), A> {
    ghost heard = { λ _ pairs bytes. SpellOffers pairs.items bytes };

    ghost awaits = { λ _ left. left % 8 ≡ 0 };

    fn piece_of(&self, left: usize) -> usize {
        left.min(PIECE)
    }

    fn make_room(&mut self, bytes: usize) -> Result<(), AllocError> {
        self.reserve(bytes / 8)
    }

    fn hear(&mut self, piece: &[u8]) -> Result<(), AllocError> {
        push_offers(self, piece)
    }
}
