//! Reads shards from a stream. The links arrive in pieces through one buffer. Each piece is appended to the frame's
//! list before the next one is read, so the bytes of a shard are never stored.
ghost use Rattle.std.specs.Prelude.{◌≡◌, ◌≢◌, ◌+◌, ◌*◌, ◌%◌, ◌≤◌, IfOk, IfErr};
ghost use Rattle.frames.specs.FrameValue.{value_of, ShardFrame};
ghost use Rattle.frames.specs.NextFrame.{BodyCame, IsBodyRefused, WantsLate};
ghost use Rattle.frames.specs.declared.fault.FrameFault.TheVariants.{BadField};
ghost use Rattle.frames.specs.declared.spelling.Spelling.{Spelling};
ghost use Rattle.frames.specs.Spellings.{size_in, kind_in, spelling_of, FitIn, HeardLinks};
ghost use Rattle.frames.specs.Sources.{KeepsSource};

use crate::bodies::{PIECE, read_two};
use crate::fault::FrameFault;
use crate::frame::{Frame, Links};
use crate::items::push_links;
use crate::list_reader::{Hears, pass_over, read_list};
use crate::spelling::Spelling;
use byte_streams::Source;
use limits::{MAX_SHARD_LINKS, MAX_SHARDS};
use links::Link;
use std::alloc::{AllocError, Allocator};

// Reads the body of a shard, whose length is that of `most` links. Its fields are checked first. If a field or a link
// is unlawful, the rest of the body is read and dropped, since the stream may end within it.
pub(crate) fn read_shard<A: Allocator, S: Source>(
    alloc: A,
    source: &mut S,
    spelling: Spelling,
    most: usize,
) -> Result<Frame<A>, FrameFault>
    requires few { most ≤ MAX_SHARD_LINKS }
    requires can { S.can_read source.old }
    ensures came { IfOk result (λ f. BodyCame (value_of f) (kind_in spelling) (8 + size_in spelling * most)
        (S.state source.old) (S.state source.new)) }
    ensures refused { IfErr result (λ fault. IsBodyRefused fault (kind_in spelling) (8 + size_in spelling * most)
        (S.state source.old) (S.state source.new)) }
    ensures late { IfErr result (λ fault. WantsLate fault (kind_in spelling) (8 + size_in spelling * most) (S.state source.old)) }
    ensures kept { KeepsSource S.Source result source.old source.new }
{
    let (number, count) = read_two(source)?;
    if number as usize >= MAX_SHARDS || count as usize != most {
        pass_over(source, spelling.bytes_of(most))?;
        return Err(FrameFault::BadField);
    }
    let links = Some(Vec::new(alloc));
    let mut list = Heard { spelling, links };
    read_list(source, &mut list, spelling.bytes_of(most))?;
    let Heard { links, .. } = list;
    match links {
        Some(links) => shard_of(spelling, number, links),
        None => Err(FrameFault::BadField),
    }
}

// Returns the shard with the links that came in this spelling, or `BadField` if they have the other spelling.
fn shard_of<A: Allocator>(
    spelling: Spelling,
    number: u32,
    links: Vec<Link, A>,
) -> Result<Frame<A>, FrameFault>
    requires { FitIn spelling links.items }
    ensures frame { IfOk result
        (λ f. (value_of f ≡ ShardFrame number links.items) × (spelling_of links.items ≡ spelling)) }
    ensures refused { IfErr result (λ fault. (fault ≡ BadField) × (spelling_of links.items ≢ spelling)) }
{
    if !spelling.is_of(links.as_slice()) {
        return Err(FrameFault::BadField);
    }
    let mut links = links;
    links.shrink_to_fit();
    let links = Links::of_list(links);
    Ok(Frame::Shard { number, links })
}

// The links of a shard that came in a spelling, or `None` if some aren't links.
#[derive(Drop)]
struct Heard<A: Allocator> {
    spelling: Spelling,
    links: Option<Vec<Link, A>>,
}

impl<A: Allocator> Hears for Heard<A> {
    ghost heard = { λ first h bytes. (h.spelling ≡ first.spelling) × HeardLinks h.spelling bytes h.links };

    ghost awaits = { λ h left. left % size_in h.spelling ≡ 0 };

    fn piece_of(&self, left: usize) -> usize {
        left.min(self.spelling.bytes_of(self.spelling.links_in(PIECE)))
    }

    fn make_room(&mut self, bytes: usize) -> Result<(), AllocError> {
        match &mut self.links {
            Some(list) => list.reserve(self.spelling.links_in(bytes)),
            None => Ok(()),
        }
    }

    fn hear(&mut self, piece: &[u8]) -> Result<(), AllocError> {
        match &mut self.links {
            Some(list) => {
                if !push_links(list, self.spelling, piece)? {
                    self.links = None;
                }
                Ok(())
            }
            None => Ok(()),
        }
    }
}
