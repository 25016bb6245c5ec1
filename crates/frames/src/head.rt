//! Heads: the kind of a frame and the length of its body.
ghost use Rattle.std.specs.Prelude.{◌≡◌, ◌∷◌, ◌<◌, ◌↔◌, IsTrue, IfOk, IfErr};
ghost use Rattle.frames.specs.FrameText.{u32_text};
ghost use Rattle.frames.specs.Refusals.{IsWithItems, IsKind, IsPossible, HeadRefused, kind_at, length_at};

use crate::fault::FrameFault;
use crate::fields::split_u32;
use limits::{MAX_SHARD_LINKS, MAX_VERTICES};

/// The first five bytes of a frame: its kind, and the length of its body in bytes.
#[derive(Clone, Copy, Debug, PartialEq, Eq)]
pub struct Head {
    pub kind: u8,
    pub length: u32,
}

/// Decodes the first five bytes of a frame. It returns `BadKind` if the kind isn't 1 to 6, and otherwise `BadLength` if
/// no body of that kind has that length. It allocates nothing.
#[tactic(auto, using(crate::proofs::Streams::head_split))]
pub fn decode_head(bytes: &[u8; 5]) -> Result<Head, FrameFault>
    ensures kind { IfOk result (λ head. head.kind ≡ kind_at bytes.now) }
    ensures length { IfOk result (λ head. head.length ≡ length_at bytes.now) }
    ensures text { IfOk result (λ head. bytes.now ≡ head.kind ∷ u32_text head.length) }
    ensures possible { IfOk result (λ head. IsPossible head.kind head.length) }
    ensures refused { IfErr result
        (λ fault. HeadRefused fault (kind_at bytes.now) (length_at bytes.now)) }
{
    let kind = bytes[0];
    let (length, _) = split_u32(&bytes[1..]);
    if kind == 0 || kind > 6 {
        return Err(FrameFault::BadKind);
    }
    if !is_possible(kind, length) {
        return Err(FrameFault::BadLength);
    }
    Ok(Head { kind, length })
}

fn is_possible(kind: u8, length: u32) -> bool
    requires { IsKind kind }
    ensures { IsTrue result ↔ IsPossible kind length }
{
    match kind {
        1 => length == 6,
        2 => is_with_items(8, 12, MAX_SHARD_LINKS as u32, length),
        3 => is_with_items(12, 4, MAX_VERTICES, length),
        4 => is_with_items(12, 8, 2 * MAX_SHARD_LINKS as u32, length),
        5 => length == 9,
        _ => is_with_items(8, 16, MAX_SHARD_LINKS as u32, length),
    }
}

// Whether `length` is `fixed` plus the size of at most `most` items of `item` bytes each.
#[tactic(auto, using(crate::proofs::Lengths::items_iff))]
fn is_with_items(fixed: u32, item: u32, most: u32, length: u32) -> bool
    requires { 0 < item }
    ensures { IsTrue result ↔ IsWithItems fixed item most length }
{
    if length < fixed {
        return false;
    }
    let items = length - fixed;
    items % item == 0 && items / item <= most
}
