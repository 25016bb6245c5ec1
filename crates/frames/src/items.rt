//! Reads and writes the lists of bodies. The items of a list have texts of the same length, with nothing between them.
ghost use Rattle.std.specs.Prelude.{◌≡◌, ◌∷◌, ◌++◌, ◌+◌, ◌*◌, ◌<◌, ◌≤◌, ◌↔◌, ◌%◌, false, [], length, map, All, OnOk, IfOk, IfSome, IfNone, IsTrue, vec_len, vec_capacity};
ghost use Rattle.std.specs.Int.{w32, from_be_bytes};
ghost use Rattle.std.specs.List.{flat_map};
ghost use Rattle.frames.specs.FrameText.{u32_text, is_narrow, are_narrow, link_text, wide_link_text, offer_text};
ghost use Rattle.frames.specs.Lawful.{IsU32};
ghost use Rattle.frames.specs.Pieces.{PushesOffers};
ghost use Rattle.frames.specs.Refusals.{IsNoLink, AreNoLinks};
ghost use Rattle.frames.specs.Spellings.{spelled_in, size_in, FitIn, Pushes};

use crate::fields::{split_i64, split_u32};
use crate::spelling::Spelling;
use limits::MAX_VERTICES;
use links::Link;
use std::alloc::{AllocError, Allocator};

#[tactic(auto, unfolding(crate::specs::FrameText::u32_text))]
pub(crate) fn put_numbers<A: Allocator>(text: &mut Vec<u8, A>, numbers: &[u32])
    requires { vec_len text.old + 4 * length numbers.now ≤ vec_capacity text.old }
    ensures { text.new.items ≡ text.old.items ++ flat_map u32_text numbers.now }
{
    for number in numbers {
        put_bytes(text, &number.to_be_bytes());
    }
}

/// Whether each weight fits 32 bits, so that a shard of these links has a frame in version 1. It allocates nothing. It
/// reads all weights, even after one doesn't fit, so that no comparison waits for the one before it.
pub fn fit_32_bits(links: &[Link]) -> bool
    ensures { result ≡ are_narrow links.now }
{
    let mut narrow = true;
    for link in links {
        narrow &= fits_32_bits(link);
    }
    narrow
}

fn fits_32_bits(link: &Link) -> bool
    ensures { result ≡ is_narrow link.now }
{
    (-0x8000_0000 <= link.weight) & (link.weight < 0x8000_0000)
}

/// Appends links to a text that has the capacity for them, in a spelling that fits their weights. It allocates nothing,
/// and writes each byte once.
pub fn put_links<A: Allocator>(text: &mut Vec<u8, A>, spelling: Spelling, links: &[Link])
    requires fit { FitIn spelling links.now }
    requires room { vec_len text.old + size_in spelling * length links.now ≤ vec_capacity text.old }
    ensures put { text.new.items ≡ text.old.items ++ flat_map (spelled_in spelling) links.now }
    ensures room { vec_capacity text.old ≤ vec_capacity text.new }
{
    match spelling {
        Spelling::Narrow => put_narrow_links(text, links),
        Spelling::Wide => put_wide_links(text, links),
    }
}

fn put_narrow_links<A: Allocator>(text: &mut Vec<u8, A>, links: &[Link])
    requires fit { IsTrue (are_narrow links.now) }
    requires room { vec_len text.old + 12 * length links.now ≤ vec_capacity text.old }
    ensures put { text.new.items ≡ text.old.items ++ flat_map link_text links.now }
    ensures room { vec_capacity text.old ≤ vec_capacity text.new }
{
    for link in links {
        put_narrow_link(text, link);
    }
}

// Puts all fields at once, so that the capacity is checked once per link.
fn put_narrow_link<A: Allocator>(text: &mut Vec<u8, A>, link: &Link)
    requires fit { IsTrue (is_narrow link.now) }
    requires room { vec_len text.old + 12 ≤ vec_capacity text.old }
    ensures put { text.new.items ≡ text.old.items ++ link_text link.now }
    ensures len { vec_len text.new ≡ vec_len text.old + 12 }
    ensures room { vec_capacity text.old ≤ vec_capacity text.new }
{
    let weight = link.weight as i32;
    let fields = [
        link.low.to_be_bytes(),
        link.high.to_be_bytes(),
        weight.cast_unsigned().to_be_bytes(),
    ];
    put_bytes(text, fields.as_flattened());
}

fn put_wide_links<A: Allocator>(text: &mut Vec<u8, A>, links: &[Link])
    requires room { vec_len text.old + 16 * length links.now ≤ vec_capacity text.old }
    ensures put { text.new.items ≡ text.old.items ++ flat_map wide_link_text links.now }
    ensures room { vec_capacity text.old ≤ vec_capacity text.new }
{
    for link in links {
        put_wide_link(text, link);
    }
}

#[tactic(auto, unfolding(crate::specs::FrameText::u32_text, crate::specs::FrameText::i64_text))]
fn put_wide_link<A: Allocator>(text: &mut Vec<u8, A>, link: &Link)
    requires room { vec_len text.old + 16 ≤ vec_capacity text.old }
    ensures put { text.new.items ≡ text.old.items ++ wide_link_text link.now }
    ensures len { vec_len text.new ≡ vec_len text.old + 16 }
    ensures room { vec_capacity text.old ≤ vec_capacity text.new }
{
    put_bytes(text, &link.low.to_be_bytes());
    put_bytes(text, &link.high.to_be_bytes());
    put_bytes(text, &link.weight.cast_unsigned().to_be_bytes());
}

fn put_bytes<A: Allocator>(text: &mut Vec<u8, A>, bytes: &[u8])
    requires room { vec_len text.old + length bytes.now ≤ vec_capacity text.old }
    ensures put { text.new.items ≡ text.old.items ++ bytes.now }
    ensures len { vec_len text.new ≡ vec_len text.old + length bytes.now }
    ensures room { vec_capacity text.old ≤ vec_capacity text.new }
{
    match text.extend_from_slice(bytes) {
        Ok(()) => {}
        Err(_) => unreachable!(),
    }
}

/// Overwrites `bytes` with offers, 8 bytes each: the component and the link's index. After an
/// [`answer_head`](crate::answer_head), an answer can be sent in as many such pieces as a buffer needs. It allocates
/// nothing, and writes each byte once.
pub fn put_offers(bytes: &mut [u8], offers: &[(u32, u32)])
    requires room { length bytes.old ≡ 8 * length offers.now }
    ensures put { bytes.new ≡ flat_map offer_text offers.now }
{
    for i in 0..offers.len() {
        let start = 8 * i;
        bytes[start..start + 8].copy_from_slice(&offer_bytes(offers[i]));
    }
}

#[tactic(auto, unfolding(crate::specs::FrameText::u32_text))]
fn offer_bytes(offer: (u32, u32)) -> [u8; 8]
    ensures { result ≡ offer_text offer }
{
    let [c0, c1, c2, c3] = offer.0.to_be_bytes();
    let [p0, p1, p2, p3] = offer.1.to_be_bytes();
    [c0, c1, c2, c3, p0, p1, p2, p3]
}

// Whether these are the bytes of the numbers. It reads all of them, even after a difference, so that many are compared
// at a time.
pub(crate) fn spells(bytes: &[u8], numbers: &[u32]) -> bool
    ensures { IsTrue result ↔ (flat_map u32_text numbers.now ≡ bytes.now) }
{
    if bytes.len() % 4 != 0 {
        return false;
    }
    let (cells, _) = bytes.as_chunks::<4>();
    cells.len() == numbers.len() && are_cells_of(cells, numbers)
}

fn are_cells_of(cells: &[[u8; 4]], numbers: &[u32]) -> bool
    requires { length cells.now ≡ length numbers.now }
    ensures { IsTrue result ↔ (numbers.now ≡ map (from_be_bytes w32) cells.now) }
{
    let mut same = true;
    for i in 0..cells.len() {
        same &= u32::from_be_bytes(cells[i]) == numbers[i];
    }
    same
}

pub(crate) fn push_offers<A: Allocator>(
    offers: &mut Vec<(u32, u32), A>,
    bytes: &[u8],
) -> Result<(), AllocError>
    requires { length bytes.now % 8 ≡ 0 }
    ensures { OnOk result (PushesOffers bytes.now offers.old.items offers.new.items) }
{
    let mut rest = bytes;
    while !rest.is_empty() {
        let (component, behind) = split_u32(rest);
        let (place, behind) = split_u32(behind);
        offers.push((component, place))?;
        rest = behind;
    }
    Ok(())
}

// Appends the links that these bytes encode, and returns whether all are links. It stops at the first that isn't a
// link; the links before it stay appended.
pub(crate) fn push_links<A: Allocator>(
    links: &mut Vec<Link, A>,
    spelling: Spelling,
    bytes: &[u8],
) -> Result<bool, AllocError>
    requires { length bytes.now % size_in spelling ≡ 0 }
    ensures pushed { IfOk result
        (λ all. IsTrue all → Pushes spelling bytes.now links.old.items links.new.items) }
    ensures refused { IfOk result (λ all. all ≡ false → AreNoLinks (spelled_in spelling) bytes.now) }
{
    let mut rest = bytes;
    while !rest.is_empty() {
        let (first, behind) = rest.split_at(spelling.size());
        match link_of(spelling, first) {
            Some(link) => links.push(link)?,
            None => return Ok(false),
        }
        rest = behind;
    }
    Ok(true)
}

fn link_of(spelling: Spelling, bytes: &[u8]) -> Option<Link>
    requires { length bytes.now ≡ size_in spelling }
    ensures found { IfSome result (λ link. spelled_in spelling link ≡ bytes.now) }
    ensures fits { IfSome result (λ link. FitIn spelling (link ∷ [])) }
    ensures none { IfNone result (IsNoLink (spelled_in spelling) bytes.now) }
{
    match spelling {
        Spelling::Narrow => narrow_link_of(bytes),
        Spelling::Wide => wide_link_of(bytes),
    }
}

// Whether these are a link's endpoints, the lower one first.
fn are_ends(low: u32, high: u32) -> bool
    ensures { IsTrue result ↔ (1 ≤ low) × (low < high) × (high ≤ MAX_VERTICES) }
{
    1 <= low && low < high && high <= MAX_VERTICES
}

fn narrow_link_of(bytes: &[u8]) -> Option<Link>
    requires { length bytes.now ≡ 12 }
    ensures found { IfSome result (λ link. link_text link ≡ bytes.now) }
    ensures narrow { IfSome result (λ link. IsTrue (is_narrow link)) }
    ensures none { IfNone result (IsNoLink link_text bytes.now) }
{
    let (low, rest) = split_u32(bytes);
    let (high, rest) = split_u32(rest);
    let (bits, _) = split_u32(rest);
    if !are_ends(low, high) {
        return None;
    }
    let weight = i64::from(bits.cast_signed());
    Some(Link { weight, low, high })
}

fn wide_link_of(bytes: &[u8]) -> Option<Link>
    requires { length bytes.now ≡ 16 }
    ensures found { IfSome result (λ link. wide_link_text link ≡ bytes.now) }
    ensures none { IfNone result (IsNoLink wide_link_text bytes.now) }
{
    let (low, rest) = split_u32(bytes);
    let (high, rest) = split_u32(rest);
    let (weight, _) = split_i64(rest);
    if !are_ends(low, high) {
        return None;
    }
    Some(Link { weight, low, high })
}
