ghost use Rattle.std.specs.Prelude.{◌≡◌, ℕ, ◌+◌, ◌-◌, ◌*◌, ◌/◌, ◌<◌, ◌≤◌, ◌==◌, length, slice_index, slice_index_or, slice_range, map, EachIndex, [], ◌∷◌, ◌++◌, OnOk, IfOk, IfErr, Some, None, nat_le, IsTrue, MatchOption, true, false};
ghost use Rattle.std.specs.List.{list_all};
ghost use Rattle.links.specs.declared.cuts.CutFault.TheVariants.{Memory};
ghost use Rattle.links.specs.Cut.{joined, links_at, spans_from, shards_at, IsEvenCut, is_in_order, is_small, even_refusal, places_refusal, IsCutFault};

use crate::links::Link;
use crate::shards::Shard;
use limits::{MAX_ARCS, MAX_SHARD_LINKS, MAX_SHARDS};
use std::alloc::{AllocError, Allocator, Global};
use std::marker::Model;

/// Why a list can't be cut. The causes are checked in this order: no shards, too many shards, indices out of order, a
/// shard that is too large, out of memory.
#[derive(Clone, Copy, Debug, PartialEq, Eq)]
pub enum CutFault {
    /// The number of shards is 0.
    NoShards,
    /// There are more than `MAX_SHARDS` shards.
    TooManyShards,
    /// A shard has more than `MAX_SHARD_LINKS` links.
    ShardTooLarge,
    /// An index is past the end of the list, or less than the one before it.
    BadPlaces,
    /// Out of memory.
    Memory,
}

impl From<AllocError> for CutFault {
    ghost from_gives = { λ _ fault. fault ≡ Memory };

    fn from(_refused: AllocError) -> CutFault {
        CutFault::Memory
    }
}

/// A list of links, cut into shards that are numbered from 0. Joined together, the shards are the list.
///
/// The list is borrowed and its links aren't copied. A cut stores only the indices between the shards, 8 bytes each.
/// There are 1 to `MAX_SHARDS` shards, and each has at most `MAX_SHARD_LINKS` links.
#[derive(Drop)]
pub struct Cut<'a, A: Allocator = Global> {
    links: &'a [Link],
    places: Vec<usize, A>,
}

impl<'a, A: Allocator> Model for Cut<'a, A> {
    ghost use Rattle.std.specs.Prelude.{◌≡◌, ◌≤◌, length, List, None};
    ghost use Rattle.links.specs.Cut.{shards_at, places_refusal};
    ghost use Rattle.links.specs.declared.links.Link.{Link};

    ghost Value = { List (List Link) };

    ghost view = { λ s. shards_at s.links.now s.places.items };

    ghost invariant = { λ s. places_refusal (length s.links.now) s.places.items ≡ None };
}

impl<'a, A: Allocator + Copy> Cut<'a, A> {
    /// Cuts a list of L links into `count` shards whose sizes differ by at most one. Shard i has the indices from
    /// floor(i L / count) up to, but not including, floor((i + 1) L / count). The time depends only on the number of
    /// shards.
    pub fn even(alloc: A, links: &'a [Link], count: u32) -> Result<Self, CutFault>
        requires few_links { length links.now ≤ MAX_ARCS }
        ensures even { IfOk result (IsEvenCut links.now count) }
        ensures whole { IfOk result (λ cut. joined cut ≡ links.now) }
        ensures allowed { OnOk result (even_refusal (length links.now) count ≡ None) }
        ensures refused { IfErr result (IsCutFault (even_refusal (length links.now) count)) }
    {
        check_even(links.len(), count)?;
        let places = even_places(alloc, links.len(), count)?;
        Ok(Cut { links, places })
    }

    /// Cuts a list at the given indices, into one shard more than there are indices. The first shard has the links
    /// before the first index, and the last shard has those from the last index on. The indices are copied.
    pub fn at(alloc: A, links: &'a [Link], places: &[usize]) -> Result<Self, CutFault>
        requires few_links { length links.now ≤ MAX_ARCS }
        ensures cut { IfOk result (λ cut. cut ≡ shards_at links.now places.now) }
        ensures whole { IfOk result (λ cut. joined cut ≡ links.now) }
        ensures allowed { OnOk result (places_refusal (length links.now) places.now ≡ None) }
        ensures refused { IfErr result (IsCutFault (places_refusal (length links.now) places.now)) }
    {
        check_places(links.len(), places)?;
        let places = Vec::from_slice(alloc, places)?;
        Ok(Cut { links, places })
    }
}

impl<'a, A: Allocator> Cut<'a, A> {
    /// The number of shards.
    pub fn len(&self) -> u32
        ensures shards { result ≡ length self.now }
        ensures some { 0 < result }
        ensures few { result ≤ MAX_SHARDS }
    {
        self.places.len() as u32 + 1
    }

    /// The list that was cut: the links of all shards, one shard after the other.
    pub fn links(&self) -> &'a [Link]
        ensures { result.now ≡ joined self.now }
    {
        self.links
    }

    /// The shard with this number. Takes constant time and no memory.
    pub fn shard(&self, number: u32) -> Shard<'a>
        requires { number < length self.now }
        ensures number { result.number ≡ number }
        ensures links { result.links.now ≡ links_at self.now number }
        ensures small { length (links_at self.now number) ≤ MAX_SHARD_LINKS }
    {
        let links = self.links;
        let (from, to) = span(&self.places, links.len(), number);
        Shard {
            number,
            links: &links[from..to],
        }
    }
}

// Where the shard with this number begins and ends.
fn span(places: &[usize], links: usize, number: u32) -> (usize, usize)
    requires allowed { places_refusal links places.now ≡ None }
    requires in_range { number ≤ length places.now }
    ensures begins { result.0 ≡ slice_index (0 ∷ places.now) number }
    ensures ends { result.1 ≡ slice_index (places.now ++ links ∷ []) number }
    ensures in_order { result.0 ≤ result.1 }
    ensures within { result.1 ≤ links }
    ensures small { result.1 - result.0 ≤ MAX_SHARD_LINKS }
{
    (begins_at(places, number), ends_at(places, links, number))
}

fn begins_at(places: &[usize], number: u32) -> usize
    requires { number ≤ length places.now }
    ensures { result ≡ slice_index (0 ∷ places.now) number }
{
    if number == 0 {
        0
    } else {
        places[number as usize - 1]
    }
}

fn ends_at(places: &[usize], links: usize, number: u32) -> usize
    requires { number ≤ length places.now }
    ensures { result ≡ slice_index (places.now ++ links ∷ []) number }
{
    if (number as usize) < places.len() {
        places[number as usize]
    } else {
        links
    }
}

/// Checks whether a list of `length` links can be cut into `count` even shards. Returns the error that `Cut::even`
/// would return, except `Memory`, and allocates nothing.
pub fn check_even(length: usize, count: u32) -> Result<(), CutFault>
    requires few_links { length ≤ MAX_ARCS }
    ensures allowed { OnOk result (even_refusal length count ≡ None) }
    ensures refused { IfErr result (λ fault. even_refusal length count ≡ Some fault) }
{
    if count == 0 {
        return Err(CutFault::NoShards);
    }
    if count as usize > MAX_SHARDS {
        return Err(CutFault::TooManyShards);
    }
    if length > MAX_SHARD_LINKS * count as usize {
        return Err(CutFault::ShardTooLarge);
    }
    Ok(())
}

/// Checks whether a list of `length` links can be cut at the given indices. Returns the error that `Cut::at` would
/// return, except `Memory`. It looks at each index once and allocates nothing.
pub fn check_places(length: usize, places: &[usize]) -> Result<(), CutFault>
    requires few_links { length ≤ MAX_ARCS }
    ensures allowed { OnOk result (places_refusal length places.now ≡ None) }
    ensures refused { IfErr result (λ fault. places_refusal length places.now ≡ Some fault) }
{
    if places.len() >= MAX_SHARDS {
        return Err(CutFault::TooManyShards);
    }
    if !are_in_order(length, places) {
        return Err(CutFault::BadPlaces);
    }
    if !are_small(length, places) {
        return Err(CutFault::ShardTooLarge);
    }
    Ok(())
}

fn are_in_order(length: usize, places: &[usize]) -> bool
    ensures { result ≡ list_all is_in_order (spans_from 0 length places.now) }
{
    let mut from = 0;
    for place in places {
        if *place < from {
            return false;
        }
        from = *place;
    }
    from <= length
}

fn are_small(length: usize, places: &[usize]) -> bool
    requires { IsTrue (list_all is_in_order (spans_from 0 length places.now)) }
    ensures { result ≡ list_all is_small (spans_from 0 length places.now) }
{
    let mut from = 0;
    for place in places {
        if place.saturating_sub(from) > MAX_SHARD_LINKS {
            return false;
        }
        from = *place;
    }
    length.saturating_sub(from) <= MAX_SHARD_LINKS
}

fn even_places<A: Allocator + Copy>(
    alloc: A,
    links: usize,
    count: u32,
) -> Result<Vec<usize, A>, AllocError>
    requires few_links { links ≤ MAX_ARCS }
    requires some { 0 < count }
    requires few_shards { count ≤ MAX_SHARDS }
    ensures number { IfOk result (λ places. length places.items + 1 ≡ count) }
    ensures each { IfOk result (λ places. EachIndex places.items (λ k. slice_index places.items k ≡ (k + 1) * links / count)) }
{
    let count = count as usize;
    let mut places = Vec::with_capacity(alloc, count - 1)?;
    for i in 1..count {
        places.push(i * links / count)?;
    }
    Ok(places)
}
