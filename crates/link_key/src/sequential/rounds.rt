//! Borůvka's rounds between numbered components, over links in the order of their keys, by first touch.
//!
//! If the links are in ascending order, the first link that touches a component is the least link that leaves it. So a
//! round makes one pass over the links. It marks a link if no earlier link touched the component at one of its
//! endpoints, and then both components get the same number. Each component that no link touched gets a new number of
//! its own, so that the next round has a table of the remaining components.
//!
//! At the end, the marked links are taken, in the order of their keys. No contract promises that a round marks as many
//! links as it can. The running time depends on that, but the forest doesn't.
ghost use Rattle.std.specs.Prelude.{◌≡◌, false, ◌+◌, ◌<◌, ◌≤◌, [], ◌++◌, map, take, drop, length, slice_index, EachIndex, IfOk, OnOk, IsTrue};
ghost use Rattle.std.specs.List.{filter};
ghost use Rattle.limits.specs.declared.TheConstants.{MAX_VERTICES};
ghost use Rattle.link_key.specs.Rounds.{is_apart};
ghost use Rattle.links.specs.Labels.{renamed};
ghost use Rattle.link_key.specs.OpenLinks.{renumbered, is_open, AreOpened, AreBetween, AreNumbers, AreAllNumbers, ShareNumber, AreFilled, HaveNumbers, MarkTouched, StayOpen, LeadsOn, zeros};

use limits::MAX_VERTICES;
use links::Link;
use std::alloc::{AllocError, Allocator};

// The largest number of links that can have ranks.
pub(crate) const MAX_RANKS: usize = u32::MAX as usize;

// A link's rank, which is its index in a list in the order of keys, and the labels of its endpoints.
#[derive(Clone, Copy)]
pub(crate) struct Open {
    low: u32,
    high: u32,
    rank: u32,
}

// New numbers, 1 to `count`, for labels that begin at 1.
#[derive(Drop)]
pub(crate) struct Renaming<A: Allocator> {
    pub numbers: Vec<u32, A>,
    pub count: u32,
}

#[inline]
fn entry(table: &[u32], c: u32) -> u32
    ensures { result ≡ slice_index table.now c }
{
    table.get(c as usize).copied().unwrap_or(0)
}

// Moves the links from index `from` on whose endpoints have different labels to directly after the first `first` links,
// in their order. Returns the number of these links and the first ones together. The loop has no branch that depends on
// the labels, so the processor can look up the labels of the next links in the meantime.
pub(crate) fn put_apart_behind(
    links: &mut [Link],
    first: usize,
    from: usize,
    labels: &[u32],
) -> usize
    requires before { first ≤ from }
    requires in_range { from ≤ length links.old }
    ensures in_range { (first ≤ result) × (result + from ≤ first + length links.new) }
    ensures apart { take result links.new ≡ take first links.old ++ filter (is_apart labels.now) (drop from links.old) }
{
    let mut kept = first;
    for i in from..links.len() {
        let link = links[i];
        links[kept] = link;
        kept += (entry(labels, link.low) != entry(labels, link.high)) as usize;
    }
    kept
}

// The links, with each vertex labelled by itself.
pub(crate) fn open_vertices<A: Allocator + Copy>(
    alloc: A,
    links: &[Link],
) -> Result<Vec<Open, A>, AllocError>
    requires few { length links.now ≤ MAX_RANKS }
    ensures { IfOk result (λ candidates. AreOpened (λ v. v) links.now candidates.items) }
{
    let mut candidates = Vec::with_capacity(alloc, links.len())?;
    let mut rank = 0;
    for link in links {
        candidates.push_reserved(Open {
            low: link.low,
            high: link.high,
            rank,
        });
        rank += 1;
    }
    Ok(candidates)
}

// The links, with the labels of their endpoints.
pub(crate) fn open_components<A: Allocator + Copy>(
    alloc: A,
    links: &[Link],
    labels: &[u32],
) -> Result<Vec<Open, A>, AllocError>
    requires few { length links.now ≤ MAX_RANKS }
    ensures { IfOk result (λ candidates. AreOpened (λ v. slice_index labels.now v) links.now candidates.items) }
{
    let mut candidates = Vec::with_capacity(alloc, links.len())?;
    let mut place = 0;
    for link in links {
        candidates.push_reserved(Open {
            low: entry(labels, link.low),
            high: entry(labels, link.high),
            rank: place,
        });
        place += 1;
    }
    Ok(candidates)
}

// If one of the labels a and b has no number yet, gives both the same number and returns true. `last` is the last
// number that was assigned.
#[inline]
fn touch(numbers: &mut [u32], last: &mut u32, a: u32, b: u32) -> bool
    requires a_in_range { a < length numbers.old }
    requires b_in_range { b < length numbers.old }
    requires few { last.old ≤ MAX_VERTICES + 1 }
    ensures touched { IsTrue result → ShareNumber a b last.old numbers.old last.new numbers.new }
    ensures fewer { IsTrue result → last.new + zeros numbers.new ≤ last.old + zeros numbers.old }
    ensures had_a { result ≡ false → 0 < slice_index numbers.old a }
    ensures had_b { result ≡ false → 0 < slice_index numbers.old b }
    ensures same { result ≡ false → numbers.new ≡ numbers.old }
    ensures same_last { result ≡ false → last.new ≡ last.old }
{
    let first = numbers[a as usize];
    let second = numbers[b as usize];
    if first != 0 && second != 0 {
        return false;
    }
    let number = if first != 0 {
        first
    } else if second != 0 {
        second
    } else {
        *last += 1;
        *last
    };
    numbers[a as usize] = number;
    numbers[b as usize] = number;
    true
}

// Begins with no label numbered. Marks each link that is the first to touch the component at one of its endpoints.
// Moves the other links whose endpoints have different numbers to the front, with these numbers as their labels.
// Returns the last number that was assigned, and how many links were moved to the front.
fn mark_first_touches(
    candidates: &mut [Open],
    numbers: &mut [u32],
    marks: &mut [bool],
) -> (u32, usize)
    requires some { 0 < length numbers.old }
    requires few { length numbers.old ≤ MAX_VERTICES + 1 }
    requires ends { AreBetween (length numbers.old) (length marks.old) candidates.old }
    requires fresh { EachIndex numbers.old (λ c. slice_index numbers.old c ≡ 0) }
    ensures numbers { AreNumbers result.0 numbers.new }
    ensures fewer { 0 < length candidates.new → result.1 < length candidates.new }
    ensures given { HaveNumbers numbers.new candidates.old }
    ensures kept { take result.1 candidates.new ≡ filter is_open (map (renumbered numbers.new) candidates.old) }
    ensures touched { MarkTouched candidates.old marks.old numbers.new marks.new }
{
    let mut last = 0;
    let mut kept = 0;
    for i in 0..candidates.len() {
        let Open { low, high, rank } = candidates[i];
        if touch(numbers, &mut last, low, high) {
            marks[rank as usize] = true;
        } else {
            let low = entry(numbers, low);
            let high = entry(numbers, high);
            candidates[kept] = Open { low, high, rank };
            kept += (low != high) as usize;
        }
    }
    (last, kept)
}

// Gives a new number to each label but 0 that has none, and returns the last number.
fn number_rest(numbers: &mut [u32], last: u32) -> u32
    requires few { length numbers.old ≤ MAX_VERTICES + 1 }
    requires some { 0 < length numbers.old }
    requires numbers { AreNumbers last numbers.old }
    ensures filled { AreFilled numbers.old numbers.new }
    ensures numbers { AreAllNumbers result numbers.new }
{
    let mut count = last;
    for c in 1..numbers.len() {
        if numbers[c] == 0 {
            count += 1;
            numbers[c] = count;
        }
    }
    count
}

pub(crate) fn rename(labels: &mut [u32], numbers: &[u32])
    ensures { labels.new ≡ renamed numbers.now labels.old }
{
    for label in labels.iter_mut() {
        *label = entry(numbers, *label);
    }
}

// One round between the components 1 to `count`: each component that one of these links leaves is merged with another.
// The remaining links still leave some component.
fn round<A: Allocator + Copy>(
    alloc: A,
    count: u32,
    candidates: &mut Vec<Open, A>,
    marks: &mut [bool],
) -> Result<Renaming<A>, AllocError>
    requires few { count ≤ MAX_VERTICES }
    requires ends { AreBetween (count + 1) (length marks.old) candidates.old.items }
    ensures len { IfOk result (λ renaming. length renaming.numbers.items ≡ count + 1) }
    ensures few { IfOk result (λ renaming. renaming.count ≤ count) }
    ensures numbers { IfOk result (λ renaming. AreAllNumbers renaming.count renaming.numbers.items) }
    ensures ends { IfOk result (λ renaming. AreBetween (renaming.count + 1) (length marks.new) candidates.new.items) }
    ensures fewer { OnOk result (0 < length candidates.new.items → length candidates.new.items < length candidates.old.items) }
    ensures labelled { IfOk result (λ renaming. StayOpen candidates.old.items renaming.numbers.items candidates.new.items) }
    ensures stage { IfOk result (λ renaming. LeadsOn count candidates.old.items marks.old renaming.numbers.items candidates.new.items marks.new) }
{
    let mut numbers = vec![in alloc; 0; count as usize + 1]?;
    let table = numbers.as_mut_slice();
    let (last, kept) = mark_first_touches(candidates.as_mut_slice(), table, marks);
    candidates.truncate(kept);
    let count = number_rest(table, last);
    Ok(Renaming { numbers, count })
}

// Marks the forest's links among these, between the components 1 to `count`, round after round. Returns the new numbers
// of the components. A round's numbers are applied at once and freed, so at most two tables exist at a time, each with
// 4 bytes per component.
pub(crate) fn join_components<A: Allocator + Copy>(
    alloc: A,
    count: u32,
    candidates: Vec<Open, A>,
    marks: &mut [bool],
) -> Result<Renaming<A>, AllocError>
    requires few { count ≤ MAX_VERTICES }
    requires ends { AreBetween (count + 1) (length marks.old) candidates.items }
    ensures few { IfOk result (λ renaming. renaming.count ≤ count) }
    ensures len { IfOk result (λ renaming. length renaming.numbers.items ≡ count + 1) }
    ensures numbers { IfOk result (λ renaming. AreAllNumbers renaming.count renaming.numbers.items) }
    ensures stage { IfOk result (λ renaming. LeadsOn count candidates.items marks.old renaming.numbers.items [] marks.new) }
{
    let mut candidates = candidates;
    let first = round(alloc, count, &mut candidates, marks)?;
    let mut numbers = first.numbers;
    let mut left = first.count;
    while !candidates.is_empty() {
        let further = round(alloc, left, &mut candidates, marks)?;
        rename(numbers.as_mut_slice(), further.numbers.as_slice());
        left = further.count;
    }
    Ok(Renaming {
        numbers,
        count: left,
    })
}
