//! The indices of the forest's edges among arcs in the caller's memory.
ghost use Rattle.std.specs.Prelude.{◌≡◌, ℕ, ◌<◌, ◌≤◌, length, slice_index, slice_index_or, All, IfOk, IfErr, OnOk, OnErr};
ghost use Rattle.limits.specs.declared.TheConstants.{MAX_VERTICES, MAX_ARCS};
ghost use Rattle.links.specs.Link.{IsAscending};
ghost use Rattle.links.specs.declared.links.Link.{Link};
ghost use Rattle.gr_text.specs.Graph.{HasEnds};
ghost use Rattle.caller_forests.specs.Arcs.{AreRightArcs};
ghost use Rattle.caller_forests.specs.Places.{IsAmong, IsFirstFrom, HoldsPlaces, IsArcsRefusal, AnswersPlaces};

use crate::arcs::{Arcs, Columns};
use crate::candidates::{Candidate, Sieve, put_candidates, put_least, sort};
use crate::refusals::CallRefusal;
use limits::{MAX_ARCS, MAX_VERTICES};
use link_key::forest_of;
use std::alloc::Allocator;

// Writes the index of the first arc of each of the sieve's edges, in their order. It goes over as many arcs at a time
// as `found` has elements.
fn put_first_places<A: Allocator>(
    n: u32,
    arcs: &Arcs<'_>,
    sieve: &Sieve<'_, A>,
    found: &mut [Candidate],
    places: &mut [u32],
)
    requires few_vertices { n ≤ MAX_VERTICES }
    requires few_arcs { length arcs.now ≤ MAX_ARCS }
    requires ends { All (HasEnds n) arcs.now }
    requires ascending { IsAscending sieve.now }
    requires among { All (IsAmong arcs.now) sieve.now }
    requires some { 0 < length found.old }
    requires few { length found.old ≤ MAX_ARCS }
    requires number { length places.old ≡ length sieve.now }
    ensures first { (i : ℕ) (d : Link) → i < length sieve.now
        → IsFirstFrom 0 arcs.now (slice_index_or sieve.now i d) (slice_index places.new i) }
{
    places.fill(u32::MAX);
    let mut from = 0;
    while from < arcs.len() {
        let count = put_candidates(n, arcs, sieve, from, found);
        let kept = &mut found[..count];
        sort(kept);
        put_least(sieve.links(), kept, places);
        from += found.len();
    }
}

// Writes the indices of the forest's edges over the first of `places`, and returns how many they are.
fn find_places<A: Allocator + Copy>(
    alloc: A,
    n: u32,
    arcs: &Arcs<'_>,
    places: &mut [u32],
) -> Result<usize, CallRefusal>
    ensures right { OnOk result (AreRightArcs n arcs.now) }
    ensures found { IfOk result (λ count. HoldsPlaces arcs.now places.old places.new count) }
    ensures few { IfOk result (λ count. count ≤ MAX_ARCS) }
    ensures refused { IfErr result (λ why. IsArcsRefusal n arcs.now (length places.old) why) }
    ensures untouched { OnErr result (places.new ≡ places.old) }
{
    if n > MAX_VERTICES {
        return Err(CallRefusal::TooManyVertices);
    }
    if arcs.len() > MAX_ARCS as usize {
        return Err(CallRefusal::TooManyLinks);
    }
    if !arcs.have_ends(n) {
        return Err(CallRefusal::BadEnd);
    }
    let Ok(list) = arcs.links(alloc, n) else {
        return Err(CallRefusal::NoMemory);
    };
    let Ok(forest) = forest_of(alloc, n, list) else {
        return Err(CallRefusal::NoMemory);
    };
    let links = forest.links();
    if links.len() > places.len() {
        return Err(CallRefusal::TooFewPlaces);
    }
    let Some(first) = links.first() else {
        return Ok(0);
    };
    let none = Candidate {
        link: *first,
        place: 0,
    };
    let Ok(mut found) = vec![in alloc; none; links.len()] else {
        return Err(CallRefusal::NoMemory);
    };
    let Ok(sieve) = Sieve::of_links(alloc, n, links) else {
        return Err(CallRefusal::NoMemory);
    };
    put_first_places(
        n,
        arcs,
        &sieve,
        found.as_mut_slice(),
        &mut places[..links.len()],
    );
    Ok(links.len())
}

/// Finds the indices, counted from 0, of the forest's edges among the arcs. Writes them over the first of `places`, in
/// the order of the edges' keys, and returns their number, or the code of a [`CallRefusal`], which is negative. If
/// several arcs are the same edge, the index is that of the first one.
///
/// Arcs may come in any order and in either direction, and loops and repeats are allowed. For m arcs at most m indices
/// are needed, and at most n - 1.
///
/// It takes the time of [`forest_of`], two passes over the arcs before it, and one pass after it. The last pass sorts
/// the arcs that may be edges of the forest: those that are, about one in eight of the others, and at worst all. So m
/// arcs take O(m log m) time, whatever they are.
///
/// It takes the memory of [`forest_of`], and 16 bytes per arc for the list in which that works. After that it takes 24
/// bytes per edge of the forest and one byte per vertex.
pub fn put_places<A: Allocator + Copy>(
    alloc: A,
    n: u32,
    columns: Columns<'_>,
    places: &mut [u32],
) -> i64
    ensures { AnswersPlaces n columns.entry.base columns.entry.tails.now columns.entry.heads.now columns.entry.weights.now
        places.old places.new result }
{
    let Some(arcs) = Arcs::of_columns(columns) else {
        return CallRefusal::LengthsDiffer.code();
    };
    match find_places(alloc, n, &arcs, places) {
        Ok(count) => count as i64,
        Err(why) => why.code(),
    }
}
