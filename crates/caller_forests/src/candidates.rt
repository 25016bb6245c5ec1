//! Arcs that may be edges of the forest, and the least index of each edge among them.
//!
//! With one byte per vertex, most other arcs are dismissed without looking at the edges. The remaining arcs are sorted
//! by their keys and merged with the edges, which are in the same order. So nobody can choose arcs that make this slow.
ghost use Rattle.std.specs.Prelude.{◌≡◌, ◌↔◌, ℕ, ◌+◌, ◌<◌, ◌≤◌, length, take, slice_index, slice_index_or, All, Contains, IfOk, IsTrue};
ghost use Rattle.std.specs.List.Sorted.{IsPermutation};
ghost use Rattle.limits.specs.declared.TheConstants.{MAX_VERTICES, MAX_ARCS};
ghost use Rattle.links.specs.Link.{EndsUpTo, IsAscending};
ghost use Rattle.links.specs.declared.links.Link.{Link};
ghost use Rattle.gr_text.specs.Graph.{HasEnds};
ghost use Rattle.caller_forests.specs.declared.candidates.Candidate.{Candidate};
ghost use Rattle.caller_forests.specs.Candidates.{IsMarked, AreInKeyOrder, AreOfArcs, HasCandidate, IsLeastOf};
ghost use Rattle.caller_forests.specs.Places.{IsLinkAt};

use crate::arcs::Arcs;
use links::Link;
use links::sorting::wide;
use std::alloc::{AllocError, Allocator};
use std::marker::Model;

/// An arc that isn't a loop, given by its edge and its index.
#[derive(Clone, Copy)]
pub(crate) struct Candidate {
    pub(crate) link: Link,
    pub(crate) place: u32,
}

/// Recognizes most arcs that aren't edges of a list. Each vertex has eight marks for its edges to higher vertices, one
/// for each remainder of the higher endpoint modulo 8.
#[derive(Drop)]
pub(crate) struct Sieve<'a, A: Allocator> {
    links: &'a [Link],
    marks: Vec<u8, A>,
}

impl<'a, A: Allocator> Model for Sieve<'a, A> {
    ghost use Rattle.std.specs.Prelude.{List, All};
    ghost use Rattle.links.specs.declared.links.Link.{Link};
    ghost use Rattle.caller_forests.specs.Candidates.{IsMarked};

    ghost Value = { List Link };

    ghost view = { λ s. s.links.now };

    ghost invariant = { λ s. All (IsMarked s.marks.items) s.links.now };
}

impl<'a, A: Allocator + Copy> Sieve<'a, A> {
    // Makes the sieve of edges between the vertices 1 to n, with one byte per vertex.
    pub(crate) fn of_links(alloc: A, n: u32, links: &'a [Link]) -> Result<Self, AllocError>
        requires few_vertices { n ≤ MAX_VERTICES }
        requires ends { EndsUpTo n links.now }
        ensures { IfOk result (λ sieve. sieve ≡ links.now) }
    {
        let mut marks = vec![in alloc; 0; n as usize + 1]?;
        mark(links, marks.as_mut_slice());
        Ok(Sieve { links, marks })
    }
}

impl<'a, A: Allocator> Sieve<'a, A> {
    pub(crate) fn links(&self) -> &'a [Link]
        ensures { result.now ≡ self.now }
    {
        self.links
    }

    // Whether the edge may be in the list.
    #[inline]
    pub(crate) fn may_have(&self, link: &Link) -> bool
        ensures { Contains self.now link.now → IsTrue result }
    {
        is_marked(self.marks.as_slice(), link)
    }
}

// Sets the marks of the edges.
fn mark(links: &[Link], marks: &mut [u8])
    requires { All (λ l. l.low < length marks.old) links.now }
    ensures { All (IsMarked marks.new) links.now }
{
    for i in 0..links.len() {
        let link = links[i];
        marks[link.low as usize] |= 1 << (link.high % 8);
    }
}

// Whether the mark of the edge is set.
#[inline]
fn is_marked(marks: &[u8], link: &Link) -> bool
    ensures { IsTrue result ↔ IsMarked marks.now link.now }
{
    match marks.get(link.low as usize) {
        Some(mark) => (*mark >> (link.high % 8)) & 1 == 1,
        None => false,
    }
}

// Looks at the arcs from index `from` on, as many as `found` has elements. Writes those that the sieve lets through to
// the front of `found`, in their order, and returns how many they are. It has no branch on the sieve's result.
pub(crate) fn put_candidates<A: Allocator>(
    n: u32,
    arcs: &Arcs<'_>,
    sieve: &Sieve<'_, A>,
    from: usize,
    found: &mut [Candidate],
) -> usize
    requires few_vertices { n ≤ MAX_VERTICES }
    requires few_arcs { length arcs.now ≤ MAX_ARCS }
    requires few { length found.old ≤ MAX_ARCS }
    requires in_range { from ≤ length arcs.now }
    requires ends { All (HasEnds n) arcs.now }
    ensures in_range { result ≤ length found.new }
    ensures of_arcs { AreOfArcs arcs.now (take result found.new) }
    ensures none_missed { (place : ℕ) (l : Link) → from ≤ place → place < from + length found.old → place < length arcs.now
        → IsLinkAt arcs.now l place → Contains sieve.now l → HasCandidate (take result found.new) l place }
{
    let to = (from + found.len()).min(arcs.len());
    let mut count = 0;
    for place in from..to {
        if let Some(link) = arcs.link(n, place) {
            let kept = sieve.may_have(&link);
            found[count] = Candidate {
                link,
                place: place as u32,
            };
            count += kept as usize;
        }
    }
    count
}

// Sorts them by their keys.
pub(crate) fn sort(found: &mut [Candidate])
    ensures same { IsPermutation found.old found.new }
    ensures ordered { AreInKeyOrder found.new }
{
    found.sort_unstable_by_key(|candidate| wide(&candidate.link));
}

// Lowers the index stored for each edge to the least index of its candidates, if that is less.
pub(crate) fn put_least(links: &[Link], found: &[Candidate], places: &mut [u32])
    requires ascending { IsAscending links.now }
    requires ordered { AreInKeyOrder found.now }
    requires number { length places.old ≡ length links.now }
    ensures least { (i : ℕ) (d : Link) → i < length links.now
        → IsLeastOf found.now (slice_index_or links.now i d) (slice_index places.old i) (slice_index places.new i) }
{
    let mut i = 0;
    let mut j = 0;
    while i < links.len() && j < found.len() {
        let key = wide(&links[i]);
        let other = wide(&found[j].link);
        if key < other {
            i += 1;
        } else {
            if key == other {
                places[i] = places[i].min(found[j].place);
            }
            j += 1;
        }
    }
}
