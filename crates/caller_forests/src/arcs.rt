//! The caller's arcs, in three columns.
ghost use Rattle.std.specs.Prelude.{◌≡◌, ◌↔◌, ◌<◌, ◌≤◌, ◌+◌, length, slice_index, slice_index_or, All, IsTrue, IsSome, IfSome, IfOk};
ghost use Rattle.limits.specs.declared.TheConstants.{MAX_VERTICES};
ghost use Rattle.links.specs.Arc.{Arc};
ghost use Rattle.links.specs.Link.{AreLinksOf, EndsUpTo, arc_key, key_of, is_no_loop};
ghost use Rattle.gr_text.specs.Graph.{HasEnds};
ghost use Rattle.caller_forests.specs.Arcs.{AreColumns, arcs_in, vertex_from};

use limits::MAX_VERTICES;
use links::Link;
use std::alloc::{AllocError, Allocator};
use std::marker::Model;

/// Arcs in three columns. The arc at an index leads from the tail to the head at that index, and has the weight there.
/// The vertices are `base` to `base + n - 1`. The calls that take the columns check that their lengths are equal.
#[derive(Clone, Copy)]
pub struct Columns<'a> {
    pub base: u32,
    pub tails: &'a [u32],
    pub heads: &'a [u32],
    pub weights: &'a [i64],
}

// Arcs in three columns of one length. Their vertices are numbered from `base` on.
#[derive(Drop)]
pub(crate) struct Arcs<'a> {
    base: u32,
    tails: &'a [u32],
    heads: &'a [u32],
    weights: &'a [i64],
}

impl<'a> Model for Arcs<'a> {
    ghost use Rattle.std.specs.Prelude.{List};
    ghost use Rattle.links.specs.Arc.{Arc};
    ghost use Rattle.caller_forests.specs.Arcs.{AreColumns, arcs_in};

    ghost Value = { List Arc };

    ghost view = { λ a. arcs_in a.base a.tails.now a.heads.now a.weights.now };

    ghost invariant = { λ a. AreColumns a.tails.now a.heads.now a.weights.now };
}

impl<'a> Arcs<'a> {
    // Returns the arcs of three columns, if these have the same length.
    pub(crate) fn of_columns(columns: Columns<'a>) -> Option<Self>
        ensures columns { IsSome result ↔ AreColumns columns.entry.tails.now columns.entry.heads.now columns.entry.weights.now }
        ensures arcs { IfSome result (λ arcs. arcs ≡ arcs_in columns.entry.base columns.entry.tails.now columns.entry.heads.now
            columns.entry.weights.now) }
    {
        let Columns {
            base,
            tails,
            heads,
            weights,
        } = columns;
        if heads.len() != tails.len() || weights.len() != tails.len() {
            return None;
        }
        Some(Arcs {
            base,
            tails,
            heads,
            weights,
        })
    }

    pub(crate) fn len(&self) -> usize
        ensures { result ≡ length self.now }
    {
        self.tails.len()
    }

    // Whether both endpoints of each arc are vertices of a graph with n vertices.
    pub(crate) fn have_ends(&self, n: u32) -> bool
        ensures { IsTrue result ↔ All (HasEnds n) self.now }
    {
        are_vertices(n, self.base, self.tails) && are_vertices(n, self.base, self.heads)
    }

    // Returns the edge of the arc at an index, between vertices numbered from 1 to n, or none for a loop.
    #[inline]
    pub(crate) fn link(&self, n: u32, place: usize) -> Option<Link>
        requires few_vertices { n ≤ MAX_VERTICES }
        requires ends { All (HasEnds n) self.now }
        requires in_range { place < length self.now }
        ensures none_for_a_loop { (d : Arc) → IsSome result ↔ IsTrue (is_no_loop (slice_index_or self.now place d)) }
        ensures key { IfSome result (λ l. (d : Arc) → key_of l ≡ arc_key (slice_index_or self.now place d)) }
        ensures end { IfSome result (λ l. l.high ≤ n) }
    {
        let tail = vertex_at(n, self.base, self.tails, place);
        let head = vertex_at(n, self.base, self.heads, place);
        Link::of_arc(tail, head, self.weights[place])
    }

    // Returns the edges of the arcs, in their order. A loop has none.
    pub(crate) fn links<A: Allocator + Copy>(
        &self,
        alloc: A,
        n: u32,
    ) -> Result<Vec<Link, A>, AllocError>
        requires few_vertices { n ≤ MAX_VERTICES }
        requires ends { All (HasEnds n) self.now }
        ensures links { IfOk result (λ links. AreLinksOf self.now links.items) }
        ensures few { IfOk result (λ links. length links.items ≤ length self.now) }
        ensures ends { IfOk result (λ links. EndsUpTo n links.items) }
    {
        let mut links = Vec::with_capacity(alloc, self.len())?;
        for place in 0..self.len() {
            if let Some(link) = self.link(n, place) {
                links.push(link)?;
            }
        }
        Ok(links)
    }
}

// Which of the vertices 1 to n the endpoint at an index is, if the column numbers them from `base` on.
#[inline]
fn vertex_at(n: u32, base: u32, ends: &[u32], place: usize) -> u32
    requires few_vertices { n ≤ MAX_VERTICES }
    requires ends { All (λ v. (base ≤ v) × (v < base + n)) ends.now }
    requires in_range { place < length ends.now }
    ensures vertex { result ≡ vertex_from base (slice_index ends.now place) }
    ensures from_one { 1 ≤ result }
    ensures to_n { result ≤ n }
{
    ends[place] - base + 1
}

// Whether each of these is one of the n vertices that are numbered from `base` on.
fn are_vertices(n: u32, base: u32, ends: &[u32]) -> bool
    ensures { IsTrue result ↔ All (λ v. (base ≤ v) × (v < base + n)) ends.now }
{
    ends.iter().all(|v| base <= *v && *v - base < n)
}
