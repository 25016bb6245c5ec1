//! Keeps a list of edges within a bound while its file is read. It drops edges that repeat the one before them, and if
//! the list is long, reduces it to its forest, which covers it.
ghost use Rattle.std.specs.Prelude.{◌≡◌, ◌+◌, ◌≤◌, length, None, IfOk, OnOk};
ghost use Rattle.links.specs.Covers.{IsCoveredBy};
ghost use Rattle.links.specs.Link.{EndsUpTo, IsAscending};
ghost use Rattle.gr_text.specs.Kept.{BeginsSo};
ghost use Rattle.plain_run.specs.Sieve.{KnowsOf};

use crate::crew::Crew;
use crate::sieve::Sieve;
use gr_text::Keep;
use limits::{MAX_ARCS, MAX_VERTICES};
use link_key::Link;
use links::repeats::drop_usual_repeats;
use std::alloc::{AllocError, Allocator};
use std::mem;

// If a file states at most `FEW_ARCS` arcs, or at most `FEW_A_VERTEX` per vertex, all of its edges are kept. Reducing
// them would save little memory and cost the time of a second forest.
const FEW_ARCS: usize = 1 << 16;

const FEW_A_VERTEX: usize = 15;

// A list of at least this many edges, and of this many per vertex, is reduced to its forest. A smaller bound takes less
// memory, but goes over the forest's edges more often.
const LONG: usize = 1 << 15;

const LONG_A_VERTEX: usize = 10;

// At least this many edges are sifted at once.
const BATCH: usize = 1 << 10;

/// Keeps the edges of a file within the bound.
#[derive(Drop)]
pub(crate) struct Keeper<'a, C, A: Allocator> {
    crew: &'a C,
    /// How many edges were dropped.
    pub dropped: u64,
    // How many edges the list had after the last call.
    seen: usize,
    /// If many more edges come, this drops some of them before the list is long.
    sieve: Option<Sieve<A>>,
    // Whether a sieve let more than half of the edges through. If so, no other is made.
    is_coarse: bool,
}

impl<'a, C: Crew, A: Allocator + Copy> Keeper<'a, C, A> {
    /// Creates a keeper that has dropped no edge.
    pub fn new(crew: &'a C) -> Self
        ensures none { result.dropped ≡ 0 }
        ensures no_sieve { result.sieve ≡ None }
    {
        Keeper {
            crew,
            dropped: 0,
            seen: 0,
            sieve: None,
            is_coarse: false,
        }
    }

    #[tactic(auto, using(links::proofs::Covers::same_links_cover))]
    // Drops some of the edges that came after the last call. Without a sieve, these are edges that repeat the one
    // before them. With a sieve, they are those that it drops, after enough have come for it to sift.
    fn drop_some(&mut self, vertices: u32, links: &mut Vec<Link, A>)
        requires ends { EndsUpTo vertices links.old.items }
        requires few { self.old.dropped + length links.old.items ≤ MAX_ARCS }
        requires known { BeginsSo (KnowsOf self.old.sieve) links.old.items }
        ensures few { length links.new.items ≤ length links.old.items }
        ensures cover { IsCoveredBy links.old.items links.new.items }
        ensures counted { self.old.dropped + length links.old.items ≡ self.new.dropped + length links.new.items }
        ensures known { BeginsSo (KnowsOf self.new.sieve) links.new.items }
    {
        let count = links.len();
        let Some(mut sieve) = self.sieve.take() else {
            drop_usual_repeats(links, self.seen.min(count));
            self.dropped += (count - links.len()) as u64;
            return;
        };
        let fresh = count - sieve.passed;
        if fresh < BATCH || sieve.vertices() != vertices as usize {
            self.sieve = Some(sieve);
            return;
        }
        sieve.sift(links);
        let gone = count - links.len();
        self.dropped += gone as u64;
        if gone < fresh / 2 {
            self.is_coarse = true;
        } else {
            self.sieve = Some(sieve);
        }
    }

    // Makes a sieve of the forest that a list was reduced to, if one is worth its cost.
    fn sieve_of(
        &self,
        alloc: A,
        vertices: u32,
        arcs: u32,
        forest: &[Link],
    ) -> Result<Option<Sieve<A>>, AllocError>
        requires few_vertices { vertices ≤ MAX_VERTICES }
        requires few_arcs { arcs ≤ MAX_ARCS }
        requires few { self.now.dropped + length forest.now ≤ arcs }
        requires ends { EndsUpTo vertices forest.now }
        requires ascending { IsAscending forest.now }
        ensures { IfOk result (λ made. KnowsOf made forest.now) }
    {
        if self.is_coarse {
            return Ok(None);
        }
        let light = light_links(vertices, arcs, self.dropped, forest.len());
        Sieve::of_lightest(alloc, vertices, forest, light)
    }

    // Reduces the list to its forest.
    fn reduce(
        &mut self,
        vertices: u32,
        arcs: u32,
        links: &mut Vec<Link, A>,
    ) -> Result<(), AllocError>
        requires ready { C.ready }
        requires few_vertices { vertices ≤ MAX_VERTICES }
        requires few_arcs { arcs ≤ MAX_ARCS }
        requires ends { EndsUpTo vertices links.old.items }
        requires few { self.old.dropped + length links.old.items ≤ arcs }
        ensures cover { OnOk result (IsCoveredBy links.old.items links.new.items) }
        ensures counted { OnOk result (self.old.dropped + length links.old.items ≡ self.new.dropped + length links.new.items) }
        ensures known { OnOk result (BeginsSo (KnowsOf self.new.sieve) links.new.items) }
    {
        self.sieve = None;
        let alloc = *links.allocator();
        let count = links.len();
        let all = mem::replace(links, Vec::new(alloc));
        let kept = self.crew.keep_forest(alloc, vertices, all)?;
        self.dropped += (count - kept.len()) as u64;
        let sieve = self.sieve_of(alloc, vertices, arcs, kept.as_slice())?;
        self.sieve = sieve;
        self.seen = kept.len();
        *links = kept;
        Ok(())
    }
}

impl<'a, C: Crew, A: Allocator + Copy> Keep<A> for Keeper<'a, C, A> {
    ghost ready = { C.ready };

    ghost drops = { Unit {0} };

    ghost dropped = { λ keeper. keeper.dropped };

    ghost knows = { λ keeper. KnowsOf keeper.sieve };

    fn keep(
        &mut self,
        vertices: u32,
        arcs: u32,
        links: &mut Vec<Link, A>,
    ) -> Result<(), AllocError> {
        self.drop_some(vertices, links);
        if links.len() < long_list(vertices as usize, arcs as usize) {
            self.seen = links.len();
            return Ok(());
        }
        self.reduce(vertices, arcs, links)
    }
}

// How many of a forest's edges count as light, after this many others were dropped. Returns 0 if the edges still to
// come don't make a long list again. The more edges were seen, the fewer heavy ones connect the last vertices.
fn light_links(vertices: u32, arcs: u32, dropped: u64, kept: usize) -> usize
    requires few { dropped + kept ≤ arcs }
    requires few_arcs { arcs ≤ MAX_ARCS }
    requires few_vertices { vertices ≤ MAX_VERTICES }
{
    if (arcs as u64 - dropped) < long_list(vertices as usize, arcs as usize) as u64 {
        return 0;
    }
    let seen = dropped + kept as u64;
    kept.saturating_sub((kept as u64 * vertices as u64 / (4 * seen + 1)) as usize)
}

// How many edges make a long list, in a graph with this many vertices and stated arcs.
fn long_list(vertices: usize, arcs: usize) -> usize
    requires { vertices ≤ MAX_VERTICES }
{
    if arcs <= FEW_ARCS.max(vertices * FEW_A_VERTEX) {
        usize::MAX
    } else {
        many_links(vertices)
    }
}

/// How many edges make a long list, with this many vertices.
pub(crate) fn many_links(vertices: usize) -> usize
    requires { vertices ≤ MAX_VERTICES }
{
    LONG.max(vertices * LONG_A_VERTEX)
}
