//! A sieve of edges. If the light edges of a list connect many vertices, a heavier edge can often be dropped as it
//! comes.
ghost use Rattle.std.specs.Prelude.{◌≡◌, ◌≤◌, ◌++◌, ◌-◌, take, drop, length, slice_index, IfOk, IfSome};
ghost use Rattle.std.specs.List.{filter};
ghost use Rattle.links.specs.Covers.{IsCoveredBy};
ghost use Rattle.links.specs.Link.{EndsUpTo, IsAscending};
ghost use Rattle.gr_text.specs.Kept.{BeginsSo};
ghost use Rattle.plain_run.specs.Sieve.{Passes, stays};

use limits::{MAX_ARCS, MAX_VERTICES};
use link_key::{Labels, Link, components_of};
use links::sorting::wide;
use std::alloc::{AllocError, Allocator};

/// The components that the light edges of a list form, and the heaviest of these edges.
#[derive(Drop)]
pub(crate) struct Sieve<A: Allocator> {
    labels: Labels<A>,
    heaviest: Link,
    /// How many edges, from the start of the list, it has let through.
    pub passed: usize,
}

impl<A: Allocator + Copy> Sieve<A> {
    /// Makes a sieve of the `count` lightest edges of a forest, or none if there are none. It takes the memory to find
    /// their components, of which 4 bytes per vertex stay allocated.
    pub fn of_lightest(
        alloc: A,
        n: u32,
        forest: &[Link],
        count: usize,
    ) -> Result<Option<Self>, AllocError>
        requires few_vertices { n ≤ MAX_VERTICES }
        requires few_links { length forest.now ≤ MAX_ARCS }
        requires ends { EndsUpTo n forest.now }
        requires ascending { IsAscending forest.now }
        ensures { IfOk result (λ made. IfSome made (λ sieve. Passes sieve forest.now)) }
    {
        let count = count.min(forest.len());
        if count == 0 {
            return Ok(None);
        }
        let heaviest = forest[count - 1];
        let light = Vec::from_slice(alloc, &forest[..count])?;
        match components_of(alloc, n, light)? {
            Some(labels) => Ok(Some(Sieve {
                labels,
                heaviest,
                passed: forest.len(),
            })),
            None => Ok(None),
        }
    }
}

impl<A: Allocator> Sieve<A> {
    /// The number of vertices that have labels.
    pub fn vertices(&self) -> usize
        ensures { result ≡ length self.now.labels }
    {
        self.labels.as_slice().len()
    }

    /// Looks at the edges after those that it has let through. It drops those that are heavier than the light ones and
    /// have both endpoints in one component.
    pub fn sift<B: Allocator>(&mut self, links: &mut Vec<Link, B>)
        requires ends { EndsUpTo (length self.old.labels) links.old.items }
        requires known { BeginsSo (Passes self.old) links.old.items }
        ensures few { length links.new.items ≤ length links.old.items }
        ensures cover { IsCoveredBy links.old.items links.new.items }
        ensures passes { Passes self.new links.new.items }
    {
        let labels = self.labels.as_slice();
        let kept = put_staying_behind(links.as_mut_slice(), self.passed, labels, &self.heaviest);
        links.truncate(kept);
        self.passed = kept;
    }
}

// Moves the edges from index `from` on that stay to directly after the first ones, in order, and returns how many edges
// there are then. It has no branch on the labels, so the processor looks up those of the next edges meanwhile.
fn put_staying_behind(links: &mut [Link], from: usize, labels: &[u32], heaviest: &Link) -> usize
    requires in_range { from ≤ length links.old }
    ensures in_range { result ≤ length links.new }
    ensures stay { take result links.new ≡ take from links.old ++ filter (stays labels.now heaviest.now) (drop from links.old) }
{
    let mut kept = from;
    for i in from..links.len() {
        let link = links[i];
        links[kept] = link;
        kept += stays(labels, heaviest, &link) as usize;
    }
    kept
}

// Whether the edge is at most as heavy as the heaviest light one, or its endpoints are in different components.
#[inline]
fn stays(labels: &[u32], heaviest: &Link, link: &Link) -> bool
    ensures { result ≡ stays labels.now heaviest.now link.now }
{
    let is_within = label(labels, link.low) == label(labels, link.high);
    !(is_within & (wide(heaviest) < wide(link)))
}

// The label of a vertex, or 0 if it has none.
#[inline]
fn label(labels: &[u32], v: u32) -> u32
    requires { 1 ≤ v }
    ensures { result ≡ slice_index labels.now (v - 1) }
{
    labels.get(v as usize - 1).copied().unwrap_or(0)
}
