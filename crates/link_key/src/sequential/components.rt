//! Finds the components that the links of a forest join, with the solver's rounds.
ghost use Rattle.std.specs.Prelude.{◌≡◌, ◌≢◌, ℕ, ◌+◌, ◌<◌, ◌≤◌, ◌↔◌, length, slice_index, All, Contains, IfOk, IfSome, IsSome, IsTrue};
ghost use Rattle.limits.specs.declared.TheConstants.{MAX_VERTICES, MAX_ARCS};
ghost use Rattle.links.specs.Labels.{label_of};
ghost use Rattle.links.specs.Link.{EndsUpTo, IsAscending};
ghost use Rattle.links.specs.LinkSet.{HasNoCycle};
ghost use Rattle.link_key.specs.OpenLinks.{AreAllNumbers};
ghost use Rattle.link_key.specs.Components.{IsAcyclic, AreLeastVertices, AreComponents, AreFirsts, IsFirstWith};

use super::rounds::{Renaming, join_components, open_vertices};
use links::forests::is_ascending;
use links::sorting::sort;
use links::{Labels, Link};
use std::alloc::{AllocError, Allocator};

/// Labels each of the vertices 1 to `n` with the least vertex of its component under these links, which can be in any
/// order. Returns `None` if a link occurs twice or the links close a cycle.
///
/// The components are joined in Borůvka's rounds, as in [`super::forest_of`]. For k links this takes O(k log k + n log
/// n) time. In addition to the list, it needs at most 13 bytes per link and 12 bytes per vertex. The only error is out
/// of memory.
pub fn components_of<A: Allocator + Copy>(
    alloc: A,
    n: u32,
    links: Vec<Link, A>,
) -> Result<Option<Labels<A>>, AllocError>
    requires few_vertices { n ≤ MAX_VERTICES }
    requires few_links { length links.items ≤ MAX_ARCS }
    requires ends { EndsUpTo n links.items }
    ensures acyclic { IfOk result (λ found. IsSome found ↔ IsAcyclic links.items) }
    ensures least { IfOk result (λ found. IfSome found (AreLeastVertices n (Contains links.items))) }
{
    let mut links = links;
    sort(links.as_mut_slice());
    if !is_ascending(links.as_slice()) {
        return Ok(None);
    }
    let (components, acyclic) = components_in_order(alloc, n, links.as_slice())?;
    if !acyclic {
        return Ok(None);
    }
    let labels = first_vertices(alloc, components.count, components.numbers.as_slice())?;
    Ok(Some(Labels::of_known(labels)))
}

// Numbers the components of the vertices 1 to n under links in the order of their keys. Also returns whether the links
// close no cycle, which is so exactly if the rounds take every link.
fn components_in_order<A: Allocator + Copy>(
    alloc: A,
    n: u32,
    links: &[Link],
) -> Result<(Renaming<A>, bool), AllocError>
    requires few_vertices { n ≤ MAX_VERTICES }
    requires few_links { length links.now ≤ MAX_ARCS }
    requires ends { EndsUpTo n links.now }
    requires ascending { IsAscending links.now }
    ensures len { IfOk result (λ found. length found.0.numbers.items ≡ n + 1) }
    ensures numbers { IfOk result (λ found. AreAllNumbers found.0.count found.0.numbers.items) }
    ensures components { IfOk result (λ found. AreComponents (Contains links.now) found.0.numbers.items) }
    ensures acyclic { IfOk result (λ found. IsTrue found.1 ↔ HasNoCycle (Contains links.now)) }
{
    let candidates = open_vertices(alloc, links)?;
    let mut marks = vec![in alloc; false; links.len()]?;
    let components = join_components(alloc, n, candidates, marks.as_mut_slice())?;
    let taken = are_all_marked(marks.as_slice());
    Ok((components, taken))
}

fn are_all_marked(marks: &[bool]) -> bool
    ensures { IsTrue result ↔ All IsTrue marks.now }
{
    marks.iter().all(|mark| *mark)
}

// For each vertex from 1 on, the first vertex that has the same number.
fn first_vertices<A: Allocator + Copy>(
    alloc: A,
    count: u32,
    numbers: &[u32],
) -> Result<Vec<u32, A>, AllocError>
    requires few { length numbers.now ≤ MAX_VERTICES + 1 }
    requires numbers { AreAllNumbers count numbers.now }
    ensures number { IfOk result (λ labels. length labels.items + 1 ≡ length numbers.now) }
    ensures first { IfOk result (λ labels. AreFirsts numbers.now labels.items) }
{
    let mut table = vec![in alloc; 0; count as usize + 1]?;
    let firsts = table.as_mut_slice();
    let mut labels = Vec::with_capacity(alloc, numbers.len() - 1)?;
    for v in 1..numbers.len() {
        let number = numbers[v] as usize;
        let first = first_or(firsts[number], v as u32);
        firsts[number] = first;
        labels.push(first)?;
    }
    Ok(labels)
}

fn first_or(found: u32, v: u32) -> u32
    ensures new { found ≡ 0 → result ≡ v }
    ensures old { found ≢ 0 → result ≡ found }
{
    if found == 0 { v } else { found }
}
