ghost use Rattle.std.specs.Prelude.{◌≡◌, ◌+◌, ◌<◌, ◌≤◌, ◌↔◌, length, map, IfOk, IfSome, IsSome};
ghost use Rattle.limits.specs.declared.TheConstants.{MAX_VERTICES, MAX_ARCS};
ghost use Rattle.links.specs.Link.{EndsUpTo};
ghost use Rattle.link_key.specs.Components.{IsAcyclic};
ghost use Rattle.link_merges.specs.Merges.{AreMerges};
ghost use Rattle.link_merges.specs.Halves.{AreThemselves, row_at, points_in, points_of, merge_of};

use crate::halves::join;
use limits::{MAX_ARCS, MAX_VERTICES};
use links::Link;
use std::alloc::{AllocError, Allocator};

/// Two clusters that a link joins, in C `struct boruvka_merge`: their numbers, the lower one first, and the number of
/// points in the cluster that they become.
#[repr(C)]
#[derive(Clone, Copy, Debug, PartialEq, Eq)]
pub struct Merge {
    pub first: u32,
    pub second: u32,
    pub size: u32,
}

// The clusters of the endpoints of each link before any link is taken: single points.
fn points_of_ends<A: Allocator>(alloc: A, links: &[Link]) -> Result<Vec<Merge, A>, AllocError>
    ensures { IfOk result (λ rows. rows.items ≡ map points_of links.now) }
{
    let mut rows = Vec::with_capacity(alloc, links.len())?;
    for link in links {
        rows.push(Merge {
            first: link.low - 1,
            second: link.high - 1,
            size: 1,
        })?;
    }
    Ok(rows)
}

fn apart<A: Allocator>(alloc: A, clusters: u32) -> Result<Vec<u32, A>, AllocError>
    ensures as_many { IfOk result (λ now. length now.items ≡ clusters) }
    ensures own { IfOk result (λ now. AreThemselves now.items) }
{
    let mut now = Vec::with_capacity(alloc, clusters as usize)?;
    for c in 0..clusters {
        now.push(c)?;
    }
    Ok(now)
}

fn count_points(rows: &[Merge], n: u32, c: u32) -> u32
    requires in_range { c < n + length rows.now }
    ensures { result ≡ points_in n rows.now c }
{
    if c < n {
        1
    } else {
        rows[(c - n) as usize].size
    }
}

fn merge_of(rows: &[Merge], n: u32, i: usize) -> Merge
    requires in_range { i < length rows.now }
    requires first { (row_at rows.now i).first < n + length rows.now }
    requires second { (row_at rows.now i).second < n + length rows.now }
    requires few { (merge_of n rows.now i).size ≤ MAX_VERTICES + 1 }
    ensures { result ≡ merge_of n rows.now i }
{
    let row = rows[i];
    Merge {
        first: row.first.min(row.second),
        second: row.first.max(row.second),
        size: count_points(rows, n, row.first) + count_points(rows, n, row.second),
    }
}

/// The merges of clusters of `n` points by these links, one per link, in the order of the links. Returns `None` if a
/// link occurs twice or the links close a cycle. Clusters 0 to n - 1 are the single points: vertex v is cluster v - 1.
/// Link i joins two clusters into the cluster n + i.
///
/// This is single-linkage clustering if the links are those of a minimum spanning forest in ascending order of weight.
/// No clause requires that order.
///
/// The links are joined in halves: k links take O(n + k log k) time. The call needs 16 bytes per link and 4 bytes per
/// vertex. If k is more than n, it allocates nothing. The only error is out of memory.
pub fn merges_of<A: Allocator + Copy>(
    alloc: A,
    n: u32,
    links: &[Link],
) -> Result<Option<Vec<Merge, A>>, AllocError>
    requires few_vertices { n ≤ MAX_VERTICES }
    requires few_links { length links.now ≤ MAX_ARCS }
    requires ends { EndsUpTo n links.now }
    ensures acyclic { IfOk result (λ found. IsSome found ↔ IsAcyclic links.now) }
    ensures merges { IfOk result (λ found. IfSome found (λ merges. AreMerges n links.now merges.items)) }
{
    if links.len() > n as usize {
        return Ok(None);
    }
    let mut rows = points_of_ends(alloc, links)?;
    let mut now = apart(alloc, n + links.len() as u32)?;
    if !join(rows.as_mut_slice(), now.as_mut_slice(), n) {
        return Ok(None);
    }
    for i in 0..links.len() {
        rows[i] = merge_of(rows.as_slice(), n, i);
    }
    Ok(Some(rows))
}
