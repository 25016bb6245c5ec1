//! The merges of clusters by edges in the caller's memory.
ghost use Rattle.std.specs.Prelude.{◌≡◌, ◌↔◌, length, IsTrue, IfErr, OnOk, OnErr};
ghost use Rattle.caller_forests.specs.Merges.{NoneDescends, HaveMerges, AreMergesBy, IsMergesRefusal, AnswersMerges};

use crate::given::{GivenLink, have_ends, have_no_loop, links_of};
use crate::refusals::CallRefusal;
use limits::{MAX_ARCS, MAX_VERTICES};
use link_merges::{Merge, merges_of};
use std::alloc::Allocator;

fn none_descends(links: &[GivenLink]) -> bool
    ensures { IsTrue result ↔ NoneDescends links.now }
{
    links.is_sorted_by(|earlier, later| earlier.weight <= later.weight)
}

// Writes the merges, one per edge.
fn find_merges<A: Allocator + Copy>(
    alloc: A,
    n: u32,
    links: &[GivenLink],
    merges: &mut [Merge],
) -> Result<(), CallRefusal>
    ensures right { OnOk result (HaveMerges n links.now (length merges.old)) }
    ensures found { OnOk result (AreMergesBy n links.now merges.new) }
    ensures refused { IfErr result (λ why. IsMergesRefusal n links.now (length merges.old) why) }
    ensures untouched { OnErr result (merges.new ≡ merges.old) }
{
    if merges.len() != links.len() {
        return Err(CallRefusal::LengthsDiffer);
    }
    if n > MAX_VERTICES {
        return Err(CallRefusal::TooManyVertices);
    }
    if links.len() > MAX_ARCS as usize {
        return Err(CallRefusal::TooManyLinks);
    }
    if !have_ends(n, links) {
        return Err(CallRefusal::BadEnd);
    }
    if !have_no_loop(links) {
        return Err(CallRefusal::Cycle);
    }
    let Ok(list) = links_of(alloc, n, links) else {
        return Err(CallRefusal::NoMemory);
    };
    let Ok(found) = merges_of(alloc, n, list.as_slice()) else {
        return Err(CallRefusal::NoMemory);
    };
    let Some(rows) = found else {
        return Err(CallRefusal::Cycle);
    };
    if !none_descends(links) {
        return Err(CallRefusal::Descending);
    }
    merges.copy_from_slice(rows.as_slice());
    Ok(())
}

/// Writes the merges of the clusters of `n` points by these edges over `merges`, one merge per edge. Returns their
/// number, or the code of a [`CallRefusal`], which is negative.
///
/// The points are the clusters 0 to n - 1, and vertex v is cluster v - 1. The edge at index i joins two clusters into
/// the cluster n + i. With weights as heights, n - 1 merges are therefore a linkage matrix, and those of a forest are
/// single linkage.
///
/// The edges must not close a cycle, and none may weigh less than one before it; their endpoints may be in either
/// order. It takes the time and the memory of [`merges_of`], three passes over the edges, and 16 bytes per edge for the
/// list in which it works.
pub fn put_merges<A: Allocator + Copy>(
    alloc: A,
    n: u32,
    links: &[GivenLink],
    merges: &mut [Merge],
) -> i64
    ensures { AnswersMerges n links.now merges.old merges.new result }
{
    match find_merges(alloc, n, links, merges) {
        Ok(()) => links.len() as i64,
        Err(why) => why.code(),
    }
}
