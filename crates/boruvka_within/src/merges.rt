//! The merges of clusters by edges in the caller's memory, found within memory that the caller provides.
ghost use Rattle.caller_forests.specs.Merges.{AnswersMerges};

use caller_forests::{GivenLink, put_merges};
use link_merges::Merge;
use region_heap::{Region, heap_within};

/// Writes the merges of the clusters of `n` points by these edges over `merges`, one merge per edge. Returns their
/// number, or the code of a [`caller_forests::CallRefusal`], which is negative.
///
/// [`put_merges`] documents how clusters are numbered, which edges are allowed, and the costs. Its memory comes from
/// `memory`.
#[unsafe(no_mangle)]
pub extern "C" fn boruvka_merges_within(
    memory: Region,
    n: u32,
    links: &[GivenLink],
    merges: &mut [Merge],
) -> i64
    ensures { AnswersMerges n links.now merges.old merges.new result }
{
    let heap = heap_within(memory);
    put_merges(&heap, n, links, merges)
}
