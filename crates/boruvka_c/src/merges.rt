//! The merges of clusters by edges in the caller's memory.
ghost use Rattle.caller_forests.specs.Merges.{AnswersMerges};

use caller_forests::{GivenLink, put_merges};
use link_merges::Merge;
use std::alloc::Global;

/// Writes the merges of the clusters of `n` points by these edges over `merges`, one merge per edge. Returns their
/// number, or the code of a [`caller_forests::CallRefusal`], which is negative.
///
/// [`put_merges`] documents how clusters are numbered, which edges are allowed, and the costs.
#[unsafe(no_mangle)]
pub extern "C" fn boruvka_merges_in(
    alloc: Global,
    n: u32,
    links: &[GivenLink],
    merges: &mut [Merge],
) -> i64
    ensures { AnswersMerges n links.now merges.old merges.new result }
{
    put_merges(alloc, n, links, merges)
}
