//! The forest of edges in the caller's memory, found within memory that the caller provides.
ghost use Rattle.caller_forests.specs.Links.{AnswersForest};

use caller_forests::{GivenLink, put_forest};
use region_heap::{Region, heap_within};

/// Finds the minimum spanning forest of a graph with the vertices 1 to `n` and writes it over the first of the graph's
/// edges. Returns the number of its edges, or the code of a [`caller_forests::CallRefusal`], which is negative.
///
/// [`put_forest`] documents which edges are allowed, the order of the forest, and the costs. Its memory comes from
/// `memory`.
#[unsafe(no_mangle)]
pub extern "C" fn boruvka_forest_within(memory: Region, n: u32, links: &mut [GivenLink]) -> i64
    ensures { AnswersForest n links.old links.new result }
{
    let heap = heap_within(memory);
    put_forest(&heap, n, links)
}
