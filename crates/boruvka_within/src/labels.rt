//! Labels the vertices with the components that edges in the caller's memory form, within memory that the caller
//! provides.
ghost use Rattle.caller_forests.specs.Labels.{AnswersLabels};

use caller_forests::{GivenLink, put_labels};
use region_heap::{Region, heap_within};

/// Writes the least vertex of each vertex's component over `label`, that of vertex v at index v - 1. Returns the length
/// of `label`, or the code of a [`caller_forests::CallRefusal`], which is negative.
///
/// [`put_labels`] documents which edges are allowed, and the costs. Its memory comes from `memory`.
#[unsafe(no_mangle)]
pub extern "C" fn boruvka_labels_within(
    memory: Region,
    links: &[GivenLink],
    label: &mut [u32],
) -> i64
    ensures { AnswersLabels links.now label.old label.new result }
{
    let heap = heap_within(memory);
    put_labels(&heap, links, label)
}
