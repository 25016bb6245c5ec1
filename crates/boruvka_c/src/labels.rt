//! Labels the vertices with the components that edges in the caller's memory form.
ghost use Rattle.caller_forests.specs.Labels.{AnswersLabels};

use caller_forests::{GivenLink, put_labels};
use std::alloc::Global;

/// Writes the least vertex of each vertex's component over `label`, that of vertex v at index v - 1. Returns the length
/// of `label`, or the code of a [`caller_forests::CallRefusal`], which is negative.
///
/// [`put_labels`] documents which edges are allowed, and the costs.
#[unsafe(no_mangle)]
pub extern "C" fn boruvka_labels_in(alloc: Global, links: &[GivenLink], label: &mut [u32]) -> i64
    ensures { AnswersLabels links.now label.old label.new result }
{
    put_labels(alloc, links, label)
}
