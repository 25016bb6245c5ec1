//! Labels the vertices with the components that edges in the caller's memory form.
ghost use Rattle.std.specs.Prelude.{◌≡◌, length, IfErr, OnOk, OnErr};
ghost use Rattle.caller_forests.specs.Labels.{AreLabelsBy, IsLabelsRefusal, AnswersLabels};
ghost use Rattle.caller_forests.specs.Links.{AreRight};

use crate::given::{GivenLink, have_ends, have_no_loop, links_of};
use crate::refusals::CallRefusal;
use limits::{MAX_ARCS, MAX_VERTICES};
use link_key::components_of;
use std::alloc::Allocator;

// Writes the labels of the vertices 1, 2, ..
fn find_labels<A: Allocator + Copy>(
    alloc: A,
    links: &[GivenLink],
    label: &mut [u32],
) -> Result<(), CallRefusal>
    ensures right { OnOk result (AreRight (length label.old) links.now) }
    ensures labelled { OnOk result (AreLabelsBy (length label.old) links.now label.new) }
    ensures refused { IfErr result (λ why. IsLabelsRefusal (length label.old) links.now why) }
    ensures untouched { OnErr result (label.new ≡ label.old) }
{
    if label.len() > MAX_VERTICES as usize {
        return Err(CallRefusal::TooManyVertices);
    }
    let n = label.len() as u32;
    if links.len() > MAX_ARCS as usize {
        return Err(CallRefusal::TooManyLinks);
    }
    if !have_ends(n, links) {
        return Err(CallRefusal::BadEnd);
    }
    if !have_no_loop(links) {
        return Err(CallRefusal::Cycle);
    }
    let Ok(list) = links_of(alloc, n, links) else {
        return Err(CallRefusal::NoMemory);
    };
    let Ok(found) = components_of(alloc, n, list) else {
        return Err(CallRefusal::NoMemory);
    };
    let Some(labels) = found else {
        return Err(CallRefusal::Cycle);
    };
    label.copy_from_slice(labels.as_slice());
    Ok(())
}

/// Writes the least vertex of each vertex's component over `label`, that of vertex v at index v - 1. Returns the number
/// of vertices, which is the length of `label`, or the code of a [`CallRefusal`], which is negative.
///
/// The edges may come in any order, with their endpoints in either order. They must not close a cycle, as a loop or a
/// repeated edge does.
///
/// It takes the time and the memory of [`components_of`]. In addition it takes two passes over the edges and one over
/// the labels, and 16 bytes per edge for the list in which it works.
pub fn put_labels<A: Allocator + Copy>(alloc: A, links: &[GivenLink], label: &mut [u32]) -> i64
    ensures { AnswersLabels links.now label.old label.new result }
{
    match find_labels(alloc, links, label) {
        Ok(()) => label.len() as i64,
        Err(why) => why.code(),
    }
}
