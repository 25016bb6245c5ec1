//! The forest of edges in the caller's memory.
ghost use Rattle.std.specs.Prelude.{◌≡◌, ◌≤◌, IfOk, IfErr, OnOk, OnErr};
ghost use Rattle.caller_forests.specs.Links.{AreRight, HoldsForest, IsLinksRefusal, AnswersForest};

use crate::given::{GivenLink, have_ends, links_of, put_first};
use crate::refusals::CallRefusal;
use limits::{MAX_ARCS, MAX_VERTICES};
use link_key::forest_of;
use std::alloc::Allocator;

// Writes the forest over the first of the edges, and returns how many edges it has.
fn find_forest<A: Allocator + Copy>(
    alloc: A,
    n: u32,
    links: &mut [GivenLink],
) -> Result<usize, CallRefusal>
    ensures right { OnOk result (AreRight n links.old) }
    ensures found { IfOk result (λ count. HoldsForest links.old links.new count) }
    ensures few { IfOk result (λ count. count ≤ MAX_ARCS) }
    ensures refused { IfErr result (λ why. IsLinksRefusal n links.old why) }
    ensures untouched { OnErr result (links.new ≡ links.old) }
{
    if n > MAX_VERTICES {
        return Err(CallRefusal::TooManyVertices);
    }
    if links.len() > MAX_ARCS as usize {
        return Err(CallRefusal::TooManyLinks);
    }
    if !have_ends(n, links) {
        return Err(CallRefusal::BadEnd);
    }
    let Ok(list) = links_of(alloc, n, links) else {
        return Err(CallRefusal::NoMemory);
    };
    let Ok(forest) = forest_of(alloc, n, list) else {
        return Err(CallRefusal::NoMemory);
    };
    put_first(links, forest.links());
    Ok(forest.links().len())
}

/// Finds the minimum spanning forest of a graph with the vertices 1 to `n` and writes it over the first of the graph's
/// edges, in the order of their keys. Returns the number of its edges, or the code of a [`CallRefusal`], which is
/// negative. The edges at those indices are lost; those after them stay.
///
/// The edges may come in any order. Their endpoints may be in either order, and loops and repeats are allowed. It takes
/// the time of [`forest_of`] and two passes over the edges. It takes the memory of [`forest_of`], and 16 bytes per edge
/// for the list in which that works.
pub fn put_forest<A: Allocator + Copy>(alloc: A, n: u32, links: &mut [GivenLink]) -> i64
    ensures { AnswersForest n links.old links.new result }
{
    match find_forest(alloc, n, links) {
        Ok(count) => count as i64,
        Err(why) => why.code(),
    }
}
