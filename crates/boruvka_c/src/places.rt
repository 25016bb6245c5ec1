//! The indices of the forest's edges among arcs in the caller's memory.
ghost use Rattle.caller_forests.specs.Places.{AnswersPlaces};

use caller_forests::{Columns, put_places};
use std::alloc::Global;

/// Finds the indices, counted from 0, of the forest's edges among the arcs and writes them over the first of `places`.
/// Returns their number, or the code of a [`caller_forests::CallRefusal`], which is negative.
///
/// The arc at an index leads from `u` to `v` and has the weight `w` at that index. The vertices are `base` to
/// `base + n - 1`. [`put_places`] documents which arcs are allowed, the order of the indices, and the costs.
#[unsafe(no_mangle)]
pub extern "C" fn boruvka_places_in(
    alloc: Global,
    n: u32,
    base: u32,
    u: &[u32],
    v: &[u32],
    w: &[i64],
    places: &mut [u32],
) -> i64
    ensures { AnswersPlaces n base u.now v.now w.now places.old places.new result }
{
    let columns = Columns {
        base,
        tails: u,
        heads: v,
        weights: w,
    };
    put_places(alloc, n, columns, places)
}
