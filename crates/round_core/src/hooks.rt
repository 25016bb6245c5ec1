ghost use Rattle.std.specs.Prelude.{length, IfOk};
ghost use Rattle.round_theory.specs.Labelling.{IsRelabelling};
ghost use Rattle.round_core.specs.Picks.{Picked, ArePicksOfHearings};

use crate::picks::Picks;
use crate::roots::Roots;
use links::Labels;
use std::alloc::{AllocError, Allocator};

/// Returns the labels of the next round: each vertex gets the least vertex to which the old components and the picks
/// connect it.
///
/// The picks are those of a book with these labels, whatever was answered. It merges as
/// [`Solver::step`](crate::Solver::step) does, and stores no link. It fails only if it is out of memory.
///
/// With n vertices, k of which label themselves, it takes O(n + k log k) time. While it works it takes 12 bytes per
/// vertex and 16 for each of the k, and 4 bytes per vertex for the new labels.
pub fn hook_relabel<A: Allocator + Copy>(
    alloc: A,
    labels: &Labels<A>,
    picks: &Picks<A>,
) -> Result<Labels<A>, AllocError>
    requires picks { ArePicksOfHearings labels.now picks.now }
    ensures relabelled { IfOk result (IsRelabelling (length labels.now) labels.now (Picked picks.now)) }
{
    let mut roots = Roots::of_labels(alloc, labels)?;
    let mut new = Labels::of_known(Vec::from_slice(alloc, labels.as_slice())?);
    roots.merge(&mut new, picks, &mut Vec::new(alloc))?;
    Ok(new)
}
