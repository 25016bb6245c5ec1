//! Runs all rounds in one thread, which scans the shards itself.
ghost use Rattle.std.specs.Prelude.{◌≡◌, ◌≤◌, ◌^◌, max, length, All, Contains, IfOk, IfErr};
ghost use Rattle.links.specs.Cut.{joined};
ghost use Rattle.links.specs.Forest.{IsForestOf};
ghost use Rattle.links.specs.Link.{EndsUpTo};
ghost use Rattle.round_theory.specs.Rounds.{IsMergingRounds};
ghost use Rattle.round_core.specs.Picks.{ArePicks};
ghost use Rattle.round_core.specs.OwnPicks.{AreLeastNumbers};
ghost use Rattle.round_core.specs.Solver.{vertices, HasRoundsOf, IsRoundOf};
ghost use Rattle.round_core.specs.declared.solver.SolveFault.TheVariants.{Memory};

use crate::end_labels::EndLabels;
use crate::picks::{NO_PICK, Picks};
use crate::solver::{SolveFault, Solver, Turn};
use crate::tally::count;
use limits::MAX_VERTICES;
use links::{Cut, Forest, Labels, Link};
use std::alloc::{AllocError, Allocator};

/// Finds the minimum spanning forest of the links of a cut, between the vertices 1 to `n`, and in how many rounds
/// components were merged.
///
/// These are Borůvka's rounds (1926): each component picks the least link that leaves it, and components that the picks
/// connect are one component in the next round. It fails only if it is out of memory.
///
/// There are at most log2 n + 1 rounds, the last of which picks nothing. With m links, a round takes O(m + n) time and
/// that of [`Solver::step`](crate::Solver::step). Each link of each shard is counted for both of the components that it
/// leaves. It takes 48 bytes per vertex for labels, picks, links and what a step needs. At the end, 16 bytes per link
/// of the forest replace the picks.
pub fn solve_alone<A: Allocator + Copy>(
    alloc: A,
    n: u32,
    cut: &Cut<A>,
) -> Result<(Forest<A>, u32), SolveFault>
    requires few_vertices { n ≤ MAX_VERTICES }
    requires ends { All (EndsUpTo n) cut.now }
    ensures forest { IfOk result (λ answer. IsForestOf (joined cut.now) answer.0) }
    ensures rounds { IfOk result (λ answer. IsMergingRounds n (joined cut.now) answer.1) }
    ensures in_time { IfOk result (λ answer. 2 ^ answer.1 ≤ max 1 n) }
    ensures fault { IfErr result (λ fault. fault ≡ Memory) }
{
    let mut solver = Solver::new(alloc, n)?;
    'rounds: while let Turn::Merged(_) = go_round(alloc, cut, &mut solver)? {}
    let rounds = solver.round() - 1;
    let forest = solver.finish(cut)?;
    Ok((forest, rounds))
}

// Makes one round: the picks among all links, and the solver's step by them.
fn go_round<A: Allocator + Copy>(
    alloc: A,
    cut: &Cut<A>,
    solver: &mut Solver<A>,
) -> Result<Turn, SolveFault>
    requires ends { All (EndsUpTo (vertices solver.old)) cut.now }
    requires so_far { HasRoundsOf (joined cut.now) solver.old }
    ensures round { IfOk result (IsRoundOf (joined cut.now) solver.old solver.new) }
    ensures fault { IfErr result (λ fault. fault ≡ Memory) }
{
    let picks = picks_of_links(alloc, solver.labels(), cut.links())?;
    solver.step(&picks)
}

fn picks_of_links<A: Allocator + Copy>(
    alloc: A,
    labels: &Labels<A>,
    links: &[Link],
) -> Result<Picks<A>, AllocError>
    requires ends { EndsUpTo (length labels.now) links.now }
    ensures { IfOk result (ArePicks labels.now (Contains links.now)) }
{
    let mut numbers = Picks::none(alloc, labels.n())?.into_numbers();
    count_leaving(
        &EndLabels::over(labels.as_slice()),
        links,
        numbers.as_mut_slice(),
    );
    Ok(Picks::of_numbers(numbers))
}

// Counts each of the links that leaves a component, for both of its components.
fn count_leaving(labels: &EndLabels, links: &[Link], numbers: &mut [u128])
    requires ends { EndsUpTo (length labels.now) links.now }
    requires each_vertex { length numbers.old ≡ length labels.now }
    requires none { All (λ k. k ≡ NO_PICK) numbers.old }
    ensures { AreLeastNumbers labels.now links.now numbers.new }
{
    for link in links {
        if labels.of(link.low) != labels.of(link.high) {
            count(labels, *link, numbers);
        }
    }
}
