//! The whole run over lanes: rounds, until one has no picks.
ghost use Rattle.std.specs.Prelude.{◌≡◌, ℕ, ◌<◌, ◌≤◌, ◌^◌, length, All, IfOk, IfErr, OnOk};
ghost use Rattle.limits.specs.declared.TheConstants.{MAX_SHARDS, MAX_VERTICES, MAX_WORKERS};
ghost use Rattle.links.specs.Link.{EndsUpTo};
ghost use Rattle.round_core.specs.Picks.{AreNoPicks};
ghost use Rattle.round_core.specs.declared.solver.SolveFault.TheVariants.{Memory};
ghost use Rattle.port_rounds.specs.Lanes.{IsIdle};
ghost use Rattle.port_rounds.specs.Bounds.{CanAskRound, CanRun};
ghost use Rattle.port_rounds.specs.Solved.{AreHonest, StepsOnce, AsksInRound, IsTurnFault, MergesAll, AsksInRun, FindsForest, IsSolveFault};

use crate::lane::{Lane, Lanes};
use crate::report::{Counts, report_of};
use crate::round::Reused;
use crate::seats::count_open;
use links::{Cut, Forest};
use plain_run::Report;
use round_core::{Picks, SolveFault, Solver, Turn};
use round_theory::Port;
use std::alloc::Allocator;
use std::sync::Wait;
use std::thread::Threads;

impl<
    'a,
    'b,
    R: Threads + Wait + Sync,
    A: Allocator + Copy + Send + Sync,
    P: Port<A> + Send + Drop,
> Lanes<'a, 'b, R, P, A> {
    // Makes one round and a step of the solver by its picks, of which none is left. Returns how many shards were
    // scanned alone too.
    fn step_once<'c>(
        &mut self,
        reused: &mut Reused<A>,
        solver: &mut Solver<A>,
        cut: &'c Cut<'c, A>,
    ) -> Result<(Turn, u32), SolveFault>
        requires none { AreNoPicks reused.old.picks }
        requires can { CanAskRound P.state cut.now solver.old self.old.lanes.now }
        ensures went { IfOk result (λ r. StepsOnce P.Port cut.now solver.old solver.new
            self.old.lanes.now self.new.lanes.now r.0 r.1) }
        ensures ports { AsksInRound P.Port cut.now solver.old self.old.lanes.now self.new.lanes.now }
        ensures fault { IfErr result (IsTurnFault P.Port cut.now solver.old self.old.lanes.now self.new.lanes.now) }
        ensures none { OnOk result (AreNoPicks reused.new.picks) }
        ensures same_lanes { self.new.lanes.ghost_name ≡ self.old.lanes.ghost_name }
    {
        // Without memory for the bytes of the labels, each wire encodes the labels itself.
        let _ = solver.spell_labels();
        let (mut picks, alone) = self.picks_of_round(reused, solver, cut)?;
        let turn = solver.step_in_place(&mut picks)?;
        reused.picks = picks;
        Ok((turn, alone))
    }

    // Makes rounds from the start until one has no picks. Returns the solver, and how many shards were scanned alone.
    fn merge_rounds<'c>(
        &mut self,
        alloc: A,
        n: u32,
        cut: &'c Cut<'c, A>,
    ) -> Result<(Solver<A>, u64), SolveFault>
        requires some_shard { 0 < length cut.now }
        requires few_shards { length cut.now ≤ MAX_SHARDS }
        requires can { CanRun P.state n cut.now self.old.lanes.now }
        ensures went { IfOk result (λ r. (answered : ℕ)
            × MergesAll P.Port n cut.now self.old.lanes.now self.new.lanes.now r.0 answered r.1) }
        ensures ports { AsksInRun P.Port n cut.now self.old.lanes.now self.new.lanes.now }
        ensures fault { IfErr result (IsSolveFault P.Port n cut.now self.old.lanes.now self.new.lanes.now) }
        ensures same_lanes { self.new.lanes.ghost_name ≡ self.old.lanes.ghost_name }
    {
        let mut solver = Solver::new(alloc, n)?;
        let picks = Picks::empty(alloc);
        let mut reused = Reused { alloc, picks };
        let mut alone = 0;
        let rt = self.rt;
        for _ in rt.forever() {
            let (turn, scanned) = self.step_once(&mut reused, &mut solver, cut)?;
            alone += u64::from(scanned);
            if let Turn::Done = turn {
                break;
            }
        }
        Ok((solver, alone))
    }

    // Makes the rounds, and returns the forest and a report of the run.
    fn find_forest<'c>(
        &mut self,
        alloc: A,
        n: u32,
        cut: &'c Cut<'c, A>,
    ) -> Result<(Forest<A>, Report), SolveFault>
        requires can { CanRun P.state n cut.now self.old.lanes.now }
        ensures went { IfOk result (λ r. FindsForest P.Port n cut.now self.old.lanes.now self.new.lanes.now r.0 r.1) }
        ensures ports { AsksInRun P.Port n cut.now self.old.lanes.now self.new.lanes.now }
        ensures fault { IfErr result (IsSolveFault P.Port n cut.now self.old.lanes.now self.new.lanes.now) }
        ensures same_lanes { self.new.lanes.ghost_name ≡ self.old.lanes.ghost_name }
    {
        let shards = cut.len();
        let lanes = &mut *self.lanes;
        let open = count_open(lanes);
        let (solver, alone) = self.merge_rounds(alloc, n, cut)?;
        let last = solver.round();
        let forest = solver.finish_par(self.rt, cut)?;
        let lanes = &mut *self.lanes;
        let counts = Counts {
            last,
            alone,
            closed: open - count_open(lanes),
        };
        let report = report_of(cut, shards, n, &forest, counts);
        Ok((forest, report))
    }
}

/// Finds a spanning forest of the cut's links, by what the lanes' ports answer and, if none is open, by its own scans.
/// It returns the forest and a report.
///
/// If all ports are honest, it is the minimum spanning forest, after as many rounds as merge components. Then no
/// spanning forest weighs less than the reported total, and the call fails only for lack of memory. Whatever the
/// answers are, the forest closes no cycle and spans the links.
///
/// In each round, one port after another is asked about each shard until one answers. The call waits for the ports'
/// answers. After it, even if it failed, each lane has its port as the asks left it, without a seat or answers.
///
/// A run takes the memory of the solver, including the bytes of its labels if there is memory for them, and that of one
/// round at a time. In each lane it takes memory for an answer about each shard. It makes at most log2 n merging
/// rounds, and one more.
///
/// It returns these errors:
/// - `Rounds` if a round with picks is past the bound.
/// - `Missed` if a round has no picks, but the links taken don't connect the endpoints of a link of the cut. It names
///   the first such link.
/// - `Memory` if it is out of memory.
pub fn solve<
    'a,
    A: Allocator + Copy + Send + Sync,
    P: Port<A> + Send + Drop,
    R: Threads + Wait + Sync,
>(
    rt: &R,
    alloc: A,
    n: u32,
    cut: &'a Cut<'a, A>,
    lanes: &mut [Lane<P, A>],
) -> Result<(Forest<A>, Report), SolveFault>
    requires few { length lanes.old ≤ MAX_WORKERS }
    requires vertices { n ≤ MAX_VERTICES }
    requires ends { All (EndsUpTo n) cut.now }
    requires cut { All (λ lane. (P.state lane.port).cut ≡ cut.now) lanes.old }
    requires counts { All (λ lane. (P.state lane.port).asks < 2 ^ 63) lanes.old }
    requires idle { All IsIdle lanes.old }
    ensures went { IfOk result (λ r. FindsForest P.Port n cut.now lanes.old lanes.new r.0 r.1) }
    ensures ports { AsksInRun P.Port n cut.now lanes.old lanes.new }
    ensures fault { IfErr result (IsSolveFault P.Port n cut.now lanes.old lanes.new) }
    ensures honest_fault { IfErr result (λ fault. AreHonest P.honest lanes.old → fault ≡ Memory) }
    ensures idle { All IsIdle lanes.new }
{
    let mut run = Lanes::new(rt, lanes);
    run.find_forest(alloc, n, cut)
}
