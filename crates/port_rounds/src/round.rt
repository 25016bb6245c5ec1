//! The passes of a round.
ghost use Rattle.std.specs.Prelude.{◌≡◌, ◌+◌, ◌<◌, All, OnOk, IfOk};
ghost use Rattle.round_core.specs.BookValue.{BookValue, missing};
ghost use Rattle.round_core.specs.Picks.{AreNoPicks};
ghost use Rattle.round_core.specs.Solver.{IsProgress};
ghost use Rattle.port_rounds.specs.Lanes.{open_count};
ghost use Rattle.port_rounds.specs.Bounds.{IsAskable, HasRoomForRound, CanAskRound};
ghost use Rattle.port_rounds.specs.Passes.{RunsPasses};
ghost use Rattle.port_rounds.specs.Rounds.{RunsRound, PicksInRound};
ghost use Rattle.port_rounds.specs.Solved.{AsksInRound};

use crate::lane::Lanes;
use crate::scans::scan_missing;
use crate::seats::count_open;
use links::Cut;
use round_core::{Picks, RoundBook, Solver};
use round_theory::Port;
use std::alloc::{AllocError, Allocator};
use std::sync::Wait;
use std::thread::Threads;

// What a run reuses in the next round: the picks of the last one. None of them is left, and the next ones are counted
// in their memory.
#[derive(Drop)]
pub(crate) struct Reused<A: Allocator> {
    pub(crate) alloc: A,
    pub(crate) picks: Picks<A>,
}

impl<
    'a,
    'b,
    R: Threads + Wait + Sync,
    A: Allocator + Copy + Send + Sync,
    P: Port<A> + Send + Drop,
> Lanes<'a, 'b, R, P, A> {
    // Passes over the lanes until the book misses no shard or no port is open.
    fn ask_ports(&mut self, alloc: A, book: &mut RoundBook<A>) -> Result<(), AllocError>
        requires round { IsAskable book.old }
        requires wide { All (λ lane. HasRoomForRound P.state book.old lane.port) self.old.lanes.now }
        ensures went { RunsPasses P.Port book.old book.new self.old.lanes.now self.new.lanes.now }
        ensures end { OnOk result (0 < missing book.new → open_count P.state self.new.lanes.now ≡ 0) }
        ensures same_lanes { self.new.lanes.ghost_name ≡ self.old.lanes.ghost_name }
    {
        let rt = self.rt;
        for _ in rt.forever() {
            let lanes = &mut *self.lanes;
            if book.missing() == 0 || count_open(lanes) == 0 {
                break;
            }
            self.pass(alloc, book)?;
        }
        Ok(())
    }

    #[tactic(auto, using(crate::proofs::Scanning::rounded))]
    // Makes a whole round over a book: passes over the lanes' ports, and scans of the shards that no port answered. It
    // returns how many shards it scanned. After it the book misses none.
    //
    // In a pass, each lane with an open port has a thread that asks its port about one shard after another, and each
    // begins at another shard. Two ports are never asked about the same shard at once, and none is asked about it after
    // it was answered. If no thread can be started, the lanes ask one after another. It waits for the ports' answers.
    // It fails only if it is out of memory. Then the book may have some of the answers, and each lane is as its asks
    // left it.
    //
    // With s shards and k lanes, a pass takes 8 bytes per shard and about 500 per lane. From then on, each lane has
    // memory for s answers of about 40 bytes.
    pub(crate) fn run_round(&mut self, alloc: A, book: &mut RoundBook<A>) -> Result<u32, AllocError>
        requires round { IsAskable book.old }
        requires wide { All (λ lane. HasRoomForRound P.state book.old lane.port) self.old.lanes.now }
        ensures went { IfOk result (λ alone. RunsRound P.Port book.old book.new self.old.lanes.now self.new.lanes.now alone) }
        ensures asked { (middle : BookValue) × RunsPasses P.Port book.old middle self.old.lanes.now self.new.lanes.now }
        ensures same_lanes { self.new.lanes.ghost_name ≡ self.old.lanes.ghost_name }
    {
        self.ask_ports(alloc, book)?;
        scan_missing(self.rt, alloc, book)
    }

    // Makes the solver's next round, under its labels, over a book of its own. It returns the picks of the answers, and
    // how many shards it scanned itself. It fails only if it is out of memory, and then each lane is as its asks left
    // it.
    //
    // It takes the memory of a book, which is freed after the round, and what `run_round` takes.
    pub(crate) fn picks_of_round<'c>(
        &mut self,
        reused: &mut Reused<A>,
        solver: &'c Solver<A>,
        cut: &'c Cut<'c, A>,
    ) -> Result<(Picks<A>, u32), AllocError>
        requires none { AreNoPicks reused.old.picks }
        requires can { CanAskRound P.state cut.now solver.now self.old.lanes.now }
        ensures progress { IsProgress solver.now }
        ensures picked { IfOk result (λ r. PicksInRound P.Port (solver.now.rounds + 1) cut.now solver.now.labels
            self.old.lanes.now self.new.lanes.now r.0 r.1) }
        ensures asked { AsksInRound P.Port cut.now solver.now self.old.lanes.now self.new.lanes.now }
        ensures same_lanes { self.new.lanes.ghost_name ≡ self.old.lanes.ghost_name }
    {
        let mut book = RoundBook::open_over(
            reused.picks.take(),
            solver.round(),
            cut,
            solver.labels(),
        )?;
        let alone = self.run_round(reused.alloc, &mut book)?;
        Ok((book.close_par(self.rt), alone))
    }
}
