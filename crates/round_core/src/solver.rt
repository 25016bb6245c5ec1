//! The coordinator's solver. It takes the picks of one round after another, and is finished if the links taken span the
//! cut.
ghost use Rattle.std.specs.Prelude.{◌≡◌, ◌+◌, ◌-◌, ◌<◌, ◌≤◌, ◌^◌, ◌↔◌, max, length, All, Some, IsTrue, IfOk, IfErr, OnErr, OnOk};
ghost use Rattle.links.specs.Link.{EndsUpTo};
ghost use Rattle.links.specs.Cut.{joined};
ghost use Rattle.round_core.specs.Picks.{AreNoPicks, ArePicksOfHearings};
ghost use Rattle.round_core.specs.Roots.{AreRoots};
ghost use Rattle.round_core.specs.Solver.{vertices, so_far, missed, IsProgress, IsAtStart, IsPastBound, IsTurn, IsStepFault, IsFinished, IsFinishFault};
ghost use Rattle.round_core.specs.declared.solver.SolveFault.TheVariants.{Memory};

use crate::missed::first_missed;
use crate::picks::Picks;
use crate::roots::Roots;
use limits::MAX_VERTICES;
use links::{Cut, Forest, Labels, Link};
use std::alloc::{AllocError, Allocator, Global};
use std::marker::Model;
use std::thread::Threads;
use thiserror::Error;

/// What a step did.
#[derive(Clone, Copy, Debug, PartialEq, Eq)]
pub enum Turn {
    /// It took this many links.
    Merged(u32),
    /// There were no picks, so no link leaves a component any more.
    Done,
}

/// Why a step or the end of a solver failed.
#[derive(Clone, Copy, Debug, PartialEq, Eq, Error)]
pub enum SolveFault {
    /// There are picks in a round past the bound: `2^round` is greater than the number of vertices, and than 1.
    #[error("round {round} is past the bound")]
    Rounds { round: u32 },
    /// The links taken don't connect the endpoints of this link.
    #[error("link {} {} {} was missed", .link.low, .link.high, .link.weight)]
    Missed { link: Link },
    /// An allocation failed.
    #[error("no memory")]
    Memory,
}

impl From<AllocError> for SolveFault {
    ghost from_gives = { λ _ fault. fault ≡ Memory };

    fn from(_refused: AllocError) -> SolveFault {
        SolveFault::Memory
    }
}

/// The links taken so far, and the components that they make.
///
/// Whatever was offered, the links that it takes close no cycle, and it is finished only if they span the links of a
/// cut. If each pick was the least link that leaves its component, they are then the forest, as
/// [`laws::rounds_end_with_forest`](crate::laws::rounds_end_with_forest) says. A round with picks that is past the
/// bound is rejected.
///
/// It takes 8 bytes per vertex, and 4 more if the labels' bytes are stored. From the first step that takes links, it
/// takes 24 more; 16 of them are for the links, of which there are fewer than vertices.
#[derive(Drop)]
pub struct Solver<A: Allocator = Global> {
    labels: Labels<A>,
    roots: Roots<A>,
    taken: Vec<Link, A>,
    rounds: u32,
}

impl<A: Allocator> Model for Solver<A> {
    ghost use Rattle.round_core.specs.Roots.{AreRoots};
    ghost use Rattle.round_core.specs.Solver.{Progress, IsProgress};

    ghost Value = { Progress };

    ghost view = { λ s. record { labels = s.labels; taken = s.taken.items; rounds = s.rounds } };

    ghost invariant = { λ s. IsProgress (record { labels = s.labels; taken = s.taken.items; rounds = s.rounds })
        × AreRoots s.labels s.roots };
}

impl<A: Allocator + Copy> Solver<A> {
    /// A solver for the vertices 1 to `n`, each a component. It fails only if it is out of memory.
    pub fn new(alloc: A, n: u32) -> Result<Self, AllocError>
        requires { n ≤ MAX_VERTICES }
        ensures { IfOk result (IsAtStart n) }
    {
        let labels = Labels::apart(alloc, n)?;
        let roots = Roots::of_labels(alloc, &labels)?;
        Ok(Solver {
            labels,
            roots,
            taken: Vec::new(alloc),
            rounds: 0,
        })
    }

    /// Takes the picks of a round, each link once, and merges the components that they connect. The picks are those of
    /// a book with these labels, whatever was answered.
    ///
    /// If there are no picks, it does nothing. A round with picks that is past the bound is rejected before memory is
    /// allocated. After an error the solver is as it was.
    ///
    /// It reads the picks of the k vertices that label themselves, and each of n vertices once, so it takes O(n + k log
    /// k) time. The new labels overwrite the old ones, and their bytes if these are stored. The first step that takes
    /// links allocates 24 bytes per vertex that stay, with space for all links of the run.
    pub fn step(&mut self, picks: &Picks<A>) -> Result<Turn, SolveFault>
        requires picks { ArePicksOfHearings self.old.labels picks.now }
        ensures turn { IfOk result (IsTurn picks.now self.old self.new) }
        ensures fault { IfErr result (IsStepFault self.old picks.now) }
        ensures same { OnErr result (self.new ≡ self.old) }
    {
        let turn = merge_by(
            picks,
            &mut self.roots,
            &mut self.labels,
            &mut self.taken,
            &mut self.rounds,
        )?;
        let Turn::Merged(_) = turn else {
            return Ok(turn);
        };
        self.roots.keep(self.labels.as_slice());
        Ok(turn)
    }

    /// Does the same as [`step`](Solver::step) and removes each pick, so that a book can be opened over the picks
    /// ([`RoundBook::open_over`](crate::RoundBook::open_over)) without clearing them. After an error they are as they
    /// were.
    pub fn step_in_place(&mut self, picks: &mut Picks<A>) -> Result<Turn, SolveFault>
        requires picks { ArePicksOfHearings self.old.labels picks.old }
        ensures turn { IfOk result (IsTurn picks.old self.old self.new) }
        ensures fault { IfErr result (IsStepFault self.old picks.old) }
        ensures same { OnErr result (self.new ≡ self.old) }
        ensures none { OnOk result (AreNoPicks picks.new) }
        ensures room { OnOk result (length picks.new ≡ length picks.old) }
        ensures kept { OnErr result (picks.new ≡ picks.old) }
    {
        let turn = merge_by(
            &*picks,
            &mut self.roots,
            &mut self.labels,
            &mut self.taken,
            &mut self.rounds,
        )?;
        let Turn::Merged(_) = turn else {
            return Ok(turn);
        };
        self.roots.clear(picks);
        self.roots.keep(self.labels.as_slice());
        Ok(turn)
    }

    /// Stores the bytes of the labels too ([`Labels::spell`]), for all who are asked under them: 4 bytes per vertex. A
    /// step updates them. It fails only if it is out of memory, and then they aren't stored.
    pub fn spell_labels(&mut self) -> Result<(), AllocError>
        ensures { self.new ≡ self.old }
    {
        self.labels.spell()
    }

    /// Returns the links taken, as a forest, if they connect the endpoints of each link of the cut. Otherwise it
    /// returns the first link of the cut, in its order, whose endpoints they don't connect. It checks this before it
    /// allocates memory.
    ///
    /// It reads each link of the cut once, and sorts the links taken. With m links and n vertices, it takes O(m + n log
    /// n) time, and 16 bytes per link taken.
    pub fn finish(&self, cut: &Cut<A>) -> Result<Forest<A>, SolveFault>
        requires ends { All (EndsUpTo (vertices self.now)) cut.now }
        ensures forest { IfOk result (IsFinished self.now (joined cut.now)) }
        ensures fault { IfErr result (IsFinishFault self.now (joined cut.now)) }
    {
        if let Some(link) = self.first_missed(cut) {
            return Err(SolveFault::Missed { link });
        }
        let taken = Vec::from_slice(*self.taken.allocator(), self.taken.as_slice())?;
        Ok(Forest::of_distinct(taken))
    }

    /// Returns the same as `finish`, with the links sorted by the threads of [`Forest::of_distinct_par`]. It consumes
    /// the solver, even on an error, and copies no link: the forest uses the list of links taken. It allocates nothing.
    pub fn finish_par<R: Threads + Sync>(
        self,
        rt: &R,
        cut: &Cut<A>,
    ) -> Result<Forest<A>, SolveFault>
        requires ends { All (EndsUpTo (vertices self)) cut.now }
        ensures forest { IfOk result (IsFinished self (joined cut.now)) }
        ensures fault { IfErr result (IsFinishFault self (joined cut.now)) }
    {
        if let Some(link) = self.first_missed(cut) {
            return Err(SolveFault::Missed { link });
        }
        Ok(Forest::of_distinct_par(rt, self.taken))
    }
}

impl<A: Allocator> Solver<A> {
    /// The number of the next round: one more than the number of rounds that took links.
    pub fn round(&self) -> u32
        ensures round { result ≡ self.now.rounds + 1 }
        ensures progress { IsProgress self.now }
    {
        self.rounds + 1
    }

    /// The labels of the vertices. All vertices that the links taken connect have one label, the least of them.
    pub fn labels(&self) -> &Labels<A>
        ensures labels { result.now ≡ self.now.labels }
        ensures progress { IsProgress self.now }
    {
        &self.labels
    }

    fn first_missed(&self, cut: &Cut<A>) -> Option<Link>
        requires { All (EndsUpTo (vertices self.now)) cut.now }
        ensures { result ≡ missed self.now.labels (joined cut.now) }
    {
        first_missed(self.labels.as_slice(), cut.links())
    }
}

// Makes a step on the parts of a solver. The roots stay those of the old labels, since only these have picks.
fn merge_by<A: Allocator + Copy>(
    picks: &Picks<A>,
    roots: &mut Roots<A>,
    labels: &mut Labels<A>,
    taken: &mut Vec<Link, A>,
    rounds: &mut u32,
) -> Result<Turn, SolveFault>
    requires progress { IsProgress (so_far labels.old taken.old.items rounds.old) }
    requires roots { AreRoots labels.old roots.old }
    requires picks { ArePicksOfHearings labels.old picks.now }
    ensures turn { IfOk result (IsTurn picks.now (so_far labels.old taken.old.items rounds.old) (so_far labels.new taken.new.items rounds.new)) }
    ensures fault { IfErr result (IsStepFault (so_far labels.old taken.old.items rounds.old) picks.now) }
    ensures same { OnErr result (so_far labels.new taken.new.items rounds.new ≡ so_far labels.old taken.old.items rounds.old) }
    ensures roots { roots.new ≡ roots.old }
{
    if roots.have_no_picks(picks) {
        return Ok(Turn::Done);
    }
    let round = *rounds + 1;
    if is_past_bound(round, labels.n()) {
        return Err(SolveFault::Rounds { round });
    }
    let before = taken.len();
    roots.merge(labels, picks, taken)?;
    *rounds = round;
    Ok(Turn::Merged((taken.len() - before) as u32))
}

// Whether this many merging rounds are more than `n` vertices can have.
fn is_past_bound(round: u32, n: u32) -> bool
    requires { round < 32 }
    ensures { IsTrue result ↔ IsPastBound n round }
{
    1 << round > n.max(1)
}
