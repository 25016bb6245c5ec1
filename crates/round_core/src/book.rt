ghost use Rattle.std.specs.Prelude.{◌≡◌, ◌≢◌, ℕ, List, ◌+◌, ◌-◌, ◌<◌, ◌≤◌, [], ◌∷◌, ◌++◌, length, All, Some, None, not, OnOk, OnErr, IfOk, IfErr, Contains, true};
ghost use Rattle.std.specs.List.{list_all};
ghost use Rattle.links.specs.declared.links.Link.{Link as TheLink};
ghost use Rattle.links.specs.Link.{EndsUpTo};
ghost use Rattle.links.specs.Labels.{AreLabels};
ghost use Rattle.round_theory.specs.Offers.{IsNamed};
ghost use Rattle.round_core.specs.BookValue.{BookValue, opened, is_taken, missing, is_leaving, is_offer, refusal, with_answer, hearings, named_links, IsBookValue};
ghost use Rattle.round_core.specs.Picks.{ArePicks, AreNoPicks};

use crate::end_labels::EndLabels;
use crate::picks::Picks;
use crate::refusals::Refusal;
use crate::tally::{count_answers, count_by_threads};
use limits::MAX_SHARDS;
use links::{Answer, Cut, Labels, Link};
use std::alloc::{AllocError, Allocator, Global};
use std::marker::Model;
use std::thread::Threads;

/// The book of a round: which shards are asked about, and the answers taken so far, one for each shard of the cut.
///
/// It trusts no answer. It rejects an answer of another round, for another shard than the one asked about, for a shard
/// that has an answer, or with an offer that isn't a link leaving its component. It stores the answers that it takes,
/// with their offers. In addition, it takes 33 bytes per shard for an answer without its offers and whether it came, if
/// the allocator has no size of its own. It also takes 16 bytes per vertex. All of this is allocated when it is opened.
#[derive(Drop)]
pub struct RoundBook<'a, A: Allocator = Global> {
    round: u32,
    cut: &'a Cut<'a, A>,
    labels: &'a Labels<A>,
    end_labels: EndLabels<'a>,
    taken: Vec<bool, A>,
    answers: Vec<Answer<A>, A>,
    picks: Picks<A>,
}

impl<'a, A: Allocator> Model for RoundBook<'a, A> {
    ghost use Rattle.round_core.specs.BookValue.{BookValue, IsBook};
    ghost use Rattle.std.specs.Prelude.{vec_capacity};

    ghost Value = { BookValue };

    ghost view = { λ s. record { round = s.round; cut = s.cut.now; labels = s.labels.now; taken = s.taken.items; answers = s.answers.items } };

    ghost invariant = { λ s. IsBook (record { round = s.round; cut = s.cut.now; labels = s.labels.now; taken = s.taken.items; answers = s.answers.items }) s.end_labels (vec_capacity s.answers) s.picks };
}

impl<'a, A: Allocator + Copy> RoundBook<'a, A> {
    /// Opens a book for the round of this number, with no answer yet. It fails only if it is out of memory.
    pub fn open(
        alloc: A,
        round: u32,
        cut: &'a Cut<'a, A>,
        labels: &'a Labels<A>,
    ) -> Result<Self, AllocError>
        requires ends { All (EndsUpTo (length labels.now)) cut.now }
        ensures opened { IfOk result (λ book. book ≡ opened round cut.now labels.now) }
    {
        RoundBook::open_over(Picks::empty(alloc), round, cut, labels)
    }

    /// Opens a book that reuses the memory of picks of which none is left, as
    /// [`Solver::step_in_place`](crate::Solver::step_in_place) leaves them. It writes no pick, and allocates memory for
    /// picks only if there are more labels. For each shard it allocates what `open` does. It reads the labels up to the
    /// first vertex that doesn't label itself; if there is none, no label is looked up later.
    pub fn open_over(
        picks: Picks<A>,
        round: u32,
        cut: &'a Cut<'a, A>,
        labels: &'a Labels<A>,
    ) -> Result<Self, AllocError>
        requires none { AreNoPicks picks }
        requires ends { All (EndsUpTo (length labels.now)) cut.now }
        ensures opened { IfOk result (λ book. book ≡ opened round cut.now labels.now) }
    {
        let alloc = picks.allocator();
        let shards = cut.len() as usize;
        let taken = vec![in alloc; false; shards]?;
        let answers = Vec::with_capacity(alloc, shards)?;
        let picks = picks.none_over(labels.n())?;
        Ok(RoundBook {
            round,
            cut,
            labels,
            end_labels: EndLabels::over(labels.as_slice()),
            taken,
            answers,
            picks,
        })
    }
}

impl<'a, A: Allocator> RoundBook<'a, A> {
    /// The number of the round.
    pub fn round(&self) -> u32
        ensures { result ≡ self.now.round }
    {
        self.round
    }

    /// The cut whose shards are asked about.
    pub fn cut(&self) -> &'a Cut<'a, A>
        ensures { result.now ≡ self.now.cut }
    {
        self.cut
    }

    /// The labels under which they are asked about.
    pub fn labels(&self) -> &'a Labels<A>
        ensures { result.now ≡ self.now.labels }
    {
        self.labels
    }

    /// The number of shards of the cut.
    pub fn len(&self) -> u32
        ensures shards { result ≡ length self.now.cut }
        ensures each { length self.now.taken ≡ length self.now.cut }
        ensures few { result ≤ MAX_SHARDS }
    {
        self.taken.len() as u32
    }

    /// Whether no answer for the shard was taken yet.
    pub fn is_missing(&self, shard: u32) -> bool
        requires { shard < length self.now.cut }
        ensures { result ≡ not (is_taken self.now shard) }
    {
        !self.taken[shard as usize]
    }

    /// How many shards have no answer yet.
    pub fn missing(&self) -> usize
        ensures { result ≡ missing self.now }
    {
        self.taken.len() - self.answers.len()
    }

    /// Checks whether an answer to an ask about the shard would be taken, and otherwise returns why not. It reads each
    /// offer once.
    pub fn judge(&self, shard: u32, answer: &Answer<A>) -> Result<(), Refusal>
        requires { shard < length self.now.cut }
        ensures allowed { OnOk result (refusal self.now shard answer.now ≡ None) }
        ensures refused { IfErr result (λ cause. refusal self.now shard answer.now ≡ Some cause) }
    {
        if answer.round != self.round {
            return Err(Refusal::Stale);
        }
        if answer.shard != shard {
            return Err(Refusal::Stranger);
        }
        if self.taken[shard as usize] {
            return Err(Refusal::Double);
        }
        let links = self.cut.shard(shard).links;
        if !are_offers(links, &self.end_labels, answer.offers.pairs()) {
            return Err(Refusal::NotALink);
        }
        Ok(())
    }

    /// Takes an answer to an ask about the shard. If `judge` rejects it, it is dropped, and the book stays as it was.
    /// It allocates nothing.
    pub fn take(&mut self, shard: u32, answer: Answer<A>) -> Result<(), Refusal>
        requires { shard < length self.old.cut }
        ensures allowed { OnOk result (refusal self.old shard answer ≡ None) }
        ensures refused { IfErr result (λ cause. refusal self.old shard answer ≡ Some cause) }
        ensures took { OnOk result (self.new ≡ with_answer self.old answer) }
        ensures same { OnErr result (self.new ≡ self.old) }
    {
        self.judge(shard, &answer)?;
        self.take_allowed(answer);
        Ok(())
    }

    /// Takes an answer that `judge` accepted for the shard that it names. It reads no offer, and allocates nothing.
    pub fn take_allowed(&mut self, answer: Answer<A>)
        requires allowed { refusal self.old answer.shard answer ≡ None }
        ensures took { self.new ≡ with_answer self.old answer }
    {
        self.taken[answer.shard as usize] = true;
        self.answers.push_reserved(answer);
    }

    /// Returns the picks of the round after each shard has an answer: for each label, the least of all offered links
    /// that leave it. It reads each offer once, and allocates nothing.
    pub fn close(self) -> Picks<A>
        requires { missing self ≡ 0 }
        ensures picks { ArePicks self.entry.labels (IsNamed (hearings self.entry)) result }
        ensures value { IsBookValue self.entry }
    {
        let RoundBook {
            cut,
            end_labels,
            answers,
            picks,
            ..
        } = self;
        let mut numbers = picks.into_numbers();
        count_answers(cut, &end_labels, answers.as_slice(), numbers.as_mut_slice());
        Picks::of_numbers(numbers)
    }
}

impl<'a, A: Allocator + Copy + Send + Sync> RoundBook<'a, A> {
    /// Returns the same picks as `close`. Several threads count them if there are at least 16,384 offers.
    ///
    /// Each thread takes the offers for a part of the components. Then all offers are read once more: if answers are
    /// light, no offered link is less than the pick of its other component. If one is less, all offers are counted
    /// again, as in `close`. It allocates nothing. If no thread can be started, the caller's thread does all of it.
    pub fn close_par<R: Threads + Sync>(self, rt: &R) -> Picks<A>
        requires { missing self ≡ 0 }
        ensures picks { ArePicks self.entry.labels (IsNamed (hearings self.entry)) result }
        ensures value { IsBookValue self.entry }
    {
        let RoundBook {
            cut,
            end_labels,
            answers,
            picks,
            ..
        } = self;
        let mut numbers = picks.into_numbers();
        count_by_threads(
            rt,
            cut,
            &end_labels,
            answers.as_slice(),
            numbers.as_mut_slice(),
        );
        Picks::of_numbers(numbers)
    }
}

// Whether each pair has the index of a link with exactly one endpoint under the label.
fn are_offers(links: &[Link], labels: &EndLabels, pairs: &[(u32, u32)]) -> bool
    requires labels { AreLabels labels.now }
    requires ends { EndsUpTo (length labels.now) links.now }
    ensures { result ≡ list_all (is_offer links.now labels.now) pairs.now }
{
    for pair in pairs {
        if !is_offered(links, labels, *pair) {
            return false;
        }
    }
    true
}

#[inline]
fn is_offered(links: &[Link], labels: &EndLabels, pair: (u32, u32)) -> bool
    requires labels { AreLabels labels.now }
    requires ends { EndsUpTo (length labels.now) links.now }
    ensures { result ≡ is_offer links.now labels.now pair }
{
    let place = pair.1 as usize;
    place < links.len() && leaves(labels, links[place], pair.0)
}

#[inline]
fn leaves(labels: &EndLabels, link: Link, label: u32) -> bool
    requires ends { link.high ≤ length labels.now }
    ensures { result ≡ is_leaving labels.now label link }
{
    (labels.of(link.low) == label) != (labels.of(link.high) == label)
}
