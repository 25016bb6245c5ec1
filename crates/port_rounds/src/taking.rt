//! Moves the answers that lanes kept into the book.
ghost use Rattle.std.specs.List.{AllZip};
ghost use Rattle.std.specs.Prelude.{◌≡◌, []};
ghost use Rattle.port_rounds.specs.Lanes.{kept_answers};
ghost use Rattle.port_rounds.specs.Seating.{LosesAnswers};
ghost use Rattle.port_rounds.specs.Taking.{with_answers, TakesAll};

use crate::lane::Lane;
use links::Answer;
use round_core::RoundBook;
use std::alloc::Allocator;

// Moves a list of kept answers into the book, in their order. The list keeps its memory.
#[tactic(auto, using(crate::proofs::Takes::popped))]
fn take_list<A: Allocator>(book: &mut RoundBook<A>, kept: &mut Vec<Answer<A>, A>)
    requires taken { TakesAll book.old kept.old.items }
    ensures value { book.new ≡ with_answers book.old kept.old.items }
    ensures none { kept.new.items ≡ [] }
{
    kept.reverse();
    while let Some(answer) = kept.pop() {
        book.take_allowed(answer);
    }
}

fn take_answers_of<A: Allocator, P>(book: &mut RoundBook<A>, lane: &mut Lane<P, A>)
    requires taken { TakesAll book.old lane.old.kept }
    ensures value { book.new ≡ with_answers book.old lane.old.kept }
    ensures lane { LosesAnswers lane.old lane.new }
{
    take_list(book, &mut lane.kept);
}

// Moves all lanes' kept answers into the book.
#[tactic(auto, using(crate::proofs::Eaches::each_cons))]
pub(crate) fn take_answers<A: Allocator, P>(book: &mut RoundBook<A>, lanes: &mut [Lane<P, A>])
    requires taken { TakesAll book.old (kept_answers lanes.old) }
    ensures value { book.new ≡ with_answers book.old (kept_answers lanes.old) }
    ensures lanes { AllZip LosesAnswers lanes.old lanes.new }
{
    if let Some((lane, rest)) = lanes.split_first_mut() {
        take_answers_of(book, lane);
        take_answers(book, rest);
    }
}
