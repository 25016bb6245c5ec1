//! The rule that the words of a board obey, and what each kind of step shows to the seat that makes it.
use crate::event::Event;
use atomic_table::{Join, Play, Shared, Split, TableRule};
use std::collections::LinkedList;

#[derive(Clone, Copy)]
pub struct Size {
    pub shards: u32,
    pub seats: u32,
}

/// What a token shows: the events of each number, beginning at `first`. No value of this type is ever made.
pub struct View {
    pub size: Size,
    pub first: u32,
    pub lists: LinkedList<LinkedList<Event>>,
}

/// Between any two atomic steps, some run of the machine leaves the words as they are.
pub struct Ruled;

impl TableRule<(), View, Size> for Ruled {
    ghost use Rattle.claim_board.specs.Rule.{AgreesWithRun, opener};

    ghost holds = { λ size s. AgreesWithRun size s.words s.views };

    ghost first = { opener };
}

/// Exchanges a word from 0 to the seat's number plus 1.
pub struct Claims;

impl Play<(), View> for Claims {
    ghost use Rattle.claim_board.specs.Rule.{Claimed};

    ghost then = { Claimed };
}

/// Exchanges a word from the seat's number plus 1 to 0.
pub struct GivesBack;

impl Play<(), View> for GivesBack {
    ghost use Rattle.claim_board.specs.Rule.{GivenBack};

    ghost then = { GivenBack };
}

/// Splits the first number off a view, or puts one before it.
pub struct OneNumber;

impl Split<View> for OneNumber {
    ghost use Rattle.claim_board.specs.Rule.{without_first, first_alone};

    ghost left = { without_first };

    ghost right = { first_alone };
}

impl Join<View> for OneNumber {
    ghost use Rattle.claim_board.specs.Rule.{with_before, nobody};

    ghost both = { with_before };

    ghost spent = { nobody };
}

/// The words of a board, in the form that threads share.
pub type Words = Shared<(), View, Size, Ruled>;

/// The token with which a step on the words is made. It takes no memory.
pub type Token = atomic_table::Seat<(), View>;
