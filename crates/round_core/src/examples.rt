//! Each law of a solver applied to a triangle whose three links have the same weight.

ghost use Rattle.round_core.specs.Examples.{TriangleBeforeRounds, FirstStepIsRound, FirstStepIsInTime, SecondStepIsLast, TriangleMissesNone, TwoSidesAreItsForest};

use crate::laws;

/// A solver of three separate vertices is before its first round.
pub fn start_of_triangle()
    ensures { TriangleBeforeRounds }
{
    laws::start_is_before_rounds();
}

/// Its first step takes two links, which is a round. Its second step finds no link to take.
pub fn rounds_of_triangle()
    ensures first { FirstStepIsRound }
    ensures in_time { FirstStepIsInTime }
    ensures last { SecondStepIsLast }
{
    laws::start_is_before_rounds();
    laws::step_by_least_is_round();
}

/// After that no link of the triangle is missed, and the two links that were taken are its forest.
pub fn end_of_triangle()
    ensures none_missed { TriangleMissesNone }
    ensures forest { TwoSidesAreItsForest }
{
    rounds_of_triangle();
    laws::rounds_end_with_forest();
}
