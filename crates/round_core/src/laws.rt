//! What the definitions alone promise. Each law is the contract of a function that does nothing.
ghost use Rattle.round_core.specs.BookValue.{LightOffersAreTaken, FullBookHasAllLinks, FullBookIsLeast};
ghost use Rattle.round_core.specs.SolverLaws.{StartIsBeforeRounds, StepByLeastIsRound, StepByLeastIsInTime, NoneMissedWhereAllRounds, FinishedIsForest};

/// An honest answer about a missing shard is never rejected: each light offer names a link that leaves its component.
pub fn light_offers_are_taken()
    ensures { LightOffersAreTaken }
{}

/// If a book misses no shard, the shards that it has answers about have exactly the links of its cut. So if all answers
/// are light, its picks are the least links of the whole list that leave each component, whatever the cut.
pub fn full_book_is_least()
    ensures links { FullBookHasAllLinks }
    ensures least { FullBookIsLeast }
{}

/// A new solver is before the first round, whatever the list of links.
pub fn start_is_before_rounds()
    ensures { StartIsBeforeRounds }
{}

/// If the picks are the least links of a list that leave each component, a step is one more round over the list; or
/// there was nothing to pick, and all merging rounds are done. Such a step is never past the bound, so it fails only
/// for lack of memory.
pub fn step_by_least_is_round()
    ensures round { StepByLeastIsRound }
    ensures in_time { StepByLeastIsInTime }
{}

/// If all steps of a solver were rounds over a list, it misses no link of the list exactly if all merging rounds are
/// done. Then the links that it returns are the forest.
pub fn rounds_end_with_forest()
    ensures none_missed { NoneMissedWhereAllRounds }
    ensures forest { FinishedIsForest }
{}
