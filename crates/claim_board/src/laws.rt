//! Laws of the board's machine, for all of its runs. A caller that needs a law calls its function, which does nothing.
ghost use Rattle.claim_board.specs.Laws.{OwnerIsHolder, HeldByOneSeat, HeldOnce, NoOtherEvents, HandedOn};

/// In every run, the owner of a shard is the seat whose list has the shard.
pub fn owner_is_holder()
    ensures { OwnerIsHolder }
{}

/// In no run is a shard in the lists of two seats.
pub fn held_by_one_seat()
    ensures { HeldByOneSeat }
{}

/// In no run is a shard in a seat's list twice.
pub fn held_once()
    ensures { HeldOnce }
{}

/// Between any two steps each event of the run is one that some seat's token knows of: no event has a number that no
/// token was made for.
pub fn no_other_events()
    ensures { NoOtherEvents }
{}

/// A worked example: a shard goes from seat 0 to seat 1, and in between both seats fail to claim it.
pub fn handed_on()
    ensures { HandedOn }
{}
