//! The board: a table that its seats share, with a word for each shard.
ghost use Rattle.std.specs.Prelude.{◌≡◌, ◌≢◌, ℕ, ◌<◌, ◌≤◌, ◌==◌, ◌↔◌, not, List, [], ◌∷◌, ◌++◌, length, filter, All, AllPairs, Contains, IfOk, IfErr, IsOk};
ghost use Rattle.limits.specs.declared.TheConstants.{MAX_WORKERS};
ghost use Rattle.claim_board.specs.Machine.{held};
ghost use Rattle.claim_board.specs.State.{OnWon, IfHeld, AreSeats, IsUnusedSeat, all_held, IsHeldBy, owner_in, CameFromRun};
ghost use Rattle.claim_board.specs.Rule.{opener};
ghost use Rattle.claim_board.specs.Kept.{IsInRange};
ghost use Rattle.claim_board.specs.declared.claim.Claim.TheVariants.{Held};
ghost use Rattle.claim_board.specs.declared.event.Event.TheVariants.{Win, Turned, GiveBack};
ghost use Rattle.claim_board.specs.declared.fault.BoardFault.TheVariants.{Memory};

use crate::claim::Claim;
use crate::fault::BoardFault;
use crate::owners::Owners;
use crate::rule::{Claims, GivesBack, Ruled, Size, Token, View};
use crate::seat::Seat;
use crate::seating::{deal, gather};
use atomic_table::Table;
use limits::MAX_SHARDS;
use std::alloc::{AllocError, Allocator};
use std::marker::Model;

/// One atomic word per shard, which says who owns the shard. It is `Sync`: threads share it by reference, and each
/// thread has a seat of its own.
#[derive(Drop)]
pub struct Board<A: Allocator> {
    table: Table<(), View, Size, Ruled, A>,
}

impl<A: Allocator> Model for Board<A> {
    ghost use Rattle.claim_board.specs.State.{BoardState};
    ghost use Rattle.claim_board.specs.Kept.{board_state, IsBoard};

    ghost Value = { BoardState };

    ghost view = { λ b. board_state b.table.shared.table_id b.table.shared.key };

    ghost invariant = { λ b. IsBoard b.table.shared.table_id b.table.shared.key };
}

fn free_words<A: Allocator>(
    alloc: A,
    size: &Size,
) -> Result<(Table<(), View, Size, Ruled, A>, Token), AllocError>
    requires { IsInRange size.now }
    ensures table { IfOk result (λ t. (t.0.shared.table_id.words ≡ size.now.shards) × (t.0.shared.table_id.slots ≡ 0) × (t.0.shared.key ≡ size.now)) }
    ensures token { IfOk result (λ t. (t.1.table_id ≡ t.0.shared.table_id) × (t.1.me ≡ (opener size.now, []))) }
{
    let zeros = [0; MAX_SHARDS];
    Table::of_words(alloc, &zeros[..size.shards as usize], size)
}

impl<A: Allocator + Copy> Board<A> {
    /// Returns a board on which all shards are free, and its seats in order of their numbers, which begin at 0.
    ///
    /// The only error is `Memory`, if the list of seats or the table of words can't be allocated. The board takes 8
    /// bytes per shard and 520 bytes per seat. The call makes one step on a word for each seat but the last.
    pub fn open(alloc: A, shards: u32, seats: u32) -> Result<(Board<A>, Vec<Seat, A>), BoardFault>
        requires shards { (0 < shards) × (shards ≤ MAX_SHARDS) }
        requires seats { (0 < seats) × (seats ≤ MAX_WORKERS) }
        ensures size { IfOk result (λ r. (r.0.shards ≡ shards) × (r.0.seats ≡ seats)) }
        ensures seats { IfOk result (λ r. AreSeats r.0 r.1.items) }
        ensures fresh { IfOk result (λ r. All (IsUnusedSeat r.0) r.1.items) }
        ensures fault { IfErr result (λ fault. fault ≡ Memory) }
    {
        let Ok(mut row) = Vec::with_capacity(alloc, seats as usize) else {
            return Err(BoardFault::Memory);
        };
        let Ok((table, opener)) = free_words(alloc, &Size { shards, seats }) else {
            return Err(BoardFault::Memory);
        };
        deal(&table.shared, opener, seats, &mut row);
        Ok((Board { table }, row))
    }
}

impl<A: Allocator> Board<A> {
    /// Takes the shard if it is free, by one `compare_exchange`. The call never waits and allocates nothing.
    ///
    /// `Held` names the seat that owned the shard at that step. By the time the call returns, that seat may have given
    /// it back.
    pub fn claim(&self, seat: &mut Seat, shard: u32) -> Claim
        requires seat { seat.old.board ≡ self.now }
        requires shard { shard < self.now.shards }
        ensures same { (seat.new.board ≡ seat.old.board) × (seat.new.number ≡ seat.old.number) }
        ensures won { OnWon result (seat.new.events ≡ seat.old.events ++ Win seat.old.number shard ∷ []) }
        ensures was_free { OnWon result (¬ Contains (held seat.old.events) shard) }
        ensures list { OnWon result (held seat.new.events ≡ held seat.old.events ++ shard ∷ []) }
        ensures turned { IfHeld result (λ by. seat.new.events ≡ seat.old.events ++ Turned seat.old.number shard by ∷ []) }
        ensures list_kept { IfHeld result (λ _. held seat.new.events ≡ held seat.old.events) }
        ensures by { IfHeld result (λ by. by < self.now.seats) }
        ensures own { (result ≡ Held seat.old.number) ↔ Contains (held seat.old.events) shard }
    {
        let mine = u64::from(seat.number) + 1;
        let shared = &self.table.shared;
        let found = shared.compare_exchange::<Claims>(&mut seat.token, shard as usize, 0, mine);
        if found == 0 {
            seat.shards.insert(shard);
            Claim::Won
        } else {
            Claim::Held((found - 1) as u32)
        }
    }

    /// Frees a shard that the seat owns, by one `compare_exchange`. The call never waits and allocates nothing. If the
    /// shard is the last one that the seat won, the seat's list is then as it was before that claim.
    pub fn give_back(&self, seat: &mut Seat, shard: u32)
        requires seat { seat.old.board ≡ self.now }
        requires shard { shard < self.now.shards }
        requires held { Contains (held seat.old.events) shard }
        ensures same { (seat.new.board ≡ seat.old.board) × (seat.new.number ≡ seat.old.number) }
        ensures given_back { seat.new.events ≡ seat.old.events ++ GiveBack seat.old.number shard ∷ [] }
        ensures list { held seat.new.events ≡ filter (λ s. not (s == shard)) (held seat.old.events) }
        ensures undone { (before : List ℕ) → ¬ Contains before shard → held seat.old.events ≡ before ++ shard ∷ [] → held seat.new.events ≡ before }
    {
        let mine = u64::from(seat.number) + 1;
        let shared = &self.table.shared;
        shared.compare_exchange::<GivesBack>(&mut seat.token, shard as usize, mine, 0);
        seat.shards.remove(shard);
    }

    /// Closes the board and returns who owns each shard. `seats` must be all seats of the board, in the order in which
    /// `open` returned them. No shard is in the lists of two of these seats.
    ///
    /// The call allocates nothing and always returns `Ok`, since the result reuses the memory of the board's words. It
    /// frees the list of seats, and makes one step on a word for each seat but the last.
    pub fn close(self, mut seats: Vec<Seat, A>) -> Result<Owners<A>, BoardFault>
        requires seats { AreSeats self seats.items }
        ensures ok { IsOk result }
        ensures shards { IfOk result (λ owners. length owners ≡ self.shards) }
        ensures owners { IfOk result (λ owners. (shard number : ℕ) → (owner_in owners shard ≡ Some number) ↔ IsHeldBy seats.items number shard) }
        ensures run { IfOk result (λ owners. CameFromRun seats.items owners) }
        ensures apart { AllPairs (λ a b. a ≢ b) (all_held seats.items) }
    {
        let Board { table } = self;
        let Some(last) = seats.pop() else {
            unreachable!()
        };
        let mut kept = last.into_token();
        gather(&table.shared, &mut kept, &mut seats);
        let shards = table.word_count() as u32;
        Ok(Owners {
            closed: table.close_with(kept),
            shards,
        })
    }
}
