ghost use Rattle.std.specs.Prelude.{◌≡◌, ◌<◌, ◌↔◌, [], IsTrue, Contains};
ghost use Rattle.claim_board.specs.Machine.{held};

use crate::rule::Token;
use crate::shard_set::ShardSet;
use std::marker::Model;

/// A seat of a board: it claims shards for the thread that has it. It is `Send`, so it can go to another thread by
/// value or by `&mut`. If a seat is dropped, its shards stay taken, and its board can't be closed any more.
#[derive(Drop)]
pub struct Seat {
    pub(crate) token: Token,
    pub(crate) number: u32,
    pub(crate) shards: ShardSet,
}

impl Model for Seat {
    ghost use Rattle.claim_board.specs.State.{SeatState};

    ghost Value = { SeatState };

    ghost use Rattle.claim_board.specs.Kept.{seat_state, IsSeat};

    ghost view = { λ s. seat_state s.token.table_id s.token.me.0 };

    ghost invariant = { λ s. IsSeat s.token.me s.number s.shards };
}

impl Seat {
    ghost use Rattle.claim_board.specs.State.{SeatState};
    ghost use Rattle.claim_board.specs.Rule.{lone};
    ghost use Rattle.claim_board.specs.Kept.{board_state, IsInRange, IsTokenOf};

    pub(crate) fn fresh(token: Token, number: u32) -> Seat
        requires view { token.me ≡ (lone token.me.0.size number [], []) }
        requires range { IsInRange token.me.0.size }
        requires of_board { number < token.me.0.size.seats }
        ensures { result ≡ record { board = board_state token.table_id token.me.0.size; number = number; events = [] } }
    {
        Seat {
            token,
            number,
            shards: ShardSet::empty(),
        }
    }

    pub(crate) fn into_token(self) -> Token
        ensures { IsTokenOf result.table_id result.me self }
    {
        let Seat {
            token,
            number: _,
            shards: _,
        } = self;
        token
    }

    /// Returns the seat's number on its board. Numbers begin at 0.
    pub fn number(&self) -> u32
        ensures number { result ≡ self.now.number }
        ensures of_board { result < self.now.board.seats }
    {
        self.number
    }

    /// Returns whether the seat owns the shard. No seat owns a shard that the board doesn't have.
    pub fn holds(&self, shard: u32) -> bool
        ensures { IsTrue result ↔ Contains (held self.now.events) shard }
    {
        self.shards.has(shard)
    }
}
