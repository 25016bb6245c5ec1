//! How one token is split into the seats of a board, and how the seats become one token again. Each call splits off or
//! joins one seat.
ghost use Rattle.std.specs.Prelude.{◌≡◌, ◌+◌, ◌<◌, ◌≤◌, [], ◌++◌, All, length, map, replicate, vec_capacity};
ghost use Rattle.claim_board.specs.State.{SeatState, InOrder};
ghost use Rattle.claim_board.specs.Rule.{several};
ghost use Rattle.claim_board.specs.Kept.{board_state, IsInRange, InOrderAt};

use crate::rule::{OneNumber, Token, Words};
use crate::seat::Seat;
use std::alloc::Allocator;

/// Appends `count` seats. The token `rest` has their numbers.
pub fn deal<A: Allocator>(words: &Words, mut rest: Token, count: u32, seats: &mut Vec<Seat, A>)
    requires table { (rest.table_id ≡ words.now.table_id) × (0 < words.now.table_id.words) }
    requires some { 0 < count }
    requires view { rest.me ≡ (several rest.me.0.size (length seats.old.items) (replicate count []), []) }
    requires range { IsInRange rest.me.0.size }
    requires count { length seats.old.items + count ≡ rest.me.0.size.seats }
    requires room { length seats.old.items + count ≤ vec_capacity seats.old }
    requires in_order { InOrder (board_state rest.table_id rest.me.0.size) seats.old.items }
    requires fresh { All (λ (seat : SeatState). seat.events ≡ []) seats.old.items }
    ensures all { length seats.new.items ≡ rest.me.0.size.seats }
    ensures in_order { InOrder (board_state rest.table_id rest.me.0.size) seats.new.items }
    ensures fresh { All (λ (seat : SeatState). seat.events ≡ []) seats.new.items }
{
    let number = seats.len() as u32;
    if count == 1 {
        seats.push_reserved(Seat::fresh(rest, number));
    } else {
        let token = words.split_seat::<OneNumber>(&mut rest);
        seats.push_reserved(Seat::fresh(token, number));
        deal(words, rest, count - 1, seats);
    }
}

/// Joins the seats to `kept`, the last seat first. `kept` has the numbers that come after theirs.
pub fn gather<A: Allocator>(words: &Words, kept: &mut Token, seats: &mut Vec<Seat, A>)
    requires table { (kept.old.table_id ≡ words.now.table_id) × (0 < words.now.table_id.words) }
    requires view { kept.old.me ≡ (several kept.old.me.0.size (length seats.old.items) kept.old.me.0.lists, []) }
    requires in_order { InOrderAt words.now.table_id seats.old.items }
    ensures table { kept.new.table_id ≡ kept.old.table_id }
    ensures view { kept.new.me ≡ (several kept.new.me.0.size 0 (map (λ (seat : SeatState). seat.events) seats.old.items ++ kept.old.me.0.lists), []) }
{
    if let Some(seat) = seats.pop() {
        words.join_seat::<OneNumber>(kept, seat.into_token());
        gather(words, kept, seats);
    }
}
