ghost use Rattle.std.specs.Prelude.{◌≡◌};
ghost use Rattle.claim_board.specs.State.{owner_in};

use atomic_table::Closed;
use std::alloc::Allocator;
use std::marker::Model;

/// The owner of each shard when the board was closed. It keeps the memory of the board's words until it is dropped.
pub struct Owners<A: Allocator> {
    pub(crate) closed: Closed<(), A>,
    pub(crate) shards: u32,
}

impl<A: Allocator> Model for Owners<A> {
    ghost use Rattle.std.specs.Prelude.{ℕ, List, Option};
    ghost use Rattle.std.specs.Mem.Slots.{slots_items, slots_len, IsFull};
    ghost use Rattle.claim_board.specs.Kept.{owners_of, IsClosed};

    ghost Value = { List (Option ℕ) };

    ghost view = { λ o. owners_of (slots_items o.closed.words) };

    ghost invariant = { λ o. IsFull o.closed.words × IsClosed (slots_items o.closed.words) (slots_len o.closed.words) (slots_len o.closed.slots) o.shards };
}

impl<A: Allocator> Owners<A> {
    /// Returns the number of the seat that owned the shard, and `None` if nobody did or the board has no such shard.
    pub fn of(&self, shard: u32) -> Option<u32>
        ensures { result ≡ owner_in self.now shard }
    {
        if shard >= self.shards {
            return None;
        }
        let word = self.closed.word(shard as usize);
        if word == 0 {
            None
        } else {
            Some((word - 1) as u32)
        }
    }
}

impl<A: Allocator> Drop for Owners<A> {
    fn drop(self) {
        let Owners { closed, shards: _ } = self;
        closed.free();
    }
}
