//! A set of shards, with one bit per shard. No call allocates memory.
//!
//! ```text
//!   shard 70 ──► word 70 / 64 = 1, bit 70 % 64 = 6
//!
//!   [ word 0 | word 1 | word 2 | .. | word 63 ]
//! ```
ghost use Rattle.std.specs.Prelude.{◌≡◌, ℕ, ◌<◌, ◌==◌, ◌&&◌, ◌||◌, not, false};
ghost use Rattle.claim_board.specs.Shards.{has_shard};

use limits::MAX_SHARDS;
use std::marker::Model;

const WORDS: usize = MAX_SHARDS / 64;

/// A set of shards below `MAX_SHARDS`. It takes 512 bytes. Every call but `empty` takes constant time.
#[derive(Drop)]
pub struct ShardSet {
    bits: [u64; WORDS],
}

impl Model for ShardSet {
    ghost use Rattle.std.specs.Prelude.{ℕ, List};

    ghost Value = { List ℕ };

    ghost view = { λ s. s.bits };
}

impl ShardSet {
    /// Returns the empty set.
    pub fn empty() -> ShardSet
        ensures { (shard : ℕ) → has_shard result shard ≡ false }
    {
        ShardSet { bits: [0; WORDS] }
    }

    /// Returns whether the shard is in the set. No set has a shard of `MAX_SHARDS` or above.
    pub fn has(&self, shard: u32) -> bool
        ensures { result ≡ has_shard self.now shard }
    {
        match self.bits.get((shard / 64) as usize) {
            Some(word) => word >> (shard % 64) & 1 == 1,
            None => false,
        }
    }

    /// Puts the shard into the set. The shard may already be in it.
    pub fn insert(&mut self, shard: u32)
        requires { shard < MAX_SHARDS }
        ensures { (s : ℕ) → has_shard self.new s ≡ (s == shard || has_shard self.old s) }
    {
        self.bits[(shard / 64) as usize] |= 1 << (shard % 64);
    }

    /// Removes the shard from the set, if it is there.
    pub fn remove(&mut self, shard: u32)
        requires { shard < MAX_SHARDS }
        ensures { (s : ℕ) → has_shard self.new s ≡ (not (s == shard) && has_shard self.old s) }
    {
        self.bits[(shard / 64) as usize] &= !(1 << (shard % 64));
    }
}
