//! The numbers themselves, each as a clause of a function that does nothing.
ghost use Rattle.std.specs.Prelude.{◌≡◌, ◌-◌, ◌^◌, pos, neg_ℤ};

use crate::{
    MAX_ARCS, MAX_BYTES, MAX_SHARD_LINKS, MAX_SHARDS, MAX_VERTICES, MAX_WEIGHT, MAX_WORKERS,
    MIN_WEIGHT,
};

/// Each limit is equal to the number in its clause.
pub fn limits_are_these_numbers()
    ensures vertices { MAX_VERTICES ≡ 2 ^ 26 }
    ensures arcs { MAX_ARCS ≡ 2 ^ 30 }
    ensures bytes { MAX_BYTES ≡ 2 ^ 40 }
    ensures shards { MAX_SHARDS ≡ 4096 }
    ensures shard_links { MAX_SHARD_LINKS ≡ 2 ^ 24 }
    ensures workers { MAX_WORKERS ≡ 64 }
    ensures least_weight { MIN_WEIGHT ≡ neg_ℤ (pos (2 ^ 63)) }
    ensures greatest_weight { MAX_WEIGHT ≡ pos (2 ^ 63 - 1) }
{}
