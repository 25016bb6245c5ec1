//! The limits of this project. Code, contracts and definitions use each limit by its name: the definitions in `specs/`
//! import it from this crate's constants.
//!
//! ```text
//!   MAX_VERTICES, MAX_ARCS, .. ──► code: a check
//!                              ──► contracts: the clause that promises the check
//!                              ──► specs: by `TheConstants`
//! ```
//!
//! What it promises:
//! - Only the numbers, each by a clause of [`laws`].
//!
//! To change a limit, change it here and in its clause in `laws`. Every crate that uses the constant is then proved
//! again. `docs/GR_FORMAT.md` and `docs/PROTOCOL.md` also give the numbers.
#![tactic(auto)]

pub mod laws;

/// The largest number of vertices in a graph: 2^26.
pub const MAX_VERTICES: u32 = 1 << 26;

/// The largest number of arc lines in a file: 2^30.
pub const MAX_ARCS: u32 = 1 << 30;

/// The largest size of a file, in bytes: 2^40.
pub const MAX_BYTES: u64 = 1 << 40;

/// The largest number of shards that a list of links can be split into.
pub const MAX_SHARDS: usize = 4096;

/// The largest number of links in a shard: 2^24.
pub const MAX_SHARD_LINKS: usize = 1 << 24;

/// The largest number of workers in a run, and so of lines to workers.
pub const MAX_WORKERS: u32 = 64;

/// The least weight of a link: -2^63.
pub const MIN_WEIGHT: i64 = i64::MIN;

/// The greatest weight of a link: 2^63 - 1.
pub const MAX_WEIGHT: i64 = i64::MAX;
