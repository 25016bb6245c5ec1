//! A worker's engine, which replies to asks about the shards that it stores, and a session over a stream of frames. The
//! crate `shard_scans` scans a shard; its functions are re-exported here.
//!
//! ```text
//!   Source --read_next--> NextFrame --Engine::hear_next--> reply --answer_head, put_offers, fault_bytes, put--> Sink
//!                                            |
//!                         KeptShard, Labels --KeptShard::offers_par--> Offers
//! ```
//!
//! What it promises:
//! - [`Engine::hear`], or [`Engine::hear_par`] by threads, stores a shard, which replaces an earlier one of its number,
//!   and replies to an ask by what is stored. It changes nothing at another frame, or if it is out of memory.
//! - [`serve`] writes what a session of [`frames::VERSION`] owes for the frames of a stream, or a prefix of that if it
//!   ends early. A longer stream owes no other beginning, in any version ([`worker_replies::laws`]).
//!
//! Where to make a change:
//! - What may be written for a whole stream is in `worker_replies`.
//! - What is stored, and which links are live, is in `specs/Shelves`, and how a session ends is in `specs/Served`.
//! - `engine` stores and replies, and `session` reads and writes.
#![tactic(auto)]

mod engine;
mod session;

pub use engine::{Engine, NO_LABEL, NO_MEMORY, NOT_KEPT};
pub use session::{ServeFault, Served, serve, serve_upto};
pub use shard_scans::{Scanner, scan, scan_par};
