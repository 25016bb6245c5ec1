//! A board of shards that threads claim without a lock. Each thread claims shards through its own seat, and can give a
//! shard back. After all threads are done, the board is closed with all its seats, and names the owner of each shard.
//!
//! ```text
//!   thread 0      thread 1            each thread has a seat: a token of the table, its number,
//!   Seat 0        Seat 1              and its list as one bit for each shard
//!      \             /
//!    claim(3)   claim(3)              one compare_exchange each, and no lock
//!        \         /
//!   [ 0 | 2 | 0 | 1 | .. ]            Board: an atomic word for each shard, 0 or the owner's number plus 1
//! ```
//!
//! What it promises:
//! - For every interleaving of the seats' steps, one run of events leaves the words as they are. It has the events of
//!   each seat, in that seat's order, and no others.
//! - So no shard is ever in the lists of two seats. The contracts of `claim` and `give_back` say which event the seat
//!   gained, and that of `close` says which owners the run leaves. The other laws are in `laws`.
//! - It doesn't promise that a claim is ever won, which of two seats wins, or whose step comes first. The shards of a
//!   dropped seat stay taken.
//! - A [`ShardSet`] is a set of shards below `MAX_SHARDS`. `insert` and `remove` change whether their one shard is in
//!   it, and no other.
//!
//! To change what an event is and when it is allowed, see `event` and `specs/Machine`, then `specs/Rule`. For a new
//! kind of step, add its `Play` in `rule` and see `proofs/Steps`. What the contracts show of boards and seats is in
//! `specs/State`. The limits on seats and shards are in the crate `limits`. What the words of a set of shards mean is
//! in `specs/Shards`.
#![tactic(auto)]

mod board;
mod claim;
mod event;
mod fault;
pub mod laws;
mod owners;
mod rule;
mod seat;
mod seating;
mod shard_set;

pub use board::Board;
pub use claim::Claim;
pub use event::Event;
pub use fault::BoardFault;
pub use owners::Owners;
pub use seat::Seat;
pub use shard_set::ShardSet;
