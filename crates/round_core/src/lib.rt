//! The coordinator's side of a run. A book checks what workers answer in a round, and makes picks from it; a solver
//! merges components by these picks. [`solve_alone`] does all of it in one thread, over the whole cut.
//!
//! ```text
//!     cut, labels  --open-->  RoundBook  --take, once per shard-->  RoundBook  --close-->  Picks
//!     Picks  --step-->  Solver, with new labels for the next book  --finish, if nothing was picked-->  Forest
//! ```
//!
//! What it promises:
//! - A book takes one answer for each shard. It rejects an answer of another round, for another shard, for an answered
//!   shard, or with an offer that isn't a link leaving its component, in this order. It never rejects light offers in
//!   an answer of its round about a missing shard.
//! - A pick is the least link that was offered for a component, in any order and with any threads. If all offers are
//!   light, it is the component's least link.
//! - Whatever was offered, a solver's links close no cycle, and its labels are the labelling by them. It finishes only
//!   if they span the cut. By the least links it makes exactly the merging rounds, and returns the forest.
//!
//! Where to make a change:
//! - `specs/BookValue` says what a book is and what it rejects, and `specs/Picks` what picks are.
//! - `specs/EndLabels` says in what the labels of endpoints are looked up, and `specs/OwnPicks` how offers are counted.
//! - `specs/Roots` says how a solver connects the components that are left, and `specs/Solver` what a round and the end
//!   are.
//! - `laws` connects these definitions to the theory.
//! - The code is in `book`, `end_labels`, `tally`, `own_picks`, `picks`, `hooks`, `roots`, `missed`, `solver` and
//!   `alone`.
#![tactic(auto)]

pub mod alone;
pub mod book;
mod end_labels;
pub mod examples;
pub mod hooks;
pub mod laws;
mod missed;
mod own_picks;
pub mod picks;
pub mod refusals;
mod roots;
pub mod solver;
pub mod tally;

pub use alone::solve_alone;
pub use book::RoundBook;
pub use hooks::hook_relabel;
pub use picks::Picks;
pub use refusals::Refusal;
pub use solver::{SolveFault, Solver, Turn};
