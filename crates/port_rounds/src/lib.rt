//! The rounds of a run, over ports of any kind. In each round the ports are asked about each shard until one answers,
//! and the solver makes the next labels from the answers. Ferries, one for each open port, ask in threads of their own
//! (no contract says so).
//!
//! ```text
//!     solve                rounds until one has no picks
//!      picks_of_round      a book, a whole round, the picks
//!       run_round          passes, then scan_missing
//!        pass              a ferry for each lane with an open port
//!          ask_shards      once around the shards
//!            claim_and_ask claim, ask, give back
//! ```
//!
//! What it promises:
//! - The forest spans the cut's links and closes no cycle, whatever the ports answer. If all ports are honest, it is
//!   the minimum spanning forest, after exactly the merging rounds, and a run fails only for lack of memory.
//! - Each ask brought an answer or closed a port, and each shard of each round was answered or scanned here.
//!
//! Where to make a change: `specs/Asks`, `Ferries`, `Passes`, `Rounds`, `Chains` and `Solved` go from a single ask to a
//! whole run; `Reports` says what a run counts.
#![tactic(auto)]

mod ferry;
mod lane;
mod pass;
mod report;
mod round;
mod run;
mod scans;
mod seats;
mod taking;

pub use lane::Lane;
pub use run::solve;
