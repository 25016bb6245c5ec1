//! Tests of rounds over workers. Each is a test that needs only public calls.
//!
//! ```text
//!   closing         books closed by several threads and by one
//!   passes          whole runs over lanes: two workers in memory, and none
//!   relabelling     components that picks merge, and the labels that follow
//!   rounds          which answers a book accepts, the order of answers, a book that several threads read
//!   same            compares a result with what is expected
//!   solving         a solver's steps, rounds past the bound, whole runs by one thread
//!   triangle        what the laws of rounds say about the triangle, by calls whose contracts state their premises
//!   wire_asks       asks of a worker over a line that stops, or over stored bytes instead of a worker; an engine's
//!                   line after its session has ended
//! ```
//!
//! Each call that may run out of memory is also made at its bounds: no vertex, one and two, no links, one shard and
//! 4,096. Cuts are at no position and at 4,095, and there are more than 14 rounds. A full shard of 16,777,216 links is
//! too large for a test here, and so is the greatest allowed number of vertices, 67,108,864.
//!
//! Rounds 21 to 26 that merge components need more than a million vertices. Here a test opens a book of such a round,
//! and tests/cases/workers.py has a run of 21 rounds.
//!
//! To test a public call of `ports` or `round_core`, add to the file of its subject. The head of `worked_examples`
//! explains what a test is for, and which crate has the tests of other subjects.
#![tactic(auto)]

#[cfg(test)]
mod tests;
