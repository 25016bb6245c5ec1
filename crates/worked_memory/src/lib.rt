//! Tests of memory: the most bytes that a call uses at one time, not counting its arguments. The bounds are those that
//! the documentation of the call names per vertex, link, offer, shard or seat. The inputs are small and large.
//!
//! ```text
//!   bytes             lists, solvers by one thread, and readers
//!   bytes_of_rounds   the steps and the end of a solver, books, boards, scans by threads
//!   bytes_of_workers  scans, frames, engines and wires
//!   same              compares a result with what is expected
//! ```
//!
//! To test a call whose documentation names bytes, add a row to the file of its subject. The head of `worked_examples`
//! explains what a test is for, and which crate has the tests of other subjects.
#![tactic(auto)]

#[cfg(test)]
mod tests;
