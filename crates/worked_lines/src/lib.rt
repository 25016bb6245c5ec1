//! Tests of whole runs over lines to workers, from a file's bytes to those of its forest. Each is a test that needs
//! only public calls.
//!
//! ```text
//!   in_memory       engines in memory, and a run over them: the premise of the promise over lines can be met
//!   runs            a run into memory, and what is checked for each run: the calls that the other tests make
//!   same            compares a result with what is expected
//!   served          the example graphs over no line, one, two, and the most that are allowed
//!   stopping        lines that stop after some bytes or calls
//!   scripts         stored bytes instead of a worker: answers that are rejected, and answers that lie
//!   refusals        cuts that aren't allowed, sinks that stop, files that aren't read
//!   gates           lines that answer only after another got an ask
//!   drawn           random graphs, cuts and lines, compared with the run by one thread
//!   sizes           a run larger than every internal buffer, and one of many links between few vertices
//! ```
//!
//! To test something else that a run over lines promises, add to the file of its subject. The head of `worked_examples`
//! explains what a test is for, and which crate has the tests of other subjects.
#![tactic(auto)]

mod in_memory;

pub use in_memory::text_over_workers;

#[cfg(test)]
mod tests;
