//! Tests of what can fail. Each call that may allocate is made with each of its allocations failing in turn, by itself
//! and with all that follow. Runs and sessions read from sources, and write into sinks, that fail at each byte.
//! `worked_streams` tests the search for failed allocations itself.
//!
//! ```text
//!   in_turn           the searches, and how a call may end
//!   same              compares a result with what is expected
//!   lists             labels, cuts, forests
//!   texts             files that are read whole, in pieces and from a source; sinks that are made
//!   frame_texts       frames that are read and written
//!   workers           scans, the frames that a worker gets, its sessions
//!   asks_again        sessions with many asks
//!   wire_asks         a worker in memory, and asks over a wire to it
//!   rounds            the board of claims, the book of a round, the solver
//!   lanes             rounds over lanes to workers
//!   runs              whole runs
//!   joined_files      several files that are joined
//!   kept_runs         whole runs that drop links while they read
//!   lost_lines        whole runs that continue without a worker that is out of memory
//!   goes_on           sessions after an ask without memory, rounds after a rejected answer
//!   by_threads        a forest's text, and a run, by threads
//!   devices           a reader and a writer of std, with each kind of failure
//!   streams           a source and a sink, one of which fails at a byte
//!   files, sessions   such streams, at each byte: of a run, and of a worker's session
//! ```
//!
//! To test another call that allocates, add to the file of its subject, with the ways in which the call may end. The
//! head of `worked_examples` explains what a test is for, and which crate has the tests of other subjects.
#![tactic(auto)]

#[cfg(test)]
mod tests;
