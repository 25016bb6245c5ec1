//! Tests of files and forests. Each is a test that needs only public calls. `worked_streams`, `worked_regions`,
//! `worked_rounds`, `worked_runs`, `worked_lines`, `worked_sockets`, `worked_failures` and `worked_memory` have the
//! tests of other subjects, which docs/ARCHITECTURE.md lists.
//!
//! ```text
//!   lists           links of arcs, labels, offers, forests; the forests of the example graphs
//!   components      the components that a forest's links connect; cycles, which are rejected
//!   merges          the merges that links make, and what the laws of `link_merges` say about them
//!   forests_by_threads  the solver with threads, compared with a simple program, and its memory
//!   laws            what the laws of `links` say about forests, on a textbook's graph
//!   drawn_lists     the solver, compared with a simple program on random lists
//!   drawn_texts     random `.gr` texts, in pieces and byte by byte
//!   reading         `.gr` texts, their errors, pieces and limits
//!   keeping         files whose links are replaced while they are read
//!   reading_by_threads  files read by threads: random texts, each error, and failed allocations
//!   runs_by_threads     forests' texts and whole runs with threads
//!   kept_runs       runs over files with so many arcs that links are dropped while they are read
//!   joined_files    several files that describe one graph, to the text of its forest
//!   writing         forest texts, how a sink is called, and how much of a text was written
//!   plain_runs      a file, or a forest's own text, to its forest's text
//!   again           a forest's text, run again: the premise of that promise can be met
//!   totals          total weights of forests
//!   fault_texts     the text of each error, and of a report
//!   same            compares a result with what is expected
//!   sizes           each call with inputs around and above the size of every internal buffer
//!   memory_of_graphs    what a reader, and a forest of distinct links, allocate
//! ```
//!
//! A test shows a call on its happy path, with a value from outside. It also shows what no contract can see: printed
//! texts, which blocks are still allocated after a call, and that a call of any size succeeds with enough memory. And
//! it shows what a call does if a stream or an allocator fails.
//!
//! To test a new public call, add to the file of its subject. If the call may run out of memory, also add to `sizes` of
//! that crate. The example graphs are in `worked_graphs`.
#![tactic(auto)]

mod again;

pub use again::text_again;

#[cfg(test)]
mod tests;
