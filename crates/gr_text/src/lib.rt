//! Reads the `.gr` text of the 9th DIMACS Implementation Challenge as an undirected graph, and writes the text of a
//! forest. A reader is fed pieces of any lengths and doesn't store the text. In the code an edge is a `Link`.
//!
//! ```text
//! source --sourced--> pieces --reader--> bytes --partial_line/words or usual_line--> lines
//! lines --verdicts/lines_so_far--> graph
//! edges --keep, after each piece--> fewer edges that cover them
//! pieces --feeders--> whole arc lines --parallel, by threads--> parts --arc_lines--> edges
//! forest --spelled--> lines --writer--> 8 KiB --> sink
//! forest --spelled, by threads--> lines --parallel_writer--> parts of 8,192 lines --> sink
//! ```
//!
//! What it promises:
//! - If a text is valid, reading it returns the graph that it describes, whether it comes as a text, a source or
//!   pieces. If it is invalid, the error names the first invalid line and what is wrong with it ([`GrFault`]). A failed
//!   read, too long a text and out of memory have errors of their own ([`ReadFault`]).
//! - While a source is read, a keeper may replace the edges by fewer that cover them ([`Keep`]). Nothing else changes.
//! - The text of a forest is written byte for byte, or the error counts how many of its bytes were. This also holds if
//!   several threads write it.
//! - A text describes one graph or has one first error, and never both. The text of a forest describes exactly its
//!   edges ([`laws`]).
//!
//! To change what a line may contain, start with `specs/Statement`, then `words`. To change what is wrong with a line,
//! or which error comes first, start with `specs/Fault`, then `verdicts`. The limits of vertices, arc lines, bytes and
//! weights are in the crate `limits`; wider numbers also need `cap` in `specs/Word`, then `words` and `verdicts`.
//!
//! A byte goes into a `Word` (the current field), a field into `LineFields` (the fields of its line), and a line into
//! `LinesSoFar` (what the whole lines describe). If an arc line in its usual form lies whole in a piece, `usual_line`
//! reads it at once. Threads share only such lines (`feeders`); everything else is read in the order of the text.
#![tactic(auto)]

mod arc_lines;
mod faults;
mod feeders;
mod graphs;
mod keep;
pub mod laws;
mod lines_so_far;
mod parallel;
mod parallel_writer;
mod parsing;
mod partial_line;
mod reader;
mod sizes;
mod sourced;
mod spelled;
mod usual_line;
mod verdicts;
mod words;
mod writer;

/// Streams in memory that fail at a chosen byte, for tests of code that reads a graph or writes a forest.
pub use byte_streams::{FusedSink, FusedSource};
pub use faults::{FAULT_ROOM, GrFault, GrKind, ReadFault};
pub use graphs::Graph;
pub use keep::{Keep, KeepAll};
pub use limits::MAX_BYTES;
pub use parallel_writer::write_forest_par;
pub use parsing::parse;
pub use reader::GrReader;
pub use sourced::{
    read_graph, read_graph_kept, read_graph_kept_par, read_graph_par, read_graph_upto,
};
pub use writer::{WriteFault, write_forest};
