//! Runs without workers, from the bytes of a `.gr` file to the text of its minimum spanning forest, with one thread or
//! with several. It also has the report and the errors of every run. In the code an edge is a `Link`.
//!
//! ```text
//!     Source --read_graph_kept--> Graph --keep_forest--> Forest --write_forest--> Sink   run_plain
//!     Source ----------- the same steps, each by several threads ----------------> Sink   run_threads
//!     bytes  ------------------------- the same, in memory ----------------------> Vec    plain_text
//!     Sources --Parts::add, one after the other--> Parts --Parts::write----------> Sink
//! ```
//!
//! While a file is read, edges that repeat the one before them are dropped (`links::repeats`). If the file has many
//! arcs, a long list of edges is reduced to its forest, which covers it (`keeper`). If many more come, those that the
//! forest's light edges make unnecessary aren't kept (`sieve`). So the number of vertices bounds the memory, and all
//! edges are counted.
//!
//! What it promises:
//! - A run that succeeds has read a whole valid file and written exactly the text of its graph's minimum spanning
//!   forest. If the file is invalid and no read fails, the run returns the file's first error, or memory runs out.
//!   After any other error, a prefix of that text was written.
//! - No spanning forest weighs less than the reported total. If the file is the text of a forest, the run writes the
//!   same text.
//! - Several files with the same number of vertices give the text of the forest of all their edges ([`Parts`]).
//!
//! To change what a file describes, start with `specs/Files`. To change what a run does to its streams, whatever finds
//! the forest, start with `Outcomes`; for what this run finds and reports, `PlainRun`. To change which edges may be
//! dropped, start with `Sieve`; for several files, `Parts`. The texts are in `FaultText` and `ReportText`. Runs with
//! workers use the same definitions, in `forest_run`. A `Crew` reads, solves and writes, with one thread or several.
#![tactic(auto)]

mod crew;
mod fault;
mod in_memory;
mod keeper;
mod parts;
mod plain;
mod report;
mod sieve;
mod spelling;

pub use crew::{Crew, ManyThreads, OneThread};
pub use fault::{PartFault, RunFault};
pub use in_memory::plain_text;
pub use parts::{MAX_FILES, Parts};
pub use plain::{run_plain, run_threads};
pub use report::Report;
pub use spelling::LINE_ROOM;
