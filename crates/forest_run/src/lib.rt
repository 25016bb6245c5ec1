//! A whole run over lines to workers, from the bytes of a `.gr` file to the text of its minimum spanning forest.
//!
//! A run goes in rounds. Ferries, one for each open port, ask for light offers in threads of their own (no contract
//! says so). Runs without workers are re-exported from `plain_run`, and rounds over any ports from `port_rounds`.
//!
//! ```text
//!     run_lines      read (gr_text), cut, a wire and a lane per line (wires), solve (port_rounds), write (gr_text)
//! ```
//!
//! What it promises:
//! - A run that succeeds has read a whole file that describes a graph, and written exactly the text of a forest of its
//!   links. If a file is malformed and no read fails, the run returns the file's first error, or memory runs out.
//!   After any other error, a prefix of such a text was written.
//! - Over lines that carry their workers' sessions, the forest is the minimum one; over any lines, it spans.
//! - A new line with known bytes is given up only for an error that fits these and its counts, or for an answer that
//!   the round's book rejects.
//!
//! Where to make a change:
//! - `specs/LinesRun` says what a run over lines finds and reports, `specs/WiredLines` what lines were asked and
//!   answered, and `specs/Cuttings` how links are split.
//! - What a run does to its streams is in `plain_run`, and what rounds do to ports in `port_rounds`.
#![tactic(auto)]

mod cutting;
mod lines;

pub use cutting::Cutting;
pub use lines::run_lines;
pub use plain_run::{LINE_ROOM, Report, RunFault, plain_text, run_plain, run_threads};
pub use port_rounds::{Lane, solve};
