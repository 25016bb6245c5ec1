//! Measures the steps of a run with one thread. The program reads a `.gr` text from standard input, finds the forest,
//! and writes its text to standard output, as `boruvka --plain` does. It prints to standard error how many microseconds
//! each step took.
//!
//! ```text
//!   stdin ──► read_graph ──► forest_of ──► write_forest ──► stdout
//! ```
//!
//! It promises nothing about times. `make test` compares its output.
//!
//! To measure another step, change this file, and `benches/run.py` and `benches/marks.py`, which read the three times.
#![tactic(auto)]

use byte_streams::Uncounted;
use gr_text::{read_graph, write_forest};
use link_key::forest_of;
use std::time::Instant;

fn main(rt: HostRuntime) -> anyhow::Result<()> {
    let start = Instant::now(&rt)?;
    let graph = read_graph(rt.alloc(), &mut Uncounted(rt.stdin()))?;
    let read = start.elapsed(&rt)?;

    let n = graph.n();
    let start = Instant::now(&rt)?;
    let forest = forest_of(rt.alloc(), n, graph.into_links())?;
    let solved = start.elapsed(&rt)?;

    let start = Instant::now(&rt)?;
    write_forest(&mut Uncounted(rt.stdout()), n, &forest)?;
    let written = start.elapsed(&rt)?;

    eprintln!(&rt;
        "read {} solve {} write {}",
        read.as_micros(),
        solved.as_micros(),
        written.as_micros()
    )?;
    Ok(())
}
