//! Runs with one thread or several, from the bytes of a file to the text of its forest.
ghost use Rattle.std.specs.Prelude.{◌≡◌};
ghost use Rattle.plain_run.specs.Outcomes.{known};
ghost use Rattle.plain_run.specs.PlainRun.{RunsPlain, counted_report};
ghost use Rattle.links.specs.Least.{sum_of_weights};

use crate::crew::{Crew, ManyThreads, OneThread, forest_by};
use crate::fault::RunFault;
use crate::keeper::Keeper;
use crate::report::Report;
use byte_streams::{Sink, Source};
use link_key::Forest;
use std::alloc::Allocator;
use std::thread::Threads;

/// The report for a graph with this many vertices and edges, and for its forest.
pub(crate) fn report_of<A: Allocator>(vertices: u32, links: u64, forest: &Forest<A>) -> Report
    ensures { result ≡ counted_report vertices links (sum_of_weights forest.now) }
{
    Report {
        vertices,
        links,
        rounds: 0,
        shards: 0,
        asked: 0,
        answered: 0,
        alone: 0,
        closed: 0,
        total: forest.total(),
    }
}

// Runs with this crew.
fn run<C: Crew, S: Source, W: Sink, A: Allocator + Copy>(
    crew: &C,
    alloc: A,
    source: &mut S,
    sink: &mut W,
) -> Result<Report, RunFault>
    requires ready { C.ready }
    requires source { S.can_read source.old }
    requires sink { W.can_write sink.old }
    ensures { RunsPlain result (known S.state W.state source.old sink.old) (known S.state W.state source.new sink.new)
        (W.unflushed sink.new) (W.can_write sink.new) }
{
    let mut keeper = Keeper::new(crew);
    let graph = match crew.read(&mut keeper, alloc, source) {
        Ok(graph) => graph,
        Err(fault) => return Err(RunFault::Read(fault)),
    };
    let n = graph.n();
    let links = graph.into_links();
    let count = keeper.dropped + links.len() as u64;
    let Ok(forest) = forest_by(crew, alloc, n, links) else {
        return Err(RunFault::Memory);
    };
    match crew.write(alloc, sink, n, &forest) {
        Ok(_) => Ok(report_of(n, count, &forest)),
        Err(fault) => Err(RunFault::Write {
            written: fault.written,
        }),
    }
}

/// Reads a graph of at most [`limits::MAX_BYTES`] bytes, finds its minimum spanning forest with one thread, and writes
/// the forest's text.
///
/// No spanning forest of the graph weighs less than the reported total. If the file is the text of a forest, the run
/// writes the same text and reports its total. The whole forest is found before the first byte is written.
///
/// For b bytes, m edges and n vertices it takes O(b + m log m + n log n) time. It takes memory for one list of the
/// edges, in which the forest is found, and the additional memory of [`link_key::keep_forest`]. Edges that repeat the
/// one before them are dropped as they come, for example if both directions of an edge are in adjacent lines.
///
/// If the file states more than 65,536 arcs, and more than 15 per vertex, long lists are reduced. A list of at least 10
/// edges per vertex and at least 32,768 is reduced to its forest before more edges are read. If the edges to come could
/// make another such list, heavy edges whose endpoints light edges of the forest already connect are dropped as they
/// come. This takes 4 bytes per vertex.
pub fn run_plain<S: Source, W: Sink, A: Allocator + Copy>(
    alloc: A,
    source: &mut S,
    sink: &mut W,
) -> Result<Report, RunFault>
    requires source { S.can_read source.old }
    requires sink { W.can_write sink.old }

    // If it succeeds, it read the source to its end and wrote exactly the forest's text. Otherwise the error says what
    // was done. So if no read fails, an invalid file gives its first error, or memory runs out.
    ensures { RunsPlain result (known S.state W.state source.old sink.old) (known S.state W.state source.new sink.new)
        (W.unflushed sink.new) (W.can_write sink.new) }
{
    run(&OneThread, alloc, source, sink)
}

/// Does what [`run_plain`] does, with up to `threads` threads.
///
/// Each step of the run takes as many threads as its work is worth, and continues with fewer if one can't be started.
/// The output and the result are the same for any number of threads, unless the system runs out of memory. It takes the
/// memory of `run_plain`, and what [`gr_text::read_graph_kept_par`], [`link_key::keep_forest_par`] and
/// [`gr_text::write_forest_par`] take for their threads.
pub fn run_threads<R: Threads + Sync, S: Source, W: Sink, A: Allocator + Copy>(
    rt: &R,
    threads: usize,
    alloc: A,
    source: &mut S,
    sink: &mut W,
) -> Result<Report, RunFault>
    requires source { S.can_read source.old }
    requires sink { W.can_write sink.old }

    // The same contract as `run_plain`.
    ensures { RunsPlain result (known S.state W.state source.old sink.old) (known S.state W.state source.new sink.new)
        (W.unflushed sink.new) (W.can_write sink.new) }
{
    run(&ManyThreads { rt, threads }, alloc, source, sink)
}
