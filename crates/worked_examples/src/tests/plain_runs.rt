// Files to the texts of their forests.
use super::same::expect_same;
use crate::again::text_again;
use byte_streams::{FusedSink, FusedSource};
use forest_run::{Report, RunFault, plain_text, run_plain};
use gr_text::{GrFault, GrKind, ReadFault};
use std::alloc::Global;
use std::process::Abort;
use worked_graphs::{SMALL_NET, WORKED, Worked};

// The run over this file succeeds and writes the forest's text. The report has the numbers of vertices and links and
// the total, and 0 in all other fields.
fn expect_text(rt: &impl Abort, alloc: Global, file: &[u8], graph: Worked, links: u64) {
    let mut source = file;
    let mut sink = Vec::new(alloc);
    let report = Report {
        vertices: graph.n,
        links,
        rounds: 0,
        shards: 0,
        asked: 0,
        answered: 0,
        alone: 0,
        closed: 0,
        total: graph.total,
    };
    let ended = run_plain(alloc, &mut source, &mut sink);
    expect_same(rt, ended, Ok(report));
    expect_same(rt, sink.as_slice(), graph.text);
    expect_same(rt, source.is_empty(), true);
}

// The number of links of each example graph, with repeats and without loops.
const LINKS: [u64; 9] = [8, 0, 0, 3, 3, 7, 2, 8, 14];

#[test]
fn texts_of_the_worked_graphs(rt: HostRuntime) {
    for (graph, links) in WORKED.into_iter().zip(LINKS) {
        expect_text(&rt, rt.alloc(), graph.file, graph, links);
    }
}

#[test]
fn texts_of_forests_are_written_again(rt: HostRuntime) {
    for graph in WORKED {
        expect_text(
            &rt,
            rt.alloc(),
            graph.text,
            graph,
            graph.forest.len() as u64,
        );
    }
}

// The same by the call whose contract defines the text and the report.
#[test]
fn texts_that_are_run_again(rt: HostRuntime) {
    for graph in WORKED {
        let (text, report) = text_again(rt.alloc(), graph.file).expect(&rt, "a forest");
        expect_same(&rt, text.as_slice(), graph.text);
        let links = graph.forest.len() as u64;
        expect_same(&rt, (report.links, report.total), (links, graph.total));
    }
}

// A sink that fails or stops after ten bytes has exactly these bytes.
#[test]
fn a_sink_that_stops(rt: HostRuntime) {
    let fault = RunFault::Write { written: 10 };
    let mut source = SMALL_NET.file;
    let mut failing = FusedSink::new(rt.alloc(), 10, 3).expect(&rt, "memory");
    let ended = run_plain(rt.alloc(), &mut source, &mut failing);
    expect_same(&rt, ended, Err(fault));
    expect_same(&rt, failing.held(), b"p sp 6 5\na".as_slice());
    let mut source = SMALL_NET.file;
    let mut stopping = FusedSink::stopped(rt.alloc(), 10, 3).expect(&rt, "memory");
    let ended = run_plain(rt.alloc(), &mut source, &mut stopping);
    expect_same(&rt, ended, Err(fault));
    expect_same(&rt, stopping.held(), b"p sp 6 5\na".as_slice());
}

// If a file is malformed or its source fails, nothing is written.
#[test]
fn a_file_that_is_not_read(rt: HostRuntime) {
    let file = b"p sp 2 2\na 1 2 5";
    let mut sink = FusedSink::new(rt.alloc(), 10, 3).expect(&rt, "memory");
    let missing = RunFault::Read(ReadFault::Gr(GrFault {
        line: 3,
        kind: GrKind::MissingArcs,
    }));
    let mut source = file.as_slice();
    let ended = run_plain(rt.alloc(), &mut source, &mut sink);
    expect_same(&rt, (ended, sink.held().is_empty()), (Err(missing), true));
    let failed = RunFault::Read(ReadFault::Source { line: 2 });
    let bytes = Vec::from_slice(rt.alloc(), file).expect(&rt, "memory");
    let mut source = FusedSource::new(bytes, 12, 5);
    let mut sink = FusedSink::new(rt.alloc(), 10, 3).expect(&rt, "memory");
    let ended = run_plain(rt.alloc(), &mut source, &mut sink);
    expect_same(&rt, (ended, sink.held().is_empty()), (Err(failed), true));
}

#[test]
fn a_file_in_memory(rt: HostRuntime) {
    let text = plain_text(rt.alloc(), SMALL_NET.file).expect(&rt, "a lawful file");
    expect_same(&rt, text.as_slice(), SMALL_NET.text);
}
