// Texts of forests and whole runs with several threads. They are the same as with one thread, for sizes far above what
// a thread works on at a time.
use super::lists::links_between;
use super::same::expect_same;
use super::sizes::{path, path_text};
use byte_streams::FusedSink;
use forest_run::{Report, RunFault, run_threads};
use gr_text::{GrFault, GrKind, ReadFault, WriteFault, write_forest_par};
use link_key::Forest;
use std::alloc::Global;
use std::process::Abort;
use std::thread::Threads;
use worked_graphs::{SMALL_NET, WORKED};

// One thread, a few threads, and as many as a caller may ask for.
const THREADS: [usize; 5] = [1, 2, 3, 7, 64];

// The number of vertices of a path, which has one link less. A thread works on 8,192 links at a time, and two threads
// begin at 16,384.
const SIZES: [u32; 9] = [
    0, 2, 16_384, 16_385, 16_386, 24_577, 32_770, 65_540, 300_001,
];

fn path_forest(rt: &impl Abort, alloc: Global, n: u32) -> (Forest, Vec<u8>) {
    let arcs = path(rt, alloc, n);
    let links = links_between(rt, alloc, n, arcs.as_slice());
    let forest = Forest::of_list(links).expect(rt, "ascending");
    (forest, path_text(rt, alloc, n, arcs.as_slice()))
}

#[test]
fn forests_to_texts(rt: HostRuntime) {
    for n in SIZES {
        let (forest, text) = path_forest(&rt, rt.alloc(), n);
        for threads in THREADS {
            let mut sink = Vec::new(rt.alloc());
            let written = write_forest_par(&rt, threads, rt.alloc(), &mut sink, n, &forest);
            expect_same(&rt, written, Ok(text.len() as u64));
            expect_same(&rt, sink.as_slice() == text.as_slice(), true);
        }
    }
}

// A sink that takes 5000 bytes at a time and fails after `passes` bytes has exactly these bytes. A sink that stops
// instead has the whole text if it has capacity for it.
fn expect_part(
    rt: &(impl Abort + Threads + Sync),
    alloc: Global,
    threads: usize,
    forest: &Forest,
    text: &[u8],
    passes: usize,
) {
    let fault = Err(WriteFault {
        written: passes as u64,
    });
    let n = 100_001;
    let mut failing = FusedSink::new(alloc, passes, 5000).expect(rt, "memory");
    let written = write_forest_par(rt, threads, alloc, &mut failing, n, forest);
    expect_same(rt, written, fault);
    expect_same(rt, text.get(..passes) == Some(failing.held()), true);
    let mut stopping = FusedSink::stopped(alloc, passes, 70_000).expect(rt, "memory");
    let written = write_forest_par(rt, threads, alloc, &mut stopping, n, forest);
    let whole = Ok(text.len() as u64);
    let expected = if passes < text.len() { fault } else { whole };
    expect_same(rt, written, expected);
    expect_same(rt, stopping.held() == failing.held(), true);
}

#[test]
fn parts_of_texts(rt: HostRuntime) {
    let (forest, text) = path_forest(&rt, rt.alloc(), 100_001);
    let all = text.len();
    let but_one = all.wrapping_sub(1);
    for threads in [2, 3, 7] {
        for passes in [0, 5, 19, 20, 170_000, 1_000_000, but_one, all] {
            expect_part(&rt, rt.alloc(), threads, &forest, text.as_slice(), passes);
        }
    }
}

#[test]
fn files_to_texts(rt: HostRuntime) {
    for n in SIZES {
        let arcs = path(&rt, rt.alloc(), n);
        let text = path_text(&rt, rt.alloc(), n, arcs.as_slice());
        for threads in THREADS {
            let mut sink = Vec::new(rt.alloc());
            let mut source = text.as_slice();
            let ended = run_threads(&rt, threads, rt.alloc(), &mut source, &mut sink);
            let report = ended.expect(&rt, "a forest");
            let counts = (report.vertices, report.links, report.rounds);
            expect_same(&rt, counts, (n, arcs.len() as u64, 0));
            expect_same(&rt, sink.as_slice() == text.as_slice(), true);
        }
    }
}

// The number of links of each example graph, with repeats and without loops.
const LINKS: [u64; 9] = [8, 0, 0, 3, 3, 7, 2, 8, 14];

#[test]
fn texts_of_the_worked_graphs(rt: HostRuntime) {
    for (graph, links) in WORKED.into_iter().zip(LINKS) {
        for threads in THREADS {
            let mut sink = Vec::new(rt.alloc());
            let mut source = graph.file;
            let report = Report {
                vertices: graph.n,
                links,
                rounds: 0,
                shards: 0,
                asked: 0,
                answered: 0,
                alone: 0,
                closed: 0,
                total: graph.total,
            };
            let ended = run_threads(&rt, threads, rt.alloc(), &mut source, &mut sink);
            expect_same(&rt, ended, Ok(report));
            expect_same(&rt, sink.as_slice(), graph.text);
        }
    }
}

// If a file is malformed, nothing is written. A failed write reports the number of bytes before it.
#[test]
fn files_and_sinks_that_fail(rt: HostRuntime) {
    let missing = RunFault::Read(ReadFault::Gr(GrFault {
        line: 3,
        kind: GrKind::MissingArcs,
    }));
    for threads in THREADS {
        let mut sink = FusedSink::new(rt.alloc(), 10, 3).expect(&rt, "memory");
        let mut source = b"p sp 2 2\na 1 2 5".as_slice();
        let ended = run_threads(&rt, threads, rt.alloc(), &mut source, &mut sink);
        expect_same(&rt, (ended, sink.held().is_empty()), (Err(missing), true));
        let mut sink = FusedSink::new(rt.alloc(), 10, 3).expect(&rt, "memory");
        let mut source = SMALL_NET.file;
        let ended = run_threads(&rt, threads, rt.alloc(), &mut source, &mut sink);
        expect_same(&rt, ended, Err(RunFault::Write { written: 10 }));
        expect_same(&rt, sink.held(), b"p sp 6 5\na".as_slice());
    }
}
