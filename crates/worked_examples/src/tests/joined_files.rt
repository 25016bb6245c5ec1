// Several files as parts of one graph. The text is that of the forest of all their arcs.
use super::drawn_lists::slow_forest;
use super::kept_runs::{Weights, report_of, rows, text_of};
use super::lists::links_between;
use super::same::expect_same;
use super::sizes::path_text;
use byte_streams::FusedSink;
use gr_text::{GrFault, GrKind, ReadFault};
use plain_run::{Crew, MAX_FILES, ManyThreads, OneThread, PartFault, Parts, Report, RunFault};
use std::alloc::Global;
use std::process::Abort;
use std::thread::Threads;
use worked_graphs::SMALL_NET;

// The arcs of SMALL_NET, distributed over three files. One of them has no arc.
const DEALT: [&[u8]; 3] = [
    b"p sp 6 3\na 1 2 17\na 1 3 10\na 2 4 2\n",
    b"c none\np sp 6 0\n",
    b"c the others\np sp 6 5\na 3 5 0\na 4 3 0\na 4 6 3\na 5 2 0\na 5 6 20\n",
];

// The forests of these files, worked out by hand.
const FORESTS: [&[u8]; 3] = [
    b"p sp 6 3\na 2 4 2\na 1 3 10\na 1 2 17\n",
    b"p sp 6 0\n",
    b"p sp 6 4\na 2 5 0\na 3 4 0\na 3 5 0\na 4 6 3\n",
];

fn joined<C: Crew>(
    rt: &impl Abort,
    crew: &C,
    alloc: Global,
    files: &[&[u8]],
) -> Result<Parts, PartFault>
    requires { C.ready }
{
    let mut parts = Parts::new(alloc);
    for file in files {
        let mut source = *file;
        assert!(rt; parts.files() < MAX_FILES);
        match parts.add(crew, &mut source) {
            Ok(more) => parts = more,
            Err(fault) => return Err(fault),
        }
    }
    Ok(parts)
}

// The files together give this text and report with one thread, with at most one thread, and with at most three.
fn expect_each_way(
    rt: &(impl Abort + Threads + Sync),
    alloc: Global,
    files: &[&[u8]],
    text: &[u8],
    report: Report,
) {
    let mut sink = Vec::new(alloc);
    let parts = joined(rt, &OneThread, alloc, files).expect(rt, "files");
    expect_same(rt, parts.files() as usize, files.len());
    expect_same(rt, parts.write(&mut sink), Ok(report));
    expect_same(rt, sink.as_slice() == text, true);
    for threads in [1, 3] {
        let mut sink = Vec::new(alloc);
        let crew = ManyThreads { rt, threads };
        let parts = joined(rt, &crew, alloc, files).expect(rt, "files");
        let ended = parts.write_threads(rt, threads, &mut sink);
        expect_same(rt, ended, Ok(report));
        expect_same(rt, sink.as_slice() == text, true);
    }
}

fn counted(vertices: u32, links: u64, total: i128) -> Report {
    Report {
        vertices,
        links,
        rounds: 0,
        shards: 0,
        asked: 0,
        answered: 0,
        alone: 0,
        closed: 0,
        total,
    }
}

#[test]
fn a_graph_in_parts(rt: HostRuntime) {
    let (alloc, text) = (rt.alloc(), SMALL_NET.text);
    expect_each_way(&rt, alloc, &DEALT, text, counted(6, 8, 13));
    expect_each_way(&rt, alloc, &[SMALL_NET.file], text, counted(6, 8, 13));
    expect_each_way(&rt, alloc, &[], b"p sp 0 0\n", counted(0, 0, 0));
}

// The forests of the parts have the same forest as the whole graph. A file that is given twice has its own forest.
#[test]
fn forests_of_parts(rt: HostRuntime) {
    let (alloc, text) = (rt.alloc(), SMALL_NET.text);
    expect_each_way(&rt, alloc, &FORESTS, text, counted(6, 7, 13));
    let twice = [SMALL_NET.file, SMALL_NET.file];
    expect_each_way(&rt, alloc, &twice, text, counted(6, 16, 13));
    let many = [SMALL_NET.text; 300];
    expect_each_way(&rt, alloc, &many, text, counted(6, 1500, 13));
}

// The first file that is malformed ends the run with its own error. So does the first file whose number of vertices
// differs from that of the first file.
#[test]
fn files_that_are_refused(rt: HostRuntime) {
    let missing = PartFault::Read(ReadFault::Gr(GrFault {
        line: 3,
        kind: GrKind::MissingArcs,
    }));
    let other = PartFault::OtherVertices {
        vertices: 5,
        wanted: 6,
    };
    let short = b"p sp 6 2\na 1 2 3".as_slice();
    let five = b"p sp 5 1\na 1 2 3\n".as_slice();
    let cases = [
        ([DEALT[0], short, five], missing),
        ([short, five, DEALT[0]], missing),
        ([DEALT[0], DEALT[1], five], other),
        ([DEALT[1], five, short], other),
    ];
    for (files, fault) in cases {
        let ended = joined(&rt, &OneThread, rt.alloc(), &files);
        expect_same(&rt, ended.err(), Some(fault));
    }
    expect_same(&rt, other.text().as_str(), "5 vertices in place of 6");
    expect_same(&rt, missing.text().as_str(), "line 3: MissingArcs");
}

// A sink that fails has exactly the bytes that it took before.
#[test]
fn texts_that_are_broken_off(rt: HostRuntime) {
    for passes in [0, 8, 30] {
        let parts = joined(&rt, &OneThread, rt.alloc(), &DEALT).expect(&rt, "files");
        let mut failing = FusedSink::new(rt.alloc(), passes, 7).expect(&rt, "memory");
        let ended = parts.write(&mut failing);
        let fault = RunFault::Write {
            written: passes as u64,
        };
        expect_same(&rt, ended, Err(fault));
        expect_same(&rt, SMALL_NET.text.get(..passes), Some(failing.held()));
    }
}

// Files with so many arcs that links are dropped while each file is read, and again when the parts are joined.
#[test]
fn files_of_many_arcs(rt: HostRuntime) {
    for (n, count, each) in [(300, 90_000, 70_000), (2_000, 36_000, 19_000)] {
        assert!(&rt; 0 < n && 0 < each);
        let arcs = rows(&rt, rt.alloc(), n, count, Weights::Many);
        let links = links_between(&rt, rt.alloc(), n, arcs.as_slice());
        let forest = slow_forest(&rt, rt.alloc(), n, links.as_slice());
        let text = text_of(&rt, rt.alloc(), n, forest.as_slice());
        let mut texts = Vec::new(rt.alloc());
        for part in arcs.chunks(each) {
            texts
                .push(path_text(&rt, rt.alloc(), n, part))
                .expect(&rt, "memory");
        }
        let mut files = Vec::new(rt.alloc());
        for file in &texts {
            files.push(file.as_slice()).expect(&rt, "memory");
        }
        let report = report_of(n, links.as_slice(), forest.as_slice());
        expect_each_way(&rt, rt.alloc(), files.as_slice(), text.as_slice(), report);
    }
}
