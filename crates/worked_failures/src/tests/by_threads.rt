// The text of a forest, and a run over it, by three threads, with each allocation failing. Two of the threads have a
// part each.
use super::in_turn::{Memory, expect_any, was_refused};
use super::runs::wants_memory;
use super::same::expect_same;
use forest_run::run_threads;
use gr_text::write_forest_par;
use link_key::Forest;
use std::alloc::{AllocError, Global};
use std::process::Abort;
use std::thread::Threads;
use worked_graphs::{Row, links_of};

const VERTICES: u32 = 20_000;

// The arcs of a path, each as heavy as its first vertex. And the path as a file, which is also its forest's text.
fn path(rt: &impl Abort, alloc: Global) -> (Vec<Row>, Vec<u8>) {
    let mut arcs = Vec::new(alloc);
    let mut text = Vec::from_slice(alloc, b"p sp 20000 19999\n").expect(rt, "memory");
    for v in 1..VERTICES {
        let next = v.wrapping_add(1);
        arcs.push((v, next, i64::from(v))).expect(rt, "memory");
        let line = format!(in alloc; "a {v} {next} {v}\n").expect(rt, "memory");
        text.extend_from_slice(line.as_bytes()).expect(rt, "memory");
    }
    (arcs, text)
}

// The whole forest is written, even if there is no memory for the threads' parts.
fn expect_text(
    rt: &(impl Abort + Threads + Sync),
    alloc: Global,
    memory: &Memory,
    arcs: &[Row],
    text: &[u8],
) -> Result<(), AllocError> {
    let links = links_of(memory, VERTICES, arcs)?.expect(rt, "arcs");
    let forest = Forest::of_list(links).expect(rt, "ascending");
    let mut sink = Vec::new(alloc);
    let written = write_forest_par(rt, 3, memory, &mut sink, VERTICES, &forest);
    expect_same(rt, written, Ok(text.len() as u64));
    expect_same(rt, sink.as_slice() == text, true);
    Ok(())
}

#[test]
fn texts_of_forests(rt: HostRuntime) {
    let (arcs, text) = path(&rt, rt.alloc());
    expect_any(
        &rt,
        rt.alloc(),
        |memory: &Memory| -> Result<(), AllocError> {
            expect_text(&rt, rt.alloc(), memory, arcs.as_slice(), text.as_slice())
        },
    );
}

// A run that succeeds has written the forest's text. A run that fails was out of memory, and wrote nothing.
fn expect_run(
    rt: &(impl Abort + Threads + Sync),
    alloc: Global,
    memory: &Memory,
    text: &[u8],
) -> Result<(), AllocError> {
    let mut source = text;
    let mut sink = Vec::new(alloc);
    match run_threads(rt, 3, memory, &mut source, &mut sink) {
        Ok(_report) => {
            expect_same(rt, sink.as_slice() == text, true);
            Ok(())
        }
        Err(fault) => {
            let wants = was_refused(memory) && wants_memory(fault);
            expect_same(rt, (fault, wants, sink.is_empty()), (fault, true, true));
            Err(AllocError)
        }
    }
}

#[test]
fn files_to_texts(rt: HostRuntime) {
    let (_arcs, text) = path(&rt, rt.alloc());
    expect_any(
        &rt,
        rt.alloc(),
        |memory: &Memory| -> Result<(), AllocError> {
            expect_run(&rt, rt.alloc(), memory, text.as_slice())
        },
    );
}
