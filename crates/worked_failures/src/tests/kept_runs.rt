// Runs over a file with so many arcs that links are dropped while it is read, with each allocation failing, by one
// thread and by three.
use super::in_turn::{Memory, expect_any, was_refused};
use super::runs::wants_memory;
use super::same::expect_same;
use forest_run::{Report, RunFault, run_plain, run_threads};
use std::alloc::{AllocError, Global};
use std::process::Abort;
use std::thread::Threads;

// A file that repeats the first arc, and ends with two lighter ones.
fn long_file(rt: &impl Abort, alloc: Global) -> Vec<u8> {
    let mut file = Vec::from_slice(alloc, b"p sp 3 70000\n").expect(rt, "memory");
    for _ in 0..69_998u32 {
        file.extend_from_slice(b"a 1 2 9\n").expect(rt, "memory");
    }
    file.extend_from_slice(b"a 3 2 -4\na 2 1 5\n")
        .expect(rt, "memory");
    file
}

// A run that succeeded wrote the two lighter arcs and counts all links. A run that failed was out of memory, and wrote
// nothing.
pub(super) fn expect_ended(
    rt: &impl Abort,
    memory: &Memory,
    ended: Result<Report, RunFault>,
    links: u64,
    text: &[u8],
) -> Result<(), AllocError> {
    match ended {
        Ok(report) => {
            expect_same(rt, text, b"p sp 3 2\na 2 3 -4\na 1 2 5\n".as_slice());
            expect_same(rt, (report.links, report.total), (links, 1));
            Ok(())
        }
        Err(fault) => {
            let wants = was_refused(memory) && wants_memory(fault);
            expect_same(rt, (fault, wants, text.is_empty()), (fault, true, true));
            Err(AllocError)
        }
    }
}

fn expect_kept(
    rt: &(impl Abort + Threads + Sync),
    alloc: Global,
    memory: &Memory,
    file: &[u8],
    threads: usize,
) -> Result<(), AllocError> {
    let mut source = file;
    let mut text = Vec::new(alloc);
    let ended = if threads == 1 {
        run_plain(memory, &mut source, &mut text)
    } else {
        run_threads(rt, threads, memory, &mut source, &mut text)
    };
    expect_ended(rt, memory, ended, 70_000, text.as_slice())
}

#[test]
fn long_files_to_texts(rt: HostRuntime) {
    let file = long_file(&rt, rt.alloc());
    for threads in [1, 3] {
        expect_any(
            &rt,
            rt.alloc(),
            |memory: &Memory| -> Result<(), AllocError> {
                expect_kept(&rt, rt.alloc(), memory, file.as_slice(), threads)
            },
        );
    }
}
