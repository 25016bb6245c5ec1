// Files that are joined while each allocation fails in turn, by one thread and by three.
use super::in_turn::{Memory, expect_any, was_refused};
use super::kept_runs::expect_ended;
use super::same::expect_same;
use gr_text::ReadFault;
use plain_run::{Crew, MAX_FILES, ManyThreads, OneThread, PartFault, Parts};
use std::alloc::{AllocError, Global};
use std::process::Abort;
use std::thread::Threads;

// A file of links that aren't in the forest of all.
const HEAVY: &[u8] = b"p sp 3 2\na 1 3 70\na 2 2 0\n";

// A file of the forest's links, and one more.
const LIGHT: &[u8] = b"p sp 3 3\na 1 2 9\na 3 2 -4\na 2 1 5\n";

// The parts that these files are. The error is out of memory.
fn joined<'m, C: Crew>(
    rt: &impl Abort,
    crew: &C,
    memory: &'m Memory,
    files: &[&[u8]],
) -> Result<Parts<&'m Memory>, AllocError>
    requires { C.ready }
{
    let mut parts = Parts::new(memory);
    for file in files {
        let mut source = *file;
        assert!(rt; parts.files() < MAX_FILES);
        match parts.add(crew, &mut source) {
            Ok(more) => parts = more,
            Err(fault) => {
                let wanted = PartFault::Read(ReadFault::Memory);
                expect_same(rt, (fault, was_refused(memory)), (wanted, true));
                return Err(AllocError);
            }
        }
    }
    Ok(parts)
}

fn expect_joined(
    rt: &(impl Abort + Threads + Sync),
    alloc: Global,
    memory: &Memory,
    files: &[&[u8]],
    threads: usize,
) -> Result<(), AllocError> {
    let mut text = Vec::new(alloc);
    let ended = if threads == 1 {
        joined(rt, &OneThread, memory, files)?.write(&mut text)
    } else {
        joined(rt, &ManyThreads { rt, threads }, memory, files)?.write_threads(
            rt, threads, &mut text,
        )
    };
    expect_ended(rt, memory, ended, 4, text.as_slice())
}

#[test]
fn files_to_one_text(rt: HostRuntime) {
    let files = [HEAVY, LIGHT];
    for threads in [1, 3] {
        expect_any(
            &rt,
            rt.alloc(),
            |memory: &Memory| -> Result<(), AllocError> {
                expect_joined(&rt, rt.alloc(), memory, &files, threads)
            },
        );
    }
}
