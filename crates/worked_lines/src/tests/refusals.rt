// Runs that end before they write their text, or while they write it.
ghost use Rattle.std.specs.Prelude.{◌<◌, ◌-◌, ◌^◌};

use super::runs::fault_of;
use super::same::expect_same;
use crate::in_memory::engines;
use byte_streams::FusedSink;
use forest_run::{Cutting, RunFault, run_lines};
use gr_text::{GrFault, GrKind, ReadFault};
use link_key::CutFault;
use std::alloc::Global;
use std::process::Abort;
use std::sync::Wait;
use std::thread::Threads;
use worked_graphs::SMALL_NET;

// The small net has eight links.
#[test]
fn cuts_that_are_not_allowed(rt: HostRuntime) {
    let refused = [
        (Cutting::Even(0), CutFault::NoShards),
        (Cutting::Even(4097), CutFault::TooManyShards),
        (Cutting::At(&[0; 4096]), CutFault::TooManyShards),
        (Cutting::At(&[3, 2]), CutFault::BadPlaces),
        (Cutting::At(&[9]), CutFault::BadPlaces),
    ];
    for (cutting, why) in refused {
        let lines = engines(rt.alloc(), 2).expect(&rt, "memory");
        let fault = fault_of(&rt, rt.alloc(), SMALL_NET.file, cutting, lines);
        expect_same(&rt, fault, Some(RunFault::Cut(why)));
    }
}

// A file without its arcs, for which the cut wouldn't be allowed either.
#[test]
fn a_file_that_means_nothing(rt: HostRuntime) {
    let lines = engines(rt.alloc(), 1).expect(&rt, "memory");
    let file = b"p sp 2 2\na 1 2 5\n";
    let fault = fault_of(&rt, rt.alloc(), file, Cutting::Even(0), lines);
    let missing = GrFault {
        line: 3,
        kind: GrKind::MissingArcs,
    };
    expect_same(&rt, fault, Some(RunFault::Read(ReadFault::Gr(missing))));
}

// A run of the small net into this sink, which takes ten bytes of the text.
fn expect_ten_bytes<R: Threads + Wait + Sync + Abort>(rt: &R, alloc: Global, mut sink: FusedSink)
    requires { sink.setbacks < 2 ^ 64 - 1 }
{
    let mut source = SMALL_NET.file;
    let lines = engines(alloc, 2).expect(rt, "memory");
    let ended = run_lines(rt, alloc, &mut source, Cutting::Even(2), lines, &mut sink);
    expect_same(rt, ended.err(), Some(RunFault::Write { written: 10 }));
    expect_same(rt, sink.held(), b"p sp 6 5\na".as_slice());
}

#[test]
fn a_sink_that_stops_or_fails(rt: HostRuntime) {
    for piece in [1usize, 7, 100] {
        let failing = FusedSink::new(rt.alloc(), 10, piece).expect(&rt, "memory");
        expect_ten_bytes(&rt, rt.alloc(), failing);
        let stopping = FusedSink::stopped(rt.alloc(), 10, piece).expect(&rt, "memory");
        expect_ten_bytes(&rt, rt.alloc(), stopping);
    }
}
