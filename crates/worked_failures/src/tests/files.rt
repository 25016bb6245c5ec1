// Runs over the small net, also with weights past 32 bits. The source fails at each byte of the file. The sink fails or
// stops at each byte of the forest's text.
ghost use Rattle.std.specs.Prelude.{◌<◌, ◌≤◌, ◌-◌, ◌^◌};

use super::runs::{run_over, two_workers};
use super::same::expect_same;
use super::streams::{Place, Setback, sink_at, source_of};
use byte_streams::{FusedSink, FusedSource};
use forest_run::{RunFault, run_plain};
use gr_text::ReadFault;
use std::alloc::Global;
use std::process::Abort;
use std::sync::Wait;
use std::thread::Threads;
use worked_graphs::{SMALL_NET, WIDE_WEIGHTS, Worked};

#[derive(Clone, Copy)]
enum Way {
    OneThread,
    TwoWorkers,
}

// Each kind of run, with streams that pass one byte at a time, or seven.
const RUNS: [(Way, usize); 4] = [
    (Way::OneThread, 1),
    (Way::OneThread, 7),
    (Way::TwoWorkers, 1),
    (Way::TwoWorkers, 7),
];

// The lengths of the files and of their forests' texts.
const LENGTHS: [(Worked, usize, usize); 2] = [(SMALL_NET, 108, 50), (WIDE_WEIGHTS, 121, 78)];

// Why a run failed, if it did.
fn fault_of(
    rt: &(impl Threads + Wait + Sync + Abort),
    alloc: Global,
    way: Way,
    source: &mut FusedSource,
    sink: &mut FusedSink,
) -> Option<RunFault>
    requires can_read { (source.old.failures < 2 ^ 64 - 1) × (source.old.ends < 2 ^ 64 - 1) }
    requires can_write { sink.old.setbacks < 2 ^ 64 - 1 }
{
    match way {
        Way::OneThread => run_plain(alloc, source, sink).err(),
        Way::TwoWorkers => {
            let lines = two_workers(alloc).expect(rt, "memory");
            let (ended, _) = run_over(rt, lines, 2, source, sink);
            ended.err()
        }
    }
}

fn line_behind(bytes: &[u8]) -> u64 {
    let mut line = 1u64;
    for byte in bytes {
        if *byte == b'\n' {
            line = line.wrapping_add(1);
        }
    }
    line
}

// Why a run fails, if it does, and what it wrote. If the source fails, the error names the line of the next byte, and
// nothing is written. A source that passes more bytes than the file has gives the end.
//
// If the sink fails or stops, it has as many bytes as it passes, and the error counts them. A capacity for exactly the
// text is too small for a sink that fails, since the flush fails. It is enough for a sink that stops.
fn end_of(graph: &Worked, place: Place) -> (Option<RunFault>, &'static [u8]) {
    let (file, text, passes) = (graph.file, graph.text, place.passes);
    let written = passes as u64;
    match place.setback {
        Setback::Source if passes <= file.len() => {
            let line = line_behind(&file[..passes]);
            (Some(RunFault::Read(ReadFault::Source { line })), &[])
        }
        Setback::Sink if passes <= text.len() => {
            (Some(RunFault::Write { written }), &text[..passes])
        }
        Setback::FullSink if passes < text.len() => {
            (Some(RunFault::Write { written }), &text[..passes])
        }
        _ => (None, text),
    }
}

// A run of the graph, with one stream that fails or stops, ends as it should.
fn expect_end<R: Threads + Wait + Sync + Abort>(
    rt: &R,
    alloc: Global,
    graph: &Worked,
    way: Way,
    place: Place,
) {
    assert!(rt; 1 <= place.piece);
    let file = Vec::from_slice(alloc, graph.file).expect(rt, "memory");
    let mut source = source_of(file, place);
    let mut sink = sink_at(alloc, place).expect(rt, "memory");
    let fault = fault_of(rt, alloc, way, &mut source, &mut sink);
    let found = (fault, sink.held());
    expect_same(
        rt,
        (place.passes, found),
        (place.passes, end_of(graph, place)),
    );
}

// The same for each position at which the stream can fail or stop, up to after the last byte.
fn expect_each_end<R: Threads + Wait + Sync + Abort>(rt: &R, alloc: Global, setback: Setback) {
    for (graph, file, text) in LENGTHS {
        expect_same(rt, (graph.file.len(), graph.text.len()), (file, text));
        let length = match setback {
            Setback::Source => file,
            Setback::Sink | Setback::FullSink => text,
        };
        for (way, piece) in RUNS {
            for passes in 0..length.wrapping_add(2) {
                let place = Place {
                    setback,
                    passes,
                    piece,
                };
                expect_end(rt, alloc, &graph, way, place);
            }
        }
    }
}

#[test]
fn a_source_that_fails_at_each_byte(rt: HostRuntime) {
    expect_each_end(&rt, rt.alloc(), Setback::Source);
}

#[test]
fn a_sink_that_fails_at_each_byte(rt: HostRuntime) {
    expect_each_end(&rt, rt.alloc(), Setback::Sink);
}

#[test]
fn a_sink_that_takes_nothing_more_at_each_byte(rt: HostRuntime) {
    expect_each_end(&rt, rt.alloc(), Setback::FullSink);
}
