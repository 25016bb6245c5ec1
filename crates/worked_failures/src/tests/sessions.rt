// A worker's session over a shard and an ask. The source fails at each byte, and the sink fails or stops at each byte.
// The shard has weights of 32 bits, or weights past them.
use super::frame_texts::{ANSWER, ASK, HELLO, SHARD, SHARD64};
use super::same::expect_same;
use super::streams::{Place, Setback, sink_at, source_of};
use frames::FrameFault;
use std::alloc::Global;
use std::process::Abort;
use std::thread::Threads;
use worker_engine::{ServeFault, Served, serve};

const SERVED: Result<Served, ServeFault> = Ok(Served {
    frames: 2,
    answers: 1,
    faults: 0,
});

// The bytes of the hello, and of the hello and the answer together.
const GREETED: usize = 11;

const ANSWERED: usize = 52;

pub(crate) fn joined(rt: &impl Abort, alloc: Global, first: &[u8], second: &[u8]) -> Vec<u8> {
    let mut bytes = Vec::from_slice(alloc, first).expect(rt, "memory");
    bytes.extend_from_slice(second).expect(rt, "memory");
    bytes
}

/// A shard, its length together with the ask, and how many bytes a source and a sink pass at a time.
type Session = (&'static [u8], usize, usize);

const SESSIONS: [Session; 4] = [
    (&SHARD, 78, 1),
    (&SHARD, 78, 7),
    (&SHARD64, 90, 1),
    (&SHARD64, 90, 7),
];

// How a session over `heard` bytes ends, and how many bytes it wrote. It writes the hello before it reads anything, and
// the answer after it has read the whole ask. A capacity for exactly both is enough, if the sink fails afterwards and
// if it stops.
fn end_of(heard: usize, place: Place) -> (Result<Served, ServeFault>, usize) {
    let passes = place.passes;
    let cut_off = Err(ServeFault::Read(FrameFault::Device));
    match place.setback {
        Setback::Source if passes < heard => (cut_off, GREETED),
        Setback::Source if passes == heard => (cut_off, ANSWERED),
        Setback::Sink | Setback::FullSink if passes < ANSWERED => (Err(ServeFault::Write), passes),
        _ => (SERVED, ANSWERED),
    }
}

// The session, with one stream that fails or stops after `passes` bytes, ends as it should.
fn expect_end(
    rt: &(impl Abort + Threads + Sync),
    alloc: Global,
    session: Session,
    setback: Setback,
    passes: usize,
) {
    let (shard, heard, piece) = session;
    assert!(rt; 1 <= piece);
    let place = Place {
        setback,
        passes,
        piece,
    };
    let bytes = joined(rt, alloc, shard, &ASK);
    let mut source = source_of(bytes, place);
    let mut sink = sink_at(alloc, place).expect(rt, "memory");
    let end = serve(rt, alloc, 0, &mut source, &mut sink);
    let (expected, written) = end_of(heard, place);
    let both = joined(rt, alloc, &HELLO, &ANSWER);
    assert!(rt; both.len() == ANSWERED && written <= both.len());
    expect_same(
        rt,
        (passes, end, sink.held()),
        (passes, expected, &both[..written]),
    );
}

#[test]
fn a_source_that_fails_at_each_byte(rt: HostRuntime) {
    for session in SESSIONS {
        for passes in 0..92usize {
            expect_end(&rt, rt.alloc(), session, Setback::Source, passes);
        }
    }
}

#[test]
fn a_sink_that_fails_at_each_byte(rt: HostRuntime) {
    for session in SESSIONS {
        for passes in 0..54usize {
            for setback in [Setback::Sink, Setback::FullSink] {
                expect_end(&rt, rt.alloc(), session, setback, passes);
            }
        }
    }
}
