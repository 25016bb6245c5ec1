// What a worker does: scans, replies of its engine, and whole sessions.
use super::frame_texts::{ANSWER, ASK, HELLO, NO_MEMORY, SHARD, SHARD64, WIDE_ARCS, written};
use super::in_turn::{Memory, expect_any, expect_each, or_refused, was_refused};
use super::lists::few_links;
use super::same::expect_same;
use super::sessions::joined;
use frames::{Frame, FrameFault, read_frame};
use link_key::{Labels, Link, Offers};
use std::alloc::{AllocError, Global};
use std::process::Abort;
use std::thread::Threads;
use worked_graphs::{EQUAL_WEIGHTS, Row, have_labels};
use worker_engine::{Engine, ServeFault, Served, scan, scan_par, serve, serve_upto};

#[derive(Clone, Copy)]
enum By {
    OneThread,
    Threads,
}

#[derive(Clone, Copy)]
enum HearBy {
    Hear,
    HearPar,
}

fn offers<'a>(
    rt: &(impl Abort + Threads + Sync),
    memory: &'a Memory,
    by: By,
    links: &[Link],
    labels: &Labels,
) -> Result<Offers<&'a Memory>, AllocError> {
    assert!(rt; links.len() <= 8 && have_labels(links, labels.n()));
    match by {
        By::OneThread => scan(memory, links, labels),
        By::Threads => scan_par(rt, memory, links, labels),
    }
}

// A triangle's offers, if each vertex is a component by itself.
fn expect_offers(
    rt: &(impl Abort + Threads + Sync),
    alloc: Global,
    memory: &Memory,
    by: By,
    arcs: &[Row],
) -> Result<(), AllocError> {
    let links = few_links(rt, alloc, 3, arcs);
    let labels = Labels::apart(alloc, 3).expect(rt, "memory");
    let offers = offers(rt, memory, by, links.as_slice(), &labels)?;
    expect_same(rt, offers.pairs(), [(1, 0), (2, 0), (3, 2)].as_slice());
    Ok(())
}

fn heard<'a>(
    rt: &(impl Abort + Threads + Sync),
    by: HearBy,
    engine: &mut Engine<&'a Memory>,
    frame: Frame<&'a Memory>,
) -> Result<Option<Frame<&'a Memory>>, AllocError> {
    assert!(rt; frame.is_lawful());
    match by {
        HearBy::Hear => engine.hear(frame),
        HearBy::HearPar => engine.hear_par(rt, frame),
    }
}

// The bytes of the engine's reply to the frame with these bytes.
fn reply<'a>(
    rt: &(impl Abort + Threads + Sync),
    memory: &'a Memory,
    by: HearBy,
    engine: &mut Engine<&'a Memory>,
    bytes: &[u8],
) -> Result<Vec<u8, &'a Memory>, AllocError> {
    let mut source = bytes;
    let frame = or_refused(rt, read_frame(memory, &mut source), FrameFault::Memory)?;
    match heard(rt, by, engine, frame)? {
        Some(frame) => written(rt, memory, &frame),
        None => Ok(Vec::new(memory)),
    }
}

// The engine's reply is this one. If only one allocation fails, the engine is as it was, and replies like this when it
// gets the frame again.
fn expect_reply<'a>(
    rt: &(impl Abort + Threads + Sync),
    memory: &'a Memory,
    by: HearBy,
    engine: &mut Engine<&'a Memory>,
    exchange: (&[u8], &[u8]),
) -> Result<(), AllocError> {
    let (bytes, expected) = exchange;
    let replied = match reply(rt, memory, by, engine, bytes) {
        Ok(replied) => replied,
        Err(AllocError) => reply(rt, memory, by, engine, bytes)?,
    };
    expect_same(rt, replied.as_slice(), expected);
    Ok(())
}

// An engine gets a triangle's shard and an ask.
fn expect_replies(
    rt: &(impl Abort + Threads + Sync),
    memory: &Memory,
    by: HearBy,
    shard: &[u8],
) -> Result<(), AllocError> {
    let mut engine = Engine::new(memory);
    expect_reply(rt, memory, by, &mut engine, (shard, &[]))?;
    expect_reply(rt, memory, by, &mut engine, (&ASK, &ANSWER))
}

#[derive(Clone, Copy)]
enum Call {
    Scan(By, &'static [Row]),
    Hear(HearBy, &'static [u8]),
}

#[test]
fn scans_and_engines(rt: HostRuntime) {
    for call in [
        Call::Scan(By::OneThread, EQUAL_WEIGHTS.arcs),
        Call::Scan(By::OneThread, &WIDE_ARCS),
        Call::Scan(By::Threads, EQUAL_WEIGHTS.arcs),
        Call::Scan(By::Threads, &WIDE_ARCS),
        Call::Hear(HearBy::Hear, &SHARD),
        Call::Hear(HearBy::Hear, &SHARD64),
        Call::Hear(HearBy::HearPar, &SHARD),
        Call::Hear(HearBy::HearPar, &SHARD64),
    ] {
        expect_each(
            &rt,
            rt.alloc(),
            |memory: &Memory| -> Result<(), AllocError> {
                match call {
                    Call::Scan(by, arcs) => expect_offers(&rt, rt.alloc(), memory, by, arcs),
                    Call::Hear(by, shard) => expect_replies(&rt, memory, by, shard),
                }
            },
        );
    }
}

/// A session over a shard and an ask, with its limit of frames, if there is one: how it ends, and what it writes after
/// its hello.
#[derive(Clone, Copy)]
struct Session {
    shard: &'static [u8],
    ask: &'static [u8],
    limit: Option<u64>,
    end: Result<Served, ServeFault>,
    answer: &'static [u8],
}

// An ask of the shard with two labels, although the shard has a third vertex. And an ask of a shard that isn't stored.
// Each has its fault.
const SHORT_ASK: [u8; 25] = [
    3, 0, 0, 0, 20, 0, 0, 0, 1, 0, 0, 0, 0, 0, 0, 0, 2, 0, 0, 0, 1, 0, 0, 0, 2,
];

const NO_LABEL: [u8; 14] = [5, 0, 0, 0, 9, 0, 0, 0, 1, 0, 0, 0, 0, 3];

const ANOTHER_ASK: [u8; 29] = [
    3, 0, 0, 0, 24, 0, 0, 0, 1, 0, 0, 0, 7, 0, 0, 0, 3, 0, 0, 0, 1, 0, 0, 0, 2, 0, 0, 0, 3,
];

const NOT_KEPT: [u8; 14] = [5, 0, 0, 0, 9, 0, 0, 0, 1, 0, 0, 0, 7, 2];

// The session is as expected. Or it runs out of memory, and has written no answer. Or it has written, instead of the
// answer, that it had no memory.
fn expect_session(
    rt: &(impl Abort + Threads + Sync),
    alloc: Global,
    memory: &Memory,
    session: Session,
) -> Result<(), AllocError> {
    let heard = joined(rt, alloc, session.shard, session.ask);
    let mut source = heard.as_slice();
    let mut sink = Vec::new(alloc);
    let end = match session.limit {
        Some(limit) => serve_upto(rt, memory, 0, &mut source, &mut sink, limit),
        None => serve(rt, memory, 0, &mut source, &mut sink),
    };
    let (hello, replied) = sink.split_at(sink.len().min(HELLO.len()));
    if end == session.end && replied == session.answer {
        expect_same(rt, hello, HELLO.as_slice());
        return Ok(());
    }
    expect_same(rt, was_refused(memory), true);
    if replied == NO_MEMORY.as_slice() {
        let in_its_place = match session.end {
            Ok(_) => Ok(Served {
                frames: 2,
                answers: 0,
                faults: 1,
            }),
            Err(fault) => Err(fault),
        };
        expect_same(rt, end, in_its_place);
        return Ok(());
    }
    let wants = end == Err(ServeFault::Memory) || end == Err(ServeFault::Read(FrameFault::Memory));
    expect_same(rt, (end, wants, replied.is_empty()), (end, true, true));
    expect_same(rt, hello.is_empty() || hello == HELLO.as_slice(), true);
    Err(AllocError)
}

// Without a limit, with a limit that isn't reached, and with limits of 1 and of 2 frames, over either triangle.
#[test]
fn sessions_over_the_triangle(rt: HostRuntime) {
    let served = Ok(Served {
        frames: 2,
        answers: 1,
        faults: 0,
    });
    let too_many = Err(ServeFault::TooMany);
    let limits: [(Option<u64>, Result<Served, ServeFault>, &[u8]); 5] = [
        (None, served, &ANSWER),
        (Some(u64::MAX), served, &ANSWER),
        (Some(3), served, &ANSWER),
        (Some(2), too_many, &ANSWER),
        (Some(1), too_many, &[]),
    ];
    for shard in [SHARD.as_slice(), &SHARD64] {
        for (limit, end, answer) in limits {
            let session = Session {
                shard,
                ask: &ASK,
                limit,
                end,
                answer,
            };
            expect_any(
                &rt,
                rt.alloc(),
                |memory: &Memory| -> Result<(), AllocError> {
                    expect_session(&rt, rt.alloc(), memory, session)
                },
            );
        }
    }
}

// If an endpoint has no label, the fault for that or for out of memory is written. If the shard isn't stored, only its
// own fault is.
#[test]
fn sessions_with_a_fault(rt: HostRuntime) {
    let end = Ok(Served {
        frames: 2,
        answers: 0,
        faults: 1,
    });
    let asks: [(&[u8], &[u8]); 2] = [(&SHORT_ASK, &NO_LABEL), (&ANOTHER_ASK, &NOT_KEPT)];
    for (ask, answer) in asks {
        let session = Session {
            shard: &SHARD,
            ask,
            limit: None,
            end,
            answer,
        };
        expect_any(
            &rt,
            rt.alloc(),
            |memory: &Memory| -> Result<(), AllocError> {
                expect_session(&rt, rt.alloc(), memory, session)
            },
        );
    }
}
