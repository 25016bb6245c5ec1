// Sessions with one ask after another: with the labels of the previous ask, with labels that coarsen these, and with
// others. A shard is also sent again. Each reply is the answer to the ask or reports that the worker is out of memory.
// No block is left.
use super::frame_texts::{ANSWER, ASK, HELLO, NO_MEMORY, SHARD, SHARD64};
use super::in_turn::{Memory, expect_any, was_refused};
use super::same::expect_same;
use frames::{Answer, Frame, FrameFault, encode, encode_ask, encode_shard};
use link_key::{Labels, Link, Shard};
use std::alloc::{AllocError, Global};
use std::process::Abort;
use std::thread::Threads;
use test_memory::{Refusals, Refusing};
use worked_graphs::have_labels;
use worker_engine::{ServeFault, scan, serve};

// The ask of round 1 after vertex 2 has joined 1, and its answer. In either triangle the link between 1 and 3 is the
// lightest that leaves a component.
const COARSER_ASK: [u8; 29] = [
    3, 0, 0, 0, 24, 0, 0, 0, 1, 0, 0, 0, 0, 0, 0, 0, 3, 0, 0, 0, 1, 0, 0, 0, 1, 0, 0, 0, 3,
];

const COARSER_ANSWER: [u8; 33] = [
    4, 0, 0, 0, 28, 0, 0, 0, 1, 0, 0, 0, 0, 0, 0, 0, 2, 0, 0, 0, 1, 0, 0, 0, 2, 0, 0, 0, 3, 0, 0,
    0, 2,
];

#[derive(Clone, Copy)]
struct Talk<'a> {
    heard: &'a [&'a [u8]],
    answers: &'a [&'a [u8]],
}

fn joined(rt: &impl Abort, alloc: Global, parts: &[&[u8]]) -> Vec<u8> {
    let mut bytes = Vec::new(alloc);
    for part in parts {
        bytes.extend_from_slice(part).expect(rt, "memory");
    }
    bytes
}

// Returns how many replies are answers, and how many report that the worker is out of memory. Together they are all
// that was written.
fn replies_in(rt: &impl Abort, written: &[u8], answers: &[&[u8]]) -> (u64, u64) {
    let mut rest = written;
    let mut counts = (0u64, 0u64);
    for answer in answers {
        if let Some(behind) = rest.strip_prefix(*answer) {
            rest = behind;
            counts.0 = counts.0.wrapping_add(1);
        } else if let Some(behind) = rest.strip_prefix(NO_MEMORY.as_slice()) {
            rest = behind;
            counts.1 = counts.1.wrapping_add(1);
        }
    }
    expect_same(rt, rest.is_empty(), true);
    counts
}

// The session replies to each ask, or runs out of memory after it replied to the first ones. If no allocation failed,
// each reply is an answer.
fn expect_talk(
    rt: &(impl Abort + Threads + Sync),
    alloc: Global,
    memory: &Memory,
    talk: Talk,
) -> Result<(), AllocError> {
    let heard = joined(rt, alloc, talk.heard);
    let mut source = heard.as_slice();
    let mut sink = Vec::new(alloc);
    let ended = serve(rt, memory, 0, &mut source, &mut sink);
    let written = sink.as_slice();
    let replied = written.strip_prefix(HELLO.as_slice()).unwrap_or(&[]);
    let (answers, faults) = replies_in(rt, replied, talk.answers);
    let served = match ended {
        Ok(served) => served,
        Err(fault) => {
            let wants = fault == ServeFault::Memory
                || fault == ServeFault::Read(FrameFault::Memory);
            expect_same(rt, (fault, wants && was_refused(memory)), (fault, true));
            return Err(AllocError);
        }
    };
    let frames = talk.heard.len() as u64;
    let found = (served.frames, served.answers, served.faults);
    expect_same(rt, found, (frames, answers, faults));
    let asks = talk.answers.len() as u64;
    expect_same(rt, answers.wrapping_add(faults), asks);
    expect_same(rt, faults == 0 || was_refused(memory), true);
    Ok(())
}

#[test]
fn asks_of_two_triangles_in_turn(rt: HostRuntime) {
    let heard: [&[u8]; 8] = [
        &SHARD,
        &ASK,
        &ASK,
        &COARSER_ASK,
        &ASK,
        &SHARD64,
        &COARSER_ASK,
        &ASK,
    ];
    let answers: [&[u8]; 6] = [
        &ANSWER,
        &ANSWER,
        &COARSER_ANSWER,
        &ANSWER,
        &COARSER_ANSWER,
        &ANSWER,
    ];
    let talk = Talk {
        heard: &heard,
        answers: &answers,
    };
    expect_any(
        &rt,
        rt.alloc(),
        |memory: &Memory| -> Result<(), AllocError> { expect_talk(&rt, rt.alloc(), memory, talk) },
    );
}

// The links of a path, and so many more vertices that the links' labels are numbered. The names of the numbers are
// stored by gaps.
const LINKS: u32 = 4_200;

const VERTICES: u32 = 10_000;

fn path(rt: &impl Abort, alloc: Global) -> Vec<Link> {
    let mut links = Vec::new(alloc);
    for low in 1..LINKS + 1 {
        let link = Link::of_arc(low, low.wrapping_add(1), i64::from(low % 7)).expect(rt, "a link");
        links.push(link).expect(rt, "memory");
    }
    links
}

// Each vertex has its own label, but this one has the label of the vertex before it. If it is 0, all have their own.
fn labels_but(rt: &impl Abort, alloc: Global, vertex: u32) -> Labels {
    let mut list = Vec::new(alloc);
    for before in 0..VERTICES {
        let own = before + 1;
        list.push(if own == vertex { before } else { own })
            .expect(rt, "memory");
    }
    Labels::of_list(list).expect(rt, "labels")
}

// An ask of round 1 for the links with these labels, and its answer by a scan of all links.
fn ask_and_answer(
    rt: &impl Abort,
    alloc: Global,
    links: &[Link],
    labels: &Labels,
) -> (Vec<u8>, Vec<u8>) {
    assert!(rt; links.len() <= 1 << 24 && have_labels(links, labels.n()));
    let ask = encode_ask(alloc, 1, 0, labels).expect(rt, "memory");
    let answer: Frame = Frame::Answer(Answer {
        round: 1,
        shard: 0,
        offers: scan(alloc, links, labels).expect(rt, "memory"),
    });
    assert!(rt; answer.is_lawful());
    (ask, encode(alloc, &answer).expect(rt, "memory"))
}

#[test]
fn asks_of_a_long_path_in_turn(rt: HostRuntime) {
    let alloc = rt.alloc();
    let links = path(&rt, alloc);
    let links = links.as_slice();
    assert!(rt; links.len() <= 1 << 24);
    let shard = Shard { number: 0, links };
    let shard = encode_shard(alloc, &shard).expect(&rt, "memory");
    let (ask, answer) = ask_and_answer(&rt, alloc, links, &labels_but(&rt, alloc, 0));
    let (coarser, other) = ask_and_answer(&rt, alloc, links, &labels_but(&rt, alloc, 2));
    let heard: [&[u8]; 7] = [&shard, &ask, &ask, &coarser, &ask, &shard, &coarser];
    let answers: [&[u8]; 5] = [&answer, &answer, &other, &answer, &other];
    let talk = Talk {
        heard: &heard,
        answers: &answers,
    };
    let memory = Refusing::new(alloc, Refusals::none());
    let replied = expect_talk(&rt, alloc, &memory, talk).is_ok();
    expect_same(&rt, (replied, memory.live()), (true, 0));
}
