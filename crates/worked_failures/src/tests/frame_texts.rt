// Frames that are written and read. The bytes of a fault are made without allocations.
use super::in_turn::{Memory, expect_each, or_refused, was_refused};
use super::lists::few_links;
use super::same::expect_same;
use frames::{
    Answer, Frame, FrameFault, ask_parts, decode_body, decode_head, encode, encode_ask,
    encode_shard, fault_bytes, read_frame,
};
use link_key::{Labels, Offers, Shard};
use std::alloc::{AllocError, Allocator, Global};
use std::process::Abort;
use test_memory::{Refusals, Refusing};
use worked_graphs::{EQUAL_WEIGHTS, Row};

pub(crate) const HELLO: [u8; 11] = [1, 0, 0, 0, 6, 0, 2, 0, 0, 0, 0];

// The triangle of equal weights as shard 0.
pub(crate) const SHARD: [u8; 49] = [
    2, 0, 0, 0, 44, 0, 0, 0, 0, 0, 0, 0, 3, 0, 0, 0, 1, 0, 0, 0, 2, 0, 0, 0, 5, 0, 0, 0, 2, 0, 0,
    0, 3, 0, 0, 0, 5, 0, 0, 0, 1, 0, 0, 0, 3, 0, 0, 0, 5,
];

// The triangle with weights past 32 bits, both limits among them, and the same as shard 0. The answer is that of equal
// weights.
pub(crate) const WIDE_ARCS: [Row; 3] = [
    (1, 2, -9223372036854775808),
    (2, 3, 9223372036854775807),
    (1, 3, 2147483648),
];

pub(crate) const SHARD64: [u8; 61] = [
    6, 0, 0, 0, 56, 0, 0, 0, 0, 0, 0, 0, 3, 0, 0, 0, 1, 0, 0, 0, 2, 128, 0, 0, 0, 0, 0, 0, 0, 0, 0,
    0, 2, 0, 0, 0, 3, 127, 255, 255, 255, 255, 255, 255, 255, 0, 0, 0, 1, 0, 0, 0, 3, 0, 0, 0, 0,
    128, 0, 0, 0,
];

// A shard of one link whose weight fits 32 bits, in the form for greater weights.
const NEEDLESS: [u8; 29] = [
    6, 0, 0, 0, 24, 0, 0, 0, 0, 0, 0, 0, 1, 0, 0, 0, 1, 0, 0, 0, 2, 0, 0, 0, 0, 0, 0, 0, 5,
];

// A shard without links, in the form for weights past 32 bits.
const EMPTY_SHARD64: [u8; 13] = [6, 0, 0, 0, 8, 0, 0, 0, 0, 0, 0, 0, 0];

// The ask of round 1 for shard 0. Each vertex is a component by itself.
pub(crate) const ASK: [u8; 29] = [
    3, 0, 0, 0, 24, 0, 0, 0, 1, 0, 0, 0, 0, 0, 0, 0, 3, 0, 0, 0, 1, 0, 0, 0, 2, 0, 0, 0, 3,
];

// The answer to that ask.
pub(crate) const ANSWER: [u8; 41] = [
    4, 0, 0, 0, 36, 0, 0, 0, 1, 0, 0, 0, 0, 0, 0, 0, 3, 0, 0, 0, 1, 0, 0, 0, 0, 0, 0, 0, 2, 0, 0,
    0, 0, 0, 0, 0, 3, 0, 0, 0, 2,
];

// The worker has no memory to answer the ask of round 1 for shard 0.
pub(crate) const NO_MEMORY: [u8; 14] = [5, 0, 0, 0, 9, 0, 0, 0, 1, 0, 0, 0, 0, 1];

#[derive(Clone, Copy)]
enum Call {
    ReadFrame,
    DecodeBody,
    EncodeShard,
    EncodeShard64,
    EncodeAsk,
    SpellLabels,
    EncodeAnswer,
}

// If a call reads a frame, it reads these bytes, and they are written again. If a call writes a frame, it writes these
// bytes.
const CALLS: [(Call, &[u8]); 17] = [
    (Call::ReadFrame, &HELLO),
    (Call::ReadFrame, &SHARD),
    (Call::ReadFrame, &SHARD64),
    (Call::ReadFrame, &ASK),
    (Call::ReadFrame, &ANSWER),
    (Call::ReadFrame, &NO_MEMORY),
    (Call::DecodeBody, &HELLO),
    (Call::DecodeBody, &SHARD),
    (Call::DecodeBody, &SHARD64),
    (Call::DecodeBody, &ASK),
    (Call::DecodeBody, &ANSWER),
    (Call::DecodeBody, &NO_MEMORY),
    (Call::EncodeShard, &SHARD),
    (Call::EncodeShard64, &SHARD64),
    (Call::EncodeAsk, &ASK),
    (Call::SpellLabels, &ASK),
    (Call::EncodeAnswer, &ANSWER),
];

// The bytes that the call writes. A call that reads a frame reads `bytes`.
fn text_of<'a>(
    rt: &impl Abort,
    alloc: Global,
    memory: &'a Memory,
    call: Call,
    bytes: &[u8],
) -> Result<Vec<u8, &'a Memory>, AllocError> {
    match call {
        Call::ReadFrame => {
            let mut source = bytes;
            again(rt, memory, read_frame(memory, &mut source))
        }
        Call::DecodeBody => decoded_again(rt, memory, bytes),
        Call::EncodeShard => encode_triangle(rt, alloc, memory, EQUAL_WEIGHTS.arcs),
        Call::EncodeShard64 => encode_triangle(rt, alloc, memory, &WIDE_ARCS),
        Call::EncodeAsk => ask_apart(rt, alloc, memory),
        Call::SpellLabels => ask_spelled(rt, memory),
        Call::EncodeAnswer => encode_answer(rt, alloc, memory),
    }
}

fn again<'a>(
    rt: &impl Abort,
    memory: &'a Memory,
    read: Result<Frame<&'a Memory>, FrameFault>,
) -> Result<Vec<u8, &'a Memory>, AllocError> {
    let frame = or_refused(rt, read, FrameFault::Memory)?;
    written(rt, memory, &frame)
}

pub(crate) fn written<'a, A: Allocator>(
    rt: &impl Abort,
    memory: &'a Memory,
    frame: &Frame<A>,
) -> Result<Vec<u8, &'a Memory>, AllocError> {
    assert!(rt; frame.is_lawful());
    encode(memory, frame)
}

// Reads the head and the body of a frame separately.
fn decoded_again<'a>(
    rt: &impl Abort,
    memory: &'a Memory,
    bytes: &[u8],
) -> Result<Vec<u8, &'a Memory>, AllocError> {
    let (first, body) = bytes.split_first_chunk::<5>().expect(rt, "a head");
    let head = decode_head(first).ok().expect(rt, "a head");
    assert!(rt; body.len() == head.length as usize);
    again(rt, memory, decode_body(memory, head, body))
}

fn ask_apart<'a>(
    rt: &impl Abort,
    alloc: Global,
    memory: &'a Memory,
) -> Result<Vec<u8, &'a Memory>, AllocError> {
    let labels = Labels::apart(alloc, 3).expect(rt, "memory");
    encode_ask(memory, 1, 0, &labels)
}

fn expect_ask<'a>(
    rt: &impl Abort,
    memory: &'a Memory,
    labels: &Labels<&'a Memory>,
) -> Result<(), AllocError> {
    expect_same(rt, labels.as_slice(), [1, 2, 3].as_slice());
    let text = encode_ask(memory, 1, 0, labels)?;
    expect_same(rt, text.as_slice(), ASK.as_slice());
    Ok(())
}

// Labels that store their encoded bytes, so that an ask has two parts, of which the second is these bytes. If there is
// no memory for the bytes, the labels stay as they were.
//
// An ask with the labels is the same before and after. Making its parts allocates nothing, and neither does storing the
// bytes again.
fn ask_spelled<'a>(rt: &impl Abort, memory: &'a Memory) -> Result<Vec<u8, &'a Memory>, AllocError> {
    let mut labels = Labels::apart(memory, 3)?;
    expect_ask(rt, memory, &labels)?;
    if labels.spell().is_err() {
        expect_same(rt, ask_parts(1, 0, &labels).is_none(), true);
        expect_ask(rt, memory, &labels)?;
        labels.spell()?;
    }
    let asked = memory.asked();
    labels.spell()?;
    let (head, bytes) = ask_parts(1, 0, &labels).expect(rt, "kept bytes");
    expect_same(rt, (head.as_slice(), bytes), ASK.split_at(17));
    expect_same(rt, memory.asked(), asked);
    expect_ask(rt, memory, &labels)?;
    encode_ask(memory, 1, 0, &labels)
}

fn encode_triangle<'a>(
    rt: &impl Abort,
    alloc: Global,
    memory: &'a Memory,
    arcs: &[Row],
) -> Result<Vec<u8, &'a Memory>, AllocError> {
    let links = few_links(rt, alloc, 3, arcs);
    let shard = Shard {
        number: 0,
        links: links.as_slice(),
    };
    encode_shard(memory, &shard)
}

fn encode_answer<'a>(
    rt: &impl Abort,
    alloc: Global,
    memory: &'a Memory,
) -> Result<Vec<u8, &'a Memory>, AllocError> {
    let pairs = [(1, 0), (2, 0), (3, 2)].to_vec(alloc).expect(rt, "memory");
    let frame = Frame::Answer(Answer {
        round: 1,
        shard: 0,
        offers: Offers::of_pairs(pairs).expect(rt, "offers"),
    });
    written(rt, memory, &frame)
}

#[test]
fn frames_that_are_read_and_written(rt: HostRuntime) {
    for (call, bytes) in CALLS {
        expect_each(
            &rt,
            rt.alloc(),
            |memory: &Memory| -> Result<(), AllocError> {
                let text = text_of(&rt, rt.alloc(), memory, call, bytes)?;
                expect_same(&rt, text.as_slice(), bytes);
                Ok(())
            },
        );
    }
    expect_same(&rt, fault_bytes(1, 0, 1), NO_MEMORY);
}

// The bytes are rejected with this error, or with out of memory.
fn expect_refused(rt: &impl Abort, memory: Memory, bytes: &[u8], fault: FrameFault) {
    let mut source = bytes;
    let found = read_frame(&memory, &mut source).err();
    let wants = was_refused(&memory) && found == Some(FrameFault::Memory);
    expect_same(rt, found == Some(fault) || wants, true);
    expect_same(rt, memory.live(), 0);
}

// An unlawful frame is rejected for its own reason, or with out of memory. The reasons are labels, a kind, a version, a
// worker, components that descend, a code, and 64 bits that no weight needs. Others are torn frames.
#[test]
fn frames_that_are_refused(rt: HostRuntime) {
    let mut cut = ASK;
    cut[28] = 4;
    let mut kind = HELLO;
    kind[0] = 7;
    let mut version = HELLO;
    version[6] = 3;
    let mut worker = HELLO;
    worker[10] = 64;
    let mut order = ANSWER;
    order[20] = 2;
    order[28] = 1;
    let mut code = NO_MEMORY;
    code[13] = 4;
    let refused: [(&[u8], FrameFault); 10] = [
        (&cut, FrameFault::BadField),
        (&ASK[..20], FrameFault::Torn),
        (&kind, FrameFault::BadKind),
        (&version, FrameFault::BadVersion),
        (&worker, FrameFault::BadField),
        (&order, FrameFault::BadField),
        (&code, FrameFault::BadField),
        (&NEEDLESS, FrameFault::BadField),
        (&EMPTY_SHARD64, FrameFault::BadField),
        (&SHARD64[..60], FrameFault::Torn),
    ];
    for (bytes, fault) in refused {
        for number in 1..8u64 {
            for refusals in [Refusals::only(number), Refusals::since(number)] {
                expect_refused(&rt, Refusing::new(rt.alloc(), refusals), bytes, fault);
            }
        }
    }
}
