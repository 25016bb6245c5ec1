// The blocks of a list that is read from a frame, and the one block of a frame that is written.
use super::same::expect_same;
use super::sizes::frame_bytes;
use frames::{FrameFault, decode_body, decode_head, encode, encode_ask, read_frame};
use link_key::Labels;
use std::alloc::Global;
use std::process::Abort;
use test_memory::{Refusals, Refusing};

const HELLO: [u8; 11] = [1, 0, 0, 0, 6, 0, 1, 0, 0, 0, 0];

const SHARD: [u8; 25] = [
    2, 0, 0, 0, 20, 0, 0, 0, 0, 0, 0, 0, 1, 0, 0, 0, 1, 0, 0, 0, 2, 0, 0, 0, 5,
];

const ASK: [u8; 29] = [
    3, 0, 0, 0, 24, 0, 0, 0, 1, 0, 0, 0, 0, 0, 0, 0, 3, 0, 0, 0, 1, 0, 0, 0, 1, 0, 0, 0, 3,
];

const ANSWER: [u8; 33] = [
    4, 0, 0, 0, 28, 0, 0, 0, 1, 0, 0, 0, 0, 0, 0, 0, 2, 0, 0, 0, 1, 0, 0, 0, 0, 0, 0, 0, 2, 0, 0,
    0, 0,
];

const FAULT: [u8; 14] = [5, 0, 0, 0, 9, 0, 0, 0, 1, 0, 0, 0, 5, 2];

// The endpoints of the second link are equal.
const SHARD_WITH_A_LOOP: [u8; 37] = [
    2, 0, 0, 0, 32, 0, 0, 0, 0, 0, 0, 0, 2, 0, 0, 0, 1, 0, 0, 0, 2, 0, 0, 0, 5, 0, 0, 0, 3, 0, 0,
    0, 3, 0, 0, 0, 5,
];

// The label of vertex 3 is 2, but the label of vertex 2 is 1.
const ASK_WITHOUT_LABELS: [u8; 29] = [
    3, 0, 0, 0, 24, 0, 0, 0, 1, 0, 0, 0, 0, 0, 0, 0, 3, 0, 0, 0, 1, 0, 0, 0, 1, 0, 0, 0, 2,
];

// The components are 2 and then 1.
const ANSWER_THAT_DESCENDS: [u8; 33] = [
    4, 0, 0, 0, 28, 0, 0, 0, 1, 0, 0, 0, 0, 0, 0, 0, 2, 0, 0, 0, 2, 0, 0, 0, 0, 0, 0, 0, 1, 0, 0,
    0, 0,
];

const FAULT_WITH_CODE_4: [u8; 14] = [5, 0, 0, 0, 9, 0, 0, 0, 1, 0, 0, 0, 5, 4];

// Returns why no frame is read with this allocator, how many blocks it provided, and how many are still allocated.
fn refused(memory: &Refusing<Global>, bytes: &[u8]) -> (Option<FrameFault>, u64, u64) {
    let mut source = bytes;
    let fault = read_frame(memory, &mut source).err();
    (fault, memory.given(), memory.live())
}

// The frame is rejected with this error. Blocks were allocated for it, and all are freed.
fn expect_nothing_lives(rt: &impl Abort, alloc: Global, bytes: &[u8], expected: FrameFault) {
    let memory = Refusing::new(alloc, Refusals::none());
    let (fault, given, live) = refused(&memory, bytes);
    expect_same(rt, (fault, given > 0, live), (Some(expected), true, 0));
}

#[test]
fn a_refused_body_is_dropped(rt: HostRuntime) {
    let bad = FrameFault::BadField;
    expect_nothing_lives(&rt, rt.alloc(), &SHARD_WITH_A_LOOP, bad);
    expect_nothing_lives(&rt, rt.alloc(), &ASK_WITHOUT_LABELS, bad);
    expect_nothing_lives(&rt, rt.alloc(), &ANSWER_THAT_DESCENDS, bad);
}

// The fields of a fault need no memory.
#[test]
fn a_refused_fault_takes_no_memory(rt: HostRuntime) {
    let memory = Refusing::new(rt.alloc(), Refusals::none());
    let expected = (Some(FrameFault::BadField), 0, 0);
    expect_same(&rt, refused(&memory, &FAULT_WITH_CODE_4), expected);
}

#[test]
fn a_torn_body_is_dropped(rt: HostRuntime) {
    expect_nothing_lives(&rt, rt.alloc(), &ASK[..28], FrameFault::Torn);
}

// While the frame exists, exactly this many blocks are allocated, and none after it is dropped.
fn expect_blocks(rt: &impl Abort, alloc: Global, bytes: &[u8], blocks: u64) {
    let memory = Refusing::new(alloc, Refusals::none());
    let mut source = bytes;
    let frame = read_frame(&memory, &mut source);
    expect_same(rt, (frame.is_ok(), memory.live()), (true, blocks));
    drop(frame);
    expect_same(rt, memory.live(), 0);
}

#[test]
fn a_frame_keeps_its_list_alone(rt: HostRuntime) {
    expect_blocks(&rt, rt.alloc(), &SHARD, 1);
    expect_blocks(&rt, rt.alloc(), &ASK, 1);
    expect_blocks(&rt, rt.alloc(), &ANSWER, 1);
    expect_blocks(&rt, rt.alloc(), &HELLO, 0);
    expect_blocks(&rt, rt.alloc(), &FAULT, 0);
}

// Each allocation of an ask of two pieces fails in turn. The error is out of memory, and no block is left.
#[test]
fn what_came_before_a_refusal_is_dropped(rt: HostRuntime) {
    let labels = Labels::apart(rt.alloc(), 20_000).expect(&rt, "memory");
    let ask = encode_ask(rt.alloc(), 1, 0, &labels).expect(&rt, "memory");
    for number in 1..3u64 {
        let memory = Refusing::new(rt.alloc(), Refusals::since(number));
        let expected = (Some(FrameFault::Memory), number - 1, 0);
        expect_same(&rt, refused(&memory, ask.as_slice()), expected);
    }
}

// The head and the fields announce many items. This item follows `count` times, and then a single byte.
fn expect_given(
    rt: &impl Abort,
    alloc: Global,
    head: &[u8],
    item: &[u8],
    count: usize,
    blocks: u64,
) {
    let mut bytes = Vec::from_slice(alloc, head).expect(rt, "memory");
    for _ in 0..count {
        bytes.extend_from_slice(item).expect(rt, "memory");
    }
    bytes.push(0).expect(rt, "memory");
    let memory = Refusing::new(alloc, Refusals::none());
    let found = refused(&memory, bytes.as_slice());
    let expected = (Some(FrameFault::Torn), blocks, 0);
    expect_same(rt, (count, found), (count, expected));
}

// The links of a shard first get a block for one piece. A new block, twice as large, is allocated only when that one is
// full. After an unlawful link no more blocks are allocated.
#[test]
fn links_are_given_room_as_they_come(rt: HostRuntime) {
    let head = [2, 12, 0, 0, 8, 0, 0, 0, 0, 1, 0, 0, 0];
    let link = [0, 0, 0, 1, 0, 0, 0, 2, 0, 0, 0, 5];
    for (pieces, blocks) in [(0, 1), (1, 2), (2, 3), (3, 3), (4, 4), (7, 4), (8, 5)] {
        expect_given(&rt, rt.alloc(), &head, &link, pieces * 5_461, blocks);
        expect_given(&rt, rt.alloc(), &head, &[0; 12], pieces * 5_461, 1);
    }
}

// The same for the labels of an ask, with 16,384 labels per piece, lawful or not. If the count is wrong, nothing is
// allocated.
#[test]
fn labels_are_given_room_as_they_come(rt: HostRuntime) {
    let head = [3, 16, 0, 0, 12, 0, 0, 0, 1, 0, 0, 0, 0, 4, 0, 0, 0];
    let mut other = head;
    other[16] = 1;
    let label = [0, 0, 0, 1];
    for (pieces, blocks) in [(0, 1), (1, 2), (2, 3), (3, 3), (4, 4), (7, 4), (8, 5)] {
        expect_given(&rt, rt.alloc(), &head, &label, pieces * 16_384, blocks);
        expect_given(&rt, rt.alloc(), &other, &label, pieces * 16_384, 0);
    }
}

// The same for the offers of an answer, with 8,192 per piece, ascending or not. If the count is wrong, nothing is
// allocated.
#[test]
fn offers_are_given_room_as_they_come(rt: HostRuntime) {
    let head = [4, 16, 0, 0, 12, 0, 0, 0, 1, 0, 0, 0, 0, 2, 0, 0, 0];
    let mut other = head;
    other[16] = 1;
    let offer = [0, 0, 0, 1, 0, 0, 0, 2];
    for (pieces, blocks) in [(0, 1), (1, 2), (2, 3), (3, 3), (4, 4), (7, 4), (8, 5)] {
        expect_given(&rt, rt.alloc(), &head, &offer, pieces * 8_192, blocks);
        expect_given(&rt, rt.alloc(), &other, &offer, pieces * 8_192, 0);
    }
}

// Reads frames of this kind with these fields and numbers of items. Each allocates this many blocks, and none is left
// after it is dropped.
fn expect_read(
    rt: &impl Abort,
    alloc: Global,
    kind: u8,
    fields: &[u32],
    item: &[u32],
    rows: &[(u32, u64)],
    fault: Option<FrameFault>,
) {
    for (count, blocks) in rows {
        let mut numbers = Vec::from_slice(alloc, fields).expect(rt, "memory");
        numbers.push(*count).expect(rt, "memory");
        for _ in 0..*count {
            numbers.extend_from_slice(item).expect(rt, "memory");
        }
        let bytes = frame_bytes(rt, alloc, kind, numbers.as_slice());
        let memory = Refusing::new(alloc, Refusals::none());
        let found = refused(&memory, bytes.as_slice());
        expect_same(rt, (*count, found), (*count, (fault, *blocks, 0)));
    }
}

// A list whose last piece isn't full moves to a smaller block when it is complete, so that no capacity is wasted. This
// holds for the links of a shard and for the offers of an answer. The offers here are rejected afterwards.
#[test]
fn a_list_keeps_no_room_that_it_does_not_fill(rt: HostRuntime) {
    let shards = [(5_461, 1), (5_462, 3), (8_191, 3), (10_922, 2), (10_923, 4)];
    expect_read(&rt, rt.alloc(), 2, &[0], &[1, 2, 5], &shards, None);
    let answers = [
        (8_192, 1),
        (8_193, 3),
        (12_288, 3),
        (16_384, 2),
        (16_385, 4),
    ];
    let bad = Some(FrameFault::BadField);
    expect_read(&rt, rt.alloc(), 4, &[1, 0], &[1, 2], &answers, bad);
}

// Writing a frame allocates one block, whatever its size. Reading the body allocates this many blocks for the list.
fn expect_one_block(rt: &impl Abort, alloc: Global, bytes: &[u8], listed: u32) {
    let memory = Refusing::new(alloc, Refusals::none());
    let Some((first, body)) = bytes.split_first_chunk::<5>() else {
        panic!(rt; "a head");
    };
    let head = decode_head(first).expect(rt, "a head");
    assert!(rt; body.len() == head.length as usize);
    let frame = decode_body(alloc, head, body).expect(rt, "a body");
    assert!(rt; frame.is_lawful());
    let text = encode(&memory, &frame).expect(rt, "memory");
    expect_same(rt, text.as_slice() == bytes, true);
    expect_same(rt, memory.given(), 1);
    let _frame = decode_body(&memory, head, body).expect(rt, "a body");
    expect_same(rt, memory.given(), 1 + u64::from(listed));
}

// A list that is read in pieces has more capacity than it needs at first, and then moves to a block of its size.
#[test]
fn a_text_is_given_one_block(rt: HostRuntime) {
    let labels = Labels::apart(rt.alloc(), 20_000).expect(&rt, "memory");
    let long = encode_ask(rt.alloc(), 1, 0, &labels).expect(&rt, "memory");
    for (bytes, listed) in [
        (SHARD.as_slice(), 2),
        (&ASK, 2),
        (&ANSWER, 2),
        (long.as_slice(), 3),
    ] {
        expect_one_block(&rt, rt.alloc(), bytes, listed);
    }
}
