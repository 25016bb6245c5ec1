// Frames at the size of every internal buffer, one less and one more, up to twice the largest of them and above. The
// proofs allow a call to give up at some size, so only these tests show that it doesn't. Formulas here give the
// expected results.
//
// Labels are encoded 1,024 at a time. The links of a shard are read in pieces of 5,461, or of 4,096 if weights have 64
// bits. The offers of an answer are read in pieces of 8,192. Any other body is read in pieces of 65,536 bytes. An ask
// has 12 bytes and 4 per label, so 16,381 labels fill one piece exactly.
use super::next_frames::next_bytes;
use super::same::expect_same;
use byte_streams::FusedSource;
use frames::{
    Answer, Frame, Links, decode_body, decode_head, encode, encode_ask, encode_shard, read_frame,
    read_next,
};
use link_key::{Labels, Link, Offers, Shard};
use std::alloc::Global;
use std::process::Abort;

// Appends four bytes, the highest first.
fn put_number(rt: &impl Abort, text: &mut Vec<u8>, number: u32) {
    text.extend_from_slice(&number.to_be_bytes())
        .expect(rt, "memory");
}

// The bytes of a frame of this kind, whose body is these numbers.
pub(super) fn frame_bytes(rt: &impl Abort, alloc: Global, kind: u8, numbers: &[u32]) -> Vec<u8> {
    assert!(rt; numbers.len() < 1 << 30);
    let mut text = Vec::from_slice(alloc, &[kind]).expect(rt, "memory");
    put_number(rt, &mut text, numbers.len() as u32 * 4);
    for number in numbers {
        put_number(rt, &mut text, *number);
    }
    text
}

// The bytes of a frame, which has to be lawful.
pub(super) fn text_of(rt: &impl Abort, alloc: Global, frame: &Frame) -> Vec<u8> {
    assert!(rt; frame.is_lawful());
    encode(alloc, frame).expect(rt, "memory")
}

// Encoding the frame gives these bytes. Reading them gives the frame: as a whole, in pieces, and as a head and a body.
fn expect_text(rt: &impl Abort, alloc: Global, frame: &Frame, bytes: &[u8]) {
    let slow = FusedSource::new(
        Vec::from_slice(alloc, bytes).expect(rt, "memory"),
        usize::MAX,
        1000,
    );
    let Some((first, body)) = bytes.split_first_chunk::<5>() else {
        panic!(rt; "a head");
    };
    let head = decode_head(first).expect(rt, "a head");
    assert!(rt; body.len() == head.length as usize);
    let whole = read_frame(alloc, &mut &*bytes).expect(rt, "a frame");
    let pieced = read_frame(alloc, &mut { slow }).expect(rt, "a frame");
    let decoded = decode_body(alloc, head, body).expect(rt, "a body");
    expect_encoded(rt, alloc, frame, bytes);
    expect_encoded(rt, alloc, &whole, bytes);
    expect_encoded(rt, alloc, &pieced, bytes);
    expect_encoded(rt, alloc, &decoded, bytes);
}

fn expect_encoded(rt: &impl Abort, alloc: Global, frame: &Frame, bytes: &[u8]) {
    let text = text_of(rt, alloc, frame);
    let count = bytes.len();
    expect_same(rt, (count, text.as_slice() == bytes), (count, true));
}

const HALF: u64 = 1 << 32;

#[derive(Clone, Copy)]
pub(super) enum Weights {
    Of32,
    Of64,
}

// The links of a path from vertex 1 on, and the numbers of their shard. The first link has the least weight of this
// many bits. The weights of the others descend from the greatest. A weight of 64 bits is two numbers, the higher first.
pub(super) fn path(
    rt: &impl Abort,
    alloc: Global,
    weights: Weights,
    number: u32,
    count: u32,
) -> (Vec<Link>, Vec<u32>) {
    assert!(rt; count <= 1 << 24);
    let mut links = Vec::new(alloc);
    let mut numbers = Vec::from_slice(alloc, &[number, count]).expect(rt, "memory");
    for before in 0..count {
        let (low, high) = (before + 1, before + 2);
        let narrow = i32::MIN.wrapping_sub(before.cast_signed());
        let wide = i64::MIN.wrapping_sub(i64::from(before));
        let weight = match weights {
            Weights::Of32 => {
                numbers
                    .extend_from_slice(&[low, high, narrow.cast_unsigned()])
                    .expect(rt, "memory");
                i64::from(narrow)
            }
            Weights::Of64 => {
                let bits = wide.cast_unsigned();
                let (upper, lower) = ((bits / HALF) as u32, (bits % HALF) as u32);
                numbers
                    .extend_from_slice(&[low, high, upper, lower])
                    .expect(rt, "memory");
                wide
            }
        };
        if let Some(link) = Link::of_arc(low, high, weight) {
            links.push(link).expect(rt, "memory");
        }
    }
    (links, numbers)
}

fn expect_shard(rt: &impl Abort, alloc: Global, weights: Weights, number: u32, count: u32) {
    let (links, numbers) = path(rt, alloc, weights, number, count);
    let kind = match weights {
        Weights::Of32 => 2,
        Weights::Of64 => 6,
    };
    let bytes = frame_bytes(rt, alloc, kind, numbers.as_slice());
    let shard = Shard {
        number,
        links: links.as_slice(),
    };
    assert!(rt; number < 4096 && shard.links.len() <= 1 << 24);
    let text = encode_shard(alloc, &shard).expect(rt, "memory");
    let same = text.as_slice() == bytes.as_slice();
    expect_same(rt, (count, same), (count, true));
    let frame = Frame::Shard {
        number,
        links: Links::of_list(links),
    };
    expect_text(rt, alloc, &frame, bytes.as_slice())
}

#[test]
fn shards_of_so_many_links(rt: HostRuntime) {
    for count in [
        0, 1, 5_460, 5_461, 5_462, 10_000, 12_000, 21_845, 21_846, 100_001,
    ] {
        expect_shard(&rt, rt.alloc(), Weights::Of32, 7, count);
    }
    for count in [
        1, 4_095, 4_096, 4_097, 8_191, 8_192, 10_000, 12_000, 16_384, 16_385, 100_001,
    ] {
        expect_shard(&rt, rt.alloc(), Weights::Of64, 7, count);
    }
    for weights in [Weights::Of32, Weights::Of64] {
        expect_shard(&rt, rt.alloc(), weights, 0, 1);
        expect_shard(&rt, rt.alloc(), weights, 4095, 1);
    }
}

fn apart(rt: &impl Abort, alloc: Global, count: u32) -> Labels {
    assert!(rt; count <= 1 << 26);
    Labels::apart(alloc, count).expect(rt, "memory")
}

// The bytes of the ask of round 5 for shard 4095 with this many labels.
fn ask_bytes(rt: &impl Abort, alloc: Global, count: u32) -> Vec<u8> {
    let mut numbers = Vec::from_slice(alloc, &[5, 4095, count]).expect(rt, "memory");
    for before in 0..count {
        numbers.push(before + 1).expect(rt, "memory");
    }
    frame_bytes(rt, alloc, 3, numbers.as_slice())
}

// After an ask with these labels, these bytes are read as the frame that they encode.
fn expect_behind(rt: &impl Abort, alloc: Global, bytes: &[u8], behind: &Labels) {
    let again = read_next(alloc, &mut { bytes }, behind.as_slice()).expect(rt, "a frame");
    let same = next_bytes(rt, alloc, &again, behind);
    let found = (bytes.len(), behind.n(), same.as_slice() == bytes);
    expect_same(rt, found, (bytes.len(), behind.n(), true));
}

// An ask of `count` labels, read after an ask of `before` labels and after itself.
fn expect_ask(rt: &impl Abort, alloc: Global, before: u32, count: u32) {
    let labels = apart(rt, alloc, count);
    let bytes = ask_bytes(rt, alloc, count);
    let last = apart(rt, alloc, before);
    let alone = encode_ask(alloc, 5, 4095, &labels).expect(rt, "memory");
    let same = alone.as_slice() == bytes.as_slice();
    expect_same(rt, (count, same), (count, true));
    expect_behind(rt, alloc, bytes.as_slice(), &last);
    expect_behind(rt, alloc, bytes.as_slice(), &labels);
    let frame = Frame::Ask {
        round: 5,
        shard: 4095,
        labels,
    };
    expect_text(rt, alloc, &frame, bytes.as_slice())
}

#[test]
fn asks_of_so_many_labels(rt: HostRuntime) {
    let rows = [
        (0, 0),
        (3, 0),
        (0, 1),
        (1, 1_023),
        (1_023, 1_024),
        (1_024, 1_025),
        (2_048, 16_380),
        (16_380, 16_381),
        (36_000, 16_382),
        (16_383, 16_384),
        (16_384, 16_385),
        (16_382, 32_765),
        (1, 32_769),
        (1, 36_000),
        (36_000, 36_000),
    ];
    for (before, count) in rows {
        expect_ask(&rt, rt.alloc(), before, count);
    }
}

// Offers for the components from 1 on, and the numbers of their answer.
pub(super) fn answer_of(rt: &impl Abort, alloc: Global, count: u32) -> (Vec<(u32, u32)>, Vec<u32>) {
    let mut pairs = Vec::new(alloc);
    let mut numbers = Vec::from_slice(alloc, &[5, 6, count]).expect(rt, "memory");
    for before in 0..count {
        let pair = (before + 1, before.wrapping_mul(3));
        pairs.push(pair).expect(rt, "memory");
        numbers
            .extend_from_slice(&[pair.0, pair.1])
            .expect(rt, "memory");
    }
    (pairs, numbers)
}

fn expect_answer(rt: &impl Abort, alloc: Global, count: u32) {
    let (pairs, numbers) = answer_of(rt, alloc, count);
    let bytes = frame_bytes(rt, alloc, 4, numbers.as_slice());
    let frame = Frame::Answer(Answer {
        round: 5,
        shard: 6,
        offers: Offers::of_pairs(pairs).expect(rt, "ascending"),
    });
    expect_text(rt, alloc, &frame, bytes.as_slice())
}

#[test]
fn answers_of_so_many_offers(rt: HostRuntime) {
    for count in [0, 1, 8_191, 8_192, 8_193, 16_384, 16_385, 24_000, 100_001] {
        expect_answer(&rt, rt.alloc(), count);
    }
}
