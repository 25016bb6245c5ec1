// Shards in pieces: 64 KiB have 5,461 links with weights of 32 bits, or 4,096 with weights of 64 bits. A formula gives
// their bytes. Flaws are put where a piece begins or ends, and in the middle of one.
ghost use Rattle.std.specs.Prelude.{◌^◌, ◌<◌};

use super::same::expect_same;
use super::sizes::{Weights, frame_bytes, path};
use byte_streams::FusedSource;
use frames::{Frame, FrameFault, SHARD_HEAD, Spelling, put_links, read_frame, shard_head};
use link_key::{Link, Shard};
use std::alloc::Global;
use std::process::Abort;

// Around the size of one piece of either form, and more than two pieces.
const COUNTS: [u32; 6] = [4_095, 4_096, 4_097, 5_461, 5_462, 10_000];

fn kind_of(weights: Weights) -> u8 {
    match weights {
        Weights::Of32 => 2,
        Weights::Of64 => 6,
    }
}

// The index in the body of the first number of this link. It is also the number of numbers before that link.
fn number_at(weights: Weights, place: u32) -> usize
    ensures { result < 2 ^ 40 }
{
    let place = place as usize;
    match weights {
        Weights::Of32 => 2 + 3 * place,
        Weights::Of64 => 2 + 4 * place,
    }
}

pub(super) fn read_by(
    rt: &impl Abort,
    alloc: Global,
    bytes: &[u8],
    piece: usize,
) -> Result<Frame, FrameFault> {
    let piece = piece.max(1);
    let source = FusedSource::new(
        Vec::from_slice(alloc, bytes).expect(rt, "memory"),
        usize::MAX,
        piece,
    );
    read_frame(alloc, &mut { source })
}

fn expect_links(rt: &impl Abort, frame: Frame, of: u32, expected: &[Link]) {
    match frame {
        Frame::Shard { number, links } => {
            expect_same(rt, number, of);
            expect_same(rt, links.as_slice() == expected, true);
        }
        _ => assert!(rt; false),
    }
}

// Making the shard from this many links at a time gives these bytes.
#[tactic(auto, using(frames::proofs::Spelled::fit_of))]
fn expect_put(rt: &impl Abort, alloc: Global, shard: &Shard, at_a_time: usize, bytes: &[u8]) {
    assert!(rt; shard.number < 4096 && shard.links.len() <= 1 << 24);
    let spelling = Spelling::of(shard.links);
    let head = shard_head(shard, spelling);
    let mut text = Vec::from_slice(alloc, &head).expect(rt, "memory");
    expect_same(rt, head.len(), SHARD_HEAD);
    for piece in shard.links.chunks(at_a_time.max(1)) {
        let same = Spelling::of(piece);
        expect_same(rt, same, spelling);
        assert!(rt; piece.len() <= 1 << 24);
        text.reserve(same.bytes_of(piece.len()))
            .expect(rt, "memory");
        put_links(&mut text, same, piece);
    }
    expect_same(rt, text.as_slice() == bytes, true);
}

// The bytes of a shard are read as that shard: as a whole, seven at a time and one at a time. The byte after them isn't
// read.
fn expect_read(rt: &impl Abort, alloc: Global, weights: Weights, count: u32) {
    let (links, numbers) = path(rt, alloc, weights, 7, count);
    let mut bytes = frame_bytes(rt, alloc, kind_of(weights), numbers.as_slice());
    let shard = Shard {
        number: 7,
        links: links.as_slice(),
    };
    for at_a_time in [1_000, 4_096, 5_461, 20_000] {
        expect_put(rt, alloc, &shard, at_a_time, bytes.as_slice());
    }
    for piece in [1, 7, usize::MAX] {
        let frame = read_by(rt, alloc, bytes.as_slice(), piece).expect(rt, "a frame");
        expect_links(rt, frame, 7, links.as_slice());
    }
    bytes.push(77).expect(rt, "memory");
    let mut source = bytes.as_slice();
    expect_links(
        rt,
        read_frame(alloc, &mut source).expect(rt, "a frame"),
        7,
        links.as_slice(),
    );
    expect_same(rt, source, [77].as_slice());
}

#[test]
fn shards_by_pieces(rt: HostRuntime) {
    for count in COUNTS {
        expect_read(&rt, rt.alloc(), Weights::Of32, count);
        expect_read(&rt, rt.alloc(), Weights::Of64, count);
    }
}

// A frame with a flaw is rejected after all of its bytes. If the stream ends before that, it is torn: after `came`
// bytes, or one byte before the end.
pub(super) fn expect_refused(rt: &impl Abort, alloc: Global, bytes: &[u8], came: usize) {
    for piece in [1, 7, usize::MAX] {
        let found = read_by(rt, alloc, bytes, piece).err();
        expect_same(rt, found, Some(FrameFault::BadField));
        for end in [came, bytes.len().saturating_sub(1)] {
            if let Some(some) = bytes.get(..end) {
                let found = read_by(rt, alloc, some, piece).err();
                expect_same(rt, (end, found), (end, Some(FrameFault::Torn)));
            }
        }
    }
    let mut longer = Vec::from_slice(alloc, bytes).expect(rt, "memory");
    longer.push(77).expect(rt, "memory");
    let mut source = longer.as_slice();
    let found = read_frame(alloc, &mut source).err();
    expect_same(rt, found, Some(FrameFault::BadField));
    expect_same(rt, source, [77].as_slice());
}

// A shard in which the endpoints of this link are equal.
fn expect_bad_link(rt: &impl Abort, alloc: Global, weights: Weights, count: u32, place: u32) {
    let (_, numbers) = path(rt, alloc, weights, 7, count);
    let mut numbers = numbers;
    let first = number_at(weights, place);
    let low = numbers.as_slice().get(first).copied();
    match (low, numbers.as_mut_slice().get_mut(first + 1)) {
        (Some(low), Some(high)) => *high = low,
        _ => assert!(rt; false),
    }
    let bytes = frame_bytes(rt, alloc, kind_of(weights), numbers.as_slice());
    let behind = 5 + 4 * number_at(weights, place.saturating_add(1));
    let came = behind.min(bytes.len().saturating_sub(1));
    expect_refused(rt, alloc, bytes.as_slice(), came)
}

// In the first, the next and the last piece, at their ends and inside.
#[test]
fn bad_links(rt: HostRuntime) {
    for place in [0, 2_000, 5_460, 5_461, 8_000, 10_921, 10_922, 11_999] {
        expect_bad_link(&rt, rt.alloc(), Weights::Of32, 12_000, place);
    }
    for place in [0, 2_000, 4_095, 4_096, 6_000, 8_191, 8_192, 9_999] {
        expect_bad_link(&rt, rt.alloc(), Weights::Of64, 10_000, place);
    }
}

fn expect_bad_fields(rt: &impl Abort, alloc: Global, weights: Weights, number: u32, count: u32) {
    let (_, numbers) = path(rt, alloc, weights, 7, 6_000);
    let mut numbers = numbers;
    match numbers.as_mut_slice() {
        [first, second, ..] => {
            *first = number;
            *second = count;
        }
        _ => assert!(rt; false),
    }
    let bytes = frame_bytes(rt, alloc, kind_of(weights), numbers.as_slice());
    expect_refused(rt, alloc, bytes.as_slice(), 13)
}

#[test]
fn bad_fields(rt: HostRuntime) {
    for weights in [Weights::Of32, Weights::Of64] {
        for (number, count) in [
            (4_096, 6_000),
            (u32::MAX, 6_000),
            (7, 5_999),
            (7, 6_001),
            (7, 0),
            (7, u32::MAX),
        ] {
            expect_bad_fields(&rt, rt.alloc(), weights, number, count);
        }
    }
}

// A path whose weights all fit 32 bits, as a shard with weights of 64 bits.
fn narrow_as_wide(rt: &impl Abort, alloc: Global, count: u32) -> Vec<u8> {
    let mut numbers = Vec::from_slice(alloc, &[7, count]).expect(rt, "memory");
    assert!(rt; count <= 1 << 24);
    for before in 0..count {
        numbers
            .extend_from_slice(&[before + 1, before + 2, 0, before])
            .expect(rt, "memory");
    }
    frame_bytes(rt, alloc, 6, numbers.as_slice())
}

#[test]
fn narrow_shards_of_kind_6(rt: HostRuntime) {
    for count in COUNTS {
        let bytes = narrow_as_wide(&rt, rt.alloc(), count);
        expect_refused(&rt, rt.alloc(), bytes.as_slice(), 5 + 8 + 16);
    }
}
