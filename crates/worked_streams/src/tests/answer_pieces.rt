// Answers in pieces: 64 KiB have 8,192 offers. A formula gives their bytes. Flaws are put where a piece begins or ends,
// in the middle of one, and between two pieces.
ghost use Rattle.std.specs.Prelude.{◌^◌, ◌<◌};

use super::same::expect_same;
use super::shard_pieces::{expect_refused, read_by};
use super::sizes::{answer_of, frame_bytes};
use frames::{ANSWER_HEAD, Answer, Frame, answer_head, put_offers, read_frame};
use link_key::Offers;
use std::alloc::Global;
use std::process::Abort;

// The index in the body of the component of this offer. It is also the number of numbers before that offer.
fn number_at(place: u32) -> usize
    ensures { result < 2 ^ 40 }
{
    3 + 2 * place as usize
}

fn expect_offers(rt: &impl Abort, frame: Frame, expected: &[(u32, u32)]) {
    match frame {
        Frame::Answer(answer) => {
            expect_same(rt, (answer.round, answer.shard), (5, 6));
            expect_same(rt, answer.offers.pairs() == expected, true);
        }
        _ => assert!(rt; false),
    }
}

// Making the answer from this many offers at a time gives these bytes.
fn expect_put(rt: &impl Abort, alloc: Global, answer: &Answer, at_a_time: usize, bytes: &[u8]) {
    let offers = answer.offers.pairs();
    assert!(rt; offers.len() <= 1 << 25);
    let head = answer_head(answer);
    expect_same(rt, head.len(), ANSWER_HEAD);
    let mut text = Vec::from_slice(alloc, &head).expect(rt, "memory");
    for piece in offers.chunks(at_a_time.max(1)) {
        assert!(rt; piece.len() <= 1 << 25);
        let mut put = Vec::new(alloc);
        put.resize(8 * piece.len(), 0).expect(rt, "memory");
        put_offers(put.as_mut_slice(), piece);
        text.extend_from_slice(put.as_slice()).expect(rt, "memory");
    }
    expect_same(rt, text.as_slice() == bytes, true);
}

#[test]
fn answers_made_by_pieces(rt: HostRuntime) {
    for count in [0, 1, 8_191, 8_192, 8_193, 12_288, 20_000] {
        let (pairs, numbers) = answer_of(&rt, rt.alloc(), count);
        let bytes = frame_bytes(&rt, rt.alloc(), 4, numbers.as_slice());
        let answer = Answer {
            round: 5,
            shard: 6,
            offers: Offers::of_pairs(pairs).expect(&rt, "ascending"),
        };
        for at_a_time in [1, 1_000, 8_192, 20_000] {
            expect_put(&rt, rt.alloc(), &answer, at_a_time, bytes.as_slice());
        }
    }
}

// The bytes of an answer are read as that answer: as a whole, seven at a time and one at a time. The byte after them
// isn't read.
fn expect_read(rt: &impl Abort, alloc: Global, count: u32) {
    let (pairs, numbers) = answer_of(rt, alloc, count);
    let mut bytes = frame_bytes(rt, alloc, 4, numbers.as_slice());
    for piece in [1, 7, usize::MAX] {
        let frame = read_by(rt, alloc, bytes.as_slice(), piece).expect(rt, "a frame");
        expect_offers(rt, frame, pairs.as_slice());
    }
    bytes.push(77).expect(rt, "memory");
    let mut source = bytes.as_slice();
    expect_offers(
        rt,
        read_frame(alloc, &mut source).expect(rt, "a frame"),
        pairs.as_slice(),
    );
    expect_same(rt, source, [77].as_slice());
}

#[test]
fn answers_by_pieces(rt: HostRuntime) {
    for count in [0, 1, 8_191, 8_192, 8_193, 12_288, 20_000] {
        expect_read(&rt, rt.alloc(), count);
    }
}

// An answer of 20,000 offers in which one offer has another component. It is rejected after all of its bytes. If the
// stream ends before that, even right after the flaw, it is torn.
fn expect_bad_component(rt: &impl Abort, alloc: Global, place: u32, component: u32) {
    let (_, numbers) = answer_of(rt, alloc, 20_000);
    let mut numbers = numbers;
    match numbers.as_mut_slice().get_mut(number_at(place)) {
        Some(number) => *number = component,
        None => assert!(rt; false),
    }
    let bytes = frame_bytes(rt, alloc, 4, numbers.as_slice());
    let behind = 5 + 4 * number_at(place.saturating_add(1));
    let came = behind.min(bytes.len().saturating_sub(1));
    expect_refused(rt, alloc, bytes.as_slice(), came)
}

// The component of offer `place` is `place` + 1. The flaw is the component before it, a lesser one, or the one after
// it. The offers are in the first, the middle and the last piece, and at the ends of pieces.
#[test]
fn components_that_do_not_ascend(rt: HostRuntime) {
    for place in [
        1, 4_000, 8_191, 8_192, 12_000, 16_383, 16_384, 18_000, 19_999,
    ] {
        expect_bad_component(&rt, rt.alloc(), place, place);
        expect_bad_component(&rt, rt.alloc(), place, 0);
    }
    for place in [0, 8_191, 16_383, 19_998] {
        expect_bad_component(&rt, rt.alloc(), place, place + 2);
    }
}

fn expect_bad_count(rt: &impl Abort, alloc: Global, count: u32) {
    let (_, numbers) = answer_of(rt, alloc, 9_000);
    let mut numbers = numbers;
    match numbers.as_mut_slice().get_mut(2) {
        Some(number) => *number = count,
        None => assert!(rt; false),
    }
    let bytes = frame_bytes(rt, alloc, 4, numbers.as_slice());
    expect_refused(rt, alloc, bytes.as_slice(), 17)
}

#[test]
fn counts_of_other_offers(rt: HostRuntime) {
    for count in [0, 8_192, 8_999, 9_001, 9_000 + (1 << 26), u32::MAX] {
        expect_bad_count(&rt, rt.alloc(), count);
    }
}
