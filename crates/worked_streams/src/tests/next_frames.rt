// The next frame after an ask, compared with the frame that the same bytes give without a previous ask. The labels are
// the same, differ at one vertex, coarsen the earlier ones, separate vertices that were joined, or are unlawful.
// Streams end or fail inside a piece. 16,384 labels are compared at a time, so the 80,001 labels here are read in five
// pieces.
ghost use Rattle.std.specs.Prelude.{◌≤◌};

use super::frames_codec::labels_of;
use super::same::expect_same;
use super::sizes::text_of;
use byte_streams::FusedSource;
use frames::{FrameFault, NextFrame, encode_ask, read_frame, read_next};
use link_key::Labels;
use std::alloc::Global;
use std::process::Abort;
use test_memory::{Refusals, Refusing};

const COUNT: u32 = 80_001;

// The vertices at which labels differ: in the first piece, at and next to the ends of pieces, and in the last piece.
const PLACES: [u32; 9] = [
    2, 16_383, 16_384, 16_385, 40_000, 65_536, 65_537, 80_000, 80_001,
];

// The bytes that the next frame stands for, if these are the labels of the previous ask.
pub(crate) fn next_bytes(
    rt: &impl Abort,
    alloc: Global,
    next: &NextFrame,
    last: &Labels,
) -> Vec<u8> {
    match next {
        NextFrame::AskAgain { round, shard } => {
            assert!(rt; *shard < 4096);
            encode_ask(alloc, *round, *shard, last).expect(rt, "memory")
        }
        NextFrame::AskCoarser {
            round,
            shard,
            labels,
        } => {
            assert!(rt; *shard < 4096);
            encode_ask(alloc, *round, *shard, labels).expect(rt, "memory")
        }
        NextFrame::Other(frame) => text_of(rt, alloc, frame),
    }
}

// Each vertex has its own label, but this one has the label of the vertex before it. If it is 0, all have their own.
fn labels_but(rt: &impl Abort, alloc: Global, vertex: u32) -> Labels {
    let mut list = Vec::with_capacity(alloc, COUNT as usize).expect(rt, "memory");
    for before in 0..COUNT {
        let own = before + 1;
        list.push(if own == vertex { before } else { own })
            .expect(rt, "memory");
    }
    Labels::of_list(list).expect(rt, "labels")
}

fn ask(rt: &impl Abort, alloc: Global, labels: &Labels) -> Vec<u8> {
    encode_ask(alloc, 5, 7, labels).expect(rt, "memory")
}

// After an ask with these labels the bytes give the same frame as by themselves, or the same error. The source fails
// after `passes` bytes.
fn expect_as_alone(rt: &impl Abort, alloc: Global, bytes: &[u8], passes: usize, last: &Labels) {
    for piece in [1000, usize::MAX] {
        assert!(rt; 1 <= piece);
        let copy = Vec::from_slice(alloc, bytes).expect(rt, "memory");
        let mut first = FusedSource::new(copy, passes, piece);
        let copy = Vec::from_slice(alloc, bytes).expect(rt, "memory");
        let mut second = FusedSource::new(copy, passes, piece);
        let alone = read_frame(alloc, &mut first);
        match (alone, read_next(alloc, &mut second, last.as_slice())) {
            (Ok(frame), Ok(next)) => {
                let text = text_of(rt, alloc, &frame);
                let next = next_bytes(rt, alloc, &next, last);
                expect_same(rt, next.as_slice() == text.as_slice(), true);
            }
            (Err(fault), Err(other)) => expect_same(rt, other, fault),
            _ => panic!(rt; "one is refused, and the other isn't"),
        }
    }
}

// How an ask is described in terms of the previous one: with the same labels, with labels that coarsen them, or with
// others.
#[derive(Clone, Copy, PartialEq, Eq, Debug)]
enum Said {
    Again,
    Coarser,
    Other,
}

// After an ask with the labels `last`, the ask is described like this. It allocates one block, or none for the same
// labels.
fn expect_ask(rt: &impl Abort, alloc: Global, labels: &Labels, last: &Labels, said: Said) {
    let bytes = ask(rt, alloc, labels);
    let memory = Refusing::new(alloc, Refusals::none());
    let mut source = bytes.as_slice();
    let found = match read_next(&memory, &mut source, last.as_slice()).expect(rt, "a frame") {
        NextFrame::AskAgain { .. } => Said::Again,
        NextFrame::AskCoarser { .. } => Said::Coarser,
        NextFrame::Other(_) => Said::Other,
    };
    let blocks = if said == Said::Again { 0 } else { 1 };
    expect_same(rt, (found, source.len()), (said, 0));
    expect_same(rt, (memory.given(), memory.live()), (blocks, 0));
    expect_as_alone(rt, alloc, bytes.as_slice(), usize::MAX, last)
}

#[test]
fn labels_that_come_again_take_no_memory(rt: HostRuntime) {
    for vertex in [0, 2, 40_000, 80_001] {
        let labels = labels_but(&rt, rt.alloc(), vertex);
        expect_ask(&rt, rt.alloc(), &labels, &labels, Said::Again);
    }
}

// Labels that differ at one vertex get one block of their whole size, whichever vertex it is. They coarsen if two
// vertices are joined that were separate, but not the other way round.
#[test]
fn labels_that_differ_in_one_place(rt: HostRuntime) {
    let last = labels_but(&rt, rt.alloc(), 0);
    for vertex in PLACES {
        let labels = labels_but(&rt, rt.alloc(), vertex);
        expect_ask(&rt, rt.alloc(), &labels, &last, Said::Coarser);
        expect_ask(&rt, rt.alloc(), &last, &labels, Said::Other);
    }
}

// Labels that join two vertices and separate two others don't coarsen, whichever pieces the vertices are in.
#[test]
fn labels_that_part_what_was_joined(rt: HostRuntime) {
    for (joined, parted) in [(2, 80_001), (80_001, 2), (16_384, 16_385), (65_537, 16_384)] {
        let labels = labels_but(&rt, rt.alloc(), joined);
        let last = labels_but(&rt, rt.alloc(), parted);
        expect_ask(&rt, rt.alloc(), &labels, &last, Said::Other);
    }
}

// After labels with two joined pairs: all four joined, the same pairs, only one of the pairs, and a pair whose vertex
// joins the other pair.
#[test]
fn labels_behind_joined_vertices(rt: HostRuntime) {
    let last = labels_of(&rt, rt.alloc(), &[1, 1, 3, 3]);
    let rows: [(&[u32], Said); 4] = [
        (&[1, 1, 1, 1], Said::Coarser),
        (&[1, 1, 3, 3], Said::Again),
        (&[1, 1, 3, 4], Said::Other),
        (&[1, 1, 3, 1], Said::Other),
    ];
    for (list, said) in rows {
        let labels = labels_of(&rt, rt.alloc(), list);
        expect_ask(&rt, rt.alloc(), &labels, &last, said);
    }
}

// The stream ends inside the fields, inside a piece, or at the end of a piece, before and after the vertex that
// differs. Or the source fails there.
#[test]
fn a_stream_cut_inside_a_piece(rt: HostRuntime) {
    let last = labels_but(&rt, rt.alloc(), 0);
    for vertex in [0, 2, 40_000, 80_001] {
        let labels = labels_but(&rt, rt.alloc(), vertex);
        let bytes = ask(&rt, rt.alloc(), &labels);
        for count in [
            0, 4, 5, 6, 16, 17, 18, 65_552, 65_553, 65_554, 120_000, 160_018, 320_000, 320_018,
            320_020,
        ] {
            assert!(rt; count < bytes.len());
            let cut = &bytes.as_slice()[..count];
            expect_as_alone(&rt, rt.alloc(), cut, usize::MAX, &last);
            expect_as_alone(&rt, rt.alloc(), bytes.as_slice(), count, &last);
        }
    }
}

// An ask with these bytes from an index on: as a whole, cut off, and from a source that fails. As a whole it has an
// unlawful field.
fn expect_unlawful(
    rt: &impl Abort,
    alloc: Global,
    labels: &Labels,
    last: &Labels,
    unlawful: (usize, [u8; 4]),
) {
    let (place, field) = unlawful;
    let mut bytes = ask(rt, alloc, labels);
    for (i, byte) in field.iter().enumerate() {
        assert!(rt; place < 1 << 20 && place + i < bytes.len());
        bytes[place + i] = *byte;
    }
    let found = read_next(alloc, &mut bytes.as_slice(), last.as_slice()).err();
    expect_same(rt, found, Some(FrameFault::BadField));
    for count in [17, 160_000, 320_020] {
        assert!(rt; count < bytes.len());
        let cut = &bytes.as_slice()[..count];
        expect_as_alone(rt, alloc, cut, usize::MAX, last);
        expect_as_alone(rt, alloc, bytes.as_slice(), count, last);
    }
    expect_as_alone(rt, alloc, bytes.as_slice(), usize::MAX, last)
}

// A shard number out of range, a count that differs from the number of labels, and numbers that are no labels. They are
// in the first, a middle and the last piece. All other labels are the same as before, or some differ.
#[test]
fn an_ask_with_an_unlawful_field(rt: HostRuntime) {
    let apart = labels_but(&rt, rt.alloc(), 0);
    let other = labels_but(&rt, rt.alloc(), 40_000);
    for last in [&apart, &other] {
        for unlawful in [
            (9, [0, 0, 16, 0]),
            (9, [255, 255, 255, 255]),
            (13, [0, 1, 56, 128]),
            (13, [0, 1, 56, 130]),
            (17, [0, 0, 0, 0]),
            (17, [0, 0, 0, 2]),
            (160_013, [0, 0, 255, 255]),
            (320_017, [0, 1, 56, 130]),
            (320_017, [255, 255, 255, 255]),
        ] {
            expect_unlawful(&rt, rt.alloc(), &apart, last, unlawful);
        }
    }
}

// If there is no memory for labels that differ, that is the error. An ask with the same labels allocates nothing.
#[test]
fn no_memory_for_labels_that_differ(rt: HostRuntime) {
    let last = labels_but(&rt, rt.alloc(), 0);
    for vertex in [0, 2, 40_000, 80_001] {
        let labels = labels_but(&rt, rt.alloc(), vertex);
        let bytes = ask(&rt, rt.alloc(), &labels);
        let memory = Refusing::new(rt.alloc(), Refusals::since(1));
        let found = read_next(&memory, &mut bytes.as_slice(), last.as_slice()).err();
        let fault = if vertex == 0 {
            None
        } else {
            Some(FrameFault::Memory)
        };
        expect_same(
            &rt,
            (vertex, found, memory.given(), memory.live()),
            (vertex, fault, 0, 0),
        );
    }
}
