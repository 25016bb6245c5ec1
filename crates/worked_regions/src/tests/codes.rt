// The error codes and their texts, as in `include/boruvka.h`.
use super::same::expect_same;
use caller_forests::{CallRefusal, put_fault_text};
use gr_text::GrKind;
use std::alloc::Global;
use std::process::Abort;

const CODES: [(CallRefusal, i64, &[u8]); 21] = [
    (CallRefusal::NoMemory, -1, b"no memory"),
    (CallRefusal::BadEnd, -2, b"an endpoint isn't a vertex"),
    (CallRefusal::TooManyVertices, -3, b"too many vertices"),
    (CallRefusal::TooManyLinks, -4, b"too many links"),
    (CallRefusal::TooLong, -5, b"the text is too long"),
    (CallRefusal::Line(GrKind::UnknownLine), -6, b"UnknownLine"),
    (CallRefusal::Line(GrKind::NoProblemYet), -7, b"NoProblemYet"),
    (
        CallRefusal::Line(GrKind::SecondProblem),
        -8,
        b"SecondProblem",
    ),
    (CallRefusal::Line(GrKind::BadProblem), -9, b"BadProblem"),
    (CallRefusal::Line(GrKind::TooLarge), -10, b"TooLarge"),
    (CallRefusal::Line(GrKind::BadArc), -11, b"BadArc"),
    (
        CallRefusal::Line(GrKind::EndOutOfRange),
        -12,
        b"EndOutOfRange",
    ),
    (
        CallRefusal::Line(GrKind::WeightOutOfRange),
        -13,
        b"WeightOutOfRange",
    ),
    (CallRefusal::Line(GrKind::TooManyArcs), -14, b"TooManyArcs"),
    (
        CallRefusal::Line(GrKind::MissingProblem),
        -15,
        b"MissingProblem",
    ),
    (CallRefusal::Line(GrKind::MissingArcs), -16, b"MissingArcs"),
    (CallRefusal::LengthsDiffer, -17, b"array lengths differ"),
    (
        CallRefusal::TooFewPlaces,
        -18,
        b"the output array is too small",
    ),
    (CallRefusal::Cycle, -19, b"links contain a cycle"),
    (
        CallRefusal::Descending,
        -20,
        b"links aren't sorted by weight",
    ),
    (CallRefusal::Overlap, -21, b"an output overlaps an input"),
];

// Puts the text of this code into a buffer of `size` bytes, which holds `~` before, and compares the whole buffer.
fn expect_room(
    rt: &impl Abort,
    alloc: Global,
    code: i64,
    size: usize,
    length: usize,
    wanted: &[u8],
) {
    let mut room = Vec::from_elem(alloc, b'~', size).expect(rt, "memory");
    let found = put_fault_text(code, room.as_mut_slice());
    expect_same(rt, (code, found, room.as_slice()), (code, length, wanted));
}

#[test]
fn codes_and_texts(rt: HostRuntime) {
    for (why, code, text) in CODES {
        expect_same(&rt, why.code(), code);
        let mut whole = Vec::from_slice(rt.alloc(), text).expect(&rt, "memory");
        whole.extend_from_slice(b"\0~").expect(&rt, "memory");
        expect_room(
            &rt,
            rt.alloc(),
            code,
            text.len() + 2,
            text.len(),
            whole.as_slice(),
        );
    }
}

#[test]
fn numbers_that_are_no_codes(rt: HostRuntime) {
    for code in [0, 1, -22, i64::MIN, i64::MAX] {
        expect_room(&rt, rt.alloc(), code, 19, 17, b"not an error code\0~");
    }
}

// The text `BadArc` has 6 bytes, and a 0 follows it.
#[test]
fn small_rooms(rt: HostRuntime) {
    let rooms: [&[u8]; 8] = [
        b"",
        b"\0",
        b"B\0",
        b"Ba\0",
        b"Bad\0",
        b"BadA\0",
        b"BadAr\0",
        b"BadArc\0",
    ];
    for wanted in rooms {
        expect_room(&rt, rt.alloc(), -11, wanted.len(), 6, wanted);
    }
}
