// The text of the forest of a text in caller-provided memory: the example graphs, each error of a line, small buffers,
// and a text larger than every internal buffer.
use super::given::heap_of;
use super::same::expect_same;
use caller_forests::{Fault, put_forest_text};
use std::alloc::{Allocator, Global};
use std::process::Abort;
use worked_graphs::{SMALL_NET, WORKED};

// The bytes of a buffer before a call.
const MARK: u8 = 0xa5;

// Enough memory for each example graph.
const PAGES: usize = 16_384;

fn room_of(rt: &impl Abort, alloc: Global, size: usize) -> Vec<u8> {
    Vec::from_elem(alloc, MARK, size).expect(rt, "memory")
}

// An error that no call here reports.
fn some_fault() -> Fault {
    Fault { kind: 7, line: 7 }
}

// The call returns the length of the wanted text. It writes as much of that text as fits a buffer of `size` bytes.
fn expect_text<A: Allocator + Copy>(
    rt: &impl Abort,
    alloc: Global,
    within: A,
    text: &[u8],
    size: usize,
    wanted: &[u8],
) {
    let mut room = room_of(rt, alloc, size);
    let mut fault = some_fault();
    let length = put_forest_text(within, text, room.as_mut_slice(), &mut fault);
    expect_same(rt, length, wanted.len() as i64);
    expect_same(rt, (fault.kind, fault.line), (0, 0));
    let mut after = Vec::from_slice(alloc, wanted).expect(rt, "memory");
    after.resize(size, MARK).expect(rt, "memory");
    expect_same(rt, room.as_slice(), after.as_slice());
}

#[test]
fn texts_of_the_worked_graphs(rt: HostRuntime) {
    for graph in WORKED {
        let length = graph.text.len();
        for size in [0, 1, length - 1, length, length + 1, length + 100] {
            expect_text(&rt, rt.alloc(), rt.alloc(), graph.file, size, graph.text);
        }
    }
}

#[test]
fn texts_of_the_worked_graphs_within_pages(rt: HostRuntime) {
    for graph in WORKED {
        let heap = heap_of(&rt, rt.alloc(), PAGES);
        expect_text(
            &rt,
            rt.alloc(),
            &heap,
            graph.file,
            graph.text.len(),
            graph.text,
        );
    }
}

// A call returns this code and reports this line, and the buffer stays as it was.
fn expect_fault<A: Allocator + Copy>(
    rt: &impl Abort,
    alloc: Global,
    within: A,
    text: &[u8],
    code: i64,
    line: u64,
) {
    let mut room = room_of(rt, alloc, 100);
    let mut fault = some_fault();
    let answer = put_forest_text(within, text, room.as_mut_slice(), &mut fault);
    expect_same(
        rt,
        (text, answer, fault.kind, fault.line),
        (text, code, code, line),
    );
    expect_same(rt, room.as_slice(), [MARK; 100].as_slice());
}

// A text for each error that a line can have, the code of the error, and the line.
const FAULTY: [(&[u8], i64, u64); 13] = [
    (b"x\n", -6, 1),
    (b"c\na 1 2 3\n", -7, 2),
    (b"p sp 2 0\np sp 2 0\n", -8, 2),
    (b"p sp two 0\n", -9, 1),
    (b"p sp 67108865 0\n", -10, 1),
    (b"p sp 2 1\na 1 2\n", -11, 2),
    (b"p sp 2 1\na 1 3 1\n", -12, 2),
    (b"p sp 2 1\na 1 2 9223372036854775808\n", -13, 2),
    (b"p sp 2 0\na 1 2 3\n", -14, 2),
    (b"", -15, 1),
    (b"p sp 2 1\n", -16, 2),
    // of two errors the first is reported
    (b"p sp 2 1\na 1 3 1\nx\n", -12, 2),
    (b"c\nc\nx\np sp two 0\n", -6, 3),
];

#[test]
fn texts_that_are_refused(rt: HostRuntime) {
    for (text, code, line) in FAULTY {
        expect_fault(&rt, rt.alloc(), rt.alloc(), text, code, line);
    }
}

// After an error, the same memory can be used for another text.
#[test]
fn a_text_without_memory(rt: HostRuntime) {
    let none = heap_of(&rt, rt.alloc(), 0);
    expect_fault(&rt, rt.alloc(), &none, SMALL_NET.file, -1, 0);
    let pages = heap_of(&rt, rt.alloc(), PAGES);
    expect_fault(&rt, rt.alloc(), &pages, b"p sp 2 1\na 1 2\n", -11, 2);
    expect_text(&rt, rt.alloc(), &pages, SMALL_NET.file, 100, SMALL_NET.text);
}

// A path whose text is larger than every internal buffer. Each edge weighs as much as its lower endpoint, so the text
// of its forest is the same. The heap has 4 times the length of the text, 10 bytes per vertex and 16384 more.
#[test]
fn the_text_of_a_long_path(rt: HostRuntime) {
    let mut text = Vec::from_slice(rt.alloc(), b"p sp 200004 200003\n").expect(&rt, "memory");
    for low in 1..200_004u32 {
        let line = format!(in rt.alloc(); "a {low} {} {low}\n", low.wrapping_add(1)).expect(
            &rt, "memory",
        );
        text.extend_from_slice(line.as_bytes())
            .expect(&rt, "memory");
    }
    let length = text.as_slice().len();
    let path = text.as_slice();
    expect_text(&rt, rt.alloc(), rt.alloc(), path, length, path);
    let heap = heap_of(
        &rt,
        rt.alloc(),
        length.saturating_mul(4).saturating_add(2_016_424),
    );
    expect_text(&rt, rt.alloc(), &heap, path, length, path);
}
