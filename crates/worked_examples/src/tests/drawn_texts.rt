// Random texts. What is read doesn't depend on how a text is split. If it is fed byte by byte, no piece has a whole
// line.
ghost use Rattle.std.specs.Prelude.{◌<◌};

use super::drawn_lists::draw;
use super::same::expect_same;
use gr_text::{GrReader, Graph, MAX_BYTES, ReadFault};
use std::alloc::Global;
use std::process::Abort;

// What separates two fields; most often it is one space.
const GAPS: [&[u8]; 6] = [b"  ", b"\t", b" \t", b"\r", b"\n", b""];

// What begins a line; most often it is the letter of an arc.
const LETTERS: [&[u8]; 5] = [b"c", b"aa", b" a", b"p", b"x"];

// What ends a line; most often it is a line feed.
const ENDINGS: [&[u8]; 6] = [b"\r\n", b" \n", b"\n\n", b" 1\n", b"\nc a 1 2 3\n", b""];

// The problem line of a text; most often it has 5 vertices and 3 arc lines.
const PROBLEMS: [&[u8]; 5] = [
    b"",
    b"p sp 5 2\n",
    b"p sp 5 4\n",
    b"p sp 67108865 3\n",
    b"p\tsp 5 3\r\n",
];

// Returns one of the rare texts, each with a chance of one in `chances`, or otherwise the usual one.
fn drawn<'a>(state: &mut u64, chances: u32, rare: &[&'a [u8]], usual: &'a [u8]) -> &'a [u8]
    requires { 0 < chances }
{
    let place = draw(state, chances) as usize;
    if place < rare.len() {
        rare[place]
    } else {
        usual
    }
}

// An endpoint of an arc, most often one of 5 vertices.
fn drawn_end(state: &mut u64) -> &'static [u8] {
    match draw(state, 240) {
        0 => b"0",
        1 => b"6",
        2 => b"0000000004",
        3 => b"00000000004",
        4 => b"4294967295",
        5 => b"4294967296",
        6 => b"4294967297",
        7 => b"9999999999",
        8 => b"18446744073709551617",
        9 => b"-1",
        10 => b"1x",
        11 => b"",
        12..72 => b"1",
        72..132 => b"2",
        132..150 => b"3",
        150..200 => b"4",
        _ => b"5",
    }
}

// A weight, most often one that fits 64 bits.
fn drawn_weight(state: &mut u64) -> &'static [u8] {
    match draw(state, 240) {
        0 => b"9223372036854775808",
        1 => b"-9223372036854775809",
        2 => b"18446744073709551616",
        3 => b"-18446744073709551617",
        4 => b"99999999999999999999",
        5 => b"-99999999999",
        6 => b"-",
        7 => b"--1",
        8 => b"+1",
        9 => b"7-",
        10 => b"",
        11..31 => b"9223372036854775807",
        31..51 => b"-9223372036854775808",
        51..71 => b"00000000009",
        71..91 => b"-00000000009",
        91..111 => b"0000000009",
        111..121 => b"2147483648",
        121..131 => b"-4294967297",
        131..141 => b"-0",
        141..200 => b"17",
        _ => b"-3",
    }
}

fn put(rt: &impl Abort, text: &mut Vec<u8>, bytes: &[u8]) {
    text.extend_from_slice(bytes).expect(rt, "memory");
}

// A problem line, most often followed by three arc lines.
fn drawn_text(rt: &impl Abort, alloc: Global, state: &mut u64) -> Vec<u8> {
    let mut text = Vec::new(alloc);
    put(rt, &mut text, drawn(state, 32, &PROBLEMS, b"p sp 5 3\n"));
    let lines = match draw(state, 16) {
        0 => 2,
        1 => 4,
        _ => 3,
    };
    for _ in 0..lines {
        put(rt, &mut text, drawn(state, 128, &LETTERS, b"a"));
        put(rt, &mut text, drawn(state, 128, &GAPS, b" "));
        put(rt, &mut text, drawn_end(state));
        put(rt, &mut text, drawn(state, 128, &GAPS, b" "));
        put(rt, &mut text, drawn_end(state));
        put(rt, &mut text, drawn(state, 128, &GAPS, b" "));
        put(rt, &mut text, drawn_weight(state));
        put(rt, &mut text, drawn(state, 64, &ENDINGS, b"\n"));
    }
    text
}

// Reads a text that is fed in pieces of random lengths, 1 to `most`. Returns the reader's line and the outcome.
fn read_cut(
    alloc: Global,
    text: &[u8],
    most: u32,
    state: &mut u64,
) -> (u64, Result<Graph, ReadFault>)
    requires { 0 < most }
{
    let mut reader = GrReader::new(alloc, MAX_BYTES);
    let mut rest = text;
    for _ in 0..text.len() {
        let len = rest.len().min(draw(state, most) as usize + 1);
        let (piece, after) = rest.split_at(len);
        let _answer = reader.feed(piece);
        rest = after;
    }
    (reader.line(), reader.finish())
}

fn is_same(one: &Result<Graph, ReadFault>, other: &Result<Graph, ReadFault>) -> bool {
    match (one, other) {
        (Ok(one), Ok(other)) => one.n() == other.n() && one.links() == other.links(),
        (Err(one), Err(other)) => one == other,
        _ => false,
    }
}

#[test]
fn drawn_texts_in_two_cuttings(rt: HostRuntime) {
    let mut state = 0;
    let mut graphs = 0u32;
    for _ in 0..10_000u32 {
        let text = drawn_text(&rt, rt.alloc(), &mut state);
        let (line, slow) = read_cut(rt.alloc(), &text, 1, &mut state);
        if slow.is_ok() {
            graphs = graphs.wrapping_add(1);
        }
        for most in [40, 1_000] {
            let (at, quick) = read_cut(rt.alloc(), &text, most, &mut state);
            expect_same(&rt, (at, is_same(&slow, &quick)), (line, true));
        }
    }
    // Both outcomes are common.
    expect_same(&rt, graphs > 1_000 && graphs < 9_000, true);
}
