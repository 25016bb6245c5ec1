// Files read by threads give the same graphs and errors as with one thread, wherever the text is split. The expected
// links are made together with the text.
ghost use Rattle.std.specs.Prelude.{◌<◌, ◌≤◌};

use super::drawn_lists::draw;
use super::same::expect_same;
use gr_text::{FusedSource, GrFault, GrKind, ReadFault, read_graph_par};
use link_key::Link;
use std::alloc::Global;
use std::process::Abort;
use std::thread::Threads;
use test_memory::{Refusals, Refusing};

// The number of arc lines of a text. They have about 400 KB, and come after the first MiB.
const LINES: u32 = 20_000;

// The length of a comment. One thread reads the first MiB or more, which ends within the comment, and threads share the
// rest.
const COMMENT: usize = (1 << 20) + 65_536;

const VERTICES: u32 = 30_000;

// The most threads that may read. With 0 and 1 only the caller's thread reads.
const THREADS: [usize; 6] = [0, 1, 2, 3, 7, 64];

// The numbers of threads for tests of many errors.
const FEW_THREADS: [usize; 3] = [1, 3, 64];

// A problem line with these numbers of vertices and arc lines, and then the comment.
fn first_lines(rt: &impl Abort, alloc: Global, vertices: u32, lines: u32) -> Vec<u8> {
    let first = format!(in alloc; "p sp {vertices:08} {lines:08}\nc").expect(rt, "memory");
    let mut text = Vec::from_slice(alloc, first.as_bytes()).expect(rt, "memory");
    text.resize(BEFORE.wrapping_sub(1), b'-')
        .expect(rt, "memory");
    text.push(b'\n').expect(rt, "memory");
    text
}

// The bytes of these lines, and of the problem line by itself.
const BEFORE: usize = 23 + COMMENT;

const PROBLEM: usize = 23;

// A text, and the links of its arcs.
#[derive(Drop)]
struct Drawn {
    text: Vec<u8>,
    links: Vec<Link>,
}

impl Drawn {
    // A text with only the first lines, which state this many arc lines.
    fn begun(rt: &impl Abort, alloc: Global, lines: u32) -> Drawn {
        Drawn {
            text: first_lines(rt, alloc, VERTICES, lines),
            links: Vec::new(alloc),
        }
    }

    fn put(&mut self, rt: &impl Abort, bytes: &[u8]) {
        self.text.extend_from_slice(bytes).expect(rt, "memory");
    }

    // Appends `count` random arc lines that end like this to the text. Every seventh arc is a loop, and every third
    // weight has a minus sign.
    fn put_arcs(&mut self, rt: &impl Abort, alloc: Global, count: u32, ending: &str) {
        let mut state = 17;
        for number in 0..count {
            let tail = draw(&mut state, VERTICES) + 1;
            let other = draw(&mut state, VERTICES) + 1;
            let head = if number % 7 == 3 { tail } else { other };
            let size = i64::from(draw(&mut state, 1_000_000));
            let weight = if number % 3 == 1 {
                size.wrapping_neg()
            } else {
                size
            };
            let line = format!(in alloc; "a {tail} {head} {weight}{ending}").expect(rt, "memory");
            self.put(rt, line.as_bytes());
            if tail != head {
                let link = Link {
                    weight,
                    low: tail.min(head),
                    high: tail.max(head),
                };
                self.links.push(link).expect(rt, "memory");
            }
        }
    }
}

// Each number of threads reads this graph, if a read returns at most `piece` bytes.
fn expect_read<R: Abort + Threads + Sync>(rt: &R, alloc: Global, drawn: &Drawn, piece: usize)
    requires { 1 ≤ piece }
{
    for threads in THREADS {
        let text = drawn.text.clone().expect(rt, "memory");
        let mut source = FusedSource::new(text, usize::MAX, piece);
        let graph = read_graph_par(rt, threads, alloc, &mut source).expect(rt, "a graph");
        expect_same(rt, (threads, graph.n()), (threads, VERTICES));
        expect_same(rt, graph.links(), drawn.links.as_slice());
    }
}

fn expect_fault<R: Abort + Threads + Sync>(rt: &R, alloc: Global, text: &[u8], fault: ReadFault) {
    for threads in FEW_THREADS {
        let mut source = text;
        let found = read_graph_par(rt, threads, alloc, &mut source).err();
        expect_same(rt, (threads, found), (threads, Some(fault)));
    }
}

#[test]
fn reads_what_was_drawn(rt: HostRuntime) {
    let mut drawn = Drawn::begun(&rt, rt.alloc(), LINES);
    drawn.put_arcs(&rt, rt.alloc(), LINES, "\n");
    for piece in [1 << 20, 200_003, 70_001, 65_536] {
        expect_read(&rt, rt.alloc(), &drawn, piece);
    }
}

// Lines with carriage returns, and a last line without its line feed.
#[test]
fn reads_other_ends_of_lines(rt: HostRuntime) {
    let mut drawn = Drawn::begun(&rt, rt.alloc(), LINES + 1);
    drawn.put_arcs(&rt, rt.alloc(), LINES, "\r\n");
    drawn.put(&rt, b"a 7 7 3");
    expect_read(&rt, rt.alloc(), &drawn, 1 << 20);
}

// Comments and lines of other forms in the middle. One thread reads the pieces that have them.
#[test]
fn reads_other_lines_in_the_middle(rt: HostRuntime) {
    for other in [
        b"c\n".as_slice(),
        b"\n",
        b"a  5\t5 9 \n",
        b"a 5 5 00000000000000000009\n",
    ] {
        let count = if other.starts_with(b"a") {
            LINES + 1
        } else {
            LINES
        };
        let mut drawn = Drawn::begun(&rt, rt.alloc(), count);
        drawn.put_arcs(&rt, rt.alloc(), LINES / 2, "\n");
        drawn.put(&rt, other);
        drawn.put_arcs(&rt, rt.alloc(), LINES / 2, "\n");
        expect_read(&rt, rt.alloc(), &drawn, 150_001);
    }
}

// Lines of the least length, so that the links fill their buffer, over more than one read.
#[test]
fn reads_lines_of_the_least_length(rt: HostRuntime) {
    let count = 300_000;
    let mut drawn = Drawn::begun(&rt, rt.alloc(), count);
    let link = Link {
        weight: 3,
        low: 1,
        high: 2,
    };
    for _ in 0..count {
        drawn.put(&rt, b"a 2 1 3\n");
        drawn.links.push(link).expect(&rt, "memory");
    }
    expect_read(&rt, rt.alloc(), &drawn, usize::MAX);
}

fn fault(line: u64, kind: GrKind) -> ReadFault {
    ReadFault::Gr(GrFault { line, kind })
}

// First lines that state this many arc lines, and then `count` arc lines. All have the same length, so the position of
// each is easy to compute.
fn even_lines(rt: &impl Abort, alloc: Global, stated: u32, count: u32) -> Vec<u8> {
    let mut text = first_lines(rt, alloc, 99, stated);
    for _ in 0..count {
        text.extend_from_slice(b"a 11 12 123456789\n")
            .expect(rt, "memory");
    }
    text
}

// Each kind of error in the first arc line, in the last, in those near a split, and in two lines. The first error is
// reported.
#[test]
fn tells_the_first_fault(rt: HostRuntime) {
    let count = 12_000u32;
    let rows = [
        (b"x".as_slice(), GrKind::UnknownLine),
        (b"p", GrKind::SecondProblem),
        (b"a ~", GrKind::BadArc),
        (b"a 00", GrKind::EndOutOfRange),
        (b"a 11 00", GrKind::EndOutOfRange),
    ];
    let whole = even_lines(&rt, rt.alloc(), count, count);
    for place in [1u32, 4_000, 4_001, 4_002, 12_000] {
        for (bytes, kind) in rows {
            let mut text = whole.clone().expect(&rt, "memory");
            let start = BEFORE.wrapping_add((place.wrapping_sub(1) as usize).wrapping_mul(18));
            for (at, byte) in bytes.iter().enumerate() {
                if let Some(old) = text.get_mut(start.wrapping_add(at)) {
                    *old = *byte;
                }
            }
            let end = text.len().wrapping_sub(2);
            if let Some(last) = text.get_mut(end) {
                *last = b'x';
            }
            let told = if place == count && kind == GrKind::EndOutOfRange {
                GrKind::BadArc
            } else {
                kind
            };
            let line = u64::from(place).wrapping_add(2);
            expect_fault(&rt, rt.alloc(), &text, fault(line, told));
        }
    }
}

// One arc line more than stated, one less, no problem line, and a weight past the range in the middle.
#[test]
fn tells_what_is_wrong_with_the_whole(rt: HostRuntime) {
    let text = even_lines(&rt, rt.alloc(), 19_999, 20_000);
    expect_fault(&rt, rt.alloc(), &text, fault(20_002, GrKind::TooManyArcs));
    let text = even_lines(&rt, rt.alloc(), 20_001, 20_000);
    expect_fault(&rt, rt.alloc(), &text, fault(20_003, GrKind::MissingArcs));
    let arcs = text.get(PROBLEM..).expect(&rt, "arc lines");
    expect_fault(&rt, rt.alloc(), arcs, fault(2, GrKind::NoProblemYet));
    let mut drawn = Drawn::begun(&rt, rt.alloc(), LINES);
    drawn.put_arcs(&rt, rt.alloc(), LINES / 2, "\n");
    drawn.put(&rt, b"a 1 2 9223372036854775808\n");
    drawn.put_arcs(&rt, rt.alloc(), LINES / 2, "\n");
    expect_fault(
        &rt,
        rt.alloc(),
        &drawn.text,
        fault(10_003, GrKind::WeightOutOfRange),
    );
}

#[test]
fn tells_where_a_read_failed(rt: HostRuntime) {
    for threads in THREADS {
        let text = even_lines(&rt, rt.alloc(), 20_000, 20_000);
        let mut source = FusedSource::new(text, BEFORE + 18 * 9_000 + 5, 100_000);
        let found = read_graph_par(&rt, threads, rt.alloc(), &mut source).err();
        expect_same(&rt, found, Some(ReadFault::Source { line: 9_003 }));
    }
}

// Each allocation fails. If only one does, one thread reads instead of several, or the list grows by less. If all from
// that one on fail, there is no memory for the links.
#[test]
fn goes_on_without_memory_to_spare(rt: HostRuntime) {
    let text = even_lines(&rt, rt.alloc(), 20_000, 20_000);
    let memory = Refusing::new(rt.alloc(), Refusals::none());
    let whole = read_graph_par(&rt, 3, &memory, &mut text.as_slice()).map(|graph| graph.n());
    expect_same(&rt, whole, Ok(99));
    let asked = memory.asked();
    expect_same(&rt, (asked > 2, memory.live()), (true, 0));
    for k in 1..asked.wrapping_add(1) {
        let memory = Refusing::new(rt.alloc(), Refusals::since(k));
        let found = read_graph_par(&rt, 3, &memory, &mut text.as_slice()).err();
        expect_same(&rt, (k, found), (k, Some(ReadFault::Memory)));
        expect_same(&rt, memory.live(), 0);
        let memory = Refusing::new(rt.alloc(), Refusals::only(k));
        let found = read_graph_par(&rt, 3, &memory, &mut text.as_slice()).map(|graph| graph
            .links()
            .len());
        expect_same(&rt, (k, found), (k, Ok(20_000)));
        expect_same(&rt, memory.live(), 0);
    }
}
