// The memory that a reader allocates: it depends on the arcs that were read, whatever the problem line states. And the
// memory that a forest of distinct links allocates in addition to their list.
use super::lists::have_lows_ascending;
use super::same::expect_same;
use gr_text::{GrFault, GrKind, GrReader, MAX_BYTES, ReadFault, parse, read_graph};
use link_key::{Forest, Link};
use std::alloc::Global;
use std::process::Abort;
use test_memory::{Refusals, Refusing};

// The first line of a text with the greatest allowed number of arc lines.
const PROBLEM: &[u8] = b"p sp 2 1073741824\n";

// The error of a text that states 2^30 arc lines and ends before this line.
fn lacks_arcs(line: u64) -> Option<ReadFault> {
    Some(ReadFault::Gr(GrFault {
        line,
        kind: GrKind::MissingArcs,
    }))
}

// Three readers of the text return this error while these allocations fail. Returns how many allocations they tried.
fn expect_fault(
    rt: &impl Abort,
    alloc: Global,
    refusals: Refusals,
    text: &[u8],
    fault: Option<ReadFault>,
) -> u64 {
    let memory = Refusing::new(alloc, refusals);
    let parsed = parse(&memory, text).err();
    let mut source = text;
    let read = read_graph(&memory, &mut source).err();
    let mut reader = GrReader::new(&memory, MAX_BYTES);
    let _answer = reader.feed(text);
    let found = (parsed, read, reader.finish().err());
    expect_same(rt, found, (fault, fault, fault));
    expect_same(rt, memory.live(), 0);
    memory.asked()
}

// All allocations fail, or only the first, or none. The problem line allocates nothing, with or without its line feed.
#[test]
fn a_problem_line_takes_none(rt: HostRuntime) {
    for refusals in [Refusals::since(1), Refusals::only(1), Refusals::none()] {
        for text in [PROBLEM, PROBLEM.trim_ascii_end()] {
            let asked = expect_fault(&rt, rt.alloc(), refusals, text, lacks_arcs(2));
            expect_same(&rt, asked, 0);
        }
    }
}

// A list that grows with the arcs allocates a block at each growth. A list with a capacity for all stated arcs would
// allocate once.
#[test]
fn arcs_take_it_as_they_come(rt: HostRuntime) {
    let mut text = Vec::from_slice(rt.alloc(), PROBLEM).expect(&rt, "memory");
    text.extend_from_slice(b"a 1 2 3\n").expect(&rt, "memory");
    let refused = Some(ReadFault::Memory);
    let asked = expect_fault(&rt, rt.alloc(), Refusals::since(1), &text, refused);
    expect_same(&rt, asked, 3);
    for _ in 1..1000u32 {
        text.extend_from_slice(b"a 1 2 3\n").expect(&rt, "memory");
    }
    let asked = expect_fault(&rt, rt.alloc(), Refusals::none(), &text, lacks_arcs(1002));
    expect_same(&rt, asked > 6, true);
}

// A thousand distinct links are sorted by their keys within their list. No other block is allocated.
#[test]
fn distinct_links_take_none(rt: HostRuntime) {
    let memory = Refusing::new(rt.alloc(), Refusals::none());
    let mut links = Vec::with_capacity(&memory, 1000).expect(&rt, "memory");
    for low in 1..1001u32 {
        let link = Link::of_arc(low, 2 * low + 1, i64::from(low).wrapping_neg());
        links.push(link.expect(&rt, "a link")).expect(&rt, "memory");
    }
    assert!(&rt; have_lows_ascending(links.as_slice()));
    let forest = Forest::of_distinct(links);
    expect_same(&rt, (forest.links().len(), memory.given()), (1000, 1));
}
