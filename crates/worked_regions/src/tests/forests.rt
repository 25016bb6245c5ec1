// The forest of links in caller-provided memory: the example graphs, errors, and a list larger than every internal
// buffer.
use super::given::{expect_rows, given, heap_of};
use super::same::expect_same;
use caller_forests::{GivenLink, have_ends, links_of, put_forest};
use std::alloc::{Allocator, Global};
use std::process::Abort;
use worked_graphs::{Row, SMALL_NET, WORKED, Worked};

const PAGE: usize = 4096;

// One more than the 2^26 vertices that are allowed.
const TOO_MANY: u32 = 67_108_865;

// The forest overwrites the first links, and the links after it stay as they were.
fn expect_forest<A: Allocator + Copy>(rt: &impl Abort, alloc: Global, within: A, graph: Worked) {
    let mut links = given(rt, alloc, graph.arcs);
    let count = put_forest(within, graph.n, links.as_mut_slice());
    expect_same(rt, count, graph.forest.len() as i64);
    let mut wanted = Vec::from_slice(alloc, graph.forest).expect(rt, "memory");
    let behind = graph.arcs.get(graph.forest.len()..).expect(rt, "arcs");
    wanted.extend_from_slice(behind).expect(rt, "memory");
    expect_rows(rt, alloc, links.as_slice(), wanted.as_slice());
}

#[test]
fn forests_of_the_worked_graphs(rt: HostRuntime) {
    for graph in WORKED {
        expect_forest(&rt, rt.alloc(), rt.alloc(), graph);
    }
}

#[test]
fn forests_of_the_worked_graphs_within_a_page(rt: HostRuntime) {
    for graph in WORKED {
        let heap = heap_of(&rt, rt.alloc(), PAGE);
        expect_forest(&rt, rt.alloc(), &heap, graph);
    }
}

// A call returns this code, and the links stay as they were.
fn expect_refusal<A: Allocator + Copy>(
    rt: &impl Abort,
    alloc: Global,
    within: A,
    n: u32,
    rows: &[Row],
    code: i64,
) {
    let mut links = given(rt, alloc, rows);
    expect_same(rt, put_forest(within, n, links.as_mut_slice()), code);
    expect_rows(rt, alloc, links.as_slice(), rows);
}

// The number of vertices, one bad link, and the code. Too many vertices are reported before a bad endpoint. More than
// 2^30 links are an error too, but they would need 16 GB.
const REFUSED: [(u32, Row, i64); 8] = [
    (2, (0, 1, 5), -2),
    (2, (1, 0, 5), -2),
    (2, (1, 3, 5), -2),
    (2, (3, 1, 5), -2),
    (0, (0, 0, 5), -2),
    (0, (1, 1, 5), -2),
    (TOO_MANY, (1, 2, 5), -3),
    (TOO_MANY, (0, 2, 5), -3),
];

#[test]
fn links_that_are_refused(rt: HostRuntime) {
    for (n, row, code) in REFUSED {
        expect_refusal(&rt, rt.alloc(), rt.alloc(), n, &[(1, 1, 2), row], code);
    }
}

// Without memory these errors stay the same. A correct call returns the error for out of memory.
#[test]
fn links_without_memory(rt: HostRuntime) {
    for (n, row, code) in REFUSED {
        let heap = heap_of(&rt, rt.alloc(), 0);
        expect_refusal(&rt, rt.alloc(), &heap, n, &[(1, 1, 2), row], code);
    }
    let heap = heap_of(&rt, rt.alloc(), 0);
    expect_refusal(&rt, rt.alloc(), &heap, SMALL_NET.n, SMALL_NET.arcs, -1);
}

// After an error, the same links in more memory give their forest.
#[test]
fn links_given_again(rt: HostRuntime) {
    let mut links = given(&rt, rt.alloc(), SMALL_NET.arcs);
    let none = heap_of(&rt, rt.alloc(), 0);
    expect_same(&rt, put_forest(&none, 6, links.as_mut_slice()), -1);
    let page = heap_of(&rt, rt.alloc(), PAGE);
    expect_same(&rt, put_forest(&page, 6, links.as_mut_slice()), 5);
    let forest = links.as_slice().get(..5).expect(&rt, "five links");
    expect_rows(&rt, rt.alloc(), forest, SMALL_NET.forest);
}

// The number of links of a path that is larger than every internal buffer.
const LONG: u32 = 200_003;

// The link at this index of a long path. It weighs as much as its lower endpoint, and every second link has its
// endpoints swapped.
fn long_row(place: u32) -> Row {
    let low = place.wrapping_add(1);
    let high = place.wrapping_add(2);
    if place % 2 == 0 {
        (low, high, i64::from(low))
    } else {
        (high, low, i64::from(low))
    }
}

// All links of a long path are in its forest.
fn expect_long<A: Allocator + Copy>(
    rt: &impl Abort,
    alloc: Global,
    within: A,
    rows: &[Row],
    wanted: &[Row],
) {
    let mut links = given(rt, alloc, rows);
    let count = put_forest(within, LONG + 1, links.as_mut_slice());
    expect_same(rt, count, 200_003);
    expect_rows(rt, alloc, links.as_slice(), wanted);
}

// The heaviest link comes first. The forest has the links in the opposite order, lower endpoints first. The heap has 26
// bytes per link, 10 per vertex and 16384 more.
#[test]
fn the_forest_of_a_long_path(rt: HostRuntime) {
    let mut rows = Vec::new(rt.alloc());
    let mut wanted = Vec::new(rt.alloc());
    for place in 0..LONG {
        rows.push(long_row(LONG.wrapping_sub(place).wrapping_sub(1)))
            .expect(&rt, "memory");
        let low = place.wrapping_add(1);
        wanted
            .push((low, low.wrapping_add(1), i64::from(low)))
            .expect(&rt, "memory");
    }
    expect_long(
        &rt,
        rt.alloc(),
        rt.alloc(),
        rows.as_slice(),
        wanted.as_slice(),
    );
    let heap = heap_of(&rt, rt.alloc(), 7_216_502);
    expect_long(&rt, rt.alloc(), &heap, rows.as_slice(), wanted.as_slice());
}

#[test]
fn ends_of_links(rt: HostRuntime) {
    for graph in WORKED {
        let links = given(&rt, rt.alloc(), graph.arcs);
        expect_same(&rt, have_ends(graph.n, links.as_slice()), true);
    }
    let links = given(&rt, rt.alloc(), SMALL_NET.arcs);
    expect_same(&rt, have_ends(5, links.as_slice()), false);
    for (row, is_right) in [
        ((1, 2, 0), true),
        ((0, 2, 0), false),
        ((2, 0, 0), false),
        ((3, 1, 0), false),
    ] {
        let links = given(&rt, rt.alloc(), &[row]);
        expect_same(&rt, (row, have_ends(2, links.as_slice())), (row, is_right));
    }
}

// The rows of the links that `links_of` makes of these rows, or `None` if it is out of memory.
fn rows_of<A: Allocator + Copy>(
    rt: &impl Abort,
    alloc: Global,
    within: A,
    n: u32,
    rows: &[Row],
) -> Option<Vec<Row>> {
    let arcs = given(rt, alloc, rows);
    assert!(rt; n <= 100 && have_ends(n, arcs.as_slice()));
    let Ok(links) = links_of(within, n, arcs.as_slice()) else {
        return None;
    };
    let mut found = Vec::new(alloc);
    for link in links.as_slice() {
        found
            .push((link.low, link.high, link.weight))
            .expect(rt, "memory");
    }
    Some(found)
}

// Lower endpoints come first, loops are left out, and repeats are kept.
#[test]
fn links_of_given_links(rt: HostRuntime) {
    let arcs = [(4, 2, 7), (3, 3, -1), (2, 4, 7), (1, 4, i64::MIN)];
    let wanted = [(2, 4, 7), (2, 4, 7), (1, 4, i64::MIN)];
    let found = rows_of(&rt, rt.alloc(), rt.alloc(), 4, &arcs).expect(&rt, "memory");
    expect_same(&rt, found.as_slice(), wanted.as_slice());
    let none = rows_of(&rt, rt.alloc(), rt.alloc(), 0, &[]).expect(&rt, "memory");
    expect_same(&rt, none.is_empty(), true);
    let heap = heap_of(&rt, rt.alloc(), 0);
    expect_same(
        &rt,
        rows_of(&rt, rt.alloc(), &heap, 4, &arcs).is_none(),
        true,
    );
}
