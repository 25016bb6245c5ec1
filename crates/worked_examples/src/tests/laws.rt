// What the laws of `links` say, on a textbook's graph. The values are from the book, or were worked out by hand.
use super::drawn_lists::{expect_forest, rename};
use super::lists::links_between;
use super::same::expect_same;
use link_key::{Link, plain_forest};
use std::alloc::Global;
use std::process::Abort;
use worked_graphs::{Row, TEXTBOOK, WORKED};

fn rows_of_both(rt: &impl Abort, alloc: Global, first: &[Row], second: &[Row]) -> Vec<Row> {
    let mut both = Vec::from_slice(alloc, first).expect(rt, "memory");
    both.extend_from_slice(second).expect(rt, "memory");
    both
}

// The least vertex of each component, by the links up to a weight. This simple program replaces the greater of two
// labels.
fn slow_labels(rt: &impl Abort, alloc: Global, links: &[Link], weight: i64) -> Vec<u32> {
    let mut labels: Vec<u32> = (0..10).collect(alloc).expect(rt, "memory");
    for link in links {
        assert!(rt; link.high < 10 && labels.len() == 10);
        if link.weight <= weight {
            let low = labels[link.low as usize];
            let high = labels[link.high as usize];
            rename(labels.as_mut_slice(), low.max(high), low.min(high));
        }
    }
    labels
}

// What Kruskal's algorithm has joined in the book after the links up to each weight. The first label belongs to no
// vertex.
const JOINED: [(i64, [u32; 10]); 7] = [
    (0, [0, 1, 2, 3, 4, 5, 6, 7, 8, 9]),
    (1, [0, 1, 2, 3, 4, 5, 6, 7, 7, 9]),
    (2, [0, 1, 2, 3, 4, 5, 6, 6, 6, 3]),
    (4, [0, 1, 1, 3, 4, 5, 3, 3, 3, 3]),
    (7, [0, 1, 1, 3, 3, 5, 3, 3, 3, 3]),
    (8, [0, 1, 1, 1, 1, 5, 1, 1, 1, 1]),
    (14, [0, 1, 1, 1, 1, 1, 1, 1, 1, 1]),
];

#[test]
fn links_up_to_a_weight(rt: HostRuntime) {
    let links = links_between(&rt, rt.alloc(), 9, TEXTBOOK.arcs);
    let forest = plain_forest(rt.alloc(), 9, links.as_slice()).expect(&rt, "memory");
    for (weight, labels) in JOINED {
        for list in [links.as_slice(), forest.links()] {
            let found = slow_labels(&rt, rt.alloc(), list, weight);
            expect_same(&rt, (weight, found.as_slice()), (weight, labels.as_slice()));
        }
    }
}

// The links between c, d, e, f, g, h and i, then the other links, and the forests of both.
const PARTS: [&[Row]; 2] = [
    &[
        (3, 4, 7),
        (4, 5, 9),
        (5, 6, 10),
        (6, 7, 2),
        (7, 8, 1),
        (8, 9, 7),
        (9, 3, 2),
        (9, 7, 6),
        (3, 6, 4),
        (4, 6, 14),
    ],
    &[(1, 2, 4), (2, 3, 8), (8, 1, 8), (2, 8, 11)],
];

const FORESTS: [&[Row]; 2] = [
    &[
        (7, 8, 1),
        (3, 9, 2),
        (6, 7, 2),
        (3, 6, 4),
        (3, 4, 7),
        (4, 5, 9),
    ],
    &[(1, 2, 4), (1, 8, 8), (2, 3, 8)],
];

fn expect_rows(rt: &impl Abort, alloc: Global, arcs: &[Row], forest: &[Row]) {
    let wanted = links_between(rt, alloc, 9, forest);
    expect_forest(rt, alloc, 9, arcs, wanted.as_slice());
}

// The forest of all links is also the forest of the parts' forests, and of one part's forest with the other part.
#[test]
fn forests_of_parts(rt: HostRuntime) {
    for (part, forest) in PARTS.into_iter().zip(FORESTS) {
        expect_rows(&rt, rt.alloc(), part, forest);
    }
    let merged = rows_of_both(&rt, rt.alloc(), FORESTS[0], FORESTS[1]);
    expect_rows(&rt, rt.alloc(), merged.as_slice(), TEXTBOOK.forest);
    let added = rows_of_both(&rt, rt.alloc(), FORESTS[0], PARTS[1]);
    expect_rows(&rt, rt.alloc(), added.as_slice(), TEXTBOOK.forest);
}

// Each row is followed by its reverse, as in a file of roads.
fn rows_both_ways(rt: &impl Abort, alloc: Global, rows: &[Row]) -> Vec<Row> {
    let mut both = Vec::new(alloc);
    for row in rows {
        both.push(*row).expect(rt, "memory");
        both.push((row.1, row.0, row.2)).expect(rt, "memory");
    }
    both
}

// The links in another order, and each two or three times.
#[test]
fn order_and_repeats(rt: HostRuntime) {
    let parts = rows_of_both(&rt, rt.alloc(), PARTS[1], PARTS[0]);
    expect_rows(&rt, rt.alloc(), parts.as_slice(), TEXTBOOK.forest);
    let twice = rows_both_ways(&rt, rt.alloc(), parts.as_slice());
    expect_rows(&rt, rt.alloc(), twice.as_slice(), TEXTBOOK.forest);
    let more = rows_of_both(&rt, rt.alloc(), TEXTBOOK.forest, twice.as_slice());
    expect_rows(&rt, rt.alloc(), more.as_slice(), TEXTBOOK.forest);
}

// The number of components of each example graph, counted by hand.
const COMPONENTS: [usize; 9] = [1, 0, 1, 1, 1, 1, 2, 1, 1];

#[test]
fn links_and_components(rt: HostRuntime) {
    for (graph, components) in WORKED.into_iter().zip(COMPONENTS) {
        assert!(rt; graph.n <= 1 << 26);
        let links = links_between(&rt, rt.alloc(), graph.n, graph.arcs);
        let forest = plain_forest(rt.alloc(), graph.n, links.as_slice()).expect(&rt, "memory");
        let sum = forest.links().len().checked_add(components);
        expect_same(&rt, sum, Some(graph.n as usize));
    }
}

// The book's graph with each weight replaced by its square less 50, so that some weights are negative.
const SQUARES: [Row; 14] = [
    (1, 2, -34),
    (2, 3, 14),
    (3, 4, -1),
    (4, 5, 31),
    (5, 6, 50),
    (6, 7, -46),
    (7, 8, -49),
    (8, 1, 14),
    (2, 8, 71),
    (8, 9, -1),
    (9, 3, -46),
    (9, 7, -14),
    (3, 6, -34),
    (4, 6, 146),
];

// The index in the book's list of each link of the forest.
const PLACES: [usize; 8] = [6, 10, 5, 0, 12, 2, 7, 3];

fn expect_places(rt: &impl Abort, alloc: Global, arcs: &[Row]) {
    let links = links_between(rt, alloc, 9, arcs);
    let forest = plain_forest(alloc, 9, links.as_slice()).expect(rt, "memory");
    expect_same(rt, forest.links().len(), PLACES.len());
    for (link, place) in forest.links().iter().zip(PLACES) {
        expect_same(rt, links.as_slice().get(place), Some(link));
    }
}

#[test]
fn weights_in_the_same_order(rt: HostRuntime) {
    expect_places(&rt, rt.alloc(), TEXTBOOK.arcs);
    expect_places(&rt, rt.alloc(), &SQUARES);
}
