// The labels of vertices by links in caller-provided memory: trees, errors, and a path larger than every internal
// buffer.
use super::given::{expect_rows, given, heap_of};
use super::same::expect_same;
use caller_forests::put_labels;
use std::alloc::{Allocator, Global};
use std::process::Abort;
use worked_graphs::Row;

const PAGE: usize = 4096;

// A label that no call here writes.
const NONE: u32 = 77;

// Links, and the label of each vertex, worked out by hand: the least vertex that the links connect with it.
type Labelled = (&'static [Row], &'static [u32]);

const LABELLED: [Labelled; 6] = [
    (&[], &[]),
    (&[], &[1, 2, 3]),
    (&[(2, 1, -4)], &[1, 1]),
    // the three lightest edges of the small net
    (&[(2, 5, 0), (3, 4, 0), (3, 5, 0)], &[1, 2, 2, 2, 2, 6]),
    // a star whose hub has the highest number, and a pair, not sorted by weight
    (
        &[(6, 2, 9), (3, 6, 1), (5, 1, 4), (6, 4, 0)],
        &[1, 2, 2, 2, 1, 2],
    ),
    // the whole forest of the small net
    (
        &[(2, 5, 0), (3, 4, 0), (3, 5, 0), (4, 6, 3), (1, 3, 10)],
        &[1, 1, 1, 1, 1, 1],
    ),
];

// A call over these links returns the code or the count, and writes these labels. The links stay as they were.
fn expect_labels<A: Allocator + Copy>(
    rt: &impl Abort,
    alloc: Global,
    within: A,
    rows: &[Row],
    answer: i64,
    wanted: &[u32],
) {
    let links = given(rt, alloc, rows);
    let mut label = Vec::from_elem(alloc, NONE, wanted.len()).expect(rt, "memory");
    let found = put_labels(within, links.as_slice(), label.as_mut_slice());
    expect_same(rt, (found, label.as_slice()), (answer, wanted));
    expect_rows(rt, alloc, links.as_slice(), rows);
}

#[test]
fn labels_of_trees(rt: HostRuntime) {
    for (rows, wanted) in LABELLED {
        let count = wanted.len() as i64;
        expect_labels(&rt, rt.alloc(), rt.alloc(), rows, count, wanted);
        let heap = heap_of(&rt, rt.alloc(), PAGE);
        expect_labels(&rt, rt.alloc(), &heap, rows, count, wanted);
    }
}

// Two links between three vertices, and the code, which is returned before memory is allocated. A bad endpoint is
// reported before a loop. More than 2^30 links and 2^26 vertices are errors too, which tests in C try.
const REFUSED: [([Row; 2], i64); 4] = [
    ([(1, 2, 1), (2, 4, 2)], -2),
    ([(3, 3, 1), (0, 3, 0)], -2),
    ([(1, 2, 1), (3, 3, 2)], -19),
    ([(2, 2, 1), (1, 3, 0)], -19),
];

#[test]
fn labels_that_are_refused(rt: HostRuntime) {
    for (rows, code) in REFUSED {
        let none = heap_of(&rt, rt.alloc(), 0);
        expect_labels(&rt, rt.alloc(), &none, &rows, code, &[NONE; 3]);
        expect_labels(&rt, rt.alloc(), rt.alloc(), &rows, code, &[NONE; 3]);
    }
    let cycle = [(1, 2, 1), (2, 3, 2), (3, 1, 3)];
    expect_labels(&rt, rt.alloc(), rt.alloc(), &cycle, -19, &[NONE; 3]);
    let none = heap_of(&rt, rt.alloc(), 0);
    expect_labels(&rt, rt.alloc(), &none, &cycle, -1, &[NONE; 3]);
}

// The number of links of a path that is larger than every internal buffer.
const LONG: u32 = 200_003;

// A path without its first link and the one in its middle. The heap has 25 bytes per link, 12 per vertex and 16384
// more.
#[test]
fn the_labels_of_a_long_path(rt: HostRuntime) {
    let middle = LONG / 2;
    let mut rows = Vec::new(rt.alloc());
    let mut wanted = Vec::new(rt.alloc());
    wanted.push(1u32).expect(&rt, "memory");
    for low in 1..LONG {
        let high = low.wrapping_add(1);
        if low > 1 && low != middle {
            rows.push((high, low, -i64::from(low)))
                .expect(&rt, "memory");
        }
        let label = if high <= middle {
            2
        } else {
            middle.wrapping_add(1)
        };
        wanted.push(label).expect(&rt, "memory");
    }
    let heap = heap_of(&rt, rt.alloc(), 7_416_420);
    expect_labels(
        &rt,
        rt.alloc(),
        &heap,
        rows.as_slice(),
        200_003,
        wanted.as_slice(),
    );
}
