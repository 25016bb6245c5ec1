// The indices of the edges of a forest among arcs in three columns: the example graphs, errors, and a path larger than
// every internal buffer.
use super::given::heap_of;
use super::same::expect_same;
use caller_forests::{Columns, put_places};
use std::alloc::{Allocator, Global};
use std::process::Abort;
use worked_graphs::{Row, SMALL_NET, WORKED, Worked};

const PAGE: usize = 4096;

// One more than the 2^26 vertices that are allowed.
const TOO_MANY: u32 = 67_108_865;

// An index that no call here writes.
const NONE: u32 = 77;

// Rows as columns.
#[derive(Drop)]
struct Owned {
    tails: Vec<u32>,
    heads: Vec<u32>,
    weights: Vec<i64>,
}

// The columns of rows. Vertex 1 of the rows becomes `base`, vertex 2 becomes `base` + 1, and so on.
fn columns_of(rt: &impl Abort, alloc: Global, rows: &[Row], base: u32) -> Owned {
    let mut tails = Vec::new(alloc);
    let mut heads = Vec::new(alloc);
    let mut weights = Vec::new(alloc);
    for (tail, head, weight) in rows {
        tails
            .push(tail.wrapping_add(base).wrapping_sub(1))
            .expect(rt, "memory");
        heads
            .push(head.wrapping_add(base).wrapping_sub(1))
            .expect(rt, "memory");
        weights.push(*weight).expect(rt, "memory");
    }
    Owned {
        tails,
        heads,
        weights,
    }
}

// A call over these rows returns the count, and writes these indices.
fn expect_places<A: Allocator + Copy>(
    rt: &impl Abort,
    alloc: Global,
    within: A,
    asked: (u32, u32, &[Row]),
    count: i64,
    wanted: &[u32],
) {
    let (n, base, rows) = asked;
    let of = columns_of(rt, alloc, rows, base);
    let mut places = Vec::from_elem(alloc, NONE, wanted.len()).expect(rt, "memory");
    let columns = Columns {
        base,
        tails: of.tails.as_slice(),
        heads: of.heads.as_slice(),
        weights: of.weights.as_slice(),
    };
    let found = put_places(within, n, columns, places.as_mut_slice());
    expect_same(rt, (n, base, found), (n, base, count));
    expect_same(rt, places.as_slice(), wanted);
}

// The index of the first arc that is this link, in either direction.
fn first_of(arcs: &[Row], link: Row) -> u32 {
    let mut index = 0u32;
    for (tail, head, weight) in arcs {
        if (*tail.min(head), *tail.max(head), *weight) == link {
            return index;
        }
        index = index.wrapping_add(1);
    }
    NONE
}

// The indices of the forest of a graph, and after them one entry that stays as it was.
fn places_of(rt: &impl Abort, alloc: Global, graph: Worked) -> Vec<u32> {
    let mut wanted = Vec::new(alloc);
    for link in graph.forest {
        wanted
            .push(first_of(graph.arcs, *link))
            .expect(rt, "memory");
    }
    wanted.push(NONE).expect(rt, "memory");
    wanted
}

#[test]
fn places_of_the_worked_graphs(rt: HostRuntime) {
    for graph in WORKED {
        let wanted = places_of(&rt, rt.alloc(), graph);
        for base in [0, 1, 4_000_000_000] {
            let heap = heap_of(&rt, rt.alloc(), PAGE);
            expect_places(
                &rt,
                rt.alloc(),
                &heap,
                (graph.n, base, graph.arcs),
                graph.forest.len() as i64,
                wanted.as_slice(),
            );
        }
    }
}

// Worked out by hand: the arcs at 6, 4, 3, 5 and 1 are the forest of the small net, in the order of its links.
#[test]
fn places_of_the_small_net(rt: HostRuntime) {
    let wanted = [6, 4, 3, 5, 1];
    expect_places(
        &rt,
        rt.alloc(),
        rt.alloc(),
        (6, 1, SMALL_NET.arcs),
        5,
        &wanted,
    );
}

// Loops have no index. Of equal arcs, in either direction, the first one counts.
#[test]
fn places_of_loops_and_repeats(rt: HostRuntime) {
    let rows = [(2, 2, -9), (3, 1, 4), (1, 3, 4), (1, 3, 4), (1, 1, 0)];
    expect_places(&rt, rt.alloc(), rt.alloc(), (3, 1, &rows), 1, &[1]);
    expect_places(&rt, rt.alloc(), rt.alloc(), (0, 0, &[]), 0, &[]);
}

// The number of vertices, an arc after the arc from 1 to 2, and the code. Too many vertices are reported before a bad
// endpoint, and that before an output array that is too small. More than 2^30 arcs are an error too, but they would
// need 16 GB.
const REFUSED: [(u32, Row, i64); 4] = [
    (3, (0, 1, 5), -2),
    (3, (1, 4, 5), -2),
    (0, (1, 1, 5), -2),
    (TOO_MANY, (0, 2, 5), -3),
];

#[test]
fn places_that_are_refused(rt: HostRuntime) {
    for (n, row, code) in REFUSED {
        let rows = [(1, 2, 3), row];
        let none = heap_of(&rt, rt.alloc(), 0);
        expect_places(&rt, rt.alloc(), &none, (n, 1, &rows), code, &[NONE]);
        expect_places(&rt, rt.alloc(), rt.alloc(), (n, 1, &rows), code, &[NONE]);
    }
    let rows = [(1, 2, 3), (3, 2, 4)];
    expect_places(&rt, rt.alloc(), rt.alloc(), (3, 1, &rows), -18, &[NONE]);
    let none = heap_of(&rt, rt.alloc(), 0);
    expect_places(&rt, rt.alloc(), &none, (3, 1, &rows), -1, &[NONE]);
}

// One column is shorter than the others. This error is reported before all others.
#[test]
fn columns_of_other_lengths(rt: HostRuntime) {
    let of = columns_of(&rt, rt.alloc(), SMALL_NET.arcs, 1);
    for (tails, heads, weights) in [(7, 8, 8), (8, 7, 8), (8, 8, 7), (8, 0, 8)] {
        let columns = Columns {
            base: 1,
            tails: of.tails.as_slice().get(..tails).expect(&rt, "tails"),
            heads: of.heads.as_slice().get(..heads).expect(&rt, "heads"),
            weights: of.weights.as_slice().get(..weights).expect(&rt, "weights"),
        };
        let mut places = [NONE; 5];
        expect_same(
            &rt,
            put_places(rt.alloc(), TOO_MANY, columns, &mut places),
            -17,
        );
        expect_same(&rt, places, [NONE; 5]);
    }
}

// The number of arcs of a path that is larger than every internal buffer.
const LONG: u32 = 200_003;

// The heaviest arc comes first, so the indices descend. The heap has 29 bytes per arc, 29 per vertex and 16384 more.
#[test]
fn the_places_of_a_long_path(rt: HostRuntime) {
    let mut rows = Vec::new(rt.alloc());
    let mut wanted = Vec::new(rt.alloc());
    for place in 0..LONG {
        let low = LONG.wrapping_sub(place);
        rows.push((low.wrapping_add(1), low, i64::from(low)))
            .expect(&rt, "memory");
        wanted.push(low.wrapping_sub(1)).expect(&rt, "memory");
    }
    let heap = heap_of(&rt, rt.alloc(), 11_616_587);
    expect_places(
        &rt,
        rt.alloc(),
        &heap,
        (LONG + 1, 1, rows.as_slice()),
        200_003,
        wanted.as_slice(),
    );
}
