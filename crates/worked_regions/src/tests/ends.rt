// The first endpoint that isn't a vertex, in links and in columns.
use super::given::given;
use super::same::expect_same;
use caller_forests::{first_bad_end, first_bad_link};
use worked_graphs::{Row, WORKED};

// The number of vertices, the links, and the index of the first link with an endpoint that isn't a vertex. If there is
// no such link, the index is the number of links.
const LINKS: [(u32, &[Row], usize); 9] = [
    (0, &[], 0),
    (2, &[], 0),
    (2, &[(1, 2, 0), (2, 1, 0), (2, 2, 0)], 3),
    (2, &[(0, 1, 0), (1, 2, 0)], 0),
    (2, &[(1, 0, 0), (1, 2, 0)], 0),
    (2, &[(1, 2, 0), (3, 1, 0), (0, 1, 0)], 1),
    (2, &[(1, 2, 0), (1, 2, 0), (1, u32::MAX, 0)], 2),
    (0, &[(1, 1, 0)], 0),
    (u32::MAX, &[(1, u32::MAX, 0), (0, 1, 0)], 1),
];

#[test]
fn links_with_a_bad_end(rt: HostRuntime) {
    for (n, rows, index) in LINKS {
        let links = given(&rt, rt.alloc(), rows);
        expect_same(
            &rt,
            (n, rows, first_bad_link(n, links.as_slice())),
            (n, rows, index),
        );
    }
    for graph in WORKED {
        let links = given(&rt, rt.alloc(), graph.arcs);
        expect_same(
            &rt,
            first_bad_link(graph.n, links.as_slice()),
            graph.arcs.len(),
        );
    }
}

// The number of vertices, the number of the first vertex, the numbers to check, and the index of the first that isn't a
// vertex. If all are vertices, the index is how many numbers there are.
const ENDS: [(u32, u32, &[u32], usize); 9] = [
    (0, 0, &[], 0),
    (3, 0, &[0, 2, 1], 3),
    (3, 0, &[0, 2, 3, 4], 2),
    (3, 7, &[7, 9, 8], 3),
    (3, 7, &[9, 6], 1),
    (3, 7, &[10, 7], 0),
    (0, 7, &[7], 0),
    // numbers past 32 bits don't wrap around to 0
    (3, u32::MAX - 1, &[u32::MAX - 1, u32::MAX, 0], 2),
    (u32::MAX, 1, &[u32::MAX, 1, 0], 2),
];

#[test]
fn numbers_that_are_no_vertices(rt: HostRuntime) {
    for (n, base, ends, index) in ENDS {
        expect_same(
            &rt,
            (n, base, first_bad_end(n, base, ends)),
            (n, base, index),
        );
    }
}
