// The components that links connect, in any order of the links. The label of a vertex is the least vertex of its
// component. If the links close a cycle, there are no labels.
use super::lists::links_between;
use super::same::expect_same;
use limits::{MAX_ARCS, MAX_VERTICES};
use link_key::components_of;
use std::alloc::Global;
use std::process::Abort;
use worked_graphs::{
    A_NEGATIVE_WEIGHT, A_PATH_OF_EIGHT, EQUAL_WEIGHTS, PARALLEL_ARCS, Row, SMALL_NET, WIDE_WEIGHTS,
};

pub(crate) fn expect_components(
    rt: &impl Abort,
    alloc: Global,
    n: u32,
    arcs: &[Row],
    labels: Option<&[u32]>,
) {
    let links = links_between(rt, alloc, n, arcs);
    assert!(rt; n <= MAX_VERTICES && links.len() <= MAX_ARCS as usize);
    let found = components_of(alloc, n, links).expect(rt, "memory");
    let found = found.as_ref().map(|found| found.as_slice());
    expect_same(rt, (n, found), (n, labels));
}

#[test]
fn components_of_forests(rt: HostRuntime) {
    let rows: [(u32, &[Row], &[u32]); 10] = [
        (0, &[], &[]),
        (1, &[], &[1]),
        (3, &[], &[1, 2, 3]),
        (3, &[(1, 2, 5)], &[1, 1, 3]),
        (3, EQUAL_WEIGHTS.forest, &[1; 3]),
        (6, SMALL_NET.forest, &[1; 6]),
        (6, WIDE_WEIGHTS.forest, &[1; 6]),
        (8, A_PATH_OF_EIGHT.arcs, &[1; 8]),
        (4, A_NEGATIVE_WEIGHT.arcs, &[1, 1, 3, 3]),
        (
            9,
            &[(9, 3, 1), (6, 4, 9), (9, 5, -2), (2, 6, 0), (8, 9, 1)],
            &[1, 2, 3, 2, 3, 2, 7, 3, 3],
        ),
    ];
    for (n, arcs, labels) in rows {
        expect_components(&rt, rt.alloc(), n, arcs, Some(labels));
    }
}

// A cycle of three links, a cycle next to a component without one, a cycle among many links, and a cycle of two links
// with the same endpoints.
#[test]
fn cycles_have_none(rt: HostRuntime) {
    let rows: [(u32, &[Row]); 4] = [
        (3, EQUAL_WEIGHTS.arcs),
        (7, &[(6, 7, 1), (2, 3, 4), (5, 3, 0), (1, 4, -1), (5, 2, 4)]),
        (6, SMALL_NET.arcs),
        (2, &[(1, 2, 4), (1, 2, 7)]),
    ];
    for (n, arcs) in rows {
        expect_components(&rt, rt.alloc(), n, arcs, None);
    }
}

// A link that is listed twice, in a row and with another link between, and with its endpoints in either order.
#[test]
fn doubled_links_have_none(rt: HostRuntime) {
    let rows: [(u32, &[Row]); 3] = [
        (2, &[(1, 2, 4), (2, 1, 4)]),
        (3, &[(1, 2, 4), (2, 3, -4), (1, 2, 4)]),
        (2, PARALLEL_ARCS.arcs),
    ];
    for (n, arcs) in rows {
        expect_components(&rt, rt.alloc(), n, arcs, None);
    }
}
