// The merges of links in the order in which they are listed. They are SciPy's linkage matrices, or were worked out by
// hand or by a rule.
use super::lists::links_between;
use super::same::expect_same;
use limits::{MAX_ARCS, MAX_VERTICES};
use link_merges::{Merge, merges_of};
use std::alloc::Global;
use std::process::Abort;
use worked_graphs::{EQUAL_WEIGHTS, Row, SMALL_NET};

// Two clusters, the lower one first, and the size of the cluster that they become.
fn merge(first: u32, second: u32, size: u32) -> Merge {
    Merge {
        first,
        second,
        size,
    }
}

fn expect_merges(rt: &impl Abort, alloc: Global, n: u32, arcs: &[Row], merges: Option<&[Merge]>) {
    let links = links_between(rt, alloc, n, arcs);
    assert!(rt; n <= MAX_VERTICES && links.len() <= MAX_ARCS as usize);
    let found = merges_of(alloc, n, links.as_slice()).expect(rt, "memory");
    let found = found.as_ref().map(|found| found.as_slice());
    expect_same(rt, (n, found), (n, merges));
}

// The points 2, 8, 0, 4, 1, 9, 9 and 0 on a line, which are the example of `linkage` in SciPy's manual.
const ON_A_LINE: [Row; 7] = [
    (3, 8, 0),
    (6, 7, 0),
    (1, 5, 1),
    (5, 8, 1),
    (2, 6, 1),
    (1, 4, 2),
    (4, 2, 4),
];

#[test]
fn points_on_a_line(rt: HostRuntime) {
    let merges = [
        merge(2, 7, 2),
        merge(5, 6, 2),
        merge(0, 4, 2),
        merge(8, 10, 4),
        merge(1, 9, 3),
        merge(3, 11, 5),
        merge(12, 13, 8),
    ];
    expect_merges(&rt, rt.alloc(), 8, &ON_A_LINE, Some(&merges));
}

// The points of each cluster that the merges of eight points make, as bits. Two clusters that are merged share no
// point.
#[test]
fn clusters_of_points_on_a_line(rt: HostRuntime) {
    let links = links_between(&rt, rt.alloc(), 8, &ON_A_LINE);
    assert!(&rt; links.len() <= MAX_ARCS as usize);
    let found = merges_of(rt.alloc(), 8, links.as_slice())
        .expect(&rt, "memory")
        .expect(&rt, "no cycle");
    let mut clusters: Vec<u8> = Vec::from_array(rt.alloc(), [1, 2, 4, 8, 16, 32, 64, 128]).expect(
        &rt, "memory",
    );
    for row in found.as_slice() {
        let first = clusters
            .as_slice()
            .get(row.first as usize)
            .copied()
            .expect(&rt, "a cluster");
        let second = clusters
            .as_slice()
            .get(row.second as usize)
            .copied()
            .expect(&rt, "a cluster");
        expect_same(&rt, first & second, 0);
        expect_same(&rt, (first | second).count_ones(), row.size);
        clusters.push(first | second).expect(&rt, "memory");
    }
    let made = [
        0b1000_0100u8,
        0b0110_0000,
        0b0001_0001,
        0b1001_0101,
        0b0110_0010,
        0b1001_1101,
        255,
    ];
    expect_same(&rt, clusters.as_slice().get(8..), Some(made.as_slice()));
}

// Three points at each corner of a square, which are the example of `single` in SciPy's manual.
#[test]
fn points_at_corners(rt: HostRuntime) {
    let arcs = [
        (1, 2, 1),
        (3, 1, 1),
        (4, 5, 1),
        (4, 6, 1),
        (7, 8, 1),
        (9, 7, 1),
        (10, 11, 1),
        (12, 10, 1),
        (2, 5, 2),
        (3, 8, 2),
        (6, 11, 2),
    ];
    let merges = [
        merge(0, 1, 2),
        merge(2, 12, 3),
        merge(3, 4, 2),
        merge(5, 14, 3),
        merge(6, 7, 2),
        merge(8, 16, 3),
        merge(9, 10, 2),
        merge(11, 18, 3),
        merge(13, 15, 6),
        merge(17, 20, 9),
        merge(19, 21, 12),
    ];
    expect_merges(&rt, rt.alloc(), 12, &arcs, Some(&merges));
}

// No point, one and two points, and trees with points that no link reaches. In one case, the links aren't sorted by
// weight.
#[test]
fn small_forests(rt: HostRuntime) {
    let rows: [(u32, &[Row], &[Merge]); 5] = [
        (0, &[], &[]),
        (1, &[], &[]),
        (2, &[], &[]),
        (2, &[(2, 1, -5)], &[merge(0, 1, 2)]),
        (
            9,
            &[(9, 3, 1), (6, 4, 9), (9, 5, -2), (2, 6, 0), (8, 9, 1)],
            &[
                merge(2, 8, 2),
                merge(3, 5, 2),
                merge(4, 9, 3),
                merge(1, 10, 3),
                merge(7, 11, 4),
            ],
        ),
    ];
    for (n, arcs, merges) in rows {
        expect_merges(&rt, rt.alloc(), n, arcs, Some(merges));
    }
}

// A cycle of three links, a cycle that the last link closes, a cycle among many links, and a link that is listed twice.
#[test]
fn cycles_have_no_merges(rt: HostRuntime) {
    let rows: [(u32, &[Row]); 5] = [
        (3, EQUAL_WEIGHTS.arcs),
        (5, &[(1, 2, 0), (4, 5, 0), (2, 3, 1), (3, 4, 1), (5, 1, 9)]),
        (6, SMALL_NET.arcs),
        (2, &[(1, 2, 4), (2, 1, 4)]),
        (3, &[(1, 2, 4), (2, 3, -4), (1, 2, 4)]),
    ];
    for (n, arcs) in rows {
        expect_merges(&rt, rt.alloc(), n, arcs, None);
    }
}

// The links of a path in order, and those of a star. One cluster grows by one point at a time.
#[test]
fn one_cluster_grows(rt: HostRuntime) {
    let n = 300u32;
    let mut path: Vec<Row> = Vec::new(rt.alloc());
    let mut star: Vec<Row> = Vec::new(rt.alloc());
    let mut merges: Vec<Merge> = Vec::new(rt.alloc());
    for i in 0..299u32 {
        path.push((i + 1, i + 2, 7)).expect(&rt, "memory");
        star.push((i + 2, 1, i64::from(i))).expect(&rt, "memory");
        let row = if i == 0 {
            merge(0, 1, 2)
        } else {
            merge(i + 1, i + 299, i + 2)
        };
        merges.push(row).expect(&rt, "memory");
    }
    for arcs in [path.as_slice(), star.as_slice()] {
        expect_merges(&rt, rt.alloc(), n, arcs, Some(merges.as_slice()));
    }
}

// 256 vertices become pairs, then groups of four, then of eight, and so on: link i joins the clusters 2 i and 2 i + 1.
#[test]
fn pairs_of_pairs(rt: HostRuntime) {
    let mut arcs: Vec<Row> = Vec::new(rt.alloc());
    let mut merges: Vec<Merge> = Vec::new(rt.alloc());
    let mut row = 0u32;
    for (half, pairs) in [
        (1u32, 128u32),
        (2, 64),
        (4, 32),
        (8, 16),
        (16, 8),
        (32, 4),
        (64, 2),
        (128, 1),
    ] {
        for pair in 0..pairs {
            let low = pair.wrapping_mul(half).wrapping_mul(2).wrapping_add(1);
            arcs.push((low, low.wrapping_add(half), i64::from(half)))
                .expect(&rt, "memory");
            let first = row.wrapping_mul(2);
            merges
                .push(merge(first, first.wrapping_add(1), half.wrapping_mul(2)))
                .expect(&rt, "memory");
            row = row.wrapping_add(1);
        }
    }
    expect_merges(
        &rt,
        rt.alloc(),
        256,
        arcs.as_slice(),
        Some(merges.as_slice()),
    );
}
