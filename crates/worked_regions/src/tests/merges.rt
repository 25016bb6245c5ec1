// The merges of links in caller-provided memory: trees, errors, and a path larger than every internal buffer.
use super::given::{expect_rows, given, heap_of};
use super::same::expect_same;
use caller_forests::{have_no_loop, put_merges};
use link_merges::Merge;
use std::alloc::{Allocator, Global};
use std::process::Abort;
use worked_graphs::{Row, SMALL_NET};

const PAGE: usize = 4096;

// One more than the 2^26 vertices that are allowed.
const TOO_MANY: u32 = 67_108_865;

// A merge that no call makes.
const NONE: Merge = Merge {
    first: 7,
    second: 7,
    size: 0,
};

// The number of points, links sorted by weight, and the two clusters and the size of each merge, worked out by hand.
// Cluster v - 1 is the vertex v, and the link at index i makes the cluster n + i.
type Joined = (u32, &'static [Row], &'static [(u32, u32, u32)]);

const JOINED: [Joined; 7] = [
    (0, &[], &[]),
    (1, &[], &[]),
    (2, &[(2, 1, -4)], &[(0, 1, 2)]),
    // a path, from one end to the other
    (
        4,
        &[(1, 2, 1), (2, 3, 2), (3, 4, 3)],
        &[(0, 1, 2), (2, 4, 3), (3, 5, 4)],
    ),
    // two pairs, which the heaviest link joins
    (
        4,
        &[(4, 3, 1), (1, 2, 2), (2, 3, 9)],
        &[(2, 3, 2), (0, 1, 2), (4, 5, 4)],
    ),
    // a star of equal weights, and two points without links
    (
        6,
        &[(5, 1, 0), (5, 3, 0), (5, 2, 0)],
        &[(0, 4, 2), (2, 6, 3), (1, 7, 4)],
    ),
    // two trees
    (
        5,
        &[(1, 5, i64::MIN), (2, 4, 0), (1, 3, i64::MAX)],
        &[(0, 4, 2), (1, 3, 2), (2, 5, 3)],
    ),
];

// A buffer for `count` merges, each of them `NONE`.
fn room_for(rt: &impl Abort, alloc: Global, count: usize) -> Vec<Merge> {
    Vec::from_elem(alloc, NONE, count).expect(rt, "memory")
}

fn expect_merges<A: Allocator + Copy>(
    rt: &impl Abort,
    alloc: Global,
    within: A,
    n: u32,
    rows: &[Row],
    wanted: &[(u32, u32, u32)],
) {
    let links = given(rt, alloc, rows);
    let mut merges = room_for(rt, alloc, rows.len());
    let count = put_merges(within, n, links.as_slice(), merges.as_mut_slice());
    expect_same(rt, count, rows.len() as i64);
    let mut found = Vec::new(alloc);
    for merge in merges.as_slice() {
        found
            .push((merge.first, merge.second, merge.size))
            .expect(rt, "memory");
    }
    expect_same(rt, found.as_slice(), wanted);
    expect_rows(rt, alloc, links.as_slice(), rows);
}

#[test]
fn merges_of_trees(rt: HostRuntime) {
    for (n, rows, wanted) in JOINED {
        expect_merges(&rt, rt.alloc(), rt.alloc(), n, rows, wanted);
    }
}

#[test]
fn merges_of_trees_within_a_page(rt: HostRuntime) {
    for (n, rows, wanted) in JOINED {
        let heap = heap_of(&rt, rt.alloc(), PAGE);
        expect_merges(&rt, rt.alloc(), &heap, n, rows, wanted);
    }
}

// A call returns this code, and the buffer stays as it was.
fn expect_refusal<A: Allocator + Copy>(
    rt: &impl Abort,
    alloc: Global,
    within: A,
    n: u32,
    rows: &[Row],
    room: usize,
    code: i64,
) {
    let links = given(rt, alloc, rows);
    let mut merges = room_for(rt, alloc, room);
    expect_same(
        rt,
        put_merges(within, n, links.as_slice(), merges.as_mut_slice()),
        code,
    );
    let stayed = room_for(rt, alloc, room);
    expect_same(rt, merges.as_slice(), stayed.as_slice());
}

// The number of vertices, two links, the length of the buffer, and the code, which is returned before memory is
// allocated. Lengths are checked first, then vertices, then endpoints, then loops. More than 2^30 links are an error
// too, but they would need 16 GB.
const REFUSED: [(u32, [Row; 2], usize, i64); 10] = [
    (3, [(1, 2, 1), (2, 3, 2)], 1, -17),
    (3, [(1, 2, 1), (2, 3, 2)], 3, -17),
    (TOO_MANY, [(0, 2, 1), (3, 3, 0)], 1, -17),
    (TOO_MANY, [(1, 2, 1), (2, 3, 2)], 2, -3),
    (TOO_MANY, [(0, 2, 1), (3, 3, 0)], 2, -3),
    (2, [(1, 2, 1), (2, 3, 2)], 2, -2),
    (3, [(3, 3, 1), (0, 3, 0)], 2, -2),
    (0, [(1, 2, 1), (2, 3, 2)], 2, -2),
    (3, [(1, 2, 1), (3, 3, 2)], 2, -19),
    (3, [(2, 2, 1), (1, 3, 0)], 2, -19),
];

// Links whose error is found only after memory was allocated: a cycle, even if the weights descend, or descending
// weights.
const LATER: [(u32, &[Row], i64); 5] = [
    (2, &[(1, 2, 1), (2, 1, 1)], -19),
    (2, &[(1, 2, 4), (1, 2, 3)], -19),
    (3, &[(1, 2, 1), (2, 3, 2), (3, 1, 3)], -19),
    (3, &[(1, 2, 1), (2, 3, 0)], -20),
    (4, &[(1, 2, 5), (2, 3, 5), (3, 4, 4)], -20),
];

#[test]
fn merges_that_are_refused(rt: HostRuntime) {
    for (n, rows, room, code) in REFUSED {
        expect_refusal(&rt, rt.alloc(), rt.alloc(), n, &rows, room, code);
    }
    for (n, rows, code) in LATER {
        expect_refusal(&rt, rt.alloc(), rt.alloc(), n, rows, rows.len(), code);
    }
}

// Without memory the first errors stay the same, and the later ones become out of memory.
#[test]
fn merges_without_memory(rt: HostRuntime) {
    for (n, rows, room, code) in REFUSED {
        let heap = heap_of(&rt, rt.alloc(), 0);
        expect_refusal(&rt, rt.alloc(), &heap, n, &rows, room, code);
    }
    for (n, rows, _) in LATER {
        let heap = heap_of(&rt, rt.alloc(), 0);
        expect_refusal(&rt, rt.alloc(), &heap, n, rows, rows.len(), -1);
    }
}

// After an error, the same links in more memory give their merges. The links are the forest of the small net.
#[test]
fn merges_asked_for_again(rt: HostRuntime) {
    let links = given(&rt, rt.alloc(), SMALL_NET.forest);
    let mut merges = room_for(&rt, rt.alloc(), 5);
    let none = heap_of(&rt, rt.alloc(), 0);
    expect_same(
        &rt,
        put_merges(&none, 6, links.as_slice(), merges.as_mut_slice()),
        -1,
    );
    let page = heap_of(&rt, rt.alloc(), PAGE);
    expect_merges(
        &rt,
        rt.alloc(),
        &page,
        6,
        SMALL_NET.forest,
        &[(1, 4, 2), (2, 3, 2), (6, 7, 4), (5, 8, 5), (0, 9, 6)],
    );
}

// The number of links of a path that is larger than every internal buffer.
const LONG: u32 = 200_003;

// Link i joins the vertex i + 2 to those before it. These are the cluster n + i - 1, or at first the point 0. The heap
// has 32 bytes per link, 4 per vertex and 16384 more.
#[test]
fn the_merges_of_a_long_path(rt: HostRuntime) {
    let n = LONG.wrapping_add(1);
    let mut rows = Vec::new(rt.alloc());
    let mut wanted = Vec::new(rt.alloc());
    for place in 0..LONG {
        let next = place.wrapping_add(1);
        rows.push((next.wrapping_add(1), next, i64::from(place)))
            .expect(&rt, "memory");
        let before = if place == 0 {
            0
        } else {
            n.wrapping_add(place).wrapping_sub(1)
        };
        wanted
            .push((before.min(next), before.max(next), next.wrapping_add(1)))
            .expect(&rt, "memory");
    }
    let heap = heap_of(&rt, rt.alloc(), 7_216_496);
    expect_merges(
        &rt,
        rt.alloc(),
        &heap,
        n,
        rows.as_slice(),
        wanted.as_slice(),
    );
}

#[test]
fn loops_of_links(rt: HostRuntime) {
    let links = given(&rt, rt.alloc(), SMALL_NET.arcs);
    expect_same(&rt, have_no_loop(links.as_slice()), true);
    let links = given(&rt, rt.alloc(), &[(1, 2, 0), (2, 2, 0)]);
    expect_same(&rt, have_no_loop(links.as_slice()), false);
    let none = given(&rt, rt.alloc(), &[]);
    expect_same(&rt, have_no_loop(none.as_slice()), true);
}

// The number of leaves of a star, and one more. It is a prime, so that the multiples of 7919 reach every leaf.
const PRIME: u32 = 100_003;

// The point 0 is the hub. Link i joins the leaf 7919 (i + 1) modulo the prime to the cluster n + i - 1, or at first to
// the hub.
#[test]
fn the_merges_of_a_shuffled_star(rt: HostRuntime) {
    let mut rows = Vec::new(rt.alloc());
    let mut wanted = Vec::new(rt.alloc());
    let mut leaf = 0u32;
    for place in 0..PRIME - 1 {
        leaf = leaf.wrapping_add(7919) % PRIME;
        rows.push((leaf.wrapping_add(1), 1, i64::from(place)))
            .expect(&rt, "memory");
        let before = if place == 0 {
            0
        } else {
            PRIME.wrapping_add(place).wrapping_sub(1)
        };
        wanted
            .push((leaf.min(before), leaf.max(before), place.wrapping_add(2)))
            .expect(&rt, "memory");
    }
    expect_merges(
        &rt,
        rt.alloc(),
        rt.alloc(),
        PRIME,
        rows.as_slice(),
        wanted.as_slice(),
    );
}

// A path of 2^17 vertices, whose links join vertices to pairs, then pairs to fours, and so on. The number of pairs at a
// level is a power of two. Link i of a level makes pair 5 i modulo that number. So link 52429 q makes pair q, because 5
// times 52429 is 1 modulo 2^17.
#[test]
fn the_merges_of_a_shuffled_path(rt: HostRuntime) {
    let n = 1u32 << 17;
    let mut rows = Vec::new(rt.alloc());
    let mut wanted = Vec::new(rt.alloc());
    for level in 0..17u32 {
        let parts = n >> level;
        let size = 1u32 << level;
        for place in 0..parts / 2 {
            let left = place.wrapping_mul(10) & parts.wrapping_sub(1);
            let end = left.wrapping_add(1).wrapping_mul(size);
            rows.push((end, end.wrapping_add(1), i64::from(level)))
                .expect(&rt, "memory");
            let of_left = cluster_of(n, parts, left);
            let of_right = cluster_of(n, parts, left.wrapping_add(1));
            let both = (of_left.min(of_right), of_left.max(of_right));
            wanted
                .push((both.0, both.1, size.wrapping_mul(2)))
                .expect(&rt, "memory");
        }
    }
    expect_merges(
        &rt,
        rt.alloc(),
        rt.alloc(),
        n,
        rows.as_slice(),
        wanted.as_slice(),
    );
}

// The cluster that is section q of the path, if the path is split into `parts` sections.
fn cluster_of(n: u32, parts: u32, q: u32) -> u32 {
    if parts == n {
        return q;
    }
    let first = n.wrapping_mul(2).wrapping_sub(parts.wrapping_mul(2));
    first.wrapping_add(q.wrapping_mul(52429) & parts.wrapping_sub(1))
}
