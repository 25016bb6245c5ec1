// Calls that may run out of memory, each with enough memory and at each size of a table. The sizes are none and few,
// those of internal buffers, one less and one more, and far above them. The proofs allow a call to give up at some
// size, so only these tests show that it doesn't. Formulas here give the expected results.
use super::components::expect_components;
use super::drawn_lists::expect_forest;
use super::lists::{have_lows_ascending, links_between};
use super::same::expect_same;
use forest_run::{plain_text, run_plain};
use gr_text::{
    FusedSource, GrReader, Graph, MAX_BYTES, parse, read_graph, read_graph_upto, write_forest,
};
use link_key::{Forest, Labels, Link, Offers};
use std::alloc::Global;
use std::process::Abort;
use std::thread::Threads;
use worked_graphs::Row;

// The number of vertices of a path. A sample has 256 links. A path has one link less than vertices; the test of weights
// far apart adds links to it.
const SIZES: [u32; 19] = [
    0, 1, 2, 3, 4, 5, 6, 254, 255, 256, 257, 10_001, 65_533, 65_534, 65_535, 65_536, 65_537,
    65_538, 200_003,
];

// The vertex at which the lightest links end if weights are far apart.
const LAST: u32 = 1 << 20;

// The greatest allowed number of vertices.
const MOST: u32 = 1 << 26;

// Adds the arcs of a path from vertex 1 to n. Each weighs as much as its first vertex, so they are in the order of
// their keys and all in the forest.
fn put_path(rt: &impl Abort, arcs: &mut Vec<Row>, n: u32) {
    for v in 1..n {
        arcs.push((v, v.wrapping_add(1), i64::from(v)))
            .expect(rt, "memory");
    }
}

pub(crate) fn path(rt: &impl Abort, alloc: Global, n: u32) -> Vec<Row> {
    let mut arcs = Vec::new(alloc);
    put_path(rt, &mut arcs, n);
    arcs
}

// The path as a file, which is also its forest's text.
pub(crate) fn path_text(rt: &impl Abort, alloc: Global, n: u32, arcs: &[Row]) -> Vec<u8> {
    let first = format!(in alloc; "p sp {n} {}\n", arcs.len()).expect(rt, "memory");
    let mut text = Vec::from_slice(alloc, first.as_bytes()).expect(rt, "memory");
    for (u, v, w) in arcs {
        let line = format!(in alloc; "a {u} {v} {w}\n").expect(rt, "memory");
        text.extend_from_slice(line.as_bytes()).expect(rt, "memory");
    }
    text
}

// The arcs in another order, in which neighbours come from far apart. Steps of 7,919 reach every index, since this is a
// prime that doesn't divide the number of arcs.
fn scattered(rt: &impl Abort, alloc: Global, arcs: &[Row]) -> Vec<Row> {
    let mut list = Vec::new(alloc);
    let mut place = 0;
    for _ in 0..arcs.len() {
        if let Some(arc) = arcs.get(place) {
            list.push(*arc).expect(rt, "memory");
        }
        place = place.wrapping_add(7919) % arcs.len().max(1);
    }
    list
}

// The forest of the arcs in another order has exactly these links, in the order of their keys.
fn expect_links(rt: &impl Abort, alloc: Global, n: u32, arcs: &[Row], wanted: &[Row]) {
    let links = links_between(rt, alloc, n, wanted);
    let mixed = scattered(rt, alloc, arcs);
    expect_forest(rt, alloc, n, mixed.as_slice(), links.as_slice());
}

#[test]
fn forests_of_paths(rt: HostRuntime) {
    for n in SIZES {
        let arcs = path(&rt, rt.alloc(), n);
        expect_links(&rt, rt.alloc(), n, arcs.as_slice(), arcs.as_slice());
    }
}

// Weights from the least to the greatest. In addition to the path there are two of the lightest links. The heaviest
// link repeats the endpoints of one of them, and so closes a cycle.
#[test]
fn forests_of_links_with_weights_far_apart(rt: HostRuntime) {
    for n in SIZES {
        let mut wanted = Vec::new(rt.alloc());
        wanted.push((1, LAST, i64::MIN)).expect(&rt, "memory");
        wanted
            .push((LAST - 1, LAST, -i64::MAX))
            .expect(&rt, "memory");
        put_path(&rt, &mut wanted, n);
        let mut arcs = wanted.clone().expect(&rt, "memory");
        arcs.push((1, LAST, i64::MAX)).expect(&rt, "memory");
        expect_links(&rt, rt.alloc(), LAST, arcs.as_slice(), wanted.as_slice());
    }
}

// The links of a path of 2^`rounds` vertices in the order of their keys. Every second link has the least weight, every
// second of the others the next weight, and so on. So each round halves the number of components.
fn halving_path(rt: &impl Abort, alloc: Global, rounds: u32) -> Vec<Row> {
    let mut arcs = Vec::new(alloc);
    for weight in 0..rounds {
        let step = 1u32.wrapping_shl(weight);
        let mut v = step;
        for _ in 0..1u32.wrapping_shl(rounds.wrapping_sub(weight).wrapping_sub(1)) {
            arcs.push((v, v.wrapping_add(1), i64::from(weight)))
                .expect(rt, "memory");
            v = v.wrapping_add(step).wrapping_add(step);
        }
    }
    arcs
}

#[test]
fn forests_of_up_to_eighteen_rounds(rt: HostRuntime) {
    for rounds in 0..19u32 {
        let arcs = halving_path(&rt, rt.alloc(), rounds);
        let n = 1u32.wrapping_shl(rounds);
        expect_links(&rt, rt.alloc(), n, arcs.as_slice(), arcs.as_slice());
    }
}

// The arcs of a tree whose vertices come after their parents. Each is lighter than the one before, so they are in the
// opposite order of their keys.
fn tree(rt: &impl Abort, alloc: Global, n: u32) -> Vec<Row> {
    let mut arcs = Vec::new(alloc);
    for v in 1..n {
        let child = v.wrapping_add(1);
        arcs.push((child / 2, child, i64::from(v).wrapping_neg()))
            .expect(rt, "memory");
    }
    arcs
}

// All links of the tree are in its forest. One more link to the last vertex closes a cycle if there are at least three
// vertices, and the forest stays the same.
#[test]
fn forests_of_trees_in_order(rt: HostRuntime) {
    for n in SIZES {
        let mut arcs = tree(&rt, rt.alloc(), n);
        let mut wanted = arcs.clone().expect(&rt, "memory");
        wanted.as_mut_slice().reverse();
        let links = links_between(&rt, rt.alloc(), n, wanted.as_slice());
        expect_forest(&rt, rt.alloc(), n, arcs.as_slice(), links.as_slice());
        if n > 2 {
            arcs.push((1, n, 0)).expect(&rt, "memory");
            expect_forest(&rt, rt.alloc(), n, arcs.as_slice(), links.as_slice());
        }
    }
}

// The links between vertices of 1 to n whose numbers differ by 2. The odd vertices and the even ones each form a path,
// and the links of the even ones have this weight.
fn two_paths(rt: &impl Abort, alloc: Global, n: u32, even: i64) -> Vec<Row> {
    let mut arcs = Vec::new(alloc);
    for v in 3..n.wrapping_add(1) {
        let weight = if v % 2 == 0 { even } else { i64::from(v) };
        arcs.push((v.wrapping_sub(2), v, weight))
            .expect(rt, "memory");
    }
    arcs
}

// Two components, whose least vertices are 1 and 2. If a link has the greatest weight, keys don't fit 64 bits. There
// are no labels if a link joins the endpoints of a path of at least two links, or if a link is listed twice.
#[test]
fn components_of_paths(rt: HostRuntime) {
    for n in SIZES {
        let labels: Vec<u32> = (1..n.wrapping_add(1))
            .map(|v| if v % 2 == 0 { 2 } else { 1 })
            .collect(rt.alloc())
            .expect(&rt, "memory");
        for (even, ends) in [(0, (1, 5)), (i64::MAX, (1, 3))] {
            let arcs = two_paths(&rt, rt.alloc(), n, even);
            let mut mixed = scattered(&rt, rt.alloc(), arcs.as_slice());
            let wanted = Some(labels.as_slice());
            expect_components(&rt, rt.alloc(), n, mixed.as_slice(), wanted);
            if n >= 5 {
                mixed.push((ends.1, ends.0, 3)).expect(&rt, "memory");
                expect_components(&rt, rt.alloc(), n, mixed.as_slice(), None);
            }
        }
    }
}

// Each of the vertices 1 to n by itself, by each call that makes labels, and as offers.
fn expect_numbers(rt: &impl Abort, alloc: Global, n: u32) {
    assert!(rt; n <= MOST);
    let numbers: Vec<u32> = (1..n + 1).collect(alloc).expect(rt, "memory");
    let apart = Labels::apart(alloc, n).expect(rt, "memory");
    expect_same(rt, apart.as_slice(), numbers.as_slice());
    let pairs = numbers.iter().map(|v| (*v, *v));
    let pairs: Vec<(u32, u32)> = pairs.collect(alloc).expect(rt, "memory");
    let wanted = pairs.clone().expect(rt, "memory");
    let offers = Offers::of_pairs(pairs).expect(rt, "ascending");
    expect_same(rt, offers.pairs(), wanted.as_slice());
    let labels = Labels::of_list(numbers).expect(rt, "labels");
    expect_same(rt, labels.as_slice(), apart.as_slice());
}

#[test]
fn labels_and_offers(rt: HostRuntime) {
    for n in SIZES {
        expect_numbers(&rt, rt.alloc(), n);
    }
}

fn expect_graph(rt: &impl Abort, graph: &Graph, n: u32, links: &[Link]) {
    expect_same(rt, (graph.n(), graph.links()), (n, links));
}

#[test]
fn files_to_graphs(rt: HostRuntime) {
    for n in SIZES {
        let arcs = path(&rt, rt.alloc(), n);
        let links = links_between(&rt, rt.alloc(), n, arcs.as_slice());
        let text = path_text(&rt, rt.alloc(), n, arcs.as_slice());
        let parsed = parse(rt.alloc(), text.as_slice()).expect(&rt, "a graph");
        expect_graph(&rt, &parsed, n, links.as_slice());
        let read = read_graph(rt.alloc(), &mut text.as_slice()).expect(&rt, "a graph");
        expect_graph(&rt, &read, n, links.as_slice());
    }
}

// One read takes up to 65,536 bytes. The pieces of the source and of the text have a few bytes, about as many as a
// read, and more.
#[test]
fn files_in_pieces(rt: HostRuntime) {
    let n = 10_001;
    let arcs = path(&rt, rt.alloc(), n);
    let links = links_between(&rt, rt.alloc(), n, arcs.as_slice());
    let text = path_text(&rt, rt.alloc(), n, arcs.as_slice());
    let limit = MAX_BYTES.min(text.len() as u64);
    for piece in [1, 2, 4095, 4096, 65_535, 65_536, 65_537, 1 << 20] {
        let bytes = text.clone().expect(&rt, "memory");
        let mut source = FusedSource::new(bytes, usize::MAX, piece);
        let read = read_graph_upto(rt.alloc(), &mut source, limit).expect(&rt, "a graph");
        expect_graph(&rt, &read, n, links.as_slice());
        let mut reader = GrReader::new(rt.alloc(), limit);
        for part in text.chunks(piece) {
            reader.feed(part).expect(&rt, "a lawful part");
        }
        expect_same(&rt, reader.line(), 10_002);
        let fed = reader.finish().expect(&rt, "a graph");
        expect_graph(&rt, &fed, n, links.as_slice());
    }
}

// A path with at most `weights` weights, from the least weight on. Its forest is what the sort of std gives.
fn expect_distinct(rt: &(impl Abort + Threads + Sync), alloc: Global, n: u32, weights: u64) {
    let mut arcs = Vec::new(alloc);
    let mut weight = 0u64;
    for v in 1..n {
        weight = weight
            .wrapping_mul(6364136223846793005)
            .wrapping_add(1442695040888963407);
        let drawn = weight.checked_rem(weights).unwrap_or(weight);
        arcs.push((
            v,
            v.wrapping_add(1),
            i64::MIN.wrapping_add(drawn.cast_signed()),
        ))
        .expect(rt, "memory");
    }
    let links = links_between(rt, alloc, n, arcs.as_slice());
    let mut wanted = links.clone().expect(rt, "memory");
    wanted.sort_unstable();
    let again = links.clone().expect(rt, "memory");
    assert!(rt; have_lows_ascending(links.as_slice()));
    let forest = Forest::of_distinct(links);
    expect_same(rt, forest.links(), wanted.as_slice());
    assert!(rt; have_lows_ascending(again.as_slice()));
    let by_threads = Forest::of_distinct_par(rt, again);
    expect_same(rt, by_threads.links(), wanted.as_slice());
}

// Weights out of 1,000 values, out of all values of 64 bits, and out of 2^41 values.
#[test]
fn distinct_links(rt: HostRuntime) {
    for n in SIZES {
        for weights in [1_000, 0, 1 << 41] {
            expect_distinct(&rt, rt.alloc(), n, weights);
        }
    }
}

#[test]
fn forests_to_texts(rt: HostRuntime) {
    for n in SIZES {
        let arcs = path(&rt, rt.alloc(), n);
        let links = links_between(&rt, rt.alloc(), n, arcs.as_slice());
        let text = path_text(&rt, rt.alloc(), n, arcs.as_slice());
        let forest = Forest::of_list(links).expect(&rt, "ascending");
        let mut sink = Vec::new(rt.alloc());
        let written = write_forest(&mut sink, n, &forest);
        expect_same(&rt, written, Ok(text.len() as u64));
        expect_same(&rt, sink.as_slice(), text.as_slice());
    }
}

#[test]
fn files_to_texts(rt: HostRuntime) {
    for n in SIZES {
        let arcs = path(&rt, rt.alloc(), n);
        let text = path_text(&rt, rt.alloc(), n, arcs.as_slice());
        let mut sink = Vec::new(rt.alloc());
        let ended = run_plain(rt.alloc(), &mut text.as_slice(), &mut sink);
        let report = ended.expect(&rt, "a forest");
        let counts = (report.vertices, report.links);
        expect_same(&rt, counts, (n, arcs.len() as u64));
        expect_same(&rt, sink.as_slice(), text.as_slice());
        let again = plain_text(rt.alloc(), text.as_slice()).expect(&rt, "a forest");
        expect_same(&rt, again.as_slice(), text.as_slice());
    }
}

// The tables have 268 MB each.
#[test]
fn as_many_vertices_as_there_may_be(rt: HostRuntime) {
    let arcs = [(1, MOST, -7), (1, 2, 5), (MOST - 1, MOST, 5)];
    expect_links(&rt, rt.alloc(), MOST, &arcs, &arcs);
    let text = b"p sp 67108864 0\n".as_slice();
    let again = plain_text(rt.alloc(), text).expect(&rt, "a forest");
    expect_same(&rt, again.as_slice(), text);
    let labels = Labels::apart(rt.alloc(), MOST).expect(&rt, "memory");
    expect_same(&rt, labels.n(), MOST);
}
