// Scans of a few links under many labels, each with the marks of the scan before. A link marks labels near the
// beginning, in the middle or near the end, and no other label.
use super::scans::{expect_offers, links_between, neighbours, plain_offers, scanned};
use super::sizes::apart;
use link_key::Labels;
use std::alloc::Global;
use std::process::Abort;
use std::thread::Threads;
use worked_graphs::Row;
use worker_engine::Scanner;

// The number of vertices, and three arcs. A word has marks of 64 labels. The last of 1,025 labels is the only one in
// its word, and the last 48 of 70,000 share one.
const TOUCHED: [(u32, [Row; 3]); 2] = [
    (1025, [(1, 2, 5), (512, 514, 5), (1024, 1025, 5)]),
    (
        70_000,
        [(1, 2, 5), (34_999, 35_001, 5), (69_999, 70_000, 5)],
    ),
];

// A scan without links, after other scans, gives no offers.
fn expect_none_behind(
    rt: &(impl Abort + Threads + Sync),
    alloc: Global,
    scanner: &mut Scanner,
    labels: &Labels,
) {
    let none = scanned(rt, alloc, scanner, &[], labels);
    expect_offers(rt, &none, &[]);
}

// The offers of the single link of this arc.
fn expect_alone(
    rt: &(impl Abort + Threads + Sync),
    alloc: Global,
    scanner: &mut Scanner,
    labels: &Labels,
    arc: Row,
) {
    let link = links_between(rt, alloc, labels.n(), &[arc]);
    let offers = scanned(rt, alloc, scanner, link.as_slice(), labels);
    expect_offers(rt, &offers, &[(arc.0, 0), (arc.1, 0)]);
    expect_none_behind(rt, alloc, scanner, labels)
}

// The offers of each of these arcs by itself, and then of all together, with the labels of pairs.
fn expect_each_and_all(
    rt: &(impl Abort + Threads + Sync),
    alloc: Global,
    scanner: &mut Scanner,
    n: u32,
    arcs: &[Row],
) {
    let labels = apart(rt, alloc, n);
    for arc in arcs {
        expect_alone(rt, alloc, scanner, &labels, *arc);
    }
    let pairs = neighbours(rt, alloc, n, 2);
    let all = links_between(rt, alloc, n, arcs);
    let expected = plain_offers(rt, alloc, 0, all.as_slice(), &pairs);
    let offers = scanned(rt, alloc, scanner, all.as_slice(), &pairs);
    expect_offers(rt, &offers, expected.as_slice());
    expect_none_behind(rt, alloc, scanner, &pairs)
}

// Each link by itself, twice, and in between all three with the labels of pairs.
#[test]
fn few_of_many_labels_are_touched(rt: HostRuntime) {
    let mut scanner = Scanner::new(rt.alloc());
    for (n, arcs) in TOUCHED {
        for _ in 0..2 {
            expect_each_and_all(&rt, rt.alloc(), &mut scanner, n, &arcs);
        }
    }
}
