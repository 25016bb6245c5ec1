// A shard that is kept, and its offers as components grow, and after all its links are live again.
ghost use Rattle.shard_scans.specs.Live.{IsAllLive};

use super::scans::{expect_offers, links_between, neighbours};
use link_key::Labels;
use shard_scans::{KeptShard, Scanner, laws};
use std::alloc::Global;
use std::process::Abort;
use worked_graphs::Row;

// The least link at 1 and at 2 is the first, and at 3 and at 4 the second. Between these pairs it is the fourth.
const ARCS: [Row; 5] = [(1, 2, 7), (3, 4, 2), (2, 3, 9), (1, 4, 8), (2, 4, 8)];

const EACH: [(u32, u32); 4] = [(1, 0), (2, 0), (3, 1), (4, 1)];

const PAIRS: [(u32, u32); 2] = [(1, 3), (3, 3)];

// Both directions of two links. The second direction of each is never listed.
const DIRECTIONS: [Row; 4] = [(1, 2, 3), (2, 1, 3), (2, 3, 5), (3, 2, 5)];

const ENDS: [(u32, u32); 3] = [(1, 0), (2, 0), (3, 2)];

const JOINED: [(u32, u32); 2] = [(1, 2), (3, 2)];

fn kept_arcs(rt: &impl Abort, alloc: Global, n: u32, arcs: &[Row]) -> KeptShard
    ensures { IsAllLive result }
{
    let links = links_between(rt, alloc, n, arcs);
    assert!(rt; links.len() <= 1 << 24);
    KeptShard::new(links)
}

// The first two links are laid aside when pairs are components, and offered again after all are live.
#[test]
fn kept_shard_lays_aside(rt: HostRuntime) {
    let alloc = rt.alloc();
    let mut scanner = Scanner::new(alloc);
    let mut kept = kept_arcs(&rt, alloc, 4, &ARCS);
    let each = Labels::apart(alloc, 4).expect(&rt, "memory");
    let pairs = neighbours(&rt, alloc, 4, 2);
    let offers = kept
        .offers(&mut scanner, &each)
        .expect(&rt, "memory")
        .expect(&rt, "labels");
    expect_offers(&rt, &offers, &EACH);
    laws::live_under_coarser();
    assert!(rt; pairs.coarsens(&each));
    let offers = kept
        .offers_par(&rt, &mut scanner, &pairs)
        .expect(&rt, "memory")
        .expect(&rt, "labels");
    expect_offers(&rt, &offers, &PAIRS);
    kept.make_all_live();
    let offers = kept
        .offers(&mut scanner, &each)
        .expect(&rt, "memory")
        .expect(&rt, "labels");
    expect_offers(&rt, &offers, &EACH);
}

// The first scan of a shard with both directions of each link lists the links. The list offers what the shard would.
#[test]
fn kept_shard_of_both_directions(rt: HostRuntime) {
    let alloc = rt.alloc();
    let mut scanner = Scanner::new(alloc);
    let mut kept = kept_arcs(&rt, alloc, 3, &DIRECTIONS);
    let each = Labels::apart(alloc, 3).expect(&rt, "memory");
    let joined = Labels::of_list([1, 1, 3].to_vec(alloc).expect(&rt, "memory")).expect(
        &rt, "labels",
    );
    let offers = kept
        .offers(&mut scanner, &each)
        .expect(&rt, "memory")
        .expect(&rt, "labels");
    expect_offers(&rt, &offers, &ENDS);
    laws::live_under_coarser();
    assert!(rt; joined.coarsens(&each));
    let offers = kept
        .offers(&mut scanner, &joined)
        .expect(&rt, "memory")
        .expect(&rt, "labels");
    expect_offers(&rt, &offers, &JOINED);
}
