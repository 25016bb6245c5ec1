//! Lists of links, split into shards.
ghost use Rattle.std.specs.Prelude.{◌≤◌, ◌^◌, length};

use super::same::expect_same;
use link_key::{Cut, CutFault, Link, check_even, check_places};
use std::alloc::Global;
use std::process::Abort;

// A path of this many links, each of weight 1.
fn path(rt: &impl Abort, alloc: Global, links: u32) -> Vec<Link>
    ensures few { length result.items ≤ 2 ^ 30 }
{
    assert!(rt; links < 1 << 20);
    let mut path = Vec::new(alloc);
    for v in 1..links + 1 {
        if let Some(link) = Link::of_arc(v, v + 1, 1) {
            path.push(link).expect(rt, "memory");
        }
    }
    assert!(rt; path.len() <= 1 << 30);
    path
}

// The sizes of the shards of a cut. Each shard has its number, and joined together they are the links.
fn sizes(rt: &impl Abort, alloc: Global, cut: &Cut, links: &[Link]) -> Vec<usize> {
    expect_joined(rt, alloc, cut, links);
    let mut sizes = Vec::new(alloc);
    for number in 0..cut.len() {
        sizes
            .push(cut.shard(number).links.len())
            .expect(rt, "memory");
    }
    sizes
}

fn expect_joined(rt: &impl Abort, alloc: Global, cut: &Cut, links: &[Link]) {
    let mut joined = Vec::new(alloc);
    for number in 0..cut.len() {
        let shard = cut.shard(number);
        expect_same(rt, shard.number, number);
        joined.extend_from_slice(shard.links).expect(rt, "memory");
    }
    expect_same(rt, joined.as_slice(), links);
    expect_same(rt, cut.links(), links);
}

fn expect_sizes(
    rt: &impl Abort,
    alloc: Global,
    cut: Result<Cut, CutFault>,
    links: &[Link],
    wanted: &[usize],
) {
    let cut = cut.expect(rt, "a cut");
    let sizes_of_cut = sizes(rt, alloc, &cut, links);
    expect_same(rt, sizes_of_cut.as_slice(), wanted);
}

#[test]
fn even_shards(rt: HostRuntime) {
    let alloc = rt.alloc();
    let links = path(&rt, alloc, 8);
    let links = links.as_slice();
    let cuts: [(u32, &[usize]); 4] = [
        (1, &[8]),
        (3, &[2, 3, 3]),
        (8, &[1, 1, 1, 1, 1, 1, 1, 1]),
        (9, &[0, 1, 1, 1, 1, 1, 1, 1, 1]),
    ];
    for (count, wanted) in cuts {
        expect_sizes(&rt, alloc, Cut::even(alloc, links, count), links, wanted);
    }
    expect_sizes(&rt, alloc, Cut::even(alloc, &[], 4), &[], &[0, 0, 0, 0])
}

#[test]
fn shards_at_places(rt: HostRuntime) {
    let alloc = rt.alloc();
    let links = path(&rt, alloc, 8);
    let links = links.as_slice();
    let cuts: [(&[usize], &[usize]); 4] = [
        (&[], &[8]),
        (&[0], &[0, 8]),
        (&[8], &[8, 0]),
        (&[2, 2, 8], &[2, 0, 6, 0]),
    ];
    for (places, wanted) in cuts {
        expect_sizes(&rt, alloc, Cut::at(alloc, links, places), links, wanted);
    }
}

#[test]
fn refused_cuts(rt: HostRuntime) {
    let alloc = rt.alloc();
    let links = path(&rt, alloc, 8);
    let links = links.as_slice();
    let cuts = [
        Cut::at(alloc, links, &[3, 2]).err(),
        Cut::even(alloc, links, 0).err(),
        Cut::even(alloc, links, 4097).err(),
    ];
    let refused = [
        Some(CutFault::BadPlaces),
        Some(CutFault::NoShards),
        Some(CutFault::TooManyShards),
    ];
    expect_same(&rt, cuts, refused);
    let checks = [
        check_even(16777217, 1),
        check_even(16777217, 2),
        check_places(8, &[9]),
        check_places(8, &[8]),
    ];
    let expected = [
        Err(CutFault::ShardTooLarge),
        Ok(()),
        Err(CutFault::BadPlaces),
        Ok(()),
    ];
    expect_same(&rt, checks, expected);
}

fn are_two_or_three(sizes: &[usize]) -> bool {
    let mut all = true;
    for size in sizes {
        all = all && (*size == 2 || *size == 3);
    }
    all
}

#[test]
fn as_many_shards_as_there_may_be(rt: HostRuntime) {
    let alloc = rt.alloc();
    let links = path(&rt, alloc, 10000);
    for count in [4095, 4096] {
        expect_twos_and_threes(&rt, alloc, links.as_slice(), count);
    }
}

fn expect_twos_and_threes(rt: &impl Abort, alloc: Global, links: &[Link], count: u32)
    requires { length links.now ≤ 2 ^ 30 }
{
    let cut = Cut::even(alloc, links, count).expect(rt, "a cut");
    let sizes = sizes(rt, alloc, &cut, links);
    let found = (sizes.len(), are_two_or_three(sizes.as_slice()));
    expect_same(rt, found, (count as usize, true));
}

// The position numbered from 1 on is twice its number, and one more if the number is odd.
fn ascending_places(rt: &impl Abort, alloc: Global) -> Vec<usize> {
    let mut places = Vec::new(alloc);
    for number in 1..4096usize {
        places.push(2 * number + number % 2).expect(rt, "memory");
    }
    places
}

// The number of links of 10,000 before the first of these positions, between each two, and after the last.
fn sizes_between(rt: &impl Abort, alloc: Global) -> Vec<usize> {
    let mut sizes = Vec::new(alloc);
    for number in 1..4096usize {
        sizes
            .push(if number % 2 == 1 { 3 } else { 1 })
            .expect(rt, "memory");
    }
    sizes.push(1809).expect(rt, "memory");
    sizes
}

#[test]
fn as_many_places_as_there_may_be(rt: HostRuntime) {
    let alloc = rt.alloc();
    let links = path(&rt, alloc, 10000);
    let places = ascending_places(&rt, alloc);
    let wanted = sizes_between(&rt, alloc);
    let links = links.as_slice();
    let cut = Cut::at(alloc, links, places.as_slice());
    expect_sizes(&rt, alloc, cut, links, wanted.as_slice())
}
