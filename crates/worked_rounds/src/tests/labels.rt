// Labels that coarsen others.
ghost use Rattle.std.specs.Prelude.{◌<◌};

use super::same::expect_same;
use link_key::Labels;
use std::alloc::{Allocator, Global};
use std::process::Abort;

pub(crate) fn labels_of<A: Allocator>(rt: &impl Abort, alloc: A, list: &[u32]) -> Labels<A> {
    let list = Vec::from_slice(alloc, list).expect(rt, "memory");
    Labels::of_list(list).expect(rt, "labels")
}

fn coarsen(all: [&Labels; 4], labels: &Labels) -> [bool; 4] {
    let [first, second, third, fourth] = all;
    [
        first.coarsens(labels),
        second.coarsens(labels),
        third.coarsens(labels),
        fourth.coarsens(labels),
    ]
}

#[test]
fn labels_of_three_vertices(rt: HostRuntime) {
    let apart = labels_of(&rt, rt.alloc(), &[1, 2, 3]);
    let first_two = labels_of(&rt, rt.alloc(), &[1, 1, 3]);
    let first_and_last = labels_of(&rt, rt.alloc(), &[1, 2, 1]);
    let one = labels_of(&rt, rt.alloc(), &[1, 1, 1]);
    let all = [&apart, &first_two, &first_and_last, &one];
    let found = [
        coarsen(all, &apart),
        coarsen(all, &first_two),
        coarsen(all, &first_and_last),
        coarsen(all, &one),
    ];
    let expected = [
        [true, true, true, true],
        [false, true, false, true],
        [false, false, true, true],
        [false, false, false, true],
    ];
    expect_same(&rt, found, expected);
}

#[test]
fn labels_of_other_vertices(rt: HostRuntime) {
    let none = labels_of(&rt, rt.alloc(), &[]);
    let three = labels_of(&rt, rt.alloc(), &[1, 1, 1]);
    let four = labels_of(&rt, rt.alloc(), &[1, 1, 1, 1]);
    let found = [
        none.coarsens(&none),
        none.coarsens(&three),
        three.coarsens(&none),
        four.coarsens(&three),
        three.coarsens(&four),
    ];
    expect_same(&rt, found, [true, false, false, false, false]);
}

const MANY: u32 = 12_345;

// Components of `size` neighbours each, named by the first. One vertex that isn't the first of its component may be a
// component by itself.
fn neighbours(rt: &impl Abort, alloc: Global, size: u32, alone: Option<u32>) -> Labels
    requires { 0 < size }
{
    let mut list = Vec::new(alloc);
    for i in 0..MANY {
        let first = if alone == Some(i) {
            i
        } else {
            i.wrapping_sub(i % size)
        };
        list.push(first.wrapping_add(1)).expect(rt, "memory");
    }
    Labels::of_list(list).expect(rt, "labels")
}

#[test]
fn labels_of_many_vertices(rt: HostRuntime) {
    let tens = neighbours(&rt, rt.alloc(), 10, None);
    let fifties = neighbours(&rt, rt.alloc(), 50, None);
    let sixties = neighbours(&rt, rt.alloc(), 60, None);
    let found = [
        tens.coarsens(&tens),
        fifties.coarsens(&tens),
        sixties.coarsens(&tens),
        tens.coarsens(&fifties),
        sixties.coarsens(&fifties),
        fifties.coarsens(&sixties),
    ];
    expect_same(&rt, found, [true, true, true, false, false, false]);
    for alone in [9, 255, 256, 257, 6_129, 12_287, 12_289, 12_344] {
        let found = beside_alone(&rt, rt.alloc(), &tens, &fifties, alone);
        expect_same(&rt, (alone, found), (alone, [true, false, false]));
    }
}

// Compares components of fifty with components of fifty of which one vertex is separate. Returns whether the former
// coarsen the latter, whether the latter coarsen the former, and whether they coarsen components of ten.
fn beside_alone(
    rt: &impl Abort,
    alloc: Global,
    tens: &Labels,
    fifties: &Labels,
    alone: u32,
) -> [bool; 3] {
    let less = neighbours(rt, alloc, 50, Some(alone));
    [
        fifties.coarsens(&less),
        less.coarsens(fifties),
        less.coarsens(tens),
    ]
}
