// Lists that calls of `link_key` take by value.
use super::same::expect_same;
use link_key::{Forest, Labels, Link, Offers};
use std::alloc::Global;
use std::process::Abort;
use test_memory::{Refusals, Refusing};

type Blocks = (u64, u64);

/// What happens to a list that is the only block: the blocks before the call, and whether the call makes something of
/// the list. Then the blocks after the call, and after its result is dropped.
type Outcome = (Blocks, bool, Blocks, Blocks);

const DROPPED: Outcome = ((1, 1), false, (1, 0), (1, 0));

const KEPT: Outcome = ((1, 1), true, (1, 1), (1, 0));

fn blocks(memory: &Refusing<Global>) -> Blocks {
    (memory.given(), memory.live())
}

// The outcome for a list of which this was made, or nothing.
fn outcome<T: Drop>(memory: &Refusing<Global>, before: Blocks, made: Option<T>) -> Outcome {
    let is_made = made.is_some();
    let behind = blocks(memory);
    drop(made);
    (before, is_made, behind, blocks(memory))
}

fn of_labels(rt: &impl Abort, alloc: Global, list: &[u32]) -> Outcome {
    let memory = Refusing::new(alloc, Refusals::none());
    let list = list.to_vec(&memory).expect(rt, "memory");
    let before = blocks(&memory);
    outcome(&memory, before, Labels::of_list(list))
}

fn of_offers(rt: &impl Abort, alloc: Global, list: &[(u32, u32)]) -> Outcome {
    let memory = Refusing::new(alloc, Refusals::none());
    let list = list.to_vec(&memory).expect(rt, "memory");
    let before = blocks(&memory);
    outcome(&memory, before, Offers::of_pairs(list))
}

fn of_forest(rt: &impl Abort, alloc: Global, list: &[Link]) -> Outcome {
    let memory = Refusing::new(alloc, Refusals::none());
    let list = list.to_vec(&memory).expect(rt, "memory");
    let before = blocks(&memory);
    outcome(&memory, before, Forest::of_list(list))
}

#[test]
fn labels_keep_their_list_or_drop_it(rt: HostRuntime) {
    let outcomes = [
        of_labels(&rt, rt.alloc(), &[1, 1, 2]),
        of_labels(&rt, rt.alloc(), &[1, 1, 1]),
    ];
    expect_same(&rt, outcomes, [DROPPED, KEPT]);
}

#[test]
fn offers_keep_their_list_or_drop_it(rt: HostRuntime) {
    let outcomes = [
        of_offers(&rt, rt.alloc(), &[(1, 0), (1, 2)]),
        of_offers(&rt, rt.alloc(), &[(1, 0), (2, 2)]),
    ];
    expect_same(&rt, outcomes, [DROPPED, KEPT]);
}

#[test]
fn a_forest_keeps_its_list_or_drops_it(rt: HostRuntime) {
    let light = Link::of_arc(1, 2, 5).expect(&rt, "a link");
    let heavy = Link::of_arc(2, 3, 7).expect(&rt, "a link");
    let outcomes = [
        of_forest(&rt, rt.alloc(), &[light, light]),
        of_forest(&rt, rt.alloc(), &[light, heavy]),
    ];
    expect_same(&rt, outcomes, [DROPPED, KEPT]);
}
