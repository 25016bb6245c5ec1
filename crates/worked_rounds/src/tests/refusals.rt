//! Allocations that fail, one after the other.
use super::memory_counts::{counts, refuses};
use super::same::expect_same;
use std::alloc::{AllocError, Global};
use test_memory::{Found, Refusals, Refusing, refuse_each};

/// Work with an allocator that may fail.
#[derive(Clone, Copy, Debug, PartialEq)]
enum Work {
    Nothing,
    TwoBoxes,
    /// Allocates two boxes, and ignores it if the second allocation fails.
    PassesOver,
    /// Allocates a box, and then fails although no allocation failed.
    Fails,
}

fn done(work: Work, memory: &Refusing<Global>) -> Result<(), AllocError> {
    match work {
        Work::Nothing => Ok(()),
        Work::TwoBoxes => {
            let _first = Box::new(memory, 7u8)?;
            let _second = Box::new(memory, 8u8)?;
            Ok(())
        }
        Work::PassesOver => {
            let _first = Box::new(memory, 7u8)?;
            let _second = Box::new(memory, 8u8);
            Ok(())
        }
        Work::Fails => {
            let _first = Box::new(memory, 7u8)?;
            Err(AllocError)
        }
    }
}

// What the search finds if at most this many of the work's allocations fail in turn.
#[test]
fn each_allocation_is_refused_in_turn(rt: HostRuntime) {
    let searches = [
        (Work::Nothing, 1, Found::Each(0)),
        (Work::TwoBoxes, 9, Found::Each(2)),
        (Work::TwoBoxes, 3, Found::Each(2)),
        (Work::TwoBoxes, 2, Found::More),
        (Work::PassesOver, 9, Found::Passes(2)),
        (Work::Fails, 9, Found::Fails(2)),
    ];
    for (work, most, expected) in searches {
        let found = refuse_each(
            rt.alloc(),
            most,
            |memory: &Refusing<Global>| -> Result<(), AllocError> { done(work, memory) },
        );
        expect_same(&rt, (work, found), (work, expected));
    }
}

// A freed block goes back to the inner allocator. A failed allocation doesn't call it.
#[test]
fn blocks_come_from_the_allocator_behind_and_go_back_to_it(rt: HostRuntime) {
    let behind = Refusing::new(rt.alloc(), Refusals::none());
    let memory = Refusing::new(&behind, Refusals::only(2));
    let first = Box::new(&memory, 7u8).expect(&rt, "memory");
    let before = counts(&behind);
    let refused = refuses(&memory);
    let meanwhile = counts(&behind);
    drop(first);
    expect_same(
        &rt,
        (before, refused, meanwhile),
        ([1, 1, 0, 1], true, [1, 1, 0, 1]),
    );
    expect_same(
        &rt,
        [counts(&behind), counts(&memory)],
        [[1, 1, 1, 0], [2, 1, 1, 0]],
    );
}

// If the inner allocator fails, so does the outer one, which counts no block for it.
#[test]
fn a_refusal_behind_is_passed_on(rt: HostRuntime) {
    let behind = Refusing::new(rt.alloc(), Refusals::only(1));
    let memory = Refusing::new(&behind, Refusals::none());
    expect_same(
        &rt,
        (refuses(&memory), counts(&memory)),
        (true, [1, 0, 0, 0]),
    );
}
