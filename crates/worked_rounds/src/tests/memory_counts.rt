// The allocator that counts its blocks and their bytes, and makes chosen allocations fail.
use super::same::expect_same;
use std::alloc::Allocator;
use std::process::Abort;
use test_memory::{Bytes, Refusals, Refusing};

// The numbers of allocations, of blocks that were allocated, of blocks that were freed, and of blocks still allocated.
pub(crate) fn counts<A: Allocator>(memory: &Refusing<A>) -> [u64; 4] {
    [
        memory.asked(),
        memory.given(),
        memory.given_back(),
        memory.live(),
    ]
}

pub(crate) fn refuses<A: Allocator>(memory: &Refusing<A>) -> bool {
    Box::new(memory, 8u8).is_err()
}

#[test]
fn counts_blocks(rt: HostRuntime) {
    let memory = Refusing::new(rt.alloc(), Refusals::none());
    let first = Box::new(&memory, 7u8).expect(&rt, "memory");
    let second = Box::new(&memory, 8u8).expect(&rt, "memory");
    let both = counts(&memory);
    drop(first);
    let one = counts(&memory);
    drop(second);
    let none = counts(&memory);
    expect_same(
        &rt,
        [both, one, none],
        [[2, 2, 0, 2], [2, 2, 1, 1], [2, 2, 2, 0]],
    );
}

// Forty bytes are allocated, and then five. The forty are freed, and thirty-two others are allocated.
#[test]
fn counts_bytes(rt: HostRuntime) {
    let memory = Refusing::new(rt.alloc(), Refusals::none());
    let none = memory.bytes();
    let words = [7u64; 5].to_vec(&memory).expect(&rt, "memory");
    let bytes = [8u8; 5].to_vec(&memory).expect(&rt, "memory");
    let both = memory.bytes();
    drop(words);
    let five = memory.bytes();
    let words = [7u64; 4].to_vec(&memory).expect(&rt, "memory");
    let found = [none, both, five, memory.bytes()];
    let wanted = [(0, 0), (45, 45), (5, 45), (37, 45)];
    expect_same(&rt, found, wanted.map(|(now, most)| Bytes { now, most }));
    drop((words, bytes));
    expect_same(&rt, memory.bytes(), Bytes { now: 0, most: 45 });
}

// The peak counts from the last call of `watch`.
#[test]
fn counts_bytes_anew(rt: HostRuntime) {
    let memory = Refusing::new(rt.alloc(), Refusals::none());
    let words = [7u64; 5].to_vec(&memory).expect(&rt, "memory");
    drop([7u64; 5].to_vec(&memory).expect(&rt, "memory"));
    let before = memory.bytes();
    let lived = memory.watch();
    let watched = memory.bytes();
    drop([8u8; 5].to_vec(&memory).expect(&rt, "memory"));
    let behind = memory.bytes();
    drop(words);
    let found = [before, watched, behind, memory.bytes()];
    let wanted = [(40, 80), (40, 40), (40, 45), (0, 45)];
    expect_same(&rt, lived, 40);
    expect_same(&rt, found, wanted.map(|(now, most)| Bytes { now, most }));
}

// While a list grows, both blocks are counted. A failed allocation counts no bytes.
#[test]
fn counts_bytes_of_what_grows(rt: HostRuntime) {
    let memory = Refusing::new(rt.alloc(), Refusals::since(3));
    let mut numbers = Vec::with_capacity(&memory, 1).expect(&rt, "memory");
    numbers.push(1u64).expect(&rt, "memory");
    numbers.reserve_exact(2).expect(&rt, "memory");
    expect_same(&rt, memory.bytes(), Bytes { now: 24, most: 32 });
    let refused = numbers.reserve_exact(100).is_err();
    expect_same(&rt, (refused, memory.asked()), (true, 3));
    expect_same(&rt, memory.bytes(), Bytes { now: 24, most: 32 });
}

#[test]
fn refuses_one(rt: HostRuntime) {
    let memory = Refusing::new(rt.alloc(), Refusals::only(2));
    let first = Box::new(&memory, 7u8).expect(&rt, "memory");
    let refused = refuses(&memory);
    let third = Box::new(&memory, 9u8).expect(&rt, "memory");
    let refusals = Refusals { first: 2, last: 2 };
    let found = (
        memory.refusals(),
        refused,
        counts(&memory),
        (*first, *third),
    );
    expect_same(&rt, found, (refusals, true, [3, 2, 0, 2], (7, 9)));
}

#[test]
fn refuses_from_a_number_on(rt: HostRuntime) {
    let memory = Refusing::new(rt.alloc(), Refusals::since(2));
    let first = Box::new(&memory, 7u8).expect(&rt, "memory");
    let refused = (refuses(&memory), refuses(&memory));
    drop(first);
    expect_same(
        &rt,
        (refused, counts(&memory)),
        ((true, true), [3, 1, 1, 0]),
    );
}

// A `Vec` allocates a block each time that it grows, and keeps its items if that fails.
#[test]
fn a_growth_is_refused(rt: HostRuntime) {
    let memory = Refusing::new(rt.alloc(), Refusals::since(2));
    let mut numbers = Vec::with_capacity(&memory, 1).expect(&rt, "memory");
    numbers.push(1u32).expect(&rt, "memory");
    let refused = numbers.push(2u32).is_err();
    expect_same(&rt, (refused, numbers.as_slice()), (true, [1].as_slice()));
    drop(numbers);
    expect_same(&rt, counts(&memory), [2, 1, 1, 0]);
}

fn ten_thousand<A: Allocator>(rt: &impl Abort, alloc: A) -> Vec<u32, A> {
    let mut numbers = Vec::new(alloc);
    for number in 0..10_000u32 {
        numbers.push(number).expect(rt, "memory");
    }
    numbers
}

fn are_ten_thousand(numbers: &[u32]) -> bool {
    numbers.iter().copied().eq(0..10_000)
}

// A growth beyond any small size is passed on to the inner allocator.
#[test]
fn ten_thousand_numbers_are_kept(rt: HostRuntime) {
    let memory = Refusing::new(rt.alloc(), Refusals::none());
    let numbers = ten_thousand(&rt, &memory);
    let kept = are_ten_thousand(numbers.as_slice());
    let live = memory.live();
    drop(numbers);
    expect_same(&rt, (kept, live, memory.live()), (true, 1, 0));
}
