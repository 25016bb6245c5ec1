// A heap within a region: the bytes that it has left after blocks of each size and alignment, and after blocks were
// freed in each order, grew and shrank. A page has 4096 bytes, of which 4032 are available for blocks.
use super::given::{has_room, heap_of};
use super::same::expect_same;
use region_heap::RegionHeap;
use std::alloc::Global;
use std::process::Abort;

const PAGE: usize = 4096;

// The bytes that a page has left after one byte and then a list of `count` values were allocated.
fn left_after<T: Drop>(rt: &impl Abort, alloc: Global, count: usize) -> usize {
    let heap = heap_of(rt, alloc, PAGE);
    let byte = bytes(rt, &heap, 1);
    let list = list_of::<T>(rt, &heap, count);
    let left = heap.chunk_capacity();
    drop(list);
    drop(byte);
    left
}

fn bytes<'a>(rt: &impl Abort, heap: &'a RegionHeap, count: usize) -> Vec<u8, &'a RegionHeap> {
    list_of(rt, heap, count)
}

fn list_of<'a, T: Drop>(
    rt: &impl Abort,
    heap: &'a RegionHeap,
    count: usize,
) -> Vec<T, &'a RegionHeap> {
    Vec::with_capacity(heap, count).expect(rt, "memory")
}

// A number of units of 16 bytes. Then the bytes that they leave of 4031, as values of 1, 2, 4, 8 and 16 bytes. The last
// block begins at a multiple of its alignment: at 4030 for 2, at 4028 for 4, at 4024 for 8 and at 4016 for 16.
const LEFT: [(usize, [usize; 5]); 4] = [
    (0, [4031, 4031, 4031, 4031, 4031]),
    (1, [4015, 4014, 4012, 4008, 4000]),
    (2, [3999, 3998, 3996, 3992, 3984]),
    (3, [3983, 3982, 3980, 3976, 3968]),
];

#[test]
fn blocks_of_each_size_and_alignment(rt: HostRuntime) {
    for (units, left) in LEFT {
        let found = [
            left_after::<u8>(&rt, rt.alloc(), 16 * units),
            left_after::<u16>(&rt, rt.alloc(), 8 * units),
            left_after::<u32>(&rt, rt.alloc(), 4 * units),
            left_after::<u64>(&rt, rt.alloc(), 2 * units),
            left_after::<u128>(&rt, rt.alloc(), units),
        ];
        expect_same(&rt, (units, found), (units, left));
    }
}

// One value each. A value of 1 byte leaves 4031 bytes. The values of 2, 4, 8 and 16 bytes begin at 4028, 4024, 4016 and
// 4000.
#[test]
fn blocks_of_rising_alignment(rt: HostRuntime) {
    let heap = heap_of(&rt, rt.alloc(), PAGE);
    let first = list_of::<u8>(&rt, &heap, 1);
    let second = list_of::<u16>(&rt, &heap, 1);
    let third = list_of::<u32>(&rt, &heap, 1);
    let fourth = list_of::<u64>(&rt, &heap, 1);
    let fifth = list_of::<u128>(&rt, &heap, 1);
    expect_same(&rt, heap.chunk_capacity(), 4000);
    // the gaps aren't free again
    drop(fifth);
    expect_same(&rt, heap.chunk_capacity(), 4016);
    drop(fourth);
    drop(third);
    drop(second);
    expect_same(&rt, heap.chunk_capacity(), 4030);
    drop(first);
    expect_same(&rt, heap.chunk_capacity(), 4030);
}

// The bytes of a region, and the most that a block in it can have: 64 bytes less than the whole pages of the region.
#[test]
fn regions_of_just_enough_pages(rt: HostRuntime) {
    for (size, most) in [
        (4096, 4032),
        (8191, 4032),
        (8192, 8128),
        (12_287, 8128),
        (12_288, 12_224),
    ] {
        let heap = heap_of(&rt, rt.alloc(), size);
        expect_same(&rt, has_room::<u8, &RegionHeap>(&heap, most + 1), false);
        // the allocation that failed used no memory
        expect_same(&rt, has_room::<u8, &RegionHeap>(&heap, most), true);
        expect_same(&rt, (size, heap.chunk_capacity()), (size, most));
    }
}

#[test]
fn a_region_of_no_bytes(rt: HostRuntime) {
    let heap = heap_of(&rt, rt.alloc(), 0);
    expect_same(&rt, has_room::<u8, &RegionHeap>(&heap, 1), false);
    expect_same(&rt, has_room::<u8, &RegionHeap>(&heap, 0), true);
}

// An allocation that fails changes neither the earlier blocks nor the bytes that are left.
#[test]
fn a_block_that_is_refused(rt: HostRuntime) {
    let heap = heap_of(&rt, rt.alloc(), PAGE);
    let values = Vec::from_slice(&heap, &[7u64, u64::MAX]).expect(&rt, "memory");
    expect_same(&rt, has_room::<u8, &RegionHeap>(&heap, 4017), false);
    expect_same(&rt, values.as_slice(), [7, u64::MAX].as_slice());
    expect_same(&rt, heap.chunk_capacity(), 4016);
    expect_same(&rt, has_room::<u8, &RegionHeap>(&heap, 4016), true);
}

// The orders in which three blocks of 16, 32 and 48 bytes are freed, and the bytes that are left after each. The blocks
// begin at 4016, 3984 and 3936. A freed block can be used again only if it is the lowest one at that time.
const ORDERS: [([usize; 3], [usize; 3]); 6] = [
    ([2, 1, 0], [3984, 4016, 4032]),
    ([2, 0, 1], [3984, 3984, 4016]),
    ([1, 2, 0], [3936, 3984, 3984]),
    ([1, 0, 2], [3936, 3936, 3984]),
    ([0, 2, 1], [3936, 3984, 4016]),
    ([0, 1, 2], [3936, 3936, 3984]),
];

fn left_after_each(rt: &impl Abort, alloc: Global, order: [usize; 3]) -> [usize; 3] {
    let heap = heap_of(rt, alloc, PAGE);
    let mut blocks = [
        Some(bytes(rt, &heap, 16)),
        Some(bytes(rt, &heap, 32)),
        Some(bytes(rt, &heap, 48)),
    ];
    expect_same(rt, heap.chunk_capacity(), 3936);
    let mut left = [0; 3];
    for (place, number) in order.iter().enumerate() {
        if let Some(block) = blocks.get_mut(*number) {
            *block = None;
        }
        if let Some(after) = left.get_mut(place) {
            *after = heap.chunk_capacity();
        }
    }
    left
}

#[test]
fn blocks_given_back_in_each_order(rt: HostRuntime) {
    for (order, left) in ORDERS {
        let found = left_after_each(&rt, rt.alloc(), order);
        expect_same(&rt, (order, found), (order, left));
    }
}

// The last block grows by the 32 bytes below it, and keeps its bytes when it shrinks. When it is freed, only the bytes
// that it still has are free again.
#[test]
fn the_last_block_grown_and_shrunk(rt: HostRuntime) {
    let heap = heap_of(&rt, rt.alloc(), PAGE);
    let mut last = list_of::<u64>(&rt, &heap, 2);
    last.push(1).expect(&rt, "memory");
    last.push(2).expect(&rt, "memory");
    expect_same(&rt, heap.chunk_capacity(), 4016);
    last.reserve_exact(4).expect(&rt, "memory");
    expect_same(&rt, (last.capacity(), heap.chunk_capacity()), (6, 3984));
    expect_same(&rt, last.as_slice(), [1, 2].as_slice());
    last.shrink_to_fit();
    expect_same(&rt, (last.capacity(), heap.chunk_capacity()), (2, 3984));
    expect_same(&rt, last.as_slice(), [1, 2].as_slice());
    drop(last);
    expect_same(&rt, heap.chunk_capacity(), 4000);
}

// If the block holds more values than it grows by, it moves instead, and its old bytes stay lost.
#[test]
fn the_last_block_that_is_nearly_full(rt: HostRuntime) {
    let heap = heap_of(&rt, rt.alloc(), PAGE);
    let mut last = Vec::from_slice(&heap, &[1u64, 2, 3, 4]).expect(&rt, "memory");
    expect_same(&rt, heap.chunk_capacity(), 4000);
    last.reserve_exact(2).expect(&rt, "memory");
    expect_same(&rt, (last.capacity(), heap.chunk_capacity()), (6, 3952));
    expect_same(&rt, last.as_slice(), [1, 2, 3, 4].as_slice());
}

// A block other than the last moves below the last one, which stays as it was. Its old bytes are free again only with
// the region.
#[test]
fn another_block_grown(rt: HostRuntime) {
    let heap = heap_of(&rt, rt.alloc(), PAGE);
    let mut other = Vec::from_slice(&heap, &[1u64, 2]).expect(&rt, "memory");
    let last = Vec::from_slice(&heap, &[3u64, 4]).expect(&rt, "memory");
    expect_same(&rt, heap.chunk_capacity(), 4000);
    other.reserve_exact(4).expect(&rt, "memory");
    expect_same(&rt, (other.capacity(), heap.chunk_capacity()), (6, 3952));
    expect_same(&rt, other.as_slice(), [1, 2].as_slice());
    expect_same(&rt, last.as_slice(), [3, 4].as_slice());
    drop(other);
    expect_same(&rt, heap.chunk_capacity(), 4000);
    drop(last);
    expect_same(&rt, heap.chunk_capacity(), 4016);
}

// 32 bytes are left below the last block. It can grow by exactly these bytes. After a failed growth it is as it was.
#[test]
fn the_last_block_grown_to_the_end(rt: HostRuntime) {
    let heap = heap_of(&rt, rt.alloc(), PAGE);
    let mut last = bytes(&rt, &heap, 4000);
    last.extend_from_slice(b"abc").expect(&rt, "memory");
    expect_same(&rt, last.reserve_exact(4030).is_err(), true);
    expect_same(&rt, (last.capacity(), heap.chunk_capacity()), (4000, 32));
    expect_same(&rt, last.as_slice(), b"abc".as_slice());
    last.reserve_exact(4029).expect(&rt, "memory");
    expect_same(&rt, (last.capacity(), heap.chunk_capacity()), (4032, 0));
    expect_same(&rt, last.as_slice(), b"abc".as_slice());
}
