// A region, and the allocator that provides it as one block.
use super::given::{has_room, region_of};
use super::same::expect_same;
use region_heap::{OneBlock, Region};
use std::alloc::Global;
use std::process::Abort;

fn one_block(rt: &impl Abort, alloc: Global, size: usize) -> OneBlock {
    OneBlock::new(region_of(rt, alloc, size))
}

#[test]
fn sizes_of_regions(rt: HostRuntime) {
    for size in [0, 1, 15, 16, 17, 31, 32, 47, 48, 4095, 4096] {
        expect_same(&rt, region_of(&rt, rt.alloc(), size).size(), size);
    }
}

// An allocator over 48 bytes provides three units of 16 bytes once, and nothing after that. No block can have 2^63
// bytes.
#[test]
fn regions_that_are_refused(rt: HostRuntime) {
    let one = one_block(&rt, rt.alloc(), 48);
    expect_same(&rt, Region::leaked(&one, 1 << 63).is_err(), true);
    expect_same(&rt, Region::leaked(&one, 64).is_err(), true);
    let region = Region::leaked(&one, 63).expect(&rt, "three units");
    expect_same(&rt, region.size(), 63);
    expect_same(&rt, Region::leaked(&one, 0).is_err(), true);
    drop(region);
    expect_same(&rt, Region::leaked(&one, 16).is_err(), true);
}

// The bytes of a region, the bytes of a block, and whether the allocation succeeds. It does for whole units of 16
// bytes, if the region has as many.
const BLOCKS: [(usize, usize, bool); 18] = [
    (0, 0, true),
    (0, 16, false),
    (15, 16, false),
    (16, 0, true),
    (16, 15, false),
    (16, 16, true),
    (16, 17, false),
    (16, 32, false),
    (31, 16, true),
    (31, 32, false),
    (32, 16, true),
    (32, 32, true),
    (47, 32, true),
    (47, 48, false),
    (48, 40, false),
    (48, 47, false),
    (48, 48, true),
    (48, 64, false),
];

#[test]
fn blocks_of_up_to_three_units(rt: HostRuntime) {
    for (size, asked, is_given) in BLOCKS {
        let one = one_block(&rt, rt.alloc(), size);
        expect_same(
            &rt,
            (size, asked, has_room::<u8, &OneBlock>(&one, asked)),
            (size, asked, is_given),
        );
    }
}

// The same for numbers of values of 2, 4, 8 and 16 bytes, each aligned to its size. The region has 3 units.
#[test]
fn blocks_of_each_alignment(rt: HostRuntime) {
    for (units, is_given) in [(0, true), (1, true), (2, true), (3, true), (4, false)] {
        let found = (
            has_room::<u16, &OneBlock>(&one_block(&rt, rt.alloc(), 48), 8 * units),
            has_room::<u32, &OneBlock>(&one_block(&rt, rt.alloc(), 48), 4 * units),
            has_room::<u64, &OneBlock>(&one_block(&rt, rt.alloc(), 48), 2 * units),
            has_room::<u128, &OneBlock>(&one_block(&rt, rt.alloc(), 48), units),
        );
        let wanted = (is_given, is_given, is_given, is_given);
        expect_same(&rt, (units, found), (units, wanted));
    }
}

#[test]
fn parts_of_a_unit(rt: HostRuntime) {
    let one = one_block(&rt, rt.alloc(), 48);
    expect_same(&rt, has_room::<u16, &OneBlock>(&one, 7), false);
    expect_same(&rt, has_room::<u32, &OneBlock>(&one, 3), false);
    expect_same(&rt, has_room::<u64, &OneBlock>(&one, 5), false);
    // the allocations that failed used no memory
    expect_same(&rt, has_room::<u64, &OneBlock>(&one, 6), true);
}

// The memory is provided once. A second allocation fails while the first block exists, and also after it was freed.
#[test]
fn a_second_block(rt: HostRuntime) {
    let one = one_block(&rt, rt.alloc(), 48);
    expect_same(&rt, has_room::<u128, &OneBlock>(&one, 4), false);
    let values = Vec::from_slice(&one, &[1u128, 2, 3]).expect(&rt, "memory");
    expect_same(&rt, has_room::<u128, &OneBlock>(&one, 1), false);
    expect_same(&rt, values.as_slice(), [1, 2, 3].as_slice());
    drop(values);
    expect_same(&rt, has_room::<u128, &OneBlock>(&one, 1), false);
}

#[test]
fn no_region(rt: HostRuntime) {
    let empty = OneBlock::empty();
    expect_same(&rt, has_room::<u8, &OneBlock>(&empty, 0), true);
    expect_same(&rt, has_room::<u8, &OneBlock>(&empty, 16), false);
}
