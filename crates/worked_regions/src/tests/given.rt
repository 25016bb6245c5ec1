// Links as a caller gives them, and memory for tests.
use super::same::expect_same;
use caller_forests::GivenLink;
use region_heap::{Region, RegionHeap, heap_within};
use std::alloc::{AllocError, Allocator, Global};
use std::process::Abort;
use worked_graphs::Row;

pub(crate) fn region_of(rt: &impl Abort, alloc: Global, size: usize) -> Region {
    Region::leaked(&alloc, size).expect(rt, "memory")
}

// A heap within a region of this size, in bytes.
pub(crate) fn heap_of(rt: &impl Abort, alloc: Global, size: usize) -> RegionHeap {
    heap_within(region_of(rt, alloc, size))
}

// Whether the allocator has memory for a list of `count` values.
pub(crate) fn has_room<T: Drop, A: Allocator>(alloc: A, count: usize) -> bool {
    let list: Result<Vec<T, A>, AllocError> = Vec::with_capacity(alloc, count);
    list.is_ok()
}

pub(crate) fn given(rt: &impl Abort, alloc: Global, rows: &[Row]) -> Vec<GivenLink> {
    let mut links = Vec::new(alloc);
    for (low, high, weight) in rows {
        links
            .push(GivenLink {
                weight: *weight,
                low: *low,
                high: *high,
            })
            .expect(rt, "memory");
    }
    links
}

pub(crate) fn expect_rows(rt: &impl Abort, alloc: Global, links: &[GivenLink], rows: &[Row]) {
    let mut found = Vec::new(alloc);
    for link in links {
        found
            .push((link.low, link.high, link.weight))
            .expect(rt, "memory");
    }
    expect_same(rt, found.as_slice(), rows);
}
