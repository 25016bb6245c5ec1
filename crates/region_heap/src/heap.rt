//! A heap in a region.
use crate::one_block::OneBlock;
use crate::region::Region;
use bumpalo::Bump;

/// A heap in a region, for one thread. `&RegionHeap` is an allocator.
pub type RegionHeap = Bump<OneBlock>;

// A heap takes whole pages of its region, each of this many bytes.
const PAGE: usize = 4096;

// This many bytes of the pages can't be used for blocks.
const BESIDE: usize = 64;

/// Makes a heap in a region. Its blocks can take 64 bytes less than the region's whole pages of 4096 bytes, and it
/// hands out no other memory. In a region of less than one page every allocation may fail.
///
/// An allocation takes constant time, and growing a block the time to copy it. If too little is left, an allocation
/// fails and the blocks that were allocated stay.
pub fn heap_within(region: Region) -> RegionHeap {
    let room = (region.size() / PAGE * PAGE).saturating_sub(BESIDE);
    match Bump::try_with_capacity(OneBlock::new(region), room) {
        Ok(heap) => heap,
        Err(_) => Bump::new(OneBlock::empty()),
    }
}
