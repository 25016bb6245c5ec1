//! A region as a single block.
ghost use Rattle.std.specs.Prelude.{◌≡◌, ◌%◌, ◌^◌, ◌<◌, ◌≤◌, IfSome};
ghost use base.Fml.{ftrue};

use crate::region::{Region, UNIT};
use std::alloc::{AllocError, Allocator};
use std::cell::Cell;

/// An allocator that hands out a region as a single block, once, if the size is a multiple of 16. After deallocation it
/// doesn't hand it out again.
#[derive(Drop)]
pub struct OneBlock {
    region: Cell<Option<Region>>,
}

impl OneBlock {
    /// An allocator that still has its region.
    pub fn new(region: Region) -> OneBlock {
        OneBlock {
            region: Cell::new(Some(region)),
        }
    }

    /// An allocator without a region; every allocation fails.
    pub fn empty() -> OneBlock {
        OneBlock {
            region: Cell::new(None),
        }
    }

    // Takes the region, if it is still there, has this many bytes, and they are whole units.
    fn take(&self, size: usize) -> Option<Region>
        ensures { IfSome result (λ region. (size < 2 ^ 63) × (size % 16 ≡ 0) × (size ≤ region.size)) }
    {
        let region = self.region.replace(None)?;
        if size > isize::MAX as usize || size % UNIT != 0 || size > region.size() {
            self.region.replace(Some(region));
            return None;
        }
        Some(region)
    }
}

unsafe impl Allocator for OneBlock {
    ghost dealloc_token = { λ _ _ _. ftrue };

    fn allocate(&self, size: usize, _align: usize) -> Result<*mut u8, AllocError> {
        match self.take(size) {
            Some(
                Region {
                    start,
                    size: _,
                    owner: _,
                },
            ) => Ok(start),
            None => Err(AllocError),
        }
    }

    unsafe fn deallocate(&self, _ptr: *mut u8, _size: usize, _align: usize) {}
}
