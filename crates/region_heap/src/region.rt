//! Memory that its owner provides.
ghost use Rattle.std.specs.Prelude.{◌≡◌, ℕ, ◌/◌, ◌*◌, ◌^◌, ◌<◌, IfOk, IfSome};
ghost use denote.RawPtr.{Ptr};
ghost use Rattle.region_heap.specs.Memory.{room_within};

use std::alloc::{AllocError, Allocator};
use std::marker::Model;

// A region is used in units of this many bytes.
pub(crate) const UNIT: usize = 16;

/// `size` bytes of memory from `start` on, aligned to 16 bytes: `struct boruvka_memory`. Only the owner of the region
/// may use its bytes. Those after the last whole 16 stay unused.
///
/// C code makes a region as `include/boruvka.h` says, and Rattle code with [`Region::leaked`]. Dropping a region does
/// nothing to its memory.
#[repr(C)]
#[derive(Drop)]
pub struct Region {
    pub(crate) start: *mut u8,
    pub(crate) size: usize,
    pub(crate) owner: Owner,
    ghost own: { (owner.start ≡ start) × (owner.size ≡ size) },
}

/// Owns the memory of a region. It takes no bytes itself.
#[repr(C)]
#[derive(Drop)]
pub struct Owner {
    ghost start: { Ptr },
    ghost size: { ℕ },
}

impl Model for Owner {
    ghost also_owns = { λ owner. room_within owner.start owner.size };
}

impl Region {
    /// Takes a region of `size` bytes from an allocator for good; they are never deallocated. The bytes after the last
    /// whole 16 are counted but not allocated. Returns an error if the allocator fails, or if no block can have this
    /// size.
    pub fn leaked<A: Allocator>(alloc: &A, size: usize) -> Result<Region, AllocError>
        ensures { IfOk result (λ region. region.size ≡ size) }
    {
        if size > isize::MAX as usize {
            return Err(AllocError);
        }
        match Region::leaked_units(alloc, size, size / UNIT * UNIT) {
            Some(region) => Ok(region),
            None => Err(AllocError),
        }
    }

    // Does the same, given the size of the whole units.
    fn leaked_units<A: Allocator>(alloc: &A, size: usize, whole: usize) -> Option<Region>
        requires { (size < 2 ^ 63) × (whole ≡ size / 16 * 16) }
        ensures { IfSome result (λ region. region.size ≡ size) }
    {
        match alloc.allocate(whole, UNIT) {
            Ok(start) => Some(Region {
                start,
                size,
                owner: Owner {},
            }),
            Err(_) => None,
        }
    }

    /// The number of bytes of the region.
    pub fn size(&self) -> usize
        ensures { result ≡ self.now.size }
    {
        self.size
    }
}
