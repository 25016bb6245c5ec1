ghost use mir.Syntax.{Ty};
ghost use types.Logic.{sem};
ghost use Rattle.std.specs.Prelude.{◌≡◌, ◌≤◌, OnOk};
ghost use Rattle.std.specs.Allocator.{HasLayout, block_if_ok};
ghost use Rattle.test_memory.specs.Refused.{IsLetPass};

use crate::gate::Gate;
use crate::refusals::Refusals;
use crate::tally::Tally;
use std::alloc::{AllocError, Allocator};

/// An allocator that counts the requests that it gets, passes them on to another allocator, and makes some of them
/// fail.
///
/// A collection uses it as `&Refusing<B>`, which is `Copy`. The test keeps the allocator itself and reads its counts.
#[derive(Drop)]
pub struct Refusing<B: Allocator> {
    inner: B,
    gate: Gate,
    blocks: Tally,
}

/// The number of bytes of all blocks: of those that exist now, and the largest number at any time.
#[derive(Clone, Copy, Debug, PartialEq, Eq)]
pub struct Bytes {
    pub now: u64,
    pub most: u64,
}

impl<B: Allocator> Refusing<B> {
    /// An allocator of `inner`'s blocks, except that the allocations of `refusals` fail.
    pub fn new(inner: B, refusals: Refusals) -> Refusing<B>
        ensures { result.gate.refusals ≡ refusals }
    {
        Refusing {
            inner,
            gate: Gate::new(refusals),
            blocks: Tally::new(),
        }
    }

    /// Which allocations are made to fail.
    pub fn refusals(&self) -> Refusals
        ensures { result ≡ self.now.gate.refusals }
    {
        self.gate.refusals()
    }

    /// How many allocations were requested, including those that failed.
    pub fn asked(&self) -> u64 {
        self.gate.asked()
    }

    /// How many blocks were allocated.
    pub fn given(&self) -> u64 {
        self.blocks.given()
    }

    /// How many blocks were deallocated.
    pub fn given_back(&self) -> u64 {
        self.blocks.given_back()
    }

    /// How many blocks exist: those allocated and not yet deallocated. The number is exact if no other thread allocates
    /// or deallocates during the call.
    pub fn live(&self) -> u64 {
        let given_back = self.given_back();
        self.given().saturating_sub(given_back)
    }

    /// How many bytes the existing blocks have, and the largest number of bytes at any time since the last call of
    /// [`Refusing::watch`]. A block that grows exists together with its successor until its content is copied. The
    /// numbers are exact if no other thread allocates or deallocates during the call.
    pub fn bytes(&self) -> Bytes
        ensures { result.now ≤ result.most }
    {
        let now = self.blocks.bytes();
        Bytes {
            now,
            most: self.blocks.peak().max(now),
        }
    }

    /// Restarts the largest number of bytes from the current one, and returns the number of bytes of the existing
    /// blocks.
    pub fn watch(&self) -> u64 {
        self.blocks.restart();
        self.blocks.bytes()
    }
}

unsafe impl<B: Allocator> Allocator for Refusing<B> {
    ghost dealloc_token = { λ heap ty ptr. B.dealloc_token heap.inner ty ptr };

    fn allocate(&self, size: usize, align: usize) -> Result<*mut u8, AllocError>
        ghost ty: { Ty }
        requires { HasLayout ty size align }
        ensures* block { sem 𝓛 (block_if_ok (B.dealloc_token self.now.inner) ty result) }
        ensures passed { OnOk result (IsLetPass self.now.gate.refusals) }
    {
        if self.gate.refuses_next() {
            return Err(AllocError);
        }
        match self.inner.allocate(size, align) {
            Ok(block) => {
                self.blocks.give(size);
                Ok(block)
            }
            Err(error) => Err(error),
        }
    }

    unsafe fn deallocate(&self, ptr: *mut u8, size: usize, align: usize) {
        self.blocks.take_back(size);
        self.inner.deallocate(ptr, size, align);
    }
}
