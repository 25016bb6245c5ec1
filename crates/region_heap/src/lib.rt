//! A heap in a region of memory that the region's owner provides.
//!
//! ```text
//!   a region  --one_block-->  one block of it  --bumpalo-->  blocks, one next to the other
//! ```
//!
//! Only the block that was allocated last can grow in place, and only its bytes are free again when it is deallocated.
//! The bytes of other blocks are free again together with the region. So vectors that are filled one after the other
//! waste little.
//!
//! What it promises:
//! - Blocks are in the region, have the alignment of their types, and don't overlap.
//! - No memory comes from elsewhere, neither from the operating system nor from a C library.
//!
//! To change what a region is, start with `region` and `specs/Memory`. To change how much of it a heap takes, start
//! with `heap`.
#![tactic(auto)]

mod heap;
mod one_block;
mod region;

pub use heap::{RegionHeap, heap_within};
pub use one_block::OneBlock;
pub use region::Region;
