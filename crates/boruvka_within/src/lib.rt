//! A static library of calls that find forests, indices, labels and merges within memory that the caller provides.
//! [`caller_forests`] implements them, and each call makes a heap only in that memory. The library calls nothing but
//! `memcpy`, `memmove` and `memset`. Its header is also `include/boruvka.h`.
//!
//! ```text
//!   memory   --region_heap::heap_within-->  a heap  --caller_forests::put_forest-->  the first of the links
//!   memory   --------------- the same ----------->  --caller_forests::put_places-->  the caller's indices
//!   memory   --------------- the same ----------->  --caller_forests::put_labels-->  the caller's labels
//!   memory   --------------- the same ----------->  --caller_forests::put_merges-->  the caller's merges
//!   memory   --------------- the same ----------->  --caller_forests::put_forest_text-->  the caller's buffer
//! ```
//!
//! What it promises: each call has the contract of the call of `boruvka_c` that takes no memory.
//!
//! To change what a call means, start with `caller_forests`. To change how the memory is used, start with
//! `region_heap`.
#![tactic(auto)]

mod ends;
mod forests;
mod labels;
mod merges;
mod places;
mod release;
mod texts;

pub use ends::{boruvka_bad_end_within, boruvka_bad_link_within};
pub use forests::boruvka_forest_within;
pub use labels::boruvka_labels_within;
pub use merges::boruvka_merges_within;
pub use places::boruvka_places_within;
pub use release::boruvka_release_within;
pub use texts::{boruvka_fault_text_within, boruvka_forest_text_within};
