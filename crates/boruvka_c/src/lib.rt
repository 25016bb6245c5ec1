//! A static library of calls for programs in C, and in every language that can call C, with the C library's allocator.
//! [`caller_forests`] implements them, and `include/boruvka.h` is their header. An edge is a link in the names of the
//! calls.
//!
//! ```text
//!   links    --caller_forests::put_forest-->  the first of the links            boruvka_forest
//!   columns  --caller_forests::put_places-->  the caller's indices              boruvka_places_in
//!   links    --caller_forests::put_labels-->  the caller's labels               boruvka_labels_in
//!   links    --caller_forests::put_merges-->  the caller's merges               boruvka_merges_in
//!   links    --totals-->  their sum in two words                                boruvka_total
//!   text     --caller_forests::put_forest_text-->  the caller's buffer          boruvka_forest_text
//!   a code   --caller_forests::put_fault_text-->  the caller's buffer           boruvka_fault_text
//!   links, columns  --caller_forests::first_bad_link, first_bad_end-->  an index    boruvka_bad_link, boruvka_bad_end
//! ```
//!
//! What it promises:
//! - A call returns exactly the forest, indices, labels or merges that `caller_forests` defines. Otherwise it returns
//!   an error with its cause, and the caller's edges, indices, labels, merges and buffer stay as they were.
//! - Nothing is written outside the memory that a caller passed.
//!
//! To change what a call means, start with `caller_forests`, or for the total with `specs/Totals` here. If a change
//! alters what C sees, change `CALLS_VERSION` too.
#![tactic(auto)]

ghost use Rattle.std.specs.Prelude.{◌≡◌};

mod ends;
mod forests;
mod labels;
mod merges;
mod places;
mod release;
mod texts;
mod totals;

pub use ends::{boruvka_bad_end, boruvka_bad_link};
pub use forests::boruvka_forest;
pub use labels::boruvka_labels_in;
pub use merges::boruvka_merges_in;
pub use places::boruvka_places_in;
pub use release::boruvka_release;
pub use texts::{boruvka_fault_text, boruvka_forest_text};
pub use totals::{Sum, boruvka_total};

/// The version of these calls. It changes if a call, a code or a struct changes its meaning.
pub const CALLS_VERSION: u32 = 1;

/// Returns the [`CALLS_VERSION`] of this build, so that a caller can compare it with that of its header.
#[unsafe(no_mangle)]
pub extern "C" fn boruvka_version() -> u32
    ensures { result ≡ CALLS_VERSION }
{
    CALLS_VERSION
}
