//! Implements the calls for C, with any allocator and on the caller's memory. They find forests, the indices of a
//! forest's edges among arcs, component labels, cluster merges, and the text of the forest of a text. In the code an
//! edge is a `Link`, and the caller's edge a `GivenLink`.
//!
//! ```text
//!   links    --given-->  Vec<Link>  --forest_of-->  Forest  --given-->  the first of the links   put_forest
//!   columns  --arcs-->  Vec<Link>  --forest_of-->  Forest  --candidates-->  the caller's indices put_places
//!   links    --given-->  Vec<Link>  --components_of-->  Labels  -->  the caller's labels         put_labels
//!   links    --given-->  Vec<Link>  --merges_of-->  Vec<Merge>  -->  the caller's merges         put_merges
//!   text     --plain_run::plain_text-->  the forest's text  --room-->  the caller's buffer       put_forest_text
//!   a code   --refusals-->  its text  --room-->  the caller's buffer                             put_fault_text
//! ```
//!
//! What it promises:
//! - A call returns exactly the forest, the indices, the labels or the merges, as `link_key`, `plain_run` and
//!   `link_merges` define them. Otherwise it returns an error with its cause, and the caller's edges, indices, labels,
//!   merges and buffer stay as they were.
//! - Nothing is written outside the memory that a caller passed.
//!
//! To change what a call means, start with `specs/Links`, `Places`, `Labels`, `Merges` or `Texts`. To change an error,
//! its code or its text, start with `specs/Refusals`, then `refusals` and `include/boruvka.h`.
#![tactic(auto)]

mod arcs;
mod candidates;
mod ends;
mod faults;
mod forests;
mod given;
mod labels;
mod merges;
mod places;
mod refusals;
mod release;
mod room;
mod texts;

pub use arcs::Columns;
pub use ends::{first_bad_end, first_bad_link};
pub use faults::{Fault, put_fault_text};
pub use forests::put_forest;
pub use given::{GivenLink, have_ends, have_no_loop, links_of};
pub use labels::put_labels;
pub use merges::put_merges;
pub use places::put_places;
pub use refusals::CallRefusal;
pub use release::RELEASE;
pub use texts::put_forest_text;
