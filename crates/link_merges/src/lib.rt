//! Merges: how the links (the API's name for edges) of a forest join clusters of vertices, one link after the other,
//! beginning with single points.
//!
//! ```text
//!   links, none of which closes a cycle  --merges_of-->  a row for each link: two clusters, and the new one's size
//! ```
//!
//! What it promises:
//! - [`merges_of`] returns exactly the merges of the links in the given order, and none if the links close a cycle or
//!   one is repeated. The links have no other list of merges ([`laws`]).
//! - Cutting the merges of a graph's forest at a height gives the components of the graph: the theorem of single
//!   linkage.
//!
//! To change what clusters and merges are, see `specs/Merges`. The theorem is in `specs/Cuts`. `merges` begins with
//! single points, and counts the points of each cluster at the end. In between, `halves` joins the links half by half,
//! as defined in `specs/Halves`.
#![tactic(auto)]

mod halves;
pub mod laws;
mod merges;

pub use merges::{Merge, merges_of};
