//! The sequential solver: the minimum spanning forest of a list of edges, found by one thread, or by several threads
//! that share its steps. The crate also re-exports from `links` what the solver works on: links (the API's name for
//! edges), their keys, labels, offers, shards and cuts.
//!
//! ```text
//!   links  --parts of them, the lightest first-->  rounds of first touches between numbered components  -->  Forest
//! ```
//!
//! What it promises:
//! - [`forest_of`] returns exactly the forest: the links whose endpoints aren't joined by links of smaller keys. No
//!   spanning forest weighs less. [`plain_forest`] does the same with a copy of the list.
//! - [`keep_forest`] leaves only the forest's links in the list, and [`keep_forest_par`] does so with several threads.
//! - [`components_of`] labels each vertex with the least vertex of its component, if the links close no cycle and none
//!   is repeated. Otherwise, it returns no labels.
//!
//! To change the solver and its rounds, see `sequential`. What is true while it works is defined in `specs/Rounds` and
//! `specs/OpenLinks`, and what components are in `specs/Components`. The definition of a forest is in `links`.
#![tactic(auto)]

pub mod sequential;

pub use links::{
    Answer, Cut, CutFault, Forest, Labels, Link, Offers, Shard, check_even, check_places, laws,
};
pub use sequential::{components_of, forest_of, keep_forest, keep_forest_par, plain_forest};
