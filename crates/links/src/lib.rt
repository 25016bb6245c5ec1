//! The edges of an undirected graph, the order of their keys, and what a minimum spanning forest is. In the API, an
//! edge is called a *link*. The crate also has the types of the rounds over workers: labels, offers, answers, shards
//! and cuts. `link_key` re-exports all of this, and adds the sequential solver.
//!
//! ```text
//!   arc (u, v, w)  --Link::of_arc-->  Link  --sorting-->  links in the order of their keys
//!   links of a forest, in any order  --Forest::of_distinct-->  Forest
//!   labels of the vertices 1 to n  --Labels::of_list, or Labels::apart-->  Labels
//!   pairs (component, index)  --Offers::of_pairs-->  Offers
//!   list of links  --Cut::even, Cut::at-->  Cut  --shard(number)-->  Shard
//! ```
//!
//! What it promises:
//! - Each list has exactly one minimum spanning forest: the links whose endpoints aren't joined by links of smaller
//!   keys. No spanning forest weighs less.
//! - The forest's links up to a weight join exactly what the list's links up to that weight join. The number of the
//!   forest's links plus the number of components is the number of vertices.
//! - The forest can be found in parts. Only the set of links and the order of their weights decide which links it has
//!   ([`laws`]).
//! - A list can be turned into a `Forest`, `Labels` or `Offers` exactly if it meets the type's conditions.
//! - The shards of a [`Cut`], one after the other, are the list that was cut. If a cut isn't allowed, the error gives
//!   the cause.
//!
//! To change a definition, see `specs/`: `Link`, `Walk`, `Forest`, `Least`, `Thresholds`, `Covers`, `Components`,
//! `Reweighted`, `Labels`, `Offers` and `Cut`. `labellings` and `offered` check whether a list is labels or offers, and
//! `cuts` splits a list. `sorting` puts links in the order of their keys. `by_threads` does so with several threads,
//! and `shares` divides the list among them. `of_distinct` makes a forest of links that are already known to be a
//! forest's. `repeats` drops adjacent links that are equal.
#![tactic(auto)]

mod answers;
pub mod by_threads;
pub mod cuts;
pub mod forests;
pub mod labellings;
pub mod laws;
pub mod links;
mod of_distinct;
pub mod offered;
pub mod repeats;
pub mod shards;
pub mod shares;
pub mod sorting;

pub use answers::Answer;
pub use cuts::{Cut, CutFault, check_even, check_places};
pub use forests::Forest;
pub use labellings::Labels;
pub use links::Link;
pub use offered::Offers;
pub use shards::Shard;
