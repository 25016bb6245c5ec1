//! Scans of a shard. For each label that a link of the shard leaves, a scan offers the least such link, by the first
//! index at which it is. A [`KeptShard`] is scanned again and again under labels that coarsen, over fewer and fewer
//! links.
//!
//! ```text
//!   links, Labels ── Scanner::scan ─────────────────────► Offers
//!                      │ live links, by numbers ► Table      ▲
//!                    scan_par by threads, by labels ─────────┤
//!   links ── KeptShard::new ──► KeptShard ── offers ─────────┘
//!                                │   ▲
//!                         live links, by numbers of their labels
//! ```
//!
//! What it promises:
//! - [`scan`], [`scan_par`] by threads and a [`Scanner`], which reuses the memory of the last scan, return exactly the
//!   light offers.
//! - So does [`KeptShard`], under any labels that coarsen the last ones, or after all its links are made live. If an
//!   endpoint has no label, it returns no offers.
//! - What is live under labels is live under labels that coarsen them ([`laws`]).
//!
//! Where to make a change:
//! - `live` writes the live links of a shard (`specs/Live`), `numbers` numbers their labels (`specs/Numbers`), `listed`
//!   stores them by these numbers, and `by_numbers` returns their offers.
//! - `table` stores the best link for each number (`specs/Tables`), and `scanning` has the scans and the comparison of
//!   one link (`specs/Scanning`).
//! - `parallel` scans `parts` of the links by threads, by the labels themselves (`specs/Parts`).
//! - `kept_shard` is the shard with its list.
#![tactic(auto)]

mod by_numbers;
mod kept_shard;
pub mod laws;
mod listed;
mod live;
mod numbers;
mod parallel;
mod parts;
mod scanning;
mod table;

pub use kept_shard::KeptShard;
pub use scanning::{Scanner, scan, scan_par};
