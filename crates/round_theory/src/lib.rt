//! Borůvka's rounds: what they mean, and why they end with the minimum spanning forest. All laws are about definitions
//! only, so threads and sockets play no role in them.
//!
//! ```text
//!     labelling by what is taken --leaves--> offers of the shards --least for each label--> picks --added--> taken
//!              ^                                                                                              |
//!              +----------------------------------------------------------------------------------------------+
//! ```
//!
//! What it promises:
//! - A set of links has exactly one labelling. The forest has no cycle and spans the list, and no other part of the
//!   forest spans it.
//! - The least link that leaves a component is in the forest. So the rounds take only links of the forest. After at
//!   most log2 n merging rounds they have taken all of them.
//! - A list has exactly one list of light offers: for each label, the least link of the list that leaves it. The light
//!   offers of the shards name the links that a round picks, however the list is cut and in whatever order the shards
//!   are scanned.
//! - Whatever is offered, light or not, the picks are new links and close no cycle.
//! - A [`Port`] is what the rounds ask for offers. Its state shows what each ask did, and when its answers are honest.
//!
//! To change a definition, see `specs/`: `Labelling`, `Offers` and `Rounds`. The laws are in `specs/Laws`, and [`laws`]
//! promises them. The example of a triangle in `round_core::examples` and calls in `worked_runs` show that their
//! premises can be met. A crate that uses a law proves only that its own step labels, offers, picks or adds what the
//! definition says.
//!
//! A clause can't quantify over all sets of links. So the laws of picks are about two kinds of sets: the links of a
//! list, and the links that received offers name.
//!
//! What the rounds need of a port is in `port`, with `specs/Ports` (what an ask does to a port) and `specs/Exchanges`
//! (what a port was asked and answered). `wires` has ports over lines of bytes.
#![tactic(auto)]

mod fault;
pub mod laws;
mod port;

pub use fault::PortFault;
pub use port::Port;
