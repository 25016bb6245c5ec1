//! Sources and sinks whose bytes and failures are visible to the contracts. The contracts of std's `Read` and `Write`
//! show no failures. A [`Source`] or a [`Sink`] has a state that describes both its bytes and its failures. Each part
//! of the state is optional, because not every stream shows it to the contracts.
//!
//! ```text
//!   &[u8]   Uncounted(file, stdin, socket)          Vec   Uncounted(file, stdout, socket)
//!       \     /                                        \     /
//!     Source::read                                 Sink::write, flush
//!          |                                              |
//!        fill                                            put
//! ```
//!
//! What it promises:
//! - What a call does is one relation from the state before to the state after (`Gave`, `Took`). These relations
//!   compose.
//! - [`fill`] fills a buffer with the next bytes. Otherwise, it reports whether a read failed or the stream ended, and
//!   after how many bytes.
//! - [`put`] writes a whole text, or reports how many bytes the sink took. It stops early only if a write failed or
//!   took nothing.
//! - [`FusedSource`] and [`FusedSink`] fail at a chosen byte. Their contracts show everything about them, those of a
//!   device nothing.
//! - After a flush that succeeds, no byte waits in a sink that shows which bytes wait, as a [`BufferedSink`] does.
//!
//! To change what the contracts show of a stream, or what a call does to it, start with `specs/Streams` and the traits
//! in `traits`. To add a new kind of stream, see `memory` and `devices`. The loops are in `transfer`.
#![tactic(auto)]

mod devices;
mod fused;
mod memory;
mod traits;
mod transfer;

pub use devices::Uncounted;
pub use fused::{FusedSink, FusedSource};
pub use memory::BufferedSink;
pub use traits::{Failed, Sink, Source};
pub use transfer::{FillFault, PutFault, fill, put};
