//! The frames that a coordinator and its workers exchange, as values and as bytes (`docs/PROTOCOL.md`). A frame is a
//! kind, the length of the body, and the body.
//!
//! Version 1 has the kinds 1 to 5. Version 2 also has kind 6: a shard with a weight that doesn't fit 32 bits. This
//! crate doesn't know the version of a peer, so a sender has to make sure that it sends no kind 6 to a worker of
//! version 1.
//!
//! ```text
//!   Frame, Shard, Labels --encode, encode_shard, encode_ask-->  bytes  <--fault_bytes-- round, shard, code
//!                                                                 |
//!                                                    read_frame, read_next (a Source of bytes)
//!                                                   /                              \
//!                       5 bytes --decode_head--> Head                body --decode_body--> Frame
//! ```
//! A shard or an answer can be written in pieces, by [`shard_head`] and [`put_links`] or by [`answer_head`] and
//! [`put_offers`]. Readers read both in pieces, from a stream or from a body in memory.
//!
//! What it promises:
//! - An encoder returns exactly the one text of a lawful frame, which is the same in both versions. No frame's text is
//!   a prefix of another's, so a stream of frames can be read in one way only (`laws`).
//! - [`read_frame`] returns a frame after it has read exactly the frame's text; otherwise it returns the first error
//!   that applies. [`decode_head`] and [`decode_body`] do the same for the two parts.
//! - [`read_next`] reads the frame after an ask. It also says whether the labels of another ask are those of the last
//!   one, or coarsen them. (That it allocates nothing for the same labels is only tested.)
//!
//! Where to make a change:
//! - The grammar is in `specs/FrameText`, what is lawful in `specs/Lawful`, and the errors with their order in
//!   `specs/Refusals`.
//! - `fields` and `items` have one function per field and per list, and `encoding` and `decoding` one per kind.
//! - `frame_reader` reads a frame, and `list_reader` reads any list in pieces. `shard_reader` (`specs/Spellings`),
//!   `answer_reader` (`specs/Pieces`) and `ask_reader` use it.
//! - `next_frame` reads the frame after an ask (`specs/NextFrame`).
#![tactic(auto)]

mod answer_reader;
mod ask_reader;
mod bodies;
mod decoding;
mod encoding;
mod fault;
mod fields;
mod frame;
mod frame_reader;
mod head;
mod items;
mod lawful;
pub mod laws;
mod list_reader;
mod next_frame;
mod shard_reader;
mod spelling;

pub use decoding::decode_body;
pub use encoding::{
    ANSWER_HEAD, SHARD_HEAD, answer_head, ask_parts, encode, encode_ask, encode_shard, fault_bytes,
    shard_head,
};
pub use fault::FrameFault;
pub use frame::{Frame, Links, VERSION};
pub use frame_reader::read_frame;
pub use head::{Head, decode_head};
pub use items::{fit_32_bits, put_links, put_offers};
pub use links::Answer;
pub use next_frame::{NextFrame, read_next};
pub use spelling::Spelling;
