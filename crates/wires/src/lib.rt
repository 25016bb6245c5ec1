//! Lines to workers, and ports over them, which turn bytes into answers. A [`Wire`] is the port over a line. It
//! exchanges frames with a worker to ask about the light offers of a shard, and its first error closes it for good.
//!
//! ```text
//!     Port::ask, shut, is_open, asks        what rounds call (round_theory)
//!              |
//!            Wire                           is it open? counts
//!            Client::ask                      one ask: hello, shard, ask, answer
//!            steps                          greet, check_version, send_shard, send_ask, hear_answer
//!              |                 \
//!         Line::put           LineSource, which owns the line: frames are read from it
//!              |                 /
//!            Line
//! ```
//!
//! What it promises:
//! - Over a fresh line with known bytes that is faithful for its worker, a wire is honest: each answer is light for its
//!   ask. The only errors are the line's own, a lack of memory, and a worker too old for wide weights.
//! - Over any line, an error has its cause: the bytes that came, what the line counted, or a lack of memory.
//! - An open wire over a line that was fresh, with known bytes, sent each shard once, before its first ask, and the
//!   asks. It got the hello and the answers. Nothing else was sent or got.
//!
//! Where to make a change:
//! - `line` and `specs/Lines` say what is known of a line.
//! - A new error or step goes into `steps` and `specs/Causes`.
//! - `specs/Clients` says what a wire sent and got.
//! - What a port does is in `round_theory`. Lines for tests, such as one to an engine in memory, are in `ports`.
#![tactic(auto)]

mod client;
mod fault;
mod line;
mod line_source;
mod steps;
mod wire;

pub use fault::LineFault;
pub use line::Line;
pub use wire::Wire;
