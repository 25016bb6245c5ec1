//! Lines to workers over TCP on this machine, and the threads of these workers. A worker's thread ends after the near
//! end of its stream is closed: drop the lines, and then call [`Workers::join`].
//!
//! ```text
//!   Workers::start ── for each worker
//!         │
//!     own_pair ── a listener on 127.0.0.1, or a new one after a stranger
//!         │
//!       pair ──► TcpLine (near end) ══ a connection ══ TcpStream (far end)
//!                   │                                       │ in a thread of its own
//!             lines, in order                       worker_engine::serve
//! ```
//!
//! What it promises:
//! - A [`TcpLine`] counts each failure that it returns and each end of the stream, from 0. It says nothing about the
//!   bytes of its socket, which depend on the system, and is never known to be faithful.
//! - [`Workers::start`] returns at most as many lines as requested, all of them unused, and equally many threads.
//! - Only tested: a call fails only if its stream did, and what one end writes the other end reads. [`pair`] rejects a
//!   stranger, and [`own_pair`] tries again after one. A line that is dropped ends its stream. A worker's number is the
//!   index of its line; contracts say only that it is below [`limits::MAX_WORKERS`].
//!
//! Where to make a change: `line` says what a line does, `pairs` how a connection is made, and `workers` has the
//! threads and the numbers of workers.
#![tactic(auto)]

mod line;
mod pairs;
mod workers;

pub use line::TcpLine;
pub use pairs::{PairFault, own_pair, pair};
pub use workers::Workers;
