//! Everything that asks workers, in one crate: ports and their errors (`round_theory`), lines and wires over them
//! (`wires`), and lines for tests.
//!
//! ```text
//!     EngineLine          Line::put --Session--> Engine::hear --Session--> Line::get
//!     FusedLine(line)     a line that fails after a given number of calls or bytes
//!     ScriptLine          plays stored bytes
//! ```
//!
//! What it promises:
//! - An [`EngineLine`] is faithful for its worker: what it gets is a prefix of what the worker's session may write.
//! - A [`FusedLine`] is faithful if its inner line is, and a [`ScriptLine`] for no worker.
//!
//! Where to make a change: `engine_line` and `session`, with `specs/EngineLines`; or `fused` and `script`, with
//! `specs/Testing`. Everything else is in the crates below.
#![tactic(auto)]

mod engine_line;
mod fused;
mod memory;
mod script;
mod session;

pub use engine_line::EngineLine;
pub use fused::{Fuse, FusedLine};
pub use round_theory::{Port, PortFault};
pub use script::ScriptLine;
pub use wires::{Line, LineFault, Wire};
