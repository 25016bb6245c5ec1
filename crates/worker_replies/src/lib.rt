//! What a worker may write for the frames of a stream, its hello included. These are the definitions that both ends of
//! a line depend on, and their laws: `worker_engine` writes accordingly, and `wires` relies on it.
//!
//! Where to make a change: `specs/Serving` says what the replies to a frame and to a whole stream are, and
//! `specs/Session` how far a session in memory has come. `laws` has what follows from them, and
//! `examples` a stream that meets them.
#![tactic(auto)]

pub mod examples;
pub mod laws;
