//! Tests of workers over real sockets of this machine. Each is a test that needs only public calls.
//!
//! ```text
//!   same            compares a result with what is expected
//!   streams         both sides of a connection, strangers, and lines that fail
//!   workers         asks and whole runs over workers in threads, and over a worker that has hung up
//! ```
//!
//! To test a public call of `tcp_lines`, add to the file of its subject. The head of `worked_examples` explains what a
//! test is for, and which crate has the tests of other subjects.
#![tactic(auto)]

#[cfg(test)]
mod tests;
