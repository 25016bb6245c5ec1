//! Tests of byte streams, of frames, and of the allocator that other tests use. Each is a test that needs only public
//! calls.
//!
//! ```text
//!   streams, failing_devices     sources and sinks, and those that fail
//!   given_streams                frames from a source whose contract reports only the bytes that it gave
//!   frames_codec                 frames and their bytes, each error, and its text
//!   memory_of_frames             which blocks frames allocate, and which are still allocated after one is read
//!   next_frames                  a frame after an ask: its labels are the same, coarser, or separate vertices
//!   refused_in_turn              work whose allocations fail in turn, with a flaw and without one
//!   same                         compares a result with what is expected
//!   shard_pieces                 shards written and read in pieces, and flaws in each piece
//!   answer_pieces                answers written and read in pieces, and flaws in each piece
//!   sizes                        frames at, around and above the size of every internal buffer
//! ```
//!
//! To test a public call of `byte_streams`, `frames` or `test_memory`, add to the file of its subject. The head of
//! `worked_examples` explains what a test is for, and which crate has the tests of other subjects.
#![tactic(auto)]

#[cfg(test)]
mod tests;
