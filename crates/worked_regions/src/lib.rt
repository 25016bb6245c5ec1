//! Tests of memory that the caller provides, and of the calls that find forests, indices, labels and merges in it. Each
//! is a test that needs only public calls.
//!
//! ```text
//!   regions   a region as one block: sizes and alignments, failed allocations, freed blocks
//!   heaps     a heap within a region: the bytes that blocks use, pages, freeing in each order, growth
//!   forests   forests of the example graphs, errors, and a list larger than every internal buffer
//!   places    arcs in columns: the indices of the example graphs' forests, errors, and a long path
//!   labels    the labels of trees, errors, and a long path
//!   merges    the merges of trees, errors, and a long path
//!   ends      the first endpoint that isn't a vertex, in links and in columns
//!   texts     the texts of the example graphs' forests, the errors of lines, and small buffers
//!   codes     the error codes and their texts
//!   given     links as a caller gives them, and regions for tests
//!   same      compares a result with what is expected
//! ```
//!
//! The bytes that a heap has left are worked out by hand. A block begins at the greatest multiple of its alignment from
//! which it fits below the block before.
//!
//! To test a public call of `region_heap` or `caller_forests`, add to the file of its subject.
#![tactic(auto)]

#[cfg(test)]
mod tests;
