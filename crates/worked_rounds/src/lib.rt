//! Tests of shards, of the workers that scan them, and of failed allocations. Each is a test that needs only public
//! calls.
//!
//! ```text
//!   cuts                         a list of links, split into shards
//!   board, shard_sets            claims of shards, by one seat and by many; sets of shards
//!   labels                       labels that coarsen others
//!   scans                        a worker's scan, by one thread and by threads, and links that are laid aside
//!   kept_shard                   a shard that a worker keeps, and its offers as components grow
//!   engine                       the frames that a worker gets, and whole sessions
//!   sizes                        scans and engines at each size at which they work in another way
//!   touched                      scans of a few links under many labels, one after the other
//!   fault_texts                  the text of each error of a session
//!   refusals                     work whose allocations fail in turn
//!   memory_counts                an allocator that counts its blocks and their bytes
//!   memory_of_lists              which blocks are still allocated after a list was passed to a call
//!   processors                   how many tables a scan by threads makes
//!   memory_of_scans              which blocks scans and asks allocate
//!   same                         compares a result with what is expected
//! ```
//!
//! To test a public call of `shard_scans`, `worker_engine`, `claim_board`, or of labels and cuts, add to the file of
//! its subject. The head of `worked_examples` explains what a test is for, and which crate has the tests of other
//! subjects.
#![tactic(auto)]

#[cfg(test)]
mod tests;
