//! Memory for tests: an allocator that counts its blocks and their bytes, and makes chosen allocations fail.
//! [`refuse_each`] runs some work while each of its allocations is made to fail in turn.
//!
//! ```text
//!   allocate ──► Gate: next number, refused? ──► inner allocator ──► a block: `Tally` counts it
//!   deallocate ──► `Tally` counts it ──► inner allocator
//! ```
//!
//! What it promises:
//! - The blocks of [`Refusing`] are whole blocks of its inner allocator, and no one else has them.
//! - It refuses the allocations whose numbers are in [`Refusals`]. They are numbered from 1 in the order in which they
//!   are requested. A `Vec` requests an allocation whenever it grows.
//! - What [`refuse_each`] concludes from one run follows from what the run did: whether it failed, whether an
//!   allocation was refused, and whether a block was left.
//! - Atomic counts don't occur in contracts. So some facts are tested and not proved: that each allocation has the next
//!   number, that blocks and bytes are counted, and what `refuse_each` finds over all its runs.
//!
//! To change which numbers are refused, see `refusals`. The counts are in `counter`, `tally` and `gate`, and `in_turn`
//! runs work over them. If you change `allocate` or `deallocate` in `refusing`, change their proofs by hand in
//! `proofs/refusing`.
#![tactic(auto)]

mod counter;
mod gate;
mod in_turn;
mod refusals;
mod refusing;
mod tally;

pub use in_turn::{Found, refuse_each};
pub use refusals::Refusals;
pub use refusing::{Bytes, Refusing};
