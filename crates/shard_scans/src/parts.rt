//! What a scan by threads passes over, and parts of it.
ghost use Rattle.std.specs.Prelude.{◌≤◌};

use links::Link;

// A shard's links, and the labels under which they are scanned.
#[derive(Clone, Copy)]
pub(crate) struct Scanned<'a> {
    pub(crate) links: &'a [Link],
    pub(crate) labels: &'a [u32],
}

// The links from index `from` to before index `to`.
#[derive(Clone, Copy)]
pub(crate) struct Part {
    pub(crate) from: usize,
    pub(crate) to: usize,
    ghost ordered: { from ≤ to },
}
