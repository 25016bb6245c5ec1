//! The first endpoint that isn't a vertex, in edges or columns in the caller's memory.
ghost use Rattle.caller_forests.specs.Ends.{IsFirstBadLink, IsFirstBadEnd};

use caller_forests::{GivenLink, first_bad_end, first_bad_link};

/// Returns the index of the first edge that has an endpoint other than the vertices 1 to n, or the number of edges if
/// there is none. It allocates nothing.
#[unsafe(no_mangle)]
pub extern "C" fn boruvka_bad_link_within(n: u32, links: &[GivenLink]) -> usize
    ensures { IsFirstBadLink n links.now result }
{
    first_bad_link(n, links)
}

/// Returns the index of the first of `ends` that isn't one of the n vertices `base`, `base + 1`, .., or the length of
/// `ends` if there is none. It allocates nothing.
#[unsafe(no_mangle)]
pub extern "C" fn boruvka_bad_end_within(n: u32, base: u32, ends: &[u32]) -> usize
    ensures { IsFirstBadEnd n base ends.now result }
{
    first_bad_end(n, base, ends)
}
