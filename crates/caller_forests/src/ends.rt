//! Finds the first endpoint that isn't a vertex.
ghost use Rattle.std.specs.Prelude.{◌≡◌};
ghost use Rattle.caller_forests.specs.Ends.{IsFirstBadLink, IsFirstBadEnd};

use crate::given::{GivenLink, has_ends};

/// Returns the index of the first edge that has an endpoint other than the vertices 1 to n, or the number of edges if
/// there is none. It allocates nothing.
pub fn first_bad_link(n: u32, links: &[GivenLink]) -> usize
    ensures { IsFirstBadLink n links.now result }
{
    for i in 0..links.len() {
        if !has_ends(n, &links[i]) {
            return i;
        }
    }
    links.len()
}

/// Returns the index of the first of `ends` that isn't one of the n vertices `base`, `base + 1`, .., or the length of
/// `ends` if there is none. It allocates nothing.
pub fn first_bad_end(n: u32, base: u32, ends: &[u32]) -> usize
    ensures { IsFirstBadEnd n base ends.now result }
{
    for i in 0..ends.len() {
        if ends[i] < base || ends[i] - base >= n {
            return i;
        }
    }
    ends.len()
}
