//! Drops links that repeat the one before them, as in files that list each edge in both directions, one after the
//! other.
ghost use Rattle.std.specs.Prelude.{◌≡◌, ◌≤◌, take, length, false, Contains};
ghost use Rattle.links.specs.LinkSet.{SameLinks};

use crate::links::Link;
use std::alloc::Allocator;

// The largest number of links that are sampled to find out whether the list has repeats.
const SAMPLE: usize = 64;

/// Drops the links at or after an index that repeat the link before them, if at least one of the first 64 of them does.
/// Otherwise, the list stays as it is, whatever follows. The call only saves the time that repeats would take.
///
/// Takes O(m) time for m links from the index on, and no memory.
pub fn drop_usual_repeats<A: Allocator>(links: &mut Vec<Link, A>, from: usize)
    requires in_range { from ≤ length links.old.items }
    ensures few { length links.new.items ≤ length links.old.items }
    ensures same { SameLinks (Contains links.old.items) (Contains links.new.items) }
{
    if !has_repeats(&links.as_slice()[from..]) {
        return;
    }
    let kept = put_once_behind(links.as_mut_slice(), from);
    links.truncate(kept);
}

// Returns whether one of the first few links repeats the one before it.
fn has_repeats(links: &[Link]) -> bool {
    let few = &links[..links.len().min(SAMPLE)];
    !few.is_sorted_by(|earlier, later| earlier != later)
}

// Moves the links from an index on that don't repeat the one before them to the front of that part, in order. Returns
// the number of links that are left, including those before the index. The loop has no branch that depends on the
// links.
fn put_once_behind(links: &mut [Link], from: usize) -> usize
    requires in_range { from ≤ length links.old }
    ensures in_range { result ≤ length links.new }
    ensures same { SameLinks (Contains links.old) (Contains (take result links.new)) }
{
    let start = from.max(1).min(links.len());
    let mut kept = start;
    for i in start..links.len() {
        let link = links[i];
        let last = kept - 1;
        let is_new = is_other(&link, &links[last]);
        links[kept] = link;
        kept += is_new as usize;
    }
    kept
}

#[inline]
fn is_other(link: &Link, last: &Link) -> bool
    ensures { result ≡ false → link.now ≡ last.now }
{
    link != last
}
