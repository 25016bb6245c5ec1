//! Makes a forest of links that are known to be a forest's links, each once, in any order.
ghost use Rattle.std.specs.List.Sorted.{IsPermutation};
ghost use Rattle.links.specs.Link.{IsAscending};
ghost use Rattle.links.specs.Least.{AreDistinct};

use crate::forests::Forest;
use crate::links::Link;
use crate::sorting::{sort, sort_par};
use std::alloc::Allocator;
use std::thread::Threads;

impl<A: Allocator + Copy> Forest<A> {
    /// Makes a forest of distinct links in any order. Sorts them by their keys, in the list's own memory.
    ///
    /// For m links this takes O(m log m) time. Allocates nothing.
    pub fn of_distinct(links: Vec<Link, A>) -> Self
        requires distinct { AreDistinct links.items }
        ensures same { IsPermutation links.items result }
        ensures ascending { IsAscending result }
    {
        let mut links = links;
        sort(links.as_mut_slice());
        Forest::of_ascending(links)
    }

    /// Like [`Forest::of_distinct`], but sorts long lists with as many threads as there are processors.
    pub fn of_distinct_par<R: Threads + Sync>(rt: &R, links: Vec<Link, A>) -> Self
        requires distinct { AreDistinct links.items }
        ensures same { IsPermutation links.items result }
        ensures ascending { IsAscending result }
    {
        let mut links = links;
        sort_par(rt, links.as_mut_slice());
        Forest::of_ascending(links)
    }
}
