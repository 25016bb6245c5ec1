//! The steps of the solver that threads can share: sorting links, choosing the lightest links, and dropping links
//! within one component. Each step can be done by one thread or by several. The rounds between the steps are done by
//! one thread.
ghost use Rattle.std.specs.Prelude.{◌≡◌, ◌+◌, ◌≤◌, ◌++◌, ⊤, take, drop, length, IfOk, OnOk};
ghost use Rattle.std.specs.List.{filter};
ghost use Rattle.std.specs.List.Sorted.{IsSorted, IsPermutation};
ghost use Rattle.std.specs.Thread.{IsSync};
ghost use Rattle.links.specs.Link.{key_cmp};
ghost use Rattle.links.specs.WideKey.{IsSplitByKey};
ghost use Rattle.link_key.specs.Rounds.{is_apart};

use super::by_threads::put_apart_behind_by_threads;
use super::rounds;
use links::by_threads::{put_lightest_first_by_threads, sort_by_threads};
use links::{Link, sorting};
use std::alloc::{AllocError, Allocator};
use std::thread::Threads;

pub(crate) trait Steps {
    // What threads need of the runtime that starts them.
    ghost ready: { Self → Type 0 } = { λ _. ⊤ };

    fn sort(&self, links: &mut [Link])
        requires ready { ready self.now }
        ensures same { IsPermutation links.old links.new }
        ensures sorted { IsSorted key_cmp links.new };

    /// Moves about `count` of the lightest links to the front. Returns their number, which isn't necessarily close to
    /// `count`.
    fn put_lightest_first<A: Allocator + Copy>(
        &self,
        alloc: A,
        links: &mut [Link],
        count: usize,
    ) -> Result<usize, AllocError>
        requires ready { ready self.now }
        ensures same { OnOk result (IsPermutation links.old links.new) }
        ensures in_range { IfOk result (λ light. light ≤ length links.new) }
        ensures split { IfOk result (λ light. IsSplitByKey light links.new) };

    /// Moves the links from index `from` on whose endpoints have different labels to directly after the first `first`
    /// links, in their order. Returns the number of these links and the first ones together.
    fn put_apart_behind(
        &self,
        links: &mut [Link],
        first: usize,
        from: usize,
        labels: &[u32],
    ) -> usize
        requires ready { ready self.now }
        requires before { first ≤ from }
        requires in_range { from ≤ length links.old }
        ensures in_range { (first ≤ result) × (result + from ≤ first + length links.new) }
        ensures apart { take result links.new ≡ take first links.old ++ filter (is_apart labels.now) (drop from links.old) };
}

/// Only the calling thread.
#[derive(Drop)]
pub(crate) struct StepsAlone;

impl Steps for StepsAlone {
    fn sort(&self, links: &mut [Link]) {
        sorting::sort(links);
    }

    fn put_lightest_first<A: Allocator + Copy>(
        &self,
        alloc: A,
        links: &mut [Link],
        count: usize,
    ) -> Result<usize, AllocError> {
        sorting::put_lightest_first(alloc, links, count)
    }

    fn put_apart_behind(
        &self,
        links: &mut [Link],
        first: usize,
        from: usize,
        labels: &[u32],
    ) -> usize {
        rounds::put_apart_behind(links, first, from, labels)
    }
}

/// The calling thread and others that are started for a step, at most `threads` at a time.
#[derive(Drop)]
pub(crate) struct StepsByThreads<'a, R> {
    pub rt: &'a R,
    pub threads: usize,
}

impl<'a, R: Threads + Sync> Steps for StepsByThreads<'a, R> {
    ghost ready = { λ _. IsSync R.row };

    fn sort(&self, links: &mut [Link]) {
        sort_by_threads(self.rt, self.threads, links);
    }

    fn put_lightest_first<A: Allocator + Copy>(
        &self,
        alloc: A,
        links: &mut [Link],
        count: usize,
    ) -> Result<usize, AllocError> {
        put_lightest_first_by_threads(self.rt, self.threads, alloc, links, count)
    }

    fn put_apart_behind(
        &self,
        links: &mut [Link],
        first: usize,
        from: usize,
        labels: &[u32],
    ) -> usize {
        put_apart_behind_by_threads(self.rt, self.threads, links, first, from, labels)
    }
}
