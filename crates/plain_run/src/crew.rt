//! Reads, solves and writes with one thread or with several.
ghost use Rattle.std.specs.Prelude.{◌≤◌, length, IfOk};
ghost use Rattle.std.specs.Thread.{IsSync};
ghost use Rattle.gr_text.specs.ForestText.{forest_text};
ghost use Rattle.gr_text.specs.Following.{IsNewKeeper};
ghost use Rattle.gr_text.specs.Kept.{IsKeptReadOf};
ghost use Rattle.gr_text.specs.Written.{WritesText};
ghost use Rattle.links.specs.Forest.{IsForestOf};
ghost use Rattle.links.specs.Link.{EndsUpTo};

use byte_streams::{Sink, Source};
use gr_text::{
    Graph, Keep, ReadFault, WriteFault, read_graph_kept, read_graph_kept_par, write_forest,
    write_forest_par,
};
use limits::{MAX_BYTES, MAX_VERTICES};
use link_key::{Forest, Link, keep_forest, keep_forest_par};
use std::alloc::{AllocError, Allocator};
use std::thread::Threads;

/// Reads a file, reduces a list to its forest, and writes the forest's text.
pub trait Crew {
    // What threads need from the runtime that starts them.
    ghost ready: { Type 0 } = { Unit {0} };

    /// Reads a graph from a source, with the edges that a keeper keeps, as [`read_graph_kept`] does.
    fn read<K: Keep<A>, S: Source, A: Allocator + Copy>(
        &self,
        keeper: &mut K,
        alloc: A,
        source: &mut S,
    ) -> Result<Graph<A>, ReadFault>
        requires ready { ready }
        requires keeper { IsNewKeeper K.Keep keeper.old }
        requires can { S.can_read source.old }
        ensures outcome { IsKeptReadOf K.drops MAX_BYTES (K.dropped keeper.new) result (S.state source.old) (S.state source.new) };

    /// Reduces the list to the edges of its forest.
    fn keep_forest<A: Allocator + Copy>(
        &self,
        alloc: A,
        n: u32,
        links: Vec<Link, A>,
    ) -> Result<Vec<Link, A>, AllocError>
        requires ready { ready }
        requires few_vertices { n ≤ MAX_VERTICES }
        requires ends { EndsUpTo n links.items }
        ensures forest { IfOk result (λ kept. IsForestOf links.items kept.items) }
        ensures few { IfOk result (λ kept. length kept.items ≤ length links.items) };

    /// Writes the text of a forest, as [`write_forest`] does.
    fn write<W: Sink, A: Allocator + Copy>(
        &self,
        alloc: A,
        sink: &mut W,
        n: u32,
        forest: &Forest<A>,
    ) -> Result<u64, WriteFault>
        requires ready { ready }
        requires can { W.can_write sink.old }
        ensures { WritesText (forest_text n forest.now) result (W.state sink.old) (W.state sink.new)
            (W.unflushed sink.new) (W.can_write sink.new) };
}

/// Uses only the caller's thread.
#[derive(Drop)]
pub struct OneThread;

impl Crew for OneThread {
    fn read<K: Keep<A>, S: Source, A: Allocator + Copy>(
        &self,
        keeper: &mut K,
        alloc: A,
        source: &mut S,
    ) -> Result<Graph<A>, ReadFault> {
        read_graph_kept(keeper, alloc, source)
    }

    fn keep_forest<A: Allocator + Copy>(
        &self,
        alloc: A,
        n: u32,
        links: Vec<Link, A>,
    ) -> Result<Vec<Link, A>, AllocError> {
        keep_forest(alloc, n, links)
    }

    fn write<W: Sink, A: Allocator + Copy>(
        &self,
        _alloc: A,
        sink: &mut W,
        n: u32,
        forest: &Forest<A>,
    ) -> Result<u64, WriteFault> {
        write_forest(sink, n, forest)
    }
}

/// Uses up to `threads` threads.
#[derive(Drop)]
pub struct ManyThreads<'a, R> {
    pub rt: &'a R,
    pub threads: usize,
}

impl<'a, R: Threads + Sync> Crew for ManyThreads<'a, R> {
    ghost ready = { IsSync R.row };

    fn read<K: Keep<A>, S: Source, A: Allocator + Copy>(
        &self,
        keeper: &mut K,
        alloc: A,
        source: &mut S,
    ) -> Result<Graph<A>, ReadFault> {
        read_graph_kept_par(self.rt, self.threads, keeper, alloc, source)
    }

    fn keep_forest<A: Allocator + Copy>(
        &self,
        alloc: A,
        n: u32,
        links: Vec<Link, A>,
    ) -> Result<Vec<Link, A>, AllocError> {
        keep_forest_par(self.rt, self.threads, alloc, n, links)
    }

    fn write<W: Sink, A: Allocator + Copy>(
        &self,
        alloc: A,
        sink: &mut W,
        n: u32,
        forest: &Forest<A>,
    ) -> Result<u64, WriteFault> {
        write_forest_par(self.rt, self.threads, alloc, sink, n, forest)
    }
}

/// Finds the forest of the list, in the list's memory.
pub(crate) fn forest_by<C: Crew, A: Allocator + Copy>(
    crew: &C,
    alloc: A,
    n: u32,
    links: Vec<Link, A>,
) -> Result<Forest<A>, AllocError>
    requires ready { C.ready }
    requires few_vertices { n ≤ MAX_VERTICES }
    requires ends { EndsUpTo n links.items }
    ensures forest { IfOk result (IsForestOf links.items) }
    ensures few { IfOk result (λ forest. length forest ≤ length links.items) }
{
    let kept = crew.keep_forest(alloc, n, links)?;
    Ok(Forest::of_ascending(kept))
}
