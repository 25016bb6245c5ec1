//! Several files as parts of one graph: the forest of all their edges together.
ghost use Rattle.std.specs.Prelude.{◌≡◌, ◌+◌, ◌<◌, ◌≤◌, ◌++◌, ℕ, List, [], length, IfOk};
ghost use Rattle.links.specs.Covers.{IsCoveredBy};
ghost use Rattle.links.specs.Link.{EndsUpTo};
ghost use Rattle.plain_run.specs.Parts.{AcceptsFile, Adds, ArePartsOf, RefusesFile, WritesParts};

use crate::crew::{Crew, ManyThreads, OneThread, forest_by};
use crate::fault::{PartFault, RunFault};
use crate::keeper::{Keeper, many_links};
use crate::plain::report_of;
use crate::report::Report;
use byte_streams::{Sink, Source};
use gr_text::ReadFault;
use limits::MAX_VERTICES;
use link_key::Link;
use std::alloc::{AllocError, Allocator, Global};
use std::marker::Model;
use std::thread::Threads;

/// The most files that may be parts of one graph.
pub const MAX_FILES: u32 = 1 << 16;

/// What is stored of files that were read one after the other, to find the forest of all their edges together.
///
/// The number of vertices bounds its memory: if many edges are kept, they are reduced to their forest, which covers
/// them.
#[derive(Drop)]
pub struct Parts<A: Allocator = Global> {
    vertices: u32,
    kept: Vec<Link, A>,
    count: u64,
    files: u32,
}

impl<A: Allocator> Model for Parts<A> {
    ghost use Rattle.plain_run.specs.Parts.{PartsValue, AreLawfulParts};

    ghost Value = { PartsValue };

    ghost view = { λ p. record { vertices = p.vertices; kept = p.kept.items; count = p.count; files = p.files } };

    ghost invariant = { λ p. AreLawfulParts (record { vertices = p.vertices; kept = p.kept.items; count = p.count; files = p.files }) };
}

// Appends the edges of one more list to those kept of the lists before. If they are many, it reduces them to their
// forest.
fn join_lists<C: Crew, A: Allocator + Copy>(
    crew: &C,
    n: u32,
    mut kept: Vec<Link, A>,
    more: &[Link],
) -> Result<Vec<Link, A>, AllocError>
    requires ready { C.ready }
    requires few_vertices { n ≤ MAX_VERTICES }
    requires ends { EndsUpTo n kept.items }
    requires more_ends { EndsUpTo n more.now }
    ensures ends { IfOk result (λ all. EndsUpTo n all.items) }
    ensures cover { IfOk result (λ all. IsCoveredBy (kept.items ++ more.now) all.items) }
    ensures few { IfOk result (λ all. length all.items ≤ length kept.items + length more.now) }
{
    kept.extend_from_slice(more)?;
    if kept.len() < many_links(n as usize) {
        return Ok(kept);
    }
    let alloc = *kept.allocator();
    let forest = crew.keep_forest(alloc, n, kept)?;
    Ok(forest)
}

impl<A: Allocator + Copy> Parts<A> {
    /// Creates the state before any file.
    pub fn new(alloc: A) -> Self
        ensures none { ArePartsOf [] result }
        ensures files { result.files ≡ 0 }
        ensures vertices { result.vertices ≡ 0 }
    {
        Parts {
            vertices: 0,
            kept: Vec::new(alloc),
            count: 0,
            files: 0,
        }
    }

    /// The number of files that were added.
    pub fn files(&self) -> u32
        ensures { result ≡ self.now.files }
    {
        self.files
    }

    /// Reads one more file of at most [`limits::MAX_BYTES`] bytes and adds its arcs to those of the files before it.
    ///
    /// The file must have the same number of vertices as they have. After an error nothing is left. It takes the time
    /// and the memory of [`run_plain`](crate::run_plain), except for writing. In addition it takes memory for the edges
    /// kept of the files before, and once more for those of this file.
    pub fn add<C: Crew, S: Source>(self, crew: &C, source: &mut S) -> Result<Self, PartFault>
        requires ready { C.ready }
        requires source { S.can_read source.old }
        requires room { self.files < MAX_FILES }

        // If it succeeds, it read the source to its end and added its graph after those of the files before. Otherwise
        // the error says why.
        ensures added { Adds self result (S.state source.old) (S.state source.new) }
        ensures files { IfOk result (λ parts. parts.files ≡ self.files + 1) }

        // So if no read fails, an invalid file gives its first error, and a valid one is rejected only for its number
        // of vertices. Both may run out of memory.
        ensures malformed { RefusesFile result (S.state source.old) (S.state source.new) }
        ensures lawful { AcceptsFile result (S.state source.old) (S.state source.new) }
    {
        let Parts {
            vertices,
            kept,
            count,
            files,
        } = self;
        let alloc = *kept.allocator();
        let mut keeper = Keeper::new(crew);
        let graph = match crew.read(&mut keeper, alloc, source) {
            Ok(graph) => graph,
            Err(fault) => return Err(PartFault::Read(fault)),
        };
        let n = graph.n();
        if files > 0 && n != vertices {
            return Err(PartFault::OtherVertices {
                vertices: n,
                wanted: vertices,
            });
        }
        let links = graph.into_links();
        let read = keeper.dropped + links.len() as u64;
        match join_lists(crew, n, kept, links.as_slice()) {
            Ok(kept) => Ok(Parts {
                vertices: n,
                kept,
                count: count + read,
                files: files + 1,
            }),
            Err(AllocError) => Err(PartFault::Read(ReadFault::Memory)),
        }
    }

    // Writes the text of the forest of all edges, with this crew.
    fn write_by<C: Crew, W: Sink>(self, crew: &C, sink: &mut W) -> Result<Report, RunFault>
        requires ready { C.ready }
        requires sink { W.can_write sink.old }
        ensures { WritesParts self result (W.state sink.old) (W.state sink.new) (W.unflushed sink.new) (W.can_write sink.new) }
    {
        let Parts {
            vertices,
            kept,
            count,
            ..
        } = self;
        let alloc = *kept.allocator();
        let Ok(forest) = forest_by(crew, alloc, vertices, kept) else {
            return Err(RunFault::Memory);
        };
        match crew.write(alloc, sink, vertices, &forest) {
            Ok(_) => Ok(report_of(vertices, count, &forest)),
            Err(fault) => Err(RunFault::Write {
                written: fault.written,
            }),
        }
    }

    /// Writes the text of the forest of all edges of the files, as [`run_plain`](crate::run_plain) does for one file.
    /// Without a file it writes the text of the graph without vertices.
    pub fn write<W: Sink>(self, sink: &mut W) -> Result<Report, RunFault>
        requires sink { W.can_write sink.old }

        // It writes exactly the text of the forest of the files' edges, taken in the order of the files, or a part of
        // it. If there is no memory, it writes nothing. The edges of all files are counted.
        ensures { WritesParts self result (W.state sink.old) (W.state sink.new) (W.unflushed sink.new) (W.can_write sink.new) }
    {
        self.write_by(&OneThread, sink)
    }

    /// Does the same with up to `threads` threads, as [`run_threads`](crate::run_threads) does.
    pub fn write_threads<R: Threads + Sync, W: Sink>(
        self,
        rt: &R,
        threads: usize,
        sink: &mut W,
    ) -> Result<Report, RunFault>
        requires sink { W.can_write sink.old }

        // The same contract as `write`.
        ensures { WritesParts self result (W.state sink.old) (W.state sink.new) (W.unflushed sink.new) (W.can_write sink.new) }
    {
        self.write_by(&ManyThreads { rt, threads }, sink)
    }
}
