ghost use Rattle.std.specs.Prelude.{◌≡◌, ◌≤◌, ◌+◌, ℕ, List, [], length, OnOk, MatchOption, MatchResult};
ghost use Rattle.gr_text.specs.Kept.{BeginsSo, KeepsOn};
ghost use Rattle.gr_text.specs.LinesSoFar.{AddsLines, AddsLink, FitsAfter, GivesGraph, KeepsLinesBut, TakesLine, no_swap};

use crate::faults::{GrFault, GrKind, ReadFault};
use crate::graphs::Graph;
use crate::keep::Keep;
use crate::parallel::append_arc_lines;
use crate::sizes::ProblemSize;
use crate::verdicts::{Verdict, judge};
use crate::words::LineFields;
use links::Link;
use std::alloc::{AllocError, Allocator};
use std::marker::Model;
use std::thread::Threads;

/// What the whole lines so far describe.
#[derive(Drop)]
pub(crate) struct LinesSoFar<A: Allocator> {
    /// What the problem line states, after it has come.
    size: Option<ProblemSize>,
    /// The number of arc lines so far.
    count: u32,
    /// The edges of the arc lines, in order. A loop has none.
    links: Vec<Link, A>,
}

impl<A: Allocator> Model for LinesSoFar<A> {
    ghost use Rattle.gr_text.specs.LinesSoFar.{IsWithinSize, LinesSoFarValue};

    ghost Value = { LinesSoFarValue };

    ghost view = { λ s. record { size = s.size; count = s.count; links = s.links.items } };

    ghost invariant = { λ s. IsWithinSize s.size s.count s.links.items };
}

impl<A: Allocator> LinesSoFar<A> {
    /// The state before any line.
    pub(crate) fn new(alloc: A) -> LinesSoFar<A>
        ensures { KeepsLinesBut no_swap result [] }
    {
        LinesSoFar {
            size: None,
            count: 0,
            links: Vec::new(alloc),
        }
    }

    /// Takes one more line, which has this number. Returns the line's error, or `Memory` if there is no memory for its
    /// edge. After an error nothing more is read.
    #[inline(always)]
    pub(crate) fn take_line(&mut self, number: u64, line: LineFields) -> Result<(), ReadFault>
        ensures { TakesLine result number line self.old self.new }
    {
        match judge(self.size, self.count, line) {
            Verdict::Silent => Ok(()),
            Verdict::Begins(size) => {
                self.size = Some(size);
                Ok(())
            }
            Verdict::Adds(link) => self.add(link),
            Verdict::Faulty(kind) => Err(ReadFault::Gr(GrFault { line: number, kind })),
        }
    }

    /// Returns the graph of the lines so far, or an error if something is missing. `number` is the number of the line
    /// after them.
    pub(crate) fn graph(self, number: u64) -> Result<Graph<A>, ReadFault>
        ensures { GivesGraph result number self }
    {
        match self.size {
            None => Err(ReadFault::Gr(GrFault {
                line: number,
                kind: GrKind::MissingProblem,
            })),
            Some(size) => {
                if self.count < size.arcs {
                    Err(ReadFault::Gr(GrFault {
                        line: number,
                        kind: GrKind::MissingArcs,
                    }))
                } else {
                    Ok(Graph::of_parts(size.vertices, self.links))
                }
            }
        }
    }

    /// Reads bytes that are only arc lines in their usual form, using threads, and returns how many lines they have. It
    /// takes nothing and returns `None` if the bytes are anything else, a line is invalid, or there is too little
    /// memory or `room` for their edges.
    pub(crate) fn take_arcs<R: Threads + Sync>(
        &mut self,
        rt: &R,
        threads: usize,
        bytes: &[u8],
        room: &mut [Link],
    ) -> Option<usize>
        ensures { MatchOption result (self.new ≡ self.old) (λ count. AddsLines count bytes.now self.old self.new) }
    {
        let size = self.size?;
        let before = self.links.len();
        let most = (size.arcs - self.count) as usize;
        match append_arc_lines(rt, threads, size, bytes, room, &mut self.links) {
            Some(count) if count <= most => {
                self.count += count as u32;
                Some(count)
            }
            _ => {
                self.links.truncate(before);
                None
            }
        }
    }

    /// Lets a keeper look at the edges, if the problem line has come. If the keeper fails, no edges are left.
    pub(crate) fn keep<K: Keep<A>>(&mut self, keeper: &mut K) -> Result<(), AllocError>
        requires ready { K.ready }
        requires few { K.dropped keeper.old + length self.old.links ≤ self.old.count }
        requires known { BeginsSo (K.knows keeper.old) self.old.links }
        ensures { OnOk result (KeepsOn K.drops (K.knows keeper.new) (K.dropped keeper.old) (K.dropped keeper.new) self.old self.new) }
    {
        let Some(size) = self.size else {
            return Ok(());
        };
        match keeper.keep(size.vertices, size.arcs, &mut self.links) {
            Ok(()) => Ok(()),
            Err(refused) => {
                self.links.clear();
                Err(refused)
            }
        }
    }

    // Adds an arc that gives this edge, or a loop if there is none.
    #[inline(always)]
    fn add(&mut self, link: Option<Link>) -> Result<(), ReadFault>
        requires { FitsAfter (Verdict.Adds link) self.old.size self.old.count }
        ensures { MatchResult result (λ _. AddsLink self.old self.new link) (λ e. e ≡ ReadFault.Memory) }
    {
        if let Some(link) = link {
            if self.links.push(link).is_err() {
                return Err(ReadFault::Memory);
            }
        }
        self.count += 1;
        Ok(())
    }
}
