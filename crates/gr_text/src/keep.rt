//! Decides which of the edges that a reader has read are kept: all of them, or fewer that cover them.
ghost use Rattle.std.specs.Prelude.{◌≡◌, ◌≤◌, ◌+◌, ℕ, List, length, OnOk};
ghost use Rattle.limits.specs.declared.TheConstants.{MAX_ARCS, MAX_VERTICES};
ghost use Rattle.links.specs.Covers.{IsCoveredBy};
ghost use Rattle.links.specs.Link.{EndsUpTo};
ghost use Rattle.links.specs.declared.links.Link.{Link};
ghost use Rattle.gr_text.specs.Kept.{BeginsSo};

use links::Link;
use std::alloc::{AllocError, Allocator};

/// Looks at the edges while a source is read, and may replace them by fewer that cover them, as their forest does.
pub trait Keep<A: Allocator> {
    // What a call depends on.
    ghost ready: { Type 0 } = { Unit {0} };

    // Whether edges may be dropped.
    ghost drops: { Type 0 };

    // How many edges were dropped.
    ghost dropped: { Self → ℕ };

    // What is known about the edges that were kept last. More edges may have been appended since.
    ghost knows: { Self → List Link → Type 0 } = { λ _ _. Unit {0} };

    /// Called after each read. A read may have given few bytes, so a call that does nothing has to be cheap. `links`
    /// are the edges kept so far, of a graph with this many vertices and stated arc lines. If the call fails, their
    /// contents are arbitrary and the reader doesn't use them.
    fn keep(&mut self, vertices: u32, arcs: u32, links: &mut Vec<Link, A>) -> Result<(), AllocError>
        requires ready { ready }
        requires few_vertices { vertices ≤ MAX_VERTICES }
        requires few_arcs { arcs ≤ MAX_ARCS }
        requires ends { EndsUpTo vertices links.old.items }
        requires few { dropped self.old + length links.old.items ≤ arcs }
        requires known { BeginsSo (knows self.old) links.old.items }
        ensures ends { OnOk result (EndsUpTo vertices links.new.items) }
        ensures cover { OnOk result (IsCoveredBy links.old.items links.new.items) }
        ensures counted { OnOk result (dropped self.old + length links.old.items ≡ dropped self.new + length links.new.items) }
        ensures whole { OnOk result (¬ drops → links.new.items ≡ links.old.items) }
        ensures known { OnOk result (BeginsSo (knows self.new) links.new.items) };
}

/// Keeps all edges.
#[derive(Clone, Copy, Debug, PartialEq, Eq)]
pub struct KeepAll;

impl<A: Allocator> Keep<A> for KeepAll {
    ghost drops = { ⊥ };

    ghost dropped = { λ _. 0 };

    fn keep(
        &mut self,
        _vertices: u32,
        _arcs: u32,
        _links: &mut Vec<Link, A>,
    ) -> Result<(), AllocError> {
        Ok(())
    }
}
