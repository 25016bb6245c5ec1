ghost use Rattle.std.specs.Prelude.{◌≡◌, ◌≤◌, length, All};
ghost use Rattle.limits.specs.declared.TheConstants.{MAX_WORKERS};
ghost use Rattle.port_rounds.specs.Lanes.{IsIdle};

use claim_board::Seat;
use links::Answer;
use std::alloc::{Allocator, Global};
use std::marker::Model;

/// A port and, during a pass, its seat and the answers that it keeps.
#[derive(Drop)]
pub struct Lane<P, A: Allocator = Global> {
    pub(crate) port: P,
    pub(crate) seat: Option<Seat>,
    pub(crate) kept: Vec<Answer<A>, A>,
}

impl<P, A: Allocator> Model for Lane<P, A> {
    ghost use Rattle.std.specs.Prelude.{vec_capacity};
    ghost use Rattle.port_rounds.specs.Lanes.{LaneState};

    ghost Value = { LaneState P };

    ghost view = { λ s. record { port = s.port; seat = s.seat; kept = s.kept.items; room = vec_capacity s.kept } };
}

impl<P, A: Allocator> Lane<P, A> {
    /// A lane with this port. It allocates nothing; a pass allocates memory for the answers that it keeps.
    pub fn new(alloc: A, port: P) -> Self
        ensures port { result.port ≡ port }
        ensures idle { IsIdle result }
    {
        Lane {
            port,
            seat: None,
            kept: Vec::new(alloc),
        }
    }

    pub fn port(&self) -> &P
        ensures { result.now ≡ self.now.port }
    {
        &self.port
    }

    /// Returns the port as the asks left it, and frees the memory for answers.
    pub fn into_port(self) -> P
        ensures { result ≡ self.port }
    {
        let Lane {
            port,
            seat: _,
            kept: _,
        } = self;
        port
    }
}

// The lanes of a run between two passes, and where the threads of a pass are started. It borrows the lanes, so that its
// creator sees what became of them.
#[derive(Drop)]
pub(crate) struct Lanes<'a, 'b, R, P, A: Allocator> {
    pub(crate) rt: &'b R,
    pub(crate) lanes: &'a mut [Lane<P, A>],
    ghost few: { length lanes.now ≤ MAX_WORKERS },
    ghost idle: { All IsIdle lanes.now },
}

impl<'a, 'b, R, P, A: Allocator> Lanes<'a, 'b, R, P, A> {
    pub(crate) fn new(rt: &'b R, lanes: &'a mut [Lane<P, A>]) -> Self
        requires few { length lanes.old ≤ MAX_WORKERS }
        requires idle { All IsIdle lanes.old }
        ensures lanes { result.lanes.now ≡ lanes.old }
        ensures same { result.lanes.ghost_name ≡ lanes.entry.ghost_name }
    {
        Lanes { rt, lanes }
    }
}
