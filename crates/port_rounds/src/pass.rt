//! A pass: one ferry for each lane with an open port, after which the book takes the answers that the lanes kept.
ghost use Rattle.std.specs.Prelude.{◌≡◌, ◌<◌, ◌≤◌, length, All};
ghost use Rattle.claim_board.specs.State.{AreSeats, IsUnusedSeat};
ghost use Rattle.port_rounds.specs.Lanes.{open_count, IsIdle};
ghost use Rattle.port_rounds.specs.Bounds.{IsAskable, IsBoardOf, HasRoomForPass};
ghost use Rattle.port_rounds.specs.Passes.{RunsPasses};

use crate::ferry::Ferries;
use crate::lane::{Lane, Lanes};
use crate::seats::{count_open, reserve_answers, seat_lanes, unseat_lanes};
use crate::taking::take_answers;
use claim_board::{Board, Seat};
use round_core::RoundBook;
use round_theory::Port;
use std::alloc::{AllocError, Allocator};
use std::thread::Threads;

// Runs the ferries of a pass with the seats of a new board. It allocates nothing.
fn run_ferries<A: Allocator + Copy + Send + Sync, P: Port<A> + Send + Drop, R: Threads + Sync>(
    rt: &R,
    board: Board<A>,
    mut row: Vec<Seat, A>,
    book: &mut RoundBook<A>,
    lanes: &mut [Lane<P, A>],
)
    requires board { IsBoardOf board book.old }
    requires one_each { board.seats ≡ open_count P.state lanes.old }
    requires seats { AreSeats board row.items }
    requires fresh { All (IsUnusedSeat board) row.items }
    requires round { IsAskable book.old }
    requires bound { All (λ lane. HasRoomForPass P.state book.old lane.port) lanes.old }
    requires idle { All IsIdle lanes.old }
    requires room { All (λ lane. length book.old.cut ≤ lane.room) lanes.old }
    ensures went { RunsPasses P.Port book.old book.new lanes.old lanes.new }
    ensures idle { All IsIdle lanes.new }
{
    let seats = row.len() as u32;
    seat_lanes(&mut row, lanes);
    let ferries = Ferries {
        board: &board,
        book: &*book,
        seats,
    };
    ferries.run(rt, lanes);
    unseat_lanes(&mut row, lanes);
    let _ = board.close(row);
    take_answers(book, lanes);
}

impl<'a, 'b, R: Threads + Sync, A: Allocator + Copy + Send + Sync, P: Port<A> + Send + Drop> Lanes<
    'a,
    'b,
    R,
    P,
    A,
> {
    // Makes one pass. All its memory is allocated before the first ask, so nothing was asked if it fails.
    pub(crate) fn pass(&mut self, alloc: A, book: &mut RoundBook<A>) -> Result<(), AllocError>
        requires some_open { 0 < open_count P.state self.old.lanes.now }
        requires round { IsAskable book.old }
        requires bound { All (λ lane. HasRoomForPass P.state book.old lane.port) self.old.lanes.now }
        ensures went { RunsPasses P.Port book.old book.new self.old.lanes.now self.new.lanes.now }
        ensures same_lanes { self.new.lanes.ghost_name ≡ self.old.lanes.ghost_name }
    {
        let shards = book.len();
        let lanes = &mut *self.lanes;
        reserve_answers(lanes, shards)?;
        let Ok((board, row)) = Board::open(alloc, shards, count_open(lanes)) else {
            return Err(AllocError);
        };
        run_ferries(self.rt, board, row, book, lanes);
        Ok(())
    }
}
