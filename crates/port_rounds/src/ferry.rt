//! The ferries of a pass: one thread per lane, which asks the lane's port about the shards that its seat wins.
ghost use Rattle.std.specs.List.{AllZip};
ghost use Rattle.std.specs.Prelude.{◌≡◌, ◌-◌, ◌<◌, ◌≤◌, ◌^◌, ◌++◌, length, All, option_to_list, true, false};
ghost use Rattle.claim_board.specs.Machine.{held};
ghost use Rattle.limits.specs.declared.TheConstants.{MAX_SHARDS, MAX_WORKERS};
ghost use Rattle.round_core.specs.BookValue.{is_taken};
ghost use Rattle.port_rounds.specs.Asks.{AsksFor, shards_of};
ghost use Rattle.port_rounds.specs.Bounds.{IsAskable, IsBoardOf};
ghost use Rattle.port_rounds.specs.Ferries.{IsReady, RunsFerry, seated_lane, first_of, shard_at};

use crate::lane::Lane;
use claim_board::{Board, Claim, Seat};
use limits::MAX_WORKERS;
use links::Answer;
use round_core::{RoundBook, laws};
use round_theory::Port;
use std::alloc::Allocator;
use std::thread;
use std::thread::Threads;

// What the ferries of a pass share: a board of the book's shards, the book, and how many seats the board has.
#[derive(Drop)]
pub(crate) struct Ferries<'a, A: Allocator> {
    pub(crate) board: &'a Board<A>,
    pub(crate) book: &'a RoundBook<'a, A>,
    pub(crate) seats: u32,
    ghost board_is: { IsBoardOf board.now book.now },
    ghost askable: { IsAskable book.now },
    ghost seats_are: { seats ≡ board.now.seats },
}

impl<'a, A: Allocator> Ferries<'a, A> {
    // Asks the port about a shard that the book misses. An error or a rejected answer closes the port.
    fn ask_port<P: Port<A>>(&self, port: &mut P, shard: u32) -> Option<Answer<A>>
        requires shard { shard < length self.now.book.now.cut }
        requires missed { is_taken self.now.book.now shard ≡ false }
        requires cut { (P.state port.old).cut ≡ self.now.book.now.cut }
        requires room { (P.state port.old).asks < 2 ^ 64 - 1 }
        requires opened { (P.state port.old).is_open ≡ true }
        ensures { AsksFor P.Port self.now.book.now shard port.old port.new result }
    {
        laws::light_offers_are_taken();
        let book = self.book;
        let Ok(answer) = port.ask(book.round(), shard, book.labels()) else {
            return None;
        };
        if book.judge(shard, &answer).is_err() {
            port.shut();
            return None;
        }
        Some(answer)
    }

    #[tactic(auto, using(crate::proofs::AsksThen::none_asked))]
    // Claims a shard that the book misses, and asks the port about it. If there is no answer to keep, the shard is
    // given back.
    fn claim_and_ask<P: Port<A>>(
        &self,
        port: &mut P,
        seat: &mut Seat,
        shard: u32,
    ) -> Option<Answer<A>>
        requires seat { seat.old.board ≡ self.now.board.now }
        requires shard { shard < length self.now.book.now.cut }
        requires cut { (P.state port.old).cut ≡ self.now.book.now.cut }
        requires room { (P.state port.old).asks < 2 ^ 64 - 1 }
        requires opened { (P.state port.old).is_open ≡ true }
        ensures seat { (seat.new.board ≡ seat.old.board) × (seat.new.number ≡ seat.old.number) }
        ensures asks { AsksFor P.Port self.now.book.now shard port.old port.new result }
        ensures held { held seat.new.events ≡ held seat.old.events ++ shards_of (option_to_list result) }
    {
        if !self.book.is_missing(shard) {
            return None;
        }
        let Claim::Won = self.board.claim(seat, shard) else {
            return None;
        };
        let Some(answer) = self.ask_port(port, shard) else {
            self.board.give_back(seat, shard);
            return None;
        };
        Some(answer)
    }

    #[tactic(auto, using(crate::proofs::AsksThen::asks_then, crate::proofs::AsksThen::stayed, crate::proofs::Ways::none_passed))]
    // Asks the port about each shard that the seat wins, once around all of them. It stops if the port is closed.
    fn ask_shards<P: Port<A>>(&self, port: &mut P, seat: &mut Seat, kept: &mut Vec<Answer<A>, A>)
        requires ready { IsReady P.state self.now.board.now self.now.book.now (seated_lane port.old seat.old kept.old) }
        ensures { RunsFerry P.Port self.now.book.now
            (seated_lane port.old seat.old kept.old) (seated_lane port.new seat.new kept.new) }
    {
        let shards = self.book.len();
        let first = first_shard(seat.number(), self.seats, shards);
        for step in 0..shards {
            match self.claim_and_ask(port, seat, next_shard(first, step, shards)) {
                Some(answer) => kept.push_reserved(answer),
                None => {
                    if !port.is_open() {
                        return;
                    }
                }
            }
        }
    }

    #[tactic(auto, using(crate::proofs::AsksThen::stayed))]
    // Runs the ferry of a lane, if the lane has a seat.
    fn run_lane<P: Port<A>>(&self, lane: &mut Lane<P, A>)
        requires ready { IsReady P.state self.now.board.now self.now.book.now lane.old }
        ensures { RunsFerry P.Port self.now.book.now lane.old lane.new }
    {
        let Lane { port, seat, kept } = lane;
        if let Some(seat) = seat {
            self.ask_shards(port, seat, kept);
        }
    }
}

impl<'a, A: Allocator + Copy + Send + Sync> Ferries<'a, A> {
    // Runs the ferry of each lane. If no thread can be started, they run one after another.
    pub(crate) fn run<P: Port<A> + Send + Drop, R: Threads + Sync>(
        &self,
        rt: &R,
        lanes: &mut [Lane<P, A>],
    )
        requires ready { All (IsReady P.state self.now.board.now self.now.book.now) lanes.old }
        ensures { AllZip (RunsFerry P.Port self.now.book.now) lanes.old lanes.new }
    {
        thread::for_each_mut(
            rt,
            lanes,
            MAX_WORKERS as usize,
            &|_: usize, lane: &mut Lane<P, A>|
                requires { IsReady P.state self.now.board.now self.now.book.now lane.now }
                ensures { RunsFerry P.Port self.entry.now.book.now lane.entry.now lane.exit.now }
            { self.run_lane(lane) },
        );
    }
}

// The shard at which a seat begins to go around the shards.
fn first_shard(seat: u32, seats: u32, shards: u32) -> u32
    requires seat { seat < seats }
    requires seats { seats ≤ MAX_WORKERS }
    requires shards { shards ≤ MAX_SHARDS }
    ensures first { result ≡ first_of seat seats shards }
    ensures within { result ≤ shards }
{
    seat * shards / seats
}

// The shard at a step of the way around.
fn next_shard(first: u32, step: u32, shards: u32) -> u32
    requires first { first ≤ shards }
    requires step { step < shards }
    requires shards { shards ≤ MAX_SHARDS }
    ensures shard { result ≡ shard_at first step shards }
    ensures within { result < shards }
{
    (first + step) % shards
}
