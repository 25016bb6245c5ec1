//! Moves the seats of a board into the lanes, and back into the vector from which they came.
ghost use Rattle.std.specs.List.{AllZip};
ghost use Rattle.std.specs.Prelude.{◌≡◌, ◌+◌, ◌≤◌, length, All, None, OnOk, option_to_list, vec_capacity, vec_len, ◌++◌, [], reverse};
ghost use Rattle.limits.specs.declared.TheConstants.{MAX_WORKERS};
ghost use Rattle.port_rounds.specs.Lanes.{count_if, seats_of, open_count};
ghost use Rattle.port_rounds.specs.Seating.{GainsRoom, GainsSeat, LosesSeat};

use crate::lane::Lane;
use claim_board::Seat;
use round_theory::Port;
use std::alloc::{AllocError, Allocator};

// Gives the lane a seat, if its port is open.
fn seat_lane<A: Allocator, P: Port<A>>(row: &mut Vec<Seat, A>, lane: &mut Lane<P, A>)
    requires some { count_if (P.state lane.old.port).is_open ≤ vec_len row.old }
    requires none { lane.old.seat ≡ None }
    ensures lane { GainsSeat P.state lane.old lane.new }
    ensures row { row.old.items ≡ row.new.items ++ option_to_list lane.new.seat }
    ensures count { vec_len row.old ≡ vec_len row.new + count_if (P.state lane.old.port).is_open }
    ensures capacity { vec_capacity row.new ≡ vec_capacity row.old }
{
    if lane.port.is_open() {
        lane.seat = row.pop();
    }
}

fn unseat_lane<A: Allocator, P>(row: &mut Vec<Seat, A>, lane: &mut Lane<P, A>)
    requires room { vec_len row.old + length (option_to_list lane.old.seat) ≤ vec_capacity row.old }
    ensures lane { LosesSeat lane.old lane.new }
    ensures row { row.new.items ≡ row.old.items ++ option_to_list lane.old.seat }
    ensures capacity { vec_capacity row.new ≡ vec_capacity row.old }
{
    if let Some(seat) = lane.seat.take() {
        row.push_reserved(seat);
    }
}

#[tactic(auto, using(crate::proofs::Eaches::each_cons))]
// Gives each lane with an open port a seat, in order: the last seats of the row go to the last lanes.
pub(crate) fn seat_lanes<A: Allocator, P: Port<A>>(row: &mut Vec<Seat, A>, lanes: &mut [Lane<P, A>])
    requires some { open_count P.state lanes.old ≤ vec_len row.old }
    requires none { All (λ lane. lane.seat ≡ None) lanes.old }
    ensures seats { row.old.items ≡ row.new.items ++ seats_of lanes.new }
    ensures lanes { AllZip (GainsSeat P.state) lanes.old lanes.new }
    ensures count { vec_len row.old ≡ vec_len row.new + open_count P.state lanes.old }
    ensures capacity { vec_capacity row.new ≡ vec_capacity row.old }
{
    if let Some((lane, rest)) = lanes.split_first_mut() {
        seat_lanes(row, rest);
        seat_lane(row, lane);
    }
}

#[tactic(auto, using(crate::proofs::Eaches::each_cons))]
// Takes the seats of the lanes back, in order.
pub(crate) fn unseat_lanes<A: Allocator, P>(row: &mut Vec<Seat, A>, lanes: &mut [Lane<P, A>])
    requires room { vec_len row.old + length (seats_of lanes.old) ≤ vec_capacity row.old }
    ensures seats { row.new.items ≡ row.old.items ++ seats_of lanes.old }
    ensures lanes { AllZip LosesSeat lanes.old lanes.new }
{
    if let Some((lane, rest)) = lanes.split_first_mut() {
        unseat_lane(row, lane);
        unseat_lanes(row, rest);
    }
}

fn reserve_lane<A: Allocator, P>(lane: &mut Lane<P, A>, shards: u32) -> Result<(), AllocError>
    ensures lane { GainsRoom lane.old lane.new }
    ensures room { OnOk result (shards ≤ lane.new.room) }
{
    lane.kept.reserve(shards as usize)
}

#[tactic(auto, using(crate::proofs::Eaches::each_cons, crate::proofs::Eaches::each_refl))]
// Makes each lane's memory fit this many answers.
pub(crate) fn reserve_answers<A: Allocator, P>(
    lanes: &mut [Lane<P, A>],
    shards: u32,
) -> Result<(), AllocError>
    ensures lanes { AllZip GainsRoom lanes.old lanes.new }
    ensures room { OnOk result (All (λ lane. shards ≤ lane.room) lanes.new) }
{
    if let Some((lane, rest)) = lanes.split_first_mut() {
        reserve_lane(lane, shards)?;
        reserve_answers(rest, shards)?;
    }
    Ok(())
}

pub(crate) fn count_open<A: Allocator, P: Port<A>>(lanes: &[Lane<P, A>]) -> u32
    requires few { length lanes.now ≤ MAX_WORKERS }
    ensures count { result ≡ open_count P.state lanes.now }
    ensures within { result ≤ length lanes.now }
{
    let mut open = 0;
    for lane in lanes {
        if lane.port.is_open() {
            open += 1;
        }
    }
    open
}
