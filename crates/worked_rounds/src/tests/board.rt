// Claims of shards, by one seat and by many.
ghost use Rattle.std.specs.Prelude.{◌≡◌, ◌<◌};
ghost use Rattle.claim_board.specs.State.{AreSeats};

use super::same::{expect_same, expect_text};
use claim_board::{Board, BoardFault, Claim, Owners, Seat};
use limits::{MAX_SHARDS, MAX_WORKERS};
use std::alloc::Global;
use std::process::Abort;
use std::sync::atomic::{AtomicU64, Ordering};
use std::thread;
use std::thread::Threads;

fn claim(board: &Board<Global>, seats: &mut Vec<Seat>, number: usize, shard: u32) -> Claim
    requires seats { AreSeats board.now seats.old.items }
    requires number { number < board.now.seats }
    requires shard { shard < board.now.shards }
    ensures { AreSeats board.now seats.new.items }
{
    board.claim(&mut seats[number], shard)
}

// If the seat of this number holds the shard, it gives the shard back. Returns whether it held it.
fn give_back(board: &Board<Global>, seats: &mut Vec<Seat>, number: usize, shard: u32) -> bool
    requires seats { AreSeats board.now seats.old.items }
    requires number { number < board.now.seats }
    requires shard { shard < board.now.shards }
    ensures { AreSeats board.now seats.new.items }
{
    let seat = &mut seats[number];
    let holds = seat.holds(shard);
    if holds {
        board.give_back(seat, shard);
    }
    holds
}

#[test]
fn a_shard_goes_from_seat_to_seat(rt: HostRuntime) {
    let (board, mut seats) = Board::open(rt.alloc(), 2, 2).expect(&rt, "memory");
    let first = claim(&board, &mut seats, 0, 0);
    let other = claim(&board, &mut seats, 1, 0);
    let again = claim(&board, &mut seats, 0, 0);
    let gave = give_back(&board, &mut seats, 0, 0);
    let last = claim(&board, &mut seats, 1, 0);
    let owners = board.close(seats).expect(&rt, "memory");
    expect_same(
        &rt,
        [first, other, again, last],
        [Claim::Won, Claim::Held(0), Claim::Held(0), Claim::Won],
    );
    let found = (gave, owners.of(0), owners.of(1), owners.of(2));
    expect_same(&rt, found, (true, Some(1), None, None));
}

fn claim_all(board: &Board<Global>, seat: &mut Seat) -> u64
    requires seat { seat.old.board ≡ board.now }
    requires shards { board.now.shards ≡ 4096 }
    ensures { (seat.new.board ≡ seat.old.board) × (seat.new.number ≡ seat.old.number) }
{
    let mut wins = 0;
    for shard in 0..MAX_SHARDS as u32 {
        if board.claim(seat, shard) == Claim::Won {
            wins += 1;
        }
    }
    wins
}

// Each seat claims every shard in a thread of its own. Returns how many claims were won in all.
fn claim_all_at_once<R: Threads + Sync>(rt: &R, board: &Board<Global>, seats: &mut Vec<Seat>) -> u64
    requires seats { AreSeats board.now seats.old.items }
    requires shards { board.now.shards ≡ 4096 }
    ensures { AreSeats board.now seats.new.items }
{
    let wins = AtomicU64::new(0);
    thread::for_each_mut(
        rt,
        seats.as_mut_slice(),
        2,
        &|_, seat: &mut Seat|
            requires { (seat.now.board ≡ board.now) × (board.now.shards ≡ 4096) }
            ensures { (seat.exit.now.board ≡ seat.entry.now.board) × (seat.exit.now.number ≡ seat.entry.now.number) }
        {
            wins.fetch_add(claim_all(board, seat), Ordering::SeqCst);
        },
    );
    wins.load(Ordering::SeqCst)
}

#[test]
fn two_threads_share_all_shards(rt: HostRuntime) {
    let (board, mut seats) = Board::open(rt.alloc(), MAX_SHARDS as u32, 2).expect(&rt, "memory");
    let wins = claim_all_at_once(&rt, &board, &mut seats);
    let holders = holders(&rt, rt.alloc(), seats.as_slice());
    let owners = board.close(seats).expect(&rt, "memory");
    let are_held = are_held(&owners, holders.as_slice());
    expect_same(&rt, (wins, are_held), (4096, true));
}

// Whether each shard has an owner, and that is its entry of `holders`.
fn are_held(owners: &Owners<Global>, holders: &[Option<u32>]) -> bool {
    let mut all = true;
    for shard in 0..MAX_SHARDS as u32 {
        let owner = owners.of(shard);
        all = all && owner.is_some() && holders.get(shard as usize) == Some(&owner);
    }
    all
}

fn holders(rt: &impl Abort, alloc: Global, seats: &[Seat]) -> Vec<Option<u32>> {
    let mut holders = Vec::with_capacity(alloc, MAX_SHARDS).expect(rt, "memory");
    for shard in 0..MAX_SHARDS as u32 {
        let mut holder = None;
        for seat in seats {
            if seat.holds(shard) {
                holder = Some(seat.number());
            }
        }
        holders.push(holder).expect(rt, "memory");
    }
    holders
}

// Gives an odd shard back. Returns whether it was held, or true for an even shard.
fn give_back_odd(board: &Board<Global>, seats: &mut Vec<Seat>, number: usize, shard: u32) -> bool
    requires seats { AreSeats board.now seats.old.items }
    requires number { number < board.now.seats }
    requires shard { shard < board.now.shards }
    ensures { AreSeats board.now seats.new.items }
{
    if shard % 2 == 0 {
        return true;
    }
    give_back(board, seats, number, shard)
}

// The seat numbered `shard % count` claims each shard twice, and gives the shard back if it is odd. Returns whether
// each call did what it should.
fn take_turns(board: &Board<Global>, seats: &mut Vec<Seat>, shards: u32, count: u32) -> bool
    requires seats { AreSeats board.now seats.old.items }
    requires shards { board.now.shards ≡ shards }
    requires count { board.now.seats ≡ count }
    requires some { 0 < count }
    ensures { AreSeats board.now seats.new.items }
{
    let mut all = true;
    for shard in 0..shards {
        let number = shard % count;
        let first = claim(board, seats, number as usize, shard);
        let again = claim(board, seats, number as usize, shard);
        let gave = give_back_odd(board, seats, number as usize, shard);
        all = all && first == Claim::Won && again == Claim::Held(number) && gave;
    }
    all
}

// A board of this size opens with its seats in order, and closes with the owners that the claims leave.
fn expect_board(rt: &impl Abort, alloc: Global, shards: u32, count: u32) {
    assert!(rt; 1 <= shards && shards <= MAX_SHARDS as u32 && 1 <= count && count <= MAX_WORKERS);
    let (board, mut seats) = Board::open(alloc, shards, count).expect(rt, "memory");
    let new = are_new(seats.as_slice(), count);
    let went = take_turns(&board, &mut seats, shards, count);
    let owners = board.close(seats).expect(rt, "memory");
    let owned = are_owned(&owners, shards, count);
    expect_same(
        rt,
        (shards, count, new, went, owned),
        (shards, count, true, true, true),
    );
}

// Whether these are `count` seats in the order of their numbers, none of which holds shard 0.
fn are_new(seats: &[Seat], count: u32) -> bool {
    let mut number = 0u32;
    for seat in seats {
        if seat.number() != number || seat.holds(0) {
            return false;
        }
        number = number.wrapping_add(1);
    }
    number == count
}

// Whether the owner of each even shard is the seat that claimed it, and all other shards have no owner.
fn are_owned(owners: &Owners<Global>, shards: u32, count: u32) -> bool
    requires { 0 < count }
{
    let mut all = owners.of(shards).is_none();
    for shard in 0..shards {
        let owner = if shard % 2 == 0 {
            Some(shard % count)
        } else {
            None
        };
        all = all && owners.of(shard) == owner;
    }
    all
}

// Boards of few shards and of the most that are allowed, up to the last shard of a word of 64 bits and past it. Then
// each number of seats.
#[test]
fn boards_of_each_size(rt: HostRuntime) {
    for shards in [1, 2, 63, 64, 65, 4095, 4096] {
        for count in [1, 64] {
            expect_board(&rt, rt.alloc(), shards, count);
        }
    }
    for count in 1..65 {
        expect_board(&rt, rt.alloc(), 65, count);
    }
}

#[test]
fn texts_of_its_faults(rt: HostRuntime) {
    let texts = [
        (BoardFault::Memory, "no memory for the board"),
        (BoardFault::NoTable, "the board's table was refused"),
    ];
    for (fault, text) in texts {
        expect_text(&rt, rt.alloc(), &fault, text);
    }
}
