// The board of claims, the book of a round, and the solver. Some calls allocate nothing: claims, taking answers, and
// checks before anything grows.
ghost use Rattle.std.specs.Prelude.{◌≡◌, ◌<◌, length, IfOk};
ghost use Rattle.claim_board.specs.State.{AreSeats};
ghost use Rattle.round_core.specs.Picks.{ArePicksOfHearings};

use super::in_turn::{Memory, expect_each, or_refused};
use super::lists::{even_cut, expect_forest, few_links};
use super::same::expect_same;
use claim_board::{Board, BoardFault, Claim, Seat};
use frames::Answer;
use link_key::{Cut, Forest, Labels, Link, Offers};
use round_core::{Picks, RoundBook, SolveFault, Solver, Turn, hook_relabel, solve_alone};
use std::alloc::{AllocError, Global};
use std::process::Abort;
use test_memory::{Refusals, Refusing};
use worked_graphs::{
    A_PATH_OF_EIGHT, EQUAL_WEIGHTS, SMALL_NET, WIDE_WEIGHTS, Worked, all_have_labels, have_labels,
};
use worker_engine::scan;

fn claim<'a>(
    board: &Board<&'a Memory>,
    seats: &mut Vec<Seat, &'a Memory>,
    number: usize,
    shard: u32,
) -> Claim
    requires seats { AreSeats board.now seats.old.items }
    requires number { number < board.now.seats }
    requires shard { shard < board.now.shards }
    ensures { AreSeats board.now seats.new.items }
{
    board.claim(&mut seats[number], shard)
}

// If the seat of this number holds the shard, it gives the shard back. Returns whether it held it.
fn give_back<'a>(
    board: &Board<&'a Memory>,
    seats: &mut Vec<Seat, &'a Memory>,
    number: usize,
    shard: u32,
) -> bool
    requires seats { AreSeats board.now seats.old.items }
    requires number { number < board.now.seats }
    requires shard { shard < board.now.shards }
    ensures { AreSeats board.now seats.new.items }
{
    let seat = &mut seats[number];
    let holds = seat.holds(shard);
    if holds {
        board.give_back(seat, shard);
    }
    holds
}

// Two seats and two shards. One seat claims the first shard and gives it back, and the other claims it.
fn expect_claims(rt: &impl Abort, memory: &Memory) -> Result<(), AllocError> {
    let (board, mut seats) = match Board::open(memory, 2, 2) {
        Ok(it) => it,
        Err(fault) => {
            expect_same(rt, fault, BoardFault::Memory);
            return Err(AllocError);
        }
    };
    let asked = memory.asked();
    let first = claim(&board, &mut seats, 0, 0);
    let other = claim(&board, &mut seats, 1, 0);
    let gave = give_back(&board, &mut seats, 0, 0);
    let last = claim(&board, &mut seats, 1, 0);
    let claims = (first, other, last);
    expect_same(rt, claims, (Claim::Won, Claim::Held(0), Claim::Won));
    expect_same(rt, (gave, memory.asked()), (true, asked));
    let owners = or_refused(rt, board.close(seats), BoardFault::Memory)?;
    expect_same(rt, (owners.of(0), owners.of(1)), (Some(1), None));
    Ok(())
}

// One seat and one shard. The seat claims again what it gave back.
fn expect_claims_of_one(rt: &impl Abort, memory: &Memory) -> Result<(), AllocError> {
    let (board, mut seats) = match Board::open(memory, 1, 1) {
        Ok(it) => it,
        Err(fault) => {
            expect_same(rt, fault, BoardFault::Memory);
            return Err(AllocError);
        }
    };
    let first = claim(&board, &mut seats, 0, 0);
    let held = claim(&board, &mut seats, 0, 0);
    let gave = give_back(&board, &mut seats, 0, 0);
    let last = claim(&board, &mut seats, 0, 0);
    let claims = (first, held, last);
    expect_same(rt, claims, (Claim::Won, Claim::Held(0), Claim::Won));
    let owners = or_refused(rt, board.close(seats), BoardFault::Memory)?;
    expect_same(
        rt,
        (gave, owners.of(0), owners.of(1)),
        (true, Some(0), None),
    );
    Ok(())
}

fn opened<'a, 'b>(
    rt: &impl Abort,
    memory: &'a Memory,
    cut: &'b Cut<'b, &'a Memory>,
    labels: &'b Labels<&'a Memory>,
) -> Result<RoundBook<'b, &'a Memory>, AllocError>
    ensures { IfOk result (λ book. book.labels ≡ labels.now) }
{
    assert!(rt; all_have_labels(cut, labels.n()));
    RoundBook::open(memory, 1, cut, labels)
}

/// What a shard's answer offers: what a scan finds, only this, or nothing.
#[derive(Clone, Copy)]
enum Offered {
    Scanned,
    Only((u32, u32)),
    Nothing,
}

// The offers of a shard with these links.
fn offers_of<'a>(
    rt: &impl Abort,
    memory: &'a Memory,
    links: &[Link],
    labels: &Labels<&'a Memory>,
    offered: Offered,
) -> Result<Offers<&'a Memory>, AllocError> {
    let pairs = match offered {
        Offered::Scanned => {
            assert!(rt; links.len() <= 1024 && have_labels(links, labels.n()));
            return scan(memory, links, labels);
        }
        Offered::Only(pair) => [pair].to_vec(memory)?,
        Offered::Nothing => Vec::new(memory),
    };
    Ok(Offers::of_pairs(pairs).expect(rt, "offers"))
}

// The book takes the answer, and allocates nothing for it.
fn expect_taken<'a>(
    rt: &impl Abort,
    memory: &'a Memory,
    book: &mut RoundBook<'_, &'a Memory>,
    answer: Answer<&'a Memory>,
)
    ensures { book.new.labels ≡ book.old.labels }
{
    let shard = answer.shard;
    assert!(rt; shard < book.len());
    let asked = memory.asked();
    let taken = book.take(shard, answer).is_ok();
    expect_same(rt, (taken, memory.asked()), (true, asked));
}

fn picks_of<'a>(
    rt: &impl Abort,
    memory: &'a Memory,
    mut book: RoundBook<'_, &'a Memory>,
    offered: Offered,
) -> Result<Picks<&'a Memory>, AllocError>
    ensures heard { IfOk result (ArePicksOfHearings book.entry.labels) }
    ensures each_vertex { IfOk result (λ picks. length picks ≡ length book.entry.labels) }
{
    let (cut, labels) = (book.cut(), book.labels());
    for shard in 0..cut.len() {
        let answer = Answer {
            round: 1,
            shard,
            offers: offers_of(rt, memory, cut.shard(shard).links, labels, offered)?,
        };
        expect_taken(rt, memory, &mut book, answer);
    }
    assert!(rt; book.missing() == 0);
    Ok(book.close())
}

fn picks_over<'a>(
    rt: &impl Abort,
    memory: &'a Memory,
    cut: &Cut<&'a Memory>,
    labels: &Labels<&'a Memory>,
    offered: Offered,
) -> Result<Picks<&'a Memory>, AllocError>
    ensures heard { IfOk result (ArePicksOfHearings labels.now) }
    ensures each_vertex { IfOk result (λ picks. length picks ≡ length labels.now) }
{
    let book = opened(rt, memory, cut, labels)?;
    picks_of(rt, memory, book, offered)
}

// The solver's labels store their encoded bytes. If there is no memory for the bytes, the labels stay as they were. In
// both cases the solver is unchanged.
fn expect_spelled<'a>(rt: &impl Abort, solver: &mut Solver<&'a Memory>) -> Result<(), AllocError> {
    let round = solver.round();
    if solver.spell_labels().is_err() {
        let keeps_none = solver.labels().spelled().is_none();
        expect_same(rt, (keeps_none, solver.round()), (true, round));
        solver.spell_labels()?;
    }
    let labels = solver.labels();
    let bytes = labels.spelled().expect(rt, "kept bytes");
    let are_theirs = spell(labels.as_slice(), bytes);
    expect_same(rt, (are_theirs, solver.round()), (true, round));
    Ok(())
}

// Whether these are the labels' encoded bytes: four for each, the highest first.
fn spell(labels: &[u32], bytes: &[u8]) -> bool {
    let mut rest = bytes;
    for label in labels {
        match rest.split_first_chunk::<4>() {
            Some((first, behind)) if *first == label.to_be_bytes() => rest = behind,
            _ => return false,
        }
    }
    rest.is_empty()
}

// The solver's step by the picks of a scan of the cut. If it runs out of memory, the solver is as it was. If only one
// allocation fails, a second try succeeds.
fn expect_step<'a>(
    rt: &impl Abort,
    memory: &'a Memory,
    cut: &Cut<&'a Memory>,
    solver: &mut Solver<&'a Memory>,
    expected: (Turn, &[u32]),
) -> Result<(), AllocError> {
    let before = solver.labels().as_slice().to_vec(memory)?;
    expect_spelled(rt, solver)?;
    expect_same(rt, solver.labels().as_slice(), before.as_slice());
    let picks = picks_over(rt, memory, cut, solver.labels(), Offered::Scanned)?;
    let turn = step(rt, solver, &picks, before.as_slice())?;
    expect_same(rt, (turn, solver.labels().as_slice()), expected);
    Ok(())
}

// Returns what a step by these picks does, if the labels are these. If it runs out of memory, the solver is as it was,
// and the step is tried again.
fn step<'a>(
    rt: &impl Abort,
    solver: &mut Solver<&'a Memory>,
    picks: &Picks<&'a Memory>,
    before: &[u32],
) -> Result<Turn, AllocError>
    requires heard { ArePicksOfHearings solver.old.labels picks.now }
{
    let round = solver.round();
    match solver.step(picks) {
        Ok(turn) => Ok(turn),
        Err(fault) => {
            expect_same(rt, (fault, solver.round()), (SolveFault::Memory, round));
            expect_same(rt, solver.labels().as_slice(), before);
            or_refused(rt, solver.step(picks), SolveFault::Memory)
        }
    }
}

// What each step over a net in two shards returns, and the labels after it. There are two merging rounds. The small
// net's components are the same with either weights.
const STEPS: [(Turn, [u32; 6]); 3] = [
    (Turn::Merged(4), [1, 2, 1, 1, 2, 1]),
    (Turn::Merged(1), [1; 6]),
    (Turn::Done, [1; 6]),
];

fn expect_solved<'a>(
    rt: &impl Abort,
    alloc: Global,
    memory: &'a Memory,
    cut: &Cut<&'a Memory>,
    graph: &Worked,
) -> Result<(), AllocError> {
    let mut solver = Solver::new(memory, 6)?;
    for (turn, behind) in STEPS {
        expect_step(rt, memory, cut, &mut solver, (turn, &behind))?;
    }
    let forest = finished(rt, &solver, cut)?;
    expect_forest(rt, alloc, forest.links(), graph);
    Ok(())
}

// The solver's `finish`, which is tried again if it runs out of memory.
fn finished<'a>(
    rt: &impl Abort,
    solver: &Solver<&'a Memory>,
    cut: &Cut<&'a Memory>,
) -> Result<Forest<&'a Memory>, AllocError> {
    assert!(rt; all_have_labels(cut, solver.labels().n()));
    match solver.finish(cut) {
        Ok(found) => Ok(found),
        Err(fault) => {
            expect_same(rt, fault, SolveFault::Memory);
            or_refused(rt, solver.finish(cut), SolveFault::Memory)
        }
    }
}

fn expect_relabelled<'a>(
    rt: &impl Abort,
    memory: &'a Memory,
    cut: &Cut<&'a Memory>,
) -> Result<(), AllocError> {
    let labels = Labels::apart(memory, 6)?;
    let picks = picks_over(rt, memory, cut, &labels, Offered::Scanned)?;
    let made = hook_relabel(memory, &labels, &picks)?;
    expect_same(rt, made.as_slice(), [1, 2, 1, 1, 2, 1].as_slice());
    Ok(())
}

// All rounds by one thread. `expected` has the graph, and how many rounds merge components.
fn expect_alone<'a>(
    rt: &impl Abort,
    alloc: Global,
    memory: &'a Memory,
    cut: &Cut<&'a Memory>,
    expected: (&Worked, u32),
) -> Result<(), AllocError> {
    let (graph, merging) = expected;
    assert!(rt; graph.n <= 8 && all_have_labels(cut, graph.n));
    let solved = solve_alone(memory, graph.n, cut);
    let (forest, rounds) = or_refused(rt, solved, SolveFault::Memory)?;
    expect_same(rt, rounds, merging);
    expect_forest(rt, alloc, forest.links(), graph);
    Ok(())
}

// A step by one link that is offered.
fn expect_merged<'a>(
    rt: &impl Abort,
    memory: &'a Memory,
    cut: &Cut<&'a Memory>,
    solver: &mut Solver<&'a Memory>,
) -> Result<(), AllocError> {
    let picks = picks_over(rt, memory, cut, solver.labels(), Offered::Only((1, 0)))?;
    let turn = or_refused(rt, solver.step(&picks), SolveFault::Memory)?;
    expect_same(rt, turn, Turn::Merged(1));
    Ok(())
}

// The step of a round past the bound fails with that error, before it allocates.
fn expect_past_bound<'a>(
    rt: &impl Abort,
    memory: &'a Memory,
    cut: &Cut<&'a Memory>,
    solver: &mut Solver<&'a Memory>,
) -> Result<(), AllocError> {
    let picks = picks_over(rt, memory, cut, solver.labels(), Offered::Only((3, 1)))?;
    let asked = memory.asked();
    let turn = solver.step(&picks);
    expect_same(
        rt,
        (turn, memory.asked()),
        (Err(SolveFault::Rounds { round: 2 }), asked),
    );
    Ok(())
}

// The same for the end of a solver that misses a link.
fn expect_missed<'a>(
    rt: &impl Abort,
    memory: &'a Memory,
    cut: &Cut<&'a Memory>,
    solver: &Solver<&'a Memory>,
) {
    assert!(rt; all_have_labels(cut, solver.labels().n()));
    let link = Link::of_arc(2, 3, 5).expect(rt, "a link");
    let asked = memory.asked();
    let fault = solver.finish(cut).err();
    expect_same(
        rt,
        (fault, memory.asked()),
        (Some(SolveFault::Missed { link }), asked),
    );
}

// The triangle's worker offers one link per round and hides the third.
fn expect_lies<'a>(
    rt: &impl Abort,
    memory: &'a Memory,
    cut: &Cut<&'a Memory>,
) -> Result<(), AllocError> {
    let mut solver = Solver::new(memory, 3)?;
    expect_merged(rt, memory, cut, &mut solver)?;
    expect_past_bound(rt, memory, cut, &mut solver)?;
    expect_missed(rt, memory, cut, &solver);
    Ok(())
}

#[derive(Clone, Copy)]
enum Call {
    Relabel,
    Solver,
    SolveAlone(u32),
    Lies,
}

// Each call over a cut of a graph's links into this many shards.
const CALLS: [(Call, Worked, u32); 7] = [
    (Call::Relabel, SMALL_NET, 2),
    (Call::Relabel, WIDE_WEIGHTS, 2),
    (Call::Solver, SMALL_NET, 2),
    (Call::Solver, WIDE_WEIGHTS, 2),
    (Call::SolveAlone(3), A_PATH_OF_EIGHT, 3),
    (Call::SolveAlone(2), WIDE_WEIGHTS, 3),
    (Call::Lies, EQUAL_WEIGHTS, 1),
];

fn make<'a>(
    rt: &impl Abort,
    alloc: Global,
    memory: &'a Memory,
    cut: &Cut<&'a Memory>,
    called: (Call, &Worked),
) -> Result<(), AllocError> {
    let (call, graph) = called;
    match call {
        Call::Relabel => expect_relabelled(rt, memory, cut),
        Call::Solver => expect_solved(rt, alloc, memory, cut, graph),
        Call::SolveAlone(merging) => expect_alone(rt, alloc, memory, cut, (graph, merging)),
        Call::Lies => expect_lies(rt, memory, cut),
    }
}

#[test]
fn boards_books_and_solvers(rt: HostRuntime) {
    expect_each(
        &rt,
        rt.alloc(),
        |memory: &Memory| -> Result<(), AllocError> { expect_claims(&rt, memory) },
    );
    expect_each(
        &rt,
        rt.alloc(),
        |memory: &Memory| -> Result<(), AllocError> { expect_claims_of_one(&rt, memory) },
    );
    for (call, graph, count) in CALLS {
        expect_each(
            &rt,
            rt.alloc(),
            |memory: &Memory| -> Result<(), AllocError> {
                let links = few_links(&rt, rt.alloc(), graph.n, graph.arcs);
                let cut = even_cut(&rt, memory, links.as_slice(), graph.n, count)?;
                make(&rt, rt.alloc(), memory, &cut, (call, &graph))
            },
        );
    }
}

// How many blocks a book over the cut allocates that reuses the buffer of picks of six vertices, for labels of n
// vertices.
fn blocks_in_room<'a>(rt: &impl Abort, memory: &'a Memory, cut: &Cut<&'a Memory>, n: u32) -> u64 {
    assert!(rt; n < 1 << 20);
    let labels = Labels::apart(memory, 6).expect(rt, "memory");
    let picks = picks_over(rt, memory, cut, &labels, Offered::Nothing).expect(rt, "memory");
    assert!(rt; picks.is_empty());
    let labels = Labels::apart(memory, n).expect(rt, "memory");
    assert!(rt; all_have_labels(cut, labels.n()));
    let before = memory.given();
    let _book = RoundBook::open_over(picks, 1, cut, &labels).expect(rt, "memory");
    memory.given().wrapping_sub(before)
}

fn expect_blocks(rt: &impl Abort, alloc: Global, n: u32, blocks: u64) {
    let memory = Refusing::new(alloc, Refusals::none());
    let cut = Cut::even(&memory, &[], 1).expect(rt, "a cut");
    let found = blocks_in_room(rt, &memory, &cut, n);
    expect_same(rt, (n, found), (n, blocks));
}

// A book allocates two blocks for its shards, and one for its picks. The latter isn't needed if the earlier picks had
// at least as many labels.
#[test]
fn a_book_in_the_room_of_picks(rt: HostRuntime) {
    for (n, blocks) in [(6, 2), (4, 2), (7, 3)] {
        expect_blocks(&rt, rt.alloc(), n, blocks);
    }
}
