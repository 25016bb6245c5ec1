// Stored bytes instead of a worker: answers that are rejected, and answers that lie.
ghost use Rattle.std.specs.Prelude.{◌≡◌, length, All, IfOk};
ghost use Rattle.wires.specs.Lines.{HasRoom};
ghost use Rattle.ports.specs.Testing.{line_of_script};

use super::runs::{Solved, fault_of, run_of, run_of_worked};
use super::same::expect_same;
use forest_run::{Cutting, RunFault};
use link_key::Link;
use ports::ScriptLine;
use std::alloc::{AllocError, Global};
use worked_graphs::{EQUAL_WEIGHTS, SMALL_NET};

const HELLO: [u8; 11] = [1, 0, 0, 0, 6, 0, 1, 0, 0, 0, 0];

const ANSWER: u8 = 4;

/// The numbers of an answer: how many bytes follow, its round and its shard, how many offers it has, and these.
pub(crate) type Numbers = &'static [u32];

// A line that gives the hello of worker 0, of the first version, and then these answers.
pub(crate) fn script_line(alloc: Global, answers: &[Numbers]) -> Result<ScriptLine, AllocError>
    ensures room { IfOk result (λ line. HasRoom (line_of_script line)) }
{
    let mut bytes = Vec::from_slice(alloc, &HELLO)?;
    for answer in answers {
        bytes.push(ANSWER)?;
        for number in answer.iter() {
            bytes.extend_from_slice(&number.to_be_bytes())?;
        }
    }
    Ok(ScriptLine::new(bytes))
}

fn script(alloc: Global, answers: &[Numbers]) -> Result<Vec<ScriptLine>, AllocError>
    ensures one { IfOk result (λ lines. length lines.items ≡ 1) }
    ensures room { IfOk result (λ lines. All (λ line. HasRoom (line_of_script line)) lines.items) }
{
    let mut lines = Vec::new(alloc);
    lines.push(script_line(alloc, answers)?)?;
    Ok(lines)
}

// Answers of another round, of another shard, with an offer that doesn't leave its component, and with components that
// don't ascend. Each closes the port, and the coordinator scans without a worker.
#[test]
fn answers_that_are_refused(rt: HostRuntime) {
    let refused: [Numbers; 4] = [
        &[12, 0, 0, 0],
        &[12, 1, 1, 0],
        &[20, 1, 0, 1, 1, 1],
        &[28, 1, 0, 2, 2, 0, 1, 0],
    ];
    for answer in refused {
        let lines = script(rt.alloc(), &[answer]).expect(&rt, "memory");
        let counts = run_of_worked(&rt, rt.alloc(), &EQUAL_WEIGHTS, Cutting::Even(1), lines);
        expect_same(&rt, counts, [1, 1, 1, 0, 2, 1]);
    }
}

// Vertex 3 gets the offer of a link that leaves it but isn't its lightest. The links span and close no cycle, but they
// aren't the minimum spanning forest.
#[test]
fn an_offer_that_is_too_heavy(rt: HostRuntime) {
    let (first, second): (Numbers, Numbers) = (&[36, 1, 0, 3, 1, 0, 2, 0, 3, 1], &[12, 2, 0, 0]);
    let lines = script(rt.alloc(), &[first, second]).expect(&rt, "memory");
    let solved = Solved {
        file: EQUAL_WEIGHTS.file,
        text: b"p sp 3 2\na 1 2 5\na 2 3 5\n",
        size: (3, 3, 10),
    };
    let counts = run_of(&rt, rt.alloc(), &solved, Cutting::Even(1), lines);
    expect_same(&rt, counts, [1, 1, 2, 2, 0, 0]);
}

#[test]
fn an_answer_that_hides_all_links(rt: HostRuntime) {
    let lines = script(rt.alloc(), &[&[12, 1, 0, 0]]).expect(&rt, "memory");
    let fault = fault_of(&rt, rt.alloc(), SMALL_NET.file, Cutting::Even(1), lines);
    let link = Link::of_arc(1, 2, 17).expect(&rt, "a link");
    expect_same(&rt, fault, Some(RunFault::Missed { link }));
}

// One link per round. Three vertices can't have a second merging round.
#[test]
fn answers_past_the_bound(rt: HostRuntime) {
    let (first, second): (Numbers, Numbers) = (&[20, 1, 0, 1, 1, 0], &[20, 2, 0, 1, 3, 1]);
    let lines = script(rt.alloc(), &[first, second]).expect(&rt, "memory");
    let fault = fault_of(&rt, rt.alloc(), EQUAL_WEIGHTS.file, Cutting::Even(1), lines);
    expect_same(&rt, fault, Some(RunFault::Rounds { round: 2 }));
}

// A worker of the first version, which has no frame for a weight past 32 bits. Its line is closed before the shard is
// sent, and the coordinator scans without a worker. If there is another shard, which fits, it answers for that one
// first.
#[test]
fn a_worker_of_the_first_version(rt: HostRuntime) {
    let text = b"p sp 2 1\na 1 2 2147483648\n";
    let lines = script(rt.alloc(), &[]).expect(&rt, "memory");
    let solved = Solved {
        file: text,
        text,
        size: (2, 1, 2147483648),
    };
    let counts = run_of(&rt, rt.alloc(), &solved, Cutting::Even(1), lines);
    expect_same(&rt, counts, [1, 1, 1, 0, 2, 1]);
    let text = b"p sp 3 2\na 1 2 5\na 2 3 2147483648\n";
    let lines = script(rt.alloc(), &[&[28, 1, 0, 2, 1, 0, 2, 0]]).expect(&rt, "memory");
    let solved = Solved {
        file: text,
        text,
        size: (3, 2, 2147483653),
    };
    let counts = run_of(&rt, rt.alloc(), &solved, Cutting::Even(2), lines);
    expect_same(&rt, counts, [1, 2, 2, 1, 3, 1]);
}
