// Runs over random graphs, cuts and lines give the same as the run by one thread.
ghost use Rattle.std.specs.Prelude.{◌≡◌, ◌<◌, ◌≤◌, length, All, IfOk};
ghost use Rattle.ports.specs.EngineLines.{line_of};
ghost use Rattle.wires.specs.Lines.{HasRoom};
ghost use Rattle.ports.specs.Testing.{with_stops};

use super::runs::{Solved, run_of};
use forest_run::{Cutting, run_plain};
use ports::{EngineLine, FusedLine};
use std::alloc::{AllocError, Global};
use std::process::Abort;
use std::sync::Wait;
use std::thread::Threads;

/// A worker in memory on a line that may stop.
type Fused = FusedLine<EngineLine<Global>>;

#[derive(Drop)]
struct Draws {
    state: u64,
}

impl Draws {
    // The next number below this one.
    fn below(&mut self, bound: u32) -> u32
        requires { 0 < bound }
        ensures { result < bound }
    {
        self.state = self
            .state
            .wrapping_mul(6364136223846793005)
            .wrapping_add(1442695040888963407);
        ((self.state >> 33) % u64::from(bound)) as u32
    }

    fn vertex(&mut self, n: u32) -> u32
        requires some { 0 < n }
        requires few { n ≤ 200 }
    {
        self.below(n) + 1
    }
}

/// A file, the number of its vertices, and the number of its arcs that are links.
#[derive(Drop)]
struct Drawn {
    file: Vec<u8>,
    vertices: u32,
    links: u32,
}

// Up to 200 vertices and twice as many arcs, with loops and repeats among them, and with up to 20 weights.
fn drawn_file(rt: &impl Abort, alloc: Global, draws: &mut Draws) -> Drawn {
    let n = draws.below(201);
    let arcs = draws.below(2 * n + 1);
    let weights = draws.below(20) + 1;
    let head = format!(in alloc; "p sp {n} {arcs}\n").expect(rt, "memory");
    let mut file = Vec::from_slice(alloc, head.as_bytes()).expect(rt, "memory");
    let mut links = 0u32;
    for _ in 0..arcs {
        let (tail, head) = (draws.vertex(n), draws.vertex(n));
        let weight = i64::from(draws.below(weights)) - 9;
        if tail != head {
            links = links.wrapping_add(1);
        }
        let line = format!(in alloc; "a {tail} {head} {weight}\n").expect(rt, "memory");
        file.extend_from_slice(line.as_bytes()).expect(rt, "memory");
    }
    Drawn {
        file,
        vertices: n,
        links,
    }
}

// Up to nine positions at which this many links are split.
fn drawn_places(rt: &impl Abort, alloc: Global, draws: &mut Draws, links: u32) -> Vec<usize> {
    let mut places = Vec::new(alloc);
    for _ in 0..draws.below(10) {
        let place = draws.below(links.saturating_add(1)) as usize;
        places.push(place).expect(rt, "memory");
    }
    places.as_mut_slice().sort_unstable();
    places
}

// A line to a worker. One in three never stops, and the others stop after some bytes or calls.
fn drawn_line(alloc: Global, draws: &mut Draws, worker: u32) -> Result<Fused, AllocError>
    requires { worker < 64 }
    ensures room { IfOk result (λ line. HasRoom (with_stops (line_of line.line) line.stopped)) }
{
    let line = EngineLine::new(alloc, worker)?;
    Ok(match draws.below(3) {
        0 => FusedLine::after_bytes(line, u64::MAX),
        1 => FusedLine::after_bytes(line, u64::from(draws.below(4000))),
        _ => FusedLine::after_calls(line, u64::from(draws.below(60))),
    })
}

fn drawn_lines(alloc: Global, draws: &mut Draws) -> Result<Vec<Fused>, AllocError>
    ensures few { IfOk result (λ lines. length lines.items ≤ 64) }
    ensures room { IfOk result (λ lines. All (λ line. HasRoom (with_stops (line_of line.line) line.stopped)) lines.items) }
{
    let count = draws.below(6);
    let mut lines = Vec::new(alloc);
    for worker in 0..count {
        lines.push(drawn_line(alloc, draws, worker)?)?;
    }
    Ok(lines)
}

// Compares one run with the run by one thread, over a random file, cut and lines.
fn expect_as_by_one_thread<R: Threads + Wait + Sync + Abort>(
    rt: &R,
    alloc: Global,
    draws: &mut Draws,
) {
    let drawn = drawn_file(rt, alloc, draws);
    let file = drawn.file.as_slice();
    let mut source = file;
    let mut text = Vec::new(alloc);
    let alone = run_plain(alloc, &mut source, &mut text).expect(rt, "a lawful file");
    let places = drawn_places(rt, alloc, draws, drawn.links);
    let cutting = match draws.below(2) {
        0 => Cutting::Even(draws.below(12) + 1),
        _ => Cutting::At(places.as_slice()),
    };
    let lines = drawn_lines(alloc, draws).expect(rt, "memory");
    let solved = Solved {
        file,
        text: text.as_slice(),
        size: (drawn.vertices, u64::from(drawn.links), alone.total),
    };
    run_of(rt, alloc, &solved, cutting, lines);
}

#[test]
fn a_thousand_drawn_runs(rt: HostRuntime) {
    let mut draws = Draws { state: 1926 };
    for _ in 0..1000 {
        expect_as_by_one_thread(&rt, rt.alloc(), &mut draws);
    }
}
