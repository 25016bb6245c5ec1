// Whole runs over lanes, each with a worker in memory and a thread of its own for its asks.
ghost use Rattle.std.specs.Prelude.{◌≡◌, ◌<◌, ◌≤◌, ◌^◌, length, All, IfOk};
ghost use Rattle.port_rounds.specs.Lanes.{IsIdle};

use super::rounds::links_to_cut;
use super::same::expect_same;
use super::solving::{LIMITS, LIMITS_FOREST, expect_links, path};
use forest_run::{Lane, Report, solve};
use link_key::{Cut, Link};
use ports::{EngineLine, Port, Wire};
use std::alloc::{AllocError, Global};
use std::process::Abort;
use std::sync::Wait;
use std::thread::Threads;
use worked_graphs::{Row, SMALL_NET, WIDE_WEIGHTS, all_have_labels};

/// A lane to a worker in memory.
type Worker<'a> = Lane<Wire<'a, EngineLine<Global>, Global>, Global>;

fn lane<'a>(alloc: Global, cut: &'a Cut<'a>, worker: u32) -> Result<Worker<'a>, AllocError>
    requires { worker < 64 }
    ensures cut { IfOk result (λ lane. lane.port.client.cut ≡ cut.now) }
    ensures asks { IfOk result (λ lane. lane.port.asks ≡ 0) }
    ensures idle { IfOk result IsIdle }
{
    let line = EngineLine::new(alloc, worker)?;
    Ok(Lane::new(alloc, Wire::new(alloc, line, cut, worker)))
}

fn lanes<'a>(alloc: Global, cut: &'a Cut<'a>, count: u32) -> Result<Vec<Worker<'a>>, AllocError>
    requires { count ≤ 64 }
    ensures count { IfOk result (λ lanes. length lanes.items ≡ count) }
    ensures cut { IfOk result (λ lanes. All (λ lane. lane.port.client.cut ≡ cut.now) lanes.items) }
    ensures asks { IfOk result (λ lanes. All (λ lane. lane.port.asks ≡ 0) lanes.items) }
    ensures idle { IfOk result (λ lanes. All IsIdle lanes.items) }
{
    let mut lanes = Vec::new(alloc);
    for worker in 0..count {
        lanes.push(lane(alloc, cut, worker)?)?;
    }
    Ok(lanes)
}

// How many asks the workers of these lanes got. Each port has to be open.
fn ask_count(rt: &impl Abort, lanes: Vec<Worker>) -> u64 {
    let mut asks = 0u64;
    for lane in lanes {
        expect_same(rt, lane.port().is_open(), true);
        asks = asks.wrapping_add(lane.into_port().asks());
    }
    asks
}

/// A run of arcs over this many workers: their number, the arcs, the forest that is found, and the report.
type Run<'a> = (u32, &'a [Row], &'a [Row], Report);

// The run over these links, which are those of its arcs, finds this forest and has this report.
fn expect_run_over<R: Abort + Threads + Wait + Sync>(
    rt: &R,
    alloc: Global,
    links: &[Link],
    run: Run,
)
    requires few { length links.now ≤ 2 ^ 30 }
{
    let (workers, _, forest, expected) = run;
    let n = expected.vertices;
    let cut = Cut::even(alloc, links, expected.shards).expect(rt, "a cut");
    assert!(rt; workers <= 64 && n <= 1 << 26 && all_have_labels(&cut, n));
    let mut lanes = lanes(alloc, &cut, workers).expect(rt, "memory");
    let (found, report) = solve(rt, alloc, n, &cut, lanes.as_mut_slice()).expect(rt, "a forest");
    expect_same(rt, report, expected);
    expect_same(rt, ask_count(rt, lanes), report.asked);
    expect_links(rt, alloc, &found, n, forest)
}

// The same, with the links of its arcs.
fn expect_run(rt: &(impl Abort + Threads + Wait + Sync), alloc: Global, run: Run) {
    let links = links_to_cut(rt, alloc, run.3.vertices, run.1);
    expect_run_over(rt, alloc, links.as_slice(), run)
}

// The report of a run that closed no port, and in which the coordinator scanned shards only if there were no workers.
// The arguments are the vertices and links, the rounds and shards, the asks and scans, and the forest's total.
fn report(size: (u32, u64), cut: (u32, u32), work: (u64, u64), total: i128) -> Report {
    Report {
        vertices: size.0,
        links: size.1,
        rounds: cut.0,
        shards: cut.1,
        asked: work.0,
        answered: work.0,
        alone: work.1,
        closed: 0,
        total,
    }
}

// Two workers answer for each shard once per round. Without workers, the coordinator scans each. If all edges of a path
// have the same weight, each vertex but the first picks the edge to the one before it, so one round merges them all.
#[test]
fn runs_over_lanes(rt: HostRuntime) {
    let alloc = rt.alloc();
    let net = SMALL_NET;
    let wide = WIDE_WEIGHTS;
    let runs: [Run<'static>; 6] = [
        (
            2,
            net.arcs,
            net.forest,
            report((6, 8), (2, 2), (6, 0), net.total),
        ),
        (
            0,
            net.arcs,
            net.forest,
            report((6, 8), (2, 2), (0, 6), net.total),
        ),
        (
            2,
            wide.arcs,
            wide.forest,
            report((6, 8), (2, 2), (6, 0), wide.total),
        ),
        (
            1,
            &LIMITS,
            &LIMITS_FOREST,
            report((4, 5), (2, 3), (9, 0), 9223372036854775806),
        ),
        (64, &[], &[], report((0, 0), (0, 1), (1, 0), 0)),
        (0, &[], &[], report((0, 0), (0, 4096), (0, 4096), 0)),
    ];
    for run in runs {
        expect_run(&rt, alloc, run);
    }
    let path = path(&rt, alloc, 10_000);
    let path = path.as_slice();
    let expected = report((10_001, 10_000), (1, 4), (8, 0), 10_000);
    expect_run(&rt, alloc, (3, path, path, expected))
}
