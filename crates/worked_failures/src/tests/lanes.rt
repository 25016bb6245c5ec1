// Whole runs over lanes to two workers in memory, of the small net in two shards.
ghost use Rattle.std.specs.Prelude.{◌≡◌, ◌<◌, IfOk};
ghost use Rattle.port_rounds.specs.Lanes.{IsIdle};

use super::in_turn::{Memory, expect_any, or_refused, was_refused};
use super::lists::{even_cut, expect_forest, few_links};
use super::same::expect_same;
use link_key::Cut;
use port_rounds::{Lane, solve};
use ports::{EngineLine, Wire};
use round_core::SolveFault;
use std::alloc::{AllocError, Global};
use std::process::Abort;
use std::sync::Wait;
use std::thread::Threads;
use worked_graphs::{SMALL_NET, WIDE_WEIGHTS, Worked, all_have_labels};

/// A lane to a worker in memory.
type Worker<'a, 'b> = Lane<Wire<'b, EngineLine<&'a Memory>, &'a Memory>, &'a Memory>;

fn lane<'a, 'b>(
    memory: &'a Memory,
    cut: &'b Cut<'b, &'a Memory>,
    worker: u32,
) -> Result<Worker<'a, 'b>, AllocError>
    requires { worker < 64 }
    ensures cut { IfOk result (λ lane. lane.port.client.cut ≡ cut.now) }
    ensures asks { IfOk result (λ lane. lane.port.asks ≡ 0) }
    ensures idle { IfOk result IsIdle }
{
    let line = EngineLine::new(memory, worker)?;
    Ok(Lane::new(memory, Wire::new(memory, line, cut, worker)))
}

// The forest and the counts of a run over two lanes. If a worker or its wire runs out of memory, its line is closed.
fn expect_solved<'a, 'b, R: Abort + Threads + Wait + Sync>(
    rt: &R,
    alloc: Global,
    memory: &'a Memory,
    cut: &'b Cut<'b, &'a Memory>,
    graph: &Worked,
) -> Result<(), AllocError> {
    let (first, second) = (lane(memory, cut, 0)?, lane(memory, cut, 1)?);
    let mut lanes = [first, second];
    assert!(rt; all_have_labels(cut, 6));
    let solved = solve(rt, memory, 6, cut, &mut lanes);
    let (forest, report) = or_refused(rt, solved, SolveFault::Memory)?;
    expect_forest(rt, alloc, forest.links(), graph);
    let counts = (report.rounds, report.shards, report.total);
    expect_same(rt, counts, (2, 2, graph.total));
    expect_same(rt, report.closed == 0 || was_refused(memory), true);
    Ok(())
}

#[test]
fn runs_over_two_lanes(rt: HostRuntime) {
    for graph in [SMALL_NET, WIDE_WEIGHTS] {
        expect_any(
            &rt,
            rt.alloc(),
            |memory: &Memory| -> Result<(), AllocError> {
                let links = few_links(&rt, rt.alloc(), 6, graph.arcs);
                let cut = even_cut(&rt, memory, links.as_slice(), 6, 2)?;
                expect_solved(&rt, rt.alloc(), memory, &cut, &graph)
            },
        );
    }
}
