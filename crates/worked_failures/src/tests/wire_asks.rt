// A worker in memory, and asks over a wire to it, and over a wire to stored bytes of a worker of the first version.
ghost use Rattle.std.specs.Prelude.{◌<◌, length, All};
ghost use Rattle.links.specs.Link.{EndsUpTo};
ghost use Rattle.wires.specs.Lines.{HasRoom};

use super::in_turn::{Memory, expect_any, expect_each, was_refused};
use super::lists::{even_cut, few_links};
use super::same::expect_same;
use link_key::{Cut, Labels};
use ports::{EngineLine, Line, Port, PortFault, ScriptLine, Wire};
use std::alloc::{AllocError, Global};
use std::process::Abort;
use worked_graphs::{SMALL_NET, WIDE_WEIGHTS, Worked, have_labels};

pub(crate) const FIRST_HELLO: [u8; 11] = [1, 0, 0, 0, 6, 0, 1, 0, 0, 0, 0];

// The offers of the small net in one shard, for either weights. Each vertex is a component by itself.
const OFFERS: [(u32, u32); 6] = [(1, 1), (2, 6), (3, 4), (4, 4), (5, 6), (6, 5)];

// Why an ask of the cut's last shard, over a wire with this line, isn't answered. Each of six vertices is a component
// by itself. An answer has the offers above. The wire is closed exactly if it doesn't answer.
fn fault_over<'a, 'b, L: Line + Drop>(
    rt: &impl Abort,
    memory: &'a Memory,
    line: L,
    cut: &'b Cut<'b, &'a Memory>,
) -> Result<Option<PortFault>, AllocError>
    requires room { HasRoom (L.state line) }
{
    let labels = Labels::apart(memory, 6)?;
    let shard = cut.len() - 1;
    assert!(rt; have_labels(cut.shard(shard).links, labels.n()));
    let mut wire = Wire::new(memory, line, cut, 0);
    let fault = match wire.ask(1, shard, &labels) {
        Ok(answer) => {
            expect_same(rt, answer.offers.pairs(), OFFERS.as_slice());
            None
        }
        Err(fault) => Some(fault),
    };
    expect_same(rt, wire.is_open(), fault.is_none());
    Ok(fault)
}

/// An ask of a worker in memory for a graph in one shard. Or an ask of a worker of the first version for the half of a
/// graph that has weights past 32 bits, for which it is too old.
#[derive(Clone, Copy)]
enum Asked {
    Answered(Worked),
    TooOld,
}

// The ask is answered, or the worker is too old. Or the wire or the worker runs out of memory, and the worker ends.
fn expect_asked(
    rt: &impl Abort,
    alloc: Global,
    memory: &Memory,
    asked: Asked,
) -> Result<(), AllocError> {
    let (graph, count) = match asked {
        Asked::Answered(graph) => (graph, 1),
        Asked::TooOld => (WIDE_WEIGHTS, 2),
    };
    let links = few_links(rt, alloc, 6, graph.arcs);
    let cut = even_cut(rt, memory, links.as_slice(), 6, count)?;
    expect_over_cut(rt, memory, &cut, asked)
}

fn expect_over_cut<'a>(
    rt: &impl Abort,
    memory: &'a Memory,
    cut: &Cut<&'a Memory>,
    asked: Asked,
) -> Result<(), AllocError> {
    let fault = match asked {
        Asked::Answered(_) => fault_over(rt, memory, EngineLine::new(memory, 0)?, cut)?,
        Asked::TooOld => fault_over(
            rt,
            memory,
            ScriptLine::new(FIRST_HELLO.to_vec(memory)?),
            cut,
        )?,
    };
    if went_well(asked, fault) {
        return Ok(());
    }
    let wants = was_refused(memory) && wants_memory(asked, fault);
    expect_same(rt, (fault, wants), (fault, true));
    Err(AllocError)
}

fn went_well(asked: Asked, fault: Option<PortFault>) -> bool {
    match asked {
        Asked::Answered(_) => fault.is_none(),
        Asked::TooOld => fault == Some(PortFault::TooOld),
    }
}

// Stored bytes need no memory.
fn wants_memory(asked: Asked, fault: Option<PortFault>) -> bool {
    match (asked, fault) {
        (_, Some(PortFault::Memory)) => true,
        (Asked::Answered(_), Some(PortFault::Down | PortFault::Gave(1))) => true,
        _ => false,
    }
}

#[test]
fn asks_of_the_small_net(rt: HostRuntime) {
    for asked in [
        Asked::Answered(SMALL_NET),
        Asked::Answered(WIDE_WEIGHTS),
        Asked::TooOld,
    ] {
        expect_any(
            &rt,
            rt.alloc(),
            |memory: &Memory| -> Result<(), AllocError> {
                expect_asked(&rt, rt.alloc(), memory, asked)
            },
        );
    }
}

// A worker in memory whose hello can't be written isn't made.
#[test]
fn a_worker_in_memory(rt: HostRuntime) {
    expect_each(
        &rt,
        rt.alloc(),
        |memory: &Memory| -> Result<(), AllocError> {
            let _line = EngineLine::new(memory, 0)?;
            Ok(())
        },
    );
}
