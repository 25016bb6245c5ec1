//! A run over workers in memory: lines about which the promise of a run over lines speaks, and a source and a sink
//! whose bytes the contracts see.
ghost use Rattle.std.specs.Prelude.{◌≡◌, ◌≤◌, None, length, All, IfOk};
ghost use Rattle.limits.specs.declared.TheConstants.{MAX_WORKERS};
ghost use Rattle.byte_streams.specs.Streams.{only_held};
ghost use Rattle.ports.specs.EngineLines.{line_of, engine_line};
ghost use Rattle.wires.specs.Lines.{HasRoom};
ghost use Rattle.plain_run.specs.Files.{IsForestTextOf};
ghost use Rattle.forest_run.specs.LinesRun.{MeansGraphToCut, IsUnhindered};
ghost use Rattle.forest_run.specs.WiredLines.{AreServed};

use forest_run::{Cutting, RunFault, run_lines};
use ports::EngineLine;
use std::alloc::{AllocError, Allocator};
use std::sync::Wait;
use std::thread::Threads;

// New lines to `count` workers in memory, numbered from 0.
pub(crate) fn engines<A: Allocator + Copy>(
    alloc: A,
    count: u32,
) -> Result<Vec<EngineLine<A>, A>, AllocError>
    requires few { count ≤ MAX_WORKERS }
    ensures count { IfOk result (λ lines. length lines.items ≡ count) }
    ensures room { IfOk result (λ lines. All (λ line. HasRoom (line_of line)) lines.items) }
    ensures served { IfOk result (λ lines. AreServed engine_line lines.items) }
{
    let mut lines = Vec::new(alloc);
    for worker in 0..count {
        lines.push(EngineLine::new(alloc, worker)?)?;
    }
    Ok(lines)
}

/// Finds the text of the forest of a file whose bytes are in memory, over `workers` workers in memory.
///
/// This shows that the premise can be met under which [`run_lines`] promises the minimum spanning forest. The lines
/// that `engines` makes are new, and each carries its worker's session. If the buffer of the text can't grow, that is a
/// failed write.
pub fn text_over_workers<A: Allocator + Copy + Send + Sync, R: Threads + Wait + Sync>(
    rt: &R,
    alloc: A,
    bytes: &[u8],
    cutting: Cutting,
    workers: u32,
) -> Result<Vec<u8, A>, RunFault>
    requires few { workers ≤ MAX_WORKERS }

    // The file's bytes alone define the text. In which rounds and over which workers it was found doesn't matter.
    ensures text { IfOk result (λ text. IsForestTextOf bytes.now text.items) }

    // If the file is valid and its cut is allowed, the only errors are out of memory and a failed write.
    ensures ends_well { MeansGraphToCut cutting.entry bytes.now
        → IsUnhindered result (only_held None) (only_held None) }
{
    let Ok(lines) = engines(alloc, workers) else {
        return Err(RunFault::Memory);
    };
    let mut source = bytes;
    let mut text = Vec::new(alloc);
    run_lines(rt, alloc, &mut source, cutting, lines, &mut text)?;
    Ok(text)
}
