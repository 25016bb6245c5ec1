//! Runs with one thread over bytes in memory.
ghost use Rattle.std.specs.Prelude.{◌≤◌, length, IfOk, IfErr};
ghost use Rattle.plain_run.specs.Files.{IsForestTextOf, IsFaultInMemory, MeansGraph, MeansNothing, IsFirstFaultOf, IsNoRefusal};

use crate::fault::RunFault;
use crate::plain::run_plain;
use limits::MAX_BYTES;
use std::alloc::Allocator;

/// Returns the text of the forest of a file whose bytes are in memory.
///
/// It costs what [`run_plain`] does, and memory for the text. If the text can't grow, the error is a failed write.
pub fn plain_text<A: Allocator + Copy>(alloc: A, bytes: &[u8]) -> Result<Vec<u8, A>, RunFault>
    ensures text { IfOk result (λ text. IsForestTextOf bytes.now text.items) }

    // The only errors are those of reading the bytes, and out of memory for the forest or its text.
    ensures fault { IfErr result (IsFaultInMemory bytes.now) }

    ensures malformed { length bytes.now ≤ MAX_BYTES → MeansNothing bytes.now
        → IsFirstFaultOf bytes.now result }
    ensures lawful { MeansGraph bytes.now → IsNoRefusal result }
{
    let mut source = bytes;
    let mut text = Vec::new(alloc);
    run_plain(alloc, &mut source, &mut text)?;
    Ok(text)
}
