//! Runs a forest's text again. The text describes only the forest's links, so the second run writes the same text.
ghost use Rattle.std.specs.Prelude.{IfOk};
ghost use Rattle.worked_examples.specs.Again.{IsWrittenAgain};

use forest_run::{Report, RunFault, plain_text, run_plain};
use std::alloc::Allocator;

/// Finds the forest of a file whose bytes are in memory, and runs its text again. Returns the text that the second run
/// wrote, and its report.
///
/// This shows that the premise of a promise can be met: [`run_plain`] promises to write a forest's text again. If the
/// buffer of a text can't grow, that is a failed write.
pub fn text_again<A: Allocator + Copy>(
    alloc: A,
    bytes: &[u8],
) -> Result<(Vec<u8, A>, Report), RunFault>
    ensures again { IfOk result (λ r. IsWrittenAgain bytes.now r.0.items r.1) }
{
    let text = plain_text(alloc, bytes)?;
    let mut source = text.as_slice();
    let mut again = Vec::new(alloc);
    let report = run_plain(alloc, &mut source, &mut again)?;
    Ok((again, report))
}
