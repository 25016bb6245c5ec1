//! The text of the forest of a text in the caller's memory, and the texts of errors.
ghost use Rattle.caller_forests.specs.Texts.{AnswersText, GivesTextOf};

use caller_forests::{Fault, put_fault_text, put_forest_text};
use std::alloc::Global;

/// Writes the text of the minimum spanning forest of a `.gr` text into the caller's buffer, as much as fits, and
/// returns the number of bytes of the whole text. On an error it returns the error's code, which is negative, and
/// writes the code and the line into `fault`.
///
/// It costs what [`put_forest_text`] does.
#[unsafe(no_mangle)]
pub extern "C" fn boruvka_forest_text(
    alloc: Global,
    text: &[u8],
    into: &mut [u8],
    fault: &mut Fault,
) -> i64
    ensures { AnswersText text.now into.old into.new fault.new result }
{
    put_forest_text(alloc, text, into, fault)
}

/// Writes the text of an error code into the caller's buffer, as `snprintf` does. A 0 ends it, and what doesn't fit
/// before the 0 is left out. An empty buffer stays as it is.
///
/// Returns the number of bytes of the whole text, without the 0. A number that isn't an error code has the text
/// `not an error code`. It allocates nothing.
#[unsafe(no_mangle)]
pub extern "C" fn boruvka_fault_text(kind: i64, into: &mut [u8]) -> usize
    ensures { GivesTextOf kind into.old into.new result }
{
    put_fault_text(kind, into)
}
