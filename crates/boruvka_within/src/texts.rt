//! The text of the forest of a text in the caller's memory, found within memory that the caller provides, and the texts
//! of errors.
ghost use Rattle.caller_forests.specs.Texts.{AnswersText, GivesTextOf};

use caller_forests::{Fault, put_fault_text, put_forest_text};
use region_heap::{Region, heap_within};

/// Writes the text of the minimum spanning forest of a `.gr` text into the caller's buffer, as much as fits, and
/// returns the number of bytes of the whole text. On an error it returns the error's code, which is negative, and
/// writes the code and the line into `fault`.
///
/// It costs what [`put_forest_text`] does. Its memory comes from `memory`.
#[unsafe(no_mangle)]
pub extern "C" fn boruvka_forest_text_within(
    memory: Region,
    text: &[u8],
    into: &mut [u8],
    fault: &mut Fault,
) -> i64
    ensures { AnswersText text.now into.old into.new fault.new result }
{
    let heap = heap_within(memory);
    put_forest_text(&heap, text, into, fault)
}

/// Writes the text of an error code into the caller's buffer, as [`put_fault_text`] does.
#[unsafe(no_mangle)]
pub extern "C" fn boruvka_fault_text_within(kind: i64, into: &mut [u8]) -> usize
    ensures { GivesTextOf kind into.old into.new result }
{
    put_fault_text(kind, into)
}
