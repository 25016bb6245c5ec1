//! The text of the forest of a text in the caller's memory.
ghost use Rattle.caller_forests.specs.Texts.{AnswersText};

use crate::faults::Fault;
use crate::room::fill_room;
use plain_run::plain_text;
use std::alloc::Allocator;

/// Writes the text of the minimum spanning forest of a `.gr` text into the caller's buffer, as much as fits, and
/// returns the number of bytes of the whole text. On an error it returns the error's code, which is negative, and
/// writes the code and the line into `fault`.
///
/// It costs what [`plain_text`] does, which first builds the whole text in memory.
pub fn put_forest_text<A: Allocator + Copy>(
    alloc: A,
    text: &[u8],
    into: &mut [u8],
    fault: &mut Fault,
) -> i64
    ensures { AnswersText text.now into.old into.new fault.new result }
{
    match plain_text(alloc, text) {
        Ok(forest) => {
            fill_room(into, forest.as_slice());
            *fault = Fault::NONE;
            forest.len() as i64
        }
        Err(why) => {
            *fault = Fault::of_run(why);
            fault.kind
        }
    }
}
