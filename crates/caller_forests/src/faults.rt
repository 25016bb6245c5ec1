//! The errors as a caller sees them.
ghost use Rattle.std.specs.Prelude.{◌≡◌};
ghost use Rattle.caller_forests.specs.Texts.{fault_of, IsTextOfCode, GivesTextOf};

use crate::refusals::CallRefusal;
use crate::room::fill_with_text;
use gr_text::ReadFault;
use plain_run::RunFault;

/// Why a text gives no forest, `struct boruvka_fault`. `kind` is the error's code. `line` is the line of the text that
/// is invalid, counted from 1, or 0 if the error isn't in a line. Both are 0 if there is a forest.
#[repr(C)]
#[derive(Clone, Copy)]
pub struct Fault {
    pub kind: i64,
    pub line: u64,
}

impl Fault {
    // There is a forest.
    pub(crate) const NONE: Fault = Fault { kind: 0, line: 0 };

    // The error of a run over bytes in memory that has no forest.
    pub(crate) fn of_run(why: RunFault) -> Fault
        ensures { result ≡ fault_of why }
    {
        let (why, line) = match why {
            RunFault::Read(ReadFault::Gr(fault)) => (CallRefusal::Line(fault.kind), fault.line),
            RunFault::Read(ReadFault::TooLong) => (CallRefusal::TooLong, 0),
            RunFault::Read(ReadFault::Source { .. } | ReadFault::Memory)
            | RunFault::Cut(_)
            | RunFault::Rounds { .. }
            | RunFault::Missed { .. }
            | RunFault::Memory
            | RunFault::Write { .. } => (CallRefusal::NoMemory, 0),
        };
        Fault {
            kind: why.code(),
            line,
        }
    }
}

// The text of an error code, or of a number that isn't one.
fn text_of_number(code: i64) -> &'static [u8]
    ensures { IsTextOfCode code result.now }
{
    match CallRefusal::of_code(code) {
        Some(why) => why.text(),
        None => b"not an error code",
    }
}

/// Writes the text of an error code into the caller's buffer, as `snprintf` does. A 0 ends it, and what doesn't fit
/// before the 0 is left out. An empty buffer stays as it is.
///
/// Returns the number of bytes of the whole text, without the 0. A number that isn't an error code has the text
/// `not an error code`. It allocates nothing.
pub fn put_fault_text(kind: i64, into: &mut [u8]) -> usize
    ensures { GivesTextOf kind into.old into.new result }
{
    let text = text_of_number(kind);
    fill_with_text(into, text);
    text.len()
}
