//! What is wrong with a text, and the text of each error.
ghost use Rattle.std.specs.Prelude.{◌≡◌, ◌≤◌, ◌++◌, length, codes, decimal};
ghost use Rattle.arrayvec.specs.ArrayString.{array_string_len};
ghost use Rattle.gr_text.specs.FaultText.{kind_text, line_text, read_text};

use arrayvec::ArrayString;
use itoa::Buffer;
use thiserror::Error;

/// The size of the buffer for an error's text, which has at most 47 bytes.
pub const FAULT_ROOM: usize = 64;

/// What is wrong with a line, or what is missing after the last one.
///
/// If a line has several of these errors, only one is reported. On a problem line `SecondProblem` comes before
/// `BadProblem`, and `BadProblem` before `TooLarge`. On an arc line the order is `NoProblemYet`, `TooManyArcs`,
/// `BadArc`, `EndOutOfRange`, `WeightOutOfRange`.
#[derive(Clone, Copy, Debug, PartialEq, Eq)]
pub enum GrKind {
    /// The first field is neither `p` nor `a`, and doesn't begin with `c`.
    UnknownLine,
    /// An arc line comes before the problem line.
    NoProblemYet,
    /// A problem line comes after another one.
    SecondProblem,
    /// A problem line that isn't `p sp n m` with two numbers in digits.
    BadProblem,
    /// The problem line states more than 2^26 vertices or 2^30 arc lines.
    TooLarge,
    /// An arc line that isn't `a u v w` with two numbers in digits, and a third that may have a minus sign.
    BadArc,
    /// An endpoint of an arc isn't a vertex, that is, a number from 1 to the stated number of vertices.
    EndOutOfRange,
    /// The weight is below -2^63 or above 2^63 - 1.
    WeightOutOfRange,
    /// There are more arc lines than the problem line stated.
    TooManyArcs,
    /// The text ended without a problem line. The line number is one past the last line.
    MissingProblem,
    /// The text ended with fewer arc lines than were stated. The line number is one past the last line.
    MissingArcs,
}

impl GrKind {
    /// The name that stands for it in the text of each error.
    pub fn name(self) -> &'static str
        ensures text { result.now ≡ kind_text self }
        ensures short { length result.now ≤ 20 }
    {
        match self {
            GrKind::UnknownLine => "UnknownLine",
            GrKind::NoProblemYet => "NoProblemYet",
            GrKind::SecondProblem => "SecondProblem",
            GrKind::BadProblem => "BadProblem",
            GrKind::TooLarge => "TooLarge",
            GrKind::BadArc => "BadArc",
            GrKind::EndOutOfRange => "EndOutOfRange",
            GrKind::WeightOutOfRange => "WeightOutOfRange",
            GrKind::TooManyArcs => "TooManyArcs",
            GrKind::MissingProblem => "MissingProblem",
            GrKind::MissingArcs => "MissingArcs",
        }
    }
}

/// The first error of a text, which is that of its first invalid line.
#[derive(Clone, Copy, Debug, PartialEq, Eq, Error)]
#[error("{}", self.text())]
pub struct GrFault {
    /// The number of the line, counted from 1.
    pub line: u64,
    /// What is wrong with it.
    pub kind: GrKind,
}

impl GrFault {
    fn text(&self) -> ArrayString<FAULT_ROOM>
        ensures { result.bytes ≡ line_text self.now }
    {
        let mut text = numbered(self.line);
        text.push_str(": ");
        text.push_str(self.kind.name());
        text
    }
}

fn numbered(line: u64) -> ArrayString<FAULT_ROOM>
    ensures text { result.bytes ≡ codes "line " ++ decimal line }
    ensures short { array_string_len result ≤ 25 }
{
    let mut digits = Buffer::new();
    let mut text = ArrayString::new();
    text.push_str("line ");
    text.push_str(digits.format(line));
    text
}

/// Why no graph was read.
#[derive(Clone, Copy, Debug, PartialEq, Eq, Error)]
#[error("{}", self.text())]
pub enum ReadFault {
    /// The text isn't valid.
    Gr(GrFault),
    /// A read of the source failed. `line` is the line of the next byte; every line that had ended before was valid.
    Source { line: u64 },
    /// The text has more bytes than the limit, and every line that ended within the limit is valid.
    TooLong,
    /// There was no memory for the edges.
    Memory,
}

impl ReadFault {
    /// The text of the error: the line number and the name of what is wrong with it, or why the rest wasn't read. It is
    /// built on the stack.
    pub fn text(&self) -> ArrayString<FAULT_ROOM>
        ensures { result.bytes ≡ read_text self.now }
    {
        let mut text = ArrayString::new();
        match *self {
            ReadFault::Gr(fault) => return fault.text(),
            ReadFault::Source { line } => {
                text = numbered(line);
                text.push_str(": read failed");
            }
            ReadFault::TooLong => text.push_str("file is too long"),
            ReadFault::Memory => text.push_str("no memory"),
        }
        text
    }
}
