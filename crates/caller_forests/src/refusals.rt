//! Why a call returns an error: each reason has a code and a text.
ghost use Rattle.std.specs.Prelude.{◌≡◌, ◌≢◌, MatchOption};
ghost use Rattle.caller_forests.specs.declared.refusals.CallRefusal.{CallRefusal};
ghost use Rattle.caller_forests.specs.Refusals.{code_of, refusal_text};

use gr_text::GrKind;

/// Why a call returns an error.
#[derive(Clone, Copy)]
pub enum CallRefusal {
    /// There was no memory.
    NoMemory,
    /// An endpoint of an edge isn't a vertex, that is, a number from 1 to the number of vertices.
    BadEnd,
    /// There are more than 2^26 vertices.
    TooManyVertices,
    /// There are more than 2^30 edges.
    TooManyLinks,
    /// A text has more than 2^40 bytes.
    TooLong,
    /// A line of a text is invalid.
    Line(GrKind),
    /// Columns of arcs, or links and merges, have different lengths.
    LengthsDiffer,
    /// The forest has more edges than `places` has elements.
    TooFewPlaces,
    /// The edges close a cycle: one of them is a loop, occurs twice, or connects vertices that others connect.
    Cycle,
    /// An edge weighs less than the one before it.
    Descending,
    /// An output and an input overlap in memory. No call in this crate returns this, because a slice that is written
    /// overlaps no other. The inline calls of `include/boruvka.h` return it.
    Overlap,
}

impl CallRefusal {
    // The code and the text of each error. The text for an invalid line is the name that the program prints.
    fn row(self) -> (i64, &'static [u8])
        ensures code { result.0 ≡ code_of self }
        ensures text { result.1.now ≡ refusal_text self }
    {
        match self {
            CallRefusal::NoMemory => (-1, b"no memory"),
            CallRefusal::BadEnd => (-2, b"an endpoint isn't a vertex"),
            CallRefusal::TooManyVertices => (-3, b"too many vertices"),
            CallRefusal::TooManyLinks => (-4, b"too many links"),
            CallRefusal::TooLong => (-5, b"the text is too long"),
            CallRefusal::Line(GrKind::UnknownLine) => (-6, b"UnknownLine"),
            CallRefusal::Line(GrKind::NoProblemYet) => (-7, b"NoProblemYet"),
            CallRefusal::Line(GrKind::SecondProblem) => (-8, b"SecondProblem"),
            CallRefusal::Line(GrKind::BadProblem) => (-9, b"BadProblem"),
            CallRefusal::Line(GrKind::TooLarge) => (-10, b"TooLarge"),
            CallRefusal::Line(GrKind::BadArc) => (-11, b"BadArc"),
            CallRefusal::Line(GrKind::EndOutOfRange) => (-12, b"EndOutOfRange"),
            CallRefusal::Line(GrKind::WeightOutOfRange) => (-13, b"WeightOutOfRange"),
            CallRefusal::Line(GrKind::TooManyArcs) => (-14, b"TooManyArcs"),
            CallRefusal::Line(GrKind::MissingProblem) => (-15, b"MissingProblem"),
            CallRefusal::Line(GrKind::MissingArcs) => (-16, b"MissingArcs"),
            CallRefusal::LengthsDiffer => (-17, b"array lengths differ"),
            CallRefusal::TooFewPlaces => (-18, b"the output array is too small"),
            CallRefusal::Cycle => (-19, b"links contain a cycle"),
            CallRefusal::Descending => (-20, b"links aren't sorted by weight"),
            CallRefusal::Overlap => (-21, b"an output overlaps an input"),
        }
    }

    /// The code, a negative number.
    pub fn code(self) -> i64
        ensures { result ≡ code_of self }
    {
        self.row().0
    }

    pub(crate) fn text(self) -> &'static [u8]
        ensures { result.now ≡ refusal_text self }
    {
        self.row().1
    }

    // The error that has this code.
    pub(crate) fn of_code(code: i64) -> Option<CallRefusal>
        ensures { MatchOption result ((why : CallRefusal) → code ≢ code_of why) (λ why. code ≡ code_of why) }
    {
        Some(match code {
            -1 => CallRefusal::NoMemory,
            -2 => CallRefusal::BadEnd,
            -3 => CallRefusal::TooManyVertices,
            -4 => CallRefusal::TooManyLinks,
            -5 => CallRefusal::TooLong,
            -6 => CallRefusal::Line(GrKind::UnknownLine),
            -7 => CallRefusal::Line(GrKind::NoProblemYet),
            -8 => CallRefusal::Line(GrKind::SecondProblem),
            -9 => CallRefusal::Line(GrKind::BadProblem),
            -10 => CallRefusal::Line(GrKind::TooLarge),
            -11 => CallRefusal::Line(GrKind::BadArc),
            -12 => CallRefusal::Line(GrKind::EndOutOfRange),
            -13 => CallRefusal::Line(GrKind::WeightOutOfRange),
            -14 => CallRefusal::Line(GrKind::TooManyArcs),
            -15 => CallRefusal::Line(GrKind::MissingProblem),
            -16 => CallRefusal::Line(GrKind::MissingArcs),
            -17 => CallRefusal::LengthsDiffer,
            -18 => CallRefusal::TooFewPlaces,
            -19 => CallRefusal::Cycle,
            -20 => CallRefusal::Descending,
            -21 => CallRefusal::Overlap,
            _ => return None,
        })
    }
}
