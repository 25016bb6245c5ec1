//! The exit statuses of the program.
ghost use Rattle.std.specs.Prelude.{◌≡◌};
ghost use Rattle.program_words.specs.Statuses.{status_for, status_for_part};

use gr_text::ReadFault;
use links::CutFault;
use plain_run::{PartFault, RunFault};

/// The arguments are invalid.
pub const USAGE: u8 = 2;

/// A stream or a file failed.
pub const DEVICE: u8 = 3;

/// There was no memory.
pub const MEMORY: u8 = 4;

/// An answer that came in the rounds was wrong.
pub const ANSWERS: u8 = 5;

/// The exit status of a run that failed. It is 1 for an invalid file and for a split into shards that isn't allowed,
/// and 3 for a source or a sink that failed. It is 4 for out of memory and 5 for rounds with wrong answers.
pub fn status_of(fault: &RunFault) -> u8
    ensures { result ≡ status_for fault.now }
{
    match fault {
        RunFault::Read(ReadFault::Memory) | RunFault::Cut(CutFault::Memory) | RunFault::Memory =>
            MEMORY,
        RunFault::Read(ReadFault::Gr(_)) | RunFault::Read(ReadFault::TooLong) => 1,
        RunFault::Cut(_) => 1,
        RunFault::Read(ReadFault::Source { .. }) | RunFault::Write { .. } => DEVICE,
        RunFault::Rounds { .. } | RunFault::Missed { .. } => ANSWERS,
    }
}

/// The exit status for a file that can't be part of the graph: the status of a run with the same error, or 1 for
/// another number of vertices.
pub fn status_of_part(fault: &PartFault) -> u8
    ensures { result ≡ status_for_part fault.now }
{
    match *fault {
        PartFault::Read(why) => status_of(&RunFault::Read(why)),
        PartFault::OtherVertices { .. } => 1,
    }
}
