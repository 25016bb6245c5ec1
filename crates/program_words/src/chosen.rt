//! What the arguments of the command line ask for.
ghost use Rattle.program_words.specs.Arguments.{IsCauseOf};

use clap::error::ErrorKind;
use std::alloc::AllocError;

/// The greatest number of threads that can be requested.
pub const MAX_THREADS: u32 = 64;

/// What the arguments ask for.
#[derive(Debug, Drop)]
pub struct Options {
    /// The number of workers that scan the shards: 0 to 64.
    pub workers: u32,
    /// The number of shards that the edges are split into: 1 to 4,096.
    pub shards: u32,
    /// Whether the forest is found without workers.
    pub plain: bool,
    /// The most threads that find the forest without workers: 1 to 64.
    pub threads: u32,
    /// Whether the report is printed to standard error.
    pub report: bool,
    /// Whether the number of bytes read is printed to standard error.
    pub progress: bool,
    /// The files to read, at most [`MAX_FILES`](plain_run::MAX_FILES). `None` is standard input, which is also read if
    /// there is no file.
    pub files: Vec<Option<String>>,
}

/// Why the arguments can't be carried out.
#[derive(Debug, Drop)]
pub enum OptionsFault {
    /// The arguments are invalid, or ask for the help or the version. The error has the text to print.
    Usage(clap::Error),
    /// There was no memory to check the arguments or to store what they ask for.
    Memory,
}

impl From<clap::Error> for OptionsFault {
    ghost from_gives = { IsCauseOf };

    fn from(error: clap::Error) -> Self
        ensures { IsCauseOf error result }
    {
        if error.kind() == ErrorKind::OutOfMemory {
            return OptionsFault::Memory;
        }
        OptionsFault::Usage(error)
    }
}

impl From<AllocError> for OptionsFault {
    ghost use Rattle.std.specs.Prelude.{◌≡◌};
    ghost use Rattle.program_words.specs.declared.chosen.OptionsFault.TheVariants.{Memory};

    ghost from_gives = { λ _ fault. fault ≡ Memory };

    fn from(_error: AllocError) -> Self {
        OptionsFault::Memory
    }
}
