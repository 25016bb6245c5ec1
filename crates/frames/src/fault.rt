ghost use Rattle.std.specs.Prelude.{◌≡◌};
ghost use Rattle.frames.specs.declared.fault.FrameFault.TheVariants.{Memory};

use std::alloc::{AllocError, AllocFailed};
use thiserror::Error;

/// Why a frame couldn't be read.
#[derive(Clone, Copy, Debug, PartialEq, Eq, Error)]
pub enum FrameFault {
    /// The kind isn't 1 to 6.
    #[error("frame of an unknown kind")]
    BadKind,
    /// No body of this kind has this length.
    #[error("frame of an impossible length")]
    BadLength,
    /// A field of the body is unlawful.
    #[error("frame with an unlawful field")]
    BadField,
    /// A hello has a version other than 1 and 2.
    #[error("hello of another version")]
    BadVersion,
    /// The stream ended before the frame's first byte.
    #[error("stream ended before a frame")]
    Ended,
    /// The stream ended within the frame.
    #[error("stream ended inside a frame")]
    Torn,
    /// A read failed.
    #[error("read failed")]
    Device,
    /// An allocation failed.
    #[error("no memory")]
    Memory,
}

impl From<AllocError> for FrameFault {
    ghost from_gives = { λ _ e. e ≡ Memory };

    fn from(_e: AllocError) -> FrameFault {
        FrameFault::Memory
    }
}

impl<T: Drop> From<AllocFailed<T>> for FrameFault {
    ghost from_gives = { λ _ e. e ≡ Memory };

    fn from(_e: AllocFailed<T>) -> FrameFault {
        FrameFault::Memory
    }
}
