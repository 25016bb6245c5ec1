ghost use Rattle.std.specs.Prelude.{◌≡◌};
ghost use Rattle.round_theory.specs.declared.fault.PortFault.TheVariants.{Memory};

use std::alloc::AllocError;
use thiserror::Error;

/// Why a port gave no answer. After each of these errors the port is closed.
#[derive(Clone, Copy, Debug, PartialEq, Eq, Error)]
pub enum PortFault {
    /// During this ask the line failed or ended, before a frame or within one.
    #[error("line is down")]
    Down,
    /// During this ask the port received bytes that begin no frame, or a frame that is neither an answer nor a fault.
    #[error("line is garbled")]
    Garbled,
    /// The first frame isn't the hello of this port's worker.
    #[error("hello of another worker")]
    WrongHello,
    /// The worker sent a fault frame with this code: 1 if it is out of memory, 2 if it doesn't have the shard, 3 if a
    /// link's endpoint is past the end of the labels.
    #[error("worker gave code {0}")]
    Gave(u8),
    /// Out of memory in this process. The line neither failed nor ended during this ask.
    #[error("no memory")]
    Memory,
    /// The port was already closed before the call, and nothing was sent.
    #[error("port is closed")]
    Closed,
    /// The worker has the first version of the protocol, which has no frame for this shard because a weight doesn't fit
    /// 32 bits. Nothing was sent for the shard.
    #[error("worker is too old for 64-bit weights")]
    TooOld,
}

impl From<AllocError> for PortFault {
    ghost from_gives = { λ _ e. e ≡ Memory };

    fn from(_e: AllocError) -> PortFault {
        PortFault::Memory
    }
}
