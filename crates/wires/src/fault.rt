use thiserror::Error;

/// Why a call of a line failed.
#[derive(Clone, Copy, Debug, PartialEq, Eq, Error)]
pub enum LineFault {
    /// The device failed in this call.
    #[error("line failed")]
    Failed,
}
