use thiserror::Error;

/// Why a board couldn't be opened or closed.
#[derive(Clone, Copy, Debug, PartialEq, Eq, Error)]
pub enum BoardFault {
    /// Out of memory.
    #[error("no memory for the board")]
    Memory,
    /// The table of words couldn't be made for another reason. Today no call returns this error, because `atomic_table`
    /// fails only if it is out of memory.
    #[error("the board's table was refused")]
    NoTable,
}
