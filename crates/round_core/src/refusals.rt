use thiserror::Error;

/// Why an answer is rejected, in the order in which the causes are checked.
#[derive(Clone, Copy, Debug, PartialEq, Eq, Error)]
pub enum Refusal {
    /// It names another round.
    #[error("answer of another round")]
    Stale,
    /// It names another shard than the one asked about.
    #[error("answer for another shard")]
    Stranger,
    /// An answer for that shard was taken before.
    #[error("second answer for a shard")]
    Double,
    /// It offers an index outside the shard, or a link that doesn't have exactly one endpoint in the named component.
    #[error("offer of no outgoing link")]
    NotALink,
}
