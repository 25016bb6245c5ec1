/// The result of a claim.
#[derive(Clone, Copy, Debug, PartialEq, Eq)]
pub enum Claim {
    /// The shard was free, and now belongs to the seat.
    Won,
    /// The seat with this number, which may be the caller's own, owned the shard at that step. Nothing changed.
    Held(u32),
}
