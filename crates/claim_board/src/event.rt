/// What a seat did at one atomic step on the word of one shard. Events occur only in contracts: no value is ever made.
pub enum Event {
    /// The shard was free. From now on the seat owns it.
    Win { seat: u32, shard: u32 },
    /// The seat claimed a shard that was owned by `by`, which may be the seat itself.
    Turned { seat: u32, shard: u32, by: u32 },
    /// The seat owned the shard. From now on the shard is free.
    GiveBack { seat: u32, shard: u32 },
}
