/// How to split a list of links into shards.
#[derive(Clone, Copy, Debug, PartialEq, Eq)]
pub enum Cutting<'a> {
    /// Into this many shards, whose sizes differ by at most one link.
    Even(u32),
    /// Before the links at these indices, so that there is one shard more than indices.
    At(&'a [usize]),
}
