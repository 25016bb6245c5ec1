//! What the definitions alone promise, as the contract of a function that does nothing.
ghost use Rattle.shard_scans.specs.Live.{LiveUnderCoarser};

/// The links that are live under labels are live under labels that coarsen them.
pub fn live_under_coarser()
    ensures { LiveUnderCoarser }
{}
