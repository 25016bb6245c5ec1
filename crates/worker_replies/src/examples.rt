//! A worked example: the streams that a worker of version 1 may write exist.
ghost use Rattle.worker_replies.specs.Examples.{FirstVersionReplies, FirstVersionEnds};

/// A worker of version 1 replies with code 2 to an ask of a shard that it doesn't have. The frame of a shard of which a
/// weight doesn't fit 32 bits ends its session.
pub fn first_version()
    ensures replies { FirstVersionReplies }
    ensures ends { FirstVersionEnds }
{}
