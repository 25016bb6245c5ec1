//! What the definitions alone promise. Each law is the contract of a function that does nothing.
ghost use Rattle.worker_replies.specs.Laws.{CodeOneWhereKept, OneReply, PrefixHasPrefixReplies, RepliesAreLawful};

/// Whatever a session of any version may write for a stream begins with something that it may write for any given
/// prefix of the stream.
pub fn prefix_has_prefix_replies()
    ensures { PrefixHasPrefixReplies }
{}

/// What a session of any version may write is its hello and the texts of lawful frames.
pub fn replies_are_lawful()
    ensures { RepliesAreLawful }
{}

/// There is one reply to an ask. Code 1 may replace it exactly if the shard is stored.
pub fn replies_to_an_ask()
    ensures one { OneReply }
    ensures code_one { CodeOneWhereKept }
{}
