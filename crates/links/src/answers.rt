use crate::offered::Offers;
use std::alloc::{Allocator, Global};
use std::marker::Model;

/// What a worker sends back when it is asked about a shard in a round: for some components, the index of a link in the
/// shard.
///
/// The round and the shard should be those that were asked about. There should be one offer for each component that a
/// link of the shard leaves, with the index of the least such link. Workers do this, but this type doesn't check it.
#[derive(Drop)]
pub struct Answer<A: Allocator = Global> {
    pub round: u32,
    pub shard: u32,
    pub offers: Offers<A>,
}

impl<A: Allocator> Model for Answer<A> {
    ghost use Rattle.links.specs.AnswerValue.{AnswerValue};

    ghost Value = { AnswerValue };

    ghost view = { λ s. record { round = s.round; shard = s.shard; offers = s.offers } };
}
