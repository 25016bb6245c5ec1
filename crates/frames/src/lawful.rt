ghost use Rattle.std.specs.Prelude.{◌↔◌, All, IsTrue};
ghost use Rattle.frames.specs.FrameValue.{value_of};
ghost use Rattle.frames.specs.Lawful.{IsU32, IsLawful, IsHello, IsShard, IsAsk, IsAnswer, IsFault};

use crate::frame::{Frame, VERSION};
use limits::{MAX_SHARD_LINKS, MAX_SHARDS, MAX_WORKERS};
use links::{Labels, Link, Offers};
use std::alloc::Allocator;

impl<A: Allocator> Frame<A> {
    /// Whether the frame obeys the rules of the protocol, so that it has a text.
    ///
    /// - A hello has version 1 or 2, and a worker below 64.
    /// - A shard has a number below 4,096, and at most 2^24 links.
    /// - An ask is for a shard below 4,096.
    /// - An answer has at most 2^25 offers.
    /// - A fault has code 1, 2 or 3.
    ///
    /// It allocates nothing. For an answer it reads the offers once. It doesn't read links or labels, since their types
    /// ensure their rules.
    pub fn is_lawful(&self) -> bool
        ensures { IsTrue result ↔ IsLawful (value_of self.now) }
    {
        match self {
            Frame::Hello { version, worker } => is_hello(*version, *worker),
            Frame::Shard { number, links } => is_shard(*number, links.as_slice()),
            Frame::Ask {
                round,
                shard,
                labels,
            } => is_ask(*round, *shard, labels),
            Frame::Answer(answer) => is_answer(answer.round, answer.shard, &answer.offers),
            Frame::Fault { round, shard, code } => is_fault(*round, *shard, *code),
        }
    }
}

fn is_hello(version: u16, worker: u32) -> bool
    ensures { IsTrue result ↔ IsHello version worker }
{
    1 <= version && version <= VERSION && worker < MAX_WORKERS
}

fn is_shard(number: u32, links: &[Link]) -> bool
    ensures { IsTrue result ↔ IsShard number links.now }
{
    (number as usize) < MAX_SHARDS && links.len() <= MAX_SHARD_LINKS
}

fn is_ask<A: Allocator>(round: u32, shard: u32, labels: &Labels<A>) -> bool
    ensures { IsTrue result ↔ IsAsk round shard labels.now }
{
    let _labels = labels.as_slice();
    (shard as usize) < MAX_SHARDS
}

fn is_answer<A: Allocator>(round: u32, shard: u32, offers: &Offers<A>) -> bool
    ensures { IsTrue result
        ↔ IsAnswer (record { round = round; shard = shard; offers = offers.now }) }
{
    let offers = offers.pairs();
    see_offers(offers);
    offers.len() <= 2 * MAX_SHARD_LINKS
}

fn is_fault(round: u32, shard: u32, code: u8) -> bool
    ensures { IsTrue result ↔ IsFault round shard code }
{
    1 <= code && code <= 3
}

// Reads each offer, because a proof knows that a number fits its type only where the code reads it. A compiler may
// remove the loop, since it has no effect.
fn see_offers(offers: &[(u32, u32)])
    ensures { All (λ o. IsU32 o.0 × IsU32 o.1) offers.now }
{
    for offer in offers {
        see_offer(*offer);
    }
}

fn see_offer(offer: (u32, u32))
    ensures { IsU32 offer.0 × IsU32 offer.1 }
{
    let _seen = offer;
}
