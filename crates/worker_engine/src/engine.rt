//! A worker's engine, which stores shards and replies to asks.
ghost use Rattle.std.specs.Prelude.{◌≡◌, [], IfOk, OnOk, OnErr, true};
ghost use Rattle.frames.specs.FrameValue.{value_of, ShardFrame, FaultFrame};
ghost use Rattle.frames.specs.Lawful.{IsLawful, IsShard, IsAsk};
ghost use Rattle.worker_replies.specs.Serving.{shelf_of, shelf_with};
ghost use Rattle.links.specs.Labels.{Coarsens};
ghost use Rattle.shard_scans.specs.Live.{IsAllLive};
ghost use Rattle.worker_engine.specs.Shelves.{shelf_list, IsReplyWith, AreAllLive, AreAllUnder, KeepsShards, Replies, Hears};

mod hearing;
mod threads;

use frames::{Answer, Frame, Links};
use links::{Labels, Offers};
use shard_scans::{KeptShard, Scanner};
use std::alloc::{AllocError, Allocator, Global};
use std::collections::BTreeMap;
use std::marker::Model;

/// The code of a fault if the worker is out of memory.
pub const NO_MEMORY: u8 = 1;

/// The code of a fault for a shard that isn't stored.
pub const NOT_KEPT: u8 = 2;

/// The code of a fault for a link with an endpoint that has no label.
pub const NO_LABEL: u8 = 3;

/// What a worker stores between frames: the last shard that it got under each number, and the tables of its last scan.
/// Contracts see which links are stored under which number.
///
/// Each shard is a [`KeptShard`], whose documentation says how much memory it takes. All shards are scanned by one
/// scanner. The engine also stores the labels of the last ask, 4 bytes per vertex. If the labels of an ask don't
/// coarsen them, the lists of live links are freed, and all links are live again.
#[derive(Drop)]
pub struct Engine<A: Allocator = Global> {
    shards: BTreeMap<u32, KeptShard<A>, A>,
    // the labels of the last ask, and at first those of no vertices
    labels: Labels<A>,
    scanner: Scanner<A>,
}

impl<A: Allocator> Model for Engine<A> {
    ghost use Rattle.worker_replies.specs.Serving.{ShelfList};
    ghost use Rattle.worker_engine.specs.Shelves.{shelf_list, AreAllUnder};

    ghost Value = { ShelfList };

    ghost view = { λ e. shelf_list e.shards.entries };

    ghost invariant = { λ e. AreAllUnder e.labels e.shards.entries };
}

impl<A: Allocator + Copy> Engine<A> {
    /// An engine that stores nothing. It allocates nothing.
    pub fn new(alloc: A) -> Self
        ensures empty { result ≡ [] }
    {
        Engine {
            shards: BTreeMap::new(alloc),
            labels: Labels::of_known(Vec::new(alloc)),
            scanner: Scanner::new(alloc),
        }
    }

    /// Takes one frame, and returns the reply to it: one to an ask, and `None` for any other frame.
    ///
    /// A shard is stored under its number, without a copy, and replaces an earlier one. The reply to an ask is the
    /// answer with the light offers of its shard, or a fault: [`NOT_KEPT`] if no such shard is stored, and otherwise
    /// [`NO_LABEL`] if an endpoint of a link is greater than the number of labels.
    ///
    /// An ask takes the time of a scan, memory for the offers, and 4 bytes per label that the shard's live links have.
    /// The first ask about a shard also makes the list of its live links. A later one takes 4 bytes per label that they
    /// had before, until it returns. The scanner's tables are reused. The call fails only if it is out of memory, for a
    /// shard or for an ask about a stored shard; the engine is unchanged then.
    pub fn hear(&mut self, frame: Frame<A>) -> Result<Option<Frame<A>>, AllocError>
        requires lawful { IsLawful (value_of frame) }
        ensures hears { Hears (value_of frame) result self.old self.new }
    {
        match frame {
            Frame::Shard { number, links } => {
                self.keep(number, links)?;
                Ok(None)
            }
            Frame::Ask {
                round,
                shard,
                labels,
            } => {
                let reply = self.reply(Ask { round, shard }, labels)?;
                Ok(Some(reply))
            }
            Frame::Hello { .. } | Frame::Answer(_) | Frame::Fault { .. } => Ok(None),
        }
    }

    // Stores a shard's links under its number, and replaces earlier ones.
    fn keep(&mut self, number: u32, links: Links<A>) -> Result<(), AllocError>
        requires { IsShard number links }
        ensures kept { OnOk result (shelf_of self.new ≡ shelf_with (shelf_of self.old) (ShardFrame number links)) }
        ensures unchanged { OnErr result (self.new ≡ self.old) }
    {
        let kept = KeptShard::new(links.into_list());
        self.shards.insert(number, kept)?;
        Ok(())
    }

    // Replies to an ask, and stores its labels.
    fn reply(&mut self, ask: Ask, labels: Labels<A>) -> Result<Frame<A>, AllocError>
        requires { IsAsk ask.round ask.shard labels }
        ensures replies { Replies (shelf_of self.old ask.shard) ask.round ask.shard labels result }
        ensures unchanged { self.new ≡ self.old }
    {
        make_live(&mut self.shards, &labels, &self.labels);
        self.labels = labels;
        reply_under(&mut self.shards, &mut self.scanner, &self.labels, ask)
    }
}

#[derive(Clone, Copy)]
struct Ask {
    round: u32,
    shard: u32,
}

impl Ask {
    // The reply with these offers, or a fault if an endpoint of a link has no label.
    fn reply_with<A: Allocator>(self, offers: Option<Offers<A>>) -> Frame<A>
        ensures { IsReplyWith self.round self.shard offers (value_of result) }
    {
        let Ask { round, shard } = self;
        match offers {
            Some(offers) => Frame::Answer(Answer {
                round,
                shard,
                offers,
            }),
            None => self.fault(NO_LABEL),
        }
    }

    // This reply, or a fault if there was no memory for it.
    fn reply_or_fault<A: Allocator>(self, reply: Result<Frame<A>, AllocError>) -> Frame<A>
        ensures reply { IfOk reply (λ reply. result ≡ reply) }
        ensures fault { OnErr reply (value_of result ≡ FaultFrame self.round self.shard 1) }
    {
        match reply {
            Ok(reply) => reply,
            Err(_) => self.fault(NO_MEMORY),
        }
    }

    fn fault<A: Allocator>(self, code: u8) -> Frame<A>
        ensures { value_of result ≡ FaultFrame self.round self.shard code }
    {
        Frame::Fault {
            round: self.round,
            shard: self.shard,
            code,
        }
    }
}

// The reply to an ask under the labels under which the stored links are live.
fn reply_under<A: Allocator + Copy>(
    shards: &mut BTreeMap<u32, KeptShard<A>, A>,
    scanner: &mut Scanner<A>,
    labels: &Labels<A>,
    ask: Ask,
) -> Result<Frame<A>, AllocError>
    requires ask { IsAsk ask.round ask.shard labels.now }
    requires live { AreAllUnder labels.now shards.old.entries }
    ensures replies { Replies (shelf_of (shelf_list shards.old.entries) ask.shard) ask.round ask.shard labels.now result }
    ensures keeps { KeepsShards labels.now shards.old.entries shards.new.entries }
{
    let Some(kept) = shards.get_mut(&ask.shard) else {
        return Ok(ask.fault(NOT_KEPT));
    };
    let offers = kept.offers(scanner, labels)?;
    Ok(ask.reply_with(offers))
}

// Makes all links of all shards live, unless the labels coarsen those under which they are live.
fn make_live<A: Allocator>(
    shards: &mut BTreeMap<u32, KeptShard<A>, A>,
    labels: &Labels<A>,
    last: &Labels<A>,
)
    requires { AreAllUnder last.now shards.old.entries }
    ensures keeps { KeepsShards labels.now shards.old.entries shards.new.entries }
    ensures stays { Coarsens labels.now last.now → shards.new ≡ shards.old }
{
    if !labels.coarsens(last) {
        make_all_live(shards);
    }
}

fn make_all_live<A: Allocator>(shards: &mut BTreeMap<u32, KeptShard<A>, A>)
    ensures shelf { shelf_list shards.new.entries ≡ shelf_list shards.old.entries }
    ensures live { AreAllLive shards.new.entries }
{
    shards.retain(
        |_: &u32, kept: &mut KeptShard<A>| -> bool
            ensures { (result ≡ true) × (kept.exit.now.links ≡ kept.entry.now.links) × IsAllLive kept.exit.now }
        {
            kept.make_all_live();
            true
        },
    );
}
