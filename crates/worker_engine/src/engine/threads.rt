//! Replies to asks with scans by threads.
ghost use Rattle.std.specs.Prelude.{◌≡◌};
ghost use Rattle.frames.specs.FrameValue.{value_of};
ghost use Rattle.frames.specs.Lawful.{IsLawful, IsAsk};
ghost use Rattle.worker_replies.specs.Serving.{shelf_of};
ghost use Rattle.worker_engine.specs.Shelves.{shelf_list, AreAllUnder, KeepsShards, Replies, Hears};

use super::{Ask, Engine, NOT_KEPT, make_live};
use frames::Frame;
use links::Labels;
use shard_scans::{KeptShard, Scanner};
use std::alloc::{AllocError, Allocator};
use std::collections::BTreeMap;
use std::thread::Threads;

impl<A: Allocator + Copy + Send + Sync> Engine<A> {
    /// Takes one frame as [`hear`](Engine::hear) does, but the first scan of a shard is done by threads, as in
    /// [`scan_par`](crate::scan_par).
    ///
    /// A scan by threads takes memory for the offers and for a table of each part; any other ask takes what it takes in
    /// `hear`. The call fails only if it is out of memory, for a shard or for an ask about a stored shard; the engine
    /// is unchanged then.
    pub fn hear_par<R: Threads + Sync>(
        &mut self,
        rt: &R,
        frame: Frame<A>,
    ) -> Result<Option<Frame<A>>, AllocError>
        requires lawful { IsLawful (value_of frame) }
        ensures hears { Hears (value_of frame) result self.old self.new }
    {
        match frame {
            Frame::Ask {
                round,
                shard,
                labels,
            } => {
                let reply = self.reply_par(rt, Ask { round, shard }, labels)?;
                Ok(Some(reply))
            }
            Frame::Hello { .. } | Frame::Shard { .. } | Frame::Answer(_) | Frame::Fault { .. } =>
                self.hear(frame),
        }
    }

    pub(super) fn reply_par<R: Threads + Sync>(
        &mut self,
        rt: &R,
        ask: Ask,
        labels: Labels<A>,
    ) -> Result<Frame<A>, AllocError>
        requires { IsAsk ask.round ask.shard labels }
        ensures replies { Replies (shelf_of self.old ask.shard) ask.round ask.shard labels result }
        ensures unchanged { self.new ≡ self.old }
    {
        make_live(&mut self.shards, &labels, &self.labels);
        self.labels = labels;
        reply_under_par(rt, &mut self.shards, &mut self.scanner, &self.labels, ask)
    }
}

pub(super) fn reply_under_par<R: Threads + Sync, A: Allocator + Copy + Send + Sync>(
    rt: &R,
    shards: &mut BTreeMap<u32, KeptShard<A>, A>,
    scanner: &mut Scanner<A>,
    labels: &Labels<A>,
    ask: Ask,
) -> Result<Frame<A>, AllocError>
    requires ask { IsAsk ask.round ask.shard labels.now }
    requires live { AreAllUnder labels.now shards.old.entries }
    ensures replies { Replies (shelf_of (shelf_list shards.old.entries) ask.shard) ask.round ask.shard labels.now result }
    ensures keeps { KeepsShards labels.now shards.old.entries shards.new.entries }
{
    let Some(kept) = shards.get_mut(&ask.shard) else {
        return Ok(ask.fault(NOT_KEPT));
    };
    let offers = kept.offers_par(rt, scanner, labels)?;
    Ok(ask.reply_with(offers))
}
