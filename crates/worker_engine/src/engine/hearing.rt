//! Reads the next frame of a stream and takes it.
ghost use Rattle.std.specs.Prelude.{IfOk, IfErr, OnOk};
ghost use Rattle.frames.specs.FrameStream.{AreLawful};
ghost use Rattle.worker_replies.specs.Serving.{shelf_of, replies_in};
ghost use Rattle.worker_engine.specs.Served.{HearsNext, HearsNone};

use super::threads::reply_under_par;
use super::{Ask, Engine};
use crate::session::ServeFault;
use byte_streams::Source;
use frames::{Frame, NextFrame, read_next};
use std::alloc::Allocator;
use std::thread::Threads;

impl<A: Allocator + Copy + Send + Sync> Engine<A> {
    // Reads the next frame of a stream and takes it, as `hear_par` does. If there is no memory to reply to an ask, the
    // reply is a fault with the code `NO_MEMORY`, which needs none.
    //
    // An ask under the labels of the last one is answered under the stored labels, without a copy or a check of them.
    // Labels that coarsen those were checked as they arrived, and the lists of live links stay.
    pub(crate) fn hear_next<R: Threads + Sync, S: Source>(
        &mut self,
        rt: &R,
        alloc: A,
        source: &mut S,
    ) -> Result<Option<Frame<A>>, ServeFault>
        requires can { S.can_read source.old }
        ensures hears { IfOk result
            (λ reply. HearsNext (replies_in reply) (shelf_of self.old) (shelf_of self.new) (S.state source.old) (S.state source.new)) }
        ensures lawful { IfOk result (λ reply. AreLawful (replies_in reply)) }
        ensures stops { IfErr result (λ fault. HearsNone fault (S.state source.old) (S.state source.new)) }
        ensures again { OnOk result (S.can_read source.new) }
    {
        match read_next(alloc, source, self.labels.as_slice()) {
            Ok(NextFrame::AskAgain { round, shard }) => {
                let ask = Ask { round, shard };
                let reply = reply_under_par(
                    rt,
                    &mut self.shards,
                    &mut self.scanner,
                    &self.labels,
                    ask,
                );
                Ok(Some(ask.reply_or_fault(reply)))
            }
            Ok(
                NextFrame::AskCoarser {
                    round,
                    shard,
                    labels,
                },
            ) => {
                self.labels = labels;
                let asked = Ask { round, shard };
                let reply = reply_under_par(
                    rt,
                    &mut self.shards,
                    &mut self.scanner,
                    &self.labels,
                    asked,
                );
                Ok(Some(asked.reply_or_fault(reply)))
            }
            Ok(
                NextFrame::Other(
                    Frame::Ask {
                        round,
                        shard,
                        labels,
                    },
                ),
            ) => {
                let other = Ask { round, shard };
                let reply = self.reply_par(rt, other, labels);
                Ok(Some(other.reply_or_fault(reply)))
            }
            Ok(NextFrame::Other(frame)) => match self.hear(frame) {
                Ok(reply) => Ok(reply),
                Err(_) => Err(ServeFault::Memory),
            },
            Err(fault) => Err(ServeFault::Read(fault)),
        }
    }
}
