//! The client of a worker: what was exchanged with it so far, and how to make one ask.
ghost use Rattle.std.specs.Prelude.{◌≡◌, ℕ, ◌<◌, length, IfOk, IfErr};
ghost use Rattle.frames.specs.Lawful.{IsShard, IsAsk};
ghost use Rattle.links.specs.Cut.{links_at};
ghost use Rattle.wires.specs.Lines.{HasRoom};
ghost use Rattle.wires.specs.Causes.{Cause};
ghost use Rattle.wires.specs.Clients.{AnswersOverLine};

use crate::line::Line;
use crate::line_source::LineSource;
use crate::steps::{check_version, greet, hear_answer, send_ask, send_shard};
use claim_board::ShardSet;
use links::{Answer, Cut, Labels};
use round_theory::PortFault;
use std::alloc::Allocator;
use std::marker::Model;

/// The client of a worker, over a line that it owns.
///
/// It has the cut whose shards are asked about, and the version in the hello, if that came. It also has a bit for each
/// shard that was sent, and a buffer for the puts of a shard.
#[derive(Drop)]
pub struct Client<'a, L, A: Allocator> {
    pub alloc: A,
    pub source: LineSource<L>,
    pub cut: &'a Cut<'a, A>,
    pub worker: u32,
    pub version: Option<u16>,
    pub sent: ShardSet,
    pub text: Vec<u8, A>,
}

impl<'a, L, A: Allocator> Model for Client<'a, L, A> {
    ghost use Rattle.std.specs.Prelude.{IfSome};
    ghost use Rattle.frames.specs.Lawful.{IsVersion};
    ghost use Rattle.wires.specs.Clients.{ClientState};

    ghost Value = { ClientState L };

    ghost view = { λ s. record { line = s.source.line; cut = s.cut.now; worker = s.worker; version = s.version; sent = s.sent } };

    ghost invariant = { λ s. IfSome s.version IsVersion };
}

impl<'a, L: Line, A: Allocator + Copy> Client<'a, L, A> {
    // Makes one ask, and reads the hello before the first one.
    pub fn ask(
        &mut self,
        round: u32,
        shard: u32,
        labels: &Labels<A>,
    ) -> Result<Answer<A>, PortFault>
        requires can { HasRoom (L.state self.old.line) }
        requires shard { shard < length self.old.cut }
        ensures asked { IfOk result
            (λ a. AnswersOverLine L.state round shard labels.now a self.old self.new) }
        ensures cause { IfErr result
            (λ e. Cause L.state e round shard labels.now self.old self.new) }
        ensures cut { self.new.cut ≡ self.old.cut }
        ensures worker { self.new.worker ≡ self.old.worker }
        ensures faithful { (w : ℕ) → L.faithful self.old.line w → L.faithful self.new.line w }

        ensures shard_lawful { IsShard shard (links_at self.old.cut shard) }
        ensures ask_lawful { IsAsk round shard labels.now }
    {
        // A proof knows that a cut has few shards, and that labels obey their rules, only where the code reads them.
        let _are_few = self.cut.len();
        let _are_labels = labels.as_slice();
        let part = self.cut.shard(shard);
        let version = greet(self.alloc, &mut self.source, self.version, self.worker)?;
        self.version = Some(version);
        check_version(version, &self.sent, &part)?;
        send_shard(&mut self.source.line, &mut self.text, &mut self.sent, &part)?;
        send_ask(self.alloc, &mut self.source.line, round, shard, labels)?;
        hear_answer(self.alloc, &mut self.source)
    }
}
