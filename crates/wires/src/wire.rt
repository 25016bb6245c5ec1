//! A port over a line.
ghost use Rattle.std.specs.Prelude.{◌≡◌, ◌+◌, ◌-◌, ◌<◌, ◌≤◌, ◌^◌, true, false, [], length, IfOk, IfErr, OnErr};
ghost use Rattle.links.specs.Link.{EndsUpTo};
ghost use Rattle.links.specs.Cut.{links_at};
ghost use Rattle.wires.specs.Lines.{LineState, HasRoom, IsFresh, HasKnownBytes};
ghost use Rattle.round_theory.specs.Exchanges.{exchange_of, KeepsExchanges, AddsExchange, StaysSound, StaysSoundWith};
ghost use Rattle.round_theory.specs.Ports.{CountsAsks, AnswersAsk, IsHonestAnswer, failure_of, want_of};
ghost use Rattle.wires.specs.Causes.{IsBlameless};
ghost use Rattle.wires.specs.Clients.{AnswersOverLine};
ghost use Rattle.wires.specs.Wires.{port_of, IsNewWire, IsCountedWire, IsSoundWire, ServesWire, IsHonestWire, WireExchanged, WireCause};

use crate::client::Client;
use crate::line::Line;
use crate::line_source::LineSource;
use claim_board::ShardSet;
use limits::MAX_WORKERS;
use links::{Answer, Cut, Labels};
use round_theory::{Port, PortFault};
use std::alloc::Allocator;
use std::marker::Model;

/// A port that asks a worker over a line, which it owns.
///
/// Its first ask reads the worker's hello. A shard is sent before the first ask about it, and never again, in puts of
/// at most 64 KiB each; a frame of at most that size is one put. An ask is one put. Labels of 64 KiB or more that store
/// their bytes ([`Labels::spell`]) are a second put, without a copy. Other labels are encoded at each ask.
///
/// Every error closes the wire for good, even a lack of memory. The wire takes 512 bytes for which shards were sent,
/// whatever the cut, and less than 128 KiB for the puts of a shard.
#[derive(Drop)]
pub struct Wire<'a, L: Line, A: Allocator> {
    client: Client<'a, L, A>,
    is_open: bool,
    asks: u64,
    failures: u64,
    wants: u64,
    last_round: u32,
    last_shard: u32,
}

impl<'a, L: Line, A: Allocator> Model for Wire<'a, L, A> {
    ghost use Rattle.wires.specs.Wires.{WireState, IsWire};

    ghost Value = { WireState L };

    ghost view = { λ s. record {
      client = s.client;
      is_open = s.is_open;
      asks = s.asks;
      failures = s.failures;
      wants = s.wants;
      last = (s.last_round, s.last_shard);
    } };

    ghost invariant = { λ s. IsWire (L.state s.client.line) s.client.worker s.is_open s.asks s.failures s.wants };
}

impl<'a, L: Line, A: Allocator + Copy> Wire<'a, L, A> {
    /// A wire over a line to the worker of this number, for the shards of a cut. It allocates nothing and sends nothing
    /// yet.
    pub fn new(alloc: A, line: L, cut: &'a Cut<'a, A>, worker: u32) -> Self
        requires worker { worker < MAX_WORKERS }
        requires room { HasRoom (L.state line) }
        ensures new { IsNewWire line cut.now worker result }

        // Over any line, what the line counts from now on will fit an error that closes the wire, if one does.
        ensures counted { IsCountedWire L.state result (L.state line) }

        // It is sound over a fresh line whose bytes are known, and honest over one that is also faithful for the
        // worker.
        ensures sound { IsFresh (L.state line) → HasKnownBytes (L.state line)
            → IsSoundWire L.state result (L.state line).ends [] }
        ensures honest { IsFresh (L.state line) → HasKnownBytes (L.state line) → L.faithful line worker
            → IsHonestWire L.Line result }
    {
        Wire {
            client: Client {
                alloc,
                source: LineSource { line },
                cut,
                worker,
                version: None,
                sent: ShardSet::empty(),
                text: Vec::new(alloc),
            },
            is_open: true,
            asks: 0,
            failures: 0,
            wants: 0,
            last_round: 0,
            last_shard: 0,
        }
    }

    /// Returns the line as the asks left it. It allocates nothing.
    pub fn into_line(self) -> L
        ensures { result ≡ self.entry.client.line }
    {
        let Wire { client, .. } = self;
        let Client { source, .. } = client;
        source.line
    }
}

impl<'a, L: Line, A: Allocator + Copy> Port<A> for Wire<'a, L, A> {
    ghost state = { λ w. port_of w };

    ghost honest = { λ w. IsHonestWire L.Line w };

    ghost exchanged = { λ w. WireExchanged L.state w };

    ghost sound = { λ w. IsSoundWire L.state w };

    fn ask(&mut self, round: u32, shard: u32, labels: &Labels<A>) -> Result<Answer<A>, PortFault>
        requires round { 1 ≤ round }
        requires shard { shard < length self.old.client.cut }
        requires ends { EndsUpTo (length labels.now) (links_at self.old.client.cut shard) }
        requires room { self.old.asks < 2 ^ 64 - 1 }

        ensures went { AnswersAsk result round shard (port_of self.old) (port_of self.new) }
        ensures honest_answer { IfOk result (λ a. IsHonestWire L.Line self.old
            → IsHonestAnswer self.old.client.cut round shard labels.now a) }
        ensures exchanged { IfOk result (λ a. AddsExchange
            (WireExchanged L.state self.old) (WireExchanged L.state self.new) (exchange_of round shard labels.now a)) }
        ensures silent { self.old.is_open ≡ false
            → KeepsExchanges (WireExchanged L.state self.old) (WireExchanged L.state self.new) }
        ensures honest { IsHonestWire L.Line self.old → IsHonestWire L.Line self.new }
        ensures sound { IfOk result (λ a. StaysSoundWith
            (IsSoundWire L.state self.old) (IsSoundWire L.state self.new) (exchange_of round shard labels.now a)) }
        ensures sound_fault { OnErr result
            (StaysSound (IsSoundWire L.state self.old) (IsSoundWire L.state self.new)) }

        // On success: which frames were sent for the answer, which bytes came after them, and which shards have been
        // sent.
        ensures asked { IfOk result (λ a. AnswersOverLine L.state round shard labels.now a self.old.client self.new.client) }

        // Over a line whose bytes are known, faithful or not: if what has come is a prefix of what the worker may
        // write, the answer is honest.
        ensures served { IfOk result (λ a. ServesWire L.state self.old self.new
            → IsHonestAnswer self.old.client.cut round shard labels.now a) }

        // Why there is no answer, by the bytes that came in the ask, and by what the line counted.
        ensures cause { IfErr result (λ e. self.old.is_open ≡ true
            → WireCause L.state e round shard labels.now self.old self.new) }

        // What the line counted since the wire was new fits the error that closed it, even if its bytes aren't known.
        ensures counted { (start : LineState) → IsCountedWire L.state self.old start → IsCountedWire L.state self.new start }

        // A closed wire does nothing.
        ensures closed { self.old.is_open ≡ false → self.new ≡ self.old }

        // Over a faithful line no reply is garbled and no hello is wrong. A fault of the worker says that it is out of
        // memory, and the worker may be too old.
        ensures blameless { IfErr result (λ e. IsHonestWire L.Line self.old → IsBlameless e) }
    {
        if !self.is_open {
            return Err(PortFault::Closed);
        }
        self.asks += 1;
        self.last_round = round;
        self.last_shard = shard;
        match self.client.ask(round, shard, labels) {
            Ok(answer) => Ok(answer),
            Err(fault) => {
                self.is_open = false;
                self.failures += failure_of(fault);
                self.wants += want_of(fault);
                Err(fault)
            }
        }
    }

    fn shut(&mut self)
        ensures shut { self.new.is_open ≡ false }
        ensures went { CountsAsks 0 0 0 (port_of self.old) (port_of self.new) }
        ensures exchanged { KeepsExchanges (WireExchanged L.state self.old) (WireExchanged L.state self.new) }
        ensures honest { IsHonestWire L.Line self.old → IsHonestWire L.Line self.new }
        ensures sound { StaysSound (IsSoundWire L.state self.old) (IsSoundWire L.state self.new) }

        ensures counted { (start : LineState) → IsCountedWire L.state self.old start → IsCountedWire L.state self.new start }

        // Nothing else changes, and the line isn't used.
        ensures client { self.new.client ≡ self.old.client }
    {
        self.is_open = false;
    }

    fn is_open(&self) -> bool
        ensures { result ≡ self.now.is_open }
    {
        self.is_open
    }

    fn asks(&self) -> u64
        ensures { result ≡ self.now.asks }
    {
        self.asks
    }
}

// By how much the count of failures rises.
fn failure_of(fault: PortFault) -> u64
    ensures { result ≡ failure_of fault }
{
    match fault {
        PortFault::Memory | PortFault::Closed => 0,
        PortFault::Down
        | PortFault::Garbled
        | PortFault::WrongHello
        | PortFault::Gave(_)
        | PortFault::TooOld => 1,
    }
}

// By how much the count of asks without memory rises.
fn want_of(fault: PortFault) -> u64
    ensures { result ≡ want_of fault }
{
    match fault {
        PortFault::Memory => 1,
        PortFault::Down
        | PortFault::Garbled
        | PortFault::WrongHello
        | PortFault::Gave(_)
        | PortFault::Closed
        | PortFault::TooOld => 0,
    }
}
