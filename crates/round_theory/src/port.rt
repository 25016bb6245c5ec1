ghost use Rattle.std.specs.Prelude.{◌≡◌, ℕ, ◌+◌, ◌-◌, ◌<◌, ◌≤◌, ◌^◌, List, length, false, IfOk, OnErr};
ghost use Rattle.links.specs.Link.{EndsUpTo};
ghost use Rattle.links.specs.Cut.{links_at};
ghost use Rattle.round_theory.specs.Exchanges.{Exchange, exchange_of, KeepsExchanges, AddsExchange, StaysSound, StaysSoundWith};
ghost use Rattle.round_theory.specs.Ports.{PortState, CountsAsks, AnswersAsk, IsHonestAnswer};

use crate::fault::PortFault;
use links::{Answer, Labels};
use std::alloc::Allocator;

/// Something that can be asked about a shard of a cut. Its answer names, for each component under some labels, the
/// lightest link of the shard that leaves the component. A call of [`Port::ask`] on an open port counts as an *ask*.
///
/// A port is open at first. Its first error closes it for good, and so does a call of [`Port::shut`]. It counts its
/// asks, those that failed, and those that ran out of memory. It stores the round and the shard of its last ask. If it
/// belongs to a worker, it has that worker's number, which never changes.
///
/// A port is honest if each of its answers names the round and the shard that it was asked about. It must also have the
/// light offers of that shard under the given labels. If the contracts show which asks the port answered, they are a
/// list of asks with their answers, and each new one comes last.
pub trait Port<A: Allocator> {
    // What the contracts show of the port.
    ghost state: { Self → PortState };

    // Each answer of the port is honest.
    ghost honest: { Self → Type 0 };

    // These are the asks that the port answered, with their answers, in order, if the contracts show them.
    ghost exchanged: { Self → List Exchange → Type 0 };

    // Until the ask whose error closed the port, nothing was sent or received but its asks and their answers, and the
    // line's stream didn't end. The error has its cause, if the contracts show the cause.
    //
    // The number says how often the line had found the end of its stream before its first ask. For a port without a
    // line, every number that fits is allowed. The exchanges are all asks that were answered, in order, even if a later
    // error closed the port.
    ghost sound: { Self → ℕ → List Exchange → Type 0 };

    /// Asks for the offers of a shard in a round, under the labels of all vertices. The call may wait for the answer.
    ///
    /// Each error closes the port. A closed port returns `Closed` and sends nothing.
    fn ask(&mut self, round: u32, shard: u32, labels: &Labels<A>) -> Result<Answer<A>, PortFault>
        requires round { 1 ≤ round }
        requires shard { shard < length (state self.old).cut }
        requires ends { EndsUpTo (length labels.now) (links_at (state self.old).cut shard) }
        requires room { (state self.old).asks < 2 ^ 64 - 1 }

        ensures went { AnswersAsk result round shard (state self.old) (state self.new) }
        ensures honest_answer { IfOk result
            (λ a. honest self.old → IsHonestAnswer (state self.old).cut round shard labels.now a) }

        // The ask and its answer come after the earlier ones. A closed port adds none.
        ensures exchanged { IfOk result
            (λ a. AddsExchange (exchanged self.old) (exchanged self.new) (exchange_of round shard labels.now a)) }
        ensures silent { (state self.old).is_open ≡ false → KeepsExchanges (exchanged self.old) (exchanged self.new) }

        ensures honest { honest self.old → honest self.new }
        ensures sound { IfOk result
            (λ a. StaysSoundWith (sound self.old) (sound self.new) (exchange_of round shard labels.now a)) }
        ensures sound_fault { OnErr result (StaysSound (sound self.old) (sound self.new)) };

    /// Closes the port for good. The call doesn't wait and allocates nothing.
    fn shut(&mut self)
        ensures shut { (state self.new).is_open ≡ false }
        ensures went { CountsAsks 0 0 0 (state self.old) (state self.new) }
        ensures exchanged { KeepsExchanges (exchanged self.old) (exchanged self.new) }
        ensures honest { honest self.old → honest self.new }
        ensures sound { StaysSound (sound self.old) (sound self.new) };

    /// Returns whether the port is open.
    fn is_open(&self) -> bool
        ensures { result ≡ (state self.now).is_open };

    /// Returns how often the port was asked while it was open.
    fn asks(&self) -> u64
        ensures { result ≡ (state self.now).asks };
}
