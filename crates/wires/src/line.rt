ghost use Rattle.std.specs.Prelude.{ℕ, ◌<◌, length};
ghost use Rattle.std.specs.Io.{ReadsAtMost};
ghost use Rattle.wires.specs.Lines.{LineState, HasRoom, Puts, Gets, ServesSoFar};

use crate::fault::LineFault;

/// A line to a worker: `put` sends bytes, and `get` receives them.
///
/// Contracts may know the bytes that were sent and those that were got, each a `None` if unknown. They always know how
/// many calls failed and how many gets found the end, as numbers of 64 bits.
///
/// A line is faithful for a worker if what was got is a prefix of what the worker's session may write for what was
/// sent. This has to hold until the line's first failure, if both are known. What a socket receives depends on its
/// other end, so a line over a device is faithful by assumption only; a line to an engine in memory is faithful by its
/// contract. Nothing follows about what a line gets if its bytes aren't known.
pub trait Line {
    // What is known of the line.
    ghost state: { Self → LineState };

    // The line carries the session of this worker. An implementation picks the type; `serves` says what others know of
    // it.
    ghost faithful: { Self → ℕ → Type 0 };

    /// Sends all of the bytes. It may wait for the other end.
    ///
    /// After a failure, nothing is known of what was sent. An empty `bytes` may succeed without a call of the device.
    fn put(&mut self, bytes: &[u8]) -> Result<(), LineFault>
        requires { HasRoom (state self.old) }
        ensures went { Puts result bytes.now (state self.old) (state self.new) }
        ensures faithful { (worker : ℕ) → faithful self.old worker → faithful self.new worker };

    /// Waits for bytes, writes them to the beginning of `into`, and returns how many there are. 0 is the end.
    ///
    /// The bytes of `into` after those may change, and after a failure all of them may. It calls the device once, and
    /// doesn't try again.
    fn get(&mut self, into: &mut [u8]) -> Result<usize, LineFault>
        requires can { HasRoom (state self.old) }
        requires room { 0 < length into.old }
        ensures bound { ReadsAtMost result into.new }
        ensures went { Gets result into.new (state self.old) (state self.new) }
        ensures faithful { (worker : ℕ) → faithful self.old worker → faithful self.new worker };

    // What a faithful line got, if it is known, is a prefix of what the worker may write.
    ghost serves: { (line : Self) (worker : ℕ) → faithful line worker → ServesSoFar worker (state line) };
}
