ghost use Rattle.std.specs.Prelude.{ℕ, ◌<◌, List, Option, length, None, IfOk, OnOk};
ghost use Rattle.std.specs.Io.{ReadsAtMost, WritesAtMost};
ghost use Rattle.byte_streams.specs.Streams.{SourceState, SinkState, only_left, only_held, ReadGave, WriteTook, FlushTook, IsFlushed, IsRefusal};

use thiserror::Error;

/// The stream failed during this call, for whatever reason. An interrupted call fails too.
#[derive(Clone, Copy, Debug, PartialEq, Eq, Error)]
#[error("the stream failed")]
pub struct Failed;

/// A source of bytes whose contracts can show what it gives and when it fails.
///
/// The state of a source has four parts: the bytes that it has left, the bytes that it gave, the number of reads that
/// failed, and the number of reads that found the end. If the contracts don't show a part, it is `None`, and a clause
/// about it says nothing.
///
/// A [`FusedSource`](crate::FusedSource) shows all four parts. A slice shows its remaining bytes and its failures, of
/// which it has none. A line to another program shows what it gave, but not what will come. If a caller proves
/// something for the case that a part is shown, it holds unconditionally for a source that shows the part.
pub trait Source {
    // What the contracts show of the source.
    ghost state: { Self → SourceState } = { λ _. only_left None };

    // Facts that reads keep true. For a line to another program, such a fact is what was sent on it. They aren't part
    // of the state, since a fact can be any proposition, which no field of a record can be.
    ghost Fact: { Type 0 } = { Unit {0} };

    ghost lasts: { Self → Fact → Type 0 };

    // The counts can grow by one. A source that counts nothing has no condition here.
    ghost can_read: { Self → Type 0 } = { λ _. Unit {0} };

    /// Reads one or more bytes into the beginning of `buf` and returns their number. 0 means the end of the stream.
    ///
    /// The bytes of `buf` after those that were read may have changed, and all of `buf` may have changed after a
    /// failure. A failed read takes none of the remaining bytes. Calls the device once, and never retries.
    fn read(&mut self, buf: &mut [u8]) -> Result<usize, Failed>
        requires can { can_read self.old }
        requires room { 0 < length buf.old }
        ensures bound { ReadsAtMost result buf.new }
        ensures gave { ReadGave result buf.new (state self.old) (state self.new) }
        ensures lasts { (fact : Fact) → lasts self.old fact → lasts self.new fact }
        ensures again { IfOk result (λ n. 0 < n → can_read self.new) };
}

/// A sink of bytes whose contracts can show what it took and when it failed.
///
/// The state of a sink has two parts: the bytes that it took, and its setbacks. A setback is a write or flush that
/// fails, or a write that takes no byte of a buffer that isn't empty. As for a [`Source`], a part that isn't shown is
/// `None`.
///
/// A [`FusedSink`](crate::FusedSink) shows both parts, a `Vec` only its bytes. A [`BufferedSink`](crate::BufferedSink)
/// also shows which of its bytes wait for a flush.
pub trait Sink {
    // What the contracts show of the sink.
    ghost state: { Self → SinkState } = { λ _. only_held None };

    // The bytes that the sink took and that wait for a flush, if the contracts show them. The trait doesn't say what a
    // write does to them, since callers rely only on what a flush does.
    ghost unflushed: { Self → Option (List ℕ) } = { λ _. None };

    // The count can grow by one. A sink that counts nothing has no condition here.
    ghost can_write: { Self → Type 0 } = { λ _. Unit {0} };

    /// Takes bytes from the beginning of `buf` and returns their number.
    ///
    /// Returning 0 for a `buf` that isn't empty is a setback, like a failure. Calls the device once, and never retries.
    fn write(&mut self, buf: &[u8]) -> Result<usize, Failed>
        requires { can_write self.old }
        ensures bound { WritesAtMost result buf.now }
        ensures took { WriteTook result buf.now (state self.old) (state self.new) }
        ensures again { IfOk result (λ n. ¬ IsRefusal n buf.now → can_write self.new) };

    /// Forwards any bytes that the sink still buffers. The bytes that it took stay the same.
    fn flush(&mut self) -> Result<(), Failed>
        requires { can_write self.old }
        ensures took { FlushTook result (state self.old) (state self.new) }
        ensures flushed { OnOk result (IsFlushed (unflushed self.new)) }
        ensures again { OnOk result (can_write self.new) };
}
