//! One generic wrapper for files, standard streams, sockets and every other reader or writer of std. Its clauses hold
//! for every reader and writer, including those whose bytes std's contracts show. So its body can't change, drop or add
//! a byte.
//!
//! Nothing counts a device's failures. So no clause shows that a device is called only once, or that its failure isn't
//! returned as the end of the stream. Tests check both with readers and writers that fail once.
ghost use Rattle.std.specs.Prelude.{◌<◌, length, None};
ghost use Rattle.std.specs.Io.{ReadsAtMost, WritesAtMost};
ghost use Rattle.byte_streams.specs.Streams.{only_left, only_held, ReadGave, WriteTook, FlushTook};

use crate::{Failed, Sink, Source};
use std::io::{Read, Write};

/// A reader or writer of std. Its state has the bytes that std's contracts show, and no count of failures.
#[derive(Debug, Drop)]
pub struct Uncounted<T>(pub T);

// Calls std once and never retries. An interrupted call is a failure too.
fn read_from<R: Read>(reader: &mut R, buf: &mut [u8]) -> Result<usize, Failed>
    requires { 0 < length buf.old }
    ensures bound { ReadsAtMost result buf.new }
    ensures gave { ReadGave result buf.new (only_left (R.remaining reader.old))
        (only_left (R.remaining reader.new)) }
{
    reader.read(buf).map_err(|_| Failed)
}

fn write_to<W: Write>(writer: &mut W, buf: &[u8]) -> Result<usize, Failed>
    ensures bound { WritesAtMost result buf.now }
    ensures took { WriteTook result buf.now (only_held (W.contents writer.old))
        (only_held (W.contents writer.new)) }
{
    writer.write(buf).map_err(|_| Failed)
}

fn flush_of<W: Write>(writer: &mut W) -> Result<(), Failed>
    ensures { FlushTook result (only_held (W.contents writer.old))
        (only_held (W.contents writer.new)) }
{
    writer.flush().map_err(|_| Failed)
}

impl<R: Read> Source for Uncounted<R> {
    ghost state = { λ u. only_left (R.remaining u.0) };

    ghost lasts = { λ _ _. Unit {0} };

    fn read(&mut self, buf: &mut [u8]) -> Result<usize, Failed> {
        read_from(&mut self.0, buf)
    }
}

impl<W: Write> Sink for Uncounted<W> {
    ghost state = { λ u. only_held (W.contents u.0) };

    fn write(&mut self, buf: &[u8]) -> Result<usize, Failed> {
        write_to(&mut self.0, buf)
    }

    fn flush(&mut self) -> Result<(), Failed> {
        flush_of(&mut self.0)
    }
}
