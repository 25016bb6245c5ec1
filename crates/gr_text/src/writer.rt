//! Writes a forest's text.
ghost use Rattle.std.specs.Prelude.{◌≡◌, ◌<◌, length};
ghost use Rattle.gr_text.specs.FaultText.{unwritten_text};
ghost use Rattle.gr_text.specs.ForestText.{forest_text};
ghost use Rattle.gr_text.specs.Handing.{HandsOut, PutsLines};
ghost use Rattle.gr_text.specs.Written.{WritesText};

use crate::faults::FAULT_ROOM;
use crate::spelled::{Spelled, spell_lines};
use arrayvec::ArrayString;
use byte_streams::{Failed, Sink, put};
use itoa::Buffer;
use links::{Forest, Link};
use std::alloc::Allocator;
use thiserror::Error;

/// The sink failed, or took no byte of what was left.
#[derive(Clone, Copy, Debug, PartialEq, Eq, Error)]
#[error("{}", self.text())]
pub struct WriteFault {
    /// The number of bytes of the text that the sink took, or `u64::MAX` if it took more.
    pub written: u64,
}

impl WriteFault {
    /// The text of the error, built on the stack.
    pub fn text(&self) -> ArrayString<FAULT_ROOM>
        ensures { result.bytes ≡ unwritten_text self.now.written }
    {
        let mut digits = Buffer::new();
        let mut text = ArrayString::new();
        text.push_str("write failed after ");
        text.push_str(digits.format(self.written));
        text.push_str(" bytes");
        text
    }
}

// How many bytes of lines one thread spells at a time.
const PIECE_ROOM: usize = 8192;

/// Writes these bytes to the sink. `written` bytes of the whole text were written before. The count stops at
/// `u64::MAX`.
pub(crate) fn hand_out<W: Sink>(sink: &mut W, written: u64, bytes: &[u8]) -> Result<u64, WriteFault>
    requires { W.can_write sink.old }
    ensures { HandsOut written bytes.now result (W.state sink.old) (W.state sink.new) (W.can_write sink.new) }
{
    match put(sink, bytes) {
        Ok(()) => {
            let count = bytes.len() as u64;
            Ok(written.saturating_add(count))
        }
        Err(fault) => Err(WriteFault {
            written: written.saturating_add(fault.written),
        }),
    }
}

/// Spells the lines of a forest's text and writes them to its sink.
pub(crate) trait PutLines {
    // What threads need from the runtime that starts them, and that there are buffers.
    ghost ready: { Self → Type 0 };

    /// Writes the lines of the first of these edges to the sink. `written` bytes of the whole text were written before.
    /// Returns how many bytes are written after the call, and how many edges these lines had.
    fn put_lines<W: Sink>(
        &mut self,
        sink: &mut W,
        written: u64,
        links: &[Link],
    ) -> Result<(u64, usize), WriteFault>
        requires ready { ready self.old }
        requires can { W.can_write sink.old }
        requires some { 0 < length links.now }
        ensures put { PutsLines written links.now result (W.state sink.old) (W.state sink.new) (W.can_write sink.new) }
        ensures ready { ready self.new };
}

// Spells with one thread, into a buffer of its own.
#[derive(Drop)]
struct OnePiece {
    room: [u8; PIECE_ROOM],
}

impl PutLines for OnePiece {
    ghost ready = { λ _. Unit {0} };

    fn put_lines<W: Sink>(
        &mut self,
        sink: &mut W,
        written: u64,
        links: &[Link],
    ) -> Result<(u64, usize), WriteFault> {
        let spelled = spell_lines(links, &mut self.room);
        let total = hand_out(sink, written, &self.room[..spelled.bytes])?;
        Ok((total, spelled.links))
    }
}

/// Writes the text of a forest of `n` vertices, whose lines `lines` puts out, and flushes the sink once.
pub(crate) fn write_lines<P: PutLines, W: Sink, A: Allocator>(
    lines: &mut P,
    sink: &mut W,
    n: u32,
    forest: &Forest<A>,
) -> Result<u64, WriteFault>
    requires ready { P.ready lines.old }
    requires can { W.can_write sink.old }
    ensures { WritesText (forest_text n forest.now) result (W.state sink.old) (W.state sink.new)
        (W.unflushed sink.new) (W.can_write sink.new) }
{
    let mut left = forest.links();
    let mut written = hand_out(sink, 0, Spelled::header(n, left.len()).as_slice())?;
    while !left.is_empty() {
        let (total, count) = lines.put_lines(sink, written, left)?;
        let (_put, others) = left.split_at(count);
        written = total;
        left = others;
    }
    match sink.flush() {
        Ok(()) => Ok(written),
        Err(Failed) => Err(WriteFault { written }),
    }
}

/// Writes the text of a forest of `n` vertices and flushes the sink once. Returns the number of bytes of the text, or
/// `u64::MAX` if it has more.
///
/// The first line is `p sp n k`, and each of the k edges has a line `a low high weight`, in ascending order of their
/// keys. Returns an error if a write or the flush fails, or if a write takes no byte; nothing is tried again.
///
/// Lines are put together in a buffer of 8 KiB on the stack and written as one piece. So after the first line the sink
/// is called about once per 8 KiB. Nothing is allocated, and the time is linear in the bytes of the text.
pub fn write_forest<W: Sink, A: Allocator>(
    sink: &mut W,
    n: u32,
    forest: &Forest<A>,
) -> Result<u64, WriteFault>
    requires { W.can_write sink.old }

    // The sink has taken the whole text, or on an error exactly as many of its first bytes as the error counts.
    ensures { WritesText (forest_text n forest.now) result (W.state sink.old) (W.state sink.new)
        (W.unflushed sink.new) (W.can_write sink.new) }
{
    let mut lines = OnePiece {
        room: [0; PIECE_ROOM],
    };
    write_lines(&mut lines, sink, n, forest)
}
