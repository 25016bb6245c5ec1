//! Sources whose progress is printed, and a standard error that keeps other messages apart from the progress lines.
ghost use Rattle.std.specs.Prelude.{◌≡◌, ◌≤◌, length, false};

use byte_streams::{Failed, Sink, Source, Uncounted, put};
use program_words::write_progress;
use std::cell::Cell;
use std::io::Write;

// This many bytes are read from one progress line to the next.
const STEP: u64 = 16_000_000;

/// How much was read from one source or several, and the writer that gets it if that is wanted.
///
/// Each line is written over the one before. The final line comes at the end of the last source and stays, if another
/// came before it. After a failed write nothing more is written.
#[derive(Drop)]
pub struct Progress<'l, W> {
    pub writer: Uncounted<W>,
    /// Whether more is written.
    pub is_wanted: bool,
    /// Whether the current source is the last one.
    pub is_last: bool,
    is_line_open: &'l Cell<bool>,
    read: u64,
    told: u64,
}

impl<'l, W: Write> Progress<'l, W> {
    /// Nothing has been read yet, and nothing is written. `is_line_open` is true while a line has no end yet.
    pub fn new(writer: W, is_line_open: &'l Cell<bool>) -> Self
        ensures off { result.is_wanted ≡ false }
    {
        Progress {
            writer: Uncounted(writer),
            is_wanted: false,
            is_last: true,
            is_line_open,
            read: 0,
            told: 0,
        }
    }

    /// Turns writing on or off.
    pub fn want(&mut self, is_wanted: bool)
        ensures wanted { self.new.is_wanted ≡ is_wanted }
        ensures untold { self.new.writer ≡ self.old.writer }
    {
        self.is_wanted = is_wanted;
    }

    // Writes how much was read, in a line with this end.
    fn tell(&mut self, end: &str)
        requires { length end.now ≤ 2 }
    {
        self.is_wanted = write_progress(&mut self.writer, self.read, end).is_ok();
        self.is_line_open.set(end != "\n");
        self.told = self.read;
    }

    // Counts a read of this many bytes; 0 is the end of a source.
    fn count(&mut self, bytes: usize) {
        self.read = self.read.saturating_add(bytes as u64);
        if !self.is_wanted {
            return;
        }
        if bytes == 0 && self.is_last && self.told > 0 {
            self.tell("\n");
        } else if self.read / STEP > self.told / STEP {
            self.tell("\r");
        }
    }
}

/// A source that prints, after every 16 million bytes, how much was read from this source and those before it.
///
/// It owns the source, so that contracts know the state in which the source was left. It gives exactly what the source
/// gives.
#[derive(Drop)]
pub struct Watched<'p, 'l, I, W> {
    pub source: I,
    pub progress: &'p mut Progress<'l, W>,
}

impl<I: Source, W: Write> Source for Watched<'_, '_, I, W> {
    ghost state = { λ w. I.state w.source };

    ghost lasts = { λ _ _. Unit {0} };

    ghost can_read = { λ w. I.can_read w.source };

    fn read(&mut self, buf: &mut [u8]) -> Result<usize, Failed> {
        let bytes = self.source.read(buf)?;
        self.progress.count(bytes);
        Ok(bytes)
    }
}

/// Standard error for messages, if progress is printed there too.
///
/// If a progress line has no end yet, it is ended before anything else is written, through another handle of the same
/// stream. So a message begins on its own line.
#[derive(Drop)]
pub struct OwnLine<'l, E, W> {
    errors: E,
    handle: Uncounted<W>,
    is_line_open: &'l Cell<bool>,
}

impl<'l, E: Sink, W: Write> OwnLine<'l, E, W> {
    /// Wraps the sink; `handle` is another handle of its stream. `is_line_open` is that of the stream's [`Progress`].
    pub fn new(errors: E, handle: W, is_line_open: &'l Cell<bool>) -> Self
        ensures errors { result.errors ≡ errors }
    {
        OwnLine {
            errors,
            handle: Uncounted(handle),
            is_line_open,
        }
    }

    // Ends a progress line that has no end yet.
    fn end_line(&mut self)
        ensures { self.new.errors ≡ self.old.errors }
    {
        if self.is_line_open.replace(false) {
            match put(&mut self.handle, b"\n") {
                Ok(()) => {}
                Err(_) => {}
            }
        }
    }
}

impl<E: Sink, W: Write> Sink for OwnLine<'_, E, W> {
    ghost state = { λ o. E.state o.errors };

    ghost unflushed = { λ o. E.unflushed o.errors };

    ghost can_write = { λ o. E.can_write o.errors };

    fn write(&mut self, buf: &[u8]) -> Result<usize, Failed> {
        self.end_line();
        self.errors.write(buf)
    }

    fn flush(&mut self) -> Result<(), Failed> {
        self.errors.flush()
    }
}
