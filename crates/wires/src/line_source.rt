ghost use Rattle.std.specs.Prelude.{ℕ, ◌<◌, length};
ghost use Rattle.wires.specs.Lines.{HasRoom};
ghost use Rattle.wires.specs.LineSources.{LineFact, HoldsOf, source_of};

use crate::line::Line;
use byte_streams::{Failed, Source};

/// A line as a source: it reads what the line gets.
///
/// It owns the line, so that contracts about reads apply to the line afterwards. What it gave is known, and what will
/// come isn't. A read preserves what is known to have been sent, and for which workers the line is faithful.
#[derive(Drop)]
pub struct LineSource<L> {
    pub line: L,
}

impl<L: Line> Source for LineSource<L> {
    ghost state = { λ source. source_of (L.state source.line) };

    ghost Fact = { LineFact };

    ghost lasts = { λ source. HoldsOf (L.state source.line) (L.faithful source.line) };

    ghost can_read = { λ source. HasRoom (L.state source.line) };

    fn read(&mut self, buf: &mut [u8]) -> Result<usize, Failed> {
        match self.line.get(buf) {
            Ok(n) => Ok(n),
            Err(_) => Err(Failed),
        }
    }
}
