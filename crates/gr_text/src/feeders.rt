//! Feeds a reader with pieces, by one thread or by several.
ghost use denote.Param.Send.{IsSync};
ghost use Rattle.gr_text.specs.Reader.{IsFed};

use crate::faults::ReadFault;
use crate::parallel::{last_line_end, line_end};
use crate::reader::GrReader;
use links::Link;
use std::alloc::Allocator;
use std::thread::Threads;

/// Feeds a reader with a piece, as [`GrReader::feed`] does.
pub(crate) trait Feed<A: Allocator> {
    // What a call depends on: for threads, that they may share the runtime that starts them.
    ghost ready: { Type 0 } = { Unit {0} };

    fn feed(&mut self, reader: &mut GrReader<A>, piece: &[u8]) -> Result<(), ReadFault>
        requires { ready }
        ensures { IsFed result piece.now reader.old reader.new };
}

/// Feeds with one thread.
#[derive(Clone, Copy)]
pub(crate) struct WholePieces;

impl<A: Allocator> Feed<A> for WholePieces {
    fn feed(&mut self, reader: &mut GrReader<A>, piece: &[u8]) -> Result<(), ReadFault> {
        reader.feed(piece)
    }
}

/// Feeds with at most this many threads, and has a buffer for the edges of a piece.
#[derive(Drop)]
pub(crate) struct SharedPieces<'a, R, A: Allocator> {
    pub rt: &'a R,
    pub threads: usize,
    pub room: Vec<Link, A>,
}

impl<'a, R: Threads + Sync, A: Allocator> Feed<A> for SharedPieces<'a, R, A> {
    ghost ready = { IsSync R.row };

    fn feed(&mut self, reader: &mut GrReader<A>, piece: &[u8]) -> Result<(), ReadFault> {
        feed_par(
            self.rt,
            self.threads,
            reader,
            piece,
            self.room.as_mut_slice(),
        )
    }
}

// The first line of a piece may be the rest of a line, and after the last line feed may be the start of one. Threads
// read what is between.
fn feed_par<R: Threads + Sync, A: Allocator>(
    rt: &R,
    threads: usize,
    reader: &mut GrReader<A>,
    piece: &[u8],
    room: &mut [Link],
) -> Result<(), ReadFault>
    ensures { IsFed result piece.now reader.old reader.new }
{
    let (first, others) = piece.split_at(line_end(piece, 0));
    let (middle, last) = others.split_at(last_line_end(others));
    if let Err(fault) = reader.feed(first) {
        return Err(fault);
    }
    if let Err(fault) = feed_lines(rt, threads, reader, middle, room) {
        return Err(fault);
    }
    reader.feed(last)
}

fn feed_lines<R: Threads + Sync, A: Allocator>(
    rt: &R,
    threads: usize,
    reader: &mut GrReader<A>,
    piece: &[u8],
    room: &mut [Link],
) -> Result<(), ReadFault>
    ensures { IsFed result piece.now reader.old reader.new }
{
    if reader.take_arcs(rt, threads, piece, room) {
        return Ok(());
    }
    reader.feed(piece)
}
