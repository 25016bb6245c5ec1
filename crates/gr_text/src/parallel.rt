//! Reads arc lines with threads. Each thread reads a part of the bytes into a part of the buffer for their edges.
ghost use Rattle.std.specs.Prelude.{◌≤◌, length};
ghost use denote.Param.Send.{IsSync};
ghost use Rattle.gr_text.specs.ArcLines.{AppendsOrNot, FillsOrNot};

use crate::arc_lines::{ArcLines, read_arc_lines};
use crate::sizes::ProblemSize;
use links::Link;
use std::alloc::Allocator;
use std::thread::{Threads, join_mut};

// A thread's part has at least this many bytes.
const FEW_BYTES: usize = 1 << 16;

/// The fewest bytes of an arc line in its usual form: `a 1 2 3` and the line feed.
pub(crate) const LEAST_LINE: usize = 8;

/// Reads whole arc lines of a graph of this size, if each line is valid and in its usual form, with at most this many
/// threads. Appends their edges to a list and returns the number of lines.
///
/// Each thread has a part of the bytes and of the buffer. A new thread gets at least 64 KiB; the caller's gets half as
/// much as another, since it also appends the edges that all threads found. Returns `None` if the bytes are anything
/// else, or if there is too little memory or `room` for their edges. Some edges may have been appended then.
#[cycle(parts)]
pub(crate) fn append_arc_lines<R: Threads + Sync, A: Allocator>(
    rt: &R,
    threads: usize,
    size: ProblemSize,
    bytes: &[u8],
    room: &mut [Link],
    links: &mut Vec<Link, A>,
) -> Option<usize>
    ensures { AppendsOrNot size.vertices bytes.now result links.old.items links.new.items }
{
    let threads = threads.min(bytes.len() / FEW_BYTES);
    if threads < 2 {
        return append_by_one(size, bytes, room, links);
    }
    let fewer = threads - 1;
    let place = line_end(bytes, bytes.len() / (threads + fewer) * (fewer + fewer - 1));
    let middle = room.len().min(place / LEAST_LINE);
    let (earlier, later) = bytes.split_at(place);
    let (earlier_room, later_room) = room.split_at_mut(middle);
    let mut last = || -> Option<ArcLines>
        ensures { FillsOrNot size.vertices later.entry.now result later_room.entry.now later_room.exit.now }
    { read_arc_lines(size, later, later_room) };
    let mut others = || -> Option<usize>
        requires { IsSync R.row }
        ensures { AppendsOrNot size.vertices earlier.entry.now result links.entry.now.items links.exit.now.items }
    { append_arc_lines(rt, fewer, size, earlier, earlier_room, links) };
    let (found, count) = join_mut(rt, &mut last, &mut others);
    let found = found?;
    let count = count?;
    if links.extend_from_slice(&later_room[..found.links]).is_err() {
        return None;
    }
    Some(count + found.lines)
}

// Does the same with only the caller's thread.
fn append_by_one<A: Allocator>(
    size: ProblemSize,
    bytes: &[u8],
    room: &mut [Link],
    links: &mut Vec<Link, A>,
) -> Option<usize>
    ensures { AppendsOrNot size.vertices bytes.now result links.old.items links.new.items }
{
    let found = read_arc_lines(size, bytes, room)?;
    if links.extend_from_slice(&room[..found.links]).is_err() {
        return None;
    }
    Some(found.lines)
}

/// The index after the first line feed from an index on, or the length if there is none.
pub(crate) fn line_end(bytes: &[u8], from: usize) -> usize
    requires { from ≤ length bytes.now }
    ensures { result ≤ length bytes.now }
{
    match bytes[from..].iter().position(|&byte| byte == b'\n') {
        Some(more) => from + more + 1,
        None => bytes.len(),
    }
}

/// The index after the last line feed, or 0 if there is none.
pub(crate) fn last_line_end(bytes: &[u8]) -> usize
    ensures { result ≤ length bytes.now }
{
    match bytes.iter().rposition(|&byte| byte == b'\n') {
        Some(place) => place + 1,
        None => 0,
    }
}
