//! Writes a forest's text with several threads. They spell parts of its lines, and the caller's thread writes these
//! parts.
ghost use Rattle.std.specs.Prelude.{◌≡◌, ◌*◌, ◌≤◌, ◌<◌, IfOk, length};
ghost use Rattle.std.specs.List.{flat_map, AllByRecursion};
ghost use denote.Param.Send.{IsSync};
ghost use Rattle.gr_text.specs.ForestText.{forest_text, link_line};
ghost use Rattle.gr_text.specs.Handing.{AreSpelledParts, HandsOut, IsPart, text_of_parts};
ghost use Rattle.gr_text.specs.Written.{WritesText};
ghost use Rattle.gr_text.specs.declared.parallel_writer.TheConstants.{PART_ROOM};

use crate::spelled::{SPELLED_ROOM, spell_lines};
use crate::writer::{PutLines, WriteFault, hand_out, write_forest, write_lines};
use byte_streams::Sink;
use links::{Forest, Link};
use std::alloc::{AllocError, Allocator};
use std::thread::{Threads, join_mut};

// The most edges whose lines are in one part.
const PART_LINKS: usize = 8192;

// The size of a part's buffer.
const PART_ROOM: usize = PART_LINKS * SPELLED_ROOM;

// Puts the lines of these edges into a part's buffer and stores their number of bytes in `bytes`.
fn spell_part(links: &[Link], room: &mut [u8], bytes: &mut usize)
    requires few { length links.now ≤ PART_LINKS }
    requires room { length room.old ≡ PART_ROOM }
    ensures { IsPart links.now bytes.new room.new }
{
    *bytes = spell_lines(links, room).bytes;
}

// Puts the lines of these edges into consecutive parts and stores how many bytes each part has. Each part gets a thread
// of its own if one can be started; the caller's thread spells the last part.
#[cycle(parts)]
fn spell_parts<R: Threads + Sync>(rt: &R, links: &[Link], room: &mut [u8], bytes: &mut [usize])
    requires few { length links.now ≤ length bytes.old * PART_LINKS }
    requires room { length room.old ≡ length bytes.old * PART_ROOM }
    ensures fit { AllByRecursion (λ part. part ≤ PART_ROOM) bytes.new }
    ensures text { text_of_parts bytes.new room.new ≡ flat_map link_line links.now }
{
    let Some((of_one, of_others)) = bytes.split_first_mut() else {
        return;
    };
    let (one, others) = room.split_at_mut(PART_ROOM);
    let (first, later) = links.split_at(links.len().min(PART_LINKS));
    if of_others.is_empty() {
        spell_part(first, one, of_one);
        return;
    }
    let mut spell_one = ||
        requires { (length first.now ≤ PART_LINKS) × (length one.now ≡ PART_ROOM) }
        ensures { IsPart first.entry.now of_one.exit.now one.exit.now }
    { spell_part(first, one, of_one) };
    let mut spell_others = ||
        requires { IsSync R.row × (length later.now ≤ length of_others.now * PART_LINKS) × (length others.now ≡ length of_others.now * PART_ROOM) }
        ensures { AreSpelledParts later.entry.now of_others.exit.now others.exit.now }
    { spell_parts(rt, later, others, of_others) };
    join_mut(rt, &mut spell_one, &mut spell_others);
}

// Writes the text of the parts to the sink. `written` bytes of the whole text were written before.
fn hand_parts<W: Sink>(
    sink: &mut W,
    written: u64,
    room: &[u8],
    bytes: &[usize],
) -> Result<u64, WriteFault>
    requires can { W.can_write sink.old }
    requires room { length room.now ≡ length bytes.now * PART_ROOM }
    requires fit { AllByRecursion (λ part. part ≤ PART_ROOM) bytes.now }
    ensures { HandsOut written (text_of_parts bytes.now room.now) result
        (W.state sink.old) (W.state sink.new) (W.can_write sink.new) }
{
    let Some((&of_one, of_others)) = bytes.split_first() else {
        return Ok(written);
    };
    let (text, _free) = room.split_at(of_one);
    let total = hand_out(sink, written, text)?;
    let (_one, others) = room.split_at(PART_ROOM);
    hand_parts(sink, total, others, of_others)
}

// Spells parts with threads.
#[derive(Drop)]
struct Parts<'a, R, A: Allocator> {
    rt: &'a R,
    room: Vec<u8, A>,
    bytes: Vec<usize, A>,
}

impl<'a, R: Threads + Sync, A: Allocator> PutLines for Parts<'a, R, A> {
    ghost ready = { λ p. IsSync R.row × (0 < length p.bytes.items) × (length p.room.items ≡ length p.bytes.items * PART_ROOM) };

    fn put_lines<W: Sink>(
        &mut self,
        sink: &mut W,
        written: u64,
        links: &[Link],
    ) -> Result<(u64, usize), WriteFault> {
        let count = links.len().min(self.bytes.len() * PART_LINKS);
        let room = self.room.as_mut_slice();
        let bytes = self.bytes.as_mut_slice();
        spell_parts(self.rt, &links[..count], room, bytes);
        let total = hand_parts(sink, written, room, bytes)?;
        Ok((total, count))
    }
}

// Allocates the buffer for this many parts.
fn room_for_parts<R: Threads + Sync, A: Allocator + Copy>(
    rt: &R,
    alloc: A,
    count: usize,
) -> Result<Parts<R, A>, AllocError>
    ensures { IfOk result (λ parts. (length parts.bytes.items ≡ count) × (length parts.room.items ≡ count * PART_ROOM)) }
{
    let Some(all) = count.checked_mul(PART_ROOM) else {
        return Err(AllocError);
    };
    let room = vec![in alloc; 0; all]?;
    let bytes = vec![in alloc; 0; count]?;
    Ok(Parts { rt, room, bytes })
}

/// Writes the text of a forest of `n` vertices with up to this many threads, as [`write_forest`] does with one.
///
/// Each thread spells the lines of 8,192 edges at a time, and then the caller's thread writes them in order. Each
/// thread takes 512 KiB on the heap. One thread writes the forest if it has fewer than 16,384 edges or if the memory
/// can't be allocated. After the first line the sink is called about once per 8,192 edges.
pub fn write_forest_par<R: Threads + Sync, W: Sink, A: Allocator + Copy>(
    rt: &R,
    threads: usize,
    alloc: A,
    sink: &mut W,
    n: u32,
    forest: &Forest<A>,
) -> Result<u64, WriteFault>
    requires { W.can_write sink.old }

    // The sink has taken the whole text, or on an error exactly as many of its first bytes as the error counts.
    ensures { WritesText (forest_text n forest.now) result (W.state sink.old) (W.state sink.new)
        (W.unflushed sink.new) (W.can_write sink.new) }
{
    let count = threads.min(forest.links().len() / PART_LINKS);
    if count > 1 {
        if let Ok(mut parts) = room_for_parts(rt, alloc, count) {
            return write_lines(&mut parts, sink, n, forest);
        }
    }
    write_forest(sink, n, forest)
}
