//! Reads the next frame of a stream after an ask, whose labels are mostly sent again.
//!
//! A run asks about each of its shards under the same labels. So the bytes of an ask with equally many labels are
//! compared with the last labels as they arrive, one piece at a time in one buffer. As long as they are the same,
//! nothing is stored, and the labels needn't be checked again.
//!
//! In the next round the labels coarsen the last ones. Such labels are stored and checked in one pass: each takes one
//! look-up while it is in the processor's cache and the rest is on its way.
ghost use Rattle.std.specs.Prelude.{◌≡◌, ◌≢◌, ℕ, ◌+◌, ◌*◌, ◌/◌, ◌%◌, ◌<◌, ◌≤◌, ◌↔◌, List, ◌++◌, length, map, take, All, IfOk, IfErr, OnOk, IfSome, IfNone, IsTrue};
ghost use Rattle.std.specs.Int.{w32, from_be_bytes};
ghost use Rattle.std.specs.List.{flat_map};
ghost use Rattle.byte_streams.specs.Streams.{Gave};
ghost use Rattle.links.specs.Labels.{label_of, IsLabelled, AreLabels};
ghost use Rattle.frames.specs.FrameText.{u32_text, text_of};
ghost use Rattle.frames.specs.Lawful.{IsU32, IsLawful};
ghost use Rattle.frames.specs.Refusals.{IsPossible};
ghost use Rattle.frames.specs.ReadFault.{IsReadRefused};
ghost use Rattle.frames.specs.NextFrame.{next_value, SaysCoarser, AreCoarserUpTo, AreOthers, numbers_of_ask, IsAskUnder, HearsMore, StayU32, BodyCame, IsBodyRefused, IsStopped};
ghost use Rattle.frames.specs.Sources.{KeepsSource};
ghost use Rattle.frames.specs.declared.fault.FrameFault.TheVariants.{BadField};

use crate::bodies::{PIECE, read_bytes, read_three};
use crate::fault::FrameFault;
use crate::frame::Frame;
use crate::frame_reader::{read_head, read_rest};
use crate::head::Head;
use crate::items::spells;
use crate::list_reader::pass_over;
use byte_streams::Source;
use limits::MAX_SHARDS;
use links::Labels;
use std::alloc::{AllocError, Allocator, Global};

/// What comes after an ask: another ask under its labels, an ask under labels that coarsen them, or any whole frame.
#[derive(Drop)]
pub enum NextFrame<A: Allocator = Global> {
    /// An ask under the labels of the last one.
    AskAgain {
        round: u32,
        shard: u32,
    },

    /// An ask under other labels, which coarsen those of the last one and were stored.
    AskCoarser {
        round: u32,
        shard: u32,
        labels: Labels<A>,
    },

    Other(Frame<A>),
}

/// Reads the next frame of a stream after an ask under these labels, with the errors of
/// [`read_frame`](crate::read_frame).
///
/// Another ask under the same labels needs no memory, and its bytes are read once. If it has as many labels but
/// different ones, memory for all of them is allocated at the first piece of 16,384 labels that differs; `Memory` if
/// that fails. Each piece is checked as it arrives, by one look-up per label as long as the labels coarsen the last
/// ones. If they don't, all of them are checked once more. Every other frame is read as `read_frame` reads it.
pub fn read_next<A: Allocator + Copy, S: Source>(
    alloc: A,
    source: &mut S,
    last: &[u32],
) -> Result<NextFrame<A>, FrameFault>
    requires labels { AreLabels last.now }
    requires can { S.can_read source.old }

    // On success, exactly the text of the frame was read.
    ensures lawful { IfOk result (λ next. IsLawful (next_value last.now next)) }
    ensures text { IfOk result
        (λ next. Gave 0 0 (text_of (next_value last.now next)) (S.state source.old) (S.state source.new)) }
    ensures coarser { IfOk result (SaysCoarser last.now) }

    // On an error, what was read is rejected for it. A failure and an end are distinguished, and each is counted once.
    ensures refused { IfErr result
        (λ fault. IsReadRefused fault (S.state source.old) (S.state source.new)) }

    ensures kept { KeepsSource S.Source result source.old source.new }
{
    let head = read_head(source)?;
    read_behind(alloc, source, head, last)
}

// Reads the body that follows a head.
fn read_behind<A: Allocator + Copy, S: Source>(
    alloc: A,
    source: &mut S,
    head: Head,
    last: &[u32],
) -> Result<NextFrame<A>, FrameFault>
    requires labels { AreLabels last.now }
    requires can { S.can_read source.old }
    requires possible { IsPossible head.kind head.length }
    ensures came { IfOk result (λ next. BodyCame (next_value last.now next) head.kind head.length (S.state source.old) (S.state source.new)) }
    ensures coarser { IfOk result (SaysCoarser last.now) }
    ensures refused { IfErr result (λ fault. IsBodyRefused fault head.kind head.length (S.state source.old) (S.state source.new)) }
    ensures kept { KeepsSource S.Source result source.old source.new }
{
    if head.kind == 3 && head.length as usize == 12 + 4 * last.len() {
        return read_ask(alloc, source, last);
    }
    let frame = read_rest(alloc, source, head)?;
    Ok(NextFrame::Other(frame))
}

// Reads the body of an ask with equally many labels. Its fields are checked first, since a lack of memory is only
// reported if they are lawful. If they aren't, the labels are still read, since the stream may end within them.
fn read_ask<A: Allocator + Copy, S: Source>(
    alloc: A,
    source: &mut S,
    last: &[u32],
) -> Result<NextFrame<A>, FrameFault>
    requires labels { AreLabels last.now }
    requires can { S.can_read source.old }
    ensures came { IfOk result (λ next. BodyCame (next_value last.now next) 3 (12 + 4 * length last.now) (S.state source.old) (S.state source.new)) }
    ensures coarser { IfOk result (SaysCoarser last.now) }
    ensures refused { IfErr result (λ fault. IsBodyRefused fault 3 (12 + 4 * length last.now) (S.state source.old) (S.state source.new)) }
    ensures kept { KeepsSource S.Source result source.old source.new }
{
    let (round, shard, count) = read_three(source)?;
    if shard as usize >= MAX_SHARDS || count as usize != last.len() {
        pass_over(source, 4 * last.len())?;
        return Err(FrameFault::BadField);
    }
    let mut buffer = [0; PIECE];
    let heard = read_numbers(alloc, source, last, &mut buffer)?;
    ask_of(round, shard, last, heard)
}

// The numbers of an ask that arrived, or `None` if they are the labels of the last one, and whether they coarsen those.
#[derive(Drop)]
struct Heard<A: Allocator> {
    numbers: Option<Vec<u32, A>>,
    are_coarser: bool,
}

// Returns the ask with the numbers that arrived, or `BadField` if they aren't labels.
fn ask_of<A: Allocator>(
    round: u32,
    shard: u32,
    last: &[u32],
    heard: Heard<A>,
) -> Result<NextFrame<A>, FrameFault>
    requires last { AreLabels last.now }
    requires counted { length (numbers_of_ask last.now heard.numbers) ≡ length last.now }
    requires others { IfSome heard.numbers (λ list. list.items ≢ last.now) }
    requires coarser { IsTrue heard.are_coarser ↔ AreCoarserUpTo last.now (numbers_of_ask last.now heard.numbers) (length last.now) }
    ensures ask { IfOk result (IsAskUnder last.now round shard (numbers_of_ask last.now heard.numbers)) }
    ensures refused { IfErr result (λ fault. (fault ≡ BadField) × ¬ AreLabels (numbers_of_ask last.now heard.numbers)) }
{
    let Heard {
        numbers,
        are_coarser,
    } = heard;
    let Some(numbers) = numbers else {
        return Ok(NextFrame::AskAgain { round, shard });
    };
    if are_coarser {
        return Ok(NextFrame::AskCoarser {
            round,
            shard,
            labels: Labels::of_known(numbers),
        });
    }
    match Labels::of_list(numbers) {
        Some(labels) => Ok(NextFrame::Other(Frame::Ask {
            round,
            shard,
            labels,
        })),
        None => Err(FrameFault::BadField),
    }
}

// Reads as many numbers as `last` has, and stores none if they are the same.
fn read_numbers<A: Allocator + Copy, S: Source>(
    alloc: A,
    source: &mut S,
    last: &[u32],
    buffer: &mut [u8],
) -> Result<Heard<A>, FrameFault>
    requires room { length buffer.old ≡ PIECE }
    requires labels { AreLabels last.now }
    requires can { S.can_read source.old }
    ensures counted { IfOk result (λ heard. length (numbers_of_ask last.now heard.numbers) ≡ length last.now) }
    ensures others { IfOk result (λ heard. IfSome heard.numbers (λ list. list.items ≢ last.now)) }
    ensures coarser { IfOk result
        (λ heard. IsTrue heard.are_coarser ↔ AreCoarserUpTo last.now (numbers_of_ask last.now heard.numbers) (length last.now)) }
    ensures came { IfOk result
        (λ heard. Gave 0 0 (flat_map u32_text (numbers_of_ask last.now heard.numbers)) (S.state source.old) (S.state source.new)) }
    ensures fit { IfOk result (λ heard. All IsU32 last.now → All IsU32 (numbers_of_ask last.now heard.numbers)) }
    ensures stopped { IfErr result
        (λ fault. IsStopped fault (4 * length last.now) (S.state source.old) (S.state source.new)) }
    ensures kept { KeepsSource S.Source result source.old source.new }
{
    let mut numbers = None;
    let mut are_coarser = true;
    let mut came = 0;
    while came < last.len() {
        let count = (last.len() - came).min(PIECE / 4);
        let piece = &mut buffer[..4 * count];
        read_bytes(source, piece)?;
        hear_piece(alloc, &mut numbers, last, came, piece)?;
        are_coarser = are_coarser && stay_coarser(&numbers, last, came);
        came += count;
    }
    Ok(Heard {
        numbers,
        are_coarser,
    })
}

// Whether the numbers are still labels that coarsen the last ones, if the first `from` are. It checks the others while
// they are in the processor's cache. If no numbers are stored, they are the last ones.
fn stay_coarser<A: Allocator>(numbers: &Option<Vec<u32, A>>, last: &[u32], from: usize) -> bool
    requires last { AreLabels last.now }
    requires within { IfSome numbers.now (λ list. (from ≤ length list.items) × (length list.items ≤ length last.now)) }
    requires so_far { IfSome numbers.now (λ list. AreCoarserUpTo last.now list.items from) }
    ensures others { IfSome numbers.now (λ list. IsTrue result ↔ AreCoarserUpTo last.now list.items (length list.items)) }
    ensures same { IfNone numbers.now (IsTrue result) }
{
    match numbers {
        Some(list) => are_coarser_behind(list.as_slice(), last, from),
        None => true,
    }
}

fn are_coarser_behind(numbers: &[u32], last: &[u32], from: usize) -> bool
    requires last { AreLabels last.now }
    requires front { from ≤ length numbers.now }
    requires within { length numbers.now ≤ length last.now }
    requires so_far { AreCoarserUpTo last.now numbers.now from }
    ensures { IsTrue result ↔ AreCoarserUpTo last.now numbers.now (length numbers.now) }
{
    for v in from + 1..numbers.len() + 1 {
        if !is_coarser(numbers, last, v) {
            return false;
        }
    }
    true
}

// Whether vertex `v` is labelled, by the same label as the vertex that labelled it before, if the vertices below `v`
// are labelled. If it labelled itself before, its new label has to label itself. Otherwise its new label has to be that
// of the vertex that labelled it before, which is lower and was checked.
#[inline]
fn is_coarser(numbers: &[u32], last: &[u32], v: usize) -> bool
    requires last { AreLabels last.now }
    requires within { length numbers.now ≤ length last.now }
    requires from_one { 1 ≤ v }
    requires to_n { v ≤ length numbers.now }
    requires below { (u : ℕ) → 1 ≤ u → u < v → IsLabelled numbers.now u }
    ensures { IsTrue result ↔ (IsLabelled numbers.now v × (label_of numbers.now v ≡ label_of numbers.now (label_of last.now v))) }
{
    let label = numbers[v - 1];
    let finer = last[v - 1] as usize;
    let place = if finer == v {
        label.wrapping_sub(1) as usize
    } else {
        finer - 1
    };
    place < v && numbers[place] == label
}

// Takes the bytes of the next numbers. At the first piece that differs from `last`, memory for all numbers is
// allocated.
fn hear_piece<A: Allocator>(
    alloc: A,
    numbers: &mut Option<Vec<u32, A>>,
    last: &[u32],
    came: usize,
    piece: &[u8],
) -> Result<(), AllocError>
    requires whole { length piece.now % 4 ≡ 0 }
    requires fits { length piece.now ≤ PIECE }
    requires within { came + length piece.now / 4 ≤ length last.now }
    requires counted { length (numbers_of_ask (take came last.now) numbers.old) ≡ came }
    requires others { AreOthers last.now came numbers.old }
    ensures heard { OnOk result (HearsMore last.now came piece.now numbers.old numbers.new) }
    ensures others { OnOk result (AreOthers last.now (came + length piece.now / 4) numbers.new) }
    ensures fit { OnOk result (StayU32 last.now came (length piece.now / 4) numbers.old numbers.new) }
{
    match numbers {
        Some(list) => push_numbers(list, piece),
        None => {
            if spells(piece, &last[came..came + piece.len() / 4]) {
                return Ok(());
            }
            let mut list = Vec::with_capacity(alloc, last.len())?;
            list.extend_from_slice(&last[..came])?;
            push_numbers(&mut list, piece)?;
            *numbers = Some(list);
            Ok(())
        }
    }
}

pub(crate) fn push_numbers<A: Allocator>(
    numbers: &mut Vec<u32, A>,
    piece: &[u8],
) -> Result<(), AllocError>
    requires whole { length piece.now % 4 ≡ 0 }
    requires fits { length piece.now ≤ PIECE }
    ensures { OnOk result ((more : List ℕ) × (numbers.new.items ≡ numbers.old.items ++ more)
        × (flat_map u32_text more ≡ piece.now) × All IsU32 more) }
{
    let (cells, _) = piece.as_chunks::<4>();
    let mut words = [0; PIECE / 4];
    let read = &mut words[..cells.len()];
    read_cells(cells, read);
    numbers.extend_from_slice(read)
}

fn read_cells(cells: &[[u8; 4]], numbers: &mut [u32])
    requires { length cells.now ≡ length numbers.old }
    ensures { numbers.new ≡ map (from_be_bytes w32) cells.now }
{
    for i in 0..cells.len() {
        numbers[i] = u32::from_be_bytes(cells[i]);
    }
}
