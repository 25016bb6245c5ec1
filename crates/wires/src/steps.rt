//! The steps of an ask over a line: read the hello, send the shard in pieces, send the ask, and read the answer.
ghost use Rattle.std.specs.Prelude.{◌≡◌, ℕ, ◌<◌, ◌≤◌, ◌==◌, ◌||◌, [], ◌++◌, length, Some, None, IfSome, IfOk, OnOk, IfErr};
ghost use Rattle.std.specs.List.{flat_map};
ghost use Rattle.frames.specs.FrameValue.{ShardFrame, AskFrame, AnswerFrame, value_of};
ghost use Rattle.frames.specs.FrameText.{text_of};
ghost use Rattle.frames.specs.Lawful.{IsVersion, IsAnswer, IsLawful};
ghost use Rattle.frames.specs.FrameStream.{texts_of};
ghost use Rattle.frames.specs.Spellings.{spelled_in, spelling_of};
ghost use Rattle.claim_board.specs.Shards.{has_shard};
ghost use Rattle.wires.specs.Lines.{HasRoom};
ghost use Rattle.wires.specs.Causes.{Receives, FailsToGreet, SendingFault, LacksFrame, AnswerFault, FailsToRead, port_fault};
ghost use Rattle.wires.specs.Clients.{HasFrames, hello_due, shard_put};
ghost use Rattle.wires.specs.Steps.{Steps, SendsText};
ghost use Rattle.wires.specs.Sending.{AwaitsLinks, BeginsShard, PutsSome};

use crate::line::Line;
use crate::line_source::LineSource;
use claim_board::ShardSet;
use frames::{
    Answer, Frame, FrameFault, SHARD_HEAD, Spelling, VERSION, ask_parts, encode_ask, fit_32_bits,
    put_links, read_frame, shard_head,
};
use limits::{MAX_SHARD_LINKS, MAX_SHARDS};
use links::{Labels, Link, Shard};
use round_theory::PortFault;
use std::alloc::{AllocError, Allocator};

// Returns the version of the worker's hello. It reads the hello, unless one of the version `heard` came before.
pub fn greet<L: Line, A: Allocator + Copy>(
    alloc: A,
    source: &mut LineSource<L>,
    heard: Option<u16>,
    worker: u32,
) -> Result<u16, PortFault>
    requires room { HasRoom (L.state source.old.line) }
    requires known { IfSome heard IsVersion }
    ensures step { Steps L.Line (λ version. Receives (hello_due heard version worker)) (FailsToGreet heard worker)
        result source.old.line source.new.line }
    ensures known { IfOk result (λ version. IsVersion version) }
    ensures stays { IfOk result (λ version. (v : ℕ) → heard ≡ Some v → v ≡ version) }
{
    if let Some(version) = heard {
        return Ok(version);
    }
    match hear(alloc, source) {
        Ok(
            Frame::Hello {
                version,
                worker: number,
            },
        ) => {
            if number == worker {
                Ok(version)
            } else {
                Err(PortFault::WrongHello)
            }
        }
        Ok(_) => Err(PortFault::WrongHello),
        Err(fault) => Err(fault_of(fault)),
    }
}

// Whether a worker of this version has a frame for the shard, or got the shard before.
pub fn check_version(version: u16, sent: &ShardSet, part: &Shard) -> Result<(), PortFault>
    requires { IsVersion version }
    ensures has { OnOk result (HasFrames version (shard_put sent.now part.now.number part.now.links.now)) }
    ensures fault { IfErr result (λ e. LacksFrame e version (has_shard sent.now part.now.number) part.now.links.now) }
{
    if version == VERSION || sent.has(part.number) || fit_32_bits(part.links) {
        return Ok(());
    }
    Err(PortFault::TooOld)
}

// The most bytes of a shard that are sent by one put.
const MOST: usize = 1 << 16;

// Sends the shard, unless it was sent before.
//
// It sends at most 64 KiB by one put, so that the worker can decode one piece while the next is encoded, and the whole
// text is never in memory. A shard with few links is one put, since a socket sends each put at once, and two would wake
// the worker twice. Memory for a put is reserved before the first one.
pub fn send_shard<L: Line, A: Allocator + Copy>(
    line: &mut L,
    text: &mut Vec<u8, A>,
    sent: &mut ShardSet,
    part: &Shard,
) -> Result<(), PortFault>
    requires can { HasRoom (L.state line.old) }
    requires number { part.now.number < MAX_SHARDS }
    requires count { length part.now.links.now ≤ MAX_SHARD_LINKS }
    ensures step { SendsText L.Line (texts_of (shard_put sent.old part.now.number part.now.links.now)) result line.old line.new }
    ensures sent { OnOk result ((s : ℕ)
        → has_shard sent.new s ≡ (s == part.now.number || has_shard sent.old s)) }
{
    if sent.has(part.number) {
        return Ok(());
    }
    let spelling = Spelling::of(part.links);
    begin_shard(text, part, spelling)?;
    send_links(line, text, spelling, part.links)?;
    sent.insert(part.number);
    Ok(())
}

// Replaces the text by the bytes before a shard's links, and reserves memory for the links of a put.
fn begin_shard<A: Allocator>(
    text: &mut Vec<u8, A>,
    part: &Shard,
    spelling: Spelling,
) -> Result<(), AllocError>
    requires number { part.now.number < MAX_SHARDS }
    requires count { length part.now.links.now ≤ MAX_SHARD_LINKS }
    requires spelling { spelling_of part.now.links.now ≡ spelling }
    ensures begun { OnOk result (BeginsShard spelling part.now.number part.now.links.now text.new) }
{
    let room = SHARD_HEAD + spelling.bytes_of(part.links.len());
    text.clear();
    text.reserve(room.min(MOST))?;
    text.extend_from_slice(&shard_head(part, spelling))
}

fn send_links<L: Line, A: Allocator>(
    line: &mut L,
    text: &mut Vec<u8, A>,
    spelling: Spelling,
    links: &[Link],
) -> Result<(), PortFault>
    requires can { HasRoom (L.state line.old) }
    requires awaits { AwaitsLinks spelling links.now text.old }
    ensures step { SendsText L.Line (text.old.items ++ flat_map (spelled_in spelling) links.now) result line.old line.new }
{
    let mut rest = send_piece(line, text, spelling, links)?;
    while !rest.is_empty() {
        rest = send_piece(line, text, spelling, rest)?;
    }
    Ok(())
}

// Sends the text and as many links after it as a put may have, and returns the other links.
fn send_piece<'a, L: Line, A: Allocator>(
    line: &mut L,
    text: &mut Vec<u8, A>,
    spelling: Spelling,
    links: &'a [Link],
) -> Result<&'a [Link], PortFault>
    requires can { HasRoom (L.state line.old) }
    requires awaits { AwaitsLinks spelling links.now text.old }
    ensures step { Steps L.Line (λ rest. PutsSome spelling text.old.items links.now rest.now) SendingFault result line.old line.new }
    ensures fewer { IfOk result (λ rest. 0 < length links.now → length rest.now < length links.now) }
    ensures emptied { OnOk result (text.new.items ≡ []) }
    ensures awaits { IfOk result (λ rest. AwaitsLinks spelling rest.now text.new) }
    ensures down { IfErr result (λ e. e ≡ PortFault.Down) }
{
    let most = spelling.links_in(MOST - SHARD_HEAD);
    let (piece, rest) = links.split_at(links.len().min(most));
    put_links(text, spelling, piece);
    send(line, text.as_slice())?;
    text.clear();
    Ok(rest)
}

// An ask with at least this many bytes of labels is sent by two puts.
const LONG: usize = 1 << 16;

// Sends the ask. If there are many labels and they store their bytes, one put sends what precedes these bytes, and
// another sends them without a copy. Other labels are encoded for this ask, which is sent by one put.
pub fn send_ask<L: Line, A: Allocator>(
    alloc: A,
    line: &mut L,
    round: u32,
    shard: u32,
    labels: &Labels<A>,
) -> Result<(), PortFault>
    requires can { HasRoom (L.state line.old) }
    requires shard { shard < MAX_SHARDS }
    ensures step { SendsText L.Line (text_of (AskFrame round shard labels.now)) result line.old line.new }
{
    if let Some(parts) = ask_parts(round, shard, labels) {
        if parts.1.len() >= LONG {
            return send_both(line, &parts.0, parts.1);
        }
    }
    let text = encode_ask(alloc, round, shard, labels)?;
    send(line, text.as_slice())
}

// Reads the answer, whatever its contents are.
pub fn hear_answer<L: Line, A: Allocator + Copy>(
    alloc: A,
    source: &mut LineSource<L>,
) -> Result<Answer<A>, PortFault>
    requires { HasRoom (L.state source.old.line) }
    ensures step { Steps L.Line (λ a. Receives (text_of (AnswerFrame a))) AnswerFault result source.old.line source.new.line }
    ensures lawful { IfOk result (λ a. IsAnswer a) }
{
    match hear(alloc, source) {
        Ok(Frame::Answer(answer)) => Ok(answer),
        Ok(
            Frame::Fault {
                round: _,
                shard: _,
                code,
            },
        ) => Err(PortFault::Gave(code)),
        Ok(_) => Err(PortFault::Garbled),
        Err(fault) => Err(fault_of(fault)),
    }
}

// Reads the next frame. Only here is it used what reads of a line preserve.
fn hear<L: Line, A: Allocator + Copy>(
    alloc: A,
    source: &mut LineSource<L>,
) -> Result<Frame<A>, FrameFault>
    requires { HasRoom (L.state source.old.line) }
    ensures step { Steps L.Line (λ f. Receives (text_of (value_of f))) FailsToRead result source.old.line source.new.line }
    ensures lawful { IfOk result (λ f. IsLawful (value_of f)) }
{
    read_frame(alloc, source)
}

fn send<L: Line>(line: &mut L, bytes: &[u8]) -> Result<(), PortFault>
    requires { HasRoom (L.state line.old) }
    ensures step { SendsText L.Line bytes.now result line.old line.new }
    ensures down { IfErr result (λ e. e ≡ PortFault.Down) }
{
    match line.put(bytes) {
        Ok(()) => Ok(()),
        Err(_) => Err(PortFault::Down),
    }
}

fn send_both<L: Line>(line: &mut L, front: &[u8], rest: &[u8]) -> Result<(), PortFault>
    requires { HasRoom (L.state line.old) }
    ensures step { SendsText L.Line (front.now ++ rest.now) result line.old line.new }
{
    send(line, front)?;
    send(line, rest)
}

// The error of a wire if no frame could be read.
fn fault_of(fault: FrameFault) -> PortFault
    ensures { result ≡ port_fault fault }
{
    match fault {
        FrameFault::Ended | FrameFault::Torn | FrameFault::Device => PortFault::Down,
        FrameFault::Memory => PortFault::Memory,
        FrameFault::BadKind
        | FrameFault::BadLength
        | FrameFault::BadVersion
        | FrameFault::BadField => PortFault::Garbled,
    }
}
