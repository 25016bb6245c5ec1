//! A worker's session, which reads frames from a source and writes replies to a sink.
ghost use Rattle.std.specs.Prelude.{◌≡◌, ◌≢◌, ◌+◌, ◌-◌, ◌*◌, ◌<◌, ◌≤◌, ◌^◌, ◌++◌, IfOk, IfErr, OnOk, OnErr, length};
ghost use Rattle.std.specs.List.{flat_map};
ghost use Rattle.byte_streams.specs.Streams.{Took};
ghost use Rattle.frames.specs.FrameValue.{HelloFrame, AnswerFrame, FaultFrame};
ghost use Rattle.frames.specs.FrameText.{offer_text, text_of};
ghost use Rattle.frames.specs.FrameStream.{texts_of, AreLawful};
ghost use Rattle.worker_replies.specs.Serving.{replies_in};
ghost use Rattle.worker_engine.specs.Served.{ServesToEnd, EndsBy, CountsReplies, AreAnswersOrFaults, WroteFor, WroteSome, CutOff, Ungreeted};
ghost use Rattle.worker_engine.specs.declared.session.ServeFault.TheVariants.{Read, Write};
ghost use Rattle.frames.specs.declared.fault.FrameFault.TheVariants.{Ended};
ghost use Rattle.worker_engine.specs.declared.session.Written.TheVariants.{AFault};

use crate::engine::Engine;
use byte_streams::{Sink, Source, put};
use frames::{
    ANSWER_HEAD, Answer, Frame, FrameFault, VERSION, answer_head, encode, fault_bytes, put_offers,
};
use limits::{MAX_SHARD_LINKS, MAX_WORKERS};
use std::alloc::Allocator;
use std::thread::Threads;
use thiserror::Error;

/// What a session read and wrote.
#[derive(Clone, Copy, Debug, PartialEq, Eq)]
pub struct Served {
    /// How many frames were read.
    pub frames: u64,

    pub answers: u64,

    pub faults: u64,
}

/// Why a session ended before its stream did.
#[derive(Clone, Copy, Debug, PartialEq, Eq, Error)]
pub enum ServeFault {
    /// No whole lawful frame could be read. It is never `Ended`, since a session succeeds then.
    #[error("{0}")]
    Read(FrameFault),

    /// A write failed, or wrote nothing.
    #[error("write failed")]
    Write,

    /// There was no memory for the hello, or for a shard.
    #[error("no memory")]
    Memory,

    /// As many frames as the limit were read.
    #[error("too many frames")]
    TooMany,
}

#[derive(Clone, Copy)]
pub(crate) enum Written {
    Nothing,
    AnAnswer,
    AFault,
}

/// Runs a worker's session that reads at most `frames` frames.
///
/// It writes the hello of `worker`, with [`VERSION`](frames::VERSION). Then it reads frame after frame, and writes one
/// reply to each ask, until the source ends before a frame. The first scan of a shard is done by threads if there are
/// enough links for [`scan_par`](crate::scan_par). If there is no memory for a scan, the reply is a fault with the code
/// [`NO_MEMORY`](crate::NO_MEMORY), which needs none, and the session goes on.
///
/// It returns these errors:
/// - `Read` if no whole lawful frame could be read.
/// - `Write` at the first write that fails or writes nothing.
/// - `Memory` if there is no memory for the hello or for a shard.
/// - `TooMany` after `frames` frames, without a further read.
///
/// It never flushes the sink. In addition to what its [`Engine`] stores, it has one frame and one reply in memory at a
/// time. An answer is written by writes of at most 65,536 bytes, which are encoded one after the other in one buffer on
/// the stack. So its text takes no memory, and the coordinator can decode one part while the next is encoded.
pub fn serve_upto<R: Threads + Sync, A: Allocator + Copy + Send + Sync, S: Source, W: Sink>(
    rt: &R,
    alloc: A,
    worker: u32,
    source: &mut S,
    sink: &mut W,
    frames: u64,
) -> Result<Served, ServeFault>
    requires worker { worker < MAX_WORKERS }
    requires can_read { S.can_read source.old }
    requires can_write { W.can_write sink.old }
    ensures ends_well { IfOk result (λ served. ServesToEnd worker served
        (S.state source.old) (S.state source.new) (W.state sink.old) (W.state sink.new)) }
    ensures ends_by { IfErr result (λ fault. EndsBy worker frames fault
        (S.state source.old) (S.state source.new) (W.state sink.old) (W.state sink.new)) }
    ensures in_limit { IfOk result (λ served. served.frames < frames) }
{
    greet(alloc, worker, sink)?;
    let mut engine = Engine::new(alloc);
    let mut served = Served {
        frames: 0,
        answers: 0,
        faults: 0,
    };
    while served.frames < frames {
        let reply = match engine.hear_next(rt, alloc, source) {
            Ok(reply) => reply,
            Err(fault) => return stopped(served, fault),
        };
        let written = write_reply(reply, sink)?;
        served.count(written);
    }
    Err(ServeFault::TooMany)
}

/// Runs [`serve_upto`] with at most 2^32 frames.
pub fn serve<R: Threads + Sync, A: Allocator + Copy + Send + Sync, S: Source, W: Sink>(
    rt: &R,
    alloc: A,
    worker: u32,
    source: &mut S,
    sink: &mut W,
) -> Result<Served, ServeFault>
    requires worker { worker < MAX_WORKERS }
    requires can_read { S.can_read source.old }
    requires can_write { W.can_write sink.old }
    ensures ends_well { IfOk result (λ served. ServesToEnd worker served
        (S.state source.old) (S.state source.new) (W.state sink.old) (W.state sink.new)) }
    ensures ends_by { IfErr result (λ fault. EndsBy worker (2 ^ 32) fault
        (S.state source.old) (S.state source.new) (W.state sink.old) (W.state sink.new)) }
    ensures in_limit { IfOk result (λ served. served.frames < 2 ^ 32) }
{
    serve_upto(rt, alloc, worker, source, sink, 1 << 32)
}

// How a session ends if no frame was read. It succeeds if the stream ended before one.
fn stopped(served: Served, fault: ServeFault) -> Result<Served, ServeFault>
    ensures over { IfOk result (λ counts. (counts ≡ served) × (fault ≡ Read Ended)) }
    ensures stops { IfErr result (λ why. (why ≡ fault) × (fault ≢ Read Ended)) }
{
    match fault {
        ServeFault::Read(FrameFault::Ended) => Ok(served),
        ServeFault::Read(
            FrameFault::Torn
            | FrameFault::Device
            | FrameFault::Memory
            | FrameFault::BadKind
            | FrameFault::BadLength
            | FrameFault::BadVersion
            | FrameFault::BadField,
        )
        | ServeFault::Write
        | ServeFault::Memory
        | ServeFault::TooMany => Err(fault),
    }
}

impl Served {
    // Counts a frame, and what was written for it.
    fn count(&mut self, written: Written)
        requires few_frames { self.old.frames < 2 ^ 64 - 1 }
        requires few_replies { self.old.answers + self.old.faults ≤ self.old.frames }
        ensures frames { self.new.frames ≡ self.old.frames + 1 }
        ensures replies { CountsReplies written self.old self.new }
        ensures few { self.new.answers + self.new.faults ≤ self.new.frames }
    {
        self.frames += 1;
        match written {
            Written::Nothing => {}
            Written::AnAnswer => self.answers += 1,
            Written::AFault => self.faults += 1,
        }
    }
}

fn greet<A: Allocator + Copy, W: Sink>(
    alloc: A,
    worker: u32,
    sink: &mut W,
) -> Result<(), ServeFault>
    requires worker { worker < MAX_WORKERS }
    requires can { W.can_write sink.old }
    ensures greeted { OnOk result (Took 0 (text_of (HelloFrame VERSION worker)) (W.state sink.old) (W.state sink.new)) }
    ensures ungreeted { IfErr result (λ fault. Ungreeted fault (text_of (HelloFrame VERSION worker)) (W.state sink.old) (W.state sink.new)) }
    ensures again { OnOk result (W.can_write sink.new) }
{
    let hello: Frame<A> = Frame::Hello {
        version: VERSION,
        worker,
    };
    match encode(alloc, &hello) {
        Ok(text) => write_whole(sink, text.as_slice()),
        Err(_) => Err(ServeFault::Memory),
    }
}

fn write_whole<W: Sink>(sink: &mut W, text: &[u8]) -> Result<(), ServeFault>
    requires can { W.can_write sink.old }
    requires fits { length text.now < 2 ^ 64 }
    ensures whole { OnOk result (Took 0 text.now (W.state sink.old) (W.state sink.new)) }
    ensures write { IfErr result (λ fault. fault ≡ Write) }
    ensures cut { OnErr result (CutOff text.now (W.state sink.old) (W.state sink.new)) }
    ensures again { OnOk result (W.can_write sink.new) }
{
    match put(sink, text) {
        Ok(()) => Ok(()),
        Err(_) => Err(ServeFault::Write),
    }
}

// Writes the reply to a frame, if there is one. It allocates nothing.
fn write_reply<A: Allocator + Copy, W: Sink>(
    reply: Option<Frame<A>>,
    sink: &mut W,
) -> Result<Written, ServeFault>
    requires lawful { AreLawful (replies_in reply) }
    requires kinds { AreAnswersOrFaults (replies_in reply) }
    requires can { W.can_write sink.old }
    ensures wrote { IfOk result (λ written. WroteFor (replies_in reply) written (W.state sink.old) (W.state sink.new)) }
    ensures write { IfErr result (λ fault. fault ≡ Write) }
    ensures cut { OnErr result (CutOff (texts_of (replies_in reply)) (W.state sink.old) (W.state sink.new)) }
    ensures again { OnOk result (W.can_write sink.new) }
{
    let Some(reply) = reply else {
        return Ok(Written::Nothing);
    };
    match &reply {
        Frame::Fault { round, shard, code } => write_fault(sink, *round, *shard, *code),
        Frame::Answer(answer) => match write_answer(sink, answer) {
            Ok(()) => Ok(Written::AnAnswer),
            Err(fault) => Err(fault),
        },
        Frame::Hello { .. } | Frame::Shard { .. } | Frame::Ask { .. } => unreachable!(),
    }
}

fn write_answer<A: Allocator, W: Sink>(sink: &mut W, answer: &Answer<A>) -> Result<(), ServeFault>
    requires few { length answer.now.offers ≤ 2 * MAX_SHARD_LINKS }
    requires can { W.can_write sink.old }
    ensures whole { OnOk result (Took 0 (text_of (AnswerFrame answer.now)) (W.state sink.old) (W.state sink.new)) }
    ensures write { IfErr result (λ fault. fault ≡ Write) }
    ensures cut { OnErr result (CutOff (text_of (AnswerFrame answer.now)) (W.state sink.old) (W.state sink.new)) }
    ensures again { OnOk result (W.can_write sink.new) }
{
    let head = answer_head(answer);
    write_offers(sink, &head, answer.offers.pairs())
}

// The most bytes of an answer that are written at a time.
const MOST: usize = 1 << 16;

// Writes a head and the offers after it, by writes of at most 64 KiB. An answer with few offers is one write, since a
// socket sends each write at once, and two would wake the coordinator twice.
fn write_offers<W: Sink>(sink: &mut W, head: &[u8], offers: &[(u32, u32)]) -> Result<(), ServeFault>
    requires short { length head.now ≤ ANSWER_HEAD }
    requires can { W.can_write sink.old }
    ensures whole { OnOk result (Took 0 (head.now ++ flat_map offer_text offers.now) (W.state sink.old) (W.state sink.new)) }
    ensures write { IfErr result (λ fault. fault ≡ Write) }
    ensures cut { OnErr result (CutOff (head.now ++ flat_map offer_text offers.now) (W.state sink.old) (W.state sink.new)) }
    ensures again { OnOk result (W.can_write sink.new) }
{
    let mut buffer = [0; MOST];
    let mut rest = write_piece(sink, &mut buffer, head, offers)?;
    while !rest.is_empty() {
        rest = write_piece(sink, &mut buffer, &[], rest)?;
    }
    Ok(())
}

// Writes a head and as many offers after it as the buffer can take, and returns the other offers.
fn write_piece<'a, W: Sink>(
    sink: &mut W,
    buffer: &mut [u8],
    head: &[u8],
    offers: &'a [(u32, u32)],
) -> Result<&'a [(u32, u32)], ServeFault>
    requires room { length buffer.old ≡ MOST }
    requires short { length head.now ≤ ANSWER_HEAD }
    requires can { W.can_write sink.old }
    ensures some { IfOk result (λ rest. WroteSome head.now offers.now rest.now (W.state sink.old) (W.state sink.new)) }
    ensures fewer { IfOk result (λ rest. 0 < length offers.now → length rest.now < length offers.now) }
    ensures room { length buffer.new ≡ MOST }
    ensures write { IfErr result (λ fault. fault ≡ Write) }
    ensures cut { OnErr result (CutOff (head.now ++ flat_map offer_text offers.now) (W.state sink.old) (W.state sink.new)) }
    ensures again { OnOk result (W.can_write sink.new) }
{
    let most = (MOST - head.len()) / 8;
    let (piece, rest) = offers.split_at(offers.len().min(most));
    let len = head.len() + 8 * piece.len();
    let text = &mut buffer[..len];
    fill_piece(text, head, piece);
    write_whole(sink, text)?;
    Ok(rest)
}

fn fill_piece(text: &mut [u8], head: &[u8], offers: &[(u32, u32)])
    requires { length text.old ≡ length head.now + 8 * length offers.now }
    ensures { text.new ≡ head.now ++ flat_map offer_text offers.now }
{
    let (front, behind) = text.split_at_mut(head.len());
    front.copy_from_slice(head);
    put_offers(behind, offers);
}

fn write_fault<W: Sink>(
    sink: &mut W,
    round: u32,
    shard: u32,
    code: u8,
) -> Result<Written, ServeFault>
    requires can { W.can_write sink.old }
    ensures sort { IfOk result (λ written. written ≡ AFault) }
    ensures took { OnOk result (Took 0 (text_of (FaultFrame round shard code)) (W.state sink.old) (W.state sink.new)) }
    ensures write { IfErr result (λ fault. fault ≡ Write) }
    ensures cut { OnErr result (CutOff (text_of (FaultFrame round shard code)) (W.state sink.old) (W.state sink.new)) }
    ensures again { OnOk result (W.can_write sink.new) }
{
    match write_whole(sink, &fault_bytes(round, shard, code)) {
        Ok(()) => Ok(Written::AFault),
        Err(fault) => Err(fault),
    }
}
