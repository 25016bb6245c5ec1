ghost use Rattle.std.specs.Prelude.{◌≡◌, ℕ, ◌++◌, List, length, IfOk, IfErr, OnOk, OnErr};
ghost use Rattle.frames.specs.FrameValue.{value_of};
ghost use Rattle.frames.specs.FrameText.{text_of};
ghost use Rattle.frames.specs.Lawful.{IsLawful};
ghost use Rattle.frames.specs.FrameStream.{texts_of, AreLawful, BeginsNone, IsOfStream};
ghost use Rattle.frames.specs.Refusals.{StreamRefused};
ghost use Rattle.worker_replies.specs.Serving.{IsShardFrame, shelf_of, shelf_with, MayFollow, replies_in};
ghost use Rattle.ports.specs.EngineLines.{rest_of, GoesOn, Extends};

use frames::{Frame, FrameFault, encode, read_frame};
use std::alloc::{AllocError, Allocator};
use std::marker::Model;
use worker_engine::{Engine, NO_MEMORY};

// A session: the bytes that came, how many of them were read as frames, and what was written.
#[derive(Drop)]
pub struct Session<A: Allocator> {
    pub alloc: A,
    pub engine: Engine<A>,
    pub input: Vec<u8, A>,
    pub heard: usize,
    pub out: Vec<u8, A>,
}

impl<A: Allocator> Model for Session<A> {
    ghost use Rattle.std.specs.Prelude.{◌≤◌, vec_len};
    ghost use Rattle.ports.specs.EngineLines.{SessionState};

    ghost Value = { SessionState };

    ghost view = { λ s. record { shelf = s.engine; input = s.input.items; heard = s.heard; written = s.out.items } };

    ghost invariant = { λ s. s.heard ≤ vec_len s.input };
}

impl<A: Allocator + Copy> Session<A> {
    // Takes more bytes. After the bytes that are left can't begin a frame, whatever follows, no more frames are read.
    pub fn take_in(&mut self, bytes: &[u8]) -> Result<(), AllocError>
        ensures input { OnOk result (self.new.input ≡ self.old.input ++ bytes.now) }
        ensures grew { Extends self.old.written self.new.written }
        ensures session { OnOk result (GoesOn self.old self.new) }
        ensures all { OnOk result (BeginsNone (rest_of self.new)) }
    {
        self.input.extend_from_slice(bytes)?;
        self.hear_all()
    }

    // Reads and takes all frames that came.
    fn hear_all(&mut self) -> Result<(), AllocError>
        ensures input { self.new.input ≡ self.old.input }
        ensures grew { Extends self.old.written self.new.written }
        ensures session { OnOk result (GoesOn self.old self.new) }
        ensures all { OnOk result (BeginsNone (rest_of self.new)) }
    {
        loop {
            match first_frame(self.alloc, &self.input[self.heard..]) {
                Ok((frame, count)) => {
                    let reply = hear(&mut self.engine, frame)?;
                    write_reply(self.alloc, &mut self.out, reply)?;
                    self.heard += count;
                }
                Err(fault) => return begins_no_frame(fault),
            }
        }
    }
}

// Takes one frame, and returns the reply to it. If there is no memory to reply to an ask, the reply is a fault, which
// needs none.
fn hear<A: Allocator + Copy>(
    engine: &mut Engine<A>,
    frame: Frame<A>,
) -> Result<Option<Frame<A>>, AllocError>
    requires { IsLawful (value_of frame) }
    ensures shelf { OnOk result (shelf_of engine.new ≡ shelf_with (shelf_of engine.old) (value_of frame)) }
    ensures reply { IfOk result (λ reply. MayFollow (shelf_of engine.old) (value_of frame) (replies_in reply)) }
    ensures lawful { IfOk result (λ reply. AreLawful (replies_in reply)) }
    ensures unchanged { OnErr result (engine.new ≡ engine.old) }
    ensures wants_memory { OnErr result (IsShardFrame (value_of frame)) }
{
    match frame {
        Frame::Ask {
            round,
            shard,
            labels,
        } => {
            let ask = Frame::Ask {
                round,
                shard,
                labels,
            };
            match engine.hear(ask) {
                Ok(reply) => Ok(reply),
                Err(_) => Ok(Some(Frame::Fault {
                    round,
                    shard,
                    code: NO_MEMORY,
                })),
            }
        }
        Frame::Hello { .. } | Frame::Shard { .. } | Frame::Answer(_) | Frame::Fault { .. } =>
            engine.hear(frame),
    }
}

// The frame with which these bytes begin, and the length of its text.
fn first_frame<A: Allocator + Copy>(alloc: A, bytes: &[u8]) -> Result<(Frame<A>, usize), FrameFault>
    ensures lawful { IfOk result (λ p. IsLawful (value_of p.0)) }
    ensures count { IfOk result (λ p. p.1 ≡ length (text_of (value_of p.0))) }
    ensures text { IfOk result
        (λ p. (left : List ℕ) × (bytes.now ≡ text_of (value_of p.0) ++ left)) }
    ensures refused { IfErr result (λ fault. IsOfStream fault → StreamRefused fault bytes.now) }
{
    let mut rest = bytes;
    match read_frame(alloc, &mut rest) {
        Ok(frame) => Ok((frame, bytes.len() - rest.len())),
        Err(fault) => Err(fault),
    }
}

fn write_reply<A: Allocator + Copy>(
    alloc: A,
    out: &mut Vec<u8, A>,
    reply: Option<Frame<A>>,
) -> Result<(), AllocError>
    requires { AreLawful (replies_in reply) }
    ensures wrote { OnOk result (out.new.items ≡ out.old.items ++ texts_of (replies_in reply)) }
    ensures grew { Extends out.old.items out.new.items }
{
    match reply {
        None => Ok(()),
        Some(frame) => {
            let text = encode(alloc, &frame)?;
            out.extend_from_slice(text.as_slice())?;
            Ok(())
        }
    }
}

// Bytes with this error begin with no frame, unless memory ran out.
fn begins_no_frame(fault: FrameFault) -> Result<(), AllocError>
    ensures { OnOk result (IsOfStream fault) }
{
    match fault {
        FrameFault::Memory | FrameFault::Device => Err(AllocError),
        FrameFault::Ended
        | FrameFault::Torn
        | FrameFault::BadKind
        | FrameFault::BadLength
        | FrameFault::BadVersion
        | FrameFault::BadField => Ok(()),
    }
}
