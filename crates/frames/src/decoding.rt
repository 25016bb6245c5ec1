//! Decodes frames from bytes.
ghost use Rattle.std.specs.Prelude.{◌≡◌, length, IfOk, IfErr};
ghost use Rattle.frames.specs.FrameValue.{value_of};
ghost use Rattle.frames.specs.Refusals.{IsPossible, IsFrameOf, BodyRefused};

use crate::fault::FrameFault;
use crate::fields::{split_u16, split_u32};
use crate::frame::{Frame, VERSION};
use crate::frame_reader::read_listed;
use crate::head::Head;
use limits::MAX_WORKERS;
use std::alloc::Allocator;

/// Decodes the body that follows a head.
///
/// It returns `BadVersion` if the body is a hello of a version other than 1 and 2, and otherwise `BadField` if no
/// lawful frame has this body. It also returns `BadField` for a shard of kind 6 whose weights all fit 32 bits, since
/// such a shard has kind 2.
///
/// It allocates one list in addition to the body's bytes, as [`read_frame`](crate::read_frame) does; a hello and a
/// fault need no memory. It returns `Memory` if that list can't grow, and only after the fields before the list were
/// found lawful.
pub fn decode_body<A: Allocator>(alloc: A, head: Head, body: &[u8]) -> Result<Frame<A>, FrameFault>
    requires length { length body.now ≡ head.length }
    requires possible { IsPossible head.kind head.length }
    ensures frame { IfOk result (λ f. IsFrameOf (value_of f) head.kind body.now) }
    ensures refused { IfErr result (λ fault. BodyRefused fault head.kind body.now) }
{
    match head.kind {
        1 => decode_hello(body),
        5 => decode_fault(body),
        _ => {
            let mut source = body;
            read_listed(alloc, &mut source, head)
        }
    }
}

#[tactic(auto, using(crate::proofs::Decoded::hello_found, crate::proofs::Decoded::hello_refused))]
fn decode_hello<A: Allocator>(body: &[u8]) -> Result<Frame<A>, FrameFault>
    requires { length body.now ≡ 6 }
    ensures frame { IfOk result (λ f. IsFrameOf (value_of f) 1 body.now) }
    ensures refused { IfErr result (λ fault. BodyRefused fault 1 body.now) }
{
    let (version, rest) = split_u16(body);
    let (worker, _) = split_u32(rest);
    if version == 0 || version > VERSION {
        return Err(FrameFault::BadVersion);
    }
    if worker >= MAX_WORKERS {
        return Err(FrameFault::BadField);
    }
    Ok(Frame::Hello { version, worker })
}

fn decode_fault<A: Allocator>(body: &[u8]) -> Result<Frame<A>, FrameFault>
    requires { length body.now ≡ 9 }
    ensures frame { IfOk result (λ f. IsFrameOf (value_of f) 5 body.now) }
    ensures refused { IfErr result (λ fault. BodyRefused fault 5 body.now) }
{
    let (round, rest) = split_u32(body);
    let (shard, rest) = split_u32(rest);
    let code = rest[0];
    if code == 0 || code > 3 {
        return Err(FrameFault::BadField);
    }
    Ok(Frame::Fault { round, shard, code })
}
