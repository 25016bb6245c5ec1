//! Reads and writes of whole buffers: loops over `read` and `write` that stop at the first error.
ghost use Rattle.std.specs.Prelude.{◌<◌, length, IsOk, IfErr, OnOk};
ghost use Rattle.byte_streams.specs.Streams.{FillGave, EndsOkWhereLeft, Took, WentOut, HadNoSetback};

use crate::{Failed, Sink, Source};
use thiserror::Error;

/// Why [`fill`] didn't fill its buffer, with the number of bytes that had been read by then.
#[derive(Clone, Copy, Debug, PartialEq, Eq, Error)]
pub enum FillFault {
    /// A read failed.
    #[error("read failed after {0} bytes")]
    Failed(usize),

    /// The stream ended.
    #[error("stream ended after {0} bytes")]
    Ended(usize),
}

/// A write failed, or took none of the bytes that were left.
#[derive(Clone, Copy, Debug, PartialEq, Eq, Error)]
#[error("write failed after {written} bytes")]
pub struct PutFault {
    /// How many bytes of the field the sink took.
    pub written: u64,
}

/// Fills the whole of `buf` with the next bytes of the source.
///
/// If `buf` is empty, it reads nothing. After an error, the bytes that were read are at the beginning of `buf`, and the
/// bytes after them may have changed. Makes at most one read per byte, doesn't retry a failed read, and allocates
/// nothing.
pub fn fill<S: Source>(source: &mut S, buf: &mut [u8]) -> Result<(), FillFault>
    requires { S.can_read source.old }

    // What was read. A failure and an end are different errors, and each is counted once.
    ensures gave { FillGave result buf.new (S.state source.old) (S.state source.new) }

    // If the source has enough bytes and doesn't fail, the buffer is filled.
    ensures ends_ok { EndsOkWhereLeft (length buf.new) (S.state source.old) (S.state source.new) result }

    ensures lasts { (fact : S.Fact) → S.lasts source.old fact → S.lasts source.new fact }
    ensures again { OnOk result (S.can_read source.new) }
{
    let mut filled = 0;
    while filled < buf.len() {
        match source.read(&mut buf[filled..]) {
            Ok(0) => return Err(FillFault::Ended(filled)),
            Ok(n) => filled += n,
            Err(Failed) => return Err(FillFault::Failed(filled)),
        }
    }
    Ok(())
}

/// Writes the whole of `field`.
///
/// If `field` is empty, it writes nothing. Makes at most one write per byte, and doesn't retry after a setback. It
/// never flushes and allocates nothing.
pub fn put<W: Sink>(sink: &mut W, field: &[u8]) -> Result<(), PutFault>
    requires { W.can_write sink.old }

    ensures whole { OnOk result (Took 0 field.now (W.state sink.old) (W.state sink.new)) }
    ensures part { IfErr result (λ fault. WentOut fault.written field.now
        (W.state sink.old) (W.state sink.new)) }
    ensures short { IfErr result (λ fault. fault.written < length field.now) }

    // If the sink has no setback, it takes the whole field.
    ensures ends_ok { HadNoSetback (W.state sink.old) (W.state sink.new) → IsOk result }

    ensures again { OnOk result (W.can_write sink.new) }
{
    let mut taken = 0;
    while taken < field.len() {
        match sink.write(&field[taken..]) {
            Ok(0) | Err(Failed) => {
                return Err(PutFault {
                    written: taken as u64,
                });
            }
            Ok(n) => taken += n,
        }
    }
    Ok(())
}
