ghost use Rattle.std.specs.Prelude.{◌≡◌, ◌≤◌, ◌<◌, false, length, IfOk, OnOk};
ghost use Rattle.gr_text.specs.Following.{FollowsOn, IsKeeping, IsNewKeeper, ReadsRest};
ghost use Rattle.gr_text.specs.Kept.{IsKeptReadOf};
ghost use Rattle.gr_text.specs.Sourced.{IsReadOf};

use crate::faults::ReadFault;
use crate::feeders::{Feed, SharedPieces, WholePieces};
use crate::graphs::Graph;
use crate::keep::{Keep, KeepAll};
use crate::parallel::LEAST_LINE;
use crate::reader::GrReader;
use byte_streams::{Failed, Source};
use limits::MAX_BYTES;
use links::Link;
use std::alloc::{AllocError, Allocator};
use std::thread::Threads;

// The number of bytes that one thread reads at once, into an array on the stack. A function that has this array is
// never inlined. In a caller it would add to another such array, and Linux maps only 132 KiB of stack at first.
const READ_ROOM: usize = 65_536;

// The number of bytes read at once if threads share them.
const PAR_READ_ROOM: usize = 1 << 20;

// One thread reads this many bytes of a source before threads share the others.
const ALONE: u64 = 1 << 20;

/// Reads a graph from a source of at most 2^40 bytes.
///
/// Does what [`read_graph_upto`] does with the limit [`MAX_BYTES`].
pub fn read_graph<S: Source, A: Allocator>(alloc: A, source: &mut S) -> Result<Graph<A>, ReadFault>
    requires { S.can_read source.old }
    ensures outcome { IsReadOf MAX_BYTES result (S.state source.old) (S.state source.new) }
{
    read_graph_upto(alloc, source, MAX_BYTES)
}

/// Reads a graph from a source of at most `limit` bytes.
///
/// The source is read to its end, up to the first error, or until it gave more than `limit` bytes. If a read fails, the
/// error is `Source`, unless a line that ended before is invalid. The source is read 64 KiB at a time into an array on
/// the stack. The memory is that of the edges, and the time is linear in the number of bytes.
pub fn read_graph_upto<S: Source, A: Allocator>(
    alloc: A,
    source: &mut S,
    limit: u64,
) -> Result<Graph<A>, ReadFault>
    requires can { S.can_read source.old }
    requires limit { limit ≤ MAX_BYTES }
    ensures outcome { IsReadOf limit result (S.state source.old) (S.state source.new) }
{
    read_kept_upto(&mut KeepAll, alloc, source, limit)
}

/// Reads a graph from a source of at most 2^40 bytes. The graph has only those edges that a keeper keeps.
///
/// Does what [`read_graph`] does, and calls the keeper after each read as soon as the problem line has come. If the
/// keeper fails, the error is `Memory`. The keeper must not know of any edges yet. The memory is that of the kept edges
/// and of the edges of one read, in addition to the keeper's own.
pub fn read_graph_kept<K: Keep<A>, S: Source, A: Allocator>(
    keeper: &mut K,
    alloc: A,
    source: &mut S,
) -> Result<Graph<A>, ReadFault>
    requires keeper { IsNewKeeper K.Keep keeper.old }
    requires can { S.can_read source.old }
    ensures outcome { IsKeptReadOf K.drops MAX_BYTES (K.dropped keeper.new) result (S.state source.old) (S.state source.new) }
{
    read_kept_upto(keeper, alloc, source, MAX_BYTES)
}

#[inline(never)]
fn read_kept_upto<K: Keep<A>, S: Source, A: Allocator>(
    keeper: &mut K,
    alloc: A,
    source: &mut S,
    limit: u64,
) -> Result<Graph<A>, ReadFault>
    requires keeper { IsNewKeeper K.Keep keeper.old }
    requires can { S.can_read source.old }
    requires limit { limit ≤ MAX_BYTES }
    ensures outcome { IsKeptReadOf K.drops limit (K.dropped keeper.new) result (S.state source.old) (S.state source.new) }
{
    let mut buffer = [0; READ_ROOM];
    read_rest(
        &mut WholePieces,
        keeper,
        GrReader::new(alloc, limit),
        source,
        &mut buffer,
    )
}

/// Reads a graph from a source of at most 2^40 bytes with at most this many threads; 0 means one.
///
/// The first MiB is read as by [`read_graph`], the rest 1 MiB at a time. Threads share such a piece if every line but
/// the first and the last is a valid arc line `a U V W` with single spaces. One thread reads any other piece, and any
/// piece of less than 128 KiB. From the second MiB on this takes 3 MiB more; if they can't be allocated, one thread
/// reads everything.
pub fn read_graph_par<R: Threads + Sync, S: Source, A: Allocator + Copy>(
    rt: &R,
    threads: usize,
    alloc: A,
    source: &mut S,
) -> Result<Graph<A>, ReadFault>
    requires { S.can_read source.old }
    ensures outcome { IsReadOf MAX_BYTES result (S.state source.old) (S.state source.new) }
{
    read_graph_kept_par(rt, threads, &mut KeepAll, alloc, source)
}

/// Does what [`read_graph_par`] does, and calls a keeper after each read as [`read_graph_kept`] does.
#[inline(never)]
pub fn read_graph_kept_par<R: Threads + Sync, K: Keep<A>, S: Source, A: Allocator + Copy>(
    rt: &R,
    threads: usize,
    keeper: &mut K,
    alloc: A,
    source: &mut S,
) -> Result<Graph<A>, ReadFault>
    requires keeper { IsNewKeeper K.Keep keeper.old }
    requires can { S.can_read source.old }
    ensures outcome { IsKeptReadOf K.drops MAX_BYTES (K.dropped keeper.new) result (S.state source.old) (S.state source.new) }
{
    let mut reader = GrReader::new(alloc, MAX_BYTES);
    let mut buffer = [0; READ_ROOM];
    if threads < 2 {
        return read_rest(&mut WholePieces, keeper, reader, source, &mut buffer);
    }
    match read_pieces(
        &mut WholePieces,
        keeper,
        &mut reader,
        source,
        &mut buffer,
        ALONE,
    ) {
        Ok(true) => return reader.finish(),
        Ok(false) => {}
        Err(fault) => return Err(fault),
    }
    let any = Link {
        weight: 0,
        low: 1,
        high: 2,
    };
    let mut pieces = Vec::new(alloc);
    let mut room = Vec::new(alloc);
    if pieces.resize(PAR_READ_ROOM, 0).is_err()
        || room.resize(PAR_READ_ROOM / LEAST_LINE, any).is_err()
    {
        return read_rest(&mut WholePieces, keeper, reader, source, &mut buffer);
    }
    let mut feeder = SharedPieces { rt, threads, room };
    read_rest(&mut feeder, keeper, reader, source, pieces.as_mut_slice())
}

// Reads the rest of a source that a reader has followed so far.
fn read_rest<F: Feed<A>, K: Keep<A>, S: Source, A: Allocator>(
    feeder: &mut F,
    keeper: &mut K,
    mut reader: GrReader<A>,
    source: &mut S,
    buffer: &mut [u8],
) -> Result<Graph<A>, ReadFault>
    requires ready { F.ready }
    requires can { S.can_read source.old }
    requires room { 0 < length buffer.old }
    requires limit { reader.limit ≤ MAX_BYTES }
    requires keeps { IsKeeping K.Keep keeper.old reader }
    ensures { ReadsRest K.Keep result keeper.old reader (S.state source.old) keeper.new (S.state source.new) }
{
    match read_pieces(feeder, keeper, &mut reader, source, buffer, MAX_BYTES + 1) {
        Ok(_ended) => reader.finish(),
        Err(fault) => Err(fault),
    }
}

// Reads a source with one read per piece, each of at most `buffer.len()` bytes, and calls the keeper after each. It
// stops at the end of the source, or after `enough` bytes or more. Returns whether it has found the end.
fn read_pieces<F: Feed<A>, K: Keep<A>, S: Source, A: Allocator>(
    feeder: &mut F,
    keeper: &mut K,
    reader: &mut GrReader<A>,
    source: &mut S,
    buffer: &mut [u8],
    enough: u64,
) -> Result<bool, ReadFault>
    requires ready { F.ready }
    requires can { S.can_read source.old }
    requires room { 0 < length buffer.old }
    requires limit { reader.old.limit ≤ MAX_BYTES }
    requires keeps { IsKeeping K.Keep keeper.old reader.old }
    ensures limit { reader.new.limit ≡ reader.old.limit }
    ensures again { IfOk result (λ ended. ended ≡ false → S.can_read source.new) }
    ensures enough { IfOk result (λ ended. ended ≡ false → enough ≤ reader.new.limit) }
    ensures keeps { OnOk result (IsKeeping K.Keep keeper.new reader.new) }
    ensures followed { FollowsOn K.Keep result keeper.old reader.old (S.state source.old) keeper.new reader.new (S.state source.new) }
{
    let mut read = 0;
    while read < enough {
        match source.read(buffer) {
            Err(Failed) => {
                return Err(ReadFault::Source {
                    line: reader.line(),
                });
            }
            Ok(0) => return Ok(true),
            Ok(n) => {
                if let Err(fault) = feeder.feed(reader, &buffer[..n]) {
                    return Err(fault);
                }
                match reader.keep(keeper) {
                    Ok(()) => read += n as u64,
                    Err(AllocError) => return Err(ReadFault::Memory),
                }
            }
        }
    }
    Ok(false)
}
