// The source and the sink of a run or a session. One of them fails or stops at a chosen byte.
ghost use Rattle.std.specs.Prelude.{◌<◌, ◌≤◌, ◌-◌, ◌^◌, IfOk};

use byte_streams::{FusedSink, FusedSource};
use std::alloc::{AllocError, Global};

// More bytes than any run or session here reads or writes.
const ALL: usize = 1000;

/// The source fails. Or each write and each flush of the sink fail. Or the sink takes nothing more, and its flush
/// succeeds.
#[derive(Clone, Copy)]
pub(crate) enum Setback {
    Source,
    Sink,
    FullSink,
}

/// The setback comes after `passes` bytes. `piece` bytes pass at a time.
#[derive(Clone, Copy)]
pub(crate) struct Place {
    pub(crate) setback: Setback,
    pub(crate) passes: usize,
    pub(crate) piece: usize,
}

pub(crate) fn source_of(bytes: Vec<u8>, place: Place) -> FusedSource
    requires piece { 1 ≤ place.piece }
    ensures can_read { (result.failures < 2 ^ 64 - 1) × (result.ends < 2 ^ 64 - 1) }
{
    let passes = match place.setback {
        Setback::Source => place.passes,
        Setback::Sink | Setback::FullSink => ALL,
    };
    FusedSource::new(bytes, passes, place.piece)
}

pub(crate) fn sink_at(alloc: Global, place: Place) -> Result<FusedSink, AllocError>
    requires piece { 1 ≤ place.piece }
    ensures can_write { IfOk result (λ sink. sink.setbacks < 2 ^ 64 - 1) }
{
    match place.setback {
        Setback::Source => FusedSink::new(alloc, ALL, place.piece),
        Setback::Sink => FusedSink::new(alloc, place.passes, place.piece),
        Setback::FullSink => FusedSink::stopped(alloc, place.passes, place.piece),
    }
}
