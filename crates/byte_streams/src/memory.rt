//! Streams over memory. Reading from a slice never fails. Writing to a `Vec` fails only if it can't grow, and nothing
//! counts these failures. A [`BufferedSink`] shows which of its bytes wait for a flush.
ghost use Rattle.std.specs.Prelude.{◌≡◌, ◌+◌, ◌<◌, ◌≤◌, take, drop, length, Some, None, IsOk, IfOk, OnOk, OnErr, vec_len, vec_capacity};
ghost use Rattle.std.specs.Io.{WritesAtMost};
ghost use Rattle.byte_streams.specs.Streams.{only_held, WriteTook, FlushTook, IsFlushed};
ghost use Rattle.byte_streams.specs.BufferedSink.{BufferedSinkState};

use crate::{Failed, Sink, Source};
use std::alloc::{Allocator, Global};
use std::io::Read;
use std::marker::Model;

impl Source for &[u8] {
    ghost state = { λ s. record { left = Some s.now; given = None; failures = Some 0; ends = None } };

    ghost lasts = { λ _ _. Unit {0} };

    fn read(&mut self, buf: &mut [u8]) -> Result<usize, Failed> {
        Read::read(self, buf).map_err(|_| Failed)
    }
}

impl<A: Allocator> Sink for Vec<u8, A> {
    ghost state = { λ v. only_held (Some v.items) };

    fn write(&mut self, buf: &[u8]) -> Result<usize, Failed>
        ensures bound { WritesAtMost result buf.now }
        ensures took { WriteTook result buf.now (only_held (Some self.old.items))
            (only_held (Some self.new.items)) }

        // A write takes the whole buffer. It fails only if the vector's capacity is too small for it.
        ensures whole { IfOk result (λ n. n ≡ length buf.now) }
        ensures full { OnErr result
            (vec_capacity self.old < vec_len self.old + length buf.now) }
    {
        self.extend_from_slice(buf).map_err(|_| Failed)?;
        Ok(buf.len())
    }

    fn flush(&mut self) -> Result<(), Failed>
        ensures took { FlushTook result (only_held (Some self.old.items))
            (only_held (Some self.new.items)) }
        ensures unchanged { self.new ≡ self.old }
        ensures passes { IsOk result }
    {
        Ok(())
    }
}

/// A sink over a vector whose bytes wait until it is flushed, for the tests of the crates that use this one.
#[derive(Drop)]
pub struct BufferedSink<A: Allocator = Global> {
    held: Vec<u8, A>,
    flushed: usize,
}

impl<A: Allocator> Model for BufferedSink<A> {
    ghost Value = { BufferedSinkState };

    ghost view = { λ s. record { held = s.held.items; flushed = s.flushed; capacity = vec_capacity s.held } };

    ghost invariant = { λ s. s.flushed ≤ vec_len s.held };
}

impl<A: Allocator> BufferedSink<A> {
    /// Returns a sink that took these bytes, all of which wait for a flush.
    pub fn new(held: Vec<u8, A>) -> Self
        ensures { result ≡ record { held = held.items; flushed = 0; capacity = vec_capacity held } }
    {
        BufferedSink { held, flushed: 0 }
    }

    /// The bytes that were flushed.
    pub fn flushed(&self) -> &[u8]
        ensures { result.now ≡ take self.now.flushed self.now.held }
    {
        &self.held[..self.flushed]
    }
}

impl<A: Allocator> Sink for BufferedSink<A> {
    ghost state = { λ s. only_held (Some s.held) };

    ghost unflushed = { λ s. Some (drop s.flushed s.held) };

    fn write(&mut self, buf: &[u8]) -> Result<usize, Failed>
        ensures bound { WritesAtMost result buf.now }
        ensures took { WriteTook result buf.now (only_held (Some self.old.held))
            (only_held (Some self.new.held)) }

        // A write takes the whole buffer, which then waits. It fails only if the vector's capacity is too small for it.
        ensures whole { IfOk result (λ n. n ≡ length buf.now) }
        ensures waits { self.new.flushed ≡ self.old.flushed }
        ensures full { OnErr result
            (self.old.capacity < length self.old.held + length buf.now) }
    {
        self.held.write(buf)
    }

    fn flush(&mut self) -> Result<(), Failed>
        ensures took { FlushTook result (only_held (Some self.old.held))
            (only_held (Some self.new.held)) }
        ensures flushed { OnOk result (IsFlushed (Some (drop self.new.flushed self.new.held))) }
        ensures passes { IsOk result }
    {
        self.flushed = self.held.len();
        self.held.flush()
    }
}
