//! Sources and sinks over memory that fail at a chosen byte, for the tests of the crates that use this one. Their
//! counts are fields, so their states have every part.
ghost use Rattle.std.specs.Prelude.{◌≡◌, ◌-◌, ◌^◌, ◌<◌, ◌≤◌, true, false, take, drop, length, IfOk, OnOk, IsErr, IsTrue, ◌↔◌, vec_len, vec_capacity, if◌then◌else◌};
ghost use Rattle.std.specs.Io.{ReadsAtMost, WritesAtMost};
ghost use Rattle.byte_streams.specs.Streams.{ReadGave, WriteTook, FlushTook, IsRefusal};
ghost use Rattle.byte_streams.specs.FusedSource.{FusedSourceState, fresh_source, known_source, read_answer, after_read};
ghost use Rattle.byte_streams.specs.FusedSink.{FusedSinkState, fresh_sink, known_sink, is_blown, set_back, write_answer, after_write};

use crate::{Failed, Sink, Source};
use std::alloc::{AllocError, Allocator, Global};
use std::marker::Model;

/// A source over memory that gives its bytes in small pieces, and fails after a chosen number of them.
#[derive(Drop)]
pub struct FusedSource<A: Allocator = Global> {
    bytes: Vec<u8, A>,
    given: usize,
    budget: usize,
    piece: usize,
    failures: u64,
    ends: u64,
}

impl<A: Allocator> Model for FusedSource<A> {
    ghost Value = { FusedSourceState };

    ghost view = { λ s. record {
      given = take s.given s.bytes.items;
      rest = drop s.given s.bytes.items;
      budget = s.budget;
      piece = s.piece;
      failures = s.failures;
      ends = s.ends;
    } };

    ghost invariant = { λ s. (s.given ≤ vec_len s.bytes) × (0 < s.piece) };
}

impl<A: Allocator> FusedSource<A> {
    /// Returns a source of `bytes` whose reads give at most `piece` bytes each. After `passes` bytes, every read fails.
    /// If `bytes` has fewer than `passes` bytes, a read after the last of them returns 0.
    pub fn new(bytes: Vec<u8, A>, passes: usize, piece: usize) -> Self
        requires { 1 ≤ piece }
        ensures { result ≡ fresh_source bytes.items passes piece }
    {
        FusedSource {
            bytes,
            given: 0,
            budget: passes,
            piece,
            failures: 0,
            ends: 0,
        }
    }
}

impl<A: Allocator> Source for FusedSource<A> {
    ghost state = { known_source };

    ghost lasts = { λ _ _. Unit {0} };

    ghost can_read = { λ s. (s.failures < 2 ^ 64 - 1) × (s.ends < 2 ^ 64 - 1) };

    fn read(&mut self, buf: &mut [u8]) -> Result<usize, Failed>
        requires can { (self.old.failures < 2 ^ 64 - 1) × (self.old.ends < 2 ^ 64 - 1) }
        requires room { 0 < length buf.old }

        ensures bound { ReadsAtMost result buf.new }
        ensures gave { ReadGave result buf.new (known_source self.old) (known_source self.new) }
        ensures again { IfOk result
            (λ n. 0 < n → (self.new.failures < 2 ^ 64 - 1) × (self.new.ends < 2 ^ 64 - 1)) }

        // Exactly what each read returns and does.
        ensures answer { result ≡ read_answer self.old (length buf.old) }
        ensures after { self.new ≡ after_read self.old (length buf.old) }
    {
        if self.budget == 0 {
            self.failures += 1;
            return Err(Failed);
        }
        let rest = &self.bytes[self.given..];
        let n = buf.len().min(self.piece).min(self.budget.min(rest.len()));
        if n == 0 {
            self.ends += 1;
            return Ok(0);
        }
        buf[..n].copy_from_slice(&rest[..n]);
        self.given += n;
        self.budget -= n;
        Ok(n)
    }
}

/// A sink over memory that takes its bytes in small pieces. After a chosen number of bytes it fails, or takes no more.
#[derive(Drop)]
pub struct FusedSink<A: Allocator = Global> {
    held: Vec<u8, A>,
    passes: usize,
    piece: usize,
    fails_when_full: bool,
    setbacks: u64,
}

impl<A: Allocator> Model for FusedSink<A> {
    ghost Value = { FusedSinkState };

    ghost view = { λ s. record {
      held = s.held.items;
      passes = s.passes;
      piece = s.piece;
      fails_when_full = s.fails_when_full;
      setbacks = s.setbacks;
    } };

    ghost invariant = { λ s. (vec_len s.held ≤ s.passes) × (s.passes ≤ vec_capacity s.held)
        × (0 < s.piece) };
}

impl<A: Allocator> FusedSink<A> {
    /// Returns a sink with capacity for `passes` bytes, whose writes take at most `piece` bytes each. When it has
    /// `passes` bytes, every write and every flush fails. Returns an error if out of memory.
    pub fn new(alloc: A, passes: usize, piece: usize) -> Result<Self, AllocError>
        requires { 1 ≤ piece }
        ensures { IfOk result (λ sink. sink ≡ fresh_sink passes piece true) }
    {
        Ok(FusedSink {
            held: Vec::with_capacity(alloc, passes)?,
            passes,
            piece,
            fails_when_full: true,
            setbacks: 0,
        })
    }

    /// Like [`FusedSink::new`], but when the sink has `passes` bytes, a write takes no bytes and a flush succeeds.
    pub fn stopped(alloc: A, passes: usize, piece: usize) -> Result<Self, AllocError>
        requires { 1 ≤ piece }
        ensures { IfOk result (λ sink. sink ≡ fresh_sink passes piece false) }
    {
        let mut sink = FusedSink::new(alloc, passes, piece)?;
        sink.fails_when_full = false;
        Ok(sink)
    }

    /// The bytes that the sink took.
    pub fn held(&self) -> &[u8]
        ensures { result.now ≡ self.now.held }
    {
        self.held.as_slice()
    }

    fn is_blown(&self) -> bool
        ensures { result ≡ is_blown self.now }
    {
        self.fails_when_full && self.held.len() == self.passes
    }
}

impl<A: Allocator> Sink for FusedSink<A> {
    ghost state = { known_sink };

    ghost can_write = { λ s. s.setbacks < 2 ^ 64 - 1 };

    fn write(&mut self, buf: &[u8]) -> Result<usize, Failed>
        requires { self.old.setbacks < 2 ^ 64 - 1 }

        ensures bound { WritesAtMost result buf.now }
        ensures took { WriteTook result buf.now (known_sink self.old) (known_sink self.new) }
        ensures again { IfOk result
            (λ n. ¬ IsRefusal n buf.now → self.new.setbacks < 2 ^ 64 - 1) }

        // Exactly what each write returns and does.
        ensures answer { result ≡ write_answer self.old buf.now }
        ensures after { self.new ≡ after_write self.old buf.now }
    {
        if self.is_blown() {
            self.setbacks += 1;
            return Err(Failed);
        }
        let n = buf.len().min(self.piece).min(self.passes - self.held.len());
        if n == 0 && !buf.is_empty() {
            self.setbacks += 1;
            return Ok(0);
        }
        match self.held.extend_from_slice(&buf[..n]) {
            Ok(()) => Ok(n),
            Err(_) => unreachable!(),
        }
    }

    fn flush(&mut self) -> Result<(), Failed>
        requires { self.old.setbacks < 2 ^ 64 - 1 }

        ensures took { FlushTook result (known_sink self.old) (known_sink self.new) }
        ensures again { OnOk result (self.new.setbacks < 2 ^ 64 - 1) }

        ensures answer { IsErr result ↔ IsTrue (is_blown self.old) }
        ensures after { self.new ≡ (if is_blown self.old then set_back self.old else self.old) }
    {
        if !self.is_blown() {
            return Ok(());
        }
        self.setbacks += 1;
        Err(Failed)
    }
}
