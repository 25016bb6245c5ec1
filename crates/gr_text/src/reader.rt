ghost use Rattle.std.specs.Prelude.{◌≡◌, ℕ, ◌+◌, ◌≤◌, List, [], ◌++◌, None, Some, IfErr, IfSome, IsTrue, OnOk, MatchResult, Err, ◌⊎◌, length};
ghost use Rattle.gr_text.specs.Lines.{line_after};
ghost use Rattle.gr_text.specs.Following.{IsKeeping, KeepsText};
ghost use Rattle.gr_text.specs.LinesSoFar.{Swap};
ghost use Rattle.gr_text.specs.Reader.{HasRead, HasReadBut, IsRead, IsReadBut, ReadsPiece, TakesPiece};

use crate::faults::ReadFault;
use crate::graphs::Graph;
use crate::keep::Keep;
use crate::lines_so_far::LinesSoFar;
use crate::partial_line::PartialLine;
use limits::MAX_BYTES;
use links::Link;
use std::alloc::{AllocError, Allocator, Global};
use std::marker::Model;
use std::thread::Threads;

/// A reader of a `.gr` text that is fed pieces of any lengths.
///
/// It makes no difference where the text is split. The reader doesn't store the text: it stores the edges, and of the
/// current line only a few machine words, however long the line is. After an error, every later call returns the same
/// error.
#[derive(Drop)]
pub struct GrReader<A: Allocator = Global> {
    limit: u64,
    fed: u64,
    /// The number of the current line.
    number: u64,
    /// The part of the current line that has come.
    partial: PartialLine,
    /// What the lines before it describe.
    so_far: LinesSoFar<A>,
    fault: Option<ReadFault>,
}

impl<A: Allocator> Model for GrReader<A> {
    ghost use Rattle.std.specs.Prelude.{◌+◌, ◌≤◌};
    ghost use Rattle.limits.specs.declared.TheConstants.{MAX_BYTES};
    ghost use Rattle.gr_text.specs.Reader.{ReaderValue};

    ghost Value = { ReaderValue };

    ghost view = { λ r. record {
      limit = r.limit;
      fed = r.fed;
      number = r.number;
      partial = r.partial;
      so_far = r.so_far;
      fault = r.fault;
    } };

    ghost invariant = { λ r. (r.limit ≤ MAX_BYTES) × (r.fed ≤ r.limit) × (r.number ≤ r.fed + 1) };
}

impl<A: Allocator> GrReader<A> {
    /// Creates a reader that has been fed nothing and that takes at most `limit` bytes. It allocates nothing yet.
    pub fn new(alloc: A, limit: u64) -> GrReader<A>
        requires { limit ≤ MAX_BYTES }
        ensures limit { result.limit ≡ limit }
        ensures empty { result.fed ≡ 0 }
        ensures no_fault { result.fault ≡ None }
        ensures nothing { HasRead result [] }
    {
        GrReader {
            limit,
            fed: 0,
            number: 1,
            partial: PartialLine::new(),
            so_far: LinesSoFar::new(alloc),
            fault: None,
        }
    }

    /// Takes the next piece of the text.
    ///
    /// Returns `Gr` if a line that has ended among the first `limit` bytes is invalid, unless memory runs out before it.
    /// Otherwise it returns `TooLong` if more than `limit` bytes were fed, or `Memory` if there was no memory for an
    /// edge. A line that hasn't ended yet isn't checked. The time is linear in the length of the piece.
    pub fn feed(&mut self, piece: &[u8]) -> Result<(), ReadFault>
        ensures limit { self.new.limit ≡ self.old.limit }
        ensures within { self.new.fed ≤ self.new.limit }
        ensures grows { OnOk result (self.new.fed ≡ self.old.fed + length piece.now) }
        ensures fed { (text : List ℕ) → HasRead self.old text → HasRead self.new (text ++ piece.now) }
        ensures fed_but { (swap : Swap) (text : List ℕ) → HasReadBut swap self.old text → HasReadBut swap self.new (text ++ piece.now) }
        ensures fault { MatchResult result (λ _. self.new.fault ≡ None) (λ e. self.new.fault ≡ Some e) }
        ensures again { IfSome self.old.fault (λ e. result ≡ Err e) }
    {
        if let Some(fault) = self.fault {
            return Err(fault);
        }
        let room = self.limit - self.fed;
        let len = room.min(piece.len() as u64);
        if let Err(fault) = self.read(&piece[..len as usize]) {
            self.fault = Some(fault);
            return Err(fault);
        }
        if len < piece.len() as u64 {
            self.fault = Some(ReadFault::TooLong);
            return Err(ReadFault::TooLong);
        }
        Ok(())
    }

    /// The number of the line that the next byte belongs to: 1 plus the number of line feeds among the bytes fed before
    /// any error. Takes constant time.
    pub fn line(&self) -> u64
        ensures line { (text : List ℕ) → HasRead self.now text → self.now.fault ≡ None → result ≡ line_after text }
        ensures line_but { (swap : Swap) (text : List ℕ) → HasReadBut swap self.now text → self.now.fault ≡ None → result ≡ line_after text }
    {
        self.number
    }

    /// Ends the text. It checks the last line, if that lacks its line feed, and then whether anything is missing.
    ///
    /// Returns the error that the reader already has, or else the first error of the whole text. The edges aren't
    /// copied.
    pub fn finish(self) -> Result<Graph<A>, ReadFault>
        ensures outcome { (text : List ℕ) → HasRead self text → IsRead self.limit text result }
        ensures outcome_but { (swap : Swap) (text : List ℕ) → HasReadBut swap self text → IsReadBut swap self.limit text result }
        ensures again { IfSome self.fault (λ e. result ≡ Err e) }
    {
        let GrReader {
            limit: _,
            fed: _,
            number,
            partial,
            mut so_far,
            fault,
        } = self;
        if let Some(fault) = fault {
            return Err(fault);
        }
        if !partial.begun {
            return so_far.graph(number);
        }
        if let Err(fault) = so_far.take_line(number, partial.whole()) {
            return Err(fault);
        }
        so_far.graph(number + 1)
    }

    /// Reads the next piece with threads, if it consists of whole arc lines in their usual form and every line is
    /// valid. Otherwise, or if there is too little memory or `room` for their edges, it takes nothing and returns
    /// false.
    pub(crate) fn take_arcs<R: Threads + Sync>(
        &mut self,
        rt: &R,
        threads: usize,
        piece: &[u8],
        room: &mut [Link],
    ) -> bool
        ensures left { IsTrue result ⊎ (self.new ≡ self.old) }
        ensures taken { IsTrue result → TakesPiece piece.now self.old self.new }
    {
        let len = piece.len() as u64;
        if self.fault.is_some() || self.partial.begun || len > self.limit - self.fed {
            return false;
        }
        match self.so_far.take_arcs(rt, threads, piece, room) {
            Some(count) => self.number += count as u64,
            None => return false,
        }
        self.fed += len;
        true
    }

    /// Lets a keeper look at the edges, if the problem line has come. After a failure the reader must not be used.
    pub(crate) fn keep<K: Keep<A>>(&mut self, keeper: &mut K) -> Result<(), AllocError>
        requires keeps { IsKeeping K.Keep keeper.old self.old }
        ensures limit { self.new.limit ≡ self.old.limit }
        ensures fed { self.new.fed ≡ self.old.fed }
        ensures fault { self.new.fault ≡ self.old.fault }
        ensures kept { OnOk result (KeepsText K.Keep keeper.old keeper.new self.old self.new) }
    {
        self.so_far.keep(keeper)
    }

    // Reads a piece that is within the limit. Returns the error of the first invalid line that ends in the piece, or
    // `Memory` for an edge without memory. After an error the reader must not be read on. Each byte takes constant
    // time, and a digit after another only a few instructions.
    fn read(&mut self, piece: &[u8]) -> Result<(), ReadFault>
        requires { self.old.fed + length piece.now ≤ self.old.limit }
        ensures limit { self.new.limit ≡ self.old.limit }
        ensures fed { self.new.fed ≡ self.old.fed + length piece.now }
        ensures fault { self.new.fault ≡ self.old.fault }
        ensures judged { ReadsPiece result piece.now self.old self.new }
    {
        self.fed += piece.len() as u64;
        let mut rest = piece;
        while let Some((line, after)) = self.partial.next_line(rest) {
            match self.so_far.take_line(self.number, line) {
                Ok(()) => self.number += 1,
                Err(fault) => return Err(fault),
            }
            rest = after;
        }
        Ok(())
    }
}
