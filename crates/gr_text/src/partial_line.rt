ghost use Rattle.std.specs.Prelude.{◌≡◌, ◌≢◌, ◌<◌, ℕ, List, [], ◌∷◌, ◌++◌, length, IfNone, IfSome};
ghost use Rattle.gr_text.specs.PartialLine.{EndsLine, GoesOn, IsKeptAs, IsWhole, with_field};
ghost use Rattle.gr_text.specs.Word.{LineMeans, WordMeans};

use crate::usual_line::usual_arc;
use crate::words::{LineFields, Word};

/// What is stored of a line that has come in part: its whole fields, the current field, and whether any byte has come.
/// The last matters because a text may end with a line that has no bytes.
#[derive(Clone, Copy)]
pub(crate) struct PartialLine {
    pub on: LineFields,
    /// The current field; empty after a blank.
    pub word: Word,
    /// Whether a byte has come, even a blank.
    pub begun: bool,
}

impl LineFields {
    // Adds the last field, if one has begun.
    #[inline]
    fn closed(self, word: Word) -> LineFields
        ensures { (fields : List (List ℕ)) (last : List ℕ) → LineMeans self fields → WordMeans word last
            → LineMeans result (with_field fields last) }
    {
        if word.is_empty() {
            self
        } else {
            self.then(word)
        }
    }
}

impl PartialLine {
    /// The state before any byte.
    #[inline]
    pub(crate) fn new() -> PartialLine
        ensures { IsKeptAs result [] }
    {
        PartialLine {
            on: LineFields::Nothing,
            word: Word::Empty,
            begun: false,
        }
    }

    /// Takes the bytes up to the next line feed. It returns the whole line and the bytes after its line feed, and
    /// nothing of the line stays stored. If no line ends among the bytes, it stores them all and returns `None`. A
    /// usual arc line is read at once, any other line byte by byte, in constant time per byte.
    #[inline(always)]
    pub(crate) fn next_line<'a>(&mut self, bytes: &'a [u8]) -> Option<(LineFields, &'a [u8])>
        ensures shorter { IfSome result (λ next. length next.1.now < length bytes.now) }
        ensures ends { (part : List ℕ) → IsKeptAs self.old part
            → IfSome result (λ next. EndsLine self.new next.0 part bytes.now next.1.now) }
        ensures goes_on { (part : List ℕ) → IsKeptAs self.old part → IfNone result (GoesOn self.new part bytes.now) }
    {
        if !self.begun {
            if let Some((line, rest)) = usual_arc(bytes) {
                return Some((line, rest));
            }
        }
        self.next_by_bytes(bytes)
    }

    // Does the same byte by byte.
    fn next_by_bytes<'a>(&mut self, bytes: &'a [u8]) -> Option<(LineFields, &'a [u8])>
        ensures shorter { IfSome result (λ next. length next.1.now < length bytes.now) }
        ensures ends { (part : List ℕ) → IsKeptAs self.old part
            → IfSome result (λ next. EndsLine self.new next.0 part bytes.now next.1.now) }
        ensures goes_on { (part : List ℕ) → IsKeptAs self.old part → IfNone result (GoesOn self.new part bytes.now) }
    {
        // A local copy stays in registers; nearly every byte changes it.
        let mut partial = *self;
        for (place, &byte) in bytes.iter().enumerate() {
            if byte == b'\n' {
                *self = PartialLine::new();
                return Some((partial.whole(), &bytes[place + 1..]));
            }
            partial = partial.with(byte);
        }
        *self = partial;
        None
    }

    #[inline]
    fn with(self, byte: u8) -> PartialLine
        ensures { (part : List ℕ) → IsKeptAs self part → IsKeptAs result (part ++ byte ∷ []) }
    {
        let (on, word) = match byte {
            b' ' | b'\t' | b'\r' => (self.on.closed(self.word), Word::Empty),
            _ => (self.on, self.word.with(byte)),
        };
        PartialLine {
            on,
            word,
            begun: true,
        }
    }

    /// The whole line, if no more bytes come.
    #[inline]
    pub(crate) fn whole(self) -> LineFields
        ensures { (part : List ℕ) → IsKeptAs self part → IsWhole result part }
    {
        self.on.closed(self.word)
    }
}
