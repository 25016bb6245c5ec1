//! The lines of a forest's text. Each is spelled from its last byte to its first. The digits of a number are found in
//! that order, so each digit is written once, where it belongs.
ghost use Rattle.std.specs.Prelude.{◌≡◌, ℕ, ◌+◌, ◌≤◌, ◌<◌, ◌^◌, List, [], ◌∷◌, ◌++◌, length, take, drop, decimal};
ghost use Rattle.std.specs.Fmt.{signed_decimal};
ghost use Rattle.gr_text.specs.ForestText.{header_of, link_line};
ghost use Rattle.gr_text.specs.Handing.{AreSpelled};

use itoa::write_digits;
use links::Link;
use std::marker::Model;

/// The size of the buffer for a line. A vertex has at most 10 digits, a weight and a number of edges at most 20 bytes
/// each. With the letters, spaces and the line feed a line is still shorter than this.
pub(crate) const SPELLED_ROOM: usize = 64;

/// The end of a line, as far as it is spelled.
#[derive(Drop)]
pub(crate) struct Spelled {
    bytes: [u8; SPELLED_ROOM],
    start: usize,
}

impl Model for Spelled {
    ghost Value = { List ℕ };

    ghost view = { λ s. drop s.start s.bytes };

    ghost invariant = { λ s. s.start ≤ 64 };
}

impl Spelled {
    fn new() -> Self
        ensures { result ≡ [] }
    {
        Spelled {
            bytes: [0; SPELLED_ROOM],
            start: SPELLED_ROOM,
        }
    }

    fn put(&mut self, text: &[u8])
        requires { length self.old + length text.now ≤ 64 }
        ensures { self.new ≡ text.now ++ self.old }
    {
        let start = self.start - text.len();
        self.bytes[start..self.start].copy_from_slice(text);
        self.start = start;
    }

    fn put_number(&mut self, n: u64)
        requires { length self.old + 20 ≤ 64 }
        ensures digits { self.new ≡ decimal n ++ self.old }
        ensures longer { length self.new ≤ length self.old + 20 }
        ensures few { n < 2 ^ 32 → length self.new ≤ length self.old + 10 }
    {
        self.start = write_digits(n, &mut self.bytes, self.start);
    }

    fn put_signed(&mut self, n: i64)
        requires { length self.old + 20 ≤ 64 }
        ensures digits { self.new ≡ signed_decimal n ++ self.old }
        ensures longer { length self.new ≤ length self.old + 20 }
    {
        self.put_number(n.unsigned_abs());
        if n < 0 {
            self.put(b"-");
        }
    }

    pub(crate) fn header(n: u32, k: usize) -> Self
        ensures line { result ≡ header_of n k }
        ensures short { length result ≤ 64 }
    {
        let mut line = Spelled::new();
        line.put(b"\n");
        line.put_number(k as u64);
        line.put(b" ");
        line.put_number(n as u64);
        line.put(b"p sp ");
        line
    }

    pub(crate) fn of_link(link: &Link) -> Self
        ensures line { result ≡ link_line link.now }
        ensures short { length result ≤ 64 }
    {
        let mut line = Spelled::new();
        line.put(b"\n");
        line.put_signed(link.weight);
        line.put(b" ");
        line.put_number(link.high as u64);
        line.put(b" ");
        line.put_number(link.low as u64);
        line.put(b"a ");
        line
    }

    pub(crate) fn as_slice(&self) -> &[u8]
        ensures { result.now ≡ self.now }
    {
        &self.bytes[self.start..]
    }
}

/// How many lines were put into a buffer, and how many bytes they have.
#[derive(Clone, Copy)]
pub(crate) struct SpelledLines {
    pub links: usize,
    pub bytes: usize,
}

/// Puts the lines of the first of these edges at the start of a buffer, as many as fit.
pub(crate) fn spell_lines(links: &[Link], room: &mut [u8]) -> SpelledLines
    ensures { AreSpelled links.now result room.new }
{
    let mut count = 0;
    let mut bytes = 0;
    while count < links.len() && room.len() - bytes >= SPELLED_ROOM {
        let line = Spelled::of_link(&links[count]);
        bytes = put_line(room, bytes, line.as_slice());
        count += 1;
    }
    SpelledLines {
        links: count,
        bytes,
    }
}

// Puts a line after the first `from` bytes of a buffer, and returns the index where it ends.
fn put_line(room: &mut [u8], from: usize, line: &[u8]) -> usize
    requires { from + length line.now ≤ length room.old }
    ensures bytes { result ≡ from + length line.now }
    ensures line { take result room.new ≡ take from room.old ++ line.now }
{
    let end = from + line.len();
    room[from..end].copy_from_slice(line);
    end
}
