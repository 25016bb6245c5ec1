//! Reads at once an arc line in its usual form, `a U V W`.
ghost use Rattle.std.specs.Prelude.{◌≤◌, length, MatchOption};
ghost use Rattle.gr_text.specs.Fields.{IsDigit};
ghost use Rattle.gr_text.specs.UsualArc.{BeginsWithLast, BeginsWithShort, BeginsWithShortSigned, BeginsWithUsualArc, HasNoLast, HasNoShort, HasNoShortSigned, HasNoUsualArc, HasShortBefore};

use crate::words::{LineFields, Signed};

// The most bytes of a number in such a line, at most nineteen digits, together with the byte that ends it.
const MOST_BYTES: usize = 20;

/// Returns the line that the bytes begin with, if it is a usual arc line and its line feed is among the bytes, and the
/// bytes after it. The form is `a` and three numbers of one to nineteen digits, each after one space. The third may
/// have a minus sign, and a carriage return may come before the line feed. The time is linear in the length of the
/// line.
#[inline(always)]
pub(crate) fn usual_arc(bytes: &[u8]) -> Option<(LineFields, &[u8])>
    ensures { MatchOption result (HasNoUsualArc bytes.now) (λ found. BeginsWithUsualArc found.0 bytes.now found.1.now) }
{
    let [b'a', b' ', fields @ ..] = bytes else {
        return None;
    };
    let (tail, fields) = short_number(fields, b' ')?;
    let (head, fields) = short_number(fields, b' ')?;
    let (weight, rest) = short_weight(fields)?;
    Some((LineFields::ArcWhole(tail, head, weight), rest))
}

// Returns the weight before the end of the line, if it is one to nineteen digits, with or without a minus sign, and the
// bytes after the line feed.
#[inline(always)]
fn short_weight(bytes: &[u8]) -> Option<(Signed, &[u8])>
    ensures { MatchOption result (HasNoShortSigned bytes.now)
        (λ found. BeginsWithShortSigned found.0 bytes.now found.1.now) }
{
    if let [b'-', digits @ ..] = bytes {
        let (size, rest) = last_number(digits)?;
        return Some((Signed::Minus(size), rest));
    }
    let (size, rest) = last_number(bytes)?;
    Some((Signed::Plus(size), rest))
}

// Returns the number before the end of the line, if it is one to nineteen digits, and the bytes after the line feed. If
// the line ends in a carriage return, the number is looked at twice.
#[inline(always)]
fn last_number(bytes: &[u8]) -> Option<(u64, &[u8])>
    ensures { MatchOption result (HasNoLast bytes.now) (λ found. BeginsWithLast found.0 bytes.now found.1.now) }
{
    if let Some(found) = short_number(bytes, b'\n') {
        return Some(found);
    }
    let (number, rest) = short_number(bytes, b'\r')?;
    if rest.is_empty() || rest[0] != b'\n' {
        return None;
    }
    Some((number, &rest[1..]))
}

// Returns the number before the first `stop`, if it is one to nineteen digits, and the bytes after `stop`. With at
// least `MOST_BYTES` bytes, the loop needn't check at each whether it is the last.
#[inline(always)]
fn short_number(bytes: &[u8], stop: u8) -> Option<(u64, &[u8])>
    requires { ¬ (IsDigit stop) }
    ensures { MatchOption result (HasNoShort stop bytes.now)
        (λ found. BeginsWithShort found.0 stop bytes.now found.1.now) }
{
    if bytes.len() < MOST_BYTES {
        return last_short_number(bytes, stop);
    }
    let (number, place) = number_before(&bytes[..MOST_BYTES], stop)?;
    Some((number, &bytes[place + 1..]))
}

// Does the same near the end of a piece.
#[inline(never)]
fn last_short_number(bytes: &[u8], stop: u8) -> Option<(u64, &[u8])>
    requires stop { ¬ (IsDigit stop) }
    requires few { length bytes.now ≤ MOST_BYTES }
    ensures { MatchOption result (HasNoShort stop bytes.now)
        (λ found. BeginsWithShort found.0 stop bytes.now found.1.now) }
{
    let (number, place) = number_before(bytes, stop)?;
    Some((number, &bytes[place + 1..]))
}

// Returns the number before the first `stop`, if it is one to nineteen digits, and the index of `stop`. The last byte
// may be a twentieth digit and make the number wrap; then there is no `stop`, and the result is `None`.
#[inline(always)]
fn number_before(bytes: &[u8], stop: u8) -> Option<(u64, usize)>
    requires stop { ¬ (IsDigit stop) }
    requires few { length bytes.now ≤ MOST_BYTES }
    ensures { MatchOption result (HasNoShort stop bytes.now)
        (λ found. HasShortBefore found.0 found.1 stop bytes.now) }
{
    let mut number: u64 = 0;
    for (place, &byte) in bytes.iter().enumerate() {
        if byte.is_ascii_digit() {
            number = number.wrapping_mul(10).wrapping_add(u64::from(byte - b'0'));
        } else if byte == stop && place > 0 {
            return Some((number, place));
        } else {
            return None;
        }
    }
    None
}
