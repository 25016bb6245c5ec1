//! Writes control characters in a text so that a terminal doesn't obey them.
ghost use Rattle.std.specs.Prelude.{◌≡◌, ◌+◌, ◌<◌, ◌≤◌, ◌++◌};
ghost use Rattle.std.specs.Char.{digit_char};
ghost use Rattle.arrayvec.specs.ArrayString.{array_string_len};
ghost use Rattle.program_words.specs.Messages.{hex_of, escaped_char};

use arrayvec::ArrayString;

/// The space for an escaped character: four bytes, each as `\x` and two digits.
pub(crate) const ESCAPED_ROOM: usize = 16;

/// The space for the text after a name. The text of an error has at most 120 bytes.
pub(crate) const END_ROOM: usize = 128;

/// The size of the buffer for a line with a name: 4200 bytes, one more character and the text after the name. Linux
/// opens no name of more than 4095 bytes.
pub(crate) const NAMED_LINE_ROOM: usize = 4344;

fn hex_digit(value: u8) -> char
    requires { value < 16 }
    ensures digit { result ≡ digit_char value }
    ensures ascii { result < 128 }
{
    if value < 10 {
        (b'0' + value) as char
    } else {
        (b'a' - 10 + value) as char
    }
}

fn push_hex(line: &mut ArrayString<NAMED_LINE_ROOM>, byte: u8)
    requires { array_string_len line.old + 4 ≤ NAMED_LINE_ROOM }
    ensures text { line.new.bytes ≡ line.old.bytes ++ hex_of byte }
    ensures long { array_string_len line.new ≡ array_string_len line.old + 4 }
{
    line.push_str("\\x");
    line.push(hex_digit(byte / 16));
    line.push(hex_digit(byte % 16));
}

pub(crate) fn push_escaped(line: &mut ArrayString<NAMED_LINE_ROOM>, c: char)
    requires { array_string_len line.old + ESCAPED_ROOM ≤ NAMED_LINE_ROOM }
    ensures text { line.new.bytes ≡ line.old.bytes ++ escaped_char c }
    ensures short { array_string_len line.new ≤ array_string_len line.old + ESCAPED_ROOM }
{
    if !c.is_control() {
        line.push(c);
        return;
    }
    let mut utf8 = [0; 4];
    for byte in c.encode_utf8(&mut utf8).as_bytes() {
        push_hex(line, *byte);
    }
}
