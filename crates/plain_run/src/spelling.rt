//! Builds the texts of reports and errors in buffers of a fixed size.
ghost use Rattle.std.specs.Prelude.{◌≡◌, ◌+◌, ◌≤◌, ◌++◌, length, decimal};
ghost use Rattle.std.specs.Fmt.{signed_decimal};
ghost use Rattle.arrayvec.specs.ArrayString.{array_string_len};

use arrayvec::ArrayString;
use itoa::Buffer;

/// The size of the buffer for a text. A report has at most 241 bytes, and an error fewer.
pub const LINE_ROOM: usize = 320;

/// Appends a name and a number, which has at most twenty digits.
pub(crate) fn push_count(text: &mut ArrayString<LINE_ROOM>, name: &str, count: u64)
    requires { array_string_len text.old + length name.now + 20 ≤ LINE_ROOM }
    ensures text { text.new.bytes ≡ text.old.bytes ++ name.now ++ decimal count }
    ensures short { array_string_len text.new ≤ array_string_len text.old + length name.now + 20 }
{
    let mut digits = Buffer::new();
    text.push_str(name);
    text.push_str(digits.format(count));
}

/// Appends a name and a signed number, which has at most forty characters.
pub(crate) fn push_signed(text: &mut ArrayString<LINE_ROOM>, name: &str, number: i128)
    requires { array_string_len text.old + length name.now + 40 ≤ LINE_ROOM }
    ensures text { text.new.bytes ≡ text.old.bytes ++ name.now ++ signed_decimal number }
    ensures short { array_string_len text.new ≤ array_string_len text.old + length name.now + 40 }
{
    let mut digits = Buffer::new();
    text.push_str(name);
    text.push_str(digits.format(number));
}
