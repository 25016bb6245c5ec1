//! Reads a number at the beginning of a slice, and returns it with the bytes after it.
ghost use Rattle.std.specs.Prelude.{◌≡◌, ◌++◌, ◌≤◌, ◌+◌, length, take};
ghost use Rattle.std.specs.Int.{w16, w32, from_be_bytes};
ghost use Rattle.frames.specs.FrameText.{u16_text, u32_text, i64_text};
ghost use Rattle.frames.specs.Lawful.{IsU32};

pub(crate) fn split_u16(bytes: &[u8]) -> (u16, &[u8])
    requires { 2 ≤ length bytes.now }
    ensures parts { bytes.now ≡ u16_text result.0 ++ result.1.now }
    ensures value { result.0 ≡ from_be_bytes w16 (take 2 bytes.now) }
    ensures rest_len { length result.1.now + 2 ≡ length bytes.now }
{
    let (prefix, rest) = bytes.split_at(2);
    (u16::from_be_bytes([prefix[0], prefix[1]]), rest)
}

pub(crate) fn split_u32(bytes: &[u8]) -> (u32, &[u8])
    requires { 4 ≤ length bytes.now }
    ensures parts { bytes.now ≡ u32_text result.0 ++ result.1.now }
    ensures value { result.0 ≡ from_be_bytes w32 (take 4 bytes.now) }
    ensures rest_len { length result.1.now + 4 ≡ length bytes.now }
    ensures fits { IsU32 result.0 }
{
    let (prefix, rest) = bytes.split_at(4);
    let number = u32::from_be_bytes([prefix[0], prefix[1], prefix[2], prefix[3]]);
    (number, rest)
}

pub(crate) fn split_i64(bytes: &[u8]) -> (i64, &[u8])
    requires { 8 ≤ length bytes.now }
    ensures parts { bytes.now ≡ i64_text result.0 ++ result.1.now }
{
    let (prefix, rest) = bytes.split_at(8);
    let bits = u64::from_be_bytes([
        prefix[0], prefix[1], prefix[2], prefix[3], prefix[4], prefix[5], prefix[6], prefix[7],
    ]);
    (bits.cast_signed(), rest)
}
