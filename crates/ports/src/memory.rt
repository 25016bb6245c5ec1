//! Bytes in memory, read in pieces.
ghost use Rattle.std.specs.Prelude.{◌≡◌, ◌+◌, ◌-◌, ◌≤◌, min, length, take, drop};

// Copies the next bytes of `bytes`, after the first `given`, as many as are left and fit, and returns how many.
pub fn give(bytes: &[u8], given: usize, into: &mut [u8]) -> usize
    requires { given ≤ length bytes.now }
    ensures count { result ≡ min (length into.new) (length (drop given bytes.now)) }
    ensures within { given + result ≤ length bytes.now }
    ensures room { result ≤ length into.new }
    ensures same { length into.new ≡ length into.old }
    ensures bytes { take result into.new ≡ take result (drop given bytes.now) }
{
    let left = &bytes[given..];
    let n = into.len().min(left.len());
    into[..n].copy_from_slice(&left[..n]);
    n
}
