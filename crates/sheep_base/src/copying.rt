ghost use Rattle.std.specs.Prelude.{◌≡◌, ℕ, ◌≤◌, ◌++◌, min, length, take, drop};

/// Copies the front of `bytes` into the front of `buf`, as much as fits and at most `most`, and
/// answers how much.
pub(crate) fn fill(bytes: &[u8], most: usize, buf: &mut [u8]) -> usize
    ensures front { bytes.now ≡ take result buf.new ++ drop result bytes.now }
    ensures bound { result ≤ length buf.new }
    ensures count { result ≡ min most (min (length buf.old) (length bytes.now)) }
{
    let count = most.min(buf.len()).min(bytes.len());
    buf[..count].copy_from_slice(&bytes[..count]);
    count
}
