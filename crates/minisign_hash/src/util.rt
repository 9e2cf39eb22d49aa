//! Compares secret bytes.

ghost use Rattle.std.specs.Prelude.{◌≡◌, bytes_eq};

/// Returns true if the two slices are equal; slices of different lengths are not. All bytes are compared
/// before the result is computed, but nothing is promised about the time that this takes.
#[inline(never)]
pub fn fixed_time_eq(lhs: &[u8], rhs: &[u8]) -> bool
    // The result is true exactly if the two slices are equal; slices of different lengths are not.
    ensures { result ≡ bytes_eq lhs.now rhs.now }
{
    if lhs.len() != rhs.len() {
        return false;
    }
    let mut differing = 0;
    'bytes: for i in 0..lhs.len() {
        differing |= lhs[i] ^ rhs[i];
    }
    differing == 0
}
