//! The text form of key IDs.

ghost use Rattle.std.specs.Prelude.{◌≡◌, ◌<◌, Some, true, []};
ghost use Rattle.std.specs.Fmt.{digit_glyph};
ghost use Rattle.minisign_base.specs.KeyIds.{key_id_text, last_digits};

use std::fmt;

/// The eight bytes that identify a key pair. `Display` writes them, read little endian, as 16 uppercase
/// hexadecimal digits.
#[derive(Clone, Copy, Debug, PartialEq, Eq)]
pub struct KeyId(pub [u8; 8]);

impl KeyId {
    /// Returns the digits that `Display` writes. Does not allocate.
    pub fn digits(&self) -> [u8; 16]
        ensures { result ≡ key_id_text self.now.0 }
    {
        sixteen_digits(u64::from_le_bytes(self.0))
    }
}

/// Writes the key ID, read little endian, in 16 uppercase hexadecimal digits.
impl fmt::Display for KeyId {
    ghost output = { λ id. Some (key_id_text id.0) };

    #[tactic(auto, unfolding(crate::specs::KeyIds::key_id_text))]
    fn fmt<W: fmt::Write>(&self, f: &mut fmt::Formatter<W>) -> fmt::Result {
        write!(f, "{:016X}", u64::from_le_bytes(self.0))
    }
}

// Returns the 16 hexadecimal digits of a number, with leading zeros.
fn sixteen_digits(number: u64) -> [u8; 16]
    ensures { result ≡ last_digits 16 number [] }
{
    let mut digits = [0; 16];
    let mut left = number;
    let mut place = digits.len();
    'places: while place > 0 {
        place -= 1;
        digits[place] = digit(left % 16);
        left /= 16;
    }
    digits
}

// Returns a hexadecimal digit in upper case.
fn digit(value: u64) -> u8
    requires { value < 16 }
    ensures { result ≡ digit_glyph true value }
{
    if value < 10 {
        b'0' + value as u8
    } else {
        b'A' + (value - 10) as u8
    }
}
