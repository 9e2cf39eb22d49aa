//! The bytes of a key together with its key ID.

ghost use Rattle.std.specs.Prelude.{◌≡◌, ◌&&◌, Some, bytes_eq};
ghost use Rattle.std.specs.Cmp.{on_per, on_equiv, and_per, and_equiv, partial_equiv_from_equiv};
ghost use Rattle.std.specs.Cmp.Lexicographic.{nat_list_eq_equiv};
ghost use Rattle.minisign.specs.Records.{secret_text};

use minisign_hash::util::fixed_time_eq;
use std::fmt;

/// A public key: a key ID of 8 bytes and 32 key bytes.
#[derive(Clone, Debug, Drop)]
pub struct KeynumPK {
    /// The key ID, which is also part of each signature made with this key.
    pub keynum: [u8; 8],
    /// The key bytes.
    pub pk: [u8; 32],
}

/// Two values are equal if their key IDs and key bytes are equal. This is an equivalence relation.
impl PartialEq for KeynumPK {
    ghost eq = { λ a b. bytes_eq a.keynum b.keynum && bytes_eq a.pk b.pk };

    ghost laws = { and_per (on_per (λ k. k.keynum) (partial_equiv_from_equiv nat_list_eq_equiv))
        (on_per (λ k. k.pk) (partial_equiv_from_equiv nat_list_eq_equiv)) };

    fn eq(&self, other: &KeynumPK) -> bool {
        self.keynum == other.keynum && fixed_time_eq(&self.pk, &other.pk)
    }
}

impl Eq for KeynumPK {
    ghost laws = { and_equiv (on_equiv (λ k. k.keynum) nat_list_eq_equiv)
        (on_equiv (λ k. k.pk) nat_list_eq_equiv) };
}

/// A secret key: a key ID of 8 bytes, 64 secret bytes (a seed and its public key) and a checksum of 32
/// bytes.
#[derive(Clone, Drop)]
pub struct KeynumSK {
    /// The key ID, which is also part of each signature made with this key.
    pub keynum: [u8; 8],
    /// The secret bytes.
    pub sk: [u8; 64],
    /// The checksum.
    pub chk: [u8; 32],
}

impl KeynumSK {
    /// Returns the number of bytes, which is 104.
    pub fn len(&self) -> usize
        ensures { result ≡ 104 }
    {
        self.keynum.len() + self.sk.len() + self.chk.len()
    }
}

/// Prints the secret: its 64 bytes in lowercase hexadecimal, as the Rust crate `minisign` does. Each byte is
/// written without a leading zero, so 0x05 is `5`. Keep the output out of logs.
impl fmt::Debug for KeynumSK {
    ghost debug_output = { λ k. Some (secret_text k.sk) };

    fn fmt<W: fmt::Write>(&self, f: &mut fmt::Formatter<W>) -> fmt::Result {
        'bytes: for byte in &self.sk {
            write!(f, "{byte:x}")?;
        }
        Ok(())
    }
}

/// Two values are equal if their key IDs and secret bytes are equal; the checksums are not compared.
impl PartialEq for KeynumSK {
    ghost eq = { λ a b. bytes_eq a.keynum b.keynum && bytes_eq a.sk b.sk };

    ghost laws = { and_per (on_per (λ k. k.keynum) (partial_equiv_from_equiv nat_list_eq_equiv))
        (on_per (λ k. k.sk) (partial_equiv_from_equiv nat_list_eq_equiv)) };

    fn eq(&self, other: &KeynumSK) -> bool {
        self.keynum == other.keynum && fixed_time_eq(&self.sk, &other.sk)
    }
}

impl Eq for KeynumSK {
    ghost laws = { and_equiv (on_equiv (λ k. k.keynum) nat_list_eq_equiv)
        (on_equiv (λ k. k.sk) nat_list_eq_equiv) };
}
