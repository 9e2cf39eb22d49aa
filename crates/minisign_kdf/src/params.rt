//! The parameters of scrypt (RFC 7914, section 2).

ghost use Rattle.std.specs.Prelude.{◌≡◌, ◌↔◌, ◌*◌, ◌^◌, ◌<◌, ◌≤◌, IsOk, IfOk, is_ok, nat_lt};
ghost use Rattle.minisign_kdf.specs.Params.{IsAccepted, Numbers, is_accepted};
ghost use Rattle.minisign_kdf.specs.Memory.{bytes_needed, words_needed};

use crate::errors::InvalidParams;
use crate::kept_rows::kept_count;
use std::marker::Model;

/// Valid parameters of scrypt: the cost N as its logarithm to base 2, the block size r and the
/// parallelization p. In contracts, a value is these three numbers.
#[derive(Clone, Copy, Debug, PartialEq)]
pub struct Params {
    n_log2: u8,
    r: u32,
    p: u32,
}

impl Model for Params {
    ghost Value = { Numbers };

    ghost view = { λ v. record { n_log2 = v.n_log2; r = v.r; p = v.p } };

    ghost inverse = { λ v. record { n_log2 = v.n_log2; r = v.r; p = v.p } };

    ghost invariant = { λ v. IsAccepted (record { n_log2 = v.n_log2; r = v.r; p = v.p }) };
}

impl Params {
    /// Returns the parameters N = 2^`n_log2`, `r` and `p`, if they are valid (RFC 7914, section 2): all
    /// three are at least 1, `n_log2` is below 16 * r, r * p is below 2^30, and the rows of a part, 128 * r
    /// * N bytes, have fewer than 2^64 bytes. Otherwise returns an error. Does not allocate.
    pub fn new(n_log2: u8, r: u32, p: u32) -> Result<Params, InvalidParams>
        ensures accepted { IsOk result ↔ IsAccepted (record { n_log2 = n_log2; r = r; p = p }) }
        ensures test { is_ok result ≡ is_accepted (record { n_log2 = n_log2; r = r; p = p }) }
        ensures numbers { IfOk result (λ v. v ≡ record { n_log2 = n_log2; r = r; p = p }) }
    {
        if n_log2 < 1 || r < 1 || p < 1 {
            return Err(InvalidParams);
        }
        if u64::from(n_log2) >= 16 * u64::from(r) || u64::from(r) * u64::from(p) >= 1 << 30 {
            return Err(InvalidParams);
        }
        if !is_countable(n_log2, r) {
            return Err(InvalidParams);
        }
        Ok(Params { n_log2, r, p })
    }

    /// Returns the logarithm of the cost N to base 2, which is below 64.
    pub fn n_log2(&self) -> u8
        ensures number { result ≡ self.now.n_log2 }
        ensures small { result < 64 }
        ensures accepted { IsAccepted self.now }
    {
        self.n_log2
    }

    /// Returns the block size.
    pub fn r(&self) -> u32
        ensures number { result ≡ self.now.r }
        ensures accepted { IsAccepted self.now }
    {
        self.r
    }

    /// Returns the parallelization.
    pub fn p(&self) -> u32
        ensures number { result ≡ self.now.p }
        ensures accepted { IsAccepted self.now }
    {
        self.p
    }

    /// Returns how many 32-bit words of memory `scrypt_in` needs with every k-th row kept, k at
    /// least 1: 32 * r for each kept row, of which there are N / k, rounded up, and for three more.
    /// Does not allocate.
    pub fn words_needed(&self, k: u64) -> u64
        requires { 1 ≤ k }

        // The result is the number of words in the rows that are kept for a part and in three more rows.
        ensures { result ≡ words_needed self.now k }
    {
        32 * u64::from(self.r) * (kept_count(self.n_log2, k) as u64 + 3)
    }

    /// Returns how many bytes of memory `scrypt_in` needs in addition to these words: 128 * r for each of
    /// the p parts. Does not allocate.
    pub fn bytes_needed(&self) -> u64
        // The result is the number of bytes in all parts.
        ensures { result ≡ bytes_needed self.now }
    {
        128 * u64::from(self.r) * u64::from(self.p)
    }
}

// Returns true if the number of bytes in a part's rows fits into 64 bits.
fn is_countable(n_log2: u8, r: u32) -> bool
    requires { 1 ≤ r }
    ensures { result ≡ nat_lt (128 * r * 2 ^ n_log2) (2 ^ 64) }
{
    if n_log2 >= 64 {
        return false;
    }
    (128 * u64::from(r)).checked_mul(1 << n_log2).is_some()
}
