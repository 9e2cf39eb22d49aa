//! The table of scryptROMix (RFC 7914, section 5) with only every k-th row, in one vector of words. The words
//! of each block are in diagonal order, which `specs/Diagonal.antt` defines.

ghost use Rattle.std.specs.Prelude.{◌≡◌, ℕ, ◌+◌, ◌*◌, ◌%◌, ◌/◌, ◌^◌, ◌<◌, ◌≤◌, IfErr, IfOk, OnOk, length};
ghost use Rattle.std.specs.Prelude.{vec_capacity, vec_len};
ghost use Rattle.std.specs.Int.{div_ceil};
ghost use Rattle.minisign_kdf.specs.Blocks.{block};
ghost use Rattle.minisign_kdf.specs.Diagonal.{diagonal_bytes};
ghost use Rattle.minisign_kdf.specs.Kept.{KeptRows, kept_rows, rows_of};
ghost use Rattle.minisign_kdf.specs.Scrypt.{row_at};

use crate::block_mix::mix_times;
use crate::diagonal_order::load_part;
use crate::errors::KdfError;
use crate::row_memory::RowMemory;
use std::alloc::{AllocError, Global};
use std::marker::Model;

// The maximum number of words in an allocation, which has fewer than 2^63 bytes.
const MAX_WORDS: usize = 2305843009213693951;

/// Every k-th row of the table that scryptROMix (RFC 7914, section 5) computes from one block B:
/// the rows V_0, V_k, V_2k, .. with numbers below N. In contracts, a value is r, N, k and these
/// rows, as bytes in the order of the RFC.
#[derive(Drop)]
pub struct Rows {
    words: Vec<u32>,
    r: usize,
    n_log2: u8,
    k: u64,
}

impl Model for Rows {
    ghost Value = { KeptRows };

    ghost view = { λ s. record {
      r = s.r;
      n = 2 ^ s.n_log2;
      k = s.k;
      rows = rows_of s.r (div_ceil (2 ^ s.n_log2) s.k) s.words.items;
    } };

    ghost invariant = { λ s. (s.n_log2 < 64) × (1 ≤ s.k)
        × (length s.words.items ≡ 32 * s.r * div_ceil (2 ^ s.n_log2) s.k) };
}

impl Rows {
    /// Computes the table of scryptROMix for `block`, with N = 2^`n_log2`, and keeps every k-th
    /// row. The block is B of the RFC, and has 128 * r bytes for some r of at least 1. V_0 is the
    /// block, and each further row is scryptBlockMix of the previous row. `n_log2` must be from 1
    /// to 63, and k at least 1. No row after the last kept one is computed.
    ///
    /// Returns `OutOfMemory` if an allocation failed: 128 * r bytes for each of the N / k rows, rounded up,
    /// in one request, and then 256 * r bytes, before any mixing.
    pub fn fill(alloc: Global, block: &[u8], n_log2: u8, k: u64) -> Result<Rows, KdfError>
        requires not_empty { 0 < length block.now }
        requires whole { length block.now % 128 ≡ 0 }
        requires even { 1 ≤ n_log2 }
        requires cost { n_log2 < 64 }
        requires k_positive { 1 ≤ k }

        // On success, the kept rows are exactly the rows V_0, V_k, V_2k, .. of the block with numbers below
        // N.
        ensures rows { let r = length block.now / 128 in
            IfOk result
            (λ v. v ≡ record { r = r; n = 2 ^ n_log2; k = k; rows = kept_rows r (2 ^ n_log2) k block.now }) }

        // The only error is out of memory.
        ensures only_out_of_memory { IfErr result (λ e. e ≡ KdfError.OutOfMemory) }
    {
        let r = block.len() / 128;
        let mut words = memory_for_rows(alloc, r, n_log2, k)?;
        let mut work = zeros(alloc, 64 * r)?;
        keep_rows(block, n_log2, k, &mut words, &mut work);
        Ok(Rows {
            words,
            r,
            n_log2,
            k,
        })
    }

    /// Returns the number of kept rows: N divided by k, rounded up. Does not allocate.
    pub fn len(&self) -> u64
        // The result is the number of kept rows, N / k rounded up.
        ensures count { result ≡ div_ceil self.now.n self.now.k }
        ensures rows { result ≡ length self.now.rows }
    {
        kept_count(self.n_log2, self.k) as u64
    }

    /// Returns the 32-bit words of the kept rows, 32 * r words for each row. A word is four bytes
    /// of the row, lowest byte first. The sixteen words of each 64 bytes are in diagonal order:
    /// index q holds word 5 * q mod 16. Does not allocate.
    pub fn words(&self) -> &[u32]
        // The result is the words of all kept rows. In each block, index q holds word 5 * q mod 16.
        ensures rows { rows_of self.now.r (div_ceil self.now.n self.now.k) result.now
            ≡ self.now.rows }
        ensures len { length result.now ≡ 32 * self.now.r * div_ceil self.now.n self.now.k }
    {
        &self.words
    }
}

// Allocates memory for exactly the kept rows, in one request.
pub(crate) fn memory_for_rows(
    alloc: Global,
    r: usize,
    n_log2: u8,
    k: u64,
) -> Result<Vec<u32>, KdfError>
    requires small { 32 * r < 2 ^ 64 }
    requires cost { n_log2 < 64 }
    requires k_positive { 1 ≤ k }
    ensures capacity { IfOk result (λ v. vec_capacity v ≡ 32 * r * div_ceil (2 ^ n_log2) k) }
    ensures rows_fit { OnOk result (128 * r * div_ceil (2 ^ n_log2) k < 2 ^ 63) }
    ensures only_out_of_memory { IfErr result (λ e. e ≡ KdfError.OutOfMemory) }
{
    let Some(len) = (32 * r).checked_mul(kept_count(n_log2, k)) else {
        return Err(KdfError::OutOfMemory);
    };
    if len > MAX_WORDS {
        return Err(KdfError::OutOfMemory);
    }
    Ok(Vec::with_capacity(alloc, len)?)
}

// Returns how many rows of 32 * r words `words` contains.
pub(crate) fn rows_in(words: &[u32], r: usize) -> u64
    requires r_positive { 1 ≤ r }
    requires small { 32 * r < 2 ^ 64 }
    ensures { (count : ℕ) → length words.now ≡ 32 * r * count → result ≡ count }
{
    (words.len() / (32 * r)) as u64
}

pub(crate) fn zeros(alloc: Global, len: usize) -> Result<Vec<u32>, AllocError>
    ensures { IfOk result (λ v. vec_len v ≡ len) }
{
    vec![in alloc; 0u32; len]
}

// Computes the kept rows of a block. The previous contents of `rows` and `work` are ignored.
pub(crate) fn keep_rows<S: RowMemory>(
    block: &[u8],
    n_log2: u8,
    k: u64,
    rows: &mut S,
    work: &mut [u32],
)
    requires not_empty { 0 < length block.now }
    requires whole { length block.now % 128 ≡ 0 }
    requires cost { n_log2 < 64 }
    requires k_positive { 1 ≤ k }
    requires room { 32 * (length block.now / 128) * div_ceil (2 ^ n_log2) k ≤ S.room rows.old }
    requires work_len { 2 * length block.now ≤ 4 * length work.old }
    ensures len { length (S.words rows.new)
        ≡ 32 * (length block.now / 128) * div_ceil (2 ^ n_log2) k }
    ensures rows { let r = length block.now / 128 in
        rows_of r (div_ceil (2 ^ n_log2) k) (S.words rows.new)
        ≡ kept_rows r (2 ^ n_log2) k block.now }
    ensures room_not_reduced { S.room rows.old ≤ S.room rows.new }
{
    let len = block.len() / 4;
    let (x, rest) = work.split_at_mut(len);
    let (spare, _) = rest.split_at_mut(len);
    load_part(block, x);
    fill_rows(len / 32, kept_count(n_log2, k), k as usize, rows, x, spare);
}

// Returns the number of kept rows: N / k, rounded up.
pub(crate) fn kept_count(n_log2: u8, k: u64) -> usize
    requires cost { n_log2 < 64 }
    requires k_positive { 1 ≤ k }
    ensures { result ≡ div_ceil (2 ^ n_log2) k }
{
    row_count(n_log2).div_ceil(k as usize)
}

// Returns N, the number of rows.
pub(crate) fn row_count(n_log2: u8) -> usize
    requires { n_log2 < 64 }
    ensures { result ≡ 2 ^ n_log2 }
{
    1usize << n_log2
}

// Computes `count` kept rows. The first one is `x`, and each further one is the previous kept row,
// mixed k times. The previous contents of `rows` and `work` are ignored. Afterwards `x` holds the
// last kept row.
fn fill_rows<S: RowMemory>(
    r: usize,
    count: usize,
    k: usize,
    rows: &mut S,
    x: &mut [u32],
    work: &mut [u32],
)
    requires r_positive { 1 ≤ r }
    requires count { 1 ≤ count }
    requires k_positive { 1 ≤ k }
    requires room { 32 * r * count ≤ S.room rows.old }
    requires x_len { length x.old ≡ 32 * r }
    requires work_len { length work.old ≡ 32 * r }
    ensures len { length (S.words rows.new) ≡ 32 * r * count }
    ensures rows { (i : ℕ) → i < count
        → diagonal_bytes (block (32 * r) (S.words rows.new) i)
        ≡ row_at r (diagonal_bytes x.old) (k * i) }
    ensures room_not_reduced { S.room rows.old ≤ S.room rows.new }
{
    let len = 32 * r;
    rows.clear();
    rows.push(x);
    'rows: for i in 1..count {
        mix_times(r, k, &rows.words()[len * (i - 1)..], x, work);
        rows.push(x);
    }
}
