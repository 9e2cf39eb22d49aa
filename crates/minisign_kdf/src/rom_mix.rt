//! scryptROMix (RFC 7914, section 5) with only every k-th row in memory. Each other row is computed again
//! from the kept row before it. The rows are in one slice of words, each block in diagonal order: the order
//! that Salsa20 on vectors uses, which `specs/Diagonal.antt` defines.

ghost use Rattle.std.specs.Prelude.{◌≡◌, ℕ, ◌+◌, ◌-◌, ◌*◌, ◌/◌, ◌%◌, ◌^◌, ◌<◌, ◌≤◌, List, length, bit_xor};
ghost use Rattle.std.specs.Int.{div_ceil};
ghost use Rattle.std.specs.Simd.Lanes.{zip2};
ghost use Rattle.minisign_kdf.specs.Blocks.{block};
ghost use Rattle.minisign_kdf.specs.Diagonal.{diagonal_bytes};
ghost use Rattle.minisign_kdf.specs.Kept.{integerify, kept_rows, remade_row, rom_mix_from, rows_of};
ghost use Rattle.minisign_kdf.specs.Scrypt.{block_mix, rom_mix, row_at};

use crate::block_mix::{mix_times, xor_block_mix};
use crate::diagonal_order::store_part;
use crate::kept_rows::{kept_count, row_count};
use std::simd::u32x4;

/// Writes scryptROMix (RFC 7914, section 5) with N = 2^`n_log2` to `out`. `rows` has only every k-th row: the
/// words of N / k rows, rounded up, in the layout of `Rows::words`. Row j is computed from the kept row j / k
/// by mixing it j mod k times. If `rows` are the rows that `Rows::fill` computes from a block, the result is
/// scryptROMix of this block. Any other contents of `rows` are allowed too.
///
/// `out` must have the length of a row, 128 * r bytes for some r of at least 1, and `work` at least
/// 96 * r words, which is three rows. `n_log2` must be from 1 to 63, and k at least 1. The previous
/// contents of `out` and `work` are ignored; the contents of `work` afterwards are unspecified.
/// Does not allocate.
pub fn mix_kept(rows: &[u32], n_log2: u8, k: u64, out: &mut [u8], work: &mut [u32])
    requires even { 1 ≤ n_log2 }
    requires cost { n_log2 < 64 }
    requires k_positive { 1 ≤ k }
    requires some { 0 < length out.old }
    requires whole { length out.old % 128 ≡ 0 }
    requires rows_len { 4 * length rows.now ≡ length out.old * div_ceil (2 ^ n_log2) k }
    requires work_len { 3 * length out.old ≤ 4 * length work.old }

    // For any contents of `rows`, `out` holds the result of a scryptROMix that takes the kept rows from
    // `rows` and computes each other row by mixing the kept row before it.
    ensures mixed { let r = length out.old / 128 in
        out.new ≡ rom_mix_from r (2 ^ n_log2) k (rows_of r (div_ceil (2 ^ n_log2) k) rows.now) }

    // If `rows` are the kept rows of a block, `out` holds scryptROMix of this block.
    ensures standard { let r = length out.old / 128 in (b : List ℕ) →
        rows_of r (div_ceil (2 ^ n_log2) k) rows.now ≡ kept_rows r (2 ^ n_log2) k b
        → out.new ≡ rom_mix r (2 ^ n_log2) b }
{
    let len = out.len() / 4;
    let (x, rest) = work.split_at_mut(len);
    let (mixed, rest) = rest.split_at_mut(len);
    let (row, _) = rest.split_at_mut(len);
    mix_with_rows(len / 32, n_log2, k, rows, x, mixed, row);
    store_part(x, out);
}

// Computes scryptROMix from the kept rows into `x`. The previous contents of `x`, `work` and `row`
// are ignored.
fn mix_with_rows(
    r: usize,
    n_log2: u8,
    k: u64,
    rows: &[u32],
    x: &mut [u32],
    work: &mut [u32],
    row: &mut [u32],
)
    requires r_positive { 1 ≤ r }
    requires even { 1 ≤ n_log2 }
    requires cost { n_log2 < 64 }
    requires k_positive { 1 ≤ k }
    requires rows_len { length rows.now ≡ 32 * r * div_ceil (2 ^ n_log2) k }
    requires x_len { length x.old ≡ 32 * r }
    requires work_len { length work.old ≡ 32 * r }
    requires row_len { length row.old ≡ 32 * r }
    ensures { diagonal_bytes x.new
        ≡ rom_mix_from r (2 ^ n_log2) k (rows_of r (div_ceil (2 ^ n_log2) k) rows.now) }
{
    mix_last_row(r, n_log2, k, rows, x, work);
    'turns: for _turn in 0..row_count(n_log2) / 2 {
        mix_with_row(r, n_log2, k, rows, x, row, work);
        mix_with_row(r, n_log2, k, rows, work, row, x);
    }
}

// Computes row N into `x` by mixing the last kept row. The previous contents of `x` and `work` are
// ignored.
fn mix_last_row(r: usize, n_log2: u8, k: u64, rows: &[u32], x: &mut [u32], work: &mut [u32])
    requires r_positive { 1 ≤ r }
    requires cost { n_log2 < 64 }
    requires k_positive { 1 ≤ k }
    requires rows_len { length rows.now ≡ 32 * r * div_ceil (2 ^ n_log2) k }
    requires x_len { length x.old ≡ 32 * r }
    requires work_len { length work.old ≡ 32 * r }
    ensures { let last = div_ceil (2 ^ n_log2) k - 1 in
        diagonal_bytes x.new ≡ row_at r (diagonal_bytes (block (32 * r) rows.now last))
        (2 ^ n_log2 - k * last) }
{
    let last = kept_count(n_log2, k) - 1;
    let times = row_count(n_log2) - k as usize * last;
    mix_times(r, times, &rows[32 * r * last..], x, work);
}

// Mixes `x` with the row that Integerify selects, into `out`. The previous contents of `row` and
// `out` are ignored.
#[inline(always)]
fn mix_with_row(
    r: usize,
    n_log2: u8,
    k: u64,
    rows: &[u32],
    x: &[u32],
    row: &mut [u32],
    out: &mut [u32],
)
    requires r_positive { 1 ≤ r }
    requires cost { n_log2 < 64 }
    requires k_positive { 1 ≤ k }
    requires rows_len { length rows.now ≡ 32 * r * div_ceil (2 ^ n_log2) k }
    requires x_len { length x.now ≡ 32 * r }
    requires row_len { length row.old ≡ 32 * r }
    requires out_len { length out.old ≡ 32 * r }
    ensures { let b = diagonal_bytes x.now in diagonal_bytes out.new
        ≡ block_mix r (zip2 bit_xor b (remade_row r k (rows_of r (div_ceil (2 ^ n_log2) k) rows.now)
        (integerify r b % 2 ^ n_log2))) }
{
    let j = integerify(r, x) as usize % row_count(n_log2);
    let base_row = kept_row(r, n_log2, k, rows, j);
    mix_with_remade(r, base_row, j % k as usize, x, row, out);
}

// Returns the kept row from which row j is computed.
#[inline(always)]
fn kept_row(r: usize, n_log2: u8, k: u64, rows: &[u32], j: usize) -> &[u32]
    requires r_positive { 1 ≤ r }
    requires k_positive { 1 ≤ k }
    requires j { j < 2 ^ n_log2 }
    requires rows_len { length rows.now ≡ 32 * r * div_ceil (2 ^ n_log2) k }
    ensures row { result.now ≡ block (32 * r) rows.now (j / k) }
    ensures len { length result.now ≡ 32 * r }
{
    let len = 32 * r;
    let at = len * (j / k as usize);
    &rows[at..at + len]
}

// Mixes `x` with a row, which is computed by mixing `base_row` `times` times, into `out`.
#[inline(always)]
fn mix_with_remade(
    r: usize,
    base_row: &[u32],
    times: usize,
    x: &[u32],
    row: &mut [u32],
    out: &mut [u32],
)
    requires r_positive { 1 ≤ r }
    requires base_row_len { length base_row.now ≡ 32 * r }
    requires x_len { length x.now ≡ 32 * r }
    requires row_len { length row.old ≡ 32 * r }
    requires out_len { length out.old ≡ 32 * r }
    ensures { diagonal_bytes out.new
        ≡ block_mix r (zip2 bit_xor (diagonal_bytes x.now)
        (row_at r (diagonal_bytes base_row.now) times)) }
{
    touch_row(r, base_row, out);
    if times == 0 {
        xor_block_mix(r, x, base_row, out);
    } else {
        mix_times(r, times, base_row, row, out);
        xor_block_mix(r, x, row, out);
    }
}

// Returns the low 64 bits of the last block, which are its first two words. In diagonal order these are at
// indices 0 and 13.
fn integerify(r: usize, x: &[u32]) -> u64
    requires r_positive { 1 ≤ r }
    requires x_len { length x.now ≡ 32 * r }
    ensures { result ≡ integerify r (diagonal_bytes x.now) % 2 ^ 64 }
{
    let last = 32 * r - 16;
    u64::from(x[last]) + (u64::from(x[last + 13]) << 32)
}

// Loads the row into the cache: reads a vector of each of its first r blocks and of its last block, so that
// the mixing afterwards waits for memory once and not for each block. The values are xored into `out`, which
// is overwritten afterwards.
fn touch_row(r: usize, row: &[u32], out: &mut [u32])
    requires r_positive { 1 ≤ r }
    requires row_len { length row.now ≡ 32 * r }
    requires out_len { length out.old ≡ 32 * r }
    ensures { length out.new ≡ length row.now }
{
    'blocks: for i in 0..r {
        touch_block(&row[16 * i..], &mut out[16 * i..]);
    }
    touch_block(&row[32 * r - 16..], &mut out[32 * r - 16..]);
}

// Reads a vector of the block and xors it into `out`.
#[inline(always)]
fn touch_block(block: &[u32], out: &mut [u32])
    requires block_len { 4 ≤ length block.now }
    requires out_len { 4 ≤ length out.old }
    ensures { length out.new ≡ length out.old }
{
    let seen = u32x4::from_slice(block) ^ u32x4::from_slice(out);
    seen.copy_to_slice(out);
}
