//! scrypt (RFC 7914, section 6).

ghost use Rattle.std.specs.Prelude.{◌≡◌, ◌+◌, ◌*◌, ◌/◌, ◌%◌, ◌^◌, ◌<◌, ◌≤◌, IfErr, IfOk, IsTrue, OnErr, OnOk};
ghost use Rattle.std.specs.Prelude.{if◌then◌else◌, is_ok, length, replicate, vec_capacity, vec_len};
ghost use Rattle.std.specs.Int.{div_ceil};
ghost use Rattle.minisign_kdf.specs.Blocks.{block, joined_lists};
ghost use Rattle.minisign_kdf.specs.Pbkdf2.{longest_key};
ghost use Rattle.minisign_kdf.specs.Memory.{bytes_needed, words_needed};
ghost use Rattle.minisign_kdf.specs.Scrypt.{is_key_length, rom_mix, scrypt};

use crate::errors::{InvalidOutputLen, KdfError};
use crate::kept_rows::{keep_rows, memory_for_rows, rows_in, zeros};
use crate::params::Params;
use crate::pbkdf2::pbkdf2_once;
use crate::rom_mix::mix_kept;
use crate::row_memory::{Passed, RowMemory};
use std::alloc::{AllocError, Global};

// The greatest length of a derived key: 2^32 - 1 blocks of 32 bytes.
const LONGEST_KEY: usize = 137438953440;

// The memory of a derivation: for the kept rows, for mixing, and for the p parts, which RFC 7914
// calls B_0 to B_(p-1).
#[derive(Drop)]
struct Buffers {
    rows: Vec<u32>,
    work: Vec<u32>,
    parts: Vec<u8>,
}

impl Buffers {
    // Allocates all three buffers, first the one for the rows.
    fn new(alloc: Global, params: &Params, k: u64) -> Result<Buffers, KdfError>
        requires k_positive { 1 ≤ k }
        ensures capacity { IfOk result
            (λ b. vec_capacity b.rows ≡ 32 * params.now.r * div_ceil (2 ^ params.now.n_log2) k) }
        ensures work { IfOk result (λ b. vec_len b.work ≡ 96 * params.now.r) }
        ensures parts { IfOk result (λ b. vec_len b.parts ≡ 128 * params.now.r * params.now.p) }
        ensures rows_fit { OnOk result
            (128 * params.now.r * div_ceil (2 ^ params.now.n_log2) k < 2 ^ 63) }
        ensures only_out_of_memory { IfErr result (λ e. e ≡ KdfError.OutOfMemory) }
    {
        let r = params.r() as usize;
        let p = params.p() as usize;
        let rows = memory_for_rows(alloc, r, params.n_log2(), k)?;
        let work = zeros(alloc, 96 * r)?;
        let parts = bytes(alloc, 128 * r * p)?;
        Ok(Buffers { rows, work, parts })
    }
}

/// Derives a key that fills `out` from a password and a salt with scrypt (RFC 7914, section 6). This is
/// `scrypt_keeping` with every row kept, which is the fastest.
///
/// Returns `InvalidOutputLen` exactly if `out` is empty or longer than 137438953440 bytes, before anything
/// is allocated. Returns `OutOfMemory` if an allocation failed: 128 * r * N bytes for the rows, in one
/// request, then 128 * r * (p + 3) bytes, all before any mixing. All rows are in memory at the same time,
/// so on success they have fewer than 2^63 bytes. After an error `out` is unchanged.
///
/// ```
/// let params = Params::new(15, 8, 1)?;
/// let mut key = [0u8; 32];
/// scrypt(alloc, b"password", b"salt", &params, &mut key)?;
/// ```
pub fn scrypt(
    alloc: Global,
    password: &[u8],
    salt: &[u8],
    params: &Params,
    out: &mut [u8],
) -> Result<(), KdfError>
    // On success, `out` holds the scrypt output of RFC 7914 for the password, the salt, the parameters and
    // its length, which is from 1 to 137438953440 bytes.
    ensures key_length_is_allowed { OnOk result (IsTrue (is_key_length (length out.old))) }
    ensures derived { OnOk result
        (out.new ≡ scrypt password.now salt.now (2 ^ params.now.n_log2) params.now.r params.now.p
        (length out.old)) }

    // On success, all N rows of a part were in memory at the same time, so they have fewer than 2^63 bytes
    // in total. (With only every second row kept, this would not follow.)
    ensures rows_fit { OnOk result (128 * params.now.r * 2 ^ params.now.n_log2 < 2 ^ 63) }

    // The error is `InvalidOutputLen` if the length of `out` is not in this range, and otherwise out of
    // memory. After an error, `out` is unchanged.
    ensures refused { IfErr result (λ e. e ≡ (if is_key_length (length out.old)
        then KdfError.OutOfMemory else KdfError.InvalidOutputLen)) }
    ensures unchanged { OnErr result (out.new ≡ out.old) }
{
    scrypt_keeping(alloc, password, salt, params, 1, out)?;
    Ok(())
}

/// Derives the same key as `scrypt` with only every k-th row of a part kept, k at least 1. The
/// other rows are computed again when they are needed, which saves memory and costs time. Returns
/// how many rows are kept for each part: N / k, rounded up. These rows have fewer than 2^63 bytes
/// in total.
///
/// Returns `InvalidOutputLen` exactly if `out` is empty or longer than 137438953440 bytes, before anything
/// is allocated. Returns `OutOfMemory` if an allocation failed: 128 * r bytes for each kept row, in one
/// request, then 128 * r * (p + 3) bytes, all before any mixing. After an error `out` is unchanged.
///
/// scryptBlockMix runs 2 * N times for each of the p parts, as it does if every row is kept. In
/// addition, it runs (k - 1) / 2 times on average for each of the N rows that are looked up, or
/// fewer times if k does not divide N.
///
/// ```
/// // Keeps 2 MiB of rows instead of 32 MiB.
/// let params = Params::new(15, 8, 1)?;
/// let mut key = [0u8; 32];
/// let kept = scrypt_keeping(alloc, b"password", b"salt", &params, 16, &mut key)?;
/// ```
pub fn scrypt_keeping(
    alloc: Global,
    password: &[u8],
    salt: &[u8],
    params: &Params,
    k: u64,
    out: &mut [u8],
) -> Result<u64, KdfError>
    requires k_positive { 1 ≤ k }

    // On success, for every k of at least 1, `out` holds the scrypt output of RFC 7914 for the password,
    // the salt, the parameters and its length, which is from 1 to 137438953440 bytes. It does not depend on
    // k.
    ensures key_length_is_allowed { OnOk result (IsTrue (is_key_length (length out.old))) }
    ensures derived { OnOk result
        (out.new ≡ scrypt password.now salt.now (2 ^ params.now.n_log2) params.now.r params.now.p
        (length out.old)) }

    // On success, the result is the number of rows kept for each part, N / k rounded up, and these rows
    // have fewer than 2^63 bytes in total.
    ensures count { IfOk result (λ n. n ≡ div_ceil (2 ^ params.now.n_log2) k) }
    ensures rows_fit { OnOk result
        (128 * params.now.r * div_ceil (2 ^ params.now.n_log2) k < 2 ^ 63) }

    // The error is `InvalidOutputLen` if the length of `out` is not in this range, and otherwise out of
    // memory. After an error, `out` is unchanged.
    ensures refused { IfErr result (λ e. e ≡ (if is_key_length (length out.old)
        then KdfError.OutOfMemory else KdfError.InvalidOutputLen)) }
    ensures unchanged { OnErr result (out.new ≡ out.old) }
{
    check_len(out.len())?;
    let Buffers {
        mut rows,
        mut work,
        mut parts,
    } = Buffers::new(alloc, params, k)?;
    derive(
        password, salt, params, k, &mut parts, &mut rows, &mut work, out,
    );
    Ok(rows_in(&rows, params.r() as usize))
}

/// Derives the same key as `scrypt_keeping` in memory that the caller provides, with only every
/// k-th row of a part kept, k at least 1. Does not allocate, so it cannot fail.
///
/// `words` must have at least the length that `Params::words_needed` returns, and `bytes` the length that
/// `Params::bytes_needed` returns. Their previous contents are ignored, and both are all zeros afterwards.
/// `out` must have from 1 to 137438953440 bytes.
pub fn scrypt_in(
    password: &[u8],
    salt: &[u8],
    params: &Params,
    k: u64,
    words: &mut [u32],
    bytes: &mut [u8],
    out: &mut [u8],
)
    requires k_positive { 1 ≤ k }
    requires words { words_needed params.now k ≤ length words.old }
    requires bytes { bytes_needed params.now ≤ length bytes.old }
    requires len { IsTrue (is_key_length (length out.old)) }

    // For every k of at least 1, whatever the caller's memory held, `out` holds the scrypt output
    // of RFC 7914 for the password, the salt, the parameters and its length.
    ensures derived { out.new ≡ scrypt password.now salt.now
        (2 ^ params.now.n_log2) params.now.r params.now.p (length out.old) }

    // Afterwards all of the caller's memory is zero.
    ensures words_cleared { words.new ≡ replicate (length words.old) 0 }
    ensures bytes_cleared { bytes.new ≡ replicate (length bytes.old) 0 }
{
    derive_in(password, salt, params, k, words, bytes, out);
    clear_memory(words, bytes);
}

/// Overwrites memory that a derivation used with zeros. Does not allocate.
pub fn clear_memory(words: &mut [u32], bytes: &mut [u8])
    // Afterwards all of the memory is zero.
    ensures words { words.new ≡ replicate (length words.old) 0 }
    ensures bytes { bytes.new ≡ replicate (length bytes.old) 0 }
{
    words.fill(0);
    bytes.fill(0);
}

// Derives the key in the caller's memory. Its previous contents are ignored, and its contents
// afterwards are unspecified.
fn derive_in(
    password: &[u8],
    salt: &[u8],
    params: &Params,
    k: u64,
    words: &mut [u32],
    bytes: &mut [u8],
    out: &mut [u8],
)
    requires k_positive { 1 ≤ k }
    requires words { words_needed params.now k ≤ length words.old }
    requires bytes { bytes_needed params.now ≤ length bytes.old }
    requires len { length out.old ≤ longest_key }
    ensures { out.new ≡ scrypt password.now salt.now
        (2 ^ params.now.n_log2) params.now.r params.now.p (length out.old) }
{
    let r = params.r() as usize;
    let p = params.p() as usize;
    let (work, memory) = words.split_at_mut(96 * r);
    let (parts, _) = bytes.split_at_mut(128 * r * p);
    let mut rows = Passed::new(memory);
    derive(password, salt, params, k, parts, &mut rows, work, out);
}

// Rejects an output length that scrypt does not allow.
fn check_len(len: usize) -> Result<(), InvalidOutputLen>
    ensures { is_ok result ≡ is_key_length len }
{
    if len == 0 || len > LONGEST_KEY {
        return Err(InvalidOutputLen);
    }
    Ok(())
}

fn bytes(alloc: Global, len: usize) -> Result<Vec<u8>, AllocError>
    ensures { IfOk result (λ v. vec_len v ≡ len) }
{
    vec![in alloc; 0u8; len]
}

// Derives the key. The previous contents of the buffers are ignored. Afterwards `rows` holds the
// kept rows of the last part.
fn derive<S: RowMemory>(
    password: &[u8],
    salt: &[u8],
    params: &Params,
    k: u64,
    parts: &mut [u8],
    rows: &mut S,
    work: &mut [u32],
    out: &mut [u8],
)
    requires k_positive { 1 ≤ k }
    requires parts_len { length parts.old ≡ 128 * params.now.r * params.now.p }
    requires room { 32 * params.now.r * div_ceil (2 ^ params.now.n_log2) k ≤ S.room rows.old }
    requires work_len { length work.old ≡ 96 * params.now.r }
    requires out_len { length out.old ≤ longest_key }
    ensures derived { out.new ≡ scrypt password.now salt.now
        (2 ^ params.now.n_log2) params.now.r params.now.p (length out.old) }
    ensures words_len { length (S.words rows.new)
        ≡ 32 * params.now.r * div_ceil (2 ^ params.now.n_log2) k }
{
    let r = params.r() as usize;
    let p = params.p() as usize;
    pbkdf2_once(password, salt, parts);
    mix_parts(r, params.n_log2(), k, p, parts, rows, work);
    pbkdf2_once(password, parts, out);
}

// Applies scryptROMix to each of the p parts, in place. The previous contents of `rows` and `work`
// are ignored. Afterwards `rows` holds the kept rows of the last part.
fn mix_parts<S: RowMemory>(
    r: usize,
    n_log2: u8,
    k: u64,
    p: usize,
    parts: &mut [u8],
    rows: &mut S,
    work: &mut [u32],
)
    requires r_positive { 1 ≤ r }
    requires even { 1 ≤ n_log2 }
    requires cost { n_log2 < 64 }
    requires k_positive { 1 ≤ k }
    requires parts { 1 ≤ p }
    requires parts_len { length parts.old ≡ 128 * r * p }
    requires room { 32 * r * div_ceil (2 ^ n_log2) k ≤ S.room rows.old }
    requires work_len { length work.old ≡ 96 * r }
    ensures mixed { parts.new ≡ joined_lists
        (λ i. rom_mix r (2 ^ n_log2) (block (128 * r) parts.old i)) p }
    ensures words_len { length (S.words rows.new) ≡ 32 * r * div_ceil (2 ^ n_log2) k }
{
    let len = 128 * r;
    'parts: for i in 0..p {
        let at = len * i;
        rom_mix(n_log2, k, &mut parts[at..at + len], rows, work);
    }
}

// Applies scryptROMix to a part, in place. The previous contents of `rows` and `work` are ignored.
fn rom_mix<S: RowMemory>(n_log2: u8, k: u64, part: &mut [u8], rows: &mut S, work: &mut [u32])
    requires some { 0 < length part.old }
    requires whole { length part.old % 128 ≡ 0 }
    requires even { 1 ≤ n_log2 }
    requires cost { n_log2 < 64 }
    requires k_positive { 1 ≤ k }
    requires room { 32 * (length part.old / 128) * div_ceil (2 ^ n_log2) k ≤ S.room rows.old }
    requires work_len { 3 * length part.old ≤ 4 * length work.old }
    ensures mixed { part.new ≡ rom_mix (length part.old / 128) (2 ^ n_log2) part.old }
    ensures words_len { length (S.words rows.new)
        ≡ 32 * (length part.old / 128) * div_ceil (2 ^ n_log2) k }
    ensures room_not_reduced { S.room rows.old ≤ S.room rows.new }
{
    keep_rows(part, n_log2, k, rows, work);
    mix_kept(rows.words(), n_log2, k, part, work);
}
