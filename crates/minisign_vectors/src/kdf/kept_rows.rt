//! Tests of scrypt with every k-th row kept: published vectors for many k, and the number of kept
//! rows.
//!
//! The block and its results are from RFC 7914, sections 9 and 10. The keys are from RFC 7914,
//! section 12, and from Python's hashlib (OpenSSL).

ghost use Rattle.std.specs.Prelude.{◌≡◌, ◌≤◌, length};

use crate::display::shows;
use crate::kdf::passed_memory::{KEY_OF_EMPTY_PASSWORD, KEY_OF_PASSWORD};
use crate::tables::assert_row;
use minisign_kdf::KdfError::{self, InvalidOutputLen, OutOfMemory};
use minisign_kdf::{Params, Rows, mix_kept, scrypt_keeping};
use std::alloc::Global;

// The input B of scryptROMix for r = 1, called a part here.
const BLOCK: [u8; 128] = [
    0xf7, 0xce, 0x0b, 0x65, 0x3d, 0x2d, 0x72, 0xa4, 0x10, 0x8c, 0xf5, 0xab, 0xe9, 0x12, 0xff, 0xdd,
    0x77, 0x76, 0x16, 0xdb, 0xbb, 0x27, 0xa7, 0x0e, 0x82, 0x04, 0xf3, 0xae, 0x2d, 0x0f, 0x6f, 0xad,
    0x89, 0xf6, 0x8f, 0x48, 0x11, 0xd1, 0xe8, 0x7b, 0xcc, 0x3b, 0xd7, 0x40, 0x0a, 0x9f, 0xfd, 0x29,
    0x09, 0x4f, 0x01, 0x84, 0x63, 0x95, 0x74, 0xf3, 0x9a, 0xe5, 0xa1, 0x31, 0x52, 0x17, 0xbc, 0xd7,
    0x89, 0x49, 0x91, 0x44, 0x72, 0x13, 0xbb, 0x22, 0x6c, 0x25, 0xb5, 0x4d, 0xa8, 0x63, 0x70, 0xfb,
    0xcd, 0x98, 0x43, 0x80, 0x37, 0x46, 0x66, 0xbb, 0x8f, 0xfc, 0xb5, 0xbf, 0x40, 0xc2, 0x54, 0xb0,
    0x67, 0xd2, 0x7c, 0x51, 0xce, 0x4a, 0xd5, 0xfe, 0xd8, 0x29, 0xc9, 0x0b, 0x50, 0x5a, 0x57, 0x1b,
    0x7f, 0x4d, 0x1c, 0xad, 0x6a, 0x52, 0x3c, 0xda, 0x77, 0x0e, 0x67, 0xbc, 0xea, 0xaf, 0x7e, 0x89,
];

// scryptBlockMix of this part.
const MIXED: &str =
    "a41f859c6608cc993b81cacb020cef05044b2181a2fd337dfd7b1c6396682f29b4393168e3c9e6bcfe6bc5b7a06d96bae424cc102c91745c24ad673dc7618f8120edc975323881a80540f64c162dcd3c21077cfe5f8d5fe2b1a4168f953678b77d3b3d803b60e4ab920996e59b4d53b65d2a225877d5edf5842cb9f14eefe425";

// scryptROMix of this part with N = 16.
const ROM_MIXED: &str =
    "79ccc193629debca047f0b70604bf6b62ce3dd4a9626e355fafc6198e6ea2b46d58413673b99b029d665c357601fb426a0b2f4bba200ee9f0a43d19b571a9c71ef1142e65d5a266fddca832ce59faa7cac0b9cf1be2bffca300d01ee387619c4ae12fd4438f203a0e4e1c47ec314861f4e9087cb33396a6873e8f9d2539a4b8e";

// The key of an empty password with the default cost.
const KEY_WITH_DEFAULT_COST: &str =
    "2c804bf5d0ccb28051f20fb0b99bf7e9a45a67496650536018dd8839d9370748f1ac548a44dde14ef07f306c5fc7fe091054c6374d73d1a4f917a0fbcd8b88b8";

// The password, the salt, the parameters, k, the number of kept rows, and the key.
type Key = (
    &'static str,
    &'static str,
    (u8, u32, u32),
    u64,
    u64,
    &'static str,
);

// The smallest test vector, the one with several parts, and one with the default cost, also for k
// that do not divide N.
const KEYS: [Key; 12] = [
    ("", "", (4, 1, 1), 1, 16, KEY_OF_EMPTY_PASSWORD),
    ("", "", (4, 1, 1), 2, 8, KEY_OF_EMPTY_PASSWORD),
    ("", "", (4, 1, 1), 3, 6, KEY_OF_EMPTY_PASSWORD),
    ("", "", (4, 1, 1), 5, 4, KEY_OF_EMPTY_PASSWORD),
    ("", "", (4, 1, 1), 7, 3, KEY_OF_EMPTY_PASSWORD),
    ("", "", (4, 1, 1), 15, 2, KEY_OF_EMPTY_PASSWORD),
    ("", "", (4, 1, 1), 16, 1, KEY_OF_EMPTY_PASSWORD),
    ("", "", (4, 1, 1), 17, 1, KEY_OF_EMPTY_PASSWORD),
    ("", "", (4, 1, 1), u64::MAX, 1, KEY_OF_EMPTY_PASSWORD),
    ("password", "NaCl", (10, 8, 16), 100, 11, KEY_OF_PASSWORD),
    ("", "", (15, 8, 1), 3, 10923, KEY_WITH_DEFAULT_COST),
    ("", "", (15, 8, 1), 7, 4682, KEY_WITH_DEFAULT_COST),
];

// Hides the table from proofs, which would otherwise unfold all of it.
fn keys() -> &'static [Key] {
    &KEYS
}

// Returns true if the key and the number of kept rows are as expected.
fn keeps_expected_rows(alloc: Global, row: &Key) -> bool {
    let (password, salt, (n_log2, r, p), k, count, expected) = *row;
    let Ok(params) = Params::new(n_log2, r, p) else {
        return false;
    };
    let mut key = [0u8; 64];
    let (password, salt) = (password.as_bytes(), salt.as_bytes());
    let rows_kept = scrypt_keeping(alloc, password, salt, &params, k.max(1), &mut key);
    rows_kept == Ok(count) && shows(alloc, &key, expected)
}

// The key is the same for every k, and the expected number of rows is kept.
#[test]
fn same_key_for_every_number_of_kept_rows(rt: HostRuntime) {
    for row in keys() {
        assert_row(&rt, keeps_expected_rows(rt.alloc(), row), row);
    }
}

// Returns true if mixing with every k-th row of the published block kept, N = 16, gives the
// published result.
fn mixes(alloc: Global, k: u64) -> bool
    requires { 1 ≤ k }
{
    let Ok(rows) = Rows::fill(alloc, &BLOCK, 4, k) else {
        return false;
    };
    let mut work = [0x5c5c5c5cu32; 96];
    let mut out = [0xa5u8; 128];
    mix_kept(rows.words(), 4, k, &mut out, &mut work);
    rows.len() == 16u64.div_ceil(k) && shows(alloc, &out, ROM_MIXED)
}

#[test]
fn mixing_gives_rows_of_rfc_7914(rt: HostRuntime) {
    for k in 1..18u64 {
        assert_row(&rt, mixes(rt.alloc(), k), &k);
    }
}

// Returns the bytes of a row for r = 1 from words in diagonal order.
fn bytes_of(row: &[u32]) -> [u8; 128]
    requires { length row.now ≡ 32 }
{
    let mut bytes = [0u8; 128];
    for block in 0..2usize {
        for word in 0..16usize {
            let at = 64 * block + 4 * word;
            let place = 16 * block + 13 * word % 16;
            bytes[at..at + 4].copy_from_slice(&row[place].to_le_bytes());
        }
    }
    bytes
}

// Returns true if the words are this number of rows in diagonal order: the block, and its
// scryptBlockMix.
fn are_first_rows(alloc: Global, words: &[u32], count: u64) -> bool {
    if words.len() == 32 {
        return count == 1 && bytes_of(words) == BLOCK;
    }
    if words.len() != 64 {
        return false;
    }
    let (first, second) = words.split_at(32);
    count == 2 && bytes_of(first) == BLOCK && shows(alloc, &bytes_of(second), MIXED)
}

// log2(N), k, and the number of kept rows. A number of 0 means that the rows do not fit into memory.
type Filled = (u8, u64, u64);

// Rows that do not fit into memory are rejected before any mixing. If only one row is kept, nothing
// is mixed.
const FILLED: [Filled; 5] = [
    (1, 1, 2),
    (1, 3, 1),
    (63, 1, 0),
    (63, 9223372036854775808, 1),
    (63, 18446744073709551615, 1),
];

// Returns true if this number of rows of the published block is kept.
fn fills(alloc: Global, row: &Filled) -> bool {
    let (n_log2, k, count) = *row;
    match Rows::fill(alloc, &BLOCK, n_log2.clamp(1, 63), k.max(1)) {
        Ok(rows) => rows.len() == count && are_first_rows(alloc, rows.words(), count),
        Err(fault) => count == 0 && fault == OutOfMemory,
    }
}

#[test]
fn fills_rows_at_least_and_greatest_cost(rt: HostRuntime) {
    for row in &FILLED {
        assert_row(&rt, fills(rt.alloc(), row), row);
    }
}

// k, the length of the output, and the error.
type Refused = (u64, usize, KdfError);

// An output length that scrypt does not allow is rejected for every k, before rows that do not fit
// into memory.
const REFUSED: [Refused; 5] = [
    (1, 0, InvalidOutputLen),
    (3, 0, InvalidOutputLen),
    (18446744073709551615, 0, InvalidOutputLen),
    (1, 32, OutOfMemory),
    (1000, 32, OutOfMemory),
];

// Returns true if deriving a key fails with this error and leaves the output unchanged.
fn is_refused(alloc: Global, row: &Refused) -> bool {
    let (k, len, fault) = *row;
    let Ok(params) = Params::new(53, 8, 1) else {
        return false;
    };
    let mut key = [7u8; 32];
    let (out, _) = key.split_at_mut(len.min(32));
    let refused = scrypt_keeping(alloc, b"pw", b"salt", &params, k.max(1), out);
    refused == Err(fault) && key == [7; 32]
}

#[test]
fn errors_do_not_depend_on_kept_rows(rt: HostRuntime) {
    for row in &REFUSED {
        assert_row(&rt, is_refused(rt.alloc(), row), row);
    }
}
