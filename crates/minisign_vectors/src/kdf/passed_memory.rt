//! Tests of scrypt in the caller's memory: published vectors with any previous contents, and memory
//! that is zero afterwards.
//!
//! The keys are from RFC 7914, section 12.

ghost use Rattle.std.specs.Prelude.{◌≡◌, IfOk, vec_len};

use crate::display::shows;
use crate::tables::assert_row;
use minisign_kdf::{Params, scrypt_in};
use std::alloc::{AllocError, Global};

// The keys of the smallest test vector and of the one with several parts.
pub const KEY_OF_EMPTY_PASSWORD: &str =
    "77d6576238657b203b19ca42c18a0497f16b4844e3074ae8dfdffa3fede21442fcd0069ded0948f8326a753a0fc81f17e8d3e0fb2e0d3628cf35e20c38d18906";

pub const KEY_OF_PASSWORD: &str =
    "fdbabe1c9d3472007856e7190d01e9fe7c6ad7cbc8237830e77376634b3731622eaf30d92e22a3886ff109279d9830dac727afb94a83ee6d8360cbdfa2cc0640";

/// Returns this number of words, none of them 0.
pub fn words(alloc: Global, len: usize) -> Result<Vec<u32>, AllocError>
    ensures { IfOk result (λ v. vec_len v ≡ len) }
{
    vec![in alloc; 0x5c5c5c5cu32; len]
}

/// Returns this number of bytes, none of them 0.
pub fn bytes(alloc: Global, len: usize) -> Result<Vec<u8>, AllocError>
    ensures { IfOk result (λ v. vec_len v ≡ len) }
{
    vec![in alloc; 0x5cu8; len]
}

/// Returns true if all of the memory is zero.
pub fn are_zeros(words: &[u32], bytes: &[u8]) -> bool {
    for word in words {
        if *word != 0 {
            return false;
        }
    }
    for byte in bytes {
        if *byte != 0 {
            return false;
        }
    }
    true
}

// The password, the salt, the parameters, k, and the key.
type Row = (
    &'static str,
    &'static str,
    (u8, u32, u32),
    u64,
    &'static str,
);

const ROWS: [Row; 4] = [
    ("", "", (4, 1, 1), 1, KEY_OF_EMPTY_PASSWORD),
    ("", "", (4, 1, 1), 3, KEY_OF_EMPTY_PASSWORD),
    ("", "", (4, 1, 1), 17, KEY_OF_EMPTY_PASSWORD),
    ("password", "NaCl", (10, 8, 16), 3, KEY_OF_PASSWORD),
];

// Hides the table from proofs, which would otherwise unfold all of it.
fn rows() -> &'static [Row] {
    &ROWS
}

// Returns true if the key is as expected and all of the memory is zero afterwards.
fn derives(alloc: Global, row: &Row) -> bool {
    let (password, salt, (n_log2, r, p), k, expected) = *row;
    let Ok(params) = Params::new(n_log2, r, p) else {
        return false;
    };
    let k = k.max(1);
    let Ok(mut words) = words(alloc, params.words_needed(k) as usize) else {
        return false;
    };
    let Ok(mut bytes) = bytes(alloc, params.bytes_needed() as usize) else {
        return false;
    };
    let mut key = [0u8; 64];
    let (password, salt) = (password.as_bytes(), salt.as_bytes());
    scrypt_in(password, salt, &params, k, &mut words, &mut bytes, &mut key);
    let are_left_zeros = are_zeros(&words, &bytes);
    let is_key = shows(alloc, &key, expected);
    are_left_zeros && is_key
}

#[test]
fn derives_keys_in_passed_memory(rt: HostRuntime) {
    for row in rows() {
        assert_row(&rt, derives(rt.alloc(), row), row);
    }
}
