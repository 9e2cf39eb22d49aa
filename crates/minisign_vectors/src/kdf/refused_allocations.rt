//! Tests that key derivation gives the right key or out of memory, whichever allocation fails. With
//! enough memory each call succeeds. `tests/library/failing_allocations.py` runs each test with each of
//! its allocations failing in turn, and counts them.
//!
//! The keys are from RFC 7914, section 12.

use minisign_kdf::{KdfError, Params, Rows, scrypt, scrypt_keeping};
use std::alloc::Global;

// The first bytes of the smallest vector.
const KEY_PREFIX: [u8; 8] = [0x77, 0xd6, 0x57, 0x62, 0x38, 0x65, 0x7b, 0x20];

// There are two requests: one for all rows, and one for the buffers for mixing.
#[test]
fn reserves_all_rows_in_a_single_request(rt: HostRuntime) {
    match Rows::fill(rt.alloc(), &[7; 128], 10, 3) {
        Ok(rows) => assert!(rt; rows.len() == 342),
        Err(fault) => assert!(rt; fault == KdfError::OutOfMemory),
    }
}

// Returns true if the key was derived, or an allocation failed and the output is unchanged.
fn is_derived_or_unchanged(fault: Option<KdfError>, key: &[u8; 8]) -> bool {
    match fault {
        None => *key == KEY_PREFIX,
        Some(fault) => fault == KdfError::OutOfMemory && *key == [0xa5; 8],
    }
}

// Returns true if `scrypt` derives the key or fails without changing the output.
fn is_derived(alloc: Global) -> bool {
    let Ok(params) = Params::new(4, 1, 1) else {
        return false;
    };
    let mut key = [0xa5u8; 8];
    let derived = scrypt(alloc, b"", b"", &params, &mut key);
    is_derived_or_unchanged(derived.err(), &key)
}

// Returns true if `scrypt_keeping` with every third row, which is six rows, derives the key or
// fails without changing the output.
fn is_derived_with_every_third_row(alloc: Global) -> bool {
    let Ok(params) = Params::new(4, 1, 1) else {
        return false;
    };
    let mut key = [0xa5u8; 8];
    let rows_kept = scrypt_keeping(alloc, b"", b"", &params, 3, &mut key);
    let is_counted = rows_kept == Ok(6) || rows_kept.is_err();
    is_counted && is_derived_or_unchanged(rows_kept.err(), &key)
}

#[test]
fn derives_key_or_reports_out_of_memory(rt: HostRuntime) {
    assert!(rt; is_derived(rt.alloc()));
    assert!(rt; is_derived_with_every_third_row(rt.alloc()));
}
