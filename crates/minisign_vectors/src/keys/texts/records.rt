//! Tests of the default signature, and of comparing keys with key IDs. `tests/rows/records.py` has
//! the other records.

use minisign::keynum::{KeynumPK, KeynumSK};
use minisign::{Signature, SignatureBones};
use minisign_fixtures::keys::{KEY_ID, OTHER_KEY_ID, PUBLIC_BYTES};
use minisign_fixtures::outcomes::gives_record;

#[test]
fn default_signature_is_74_zero_bytes(rt: HostRuntime) {
    assert!(rt; gives_record(Signature::default().to_bytes(rt.alloc()), &[0; 74]));
    assert!(rt; Signature::BYTES == 74 && SignatureBones::BYTES == 74);
}

// Returns a public key with key A's bytes and this key ID.
fn named(keynum: [u8; 8]) -> KeynumPK {
    KeynumPK {
        keynum,
        pk: PUBLIC_BYTES,
    }
}

// Both the 32 key bytes and the key ID are compared.
#[test]
fn compares_key_ids_and_public_keys(rt: HostRuntime) {
    let changed = KeynumPK {
        keynum: KEY_ID,
        pk: [0x5b; 32],
    };
    assert!(rt; named(KEY_ID) == named(KEY_ID));
    assert!(rt; named(KEY_ID) != named(OTHER_KEY_ID));
    assert!(rt; named(KEY_ID) != changed);
}

// Returns a secret key of one repeated byte, with a checksum of another one.
fn secret(keynum: [u8; 8], byte: u8, checksum: u8) -> KeynumSK {
    KeynumSK {
        keynum,
        sk: [byte; 64],
        chk: [checksum; 32],
    }
}

// The checksum of a secret key is not compared.
#[test]
fn compares_key_ids_and_secret_keys(rt: HostRuntime) {
    let one = secret(KEY_ID, 3, 1);
    assert!(rt; one.len() == 104);
    assert!(rt; one == secret(KEY_ID, 3, 2));
    assert!(rt; one != secret(OTHER_KEY_ID, 3, 1));
    assert!(rt; one != secret(KEY_ID, 4, 1));
}
