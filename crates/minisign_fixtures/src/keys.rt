//! Key A, which the tests use, and the values that belong to it.
//!
//! Key A is the toy scheme's pair of a seed of 32 zeros: its key bytes are 32 times `5a`. A
//! signature of the toy scheme with random bytes of zeros is 32 zeros, and then the public key
//! xored with the folded message. The values here were computed this way from digests of Python's
//! hashlib.

/// The key ID of key A.
pub const KEY_ID: [u8; 8] = [1, 2, 3, 4, 5, 6, 7, 8];

/// Another key ID, whose text is `E7620F1842B4E81F`.
pub const OTHER_KEY_ID: [u8; 8] = [0x1f, 0xe8, 0xb4, 0x42, 0x18, 0x0f, 0x62, 0xe7];

/// The key bytes of key A's public key.
pub const PUBLIC_BYTES: [u8; 32] = [0x5a; 32];

/// The checksum of key A: the 32-byte Blake2b digest of `Ed`, the key ID and the secret bytes.
pub const CHECKSUM: [u8; 32] = [
    0xce, 0x87, 0x83, 0x74, 0x79, 0xb6, 0x1e, 0xbf, 0xe9, 0x46, 0x5b, 0x8a, 0x3b, 0x70, 0xd8, 0xcc,
    0xfd, 0x75, 0x53, 0xf5, 0x83, 0x3d, 0xd6, 0x56, 0x49, 0xd6, 0x4a, 0x12, 0x7c, 0x7a, 0x89, 0xf8,
];

/// The second half of key A's signature of the digest of `abc`. The first half is 32 zeros.
pub const ABC_SECOND_HALF: [u8; 32] = [
    0x9d, 0x5d, 0x3a, 0x5c, 0xe8, 0xed, 0x6e, 0x7a, 0xf2, 0x2f, 0x18, 0x32, 0x80, 0x7b, 0x60, 0x26,
    0x0e, 0xa8, 0xff, 0xe6, 0xe9, 0xf1, 0x0c, 0xb7, 0xa8, 0x6b, 0x67, 0xd8, 0x55, 0xa5, 0x61, 0xa8,
];

/// Returns the record of a public key.
pub fn public_record(key_id: &[u8; 8], key: &[u8; 32]) -> [u8; 42] {
    joined(&[b"Ed", key_id, key])
}

/// Returns the record of a signature whose first half is 32 zeros and whose second half is `second_half`.
pub fn signature_record(algorithm: &[u8; 2], key_id: &[u8; 8], second_half: &[u8; 32]) -> [u8; 74] {
    joined(&[algorithm, key_id, &[0; 32], second_half])
}

/// Returns the record of key A's secret key, with this key derivation and this checksum. The salt,
/// the limits and the seed are zeros.
pub fn secret_record(kdf: &[u8; 2], checksum: &[u8; 32]) -> [u8; 158] {
    joined(&[
        b"Ed",
        kdf,
        b"B2",
        &[0; 48],
        &KEY_ID,
        &[0; 32],
        &PUBLIC_BYTES,
        checksum,
    ])
}

// Joins these parts to a record of `N` bytes.
fn joined<const N: usize>(parts: &[&[u8]]) -> [u8; N] {
    let mut record = [0u8; N];
    let mut at = 0usize;
    for part in parts {
        for byte in *part {
            if at < N {
                record[at] = *byte;
                at += 1;
            }
        }
    }
    record
}
