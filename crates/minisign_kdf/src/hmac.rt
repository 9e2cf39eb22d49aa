//! HMAC with SHA-256 (RFC 2104) of a message in parts.

ghost use Rattle.std.specs.Prelude.{◌≡◌, ◌++◌, ◌-◌, ◌≤◌, length, map, replicate, bit_xor};
ghost use Rattle.std.specs.List.{flat_map};
ghost use Rattle.minisign_kdf.specs.Hmac.{hmac, key_block};

use sha2::{Digest, Sha256};

// The length of a block of SHA-256 in bytes.
const BLOCK_LEN: usize = 64;

/// Returns HMAC with SHA-256 (RFC 2104, section 2) of the concatenated `parts` under `key`. The key may
/// have any length; a key longer than 64 bytes is replaced by its digest. Does not allocate.
pub fn hmac_sha256(key: &[u8], parts: &[&[u8]]) -> [u8; 32]
    ensures { result ≡ hmac key.now (flat_map (λ part. part.now) parts.now) }
{
    let block = key_block(key);
    let mut inner = Sha256::new();
    inner.update(&xor_pad(&block, 0x36));
    'parts: for part in parts {
        inner.update(*part);
    }
    let digest = inner.finalize();
    let mut outer = Sha256::new();
    outer.update(&xor_pad(&block, 0x5c));
    outer.update(&digest);
    outer.finalize()
}

// Xors each byte of a block with the pad.
fn xor_pad(block: &[u8; 64], pad: u8) -> [u8; 64]
    ensures { result ≡ map (λ b. bit_xor b pad) block.now }
{
    let mut xored = [0u8; 64];
    'bytes: for i in 0..64 {
        xored[i] = block[i] ^ pad;
    }
    xored
}

// Returns the key as a block. A key longer than a block is replaced by its digest.
#[tactic(auto, unfolding(crate::specs::Hmac::key_block))]
fn key_block(key: &[u8]) -> [u8; 64]
    ensures { result ≡ key_block key.now }
{
    if key.len() > BLOCK_LEN {
        zero_padded(&Sha256::digest(key))
    } else {
        zero_padded(key)
    }
}

// Pads the key with zeros to the length of a block.
fn zero_padded(key: &[u8]) -> [u8; 64]
    requires { length key.now ≤ 64 }
    ensures { result ≡ key.now ++ replicate (64 - length key.now) 0 }
{
    let mut block = [0u8; 64];
    let (front, _) = block.split_at_mut(key.len());
    front.copy_from_slice(key);
    block
}
