//! PBKDF2 (RFC 8018, section 5.2) with one iteration of HMAC with SHA-256.

ghost use Rattle.std.specs.Prelude.{◌≡◌, ◌+◌, ◌*◌, ◌^◌, ◌≤◌, ◌++◌, length};
ghost use Rattle.std.specs.Int.{w32, to_be_bytes};
ghost use Rattle.minisign_kdf.specs.Blocks.{joined_lists};
ghost use Rattle.minisign_kdf.specs.Hmac.{hmac};
ghost use Rattle.minisign_kdf.specs.Pbkdf2.{longest_key, pbkdf2};

use crate::hmac::hmac_sha256;

// The length of a block of the derived key in bytes.
const BLOCK_LEN: usize = 32;

/// Derives a key that fills `out` with PBKDF2 (RFC 8018, section 5.2), using one iteration of HMAC with
/// SHA-256. `out` must have at most 137438953440 bytes, which is 2^32 - 1 blocks. Does not allocate.
pub fn pbkdf2_once(password: &[u8], salt: &[u8], out: &mut [u8])
    requires { length out.old ≤ longest_key }
    ensures { out.new ≡ pbkdf2 password.now salt.now (length out.old) }
{
    let count = (out.len() / BLOCK_LEN) as u32;
    let (whole, rest) = out.split_at_mut(BLOCK_LEN * count as usize);
    write_blocks(password, salt, count, whole);
    if !rest.is_empty() {
        let last = derived_block(password, salt, count + 1);
        let (front, _) = last.split_at(rest.len());
        rest.copy_from_slice(front);
    }
}

// Fills `out` with whole blocks: T_1, T_2 and so on.
fn write_blocks(password: &[u8], salt: &[u8], count: u32, out: &mut [u8])
    requires { length out.old ≡ 32 * count }
    ensures { out.new ≡ joined_lists (λ i. hmac password.now (salt.now ++ to_be_bytes w32 (i + 1))) count }
{
    'whole: for i in 0..count {
        let at = BLOCK_LEN * i as usize;
        out[at..at + BLOCK_LEN].copy_from_slice(&derived_block(password, salt, i + 1));
    }
}

// Returns block T_i of the derived key.
fn derived_block(password: &[u8], salt: &[u8], i: u32) -> [u8; 32]
    ensures { result ≡ hmac password.now (salt.now ++ to_be_bytes w32 i) }
{
    hmac_sha256(password, &[salt, &i.to_be_bytes()])
}
