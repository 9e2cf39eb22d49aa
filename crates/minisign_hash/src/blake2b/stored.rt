//! A hash state as plain numbers, which a program in another language can hold between two calls.

ghost use Rattle.std.specs.Prelude.{◌≡◌, List, ℕ, false, IfSome, IfNone};
ghost use Rattle.minisign_hash.specs.Fed.{IsFed, has_finalized, output_length};
ghost use Rattle.minisign_hash.specs.Stored.{WasFed};

use crate::blake2b::{BUFFER_BYTES, Blake2b};

/// The contents of a state for a digest of 64 bytes: 344 bytes with C layout. The program that
/// holds this struct may have changed it. `restore` rejects a struct that no state has as its
/// contents, but cannot detect other changes.
#[repr(C)]
#[derive(Clone, Copy)]
pub struct StoredBlake2b {
    /// The hash of the blocks that were compressed.
    pub h: [u64; 8],
    /// The lower 64 bits of the number of bytes compressed so far, modulo 2^128.
    pub count_low: u64,
    /// The upper 64 bits of that number.
    pub count_high: u64,
    /// The number of bytes in the buffer.
    pub used: u64,
    /// The last bytes that were fed, which are not yet compressed.
    pub buffer: [u8; BUFFER_BYTES],
}

#[tactic(auto, unfolding(crate::specs::Fed::has_finalized, crate::specs::Fed::output_length, crate::specs::Fed::IsFed, crate::specs::Fed::Holds, crate::specs::Stored::WasFed))]
impl StoredBlake2b {
    /// Returns the contents of a state, which must be for a digest of 64 bytes.
    pub fn store(state: &Blake2b) -> StoredBlake2b
        requires { output_length state.now ≡ 64 }
        ensures { (m : List ℕ) → IsFed state.now m → WasFed result m }
    {
        StoredBlake2b {
            h: state.h,
            count_low: (state.count & 0xffff_ffff_ffff_ffff) as u64,
            count_high: (state.count >> 64) as u64,
            used: state.used as u64,
            buffer: state.buffer,
        }
    }

    /// Returns a state for a digest of 64 bytes, which has been fed the same data as the stored
    /// state and is not finalized. Returns `None` if `used` is greater than 256, which is the size
    /// of the buffer.
    pub fn restore(&self) -> Option<Blake2b>
        ensures fed { IfSome result (λ b. (m : List ℕ) → WasFed self.now m → IsFed b m) }
        ensures length { IfSome result (λ b. output_length b ≡ 64) }
        ensures finalized { IfSome result (λ b. has_finalized b ≡ false) }
        ensures refused { IfNone result ((m : List ℕ) → ¬ (WasFed self.now m)) }
    {
        if self.used > 256 {
            return None;
        }
        Some(Blake2b {
            h: self.h,
            count: ((self.count_high as u128) << 64) | (self.count_low as u128),
            buffer: self.buffer,
            used: self.used as usize,
            outlen: 64,
            finalized: false,
        })
    }
}
