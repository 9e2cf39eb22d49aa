//! The states of hashers as plain numbers, which a program in another language can hold between two
//! calls.

ghost use Rattle.std.specs.Prelude.{◌≡◌, ℕ, List};
ghost use Rattle.minisign_sha2.specs.Hashers.{IsFed256, IsFed512, WasFed256, WasFed512};

use crate::block256::Core256;
use crate::block512::Core512;
use crate::{Sha256, Sha512};

/// The contents of a hasher of SHA-256: 104 bytes with C layout.
#[repr(C)]
#[derive(Clone, Copy)]
pub struct StoredSha256 {
    /// The hash value of the blocks that were compressed.
    pub h: [u32; 8],
    /// The last bytes that were fed, which are not yet compressed.
    pub buffer: [u8; 64],
    /// The number of bytes fed so far, modulo 2^64.
    pub count: u64,
}

/// The contents of a hasher of SHA-512: 208 bytes with C layout.
#[repr(C)]
#[derive(Clone, Copy)]
pub struct StoredSha512 {
    /// The hash value of the blocks that were compressed.
    pub h: [u64; 8],
    /// The last bytes that were fed, which are not yet compressed.
    pub buffer: [u8; 128],
    /// The lower 64 bits of the number of bytes fed so far, modulo 2^128.
    pub count_low: u64,
    /// The upper 64 bits of that number.
    pub count_high: u64,
}

#[tactic(auto, unfolding(crate::specs::Hashers::IsFed256, crate::specs::Hashers::WasFed256))]
impl StoredSha256 {
    /// Returns the contents of a hasher.
    pub fn store(hasher: &Sha256) -> StoredSha256
        // The stored hasher was fed the same data.
        ensures { (m : List ℕ) → IsFed256 hasher.now m → WasFed256 result m }
    {
        StoredSha256 {
            h: hasher.core.h,
            buffer: hasher.core.buffer,
            count: hasher.core.total,
        }
    }

    /// Returns a hasher with these contents.
    pub fn restore(&self) -> Sha256
        // The hasher was fed the same data.
        ensures { (m : List ℕ) → WasFed256 self.now m → IsFed256 result m }
    {
        Sha256 {
            core: Core256 {
                h: self.h,
                buffer: self.buffer,
                total: self.count,
            },
        }
    }
}

#[tactic(auto, unfolding(crate::specs::Hashers::IsFed512, crate::specs::Hashers::WasFed512))]
impl StoredSha512 {
    /// Returns the contents of a hasher.
    pub fn store(hasher: &Sha512) -> StoredSha512
        // The stored hasher was fed the same data.
        ensures { (m : List ℕ) → IsFed512 hasher.now m → WasFed512 result m }
    {
        StoredSha512 {
            h: hasher.core.h,
            buffer: hasher.core.buffer,
            count_low: (hasher.core.total & 0xffff_ffff_ffff_ffff) as u64,
            count_high: (hasher.core.total >> 64) as u64,
        }
    }

    /// Returns a hasher with these contents.
    pub fn restore(&self) -> Sha512
        // The hasher was fed the same data.
        ensures { (m : List ℕ) → WasFed512 self.now m → IsFed512 result m }
    {
        Sha512 {
            core: Core512 {
                h: self.h,
                buffer: self.buffer,
                total: ((self.count_high as u128) << 64) | (self.count_low as u128),
            },
        }
    }
}
