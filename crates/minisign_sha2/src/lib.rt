//! SHA-256 and SHA-512 (FIPS 180-4), with states that a program in another language can hold between
//! two calls. Nothing here allocates.
//!
//! The code of the hash functions and its proofs are copied from the kit's crate `sha2`, whose
//! states cannot be stored. Contracts use the definitions of SHA-256 and SHA-512 in the crate
//! `sha2`.

#![tactic(auto)]

ghost use Rattle.std.specs.Prelude.{◌≡◌, ℕ, List, [], ◌++◌};
ghost use Rattle.sha2.specs.Sha256.{sha256};
ghost use Rattle.sha2.specs.Sha512.{sha512};
ghost use Rattle.minisign_sha2.specs.Hashers.{IsFed256, IsFed512};

use block256::Core256;
use block512::Core512;
use consts::{H256_256, H512_512};

mod block256;
mod block512;
mod consts;
pub mod stored;

/// A hasher of SHA-256.
#[derive(Drop)]
pub struct Sha256 {
    core: Core256,
}

/// A hasher of SHA-512.
#[derive(Drop)]
pub struct Sha512 {
    core: Core512,
}

#[tactic(auto, unfolding(crate::specs::Hashers::IsFed256))]
impl Sha256 {
    /// Returns a hasher that has been fed no data.
    pub fn new() -> Sha256
        // The hasher has been fed no data.
        ensures { IsFed256 result [] }
    {
        Sha256 {
            core: Core256::new(H256_256),
        }
    }

    /// Feeds the next bytes of the data.
    pub fn update(&mut self, piece: &[u8])
        // The piece is appended to the data that the hasher was fed.
        ensures { (m : List ℕ) → IsFed256 self.old m → IsFed256 self.new (m ++ piece.now) }
    {
        self.core.update(piece);
    }

    /// Returns the digest of the data.
    pub fn finalize(self) -> [u8; 32]
        // The result is the SHA-256 digest of all data that the hasher was fed.
        ensures { (m : List ℕ) → IsFed256 self m → result ≡ sha256 m }
    {
        self.core.finalize()
    }
}

#[tactic(auto, unfolding(crate::specs::Hashers::IsFed512))]
impl Sha512 {
    /// Returns a hasher that has been fed no data.
    pub fn new() -> Sha512
        // The hasher has been fed no data.
        ensures { IsFed512 result [] }
    {
        Sha512 {
            core: Core512::new(H512_512),
        }
    }

    /// Feeds the next bytes of the data.
    pub fn update(&mut self, piece: &[u8])
        // The piece is appended to the data that the hasher was fed.
        ensures { (m : List ℕ) → IsFed512 self.old m → IsFed512 self.new (m ++ piece.now) }
    {
        self.core.update(piece);
    }

    /// Returns the digest of the data.
    pub fn finalize(self) -> [u8; 64]
        // The result is the SHA-512 digest of all data that the hasher was fed.
        ensures { (m : List ℕ) → IsFed512 self m → result ≡ sha512 m }
    {
        self.core.finalize()
    }
}
