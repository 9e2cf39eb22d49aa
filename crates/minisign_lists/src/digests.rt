//! The digests in a list, and checks of data against them. Nothing here allocates.

ghost use Rattle.std.specs.Prelude.{◌≡◌, ◌++◌, ℕ, List, [], Option, option_map};
ghost use Rattle.minisign_lists.specs.Digests.{digest_of_digits, has_digest, hex_bytes};
ghost use Rattle.minisign_lists.specs.Pieces.{IsFedCheck, IsUsable};

use hex::decode_to_slice;
use minisign_hash::blake2b::Blake2b;
use minisign_sha2::{Sha256, Sha512};

/// The hash function of a digest.
#[derive(Clone, Copy, Debug, PartialEq, Eq)]
pub enum Algorithm {
    /// SHA-256, with 32 bytes.
    Sha256,
    /// SHA-512, with 64 bytes.
    Sha512,
    /// BLAKE2b, with 64 bytes.
    Blake2b,
}

/// A digest in a list.
#[derive(Clone, Copy, Debug, PartialEq, Eq)]
pub enum ListedDigest {
    /// A digest of SHA-256.
    Sha256([u8; 32]),
    /// A digest of SHA-512.
    Sha512([u8; 64]),
    /// A digest of BLAKE2b.
    Blake2b([u8; 64]),
}

/// A check of data that comes in pieces against a digest.
#[derive(Drop)]
pub enum FileCheck {
    /// A hasher and a digest of SHA-256.
    Sha256(Sha256, [u8; 32]),
    /// A hasher and a digest of SHA-512.
    Sha512(Sha512, [u8; 64]),
    /// A hasher and a digest of BLAKE2b.
    Blake2b(Blake2b, [u8; 64]),
}

// Decodes 32 bytes from hexadecimal digits of either case.
fn hex_32(digits: &[u8]) -> Option<[u8; 32]>
    ensures { result ≡ hex_bytes 32 digits.now }
{
    let mut bytes = [0u8; 32];
    match decode_to_slice(digits, &mut bytes) {
        Ok(()) => Some(bytes),
        Err(_) => None,
    }
}

// Decodes 64 bytes from hexadecimal digits of either case.
fn hex_64(digits: &[u8]) -> Option<[u8; 64]>
    ensures { result ≡ hex_bytes 64 digits.now }
{
    let mut bytes = [0u8; 64];
    match decode_to_slice(digits, &mut bytes) {
        Ok(()) => Some(bytes),
        Err(_) => None,
    }
}

// Decodes a digest from hexadecimal digits of either case.
pub(crate) fn digest_of_digits(algorithm: Algorithm, digits: &[u8]) -> Option<ListedDigest>
    ensures { result ≡ digest_of_digits algorithm digits.now }
{
    match algorithm {
        Algorithm::Sha256 => match hex_32(digits) {
            Some(bytes) => Some(ListedDigest::Sha256(bytes)),
            None => None,
        },
        Algorithm::Sha512 => match hex_64(digits) {
            Some(bytes) => Some(ListedDigest::Sha512(bytes)),
            None => None,
        },
        Algorithm::Blake2b => match hex_64(digits) {
            Some(bytes) => Some(ListedDigest::Blake2b(bytes)),
            None => None,
        },
    }
}

#[tactic(auto, unfolding(crate::specs::Pieces::IsFedCheck, crate::specs::Pieces::IsUsable))]
impl FileCheck {
    /// Begins a check against a digest.
    pub fn new(digest: ListedDigest) -> FileCheck
        // The new check compares with this digest, has been fed no data, and accepts data.
        ensures fed { IsFedCheck result digest [] }
        ensures usable { IsUsable result }
    {
        match digest {
            ListedDigest::Sha256(bytes) => FileCheck::Sha256(Sha256::new(), bytes),
            ListedDigest::Sha512(bytes) => FileCheck::Sha512(Sha512::new(), bytes),
            ListedDigest::Blake2b(bytes) => FileCheck::Blake2b(Blake2b::new(64), bytes),
        }
    }

    /// Feeds the next piece of the data.
    pub fn update(&mut self, piece: &[u8])
        requires { IsUsable self.old }
        // The piece is appended to the data that the check was fed.
        ensures fed { (d : ListedDigest) (m : List ℕ) → IsFedCheck self.old d m
            → IsFedCheck self.new d (m ++ piece.now) }
        ensures usable { IsUsable self.new }
    {
        match self {
            FileCheck::Sha256(hasher, _) => hasher.update(piece),
            FileCheck::Sha512(hasher, _) => hasher.update(piece),
            FileCheck::Blake2b(hasher, _) => hasher.update(piece),
        }
    }

    /// Returns true if the data that was fed has the digest.
    pub fn finish(self) -> bool
        requires { IsUsable self }
        // The result is true exactly if the data that the check was fed has the digest.
        ensures { (d : ListedDigest) (m : List ℕ) → IsFedCheck self d m → result ≡ has_digest d m }
    {
        match self {
            FileCheck::Sha256(hasher, bytes) => hasher.finalize() == bytes,
            FileCheck::Sha512(hasher, bytes) => hasher.finalize() == bytes,
            FileCheck::Blake2b(mut hasher, bytes) => {
                let mut digest = [0u8; 64];
                hasher.finalize(&mut digest);
                digest == bytes
            }
        }
    }
}

impl ListedDigest {
    /// Returns true if data in memory has the digest.
    pub fn matches(self, message: &[u8]) -> bool
        // The result is true exactly if the data has the digest.
        ensures { result ≡ has_digest self message.now }
    {
        let mut check = FileCheck::new(self);
        check.update(message);
        check.finish()
    }
}
