//! The hash of the file that is being read. Nothing here allocates.

ghost use Rattle.std.specs.Prelude.{◌≡◌, ◌++◌, List, ℕ, [], None, Some, replicate, take};
ghost use Rattle.minisign_hash.specs.Blake2b.{blake2b_digest};
ghost use Rattle.minisign_hash.specs.Stored.{WasFed};
ghost use Rattle.minisign_install.specs.Installations.{WasRead, stored_256, stored_512};
ghost use Rattle.minisign_lists.specs.Digests.{has_digest};
ghost use Rattle.minisign_lists.specs.Values.{algorithm_of};
ghost use Rattle.minisign_sha2.specs.Hashers.{WasFed256, WasFed512};

use minisign_hash::blake2b::Blake2b;
use minisign_hash::blake2b::stored::StoredBlake2b;
use minisign_lists::{Algorithm, ListedDigest};
use minisign_sha2::stored::{StoredSha256, StoredSha512};
use minisign_sha2::{Sha256, Sha512};

/// The state of BLAKE2b, SHA-512 or SHA-256: 376 bytes with the layout of C. The state of SHA-512 and,
/// except for its hash value, that of SHA-256 are in the fields of `blake2b`, because an installation has no
/// memory for three states.
#[repr(C)]
#[derive(Clone, Copy)]
pub struct Reading {
    pub(crate) blake2b: StoredBlake2b,
    // The hash value of SHA-256.
    pub(crate) sha256: [u32; 8],
}

impl Reading {
    // Returns the state before the first byte. `None` stands for BLAKE2b.
    pub(crate) fn begin(algorithm: Option<Algorithm>) -> Reading
        ensures { WasRead algorithm result [] }
    {
        match algorithm {
            Some(Algorithm::Sha256) => Reading::of_sha256(&StoredSha256::store(&Sha256::new())),
            Some(Algorithm::Sha512) => Reading::of_sha512(&StoredSha512::store(&Sha512::new())),
            Some(Algorithm::Blake2b) => Reading::begin_blake2b(),
            None => Reading::begin_blake2b(),
        }
    }

    // Returns the state of BLAKE2b before the first byte.
    fn begin_blake2b() -> Reading
        ensures { WasFed result.blake2b [] }
    {
        Reading::of_blake2b(StoredBlake2b::store(&Blake2b::new(64)))
    }

    // Returns the state after these bytes.
    pub(crate) fn updated(&self, algorithm: Option<Algorithm>, bytes: &[u8]) -> Reading
        ensures { (m : List ℕ) → WasRead algorithm self.now m → WasRead algorithm result (m ++ bytes.now) }
    {
        match algorithm {
            Some(Algorithm::Sha256) => self.updated_sha256(bytes),
            Some(Algorithm::Sha512) => self.updated_sha512(bytes),
            Some(Algorithm::Blake2b) => self.updated_blake2b(bytes),
            None => self.updated_blake2b(bytes),
        }
    }

    // Feeds these bytes to SHA-256.
    fn updated_sha256(&self, bytes: &[u8]) -> Reading
        ensures { (m : List ℕ) → WasFed256 (stored_256 self.now) m
            → WasFed256 (stored_256 result) (m ++ bytes.now) }
    {
        let mut hasher = self.sha256().restore();
        hasher.update(bytes);
        Reading::of_sha256(&StoredSha256::store(&hasher))
    }

    // Feeds these bytes to SHA-512.
    fn updated_sha512(&self, bytes: &[u8]) -> Reading
        ensures { (m : List ℕ) → WasFed512 (stored_512 self.now) m
            → WasFed512 (stored_512 result) (m ++ bytes.now) }
    {
        let mut hasher = self.sha512().restore();
        hasher.update(bytes);
        Reading::of_sha512(&StoredSha512::store(&hasher))
    }

    // Feeds these bytes to BLAKE2b.
    fn updated_blake2b(&self, bytes: &[u8]) -> Reading
        ensures { (m : List ℕ) → WasFed self.now.blake2b m → WasFed result.blake2b (m ++ bytes.now) }
    {
        match self.blake2b.restore() {
            Some(mut hasher) => {
                hasher.update(bytes);
                Reading::of_blake2b(StoredBlake2b::store(&hasher))
            }
            None => *self,
        }
    }

    // Returns true if the bytes that were read have the digest.
    pub(crate) fn has_digest(&self, digest: ListedDigest) -> bool
        ensures { (m : List ℕ) → WasRead (Some (algorithm_of digest)) self.now m
            → result ≡ has_digest digest m }
    {
        match digest {
            ListedDigest::Sha256(bytes) => self.sha256().restore().finalize() == bytes,
            ListedDigest::Sha512(bytes) => self.sha512().restore().finalize() == bytes,
            ListedDigest::Blake2b(bytes) => self.blake2b_digest() == bytes,
        }
    }

    // Returns the BLAKE2b digest of the bytes that were read.
    pub(crate) fn blake2b_digest(&self) -> [u8; 64]
        ensures { (m : List ℕ) → WasFed self.now.blake2b m → result ≡ blake2b_digest 64 m }
    {
        let mut digest = [0u8; 64];
        if let Some(mut hasher) = self.blake2b.restore() {
            hasher.finalize(&mut digest);
        }
        digest
    }

    // Returns the state with these contents.
    fn of_blake2b(blake2b: StoredBlake2b) -> Reading
        ensures { result.blake2b ≡ blake2b }
    {
        Reading {
            blake2b,
            sha256: [0; 8],
        }
    }

    fn of_sha256(stored: &StoredSha256) -> Reading
        ensures { stored_256 result ≡ stored.now }
    {
        Reading {
            blake2b: StoredBlake2b {
                h: [0; 8],
                count_low: stored.count,
                count_high: 0,
                used: 0,
                buffer: widened_64(&stored.buffer),
            },
            sha256: stored.h,
        }
    }

    fn of_sha512(stored: &StoredSha512) -> Reading
        ensures { stored_512 result ≡ stored.now }
    {
        Reading {
            blake2b: StoredBlake2b {
                h: stored.h,
                count_low: stored.count_low,
                count_high: stored.count_high,
                used: 0,
                buffer: widened_128(&stored.buffer),
            },
            sha256: [0; 8],
        }
    }

    // Returns the contents of the state of SHA-256.
    fn sha256(&self) -> StoredSha256
        ensures { result ≡ stored_256 self.now }
    {
        StoredSha256 {
            h: self.sha256,
            buffer: first_64(&self.blake2b.buffer),
            count: self.blake2b.count_low,
        }
    }

    // Returns the contents of the state of SHA-512.
    fn sha512(&self) -> StoredSha512
        ensures { result ≡ stored_512 self.now }
    {
        StoredSha512 {
            h: self.blake2b.h,
            buffer: first_128(&self.blake2b.buffer),
            count_low: self.blake2b.count_low,
            count_high: self.blake2b.count_high,
        }
    }
}

// Returns 64 bytes, followed by zeros.
fn widened_64(bytes: &[u8; 64]) -> [u8; 256]
    ensures { result ≡ bytes.now ++ replicate 192 0 }
{
    let mut buffer = [0u8; 256];
    let (front, _) = buffer.split_at_mut(64);
    front.copy_from_slice(bytes);
    buffer
}

// Returns 128 bytes, followed by zeros.
fn widened_128(bytes: &[u8; 128]) -> [u8; 256]
    ensures { result ≡ bytes.now ++ replicate 128 0 }
{
    let mut buffer = [0u8; 256];
    let (front, _) = buffer.split_at_mut(128);
    front.copy_from_slice(bytes);
    buffer
}

// Returns the first 64 bytes.
fn first_64(bytes: &[u8; 256]) -> [u8; 64]
    ensures { result ≡ take 64 bytes.now }
{
    let mut first = [0u8; 64];
    let (front, _) = bytes.split_at(64);
    first.copy_from_slice(front);
    first
}

// Returns the first 128 bytes.
fn first_128(bytes: &[u8; 256]) -> [u8; 128]
    ensures { result ≡ take 128 bytes.now }
{
    let mut first = [0u8; 128];
    let (front, _) = bytes.split_at(128);
    first.copy_from_slice(front);
    first
}
