//! The interface of a signature scheme. A crate with a proved Ed25519 can implement it.

ghost use Rattle.std.specs.Prelude.{◌≡◌, ℕ, List, ◌++◌, Option, Bool, true, length};
ghost use Rattle.std.specs.Option.{option_map};
ghost use Rattle.minisign_base.specs.Scheme.{IsBytes, AreRandomBytes};

/// A signature scheme that accepts the signatures it makes. A secret key has 64 bytes, the 32 of
/// its seed followed by the 32 of its public key. A signature has 64 bytes. No call fails or
/// allocates.
pub trait Scheme {
    // The public key of a seed.
    ghost public_of: { Self → List ℕ → List ℕ };

    // The signature of a message under a secret key, with 64 random bytes or none.
    ghost signature_of: { Self → List ℕ → List ℕ → Option (List ℕ) → List ℕ };

    // True if the signature of the message is accepted under the public key.
    ghost accepts: { Self → List ℕ → List ℕ → List ℕ → Bool };

    /// Returns the secret key and the public key of a seed.
    fn keypair(&self, seed: &[u8; 32]) -> ([u8; 64], [u8; 32])
        ensures { result ≡ (seed.now ++ public_of self.now seed.now, public_of self.now seed.now) };

    /// Returns the signature of a message, made with 64 random bytes or none.
    fn signature(&self, message: &[u8], secret_key: &[u8; 64], z: Option<&[u8; 64]>) -> [u8; 64]
        ensures { result ≡ signature_of self.now message.now secret_key.now
            (option_map (λ r. r.now) z.entry) };

    /// Returns true if the signature of the message is accepted under the public key.
    fn verify(&self, message: &[u8], public_key: &[u8; 32], signature: &[u8; 64]) -> bool
        ensures { result ≡ accepts self.now message.now public_key.now signature.now };

    // The law: a signature made with a seed's secret key is accepted under the seed's public key.
    ghost accepts_own: { (s : Self) (seed m : List ℕ) (z : Option (List ℕ)) → IsBytes seed → length seed ≡ 32
        → IsBytes m → AreRandomBytes z
        → accepts s m (public_of s seed) (signature_of s m (seed ++ public_of s seed) z) ≡ true };
}
