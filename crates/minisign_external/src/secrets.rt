//! An open (decrypted) secret key, which the caller holds and signs with. Nothing here allocates.

ghost use Rattle.std.specs.Prelude.{◌≡◌};
ghost use Rattle.minisign_external.specs.SecretKeys.{is_opened, public_value_of, opened_key_value};

use crate::public_keys::{PUBLIC, PublicKeyValue};
use crate::state::Misuse;

// The mark of an open key: the letters `minissec`.
const OPENED: u64 = 7162257721929918829;

/// A secret key, 80 bytes with the layout of C.
#[repr(C)]
#[derive(Clone, Copy)]
pub struct SecretKeyValue {
    /// The mark of an open key.
    pub mark: u64,
    /// The key ID.
    pub key_id: [u8; 8],
    /// The seed (32 bytes), followed by its public key (32 bytes).
    pub secret: [u8; 64],
}

impl SecretKeyValue {
    /// Makes an open secret key from its key ID and its 64 secret bytes, which are a seed and the seed's
    /// public key.
    pub fn take(key_id: &[u8; 8], secret: &[u8; 64]) -> SecretKeyValue
        // The result has this key ID and these secret bytes, and is marked as open. Nothing checks that the
        // second half of the secret bytes is the public key of the first.
        ensures { result ≡ opened_key_value key_id.now secret.now }
    {
        SecretKeyValue {
            mark: OPENED,
            key_id: *key_id,
            secret: *secret,
        }
    }

    /// Returns true exactly if the mark says that the key was opened, or made by `take`.
    pub fn is_opened(&self) -> bool
        ensures { result ≡ is_opened self.now }
    {
        self.mark == OPENED
    }

    /// Returns the public key: the last 32 secret bytes, with the same key ID. A key that is not open is the
    /// error `KeyNotOpened`.
    pub fn public_key(&self) -> Result<PublicKeyValue, Misuse>
        // If the secret key is open, the result is the last 32 of its secret bytes, with its key ID.
        // Otherwise it is the error `KeyNotOpened`.
        ensures { result ≡ public_value_of self.now }
    {
        if !self.is_opened() {
            return Err(Misuse::KeyNotOpened);
        }
        let (_, public_half) = self.secret.split_at(32);
        let mut key = [0u8; 32];
        key.copy_from_slice(public_half);
        Ok(PublicKeyValue {
            mark: PUBLIC,
            key,
            key_id: self.key_id,
        })
    }
}
