//! A public key that was read from its file or from base64. Nothing here allocates.

ghost use Rattle.std.specs.Prelude.{◌≡◌};
ghost use Rattle.minisign.specs.KeyTexts.{read_bare_public_key, read_public_key};
ghost use Rattle.minisign_external.specs.PublicKeys.{is_public_key, read_utf8, key_outcome};

use minisign::{PublicKey, Result, read_bare_public_key, read_public_key};
use minisign_base::NamedFault;

// The mark of a public key that was read, or obtained from a secret key: the letters `minispub`.
pub(crate) const PUBLIC: u64 = 7094700428984478061;

/// A public key, 48 bytes with the layout of C.
#[repr(C)]
#[derive(Clone, Copy)]
pub struct PublicKeyValue {
    /// The mark of a public key that was read, or obtained from a secret key.
    pub mark: u64,
    /// The 32 bytes of the key.
    pub key: [u8; 32],
    /// The key ID.
    pub key_id: [u8; 8],
}

impl PublicKeyValue {
    /// Returns true exactly if the mark says that the key was read from a file or text, or obtained from a
    /// secret key.
    pub fn is_public_key(&self) -> bool
        ensures { result ≡ is_public_key self.now }
    {
        self.mark == PUBLIC
    }
}

/// Reads a public key file, two lines, into a value.
///
/// The errors are, in this order: the text is not UTF-8; those of `minisign::read_public_key`. After an error
/// the value is unchanged.
pub fn store_public_key(text: &[u8], value: &mut PublicKeyValue) -> Result<()>
    // On success, `value` holds the key and the key ID of the public key file, and is marked as read. The
    // file must be UTF-8. Otherwise, or if it does not parse, the error is that of the first check that
    // fails, and `value` is unchanged.
    ensures { (result, value.new) ≡ key_outcome (read_utf8 read_public_key text.now) value.old }
{
    store_key(read(text), value)
}

/// Reads the base64 of a public key, 56 bytes, into a value.
///
/// The errors are, in this order: the text is not UTF-8; those of `minisign::read_bare_public_key`. After an
/// error the value is unchanged.
pub fn store_bare_public_key(text: &[u8], value: &mut PublicKeyValue) -> Result<()>
    // On success, `value` holds the key and the key ID of the base64 text, and is marked as read. The text
    // must be UTF-8. Otherwise, or if it does not parse, the error is that of the first check that fails,
    // and `value` is unchanged.
    ensures { (result, value.new) ≡ key_outcome (read_utf8 read_bare_public_key text.now) value.old }
{
    store_key(read_bare(text), value)
}

// Parses a public key file of two lines.
fn read(text: &[u8]) -> Result<PublicKey>
    ensures { result ≡ read_utf8 read_public_key text.now }
{
    match str::from_utf8(text) {
        Ok(text) => read_public_key(text),
        Err(_) => Err(NamedFault::NotUtf8.into()),
    }
}

// Parses the base64 of a public key.
fn read_bare(text: &[u8]) -> Result<PublicKey>
    ensures { result ≡ read_utf8 read_bare_public_key text.now }
{
    match str::from_utf8(text) {
        Ok(text) => read_bare_public_key(text),
        Err(_) => Err(NamedFault::NotUtf8.into()),
    }
}

// Stores a key that was read.
fn store_key(read: Result<PublicKey>, value: &mut PublicKeyValue) -> Result<()>
    ensures { (result, value.new) ≡ key_outcome read value.old }
{
    match read {
        Ok(pk) => {
            *value = PublicKeyValue {
                mark: PUBLIC,
                key: *pk.key(),
                key_id: *pk.key_id(),
            };
            Ok(())
        }
        Err(fault) => Err(fault),
    }
}
