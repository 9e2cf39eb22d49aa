//! `PublicKeyBox`, the text of a public key.

ghost use Rattle.std.specs.Prelude.{◌≡◌, Some, IfOk, IfErr, string_bytes};
ghost use Rattle.minisign_base.specs.Fault.{Named};
ghost use Rattle.minisign_base.specs.declared.faults.NamedFault.TheVariants.{OutOfMemory};
ghost use Rattle.minisign.specs.KeyTexts.{read_public_key};

use crate::public_key::PublicKey;
use minisign_base::Result;
use std::alloc::Global;
use std::fmt;
use std::marker::Model;

/// A text that may hold a public key. Nothing is checked until a key is parsed from it. `Display` writes
/// the text.
#[derive(Debug, Drop)]
pub struct PublicKeyBox(String);

// In contracts, the value of a box is the bytes of its text.
impl Model for PublicKeyBox {
    ghost use Rattle.std.specs.Prelude.{List, ℕ, string_bytes};

    ghost Value = { List ℕ };

    ghost view = { λ b. string_bytes b.0 };
}

impl PublicKeyBox {
    /// Returns a box that holds a copy of the text. The only error is `OutOfMemory`.
    pub fn from_string(alloc: Global, text: &str) -> Result<PublicKeyBox>
        ensures text { IfOk result (λ b. b ≡ text.now) }
        ensures only_out_of_memory { IfErr result (λ e. e ≡ Named OutOfMemory) }
    {
        Ok(PublicKeyBox::from(String::from_str(alloc, text)?))
    }

    /// Returns the text. Does not allocate.
    pub fn into_string(self) -> String
        ensures { string_bytes result ≡ self }
    {
        let PublicKeyBox(text) = self;
        text
    }

    /// Returns the bytes of the text. The only error is `OutOfMemory`.
    pub fn to_bytes(&self, alloc: Global) -> Result<Vec<u8>>
        ensures bytes { IfOk result (λ v. v.items ≡ self.now) }
        ensures only_out_of_memory { IfErr result (λ e. e ≡ Named OutOfMemory) }
    {
        Ok(Vec::from_slice(alloc, self.as_str().as_bytes())?)
    }

    /// Returns a box with the same text. The only error is `OutOfMemory`.
    pub fn try_clone(&self, alloc: Global) -> Result<PublicKeyBox>
        ensures text { IfOk result (λ b. b ≡ self.now) }
        ensures only_out_of_memory { IfErr result (λ e. e ≡ Named OutOfMemory) }
    {
        PublicKeyBox::from_string(alloc, self.as_str())
    }

    /// Parses the public key in the text, as `PublicKey::from_box` does.
    pub fn into_public_key(self, alloc: Global) -> Result<PublicKey>
        // The result is the public key in the text, or the error of the first check that fails.
        ensures { result ≡ read_public_key self }
    {
        PublicKey::from_box(alloc, self)
    }

    pub(crate) fn as_str(&self) -> &str
        ensures { result.now ≡ self.now }
    {
        self.0.as_str()
    }
}

/// Returns a box that holds this text. Does not allocate.
impl From<String> for PublicKeyBox {
    ghost from_gives = { λ text b. b ≡ string_bytes text };

    fn from(text: String) -> PublicKeyBox {
        PublicKeyBox(text)
    }
}

/// Returns the text of the box. Does not allocate.
impl From<PublicKeyBox> for String {
    ghost from_gives = { λ b text. string_bytes text ≡ b };

    fn from(public_key_box: PublicKeyBox) -> String {
        public_key_box.into_string()
    }
}

/// Writes the text.
impl fmt::Display for PublicKeyBox {
    ghost output = { λ b. Some b };

    fn fmt<W: fmt::Write>(&self, f: &mut fmt::Formatter<W>) -> fmt::Result {
        f.write_str(self.as_str())
    }
}
