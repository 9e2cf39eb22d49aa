//! `SecretKeyBox`, the text of a secret key.

ghost use Rattle.std.specs.Prelude.{◌≡◌, Some, string_bytes, IfOk, IfErr};
ghost use Rattle.minisign_base.specs.Fault.{Named};
ghost use Rattle.minisign_base.specs.declared.faults.NamedFault.TheVariants.{OutOfMemory};

use minisign_base::Result;
use std::alloc::Global;
use std::fmt;
use std::marker::Model;

/// A text that may hold a secret key. Nothing is checked until the key is parsed.
#[derive(Debug, Drop)]
pub struct SecretKeyBox {
    text: String,
}

// In contracts, the value of a box is the bytes of its text.
impl Model for SecretKeyBox {
    ghost use Rattle.std.specs.Prelude.{ℕ, List, string_bytes};

    ghost Value = { List ℕ };

    ghost view = { λ b. string_bytes b.text };
}

impl SecretKeyBox {
    /// Returns a box that holds a copy of the text. The only error is `OutOfMemory`.
    pub fn from_string(alloc: Global, s: &str) -> Result<SecretKeyBox>
        ensures text { IfOk result (λ b. b ≡ s.now) }
        ensures only_out_of_memory { IfErr result (λ e. e ≡ Named OutOfMemory) }
    {
        Ok(SecretKeyBox::from(String::from_str(alloc, s)?))
    }

    /// Returns the text. Does not allocate.
    pub fn into_string(self) -> String
        ensures { string_bytes result ≡ self }
    {
        let SecretKeyBox { text } = self;
        text
    }

    /// Returns the bytes of the text. The only error is `OutOfMemory`.
    pub fn to_bytes(&self, alloc: Global) -> Result<Vec<u8>>
        ensures bytes { IfOk result (λ v. v.items ≡ self.now) }
        ensures only_out_of_memory { IfErr result (λ e. e ≡ Named OutOfMemory) }
    {
        Ok(Vec::from_slice(alloc, self.as_str().as_bytes())?)
    }

    /// Returns a box with the same text. The only error is `OutOfMemory`.
    pub fn try_clone(&self, alloc: Global) -> Result<SecretKeyBox>
        ensures copy_is_equal { IfOk result (λ b. b ≡ self.now) }
        ensures only_out_of_memory { IfErr result (λ e. e ≡ Named OutOfMemory) }
    {
        SecretKeyBox::from_string(alloc, self.as_str())
    }

    pub(crate) fn as_str(&self) -> &str
        ensures { result.now ≡ self.now }
    {
        self.text.as_str()
    }
}

/// Returns a box that holds this text. Does not allocate.
impl From<String> for SecretKeyBox {
    ghost from_gives = { λ s b. b ≡ string_bytes s };

    fn from(s: String) -> SecretKeyBox {
        SecretKeyBox { text: s }
    }
}

/// Returns the text of the box. Does not allocate.
impl From<SecretKeyBox> for String {
    ghost from_gives = { λ b s. string_bytes s ≡ b };

    fn from(sk_box: SecretKeyBox) -> String {
        sk_box.into_string()
    }
}

/// Writes the text.
impl fmt::Display for SecretKeyBox {
    ghost output = { λ b. Some b };

    fn fmt<W: fmt::Write>(&self, f: &mut fmt::Formatter<W>) -> fmt::Result {
        f.write_str(self.as_str())
    }
}
