//! Signatures as they are stored: algorithm, key ID and signature.

ghost use Rattle.std.specs.Prelude.{◌≡◌, Some, ◌<◌, ◌++◌, length, vec_len, replicate, MatchResult, IfOk};
ghost use Rattle.std.specs.Prelude.{IfErr};
ghost use Rattle.minisign_base.specs.Scheme.{IsBytes};
ghost use Rattle.minisign_base.specs.Fault.{Named};
ghost use Rattle.minisign_base.specs.declared.faults.NamedFault.TheVariants.{OutOfMemory, RecordTooShort};
ghost use Rattle.minisign.specs.Records.{signature_bytes};

use crate::fields::{push_three, split_three};
use base64::display::Base64Display;
use base64::engine::general_purpose::STANDARD;
use minisign_base::Result;
use std::alloc::Global;
use std::fmt;
use std::marker::Model;

/// A signature: an algorithm of 2 bytes, the key ID of the signing key of 8 bytes, and the signature of 64
/// bytes.
#[derive(Clone, Drop)]
pub struct Signature {
    /// The algorithm, kept as it was read.
    pub sig_alg: [u8; 2],
    /// The key ID of the key that signed.
    pub keynum: [u8; 8],
    /// The signature of the data, or of its digest.
    pub sig: [u8; 64],
}

impl Model for Signature {
    ghost use Rattle.minisign.specs.Records.{SignatureRecord};

    ghost Value = { SignatureRecord };

    ghost view = { λ s. record { algorithm = s.sig_alg; keynum = s.keynum; signature = s.sig } };
}

impl Signature {
    ghost use Rattle.minisign.specs.Records.{SignatureRecord, ReadsSignature, signature_bytes};

    /// The length of a stored signature in bytes.
    pub const BYTES: usize = 74;

    /// Returns the 74 bytes that `from_bytes` parses to this signature. The only error is `OutOfMemory`.
    pub fn to_bytes(&self, alloc: Global) -> Result<Vec<u8>>
        // On success, the bytes are those of the record, and they parse to this record. By the law
        // `texts_are_decided` in `src/texts.rt`, bytes parse to one record at most. The only error is out of
        // memory.
        ensures bytes { IfOk result (λ v. v.items ≡ signature_bytes self.now) }
        ensures reads_back { IfOk result (λ v. ReadsSignature v.items self.now) }
        ensures len { IfOk result (λ v. vec_len v ≡ Self.BYTES) }
        ensures only_out_of_memory { IfErr result (λ e. e ≡ Named OutOfMemory) }
    {
        let mut bytes = Vec::with_capacity(alloc, Self::BYTES)?;
        push_three(&mut bytes, &self.sig_alg, &self.keynum, &self.sig)?;
        Ok(bytes)
    }

    /// Parses the first 74 bytes: algorithm, key ID, signature. Fewer bytes are rejected, and later bytes
    /// are ignored. Does not allocate.
    pub fn from_bytes(bytes: &[u8]) -> Result<Signature>
        // If there are at least as many bytes as the record needs, the result is the record at their front.
        // If there are fewer, they are rejected.
        ensures { MatchResult result (ReadsSignature bytes.now)
            (λ e. (e ≡ Named RecordTooShort) × (length bytes.now < 74)) }
    {
        let (sig_alg, keynum, sig, _) = split_three(bytes)?;
        Ok(Signature {
            sig_alg,
            keynum,
            sig,
        })
    }
}

impl Signature {
    // Returns the 74 bytes of the record.
    fn stored(&self) -> [u8; 74]
        ensures { result ≡ signature_bytes self.now }
    {
        let mut bytes = [0u8; 74];
        let (sig_alg, rest) = bytes.split_at_mut(2);
        let (keynum, sig) = rest.split_at_mut(8);
        sig_alg.copy_from_slice(&self.sig_alg);
        keynum.copy_from_slice(&self.keynum);
        sig.copy_from_slice(&self.sig);
        bytes
    }

    // Returns the comment message, which the comment signature signs: the signature followed by the
    // trusted comment.
    pub(crate) fn with_comment(&self, alloc: Global, trusted_comment: &str) -> Result<Vec<u8>>
        ensures bytes { IfOk result (λ v. v.items ≡ self.now.signature ++ trusted_comment.now) }
        ensures are_bytes { IfOk result (λ v. IsBytes v.items) }
        ensures only_out_of_memory { IfErr result (λ e. e ≡ Named OutOfMemory) }
    {
        joined(alloc, &self.sig, trusted_comment.as_bytes())
    }
}

fn joined(alloc: Global, front: &[u8], back: &[u8]) -> Result<Vec<u8>>
    ensures bytes { IfOk result (λ v. v.items ≡ front.now ++ back.now) }
    ensures are_bytes { IfOk result (λ v. IsBytes v.items) }
    ensures only_out_of_memory { IfErr result (λ e. e ≡ Named OutOfMemory) }
{
    let mut bytes = Vec::new(alloc);
    bytes.extend_from_slice(front)?;
    bytes.extend_from_slice(back)?;
    Ok(bytes)
}

/// Writes the base64 of the 74 bytes, 100 characters.
impl fmt::Display for Signature {
    ghost use Rattle.minisign.specs.Records.{signature_bytes};
    ghost use Rattle.minisign.specs.Texts.{base64_of};

    ghost output = { λ s. Some (base64_of (signature_bytes s)) };

    #[tactic(auto, unfolding(crate::specs::Texts::base64_of))]
    fn fmt<W: fmt::Write>(&self, f: &mut fmt::Formatter<W>) -> fmt::Result {
        Base64Display::new(&self.stored(), &STANDARD).fmt(f)
    }
}

/// The default signature is 74 zero bytes.
impl Default for Signature {
    ghost is_default = { λ s. s
        ≡ record { algorithm = replicate 2 0; keynum = replicate 8 0; signature = replicate 64 0 } };

    fn default() -> Signature {
        Signature {
            sig_alg: [0; 2],
            keynum: [0; 8],
            sig: [0; 64],
        }
    }
}
