//! `SignatureBones`, a signature without comments.

ghost use Rattle.std.specs.Prelude.{◌≡◌, ◌<◌, ◌≤◌, ◌⊎◌, length, take, vec_len, IfOk, IfErr};
ghost use Rattle.minisign_base.specs.Fault.{Named};
ghost use Rattle.minisign_base.specs.declared.faults.NamedFault.TheVariants.{OutOfMemory, RecordTooShort};
ghost use Rattle.minisign_base.specs.declared.faults.NamedFault.TheVariants.{UnsupportedSignatureAlgorithm};

use crate::constants::{SIGALG, SIGALG_PREHASHED};
use crate::signature::Signature;
use crate::signature_box::SignatureBox;
use minisign_base::{NamedFault, Result};
use std::alloc::Global;
use std::marker::Model;

/// A bare signature, without comments, with a known algorithm.
#[derive(Clone, Drop)]
pub struct SignatureBones {
    pub(crate) signature: Signature,
}

impl Model for SignatureBones {
    ghost use Rattle.minisign.specs.Records.{SignatureRecord, IsKnownAlgorithm};

    ghost Value = { SignatureRecord };

    ghost view = { λ b. b.signature };

    ghost invariant = { λ b. IsKnownAlgorithm b.signature.algorithm };
}

impl SignatureBones {
    ghost use Rattle.minisign.specs.Records.{SignatureRecord, ReadsSignature, signature_bytes, is_prehashed};
    ghost use Rattle.minisign.specs.Records.{IsKnownAlgorithm};

    /// The length of a stored signature in bytes.
    pub const BYTES: usize = Signature::BYTES;

    /// Returns true if the signature is prehashed: it signs the digest of the data, not the data itself.
    pub fn is_prehashed(&self) -> bool
        ensures { result ≡ is_prehashed self.now }
    {
        self.signature.sig_alg == SIGALG_PREHASHED
    }

    /// Parses the first 74 bytes. Fewer bytes are rejected, then an algorithm other than `Ed` and `ED`.
    /// Later bytes are ignored. Does not allocate.
    pub fn from_bytes(bytes: &[u8]) -> Result<SignatureBones>
        // On success, the result is the record at the front of the bytes, and its algorithm is `Ed` or
        // `ED`. The errors are, in this order, fewer than 74 bytes and any other algorithm.
        ensures read { IfOk result
            (λ s. ReadsSignature bytes.now s × IsKnownAlgorithm s.algorithm) }
        ensures refused { IfErr result (λ e. ((e ≡ Named RecordTooShort) × (length bytes.now < 74))
            ⊎ ((e ≡ Named UnsupportedSignatureAlgorithm) × (74 ≤ length bytes.now)
            × ¬ (IsKnownAlgorithm (take 2 bytes.now)))) }
    {
        let signature = Signature::from_bytes(bytes)?;
        if signature.sig_alg != SIGALG && signature.sig_alg != SIGALG_PREHASHED {
            return Err(NamedFault::UnsupportedSignatureAlgorithm.into());
        }
        Ok(SignatureBones { signature })
    }

    /// Returns the 74 bytes that `from_bytes` parses to this signature. The only error is `OutOfMemory`.
    pub fn to_bytes(&self, alloc: Global) -> Result<Vec<u8>>
        // On success, the bytes are those of the record, and they parse to this record. By the law
        // `texts_are_decided` in `src/texts.rt`, bytes parse to one record at most. The only error is out of
        // memory.
        ensures bytes { IfOk result (λ v. v.items ≡ signature_bytes self.now) }
        ensures reads_back { IfOk result (λ v. ReadsSignature v.items self.now) }
        ensures len { IfOk result (λ v. vec_len v ≡ Self.BYTES) }
        ensures only_out_of_memory { IfErr result (λ e. e ≡ Named OutOfMemory) }
    {
        self.signature.to_bytes(alloc)
    }
}

/// Returns the signature of a box, without its comments. Does not allocate.
impl From<SignatureBox> for SignatureBones {
    ghost from_gives = { λ signature_box bones. bones ≡ signature_box.signature };

    fn from(signature_box: SignatureBox) -> SignatureBones {
        SignatureBones {
            signature: signature_box.signature,
        }
    }
}
