//! Access to the parts of public keys and signature boxes, for callers whose signature scheme is outside
//! the library.

ghost use Rattle.std.specs.Prelude.{◌≡◌, ◌≤◌, ◌+◌, ◌++◌, None, IfOk, IfErr, MatchOption, IsSomeAnd, length};
ghost use Rattle.std.specs.Prelude.{take, drop};
ghost use Rattle.minisign_base.specs.Fault.{Named};
ghost use Rattle.minisign_base.specs.declared.faults.NamedFault.TheVariants.{OutOfMemory};
ghost use Rattle.minisign.specs.Records.{prehashed_signature};
ghost use Rattle.minisign.specs.SignatureText.{with_comments, box_of};

use crate::constants::SIGALG_PREHASHED;
use crate::public_key::PublicKey;
use crate::signature::Signature;
use crate::signature_box::{Comments, SignatureBox};
use minisign_base::Result;
use std::alloc::Global;

impl PublicKey {
    /// Returns the 32 key bytes.
    pub fn key(&self) -> &[u8; 32]
        ensures { result.now ≡ self.now.key }
    {
        &self.keynum_pk.pk
    }

    /// Returns the key ID as an array.
    pub fn key_id(&self) -> &[u8; 8]
        ensures { result.now ≡ self.now.keynum }
    {
        &self.keynum_pk.keynum
    }
}

/// Writes the comment message, which the comment signature signs, to the front of `message`: the signature
/// of the data followed by the trusted comment. It is 64 bytes longer than the comment. Does not allocate.
pub fn write_comment_message(signature: &[u8; 64], trusted: &[u8], message: &mut [u8])
    requires room { 64 + length trusted.now ≤ length message.old }

    // The comment message is at the front of the buffer. The buffer's length and the bytes after the
    // message are unchanged.
    ensures size { length message.new ≡ length message.old }
    ensures written { take (64 + length trusted.now) message.new ≡ signature.now ++ trusted.now }
    ensures rest_unchanged { drop (64 + length trusted.now) message.new ≡ drop
        (64 + length trusted.now) message.old }
{
    let (whole, _) = message.split_at_mut(64 + trusted.len());
    fill(whole, signature, trusted);
}

fn fill(to: &mut [u8], signature: &[u8; 64], trusted: &[u8])
    requires { length to.old ≡ 64 + length trusted.now }
    ensures { to.new ≡ signature.now ++ trusted.now }
{
    let (front, back) = to.split_at_mut(64);
    front.copy_from_slice(signature);
    back.copy_from_slice(trusted);
}

impl SignatureBox {
    /// Makes the signature box of a prehashed signature from its parts: the key ID, the signature, both
    /// comments and the comment signature, which signs the signature followed by the trusted comment.
    /// Nothing is checked. The only error is `OutOfMemory`.
    pub fn from_parts(
        alloc: Global,
        key_id: &[u8; 8],
        signature: &[u8; 64],
        untrusted_comment: &str,
        trusted_comment: &str,
        comment_signature: &[u8; 64],
    ) -> Result<SignatureBox>
        // On success, the signature box has exactly these parts and is prehashed. The only error is out of
        // memory.
        ensures parts { IfOk result (λ x. x ≡ box_of (with_comments
            (prehashed_signature key_id.now signature.now) untrusted_comment.now
            trusted_comment.now comment_signature.now)) }
        ensures only_out_of_memory { IfErr result (λ e. e ≡ Named OutOfMemory) }
    {
        let comments = Comments {
            untrusted_comment: String::from_str(alloc, untrusted_comment)?,
            trusted_comment: String::from_str(alloc, trusted_comment)?,
            global_sig: Vec::from_slice(alloc, comment_signature)?,
        };
        Ok(SignatureBox {
            signature: Signature {
                sig_alg: SIGALG_PREHASHED,
                keynum: *key_id,
                sig: *signature,
            },
            comments: Some(comments),
        })
    }

    /// Returns the signature, with its algorithm and the key ID of the key that made it.
    pub fn signature(&self) -> &Signature
        ensures { result.now ≡ self.now.signature }
    {
        &self.signature
    }

    /// Returns the trusted comment and the whole comment signature, which may have any length.
    /// Returns `None` for a bare signature.
    pub fn signed_comment(&self) -> Option<(&str, &[u8])>
        ensures { MatchOption self.now.comments (result ≡ None)
            (λ c. IsSomeAnd result
            (λ both. (both.0.now ≡ c.trusted) × (both.1.now ≡ c.signature))) }
    {
        match &self.comments {
            Some(comments) => Some((
                comments.trusted_comment.as_str(),
                comments.global_sig.as_slice(),
            )),
            None => None,
        }
    }
}
