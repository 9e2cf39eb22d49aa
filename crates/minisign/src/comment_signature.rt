//! The check of a comment signature, which signing and verifying share.

ghost use Rattle.std.specs.Prelude.{◌≡◌, Some, MatchResult};
ghost use Rattle.minisign_base.specs.Fault.{Named};
ghost use Rattle.minisign_base.specs.declared.faults.NamedFault.TheVariants.{OutOfMemory};
ghost use Rattle.minisign.specs.Acceptance.{accepts_comments};

use crate::public_key::PublicKey;
use crate::signature::Signature;
use crate::signature_box::{Comments, SignatureBox};
use minisign_base::Result;
use minisign_base::scheme::Scheme;
use std::alloc::Global;

// Returns true if the comment signature is valid, or if there is none because the signature is bare. Only
// the 32 key bytes of `pk` are used, not its key ID.
pub(crate) fn accepts_comments<S: Scheme>(
    alloc: Global,
    scheme: &S,
    pk: &PublicKey,
    signature_box: &SignatureBox,
) -> Result<bool>
    ensures { MatchResult result
        (λ b. b ≡ accepts_comments (S.accepts scheme.now) pk.now signature_box.now)
        (λ e. e ≡ Named OutOfMemory) }
{
    match &signature_box.comments {
        Some(comments) => accepts_comment(alloc, scheme, pk, &signature_box.signature, comments),
        None => Ok(true),
    }
}

// Returns true if the comment signature has at least 64 bytes and the first 64 are a valid
// signature of the data signature followed by the trusted comment.
fn accepts_comment<S: Scheme>(
    alloc: Global,
    scheme: &S,
    pk: &PublicKey,
    signature: &Signature,
    comments: &Comments,
) -> Result<bool>
    ensures { MatchResult result (λ b. b ≡ accepts_comments (S.accepts scheme.now) pk.now
        (record { signature = signature.now; comments = Some comments.now })) (λ e. e ≡ Named OutOfMemory) }
{
    if comments.global_sig.len() < 64 {
        return Ok(false);
    }
    let (front, _) = comments.global_sig.split_at(64);
    let mut global_sig = [0u8; 64];
    global_sig.copy_from_slice(front);
    let signed = signature.with_comment(alloc, comments.trusted_comment.as_str())?;
    Ok(scheme.verify(&signed, &pk.keynum_pk.pk, &global_sig))
}
