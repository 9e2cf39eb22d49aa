//! The checks of a signature, in their order, for data in memory and a signature text that is
//! parsed in place. Nothing here allocates.

ghost use Rattle.std.specs.Prelude.{◌≡◌, ◌+◌, ◌≤◌, if◌then◌else◌, length};
ghost use Rattle.minisign_hash.specs.Blake2b.{blake2b_digest};
ghost use Rattle.minisign.specs.Acceptance.{accepts_comments, judge, judge_key};
ghost use Rattle.minisign.specs.SignatureText.{view_of, SignatureTextRecord, box_of};
ghost use Rattle.minisign.specs.Records.{is_prehashed};

use crate::constants::SIGALG_PREHASHED;
use crate::in_place::SignatureView;
use crate::parts::write_comment_message;
use crate::public_key::PublicKey;
use crate::signature::Signature;
use minisign_base::scheme::Scheme;
use minisign_base::{NamedFault, Result};
use minisign_hash::blake2b::Blake2b;

/// Makes the checks that need no signature scheme: the key IDs must match (`DifferentKeyIds`), and the
/// signature must be prehashed unless `allow_legacy` is set (`LegacyNotAccepted`). Does not allocate.
pub fn judge_key(key_id: &[u8; 8], signature: &Signature, allow_legacy: bool) -> Result<()>
    // Succeeds exactly if the signature has this key ID and is prehashed or `allow_legacy` is set.
    // Otherwise the error is that of the first check that fails: the key ID, then the kind of
    // signature.
    ensures { result ≡ judge_key key_id.now signature.now allow_legacy }
{
    if signature.keynum != *key_id {
        return Err(NamedFault::DifferentKeyIds {
            signature: signature.keynum,
            key: *key_id,
        }
        .into());
    }
    if signature.sig_alg != SIGALG_PREHASHED && !allow_legacy {
        return Err(NamedFault::LegacyNotAccepted.into());
    }
    Ok(())
}

// Verifies a parsed signature over the message. `room` is scratch space for the comment message, which is the
// signature of the data followed by the trusted comment.
pub(crate) fn judge_view<S: Scheme>(
    scheme: &S,
    pk: &PublicKey,
    view: &SignatureView<'_>,
    message: &[u8],
    allow_legacy: bool,
    room: &mut [u8],
) -> Result<()>
    requires { 64 + length view.now.trusted ≤ length room.old }
    ensures { (t : SignatureTextRecord) → view.now ≡ view_of t
        → result ≡ judge (S.accepts scheme.now) pk.now (box_of t) message.now allow_legacy }
{
    judge_key(pk.key_id(), view.signature(), allow_legacy)?;
    if !accepts_message(scheme, pk, view.signature(), message) {
        return Err(NamedFault::SignatureRefused.into());
    }
    if !accepts_comment_signature(scheme, pk, view, room) {
        return Err(NamedFault::CommentSignatureRefused.into());
    }
    Ok(())
}

// Returns true if the signature is valid for the digest of the message (prehashed) or for the
// message itself (legacy).
fn accepts_message<S: Scheme>(
    scheme: &S,
    pk: &PublicKey,
    signature: &Signature,
    message: &[u8],
) -> bool
    ensures { result ≡ S.accepts scheme.now
        (if is_prehashed signature.now then blake2b_digest 64 message.now else message.now)
        pk.now.key signature.now.signature }
{
    let key = &pk.keynum_pk.pk;
    if signature.sig_alg == SIGALG_PREHASHED {
        let mut digest = [0u8; 64];
        Blake2b::blake2b(&mut digest, message);
        scheme.verify(&digest, key, &signature.sig)
    } else {
        scheme.verify(message, key, &signature.sig)
    }
}

// Returns true if the comment signature has at least 64 bytes and the first 64 are a valid
// signature of the data signature followed by the trusted comment.
fn accepts_comment_signature<S: Scheme>(
    scheme: &S,
    pk: &PublicKey,
    view: &SignatureView<'_>,
    room: &mut [u8],
) -> bool
    requires { 64 + length view.now.trusted ≤ length room.old }
    ensures { (t : SignatureTextRecord) → view.now ≡ view_of t
        → result ≡ accepts_comments (S.accepts scheme.now) pk.now (box_of t) }
{
    match view.comment_signature() {
        Some(comment_signature) => {
            let trusted = view.trusted_comment().as_bytes();
            write_comment_message(&view.signature().sig, trusted, room);
            scheme.verify(
                &room[..64 + trusted.len()],
                &pk.keynum_pk.pk,
                &comment_signature,
            )
        }
        None => false,
    }
}
