//! Parses the texts of public keys and signatures without allocating: decoded bytes are in arrays,
//! and comments are slices of the text.

ghost use Rattle.std.specs.Prelude.{◌≡◌, ◌==◌, ◌⊎◌, ◌+◌, ◌≤◌, ◌<◌, [], ◌∷◌, true, false, Ok, Err, length};
ghost use Rattle.std.specs.Prelude.{MatchResult, IfOk, IfErr};
ghost use Rattle.std.specs.Str.{trim};
ghost use Rattle.minisign_base.specs.Fault.{Named};
ghost use Rattle.minisign_base.specs.declared.faults.NamedFault.TheVariants.{PublicKeyLineLength};
ghost use Rattle.minisign_base.specs.declared.faults.NamedFault.TheVariants.{PublicKeyLineNotBase64};
ghost use Rattle.minisign_base.specs.declared.faults.NamedFault.TheVariants.{RecordTooShort};
ghost use Rattle.minisign_base.specs.declared.faults.NamedFault.TheVariants.{SignatureNotBase64};
ghost use Rattle.minisign.specs.SignatureText.{first_64, view_of, read_signature, signature_in_lines};
ghost use Rattle.minisign.specs.SignatureText.{with_comments};
ghost use Rattle.minisign.specs.KeyTexts.{decoded_key, read_bare_public_key, read_public_key};
ghost use Rattle.minisign.specs.Records.{IsKnownAlgorithm, is_prehashed, ReadsSignature};
ghost use Rattle.minisign.specs.Texts.{base64_bytes, is_base64, map_ok, require, Encodes};

use crate::base64_front::{decode_front, is_base64};
use crate::constants::SIGALG_PREHASHED;
use crate::public_key::PublicKey;
use crate::signature::Signature;
use crate::signature_box::{
    four_lines, trusted_comment_in, untrusted_comment_in, with_known_algorithm,
};
use crate::texts::next_line;
use minisign_base::{NamedFault, Result};
use std::marker::Model;

// The length of a public key in base64.
const ENCODED_BYTES: usize = 56;

/// A parsed signature text: the signature, the comments as slices of the text, and the first 64 bytes of
/// the comment signature.
#[derive(Drop)]
pub struct SignatureView<'a> {
    signature: Signature,
    untrusted_comment: &'a str,
    trusted_comment: &'a str,
    comment_signature: Option<[u8; 64]>,
}

impl<'a> Model for SignatureView<'a> {
    ghost use Rattle.minisign.specs.SignatureText.{SignatureViewRecord};

    ghost Value = { SignatureViewRecord };

    ghost view = { λ v. record {
      signature = v.signature;
      untrusted = v.untrusted_comment.now;
      trusted = v.trusted_comment.now;
      comment_signature = v.comment_signature;
    } };
}

impl<'a> SignatureView<'a> {
    /// Returns the signature, with its algorithm and the key ID of the key that made it.
    pub fn signature(&self) -> &Signature
        ensures { result.now ≡ self.now.signature }
    {
        &self.signature
    }

    /// Returns the untrusted comment, which is not signed.
    pub fn untrusted_comment(&self) -> &'a str
        ensures { result.now ≡ self.now.untrusted }
    {
        self.untrusted_comment
    }

    /// Returns the trusted comment, trimmed. The comment signature signs it.
    pub fn trusted_comment(&self) -> &'a str
        ensures { result.now ≡ self.now.trusted }
    {
        self.trusted_comment
    }

    /// Returns the first 64 bytes of the comment signature, or `None` if it is shorter.
    pub fn comment_signature(&self) -> Option<[u8; 64]>
        ensures { result ≡ self.now.comment_signature }
    {
        self.comment_signature
    }

    /// Returns true if the signature is prehashed: it signs the digest of the data, not the data itself.
    pub fn is_prehashed(&self) -> bool
        ensures { result ≡ is_prehashed self.now.signature }
    {
        self.signature.sig_alg == SIGALG_PREHASHED
    }
}

/// Parses a public key text. The first line may be anything. The second line must have 56 bytes and be the
/// base64 of the 42 bytes of a key. It is trimmed of white space before it is decoded, so a line with white
/// space is an error. Later lines are ignored.
///
/// Errors come in this order: no first line, no second line, a different length of the second line, a
/// second line that is not base64, fewer than 42 bytes. Does not allocate.
pub fn read_public_key(text: &str) -> Result<PublicKey>
    // The result depends only on the text: it is the public key in the text, as `specs/KeyTexts` defines
    // it, or the error of the first check that fails.
    ensures { result ≡ read_public_key text.now }
{
    let mut lines = text.lines();
    let Some(_comment) = next_line(&mut lines) else {
        return Err(NamedFault::MissingPublicKeyComment.into());
    };
    let Some(encoded) = next_line(&mut lines) else {
        return Err(NamedFault::MissingEncodedPublicKey.into());
    };
    read_key_line(encoded)
}

/// Parses the bare base64 of a public key, 56 bytes.
///
/// Errors come in this order: a text that does not have 56 bytes after white space at its ends is trimmed; a
/// text that is not base64, which includes one with white space at its ends; fewer than 42 decoded bytes.
/// Does not allocate.
pub fn read_bare_public_key(text: &str) -> Result<PublicKey>
    // The result depends only on the text: it is the public key whose base64 is the text, or the error
    // of the first check that fails.
    ensures { result ≡ read_bare_public_key text.now }
{
    if text.trim().len() != ENCODED_BYTES {
        return Err(NamedFault::BarePublicKeyLength.into());
    }
    decode_key(text, NamedFault::BarePublicKeyNotBase64)
}

/// Parses a signature text as `SignatureBox::from_string` does, and returns all of it except the comment
/// signature's bytes after the 64th. The text has four lines: `untrusted comment: ` and the untrusted
/// comment; the base64 of the 74 bytes of a signature; `trusted comment: ` and the trusted comment; the
/// base64 of the comment signature, of any length. The second line, the fourth line and the trusted comment
/// are trimmed of white space. The untrusted comment is kept as it is, and later lines are ignored.
///
/// Errors come in this order: a missing line, the first one first; a different label of the first line; a
/// second line that is not base64, or of fewer than 74 bytes; a different label of the third line; an
/// algorithm other than `Ed` and `ED`; a fourth line that is not base64. Does not allocate.
pub fn read_signature(text: &str) -> Result<SignatureView<'_>>
    // The result depends only on the text: it is the signature in the text with its comments, as
    // `specs/SignatureText` defines them, or the error of the first check that fails. Only the first 64 bytes
    // of the comment signature are returned.
    ensures view { result ≡ map_ok view_of (read_signature text.now) }

    // On success, the trusted comment is at least 64 bytes shorter than the text.
    ensures size { IfOk result (λ v. 64 + length v.trusted ≤ length text.now) }
{
    let parts = read_parts(text)?;
    Ok(SignatureView {
        comment_signature: signature_front(parts.comment_signature),
        signature: parts.signature,
        untrusted_comment: parts.untrusted_comment,
        trusted_comment: parts.trusted_comment,
    })
}

// Parses the second line of a public key text.
fn read_key_line(encoded: &str) -> Result<PublicKey>
    ensures { result ≡ require (length encoded.now == 56) PublicKeyLineLength
        (decoded_key PublicKeyLineNotBase64 (trim encoded.now)) }
{
    if encoded.len() != ENCODED_BYTES {
        return Err(NamedFault::PublicKeyLineLength.into());
    }
    decode_key(encoded.trim(), NamedFault::PublicKeyLineNotBase64)
}

// Decodes a public key from base64. `not_base64` is the error if the text is not base64.
fn decode_key(text: &str, not_base64: NamedFault) -> Result<PublicKey>
    ensures { result ≡ decoded_key not_base64 text.now }
{
    let mut record = [0u8; 42];
    let Some(count) = decode_front(text.as_bytes(), &mut record) else {
        return Err(not_base64.into());
    };
    PublicKey::from_bytes(&record[..count])
}

// A signature text parsed in place. The comment signature is still base64.
#[derive(Drop)]
pub(crate) struct SignatureParts<'a> {
    pub(crate) signature: Signature,
    pub(crate) untrusted_comment: &'a str,
    pub(crate) trusted_comment: &'a str,
    pub(crate) comment_signature: &'a str,
}

// Parses a signature text. The base64 of the comment signature is checked but not decoded.
pub(crate) fn read_parts(text: &str) -> Result<SignatureParts<'_>>
    ensures read { IfOk result (λ p. read_signature text.now ≡ Ok
        (with_comments p.signature p.untrusted_comment.now p.trusted_comment.now
        (base64_bytes p.comment_signature.now))) }
    ensures parts { IfOk result
        (λ p. (is_base64 p.comment_signature.now ≡ true) × IsKnownAlgorithm p.signature.algorithm
        × (64 + length p.trusted_comment.now ≤ length text.now)) }
    ensures refused { IfErr result (λ e. read_signature text.now ≡ Err e) }
{
    let lines = four_lines(text)?;
    read_lines(
        lines.untrusted_comment,
        lines.signature,
        lines.trusted_comment,
        lines.global_sig,
    )
}

// Parses the four lines of a signature text. The order of the checks decides which error is
// returned.
fn read_lines<'a>(
    first: &'a str,
    second: &'a str,
    third: &'a str,
    fourth: &'a str,
) -> Result<SignatureParts<'a>>
    ensures read { IfOk result (λ p. signature_in_lines (first.now ∷ second.now ∷ third.now ∷ fourth.now ∷ [])
        ≡ Ok (with_comments p.signature p.untrusted_comment.now p.trusted_comment.now
        (base64_bytes p.comment_signature.now))) }
    ensures parts { IfOk result
        (λ p. (is_base64 p.comment_signature.now ≡ true) × IsKnownAlgorithm p.signature.algorithm
        × (64 + length p.trusted_comment.now ≤ length second.now + length third.now)) }
    ensures refused { IfErr result
        (λ e. signature_in_lines (first.now ∷ second.now ∷ third.now ∷ fourth.now ∷ []) ≡ Err e) }
{
    let untrusted_comment = untrusted_comment_in(first)?;
    let signature = decode_signature(second.trim())?;
    let trusted_comment = trusted_comment_in(third)?;
    let signature = with_known_algorithm(signature)?;
    let comment_signature = fourth.trim();
    if !is_base64(comment_signature.as_bytes()) {
        return Err(NamedFault::SignatureNotBase64.into());
    }
    Ok(SignatureParts {
        signature,
        untrusted_comment,
        trusted_comment: trusted_comment.trim(),
        comment_signature,
    })
}

// Decodes a signature from base64. The buffer has one byte more than a signature, because
// `decode_front` needs a multiple of 3.
fn decode_signature(text: &str) -> Result<Signature>
    ensures { MatchResult result (Encodes ReadsSignature text.now) (λ e. ((e ≡ Named SignatureNotBase64)
        × (is_base64 text.now ≡ false)) ⊎ ((e ≡ Named RecordTooShort) × (is_base64 text.now ≡ true)
        × (length (base64_bytes text.now) < 74))) }
{
    let mut record = [0u8; 75];
    let Some(count) = decode_front(text.as_bytes(), &mut record) else {
        return Err(NamedFault::SignatureNotBase64.into());
    };
    Signature::from_bytes(&record[..count])
}

// Returns the first 64 bytes of a comment signature in base64, or `None` if it is shorter. The
// buffer has 66 bytes because `decode_front` needs a multiple of 3.
fn signature_front(text: &str) -> Option<[u8; 64]>
    ensures { is_base64 text.now ≡ true → result ≡ first_64 (base64_bytes text.now) }
{
    let mut front = [0u8; 66];
    match decode_front(text.as_bytes(), &mut front) {
        Some(count) => first_64(&front[..count]),
        None => None,
    }
}

// Returns the first 64 bytes, or `None` if there are fewer.
fn first_64(bytes: &[u8]) -> Option<[u8; 64]>
    ensures { result ≡ first_64 bytes.now }
{
    if bytes.len() < 64 {
        return None;
    }
    let (front, _) = bytes.split_at(64);
    let mut first = [0u8; 64];
    first.copy_from_slice(front);
    Some(first)
}
