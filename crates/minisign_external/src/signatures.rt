//! A signature that was read from its file. It contains everything that `State::ask` needs except the trusted
//! comment, which it does not copy from the file. Nothing here allocates.

ghost use Rattle.std.specs.Prelude.{◌≡◌, ◌+◌, ◌≤◌, Bool, Ok, Err, false, true, IfOk, IfErr, MatchOption};
ghost use Rattle.std.specs.Prelude.{MatchResult, if◌then◌else◌, bytes_eq, nat_le, length, take, drop};
ghost use Rattle.std.specs.Str.{IsUtf8};
ghost use Rattle.minisign_hash.specs.Blake2b.{blake2b_digest};
ghost use Rattle.minisign.specs.SignatureText.{IsAtOffset, SignatureTextRecord, first_64, read_signature};
ghost use Rattle.minisign.specs.SignatureText.{view_of};
ghost use Rattle.minisign.specs.Records.{CommentsRecord, is_prehashed};
ghost use Rattle.minisign.specs.Texts.{map_ok};
ghost use Rattle.minisign_external.specs.Questions.{has_whole_signature, comment_signature_or_zeros};
ghost use Rattle.minisign_external.specs.Signatures.{IsReadFrom, comment_bytes, comment_of, is_text_of};
ghost use Rattle.minisign_external.specs.Signatures.{read_signature_value, signature_of_value};
ghost use Rattle.minisign_external.specs.Signatures.{signature_value};
ghost use Rattle.minisign_external.specs.States.{IsTextRefusal};
ghost use Rattle.minisign_external.specs.declared.public_keys.PublicKeyValue.{PublicKeyValue};
ghost use Rattle.minisign_external.specs.declared.signatures.SignatureValue.{SignatureValue};
ghost use Rattle.minisign_external.specs.declared.state.Misuse.TheVariants.{OtherSignatureText};
ghost use Rattle.minisign_external.specs.declared.state.Refusal.TheVariants.{Refused};

use crate::state::Misuse;
use minisign::{Result, Signature, SignatureView, read_signature, trusted_comment_place};
use minisign_base::NamedFault;
use minisign_hash::blake2b::Blake2b;

// The mark of a signature that was read: the letters `minisigv`, in little-endian order.
pub(crate) const READ: u64 = 8531903963487693165;

/// A signature as its file contains it, 200 bytes with the layout of C. The mark and the digest are only for
/// `State::ask`; callers may read the other fields.
#[repr(C)]
#[derive(Clone, Copy)]
pub struct SignatureValue {
    /// The mark of a signature that was read.
    pub mark: u64,
    /// The key ID in the signature file.
    pub key_id: [u8; 8],
    /// The signature of the digest of the data, or of the data itself if `legacy` is 1.
    pub signature: [u8; 64],
    /// The comment signature, or zeros if the file has fewer than 64 bytes of it.
    pub comment_signature: [u8; 64],
    /// The position of the trusted comment in the file.
    pub comment_offset: u64,
    /// The length of the trusted comment in bytes.
    pub comment_len: u64,
    /// The Blake2b digest of the file, of 32 bytes.
    pub text_digest: [u8; 32],
    /// The algorithm: `ED`, or `Ed` if `legacy` is 1.
    pub algorithm: [u8; 2],
    /// 1 if the signature is a legacy one, which signs the data itself, otherwise 0.
    pub legacy: u8,
    /// 1 if the file has 64 bytes of the comment signature, otherwise 0.
    pub whole: u8,
    /// Reserved.
    pub reserved: u32,
}

impl SignatureValue {
    /// Parses a signature file, for `State::ask`.
    ///
    /// The errors are, in this order: `NotUtf8`; those of `minisign::read_signature`. Does not allocate.
    pub fn read(sig_text: &[u8]) -> Result<SignatureValue>
        // On success, the result holds the key ID, the algorithm and both signatures of the text, the
        // position of the trusted comment in it, and the digest of the text. The text must be UTF-8.
        // Otherwise, or if it does not parse, the error is that of the first check that fails.
        ensures value { result ≡ read_signature_value sig_text.now }

        // On success, the trusted comment is in the text at the position that the result gives.
        ensures read { IfOk result (λ s. (t : SignatureTextRecord) × IsReadFrom s sig_text.now t) }

        // If the text is UTF-8 and does not parse, verification with it fails with the same error, under
        // every public key, for every scheme and every message.
        ensures same_error_as_texts { (v : PublicKeyValue) (legacy : Bool)
            → IfErr result (λ e. IsTextRefusal v sig_text.now legacy (Refused e)) }
    {
        match str::from_utf8(sig_text) {
            Ok(text) => SignatureValue::read_text(text),
            Err(_) => Err(NamedFault::NotUtf8.into()),
        }
    }

    // Parses a signature file that is UTF-8.
    fn read_text(text: &str) -> Result<SignatureValue>
        ensures value { result ≡ map_ok (signature_value text.now) (read_signature text.now) }
        ensures read { IfOk result (λ s. (t : SignatureTextRecord) × (read_signature text.now ≡ Ok t)
            × IsAtOffset t.comments.trusted text.now s.comment_offset × IsUtf8 t.comments.trusted
            × (64 + length t.comments.trusted ≤ length text.now)) }
    {
        match read_signature(text) {
            Ok(view) => Ok(SignatureValue::of_view(text, &view)),
            Err(fault) => Err(fault),
        }
    }

    // Returns the struct for a parsed signature file.
    fn of_view(text: &str, view: &SignatureView<'_>) -> SignatureValue
        ensures { (t : SignatureTextRecord) → read_signature text.now ≡ Ok t → view.now ≡ view_of t
            → (result ≡ signature_value text.now t)
            × IsAtOffset t.comments.trusted text.now result.comment_offset }
    {
        let signature = view.signature();
        let (comment_signature, whole) = comment_signature_and_flag(view);
        let (comment_offset, comment_len) = trusted_comment_place(text);
        SignatureValue {
            mark: READ,
            key_id: signature.keynum,
            signature: signature.sig,
            comment_signature,
            comment_offset: comment_offset as u64,
            comment_len: comment_len as u64,
            text_digest: digest_of(text.as_bytes()),
            algorithm: signature.sig_alg,
            legacy: legacy_number(view),
            whole,
            reserved: 0,
        }
    }

    // Returns the data signature.
    pub(crate) fn signature(&self) -> Signature
        ensures { result ≡ signature_of_value self.now }
    {
        Signature {
            sig_alg: self.algorithm,
            keynum: self.key_id,
            sig: self.signature,
        }
    }

    // Returns the trusted comment in a text, which must be the one that the signature was read from.
    pub(crate) fn comment_in<'a>(&self, sig_text: &'a [u8]) -> std::result::Result<&'a str, Misuse>
        ensures { MatchResult result (λ c. comment_of self.now sig_text.now ≡ Ok c.now)
            (λ m. comment_of self.now sig_text.now ≡ Err m) }
    {
        if self.mark != READ {
            return Err(Misuse::SignatureNotRead);
        }
        match self.comment_in_same_text(sig_text) {
            Some(comment) => Ok(comment),
            None => Err(Misuse::OtherSignatureText),
        }
    }

    // Returns true if a text has the recorded digest.
    fn has_digest_of(&self, sig_text: &[u8]) -> bool
        ensures { result ≡ bytes_eq (blake2b_digest 32 sig_text.now) self.now.text_digest }
    {
        digest_of(sig_text) == self.text_digest
    }

    // Returns the trusted comment, if the text has the recorded digest and UTF-8 at the position of the
    // comment.
    fn comment_in_same_text<'a>(&self, sig_text: &'a [u8]) -> Option<&'a str>
        ensures { MatchOption result (is_text_of self.now sig_text.now ≡ false)
            (λ c. (is_text_of self.now sig_text.now ≡ true) × (c.now ≡ comment_bytes self.now sig_text.now)) }
    {
        if !self.has_digest_of(sig_text) {
            return None;
        }
        let comment = part_of(sig_text, self.comment_offset, self.comment_len)?;
        match str::from_utf8(comment) {
            Ok(comment) => Some(comment),
            Err(_) => None,
        }
    }
}

// Returns `len` bytes of a text from `offset` on, or `None` if the text is shorter.
fn part_of(text: &[u8], offset: u64, len: u64) -> Option<&[u8]>
    ensures { MatchOption result (nat_le (offset + len) (length text.now) ≡ false)
        (λ part. (nat_le (offset + len) (length text.now) ≡ true)
        × (part.now ≡ take len (drop offset text.now))) }
{
    let end = offset.checked_add(len)?;
    if end > text.len() as u64 {
        return None;
    }
    let (front, _) = text.split_at(end as usize);
    let (_, part) = front.split_at(offset as usize);
    Some(part)
}

// Returns the digest of a text, of 32 bytes.
fn digest_of(text: &[u8]) -> [u8; 32]
    ensures { result ≡ blake2b_digest 32 text.now }
{
    let mut digest = [0u8; 32];
    Blake2b::blake2b(&mut digest, text);
    digest
}

// Returns 1 if the signature is a legacy one, which signs the data itself, otherwise 0.
fn legacy_number(view: &SignatureView<'_>) -> u8
    ensures { result ≡ (if is_prehashed view.now.signature then 0 else 1) }
{
    if view.is_prehashed() { 0 } else { 1 }
}

// Returns the comment signature and 1, or 64 zeros and 0 if it has fewer than 64 bytes.
fn comment_signature_and_flag(view: &SignatureView<'_>) -> ([u8; 64], u8)
    ensures { (c : CommentsRecord) → view.now.comment_signature ≡ first_64 c.signature
        → (result.0 ≡ comment_signature_or_zeros c) × (result.1 ≡ (if has_whole_signature c then 1 else 0)) }
{
    match view.comment_signature() {
        Some(signature) => (signature, 1),
        None => ([0; 64], 0),
    }
}
