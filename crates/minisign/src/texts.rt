//! Splits texts into lines, appends lines, and encodes and decodes base64. Also contains the law
//! `texts_are_decided`, which states that the parsers agree with the grammars.

ghost use Rattle.std.specs.Prelude.{◌≡◌, ℕ, ◌+◌, ◌≤◌, List, [], ◌∷◌, ◌++◌, length, false, Option};
ghost use Rattle.std.specs.Prelude.{string_bytes, IfOk, IfErr, OnOk, IfSome, IfNone};
ghost use Rattle.std.specs.Str.Lines.{lines};
ghost use Rattle.std.specs.Str.Iter.{lines_rest};
ghost use Rattle.minisign_base.specs.Fault.{Named};
ghost use Rattle.minisign_base.specs.declared.faults.NamedFault.TheVariants.{OutOfMemory};
ghost use Rattle.minisign.specs.Texts.{line, IsBase64Of, IsReading, base64_of, is_base64};
ghost use Rattle.minisign.specs.KeyTexts.{BarePublicKey, PublicKeyText, read_bare_public_key};
ghost use Rattle.minisign.specs.KeyTexts.{read_public_key, SecretKeyText, read_secret_key};
ghost use Rattle.minisign.specs.KeyTexts.{read_secret_key_bytes};
ghost use Rattle.minisign.specs.Sealing.{IsOpened, IsUnencryptedText, open_key, read_unencrypted_key};
ghost use Rattle.minisign.specs.Records.{PublicKeyRecord, ReadsPublicKey, ReadsSecretKey, ReadsSignature};
ghost use Rattle.minisign.specs.Records.{SignatureRecord};
ghost use Rattle.minisign.specs.SignatureText.{SignatureText, read_signature};

use base64::DecodeAllocError;
use base64::engine::general_purpose::STANDARD;
use minisign_base::{NamedFault, Result};
use std::alloc::Global;
use std::str::Lines;

/// States that the functions that parse texts, and those that decrypt or accept secret keys, agree with the
/// relations that define the grammars. This function is a law: it does nothing, and exists only for its
/// contract.
#[tactic(auto, using(crate::proofs::PublicKeyTexts::read_as, crate::proofs::PublicKeyTexts::bare_read_as, crate::proofs::SignatureTexts::read_as, crate::proofs::SecretKeyTexts::read_as, crate::proofs::SecretKeyTexts::bytes_read_as, crate::proofs::Openings::opened_as, crate::proofs::Openings::unencrypted_as))]
pub fn texts_are_decided()
    // The grammars of a public key text, a bare base64 public key, a signature text, a secret key text and
    // the bytes of a secret key are relations between texts and values: `PublicKeyText` and so on. The
    // function that parses such a text returns a value exactly if the relation holds for the text and this
    // value. So the relation holds for one value at most, and for none if the function returns an error.
    ensures public_key { (text : List ℕ) → IsReading (PublicKeyText text) (read_public_key text) }
    ensures bare_public_key { (text : List ℕ) → IsReading (BarePublicKey text) (read_bare_public_key text) }
    ensures signature { (text : List ℕ) → IsReading (SignatureText text) (read_signature text) }
    ensures secret_key { (text : List ℕ) → IsReading (SecretKeyText text) (read_secret_key text) }
    ensures secret_key_bytes { (bytes : List ℕ)
        → IsReading (ReadsSecretKey bytes) (read_secret_key_bytes bytes) }

    // The bytes determine the record: no two public keys, and no two signatures, can be parsed from the same
    // bytes.
    ensures public_key_bytes { (bytes : List ℕ) (k other : PublicKeyRecord)
        → ReadsPublicKey bytes k → ReadsPublicKey bytes other → k ≡ other }
    ensures signature_bytes { (bytes : List ℕ) (s other : SignatureRecord)
        → ReadsSignature bytes s → ReadsSignature bytes other → s ≡ other }

    // A text decrypts under a password to a key exactly if it parses to a key that is encrypted with scrypt,
    // the key's limits are allowed and within the bound, and its checksum matches after decryption with the
    // stream that scrypt derives from the password. A text is accepted as an unencrypted key exactly if it
    // parses to a key that was never encrypted and whose checksum matches. In both cases there is one key at
    // most, and none if the function gives an error.
    ensures opened_key { (text password : List ℕ) (bound : Option ℕ)
        → IsReading (IsOpened text password bound) (open_key text password bound) }
    ensures unencrypted_key { (text : List ℕ)
        → IsReading (IsUnencryptedText text) (read_unencrypted_key text) }
{}

// Returns the next line without its line feed and without one carriage return before that. The last
// line needs no line feed.
pub(crate) fn next_line<'a>(rest: &mut Lines<'a>) -> Option<&'a str>
    ensures some { IfSome result
        (λ x. lines (lines_rest rest.old) ≡ x.now ∷ lines (lines_rest rest.new)) }
    ensures none { IfNone result (lines (lines_rest rest.old) ≡ []) }
    ensures size { IfSome result
        (λ x. length x.now + length (lines_rest rest.new) ≤ length (lines_rest rest.old)) }
{
    match rest.next() {
        Some(line) => Some(line),
        None => None,
    }
}

// Decodes base64. Returns `None` if the text is not base64.
pub(crate) fn decode(alloc: Global, text: &str) -> Result<Option<Vec<u8>>>
    ensures bytes { IfOk result (λ o. IfSome o (λ v. IsBase64Of text.now v.items)) }
    ensures none { IfOk result (λ o. IfNone o (is_base64 text.now ≡ false)) }
    ensures only_out_of_memory { IfErr result (λ e. e ≡ Named OutOfMemory) }
{
    match STANDARD.decode(alloc, text.as_bytes()) {
        Ok(bytes) => Ok(Some(bytes)),
        Err(DecodeAllocError::OutOfMemory) => Err(NamedFault::OutOfMemory.into()),
        Err(DecodeAllocError::DecodeError(_)) => Ok(None),
    }
}

#[tactic(auto, unfolding(crate::specs::Texts::base64_of))]
pub(crate) fn encode(alloc: Global, bytes: &[u8]) -> Result<String>
    ensures text { IfOk result (λ t. string_bytes t ≡ base64_of bytes.now) }
    ensures base64 { IfOk result (λ t. IsBase64Of (string_bytes t) bytes.now) }
    ensures only_out_of_memory { IfErr result (λ e. e ≡ Named OutOfMemory) }
{
    Ok(STANDARD.encode(alloc, bytes)?)
}

// Appends a line: the label, the text and a line feed.
pub(crate) fn push_line(lines: &mut String, label: &str, text: &str) -> Result<()>
    ensures line { OnOk result
        (string_bytes lines.new ≡ string_bytes lines.old ++ line (label.now ++ text.now)) }
    ensures only_out_of_memory { IfErr result (λ e. e ≡ Named OutOfMemory) }
{
    lines.push_str(label)?;
    lines.push_str(text)?;
    lines.push_str("\n")?;
    Ok(())
}
