//! Encodes a signature file from the two signatures that a scheme made.

ghost use Rattle.std.specs.Prelude.{◌≡◌, ◌⊎◌, ◌<◌, ◌≤◌, ◌+◌, ◌++◌, Some, Ok, true, false, string_bytes};
ghost use Rattle.std.specs.Prelude.{length, take, drop, OnOk, OnErr, IfOk, IfErr, IfNone, IfSome};
ghost use Rattle.std.specs.Prelude.{MatchOption, MatchResult};
ghost use Rattle.minisign_base.specs.Fault.{Named};
ghost use Rattle.minisign_base.specs.declared.faults.NamedFault.TheVariants.{OutOfMemory};
ghost use Rattle.minisign.specs.Signing.{AreChosenReadBack};
ghost use Rattle.minisign.specs.SignatureText.{read_signature_box, signature_text};
ghost use Rattle.minisign_external.specs.Signing.{AreReadByMinisign, HoldsSignatureFile, IsSignatureFileOf};
ghost use Rattle.minisign_external.specs.Signing.{IsCommentMisuse, IsWritingRefusal, box_of_signatures};
ghost use Rattle.minisign_external.specs.Signing.{comments_with_signature, signature_with_key_id};
ghost use Rattle.minisign_external.specs.Signing.{comments_of};
ghost use Rattle.minisign_external.specs.PublicKeys.{is_public_key};
ghost use Rattle.minisign_external.specs.declared.state.Misuse.{Misuse};
ghost use Rattle.minisign_external.specs.declared.state.Misuse.TheVariants.{NoRoom};
ghost use Rattle.minisign_external.specs.declared.state.Refusal.TheVariants.{Refused, WrongUse};

use crate::public_keys::PublicKeyValue;
use crate::state::{Misuse, Refusal};
use minisign::SignatureBox;
use minisign_base::NamedFault;
use std::alloc::Global;

/// Returns a signature file, the four lines that Minisign reads, with this key ID, two signatures that a
/// scheme made, and two comments. `first` must be the signature of the digest of the data, and `second` the
/// signature of the concatenation of `first` and the trusted comment.
pub fn signed_text(
    alloc: Global,
    key_id: &[u8; 8],
    first: &[u8; 64],
    second: &[u8; 64],
    trusted: &str,
    untrusted: &str,
) -> std::result::Result<String, Refusal>
    // On success, the result parses to a signature with exactly this key ID, these comments and these
    // signatures. If these are the signatures that a scheme makes with a key for a message, the result parses
    // to the same signature box as when the library signs the message with this key and scheme. The result is
    // a valid signature of a message under every public key that has this key ID and under which both
    // signatures are valid for the message. If the key is genuine (its secret is a seed followed by the
    // seed's public key), statement 3 of the section "The headline" in docs/PROMISES.md holds for the result.
    ensures text { IfOk result (λ t.
        IsSignatureFileOf key_id.now (comments_of trusted.now untrusted.now) first.now second.now
        (string_bytes t)) }

    // The errors are, in this order: `BadComment`, if a comment would change when it is read back, because it
    // has a line feed, the untrusted one ends with a carriage return, or the trusted one begins or ends with
    // white space; `UnreadableComment`, if Minisign 0.11 would not read a comment back, because the untrusted
    // one has 1,004 bytes or more, the trusted one 8,174 or more, or one has a zero byte or a carriage
    // return. For comments without these errors, only out of memory is possible.
    ensures refused { IfErr result (λ r. ((r ≡ Refused (Named OutOfMemory)) × AreChosenReadBack
        (comments_of trusted.now untrusted.now) × AreReadByMinisign (comments_of trusted.now untrusted.now))
        ⊎ ((m : Misuse) × (r ≡ WrongUse m) × IsCommentMisuse (comments_of trusted.now untrusted.now) m)) }
    ensures read_back { OnOk result (AreChosenReadBack (comments_of trusted.now untrusted.now)
        × AreReadByMinisign (comments_of trusted.now untrusted.now)) }
{
    check_comments(trusted, untrusted)?;
    Ok(written(alloc, key_id, first, second, trusted, untrusted)?)
}

/// Writes the signature file of `signed_text`, with the key ID of a public key that was read, to the start of
/// `to`. Returns its length.
pub fn write_signed_text(
    alloc: Global,
    key: &PublicKeyValue,
    first: &[u8; 64],
    second: &[u8; 64],
    trusted: &[u8],
    untrusted: &[u8],
    to: &mut [u8],
) -> std::result::Result<usize, Refusal>
    // On success, the public key was read, and the signature file that `signed_text` promises for its key ID
    // is at the start of the buffer. The rest of the buffer is unchanged.
    ensures text { IfOk result (λ len. (is_public_key key.now ≡ true)
        × HoldsSignatureFile key.now.key_id
        (comments_of trusted.now untrusted.now) first.now second.now to.new len) }
    ensures rest_unchanged { IfOk result (λ len. drop len to.new ≡ drop len to.old) }
    ensures read_by_minisign { OnOk result (AreReadByMinisign (comments_of trusted.now untrusted.now)) }

    // The errors are, in this order: the public key was not read; a comment is not UTF-8; those of
    // `signed_text`; the buffer is too short. After an error the buffer is unchanged.
    ensures refused { IfErr result
        (IsWritingRefusal key.now (comments_of trusted.now untrusted.now) first.now second.now to.old) }
    ensures unchanged { OnErr result (to.new ≡ to.old) }
{
    if !key.is_public_key() {
        return Err(Refusal::WrongUse(Misuse::PublicKeyNotRead));
    }
    let Ok(trusted) = str::from_utf8(trusted) else {
        return Err(Refusal::Refused(NamedFault::NotUtf8.into()));
    };
    let Ok(untrusted) = str::from_utf8(untrusted) else {
        return Err(Refusal::Refused(NamedFault::NotUtf8.into()));
    };
    let text = signed_text(alloc, &key.key_id, first, second, trusted, untrusted)?;
    match write_front(text.as_bytes(), to) {
        Some(len) => Ok(len),
        None => Err(Refusal::WrongUse(Misuse::NoRoom)),
    }
}

// Writes the bytes to the start of `to` and returns their number, or `None` if they do not fit.
pub(crate) fn write_front(bytes: &[u8], to: &mut [u8]) -> Option<usize>
    ensures written { MatchOption result (length to.old < length bytes.now)
        (λ n. (n ≤ length to.new) × (take n to.new ≡ bytes.now)) }
    ensures count { IfSome result (λ n. n ≡ length bytes.now) }
    ensures rest_unchanged { IfSome result (λ n. drop n to.new ≡ drop n to.old) }
    ensures unwritten { IfNone result (to.new ≡ to.old) }
{
    if to.len() < bytes.len() {
        return None;
    }
    let (front, _) = to.split_at_mut(bytes.len());
    front.copy_from_slice(bytes);
    Some(bytes.len())
}

/// Writes the message of the comment signature to the start of `message`: the data signature (`first`)
/// followed by the trusted comment. Returns its length, which is 64 bytes more than that of the comment. If
/// the buffer is too short, nothing is written.
pub fn write_comment_message(
    first: &[u8; 64],
    trusted: &[u8],
    message: &mut [u8],
) -> Result<usize, Misuse>
    // On success, the data signature followed by the trusted comment is at the start of the buffer, and the
    // rest of the buffer is unchanged. The only error is a buffer that is too short; then it is unchanged.
    ensures message { IfOk result (λ n. (n ≡ 64 + length trusted.now) × (n ≤ length message.new)
        × (take n message.new ≡ first.now ++ trusted.now)) }
    ensures rest_unchanged { IfOk result (λ n. drop n message.new ≡ drop n message.old) }
    ensures message_fits { OnOk result (64 + length trusted.now ≤ length message.old) }
    ensures refused { IfErr result
        (λ m. (m ≡ NoRoom) × (length message.old < 64 + length trusted.now) × (message.new ≡ message.old)) }
{
    if message.len() < 64 || message.len() - 64 < trusted.len() {
        return Err(Misuse::NoRoom);
    }
    minisign::write_comment_message(first, trusted, message);
    Ok(64 + trusted.len())
}

// Checks that the comments are read back unchanged, by this library and by Minisign 0.11.
fn check_comments(trusted: &str, untrusted: &str) -> Result<(), Misuse>
    ensures { MatchResult result (λ _. AreChosenReadBack (comments_of trusted.now untrusted.now)
        × AreReadByMinisign (comments_of trusted.now untrusted.now))
        (IsCommentMisuse (comments_of trusted.now untrusted.now)) }
{
    if !are_read_back(trusted, untrusted) {
        return Err(Misuse::BadComment);
    }
    if !are_read_by_minisign(trusted.as_bytes(), untrusted.as_bytes()) {
        return Err(Misuse::UnreadableComment);
    }
    Ok(())
}

// Returns true if Minisign 0.11 reads the comments back unchanged, provided that they have no line feeds,
// which `are_read_back` checks. Minisign reads the line of the untrusted comment into a buffer of 1,024
// bytes, and that of the trusted comment into one of 8,192. The buffer also holds the label (19 or 17 bytes),
// the line feed and a final zero, so the comments have at most 1,003 and 8,173 bytes. Minisign cuts a line at
// a zero byte (0) and at a carriage return (13).
fn are_read_by_minisign(trusted: &[u8], untrusted: &[u8]) -> bool
    ensures read { result ≡ true → AreReadByMinisign (comments_of trusted.now untrusted.now) }
    ensures unread { result ≡ false → ¬ (AreReadByMinisign (comments_of trusted.now untrusted.now)) }
{
    untrusted.len() < 1004
        && trusted.len() < 8174
        && !untrusted.contains(&0)
        && !trusted.contains(&0)
        && !untrusted.contains(&13)
        && !trusted.contains(&13)
}

// Returns true if this library reads the comments back unchanged: neither has a line feed (10), the untrusted
// comment does not end with a carriage return (13), and the trusted one does not begin or end with white
// space.
fn are_read_back(trusted: &str, untrusted: &str) -> bool
    ensures read_back { result ≡ true → AreChosenReadBack (comments_of trusted.now untrusted.now) }
    ensures unkept { result ≡ false → ¬ (AreChosenReadBack (comments_of trusted.now untrusted.now)) }
{
    !trusted.as_bytes().contains(&10)
        && !untrusted.as_bytes().contains(&10)
        && untrusted.as_bytes().last() != Some(&13)
        && trusted.trim() == trusted
}

// Returns the signature file, which has four lines, without checking the comments.
fn written(
    alloc: Global,
    key_id: &[u8; 8],
    first: &[u8; 64],
    second: &[u8; 64],
    trusted: &str,
    untrusted: &str,
) -> minisign::Result<String>
    ensures text { IfOk result (λ t. string_bytes t ≡ signature_text
        (signature_with_key_id key_id.now first.now)
        (comments_with_signature (comments_of trusted.now untrusted.now) second.now)) }
    ensures reads_back { AreChosenReadBack (comments_of trusted.now untrusted.now)
        → IfOk result (λ t. read_signature_box (string_bytes t)
        ≡ Ok (box_of_signatures key_id.now (comments_of trusted.now untrusted.now) first.now second.now)) }
    ensures only_out_of_memory { IfErr result (λ e. e ≡ Named OutOfMemory) }
{
    let signature_box = SignatureBox::from_parts(alloc, key_id, first, untrusted, trusted, second)?;
    signature_box.into_string(alloc)
}
