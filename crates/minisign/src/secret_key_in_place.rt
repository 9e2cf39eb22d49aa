//! Parses the text of a secret key without allocating.

ghost use Rattle.std.specs.Prelude.{◌≡◌};
ghost use Rattle.minisign_base.specs.declared.faults.NamedFault.TheVariants.{SecretKeyNotBase64};
ghost use Rattle.minisign.specs.KeyTexts.{read_secret_key, read_secret_key_bytes, secret_key_of_bytes};
ghost use Rattle.minisign.specs.Texts.{base64_bytes, is_base64, map_ok, require};

use crate::base64_front::decode_front;
use crate::texts::next_line;
use minisign_base::{NamedFault, Result};

/// Parses the text of a secret key without decrypting it, and returns the 158 bytes of the key's record,
/// which `SecretKey::from_bytes` parses.
///
/// Errors come in this order: no first line, no second line, a second line that is not base64, fewer than
/// 158 bytes. Does not allocate.
pub fn read_secret_key(text: &str) -> Result<[u8; 158]>
    // The result depends only on the text: it is the bytes of the secret key in the text, as
    // `specs/KeyTexts` defines them, or the error of the first check that fails.
    ensures { read_secret_key text.now ≡ map_ok secret_key_of_bytes result }
{
    let mut lines = text.lines();
    let Some(_comment) = next_line(&mut lines) else {
        return Err(NamedFault::MissingSecretKeyComment.into());
    };
    let Some(encoded) = next_line(&mut lines) else {
        return Err(NamedFault::MissingEncodedSecretKey.into());
    };
    decode_record(encoded)
}

// Decodes the record from the second line and ignores later bytes. The buffer has one byte more
// than a record, because `decode_front` needs a multiple of 3.
fn decode_record(encoded: &str) -> Result<[u8; 158]>
    ensures { require (is_base64 encoded.now) SecretKeyNotBase64
        (read_secret_key_bytes (base64_bytes encoded.now))
        ≡ map_ok secret_key_of_bytes result }
{
    let mut decoded = [0u8; 159];
    let Some(count) = decode_front(encoded.as_bytes(), &mut decoded) else {
        return Err(NamedFault::SecretKeyNotBase64.into());
    };
    if count < 158 {
        return Err(NamedFault::RecordTooShort.into());
    }
    let (front, _) = decoded.split_at(158);
    let mut record = [0u8; 158];
    record.copy_from_slice(front);
    Ok(record)
}
