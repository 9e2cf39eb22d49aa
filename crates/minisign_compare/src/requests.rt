//! The requests: their names, and the number of words of each.

use crate::words::{times_in, word};

/// The subject of a request.
pub enum Request {
    /// A public key.
    PublicKey(PublicKeyRequest),
    /// A secret key.
    SecretKey(SecretKeyRequest),
    /// A signature or its text.
    Signature(SignatureRequest),
    /// A pair of keys.
    Pair(PairRequest),
    /// Adds a triple to the table: `table_add`.
    TableAdd,
    /// Clears the table: `table_clear`.
    TableClear,
    /// Makes a signature: `sign`.
    Sign,
    /// Verifies with the record of a key: `verify`.
    Verify,
    /// Verifies with the text of a key: `verify_texts`.
    VerifyTexts,
    /// A hash, a derived key, a limit, a number, the clock or a typed password.
    Block(BlockRequest),
}

/// The requests whose names begin with `pk_`.
pub enum PublicKeyRequest {
    FromBox,
    FromBase64,
    FromFile,
    FromBytes,
    FromSecretKey,
    ToBox,
    Equal,
}

/// The requests whose names begin with `sk_`.
pub enum SecretKeyRequest {
    Open,
    FromFile,
    Plain,
    FromBytes,
    ToBox,
    Equal,
}

/// The requests whose names begin with `sig_` or `bones_`. The Rust crate calls a bare signature
/// bones.
pub enum SignatureRequest {
    FromString,
    FromFile,
    FromBytes,
    UntrustedComment,
    TrustedComment,
    ToString,
}

/// The requests whose names begin with `gen_`.
pub enum PairRequest {
    Plain,
    Sealed,
    WritePlain,
    WriteSealed,
}

/// The other requests.
pub enum BlockRequest {
    Limits,
    Blake2b,
    Scrypt,
    Equal,
    Store,
    Load,
    Timestamp,
    Password,
}

// Each request, the number of words after its name, and its subject.
const REQUESTS: [(&str, u64, Request); 36] = [
    (
        "pk_from_box",
        1,
        Request::PublicKey(PublicKeyRequest::FromBox),
    ),
    (
        "pk_from_base64",
        1,
        Request::PublicKey(PublicKeyRequest::FromBase64),
    ),
    (
        "pk_from_file",
        1,
        Request::PublicKey(PublicKeyRequest::FromFile),
    ),
    (
        "pk_from_bytes",
        1,
        Request::PublicKey(PublicKeyRequest::FromBytes),
    ),
    (
        "pk_from_secret_key",
        1,
        Request::PublicKey(PublicKeyRequest::FromSecretKey),
    ),
    ("pk_to_box", 1, Request::PublicKey(PublicKeyRequest::ToBox)),
    ("pk_eq", 2, Request::PublicKey(PublicKeyRequest::Equal)),
    ("sk_open", 3, Request::SecretKey(SecretKeyRequest::Open)),
    (
        "sk_from_file",
        3,
        Request::SecretKey(SecretKeyRequest::FromFile),
    ),
    ("sk_plain", 1, Request::SecretKey(SecretKeyRequest::Plain)),
    (
        "sk_from_bytes",
        1,
        Request::SecretKey(SecretKeyRequest::FromBytes),
    ),
    ("sk_to_box", 2, Request::SecretKey(SecretKeyRequest::ToBox)),
    ("sk_eq", 2, Request::SecretKey(SecretKeyRequest::Equal)),
    (
        "sig_from_string",
        1,
        Request::Signature(SignatureRequest::FromString),
    ),
    (
        "sig_from_file",
        1,
        Request::Signature(SignatureRequest::FromFile),
    ),
    (
        "sig_from_bytes",
        1,
        Request::Signature(SignatureRequest::FromBytes),
    ),
    (
        "bones_untrusted",
        1,
        Request::Signature(SignatureRequest::UntrustedComment),
    ),
    (
        "bones_trusted",
        1,
        Request::Signature(SignatureRequest::TrustedComment),
    ),
    (
        "bones_to_string",
        1,
        Request::Signature(SignatureRequest::ToString),
    ),
    ("gen_plain", 1, Request::Pair(PairRequest::Plain)),
    ("gen_sealed", 3, Request::Pair(PairRequest::Sealed)),
    ("gen_write_plain", 3, Request::Pair(PairRequest::WritePlain)),
    (
        "gen_write_sealed",
        6,
        Request::Pair(PairRequest::WriteSealed),
    ),
    ("table_add", 3, Request::TableAdd),
    ("table_clear", 0, Request::TableClear),
    ("sign", 7, Request::Sign),
    ("verify", 6, Request::Verify),
    ("verify_texts", 6, Request::VerifyTexts),
    ("raw_scrypt_params", 3, Request::Block(BlockRequest::Limits)),
    ("blake2b", 3, Request::Block(BlockRequest::Blake2b)),
    ("scrypt", 6, Request::Block(BlockRequest::Scrypt)),
    ("fixed_time_eq", 2, Request::Block(BlockRequest::Equal)),
    ("store_u64_le", 1, Request::Block(BlockRequest::Store)),
    ("load_u64_le", 1, Request::Block(BlockRequest::Load)),
    ("unix_timestamp", 1, Request::Block(BlockRequest::Timestamp)),
    ("get_password", 1, Request::Block(BlockRequest::Password)),
];

// Hides the table from proofs, which would otherwise unfold all of it.
fn requests() -> &'static [(&'static str, u64, Request)] {
    &REQUESTS
}

/// Returns the request on a line, if there is one with this name and this number of words.
pub fn request_of(line: &str) -> Option<&'static Request> {
    let name = word(line, 0);
    let words = times_in(line.as_bytes(), b' ');
    for (known_name, count, request) in requests() {
        if *known_name == name && *count == words {
            return Some(request);
        }
    }
    None
}
