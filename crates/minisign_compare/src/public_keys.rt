//! Answers requests for public keys.

use crate::refusals::Refusal;
use crate::replies::Reply;
use crate::requests::PublicKeyRequest;
use crate::words::{bytes_of, text_of, word};
use minisign::{PublicKey, PublicKeyBox, SecretKey};
use std::alloc::Global;

/// Answers a request whose name begins with `pk_`.
pub fn answer(
    rt: &HostRuntime,
    request: &PublicKeyRequest,
    line: &str,
    reply: &mut Reply,
) -> Result<(), Refusal> {
    let alloc = rt.alloc();
    let key = key_of_request(rt, request, word(line, 1))?;
    match request {
        PublicKeyRequest::ToBox => reply.returned_text("text", text_of_key(alloc, &key)),
        PublicKeyRequest::Equal => {
            let second = key_of(alloc, word(line, 2))?;
            reply.fields.flag("eq", key == second);
        }
        _ => show(alloc, &key, reply),
    }
    Ok(())
}

// Parses the first word of a request in the way that the request names, and returns the public key.
fn key_of_request(
    rt: &HostRuntime,
    request: &PublicKeyRequest,
    word: &str,
) -> Result<PublicKey, Refusal> {
    match request {
        PublicKeyRequest::FromBox | PublicKeyRequest::FromBase64 | PublicKeyRequest::FromFile =>
            key_from_text(rt, request, word),
        PublicKeyRequest::FromSecretKey => key_of_secret(rt.alloc(), word),
        _ => key_of(rt.alloc(), word),
    }
}

// Parses a key from the text of a key file, from its base64, or from the file with this name.
fn key_from_text(
    rt: &HostRuntime,
    request: &PublicKeyRequest,
    word: &str,
) -> Result<PublicKey, Refusal> {
    let text = text_of(rt.alloc(), word)?;
    let key = match request {
        PublicKeyRequest::FromBox => key_by_from_box(rt.alloc(), text.as_str()),
        PublicKeyRequest::FromBase64 => PublicKey::from_base64(rt.alloc(), text.as_str()),
        _ => PublicKey::from_file(rt, rt.alloc(), text.as_str()),
    };
    Ok(key?)
}

/// Parses the word as a key text, with `PublicKeyBox::into_public_key`.
pub fn key_of_text(alloc: Global, word: &str) -> Result<PublicKey, Refusal> {
    let text = text_of(alloc, word)?;
    Ok(key_by_into_public_key(alloc, text.as_str())?)
}

// Parses a key text with `PublicKeyBox::into_public_key`.
fn key_by_into_public_key(alloc: Global, text: &str) -> minisign::Result<PublicKey> {
    PublicKeyBox::from_string(alloc, text)?.into_public_key(alloc)
}

// Parses a key text with `PublicKey::from_box`.
fn key_by_from_box(alloc: Global, text: &str) -> minisign::Result<PublicKey> {
    PublicKey::from_box(alloc, PublicKeyBox::from_string(alloc, text)?)
}

// Parses the record of a secret key and returns its public key.
fn key_of_secret(alloc: Global, word: &str) -> Result<PublicKey, Refusal> {
    let bytes = bytes_of(alloc, word)?;
    Ok(public_key_of(&bytes)?)
}

// Returns the public key of the secret key with this record.
fn public_key_of(bytes: &[u8]) -> minisign::Result<PublicKey> {
    PublicKey::from_secret_key(&SecretKey::from_bytes(bytes)?)
}

/// Parses the record of a public key.
pub fn key_of(alloc: Global, word: &str) -> Result<PublicKey, Refusal> {
    let bytes = bytes_of(alloc, word)?;
    Ok(PublicKey::from_bytes(&bytes)?)
}

// Returns the text of a key.
fn text_of_key(alloc: Global, key: &PublicKey) -> minisign::Result<String> {
    Ok(key.to_box(alloc)?.into_string())
}

// Adds the fields of a public key.
fn show(alloc: Global, key: &PublicKey, reply: &mut Reply) {
    reply.returned_bytes("raw", key.to_bytes(alloc));
    reply.fields.bytes("keynum", key.keynum());
    reply.returned_text("base64", key.to_base64(alloc));
}
