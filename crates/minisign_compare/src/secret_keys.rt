//! Answers requests for secret keys.

use crate::devices::typed_prompt;
use crate::refusals::Refusal;
use crate::replies::Reply;
use crate::requests::SecretKeyRequest;
use crate::words::{bytes_of, text_in, text_or_none_of, typed_lines_of, word};
use minisign::base::devices::sinks::VecSink;
use minisign::base::devices::sources::SliceSource;
use minisign::base::prompt::Prompt;
use minisign::{SecretKey, SecretKeyBox};
use std::alloc::Global;

/// Answers a request whose name begins with `sk_`.
pub fn answer(
    rt: &HostRuntime,
    request: &SecretKeyRequest,
    line: &str,
    reply: &mut Reply,
) -> Result<(), Refusal> {
    let bytes = bytes_of(rt.alloc(), word(line, 1))?;
    match request {
        SecretKeyRequest::Open | SecretKeyRequest::FromFile => {
            answer_decrypted(rt, request, text_in(&bytes)?, line, reply)
        }
        SecretKeyRequest::Plain => answer_unencrypted(rt.alloc(), &bytes, reply),
        SecretKeyRequest::ToBox => answer_text(rt.alloc(), &bytes, line, reply),
        SecretKeyRequest::Equal => answer_equal(rt.alloc(), &bytes, line, reply),
        SecretKeyRequest::FromBytes => answer_record(rt.alloc(), &bytes, reply),
    }
}

// Decrypts the key in a text or in a file, with typed lines for the prompt, and adds the fields of the key.
fn answer_decrypted(
    rt: &HostRuntime,
    request: &SecretKeyRequest,
    text: &str,
    line: &str,
    reply: &mut Reply,
) -> Result<(), Refusal> {
    let typed = typed_lines_of(rt.alloc(), word(line, 3))?;
    let password = text_or_none_of(rt.alloc(), word(line, 2))?;
    let mut prompt = typed_prompt(rt.alloc(), &typed);
    let key = decrypt(rt, request, text, password, &mut prompt);
    reply.end_prompt(rt.alloc(), prompt);
    show_returned(rt.alloc(), key, reply);
    Ok(())
}

// Calls the library to decrypt a key.
fn decrypt(
    rt: &HostRuntime,
    request: &SecretKeyRequest,
    text: &str,
    password: Option<String>,
    prompt: &mut Prompt<SliceSource<'_>, VecSink>,
) -> minisign::Result<SecretKey> {
    match request {
        SecretKeyRequest::FromFile => {
            SecretKey::from_file(rt, rt.alloc(), text, password, prompt)
        }
        _ => decrypt_text(rt.alloc(), text, password, prompt),
    }
}

// Decrypts the key in a text with `into_secret_key`.
fn decrypt_text(
    alloc: Global,
    text: &str,
    password: Option<String>,
    prompt: &mut Prompt<SliceSource<'_>, VecSink>,
) -> minisign::Result<SecretKey> {
    let key_box = SecretKeyBox::from_string(alloc, text)?;
    key_box.into_secret_key(alloc, password, prompt)
}

fn answer_unencrypted(alloc: Global, bytes: &[u8], reply: &mut Reply) -> Result<(), Refusal> {
    let text = text_in(bytes)?;
    show_returned(alloc, unencrypted_key(alloc, text), reply);
    Ok(())
}

// Parses the text of a key that was never encrypted.
fn unencrypted_key(alloc: Global, text: &str) -> minisign::Result<SecretKey> {
    SecretKeyBox::from_string(alloc, text)?.into_unencrypted_secret_key()
}

fn answer_record(alloc: Global, bytes: &[u8], reply: &mut Reply) -> Result<(), Refusal> {
    let key = SecretKey::from_bytes(bytes)?;
    show(alloc, &key, reply);
    Ok(())
}

fn answer_text(alloc: Global, bytes: &[u8], line: &str, reply: &mut Reply) -> Result<(), Refusal> {
    let comment = text_or_none_of(alloc, word(line, 2))?;
    reply.returned_text("text", text_of_record(alloc, bytes, comment.as_deref()));
    Ok(())
}

// Parses the record of a secret key and returns its text.
fn text_of_record(alloc: Global, bytes: &[u8], comment: Option<&str>) -> minisign::Result<String> {
    let key = SecretKey::from_bytes(bytes)?;
    Ok(key.to_box(alloc, comment)?.into_string())
}

fn answer_equal(alloc: Global, bytes: &[u8], line: &str, reply: &mut Reply) -> Result<(), Refusal> {
    let first = SecretKey::from_bytes(bytes)?;
    let second = key_of(alloc, word(line, 2))?;
    reply.fields.flag("eq", first == second);
    Ok(())
}

/// Parses the record of a secret key.
pub fn key_of(alloc: Global, word: &str) -> Result<SecretKey, Refusal> {
    let bytes = bytes_of(alloc, word)?;
    Ok(SecretKey::from_bytes(&bytes)?)
}

// Adds the fields of the secret key that a call returned, or stores its error.
fn show_returned(alloc: Global, returned: minisign::Result<SecretKey>, reply: &mut Reply) {
    match returned {
        Ok(key) => show(alloc, &key, reply),
        Err(fault) => reply.keep(fault),
    }
}

// Adds the fields of a secret key.
fn show(alloc: Global, key: &SecretKey, reply: &mut Reply) {
    reply.returned_bytes("raw", key.to_bytes(alloc));
    reply.fields.bytes("keynum", key.keynum());
    reply.fields.flag("encrypted", key.is_encrypted());
    reply.returned_text("debug", debug_output(alloc, key));
}

// Returns the debug output of a secret key.
fn debug_output(alloc: Global, key: &SecretKey) -> minisign::Result<String> {
    Ok(format!(in alloc; "{key:?}")?)
}
