//! Tests that calls give the right result or out of memory, whichever allocation fails. With enough
//! memory each call succeeds. `tests/library/failing_allocations.py` runs each test once for each of its
//! allocations, which then fails. A sink that is a growing buffer fails if the buffer cannot grow, so
//! a call with such a sink may also return `WritingFailed`.

use crate::callers::example;
use crate::keys::refused_allocations::typed;
use crate::signatures::calls::{
    COPYING, copy_text, has_text, key_a, read_box, signed_from, signed_text, text_has_comments,
    verified_texts,
};
use minisign::{PublicKey, Result, SignatureBones, SignatureBox};
use minisign_base::devices::random_sources::FixedRandom;
use minisign_base::devices::sinks::VecSink;
use minisign_base::devices::sources::SliceSource;
use minisign_base::prompt::Prompt;
use minisign_fixtures::devices::sinks::Counting;
use minisign_fixtures::keys::{ABC_SECOND_HALF, KEY_ID, PUBLIC_BYTES, signature_record};
use minisign_fixtures::outcomes::{check_holds_or_out_of_memory, check_holds_or_unwritten};
use minisign_fixtures::texts::{
    KEY_TEXT, LEGACY_TEXT, SEALED, SECRET_TEXT, SIGNATURE_TEXT, STATUS_LINES,
};
use std::alloc::Global;

// The random bytes of the precomputed signatures.
const ZEROS: [u8; 128] = [0; 128];

// Returns true if verifying `abc` with the signature text under key A writes 60 bytes, the status
// lines, to the status sink and three bytes, the data, to the output.
fn verifies_and_copies(alloc: Global, sig_text: &str) -> Result<bool> {
    let mut data = SliceSource::new(b"abc");
    let mut status = Counting { bytes: 0 };
    let mut out = Counting { bytes: 0 };
    let texts = (KEY_TEXT, sig_text);
    verified_texts(alloc, texts, &mut data, COPYING, &mut status, &mut out)?;
    Ok(status.bytes == 60 && out.bytes == 3)
}

// Returns true if signing with a secret key text and a typed password gives the precomputed signature
// text.
fn signs_with_typed_password(alloc: Global, sk_text: &str) -> Result<bool> {
    let mut prompt = typed(b"password\n");
    let mut data = SliceSource::new(b"abc");
    let mut random = FixedRandom::new(&ZEROS);
    let text = signed_text(alloc, sk_text, None, &mut prompt, &mut data, &mut random);
    has_text(text, SIGNATURE_TEXT)
}

// Signs `abc` with key A at the time 7, with the default comments, and verifies the signature under
// the public key before returning it.
fn sign_with_defaults(alloc: Global) -> Result<SignatureBox> {
    let secret = key_a()?;
    let public = PublicKey::from_secret_key(&secret)?;
    let mut data = SliceSource::new(b"abc");
    let mut random = FixedRandom::new(&ZEROS);
    signed_from(alloc, Some(&public), &secret, &mut data, &mut random, 7)
}

// Returns true if a copy of the signature box of `sign_with_defaults`, written as text, has the default
// trusted comment.
fn signs_with_default_comment(alloc: Global) -> Result<bool> {
    let made = sign_with_defaults(alloc)?;
    let text = copy_text(alloc, &made)?;
    text_has_comments(alloc, text.as_str(), "timestamp:7")
}

// Returns true if the bare signature of the box in the text has the precomputed record.
fn has_record(alloc: Global, sig_text: &str) -> Result<bool> {
    let signature_box = read_box(alloc, sig_text)?;
    let bytes = SignatureBones::from(signature_box).to_bytes(alloc)?;
    let record = signature_record(b"ED", &KEY_ID, &ABC_SECOND_HALF);
    Ok(bytes.as_slice() == record.as_slice())
}

// Returns true if the example caller, which signs and verifies with raw keys, gives the precomputed
// signature.
fn example_signs_and_verifies(alloc: Global) -> Result<bool> {
    let sig_text = example(alloc, &PUBLIC_BYTES)?;
    if !text_has_comments(alloc, sig_text.as_str(), "timestamp:1555779966")? {
        return Ok(false);
    }
    has_record(alloc, sig_text.as_str())
}

// Returns true if signing with an encrypted key gives the precomputed signature text, and the prompt
// writes 81 bytes to its growing buffer: the texts of asking for a password and decrypting.
fn signs_with_growing_prompt(alloc: Global) -> Result<bool> {
    let mut prompt = Prompt::new(SliceSource::new(b"password\n"), VecSink::new(alloc));
    let mut data = SliceSource::new(b"abc");
    let mut random = FixedRandom::new(&ZEROS);
    let text = signed_text(alloc, SEALED, None, &mut prompt, &mut data, &mut random);
    let is_signed = has_text(text, SIGNATURE_TEXT)?;
    Ok(is_signed && prompt.writer.as_slice().len() == 81)
}

// Returns true if growing buffers receive the status and the output.
fn copies_into_growing_buffers(alloc: Global) -> Result<bool> {
    let mut data = SliceSource::new(b"abc");
    let mut status = VecSink::new(alloc);
    let mut out = VecSink::new(alloc);
    let texts = (KEY_TEXT, SIGNATURE_TEXT);
    verified_texts(alloc, texts, &mut data, COPYING, &mut status, &mut out)?;
    Ok(status.as_slice() == STATUS_LINES && out.as_slice() == b"abc".as_slice())
}

// Returns true if each call that derives no key gives the right result or out of memory.
fn calls_without_kdf_hold(alloc: Global) -> bool {
    let copied_prehashed = check_holds_or_out_of_memory(verifies_and_copies(alloc, SIGNATURE_TEXT));
    let legacy = check_holds_or_out_of_memory(verifies_and_copies(alloc, LEGACY_TEXT));
    let unsealed = check_holds_or_out_of_memory(signs_with_typed_password(alloc, SECRET_TEXT));
    let made_signature = check_holds_or_out_of_memory(signs_with_default_comment(alloc));
    let verified = check_holds_or_out_of_memory(example_signs_and_verifies(alloc));
    copied_prehashed && legacy && unsealed && made_signature && verified
}

#[test]
fn signs_and_verifies_or_reports_out_of_memory(rt: HostRuntime) {
    assert!(rt; calls_without_kdf_hold(rt.alloc()));
}

#[test]
fn signs_with_encrypted_key_or_reports_out_of_memory(rt: HostRuntime) {
    assert!(rt; check_holds_or_out_of_memory(signs_with_typed_password(rt.alloc(), SEALED)));
}

#[test]
fn signs_into_growing_buffers_or_reports_out_of_memory(rt: HostRuntime) {
    assert!(rt; check_holds_or_unwritten(signs_with_growing_prompt(rt.alloc())));
    assert!(rt; check_holds_or_unwritten(copies_into_growing_buffers(rt.alloc())));
}
