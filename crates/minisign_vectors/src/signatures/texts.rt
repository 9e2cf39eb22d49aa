//! Tests of signatures as base64, and of the less common calls that convert texts to boxes and
//! back.
//!
//! The expected base64 is from Python's base64 module.

use crate::display::displays_as;
use crate::signatures::calls::copy_text;
use minisign::{Result, Signature, SignatureBones, SignatureBox};
use minisign_base::faults::NamedFault::SignatureBoxIncomplete;
use minisign_fixtures::keys::{ABC_SECOND_HALF, KEY_ID, signature_record};
use minisign_fixtures::outcomes::Outcome::{self, Refused};
use minisign_fixtures::outcomes::{gives_record, gives_text, is_outcome};
use minisign_fixtures::texts::SIGNATURE_TEXT;
use std::alloc::Global;

// The second line of the precomputed text.
const SIGNED: &str =
    "RUQBAgMEBQYHCAAAAAAAAAAAAAAAAAAAAAAAAAAAAAAAAAAAAAAAAAAAnV06XOjtbnryLxgygHtgJg6o/+bp8Qy3qGtn2FWlYag=";

// The bytes whose base64 is the 64 characters of RFC 4648, section 4, in order.
const LETTERS: [u8; 48] = [
    0x00, 0x10, 0x83, 0x10, 0x51, 0x87, 0x20, 0x92, 0x8b, 0x30, 0xd3, 0x8f, 0x41, 0x14, 0x93, 0x51,
    0x55, 0x97, 0x61, 0x96, 0x9b, 0x71, 0xd7, 0x9f, 0x82, 0x18, 0xa3, 0x92, 0x59, 0xa7, 0xa2, 0x9a,
    0xab, 0xb2, 0xdb, 0xaf, 0xc3, 0x1c, 0xb3, 0xd3, 0x5d, 0xb7, 0xe3, 0x9e, 0xbb, 0xf3, 0xdf, 0xbf,
];

// Returns true if `Display` writes exactly these characters for the signature of a record.
fn displays_signature_as(alloc: Global, record: &[u8; 74], letters: &str) -> bool {
    let Ok(signature) = Signature::from_bytes(record) else {
        return false;
    };
    displays_as(alloc, &signature, letters)
}

// A signature is displayed as the second line of its text has it, and the characters of base64 are
// in the right order.
#[test]
fn signature_displays_as_base64(rt: HostRuntime) {
    let alloc = rt.alloc();
    let record = signature_record(b"ED", &KEY_ID, &ABC_SECOND_HALF);
    assert!(rt; displays_signature_as(alloc, &record, SIGNED));
    let mut record = [0u8; 74];
    record[..48].copy_from_slice(&LETTERS);
    let letters =
        "ABCDEFGHIJKLMNOPQRSTUVWXYZabcdefghijklmnopqrstuvwxyz0123456789+/AAAAAAAAAAAAAAAAAAAAAAAAAAAAAAAAAAA=";
    assert!(rt; displays_signature_as(alloc, &record, letters));
}

// Parses a text by the call that takes ownership of it.
fn parse_owned_text(alloc: Global) -> Result<SignatureBox> {
    let text = String::from_str(alloc, SIGNATURE_TEXT)?;
    SignatureBox::try_from_string(alloc, text)
}

// Returns true if this box gives its text as bytes and from a copy.
fn is_given_text(alloc: Global) -> bool {
    let Ok(read) = parse_owned_text(alloc) else {
        return false;
    };
    let written = gives_record(read.to_bytes(alloc), SIGNATURE_TEXT.as_bytes());
    let copied = gives_text(copy_text(alloc, &read), SIGNATURE_TEXT);
    written && copied
}

const INCOMPLETE: Outcome = Refused(SignatureBoxIncomplete);

// Returns true if a box of a bare signature has no text, neither as bytes nor from a copy.
fn has_no_text(alloc: Global) -> bool {
    let record = signature_record(b"ED", &KEY_ID, &ABC_SECOND_HALF);
    let Ok(bones) = SignatureBones::from_bytes(&record) else {
        return false;
    };
    let bare = SignatureBox::from_bones(bones);
    let bytes = is_outcome(bare.to_bytes(alloc), INCOMPLETE);
    let copied = is_outcome(copy_text(alloc, &bare), INCOMPLETE);
    bytes && copied
}

#[test]
fn converts_texts_to_bytes_and_copies(rt: HostRuntime) {
    assert!(rt; is_given_text(rt.alloc()));
    assert!(rt; has_no_text(rt.alloc()));
}
