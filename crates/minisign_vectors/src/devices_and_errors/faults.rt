//! Tests of the texts of errors, and of the conversions from errors of other crates. The test cases with the
//! number, the kind and the text of every named error are in `tests/rows/named_errors.txt`.

use crate::display::displays_as;
use crate::tables::assert_row;
use base64::{DecodeAllocError, DecodeError};
use minisign_base::errors::ErrorKind::Io;
use minisign_base::errors::PError;
use minisign_base::faults::NamedFault::{
    self, DifferentKeyIds, EncryptedKeyRefused, FormattingFailed, InputOrOutputFailed,
    InvalidOutputLength, InvalidParameters, InvalidUtf8, OutOfMemory, ReadingFailed,
    RefusedByGivenKey, SecretKeyNotBase64,
};
use minisign_base::faults::TEXT_ROOM;
use minisign_fixtures::keys::{KEY_ID, OTHER_KEY_ID};
use minisign_fixtures::outcomes::Outcome::Refused;
use minisign_fixtures::outcomes::matches_outcome;
use minisign_kdf::{InvalidOutputLen, InvalidParams, KdfError};
use std::alloc::{AllocError, AllocFailed, Global};
use std::{fmt, io};

const ENCRYPTED: &str =
    "Cannot sign with an encrypted secret key. The key must be decrypted first. Options include: SecretKeyBox::into_secret_key(password), SecretKey::from_box(box, password), SecretKey::from_file(path, password), or use KeyPair::generate_unencrypted_keypair() for passwordless keys.";

// Errors and their texts: a constant text, the longest text, a text with one key ID, and a text with two.
const ERROR_TEXTS: [(NamedFault, &str); 4] = [
    (OutOfMemory, "out of memory"),
    (EncryptedKeyRefused, ENCRYPTED),
    (
        RefusedByGivenKey { key: OTHER_KEY_ID },
        "Could not verify signature with the provided public key ID: E7620F1842B4E81F",
    ),
    (
        DifferentKeyIds {
            signature: KEY_ID,
            key: OTHER_KEY_ID,
        },
        "Signature key id: 0807060504030201 is different from public key: E7620F1842B4E81F",
    ),
];

// Hides the table from proofs, which would otherwise unfold all of it.
fn error_texts() -> &'static [(NamedFault, &'static str)] {
    &ERROR_TEXTS
}

// Returns true if the error has this text, without allocating.
fn writes_text(fault: &PError, text: &str) -> bool {
    let mut room = [0u8; TEXT_ROOM];
    fault.text(&mut room) == text.as_bytes()
}

// Returns true if a named error has this text, and an error made from it has the same text and the same name.
fn displays_text(alloc: Global, row: &(NamedFault, &str)) -> bool {
    let (named, text) = *row;
    let name_displays_text = displays_as(alloc, &named, text);
    let fault = PError::from(named);
    let error_displays_text = displays_as(alloc, &fault, text);
    let writes_same_text = writes_text(&fault, text);
    name_displays_text && error_displays_text && writes_same_text && fault.named() == Some(named)
}

#[test]
fn named_errors_display_their_text(rt: HostRuntime) {
    for row in error_texts() {
        assert_row(&rt, displays_text(rt.alloc(), row), row);
    }
}

fn has_name(fault: PError, named: NamedFault) -> bool {
    fault.named() == Some(named)
}

#[test]
fn errors_of_std_convert_to_named_errors(rt: HostRuntime) {
    let device = io::Error::from(io::ErrorKind::Other);
    let from_alloc_error = has_name(PError::from(AllocError), OutOfMemory);
    let from_alloc_failed = has_name(PError::from(AllocFailed { value: 0u8 }), OutOfMemory);
    let from_io_error = has_name(PError::from(device), InputOrOutputFailed);
    let from_fmt_error = has_name(PError::from(fmt::Error), FormattingFailed);
    assert!(rt; from_alloc_error && from_alloc_failed && from_io_error && from_fmt_error);
    assert!(rt; conversion_gives_invalid_utf8(rt.alloc()));
}

// Returns true if the error of converting the byte 0xff to a text becomes `InvalidUtf8`.
fn conversion_gives_invalid_utf8(alloc: Global) -> bool {
    let Ok(bytes) = vec![in alloc; 0xffu8; 1] else {
        return false;
    };
    match String::from_utf8(bytes) {
        Ok(_) => false,
        Err(fault) => has_name(PError::from(fault), InvalidUtf8),
    }
}

#[test]
fn errors_of_kdf_and_base64_convert_to_named_errors(rt: HostRuntime) {
    let params = has_name(PError::from(InvalidParams), InvalidParameters);
    let len = has_name(PError::from(InvalidOutputLen), InvalidOutputLength);
    let len_of_key = has_name(
        PError::from(KdfError::InvalidOutputLen),
        InvalidOutputLength,
    );
    let memory = has_name(PError::from(KdfError::OutOfMemory), OutOfMemory);
    assert!(rt; params && len && len_of_key && memory);
    let padding = DecodeAllocError::DecodeError(DecodeError::InvalidPadding);
    let is_not_base64 = has_name(PError::from(padding), SecretKeyNotBase64);
    let memory = has_name(PError::from(DecodeAllocError::OutOfMemory), OutOfMemory);
    assert!(rt; is_not_base64 && memory);
}

// Returns true if the error has the text and the kind of `ReadingFailed` but is not a named error.
fn has_text_without_name(alloc: Global, fault: PError) -> bool {
    let has_text = displays_as(alloc, &fault, "reading failed");
    let is_unnamed_io = *fault.kind() == Io && fault.named() == None;
    let answer: Result<(), PError> = Err(fault);
    let named = matches_outcome(&answer, Refused(ReadingFailed));
    has_text && is_unnamed_io && !named
}

// Returns true if an error that a caller makes with the text of `ReadingFailed` is not a named error.
fn custom_error_has_no_name(alloc: Global) -> bool {
    let Ok(text) = String::from_str(alloc, "reading failed") else {
        return false;
    };
    has_text_without_name(alloc, PError::new(Io, text))
}

// An error is not a named error just because it has the text of one.
#[test]
fn errors_of_callers_have_no_name(rt: HostRuntime) {
    assert!(rt; custom_error_has_no_name(rt.alloc()));
    assert!(rt; has_text_without_name(rt.alloc(), PError::fixed(Io, "reading failed")));
}
