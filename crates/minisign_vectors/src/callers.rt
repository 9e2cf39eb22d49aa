//! Tests of the simple calls and of the example callers, with precomputed texts and the toy
//! scheme.

use crate::passwords::sign_with_password;
use crate::signatures::calls::{SIGNED_BY_DEFAULT, gives_comment, key_a, key_of};
use crate::tables::assert_row;
use minisign::{
    ErrorKind, PublicKey, Result, SecretKey, copy_verified, sign_bytes, verify_bytes,
    verify_in_place,
};
use minisign_base::devices::random_sources::FixedRandom;
use minisign_base::devices::sinks::VecSink;
use minisign_base::devices::sources::{ReaderSource, Rereader, SliceSource};
use minisign_base::faults::NamedFault::{
    GoingBackFailed, LegacyNotAccepted, MissingPublicKeyComment, MissingSignature,
    SignatureRefused, WrongPassword,
};
use minisign_base::toy::ToyScheme;
use minisign_examples::example::sign_and_verify;
use minisign_examples::rotating::{NewKey, check_with_new_key};
use minisign_examples::small_device::open_in_little_memory;
use minisign_examples::updating::check_update;
use minisign_fixtures::keys::{KEY_ID, PUBLIC_BYTES, public_record};
use minisign_fixtures::outcomes::Outcome::{self, Accepted, Refused};
use minisign_fixtures::outcomes::{gives_record, gives_text, is_outcome, matches_outcome};
use minisign_fixtures::texts::{KEY_TEXT, LEGACY_TEXT, SEALED, SECRET_TEXT, SIGNATURE_TEXT};
use std::alloc::Global;

const REFUSED: Outcome = Refused(SignatureRefused);

// The precomputed texts, which are valid for `abc` with the comment `t`.
const PRECOMPUTED: (&str, &str) = (KEY_TEXT, SIGNATURE_TEXT);

fn verified(alloc: Global, texts: (&str, &str), message: &[u8]) -> Result<String> {
    let (pk_text, sig_text) = texts;
    verify_bytes(alloc, &ToyScheme::new(), pk_text, sig_text, message)
}

// The texts of a key and of a signature, the message, whether legacy signatures are allowed, and
// the expected outcome.
type Verification = (&'static str, &'static str, &'static str, bool, Outcome);

const VERIFICATIONS: [Verification; 7] = [
    (KEY_TEXT, SIGNATURE_TEXT, "abc", false, Accepted),
    (KEY_TEXT, SIGNATURE_TEXT, "abd", false, REFUSED),
    (
        KEY_TEXT,
        LEGACY_TEXT,
        "abc",
        false,
        Refused(LegacyNotAccepted),
    ),
    (KEY_TEXT, LEGACY_TEXT, "abc", true, Accepted),
    (KEY_TEXT, LEGACY_TEXT, "abd", true, REFUSED),
    (
        KEY_TEXT,
        "untrusted comment: c",
        "abc",
        false,
        Refused(MissingSignature),
    ),
    ("", "", "abc", false, Refused(MissingPublicKeyComment)),
];

// Hides the table from proofs, which would otherwise unfold all of it.
fn verifications() -> &'static [Verification] {
    &VERIFICATIONS
}

// Returns true if `verify_in_place` has the expected outcome, with a buffer as long as the text of
// the signature.
fn verifies_in_place(alloc: Global, row: &Verification) -> bool {
    let (pk_text, sig_text, message, allow_legacy, expected) = *row;
    let Ok(mut room) = vec![in alloc; 0u8; sig_text.len()] else {
        return false;
    };
    let (toy, data) = (ToyScheme::new(), message.as_bytes());
    let answer = verify_in_place(&toy, pk_text, sig_text, data, allow_legacy, &mut room);
    match answer {
        Ok(comment) => expected == Accepted && comment == "t",
        Err(_) => matches_outcome(&answer, expected),
    }
}

// Returns true if all calls for this row have the expected outcome. `verify_bytes` always rejects
// legacy signatures.
fn verifies_as_expected(alloc: Global, row: &Verification) -> bool {
    let in_place = verifies_in_place(alloc, row);
    let (pk_text, sig_text, message, allow_legacy, expected) = *row;
    if allow_legacy {
        return in_place;
    }
    let answer = verified(alloc, (pk_text, sig_text), message.as_bytes());
    let has_comment = gives_comment(&answer, "t", expected);
    in_place && has_comment
}

// Verifying data in memory returns the trusted comment, or the expected error.
#[test]
fn returns_comment_if_signature_is_valid(rt: HostRuntime) {
    for row in verifications() {
        assert_row(&rt, verifies_as_expected(rt.alloc(), row), row);
    }
}

// Returns true if copying with the precomputed texts has this outcome and writes these bytes.
fn is_copied<R: Rereader>(alloc: Global, data: &mut R, expected: Outcome, left: &[u8]) -> bool {
    let mut out = VecSink::new(alloc);
    let toy = ToyScheme::new();
    let answer = copy_verified(alloc, &toy, KEY_TEXT, SIGNATURE_TEXT, data, &mut out);
    let has_comment = gives_comment(&answer, "t", expected);
    has_comment && out.as_slice() == left
}

// A source that cannot go back is rejected.
#[test]
fn copies_only_valid_data(rt: HostRuntime) {
    let alloc = rt.alloc();
    let copied = is_copied(alloc, &mut SliceSource::new(b"abc"), Accepted, b"abc");
    let rejected = is_copied(alloc, &mut SliceSource::new(b"abd"), REFUSED, b"");
    let mut read_once = ReaderSource::new(b"abc".as_slice());
    let unmarked = is_copied(alloc, &mut read_once, Refused(GoingBackFailed), b"");
    assert!(rt; copied && rejected && unmarked);
}

/// Signs the bytes with the key in a text, with random bytes that are all zero.
pub fn signed_with(
    alloc: Global,
    (sk_text, password): (&str, &str),
    message: &[u8],
    comment: &str,
) -> Result<String> {
    let sk = key_of(alloc, sk_text, password)?;
    let zeros = [0u8; 128];
    let mut random = FixedRandom::new(&zeros);
    let toy = ToyScheme::new();
    sign_bytes(alloc, &toy, &sk, message, Some(comment), &mut random, 0)
}

// Returns true if the key in the text signs `abc` as precomputed.
fn signs(alloc: Global, sk_text: &str) -> bool {
    let text = signed_with(alloc, (sk_text, "password"), b"abc", "t");
    gives_text(text, SIGNED_BY_DEFAULT)
}

// A key that was never encrypted and a decrypted one make the same signature.
#[test]
fn signs_bytes_with_each_open_key(rt: HostRuntime) {
    assert!(rt; signs(rt.alloc(), SECRET_TEXT));
    assert!(rt; signs(rt.alloc(), SEALED));
}

fn opened_in_little(alloc: Global, password: &str) -> Result<SecretKey> {
    open_in_little_memory(alloc, SEALED, password)
}

fn record(alloc: Global, opened: Result<SecretKey>) -> Result<Vec<u8>> {
    opened?.to_bytes(alloc)
}

// Returns true if decrypting in little memory gives the same key.
fn opens_to_same_key(alloc: Global) -> bool {
    let Ok(whole) = record(alloc, key_of(alloc, SEALED, "password")) else {
        return false;
    };
    gives_record(record(alloc, opened_in_little(alloc, "password")), &whole)
}

// A wrong password gives the same error.
#[test]
fn opens_same_key_in_little_memory(rt: HostRuntime) {
    let alloc = rt.alloc();
    assert!(rt; opens_to_same_key(alloc));
    assert!(rt; is_outcome(key_of(alloc, SEALED, "passwore"), Refused(WrongPassword)));
    assert!(rt; is_outcome(opened_in_little(alloc, "passwore"), Refused(WrongPassword)));
}

/// Checks the update under this name.
pub fn checked(alloc: Global, texts: (&str, &str), update: &[u8], name: &str) -> Result<()> {
    let (pk_text, sig_text) = texts;
    check_update(alloc, &ToyScheme::new(), pk_text, sig_text, update, name)
}

// The update, its name and the expected outcome. `None` stands for the error that the example
// caller itself makes for another name. It is not a named error.
type Update = (&'static str, &'static str, Option<Outcome>);

const UPDATES: [Update; 6] = [
    ("abc", "t", Some(Accepted)),
    ("abc", "T", None),
    ("abc", "", None),
    ("abc", "t ", None),
    ("abc", "tt", None),
    ("abd", "t", Some(REFUSED)),
];

// Hides the table from proofs, which would otherwise unfold all of it.
fn updates() -> &'static [Update] {
    &UPDATES
}

// Returns true if the update is rejected because of its name, with the error that the example
// caller itself makes.
fn is_refused_for_its_name(answer: &Result<()>) -> bool {
    match answer {
        Ok(()) => false,
        Err(fault) => fault.named().is_none() && *fault.kind() == ErrorKind::Verify,
    }
}

// Returns true if checking the update has the expected outcome.
fn is_checked_as_expected(alloc: Global, row: &Update) -> bool {
    let (update, name, expected) = *row;
    let answer = checked(alloc, PRECOMPUTED, update.as_bytes(), name);
    match expected {
        Some(outcome) => matches_outcome(&answer, outcome),
        None => is_refused_for_its_name(&answer),
    }
}

// An update is accepted only under the name that its trusted comment gives.
#[test]
fn accepts_update_only_under_its_name(rt: HostRuntime) {
    for row in updates() {
        assert_row(&rt, is_checked_as_expected(rt.alloc(), row), row);
    }
}

// Returns true if checking the update with a new key has this outcome. `sig_text` is the old key's
// signature of the new key's text.
fn is_checked(alloc: Global, sig_text: &str, update: &[u8], expected: Outcome) -> bool {
    let new_key = NewKey {
        pk_text: KEY_TEXT,
        sig_text,
    };
    let toy = ToyScheme::new();
    let answer = check_with_new_key(alloc, &toy, KEY_TEXT, new_key, SIGNATURE_TEXT, update);
    matches_outcome(&answer, expected)
}

// Returns true if checking the update with a new key, whose text the old key has signed, has this
// outcome.
fn new_key_gives_expected(alloc: Global, update: &[u8], expected: Outcome) -> bool {
    let old = (SECRET_TEXT, "");
    let text = signed_with(alloc, old, KEY_TEXT.as_bytes(), "key of 2027");
    let Ok(text) = text else {
        return false;
    };
    is_checked(alloc, text.as_str(), update, expected)
}

// A new key is accepted only if the old key signed its text.
#[test]
fn accepts_new_key_only_if_old_key_signed_it(rt: HostRuntime) {
    assert!(rt; new_key_gives_expected(rt.alloc(), b"abc", Accepted));
    assert!(rt; new_key_gives_expected(rt.alloc(), b"abd", REFUSED));
    assert!(rt; is_checked(rt.alloc(), SIGNATURE_TEXT, b"abc", REFUSED));
}

// Signs `abc` with the encrypted key under a password, with random bytes that are all zero.
fn signed_under(alloc: Global, password: &str) -> Result<String> {
    let password = String::from_str(alloc, password)?;
    let zeros = [0u8; 128];
    let mut random = FixedRandom::new(&zeros);
    let toy = ToyScheme::new();
    sign_with_password(alloc, &toy, SEALED, password, b"abc", &mut random, 7)
}

// Returns true if the signature is valid under the key's public key, with the time as the comment.
fn signature_verifies(alloc: Global) -> bool {
    let Ok(text) = signed_under(alloc, "password") else {
        return false;
    };
    let comment = verified(alloc, (KEY_TEXT, text.as_str()), b"abc");
    gives_text(comment, "timestamp:7")
}

// With a wrong password, nothing is signed.
#[test]
fn signature_of_encrypted_key_is_valid(rt: HostRuntime) {
    assert!(rt; signature_verifies(rt.alloc()));
    assert!(rt; is_outcome(signed_under(rt.alloc(), "passwore"), Refused(WrongPassword)));
}

/// Runs the example caller on `abc` with key A and these bytes of a public key.
pub fn example(alloc: Global, public_bytes: &[u8; 32]) -> Result<String> {
    let sk = key_a()?;
    let pk = PublicKey::from_bytes(&public_record(&KEY_ID, public_bytes))?;
    let mut random = FixedRandom::new(&[0; 128]);
    sign_and_verify(
        alloc,
        &ToyScheme::new(),
        &sk,
        &pk,
        b"abc",
        &mut random,
        1555779966,
    )
}

// The text that the example returns for key A's own public key.
const EXAMPLE_TEXT: &str =
    "untrusted comment: signature from rsign secret key\nRUQBAgMEBQYHCAAAAAAAAAAAAAAAAAAAAAAAAAAAAAAAAAAAAAAAAAAAnV06XOjtbnryLxgygHtgJg6o/+bp8Qy3qGtn2FWlYag=\ntrusted comment: timestamp:1555779966\nAAAAAAAAAAAAAAAAAAAAAAAAAAAAAAAAAAAAAAAAAACzbg1jwcNVTdhPc13vFA1LbcuTirOrVu3yMT2CD/878g==\n";

// The example succeeds with the matching public key and fails with another one.
#[test]
fn example_accepts_only_the_matching_key(rt: HostRuntime) {
    let alloc = rt.alloc();
    assert!(rt; gives_text(example(alloc, &PUBLIC_BYTES), EXAMPLE_TEXT));
    assert!(rt; is_outcome(example(alloc, &[0x5b; 32]), REFUSED));
}
