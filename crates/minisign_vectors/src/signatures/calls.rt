//! Signs and verifies for all tests, and compares results and the contents of sinks.

use minisign::{
    Prompt, PublicKey, RandomSource, Rereader, Result, SecretKey, SignatureBox, Sink, Source,
    ToyScheme, VerifyOptions, open_with_password, sign, sign_texts, verify, verify_texts,
};
use minisign_fixtures::devices::sinks::LimitedSink;
use minisign_fixtures::keys::{CHECKSUM, KEY_ID, PUBLIC_BYTES, public_record, secret_record};
use minisign_fixtures::outcomes::Outcome::{self, Accepted};
use minisign_fixtures::outcomes::{is_outcome, matches_outcome};
use std::alloc::Global;

/// The precomputed text of the signature of `abc`, with the default untrusted comment.
pub const SIGNED_BY_DEFAULT: &str =
    "untrusted comment: signature from rsign secret key\nRUQBAgMEBQYHCAAAAAAAAAAAAAAAAAAAAAAAAAAAAAAAAAAAAAAAAAAAnV06XOjtbnryLxgygHtgJg6o/+bp8Qy3qGtn2FWlYag=\ntrusted comment: t\nAAAAAAAAAAAAAAAAAAAAAAAAAAAAAAAAAAAAAAAAAACzB2AGsrc0IKh1QmjaITp8VPKlvLOrVu3yMT2CD/878g==\n";

/// Status lines are written, the data is copied, and legacy signatures are accepted.
pub const COPYING: VerifyOptions = VerifyOptions {
    quiet: false,
    output: true,
    allow_legacy: true,
};

/// The expected result of verifying: the outcome, the status lines, and the copy.
#[derive(Clone, Copy)]
pub struct Expected<'a> {
    pub outcome: Outcome,
    pub status_lines: &'a [u8],
    pub copied: &'a [u8],
}

/// The sinks for verifying.
#[derive(Drop)]
pub struct Sinks {
    pub status: LimitedSink,
    pub out: LimitedSink,
}

/// Returns sinks that accept everything.
pub fn ample(alloc: Global) -> Sinks {
    Sinks {
        status: LimitedSink::new(alloc, usize::MAX),
        out: LimitedSink::new(alloc, usize::MAX),
    }
}

/// Returns true if the outcome and the contents of the sinks are as expected.
fn has_expected_result(answer: Result<()>, sinks: &Sinks, expected_result: Expected) -> bool {
    let matches = is_outcome(answer, expected_result.outcome);
    matches
        && sinks.status.as_slice() == expected_result.status_lines
        && sinks.out.as_slice() == expected_result.copied
}

/// Verifies the data with two texts.
pub fn verified_texts<R: Rereader, W: Sink, O: Sink>(
    alloc: Global,
    texts: (&str, &str),
    data: &mut R,
    options: VerifyOptions,
    status: &mut W,
    out: &mut O,
) -> Result<()> {
    let (pk_text, sig_text) = texts;
    verify_texts(
        alloc,
        &ToyScheme::new(),
        pk_text,
        sig_text,
        data,
        options.quiet,
        options.output,
        options.allow_legacy,
        status,
        out,
    )
}

/// Returns true if verifying the data with two texts has the expected result.
pub fn texts_give_expected<R: Rereader>(
    alloc: Global,
    texts: (&str, &str),
    data: &mut R,
    options: VerifyOptions,
    sinks: Sinks,
    expected_result: Expected,
) -> bool {
    let mut sinks = sinks;
    let answer = verified_texts(
        alloc,
        texts,
        data,
        options,
        &mut sinks.status,
        &mut sinks.out,
    );
    has_expected_result(answer, &sinks, expected_result)
}

/// Returns true if verifying the data under key A with the box in a text has the expected result.
/// The data is copied, and legacy signatures are accepted.
pub fn box_gives_expected<R: Rereader>(
    alloc: Global,
    text: &str,
    data: &mut R,
    sinks: Sinks,
    expected_result: Expected,
) -> bool {
    let mut sinks = sinks;
    let answer = verified_box(alloc, text, data, &mut sinks);
    has_expected_result(answer, &sinks, expected_result)
}

// Verifies the data under key A with the box in a text.
fn verified_box<R: Rereader>(
    alloc: Global,
    text: &str,
    data: &mut R,
    sinks: &mut Sinks,
) -> Result<()> {
    let pk = public_a()?;
    let signature_box = read_box(alloc, text)?;
    verified(alloc, &pk, &signature_box, data, sinks)
}

// Verifies the data under the key with the box.
fn verified<R: Rereader>(
    alloc: Global,
    pk: &PublicKey,
    signature_box: &SignatureBox,
    data: &mut R,
    sinks: &mut Sinks,
) -> Result<()> {
    verify(
        alloc,
        &ToyScheme::new(),
        pk,
        signature_box,
        data,
        COPYING.quiet,
        COPYING.output,
        COPYING.allow_legacy,
        &mut sinks.status,
        &mut sinks.out,
    )
}

/// Returns key A, which is not encrypted.
pub fn key_a() -> Result<SecretKey> {
    SecretKey::from_bytes(&secret_record(&[0, 0], &CHECKSUM))
}

/// Returns the public key of key A.
pub fn public_a() -> Result<PublicKey> {
    PublicKey::from_bytes(&public_record(&KEY_ID, &PUBLIC_BYTES))
}

/// Returns the key in a text, decrypted with this password if it is encrypted.
pub fn key_of(alloc: Global, sk_text: &str, password: &str) -> Result<SecretKey> {
    open_with_password(alloc, sk_text, password)
}

/// Signs the data with the toy scheme and the default comments. If a public key is given, the
/// comment signature has to be valid under it.
pub fn signed_from<R: Source, Z: RandomSource>(
    alloc: Global,
    pk: Option<&PublicKey>,
    sk: &SecretKey,
    data: &mut R,
    random: &mut Z,
    unix_time: u64,
) -> Result<SignatureBox> {
    sign(
        alloc,
        &ToyScheme::new(),
        pk,
        sk,
        data,
        None,
        None,
        random,
        unix_time,
    )
}

/// Signs the data with the toy scheme and the text of a secret key, with the comments `t` and `c`
/// and the time 7.
pub fn signed_text<P: Source, Q: Sink, R: Source, Z: RandomSource>(
    alloc: Global,
    sk_text: &str,
    password: Option<String>,
    prompt: &mut Prompt<P, Q>,
    data: &mut R,
    random: &mut Z,
) -> Result<String> {
    sign_texts(
        alloc,
        &ToyScheme::new(),
        sk_text,
        password,
        prompt,
        data,
        Some("t"),
        Some("c"),
        random,
        7,
    )
}

pub fn read_box(alloc: Global, text: &str) -> Result<SignatureBox> {
    SignatureBox::from_string(alloc, text)
}

/// Returns true if the result is the expected one: this text, or an error.
pub fn gives_comment(answer: &Result<String>, text: &str, expected: Outcome) -> bool {
    match answer {
        Ok(given_comment) => expected == Accepted && given_comment.as_str() == text,
        Err(_) => matches_outcome(answer, expected),
    }
}

/// Returns true if a call returned this text, or its error if it failed.
pub fn has_text(returned: Result<String>, text: &str) -> Result<bool> {
    let returned = returned?;
    Ok(returned.as_str() == text)
}

/// Returns the text of a copy of the box.
pub fn copy_text(alloc: Global, signature_box: &SignatureBox) -> Result<String> {
    let copy = signature_box.try_clone(alloc)?;
    copy.into_string(alloc)
}

// Returns true if the box has this trusted comment and the default untrusted comment.
fn has_comments(alloc: Global, signature_box: &SignatureBox, trusted: &str) -> Result<bool> {
    if !has_text(signature_box.trusted_comment(alloc), trusted)? {
        return Ok(false);
    }
    let untrusted = signature_box.untrusted_comment(alloc);
    has_text(untrusted, "signature from rsign secret key")
}

/// Returns true if the box in a text has this trusted comment and the default untrusted comment.
pub fn text_has_comments(alloc: Global, sig_text: &str, trusted: &str) -> Result<bool> {
    let signature_box = read_box(alloc, sig_text)?;
    has_comments(alloc, &signature_box, trusted)
}
