//! Tests that calls on keys give the right result or out of memory, whichever allocation fails.
//! With enough memory each call succeeds. `tests/library/failing_allocations.py` runs each test with
//! each of its allocations failing in turn. A call that writes to a buffer may also return
//! `WritingFailed`, because a buffer that cannot grow fails like any other sink.

use crate::keys::generated::wrote_sealed_over;
use crate::keys::sealed::calls::{OpeningCall, opened};
use crate::keys::sealed::in_parts::SEALED_IN_PARTS;
use crate::signatures::calls::has_text;
use minisign::{KeyPair, PublicKey, Result, SecretKey, SecretKeyBox};
use minisign_base::devices::random_sources::FixedRandom;
use minisign_base::devices::sinks::VecSink;
use minisign_base::devices::sources::SliceSource;
use minisign_base::prompt::Prompt;
use minisign_base::toy::ToyScheme;
use minisign_fixtures::devices::sinks::Counting;
use minisign_fixtures::keys::{CHECKSUM, secret_record};
use minisign_fixtures::outcomes::{
    check_holds_or_out_of_memory, check_holds_or_unwritten, counted,
};
use minisign_fixtures::texts::{
    COUNTED_PUBLIC_TEXT, COUNTED_SEALED_WITH_EMPTY_PASSWORD, KEY_TEXT, SEALED, SECRET_TEXT,
};
use std::alloc::Global;

/// Returns a prompt with this input that does not allocate.
pub fn typed<'a>(bytes: &'a [u8]) -> Prompt<SliceSource<'a>, Counting> {
    Prompt::new(SliceSource::new(bytes), Counting { bytes: 0 })
}

/// Returns the text of a public key.
pub fn public_text(alloc: Global, key: &PublicKey) -> Result<String> {
    let pk_box = key.to_box(alloc)?;
    Ok(pk_box.into_string())
}

/// Returns the text of a secret key with the default comment.
pub fn secret_text(alloc: Global, key: &SecretKey) -> Result<String> {
    let sk_box = key.to_box(alloc, None)?;
    Ok(sk_box.into_string())
}

// Returns true if an unencrypted pair is generated with the precomputed public key, and its copy
// has the same keys.
fn made_raw(alloc: Global) -> Result<bool> {
    let scheme = ToyScheme::new();
    let pair = KeyPair::generate_unencrypted_keypair(&scheme, &mut FixedRandom::new(&counted()))?;
    let copy = pair.clone()?;
    let public = has_text(public_text(alloc, &copy.pk), COUNTED_PUBLIC_TEXT)?;
    Ok(public && copy.sk == pair.sk)
}

// Returns true if an unencrypted pair is generated and written to two buffers, and the buffers hold
// the records of its keys.
fn wrote_raw(alloc: Global) -> Result<bool> {
    let mut public = VecSink::new(alloc);
    let mut secret = VecSink::new(alloc);
    let pair = KeyPair::generate_and_write_unencrypted_keypair(
        alloc,
        &ToyScheme::new(),
        &mut FixedRandom::new(&counted()),
        &mut public,
        &mut secret,
    )?;
    has_records(&pair, public.as_slice(), secret.as_slice())
}

// Returns true if these records are those of the pair.
fn has_records(pair: &KeyPair, public: &[u8], secret: &[u8]) -> Result<bool> {
    let pk = PublicKey::from_bytes(public)?;
    let sk = SecretKey::from_bytes(secret)?;
    Ok(pk == pair.pk && sk == pair.sk)
}

/// Returns true if the key has the precomputed text of the pair that is encrypted with the empty
/// password.
pub fn has_sealed_text(alloc: Global, key: &SecretKey) -> Result<bool> {
    has_text(secret_text(alloc, key), COUNTED_SEALED_WITH_EMPTY_PASSWORD)
}

// Returns true if an encrypted pair is generated when an empty password is typed.
fn made_sealed(alloc: Global) -> Result<bool> {
    let pair = KeyPair::generate_encrypted_keypair(
        alloc,
        &ToyScheme::new(),
        &mut FixedRandom::new(&counted()),
        None,
        &mut typed(b"\n\n"),
    )?;
    has_sealed_text(alloc, &pair.sk)
}

// Returns true if an encrypted pair is generated when an empty password is typed, and the
// precomputed texts are written to two buffers.
fn wrote_sealed(alloc: Global) -> Result<bool> {
    let mut public = VecSink::new(alloc);
    let mut secret = VecSink::new(alloc);
    wrote_sealed_over(alloc, &mut typed(b"\n\n"), &mut public, &mut secret)?;
    let written = public.as_slice() == COUNTED_PUBLIC_TEXT.as_bytes();
    Ok(written && secret.as_slice() == COUNTED_SEALED_WITH_EMPTY_PASSWORD.as_bytes())
}

// Returns true if the key is key A, decrypted.
fn is_opened(key: &SecretKey) -> Result<bool> {
    let opened = SecretKey::from_bytes(&secret_record(b"Sc", &CHECKSUM))?;
    Ok(*key == opened && !key.is_encrypted())
}

// Returns true if the encrypted text of key A decrypts with a typed password.
fn opens(alloc: Global, text: &str, call: OpeningCall) -> Result<bool> {
    let sk_box = SecretKeyBox::from_string(alloc, text);
    let key = opened(alloc, sk_box, None, &mut typed(b"password\n"), call)?;
    is_opened(&key)
}

// Returns true if the text of key A's public key is the precomputed one.
fn public_written(alloc: Global) -> Result<bool> {
    let secret = SecretKey::from_bytes(&secret_record(&[0, 0], &CHECKSUM))?;
    let public = PublicKey::from_secret_key(&secret)?;
    has_text(public_text(alloc, &public), KEY_TEXT)
}

// Returns true if the text of key A is the same after parsing and writing it.
fn secret_written_again(alloc: Global) -> Result<bool> {
    let sk_box = SecretKeyBox::from_string(alloc, SECRET_TEXT)?;
    let sk = sk_box.into_unencrypted_secret_key()?;
    has_text(secret_text(alloc, &sk), SECRET_TEXT)
}

#[test]
fn makes_raw_pair_or_reports_out_of_memory(rt: HostRuntime) {
    let made = check_holds_or_out_of_memory(made_raw(rt.alloc()));
    let wrote = check_holds_or_unwritten(wrote_raw(rt.alloc()));
    let public = check_holds_or_out_of_memory(public_written(rt.alloc()));
    let secret = check_holds_or_out_of_memory(secret_written_again(rt.alloc()));
    assert!(rt; made && wrote && public && secret);
}

#[test]
fn makes_encrypted_pair_or_reports_out_of_memory(rt: HostRuntime) {
    assert!(rt; check_holds_or_out_of_memory(made_sealed(rt.alloc())));
}

#[test]
fn writes_encrypted_pair_or_reports_out_of_memory(rt: HostRuntime) {
    assert!(rt; check_holds_or_unwritten(wrote_sealed(rt.alloc())));
}

#[test]
fn opens_with_every_third_row_or_reports_out_of_memory(rt: HostRuntime) {
    assert!(rt;
        check_holds_or_out_of_memory(opens(rt.alloc(), SEALED, OpeningCall::FromBoxKeeping(3)))
    );
}

#[test]
fn opens_in_many_parts_or_reports_out_of_memory(rt: HostRuntime) {
    assert!(rt;
        check_holds_or_out_of_memory(opens(rt.alloc(), SEALED_IN_PARTS, OpeningCall::FromBox))
    );
}
