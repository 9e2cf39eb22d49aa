//! Tests of the simple calls that never prompt: signing data from a reader, generating pairs under
//! a password, and the silent prompt. `files` tests signing files.

use crate::keys::refused_allocations::{has_sealed_text, public_text};
use crate::keys::sealed::calls::{OpeningCall, opened};
use crate::signatures::calls::{SIGNED_BY_DEFAULT, key_of};
use crate::tables::assert_row;
use minisign::{KeyPair, Result, SecretKey, SecretKeyBox, sign_reader};
use minisign_base::devices::random_sources::FixedRandom;
use minisign_base::devices::sinks::Sink;
use minisign_base::devices::sources::Source;
use minisign_base::faults::NamedFault::{
    EndOfInput, PasswordTooLong, RandomSourceFailed, ReadingFailed,
};
use minisign_base::helpers::get_password;
use minisign_base::prompt::Prompt;
use minisign_base::toy::ToyScheme;
use minisign_fixtures::devices::sources::{FailingSource, OneBytePerRead};
use minisign_fixtures::outcomes::Outcome::{self, Accepted, Refused};
use minisign_fixtures::outcomes::{
    check_holds, counted, front, gives_text, is_outcome, matches_outcome,
};
use minisign_fixtures::texts::{COUNTED_PUBLIC_TEXT, SEALED, SECRET_TEXT};
use std::alloc::Global;

const ZEROS: [u8; 128] = [0; 128];

// Generates a pair with these random bytes.
fn pair_under(alloc: Global, password: &str, random: &[u8]) -> Result<KeyPair> {
    let mut random = FixedRandom::new(random);
    KeyPair::generate_with_password(alloc, &ToyScheme::new(), &mut random, password)
}

/// Returns the encrypted key of the pair with the empty password.
pub fn sealed_pair_key(alloc: Global) -> Result<SecretKey> {
    let pair = pair_under(alloc, "", &counted())?;
    Ok(pair.sk)
}

// Signs the data of a reader with key A.
fn reader_signed<R: Source>(alloc: Global, data: &mut R) -> Result<String> {
    let sk = key_of(alloc, SECRET_TEXT, "password")?;
    let mut random = FixedRandom::new(&ZEROS);
    let toy = ToyScheme::new();
    sign_reader(alloc, &toy, &sk, data, Some("t"), &mut random, 0)
}

// A reader that returns one byte for each read is signed as precomputed.
#[test]
fn signs_all_data_of_reader(rt: HostRuntime) {
    let whole = reader_signed(rt.alloc(), &mut OneBytePerRead::new(b"abc"));
    assert!(rt; gives_text(whole, SIGNED_BY_DEFAULT));
    let cut = reader_signed(rt.alloc(), &mut FailingSource::for_good(b"abc", 1));
    assert!(rt; is_outcome(cut, Refused(ReadingFailed)));
}

// Returns true if the texts of the pair with the empty password are the precomputed ones.
fn is_known_pair(alloc: Global) -> bool {
    let Ok(pair) = pair_under(alloc, "", &counted()) else {
        return false;
    };
    let public = gives_text(public_text(alloc, &pair.pk), COUNTED_PUBLIC_TEXT);
    let sealed = check_holds(has_sealed_text(alloc, &pair.sk));
    public && sealed
}

#[test]
fn encrypted_pair_has_precomputed_texts(rt: HostRuntime) {
    assert!(rt; is_known_pair(rt.alloc()));
}

// Returns a password of this length.
fn letters_of(alloc: Global, count: usize) -> Result<String> {
    let mut password = String::new(alloc);
    for _ in 0..count {
        password.push('a')?;
    }
    Ok(password)
}

// The length of the password, the number of random bytes, and the expected outcome of generating a
// pair.
type PairRow = (usize, usize, Outcome);

const PAIR_ROWS: [PairRow; 4] = [
    (1024, 200, Accepted),
    (1025, 200, Refused(PasswordTooLong)),
    (1025, 0, Refused(PasswordTooLong)),
    (1024, 71, Refused(RandomSourceFailed)),
];

// Returns true if generating a pair has the expected outcome.
fn generates_as_expected(alloc: Global, row: &PairRow) -> bool {
    let (letters, drawn, expected) = *row;
    let Ok(password) = letters_of(alloc, letters) else {
        return false;
    };
    let random = counted();
    is_outcome(
        pair_under(alloc, password.as_str(), front(&random, drawn)),
        expected,
    )
}

#[test]
fn rejects_password_over_1024_bytes(rt: HostRuntime) {
    for row in &PAIR_ROWS {
        assert_row(&rt, generates_as_expected(rt.alloc(), row), row);
    }
}

// Decrypts the encrypted key with a silent prompt.
fn opened_silently(alloc: Global, password: Option<&str>) -> Result<SecretKey> {
    let sk_box = SecretKeyBox::from_string(alloc, SEALED);
    opened(
        alloc,
        sk_box,
        password,
        &mut Prompt::silent(),
        OpeningCall::FromBox,
    )
}

// Returns true if the prompt has no input.
fn is_not_answered<R: Source, W: Sink>(
    alloc: Global,
    prompt: &mut Prompt<R, W>,
    question: &str,
) -> bool {
    let answer = get_password(alloc, prompt, question);
    matches_outcome(&answer, Refused(EndOfInput))
}

#[test]
fn silent_prompt_gives_no_password(rt: HostRuntime) {
    let alloc = rt.alloc();
    let mut silent = Prompt::silent();
    assert!(rt; is_not_answered(alloc, &mut silent, "Password: "));
    assert!(rt; is_not_answered(alloc, &mut silent, ""));
    assert!(rt; is_outcome(opened_silently(alloc, None), Refused(EndOfInput)));
    assert!(rt; is_outcome(opened_silently(alloc, Some("password")), Accepted));
}
