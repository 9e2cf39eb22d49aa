//! Tests of verifying and signing files by their paths.

use crate::signatures::calls::{SIGNED_BY_DEFAULT, gives_comment, key_of};
use crate::silent_calls::sealed_pair_key;
use minisign::{Result, SecretKey, sign_file, verify_file};
use minisign_base::devices::random_sources::FixedRandom;
use minisign_base::faults::NamedFault::{
    EncryptedKeyRefused, RandomSourceFailed, ReadingFailed, SignatureRefused,
};
use minisign_base::toy::ToyScheme;
use minisign_fixtures::files::path_of;
use minisign_fixtures::outcomes::Outcome::{self, Accepted, Refused};
use minisign_fixtures::outcomes::{check_holds, front};
use minisign_fixtures::texts::{KEY_TEXT, SEALED, SECRET_TEXT, SIGNATURE_TEXT};
use std::{fs, io};

const ZEROS: [u8; 128] = [0; 128];

// The files of a signature and of the data, and the expected outcome of verifying.
const VERIFICATIONS: [(&str, &str, Outcome); 4] = [
    ("abc.sig", "abc", Accepted),
    ("missing", "abc", Refused(ReadingFailed)),
    ("abc.sig", "missing", Refused(ReadingFailed)),
    ("abc.sig", "abc.sig", Refused(SignatureRefused)),
];

// Hides the table from proofs, which would otherwise unfold all of it.
fn verifications() -> &'static [(&'static str, &'static str, Outcome)] {
    &VERIFICATIONS
}

// Verifies a file with key A and the signature in another file.
fn file_verified(rt: &HostRuntime, sig: &str, data: &str) -> Result<String> {
    let sig_path = path_of(rt, sig)?;
    let data_path = path_of(rt, data)?;
    let (sig_path, data_path) = (sig_path.as_str(), data_path.as_str());
    verify_file(
        rt,
        rt.alloc(),
        &ToyScheme::new(),
        KEY_TEXT,
        sig_path,
        data_path,
    )
}

// Returns true if verifying a file has the expected outcome.
fn verifies_as_expected(rt: &HostRuntime, row: &(&str, &str, Outcome)) -> bool {
    let (sig, data, expected) = *row;
    let answer = file_verified(rt, sig, data);
    gives_comment(&answer, "t", expected)
}

// A case of signing: the text of a secret key, which is decrypted first if necessary, or an empty text
// for a key that the test generates and does not decrypt; the file to sign; the number of random bytes
// that the random source has; and the expected outcome.
type Signed = (&'static str, &'static str, usize, Outcome);

// In the last two rows the key is still encrypted. It is rejected before the file is opened: even if
// the file is missing, the error is `EncryptedKeyRefused`.
const SIGNED: [Signed; 6] = [
    (SECRET_TEXT, "abc", 128, Accepted),
    (SEALED, "abc", 128, Accepted),
    (SECRET_TEXT, "missing", 0, Refused(ReadingFailed)),
    (SECRET_TEXT, "abc", 127, Refused(RandomSourceFailed)),
    ("", "missing", 0, Refused(EncryptedKeyRefused)),
    ("", "abc", 128, Refused(EncryptedKeyRefused)),
];

// Hides the table from proofs, which would otherwise unfold all of it.
fn signed() -> &'static [Signed] {
    &SIGNED
}

// Returns the secret key of a row: the key in the text, decrypted, or a generated key that is still
// encrypted.
fn key_of_row(rt: &HostRuntime, sk_text: &str) -> Result<SecretKey> {
    if sk_text.is_empty() {
        return sealed_pair_key(rt.alloc());
    }
    key_of(rt.alloc(), sk_text, "password")
}

// Signs a file with the key of a row and these random bytes.
fn file_signed(rt: &HostRuntime, sk_text: &str, name: &str, random: &[u8]) -> Result<String> {
    let sk = key_of_row(rt, sk_text)?;
    let path = path_of(rt, name)?;
    let toy = ToyScheme::new();
    let (path, mut random) = (path.as_str(), FixedRandom::new(random));
    sign_file(rt, rt.alloc(), &toy, &sk, path, Some("t"), &mut random, 0)
}

// Returns true if signing a file has the expected outcome.
fn is_signed(rt: &HostRuntime, row: &Signed) -> bool {
    let (sk_text, name, drawn, expected) = *row;
    let answer = file_signed(rt, sk_text, name, front(&ZEROS, drawn));
    gives_comment(&answer, SIGNED_BY_DEFAULT, expected)
}

// Returns true if all rows have the expected outcomes.
fn all_rows_hold(rt: &HostRuntime) -> bool {
    for row in verifications() {
        if !verifies_as_expected(rt, row) {
            return false;
        }
    }
    for row in signed() {
        if !is_signed(rt, row) {
            return false;
        }
    }
    true
}

// Writes a signature file and a data file, checks all rows with them and removes them. Signing must
// not have written a signature file beside the data.
fn all_rows_hold_with_files(
    rt: &HostRuntime,
    sig_path: &str,
    path: &str,
    beside: &str,
) -> io::Result<bool> {
    fs::write(rt, sig_path, SIGNATURE_TEXT)?;
    fs::write(rt, path, "abc")?;
    let right = all_rows_hold(rt);
    let still_exists = fs::exists(rt, beside)?;
    fs::remove_file(rt, sig_path)?;
    fs::remove_file(rt, path)?;
    Ok(right && !still_exists)
}

// Runs this check in the directory for temporary files.
fn all_rows_hold_in_temporary_directory(rt: &HostRuntime) -> Result<bool> {
    let sig_path = path_of(rt, "abc.sig")?;
    let path = path_of(rt, "abc")?;
    let beside = path_of(rt, "abc.minisig")?;
    let right = all_rows_hold_with_files(rt, sig_path.as_str(), path.as_str(), beside.as_str())?;
    Ok(right)
}

#[test]
fn verifies_and_signs_files_by_path(rt: HostRuntime) {
    assert!(rt; check_holds(all_rows_hold_in_temporary_directory(&rt)));
}
