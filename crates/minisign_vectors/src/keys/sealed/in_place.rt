//! Tests of decrypting a key in the caller's memory.

use crate::kdf::passed_memory::{are_zeros, bytes, words};
use crate::keys::refused_allocations::secret_text;
use crate::keys::sealed::less_memory::{OPENED, SEALED_FROM_NINES};
use crate::tables::assert_row;
use minisign::{Result, SecretKey, read_secret_key};
use minisign_base::faults::NamedFault::{WorkTooHigh, WrongPassword};
use minisign_fixtures::outcomes::Outcome::{self, Accepted, Refused};
use minisign_fixtures::outcomes::{gives_text, matches_outcome};
use std::alloc::Global;

// Returns the encrypted key.
fn sealed() -> Result<SecretKey> {
    SecretKey::from_bytes(&read_secret_key(SEALED_FROM_NINES)?)
}

// A password, a bound on the parallelization, and the expected outcome.
type Row = (&'static str, u32, Outcome);

const ROWS: [Row; 3] = [
    ("password", 1, Accepted),
    ("Password", 1, Refused(WrongPassword)),
    ("password", 0, Refused(WorkTooHigh)),
];

// Hides the table from proofs, which would otherwise unfold all of it.
fn rows() -> &'static [Row] {
    &ROWS
}

// Returns true if decrypting with every 16th row kept has the expected outcome, and all of the
// memory is zero afterwards.
fn opens_as_expected(alloc: Global, row: &Row) -> bool {
    let (password, max_p, outcome) = *row;
    let Ok(key) = sealed() else {
        return false;
    };
    let (words_needed, bytes_needed) = key.opening_memory(16);
    let Ok(mut words) = words(alloc, words_needed as usize) else {
        return false;
    };
    let Ok(mut bytes) = bytes(alloc, bytes_needed as usize) else {
        return false;
    };
    let answer = key.open_in_place(password.as_bytes(), 16, max_p, &mut words, &mut bytes);
    let are_left_zeros = are_zeros(&words, &bytes);
    let matches = is_opened(alloc, &answer, outcome);
    are_left_zeros && matches
}

// Returns true if the result has this outcome, and a decrypted key has the expected text.
fn is_opened(alloc: Global, answer: &Result<SecretKey>, outcome: Outcome) -> bool {
    match answer {
        Ok(key) => outcome == Accepted && gives_text(secret_text(alloc, key), OPENED),
        Err(_) => matches_outcome(answer, outcome),
    }
}

#[test]
fn opens_key_in_passed_memory(rt: HostRuntime) {
    for row in rows() {
        assert_row(&rt, opens_as_expected(rt.alloc(), row), row);
    }
}
