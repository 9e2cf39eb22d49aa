//! Tests that signing with an encoded secret key reports the first error before it reads the data, and tests
//! the output of its prompt.

use crate::signatures::calls::signed_text;
use crate::tables::assert_row;
use minisign_base::devices::random_sources::FixedRandom;
use minisign_base::devices::sinks::Sink;
use minisign_base::devices::sources::Source;
use minisign_base::errors::Result;
use minisign_base::faults::NamedFault::{
    self, CorruptedKey, MissingEncodedSecretKey, MissingSecretKeyComment, ReadingFailed,
    SecretKeyNotBase64, UnsupportedEncryptionAlgorithm, WrongPassword,
};
use minisign_base::prompt::Prompt;
use minisign_fixtures::devices::sources::FailingSource;
use minisign_fixtures::outcomes::Outcome::Refused;
use minisign_fixtures::outcomes::is_outcome;
use minisign_fixtures::prompts::{bytes_left, password_copy, typed};
use minisign_fixtures::texts::SEALED;
use std::alloc::Global;

const PROMPT_OUTPUT: &str =
    "Password: Deriving a key from the password and decrypting the secret key... done\n";

// The random bytes of the precomputed signatures.
const ZEROS: [u8; 128] = [0; 128];

// Encoded secret keys with a checksum of zeros: with the key derivations `Xx` and `SC`, and with
// none.
const UNDER_XX: &str =
    "c\nRWRYeEIyAAAAAAAAAAAAAAAAAAAAAAAAAAAAAAAAAAAAAAAAAAAAAAAAAAAAAAAAAAAAAAAAAQIDBAUGBwgAAAAAAAAAAAAAAAAAAAAAAAAAAAAAAAAAAAAAAAAAAFpaWlpaWlpaWlpaWlpaWlpaWlpaWlpaWlpaWlpaWlpaAAAAAAAAAAAAAAAAAAAAAAAAAAAAAAAAAAAAAAAAAAA=\n";

const UNDER_SC: &str =
    "c\nRWRTQ0IyAAAAAAAAAAAAAAAAAAAAAAAAAAAAAAAAAAAAAAAAAAAAAAAAAAAAAAAAAAAAAAAAAQIDBAUGBwgAAAAAAAAAAAAAAAAAAAAAAAAAAAAAAAAAAAAAAAAAAFpaWlpaWlpaWlpaWlpaWlpaWlpaWlpaWlpaWlpaWlpaAAAAAAAAAAAAAAAAAAAAAAAAAAAAAAAAAAAAAAAAAAA=\n";

const CORRUPTED: &str =
    "c\nRWQAAEIyAAAAAAAAAAAAAAAAAAAAAAAAAAAAAAAAAAAAAAAAAAAAAAAAAAAAAAAAAAAAAAAAAQIDBAUGBwgAAAAAAAAAAAAAAAAAAAAAAAAAAAAAAAAAAAAAAAAAAFpaWlpaWlpaWlpaWlpaWlpaWlpaWlpaWlpaWlpaWlpaAAAAAAAAAAAAAAAAAAAAAAAAAAAAAAAAAAAAAAAAAAA=\n";

// The encoded secret key, the number of reads after which the source fails, the error, and the output of
// the prompt.
type Row = (&'static str, usize, NamedFault, &'static str);

const ROWS: [Row; 7] = [
    ("", 0, MissingSecretKeyComment, ""),
    ("c\n", 0, MissingEncodedSecretKey, ""),
    ("c\n!\n", 0, SecretKeyNotBase64, ""),
    (UNDER_XX, 0, UnsupportedEncryptionAlgorithm, ""),
    (UNDER_SC, 0, UnsupportedEncryptionAlgorithm, ""),
    (CORRUPTED, 0, CorruptedKey, ""),
    (SEALED, 2, ReadingFailed, PROMPT_OUTPUT),
];

// Hides the table from proofs, which would otherwise unfold all of it.
fn rows() -> &'static [Row] {
    &ROWS
}

// Signs `abc`, whose source fails after this number of reads.
fn signed<P: Source, Q: Sink>(
    alloc: Global,
    sk_text: &str,
    password: Option<&str>,
    prompt: &mut Prompt<P, Q>,
    reads: usize,
) -> Result<String> {
    let password = password_copy(alloc, password)?;
    let mut data = FailingSource::for_good(b"abc", reads);
    let mut random = FixedRandom::new(&ZEROS);
    signed_text(alloc, sk_text, password, prompt, &mut data, &mut random)
}

// Returns true if signing fails as expected. The prompt must show this text. If it shows nothing, its input
// must be unread.
fn is_refused(alloc: Global, password: Option<&str>, row: &Row) -> bool {
    let (sk_text, reads, fault, prompted) = *row;
    let mut prompt = typed(alloc, b"password\n");
    let answer = signed(alloc, sk_text, password, &mut prompt, reads);
    let matches = is_outcome(answer, Refused(fault));
    let unread = if prompted.is_empty() {
        "password\n".len()
    } else {
        0
    };
    let left = bytes_left(&mut prompt.reader) == unread;
    matches && left && prompt.writer.as_slice() == prompted.as_bytes()
}

// An invalid secret key is rejected before any data is read, and the error of a failing source
// comes after the prompt.
#[test]
fn returns_the_first_error(rt: HostRuntime) {
    for row in rows() {
        assert_row(&rt, is_refused(rt.alloc(), None, row), &row.2);
    }
}

// A wrong password that is passed to the call is rejected before the data is read.
#[test]
fn rejects_wrong_password_before_reading_data(rt: HostRuntime) {
    let row = (SEALED, 0, WrongPassword, "");
    assert!(rt; is_refused(rt.alloc(), Some("another"), &row));
}
