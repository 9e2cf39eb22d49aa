//! Tests of each error of a prompt, for each call that decrypts a key. With enough memory none of
//! them is reported as out of memory. `tests/rows/sealed_keys.py` has the errors of texts.

use crate::keys::sealed::calls::{OpeningCall, opened};
use crate::tables::assert_row;
use minisign::SecretKeyBox;
use minisign_base::faults::NamedFault::{
    EndOfInput, NotUtf8, PasswordTooLong, ReadingFailed, WritingFailed, WrongPassword,
};
use minisign_base::prompt::Prompt;
use minisign_fixtures::devices::sinks::LimitedSink;
use minisign_fixtures::devices::sources::FailingSource;
use minisign_fixtures::outcomes::Outcome::{self, Refused};
use minisign_fixtures::outcomes::is_outcome;
use minisign_fixtures::texts::SEALED;
use std::alloc::Global;

// A line without a line feed.
const LONG: &[u8] = &[b'a'; 1026];

// The typed bytes, the number of reads before the reader fails, the space in the writer, and the
// expected outcome.
type Row = (&'static [u8], usize, usize, Outcome);

const ROWS: [Row; 7] = [
    (b"", 9, 99, Refused(EndOfInput)),
    (b"\xff\n", 9, 99, Refused(NotUtf8)),
    (LONG, 2000, 99, Refused(PasswordTooLong)),
    (b"p\n", 1, 99, Refused(ReadingFailed)),
    (b"p\n", 9, 4, Refused(WritingFailed)),
    (b"p\n", 9, 80, Refused(WritingFailed)),
    (b"p\n", 9, 99, Refused(WrongPassword)),
];

// Hides the table from proofs, which would otherwise unfold all of it.
fn rows() -> &'static [Row] {
    &ROWS
}

// Returns true if this call rejects the encrypted key as expected.
fn is_refused_by(alloc: Global, call: OpeningCall, row: &Row) -> bool {
    let (typed, reads, room, expected) = *row;
    let sk_box = SecretKeyBox::from_string(alloc, SEALED);
    let reader = FailingSource::for_good(typed, reads);
    let mut prompt = Prompt::new(reader, LimitedSink::new(alloc, room));
    is_outcome(opened(alloc, sk_box, None, &mut prompt, call), expected)
}

#[test]
fn returns_errors_of_prompts(rt: HostRuntime) {
    let alloc = rt.alloc();
    for row in rows() {
        let by_any = is_refused_by(alloc, OpeningCall::FromBox, row);
        assert_row(&rt, by_any, &("any parts", row.3));
        let within = is_refused_by(alloc, OpeningCall::FromBoxWithin(512), row);
        assert_row(&rt, within, &("parts within a bound", row.3));
        let keeping = is_refused_by(alloc, OpeningCall::FromBoxKeeping(3), row);
        assert_row(&rt, keeping, &("every third row", row.3));
    }
}
