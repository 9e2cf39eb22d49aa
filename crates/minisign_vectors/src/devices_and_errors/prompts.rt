//! Tests of passwords without a line feed and of lines that are not UTF-8.
//! `tests/rows/passwords.py` has all other lines.

use crate::tables::assert_row;
use minisign_base::devices::sinks::{Sink, VecSink};
use minisign_base::devices::sources::{SliceSource, Source};
use minisign_base::errors::Result;
use minisign_base::faults::NamedFault::{NotUtf8, PasswordTooLong};
use minisign_base::helpers::get_password;
use minisign_base::prompt::Prompt;
use minisign_fixtures::devices::sources::OneBytePerRead;
use minisign_fixtures::outcomes::Outcome::{self, Accepted, Refused};
use minisign_fixtures::outcomes::matches_outcome;
use minisign_fixtures::prompts::bytes_left;
use std::alloc::{AllocError, Global};

// The number and the value of the typed bytes, the bytes that follow them, and the expected outcome.
// The limit is 1024 bytes. Lines of up to 1025 bytes are checked for UTF-8 first. Longer lines are
// too long, whatever their bytes are.
type Line = (usize, u8, &'static str, Outcome);

const LINES: [Line; 8] = [
    (1024, b'a', "", Accepted),
    (1025, b'a', "", Refused(PasswordTooLong)),
    (1024, b'a', "\r", Refused(PasswordTooLong)),
    (1026, 0xff, "", Refused(PasswordTooLong)),
    (1025, 0xff, "", Refused(NotUtf8)),
    (1025, 0xff, "\n", Refused(NotUtf8)),
    (1, 0xff, "\n", Refused(NotUtf8)),
    (1, b'\r', "", Accepted),
];

// Hides the table from proofs, which would otherwise unfold all of it.
fn lines() -> &'static [Line] {
    &LINES
}

// Returns the typed bytes.
fn typed(alloc: Global, row: &Line) -> std::result::Result<Vec<u8>, AllocError> {
    let (count, letter, tail, _) = *row;
    let mut bytes = vec![in alloc; letter; count]?;
    bytes.extend_from_slice(tail.as_bytes())?;
    Ok(bytes)
}

fn read_password<R: Source, W: Sink>(alloc: Global, prompt: &mut Prompt<R, W>) -> Result<String> {
    get_password(alloc, prompt, "Password: ")
}

// Returns true if the result is as expected: the password of all these bytes, or an error.
fn is_expected(answer: &Result<String>, row: &Line) -> bool {
    let (count, _, _, expected) = *row;
    match answer {
        Ok(password) => expected == Accepted && password.len() == count,
        Err(_) => matches_outcome(answer, expected),
    }
}

// Returns true if the result is as expected, all of the input was read, and `Password: ` was shown.
fn reads_as_expected<R: Source + Drop>(alloc: Global, reader: R, row: &Line) -> bool {
    let mut prompt = Prompt::new(reader, VecSink::new(alloc));
    let answer = read_password(alloc, &mut prompt);
    let matches = is_expected(&answer, row);
    let is_read = bytes_left(&mut prompt.reader) == 0;
    matches && is_read && prompt.writer.as_slice() == b"Password: ".as_slice()
}

// Returns true if the result is as expected with a reader that returns the whole line, and with one
// that returns one byte for each read.
fn both_read_as_expected(alloc: Global, row: &Line) -> bool {
    let Ok(line) = typed(alloc, row) else {
        return false;
    };
    let at_once = reads_as_expected(alloc, SliceSource::new(&line), row);
    let by_bytes = reads_as_expected(alloc, OneBytePerRead::new(&line), row);
    at_once && by_bytes
}

#[test]
fn reads_typed_lines_to_their_end(rt: HostRuntime) {
    for row in lines() {
        assert_row(&rt, both_read_as_expected(rt.alloc(), row), row);
    }
}
