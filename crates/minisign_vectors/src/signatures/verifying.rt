//! Tests of verifying with the texts of a key and a signature: data that cannot be read again,
//! outputs with a buffer, and data that is not read if a text is rejected.

use crate::signatures::calls::{COPYING, Expected, ample, texts_give_expected, verified_texts};
use crate::tables::assert_row;
use minisign::VerifyOptions;
use minisign::reading::read_to_end;
use minisign_base::devices::sources::ReaderSource;
use minisign_base::faults::NamedFault::{
    DataChanged, GoingBackFailed, LegacyNotAccepted, MissingPublicKeyComment,
    MissingUntrustedComment, SignatureRefused,
};
use minisign_fixtures::devices::sinks::BufferedSink;
use minisign_fixtures::devices::sources::Changes;
use minisign_fixtures::outcomes::Outcome::{self, Accepted, Refused};
use minisign_fixtures::outcomes::{gives_record, is_outcome};
use minisign_fixtures::texts::{
    KEY_TEXT as KEY, LEGACY_TEXT as LEGACY, SIGNATURE_TEXT as SIGNED, STATUS_LINES,
};
use std::alloc::Global;

// Key A's bytes with another key ID.
const OTHER_KEY: &str =
    "untrusted comment: minisign public key: E7620F1842B4E81F\nRWQf6LRCGA9i51paWlpaWlpaWlpaWlpaWlpaWlpaWlpaWlpaWlpaWlpa\n";

const CHANGED: Outcome = Refused(DataChanged);

// Returns true if verifying `abc` has this outcome with a buffered output, when the second reading gives
// `second`. `flushed_bytes` are the bytes of the copy that were flushed, and `waiting` those that were not.
fn is_buffered(
    alloc: Global,
    second: &[u8],
    outcome: Outcome,
    flushed_bytes: &[u8],
    waiting: &[u8],
) -> bool {
    let texts = (KEY, SIGNED);
    let mut data = Changes::new(b"abc", second);
    let mut status = BufferedSink::new(alloc);
    let mut out = BufferedSink::new(alloc);
    let answer = verified_texts(alloc, texts, &mut data, COPYING, &mut status, &mut out);
    let matches = is_outcome(answer, outcome);
    let is_unflushed = has_flushed_and_holds(&status, b"", STATUS_LINES);
    let copied = has_flushed_and_holds(&out, flushed_bytes, waiting);
    matches && is_unflushed && copied
}

// Returns true if the sink has passed on the bytes `flushed_bytes` and still holds the bytes `waiting`.
fn has_flushed_and_holds(sink: &BufferedSink, flushed_bytes: &[u8], waiting: &[u8]) -> bool {
    sink.flushed_bytes() == flushed_bytes && sink.waiting() == waiting
}

// The copy is flushed only after the digests were compared, and the status is never flushed.
#[test]
fn does_not_flush_changed_data(rt: HostRuntime) {
    let alloc = rt.alloc();
    assert!(rt; is_buffered(alloc, b"abc", Accepted, b"abc", b""));
    assert!(rt; is_buffered(alloc, b"abd", CHANGED, b"", b"abd"));
    assert!(rt; is_buffered(alloc, b"", CHANGED, b"", b""));
}

// The texts of a key and of a signature, the data, whether it is copied, and whether legacy
// signatures are allowed; then the expected outcome, the copy, and the unread data. The status
// lines are written on success.
type ReadOnce = (
    &'static str,
    &'static str,
    &'static str,
    bool,
    bool,
    Outcome,
    &'static str,
    &'static str,
);

const UNMARKED: Outcome = Refused(GoingBackFailed);

const UNACCEPTED: Outcome = Refused(LegacyNotAccepted);

const REFUSED: Outcome = Refused(SignatureRefused);

const NO_KEY: Outcome = Refused(MissingPublicKeyComment);

const NO_SIGNATURE: Outcome = Refused(MissingUntrustedComment);

// Data that cannot be read again is rejected only if it would be read again. It is rejected when
// its position is marked, before anything is read. The key is parsed before the signature. If one
// of them is rejected, all of the data is unread.
const READ_ONCE: [ReadOnce; 15] = [
    (KEY, SIGNED, "abc", true, true, UNMARKED, "", "abc"),
    (OTHER_KEY, SIGNED, "abc", true, true, UNMARKED, "", "abc"),
    (KEY, SIGNED, "abc", false, true, Accepted, "", ""),
    (KEY, LEGACY, "abc", true, true, Accepted, "abc", ""),
    (KEY, LEGACY, "abc", false, true, Accepted, "", ""),
    (KEY, LEGACY, "abc", false, false, UNACCEPTED, "", ""),
    (KEY, LEGACY, "abcd", true, true, REFUSED, "", ""),
    ("", "", "abc", false, true, NO_KEY, "", "abc"),
    ("", "", "abc", true, true, NO_KEY, "", "abc"),
    ("", SIGNED, "abc", false, true, NO_KEY, "", "abc"),
    ("", SIGNED, "abc", true, true, NO_KEY, "", "abc"),
    (KEY, "", "abc", false, true, NO_SIGNATURE, "", "abc"),
    (KEY, "", "abc", true, true, NO_SIGNATURE, "", "abc"),
    (OTHER_KEY, "", "abc", false, true, NO_SIGNATURE, "", "abc"),
    (OTHER_KEY, "", "abc", true, true, NO_SIGNATURE, "", "abc"),
];

// Hides the table from proofs, which would otherwise unfold all of it.
fn read_once() -> &'static [ReadOnce] {
    &READ_ONCE
}

// Returns true if verifying data that cannot be read again has the expected result.
fn is_read_once(alloc: Global, row: &ReadOnce) -> bool {
    let (pk_text, sig_text, message, output, allow_legacy, outcome, copied, left) = *row;
    let mut data = ReaderSource::new(message.as_bytes());
    let options = VerifyOptions {
        quiet: false,
        output,
        allow_legacy,
    };
    let status_lines = if outcome == Accepted {
        STATUS_LINES
    } else {
        b""
    };
    let expected_result = Expected {
        outcome,
        status_lines,
        copied: copied.as_bytes(),
    };
    let texts = (pk_text, sig_text);
    let matches = texts_give_expected(
        alloc,
        texts,
        &mut data,
        options,
        ample(alloc),
        expected_result,
    );
    let rest = gives_record(read_to_end(alloc, &mut data), left.as_bytes());
    matches && rest
}

#[test]
fn rejects_copying_from_reader_without_mark(rt: HostRuntime) {
    for row in read_once() {
        assert_row(&rt, is_read_once(rt.alloc(), row), row);
    }
}
