//! Tests of devices (sources, sinks, prompts and random sources) of which one operation fails and
//! later operations succeed. No request to `minisign_compare` can describe such devices. Each call of
//! the library is made many times: first the first operation of a device fails, then only its second
//! one, and so on, until no operation fails. `tests/rows/failing_readers.py` tests data of which a
//! read fails, for `sign`, `verify` and `verify_texts`.

use crate::keys::sealed::calls::{OpeningCall, opened};
use crate::signatures::calls::{
    COPYING, Expected, Sinks, ample, box_gives_expected, gives_comment, key_a, signed_from,
    signed_text, texts_give_expected,
};
use crate::tables::assert_row;
use minisign::SecretKeyBox;
use minisign::reading::read_to_end;
use minisign_base::devices::random_sources::RandomSource;
use minisign_base::devices::sources::SliceSource;
use minisign_base::faults::NamedFault::{
    DataChanged, GoingBackFailed, RandomSourceFailed, ReadingFailed, WritingFailed,
};
use minisign_base::prompt::Prompt;
use minisign_fixtures::devices::random::FailingRandom;
use minisign_fixtures::devices::sinks::LimitedSink;
use minisign_fixtures::devices::sources::{Changes, FailingSource};
use minisign_fixtures::outcomes::Outcome::{self, Accepted, Refused};
use minisign_fixtures::outcomes::{front, gives_record, is_outcome};
use minisign_fixtures::prompts::bytes_left;
use minisign_fixtures::texts::{
    KEY_TEXT, LEGACY_TEXT, SEALED, SEALED_WITH_EMPTY_PASSWORD, SIGNATURE_TEXT, STATUS_LINES,
};
use std::alloc::Global;

const UNREAD: Outcome = Refused(ReadingFailed);

const UNWRITTEN: Outcome = Refused(WritingFailed);

const NO_RANDOM_BYTES: Outcome = Refused(RandomSourceFailed);

const CHANGED: Outcome = Refused(DataChanged);

// The prompt's output if a password is typed: texts of 10, 66 and 5 bytes.
const ASKED_AND_DONE: &[u8] =
    b"Password: Deriving a key from the password and decrypting the secret key... done\n";

// The prompt's output if an empty password is typed.
const EMPTY_AND_DONE: &[u8] =
    b"Password: <empty>\nDeriving a key from the password and decrypting the secret key... done\n";

// The random bytes of the precomputed signatures.
const ZEROS: [u8; 128] = [0; 128];

// A number of operations that is never reached: the device does not fail.
const ALL: usize = 1000;

// Returns true if both `verify_texts` and `verify` fail with `GoingBackFailed` for the data `abc` if
// its source fails once, after `calls` operations. Afterwards the status sink must have received
// `status_lines` bytes, no data may have been copied, and the bytes `left` must be unread.
fn cannot_go_back(alloc: Global, calls: usize, status_lines: usize, left: &[u8]) -> bool {
    let expected_result = Expected {
        outcome: Refused(GoingBackFailed),
        status_lines: front(STATUS_LINES, status_lines),
        copied: b"",
    };
    let mut data = FailingSource::new(b"abc", calls);
    let texts = (KEY_TEXT, SIGNATURE_TEXT);
    let by_texts = texts_give_expected(
        alloc,
        texts,
        &mut data,
        COPYING,
        ample(alloc),
        expected_result,
    );
    let of_texts = gives_record(read_to_end(alloc, &mut data), left);
    let mut data = FailingSource::new(b"abc", calls);
    let by_box = box_gives_expected(
        alloc,
        SIGNATURE_TEXT,
        &mut data,
        ample(alloc),
        expected_result,
    );
    let of_box = gives_record(read_to_end(alloc, &mut data), left);
    by_texts && of_texts && by_box && of_box
}

// If the data is copied, the operations on its source are, in order: marking, four reads, going back,
// four reads. If marking fails, all of the data is unread. When going back fails, all of it was read.
#[test]
fn returns_error_if_going_back_fails(rt: HostRuntime) {
    assert!(rt; cannot_go_back(rt.alloc(), 0, 0, b"abc"));
    assert!(rt; cannot_go_back(rt.alloc(), 5, 60, b""));
}

// A case of a failing sink: the text of a signature; the data that a second reading returns; the
// number of bytes that the status sink accepts in each write, or 0 if the output fails instead of the
// status sink; the number of operations that are made on the failing sink if none of them fails; and
// the outcome in that case.
type SinkFailure = (&'static str, &'static [u8], usize, usize, Outcome);

// The status is written and never flushed: 60 bytes one at a time, or all at once. The output is
// written one byte at a time and then flushed. Data that changed is not flushed; the flush would be
// the fourth call.
const SINK_FAILURES: [SinkFailure; 7] = [
    (SIGNATURE_TEXT, b"abc", 1, 60, Accepted),
    (SIGNATURE_TEXT, b"abc", 100, 1, Accepted),
    (LEGACY_TEXT, b"abc", 1, 60, Accepted),
    (SIGNATURE_TEXT, b"abc", 0, 4, Accepted),
    (LEGACY_TEXT, b"abc", 0, 4, Accepted),
    (LEGACY_TEXT, b"abd", 0, 4, Accepted),
    (SIGNATURE_TEXT, b"abd", 0, 3, CHANGED),
];

// Hides the table from proofs, which would otherwise unfold all of it.
fn sink_failures() -> &'static [SinkFailure] {
    &SINK_FAILURES
}

// Returns sinks, one of which fails after `calls` operations. `most` is the third field of the row.
fn sinks(alloc: Global, most: usize, calls: usize) -> Sinks {
    let mut sinks = ample(alloc);
    if most == 0 {
        sinks.out = sinks.out.max_per_write(1).failing_after(calls);
    } else {
        sinks.status = sinks.status.max_per_write(most).failing_after(calls);
    }
    sinks
}

// Returns the expected result if the sink fails after `calls` operations. The output receives the
// data `abc` of the first reading for a legacy signature, because this data is kept in memory. For a
// prehashed signature, the data is read again and the output receives the second reading.
fn result_for(row: &SinkFailure, calls: usize) -> Expected<'static> {
    let (text, second, most, writes, answer) = *row;
    let whole = if text == LEGACY_TEXT {
        b"abc".as_slice()
    } else {
        second
    };
    let succeeds = calls >= writes;
    let outcome = if succeeds { answer } else { UNWRITTEN };
    if most == 0 {
        return Expected {
            outcome,
            status_lines: STATUS_LINES,
            copied: front(whole, calls),
        };
    }
    Expected {
        outcome,
        status_lines: front(STATUS_LINES, calls.saturating_mul(most)),
        copied: if succeeds { whole } else { b"" },
    }
}

// Returns true if `verify_texts` and `verify` have the expected result for the data `abc`.
fn gives_expected(alloc: Global, row: &SinkFailure, calls: usize) -> bool {
    let (text, second, most, _, _) = *row;
    let expected_result = result_for(row, calls);
    let texts = (KEY_TEXT, text);
    let mut data = Changes::new(b"abc", second);
    let sink_failures = sinks(alloc, most, calls);
    let by_texts = texts_give_expected(
        alloc,
        texts,
        &mut data,
        COPYING,
        sink_failures,
        expected_result,
    );
    let mut data = Changes::new(b"abc", second);
    let sink_failures = sinks(alloc, most, calls);
    let by_box = box_gives_expected(alloc, text, &mut data, sink_failures, expected_result);
    by_texts && by_box
}

// The sink fails at each of its operations in turn, of which there are at most 60, and then at none.
#[test]
fn returns_error_if_status_or_output_fails(rt: HostRuntime) {
    for row in sink_failures() {
        for calls in 0..62usize {
            assert_row(&rt, gives_expected(rt.alloc(), row, calls), &(calls, row));
        }
    }
}

type Typed<'a> = Prompt<FailingSource<'a>, LimitedSink>;

// When the devices fail while signing with the text of a key, as numbers of operations that succeed
// before: reads of the prompt, flushes of the prompt's writer, writes and flushes of this writer
// together, reads of the data, and fills of the random source.
type FailurePoints = (usize, usize, usize, usize, usize);

// The expected outcome, the number of bytes that the prompt writes, the numbers of unread bytes of the
// typed input and of the data, and true if no random bytes were taken.
type ExpectedUse = (Outcome, usize, usize, usize, bool);

// Until the encrypted key is decrypted, only the prompt is used. Its reader is read up to the line
// feed, so the `x` after it is unread. Its writer writes and flushes three texts. In the row with 0
// flushes the writer is full after four bytes, so it fails in the middle of the first text, before the
// first flush. After decrypting, signing reads the data four times and fills a buffer twice with
// random bytes.
const SIGNINGS: [(FailurePoints, ExpectedUse); 23] = [
    ((0, ALL, ALL, ALL, ALL), (UNREAD, 10, 10, 3, true)),
    ((1, ALL, ALL, ALL, ALL), (UNREAD, 10, 9, 3, true)),
    ((2, ALL, ALL, ALL, ALL), (UNREAD, 10, 8, 3, true)),
    ((3, ALL, ALL, ALL, ALL), (UNREAD, 10, 7, 3, true)),
    ((4, ALL, ALL, ALL, ALL), (UNREAD, 10, 6, 3, true)),
    ((5, ALL, ALL, ALL, ALL), (UNREAD, 10, 5, 3, true)),
    ((6, ALL, ALL, ALL, ALL), (UNREAD, 10, 4, 3, true)),
    ((7, ALL, ALL, ALL, ALL), (UNREAD, 10, 3, 3, true)),
    ((8, ALL, ALL, ALL, ALL), (UNREAD, 10, 2, 3, true)),
    ((ALL, ALL, 0, ALL, ALL), (UNWRITTEN, 0, 10, 3, true)),
    ((ALL, ALL, 1, ALL, ALL), (UNWRITTEN, 10, 10, 3, true)),
    ((ALL, ALL, 2, ALL, ALL), (UNWRITTEN, 10, 1, 3, true)),
    ((ALL, ALL, 3, ALL, ALL), (UNWRITTEN, 76, 1, 3, true)),
    ((ALL, ALL, 4, ALL, ALL), (UNWRITTEN, 76, 1, 3, true)),
    ((ALL, ALL, 5, ALL, ALL), (UNWRITTEN, 81, 1, 3, true)),
    ((ALL, 0, ALL, ALL, ALL), (UNWRITTEN, 4, 10, 3, true)),
    ((ALL, ALL, 6, 0, 0), (UNREAD, 81, 1, 3, true)),
    ((ALL, ALL, 6, 1, 0), (UNREAD, 81, 1, 2, true)),
    ((ALL, ALL, 6, 2, 0), (UNREAD, 81, 1, 1, true)),
    ((ALL, ALL, 6, 3, 0), (UNREAD, 81, 1, 0, true)),
    ((ALL, ALL, 6, 4, 0), (NO_RANDOM_BYTES, 81, 1, 0, true)),
    ((ALL, ALL, 6, 4, 1), (NO_RANDOM_BYTES, 81, 1, 0, false)),
    ((ALL, ALL, 6, 4, 2), (Accepted, 81, 1, 0, false)),
];

// Hides the table from proofs, which would otherwise unfold all of it.
fn signings() -> &'static [(FailurePoints, ExpectedUse)] {
    &SIGNINGS
}

// Returns a prompt with this input. Its reader fails after `reads` reads, and its writer after
// `flushes` flushes, or after `writes` writes and flushes together. If `flushes` is 0, the writer has
// space for only four bytes.
fn prompt_of<'a>(
    alloc: Global,
    typed: &'a [u8],
    reads: usize,
    flushes: usize,
    writes: usize,
) -> Typed<'a> {
    let room = if flushes == 0 { 4 } else { 100 };
    let writer = LimitedSink::new(alloc, room)
        .flushed(flushes)
        .failing_after(writes);
    Prompt::new(FailingSource::new(typed, reads), writer)
}

// Returns true if, after signing, the devices are as expected.
fn devices_are_as_expected(
    prompt: &mut Typed,
    data: &mut FailingSource,
    random: &mut FailingRandom,
    expected_use: &ExpectedUse,
) -> bool {
    let (_, prompted, typed_left, left, is_random_unused) = *expected_use;
    let is_prompted = prompt.writer.as_slice() == front(ASKED_AND_DONE, prompted);
    let typed = bytes_left(&mut prompt.reader) == typed_left;
    let read = bytes_left(data) == left;
    let is_unused = random.random.fill(&mut [0; 128]).is_ok();
    is_prompted && typed && read && is_unused == is_random_unused
}

// Returns true if signing has the expected result.
fn is_signed(alloc: Global, row: &(FailurePoints, ExpectedUse)) -> bool {
    let ((reads, flushes, writes, data_reads, draws), expected_use) = *row;
    let mut prompt = prompt_of(alloc, b"password\nx", reads, flushes, writes);
    let mut data = FailingSource::new(b"abc", data_reads);
    let mut random = FailingRandom::new(&ZEROS, draws);
    let answer = signed_text(alloc, SEALED, None, &mut prompt, &mut data, &mut random);
    let matches = gives_comment(&answer, SIGNATURE_TEXT, expected_use.0);
    matches && devices_are_as_expected(&mut prompt, &mut data, &mut random, &expected_use)
}

#[test]
fn returns_error_if_device_of_signing_fails(rt: HostRuntime) {
    for row in signings() {
        assert_row(&rt, is_signed(rt.alloc(), row), row);
    }
}

// Returns true if signing with a raw key fails when the random source fails after this number of
// fills.
fn fails_without_random_bytes(alloc: Global, draws: usize) -> bool {
    let Ok(secret) = key_a() else {
        return false;
    };
    let mut data = SliceSource::new(b"abc");
    let mut random = FailingRandom::new(&ZEROS, draws);
    let answer = signed_from(alloc, None, &secret, &mut data, &mut random, 0);
    let matches = is_outcome(answer, NO_RANDOM_BYTES);
    let is_unused = random.random.fill(&mut [0; 128]).is_ok();
    matches && is_unused == (draws == 0)
}

// A fill that failed is not repeated.
#[test]
fn returns_error_if_random_source_fails(rt: HostRuntime) {
    assert!(rt; fails_without_random_bytes(rt.alloc(), 0));
    assert!(rt; fails_without_random_bytes(rt.alloc(), 1));
}

// An encrypted key, the typed input, and all that the prompt then writes.
const PASSWORD_TYPED: (&str, &str, &[u8]) = (SEALED, "password\n", ASKED_AND_DONE);

// The key, the typed input and the prompt's output for an empty password, which the prompt reports
// in a fourth text.
const EMPTY_TYPED: (&str, &str, &[u8]) = (SEALED_WITH_EMPTY_PASSWORD, "\n", EMPTY_AND_DONE);

// A case of opening a key: true if a password is typed, false if it is empty; the numbers of operations
// before the prompt's reader and the prompt's writer fail; the expected outcome; and the number of
// bytes that the prompt writes.
type Opening = (bool, usize, usize, Outcome, usize);

// The reader is read up to the line feed. The writer writes and flushes three texts, or four if the
// password is empty. If no operation fails, the key is decrypted.
const OPENINGS: [Opening; 28] = [
    (true, 0, ALL, UNREAD, 10),
    (true, 1, ALL, UNREAD, 10),
    (true, 2, ALL, UNREAD, 10),
    (true, 3, ALL, UNREAD, 10),
    (true, 4, ALL, UNREAD, 10),
    (true, 5, ALL, UNREAD, 10),
    (true, 6, ALL, UNREAD, 10),
    (true, 7, ALL, UNREAD, 10),
    (true, 8, ALL, UNREAD, 10),
    (true, 9, ALL, Accepted, 81),
    (true, ALL, 0, UNWRITTEN, 0),
    (true, ALL, 1, UNWRITTEN, 10),
    (true, ALL, 2, UNWRITTEN, 10),
    (true, ALL, 3, UNWRITTEN, 76),
    (true, ALL, 4, UNWRITTEN, 76),
    (true, ALL, 5, UNWRITTEN, 81),
    (true, ALL, 6, Accepted, 81),
    (false, 0, ALL, UNREAD, 10),
    (false, 1, ALL, Accepted, 89),
    (false, ALL, 0, UNWRITTEN, 0),
    (false, ALL, 1, UNWRITTEN, 10),
    (false, ALL, 2, UNWRITTEN, 10),
    (false, ALL, 3, UNWRITTEN, 18),
    (false, ALL, 4, UNWRITTEN, 18),
    (false, ALL, 5, UNWRITTEN, 84),
    (false, ALL, 6, UNWRITTEN, 84),
    (false, ALL, 7, UNWRITTEN, 89),
    (false, ALL, 8, Accepted, 89),
];

// Hides the table from proofs, which would otherwise unfold all of it.
fn openings() -> &'static [Opening] {
    &OPENINGS
}

// Returns true if decrypting has the expected result.
fn opens(alloc: Global, row: &Opening) -> bool {
    let (is_typed, reads, writes, expected, prompted) = *row;
    let (text, typed, whole) = if is_typed {
        PASSWORD_TYPED
    } else {
        EMPTY_TYPED
    };
    let sk_box = SecretKeyBox::from_string(alloc, text);
    let mut prompt = prompt_of(alloc, typed.as_bytes(), reads, ALL, writes);
    let answer = opened(alloc, sk_box, None, &mut prompt, OpeningCall::FromBox);
    let matches = is_outcome(answer, expected);
    matches && prompt.writer.as_slice() == front(whole, prompted)
}

#[test]
fn returns_error_if_prompt_of_opening_fails(rt: HostRuntime) {
    for row in openings() {
        assert_row(&rt, opens(rt.alloc(), row), row);
    }
}
