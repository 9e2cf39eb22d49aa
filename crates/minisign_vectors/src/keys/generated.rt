//! Tests of generating key pairs with devices that no request to `minisign_compare` can describe:
//! they accept one byte at a time, or fail at each byte, each read and each flush in turn.
//! `tests/rows/generating_keys.py` and `tests/rows/failing_readers.py` have all other cases.

use crate::tables::assert_row;
use minisign::{KeyPair, Result};
use minisign_base::devices::random_sources::FixedRandom;
use minisign_base::devices::sinks::Sink;
use minisign_base::devices::sources::Source;
use minisign_base::faults::NamedFault::{NotUtf8, ReadingFailed, WritingFailed};
use minisign_base::prompt::Prompt;
use minisign_base::toy::ToyScheme;
use minisign_fixtures::devices::sinks::LimitedSink;
use minisign_fixtures::devices::sources::FailingSource;
use minisign_fixtures::outcomes::Outcome::{self, Accepted, Refused};
use minisign_fixtures::outcomes::{counted, front, is_outcome};
use minisign_fixtures::texts::COUNTED_PUBLIC_TEXT;
use std::alloc::Global;

const UNREAD: Outcome = Refused(ReadingFailed);

const UNWRITTEN: Outcome = Refused(WritingFailed);

// Encrypted under `p` with Python's hashlib.
const SECRET_TEXT: &str =
    "untrusted comment: rsign encrypted secret key\nRWRTY0IyKCkqKywtLi8wMTIzNDU2Nzg5Ojs8PT4/QEFCQ0RFRkcAABAAAAAAAAAAAAIAAAAAXsrUPdVfRwB5KzWs1gxMpeWRV1NwSl+wvS3yfJHSuB4R/Pz7fjWZ0NuIvbOTYzc06tcjZcma8YW35LizX+hn4HmrLBaZfd3HwOv+fYOu+VKlFvoXb5KyfQcAcM++/0OlXTsF5mCWdJA=\n";

// All that the prompt shows if `p` is typed twice: texts of 51, 10, 26, 71 and 5 bytes.
const SHOWN: &str =
    "Please enter a password to protect the secret key.\nPassword: Password (one more time): Deriving a key from the password in order to encrypt the secret key... done\n";

type Typed<'a> = Prompt<FailingSource<'a>, LimitedSink>;

// Returns a prompt that returns one byte for each read and whose reader fails after this number of
// reads.
fn prompt_of<'a>(typed: &'a [u8], reads: usize, writer: LimitedSink) -> Typed<'a> {
    Prompt::new(FailingSource::for_good(typed, reads), writer)
}

/// Generates an encrypted pair from random bytes that count up from 0, and writes both texts.
pub fn wrote_sealed_over<R: Source, W: Sink, K: Sink>(
    alloc: Global,
    prompt: &mut Prompt<R, W>,
    public: &mut K,
    secret: &mut K,
) -> Result<KeyPair> {
    KeyPair::generate_and_write_encrypted_keypair(
        alloc,
        &ToyScheme::new(),
        &mut FixedRandom::new(&counted()),
        public,
        secret,
        None,
        None,
        prompt,
    )
}

// Returns true if a sink that accepts one byte at a time receives the whole text and one flush.
fn sink_receives_whole_keys(alloc: Global) -> bool {
    let mut public = LimitedSink::new(alloc, 114).max_per_write(1).flushed(1);
    let mut secret = LimitedSink::new(alloc, 259).max_per_write(1).flushed(1);
    let mut prompt = prompt_of(b"p\np\n", 4, LimitedSink::new(alloc, 300));
    let answer = wrote_sealed_over(alloc, &mut prompt, &mut public, &mut secret);
    let matches = is_outcome(answer, Accepted);
    let has_public = public.as_slice() == COUNTED_PUBLIC_TEXT.as_bytes();
    let has_secret = secret.as_slice() == SECRET_TEXT.as_bytes();
    let is_prompted = prompt.writer.as_slice() == SHOWN.as_bytes();
    matches && has_public && has_secret && is_prompted
}

#[test]
fn writes_pair_to_sinks_of_one_byte_per_write(rt: HostRuntime) {
    assert!(rt; sink_receives_whole_keys(rt.alloc()));
}

// The typed bytes, the number of reads before the reader fails, the space in the prompt's writer,
// the number of flushes before it fails, the number of bytes that it then shows, and the expected
// outcome.
type PairFailure = (&'static [u8], usize, usize, usize, usize, Outcome);

// The writer fails at each flush before the derivation, after it received the whole text. It also
// fails after the derivation, and then the pair is not written. The reader fails at each of its
// reads, or returns bytes that are not UTF-8.
const PAIR_FAILURES: [PairFailure; 12] = [
    (b"p\np\n", 9, 300, 0, 51, UNWRITTEN),
    (b"p\np\n", 9, 300, 1, 61, UNWRITTEN),
    (b"p\np\n", 9, 300, 2, 87, UNWRITTEN),
    (b"p\np\n", 9, 300, 3, 158, UNWRITTEN),
    (b"p\np\n", 9, 158, 9, 158, UNWRITTEN),
    (b"p\np\n", 9, 162, 9, 162, UNWRITTEN),
    (b"p\np\n", 9, 163, 4, 163, UNWRITTEN),
    (b"p\np\n", 0, 300, 9, 61, UNREAD),
    (b"p\np\n", 1, 300, 9, 61, UNREAD),
    (b"p\np\n", 2, 300, 9, 87, UNREAD),
    (b"p\np\n", 3, 300, 9, 87, UNREAD),
    (b"\xff\n", 9, 300, 9, 61, Refused(NotUtf8)),
];

// Hides the table from proofs, which would otherwise unfold all of it.
fn pair_failures() -> &'static [PairFailure] {
    &PAIR_FAILURES
}

// Returns true if generation fails as expected, with this many bytes shown and no key written. A
// writer that will fail accepts nine bytes for each write.
fn is_refused(alloc: Global, row: &PairFailure) -> bool {
    let (typed, reads, room, flushes, length, expected) = *row;
    let most = if expected == UNWRITTEN { 9 } else { usize::MAX };
    let writer = LimitedSink::new(alloc, room)
        .max_per_write(most)
        .flushed(flushes);
    let mut prompt = prompt_of(typed, reads, writer);
    let mut public = LimitedSink::new(alloc, 300);
    let mut secret = LimitedSink::new(alloc, 300);
    let answer = wrote_sealed_over(alloc, &mut prompt, &mut public, &mut secret);
    let matches = is_outcome(answer, expected);
    let shown = prompt.writer.as_slice() == front(SHOWN.as_bytes(), length);
    matches && shown && public.as_slice().is_empty() && secret.as_slice().is_empty()
}

#[test]
fn rejects_pair_if_prompt_fails(rt: HostRuntime) {
    for row in pair_failures() {
        assert_row(&rt, is_refused(rt.alloc(), row), row);
    }
}

// The prompt's writer fails at each byte before the derivation, and holds the bytes before that.
#[test]
fn stops_at_the_byte_where_the_prompt_fails(rt: HostRuntime) {
    for room in 0..158usize {
        let row = (b"p\np\n".as_slice(), 9, room, 9, room, UNWRITTEN);
        assert_row(&rt, is_refused(rt.alloc(), &row), &room);
    }
}
