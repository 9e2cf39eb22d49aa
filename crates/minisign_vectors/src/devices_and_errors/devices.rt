//! Tests of sources, sinks and random sources.

use super::reading::Call::{self, FailsToRead, GoesBack, Marks, Reads};
use super::reading::{FailsOnce, follows};
use minisign_base::devices::random_sources::{FixedRandom, RandomSource, SourceRandom};
use minisign_base::devices::sinks::{Sink, VecSink, WriterSink, write_all};
use minisign_base::devices::sources::{FileSource, ReaderSource, SliceSource};
use minisign_fixtures::outcomes::front;
use std::alloc::Global;
use std::io::Cursor;

// The results of calls on `abcde`, for a source that can go back.
const READ_AGAIN: [Call; 11] = [
    GoesBack(false),
    Reads(2, *b"ab"),
    Marks(true),
    Reads(2, *b"cd"),
    Reads(1, *b"ed"),
    Reads(0, *b"ed"),
    GoesBack(true),
    Reads(2, *b"cd"),
    Reads(1, *b"ed"),
    Reads(0, *b"ed"),
    GoesBack(true),
];

// The results of calls on `abc`, for a source that cannot go back.
const READ_ONCE: [Call; 5] = [
    Reads(2, *b"ab"),
    Reads(1, *b"cb"),
    Reads(0, *b"cb"),
    Marks(false),
    GoesBack(false),
];

// The results of reads from a reader that fails once.
const FAILING: [Call; 3] = [Reads(1, [1, 0]), FailsToRead, Reads(1, [3, 0])];

#[test]
fn slices_and_files_go_back_to_the_mark(rt: HostRuntime) {
    assert!(rt; follows(&mut SliceSource::new(b"abcde"), &READ_AGAIN));
    let mut file = FileSource::new(Cursor::new(b"abcde".as_slice()));
    assert!(rt; follows(&mut file, &READ_AGAIN));
}

// A reader can still be read after an error.
#[test]
fn readers_cannot_go_back(rt: HostRuntime) {
    assert!(rt; follows(&mut ReaderSource::new(b"abc".as_slice()), &READ_ONCE));
    assert!(rt; follows(&mut ReaderSource::new(FailsOnce::new(None)), &FAILING));
}

// Returns true if going back in a file whose seek reports this position succeeds or fails as
// expected.
fn goes_back_as_expected(place: Option<u64>, reached: bool) -> bool {
    let mut source = FileSource::new(FailsOnce::new(place));
    follows(&mut source, &[Marks(true), GoesBack(reached)])
}

#[test]
fn wrong_seek_position_is_an_error(rt: HostRuntime) {
    let is_sought = goes_back_as_expected(None, false);
    let is_other = goes_back_as_expected(Some(4), false);
    let is_place = goes_back_as_expected(Some(5), true);
    assert!(rt; is_sought && is_other && is_place);
}

// Returns true if the sink accepts all parts and a flush.
fn takes<S: Sink>(sink: &mut S, parts: &[&[u8]]) -> bool {
    for part in parts {
        if write_all(sink, part).is_err() {
            return false;
        }
    }
    sink.flush().is_ok()
}

// Returns true if the buffer returns the bytes that it received.
fn keeps_bytes(alloc: Global) -> bool {
    let mut sink = VecSink::new(alloc);
    let taken = takes(&mut sink, &[b"abc", b"", b"de"]);
    let shown = sink.as_slice() == b"abcde".as_slice();
    let collected = sink.into_vec();
    let given = collected.as_slice() == b"abcde".as_slice();
    taken && shown && given
}

// Returns true if a writer receives the bytes after those that it already has.
fn is_written(alloc: Global) -> bool {
    let Ok(mut held) = vec![in alloc; b'a'; 1] else {
        return false;
    };
    let taken = takes(&mut WriterSink::new(&mut held), &[b"bc"]);
    let written = held.as_slice() == b"abc".as_slice();
    taken && written
}

#[test]
fn sinks_receive_all_bytes(rt: HostRuntime) {
    assert!(rt; keeps_bytes(rt.alloc()));
    assert!(rt; is_written(rt.alloc()));
}

// The results of filling buffers one after another from a source of five bytes. An empty entry means
// that filling three bytes fails.
const FILLS_FROM_FIVE_BYTES: [&[u8]; 3] = [b"abc", b"", b"de"];

const FILLS_FROM_FOUR_BYTES: [&[u8]; 2] = [b"abc", b""];

// A source that fails once can be read afterwards.
const FILLS_AFTER_FAULT: [&[u8]; 2] = [b"", &[3, 4, 5]];

// Returns true if the fills are as expected.
fn draws<R: RandomSource>(random: &mut R, draws: &[&[u8]]) -> bool {
    for expected in draws {
        if !fills_as_expected(random, expected) {
            return false;
        }
    }
    true
}

// Returns true if these bytes are returned, or if they are empty and a fill of three bytes fails.
fn fills_as_expected<R: RandomSource>(random: &mut R, expected: &[u8]) -> bool {
    let len = if expected.is_empty() {
        3
    } else {
        expected.len().min(3)
    };
    let mut drawn = [0u8; 3];
    let is_filled = random.fill(&mut drawn[..len]).is_ok();
    is_filled != expected.is_empty() && front(&drawn, expected.len()) == expected
}

#[test]
fn random_bytes_are_taken_in_order(rt: HostRuntime) {
    assert!(rt; draws(&mut FixedRandom::new(b"abcde"), &FILLS_FROM_FIVE_BYTES));
    let mut drawn = SourceRandom::new(SliceSource::new(b"abcd"));
    assert!(rt; draws(&mut drawn, &FILLS_FROM_FOUR_BYTES));
    let mut failing = SourceRandom::new(ReaderSource::new(FailsOnce::new(None)));
    assert!(rt; draws(&mut failing, &FILLS_AFTER_FAULT));
}
