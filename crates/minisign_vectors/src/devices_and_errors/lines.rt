//! Tests of writing lines to sinks, among them a sink over a writer that accepts nothing.

use minisign_base::devices::sinks::{Sink, VecSink, WriterSink, put_line, write_all};
use minisign_base::faults::NamedFault::WritingFailed;
use minisign_fixtures::outcomes::Outcome::{self, Accepted, Refused};
use minisign_fixtures::outcomes::matches_outcome;
use std::alloc::Global;
use std::io;
use std::io::Write;

// A writer that counts its calls of `write`, and fails after `allowed` of them. If `takes` is true,
// it accepts all bytes. Otherwise it accepts no bytes, and a flush fails too.
#[derive(Drop)]
struct Counting {
    calls: u8,
    allowed: u8,
    last: u8,
    takes: bool,
}

impl Write for Counting {
    fn write(&mut self, buf: &[u8]) -> io::Result<usize> {
        self.calls = self.calls.wrapping_add(1);
        if self.calls > self.allowed {
            return Err(io::Error::from(io::ErrorKind::Other));
        }
        if !self.takes {
            return Ok(0);
        }
        if let Some(last) = buf.last() {
            self.last = *last;
        }
        Ok(buf.len())
    }

    fn flush(&mut self) -> io::Result<()> {
        if self.takes {
            return Ok(());
        }
        Err(io::Error::from(io::ErrorKind::Other))
    }
}

// Returns a writer that fails after this number of calls.
fn counting_writer(allowed: u8, takes: bool) -> Counting {
    Counting {
        calls: 0,
        allowed,
        last: 0,
        takes,
    }
}

// Returns true if writing a line has this outcome.
fn writes_line_as_expected<W: Sink>(
    alloc: Global,
    sink: &mut W,
    (label, text): (&str, &str),
    expected: Outcome,
) -> bool {
    let answer = put_line(alloc, sink, label.as_bytes(), text.as_bytes());
    matches_outcome(&answer, expected)
}

// Returns true if three lines are written one after another.
fn lines_are_put(alloc: Global) -> bool {
    let mut sink = VecSink::new(alloc);
    let first = writes_line_as_expected(alloc, &mut sink, ("error: ", "reading failed"), Accepted);
    let second = writes_line_as_expected(alloc, &mut sink, ("", ""), Accepted);
    let third = writes_line_as_expected(alloc, &mut sink, ("warning", ""), Accepted);
    let are_written = sink.as_slice() == b"error: reading failed\n\nwarning\n".as_slice();
    first && second && third && are_written
}

// Returns true if each line is written in one write: a writer that fails at its second call receives
// the whole first line of two.
fn is_one_write(alloc: Global) -> bool {
    let mut writer = counting_writer(1, true);
    let mut sink = WriterSink::new(&mut writer);
    let line = ("a label ", "a text");
    let first = writes_line_as_expected(alloc, &mut sink, line, Accepted);
    let second = writes_line_as_expected(alloc, &mut sink, line, Refused(WritingFailed));
    first && second && writer.calls == 2 && writer.last == b'\n'
}

#[test]
fn writes_each_line_in_a_single_call(rt: HostRuntime) {
    assert!(rt; lines_are_put(rt.alloc()));
    assert!(rt; is_one_write(rt.alloc()));
}

// Returns true if a sink over a writer that accepts nothing fails for every write that is not
// empty, and for a flush.
fn fails_for_each_write() -> bool {
    let mut nothing = WriterSink::new(counting_writer(9, false));
    let unwritten = write_all(&mut nothing, b"a").is_err();
    let empty = nothing.write(b"") == Ok(0);
    let unflushed = nothing.flush().is_err();
    unwritten && empty && unflushed
}

#[test]
fn writer_that_takes_nothing_is_an_error(rt: HostRuntime) {
    assert!(rt; fails_for_each_write());
}
