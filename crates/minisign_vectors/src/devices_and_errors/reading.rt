//! Calls on a source with their expected results.

use minisign_base::devices::sources::{Rereader, Source};
use std::io;
use std::io::{Read, Seek, SeekFrom};

/// A reader that returns one byte for each read. Its second read fails; later reads succeed. It says that its
/// position is 5. Seeking to a position reports `place`, or fails if there is none.
#[derive(Drop)]
pub struct FailsOnce {
    reads: u8,
    place: Option<u64>,
}

impl FailsOnce {
    /// Returns a reader before its first read.
    pub fn new(place: Option<u64>) -> FailsOnce {
        FailsOnce { reads: 0, place }
    }
}

impl Read for FailsOnce {
    fn read(&mut self, buf: &mut [u8]) -> io::Result<usize> {
        self.reads = self.reads.wrapping_add(1);
        if self.reads == 2 {
            return Err(io::Error::from(io::ErrorKind::Other));
        }
        if buf.is_empty() {
            return Ok(0);
        }
        buf[0] = self.reads;
        Ok(1)
    }
}

impl Seek for FailsOnce {
    fn seek(&mut self, to: SeekFrom) -> io::Result<u64> {
        match (to, self.place) {
            (SeekFrom::Current(_), _) => Ok(5),
            (_, Some(place)) => Ok(place),
            (_, None) => Err(io::Error::from(io::ErrorKind::Other)),
        }
    }
}

/// A call on a source and its expected result.
#[derive(Clone, Copy)]
pub enum Call {
    /// A read into a buffer of two bytes returns this number, and the buffer then holds these
    /// bytes.
    Reads(usize, [u8; 2]),
    /// A read fails.
    FailsToRead,
    /// Marking the place succeeds, or fails.
    Marks(bool),
    /// Going back succeeds, or fails.
    GoesBack(bool),
}

/// Returns true if all calls, one after another, have the expected results. The reads share a
/// buffer, which is zero at first.
pub fn follows<R: Rereader>(source: &mut R, calls: &[Call]) -> bool {
    let mut buf = [0u8; 2];
    for call in calls {
        if !returns_as_expected(source, &mut buf, *call) {
            return false;
        }
    }
    true
}

// Returns true if the call has the expected result.
fn returns_as_expected<R: Rereader>(source: &mut R, buf: &mut [u8; 2], call: Call) -> bool {
    match call {
        Call::Reads(count, left) => reads(source, buf, count, left),
        Call::FailsToRead => source.read(buf).is_err(),
        Call::Marks(succeeds) => source.mark().is_ok() == succeeds,
        Call::GoesBack(succeeds) => source.back().is_ok() == succeeds,
    }
}

// Returns true if a read returns this number and the buffer then holds these bytes.
fn reads<R: Source>(source: &mut R, buf: &mut [u8; 2], count: usize, left: [u8; 2]) -> bool {
    let answer = source.read(buf);
    answer == Ok(count) && *buf == left
}
