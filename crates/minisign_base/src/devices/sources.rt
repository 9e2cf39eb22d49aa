//! Sources, from which bytes are read: the trait, its implementations, and `fill_from`, which fills a buffer.

ghost use Rattle.std.specs.Prelude.{Bool, true, false, IsTrue, Option, ◌≡◌, ◌==◌, ℕ, ◌+◌, ◌-◌, ◌<◌, ◌≤◌, ◌^◌};
ghost use Rattle.std.specs.Prelude.{◌↔◌, min, List, [], length, take, drop, Some, None, IsOk, IsErr, IsOkAnd};
ghost use Rattle.std.specs.Prelude.{IsNone, OnOk, OnErr, if◌then◌else◌, ⊤, ◌⊎◌};
ghost use Rattle.std.specs.Option.{is_some};
ghost use Rattle.std.specs.Io.KnownBytes.{Consumes, IsAtEnd};
ghost use Rattle.minisign_base.specs.Devices.{ErrorCountRises, PrefixIsRemoved, HasRead, HasMarked};
ghost use Rattle.minisign_base.specs.Devices.{HasGoneBack};

use super::{DeviceFault, FaultCount};
use std::io::{Read, Seek, SeekFrom};

/// A source of finitely many bytes.
pub trait Source {
    // The bytes that will be read next ("the unread bytes"), if they are known.
    ghost ahead: { Self → Option (List ℕ) };

    // The bytes that would be unread after going back to the mark, if they are known.
    ghost behind: { Self → Option (List ℕ) } = { λ _. None };

    // The bytes read since the mark was set or gone back to, if they are known.
    ghost since: { Self → Option (List ℕ) } = { λ _. None };

    // True if a place is marked. Reads do not change this.
    ghost is_marked: { Self → Bool } = { λ _. false };

    // The maximum number of bytes that can still be read.
    ghost left: { Self → ℕ };

    // The number of errors so far, at most 2^64 - 1. "Has risen" below means that it is greater than before,
    // or was at this maximum.
    ghost faults: { Self → ℕ };

    /// Moves the next bytes to the start of `buf`, any number of them up to the length of `buf`, and returns
    /// that number. It is 0 only if `buf` is empty or no bytes are left. After an error the unread bytes are
    /// unchanged or no longer known.
    fn read(&mut self, buf: &mut [u8]) -> Result<usize, DeviceFault>
        // On success, the result is the number of bytes moved from the front of the source to `buf`. It is
        // at most the length of `buf`, and 0 only if `buf` is empty or the source has ended.
        //
        // On success, the mark and the error count are unchanged. After an error, the error count has risen,
        // and the unread bytes are unchanged or no longer known; nothing is
        // promised then about the bytes that going back restores. In both cases a place is marked exactly if
        // one was marked before.
        //
        // If the bytes read since the mark was set or gone back to are known, each read adds to them. They
        // are known for `SliceSource` and `NoSource`, but not for readers and files.
        ensures { HasRead ahead behind since is_marked left faults self.old self.new buf.new result };
}

/// A source that can be read again from a place that was marked.
pub trait Rereader: Source {
    // Holds if going back restores the bytes that were unread when the mark was set.
    ghost steady: { Self → Type 0 };

    /// Marks the current place. The unread bytes are unchanged. After an error they are unchanged
    /// or no longer known, and no place is marked.
    fn mark(&mut self) -> Result<(), DeviceFault>
        // On success, the place is marked, the unread bytes are unchanged, and a steady source
        // remembers them. After an error, the error count has risen and no place is marked.
        //
        // On success, no byte has been read since the mark.
        ensures { HasMarked steady Self.ahead Self.behind Self.since Self.is_marked Self.faults self.old
            self.new result };

    /// Goes back to the place that was marked last, which remains marked. Fails if no place is marked.
    /// After an error no place is marked.
    fn back(&mut self) -> Result<(), DeviceFault>
        // On success, the unread bytes are those that were remembered at the mark, as far as they
        // are known, and the mark is unchanged, so that going back again restores the same bytes.
        // After an error, the error count has risen.
        //
        // Going back without a mark always fails. After an error, no place is marked. On success, no byte
        // has been read since going back.
        ensures { HasGoneBack Self.ahead Self.behind Self.since Self.is_marked Self.faults self.old self.new
            result };
}

/// Reads from a slice. The only call that can fail is `back`, if no place is marked.
#[derive(Drop)]
pub struct SliceSource<'a> {
    // The bytes from the marked place on, or all bytes if no place is marked.
    bytes: &'a [u8],
    // The number of these bytes that have been read.
    position: usize,
    is_marked: bool,
    faults: FaultCount,
    ghost within: { position ≤ length bytes.now },
}

impl<'a> SliceSource<'a> {
    /// Returns a source of all the bytes of the slice, with no place marked.
    pub fn new(bytes: &'a [u8]) -> SliceSource<'a>
        ensures ahead { ⟦<SliceSource<'a> as Source>⟧.ahead result ≡ Some bytes.now }
        ensures behind { ⟦<SliceSource<'a> as Source>⟧.behind result ≡ None }
        ensures since { ⟦<SliceSource<'a> as Source>⟧.since result ≡ Some [] }
        ensures unmarked { ⟦<SliceSource<'a> as Source>⟧.is_marked result ≡ false }
        ensures faults { ⟦<SliceSource<'a> as Source>⟧.faults result ≡ 0 }
    {
        SliceSource {
            bytes,
            position: 0,
            is_marked: false,
            faults: FaultCount(0),
        }
    }
}

impl<'a> Source for SliceSource<'a> {
    ghost ahead = { λ s. Some (drop s.position s.bytes.now) };

    ghost behind = { λ s. (if s.is_marked then Some s.bytes.now else None) };

    ghost since = { λ s. Some (take s.position s.bytes.now) };

    ghost is_marked = { λ s. s.is_marked };

    ghost left = { λ s. length s.bytes.now - s.position };

    ghost faults = { λ s. s.faults.0 };

    // Always succeeds, and reads as many bytes as `buf` has space for or as are left, whichever is less.
    #[tactic(auto, using(crate::proofs::ReadParts::unread_bytes_split, crate::proofs::ReadParts::read_bytes_append))]
    fn read(&mut self, buf: &mut [u8]) -> Result<usize, DeviceFault>
        ensures gives { IsOkAnd result
            (λ n. n ≡ min (length buf.new) (⟦<SliceSource<'a> as Source>⟧.left self.old)) }
        ensures read { HasRead ⟦<SliceSource<'a> as Source>⟧.ahead ⟦<SliceSource<'a> as Source>⟧.behind
            ⟦<SliceSource<'a> as Source>⟧.since ⟦<SliceSource<'a> as Source>⟧.is_marked
            ⟦<SliceSource<'a> as Source>⟧.left ⟦<SliceSource<'a> as Source>⟧.faults
            self.old self.new buf.new result }
    {
        let (_, rest) = self.bytes.split_at(self.position);
        let n = buf.len().min(rest.len());
        let (front, _) = rest.split_at(n);
        buf[..n].copy_from_slice(front);
        self.position += n;
        Ok(n)
    }
}

impl<'a> Rereader for SliceSource<'a> {
    ghost steady = { λ _. ⊤ };

    // Always succeeds.
    fn mark(&mut self) -> Result<(), DeviceFault>
        ensures succeeds { IsOk result }
        ensures mark { HasMarked ⟦<SliceSource<'a> as Rereader>⟧.steady ⟦<SliceSource<'a> as Source>⟧.ahead
            ⟦<SliceSource<'a> as Source>⟧.behind ⟦<SliceSource<'a> as Source>⟧.since
            ⟦<SliceSource<'a> as Source>⟧.is_marked ⟦<SliceSource<'a> as Source>⟧.faults
            self.old self.new result }
    {
        let (_, rest) = self.bytes.split_at(self.position);
        self.position = 0;
        self.bytes = rest;
        self.is_marked = true;
        Ok(())
    }

    // Fails exactly if no place is marked. After an error, the unread bytes are unchanged.
    fn back(&mut self) -> Result<(), DeviceFault>
        ensures succeeds { IsOk result ↔ IsTrue (⟦<SliceSource<'a> as Source>⟧.is_marked self.old) }
        ensures back { HasGoneBack ⟦<SliceSource<'a> as Source>⟧.ahead ⟦<SliceSource<'a> as Source>⟧.behind
            ⟦<SliceSource<'a> as Source>⟧.since ⟦<SliceSource<'a> as Source>⟧.is_marked
            ⟦<SliceSource<'a> as Source>⟧.faults self.old self.new result }
        ensures stays_marked { ⟦<SliceSource<'a> as Source>⟧.behind self.new
            ≡ ⟦<SliceSource<'a> as Source>⟧.behind self.old }
        ensures unchanged { OnErr result
            (⟦<SliceSource<'a> as Source>⟧.ahead self.new ≡ ⟦<SliceSource<'a> as Source>⟧.ahead self.old) }
    {
        if !self.is_marked {
            return Err(self.faults.raise());
        }
        self.position = 0;
        Ok(())
    }
}

/// A source without bytes. A read never fails and returns 0.
#[derive(Clone, Copy, Drop)]
pub struct NoSource;

impl Source for NoSource {
    ghost ahead = { λ _. Some [] };

    ghost since = { λ _. Some [] };

    ghost left = { λ _. 0 };

    ghost faults = { λ _. 0 };

    // Always returns 0.
    fn read(&mut self, _buf: &mut [u8]) -> Result<usize, DeviceFault> {
        Ok(0)
    }
}

/// Reads from any std reader, at most 2^63 - 1 bytes, so that the source is finite; a read after that is an
/// error. The unread bytes are known if those of the reader are, until the first error. This source
/// cannot go back.
#[derive(Drop)]
pub struct ReaderSource<R> {
    reader: R,
    left: u64,
    faults: FaultCount,
}

impl<R: Read> ReaderSource<R> {
    /// Returns a source of all the bytes that the reader has left.
    pub fn new(reader: R) -> ReaderSource<R>
        ensures ahead { ⟦<ReaderSource<R> as Source>⟧.ahead result ≡ R.remaining reader }
        ensures left { ⟦<ReaderSource<R> as Source>⟧.left result ≡ 2 ^ 63 - 1 }
        ensures faults { ⟦<ReaderSource<R> as Source>⟧.faults result ≡ 0 }
    {
        ReaderSource {
            reader,
            left: i64::MAX as u64,
            faults: FaultCount(0),
        }
    }
}

impl<R: Read> Source for ReaderSource<R> {
    ghost ahead = { λ s. (if s.faults.0 == 0 then R.remaining s.reader else None) };

    ghost left = { λ s. s.left };

    ghost faults = { λ s. s.faults.0 };

    // After an error, as many bytes can still be read as before.
    fn read(&mut self, buf: &mut [u8]) -> Result<usize, DeviceFault>
        ensures read { HasRead ⟦<ReaderSource<R> as Source>⟧.ahead ⟦<ReaderSource<R> as Source>⟧.behind
            ⟦<ReaderSource<R> as Source>⟧.since ⟦<ReaderSource<R> as Source>⟧.is_marked
            ⟦<ReaderSource<R> as Source>⟧.left ⟦<ReaderSource<R> as Source>⟧.faults
            self.old self.new buf.new result }
        ensures left { OnErr result
            (⟦<ReaderSource<R> as Source>⟧.left self.new ≡ ⟦<ReaderSource<R> as Source>⟧.left self.old) }
    {
        if self.left == 0 && !buf.is_empty() {
            return Err(self.faults.raise());
        }
        let room = self.left.min(buf.len() as u64) as usize;
        match self.reader.read(&mut buf[..room]) {
            Ok(n) if n <= room => {
                self.left -= n as u64;
                Ok(n)
            }
            _ => Err(self.faults.raise()),
        }
    }
}

impl<R: Read> Rereader for ReaderSource<R> {
    ghost steady = { λ _. ⊥ };

    // Always fails. Afterwards the unread bytes are no longer known. As many can be read as before.
    fn mark(&mut self) -> Result<(), DeviceFault>
        ensures fails { IsErr result }
        ensures refused { ErrorCountRises (⟦<ReaderSource<R> as Source>⟧.faults self.old)
            (⟦<ReaderSource<R> as Source>⟧.faults self.new) }
        ensures unread_unknown { IsNone (⟦<ReaderSource<R> as Source>⟧.ahead self.new) }
        ensures left { ⟦<ReaderSource<R> as Source>⟧.left self.new
            ≡ ⟦<ReaderSource<R> as Source>⟧.left self.old }
    {
        let fault = self.faults.raise();
        Err(fault)
    }

    // Always fails. Afterwards the unread bytes are no longer known. As many can be read as before.
    fn back(&mut self) -> Result<(), DeviceFault>
        ensures fails { IsErr result }
        ensures refused { ErrorCountRises (⟦<ReaderSource<R> as Source>⟧.faults self.old)
            (⟦<ReaderSource<R> as Source>⟧.faults self.new) }
        ensures unread_unknown { IsNone (⟦<ReaderSource<R> as Source>⟧.ahead self.new) }
        ensures left { ⟦<ReaderSource<R> as Source>⟧.left self.new
            ≡ ⟦<ReaderSource<R> as Source>⟧.left self.old }
    {
        // Marking fails in the same way.
        self.mark()
    }
}

/// Reads from a file, or from any other std type that implements `Read` and `Seek`, at most 2^63 - 1 bytes; a
/// read after that is an error. Going back to a mark seeks to its position. Contracts do not know the bytes,
/// because std's contracts do not give the bytes of a file. The source is not `steady`, because a file may
/// change before it is read again.
#[derive(Drop)]
pub struct FileSource<F> {
    reader: ReaderSource<F>,
    marked: Option<u64>,
}

impl<F: Read + Seek> FileSource<F> {
    /// Returns a source of the file's bytes from its current position on, with no place marked.
    pub fn new(file: F) -> FileSource<F>
        ensures ahead { ⟦<FileSource<F> as Source>⟧.ahead result ≡ None }
        ensures unmarked { ⟦<FileSource<F> as Source>⟧.is_marked result ≡ false }
        ensures left { ⟦<FileSource<F> as Source>⟧.left result ≡ 2 ^ 63 - 1 }
        ensures faults { ⟦<FileSource<F> as Source>⟧.faults result ≡ 0 }
    {
        FileSource {
            reader: ReaderSource::new(file),
            marked: None,
        }
    }

    // Counts one more error, up to 2^64 - 1, and removes the mark.
    fn lose_mark(&mut self) -> DeviceFault
        ensures unmarked { self.new.marked ≡ None }
        ensures raised { self.new.reader.faults.0 ≡ min (self.old.reader.faults.0 + 1) (2 ^ 64 - 1) }
        ensures left { self.new.reader.left ≡ self.old.reader.left }
    {
        self.marked = None;
        self.reader.faults.raise()
    }
}

impl<F: Read + Seek> Source for FileSource<F> {
    ghost ahead = { λ _. None };

    ghost is_marked = { λ s. is_some s.marked };

    ghost left = { λ s. ⟦<ReaderSource<F> as Source>⟧.left s.reader };

    ghost faults = { λ s. ⟦<ReaderSource<F> as Source>⟧.faults s.reader };

    // After an error, as many bytes can still be read as before.
    fn read(&mut self, buf: &mut [u8]) -> Result<usize, DeviceFault>
        ensures read { HasRead ⟦<FileSource<F> as Source>⟧.ahead ⟦<FileSource<F> as Source>⟧.behind
            ⟦<FileSource<F> as Source>⟧.since ⟦<FileSource<F> as Source>⟧.is_marked
            ⟦<FileSource<F> as Source>⟧.left ⟦<FileSource<F> as Source>⟧.faults
            self.old self.new buf.new result }
        ensures left { OnErr result
            (⟦<FileSource<F> as Source>⟧.left self.new ≡ ⟦<FileSource<F> as Source>⟧.left self.old) }
    {
        self.reader.read(buf)
    }
}

impl<F: Read + Seek> Rereader for FileSource<F> {
    ghost steady = { λ _. ⊥ };

    // As many bytes can be read as before, also after an error.
    fn mark(&mut self) -> Result<(), DeviceFault>
        ensures mark { HasMarked ⟦<FileSource<F> as Rereader>⟧.steady ⟦<FileSource<F> as Source>⟧.ahead
            ⟦<FileSource<F> as Source>⟧.behind ⟦<FileSource<F> as Source>⟧.since
            ⟦<FileSource<F> as Source>⟧.is_marked ⟦<FileSource<F> as Source>⟧.faults
            self.old self.new result }
        ensures left { ⟦<FileSource<F> as Source>⟧.left self.new ≡ ⟦<FileSource<F> as Source>⟧.left self.old }
    {
        match self.reader.reader.stream_position() {
            Ok(place) => {
                self.marked = Some(place);
                Ok(())
            }
            Err(_) => Err(self.lose_mark()),
        }
    }

    // Without a mark, the position of the file is unchanged. It is also an error if seeking succeeds but ends
    // at a position other than the marked one. As many bytes can be read as before, also after an error.
    fn back(&mut self) -> Result<(), DeviceFault>
        ensures back { HasGoneBack ⟦<FileSource<F> as Source>⟧.ahead ⟦<FileSource<F> as Source>⟧.behind
            ⟦<FileSource<F> as Source>⟧.since ⟦<FileSource<F> as Source>⟧.is_marked
            ⟦<FileSource<F> as Source>⟧.faults self.old self.new result }
        ensures left { ⟦<FileSource<F> as Source>⟧.left self.new ≡ ⟦<FileSource<F> as Source>⟧.left self.old }
    {
        if let Some(marked) = self.marked {
            if let Ok(place) = self.reader.reader.seek(SeekFrom::Start(marked)) {
                if place == marked {
                    return Ok(());
                }
            }
        }
        Err(self.lose_mark())
    }
}

/// Fills `buf` with the next bytes of a source. Fails if the source fails or ends too early.
pub fn fill_from<S: Source>(source: &mut S, buf: &mut [u8]) -> Result<(), DeviceFault>
    // On success, `buf` holds the next bytes of the source, and the source's error count is unchanged. An
    // error means that the source failed or ended; then a prefix of its unread bytes was removed, if they are
    // known before and after.
    ensures bytes { OnOk result (Consumes (S.ahead source.old) (S.ahead source.new) buf.new) }
    ensures no_new_fault { OnOk result (S.faults source.new ≡ S.faults source.old) }
    ensures refused { OnErr result (ErrorCountRises (S.faults source.old) (S.faults source.new)
        ⊎ IsAtEnd (S.ahead source.new)) }
    ensures prefix_removed { OnErr result (PrefixIsRemoved (S.ahead source.old) (S.ahead source.new)) }
{
    let mut at = 0;
    'rest: while at < buf.len() {
        match source.read(&mut buf[at..])? {
            0 => return Err(DeviceFault),
            n => at += n,
        }
    }
    Ok(())
}
