//! Sources for tests: they return one byte for each read, fail, or return other bytes when they are
//! read again.

ghost use Rattle.std.specs.Prelude.{◌≡◌, ◌↔◌, ◌+◌, ◌-◌, ◌^◌, ◌&&◌, Some, true, false, IsTrue};
ghost use Rattle.std.specs.Prelude.{IfErr, IfOk, IsOk, IsOkAnd, OnErr, OnOk, is_ok, length, min, ⊤};
ghost use Rattle.minisign_base.specs.Devices.{HasGoneBack, HasMarked, HasRead};
ghost use Rattle.minisign_fixtures.specs.Turns.{after_call, failure_after, next_succeeds};

use crate::devices::turn::Turn;
use minisign_base::devices::DeviceFault;
use minisign_base::devices::sources::{Rereader, SliceSource, Source};

/// A source of the bytes of a slice, one byte for each read.
#[derive(Drop)]
pub struct OneBytePerRead<'a> {
    source: SliceSource<'a>,
}

impl<'a> OneBytePerRead<'a> {
    /// Returns a source of the slice, with no place marked.
    pub fn new(bytes: &'a [u8]) -> OneBytePerRead<'a>
        ensures ahead { ⟦<OneBytePerRead<'a> as Source>⟧.ahead result ≡ Some bytes.now }
        ensures unmarked { ⟦<OneBytePerRead<'a> as Source>⟧.is_marked result ≡ false }
        ensures faults { ⟦<OneBytePerRead<'a> as Source>⟧.faults result ≡ 0 }
    {
        OneBytePerRead {
            source: SliceSource::new(bytes),
        }
    }
}

impl<'a> Source for OneBytePerRead<'a> {
    ghost ahead = { λ s. ⟦<SliceSource<'a> as Source>⟧.ahead s.source };

    ghost behind = { λ s. ⟦<SliceSource<'a> as Source>⟧.behind s.source };

    ghost since = { λ s. ⟦<SliceSource<'a> as Source>⟧.since s.source };

    ghost is_marked = { λ s. ⟦<SliceSource<'a> as Source>⟧.is_marked s.source };

    ghost left = { λ s. ⟦<SliceSource<'a> as Source>⟧.left s.source };

    ghost faults = { λ s. ⟦<SliceSource<'a> as Source>⟧.faults s.source };

    // Always succeeds. Reads one byte, unless `buf` is empty or no bytes are left.
    fn read(&mut self, buf: &mut [u8]) -> Result<usize, DeviceFault>
        ensures gives { IsOkAnd result
            (λ n. n ≡ min (min (length buf.new) 1) (⟦<OneBytePerRead<'a> as Source>⟧.left self.old)) }
        ensures read { HasRead ⟦<OneBytePerRead<'a> as Source>⟧.ahead
            ⟦<OneBytePerRead<'a> as Source>⟧.behind ⟦<OneBytePerRead<'a> as Source>⟧.since
            ⟦<OneBytePerRead<'a> as Source>⟧.is_marked ⟦<OneBytePerRead<'a> as Source>⟧.left
            ⟦<OneBytePerRead<'a> as Source>⟧.faults self.old self.new buf.new result }
    {
        let room = buf.len().min(1);
        self.source.read(&mut buf[..room])
    }
}

impl<'a> Rereader for OneBytePerRead<'a> {
    ghost steady = { λ _. ⊤ };

    // Always succeeds.
    fn mark(&mut self) -> Result<(), DeviceFault>
        ensures succeeds { IsOk result }
        ensures mark { HasMarked ⟦<OneBytePerRead<'a> as Rereader>⟧.steady
            ⟦<OneBytePerRead<'a> as Source>⟧.ahead ⟦<OneBytePerRead<'a> as Source>⟧.behind
            ⟦<OneBytePerRead<'a> as Source>⟧.since ⟦<OneBytePerRead<'a> as Source>⟧.is_marked
            ⟦<OneBytePerRead<'a> as Source>⟧.faults self.old self.new result }
    {
        self.source.mark()
    }

    // Fails exactly if no place is marked. After an error, the unread bytes are unchanged.
    fn back(&mut self) -> Result<(), DeviceFault>
        ensures succeeds { IsOk result ↔ IsTrue (⟦<OneBytePerRead<'a> as Source>⟧.is_marked self.old) }
        ensures back { HasGoneBack ⟦<OneBytePerRead<'a> as Source>⟧.ahead
            ⟦<OneBytePerRead<'a> as Source>⟧.behind ⟦<OneBytePerRead<'a> as Source>⟧.since
            ⟦<OneBytePerRead<'a> as Source>⟧.is_marked ⟦<OneBytePerRead<'a> as Source>⟧.faults self.old
            self.new result }
        ensures stays_marked { ⟦<OneBytePerRead<'a> as Source>⟧.behind self.new
            ≡ ⟦<OneBytePerRead<'a> as Source>⟧.behind self.old }
        ensures unchanged { OnErr result (⟦<OneBytePerRead<'a> as Source>⟧.ahead self.new
            ≡ ⟦<OneBytePerRead<'a> as Source>⟧.ahead self.old) }
    {
        self.source.back()
    }
}

/// A source of the bytes of a slice, one byte for each read. Either one of its calls fails and
/// later calls succeed, or all calls from a certain one on fail.
#[derive(Drop)]
pub struct FailingSource<'a> {
    source: OneBytePerRead<'a>,
    marked: bool,
    turn: Turn,
    faults: u64,
}

impl<'a> FailingSource<'a> {
    /// Returns a source of the slice whose call after this number of calls fails.
    pub fn new(bytes: &'a [u8], calls: usize) -> FailingSource<'a>
        ensures ahead { ⟦<FailingSource<'a> as Source>⟧.ahead result ≡ Some bytes.now }
        ensures unmarked { ⟦<FailingSource<'a> as Source>⟧.is_marked result ≡ false }
        ensures faults { ⟦<FailingSource<'a> as Source>⟧.faults result ≡ 0 }
        ensures turn { result.turn ≡ failure_after calls false }
    {
        FailingSource::with_turn(bytes, Turn::one_failure_after(calls))
    }

    /// Returns a source of the slice whose calls all fail after this number of calls.
    pub fn for_good(bytes: &'a [u8], calls: usize) -> FailingSource<'a>
        ensures ahead { ⟦<FailingSource<'a> as Source>⟧.ahead result ≡ Some bytes.now }
        ensures unmarked { ⟦<FailingSource<'a> as Source>⟧.is_marked result ≡ false }
        ensures faults { ⟦<FailingSource<'a> as Source>⟧.faults result ≡ 0 }
        ensures turn { result.turn ≡ failure_after calls true }
    {
        FailingSource::with_turn(bytes, Turn::failures_after(calls))
    }

    fn with_turn(bytes: &'a [u8], turn: Turn) -> FailingSource<'a>
        ensures ahead { ⟦<FailingSource<'a> as Source>⟧.ahead result ≡ Some bytes.now }
        ensures unmarked { ⟦<FailingSource<'a> as Source>⟧.is_marked result ≡ false }
        ensures faults { ⟦<FailingSource<'a> as Source>⟧.faults result ≡ 0 }
        ensures turn { result.turn ≡ turn }
    {
        FailingSource {
            source: OneBytePerRead::new(bytes),
            marked: false,
            turn,
            faults: 0,
        }
    }
}

impl<'a> Source for FailingSource<'a> {
    ghost ahead = { λ s. ⟦<OneBytePerRead<'a> as Source>⟧.ahead s.source };

    ghost behind = { λ s. ⟦<OneBytePerRead<'a> as Source>⟧.behind s.source };

    ghost since = { λ s. ⟦<OneBytePerRead<'a> as Source>⟧.since s.source };

    ghost is_marked = { λ s. s.marked };

    ghost left = { λ s. ⟦<OneBytePerRead<'a> as Source>⟧.left s.source };

    ghost faults = { λ s. s.faults };

    // Fails exactly if it is the turn of this call to fail. After an error, nothing was read.
    fn read(&mut self, buf: &mut [u8]) -> Result<usize, DeviceFault>
        ensures succeeds { is_ok result ≡ next_succeeds self.old.turn }
        ensures gives { IfOk result
            (λ n. n ≡ min (min (length buf.new) 1) (⟦<FailingSource<'a> as Source>⟧.left self.old)) }
        ensures read { HasRead ⟦<FailingSource<'a> as Source>⟧.ahead ⟦<FailingSource<'a> as Source>⟧.behind
            ⟦<FailingSource<'a> as Source>⟧.since ⟦<FailingSource<'a> as Source>⟧.is_marked
            ⟦<FailingSource<'a> as Source>⟧.left ⟦<FailingSource<'a> as Source>⟧.faults self.old self.new
            buf.new result }
        ensures unchanged { OnErr result (self.new.source ≡ self.old.source) }
        ensures turn { self.new.turn ≡ after_call self.old.turn }
        ensures faults { IfErr result (λ _. self.new.faults ≡ min (self.old.faults + 1) (2 ^ 64 - 1)) }
    {
        if self.turn.passes() {
            if let Ok(n) = self.source.read(buf) {
                return Ok(n);
            }
        }
        self.faults = self.faults.saturating_add(1);
        Err(DeviceFault)
    }
}

impl<'a> Rereader for FailingSource<'a> {
    ghost steady = { λ _. ⊤ };

    // Fails exactly if it is the turn of this call to fail.
    fn mark(&mut self) -> Result<(), DeviceFault>
        ensures succeeds { is_ok result ≡ next_succeeds self.old.turn }
        ensures mark { HasMarked ⟦<FailingSource<'a> as Rereader>⟧.steady
            ⟦<FailingSource<'a> as Source>⟧.ahead ⟦<FailingSource<'a> as Source>⟧.behind
            ⟦<FailingSource<'a> as Source>⟧.since ⟦<FailingSource<'a> as Source>⟧.is_marked
            ⟦<FailingSource<'a> as Source>⟧.faults self.old self.new result }
        ensures unchanged { OnErr result (self.new.source ≡ self.old.source) }
        ensures turn { self.new.turn ≡ after_call self.old.turn }
        ensures faults { IfErr result (λ _. self.new.faults ≡ min (self.old.faults + 1) (2 ^ 64 - 1)) }
    {
        if self.turn.passes() {
            if let Ok(()) = self.source.mark() {
                self.marked = true;
                return Ok(());
            }
        }
        self.marked = false;
        self.faults = self.faults.saturating_add(1);
        Err(DeviceFault)
    }

    // Fails exactly if it is the turn of this call to fail, or if no place is marked. After an error, the
    // unread bytes are unchanged.
    fn back(&mut self) -> Result<(), DeviceFault>
        ensures succeeds { is_ok result ≡ (next_succeeds self.old.turn
            && (self.old.marked && ⟦<OneBytePerRead<'a> as Source>⟧.is_marked self.old.source)) }
        ensures back { HasGoneBack ⟦<FailingSource<'a> as Source>⟧.ahead
            ⟦<FailingSource<'a> as Source>⟧.behind ⟦<FailingSource<'a> as Source>⟧.since
            ⟦<FailingSource<'a> as Source>⟧.is_marked ⟦<FailingSource<'a> as Source>⟧.faults self.old
            self.new result }
        ensures unchanged { OnErr result (⟦<FailingSource<'a> as Source>⟧.ahead self.new
            ≡ ⟦<FailingSource<'a> as Source>⟧.ahead self.old) }
        ensures turn { self.new.turn ≡ after_call self.old.turn }
        ensures faults { IfErr result (λ _. self.new.faults ≡ min (self.old.faults + 1) (2 ^ 64 - 1)) }
    {
        if self.turn.passes() && self.marked {
            if let Ok(()) = self.source.back() {
                return Ok(());
            }
        }
        self.marked = false;
        self.faults = self.faults.saturating_add(1);
        Err(DeviceFault)
    }
}

/// A source that returns the bytes of one slice, and those of a second slice after going back to
/// the mark. It fails only if `back` is called without a mark.
#[derive(Drop)]
pub struct Changes<'a> {
    source: SliceSource<'a>,
    second: &'a [u8],
    marked: bool,
    faults: u64,
}

impl<'a> Changes<'a> {
    /// Returns a source of the first slice, with no place marked.
    pub fn new(first: &'a [u8], second: &'a [u8]) -> Changes<'a>
        ensures ahead { ⟦<Changes<'a> as Source>⟧.ahead result ≡ Some first.now }
        ensures second { result.second.now ≡ second.now }
        ensures unmarked { ⟦<Changes<'a> as Source>⟧.is_marked result ≡ false }
        ensures faults { ⟦<Changes<'a> as Source>⟧.faults result ≡ 0 }
    {
        Changes {
            source: SliceSource::new(first),
            second,
            marked: false,
            faults: 0,
        }
    }
}

impl<'a> Source for Changes<'a> {
    ghost ahead = { λ s. ⟦<SliceSource<'a> as Source>⟧.ahead s.source };

    ghost since = { λ s. ⟦<SliceSource<'a> as Source>⟧.since s.source };

    ghost is_marked = { λ s. s.marked };

    ghost left = { λ s. ⟦<SliceSource<'a> as Source>⟧.left s.source };

    ghost faults = { λ s. s.faults };

    // Always succeeds, and reads as many bytes as `buf` has space for or as are left, whichever is less.
    fn read(&mut self, buf: &mut [u8]) -> Result<usize, DeviceFault>
        ensures gives { IsOkAnd result
            (λ n. n ≡ min (length buf.new) (⟦<Changes<'a> as Source>⟧.left self.old)) }
        ensures read { HasRead ⟦<Changes<'a> as Source>⟧.ahead ⟦<Changes<'a> as Source>⟧.behind
            ⟦<Changes<'a> as Source>⟧.since ⟦<Changes<'a> as Source>⟧.is_marked
            ⟦<Changes<'a> as Source>⟧.left ⟦<Changes<'a> as Source>⟧.faults self.old self.new buf.new result }
        ensures kept { (self.new.second ≡ self.old.second) × (self.new.marked ≡ self.old.marked)
            × (self.new.faults ≡ self.old.faults) }
    {
        if let Ok(n) = self.source.read(buf) {
            return Ok(n);
        }
        self.faults = self.faults.saturating_add(1);
        Err(DeviceFault)
    }
}

impl<'a> Rereader for Changes<'a> {
    ghost steady = { λ _. ⊥ };

    // Always succeeds.
    fn mark(&mut self) -> Result<(), DeviceFault>
        ensures succeeds { IsOk result }
        ensures mark { HasMarked ⟦<Changes<'a> as Rereader>⟧.steady ⟦<Changes<'a> as Source>⟧.ahead
            ⟦<Changes<'a> as Source>⟧.behind ⟦<Changes<'a> as Source>⟧.since
            ⟦<Changes<'a> as Source>⟧.is_marked ⟦<Changes<'a> as Source>⟧.faults self.old self.new result }
        ensures kept { (self.new.second ≡ self.old.second) × (self.new.faults ≡ self.old.faults) }
    {
        if let Ok(()) = self.source.mark() {
            self.marked = true;
            return Ok(());
        }
        self.marked = false;
        self.faults = self.faults.saturating_add(1);
        Err(DeviceFault)
    }

    // Fails exactly if no place is marked. On success, the unread bytes are those of the second slice.
    fn back(&mut self) -> Result<(), DeviceFault>
        ensures succeeds { is_ok result ≡ self.old.marked }
        ensures back { HasGoneBack ⟦<Changes<'a> as Source>⟧.ahead ⟦<Changes<'a> as Source>⟧.behind
            ⟦<Changes<'a> as Source>⟧.since ⟦<Changes<'a> as Source>⟧.is_marked
            ⟦<Changes<'a> as Source>⟧.faults self.old self.new result }
        ensures second { OnOk result (⟦<Changes<'a> as Source>⟧.ahead self.new ≡ Some self.old.second.now) }
        ensures unchanged { OnErr result (self.new.source ≡ self.old.source) }
        ensures kept { (self.new.second ≡ self.old.second) × (self.new.marked ≡ self.old.marked) }
        ensures faults { IfErr result (λ _. self.new.faults ≡ min (self.old.faults + 1) (2 ^ 64 - 1)) }
    {
        if !self.marked {
            self.faults = self.faults.saturating_add(1);
            return Err(DeviceFault);
        }
        self.source = SliceSource::new(self.second);
        Ok(())
    }
}
