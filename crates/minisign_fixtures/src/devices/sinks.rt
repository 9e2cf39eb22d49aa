//! Sinks (writers) for tests: `LimitedSink` accepts a limited number of bytes or fails,
//! `BufferedSink` holds bytes back until a flush, and `Counting` only counts bytes.

ghost use Rattle.std.specs.Prelude.{◌≡◌, ◌++◌, ◌+◌, ◌-◌, ◌^◌, ◌&&◌, Some, None, [], true, false};
ghost use Rattle.std.specs.Prelude.{IfErr, IfOk, IsOk, IsOkAnd, OnOk, is_ok, length, ltb, min};
ghost use Rattle.minisign_base.specs.Devices.{HasFlushed, HasWritten};
ghost use Rattle.minisign_fixtures.specs.Turns.{after_call, failure_after, next_succeeds, no_failure};

use crate::devices::turn::Turn;
use minisign_base::devices::DeviceFault;
use minisign_base::devices::sinks::{Sink, VecSink};
use std::alloc::Global;

/// A sink with limits on its size, on the bytes of each write and on the number of flushes. One of
/// its calls can also be made to fail. The received bytes can be read at any time, even after a
/// failure.
#[derive(Drop)]
pub struct LimitedSink {
    taken: VecSink,
    // The number of bytes that it can still receive.
    room: usize,
    // The greatest number of bytes for each write.
    most: usize,
    // The number of flushes that still succeed.
    flushes: usize,
    // The call that fails.
    turn: Turn,
    faults: u64,
}

impl LimitedSink {
    /// Returns an empty sink with space for `room` bytes and no limit on writes and flushes.
    pub fn new(alloc: Global, room: usize) -> LimitedSink
        ensures taken { ⟦<LimitedSink as Sink>⟧.taken result ≡ Some [] }
        ensures faults { ⟦<LimitedSink as Sink>⟧.sink_faults result ≡ 0 }
        ensures limits { (result.room ≡ room) × (result.most ≡ 2 ^ 64 - 1) × (result.flushes ≡ 2 ^ 64 - 1) }
        ensures turn { result.turn ≡ no_failure }
    {
        LimitedSink {
            taken: VecSink::new(alloc),
            room,
            most: usize::MAX,
            flushes: usize::MAX,
            turn: Turn::never(),
            faults: 0,
        }
    }

    /// Limits each write to this number of bytes.
    pub fn max_per_write(mut self, most: usize) -> LimitedSink
        ensures limit { result.most ≡ most }
        ensures kept { (result.taken ≡ self.taken) × (result.room ≡ self.room)
            × (result.flushes ≡ self.flushes) × (result.turn ≡ self.turn) × (result.faults ≡ self.faults) }
    {
        self.most = most;
        self
    }

    /// Lets this number of flushes succeed. All later flushes fail.
    pub fn flushed(mut self, times: usize) -> LimitedSink
        ensures limit { result.flushes ≡ times }
        ensures kept { (result.taken ≡ self.taken) × (result.room ≡ self.room) × (result.most ≡ self.most)
            × (result.turn ≡ self.turn) × (result.faults ≡ self.faults) }
    {
        self.flushes = times;
        self
    }

    /// Makes one call fail: the write or flush after this number of writes and flushes. Later calls
    /// succeed.
    pub fn failing_after(mut self, calls: usize) -> LimitedSink
        ensures turn { result.turn ≡ failure_after calls false }
        ensures kept { (result.taken ≡ self.taken) × (result.room ≡ self.room) × (result.most ≡ self.most)
            × (result.flushes ≡ self.flushes) × (result.faults ≡ self.faults) }
    {
        self.turn = Turn::one_failure_after(calls);
        self
    }

    /// Returns the bytes received so far.
    pub fn as_slice(&self) -> &[u8]
        ensures { ⟦<LimitedSink as Sink>⟧.taken self.now ≡ Some result.now }
    {
        self.taken.as_slice()
    }
}

impl Sink for LimitedSink {
    ghost taken = { λ s. ⟦<VecSink as Sink>⟧.taken s.taken };

    ghost sink_faults = { λ s. s.faults };

    // On success, as many bytes were written as the limits allow. Fails if it is the turn of this call to
    // fail, if there are bytes but the limits allow none, or if an allocation fails.
    fn write(&mut self, bytes: &[u8]) -> Result<usize, DeviceFault>
        ensures takes { IfOk result (λ n. (n ≡ min (min (length bytes.now) self.old.room) self.old.most)
            × (next_succeeds self.old.turn ≡ true)) }
        ensures write { HasWritten ⟦<LimitedSink as Sink>⟧.taken ⟦<LimitedSink as Sink>⟧.flushed
            ⟦<LimitedSink as Sink>⟧.sink_faults self.old self.new bytes.now result }
        ensures room { IfOk result (λ n. self.new.room ≡ self.old.room - n) }
        ensures refused { IfErr result (λ _. (self.new.room ≡ self.old.room)
            × (self.new.faults ≡ min (self.old.faults + 1) (2 ^ 64 - 1))) }
        ensures kept { (self.new.most ≡ self.old.most) × (self.new.flushes ≡ self.old.flushes) }
        ensures turn { self.new.turn ≡ after_call self.old.turn }
    {
        let n = bytes.len().min(self.room).min(self.most);
        let written = if self.turn.passes() && (n > 0 || bytes.is_empty()) {
            self.taken.write(&bytes[..n])
        } else {
            Err(DeviceFault)
        };
        match written {
            Ok(taken) => self.room -= taken,
            Err(_) => self.faults = self.faults.saturating_add(1),
        }
        written
    }

    // Fails exactly if it is the turn of this call to fail, or if no flush may succeed any more.
    fn flush(&mut self) -> Result<(), DeviceFault>
        ensures succeeds { is_ok result ≡ (next_succeeds self.old.turn && ltb 0 self.old.flushes) }
        ensures flush { HasFlushed ⟦<LimitedSink as Sink>⟧.taken ⟦<LimitedSink as Sink>⟧.flushed
            ⟦<LimitedSink as Sink>⟧.sink_faults self.old self.new result }
        ensures counted { OnOk result (self.new.flushes + 1 ≡ self.old.flushes) }
        ensures refused { IfErr result (λ _. (self.new.flushes ≡ self.old.flushes)
            × (self.new.faults ≡ min (self.old.faults + 1) (2 ^ 64 - 1))) }
        ensures kept { (self.new.room ≡ self.old.room) × (self.new.most ≡ self.old.most)
            × (self.new.taken ≡ self.old.taken) }
        ensures turn { self.new.turn ≡ after_call self.old.turn }
    {
        if self.turn.passes() && self.flushes > 0 {
            self.flushes -= 1;
            return Ok(());
        }
        self.faults = self.faults.saturating_add(1);
        Err(DeviceFault)
    }
}

/// A sink like a buffered file: written bytes wait in a buffer until a flush passes them on to a
/// second one. It fails only if an allocation fails.
#[derive(Drop)]
pub struct BufferedSink {
    flushed_bytes: Vec<u8>,
    waiting: Vec<u8>,
    faults: u64,
}

impl BufferedSink {
    /// Returns an empty sink.
    pub fn new(alloc: Global) -> BufferedSink
        ensures taken { ⟦<BufferedSink as Sink>⟧.taken result ≡ Some [] }
        ensures flushed { ⟦<BufferedSink as Sink>⟧.flushed result ≡ Some [] }
        ensures faults { ⟦<BufferedSink as Sink>⟧.sink_faults result ≡ 0 }
    {
        BufferedSink {
            flushed_bytes: Vec::new(alloc),
            waiting: Vec::new(alloc),
            faults: 0,
        }
    }

    /// Returns the bytes that were flushed.
    pub fn flushed_bytes(&self) -> &[u8]
        ensures { ⟦<BufferedSink as Sink>⟧.flushed self.now ≡ Some result.now }
    {
        self.flushed_bytes.as_slice()
    }

    /// Returns the bytes that were received since the last flush.
    pub fn waiting(&self) -> &[u8]
        ensures { result.now ≡ self.now.waiting.items }
    {
        self.waiting.as_slice()
    }
}

impl Sink for BufferedSink {
    ghost taken = { λ s. Some (s.flushed_bytes.items ++ s.waiting.items) };

    ghost flushed = { λ s. Some s.flushed_bytes.items };

    ghost sink_faults = { λ s. s.faults };

    // On success, all bytes wait for the next flush. Fails only if an allocation fails.
    fn write(&mut self, bytes: &[u8]) -> Result<usize, DeviceFault>
        ensures takes { IfOk result (λ n. n ≡ length bytes.now) }
        ensures write { HasWritten ⟦<BufferedSink as Sink>⟧.taken ⟦<BufferedSink as Sink>⟧.flushed
            ⟦<BufferedSink as Sink>⟧.sink_faults self.old self.new bytes.now result }
        ensures waiting { OnOk result (self.new.waiting.items ≡ self.old.waiting.items ++ bytes.now) }
        ensures refused { IfErr result (λ _. (self.new.waiting.items ≡ self.old.waiting.items)
            × (self.new.faults ≡ min (self.old.faults + 1) (2 ^ 64 - 1))) }
        ensures kept { self.new.flushed_bytes.items ≡ self.old.flushed_bytes.items }
    {
        match self.waiting.extend_from_slice(bytes) {
            Ok(()) => Ok(bytes.len()),
            Err(_) => {
                self.faults = self.faults.saturating_add(1);
                Err(DeviceFault)
            }
        }
    }

    // On success, no bytes wait any more. Fails only if an allocation fails.
    fn flush(&mut self) -> Result<(), DeviceFault>
        ensures flush { HasFlushed ⟦<BufferedSink as Sink>⟧.taken ⟦<BufferedSink as Sink>⟧.flushed
            ⟦<BufferedSink as Sink>⟧.sink_faults self.old self.new result }
        ensures waiting { OnOk result (self.new.waiting.items ≡ []) }
        ensures flushed { OnOk result
            (self.new.flushed_bytes.items ≡ self.old.flushed_bytes.items ++ self.old.waiting.items) }
        ensures refused { IfErr result (λ _. (self.new.waiting.items ≡ self.old.waiting.items)
            × (self.new.flushed_bytes.items ≡ self.old.flushed_bytes.items)
            × (self.new.faults ≡ min (self.old.faults + 1) (2 ^ 64 - 1))) }
    {
        match self.flushed_bytes.extend_from_slice(&self.waiting) {
            Ok(()) => {
                self.waiting.clear();
                Ok(())
            }
            Err(_) => {
                self.faults = self.faults.saturating_add(1);
                Err(DeviceFault)
            }
        }
    }
}

/// A sink that accepts everything and only counts the bytes, so it does not allocate.
#[derive(Drop)]
pub struct Counting {
    /// The number of bytes received.
    pub bytes: usize,
}

impl Sink for Counting {
    ghost taken = { λ _. None };

    ghost sink_faults = { λ _. 0 };

    // Always succeeds, and accepts all bytes.
    fn write(&mut self, bytes: &[u8]) -> Result<usize, DeviceFault>
        ensures takes { IsOkAnd result (λ n. n ≡ length bytes.now) }
        ensures write { HasWritten ⟦<Counting as Sink>⟧.taken ⟦<Counting as Sink>⟧.flushed
            ⟦<Counting as Sink>⟧.sink_faults self.old self.new bytes.now result }
        ensures counted { self.new.bytes ≡ min (self.old.bytes + length bytes.now) (2 ^ 64 - 1) }
    {
        self.bytes = self.bytes.saturating_add(bytes.len());
        Ok(bytes.len())
    }

    // Always succeeds.
    fn flush(&mut self) -> Result<(), DeviceFault>
        ensures succeeds { IsOk result }
        ensures unchanged { self.new ≡ self.old }
    {
        Ok(())
    }
}
