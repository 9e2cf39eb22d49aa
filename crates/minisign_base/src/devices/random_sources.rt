//! Sources of random bytes: the trait and its implementations.

ghost use Rattle.std.specs.Prelude.{Option, ◌≡◌, ℕ, ◌≤◌, ◌↔◌, List, length, Some, IsSomeAnd, IsOk, OnOk};
ghost use Rattle.std.specs.Prelude.{OnErr, ◌⊎◌};
ghost use Rattle.std.specs.Io.KnownBytes.{IsAtEnd};
ghost use Rattle.minisign_base.specs.Devices.{ErrorCountRises, HasFilled};

use super::sources::{Source, fill_from};
use super::{DeviceFault, FaultCount};

/// A source of random bytes.
pub trait RandomSource {
    // The bytes that will be returned next, if they are known.
    ghost random_ahead: { Self → Option (List ℕ) };

    // The number of errors so far.
    ghost random_faults: { Self → ℕ };

    /// Fills `buf` with the next bytes. Too few bytes are an error. After an error some bytes of the source
    /// may be lost, or its bytes may no longer be known, and the contents of `buf` are unspecified.
    fn fill(&mut self, buf: &mut [u8]) -> Result<(), DeviceFault>
        // On success, `buf` holds the next random bytes, and the error count is unchanged. After an error,
        // the error count has risen.
        ensures { HasFilled random_ahead random_faults self.old self.new buf.new result };
}

/// Returns the bytes of a slice, in order. Fails exactly if too few bytes are left, and then returns none.
#[derive(Drop)]
pub struct FixedRandom<'a> {
    rest: &'a [u8],
    faults: FaultCount,
}

impl<'a> FixedRandom<'a> {
    /// Returns a random source that will return the bytes of the slice.
    pub fn new(bytes: &'a [u8]) -> FixedRandom<'a>
        ensures ahead { ⟦<FixedRandom<'a> as RandomSource>⟧.random_ahead result ≡ Some bytes.now }
        ensures faults { ⟦<FixedRandom<'a> as RandomSource>⟧.random_faults result ≡ 0 }
    {
        FixedRandom {
            rest: bytes,
            faults: FaultCount(0),
        }
    }
}

impl<'a> RandomSource for FixedRandom<'a> {
    ghost random_ahead = { λ s. Some s.rest.now };

    ghost random_faults = { λ s. s.faults.0 };

    // Fails exactly if fewer bytes are left than `buf` has, and then the bytes that are left are unchanged.
    fn fill(&mut self, buf: &mut [u8]) -> Result<(), DeviceFault>
        ensures succeeds_if_enough { IsOk result ↔ IsSomeAnd
            (⟦<FixedRandom<'a> as RandomSource>⟧.random_ahead self.old)
            (λ xs. length buf.old ≤ length xs) }
        ensures fill { HasFilled ⟦<FixedRandom<'a> as RandomSource>⟧.random_ahead
            ⟦<FixedRandom<'a> as RandomSource>⟧.random_faults self.old self.new buf.new result }
        ensures unchanged { OnErr result
            (⟦<FixedRandom<'a> as RandomSource>⟧.random_ahead self.new
            ≡ ⟦<FixedRandom<'a> as RandomSource>⟧.random_ahead self.old) }
    {
        if self.rest.len() < buf.len() {
            return Err(self.faults.raise());
        }
        let (front, rest) = self.rest.split_at(buf.len());
        buf.copy_from_slice(front);
        self.rest = rest;
        Ok(())
    }
}

/// Returns the bytes of a source, in order. Fails only if the source fails or ends.
#[derive(Drop)]
pub struct SourceRandom<S> {
    /// The source of the bytes.
    pub source: S,
    faults: FaultCount,
}

impl<S: Source> SourceRandom<S> {
    /// Returns a random source that will return the unread bytes of `source`.
    pub fn new(source: S) -> SourceRandom<S>
        ensures ahead { ⟦<SourceRandom<S> as RandomSource>⟧.random_ahead result ≡ S.ahead source }
        ensures faults { ⟦<SourceRandom<S> as RandomSource>⟧.random_faults result ≡ 0 }
        ensures source { result.source ≡ source }
    {
        SourceRandom {
            source,
            faults: FaultCount(0),
        }
    }
}

impl<S: Source> RandomSource for SourceRandom<S> {
    ghost random_ahead = { λ s. S.ahead s.source };

    ghost random_faults = { λ s. s.faults.0 };

    // Fails only if the source failed or ended. On success, the source's error count is unchanged.
    fn fill(&mut self, buf: &mut [u8]) -> Result<(), DeviceFault>
        ensures fill { HasFilled ⟦<SourceRandom<S> as RandomSource>⟧.random_ahead
            ⟦<SourceRandom<S> as RandomSource>⟧.random_faults self.old self.new buf.new result }
        ensures source_no_new_fault { OnOk result (S.faults self.new.source ≡ S.faults self.old.source) }
        ensures refused { OnErr result (ErrorCountRises (S.faults self.old.source) (S.faults self.new.source)
            ⊎ IsAtEnd (S.ahead self.new.source)) }
    {
        match fill_from(&mut self.source, buf) {
            Ok(()) => Ok(()),
            Err(_) => Err(self.faults.raise()),
        }
    }
}
