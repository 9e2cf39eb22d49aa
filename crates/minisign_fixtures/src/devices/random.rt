//! A random source that fails once.

ghost use Rattle.std.specs.Prelude.{◌≡◌, ◌↔◌, ◌+◌, ◌-◌, ◌^◌, ◌≤◌, Some, false, IsTrue, IfErr, IsOk};
ghost use Rattle.std.specs.Prelude.{IsSomeAnd, OnErr, length, min};
ghost use Rattle.minisign_base.specs.Devices.{HasFilled};
ghost use Rattle.minisign_fixtures.specs.Turns.{after_call, failure_after, next_succeeds};

use crate::devices::turn::Turn;
use minisign_base::devices::DeviceFault;
use minisign_base::devices::random_sources::{FixedRandom, RandomSource};

/// A random source that returns the bytes of a slice, in order. One of its fills fails; later fills
/// succeed.
#[derive(Drop)]
pub struct FailingRandom<'a> {
    /// The source of the bytes.
    pub random: FixedRandom<'a>,
    turn: Turn,
    faults: u64,
}

impl<'a> FailingRandom<'a> {
    /// Returns a random source of the slice that fails after this number of fills.
    pub fn new(bytes: &'a [u8], calls: usize) -> FailingRandom<'a>
        ensures ahead { ⟦<FailingRandom<'a> as RandomSource>⟧.random_ahead result ≡ Some bytes.now }
        ensures faults { ⟦<FailingRandom<'a> as RandomSource>⟧.random_faults result ≡ 0 }
        ensures turn { result.turn ≡ failure_after calls false }
    {
        FailingRandom {
            random: FixedRandom::new(bytes),
            turn: Turn::one_failure_after(calls),
            faults: 0,
        }
    }
}

impl<'a> RandomSource for FailingRandom<'a> {
    ghost random_ahead = { λ s. ⟦<FixedRandom<'a> as RandomSource>⟧.random_ahead s.random };

    ghost random_faults = { λ s. s.faults };

    // Fails exactly if it is the turn of this fill to fail, or if fewer bytes are left than `buf` has. Then
    // the bytes that are left are unchanged.
    fn fill(&mut self, buf: &mut [u8]) -> Result<(), DeviceFault>
        ensures succeeds { IsOk result ↔ (IsTrue (next_succeeds self.old.turn)
            × IsSomeAnd (⟦<FixedRandom<'a> as RandomSource>⟧.random_ahead self.old.random)
            (λ xs. length buf.old ≤ length xs)) }
        ensures fill { HasFilled ⟦<FailingRandom<'a> as RandomSource>⟧.random_ahead
            ⟦<FailingRandom<'a> as RandomSource>⟧.random_faults self.old self.new buf.new result }
        ensures unchanged { OnErr result (⟦<FailingRandom<'a> as RandomSource>⟧.random_ahead self.new
            ≡ ⟦<FailingRandom<'a> as RandomSource>⟧.random_ahead self.old) }
        ensures turn { self.new.turn ≡ after_call self.old.turn }
        ensures faults { IfErr result (λ _. self.new.faults ≡ min (self.old.faults + 1) (2 ^ 64 - 1)) }
    {
        if self.turn.passes() {
            if let Ok(()) = self.random.fill(buf) {
                return Ok(());
            }
        }
        self.faults = self.faults.saturating_add(1);
        Err(DeviceFault)
    }
}
