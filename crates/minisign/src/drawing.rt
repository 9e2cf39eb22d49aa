//! Generates random fields of fixed size.

ghost use Rattle.std.specs.Prelude.{◌≡◌, ◌++◌, length, IfOk, IfErr, OnOk};
ghost use Rattle.minisign_base.specs.Devices.{PrefixIsRemoved};
ghost use Rattle.minisign_base.specs.DeviceCalls.{random_call};
ghost use Rattle.minisign_base.specs.Scheme.{IsBytes};
ghost use Rattle.minisign_base.specs.declared.faults.NamedFault.TheVariants.{RandomSourceFailed};
ghost use Rattle.minisign.specs.Reading.{HasFailed};
ghost use Rattle.minisign.specs.Signing.{HasDrawn};

use minisign_base::devices::random_sources::RandomSource;
use minisign_base::{NamedFault, Result};

// Returns the next `N` random bytes.
pub(crate) fn draw<const N: usize, Z: RandomSource>(random: &mut Z) -> Result<[u8; N]>
    ensures drawn { IfOk result
        (λ z. HasDrawn (random_call Z.RandomSource random.old random.new) z) }
    ensures no_new_fault { OnOk result (Z.random_faults random.new ≡ Z.random_faults random.old) }
    ensures refused { IfErr result
        (HasFailed RandomSourceFailed Z.random_faults random.old random.new) }
    ensures prefix_removed { PrefixIsRemoved (Z.random_ahead random.old) (Z.random_ahead random.new) }
{
    let mut bytes = [0u8; N];
    random
        .fill(&mut bytes)
        .map_err(|_| NamedFault::RandomSourceFailed)?;
    Ok(bytes)
}

// Returns the next `N` random bytes and the `M` after them.
#[tactic(auto, using(crate::proofs::ErrorsAndPrefixes::removed_after_consumed))]
pub(crate) fn draw_two<const N: usize, const M: usize, Z: RandomSource>(
    random: &mut Z,
) -> Result<([u8; N], [u8; M])>
    ensures drawn { IfOk result
        (λ z. HasDrawn (random_call Z.RandomSource random.old random.new) (z.0 ++ z.1)) }
    ensures first { IfOk result (λ z. IsBytes z.0 × (length z.0 ≡ N)) }
    ensures second { IfOk result (λ z. IsBytes z.1 × (length z.1 ≡ M)) }
    ensures no_new_fault { OnOk result (Z.random_faults random.new ≡ Z.random_faults random.old) }
    ensures refused { IfErr result
        (HasFailed RandomSourceFailed Z.random_faults random.old random.new) }
    ensures prefix_removed { PrefixIsRemoved (Z.random_ahead random.old) (Z.random_ahead random.new) }
{
    let first = draw(random)?;
    let second = draw(random)?;
    Ok((first, second))
}
