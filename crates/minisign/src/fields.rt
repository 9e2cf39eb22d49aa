//! Splits records into fields of fixed size, and appends fields to records.

ghost use Rattle.std.specs.Prelude.{◌≡◌, ◌+◌, ◌<◌, ◌++◌, length, IfOk, IfErr, MatchResult};
ghost use Rattle.minisign_base.specs.Fault.{Named};
ghost use Rattle.minisign_base.specs.declared.faults.NamedFault.TheVariants.{OutOfMemory, RecordTooShort};

use minisign_base::{NamedFault, Result};

// Splits off the first `A` bytes, the next `B` and the next `C`. The last result is the rest.
pub(crate) fn split_three<const A: usize, const B: usize, const C: usize>(
    bytes: &[u8],
) -> Result<([u8; A], [u8; B], [u8; C], &[u8])>
    ensures cut { IfOk result (λ fields. bytes.now ≡ fields.0 ++ fields.1 ++ fields.2 ++ fields.3.now) }
    ensures first { IfOk result (λ fields. length fields.0 ≡ A) }
    ensures second { IfOk result (λ fields. length fields.1 ≡ B) }
    ensures third { IfOk result (λ fields. length fields.2 ≡ C) }
    ensures fails_if_too_short { IfErr result (λ e. (e ≡ Named RecordTooShort)
        × (length bytes.now < A + B + C)) }
{
    let Some((first, rest)) = bytes.split_first_chunk() else {
        return Err(NamedFault::RecordTooShort.into());
    };
    let Some((second, rest)) = rest.split_first_chunk() else {
        return Err(NamedFault::RecordTooShort.into());
    };
    let Some((third, rest)) = rest.split_first_chunk() else {
        return Err(NamedFault::RecordTooShort.into());
    };
    Ok((*first, *second, *third, rest))
}

pub(crate) fn push_three(
    bytes: &mut Vec<u8>,
    first: &[u8],
    second: &[u8],
    third: &[u8],
) -> Result<()>
    ensures { MatchResult result
        (λ _. bytes.new.items ≡ bytes.old.items ++ (first.now ++ second.now ++ third.now))
        (λ e. e ≡ Named OutOfMemory) }
{
    bytes.extend_from_slice(first)?;
    bytes.extend_from_slice(second)?;
    bytes.extend_from_slice(third)?;
    Ok(())
}
