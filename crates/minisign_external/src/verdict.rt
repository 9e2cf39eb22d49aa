//! The verdict from the results of the two Ed25519 checks.

ghost use Rattle.std.specs.Prelude.{◌≡◌, ◌&&◌, Ok};
ghost use Rattle.minisign_base.specs.declared.faults.NamedFault.TheVariants.{CommentSignatureRefused};
ghost use Rattle.minisign.specs.Acceptance.{judge_answers};
ghost use Rattle.minisign.specs.Texts.{require};

use minisign_base::{NamedFault, Result};

/// Combines the results of the two Ed25519 checks: succeeds exactly if both are true and the comment
/// signature has at least 64 bytes, so that the second check could be made. `whole` is true if it has at
/// least 64 bytes.
///
/// The errors are, in this order: `SignatureRefused`, if `first` is false; `CommentSignatureRefused`, if the
/// comment signature is too short or `second` is false. Does not allocate.
pub fn verdict(whole: bool, first: bool, second: bool) -> Result<()>
    ensures { result ≡ judge_answers first (whole && second) }
{
    if !first {
        return Err(NamedFault::SignatureRefused.into());
    }
    comment_verdict(whole, second)
}

/// Returns the verdict on the comment signature only: succeeds exactly if the comment signature has at least
/// 64 bytes (`whole` is true) and `second` is true; otherwise the error is `CommentSignatureRefused`. Does
/// not allocate.
pub fn comment_verdict(whole: bool, second: bool) -> Result<()>
    ensures { result ≡ require (whole && second) CommentSignatureRefused (Ok tt) }
{
    if !whole || !second {
        return Err(NamedFault::CommentSignatureRefused.into());
    }
    Ok(())
}
