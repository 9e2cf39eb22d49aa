//! A caller that accepts an update only if its signature is valid and its trusted comment is the
//! expected name.

ghost use Rattle.minisign.specs.Texts.{IsValueOrNoMemory};
ghost use Rattle.minisign_examples.specs.Updating.{named_verdict};

use minisign::{ErrorKind, PError, Result, Scheme, verify_bytes};
use std::alloc::Global;

/// Accepts an update exactly if its signature is valid under this public key and the trusted
/// comment is this name, such as `tool-1.2.tar`. Without the name, somebody could pass off an older
/// release as a newer one. Otherwise returns the error of the first check that fails, or out of
/// memory.
pub fn check_update<S: Scheme>(
    alloc: Global,
    scheme: &S,
    pk_text: &str,
    sig_text: &str,
    update: &[u8],
    name: &str,
) -> Result<()>
    ensures { IsValueOrNoMemory result (named_verdict (S.accepts scheme.now) pk_text.now sig_text.now
        update.now name.now) }
{
    let comment = verify_bytes(alloc, scheme, pk_text, sig_text, update)?;
    if comment.as_str() != name {
        return Err(PError::fixed(ErrorKind::Verify, "the update has another name"));
    }
    Ok(())
}
