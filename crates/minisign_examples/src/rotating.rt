//! A caller that knows an old public key and learns a new one, whose text is signed with the old key.

ghost use Rattle.minisign.specs.Texts.{IsValueOrNoMemory, map_ok};
ghost use Rattle.minisign_examples.specs.NewKeys.{verdict_by_new_key};

use minisign::{Result, Scheme, verify_bytes};
use std::alloc::Global;

/// The text of a new public key, and the text of its signature by the old key.
#[derive(Clone, Copy, Debug, Drop)]
pub struct NewKey<'a> {
    /// The text of the new public key.
    pub pk_text: &'a str,
    /// The text of the signature of that text.
    pub sig_text: &'a str,
}

/// Succeeds exactly if the old key's signature is valid for the text of the new key and the new
/// key's signature is valid for the update, unless an allocation fails. Otherwise returns the error
/// of the first check that fails. The new key is checked before the update.
pub fn check_with_new_key<S: Scheme>(
    alloc: Global,
    scheme: &S,
    old_text: &str,
    new_key: NewKey,
    sig_text: &str,
    update: &[u8],
) -> Result<()>
    ensures { IsValueOrNoMemory result (map_ok (λ _. tt) (verdict_by_new_key (S.accepts scheme.now)
        old_text.now new_key.entry.sig_text.now new_key.entry.pk_text.now sig_text.now update.now)) }
{
    verify_bytes(
        alloc,
        scheme,
        old_text,
        new_key.sig_text,
        new_key.pk_text.as_bytes(),
    )?;
    verify_bytes(alloc, scheme, new_key.pk_text, sig_text, update)?;
    Ok(())
}
