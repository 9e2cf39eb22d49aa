//! A caller that signs a message and verifies the signature, with keys that are parsed and
//! decrypted already.

ghost use Rattle.std.specs.Prelude.{◌≡◌, ◌⊎◌, ℕ, List, None, false, string_bytes, IfOk, IfErr};
ghost use Rattle.minisign.specs.Fault.{Named};
ghost use Rattle.minisign.specs.NamedFaults.{OutOfMemory, RandomSourceFailed};
ghost use Rattle.minisign.specs.DeviceCalls.{random_call};
ghost use Rattle.minisign.specs.Headline.{TextsVouchFor};
ghost use Rattle.minisign.specs.KeyTexts.{public_key_text};
ghost use Rattle.minisign.specs.Signing.{IsGenuine, given_comments, IsSignedText};

use minisign::{
    PublicKey, RandomSource, Result, Scheme, SecretKey, default_comments_are_read_back, sign_bytes,
    verify_bytes,
};
use std::alloc::Global;

/// Signs the message, and verifies the signature under the public key. The trusted comment is the time, in
/// seconds since 1970.
///
/// The returned signature text is valid for the message. With a genuine secret key and its own public key,
/// the call fails only if an allocation or the random source fails, never because of the signature.
pub fn sign_and_verify<S: Scheme, Z: RandomSource>(
    alloc: Global,
    scheme: &S,
    secret_key: &SecretKey,
    public_key: &PublicKey,
    message: &[u8],
    random: &mut Z,
    unix_time: u64,
) -> Result<String>
    // On success, the result is the text of the signature box that signing makes for the message.
    ensures signed { IfOk result (λ t. IsSignedText (S.signature_of scheme.now) secret_key.now message.now
        (given_comments None None unix_time) (random_call Z.RandomSource random.old random.new)
        (string_bytes t)) }

    // On success, the text is valid for the message under the public key.
    ensures accepted { IfOk result
        (λ t. TextsVouchFor (S.accepts scheme.now) (public_key_text public_key.now) (string_bytes t)
        message.now false) }

    // With a genuine secret key and its own public key, the only errors are a failed allocation and a
    // failing random source.
    ensures genuine { (seed : List ℕ) → IsGenuine (S.public_of scheme.now) secret_key.now seed
        → public_key.now.key ≡ S.public_of scheme.now seed → public_key.now.keynum ≡ secret_key.now.keynum
        → IfErr result (λ e. (e ≡ Named OutOfMemory) ⊎ (e ≡ Named RandomSourceFailed)) }
{
    default_comments_are_read_back(unix_time);
    let sig_text = sign_bytes(alloc, scheme, secret_key, message, None, random, unix_time)?;
    let pk_text = public_key.to_box(alloc)?.into_string();
    verify_bytes(alloc, scheme, pk_text.as_str(), sig_text.as_str(), message)?;
    Ok(sig_text)
}
