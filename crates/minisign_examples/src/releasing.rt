//! A caller that makes key texts and signs a release.

ghost use Rattle.std.specs.Prelude.{◌≡◌, Ok, false, string_bytes, MatchResult, IfOk, IfErr};
ghost use Rattle.minisign.specs.Records.{PublicKeyRecord, SecretKeyRecord, SignatureBoxRecord};
ghost use Rattle.minisign.specs.Acceptance.{Vouches};
ghost use Rattle.minisign.specs.Generation.{IsGenuinePair};
ghost use Rattle.minisign.specs.Headline.{TextsVouchFor};
ghost use Rattle.minisign.specs.SignatureText.{read_signature_box};
ghost use Rattle.minisign_examples.specs.Releasing.{ArePairTexts, IsMemoryOrRandomFault, IsPairFault};

use minisign::{
    KeyPair, RandomSource, Result, Scheme, SecretKey, default_comments_are_read_back,
    open_with_password, sign_bytes, verify_bytes,
};
use std::alloc::Global;

/// The files that are published together with an update.
#[derive(Debug, Drop)]
pub struct Release {
    /// The text of the public key.
    pub pk_text: String,
    /// The text of the signature.
    pub sig_text: String,
}

/// The texts of a key pair.
#[derive(Debug, Drop)]
pub struct KeyTexts {
    /// The public key.
    pub pk_text: String,
    /// The secret key, encrypted under a password.
    pub sk_text: String,
}

/// Makes a key pair that is encrypted under the password, signs the update with the text of its secret key,
/// and verifies the result with the published texts. The trusted comment is the time, in seconds since
/// 1970.
///
/// The only errors are a failed allocation, a failing random source and a password of more than 1024 bytes.
pub fn sign_release<S: Scheme, Z: RandomSource>(
    alloc: Global,
    scheme: &S,
    password: &str,
    update: &[u8],
    random: &mut Z,
    unix_time: u64,
) -> Result<Release>
    // On success, the published texts are valid for the update, whatever the scheme, the password, the
    // update and the random bytes are.
    ensures vouches { IfOk result
        (λ r. TextsVouchFor (S.accepts scheme.now) (string_bytes r.pk_text) (string_bytes r.sig_text)
        update.now false) }

    // The only errors are a failed allocation, a failing random source, and a password of more than 1024
    // bytes.
    ensures refused { IfErr result (IsPairFault password.now) }
{
    let KeyTexts { pk_text, sk_text } = make_keys(alloc, scheme, password, random)?;
    let sk = open_with_password(alloc, sk_text.as_str(), password)?;
    let sig_text = sign_update(alloc, scheme, &sk, update, random, unix_time)?;
    verify_bytes(alloc, scheme, pk_text.as_str(), sig_text.as_str(), update)?;
    Ok(Release { pk_text, sig_text })
}

/// Makes a key pair whose secret key is encrypted under the password.
pub fn make_keys<S: Scheme, Z: RandomSource>(
    alloc: Global,
    scheme: &S,
    password: &str,
    random: &mut Z,
) -> Result<KeyTexts>
    // On success, the texts are those of a key pair whose secret key is encrypted under the password.
    ensures are_pair_texts { IfOk result (λ t. (pk : PublicKeyRecord) × (sk : SecretKeyRecord)
        × ArePairTexts (S.public_of scheme.now) password.now (string_bytes t.pk_text)
        (string_bytes t.sk_text) pk sk) }

    // The only errors are a failed allocation, a failing random source, and a password of more than 1024
    // bytes.
    ensures refused { IfErr result (IsPairFault password.now) }
{
    let pair = KeyPair::generate_with_password(alloc, scheme, random, password)?;
    Ok(KeyTexts {
        pk_text: pair.pk.to_box(alloc)?.into_string(),
        sk_text: pair.sk.to_box(alloc, None)?.into_string(),
    })
}

/// Signs the update, and returns the text of the signature.
pub fn sign_update<S: Scheme, Z: RandomSource>(
    alloc: Global,
    scheme: &S,
    sk: &SecretKey,
    update: &[u8],
    random: &mut Z,
    unix_time: u64,
) -> Result<String>
    // With the secret key of a genuine pair, the returned text is valid for the update under the pair's
    // public key. The only errors then are a failed allocation and a failing random source.
    ensures { (pk : PublicKeyRecord) → IsGenuinePair (S.public_of scheme.now) pk sk.now → MatchResult result
        (λ t. (x : SignatureBoxRecord) × (read_signature_box (string_bytes t) ≡ Ok x)
        × Vouches (S.accepts scheme.now) pk x update.now false) IsMemoryOrRandomFault }
{
    default_comments_are_read_back(unix_time);
    sign_bytes(alloc, scheme, sk, update, None, random, unix_time)
}
