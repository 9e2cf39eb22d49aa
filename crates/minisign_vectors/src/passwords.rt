//! An example caller that signs with an encrypted secret key file and its password. `callers` tests
//! it.

ghost use Rattle.std.specs.Prelude.{◌≡◌, None, Ok, string_bytes, IfOk};
ghost use Rattle.minisign.specs.Signing.{SigningHeadline, given_comments};
ghost use Rattle.minisign.specs.Sealing.{key_with_password};
ghost use Rattle.minisign.specs.Records.{SecretKeyRecord};

use minisign::{Result, sign_texts};
use minisign_base::devices::random_sources::RandomSource;
use minisign_base::devices::sources::SliceSource;
use minisign_base::prompt::Prompt;
use minisign_base::scheme::Scheme;
use std::alloc::Global;

/// Decrypts the secret key in `sk_text` with the password, signs the message with it, and returns
/// the signature text. The signature is valid under the public key of exactly the key that this
/// password decrypts.
pub fn sign_with_password<S: Scheme, Z: RandomSource>(
    alloc: Global,
    scheme: &S,
    sk_text: &str,
    password: String,
    message: &[u8],
    random: &mut Z,
    unix_time: u64,
) -> Result<String>
    ensures { (key : SecretKeyRecord) → key_with_password sk_text.now (string_bytes password) ≡ Ok key →
        IfOk result (λ t. SigningHeadline (S.accepts scheme.now) (S.public_of scheme.now) key message.now
        (given_comments None None unix_time) (string_bytes t)) }
{
    sign_texts(
        alloc,
        scheme,
        sk_text,
        Some(password),
        &mut Prompt::silent(),
        &mut SliceSource::new(message),
        None,
        None,
        random,
        unix_time,
    )
}
