//! Makes the texts of keys from a key ID and secret bytes, for example to change a password or to write the
//! public key of a secret key again.

ghost use Rattle.std.specs.Prelude.{◌≡◌, ◌≤◌, ◌+◌, List, ℕ, Some, Ok, IfOk, IfErr, length};
ghost use Rattle.std.specs.Str.Iter.{LacksByte};
ghost use Rattle.std.specs.Option.{option_map};
ghost use Rattle.minisign_base.specs.Fault.{Named};
ghost use Rattle.minisign_base.specs.declared.faults.NamedFault.TheVariants.{OutOfMemory};
ghost use Rattle.minisign.specs.Generation.{unsealed_key, IsMadeText, making_fault};
ghost use Rattle.minisign.specs.KeyTexts.{commented_public_key_text, read_public_key};
ghost use Rattle.minisign.specs.Records.{own_public_key};

use crate::public_key::PublicKey;
use crate::public_key_box::PublicKeyBox;
use crate::secret_key::SecretKey;
use crate::secret_key_box::SecretKeyBox;
use minisign_base::Result;
use std::alloc::Global;

/// The salt and the limits with which `make_secret_key` encrypts a key, with C layout. The limits have the
/// same meaning as for libsodium's `crypto_pwhash_scryptsalsa208sha256`.
#[repr(C)]
#[derive(Clone, Copy)]
pub struct Sealing {
    /// The salt: 32 random bytes that are used for no other key.
    pub salt: [u8; 32],
    /// The operations limit: how much work scrypt does.
    pub operations_limit: u64,
    /// The memory limit in bytes.
    pub memory_limit: u64,
}

/// Makes the text of a secret key from a key ID of 8 bytes and 64 secret bytes, a seed followed by its
/// public key. With a password, the key is encrypted under it with the salt and limits of `sealing`.
/// Without one, the key is not encrypted, `sealing` is ignored, and the text has zeros for the salt and the
/// limits.
///
/// The text decrypts under the password to exactly this key, or parses to this key if there is no password.
/// The comment is in its first line. The text is 233 bytes longer than the comment. scrypt keeps every k-th
/// row, k at least 1, as in `SecretKey::from_box_keeping`; the text is the same for every k.
///
/// Errors, with a password: a memory limit above 1073741824 bytes or a cost above 2^20,
/// `ParametersTooHigh`; limits that give parameters that scrypt rejects, `InvalidParameters`. These checks
/// do not allocate. After them an allocation may fail. A comment with a line feed is written unchanged, and
/// the text then parses to no key or to a different one.
pub fn make_secret_key(
    alloc: Global,
    key_id: [u8; 8],
    secret: [u8; 64],
    password: Option<&str>,
    sealing: &Sealing,
    k: u64,
    comment: &str,
) -> Result<SecretKeyBox>
    requires k_positive { 1 ≤ k }

    // On success, the result is the text, with the comment, of the secret key of these parts, encrypted
    // under the password with the given salt and limits, or unencrypted if there is no password. It is 233
    // bytes longer than the comment. If the comment has no line feed, the text decrypts under the password
    // to the key of these parts and to no other key, unless the caller's bound on the parallelization p is
    // below the p of the limits; without a password, it parses to this key and to no other. All this holds
    // for every salt, all limits and every k.
    ensures text { IfOk result (IsMadeText key_id secret (option_map (λ p. p.now) password.entry) sealing.now
        comment.now) }

    // If a password is given and its limits are not allowed, the only error is the one for the limits.
    // Otherwise the only error is out of memory.
    ensures refused { IfErr result
        (λ e. e ≡ making_fault (option_map (λ p. p.now) password.entry) sealing.now) }
{
    let sk = SecretKey::from_parts(key_id, secret);
    match password {
        Some(password) => make_sealed(alloc, sk, password.as_bytes(), *sealing, k, comment),
        None => sk.to_box(alloc, Some(comment)),
    }
}

// Encrypts the key and returns its text.
fn make_sealed(
    alloc: Global,
    sk: SecretKey,
    password: &[u8],
    sealing: Sealing,
    k: u64,
    comment: &str,
) -> Result<SecretKeyBox>
    requires { 1 ≤ k }
    ensures text { (keynum secret : List ℕ) → sk ≡ unsealed_key keynum secret
        → IfOk result (IsMadeText keynum secret (Some password.now) sealing comment.now) }
    ensures refused { IfErr result (λ e. e ≡ making_fault (Some password.now) sealing) }
{
    let sealed = sk.seal_by(alloc, password, sealing, k)?;
    sealed.to_box(alloc, Some(comment))
}

/// Makes the text of the public key with this key ID and the last 32 of the secret bytes. It belongs to the
/// secret key that `make_secret_key` makes from the same parts. The text is 77 bytes longer than the comment,
/// which is in its first line. Minisign's own comment is `minisign public key ` and the key ID, read little
/// endian, in uppercase hexadecimal digits without leading zeros.
///
/// Fails only if an allocation fails. A comment with a line feed is written unchanged, and the text then
/// parses to no key or to a different one.
pub fn make_public_key(
    alloc: Global,
    key_id: [u8; 8],
    secret: [u8; 64],
    comment: &str,
) -> Result<PublicKeyBox>
    // On success, the result is the text of the public key of these parts with the comment, in the form
    // that `specs/KeyTexts` defines. It is 77 bytes longer than the comment. If the comment has no line
    // feed, the text parses to the public key of these parts, which is that of the secret key made of them.
    // The only error is out of memory.
    ensures written { IfOk result (λ t. t ≡ commented_public_key_text comment.now
        (own_public_key (unsealed_key key_id secret))) }
    ensures reads { LacksByte 10 comment.now
        → IfOk result (λ t. read_public_key t ≡ Ok (own_public_key (unsealed_key key_id secret))) }
    ensures size { IfOk result (λ t. length t ≡ length comment.now + 77) }
    ensures only_out_of_memory { IfErr result (λ e. e ≡ Named OutOfMemory) }
{
    let sk = SecretKey::from_parts(key_id, secret);
    let pk = PublicKey::from_secret_key(&sk)?;
    pk.to_box_with_comment(alloc, comment)
}
