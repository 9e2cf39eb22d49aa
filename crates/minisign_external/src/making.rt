//! Encodes the secret key file and the public key file of an open key, to change its password or to recover
//! its public key.

ghost use Rattle.std.specs.Prelude.{◌≡◌, ◌<◌, ◌≤◌, ◌+◌, Some, drop, true, false, OnOk};
ghost use Rattle.std.specs.Prelude.{OnErr, IfOk, IfErr, Ok, length, string_bytes};
ghost use Rattle.std.specs.Option.{option_copied};
ghost use Rattle.std.specs.Str.Iter.{LacksByte};
ghost use Rattle.minisign_base.specs.Fault.{Named};
ghost use Rattle.minisign_base.specs.declared.faults.NamedFault.TheVariants.{OutOfMemory};
ghost use Rattle.minisign.specs.KeyTexts.{commented_public_key_text, read_public_key, read_secret_key};
ghost use Rattle.minisign.specs.KeyTexts.{secret_key_text};
ghost use Rattle.minisign_external.specs.PublicKeys.{is_public_key};
ghost use Rattle.minisign_external.specs.Making.{HoldsReadPublicKey, HoldsReadSecretKey, IsEncodingRefusal};
ghost use Rattle.minisign_external.specs.ValueRecords.{written_public_key};
ghost use Rattle.minisign_external.specs.Making.{HoldsPublicKey, HoldsSecretKey, IsMadeRefusal};
ghost use Rattle.minisign_external.specs.Making.{IsMakingRefusal, IsPublicKeyRefusal, IsReadInKey};
ghost use Rattle.minisign_external.specs.Making.{IsKeyComment, IsUnwritable, IsWritable};
ghost use Rattle.minisign_external.specs.SecretKeys.{is_opened, is_read, unopened_record};
ghost use Rattle.minisign_external.specs.declared.state.Misuse.TheVariants.{KeyNotRead, PublicKeyNotRead};

use crate::public_keys::PublicKeyValue;
use crate::secrets::SecretKeyValue;
use crate::signed_texts::write_front;
use crate::state::{Misuse, Refusal};
use crate::unopened_keys::{UnopenedKeyValue, key_of};
use minisign::{PublicKey, Sealing, SecretKey, make_public_key, make_secret_key};
use minisign_base::NamedFault;
use std::alloc::Global;

// Minisign does not read all of a comment that has this many bytes or more.
const COMMENT_BYTES: usize = 1004;

// The length of a secret key file without its comment.
const SECRET_KEY_BYTES: usize = 233;

// The length of a public key file without its comment.
const PUBLIC_KEY_BYTES: usize = 77;

/// Writes a secret key file to the start of `to`, and returns its length, which is 233 bytes more than that
/// of the comment. With a password, the key is sealed (encrypted) under it with the salt and limits of
/// `sealing`. Without one, the key is not encrypted and `sealing` is ignored.
///
/// `keep_every` is k if only every k-th row of scrypt is kept in memory; a row has 1 KiB, there are at most
/// 2^20 rows, and 0 and 1 keep them all. The file is the same for every k.
///
/// The clause `refused` lists the errors in the order in which they are checked.
pub fn write_secret_key(
    alloc: Global,
    key: &SecretKeyValue,
    password: Option<&[u8]>,
    sealing: &Sealing,
    keep_every: u64,
    comment: &[u8],
    to: &mut [u8],
) -> std::result::Result<usize, Refusal>
    // On success, the secret key file is at the start of the buffer and is 233 bytes longer than the comment.
    // With the same password, or without one if there was none, it opens to the key with exactly this key ID
    // and these 64 secret bytes, for every bound on the work that is high enough.
    ensures opened { OnOk result (is_opened key.now ≡ true) }
    ensures text { IfOk result (HoldsSecretKey key.now.key_id key.now.secret
        (option_copied password.entry) sealing.now comment.now to.new) }

    // On success, Minisign reads the whole comment in the first line of the file.
    ensures read_by_minisign { OnOk result (IsKeyComment comment.now) }

    // The rest of the buffer is unchanged, so no byte of a secret is left there.
    ensures rest_unchanged { IfOk result (λ len. drop len to.new ≡ drop len to.old) }

    // The errors are, in this order: the key is not open; the comment or the password is not UTF-8; the
    // comment has a line feed; Minisign does not read all of it, because it has a carriage return, a zero
    // byte or more than 1003 bytes; the buffer is too short; with a password, the limits are not allowed; out
    // of memory. After an error the buffer is unchanged.
    ensures refused { IfErr result
        (IsMakingRefusal key.now (option_copied password.entry) sealing.now comment.now to.old) }
    ensures unchanged { OnErr result (to.new ≡ to.old) }
{
    if !key.is_opened() {
        return Err(Refusal::WrongUse(Misuse::KeyNotOpened));
    }
    let Ok(comment) = str::from_utf8(comment) else {
        return Err(Refusal::Refused(NamedFault::NotUtf8.into()));
    };
    let Some(password) = password else {
        return write_made(
            alloc, key.key_id, key.secret, None, sealing, keep_every, comment, to,
        );
    };
    let Ok(password) = str::from_utf8(password) else {
        return Err(Refusal::Refused(NamedFault::NotUtf8.into()));
    };
    write_made(
        alloc,
        key.key_id,
        key.secret,
        Some(password),
        sealing,
        keep_every,
        comment,
        to,
    )
}

// Writes a secret key file. Its comment and password are known to be UTF-8.
fn write_made(
    alloc: Global,
    key_id: [u8; 8],
    secret: [u8; 64],
    password: Option<&str>,
    sealing: &Sealing,
    keep_every: u64,
    comment: &str,
    to: &mut [u8],
) -> std::result::Result<usize, Refusal>
    ensures text { IfOk result (HoldsSecretKey key_id secret (option_copied password.entry)
        sealing.now comment.now to.new) }
    ensures read_by_minisign { OnOk result (IsKeyComment comment.now) }
    ensures rest_unchanged { IfOk result (λ len. drop len to.new ≡ drop len to.old) }
    ensures refused { IfErr result
        (IsMadeRefusal (option_copied password.entry) sealing.now comment.now to.old) }
    ensures unchanged { OnErr result (to.new ≡ to.old) }
{
    check_writable(comment.as_bytes(), SECRET_KEY_BYTES, to)?;
    let k = keep_every.max(1);
    let text = make_secret_key(alloc, key_id, secret, password, sealing, k, comment)?.into_string();
    match write_front(text.as_bytes(), to) {
        Some(len) => Ok(len),
        None => Err(Refusal::WrongUse(Misuse::NoRoom)),
    }
}

/// Writes the public key file of a secret key to the start of `to`, and returns its length, which is 77 bytes
/// more than that of the comment. The public key is the last 32 of the secret bytes, with the same key ID.
pub fn write_public_key(
    alloc: Global,
    key: &SecretKeyValue,
    comment: &[u8],
    to: &mut [u8],
) -> std::result::Result<usize, Refusal>
    // On success, the public key file is at the start of the buffer and is 77 bytes longer than the comment.
    // It parses to the public key of the secret key: the last 32 secret bytes, with the same key ID. Minisign
    // reads the whole comment. The rest of the buffer is unchanged.
    ensures opened { OnOk result (is_opened key.now ≡ true) }
    ensures text { IfOk result (HoldsPublicKey key.now.key_id key.now.secret comment.now to.new) }
    ensures read_by_minisign { OnOk result (IsKeyComment comment.now) }
    ensures rest_unchanged { IfOk result (λ len. drop len to.new ≡ drop len to.old) }

    // The errors are those of `write_secret_key` that do not concern a password, in the same order. After an
    // error the buffer is unchanged.
    ensures refused { IfErr result (IsPublicKeyRefusal key.now comment.now to.old) }
    ensures unchanged { OnErr result (to.new ≡ to.old) }
{
    if !key.is_opened() {
        return Err(Refusal::WrongUse(Misuse::KeyNotOpened));
    }
    let Ok(comment) = str::from_utf8(comment) else {
        return Err(Refusal::Refused(NamedFault::NotUtf8.into()));
    };
    check_writable(comment.as_bytes(), PUBLIC_KEY_BYTES, to)?;
    let text = make_public_key(alloc, key.key_id, key.secret, comment)?.into_string();
    match write_front(text.as_bytes(), to) {
        Some(len) => Ok(len),
        None => Err(Refusal::WrongUse(Misuse::NoRoom)),
    }
}

/// Writes the public key file of a public key that was read, or obtained from a secret key, to the start of
/// `to`. Its algorithm is `Ed`. Returns the length of the file, which is 77 bytes more than that of the
/// comment.
pub fn encode_public_key(
    alloc: Global,
    key: &PublicKeyValue,
    comment: &[u8],
    to: &mut [u8],
) -> std::result::Result<usize, Refusal>
    // On success, the public key file is at the start of the buffer and is 77 bytes longer than the
    // comment. It parses to this public key, with the algorithm `Ed`. Minisign reads the whole comment. The
    // rest of the buffer is unchanged.
    ensures read { OnOk result (is_public_key key.now ≡ true) }
    ensures text { IfOk result (HoldsReadPublicKey (written_public_key key.now) comment.now to.new) }
    ensures read_by_minisign { OnOk result (IsKeyComment comment.now) }
    ensures rest_unchanged { IfOk result (λ len. drop len to.new ≡ drop len to.old) }

    // The errors are, in this order: the key was not read; the comment is not UTF-8; the comment has a line
    // feed; Minisign does not read all of it; the buffer is too short; out of memory. After an error the
    // buffer is unchanged.
    ensures refused { IfErr result
        (IsEncodingRefusal (is_public_key key.now) PublicKeyNotRead 77 comment.now to.old) }
    ensures unchanged { OnErr result (to.new ≡ to.old) }
{
    if !key.is_public_key() {
        return Err(Refusal::WrongUse(Misuse::PublicKeyNotRead));
    }
    let Ok(comment) = str::from_utf8(comment) else {
        return Err(Refusal::Refused(NamedFault::NotUtf8.into()));
    };
    let bytes = comment.as_bytes();
    check_writable(bytes, PUBLIC_KEY_BYTES, to)?;
    let text = public_key_text(alloc, key, comment)?;
    match write_front(text.as_bytes(), to) {
        Some(len) => Ok(len),
        None => Err(Refusal::WrongUse(Misuse::NoRoom)),
    }
}

// Returns the public key file of a key that was read.
fn public_key_text(alloc: Global, key: &PublicKeyValue, comment: &str) -> minisign::Result<String>
    requires { is_public_key key.now ≡ true }
    ensures written { IfOk result (λ t. string_bytes t
        ≡ commented_public_key_text comment.now (written_public_key key.now)) }
    ensures reads { LacksByte 10 comment.now → IfOk result (λ t. read_public_key (string_bytes t)
        ≡ Ok (written_public_key key.now)) }
    ensures size { IfOk result (λ t. length (string_bytes t) ≡ length comment.now + 77) }
    ensures only_out_of_memory { IfErr result (λ e. e ≡ Named OutOfMemory) }
{
    let pk = public_key_of(key)?;
    let text = pk.to_box_with_comment(alloc, comment)?;
    Ok(text.into_string())
}

// Converts the struct to a public key with the algorithm `Ed`: takes it from a secret key with this public
// half, whose seed does not matter.
#[tactic(auto, unfolding(minisign::specs::Generation::unsealed_key))]
fn public_key_of(key: &PublicKeyValue) -> minisign::Result<PublicKey>
    ensures { result ≡ Ok (written_public_key key.now) }
{
    let secret = SecretKey::from_parts(key.key_id, with_public_half(&key.key));
    PublicKey::from_secret_key(&secret)
}

// Returns the 64 bytes of a secret: a seed of zeros, followed by this public key.
fn with_public_half(key: &[u8; 32]) -> [u8; 64]
    ensures { drop 32 result ≡ key.now }
{
    let mut secret = [0u8; 64];
    write_public_half(&mut secret, key);
    secret
}

fn write_public_half(secret: &mut [u8], key: &[u8; 32])
    requires { length secret.old ≡ 64 }
    ensures { drop 32 secret.new ≡ key.now }
{
    let (_, public_half) = secret.split_at_mut(32);
    public_half.copy_from_slice(key);
}

/// Writes the secret key file of a secret key that was read to the start of `to`, as it is: nothing is
/// encrypted, decrypted or checked. Returns the length of the file, which is 233 bytes more than that of
/// the comment.
pub fn encode_unopened_key(
    alloc: Global,
    key: &UnopenedKeyValue,
    comment: &[u8],
    to: &mut [u8],
) -> std::result::Result<usize, Refusal>
    // On success, the secret key file is at the start of the buffer and is 233 bytes longer than the
    // comment. It parses to the key as it was read. Minisign reads the whole comment. The rest of the
    // buffer is unchanged.
    ensures read { OnOk result (is_read key.now ≡ true) }
    ensures text { IfOk result (HoldsReadSecretKey (unopened_record key.now) comment.now to.new) }
    ensures read_by_minisign { OnOk result (IsKeyComment comment.now) }
    ensures rest_unchanged { IfOk result (λ len. drop len to.new ≡ drop len to.old) }

    // The errors are, in this order: the key was not read; the comment is not UTF-8; the comment has a line
    // feed; Minisign does not read all of it; the buffer is too short; out of memory. After an error the
    // buffer is unchanged.
    ensures refused { IfErr result (IsEncodingRefusal (is_read key.now) KeyNotRead 233 comment.now to.old) }
    ensures unchanged { OnErr result (to.new ≡ to.old) }
{
    if !key.is_read() {
        return Err(Refusal::WrongUse(Misuse::KeyNotRead));
    }
    let Ok(comment) = str::from_utf8(comment) else {
        return Err(Refusal::Refused(NamedFault::NotUtf8.into()));
    };
    let bytes = comment.as_bytes();
    check_writable(bytes, SECRET_KEY_BYTES, to)?;
    let text = unopened_key_text(alloc, key, comment)?;
    match write_front(text.as_bytes(), to) {
        Some(len) => Ok(len),
        None => Err(Refusal::WrongUse(Misuse::NoRoom)),
    }
}

// Returns the secret key file of a key as it was read.
fn unopened_key_text(
    alloc: Global,
    key: &UnopenedKeyValue,
    comment: &str,
) -> minisign::Result<String>
    ensures written { IfOk result (λ t. string_bytes t
        ≡ secret_key_text (Some comment.now) (unopened_record key.now)) }
    ensures reads { LacksByte 10 comment.now → IfOk result (λ t. read_secret_key (string_bytes t)
        ≡ Ok (unopened_record key.now)) }
    ensures size { IfOk result (λ t. length (string_bytes t) ≡ length comment.now + 233) }
    ensures only_out_of_memory { IfErr result (λ e. e ≡ Named OutOfMemory) }
{
    let sk = key_of(&key.bytes)?;
    let text = sk.to_box(alloc, Some(comment))?;
    Ok(text.into_string())
}

// Checks that Minisign reads the whole comment, and that the buffer is long enough for a file that is `more`
// bytes longer than the comment.
fn check_writable(comment: &[u8], more: usize, to: &[u8]) -> Result<(), Misuse>
    requires { more ≤ 233 }
    ensures passed { OnOk result (IsWritable comment.now more to.now) }
    ensures refused { IfErr result (IsUnwritable comment.now more to.now) }
{
    if comment.contains(&10) {
        return Err(Misuse::BadComment);
    }
    if !is_read_in_key(comment) {
        return Err(Misuse::UnreadableComment);
    }
    if to.len() < comment.len() + more {
        return Err(Misuse::NoRoom);
    }
    Ok(())
}

// Returns true if Minisign reads all of a comment in the first line of a key file.
fn is_read_in_key(comment: &[u8]) -> bool
    ensures read { result ≡ true → IsReadInKey comment.now }
    ensures unread { result ≡ false → ¬ (IsReadInKey comment.now) }
{
    comment.len() < COMMENT_BYTES && !comment.contains(&13) && !comment.contains(&0)
}
