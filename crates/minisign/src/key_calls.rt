//! Calls that decrypt a secret key with a password, generate a key pair under a password, and sign data in
//! memory, from a reader or from a file.

ghost use Rattle.std.specs.Prelude.{◌≡◌, ◌≤◌, List, ℕ, false, None, Some, length, string_bytes, IfOk, IfErr};
ghost use Rattle.std.specs.Prelude.{OnOk, ◌⊎◌};
ghost use Rattle.minisign_base.specs.Fault.{Named};
ghost use Rattle.minisign_base.specs.declared.faults.NamedFault.TheVariants.{ReadingFailed};
ghost use Rattle.minisign_base.specs.Devices.{PrefixIsRemoved};
ghost use Rattle.minisign_base.specs.DeviceCalls.{random_call, source_call};
ghost use Rattle.minisign.specs.Generation.{PasswordPairFails, IsSealedPair, OpensToPair};
ghost use Rattle.minisign.specs.Signing.{SigningHeadline, BytesSigningFails, SigningFails, given_comments};
ghost use Rattle.minisign.specs.Signing.{HasSignedText, IsSignedText, HasSignedDataText};
ghost use Rattle.minisign.specs.Sealing.{is_encrypted, IsOpenedOrNoMemory, key_with_password};

use crate::keypair::{KeyPair, draw_with_salt, make_sealed_pair};
use crate::memory::MemorySource;
use crate::secret_key::SecretKey;
use crate::signing::GivenComments;
use crate::signing_texts::{key_of_text, sign_opened};
use minisign_base::devices::random_sources::RandomSource;
use minisign_base::devices::sources::{ReaderSource, Source};
use minisign_base::prompt::{PASSWORD_BYTES, Prompt};
use minisign_base::scheme::Scheme;
use minisign_base::{NamedFault, Result};
use std::alloc::Global;
use std::fs;
use std::rt::Files;

/// Returns the secret key in `sk_text`, decrypted with the password if it is encrypted. Never prompts and
/// writes nothing.
///
/// Errors come in this order: a text that does not parse; for a key that was never encrypted, a checksum
/// that does not match, `CorruptedKey`; for any other key, the errors of `SecretKey::from_box` with a given
/// password, among them `WrongPassword`. An allocation may fail only while a key is decrypted, which takes
/// 128 * 8 * N bytes (32 MiB with the default limits). The password is not copied.
///
/// ```
/// let sk = open_with_password(alloc, sk_text, password)?;
/// ```
pub fn open_with_password(alloc: Global, sk_text: &str, password: &str) -> Result<SecretKey>
    // The result is out of memory or exactly the key in the secret key text: unchanged, if it was never
    // encrypted and its checksum matches; decrypted with the password, if it is encrypted; or else the first
    // check that fails. Out of memory is returned only if the key is encrypted with scrypt and its limits are
    // allowed.
    ensures { IsOpenedOrNoMemory sk_text.now None result
        (key_with_password sk_text.now password.now) }
{
    key_of_text(alloc, sk_text, Some(password), &mut Prompt::silent())
}

impl KeyPair {
    /// Generates a key pair whose secret key is encrypted under the password, as
    /// `generate_encrypted_keypair` does with a given password. Takes 32 random bytes for the seed, then 8
    /// for the key ID, then 32 for the salt. Never prompts and writes nothing.
    ///
    /// Errors come in this order: a password of more than 1024 bytes, `PasswordTooLong`, with no random
    /// bytes taken, because a prompt for the password would reject it; a failing `random`; memory for the
    /// derivation, about 32 MiB. An empty password is accepted.
    ///
    /// ```
    /// let pair = KeyPair::generate_with_password(alloc, &scheme, &mut random, password)?;
    /// let sk_text = pair.sk.to_box(alloc, None)?.into_string();
    /// ```
    pub fn generate_with_password<S: Scheme, Z: RandomSource>(
        alloc: Global,
        scheme: &S,
        random: &mut Z,
        password: &str,
    ) -> Result<KeyPair>
        // On success, the pair is computed as `specs/Generation` defines it from bytes that were read from
        // the random source, and the secret key is encrypted under the password.
        ensures is_new_pair { IfOk result (λ pair. IsSealedPair (S.public_of scheme.now) password.now
            (random_call Z.RandomSource random.old random.new) pair.pk pair.sk) }

        // On success, the secret key decrypts under the password to the key that belongs to the public key.
        // Each text that parses to the secret key decrypts under the password to that key, and to no other.
        ensures opens { IfOk result
            (λ pair. OpensToPair (S.public_of scheme.now) password.now pair.pk pair.sk) }

        // On success, the password has at most 1024 bytes, and the random source did not fail.
        ensures password_fits { OnOk result (length password.now ≤ 1024) }
        ensures no_new_fault { OnOk result (Z.random_faults random.new ≡ Z.random_faults random.old) }

        // An error is one of these: the password has more than 1024 bytes, and no random bytes were taken;
        // the random source failed; or an allocation failed after all random bytes were taken.
        ensures refused { IfErr result
            (PasswordPairFails password.now (random_call Z.RandomSource random.old random.new)) }

        // The unread bytes of the random source are a suffix of those before the call, whatever the
        // result.
        ensures prefix_removed { PrefixIsRemoved (Z.random_ahead random.old) (Z.random_ahead random.new) }
    {
        if password.len() > PASSWORD_BYTES {
            return Err(NamedFault::PasswordTooLong.into());
        }
        let drawn = draw_with_salt(random)?;
        make_sealed_pair(alloc, scheme, &drawn, password.as_bytes())
    }
}

/// Signs the message and returns the signature text. Without a trusted comment, `timestamp:` and the
/// `unix_time`, in seconds since 1970, become the trusted comment. The untrusted comment is `signature from
/// rsign secret key`. Takes 64 random bytes twice.
///
/// Errors come in this order: an encrypted key, `EncryptedKeyRefused`, with no random bytes taken; a
/// failing `random`. An allocation may fail at any time after the key was checked. A trusted comment with a
/// line feed, or with white space at its ends, is written unchanged: the signature may then fail to verify,
/// or be read with a different comment.
///
/// ```
/// let sig_text = sign_bytes(alloc, &scheme, &sk, update, Some("update-1.2.tar"), &mut random, unix_time)?;
/// ```
pub fn sign_bytes<S: Scheme, Z: RandomSource>(
    alloc: Global,
    scheme: &S,
    sk: &SecretKey,
    message: &[u8],
    trusted_comment: Option<&str>,
    random: &mut Z,
    unix_time: u64,
) -> Result<String>
    // On success with a genuine key, the signature text parses to a signature box that is valid for the
    // message under every public key with the same key bytes and key ID, if neither comment has a line feed
    // and the trusted comment is trimmed.
    ensures headline { IfOk result
        (λ t. SigningHeadline (S.accepts scheme.now) (S.public_of scheme.now) sk.now message.now
        (given_comments trusted_comment.entry None unix_time) (string_bytes t)) }

    // On success, the secret key is not encrypted, and the result is the text of the signature box that
    // signing makes from the key, the message, the comments and bytes of the random source.
    ensures signed { IfOk result (λ t. IsSignedText (S.signature_of scheme.now) sk.now message.now
        (given_comments trusted_comment.entry None unix_time)
        (random_call Z.RandomSource random.old random.new) (string_bytes t)) }
    ensures opened { OnOk result (is_encrypted sk.now ≡ false) }

    // On success, the random source did not fail.
    ensures random_no_new_fault { OnOk result (Z.random_faults random.new ≡ Z.random_faults random.old) }

    // The unread bytes of the random source are a suffix of those before the call, whatever the
    // result.
    ensures random_prefix_removed { PrefixIsRemoved (Z.random_ahead random.old) (Z.random_ahead random.new) }

    // If the key is encrypted, it is rejected, and no random bytes were taken. Otherwise an error is out of
    // memory, and the random source did not fail; or the random source failed.
    ensures refused { IfErr result
        (BytesSigningFails sk.now (random_call Z.RandomSource random.old random.new)) }
{
    let mut data = MemorySource::new(message);
    sign_reader(
        alloc,
        scheme,
        sk,
        &mut data,
        trusted_comment,
        random,
        unix_time,
    )
}

/// Signs all the unread data of `data_reader`, as `sign_bytes` signs data in memory. The data is
/// read in pieces of 64 KiB, so memory use does not grow with its size.
///
/// Errors come in this order: an encrypted key, `EncryptedKeyRefused`, with nothing read from `data_reader`
/// or `random`; a failing `data_reader`, `ReadingFailed`, with no random bytes taken; a failing `random`,
/// after the data was read. An allocation may fail at any time after the key was checked. The note on the
/// trusted comment of `sign_bytes` applies here too.
///
/// ```
/// let name = Some("update-1.2.tar");
/// let sig_text = sign_reader(alloc, &scheme, &sk, &mut data_reader, name, &mut random, unix_time)?;
/// ```
pub fn sign_reader<S: Scheme, R: Source, Z: RandomSource>(
    alloc: Global,
    scheme: &S,
    sk: &SecretKey,
    data_reader: &mut R,
    trusted_comment: Option<&str>,
    random: &mut Z,
    unix_time: u64,
) -> Result<String>
    // On success, the result is the text of the signature box that signing makes for all the unread
    // data, and with a genuine key it parses to a signature box that is valid for this data, if
    // neither comment has a line feed and the trusted comment is trimmed. The secret key is not
    // encrypted.
    ensures signed { IfOk result (λ t. HasSignedDataText S.Scheme scheme.now sk.now
        (source_call R.Source data_reader.old data_reader.new) (given_comments trusted_comment.entry None
        unix_time) (random_call Z.RandomSource random.old random.new) (string_bytes t)) }
    ensures opened { OnOk result (is_encrypted sk.now ≡ false) }

    // On success, the random source did not fail.
    ensures random_no_new_fault { OnOk result (Z.random_faults random.new ≡ Z.random_faults random.old) }

    // If the key is encrypted, it is rejected, and nothing was read from either source. Otherwise an error
    // is out of memory, and neither source failed; or the reader failed, and no random bytes were taken; or
    // the random source failed after all the data was read.
    ensures refused { IfErr result (SigningFails S.Scheme scheme.now None
        sk.now (given_comments trusted_comment.entry None unix_time) (source_call R.Source data_reader.old
        data_reader.new) (random_call Z.RandomSource random.old random.new)) }

    // The unread bytes of the reader and of the random source are suffixes of those before the
    // call, whatever the result.
    ensures prefix_removed { PrefixIsRemoved (R.ahead data_reader.old) (R.ahead data_reader.new) }
    ensures random_prefix_removed { PrefixIsRemoved (Z.random_ahead random.old) (Z.random_ahead random.new) }
{
    if sk.is_encrypted() {
        return Err(NamedFault::EncryptedKeyRefused.into());
    }
    let comments = GivenComments {
        trusted: trusted_comment,
        untrusted: None,
        unix_time,
    };
    sign_opened(alloc, scheme, sk, data_reader, comments, random)
}

/// Signs the data in the file at `data_path`, as `sign_bytes` signs data in memory. The path is used as
/// given. The data is read in pieces of 64 KiB, so memory use does not grow with its size. The signature
/// text is returned; no file is written.
///
/// Errors come in this order: an encrypted key, `EncryptedKeyRefused`, with nothing opened, read or taken
/// from `random`; a file that cannot be opened or read, `ReadingFailed`, with no random bytes taken; a
/// failing `random`, after the file was read. An allocation may fail at any time after the key was checked.
/// The note on the trusted comment of `sign_bytes` applies here too.
///
/// ```
/// let name = Some("update-1.2.tar");
/// let sig_text = sign_file(&rt, rt.alloc(), &scheme, &sk, "update.tar", name, &mut random, unix_time)?;
/// ```
pub fn sign_file<F: Files, S: Scheme, Z: RandomSource>(
    files: &F,
    alloc: Global,
    scheme: &S,
    sk: &SecretKey,
    data_path: &str,
    trusted_comment: Option<&str>,
    random: &mut Z,
    unix_time: u64,
) -> Result<String>
    // On success, the result is the text of the signature box that signing makes for some data, and with a
    // genuine key it parses to a signature box that is valid for this data, if neither comment has a line
    // feed and the trusted comment is trimmed. The secret key is not encrypted. The contract does not say
    // that the data comes from the named file; only the code and tests show this.
    ensures signed { IfOk result (λ t. (message : List ℕ) × HasSignedText S.Scheme scheme.now sk.now message
        (given_comments trusted_comment.entry None unix_time)
        (random_call Z.RandomSource random.old random.new)
        (string_bytes t)) }
    ensures opened { OnOk result (is_encrypted sk.now ≡ false) }

    // On success, the random source did not fail.
    ensures random_no_new_fault { OnOk result (Z.random_faults random.new ≡ Z.random_faults random.old) }

    // If the key is encrypted, it is rejected, and no random bytes were taken. Otherwise an error is out of
    // memory, and the random source did not fail; or the file could not be opened or read, and no random
    // bytes were taken; or the random source failed.
    ensures refused { IfErr result (λ e. BytesSigningFails sk.now (random_call Z.RandomSource random.old
        random.new) e ⊎ ((is_encrypted sk.now ≡ false) × (e ≡ Named ReadingFailed)
        × (random.new ≡ random.old))) }

    // The unread bytes of the random source are a suffix of those before the call, whatever the
    // result.
    ensures random_prefix_removed { PrefixIsRemoved (Z.random_ahead random.old) (Z.random_ahead random.new) }
{
    if sk.is_encrypted() {
        return Err(NamedFault::EncryptedKeyRefused.into());
    }
    let comments = GivenComments {
        trusted: trusted_comment,
        untrusted: None,
        unix_time,
    };
    match fs::open(files, data_path) {
        Ok(file) => sign_opened_file(
            alloc,
            scheme,
            sk,
            &mut ReaderSource::new(file),
            comments,
            random,
        ),
        Err(_) => Err(NamedFault::ReadingFailed.into()),
    }
}

// Signs the contents of an opened file with a decrypted key. The contract does not say which data was
// signed.
fn sign_opened_file<S: Scheme, R: Source, Z: RandomSource>(
    alloc: Global,
    scheme: &S,
    sk: &SecretKey,
    file: &mut R,
    comments: GivenComments<'_>,
    random: &mut Z,
) -> Result<String>
    requires { is_encrypted sk.now ≡ false }
    ensures signed { IfOk result (λ t. (message : List ℕ) × HasSignedText S.Scheme scheme.now sk.now message
        (given_comments comments.entry.trusted comments.entry.untrusted comments.entry.unix_time)
        (random_call Z.RandomSource random.old random.new) (string_bytes t)) }
    ensures random_no_new_fault { OnOk result (Z.random_faults random.new ≡ Z.random_faults random.old) }
    ensures refused { IfErr result (λ e. BytesSigningFails sk.now (random_call Z.RandomSource random.old
        random.new) e ⊎ ((is_encrypted sk.now ≡ false) × (e ≡ Named ReadingFailed)
        × (random.new ≡ random.old))) }
    ensures random_prefix_removed { PrefixIsRemoved (Z.random_ahead random.old) (Z.random_ahead random.new) }
{
    sign_opened(alloc, scheme, sk, file, comments, random)
}
