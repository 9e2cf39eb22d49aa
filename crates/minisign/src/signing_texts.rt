//! Signs data with the text of a secret key.

ghost use Rattle.std.specs.Prelude.{◌≡◌, false, None, Ok, string_bytes, IfOk, IfErr, OnOk, IfSome};
ghost use Rattle.std.specs.Option.{option_map};
ghost use Rattle.minisign_base.specs.Devices.{PrefixIsRemoved};
ghost use Rattle.minisign_base.specs.DeviceCalls.{prompt_call, random_call, source_call};
ghost use Rattle.minisign.specs.Sealing.{is_encrypted};
ghost use Rattle.minisign.specs.Signing.{OpenedSigningFails, given_comments, GivesKey, HasSignedDataText};
ghost use Rattle.minisign.specs.Signing.{HasSignedWithText, TextSigningFails, TextSigningHeadline};

use crate::constants::KDF_NONE;
use crate::sealing::Derivation;
use crate::secret_key::SecretKey;
use crate::signing::{GivenComments, sign_data};
use minisign_base::Result;
use minisign_base::devices::random_sources::RandomSource;
use minisign_base::devices::sinks::Sink;
use minisign_base::devices::sources::Source;
use minisign_base::prompt::Prompt;
use minisign_base::scheme::Scheme;
use std::alloc::Global;

/// Signs all the unread data of `data_reader` with the secret key in `sk_text`, and returns the
/// signature text.
///
/// A key that was never encrypted is used if its checksum matches (`from_unencrypted_box`). Any other key
/// is decrypted with the given password, or with one that the prompt asks for (`from_box`). Then the data is
/// signed, as `sign` does if no public key is given, and the signature box is written as text (`to_string`).
///
/// Errors come in this order: a text that does not parse as a key; a checksum that does not match, for a
/// key that was never encrypted, or the errors of `from_box`; a failing `data_reader`; a failing `random`,
/// after the data was read. Until the key is decrypted nothing is read from `data_reader` or `random`. An
/// allocation may fail at any time. A comment with a line feed, or a trusted comment with white space at
/// its ends, is written unchanged: the signature may then fail to verify, or be read with a different
/// comment.
pub fn sign_texts<S: Scheme, P: Source, Q: Sink, R: Source, Z: RandomSource>(
    alloc: Global,
    scheme: &S,
    sk_text: &str,
    password: Option<String>,
    prompt: &mut Prompt<P, Q>,
    data_reader: &mut R,
    trusted_comment: Option<&str>,
    untrusted_comment: Option<&str>,
    random: &mut Z,
    unix_time: u64,
) -> Result<String>
    // On success, the signing key is the key in the secret key text, decrypted under some password if it is
    // encrypted. If that key is genuine, neither comment has a line feed and the trusted comment is
    // trimmed, the signature text parses to a signature box that is valid for the data under every public
    // key of the key's seed and key ID.
    ensures headline { IfOk result (λ t. TextSigningHeadline (S.accepts scheme.now)
        (S.public_of scheme.now) sk_text.now (R.ahead data_reader.old) (given_comments
        trusted_comment.entry untrusted_comment.entry unix_time) (string_bytes t)) }

    // On success, the text contains a key: either a key that was never encrypted and whose checksum
    // matches, with the prompt unchanged, or an encrypted key that was decrypted with the password that was
    // given or typed. The result is the text of the signature box that signing makes with this key for all
    // the data. If this key is genuine, the signature text is read back as the clause `headline` says.
    ensures signed { IfOk result (λ t. HasSignedWithText S.Scheme scheme.now
        (prompt_call P.Source Q.Sink prompt.old prompt.new) (option_map string_bytes password) sk_text.now
        (source_call R.Source data_reader.old data_reader.new) (given_comments trusted_comment.entry
        untrusted_comment.entry unix_time) (random_call Z.RandomSource random.old random.new)
        (string_bytes t)) }

    // On success, the random source did not fail.
    ensures random_no_new_fault { OnOk result (Z.random_faults random.new ≡ Z.random_faults random.old) }

    // If no key can be read from the text and decrypted, the error says why, and nothing was read from
    // either source. Otherwise there are three errors: out of memory, if neither source failed; the error
    // of the data source, and then no random bytes were taken; or the error of the random source, after all
    // the data was read. The error of `sign` for an encrypted key is never returned.
    ensures refused { IfErr result (TextSigningFails (prompt_call P.Source Q.Sink prompt.old prompt.new)
        (option_map string_bytes password) sk_text.now (source_call R.Source data_reader.old data_reader.new)
        (random_call Z.RandomSource random.old random.new)) }

    // If a password is given, the prompt is unchanged.
    ensures untouched { IfSome password (λ _. prompt.new ≡ prompt.old) }

    // The unread bytes of the source and of the random source are suffixes of those before the
    // call, whatever the result.
    ensures prefix_removed { PrefixIsRemoved (R.ahead data_reader.old) (R.ahead data_reader.new) }
    ensures random_prefix_removed { PrefixIsRemoved (Z.random_ahead random.old) (Z.random_ahead random.new) }
{
    let sk = key_of_text(alloc, sk_text, password.as_deref(), prompt)?;
    let comments = GivenComments {
        trusted: trusted_comment,
        untrusted: untrusted_comment,
        unix_time,
    };
    sign_opened(alloc, scheme, &sk, data_reader, comments, random)
}

// Signs with a decrypted key and returns the signature text.
pub(crate) fn sign_opened<S: Scheme, R: Source, Z: RandomSource>(
    alloc: Global,
    scheme: &S,
    sk: &SecretKey,
    data_reader: &mut R,
    comments: GivenComments<'_>,
    random: &mut Z,
) -> Result<String>
    requires { is_encrypted sk.now ≡ false }
    ensures signed { IfOk result (λ t. HasSignedDataText S.Scheme scheme.now sk.now (source_call R.Source
        data_reader.old data_reader.new) (given_comments comments.entry.trusted comments.entry.untrusted
        comments.entry.unix_time) (random_call Z.RandomSource random.old random.new) (string_bytes t)) }
    ensures random_no_new_fault { OnOk result (Z.random_faults random.new ≡ Z.random_faults random.old) }
    ensures refused { IfErr result
        (OpenedSigningFails (source_call R.Source data_reader.old data_reader.new)
        (random_call Z.RandomSource random.old random.new)) }
    ensures prefix_removed { PrefixIsRemoved (R.ahead data_reader.old) (R.ahead data_reader.new) }
    ensures random_prefix_removed { PrefixIsRemoved (Z.random_ahead random.old) (Z.random_ahead random.new) }
{
    let signature_box = sign_data(alloc, scheme, sk, data_reader, comments, random)?;
    signature_box.to_string(alloc)
}

// Returns the secret key in the text, decrypted with the password unless it was never encrypted.
pub(crate) fn key_of_text<P: Source, Q: Sink>(
    alloc: Global,
    text: &str,
    password: Option<&str>,
    prompt: &mut Prompt<P, Q>,
) -> Result<SecretKey>
    ensures opened { IfOk result (λ v. is_encrypted v ≡ false) }
    ensures gives { GivesKey (prompt_call P.Source Q.Sink prompt.old prompt.new)
        (option_map (λ p. p.now) password.entry) text.now result }
    ensures untouched { IfSome password.entry (λ _. prompt.new ≡ prompt.old) }
{
    let sk = SecretKey::from_text(text)?;
    if sk.kdf_alg == KDF_NONE {
        sk.test_unencrypted()?;
        return Ok(sk);
    }
    let derivation = Derivation { bound: None, k: 1 };
    sk.open(alloc, password, prompt, derivation)
}
