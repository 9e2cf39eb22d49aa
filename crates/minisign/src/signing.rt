//! Signing with a decrypted secret key.

ghost use Rattle.std.specs.Prelude.{◌≡◌, ℕ, true, false, List, None, Some, ◌⊎◌, string_bytes, IfOk, IfErr};
ghost use Rattle.std.specs.Prelude.{OnOk, IfSome, IsSomeAnd};
ghost use Rattle.std.specs.Option.{option_copied, unwrap_or};
ghost use Rattle.minisign_hash.specs.Blake2b.{blake2b_digest};
ghost use Rattle.minisign_base.specs.Devices.{PrefixIsRemoved};
ghost use Rattle.minisign_base.specs.DeviceCalls.{random_call, source_call};
ghost use Rattle.minisign_base.specs.Fault.{Named};
ghost use Rattle.minisign_base.specs.declared.faults.NamedFault.TheVariants.{OutOfMemory, RandomSourceFailed};
ghost use Rattle.minisign_base.specs.declared.faults.NamedFault.TheVariants.{RefusedByGivenKey};
ghost use Rattle.minisign.specs.Reading.{HasFailed};
ghost use Rattle.minisign.specs.Sealing.{is_encrypted};
ghost use Rattle.minisign.specs.Acceptance.{accepts_comments};
ghost use Rattle.minisign.specs.Signing.{AreChosenReadBack, HasSignedBox, OpenedSigningFails, SigningFails};
ghost use Rattle.minisign.specs.Signing.{default_trusted_comment, default_untrusted_comment, given_comments};
ghost use Rattle.minisign.specs.Signing.{comments_of, HasSignedData};

use crate::comment_signature::accepts_comments;
use crate::constants::{DEFAULT_COMMENT, SIGALG_PREHASHED};
use crate::drawing::draw_two;
use crate::public_key::PublicKey;
use crate::reading::prehash;
use crate::secret_key::SecretKey;
use crate::signature::Signature;
use crate::signature_box::{Comments, SignatureBox};
use minisign_base::devices::random_sources::RandomSource;
use minisign_base::devices::sources::Source;
use minisign_base::scheme::Scheme;
use minisign_base::{NamedFault, Result};
use std::alloc::Global;

/// The comments of a signature as the caller gives them, and the time for the default trusted comment.
#[derive(Clone, Copy)]
pub(crate) struct GivenComments<'a> {
    /// The trusted comment, which is signed. The default is `timestamp:` and `unix_time`.
    pub(crate) trusted: Option<&'a str>,
    /// The untrusted comment, which is not signed. The default is `signature from rsign secret key`.
    pub(crate) untrusted: Option<&'a str>,
    /// The time in seconds since 1970.
    pub(crate) unix_time: u64,
}

/// Signs all the unread data of `data_reader` with `sk`, and returns a signature box with both
/// comments.
///
/// The data is hashed in pieces of 64 KiB, so memory use does not grow with its size. The default trusted
/// comment is `timestamp:` and the `unix_time`, in seconds since 1970. The default untrusted comment is
/// `signature from rsign secret key`. Takes 64 random bytes twice.
///
/// Errors come in this order: an encrypted key, with nothing read from `data_reader` or `random`; a failing
/// `data_reader`; a failing `random`, after the data was read; and, if `pk` is given, a comment signature
/// that is not valid under the 32 key bytes of `pk`. Key IDs are not compared. An allocation may fail after
/// the key was checked: for the read buffer, the two comments, the comment signature and the comment message.
pub fn sign<S: Scheme, R: Source, Z: RandomSource>(
    alloc: Global,
    scheme: &S,
    pk: Option<&PublicKey>,
    sk: &SecretKey,
    data_reader: &mut R,
    trusted_comment: Option<&str>,
    untrusted_comment: Option<&str>,
    random: &mut Z,
    unix_time: u64,
) -> Result<SignatureBox>
    // On success, the signature box is made from all the unread bytes of the source, the comments or their
    // defaults, and twice 64 random bytes; and if the key is genuine, the box is valid for the unread bytes
    // of the source under the key's own public key with the same key ID. This holds for all comments.
    ensures signed { IfOk result (HasSignedData S.Scheme scheme.now sk.now
        (source_call R.Source data_reader.old data_reader.new) (given_comments trusted_comment.entry
        untrusted_comment.entry unix_time) (random_call Z.RandomSource random.old random.new)) }

    // On success, the secret key is not encrypted.
    ensures opened { OnOk result (is_encrypted sk.now ≡ false) }

    // On success, if a public key is given, its 32 bytes accept the comment signature. Key IDs are not
    // compared.
    ensures given_key { IfOk result
        (λ x. IfSome pk.entry (λ p. accepts_comments (S.accepts scheme.now) p.now x ≡ true)) }

    // On success, the random source did not fail.
    ensures random_no_new_fault { OnOk result (Z.random_faults random.new ≡ Z.random_faults random.old) }

    // The error for an encrypted key is returned exactly if the key is encrypted, with nothing read from
    // either source. `reading failed` is returned only if the source's error count rose, and no random
    // bytes were taken. `random source failed` is returned only if the random source's error count rose,
    // after all the data was read. Out of memory is returned only if neither count rose. The given public
    // key is rejected exactly if its 32 bytes do not accept the comment signature.
    ensures refused { IfErr result (SigningFails S.Scheme scheme.now (option_copied pk.entry) sk.now
        (given_comments trusted_comment.entry untrusted_comment.entry unix_time) (source_call R.Source
        data_reader.old data_reader.new) (random_call Z.RandomSource random.old random.new)) }

    // The unread bytes of the source and of the random source are suffixes of those before the
    // call, whatever the result.
    ensures prefix_removed { PrefixIsRemoved (R.ahead data_reader.old) (R.ahead data_reader.new) }
    ensures random_prefix_removed { PrefixIsRemoved (Z.random_ahead random.old) (Z.random_ahead random.new) }
{
    if sk.is_encrypted() {
        return Err(NamedFault::EncryptedKeyRefused.into());
    }
    let comments = GivenComments {
        trusted: trusted_comment,
        untrusted: untrusted_comment,
        unix_time,
    };
    let signature_box = sign_data(alloc, scheme, sk, data_reader, comments, random)?;
    check_given_key(alloc, scheme, pk, &signature_box)?;
    Ok(signature_box)
}

/// States that the default comments are read back unchanged from a signature text, whatever the time is.
/// This function is a law: it does nothing, and exists only for its contract.
pub fn default_comments_are_read_back(unix_time: u64)
    // If no comments are given, the default comments are read back from the signature text exactly as they
    // were written: neither has a line feed, the trusted comment is trimmed, and the untrusted comment does
    // not end in a carriage return.
    ensures { AreChosenReadBack (given_comments None None unix_time) }
{}

// Signs all unread data with a decrypted key.
pub(crate) fn sign_data<S: Scheme, R: Source, Z: RandomSource>(
    alloc: Global,
    scheme: &S,
    sk: &SecretKey,
    data_reader: &mut R,
    comments: GivenComments<'_>,
    random: &mut Z,
) -> Result<SignatureBox>
    ensures signed { IfOk result (HasSignedData S.Scheme scheme.now sk.now
        (source_call R.Source data_reader.old data_reader.new) (given_comments comments.entry.trusted
        comments.entry.untrusted comments.entry.unix_time)
        (random_call Z.RandomSource random.old random.new)) }
    ensures no_new_fault { OnOk result (Z.random_faults random.new ≡ Z.random_faults random.old) }
    ensures refused { IfErr result
        (OpenedSigningFails (source_call R.Source data_reader.old data_reader.new)
        (random_call Z.RandomSource random.old random.new)) }
    ensures prefix_removed { PrefixIsRemoved (R.ahead data_reader.old) (R.ahead data_reader.new) }
    ensures random_prefix_removed { PrefixIsRemoved (Z.random_ahead random.old) (Z.random_ahead random.new) }
{
    let digest = prehash(alloc, data_reader)?;
    let trusted = trusted_or_default(alloc, comments.trusted, comments.unix_time)?;
    let untrusted = untrusted_or_default(alloc, comments.untrusted)?;
    make_box(alloc, scheme, sk, &digest, trusted, untrusted, random)
}

// Returns `RefusedByGivenKey` if a public key is given and does not accept the comment signature.
fn check_given_key<S: Scheme>(
    alloc: Global,
    scheme: &S,
    pk: Option<&PublicKey>,
    signature_box: &SignatureBox,
) -> Result<()>
    ensures accepted { OnOk result
        (IfSome pk.entry (λ p. accepts_comments (S.accepts scheme.now) p.now signature_box.now ≡ true)) }
    ensures refused { IfErr result (λ e. (e ≡ Named OutOfMemory) ⊎ IsSomeAnd (option_copied pk.entry)
        (λ p. (e ≡ Named (RefusedByGivenKey p.keynum)) × (accepts_comments
        (S.accepts scheme.now) p signature_box.now ≡ false))) }
{
    let Some(pk) = pk else {
        return Ok(());
    };
    if accepts_comments(alloc, scheme, pk, signature_box)? {
        return Ok(());
    }
    Err(NamedFault::RefusedByGivenKey {
        key: pk.keynum_pk.keynum,
    }
    .into())
}

// Makes the signature box of a digest: signs the digest, and then that signature followed by the
// trusted comment, each with 64 random bytes.
fn make_box<S: Scheme, Z: RandomSource>(
    alloc: Global,
    scheme: &S,
    sk: &SecretKey,
    digest: &[u8; 64],
    trusted_comment: String,
    untrusted_comment: String,
    random: &mut Z,
) -> Result<SignatureBox>
    ensures signed { IfOk result (λ x. (message : List ℕ) → digest.now ≡ blake2b_digest 64 message
        → HasSignedBox S.Scheme scheme.now sk.now message (comments_of (string_bytes trusted_comment)
        (string_bytes untrusted_comment)) (random_call Z.RandomSource random.old random.new) x) }
    ensures no_new_fault { OnOk result (Z.random_faults random.new ≡ Z.random_faults random.old) }
    ensures refused { IfErr result
        (λ e. ((e ≡ Named OutOfMemory) × (Z.random_faults random.new ≡ Z.random_faults random.old))
        ⊎ HasFailed RandomSourceFailed Z.random_faults random.old random.new e) }
    ensures prefix_removed { PrefixIsRemoved (Z.random_ahead random.old) (Z.random_ahead random.new) }
{
    let secret = sk.keynum_sk.sk;
    let keynum = sk.keynum_sk.keynum;
    let (first, second) = draw_two(random)?;
    let sig = scheme.signature(digest, &secret, Some(&first));
    let signature = Signature {
        sig_alg: SIGALG_PREHASHED,
        keynum,
        sig,
    };
    let signed = signature.with_comment(alloc, trusted_comment.as_str())?;
    let global_sig = scheme.signature(&signed, &secret, Some(&second));
    let comments = Comments {
        untrusted_comment,
        trusted_comment,
        global_sig: Vec::from_slice(alloc, &global_sig)?,
    };
    Ok(SignatureBox {
        signature,
        comments: Some(comments),
    })
}

// Returns the given comment, or else `timestamp:` and the time in decimal.
#[tactic(auto, unfolding(crate::specs::Signing::default_trusted_comment))]
fn trusted_or_default(alloc: Global, comment: Option<&str>, unix_time: u64) -> Result<String>
    ensures comment { IfOk result
        (λ t. string_bytes t ≡ unwrap_or (option_copied comment.entry)
        (default_trusted_comment unix_time)) }
    ensures only_out_of_memory { IfErr result (λ e. e ≡ Named OutOfMemory) }
{
    match comment {
        Some(trusted) => Ok(String::from_str(alloc, trusted)?),
        None => Ok(format!(in alloc; "timestamp:{unix_time}")?),
    }
}

#[tactic(auto, unfolding(crate::specs::Signing::default_untrusted_comment))]
fn untrusted_or_default(alloc: Global, comment: Option<&str>) -> Result<String>
    ensures comment { IfOk result
        (λ t. string_bytes t
        ≡ unwrap_or (option_copied comment.entry) default_untrusted_comment) }
    ensures only_out_of_memory { IfErr result (λ e. e ≡ Named OutOfMemory) }
{
    match comment {
        Some(untrusted) => Ok(String::from_str(alloc, untrusted)?),
        None => Ok(String::from_str(alloc, DEFAULT_COMMENT)?),
    }
}
