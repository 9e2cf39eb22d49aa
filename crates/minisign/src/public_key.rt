//! Public keys, which verify signatures: their fields, their bytes and their text.

ghost use Rattle.std.specs.Prelude.{◌≡◌, ◌<◌, ◌+◌, Ok, length, string_bytes, MatchResult, IsOk, IfOk, IfErr};
ghost use Rattle.std.specs.Prelude.{bytes_eq};
ghost use Rattle.std.specs.Cmp.{on_per, on_equiv, partial_equiv_from_equiv};
ghost use Rattle.std.specs.Cmp.Lexicographic.{nat_list_eq_equiv};
ghost use Rattle.minisign_base.specs.Fault.{Named};
ghost use Rattle.minisign_base.specs.declared.faults.NamedFault.TheVariants.{OutOfMemory, RecordTooShort};
ghost use Rattle.minisign.specs.Texts.{base64_of};
ghost use Rattle.minisign.specs.Records.{own_public_key};
ghost use Rattle.minisign.specs.KeyTexts.{commented_public_key_text, public_key_text, read_bare_public_key};
ghost use Rattle.minisign.specs.KeyTexts.{read_public_key};
ghost use Rattle.std.specs.Str.Iter.{LacksByte};
ghost use Rattle.minisign.specs.Reading.{IsReadFromFile};

use crate::constants::COMMENT_PREFIX;
use crate::fields::{push_three, split_three};
use crate::in_place::{read_bare_public_key, read_public_key};
use crate::keynum::KeynumPK;
use crate::public_key_box::PublicKeyBox;
use crate::reading::read_text_file;
use crate::secret_key::SecretKey;
use crate::texts::{encode, push_line};
use minisign_base::{KeyId, Result};
use minisign_hash::util::fixed_time_eq;
use std::alloc::Global;
use std::marker::Model;
use std::rt::Files;

/// A public key: an algorithm of 2 bytes, a key ID of 8 and 32 key bytes. The algorithm is kept as it was
/// read and never checked.
#[derive(Clone, Debug, Drop)]
pub struct PublicKey {
    pub(crate) sig_alg: [u8; 2],
    pub(crate) keynum_pk: KeynumPK,
}

impl Model for PublicKey {
    ghost use Rattle.minisign.specs.Records.{PublicKeyRecord};

    ghost Value = { PublicKeyRecord };

    ghost view = { λ k. record { algorithm = k.sig_alg; keynum = k.keynum_pk.keynum; key = k.keynum_pk.pk } };
}

impl PublicKey {
    ghost use Rattle.minisign.specs.Records.{PublicKeyRecord, ReadsPublicKey, public_key_bytes};

    /// Returns the key ID, 8 bytes.
    pub fn keynum(&self) -> &[u8]
        ensures { result.now ≡ self.now.keynum }
    {
        &self.keynum_pk.keynum[..]
    }

    /// Parses the first 42 bytes: algorithm, key ID, key. Fewer bytes are rejected, and later bytes are
    /// ignored. Does not allocate.
    pub fn from_bytes(bytes: &[u8]) -> Result<PublicKey>
        // If there are at least as many bytes as the record needs, the result is the record at their front.
        // If there are fewer, they are rejected.
        ensures { MatchResult result (ReadsPublicKey bytes.now)
            (λ e. (e ≡ Named RecordTooShort) × (length bytes.now < 42)) }
    {
        let (sig_alg, keynum, pk, _) = split_three(bytes)?;
        Ok(PublicKey {
            sig_alg,
            keynum_pk: KeynumPK { keynum, pk },
        })
    }

    /// Parses a public key text, as `read_public_key` does. The first line may be anything. The second line
    /// must have 56 bytes and be the base64 of the 42 bytes of a key. It is trimmed of white space before it
    /// is decoded, so a line with white space is an error. Later lines are ignored.
    ///
    /// Errors come in this order: no first line, no second line, a different length of the second line, a
    /// second line that is not base64, fewer than 42 bytes. Does not allocate.
    pub fn from_box(_alloc: Global, public_key_box: PublicKeyBox) -> Result<PublicKey>
        // The result depends only on the text: it is the public key in the text, as `specs/KeyTexts`
        // defines it, or the error of the first check that fails.
        ensures { result ≡ read_public_key public_key_box }
    {
        read_public_key(public_key_box.as_str())
    }

    /// Parses the public key text in the file at `path`, as `from_box` does. The path is used as given.
    ///
    /// Errors come in this order: a file that cannot be opened or read, `ReadingFailed`; a file that is not
    /// UTF-8, `NotUtf8`; the errors of `from_box`. An allocation may fail at any time. The contract does not
    /// say that the text comes from the named file.
    pub fn from_file<F: Files>(files: &F, alloc: Global, path: &str) -> Result<PublicKey>
        // On success, the result is what parsing some text gives. An error is out of memory, a file that
        // could not be opened or read, a file that is not UTF-8, or the error of parsing some text. The
        // contract does not say that the text comes from the named file.
        ensures { IsReadFromFile read_public_key result }
    {
        let text = read_text_file(files, alloc, path)?;
        PublicKey::from_box(alloc, PublicKeyBox::from(text))
    }

    /// Parses the bare base64 of a public key, 56 bytes, as `read_bare_public_key` does.
    ///
    /// Errors come in this order: a text that does not have 56 bytes after white space at its ends is
    /// trimmed; a text that is not base64, which includes one with white space at its ends; fewer than 42
    /// decoded bytes. Does not allocate.
    pub fn from_base64(_alloc: Global, text: &str) -> Result<PublicKey>
        // The result depends only on the text: it is the public key whose base64 is the text, or the error
        // of the first check that fails.
        ensures { result ≡ read_bare_public_key text.now }
    {
        read_bare_public_key(text)
    }

    /// Returns the public key of a secret key: its algorithm, its key ID and the last 32 bytes of its
    /// secret, which for an encrypted key are the encrypted bytes. Never fails, and does not allocate.
    pub fn from_secret_key(sk: &SecretKey) -> Result<PublicKey>
        // Always succeeds. The public key has the algorithm, the key ID and the last 32 of the secret bytes
        // as the secret key stores them, encrypted or not.
        ensures succeeds { IsOk result }
        ensures key { IfOk result (λ v. v ≡ own_public_key sk.now) }
    {
        let (_, public_half) = sk.keynum_sk.sk.split_at(32);
        let mut pk = [0u8; 32];
        pk.copy_from_slice(public_half);
        Ok(PublicKey {
            sig_alg: sk.sig_alg,
            keynum_pk: KeynumPK {
                keynum: sk.keynum_sk.keynum,
                pk,
            },
        })
    }

    /// Returns the text of the key in two lines: `untrusted comment: minisign public key: ` and the key ID,
    /// read little endian, in 16 uppercase hexadecimal digits; then the base64 of the 42 bytes. The only
    /// error is `OutOfMemory`.
    pub fn to_box(&self, alloc: Global) -> Result<PublicKeyBox>
        // On success, the result is the text of this key in the form that `specs/KeyTexts` defines, and it
        // parses to this key. The only error is out of memory.
        ensures text { IfOk result (λ b. b ≡ public_key_text self.now) }
        ensures reads_back { IfOk result (λ b. read_public_key b ≡ Ok self.now) }
        ensures only_out_of_memory { IfErr result (λ e. e ≡ Named OutOfMemory) }
    {
        let encoded = self.to_base64(alloc)?;
        let text = format!(in alloc;
            "untrusted comment: minisign public key: {}\n{}\n",
            KeyId(self.keynum_pk.keynum),
            encoded
        )?;
        Ok(PublicKeyBox::from(text))
    }

    /// Returns the text of the key with the given comment in two lines: `untrusted comment: ` and the
    /// comment; then the base64 of the 42 bytes. The text is 77 bytes longer than the comment. If the
    /// comment has no line feed, the text parses to the key again. The only error is `OutOfMemory`.
    #[tactic(auto, unfolding(crate::specs::Texts::untrusted_comment_label))]
    pub fn to_box_with_comment(&self, alloc: Global, comment: &str) -> Result<PublicKeyBox>
        // On success, the result is the text of this key with the given comment, in the form that
        // `specs/KeyTexts` defines. It is 77 bytes longer than the comment. If the comment has no line
        // feed, the text parses to this key. The only error is out of memory.
        ensures text { IfOk result (λ b. b ≡ commented_public_key_text comment.now self.now) }
        ensures reads_back { LacksByte 10 comment.now → IfOk result (λ b. read_public_key b ≡ Ok self.now) }
        ensures size { IfOk result (λ b. length b ≡ length comment.now + 77) }
        ensures only_out_of_memory { IfErr result (λ e. e ≡ Named OutOfMemory) }
    {
        let encoded = self.to_base64(alloc)?;
        let mut text = String::new(alloc);
        push_line(&mut text, COMMENT_PREFIX, comment)?;
        push_line(&mut text, "", encoded.as_str())?;
        Ok(PublicKeyBox::from(text))
    }

    /// Returns the base64 of the 42 bytes, 56 characters. The only error is `OutOfMemory`.
    pub fn to_base64(&self, alloc: Global) -> Result<String>
        // On success, the result is the base64 of the key's record, and it parses to this key. The only error
        // is out of memory.
        ensures text { IfOk result (λ t. string_bytes t ≡ base64_of (public_key_bytes self.now)) }
        ensures reads_back { IfOk result (λ t. read_bare_public_key (string_bytes t) ≡ Ok self.now) }
        ensures only_out_of_memory { IfErr result (λ e. e ≡ Named OutOfMemory) }
    {
        let bytes = self.to_bytes(alloc)?;
        let text = encode(alloc, &bytes)?;
        Ok(text)
    }

    /// Returns the 42 bytes that `from_bytes` parses to this key. The only error is `OutOfMemory`.
    pub fn to_bytes(&self, alloc: Global) -> Result<Vec<u8>>
        // On success, the bytes are those of the record, and they parse to this record. By the law
        // `texts_are_decided` in `src/texts.rt`, bytes parse to one record at most. The only error is out of
        // memory.
        ensures bytes { IfOk result (λ v. v.items ≡ public_key_bytes self.now) }
        ensures reads_back { IfOk result (λ v. ReadsPublicKey v.items self.now) }
        ensures only_out_of_memory { IfErr result (λ e. e ≡ Named OutOfMemory) }
    {
        let mut bytes = Vec::with_capacity(alloc, 42)?;
        let KeynumPK { keynum, pk } = &self.keynum_pk;
        push_three(&mut bytes, &self.sig_alg, keynum, pk)?;
        Ok(bytes)
    }
}

/// Two public keys are equal if their 32 key bytes are equal, whatever their key IDs.
impl PartialEq for PublicKey {
    ghost eq = { λ a b. bytes_eq a.key b.key };

    ghost laws = { on_per (λ k. k.key) (partial_equiv_from_equiv nat_list_eq_equiv) };

    fn eq(&self, other: &PublicKey) -> bool {
        fixed_time_eq(&self.keynum_pk.pk, &other.keynum_pk.pk)
    }
}

impl Eq for PublicKey {
    ghost laws = { on_equiv (λ k. k.key) nat_list_eq_equiv };
}
