//! Secret keys, which sign: their fields, their bytes and their text.

ghost use Rattle.std.specs.Prelude.{◌≡◌, Some, Ok, IfOk, IfErr, bytes_eq, ◌+◌, length, IfSome, List, ℕ};
ghost use Rattle.std.specs.Cmp.{on_per, on_equiv, partial_equiv_from_equiv};
ghost use Rattle.std.specs.Cmp.Lexicographic.{nat_list_eq_equiv};
ghost use Rattle.std.specs.Str.Iter.{LacksByte};
ghost use Rattle.std.specs.Option.{option_copied};
ghost use Rattle.std.specs.Int.{to_le_bytes, w64};
ghost use Rattle.minisign_base.specs.Fault.{Named};
ghost use Rattle.minisign_base.specs.declared.faults.NamedFault.TheVariants.{OutOfMemory};
ghost use Rattle.minisign_base.specs.Steps.{without_value};
ghost use Rattle.minisign.specs.KeyTexts.{read_secret_key, secret_key_text};
ghost use Rattle.minisign.specs.Sealing.{unencrypted_key, wants_password};
ghost use Rattle.minisign.specs.Generation.{key_to_seal, unsealed_key};

use crate::constants::{
    CHK_ALG, COMMENT_PREFIX, KDF_ALG, KDF_NONE, SECRETKEY_DEFAULT_COMMENT, SIGALG,
};
use crate::fields::{push_three, split_three};
use crate::keynum::KeynumSK;
use crate::secret_key_box::SecretKeyBox;
use crate::secret_key_in_place::read_secret_key;
use crate::texts::{encode, push_line};
use minisign_base::helpers::store_u64_le;
use minisign_base::{NamedFault, Result};
use minisign_hash::blake2b::Blake2b;
use minisign_hash::util::fixed_time_eq;
use std::alloc::Global;
use std::fmt;
use std::marker::Model;

/// A secret key, a record of 158 bytes: the algorithm (2 bytes), the key derivation (2), the algorithm of the
/// checksum (2), the salt (32), the operations limit (8) and the memory limit (8) of the key derivation, the
/// key ID (8), the secret bytes (64) and the checksum (32). In an encrypted key, the last three fields are
/// encrypted. The algorithm and the algorithm of the checksum are kept as they were read and never checked.
#[derive(Clone, Drop)]
pub struct SecretKey {
    pub(crate) sig_alg: [u8; 2],
    pub(crate) kdf_alg: [u8; 2],
    pub(crate) chk_alg: [u8; 2],
    pub(crate) kdf_salt: [u8; 32],
    pub(crate) kdf_opslimit_le: [u8; 8],
    pub(crate) kdf_memlimit_le: [u8; 8],
    pub(crate) keynum_sk: KeynumSK,
}

impl Model for SecretKey {
    ghost use Rattle.minisign.specs.Records.{SecretKeyRecord};

    ghost Value = { SecretKeyRecord };

    ghost view = { λ k. record {
      algorithm = k.sig_alg;
      kdf = k.kdf_alg;
      checksum_algorithm = k.chk_alg;
      salt = k.kdf_salt;
      operations_limit = k.kdf_opslimit_le;
      memory_limit = k.kdf_memlimit_le;
      keynum = k.keynum_sk.keynum;
      secret = k.keynum_sk.sk;
      checksum = k.keynum_sk.chk;
    } };
}

impl SecretKey {
    ghost use Rattle.minisign.specs.Records.{secret_key_bytes};
    ghost use Rattle.minisign.specs.KeyTexts.{read_secret_key_bytes};
    ghost use Rattle.minisign.specs.Sealing.{checksum_of, is_encrypted};

    // Computes the checksum, which covers the algorithm, the key ID and the secret bytes.
    pub(crate) fn read_checksum(&self) -> [u8; 32]
        ensures { result ≡ checksum_of self.now }
    {
        let mut state = Blake2b::new(32);
        state.update(&self.sig_alg);
        state.update(&self.keynum_sk.keynum);
        state.update(&self.keynum_sk.sk);
        let mut checksum = [0u8; 32];
        state.finalize(&mut checksum);
        checksum
    }

    // Returns true if the checksum matches the other fields. All 32 bytes are compared, so the time does
    // not depend on how many of the first ones match.
    pub(crate) fn has_right_checksum(&self) -> bool
        ensures { result ≡ bytes_eq self.now.checksum (checksum_of self.now) }
    {
        fixed_time_eq(&self.keynum_sk.chk, &self.read_checksum())
    }

    pub(crate) fn write_checksum(&mut self)
        ensures { self.new ≡ record self.old { checksum = checksum_of self.old } }
    {
        self.keynum_sk.chk = self.read_checksum();
    }

    /// Returns the 8 bytes of the key ID. If the key is encrypted, they are encrypted too.
    pub fn keynum(&self) -> &[u8]
        ensures { result.now ≡ self.now.keynum }
    {
        &self.keynum_sk.keynum[..]
    }

    /// Returns the key ID as an array. If the key is encrypted, its bytes are encrypted too.
    pub fn key_id(&self) -> &[u8; 8]
        ensures { result.now ≡ self.now.keynum }
    {
        &self.keynum_sk.keynum
    }

    /// Returns the 64 secret bytes: the 32 bytes of the seed and the 32 bytes of its public key. If
    /// the key is encrypted, they are encrypted too.
    pub fn secret(&self) -> &[u8; 64]
        ensures { result.now ≡ self.now.secret }
    {
        &self.keynum_sk.sk
    }

    /// Returns the two bytes that name the key derivation. They are zero for a key that was never
    /// encrypted.
    pub fn key_derivation(&self) -> &[u8; 2]
        ensures { result.now ≡ self.now.kdf }
    {
        &self.kdf_alg
    }

    /// Returns the 32 bytes of the checksum. If the key is encrypted, they are encrypted too.
    pub fn checksum(&self) -> &[u8; 32]
        ensures { result.now ≡ self.now.checksum }
    {
        &self.keynum_sk.chk
    }

    /// Returns true if the key is encrypted and has to be decrypted before it can sign: it names a key
    /// derivation, and its checksum does not match. Does not allocate.
    pub fn is_encrypted(&self) -> bool
        // The result is true exactly if the key names a key derivation and its checksum does not match.
        ensures { result ≡ is_encrypted self.now }
    {
        self.kdf_alg != KDF_NONE && !self.has_right_checksum()
    }

    /// Returns true if the key names a key derivation, that is, if it was encrypted with a password. The
    /// result is still true after decryption; `is_encrypted` returns false then. Does not allocate.
    pub fn wants_password(&self) -> bool
        ensures { result ≡ wants_password self.now }
    {
        self.kdf_alg != KDF_NONE
    }

    /// Checks that the key was never encrypted (otherwise `KeyMightBeEncrypted`), and then that its
    /// checksum matches (otherwise `CorruptedKey`). Does not allocate.
    pub fn test_unencrypted(&self) -> Result<()>
        // Succeeds exactly if the key was never encrypted and its checksum matches. Otherwise the error is
        // the first of these checks that fails.
        ensures { result ≡ without_value (unencrypted_key self.now) }
    {
        if self.kdf_alg != KDF_NONE {
            return Err(NamedFault::KeyMightBeEncrypted.into());
        }
        if !self.has_right_checksum() {
            return Err(NamedFault::CorruptedKey.into());
        }
        Ok(())
    }

    /// Parses the first 158 bytes. Fewer bytes are rejected, and later bytes are ignored. The bytes are
    /// kept as they are: nothing is decrypted or checked. Does not allocate.
    pub fn from_bytes(bytes: &[u8]) -> Result<SecretKey>
        // If there are at least as many bytes as the record needs, the result is the record at their front.
        // If there are fewer, they are rejected.
        ensures { result ≡ read_secret_key_bytes bytes.now }
    {
        let (sig_alg, kdf_alg, chk_alg, rest) = split_three(bytes)?;
        let (kdf_salt, kdf_opslimit_le, kdf_memlimit_le, rest) = split_three(rest)?;
        let (keynum, sk, chk, _) = split_three(rest)?;
        Ok(SecretKey {
            sig_alg,
            kdf_alg,
            chk_alg,
            kdf_salt,
            kdf_opslimit_le,
            kdf_memlimit_le,
            keynum_sk: KeynumSK { keynum, sk, chk },
        })
    }

    /// Returns the 158 bytes that `from_bytes` parses to this key. The only error is `OutOfMemory`.
    pub fn to_bytes(&self, alloc: Global) -> Result<Vec<u8>>
        // On success, the bytes are those of the record, and they parse to this record. By the law
        // `texts_are_decided` in `src/texts.rt`, bytes parse to one record at most. The only error is out of
        // memory.
        ensures bytes { IfOk result (λ v. v.items ≡ secret_key_bytes self.now) }
        ensures reads_back { IfOk result (λ v. read_secret_key_bytes v.items ≡ Ok self.now) }
        ensures only_out_of_memory { IfErr result (λ e. e ≡ Named OutOfMemory) }
    {
        let mut bytes = Vec::with_capacity(alloc, 158)?;
        push_three(&mut bytes, &self.sig_alg, &self.kdf_alg, &self.chk_alg)?;
        push_three(
            &mut bytes,
            &self.kdf_salt,
            &self.kdf_opslimit_le,
            &self.kdf_memlimit_le,
        )?;
        let KeynumSK { keynum, sk, chk } = &self.keynum_sk;
        push_three(&mut bytes, keynum, sk, chk)?;
        Ok(bytes)
    }

    /// Parses the text of a secret key without decrypting it. The second line, which is not trimmed, is the
    /// base64 of the key's 158 bytes. The first line is not checked; later bytes and later lines are
    /// ignored.
    ///
    /// Errors come in this order: no first line, no second line, a second line that is not base64, fewer
    /// than 158 bytes. Does not allocate.
    pub fn from_text(text: &str) -> Result<SecretKey>
        // The result depends only on the text: it is the secret key in the text, encrypted or not, as
        // `specs/KeyTexts` defines it, or the error of the first check that fails.
        ensures { result ≡ read_secret_key text.now }
    {
        let record = read_secret_key(text)?;
        SecretKey::from_bytes(&record)
    }

    /// Returns the text of the key: `untrusted comment: ` and the comment, or `rsign encrypted secret key`
    /// if none is given, on one line, and the base64 of the 158 bytes on the next, each ended by a line
    /// feed. The bytes are written as they are: a key that was decrypted is written decrypted, although it
    /// still names its key derivation. If the comment has no line feed, the text parses to the key again.
    /// The text is 233 bytes longer than the comment. The only error is `OutOfMemory`.
    #[tactic(auto, unfolding(crate::specs::KeyTexts::secret_key_text, crate::specs::KeyTexts::default_secret_key_comment))]
    pub fn to_box(&self, alloc: Global, comment: Option<&str>) -> Result<SecretKeyBox>
        // On success, the result is the text of this key in the form that `specs/KeyTexts` defines. If a
        // comment is given, the text is 233 bytes longer than the comment. If the comment has no line feed,
        // the text parses to this key. The only error is out of memory.
        ensures text { IfOk result
            (λ b. b ≡ secret_key_text (option_copied comment.entry) self.now) }
        ensures reads_back { IfSome comment.entry (λ s. LacksByte 10 s.now)
            → IfOk result (λ b. read_secret_key b ≡ Ok self.now) }
        ensures size { IfSome comment.entry
            (λ s. IfOk result (λ b. length b ≡ length s.now + 233)) }
        ensures only_out_of_memory { IfErr result (λ e. e ≡ Named OutOfMemory) }
    {
        match comment {
            Some(comment) => self.write_box(alloc, comment),
            None => self.write_box(alloc, SECRETKEY_DEFAULT_COMMENT),
        }
    }

    #[tactic(auto, unfolding(crate::specs::KeyTexts::secret_key_text, crate::specs::Texts::untrusted_comment_label))]
    fn write_box(&self, alloc: Global, comment: &str) -> Result<SecretKeyBox>
        ensures text { IfOk result (λ b. b ≡ secret_key_text (Some comment.now) self.now) }
        ensures reads_back { LacksByte 10 comment.now
            → IfOk result (λ b. read_secret_key b ≡ Ok self.now) }
        ensures size { IfOk result (λ b. length b ≡ length comment.now + 233) }
        ensures only_out_of_memory { IfErr result (λ e. e ≡ Named OutOfMemory) }
    {
        let bytes = self.to_bytes(alloc)?;
        let encoded = encode(alloc, &bytes)?;
        let mut text = String::new(alloc);
        push_line(&mut text, COMMENT_PREFIX, comment)?;
        push_line(&mut text, "", encoded.as_str())?;
        Ok(SecretKeyBox::from(text))
    }

    /// Returns the unencrypted secret key of a key ID of 8 bytes and 64 secret bytes, a seed followed by
    /// its public key. Its salt and its limits are zeros. Does not allocate.
    #[tactic(auto, unfolding(crate::specs::Generation::unsealed_key))]
    pub fn from_parts(key_id: [u8; 8], secret: [u8; 64]) -> SecretKey
        // The result is an unencrypted secret key with this key ID and these secret bytes, as
        // `specs/Generation` defines it.
        ensures { result ≡ unsealed_key key_id secret }
    {
        let mut sk = SecretKey {
            sig_alg: SIGALG,
            kdf_alg: KDF_NONE,
            chk_alg: CHK_ALG,
            kdf_salt: [0; 32],
            kdf_opslimit_le: [0; 8],
            kdf_memlimit_le: [0; 8],
            keynum_sk: KeynumSK {
                keynum: key_id,
                sk: secret,
                chk: [0; 32],
            },
        };
        sk.write_checksum();
        sk
    }

    // Returns the key with scrypt as its key derivation and with this salt and these limits. If `self` is a
    // key from `from_parts`, the result is the key that `specs/Generation` defines as the one to encrypt.
    #[tactic(auto, unfolding(crate::specs::Generation::key_to_seal))]
    pub(crate) fn with_limits(self, salt: [u8; 32], opslimit: u64, memlimit: u64) -> SecretKey
        ensures named { (keynum secret : List ℕ) → self ≡ unsealed_key keynum secret
            → result ≡ key_to_seal keynum secret salt opslimit memlimit }
        ensures memory { result.memory_limit ≡ to_le_bytes w64 memlimit }
        ensures operations { result.operations_limit ≡ to_le_bytes w64 opslimit }
    {
        let mut sk = self;
        sk.kdf_alg = KDF_ALG;
        sk.kdf_salt = salt;
        sk.kdf_opslimit_le = store_u64_le(opslimit);
        sk.kdf_memlimit_le = store_u64_le(memlimit);
        sk
    }
}

/// Two secret keys are equal if their 64 secret bytes are equal, whatever their other fields.
impl PartialEq for SecretKey {
    ghost eq = { λ a b. bytes_eq a.secret b.secret };

    ghost laws = { on_per (λ k. k.secret) (partial_equiv_from_equiv nat_list_eq_equiv) };

    fn eq(&self, other: &SecretKey) -> bool {
        fixed_time_eq(&self.keynum_sk.sk, &other.keynum_sk.sk)
    }
}

impl Eq for SecretKey {
    ghost laws = { on_equiv (λ k. k.secret) nat_list_eq_equiv };
}

/// Prints the secret: its 64 bytes in lowercase hexadecimal, as the Rust crate `minisign` does. Each byte is
/// written without a leading zero, so 0x05 is `5`. Keep the output out of logs.
impl fmt::Debug for SecretKey {
    ghost use Rattle.minisign.specs.Records.{secret_text};

    ghost debug_output = { λ k. Some (secret_text k.secret) };

    fn fmt<W: fmt::Write>(&self, f: &mut fmt::Formatter<W>) -> fmt::Result {
        fmt::Debug::fmt(&self.keynum_sk, f)
    }
}
