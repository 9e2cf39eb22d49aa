//! Decrypting secret keys with a password, from a text or a parsed key, and encrypting new ones.

ghost use Rattle.std.specs.Prelude.{◌≡◌, ◌≤◌, ◌⊎◌, ◌∷◌, [], ℕ, List, None, Some, Ok, Err, false};
ghost use Rattle.std.specs.Prelude.{string_bytes, IfOk, IfErr, IsOk, IsErrAnd, MatchResult, OnOk, ◌*◌, ◌^◌};
ghost use Rattle.std.specs.Prelude.{length, nat_lt, replicate, OnErr, IfSome};
ghost use Rattle.std.specs.Option.{option_map};
ghost use Rattle.std.specs.Result.{result_err};
ghost use Rattle.minisign_base.specs.Fault.{Named};
ghost use Rattle.minisign_base.specs.declared.faults.NamedFault.TheVariants.{OutOfMemory};
ghost use Rattle.minisign_base.specs.DeviceCalls.{prompt_call};
ghost use Rattle.minisign_base.specs.Prompts.{ConversationEnds, Say, StepEnds, Test, asking_steps};
ghost use Rattle.minisign_base.specs.Passwords.{password_of};
ghost use Rattle.minisign_base.specs.Steps.{without_value};
ghost use Rattle.minisign_base.specs.Limits.{sealing_limits};
ghost use Rattle.minisign.specs.Sealing.{allowed_work, is_encrypted, open_sealed, restored_key};
ghost use Rattle.minisign.specs.Sealing.{sealed_by_scrypt, allowed_rows, opening_work, opening_memory};
ghost use Rattle.minisign.specs.Sealing.{xored_key, key_xor, IsOpening, opening_steps, decrypting_steps};
ghost use Rattle.minisign.specs.Sealing.{asking_text, deriving_text, done_text, read_unencrypted_key};
ghost use Rattle.minisign.specs.Sealing.{open_key, IsOpenedOrNoMemory};
ghost use Rattle.minisign.specs.KeyTexts.{read_secret_key};
ghost use Rattle.minisign.specs.Reading.{IsTextFileFault};
ghost use Rattle.minisign.specs.Texts.{and_then};
ghost use Rattle.minisign.specs.Generation.{key_to_seal, unsealed_key, making_fault, made_key};

use crate::constants::{KDF_ALG, KDF_NONE};
use crate::making::Sealing;
use crate::reading::read_text_file;
use crate::sealing::{Derivation, derive_stream, derive_stream_in_place, key_params, xor_bytes};
use crate::secret_key::SecretKey;
use crate::secret_key_box::SecretKeyBox;
use minisign_base::devices::sinks::Sink;
use minisign_base::devices::sources::Source;
use minisign_base::helpers::get_password;
use minisign_base::prompt::Prompt;
use minisign_base::{NamedFault, Params, Result};
use minisign_kdf::clear_memory;
use std::alloc::Global;
use std::rt::Files;

impl SecretKeyBox {
    /// Returns the secret key in the text, decrypted, as `SecretKey::from_box` does.
    pub fn into_secret_key<R: Source, W: Sink>(
        self,
        alloc: Global,
        password: Option<String>,
        prompt: &mut Prompt<R, W>,
    ) -> Result<SecretKey>
        // The text is decrypted as `SecretKey::from_box_within` promises, without a bound on the work.
        ensures opens { IsOpening (prompt_call R.Source W.Sink prompt.old prompt.new)
            (option_map string_bytes password) self None result }
        ensures headline { IfSome (option_map string_bytes password)
            (λ p. IsOpenedOrNoMemory self None result (open_key self p None)) }
    {
        SecretKey::from_box(alloc, self, password, prompt)
    }

    /// Returns the secret key in the text if it was never encrypted, as `SecretKey::from_unencrypted_box`
    /// does.
    pub fn into_unencrypted_secret_key(self) -> Result<SecretKey>
        // The text is parsed, or rejected, as `SecretKey::from_unencrypted_box` promises.
        ensures { result ≡ read_unencrypted_key self }
    {
        SecretKey::from_unencrypted_box(self)
    }
}

impl SecretKey {
    /// Parses the secret key text in the file at `path` and decrypts the key with the password, as
    /// `from_box` does. The path is used as given.
    ///
    /// Errors come in this order: a file that cannot be opened or read, `ReadingFailed`; a file that is not
    /// UTF-8, `NotUtf8`; the errors of `from_box`. An allocation may fail at any time. The prompt is not used
    /// until the file has been read. The contract does not say that the text comes from the named file.
    pub fn from_file<F: Files, R: Source, W: Sink>(
        files: &F,
        alloc: Global,
        path: &str,
        password: Option<String>,
        prompt: &mut Prompt<R, W>,
    ) -> Result<SecretKey>
        // On success, the key was decrypted from some text, as `SecretKey::from_box` does it. An error is
        // out of memory, a file that could not be opened or read, a file that is not UTF-8, or an error of
        // `SecretKey::from_box` for some text.
        //
        // If the file could not be read as a text, the prompt is unchanged.
        ensures opens { (IsErrAnd result IsTextFileFault × (prompt.new ≡ prompt.old))
            ⊎ ((text : List ℕ) × IsOpening (prompt_call R.Source W.Sink prompt.old prompt.new)
            (option_map string_bytes password) text None result) }
    {
        let text = read_text_file(files, alloc, path)?;
        SecretKey::from_box(alloc, SecretKeyBox::from(text), password, prompt)
    }

    /// Parses the text of an encrypted key and decrypts it with the password, as `from_box_within` does,
    /// without a bound on the work, so `WorkTooHigh` is never returned.
    pub fn from_box<R: Source, W: Sink>(
        alloc: Global,
        sk_box: SecretKeyBox,
        password: Option<String>,
        prompt: &mut Prompt<R, W>,
    ) -> Result<SecretKey>
        // The text is decrypted as `SecretKey::from_box_within` promises, without a bound on the work.
        ensures opens { IsOpening (prompt_call R.Source W.Sink prompt.old prompt.new)
            (option_map string_bytes password) sk_box None result }
        ensures headline { IfSome (option_map string_bytes password)
            (λ p. IsOpenedOrNoMemory sk_box None result (open_key sk_box p None)) }
    {
        let derivation = Derivation { bound: None, k: 1 };
        SecretKey::open_box(alloc, sk_box, password, prompt, derivation)
    }

    /// Parses the text of an encrypted key and decrypts it with the password, as `from_box` does,
    /// in a fraction of the memory: only every k-th of scrypt's rows is kept, k at least 1, and the
    /// others are computed again when they are needed. The result and the errors are the same for
    /// every k; the time grows with k. Memory for the kept rows is allocated once: 128 * 8 bytes
    /// for each of N / k rows, rounded up.
    pub fn from_box_keeping<R: Source, W: Sink>(
        alloc: Global,
        sk_box: SecretKeyBox,
        password: Option<String>,
        prompt: &mut Prompt<R, W>,
        k: u64,
    ) -> Result<SecretKey>
        requires k_positive { 1 ≤ k }

        // For every k of at least 1, with every k-th row of scrypt kept, the text is decrypted as
        // `SecretKey::from_box_within` promises, without a bound on the work.
        ensures opens { IsOpening (prompt_call R.Source W.Sink prompt.old prompt.new)
            (option_map string_bytes password) sk_box None result }
        ensures headline { IfSome (option_map string_bytes password)
            (λ p. IsOpenedOrNoMemory sk_box None result (open_key sk_box p None)) }
    {
        let derivation = Derivation { bound: None, k };
        SecretKey::open_box(alloc, sk_box, password, prompt, derivation)
    }

    /// Parses the text of an encrypted key and decrypts it with the password, within a bound on the work
    /// that an untrusted key may cause: `max_p` is the greatest parallelization p of scrypt (RFC 7914,
    /// section 2) that is allowed. Memory for the rows of scrypt is allocated once, 128 * 8 * N bytes.
    ///
    /// If no password is given, the prompt writes `Password: `, reads a line, writes `Deriving a key from
    /// the password and decrypting the secret key... `, and after the derivation writes `done` and a line
    /// feed. A given password leaves the prompt unchanged.
    ///
    /// Errors come in this order: no first line, no second line, a second line that is not base64, fewer
    /// than 158 bytes; a key that was never encrypted, `KeyNotEncrypted`; a key derivation other than
    /// scrypt, `UnsupportedEncryptionAlgorithm`; the errors of `get_password`; a writer that fails before
    /// the derivation; a memory limit above 1073741824 bytes or a cost above 2^20, `ParametersTooHigh`;
    /// limits that give parameters that scrypt rejects, `InvalidParameters`; p above `max_p`,
    /// `WorkTooHigh`; a writer that fails at `done`; a checksum that does not match after decryption,
    /// `WrongPassword`. Limits that are rejected cause no allocation of rows.
    pub fn from_box_within<R: Source, W: Sink>(
        alloc: Global,
        sk_box: SecretKeyBox,
        password: Option<String>,
        prompt: &mut Prompt<R, W>,
        max_p: u32,
    ) -> Result<SecretKey>
        // With a given password, the result is the key in the text, decrypted under this password within
        // the bound, or the error of the first check that fails; or it is out of memory, which is
        // possible only for a key whose derivation is allowed. The prompt is unchanged.
        //
        // Without a given password, a text that no password can decrypt is rejected with the prompt
        // unchanged. Otherwise the prompt asks for the password and writes what docs/FORMATS.md says, and
        // on success the key is decrypted with the password that was typed. An error is one of the prompt
        // or the error of the first check that fails for the key and the password, after what was written
        // up to that point.
        ensures opens { IsOpening (prompt_call R.Source W.Sink prompt.old prompt.new)
            (option_map string_bytes password) sk_box (Some max_p) result }

        // With a given password, and unless the result is out of memory, a text is decrypted exactly if it
        // parses to a key that is encrypted with scrypt, the limits of the key are allowed and within the
        // bound, and its checksum matches once the key is xored with the stream that scrypt (RFC 7914)
        // derives from the password.
        ensures headline { IfSome (option_map string_bytes password)
            (λ p. IsOpenedOrNoMemory sk_box (Some max_p) result (open_key sk_box p (Some max_p))) }
    {
        let bound = Some(max_p);
        let derivation = Derivation { bound, k: 1 };
        SecretKey::open_box(alloc, sk_box, password, prompt, derivation)
    }

    /// Parses the text of an encrypted key and decrypts it with the password, as `from_box_within`
    /// does, with only every k-th of scrypt's rows kept, k at least 1, as in `from_box_keeping`. N
    /// is at most 2^20, so with k = 16 no key needs more than 64 MiB for rows.
    ///
    /// The result, the errors and their order are those of `from_box_within` for every k.
    pub fn from_box_keeping_within<R: Source, W: Sink>(
        alloc: Global,
        sk_box: SecretKeyBox,
        password: Option<String>,
        prompt: &mut Prompt<R, W>,
        k: u64,
        max_p: u32,
    ) -> Result<SecretKey>
        requires k_positive { 1 ≤ k }

        // For every k of at least 1, with every k-th row of scrypt kept, the text is decrypted as
        // `SecretKey::from_box_within` promises.
        ensures opens { IsOpening (prompt_call R.Source W.Sink prompt.old prompt.new)
            (option_map string_bytes password) sk_box (Some max_p) result }
        ensures headline { IfSome (option_map string_bytes password)
            (λ p. IsOpenedOrNoMemory sk_box (Some max_p) result (open_key sk_box p (Some max_p))) }
    {
        let bound = Some(max_p);
        let derivation = Derivation { bound, k };
        SecretKey::open_box(alloc, sk_box, password, prompt, derivation)
    }

    /// Parses the text of a key that was never encrypted. The text has two lines: a comment, and the base64
    /// of the key's 158 bytes, which is not trimmed. Later bytes and later lines are ignored.
    ///
    /// Errors come in this order: no first line, no second line, a second line that is not base64, fewer
    /// than 158 bytes; a key derivation other than two zero bytes; a checksum that does not match. Does not
    /// allocate.
    pub fn from_unencrypted_box(sk_box: SecretKeyBox) -> Result<SecretKey>
        // Succeeds exactly if the text parses to a key that names no key derivation and whose checksum
        // matches. Otherwise the error is that of the first check that fails.
        ensures { result ≡ read_unencrypted_key sk_box }
    {
        let sk = SecretKey::from_text(sk_box.as_str())?;
        sk.test_unencrypted()?;
        Ok(sk)
    }

    /// Returns the work that decrypting the key takes: scrypt's N, as its logarithm to base 2, at most 20,
    /// and its p. N rows of 1 KiB are computed p times. Both are zero if the key was never encrypted, or
    /// if its limits are rejected. Does not allocate.
    pub fn opening_work(&self) -> (u8, u32)
        // The result is the work of the scrypt parameters that the key's limits give.
        ensures { result ≡ opening_work self.now }
    {
        if !self.wants_password() {
            return (0, 0);
        }
        match key_params(self) {
            Ok(params) => (params.n_log2(), params.p()),
            Err(_) => (0, 0),
        }
    }

    /// Returns the greatest parallelization p with which decrypting the key computes at most `most_rows`
    /// rows, N for each of the p parts; 0 if the key's limits are rejected. Does not allocate.
    pub fn times_within(&self, most_rows: u64) -> u32
        // With the result as the bound on p, decrypting this key is allowed exactly if it is allowed when
        // at most `most_rows` rows may be computed.
        ensures { allowed_work self.now (Some result) ≡ allowed_rows self.now most_rows }
    {
        match key_params(self) {
            Ok(params) => greatest_p(most_rows, &params),
            Err(_) => 0,
        }
    }

    /// Decrypts a parsed key with a password, within a bound on the work and with every k-th of
    /// scrypt's rows kept, k at least 1, as `from_box_keeping_within` does with the key's text.
    /// Never prompts.
    ///
    /// Errors come in this order: a key that was never encrypted, `KeyNotEncrypted`; a key
    /// derivation other than scrypt, `UnsupportedEncryptionAlgorithm`; limits, `ParametersTooHigh`
    /// or `InvalidParameters`; p above `max_p`, `WorkTooHigh`; a failed allocation for the rows; a
    /// checksum that does not match after decryption, `WrongPassword`.
    pub fn open_keeping_within(
        self,
        alloc: Global,
        password: &[u8],
        k: u64,
        max_p: u32,
    ) -> Result<SecretKey>
        requires k_positive { 1 ≤ k }

        // For every k, the result is out of memory or exactly what the key decrypts to under the password:
        // the decrypted key, or the error of the first check that fails. Out of memory is possible only
        // for a key that is encrypted with scrypt, with limits that are allowed and p within the bound.
        ensures { (result ≡ and_then (sealed_by_scrypt self) (λ sealed. open_sealed sealed password.now
            (Some max_p))) ⊎ ((result ≡ Err (Named OutOfMemory)) × IsOk
            (and_then (sealed_by_scrypt self) (λ sealed. allowed_work sealed (Some max_p)))) }
    {
        self.check_sealed()?;
        let bound = Some(max_p);
        self.open_with(alloc, password, Derivation { bound, k })
    }

    /// Returns the memory that `open_in_place` needs if every k-th of scrypt's rows is kept, k at
    /// least 1: a number of 32-bit words and a number of bytes. Together they are 1 KiB for each
    /// kept row, for three more rows, and for each of the p parts. At most 2^20 / k rows are kept,
    /// rounded up. Both numbers are zero if the key was never encrypted, or if its limits are
    /// rejected. Does not allocate.
    pub fn opening_memory(&self, k: u64) -> (u64, u64)
        requires { 1 ≤ k }

        // The result is the memory for the scrypt parameters that the key's limits give.
        ensures { result ≡ opening_memory self.now k }
    {
        if !self.wants_password() {
            return (0, 0);
        }
        match key_params(self) {
            Ok(params) => (params.words_needed(k), params.bytes_needed()),
            Err(_) => (0, 0),
        }
    }

    /// Decrypts a parsed key with a password, as `open_keeping_within` does, in memory that the caller
    /// provides: `words` and `bytes` must have at least the lengths that `opening_memory` returns for the
    /// same k. So no allocation can fail. The previous contents of the memory are ignored, and all of it is
    /// zero afterwards, even after an error.
    ///
    /// The errors and their order are those of `open_keeping_within`, without out of memory. Does not
    /// allocate.
    pub fn open_in_place(
        self,
        password: &[u8],
        k: u64,
        max_p: u32,
        words: &mut [u32],
        bytes: &mut [u8],
    ) -> Result<SecretKey>
        requires k_positive { 1 ≤ k }
        requires words { (opening_memory self k).0 ≤ length words.old }
        requires bytes { (opening_memory self k).1 ≤ length bytes.old }

        // Whatever the caller's memory held, the result is exactly what the key decrypts to under the
        // password: the decrypted key, or the error of the first check that fails. It is never out of
        // memory.
        ensures opens { (text : List ℕ) → read_secret_key text ≡ Ok self
            → result ≡ open_key text password.now (Some max_p) }
        ensures result { result ≡ and_then (sealed_by_scrypt self)
            (λ sealed. open_sealed sealed password.now (Some max_p)) }

        // Afterwards all of the caller's memory is zero, whatever the result.
        ensures words_cleared { words.new ≡ replicate (length words.old) 0 }
        ensures bytes_cleared { bytes.new ≡ replicate (length bytes.old) 0 }
    {
        match self.check_sealed() {
            Ok(()) => self.open_sealed_in_place(password, k, max_p, words, bytes),
            Err(fault) => {
                clear_memory(words, bytes);
                Err(fault)
            }
        }
    }

    // Parses an encrypted key and decrypts it.
    fn open_box<R: Source, W: Sink>(
        alloc: Global,
        sk_box: SecretKeyBox,
        password: Option<String>,
        prompt: &mut Prompt<R, W>,
        derivation: Derivation,
    ) -> Result<SecretKey>
        requires k_positive { 1 ≤ derivation.k }
        ensures opens { IsOpening (prompt_call R.Source W.Sink prompt.old prompt.new)
            (option_map string_bytes password) sk_box derivation.bound result }
        ensures headline { IfSome (option_map string_bytes password)
            (λ p. IsOpenedOrNoMemory sk_box derivation.bound result (open_key sk_box p derivation.bound)) }
    {
        let sk = SecretKey::from_text(sk_box.as_str())?;
        sk.open(alloc, password.as_deref(), prompt, derivation)
    }

    // Decrypts a parsed key with a password that is given or asked for.
    pub(crate) fn open<R: Source, W: Sink>(
        self,
        alloc: Global,
        password: Option<&str>,
        prompt: &mut Prompt<R, W>,
        derivation: Derivation,
    ) -> Result<SecretKey>
        requires { 1 ≤ derivation.k }
        ensures opens { (text : List ℕ) → read_secret_key text ≡ Ok self →
            IsOpening (prompt_call R.Source W.Sink prompt.old prompt.new)
            (option_map (λ p. p.now) password.entry) text derivation.bound result }
        ensures opened { IfOk result (λ v. is_encrypted v ≡ false) }
    {
        self.check_sealed()?;
        match password {
            Some(password) => self.open_with(alloc, password.as_bytes(), derivation),
            None => self.open_asking(alloc, prompt, derivation),
        }
    }

    // Returns an error unless the key is encrypted with scrypt.
    pub(crate) fn check_sealed(&self) -> Result<()>
        ensures { result ≡ without_value (sealed_by_scrypt self.now) }
    {
        if self.kdf_alg == KDF_NONE {
            return Err(NamedFault::KeyNotEncrypted.into());
        }
        if self.kdf_alg != KDF_ALG {
            return Err(NamedFault::UnsupportedEncryptionAlgorithm.into());
        }
        Ok(())
    }

    // Prompts for a password and decrypts the key with it.
    fn open_asking<R: Source, W: Sink>(
        self,
        alloc: Global,
        prompt: &mut Prompt<R, W>,
        derivation: Derivation,
    ) -> Result<SecretKey>
        requires { 1 ≤ derivation.k }
        ensures opened { IfOk result (λ v. (bytes password : List ℕ) × (password_of bytes ≡ Ok password)
            × (open_sealed self password derivation.bound ≡ Ok v) × ConversationEnds (prompt_call R.Source
            W.Sink prompt.old prompt.new) (opening_steps self derivation.bound bytes) (Ok tt)) }
        ensures refused { IfErr result (λ e. (bytes : List ℕ)
            × ConversationEnds (prompt_call R.Source W.Sink prompt.old prompt.new)
            (opening_steps self derivation.bound bytes) (Err e)) }
    {
        let password = ask_password(alloc, prompt)?;
        self.open_with_reports(alloc, password.as_bytes(), prompt, derivation)
    }

    // Decrypts the key, and reports on the prompt before and after the derivation.
    #[tactic(auto, using(crate::proofs::Openings::opened_from_parts))]
    fn open_with_reports<R: Source, W: Sink>(
        self,
        alloc: Global,
        password: &[u8],
        prompt: &mut Prompt<R, W>,
        derivation: Derivation,
    ) -> Result<SecretKey>
        requires { 1 ≤ derivation.k }
        ensures opened { IfOk result (λ v. open_sealed self password.now derivation.bound ≡ Ok v) }
        ensures conversation_ends { ConversationEnds (prompt_call R.Source W.Sink prompt.old prompt.new)
            (decrypting_steps self password.now derivation.bound) (without_value result) }
    {
        say_deriving(prompt)?;
        let mut sk = self;
        sk.apply_stream(alloc, password, derivation)?;
        sk.finish_with_reports(prompt)?;
        Ok(sk)
    }

    // Reports the end of the derivation, and only then checks the decrypted checksum.
    fn finish_with_reports<R: Source, W: Sink>(&self, prompt: &mut Prompt<R, W>) -> Result<()>
        ensures conversation_ends { ConversationEnds (prompt_call R.Source W.Sink prompt.old prompt.new)
            (Say done_text ∷ Test (result_err (restored_key self.now)) ∷ []) result }
        ensures restored { OnOk result (restored_key self.now ≡ Ok self.now) }
    {
        say_done(prompt)?;
        self.check_restored()
    }

    // Decrypts a key with a given password.
    pub(crate) fn open_with(
        self,
        alloc: Global,
        password: &[u8],
        derivation: Derivation,
    ) -> Result<SecretKey>
        requires { 1 ≤ derivation.k }
        ensures { (result ≡ open_sealed self password.now derivation.bound)
            ⊎ ((result ≡ Err (Named OutOfMemory)) × IsOk (allowed_work self derivation.bound)) }
    {
        let mut sk = self;
        sk.apply_stream(alloc, password, derivation)?;
        sk.check_restored()?;
        Ok(sk)
    }

    // Returns `WrongPassword` if the checksum does not match after decryption.
    pub(crate) fn check_restored(&self) -> Result<()>
        ensures { MatchResult result (λ _. restored_key self.now ≡ Ok self.now)
            (λ e. restored_key self.now ≡ Err e) }
    {
        if !self.has_right_checksum() {
            return Err(NamedFault::WrongPassword.into());
        }
        Ok(())
    }

    // Encrypts an unencrypted key, with every k-th row of scrypt kept. Limits that are not allowed
    // are rejected before anything is derived.
    pub(crate) fn seal_by(
        self,
        alloc: Global,
        password: &[u8],
        sealing: Sealing,
        k: u64,
    ) -> Result<SecretKey>
        requires { 1 ≤ k }
        ensures sealed { (keynum secret : List ℕ) → self ≡ unsealed_key keynum secret
            → IfOk result (λ sk. sk ≡ made_key keynum secret (Some password.now) sealing) }
        ensures opened { (keynum secret : List ℕ) → self ≡ unsealed_key keynum secret
            → IfOk result (λ sk. xored_key sk password.now ≡ key_to_seal keynum secret sealing.salt
            sealing.operations_limit sealing.memory_limit) }
        ensures allowed { OnOk result (IsOk (sealing_limits sealing.memory_limit sealing.operations_limit)) }
        ensures refused { IfErr result (λ e. e ≡ making_fault (Some password.now) sealing) }
    {
        let mut sk = self.with_limits(sealing.salt, sealing.operations_limit, sealing.memory_limit);
        sk.apply_stream(alloc, password, Derivation { bound: None, k })?;
        Ok(sk)
    }

    // Xors the last 104 bytes of the record with the stream for the password: decrypts an encrypted
    // key, and encrypts a decrypted one. Limits that are not allowed are rejected first, then a
    // parallelization above the bound, both before anything is allocated or derived.
    #[tactic(auto, using(crate::proofs::SealedParts::restored_key))]
    pub(crate) fn apply_stream(
        &mut self,
        alloc: Global,
        password: &[u8],
        derivation: Derivation,
    ) -> Result<()>
        requires { 1 ≤ derivation.k }
        ensures xored { OnOk result (self.new ≡ xored_key self.old password.now) }
        ensures restores { OnOk result (xored_key self.new password.now ≡ self.old) }
        ensures allowed { OnOk result (IsOk (allowed_work self.old derivation.bound)) }
        ensures refused { IfErr result (λ e.
            ((e ≡ Named OutOfMemory) × IsOk (allowed_work self.old derivation.bound))
            ⊎ (allowed_work self.old derivation.bound ≡ Err e)) }
        ensures unchanged { OnErr result (self.new ≡ self.old) }
    {
        let stream = derive_stream(alloc, self, password, derivation)?;
        self.xor_keynum(&stream);
        Ok(())
    }

    // Xors the last 104 bytes of the record with the stream. A second call with the same stream
    // restores them.
    pub(crate) fn xor_keynum(&mut self, stream: &[u8; 104])
        ensures xored { self.new ≡ key_xor self.old stream.now }
        ensures restores { key_xor self.new stream.now ≡ self.old }
    {
        let (keynum, rest) = stream.split_at(8);
        let (secret, checksum) = rest.split_at(64);
        xor_bytes(&mut self.keynum_sk.keynum, keynum);
        xor_bytes(&mut self.keynum_sk.sk, secret);
        xor_bytes(&mut self.keynum_sk.chk, checksum);
    }

    // Decrypts a key that is encrypted with scrypt.
    fn open_sealed_in_place(
        self,
        password: &[u8],
        k: u64,
        max_p: u32,
        words: &mut [u32],
        bytes: &mut [u8],
    ) -> Result<SecretKey>
        requires k_positive { 1 ≤ k }
        requires sealed { sealed_by_scrypt self ≡ Ok self }
        requires words { (opening_memory self k).0 ≤ length words.old }
        requires bytes { (opening_memory self k).1 ≤ length bytes.old }
        ensures result { result ≡ open_sealed self password.now (Some max_p) }
        ensures words_cleared { words.new ≡ replicate (length words.old) 0 }
        ensures bytes_cleared { bytes.new ≡ replicate (length bytes.old) 0 }
    {
        let mut sk = self;
        sk.apply_stream_in_place(password, k, max_p, words, bytes)?;
        sk.check_restored()?;
        Ok(sk)
    }

    // Does what `apply_stream` does, in the caller's memory.
    fn apply_stream_in_place(
        &mut self,
        password: &[u8],
        k: u64,
        max_p: u32,
        words: &mut [u32],
        bytes: &mut [u8],
    ) -> Result<()>
        requires k_positive { 1 ≤ k }
        requires sealed { sealed_by_scrypt self.old ≡ Ok self.old }
        requires words { (opening_memory self.old k).0 ≤ length words.old }
        requires bytes { (opening_memory self.old k).1 ≤ length bytes.old }
        ensures xored { OnOk result (self.new ≡ xored_key self.old password.now) }
        ensures allowed { OnOk result (IsOk (allowed_work self.old (Some max_p))) }
        ensures refused { IfErr result (λ e. allowed_work self.old (Some max_p) ≡ Err e) }
        ensures words_cleared { words.new ≡ replicate (length words.old) 0 }
        ensures bytes_cleared { bytes.new ≡ replicate (length bytes.old) 0 }
    {
        let stream = derive_stream_in_place(self, password, k, max_p, words, bytes)?;
        self.xor_keynum(&stream);
        Ok(())
    }
}

#[tactic(auto, unfolding(crate::specs::Sealing::asking_text))]
fn ask_password<R: Source, W: Sink>(alloc: Global, prompt: &mut Prompt<R, W>) -> Result<String>
    ensures asked { IfOk result (λ password. (bytes : List ℕ) × (password_of bytes
        ≡ Ok (string_bytes password)) × ConversationEnds (prompt_call R.Source W.Sink prompt.old prompt.new)
        (asking_steps asking_text bytes) (Ok tt)) }
    ensures refused { IfErr result (λ e. (bytes : List ℕ)
        × ConversationEnds (prompt_call R.Source W.Sink prompt.old prompt.new)
        (asking_steps asking_text bytes) (Err e)) }
{
    get_password(alloc, prompt, "Password: ")
}

#[tactic(auto, unfolding(crate::specs::Sealing::deriving_text))]
fn say_deriving<R: Source, W: Sink>(prompt: &mut Prompt<R, W>) -> Result<()>
    ensures step_ends { StepEnds (prompt_call R.Source W.Sink prompt.old prompt.new)
        (Say deriving_text) result }
{
    prompt.say("Deriving a key from the password and decrypting the secret key... ")
}

#[tactic(auto, unfolding(crate::specs::Sealing::done_text))]
fn say_done<R: Source, W: Sink>(prompt: &mut Prompt<R, W>) -> Result<()>
    ensures step_ends { StepEnds (prompt_call R.Source W.Sink prompt.old prompt.new)
        (Say done_text) result }
{
    prompt.say("done\n")
}

// Returns the greatest p for which N * p is at most `most_rows`, limited to 32 bits.
fn greatest_p(most_rows: u64, params: &Params) -> u32
    ensures { nat_lt result params.now.p ≡ nat_lt most_rows (2 ^ params.now.n_log2 * params.now.p) }
{
    let times = most_rows >> params.n_log2();
    times.min(u64::from(u32::MAX)) as u32
}
