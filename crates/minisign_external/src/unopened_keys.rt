//! A secret key as its file contains it, encrypted or not. The struct is read from the file once. It says how
//! much work opening (decrypting) the key takes, and the key is opened from it.

ghost use Rattle.std.specs.Prelude.{◌≡◌, ◌≤◌, ◌⊎◌, ℕ, List, if◌then◌else◌, true, false, None, Some, Ok, Err};
ghost use Rattle.std.specs.Prelude.{MatchResult};
ghost use Rattle.std.specs.Prelude.{OnOk, OnErr, IfErr, IsOk, length, replicate};
ghost use Rattle.std.specs.Option.{option_copied};
ghost use Rattle.std.specs.Prelude.{take, drop};
ghost use Rattle.std.specs.Int.{from_le_bytes, w64};
ghost use Rattle.std.specs.Str.{IsUtf8};
ghost use Rattle.minisign_base.specs.Limits.{sealing_limits};
ghost use Rattle.minisign_base.specs.Fault.{Named};
ghost use Rattle.minisign_base.specs.Steps.{without_value};
ghost use Rattle.minisign_base.specs.declared.faults.NamedFault.TheVariants.{OutOfMemory};
ghost use Rattle.minisign.specs.Sealing.{allowed_rows, opening_memory, opening_work, sealed_by_scrypt};
ghost use Rattle.minisign.specs.Sealing.{key_limits, wants_password};
ghost use Rattle.minisign.specs.Records.{SecretKeyRecord};
ghost use Rattle.minisign.specs.KeyTexts.{read_secret_key, secret_key_of_bytes};
ghost use Rattle.minisign.specs.Texts.{and_then, map_ok};
ghost use Rattle.minisign_external.specs.PublicKeys.{read_utf8};
ghost use Rattle.minisign_external.specs.declared.state.Misuse.TheVariants.{KeyNotRead, NoRoom};
ghost use Rattle.minisign_external.specs.declared.state.Refusal.TheVariants.{Refused};
ghost use Rattle.minisign_external.specs.SecretKeys.{DerivesWithin, IsOpeningRefusal, IsTextOpeningRefusal};
ghost use Rattle.minisign_external.specs.SecretKeys.{OpensLikeFile, is_enough, is_read, lacks_checksum};
ghost use Rattle.minisign_external.specs.SecretKeys.{computes_at_most};
ghost use Rattle.minisign_external.specs.SecretKeys.{open_record, open_unsealed, open_within};
ghost use Rattle.minisign_external.specs.SecretKeys.{opened_in_place, opened_or_unchanged, opened_sealed};
ghost use Rattle.minisign_external.specs.SecretKeys.{opened_text, opened_unsealed, read_value};
ghost use Rattle.minisign_external.specs.SecretKeys.{opened_key_value};
ghost use Rattle.minisign_external.specs.SecretKeys.{sealed_within, checked_sealed_key};
ghost use Rattle.minisign_external.specs.SecretKeys.{unopened_record, value_memory, with_refusal};
ghost use Rattle.minisign_external.specs.ValueRecords.{unopened_outcome, unopened_in};

use crate::secrets::SecretKeyValue;
use crate::state::{Misuse, Refusal};
use crate::value_records::array_of;
use minisign::{PError, Result, SecretKey, clear_memory, read_secret_key};
use minisign_base::NamedFault;
use minisign_base::helpers::{load_u64_le, raw_scrypt_params};
use std::alloc::Global;

// The mark of a key that was read and is not opened yet: the letters `minisrec`.
const READ: u64 = 7162256622418291053;

// The highest memory limit of a sealed (encrypted) key that is accepted, in bytes.
const MAX_MEMORY: u64 = 1_073_741_824;

// The base-2 logarithm of the highest number of rows of scrypt that is accepted.
const MAX_ROWS_LOG2: u8 = 20;

// The key derivation of a sealed (encrypted) key: scrypt.
const SCRYPT: [u8; 2] = [83, 99];

// No key derivation: the secret key is not encrypted.
const UNSEALED: [u8; 2] = [0, 0];

// Minisign writes this as the checksum of a key that it does not encrypt.
const NO_CHECKSUM: [u8; 32] = [0; 32];

/// A secret key as its file contains it, 176 bytes with the layout of C. Only its mark and its bytes are used
/// to open it; the other fields inform the caller.
#[repr(C)]
#[derive(Clone, Copy)]
pub struct UnopenedKeyValue {
    /// The mark of a key that was read.
    pub mark: u64,
    /// The 158 bytes of its record. If the key is not encrypted, they contain the secret in the clear.
    pub bytes: [u8; 158],
    /// 1 if the key needs a password, otherwise 0.
    pub is_sealed: u8,
    /// The base-2 logarithm of the number of 1 KiB rows that opening needs, at most 20; 0 if the key is not
    /// encrypted or its limits are rejected.
    pub log2_rows: u8,
    /// The number of times that scrypt computes all rows, or 0 if the key is not encrypted or its limits are
    /// rejected.
    pub work: u32,
    /// Reserved.
    pub reserved: u32,
}

/// A secret key file, and how to open it.
#[derive(Clone, Copy)]
pub struct KeyText<'a> {
    /// The file, with both lines.
    pub text: &'a [u8],
    /// The password, or nothing for a key that is not encrypted.
    pub password: Option<&'a [u8]>,
    /// k, if only every k-th row of scrypt is kept in memory; 0 and 1 keep them all.
    pub keep_every: u64,
    /// The greatest number of rows that scrypt may compute in total.
    pub most_rows: u64,
}

impl<'a> KeyText<'a> {
    /// Reads the key file and opens the key: like `read_unopened_key`, followed by `open_sealed_key` or,
    /// without a password, by `open_unsealed_key`.
    pub fn open(&self, alloc: Global) -> std::result::Result<SecretKeyValue, Refusal>
        // On success, the result is the key of the file, decrypted if it was encrypted, and marked as open.
        // The error is that of the first check that fails, or out of memory, which is possible only once a
        // key is derived from the password.
        ensures { MatchResult result (λ v. (k : SecretKeyRecord) × (opened_text self.now.text.now
            (option_copied self.now.password) self.now.most_rows ≡ Ok k)
            × (v ≡ opened_key_value k.keynum k.secret))
            (IsTextOpeningRefusal self.now.text.now (option_copied self.now.password) self.now.most_rows) }
    {
        let mut unopened = UnopenedKeyValue::of_bytes([0; 158]);
        match read_unopened_key(self.text, &mut unopened) {
            Ok(()) => self.open_parsed(alloc, &unopened),
            Err(fault) => Err(Refusal::Refused(fault)),
        }
    }

    // Opens the key that was read, with the password if there is one.
    fn open_parsed(
        &self,
        alloc: Global,
        key: &UnopenedKeyValue,
    ) -> std::result::Result<SecretKeyValue, Refusal>
        requires { is_read key.now ≡ true }
        ensures { MatchResult result (λ v. (k : SecretKeyRecord) × (open_record (unopened_record key.now)
            (option_copied self.now.password) self.now.most_rows ≡ Ok k)
            × (v ≡ opened_key_value k.keynum k.secret)) (IsOpeningRefusal (unopened_record key.now)
            (option_copied self.now.password) self.now.most_rows) }
    {
        match self.password {
            Some(password) => open_sealed(alloc, key, password, self.keep_every, self.most_rows),
            None => open_parsed_unsealed(key),
        }
    }
}

// Opens an encrypted key that was read.
fn open_sealed(
    alloc: Global,
    unopened: &UnopenedKeyValue,
    password: &[u8],
    keep_every: u64,
    most_rows: u64,
) -> std::result::Result<SecretKeyValue, Refusal>
    requires { is_read unopened.now ≡ true }
    ensures { MatchResult result (λ v. (k : SecretKeyRecord) × (open_record (unopened_record unopened.now)
        (Some password.now) most_rows ≡ Ok k) × (v ≡ opened_key_value k.keynum k.secret))
        (IsOpeningRefusal (unopened_record unopened.now) (Some password.now) most_rows) }
{
    let mut key = SecretKeyValue::take(&[0; 8], &[0; 64]);
    match open_sealed_key(alloc, unopened, password, keep_every, most_rows, &mut key) {
        Ok(()) => Ok(key),
        Err(refusal) => Err(refusal),
    }
}

// Opens a key that was read and is not encrypted.
fn open_parsed_unsealed(unopened: &UnopenedKeyValue) -> std::result::Result<SecretKeyValue, Refusal>
    requires { is_read unopened.now ≡ true }
    ensures { MatchResult result (λ v. (k : SecretKeyRecord) × (open_record
        (unopened_record unopened.now) None 0 ≡ Ok k) × (v ≡ opened_key_value k.keynum k.secret))
        (IsOpeningRefusal (unopened_record unopened.now) None 0) }
{
    let mut key = SecretKeyValue::take(&[0; 8], &[0; 64]);
    match open_unsealed_key(unopened, &mut key) {
        Ok(()) => Ok(key),
        Err(refusal) => Err(refusal),
    }
}

impl UnopenedKeyValue {
    // Returns the struct for a key record.
    fn of_bytes(bytes: [u8; 158]) -> UnopenedKeyValue
        ensures { result ≡ read_value bytes }
    {
        let (is_sealed, log2_rows, work) = summary_of_record(&bytes);
        UnopenedKeyValue {
            mark: READ,
            bytes,
            is_sealed,
            log2_rows,
            work,
            reserved: 0,
        }
    }

    // Returns true if the key was read.
    pub(crate) fn is_read(&self) -> bool
        ensures { result ≡ is_read self.now }
    {
        self.mark == READ
    }
}

// Parses a key record of 158 bytes, which always succeeds.
pub(crate) fn key_of(bytes: &[u8; 158]) -> Result<SecretKey>
    ensures { result ≡ Ok (secret_key_of_bytes bytes.now) }
{
    SecretKey::from_bytes(bytes)
}

// Returns 1 if the key in these bytes needs a password, otherwise 0, and the work of opening it.
fn summary_of_record(bytes: &[u8; 158]) -> (u8, u8, u32)
    ensures sealed { result.0 ≡ (if wants_password (secret_key_of_bytes bytes.now) then 1 else 0) }
    ensures work { (result.1, result.2) ≡ opening_work (secret_key_of_bytes bytes.now) }
{
    match key_of(bytes) {
        Ok(key) => summary_of_key(&key),
        Err(_fault) => (0, 0, 0),
    }
}

// Returns 1 if the key needs a password, otherwise 0, and the work of opening it.
fn summary_of_key(key: &SecretKey) -> (u8, u8, u32)
    ensures sealed { result.0 ≡ (if wants_password key.now then 1 else 0) }
    ensures work { (result.1, result.2) ≡ opening_work key.now }
{
    let (log2_rows, work) = key.opening_work();
    if key.wants_password() {
        (1, log2_rows, work)
    } else {
        (0, log2_rows, work)
    }
}

/// Parses a secret key file. The key can then be opened.
///
/// The errors are, in this order: `NotUtf8`; those of `minisign::read_secret_key`. After an error `value` is
/// unchanged. Does not allocate.
pub fn read_unopened_key(sk_text: &[u8], value: &mut UnopenedKeyValue) -> Result<()>
    // The call succeeds exactly if the text is UTF-8 and a well-formed secret key file. Otherwise the error
    // is that of the first check that fails, and `value` is unchanged.
    ensures result { result ≡ without_value (read_utf8 read_secret_key sk_text.now) }
    ensures unchanged { OnErr result (value.new ≡ value.old) }

    // On success, `value` holds the key of the file and says how much work opening it takes. Opening `value`
    // gives the same result as opening the file, for every password and every bound on the work.
    ensures read { OnOk result (read_utf8 read_secret_key sk_text.now ≡ Ok (unopened_record value.new)) }
    ensures success { OnOk result (value.new ≡ read_value value.new.bytes) }
    ensures opens { OnOk result (OpensLikeFile value.new sk_text.now) }
{
    match read(sk_text) {
        Ok(bytes) => {
            *value = UnopenedKeyValue::of_bytes(bytes);
            Ok(())
        }
        Err(fault) => Err(fault),
    }
}

/// Reads a secret key from its record, the first 158 bytes. Later bytes are ignored. The key can then be
/// opened.
///
/// The only error is `RecordTooShort`, for fewer bytes. After an error `value` is unchanged. Does not
/// allocate.
pub fn read_unopened_record(record_bytes: &[u8], value: &mut UnopenedKeyValue) -> Result<()>
    // On success, `value` holds the first 158 bytes and says how much work opening the key takes. If there
    // are fewer bytes, the error is `RecordTooShort`, and `value` is unchanged.
    ensures { (result, value.new) ≡ unopened_outcome (unopened_in record_bytes.now) value.old }
{
    if record_bytes.len() < 158 {
        return Err(NamedFault::RecordTooShort.into());
    }
    let (bytes, _) = record_bytes.split_at(158);
    *value = UnopenedKeyValue::of_bytes(array_of(bytes));
    Ok(())
}

/// Makes all checks of an encrypted key that need no password, so that nobody is asked for the password of
/// a key that cannot be decrypted.
///
/// The errors are, in this order: `KeyNotRead`; `KeyNotEncrypted`; `UnsupportedEncryptionAlgorithm`, if the
/// key derivation is not scrypt; `ParametersTooHigh` or `InvalidParameters`, for the limits; `WorkTooHigh`,
/// if more than `most_rows` rows are needed. Does not allocate.
pub fn test_sealed_key(
    unopened: &UnopenedKeyValue,
    most_rows: u64,
) -> std::result::Result<(), Refusal>
    // The call succeeds exactly if the key was read and is encrypted with scrypt, with limits that are
    // allowed and need at most `most_rows` rows. Otherwise the error is that of the first check that
    // fails.
    ensures { result ≡ checked_sealed_key unopened.now most_rows }
{
    if !unopened.is_read() {
        return Err(Refusal::WrongUse(Misuse::KeyNotRead));
    }
    match check_within(unopened, most_rows) {
        Ok(()) => Ok(()),
        Err(fault) => Err(Refusal::Refused(fault)),
    }
}

// Checks that the key is encrypted with scrypt, and that its limits are allowed and need at most
// `most_rows` rows.
fn check_within(unopened: &UnopenedKeyValue, most_rows: u64) -> Result<()>
    ensures { result ≡ without_value (sealed_within (unopened_record unopened.now) most_rows) }
{
    let key = key_of(&unopened.bytes)?;
    if !key.wants_password() {
        return Err(NamedFault::KeyNotEncrypted.into());
    }
    if *key.key_derivation() != SCRYPT {
        return Err(NamedFault::UnsupportedEncryptionAlgorithm.into());
    }
    check_limits(&unopened.bytes)?;
    if !computes_at_most(&key, most_rows) {
        return Err(NamedFault::WorkTooHigh.into());
    }
    Ok(())
}

// Checks that the limits of the key in these bytes are allowed.
#[tactic(auto, unfolding(minisign::specs::Sealing::key_limits, minisign::specs::KeyTexts::secret_key_of_bytes))]
fn check_limits(bytes: &[u8; 158]) -> Result<()>
    ensures { result ≡ without_value (key_limits (secret_key_of_bytes bytes.now)) }
{
    check_sealing_limits(number_at(bytes, 46), number_at(bytes, 38))
}

// Returns the number in the 8 bytes from `at` on, little endian.
fn number_at(bytes: &[u8; 158], at: usize) -> u64
    requires { at ≤ 150 }
    ensures { result ≡ from_le_bytes w64 (take 8 (drop at bytes.now)) }
{
    let (_, rest) = bytes.split_at(at);
    let (number, _) = rest.split_at(8);
    load_u64_le(&array_of::<8>(number))
}

// Checks that the limits are not too high, and that they give valid parameters of scrypt.
fn check_sealing_limits(memory_limit: u64, operations_limit: u64) -> Result<()>
    ensures { result ≡ without_value (sealing_limits memory_limit operations_limit) }
{
    if memory_limit > MAX_MEMORY {
        return Err(NamedFault::ParametersTooHigh.into());
    }
    match raw_scrypt_params(memory_limit, operations_limit, MAX_ROWS_LOG2) {
        Ok(_) => Ok(()),
        Err(fault) => Err(fault),
    }
}

// Returns the record in a secret key file, which must be UTF-8.
fn read(sk_text: &[u8]) -> Result<[u8; 158]>
    ensures { read_utf8 read_secret_key sk_text.now ≡ map_ok secret_key_of_bytes result }
{
    match str::from_utf8(sk_text) {
        Ok(text) => read_secret_key(text),
        Err(_) => Err(NamedFault::NotUtf8.into()),
    }
}

/// Opens a secret key that was read and that is not encrypted.
///
/// The errors are, in this order: `KeyNotRead`; `KeyMightBeEncrypted`, if the key is encrypted;
/// `CorruptedKey`, if the checksum neither matches nor consists of 32 zeros, which Minisign writes in an
/// unencrypted key. Does not allocate.
pub fn open_unsealed_key(
    unopened: &UnopenedKeyValue,
    value: &mut SecretKeyValue,
) -> std::result::Result<(), Refusal>
    // The call succeeds exactly if the key was read, is not encrypted, and has a checksum that matches or is
    // 32 zeros. On success, `value` holds the key and is marked as open. Otherwise the error is that of the
    // first check that fails, and `value` is unchanged.
    ensures { (result, value.new) ≡ opened_or_unchanged (opened_unsealed unopened.now) value.old }
{
    if unopened.is_read() {
        store_opened(open_unsealed(unopened), value)
    } else {
        Err(Refusal::WrongUse(Misuse::KeyNotRead))
    }
}

/// Opens (decrypts) a sealed secret key that was read, with its password.
///
/// The limits of the key determine the memory and time of scrypt. `keep_every` is k if only every k-th row of
/// scrypt is kept in memory; a row has 1 KiB, there are at most 2^20 rows, and 0 and 1 keep them all.
/// `most_rows` bounds the number of rows that are computed in total: N for each of scrypt's p parts, that is
/// N * p. For a key that Minisign made, this is at most 2^20.
///
/// The errors are, in this order: `KeyNotRead`; `NotUtf8`, for the password; `KeyNotEncrypted`;
/// `UnsupportedEncryptionAlgorithm`, if the key derivation is not scrypt; `ParametersTooHigh` or
/// `InvalidParameters`, for the limits; `WorkTooHigh`, if more rows are needed; `WrongPassword`. Out of
/// memory is possible only if all checks before the password succeed.
#[tactic(auto, using(crate::proofs::WithinRows::sealed_or_none))]
pub fn open_sealed_key(
    alloc: Global,
    unopened: &UnopenedKeyValue,
    password: &[u8],
    keep_every: u64,
    most_rows: u64,
    value: &mut SecretKeyValue,
) -> std::result::Result<(), Refusal>
    // On success, the key was read, the password decrypts it with at most `most_rows` rows, and `value`
    // holds the decrypted key and is marked as open. Otherwise the error is that of the first check that
    // fails or, once a key is derived from the password, possibly out of memory; and `value` is unchanged.
    // Apart from out of memory, the result does not depend on `keep_every`.
    ensures { ((result, value.new) ≡ opened_or_unchanged (opened_sealed unopened.now password.now most_rows)
        value.old) ⊎ (((result, value.new) ≡ opened_or_unchanged (Err (Refused (Named OutOfMemory)))
        value.old)
        × DerivesWithin unopened.now password.now most_rows) }
{
    if unopened.is_read() {
        let opened = derive(alloc, unopened, password, keep_every, most_rows);
        store_opened(opened, value)
    } else {
        Err(Refusal::WrongUse(Misuse::KeyNotRead))
    }
}

/// Returns how much memory `open_sealed_key_in_place` needs with the same `keep_every` and `most_rows`: the
/// number of 32-bit words, and the number of bytes. Both are 0 if the key needs no password, its limits are
/// rejected, or it needs more than `most_rows` rows. Does not check that a key was read, and does not
/// allocate.
pub fn memory_to_open(unopened: &UnopenedKeyValue, keep_every: u64, most_rows: u64) -> (u64, u64)
    // The result is the number of 32-bit words and the number of bytes that are needed to open this key in
    // place, if every `keep_every`-th row of scrypt is kept. Both are 0 if the key needs no password, its
    // limits are rejected, or it needs more than `most_rows` rows.
    ensures { result ≡ value_memory unopened.now keep_every most_rows }
{
    match key_of(&unopened.bytes) {
        Ok(key) => memory_within(&key, keep_every.max(1), most_rows),
        Err(_fault) => (0, 0),
    }
}

// Returns the memory for opening a key in place, or zeros if the key needs more rows than allowed.
fn memory_within(key: &SecretKey, k: u64, most_rows: u64) -> (u64, u64)
    requires { 1 ≤ k }
    ensures { result ≡ (if computes_at_most key.now most_rows then opening_memory key.now k else (0, 0)) }
{
    if computes_at_most(key, most_rows) {
        key.opening_memory(k)
    } else {
        (0, 0)
    }
}

// Returns true if opening a key needs at most `most_rows` rows.
#[tactic(auto, using(crate::proofs::WithinRows::within_times))]
fn computes_at_most(key: &SecretKey, most_rows: u64) -> bool
    ensures { result ≡ computes_at_most key.now most_rows }
{
    let times = key.times_within(most_rows);
    let (_, work) = key.opening_work();
    !(times < work)
}

// Returns the error for a key that needs more than `most_rows` rows. A key derivation other than scrypt is
// rejected before that.
#[tactic(auto, using(crate::proofs::WithinRows::too_many_of_scrypt, crate::proofs::WithinRows::too_many_of_other))]
fn too_many_rows_error(key: &SecretKey, most_rows: u64) -> PError
    requires { computes_at_most key.now most_rows ≡ false }
    ensures { (password : List ℕ) → open_within key.now password most_rows ≡ Err result }
{
    if *key.key_derivation() == SCRYPT {
        NamedFault::WorkTooHigh.into()
    } else {
        NamedFault::UnsupportedEncryptionAlgorithm.into()
    }
}

/// Opens (decrypts) a sealed secret key that was read, as `open_sealed_key` does, but in memory that the
/// caller passes in, and without allocating. `words` and `bytes` must have at least the lengths that
/// `memory_to_open` returns. Their contents are not read, and both are filled with zeros before the call
/// returns, even after an error.
///
/// The errors are those of `open_sealed_key` except out of memory, with `NoRoom` for too little memory after
/// `KeyNotRead`.
pub fn open_sealed_key_in_place(
    unopened: &UnopenedKeyValue,
    password: &[u8],
    keep_every: u64,
    most_rows: u64,
    words: &mut [u32],
    bytes: &mut [u8],
    value: &mut SecretKeyValue,
) -> std::result::Result<(), Refusal>
    // The call succeeds exactly if the key was read, the memory is sufficient, and the password decrypts the
    // key with at most `most_rows` rows. Then `value` holds the decrypted key and is marked as open.
    // Otherwise the error is that of the first check that fails, never out of memory, and `value` is
    // unchanged. The previous contents of the memory make no difference.
    ensures opened { (result, value.new) ≡ opened_or_unchanged (opened_in_place unopened.now password.now
        keep_every most_rows (length words.old) (length bytes.old)) value.old }

    // The memory is filled with zeros when the call returns, even after an error.
    ensures words_cleared { words.new ≡ replicate (length words.old) 0 }
    ensures bytes_cleared { bytes.new ≡ replicate (length bytes.old) 0 }
{
    if let Err(misuse) = check_buffers(unopened, keep_every, most_rows, words, bytes) {
        clear_memory(words, bytes);
        return Err(Refusal::WrongUse(misuse));
    }
    let opened = derive_in_place(unopened, password, keep_every, most_rows, words, bytes);
    store_opened(opened, value)
}

// Checks that the key was read and that the memory is sufficient to open it in place.
fn check_buffers(
    unopened: &UnopenedKeyValue,
    keep_every: u64,
    most_rows: u64,
    words: &[u32],
    bytes: &[u8],
) -> std::result::Result<(), Misuse>
    ensures passed { OnOk result
        ((is_read unopened.now ≡ true)
        × (is_enough unopened.now keep_every most_rows (length words.now) (length bytes.now) ≡ true)) }
    ensures refused { IfErr result (λ m. ((m ≡ KeyNotRead) × (is_read unopened.now ≡ false))
        ⊎ ((m ≡ NoRoom) × (is_read unopened.now ≡ true)
        × (is_enough unopened.now keep_every most_rows (length words.now) (length bytes.now) ≡ false))) }
{
    let is_read = unopened.is_read();
    if !is_read {
        return Err(Misuse::KeyNotRead);
    }
    let (words_needed, bytes_needed) = memory_to_open(unopened, keep_every, most_rows);
    if words_needed <= words.len() as u64 && bytes_needed <= bytes.len() as u64 {
        Ok(())
    } else {
        Err(Misuse::NoRoom)
    }
}

// Stores the opened key in `value`.
fn store_opened(
    opened: Result<SecretKey>,
    value: &mut SecretKeyValue,
) -> std::result::Result<(), Refusal>
    ensures { (result, value.new) ≡ opened_or_unchanged (with_refusal opened) value.old }
{
    match opened {
        Ok(key) => {
            *value = SecretKeyValue::take(key.key_id(), key.secret());
            Ok(())
        }
        Err(fault) => Err(Refusal::Refused(fault)),
    }
}

// Opens the key with a password, which must be UTF-8.
fn derive(
    alloc: Global,
    unopened: &UnopenedKeyValue,
    password: &[u8],
    keep_every: u64,
    most_rows: u64,
) -> Result<SecretKey>
    ensures { (result ≡ read_utf8 (λ p. open_within (unopened_record unopened.now) p most_rows) password.now)
        ⊎ ((result ≡ Err (Named OutOfMemory)) × IsUtf8 password.now
        × IsOk (and_then (sealed_by_scrypt (unopened_record unopened.now)) (λ s. allowed_rows s most_rows))) }
{
    let Ok(text) = str::from_utf8(password) else {
        let fault: PError = NamedFault::NotUtf8.into();
        return Err(fault);
    };
    let key = key_of(&unopened.bytes)?;
    let times = key.times_within(most_rows);
    key.open_keeping_within(alloc, text.as_bytes(), keep_every.max(1), times)
}

// Opens the key with a password, in memory of sufficient size that is passed in.
fn derive_in_place(
    unopened: &UnopenedKeyValue,
    password: &[u8],
    keep_every: u64,
    most_rows: u64,
    words: &mut [u32],
    bytes: &mut [u8],
) -> Result<SecretKey>
    requires { is_enough unopened.now keep_every most_rows (length words.old) (length bytes.old) ≡ true }
    ensures opened { result ≡ read_utf8 (λ p. open_within (unopened_record unopened.now) p most_rows)
        password.now }
    ensures words_cleared { words.new ≡ replicate (length words.old) 0 }
    ensures bytes_cleared { bytes.new ≡ replicate (length bytes.old) 0 }
{
    let Ok(typed) = str::from_utf8(password) else {
        clear_memory(words, bytes);
        let refused: PError = NamedFault::NotUtf8.into();
        return Err(refused);
    };
    let key = key_of(&unopened.bytes)?;
    if !computes_at_most(&key, most_rows) {
        clear_memory(words, bytes);
        return Err(too_many_rows_error(&key, most_rows));
    }
    let times = key.times_within(most_rows);
    key.open_in_place(typed.as_bytes(), keep_every.max(1), times, words, bytes)
}

// Returns the key if it is not encrypted and its checksum matches, or is the 32 zeros that Minisign writes
// there.
fn open_unsealed(unopened: &UnopenedKeyValue) -> Result<SecretKey>
    ensures { result ≡ open_unsealed (unopened_record unopened.now) }
{
    let key = key_of(&unopened.bytes)?;
    if lacks_checksum(&key) {
        return Ok(key);
    }
    match key.test_unencrypted() {
        Ok(()) => Ok(key),
        Err(reason) => Err(reason),
    }
}

// Returns true if the key names no key derivation and its checksum is all zeros.
fn lacks_checksum(key: &SecretKey) -> bool
    ensures { result ≡ lacks_checksum key.now }
{
    *key.key_derivation() == UNSEALED && *key.checksum() == NO_CHECKSUM
}
