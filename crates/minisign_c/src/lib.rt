//! The library for C: verifies and makes Minisign signatures with an Ed25519 that the caller supplies. The
//! headers `minisign.h`, `minisign_install.h` and `minisign_list.h` in `include/` declare these functions and
//! say what a caller has to do.

#![tactic(auto)]

ghost use Rattle.std.specs.Prelude.{◌≡◌, ◌≢◌, if◌then◌else◌, ◌==◌, ◌⊎◌, ◌<◌, ◌≤◌, ◌+◌, ◌++◌, ℕ, Bool, List};
ghost use Rattle.std.specs.Prelude.{[], Some, None, Ok, Err, true, length, option_copied};
ghost use Rattle.std.specs.Prelude.{replicate, take, drop, false, Option};
ghost use Rattle.minisign_base.specs.Fault.{Fault, Named};
ghost use Rattle.minisign_base.specs.declared.faults.NamedFault.TheVariants.{OutOfMemory};
ghost use Rattle.minisign_hash.specs.Blake2b.{blake2b_digest};
ghost use Rattle.minisign.specs.KeyTexts.{read_bare_public_key, read_public_key, read_secret_key};
ghost use Rattle.minisign.specs.SignatureText.{SignatureTextRecord};
ghost use Rattle.minisign.specs.Acceptance.{Verifier};
ghost use Rattle.minisign.specs.Signing.{comments_of};
ghost use Rattle.minisign_external.specs.Questions.{IsKeyText, comment_verdict_under, read_under};
ghost use Rattle.minisign_external.specs.Questions.{verdict_under};
ghost use Rattle.minisign_external.specs.Numbers.{WritesCut, misuse_number, IsAnswer, answer_yes};
ghost use Rattle.minisign_external.specs.Numbers.{IsKindOf, fault_number, refusal_number};
ghost use Rattle.minisign_external.specs.PublicKeys.{is_public_key, read_utf8, key_outcome_number};
ghost use Rattle.minisign_external.specs.Making.{HoldsPublicKey, HoldsSecretKey, IsKeyComment};
ghost use Rattle.minisign_external.specs.Making.{HoldsReadPublicKey, HoldsReadSecretKey, IsEncodingNumber};
ghost use Rattle.minisign_external.specs.Making.{IsMakingRefusal};
ghost use Rattle.minisign_external.specs.Making.{IsPublicKeyNumber};
ghost use Rattle.minisign_external.specs.SecretKeys.{DerivesWithin, OpensLikeFile, is_opened};
ghost use Rattle.minisign_external.specs.SecretKeys.{opened_in_place};
ghost use Rattle.minisign_external.specs.SecretKeys.{opened_sealed, opened_unsealed, passed_password};
ghost use Rattle.minisign_external.specs.SecretKeys.{public_value_of, read_value, reading_number};
ghost use Rattle.minisign_external.specs.SecretKeys.{unopened_record, opened_key_value, opened_outcome};
ghost use Rattle.minisign_external.specs.SecretKeys.{is_read, checked_sealed_key};
ghost use Rattle.minisign_external.specs.SecretKeys.{public_key_outcome, value_memory};
ghost use Rattle.minisign_external.specs.Signatures.{IsReadFrom, read_signature_value, signature_outcome};
ghost use Rattle.minisign_external.specs.Signatures.{comment_of, signature_of_value};
ghost use Rattle.minisign_external.specs.Signing.{AreReadByMinisign, HoldsSignatureFile, IsWritingNumber};
ghost use Rattle.minisign_external.specs.declared.public_keys.PublicKeyValue.{PublicKeyValue};
ghost use Rattle.minisign_external.specs.declared.state.Refusal.{Refusal};
ghost use Rattle.minisign_external.specs.declared.state.Refusal.TheVariants.{Refused};
ghost use Rattle.minisign_external.specs.declared.state.Misuse.{Misuse};
ghost use Rattle.minisign_external.specs.declared.state.Misuse.TheVariants.{BadAnswer};
ghost use Rattle.minisign_external.specs.declared.state.Misuse.TheVariants.{EntryNotRead, NotBegun};
ghost use Rattle.minisign_external.specs.declared.state.Misuse.TheVariants.{KeyNotRead, NoRoom};
ghost use Rattle.minisign_external.specs.declared.state.Misuse.TheVariants.{PublicKeyNotRead};
ghost use Rattle.minisign_external.specs.States.{AreQuestionsWithoutDigest, GivesNumber, WasAskedAbout};
ghost use Rattle.minisign_external.specs.States.{HasReturnedDigest, HoldsCommentMessage, state_after_asking};
ghost use Rattle.minisign_external.specs.States.{IsAnswered, IsBlank, IsFedState, IsMarkedFed};
ghost use Rattle.minisign_external.specs.States.{IsMarkedFinalized, KeepsQuestions};
ghost use Rattle.minisign_external.specs.States.{result_of_asking_with_text, comment_number, feeding_misuse};
ghost use Rattle.minisign_external.specs.States.{result_number, verdict_outcome_number, verdict_number};
ghost use Rattle.minisign_external.specs.Bare.{AnswersBare, WasAskedAboutBare, bare_verdict_under};
ghost use Rattle.minisign_external.specs.Bare.{judged_number};
ghost use Rattle.minisign_external.specs.Bare.{bare_asking_outcome_number, bare_verdict_outcome_number};
ghost use Rattle.minisign_external.specs.ValueRecords.{public_key_in, public_key_record, read_bare_value};
ghost use Rattle.minisign_external.specs.ValueRecords.{secret_key_record, signature_record};
ghost use Rattle.minisign_external.specs.ValueRecords.{record_outcome_number, unopened_outcome_number};
ghost use Rattle.minisign_external.specs.ValueRecords.{unopened_in};
ghost use Rattle.minisign_external.specs.ValueRecords.{written_public_key};
ghost use Rattle.minisign.specs.Records.{SignatureRecord};
ghost use Rattle.minisign_external.specs.StrictCalls.{asked_number, asked_strictly, strict_asking_number};
ghost use Rattle.minisign_external.specs.StrictCalls.{is_strict_text, is_strict_value};
ghost use Rattle.minisign_external.specs.States.{check_ask_arguments, questions_for_value};
ghost use Rattle.minisign_install.specs.Faults.{IsErrorText};
ghost use Rattle.minisign_c.specs.ListCalls.{IsCallKind, IsCallMeaning, all_entries_number};
ghost use Rattle.minisign_c.specs.ListCalls.{appending_number, finding_number, line_at_fault, list_result};
ghost use Rattle.minisign_c.specs.ListCalls.{AreListQuestions, IsAnsweredList, asking_list_number};
ghost use Rattle.minisign_c.specs.ListCalls.{list_verdict_number};
ghost use Rattle.minisign_c.specs.ListCalls.{list_outcome_number};
ghost use Rattle.minisign_lists.specs.Digests.{has_digest};
ghost use Rattle.minisign_lists.specs.declared.digests.ListedDigest.{ListedDigest};
ghost use Rattle.minisign_lists.specs.Faults.{is_list_error, list_number, list_row};
ghost use Rattle.minisign_lists.specs.Values.{IsFedValue, IsFinished, asked_list, compared, entry_digest};
ghost use Rattle.minisign_lists.specs.Values.{file_mark, found_entry, given_digest, list_verdict_under};
ghost use Rattle.minisign_lists.specs.Values.{long_numbered};
ghost use Rattle.minisign_lists.specs.Lines.{Entry};
ghost use Rattle.minisign_lists.specs.declared.lines.LongDigest.{LongDigest};
ghost use Rattle.minisign_lists.specs.declared.faults.ListFault.TheVariants.{DigestMismatch};
ghost use Rattle.minisign_c.specs.KeyTexts.{IsMakingNumber, is_weak, password_misuse, sealing_misuse};
ghost use Rattle.minisign_c.specs.StateCalls.{CommentIsAnswered};

pub mod installing;
pub mod list_sequences;
pub mod sequences;

use minisign::Sealing;
use minisign_external::making::{
    encode_public_key, encode_unopened_key, write_public_key, write_secret_key,
};
use minisign_external::numbers::{
    ANSWER_YES, Numbered, WEAK_ED25519, error_kind, is_answer, kind_number, write_cut,
};
use minisign_external::public_keys::{PublicKeyValue, store_bare_public_key, store_public_key};
use minisign_external::secrets::SecretKeyValue;
use minisign_external::signatures::SignatureValue;
use minisign_external::signed_texts::{write_comment_message, write_signed_text};
use minisign_external::state::{Misuse, Questions, Refusal, State};
use minisign_external::unopened_keys::{
    UnopenedKeyValue, memory_to_open, open_sealed_key, open_sealed_key_in_place, open_unsealed_key,
    read_unopened_key, read_unopened_record, test_sealed_key,
};
use minisign_external::value_records::{
    read_public_key_record, write_public_key_record, write_secret_key_record,
};
use minisign_install::faults::write_error_text;
use minisign_lists::values::{EntryValue, FileValue, ListValue, given_digest};
use minisign_lists::writing::append_entry;
use minisign_lists::{ListFault, LongDigest};
use std::alloc::Global;

// The lowest operations limit with which Minisign encrypts a key.
const LEAST_OPERATIONS_LIMIT: u64 = 524_288;

// The lowest memory limit with which Minisign encrypts a key, in bytes.
const LEAST_MEMORY_LIMIT: u64 = 16_777_216;

// Converts the result of a call to a number: 0 for success, otherwise the error number.
macro_rules! number_of {
    ($answer:expr) => {
        match $answer {
            Ok(()) => 0,
            Err(error) => error.number(),
        }
    };
}

/// Writes the text of an error number, truncated if the buffer is too short, and a 0. Returns the length of
/// the whole text.
#[unsafe(no_mangle)]
pub extern "C" fn minisign_error_text(error: u32, text: &mut [u8]) -> usize
    // The text is that of the API misuse, of the error of an installation or a list, or of the library's
    // error that has this number, without key IDs. For 0 it is "no error", and for a number without a meaning
    // "unknown error". It has fewer than 128 bytes. The buffer holds as much of it as fits before a
    // terminating 0 byte, and the bytes after the 0 are unchanged. The result is the length of the whole
    // text.
    ensures written { (meaning : List ℕ) × IsCallMeaning error meaning × (result ≡ length meaning)
        × WritesCut meaning text.old text.new }
    ensures below_128_bytes { result < 128 }
{
    match ListFault::of_number(error) {
        Some(fault) => write_list_error(&fault, text),
        None => write_error_text(error, text),
    }
}

// Writes the text of a list error.
fn write_list_error(fault: &ListFault, text: &mut [u8]) -> usize
    requires { is_list_error fault.now ≡ true }
    ensures written { (result ≡ length (list_row fault.now).summary)
        × WritesCut (list_row fault.now).summary text.old text.new }
    ensures below_128_bytes { result < 128 }
{
    match fault.row() {
        Ok((_, _, meaning)) => write_cut(meaning, text),
        Err(_) => 0,
    }
}

/// Returns the number of the kind of an error.
#[unsafe(no_mangle)]
pub extern "C" fn minisign_error_kind(error: u32) -> u32
    // The result is 1 for API misuse, the number of the kind for an error of the library or a list error, and
    // 0 for 0 and for a number without a meaning here.
    ensures { IsCallKind error result }
{
    match ListFault::of_number(error) {
        Some(fault) => kind_number(fault.kind()),
        None => error_kind(error),
    }
}

/// Initializes a state, which has been fed no data.
#[unsafe(no_mangle)]
pub extern "C" fn minisign_init(state: &mut State)
    // The state has been fed no data and nothing was asked, whatever it held before.
    ensures fed { IsFedState state.new [] }
    ensures blank { IsBlank state.new }
{
    *state = State::new();
}

/// Feeds the next bytes of the data.
#[unsafe(no_mangle)]
pub extern "C" fn minisign_update(state: &mut State, piece: &[u8]) -> u32
    // On success, the piece is appended to the data that the state was fed. What the state records about
    // being asked is unchanged. The call fails only if the digest was already returned, or if the state was
    // never initialized or was finished by a verdict. Then the result is the number of that error, and the
    // state is unchanged.
    ensures fed { (m : List ℕ) → IsFedState state.old m → (result ≡ 0)
        × IsFedState state.new (m ++ piece.now) }
    ensures questions_kept { KeepsQuestions state.old state.new }
    ensures was_begun { result ≡ 0 → IsMarkedFed state.old }
    ensures refused { 0 < result → (result ≡ misuse_number (feeding_misuse state.old))
        × (state.new ≡ state.old) }
{
    number_of!(state.update(piece))
}

/// Writes the digest of the data that the state was fed. The state then accepts no more data.
#[unsafe(no_mangle)]
pub extern "C" fn minisign_digest(state: &mut State, digest: &mut [u8; 64]) -> u32
    // On success, the digest is the Blake2b digest (64 bytes) of all data that the state was fed, and the
    // state accepts no more data. What the state records about being asked is unchanged. The call fails only
    // if the digest was already returned, or if the state was never initialized or was finished by a verdict.
    // Then the result is the number of that error, and the state and the digest are unchanged.
    ensures digest { (m : List ℕ) → IsFedState state.old m
        → (result ≡ 0) × (digest.new ≡ blake2b_digest 64 m) × HasReturnedDigest state.new m }
    ensures questions_kept { KeepsQuestions state.old state.new }
    ensures finalized { result ≡ 0 → IsMarkedFed state.old × IsMarkedFinalized state.new }
    ensures refused { 0 < result → (result ≡ misuse_number (feeding_misuse state.old))
        × (state.new ≡ state.old) × (digest.new ≡ digest.old) }
{
    number_of!(state.digest(digest))
}

/// Reads a public key file of two lines. Does not allocate.
#[unsafe(no_mangle)]
pub extern "C" fn minisign_read_public_key(pk_text: &[u8], key: &mut PublicKeyValue) -> u32
    // On success, `key` holds the key and the key ID of the public key file, and is marked as read. The file
    // must be UTF-8. Otherwise, or if it does not parse, the result is the error number of the first check
    // that fails, and `key` is unchanged.
    ensures { (result, key.new) ≡ key_outcome_number (read_utf8 read_public_key pk_text.now) key.old }
{
    number_of!(store_public_key(pk_text, key))
}

/// Reads the bare base64 of a public key, as updaters embed it. Does not allocate.
#[unsafe(no_mangle)]
pub extern "C" fn minisign_read_bare_public_key(base64: &[u8], key: &mut PublicKeyValue) -> u32
    // On success, `key` holds the key and the key ID of the base64 text, and is marked as read. The text
    // must be UTF-8. Otherwise, or if it does not parse, the result is the error number of the first check
    // that fails, and `key` is unchanged.
    ensures { (result, key.new) ≡ key_outcome_number (read_utf8 read_bare_public_key base64.now) key.old }
{
    number_of!(store_bare_public_key(base64, key))
}

/// Reads a public key from its record. Does not allocate.
#[unsafe(no_mangle)]
pub extern "C" fn minisign_read_public_key_record(bytes: &[u8], key: &mut PublicKeyValue) -> u32
    // On success, `key` holds the key and the key ID that the first 42 bytes of `bytes` contain, and is
    // marked as read. If there are fewer bytes, the result is the number of that error, and `key` is
    // unchanged.
    ensures { (result, key.new) ≡ key_outcome_number (public_key_in bytes.now) key.old }
{
    number_of!(read_public_key_record(bytes, key))
}

/// Writes the record of a public key. Does not allocate.
#[unsafe(no_mangle)]
pub extern "C" fn minisign_public_key_record(key: &PublicKeyValue, bytes: &mut [u8; 42]) -> u32
    // If the public key was read, the record is its 42 bytes, with the algorithm `Ed`. Otherwise the result
    // is the number of that error, and the record is unchanged.
    ensures { (result, bytes.new) ≡ record_outcome_number (public_key_record key.now) bytes.old }
{
    number_of!(write_public_key_record(key, bytes))
}

/// Reads a signature file. Does not allocate.
#[unsafe(no_mangle)]
pub extern "C" fn minisign_read_signature(sig_text: &[u8], signature: &mut SignatureValue) -> u32
    // On success, `signature` holds the key ID, the algorithm and both signatures of the text, and the
    // position at which the trusted comment is in the text. The text must be UTF-8. Otherwise, or if it does
    // not parse, the result is the error number of the first check that fails, and `signature` is unchanged.
    ensures number { (result, signature.new)
        ≡ signature_outcome (read_signature_value sig_text.now) signature.old }
    ensures read { result ≡ 0 → (t : SignatureTextRecord) × IsReadFrom signature.new sig_text.now t }
{
    match SignatureValue::read(sig_text) {
        Ok(read) => {
            *signature = read;
            0
        }
        Err(fault) => Refusal::Refused(fault).number(),
    }
}

/// Reads a bare signature from its record. Does not allocate.
#[unsafe(no_mangle)]
pub extern "C" fn minisign_read_signature_record(
    bytes: &[u8],
    signature: &mut SignatureValue,
) -> u32
    // On success, `signature` holds the key ID, the algorithm and the signature that the first 74 bytes of
    // `bytes` contain, and no comments. Otherwise the result is the error number of the first check that
    // fails, fewer bytes and then an algorithm other than `Ed` and `ED`, and `signature` is unchanged.
    ensures { (result, signature.new) ≡ signature_outcome (read_bare_value bytes.now) signature.old }
{
    match SignatureValue::read_record(bytes) {
        Ok(read) => {
            *signature = read;
            0
        }
        Err(fault) => fault.number(),
    }
}

/// Writes the record of a signature. Does not allocate.
#[unsafe(no_mangle)]
pub extern "C" fn minisign_signature_record(signature: &SignatureValue, bytes: &mut [u8; 74]) -> u32
    // If the signature was read, from a text or from a record, the record is its 74 bytes. Otherwise the
    // result is the number of that error, and the record is unchanged.
    ensures { (result, bytes.new) ≡ record_outcome_number (signature_record signature.now) bytes.old }
{
    number_of!(signature.write_record(bytes))
}

/// Writes the inputs of the two Ed25519 checks that decide whether the signature is valid for the data. Does
/// not allocate.
#[unsafe(no_mangle)]
pub extern "C" fn minisign_ask(
    state: &mut State,
    key: &PublicKeyValue,
    signature: &SignatureValue,
    sig_text: &[u8],
    allow_legacy: u32,
    questions: &mut Questions,
    message: &mut [u8],
) -> u32
    // Errors are checked in this order: `allow_legacy` is above 1; those of `State::ask`; the key or a
    // signature is weak. The comment signature is only tested if it has at least 64 bytes. If none of them
    // applies, the result is 0.
    ensures number { result ≡ strict_asking_number state.old key.now signature.now sig_text.now allow_legacy
        (length message.old) }

    // If the signature was read from this text, and `allow_legacy` is 0 or 1, the result is the same as if
    // the text were parsed here and checked under this key.
    ensures text { (t : SignatureTextRecord) → IsReadFrom signature.now sig_text.now t → allow_legacy < 2
        → result ≡ asked_number (asked_strictly (is_strict_text key.now t)
        (result_of_asking_with_text state.old key.now sig_text.now (allow_legacy == 1)
        (length message.old))) }

    // **On success, if the signature was read from this text, `questions` holds the inputs of the two checks
    // for the key and the text, with zeros in place of the digest, and the message of the second check is at
    // the start of the buffer. The state records that it was asked. The data that it was fed is unchanged.**
    ensures asked { result ≡ 0 → (t : SignatureTextRecord) → IsReadFrom signature.now sig_text.now t
        → (read_under key.now (allow_legacy == 1) sig_text.now ≡ Ok t)
        × AreQuestionsWithoutDigest questions.new message.new
        key.now t × WasAskedAbout state.new key.now sig_text.now (allow_legacy == 1) }
    ensures fed { (m : List ℕ) → IsFedState state.old m → IsFedState state.new m }

    // On success, whatever the signature was read from: the state only records that it was asked about this
    // signature, the questions are those for the key and the signature, and the message is the data signature
    // followed by the trusted comment.
    ensures state { result ≡ 0 → state.new ≡ state_after_asking state.old signature.now }
    ensures questions { result ≡ 0 → questions.new ≡ questions_for_value key.now signature.now }
    ensures message { result ≡ 0 → HoldsCommentMessage signature.now sig_text.now message.new }

    // On success, if the signature was read from this text, neither the key nor a signature in the text is
    // weak. The comment signature is only tested if it has at least 64 bytes.
    ensures strict { result ≡ 0 → (t : SignatureTextRecord) → IsReadFrom signature.now sig_text.now t
        → is_strict_text key.now t ≡ true }

    // On success, the buffer after the message is unchanged. After an error, the state, the questions and the
    // buffer are unchanged.
    ensures rest_unchanged { result ≡ 0 → drop questions.new.message_len message.new
        ≡ drop questions.new.message_len message.old }
    ensures unchanged { 0 < result → (state.new ≡ state.old) × (questions.new ≡ questions.old)
        × (message.new ≡ message.old) }
{
    if allow_legacy > 1 {
        return Misuse::BadLegacyFlag.number();
    }
    match state.ask_strictly(
        key,
        signature,
        sig_text,
        allow_legacy == 1,
        questions,
        message,
    ) {
        Ok(true) => 0,
        Ok(false) => WEAK_ED25519,
        Err(refusal) => refusal.number(),
    }
}

/// Returns the verdict on the trusted comment, from the result of only the second check, `ANSWER_YES` or
/// `ANSWER_NO`.
#[unsafe(no_mangle)]
pub extern "C" fn minisign_comment_verdict(state: &State, second: u32) -> u32
    // After a successful `minisign_ask`, for every scheme for which `second` is the result of the second
    // check: the result is 0 exactly if the comment signature is valid under the key. It says nothing about
    // any data.
    ensures verdict { (v : PublicKeyValue) (sig_text : List ℕ) (legacy : Bool) (accepts : Verifier)
        → CommentIsAnswered state.now accepts v sig_text legacy second
        → result ≡ verdict_number (comment_verdict_under accepts v sig_text legacy) }

    // It is API misuse if `second` is neither 7955827 (yes) nor 28271 (no), if nothing was asked, or if the
    // state was never initialized or was finished by a verdict. Otherwise the result is 0 exactly if the
    // comment signature has at least 64 bytes and `second` is yes.
    ensures number { result ≡ comment_number state.now second }
{
    if !is_answer(second) {
        return Misuse::BadAnswer.number();
    }
    number_of!(state.comment_verdict(second == ANSWER_YES))
}

/// Returns the verdict from the results of the two Ed25519 checks, `ANSWER_YES` or `ANSWER_NO`, and finishes
/// the state.
#[unsafe(no_mangle)]
pub extern "C" fn minisign_verdict(state: &mut State, first: u32, second: u32) -> u32
    // **After a successful `minisign_ask` and `minisign_digest`, for every scheme and every message for which
    // `first` and `second` are the results of the two checks: the result is the number of the verdict on the
    // key, the signature file and the message. It is 0 exactly if the signature is valid.**
    ensures verdict { (v : PublicKeyValue) (sig_text message : List ℕ) (legacy : Bool) (accepts : Verifier)
        → IsAnswered state.old accepts v sig_text message legacy first second
        → result ≡ verdict_number (verdict_under accepts v sig_text message legacy) }

    // **So for every public key file that contains this key: the result is 0 exactly if the signature file
    // is a valid signature of the message under that public key. Otherwise it is the error number of the
    // first check that fails.**
    ensures same_verdict_as_texts { (v : PublicKeyValue) (pk_text sig_text message : List ℕ) (legacy : Bool)
        (accepts : Verifier) → IsAnswered state.old accepts v sig_text message legacy first second
        → IsKeyText pk_text v → GivesNumber accepts pk_text sig_text message legacy result }

    // It is API misuse if a result is neither 7955827 (yes) nor 28271 (no), if nothing was asked or if the
    // digest was not returned; then the state is unchanged. Otherwise the state is finished, and the result
    // is 0 exactly if `first` is yes, the comment signature has at least 64 bytes and `second` is yes.
    ensures number { (result, state.new) ≡ verdict_outcome_number state.old first second }
{
    if !is_answer(first) || !is_answer(second) {
        return Misuse::BadAnswer.number();
    }
    number_of!(state.verdict(first == ANSWER_YES, second == ANSWER_YES))
}

/// Writes the inputs of the Ed25519 check that decides whether a bare signature is valid. Does not allocate.
#[unsafe(no_mangle)]
pub extern "C" fn minisign_ask_bare(
    state: &mut State,
    key: &PublicKeyValue,
    signature: &SignatureValue,
    allow_legacy: u32,
    questions: &mut Questions,
) -> u32
    // If the result is 0, `questions` holds the inputs of the check for the key and the signature, with zeros
    // in place of the digest and in the fields about a comment, and the state records that it was asked about
    // a bare signature. Otherwise the state and the questions are unchanged, and the result is the number of
    // the first error that applies: `allow_legacy` is above 1; the state was asked before or its digest
    // returned, or it was never initialized; the public key was not read; the signature was not read; the key
    // IDs differ; the signature is a legacy one and these are not allowed; the key or the signature is weak.
    ensures value { (result, state.new, questions.new)
        ≡ bare_asking_outcome_number state.old key.now signature.now allow_legacy questions.old }

    // The data that the state was fed is unchanged. If the result is 0, the state was asked about this key
    // and this signature.
    ensures fed { (m : List ℕ) → IsFedState state.old m → IsFedState state.new m }
    ensures asked { result ≡ 0
        → WasAskedAboutBare state.new key.now (signature_of_value signature.now) (allow_legacy == 1) }
{
    if allow_legacy >= 2 {
        return Misuse::BadLegacyFlag.number();
    }
    match state.ask_bare(key, signature, allow_legacy == 1, questions) {
        Ok(is_strict) => { if is_strict { 0 } else { WEAK_ED25519 } }
        Err(refusal) => refusal.number(),
    }
}

/// Returns the verdict on a bare signature from the result of the check, `ANSWER_YES` or `ANSWER_NO`, and
/// finishes the state. Does not allocate.
#[unsafe(no_mangle)]
pub extern "C" fn minisign_bare_verdict(state: &mut State, first: u32) -> u32
    // **After a successful `minisign_ask_bare` and the digest, for every scheme and every message for which
    // `first` is the result of the check: the result is 0 exactly if the bare signature is valid for the
    // message under the key. Otherwise it is the error number of the first check that fails.**
    ensures verdict { (v : PublicKeyValue) (s : SignatureRecord) (message : List ℕ) (legacy : Bool)
        (accepts : Verifier) → WasAskedAboutBare state.old v s legacy → IsMarkedFinalized state.old
        → IsAnswer first
        → AnswersBare accepts v s message (first == answer_yes)
        → result ≡ judged_number (bare_verdict_under accepts v s message legacy) }

    // It is API misuse, and the state is unchanged, if `first` is neither 7955827 (yes) nor 28271 (no), if
    // the state was not asked about a bare signature, or if the digest was not returned. Otherwise the
    // state is finished, and the result is 0 exactly if `first` is yes.
    ensures value { (result, state.new) ≡ bare_verdict_outcome_number state.old first }
{
    if !is_answer(first) {
        return Misuse::BadAnswer.number();
    }
    number_of!(state.bare_verdict(first == ANSWER_YES))
}

/// Reads a secret key file, without opening (decrypting) the key. Does not allocate.
#[unsafe(no_mangle)]
pub extern "C" fn minisign_read_secret_key(sk_text: &[u8], unopened: &mut UnopenedKeyValue) -> u32
    // The result is 0 exactly if the text is UTF-8 and a well-formed secret key file. Otherwise it is the
    // error number of the first check that fails, and `unopened` is unchanged.
    ensures number { result ≡ reading_number (read_utf8 read_secret_key sk_text.now) }
    ensures unchanged { 0 < result → unopened.new ≡ unopened.old }

    // On success, `unopened` holds the key of the file and says how much work opening it takes: if it needs a
    // password, how many rows scrypt uses, and how many times it computes them. Opening it gives the same
    // result as opening the file, for every password and every bound on the work.
    ensures read { result ≡ 0 → read_utf8 read_secret_key sk_text.now ≡ Ok (unopened_record unopened.new) }
    ensures success { result ≡ 0 → unopened.new ≡ read_value unopened.new.bytes }
    ensures opens { result ≡ 0 → OpensLikeFile unopened.new sk_text.now }
{
    number_of!(read_unopened_key(sk_text, unopened))
}

/// Reads a secret key from its record. Does not allocate.
#[unsafe(no_mangle)]
pub extern "C" fn minisign_read_secret_key_record(
    bytes: &[u8],
    unopened: &mut UnopenedKeyValue,
) -> u32
    // On success, `unopened` holds the first 158 bytes and says how much work opening the key takes. If
    // there are fewer bytes, the result is the number of that error, and `unopened` is unchanged.
    ensures { (result, unopened.new) ≡ unopened_outcome_number (unopened_in bytes.now) unopened.old }
{
    number_of!(read_unopened_record(bytes, unopened))
}

/// Writes the secret key file of a key that was read, without encrypting or decrypting it.
#[unsafe(no_mangle)]
pub extern "C" fn minisign_encode_unopened_key(
    alloc: Global,
    unopened: &UnopenedKeyValue,
    comment: &[u8],
    text: &mut [u8],
    text_len: &mut usize,
) -> u32
    // On success, the secret key file is at the start of the buffer, as `encode_unopened_key` promises: it
    // parses to the key as it was read, and Minisign reads the whole comment. The rest of the buffer is
    // unchanged.
    ensures read { result ≡ 0 → is_read unopened.now ≡ true }
    ensures text { result ≡ 0
        → HoldsReadSecretKey (unopened_record unopened.now) comment.now text.new text_len.new }
    ensures read_by_minisign { result ≡ 0 → IsKeyComment comment.now }
    ensures rest_unchanged { result ≡ 0 → drop text_len.new text.new ≡ drop text_len.new text.old }

    // The errors are, in this order: the key was not read; the comment is not UTF-8; it has a line feed;
    // Minisign does not read all of it; the buffer is too short; out of memory. After an error the buffer
    // and the length are unchanged.
    ensures refused { 0 < result
        → IsEncodingNumber (is_read unopened.now) KeyNotRead 233 comment.now text.old result }
    ensures unchanged { 0 < result → (text.new ≡ text.old) × (text_len.new ≡ text_len.old) }
{
    match encode_unopened_key(alloc, unopened, comment, text) {
        Ok(encoded_len) => {
            *text_len = encoded_len;
            0
        }
        Err(refusal) => refusal.number(),
    }
}

/// Makes all checks of a sealed key that need no password. Does not allocate.
#[unsafe(no_mangle)]
pub extern "C" fn minisign_test_sealed_key(unopened: &UnopenedKeyValue, most_rows: u64) -> u32
    // The result is 0 exactly if the key was read and is encrypted with scrypt, with limits that are
    // allowed and need at most `most_rows` rows. Otherwise it is the error number of the first check that
    // fails.
    ensures { result ≡ result_number (checked_sealed_key unopened.now most_rows) }
{
    number_of!(test_sealed_key(unopened, most_rows))
}

/// Opens a secret key that was read and is not sealed (encrypted). Does not allocate.
#[unsafe(no_mangle)]
pub extern "C" fn minisign_open_unsealed_key(
    unopened: &UnopenedKeyValue,
    key: &mut SecretKeyValue,
) -> u32
    // The result is 0 exactly if the key was read, is not encrypted, and has a checksum that matches or is
    // 32 zeros. Then `key` holds it and is marked as open. Otherwise the result is the error number of the
    // first check that fails, and `key` is unchanged.
    ensures { (result, key.new) ≡ opened_outcome (opened_unsealed unopened.now) key.old }
{
    number_of!(open_unsealed_key(unopened, key))
}

/// Opens a sealed secret key that was read, with its password.
#[unsafe(no_mangle)]
pub extern "C" fn minisign_open_sealed_key(
    alloc: Global,
    unopened: &UnopenedKeyValue,
    password: &[u8],
    keep_every: u64,
    most_rows: u64,
    key: &mut SecretKeyValue,
) -> u32
    // If the result is 0, the key was read, the password decrypts it with at most `most_rows` rows, and
    // `key` holds the decrypted key and is marked as open. Otherwise the result is the error number of the
    // first check that fails or, once a key is derived from the password, possibly out of memory; and `key`
    // is unchanged. Apart from out of memory, the result does not depend on `keep_every`.
    ensures { ((result, key.new) ≡ opened_outcome (opened_sealed unopened.now password.now most_rows) key.old)
        ⊎ (((result, key.new) ≡ opened_outcome (Err (Refused (Named OutOfMemory))) key.old)
        × DerivesWithin unopened.now password.now most_rows) }
{
    number_of!(open_sealed_key(alloc, unopened, password, keep_every, most_rows, key))
}

/// Writes the sizes of the memory that opening a secret key in place needs.
#[unsafe(no_mangle)]
pub extern "C" fn minisign_opening_memory(
    unopened: &UnopenedKeyValue,
    keep_every: u64,
    most_rows: u64,
    words_wanted: &mut u64,
    bytes_wanted: &mut u64,
)
    // The two values are the number of 32-bit words and the number of bytes that are needed to open the key
    // in place, if every `keep_every`-th row of scrypt is kept. Both are 0 if the key needs no password, its
    // limits are rejected, or it needs more than `most_rows` rows.
    ensures { (words_wanted.new, bytes_wanted.new) ≡ value_memory unopened.now keep_every most_rows }
{
    let (words, bytes) = memory_to_open(unopened, keep_every, most_rows);
    *words_wanted = words;
    *bytes_wanted = bytes;
}

/// Opens a sealed secret key that was read, with its password, in memory that the caller passes. Does not
/// allocate.
#[unsafe(no_mangle)]
pub extern "C" fn minisign_open_sealed_key_in_place(
    unopened: &UnopenedKeyValue,
    password: &[u8],
    keep_every: u64,
    most_rows: u64,
    words: &mut [u32],
    bytes: &mut [u8],
    key: &mut SecretKeyValue,
) -> u32
    // The result and the key are those of `minisign_open_sealed_key`, except that the result is never out of
    // memory. If the memory is smaller than `minisign_opening_memory` says, the result is the error of a
    // buffer that is too short, and no key is derived. The previous contents of the memory make no
    // difference.
    ensures opened { (result, key.new) ≡ opened_outcome
        (opened_in_place unopened.now password.now keep_every most_rows (length words.old) (length bytes.old))
        key.old }

    // The memory is filled with zeros when the call returns, even after an error.
    ensures words_cleared { words.new ≡ replicate (length words.old) 0 }
    ensures bytes_cleared { bytes.new ≡ replicate (length bytes.old) 0 }
{
    number_of!(open_sealed_key_in_place(
        unopened, password, keep_every, most_rows, words, bytes, key
    ))
}

/// A secret key that was just made, 72 bytes with the layout of C.
#[repr(C)]
#[derive(Clone, Copy)]
pub struct NewKey {
    /// The key ID.
    pub key_id: [u8; 8],
    /// The seed (32 bytes), followed by its public key (32 bytes).
    pub secret: [u8; 64],
}

/// Makes an open secret key from the key ID and the secret bytes of a new key. Does not allocate.
#[unsafe(no_mangle)]
pub extern "C" fn minisign_take_secret_key(new_key: &NewKey, key: &mut SecretKeyValue)
    // `key` has this key ID and these secret bytes, and is marked as open. Nothing checks that the second
    // half of the secret bytes is the public key of the first.
    ensures { key.new ≡ opened_key_value new_key.now.key_id new_key.now.secret }
{
    *key = SecretKeyValue::take(&new_key.key_id, &new_key.secret);
}

/// Writes the unencrypted record of an open secret key. Does not allocate.
#[unsafe(no_mangle)]
pub extern "C" fn minisign_secret_key_record(key: &SecretKeyValue, bytes: &mut [u8; 158]) -> u32
    // If the key is open, the record is the 158 bytes of the unencrypted secret key with its key ID and its
    // 64 secret bytes. Otherwise the result is the number of that error, and the record is unchanged.
    ensures { (result, bytes.new) ≡ record_outcome_number (secret_key_record key.now) bytes.old }
{
    number_of!(write_secret_key_record(key, bytes))
}

/// Overwrites a value with zeros. Does not allocate.
#[unsafe(no_mangle)]
pub extern "C" fn minisign_clear(value: &mut [u8])
    // All bytes of the value are 0 when the call returns.
    ensures { value.new ≡ replicate (length value.old) 0 }
{
    value.fill(0);
}

/// Writes the public key of an open secret key. Does not allocate.
#[unsafe(no_mangle)]
pub extern "C" fn minisign_public_key_of(
    key: &SecretKeyValue,
    public_key: &mut PublicKeyValue,
) -> u32
    // If the secret key is open, the public key is the last 32 of its secret bytes, with its key ID.
    // Otherwise the result is the number of that error, and the public key is unchanged.
    ensures { (result, public_key.new) ≡ public_key_outcome (public_value_of key.now) public_key.old }
{
    match key.public_key() {
        Ok(value) => {
            *public_key = value;
            0
        }
        Err(misuse) => misuse.number(),
    }
}

// Returns the password, or `None` if `with_password` is 0.
fn given(with_password: u32, password: &[u8]) -> Option<&[u8]>
    ensures { option_copied result ≡ passed_password with_password password.now }
{
    if with_password == 0 {
        None
    } else {
        Some(password)
    }
}

// Returns the API misuse in the password arguments, if any: `with_password` is not 0, 1 or 2, or it is 1 and
// the password is empty.
fn password_misuse(with_password: u32, password: &[u8]) -> Option<Misuse>
    ensures { result ≡ password_misuse with_password password.now }
{
    if with_password > 2 {
        return Some(Misuse::BadPasswordFlag);
    }
    if with_password == 1 && password.is_empty() {
        return Some(Misuse::EmptyPassword);
    }
    None
}

// Returns the API misuse in the password arguments or, if there is none, in `sealing`, if any.
fn sealing_misuse(with_password: u32, password: &[u8], sealing: &Sealing) -> Option<Misuse>
    ensures { result ≡ sealing_misuse with_password password.now sealing.now }
{
    if let Some(misuse) = password_misuse(with_password, password) {
        return Some(misuse);
    }
    if with_password != 0 && is_weak(sealing) {
        return Some(Misuse::WeakSealing);
    }
    None
}

// Returns true if the salt is all zeros, or a limit is below the minimum of Minisign.
fn is_weak(sealing: &Sealing) -> bool
    ensures { result ≡ is_weak sealing.now }
{
    sealing.salt == [0; 32]
        || sealing.operations_limit < LEAST_OPERATIONS_LIMIT
        || sealing.memory_limit < LEAST_MEMORY_LIMIT
}

/// Writes a secret key file, in which the key is encrypted if there is a password. Limits below the minimum
/// of Minisign and a salt of zeros are rejected.
#[unsafe(no_mangle)]
pub extern "C" fn minisign_secret_key_text(
    alloc: Global,
    key: &SecretKeyValue,
    with_password: u32,
    password: &[u8],
    sealing: &Sealing,
    keep_every: u64,
    comment: &[u8],
    text: &mut [u8],
    text_len: &mut usize,
) -> u32
    // On success, the secret key file is at the start of the buffer, as `write_secret_key` promises: with the
    // same password, or without one if there was none, it opens to this key. The key was open, and the
    // password and the sealing are allowed.
    ensures text { result ≡ 0 → HoldsSecretKey key.now.key_id key.now.secret
        (passed_password with_password password.now) sealing.now comment.now text.new text_len.new }
    ensures number { result ≡ 0 → (sealing_misuse with_password password.now sealing.now ≡ None)
        × (is_opened key.now ≡ true) }

    // On success, Minisign reads the whole comment in the first line of the file.
    ensures read_by_minisign { result ≡ 0 → IsKeyComment comment.now }

    // The rest of the buffer is unchanged, so no byte of a secret is left there.
    ensures rest_unchanged { result ≡ 0 → drop text_len.new text.new ≡ drop text_len.new text.old }

    // The errors are, in this order: `with_password` is not 0, 1 or 2; it is 1 and the password is empty;
    // with a password, the salt is all zeros or a limit is below the minimum of Minisign; the key is not
    // open; the comment or the password is not UTF-8; the comment has a line feed; Minisign does not read all
    // of it; the buffer is too short; with a password, the limits are not allowed; out of memory. After an
    // error the buffer and the length are unchanged.
    ensures refused { 0 < result
        → IsMakingNumber (sealing_misuse with_password password.now sealing.now) key.now
        (passed_password with_password password.now) sealing.now comment.now text.old result }
    ensures unchanged { 0 < result → (text.new ≡ text.old) × (text_len.new ≡ text_len.old) }
{
    if let Some(misuse) = sealing_misuse(with_password, password, sealing) {
        return misuse.number();
    }
    let password = given(with_password, password);
    secret_key_text(
        alloc, key, password, sealing, keep_every, comment, text, text_len,
    )
}

/// Writes a secret key file as `minisign_secret_key_text` does, with any salt and any limits that encryption
/// allows.
#[unsafe(no_mangle)]
pub extern "C" fn minisign_secret_key_text_with_any_limits(
    alloc: Global,
    key: &SecretKeyValue,
    with_password: u32,
    password: &[u8],
    sealing: &Sealing,
    keep_every: u64,
    comment: &[u8],
    text: &mut [u8],
    text_len: &mut usize,
) -> u32
    // The promises are those of `minisign_secret_key_text`, except that the salt may be all zeros and the
    // limits may be below the minimum of Minisign.
    ensures text { result ≡ 0 → HoldsSecretKey key.now.key_id key.now.secret
        (passed_password with_password password.now) sealing.now comment.now text.new text_len.new }
    ensures number { result ≡ 0 → (password_misuse with_password password.now ≡ None)
        × (is_opened key.now ≡ true) }
    ensures read_by_minisign { result ≡ 0 → IsKeyComment comment.now }
    ensures rest_unchanged { result ≡ 0 → drop text_len.new text.new ≡ drop text_len.new text.old }
    ensures refused { 0 < result → IsMakingNumber (password_misuse with_password password.now) key.now
        (passed_password with_password password.now) sealing.now comment.now text.old result }
    ensures unchanged { 0 < result → (text.new ≡ text.old) × (text_len.new ≡ text_len.old) }
{
    if let Some(misuse) = password_misuse(with_password, password) {
        return misuse.number();
    }
    let password = given(with_password, password);
    secret_key_text(
        alloc, key, password, sealing, keep_every, comment, text, text_len,
    )
}

// Writes a secret key file, with any salt and any limits that encryption allows.
fn secret_key_text(
    alloc: Global,
    key: &SecretKeyValue,
    password: Option<&[u8]>,
    sealing: &Sealing,
    keep_every: u64,
    comment: &[u8],
    text: &mut [u8],
    text_len: &mut usize,
) -> u32
    ensures text { result ≡ 0 → HoldsSecretKey key.now.key_id key.now.secret
        (option_copied password.entry) sealing.now comment.now text.new text_len.new }
    ensures opened { result ≡ 0 → is_opened key.now ≡ true }
    ensures read_by_minisign { result ≡ 0 → IsKeyComment comment.now }
    ensures rest_unchanged { result ≡ 0 → drop text_len.new text.new ≡ drop text_len.new text.old }
    ensures refused { 0 < result → (r : Refusal Fault) × (result ≡ refusal_number fault_number r)
        × IsMakingRefusal key.now (option_copied password.entry) sealing.now comment.now text.old r }
    ensures unchanged { 0 < result → (text.new ≡ text.old) × (text_len.new ≡ text_len.old) }
{
    match write_secret_key(alloc, key, password, sealing, keep_every, comment, text) {
        Ok(secret_key_len) => {
            *text_len = secret_key_len;
            0
        }
        Err(refusal) => refusal.number(),
    }
}

/// Writes the public key file of an open secret key.
#[unsafe(no_mangle)]
pub extern "C" fn minisign_public_key_text(
    alloc: Global,
    key: &SecretKeyValue,
    comment: &[u8],
    text: &mut [u8],
    text_len: &mut usize,
) -> u32
    // On success, the public key file is at the start of the buffer, as `write_public_key` promises: it
    // parses to the public key of this secret key, and Minisign reads the whole comment. The rest of the
    // buffer is unchanged.
    ensures opened { result ≡ 0 → is_opened key.now ≡ true }
    ensures rest_unchanged { result ≡ 0 → drop text_len.new text.new ≡ drop text_len.new text.old }
    ensures text { result ≡ 0
        → HoldsPublicKey key.now.key_id key.now.secret comment.now text.new text_len.new }
    ensures read_by_minisign { result ≡ 0 → IsKeyComment comment.now }

    // The errors are those of `minisign_secret_key_text` that do not concern a password, in the same order.
    // After an error the buffer and the length are unchanged.
    ensures refused { 0 < result → IsPublicKeyNumber key.now comment.now text.old result }
    ensures unchanged { 0 < result → (text.new ≡ text.old) × (text_len.new ≡ text_len.old) }
{
    match write_public_key(alloc, key, comment, text) {
        Ok(public_key_len) => {
            *text_len = public_key_len;
            0
        }
        Err(refusal) => refusal.number(),
    }
}

/// Writes the public key file of a public key that was read, or obtained from a secret key.
#[unsafe(no_mangle)]
pub extern "C" fn minisign_encode_public_key(
    alloc: Global,
    key: &PublicKeyValue,
    comment: &[u8],
    text: &mut [u8],
    text_len: &mut usize,
) -> u32
    // On success, the public key file is at the start of the buffer, as `encode_public_key` promises: it
    // parses to this public key, with the algorithm `Ed`, and Minisign reads the whole comment. The rest of
    // the buffer is unchanged.
    ensures read { result ≡ 0 → is_public_key key.now ≡ true }
    ensures text { result ≡ 0
        → HoldsReadPublicKey (written_public_key key.now) comment.now text.new text_len.new }
    ensures read_by_minisign { result ≡ 0 → IsKeyComment comment.now }
    ensures rest_unchanged { result ≡ 0 → drop text_len.new text.new ≡ drop text_len.new text.old }

    // The errors are, in this order: the key was not read; the comment is not UTF-8; it has a line feed;
    // Minisign does not read all of it; the buffer is too short; out of memory. After an error the buffer
    // and the length are unchanged.
    ensures refused { 0 < result
        → IsEncodingNumber (is_public_key key.now) PublicKeyNotRead 77 comment.now text.old result }
    ensures unchanged { 0 < result → (text.new ≡ text.old) × (text_len.new ≡ text_len.old) }
{
    match encode_public_key(alloc, key, comment, text) {
        Ok(encoded_len) => {
            *text_len = encoded_len;
            0
        }
        Err(refusal) => refusal.number(),
    }
}

/// Writes the message of the comment signature: the data signature followed by the trusted comment.
#[unsafe(no_mangle)]
pub extern "C" fn minisign_comment_message(
    first: &[u8; 64],
    trusted: &[u8],
    message: &mut [u8],
) -> u32
    // On success, the data signature followed by the trusted comment is at the start of the buffer, and the
    // rest of the buffer is unchanged. The only error is a buffer that is too short; then it is unchanged.
    ensures message { result ≡ 0 → (64 + length trusted.now ≤ length message.new)
        × (take (64 + length trusted.now) message.new ≡ first.now ++ trusted.now) }
    ensures rest_unchanged { result ≡ 0
        → drop (64 + length trusted.now) message.new ≡ drop (64 + length trusted.now) message.old }
    ensures refused { 0 < result → (result ≡ misuse_number NoRoom)
        × (length message.old < 64 + length trusted.now) × (message.new ≡ message.old) }
{
    match write_comment_message(first, trusted, message) {
        Ok(_) => 0,
        Err(no_room) => no_room.number(),
    }
}

/// Writes the signature file of two signatures, with the key ID of a public key.
#[unsafe(no_mangle)]
pub extern "C" fn minisign_signed_text(
    alloc: Global,
    key: &PublicKeyValue,
    first: &[u8; 64],
    second: &[u8; 64],
    trusted: &[u8],
    untrusted: &[u8],
    text: &mut [u8],
    text_len: &mut usize,
) -> u32
    // **On success, the public key was read, and the signature file at the start of the buffer parses to a
    // signature with exactly its key ID, these comments and these signatures. If these are the signatures
    // that a scheme makes with a key for a message, the file parses to the same signature box as when the
    // library signs the message with this key and scheme. The file is a valid signature of a message under
    // every public key that has this key ID and under which both signatures are valid for the message. If the
    // key is genuine (its secret is a seed followed by the seed's public key), statement 3 of the section
    // "The headline" in docs/PROMISES.md holds for the file.**
    ensures text { result ≡ 0 → (is_public_key key.now ≡ true)
        × HoldsSignatureFile key.now.key_id
        (comments_of trusted.now untrusted.now) first.now second.now text.new
        text_len.new }
    ensures read_by_minisign { result ≡ 0 → AreReadByMinisign (comments_of trusted.now untrusted.now) }

    // The rest of the buffer is unchanged.
    ensures rest_unchanged { result ≡ 0 → drop text_len.new text.new ≡ drop text_len.new text.old }

    // The errors are, in this order: the public key was not read; a comment is not UTF-8; a comment would
    // change when it is read back; Minisign 0.11 would not read a comment back; the buffer is too short. Out
    // of memory is possible too. After an error the buffer and the length are unchanged.
    ensures refused { 0 < result → IsWritingNumber key.now (comments_of trusted.now untrusted.now)
        first.now second.now text.old result }
    ensures unchanged { 0 < result → (text.new ≡ text.old) × (text_len.new ≡ text_len.old) }
{
    match write_signed_text(alloc, key, first, second, trusted, untrusted, text) {
        Ok(len) => {
            *text_len = len;
            0
        }
        Err(refusal) => refusal.number(),
    }
}

// Converts the result of `ListValue::ask` to a number.
fn asked_number(answer: Result<bool, Refusal>) -> u32
    ensures { result ≡ asked_number answer }
{
    match answer {
        Ok(is_strict) if is_strict => 0,
        Ok(_) => WEAK_ED25519,
        Err(refusal) => refusal.number(),
    }
}

/// Writes the inputs of the two Ed25519 checks that decide whether the signature of a list is valid. Its
/// trusted comment must name the list. Does not allocate.
#[unsafe(no_mangle)]
pub extern "C" fn minisign_list_ask(
    list: &mut ListValue,
    key: &PublicKeyValue,
    signature: &SignatureValue,
    sig_text: &[u8],
    list_name: &[u8],
    text: &[u8],
    questions: &mut Questions,
    message: &mut [u8],
) -> u32
    // Errors are checked in this order: the public key was not read; the signature was not read; the text is
    // not the one that it was read from; the key IDs differ; the signature is a legacy one; the buffer is too
    // short; the key or a signature is weak. If none of them applies, the result is 0.
    ensures number { result ≡ asked_number (asked_strictly (is_strict_value key.now signature.now)
        (check_ask_arguments key.now signature.now sig_text.now false (length message.old))) }

    // If the signature was read from this text, the result is the same as if the text were parsed here and
    // checked under this key.
    ensures text { (t : SignatureTextRecord) → IsReadFrom signature.now sig_text.now t
        → result ≡ asking_list_number key.now sig_text.now t (length message.old) }

    // **On success, if the signature was read from this text, `questions` holds the inputs of the two checks
    // for the key and the text, with the digest of the list. `list` records this digest, whether the comment
    // signature has at least 64 bytes, and whether the trusted comment names the list.**
    ensures asked { result ≡ 0 → (t : SignatureTextRecord) → IsReadFrom signature.now sig_text.now t
        → (read_under key.now false sig_text.now ≡ Ok t)
        × AreListQuestions questions.new message.new key.now t text.now
        × (list.new ≡ asked_list key.now signature.now (Some list_name.now) text.now t.comments.trusted) }

    // On success, whatever the signature was read from: `list` records what it was asked about, the questions
    // are those for the key and the signature, with the digest of the list, and the message is the data
    // signature followed by the trusted comment.
    ensures list { result ≡ 0 → (c : List ℕ) → comment_of signature.now sig_text.now ≡ Ok c
        → list.new ≡ asked_list key.now signature.now (Some list_name.now) text.now c }
    ensures questions { result ≡ 0 → questions.new ≡ record (questions_for_value key.now signature.now)
        { digest = blake2b_digest 64 text.now } }
    ensures message { result ≡ 0 → HoldsCommentMessage signature.now sig_text.now message.new }

    // On success, if the signature was read from this text, neither the key nor a signature in the text is
    // weak. The comment signature is only tested if it has at least 64 bytes.
    ensures strict { result ≡ 0 → (t : SignatureTextRecord) → IsReadFrom signature.now sig_text.now t
        → is_strict_text key.now t ≡ true }

    // On success, the buffer after the message is unchanged. After an error, the list, the questions and the
    // buffer are unchanged.
    ensures rest_unchanged { result ≡ 0 → drop questions.new.message_len message.new
        ≡ drop questions.new.message_len message.old }
    ensures unchanged { 0 < result → (list.new ≡ list.old) × (questions.new ≡ questions.old)
        × (message.new ≡ message.old) }
{
    asked_number(list.ask(
        key,
        signature,
        sig_text,
        Some(list_name),
        text,
        questions,
        message,
    ))
}

/// Asks as `minisign_list_ask` does. The trusted comment need not name the list.
#[unsafe(no_mangle)]
pub extern "C" fn minisign_list_ask_any(
    list: &mut ListValue,
    key: &PublicKeyValue,
    signature: &SignatureValue,
    sig_text: &[u8],
    text: &[u8],
    questions: &mut Questions,
    message: &mut [u8],
) -> u32
    // The promises are those of `minisign_list_ask`, except that the name of the list is not checked: `list`
    // records for every trusted comment that it names the list.
    ensures number { result ≡ asked_number (asked_strictly (is_strict_value key.now signature.now)
        (check_ask_arguments key.now signature.now sig_text.now false (length message.old))) }
    ensures text { (t : SignatureTextRecord) → IsReadFrom signature.now sig_text.now t
        → result ≡ asking_list_number key.now sig_text.now t (length message.old) }
    ensures asked { result ≡ 0 → (t : SignatureTextRecord) → IsReadFrom signature.now sig_text.now t
        → (read_under key.now false sig_text.now ≡ Ok t)
        × AreListQuestions questions.new message.new key.now t text.now
        × (list.new ≡ asked_list key.now signature.now None text.now t.comments.trusted) }
    ensures list { result ≡ 0 → (c : List ℕ) → comment_of signature.now sig_text.now ≡ Ok c
        → list.new ≡ asked_list key.now signature.now None text.now c }
    ensures questions { result ≡ 0 → questions.new ≡ record (questions_for_value key.now signature.now)
        { digest = blake2b_digest 64 text.now } }
    ensures message { result ≡ 0 → HoldsCommentMessage signature.now sig_text.now message.new }
    ensures strict { result ≡ 0 → (t : SignatureTextRecord) → IsReadFrom signature.now sig_text.now t
        → is_strict_text key.now t ≡ true }
    ensures rest_unchanged { result ≡ 0 → drop questions.new.message_len message.new
        ≡ drop questions.new.message_len message.old }
    ensures unchanged { 0 < result → (list.new ≡ list.old) × (questions.new ≡ questions.old)
        × (message.new ≡ message.old) }
{
    asked_number(list.ask(key, signature, sig_text, None, text, questions, message))
}

/// Returns the verdict on a list from the results of the two Ed25519 checks.
#[unsafe(no_mangle)]
pub extern "C" fn minisign_list_verdict(list: &mut ListValue, first: u32, second: u32) -> u32
    // **After a successful `minisign_list_ask` or `minisign_list_ask_any`, for every scheme for which
    // `first` and `second` are the results of the two checks: the result is 0 exactly if the signature file
    // is a valid prehashed signature of the list under the key, and the trusted comment names the list if it
    // must. Otherwise it is the error number of the first check that fails.**
    ensures verdict { (v : PublicKeyValue) (sig_text text : List ℕ) (name : Option (List ℕ))
        (accepts : Verifier) → IsAnsweredList list.old accepts v sig_text name text first second
        → result ≡ list_verdict_number (list_verdict_under accepts v sig_text name text) }

    // It is API misuse if a result is neither 7955827 (yes) nor 28271 (no), or if nothing was asked; then the
    // list is unchanged. Otherwise the result is 0 and the list is verified exactly if `first` is yes, the
    // comment signature has at least 64 bytes and `second` is yes, and the trusted comment names the list if
    // it must. After an error the list is not verified.
    ensures number { (result, list.new) ≡ list_outcome_number list.old first second }
{
    if !is_answer(first) || !is_answer(second) {
        return Misuse::BadAnswer.number();
    }
    number_of!(list.verdict(first == ANSWER_YES, second == ANSWER_YES))
}

/// Finds the only entry of a name in a verified list.
#[unsafe(no_mangle)]
pub extern "C" fn minisign_list_find(
    list: &ListValue,
    text: &[u8],
    long_digest: u32,
    name: &[u8],
    entry: &mut EntryValue,
    line: &mut u64,
) -> u32
    // **The result is 0 exactly if the list was verified and this is its text, every line is well formed,
    // and exactly one entry has the name.** Then `entry` is that entry, and `line` is 0. Otherwise the
    // result is the error number of the first check that fails, `entry` is unchanged, and `line` is the
    // number of the line at fault, or 0 if no line is at fault.
    ensures number { (result, (entry.new, line.new))
        ≡ finding_number (long_numbered long_digest) list.now text.now name.now entry.old }

    // On success, the digest that later calls take from `entry` is the one in the list.
    ensures digest { result ≡ 0 → (long : LongDigest) (e : Entry) → long_numbered long_digest ≡ Some long
        → found_entry list.now text.now long name.now ≡ Ok e → entry_digest entry.new ≡ Ok e.digest }
{
    *line = 0;
    let Some(long) = LongDigest::of_number(long_digest) else {
        return Misuse::BadHash.number();
    };
    match list.find(text, long, name, entry) {
        Ok(()) => 0,
        Err(refusal) => {
            *line = line_of(&refusal);
            refusal.number()
        }
    }
}

/// Writes all entries of a verified list.
#[unsafe(no_mangle)]
pub extern "C" fn minisign_list_entries(
    list: &ListValue,
    text: &[u8],
    long_digest: u32,
    entries: &mut [EntryValue],
    count: &mut usize,
    line: &mut u64,
) -> u32
    // The result is 0 exactly if the list was verified and this is its text, every line is well formed, and
    // the buffer is long enough for all entries. Then the buffer begins with them, in the order of their
    // lines, its rest is unchanged, and `count` is their number. Otherwise the result is the error number
    // of the first check that fails, and the buffer and `count` are unchanged. `line` is the number of the
    // line at fault, or 0.
    ensures { (result, (entries.new, (count.new, line.new)))
        ≡ all_entries_number (long_numbered long_digest) list.now text.now entries.old count.old }
{
    *line = 0;
    let Some(long) = LongDigest::of_number(long_digest) else {
        return Misuse::BadHash.number();
    };
    match list.entries(text, long, entries) {
        Ok(found) => {
            *count = found;
            0
        }
        Err(refusal) => {
            *line = line_of(&refusal);
            refusal.number()
        }
    }
}

// Returns the number of the line at fault, or 0 if no line is at fault.
fn line_of(refusal: &Refusal<ListFault>) -> u64
    ensures { result ≡ line_at_fault refusal.now }
{
    match refusal {
        Refusal::WrongUse(_) => 0,
        Refusal::Refused(fault) => fault.line(),
    }
}

/// Begins a check of data against the digest of an entry.
#[unsafe(no_mangle)]
pub extern "C" fn minisign_list_begin(entry: &EntryValue, file: &mut FileValue) -> u32
    // If the entry was read, the result is 0, the state has the digest of the entry to compare with, and was
    // fed no data. Otherwise the result is the number of that error, and the state is unchanged.
    ensures begun { (d : ListedDigest) → entry_digest entry.now ≡ Ok d
        → (result ≡ 0) × IsFedValue file.new d [] }
    ensures was_read { result ≡ 0 → (d : ListedDigest) × (entry_digest entry.now ≡ Ok d) }
    ensures refused { 0 < result → (entry_digest entry.now ≡ Err EntryNotRead)
        × (result ≡ misuse_number EntryNotRead) × (file.new ≡ file.old) }
{
    match FileValue::begin(entry) {
        Ok(begun) => {
            *file = begun;
            0
        }
        Err(misuse) => misuse.number(),
    }
}

/// Feeds the next bytes of the data.
#[unsafe(no_mangle)]
pub extern "C" fn minisign_list_update(file: &mut FileValue, piece: &[u8]) -> u32
    // On success, the piece is appended to the data that the state was fed. The call fails only if no check
    // was begun. Then the result is the number of that error, and the state is unchanged.
    ensures fed { (d : ListedDigest) (m : List ℕ) → IsFedValue file.old d m
        → (result ≡ 0) × IsFedValue file.new d (m ++ piece.now) }
    ensures was_begun { result ≡ 0 → file.old.mark ≡ file_mark }
    ensures refused { 0 < result → (result ≡ misuse_number NotBegun) × (file.new ≡ file.old) }
{
    number_of!(file.update(piece))
}

/// Returns 0 if the data that was fed has the digest of the entry, otherwise an error number. Finishes the
/// state.
#[unsafe(no_mangle)]
pub extern "C" fn minisign_list_finish(file: &mut FileValue) -> u32
    // **The result is 0 exactly if all data that the state was fed has the digest of the entry. Otherwise it
    // is the number of the error for another digest.**
    ensures fed { (d : ListedDigest) (m : List ℕ) → IsFedValue file.old d m
        → result ≡ (if has_digest d m then 0 else list_number DigestMismatch) }

    // The state is finished, unless no check was begun: then the result is the number of that error, and the
    // state is unchanged.
    ensures finished { result ≢ misuse_number NotBegun → IsFinished file.old file.new }
    ensures refused { result ≡ misuse_number NotBegun → file.new ≡ file.old }
{
    number_of!(file.finish())
}

/// Compares the digest of an entry with one that the caller computed, without checking the caller's digest.
#[unsafe(no_mangle)]
pub extern "C" fn minisign_list_compare_trusting_your_hash(
    entry: &EntryValue,
    hash: u32,
    digest: &[u8],
) -> u32
    // The result is 0 exactly if the entry was read, this is its hash function, and these bytes are its
    // digest. Otherwise it is the error number of the first check that fails. Nothing is said about any
    // data.
    ensures { result ≡ list_result (compared entry.now hash digest.now) }
{
    number_of!(entry.compare_trusting_your_hash(hash, digest))
}

/// Appends an entry to a list.
#[unsafe(no_mangle)]
pub extern "C" fn minisign_list_append(
    hash: u32,
    digest: &[u8],
    name: &[u8],
    text: &mut [u8],
    text_len: &mut usize,
) -> u32
    // On success, the line of the entry is written after the list, the rest of the buffer is unchanged, and
    // `text_len` is the new length of the list. Otherwise the result is the error number of the first check
    // that fails, and the buffer and `text_len` are unchanged.
    ensures { (result, (text.new, text_len.new))
        ≡ appending_number (given_digest hash digest.now) text.old text_len.old name.now }
{
    let Some(digest) = given_digest(hash, digest) else {
        return Misuse::BadHash.number();
    };
    match append_entry(text, *text_len, digest, name) {
        Ok(longer) => {
            *text_len = longer;
            0
        }
        Err(refusal) => refusal.number(),
    }
}
