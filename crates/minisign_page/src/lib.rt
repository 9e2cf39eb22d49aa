//! The calls of the web page that verifies downloads, for WebAssembly. They are the calls of `minisign_c`
//! that verify, with the same contracts and error numbers, and calls that compute SHA-256 and SHA-512, with
//! which the page finds a file in a signed list by its digest. `bindings/javascript/calls.js` makes the calls
//! and says what a caller has to do. Nothing here allocates.

#![tactic(auto)]

ghost use Rattle.std.specs.Prelude.{◌≡◌, ◌⊎◌, ◌==◌, ◌<◌, ◌++◌, ℕ, Bool, List, [], Ok, Option, Some, None};
ghost use Rattle.std.specs.Prelude.{length, drop, true, false};
ghost use Rattle.sha2.specs.Sha256.{sha256};
ghost use Rattle.sha2.specs.Sha512.{sha512};
ghost use Rattle.minisign_hash.specs.Blake2b.{blake2b_digest};
ghost use Rattle.minisign.specs.KeyTexts.{read_bare_public_key, read_public_key};
ghost use Rattle.minisign.specs.SignatureText.{SignatureTextRecord};
ghost use Rattle.minisign.specs.Acceptance.{Verifier};
ghost use Rattle.minisign_external.specs.Questions.{IsKeyText, read_under, verdict_under};
ghost use Rattle.minisign_external.specs.Numbers.{WritesCut, fault_number, misuse_number};
ghost use Rattle.minisign_external.specs.Numbers.{refusal_number};
ghost use Rattle.minisign_external.specs.PublicKeys.{read_utf8, key_outcome_number};
ghost use Rattle.minisign_external.specs.Signatures.{IsReadFrom, read_signature_value, signature_outcome};
ghost use Rattle.minisign_external.specs.Signatures.{comment_of};
ghost use Rattle.minisign_external.specs.States.{HoldsCommentMessage, state_after_asking};
ghost use Rattle.minisign_external.specs.States.{questions_for_value, AreQuestionsWithoutDigest, GivesNumber};
ghost use Rattle.minisign_external.specs.States.{WasAskedAbout, HasReturnedDigest, IsAnswered, IsBlank};
ghost use Rattle.minisign_external.specs.States.{IsFedState, IsMarkedFed, IsMarkedFinalized, KeepsQuestions};
ghost use Rattle.minisign_external.specs.States.{check_ask_arguments, result_of_asking_with_text};
ghost use Rattle.minisign_external.specs.States.{feeding_misuse, verdict_outcome_number, verdict_number};
ghost use Rattle.minisign_external.specs.StrictCalls.{asked_number, asked_strictly, strict_asking_number};
ghost use Rattle.minisign_external.specs.StrictCalls.{is_strict_text, is_strict_value};
ghost use Rattle.minisign_external.specs.declared.public_keys.PublicKeyValue.{PublicKeyValue};
ghost use Rattle.minisign_page.specs.ListCalls.{all_entries_number, finding_number, line_at_fault};
ghost use Rattle.minisign_page.specs.ListCalls.{list_refusal};
ghost use Rattle.minisign_page.specs.ListCalls.{AreListQuestions, IsAnsweredList, IsListMeaning};
ghost use Rattle.minisign_page.specs.ListCalls.{asking_list_number, list_result};
ghost use Rattle.minisign_page.specs.ListCalls.{list_verdict_number, list_outcome_number};
ghost use Rattle.minisign_lists.specs.Faults.{is_list_error, list_row};
ghost use Rattle.minisign_lists.specs.Values.{asked_list, compared, list_verdict_under, long_numbered};
ghost use Rattle.minisign_lists.specs.Lines.{Entry};
ghost use Rattle.minisign_lists.specs.declared.lines.LongDigest.{LongDigest};
ghost use Rattle.minisign_lists.specs.Values.{found_entry};
ghost use Rattle.minisign_lists.specs.Values.{entry_digest};
ghost use Rattle.minisign_sha2.specs.Hashers.{WasFed256, WasFed512};

use minisign_external::numbers::{
    ANSWER_YES, WEAK_ED25519, is_answer, write_cut, write_error_text,
};
use minisign_external::public_keys::{PublicKeyValue, store_bare_public_key, store_public_key};
use minisign_external::signatures::SignatureValue;
use minisign_external::state::{Misuse, Questions, Refusal, State};
use minisign_lists::values::{EntryValue, ListValue};
use minisign_lists::{ListFault, LongDigest};
use minisign_sha2::stored::{StoredSha256, StoredSha512};
use minisign_sha2::{Sha256, Sha512};
use std::mem::forget;

/// Writes the text of an error number, truncated if the buffer is too short, and a 0. Returns the length of
/// the whole text.
#[unsafe(no_mangle)]
pub extern "C" fn page_error_text(error: u32, text: &mut [u8]) -> usize
    // The text is that of the API misuse, of the error of a list, or of the library's
    // error that has this number, without key IDs. For 0 it is "no error", and for a number without a meaning
    // "unknown error". It has fewer than 128 bytes. The buffer holds as much of it as fits before a
    // terminating 0 byte, and the bytes after the 0 are unchanged. The result is the length of the whole
    // text.
    ensures written { (meaning : List ℕ) × IsListMeaning error meaning × (result ≡ length meaning)
        × WritesCut meaning text.old text.new }
    ensures below_128_bytes { result < 128 }
{
    match ListFault::of_number(error) {
        Some(fault) => {
            let length = write_list_error(&fault, text);
            forget(fault);
            length
        }
        None => write_error_text(error, text),
    }
}

/// Initializes a state, which has been fed no data.
#[unsafe(no_mangle)]
pub extern "C" fn page_init(state: &mut State)
    // The state has been fed no data and nothing was asked, whatever it held before.
    ensures fed { IsFedState state.new [] }
    ensures blank { IsBlank state.new }
{
    *state = State::new();
}

/// Feeds the next bytes of the data.
#[unsafe(no_mangle)]
pub extern "C" fn page_update(state: &mut State, piece: &[u8]) -> u32
    // On success, the piece is appended to the data that the state was fed. What the state records about
    // being asked is unchanged. The call fails only if the digest was already returned, or if the state was
    // never initialized or was finished by a verdict. Then the result is the number of that error, and the
    // state is unchanged.
    ensures fed { (m : List ℕ) → IsFedState state.old m → (result ≡ 0)
        × IsFedState state.new (m ++ piece.now) }
    ensures questions_kept { KeepsQuestions state.old state.new }
    ensures was_begun { result ≡ 0 → IsMarkedFed state.old }
    ensures refused { 0 < result → (result ≡ misuse_number (feeding_misuse state.old))
        × (state.new ≡ state.old) }
{
    match state.update(piece) {
        Ok(()) => 0,
        Err(misuse) => misuse.number(),
    }
}

/// Writes the digest of the data that the state was fed. The state then accepts no more data.
#[unsafe(no_mangle)]
pub extern "C" fn page_digest(state: &mut State, digest: &mut [u8; 64]) -> u32
    // On success, the digest is the Blake2b digest (64 bytes) of all data that the state was fed, and the
    // state accepts no more data. What the state records about being asked is unchanged. The call fails only
    // if the digest was already returned, or if the state was never initialized or was finished by a verdict.
    // Then the result is the number of that error, and the state and the digest are unchanged.
    ensures digest { (m : List ℕ) → IsFedState state.old m
        → (result ≡ 0) × (digest.new ≡ blake2b_digest 64 m) × HasReturnedDigest state.new m }
    ensures questions_kept { KeepsQuestions state.old state.new }
    ensures finalized { result ≡ 0 → IsMarkedFed state.old × IsMarkedFinalized state.new }
    ensures refused { 0 < result → (result ≡ misuse_number (feeding_misuse state.old))
        × (state.new ≡ state.old) × (digest.new ≡ digest.old) }
{
    match state.digest(digest) {
        Ok(()) => 0,
        Err(misuse) => misuse.number(),
    }
}

/// Reads a public key file of two lines. Does not allocate.
#[unsafe(no_mangle)]
pub extern "C" fn page_read_public_key(pk_text: &[u8], key: &mut PublicKeyValue) -> u32
    // On success, `key` holds the key and the key ID of the public key file, and is marked as read. The file
    // must be UTF-8. Otherwise, or if it does not parse, the result is the error number of the first check
    // that fails, and `key` is unchanged.
    ensures { (result, key.new) ≡ key_outcome_number (read_utf8 read_public_key pk_text.now) key.old }
{
    match store_public_key(pk_text, key) {
        Ok(()) => 0,
        Err(fault) => number_of(Refusal::Refused(fault)),
    }
}

/// Reads the bare base64 of a public key, as updaters embed it. Does not allocate.
#[unsafe(no_mangle)]
pub extern "C" fn page_read_bare_public_key(base64: &[u8], key: &mut PublicKeyValue) -> u32
    // On success, `key` holds the key and the key ID of the base64 text, and is marked as read. The text
    // must be UTF-8. Otherwise, or if it does not parse, the result is the error number of the first check
    // that fails, and `key` is unchanged.
    ensures { (result, key.new) ≡ key_outcome_number (read_utf8 read_bare_public_key base64.now) key.old }
{
    match store_bare_public_key(base64, key) {
        Ok(()) => 0,
        Err(fault) => number_of(Refusal::Refused(fault)),
    }
}

/// Reads a signature file. Does not allocate.
#[unsafe(no_mangle)]
pub extern "C" fn page_read_signature(sig_text: &[u8], signature: &mut SignatureValue) -> u32
    // On success, `signature` holds the key ID, the algorithm and both signatures of the text, and the
    // position at which the trusted comment is in the text. The text must be UTF-8. Otherwise, or if it does
    // not parse, the result is the error number of the first check that fails, and `signature` is unchanged.
    ensures number { (result, signature.new)
        ≡ signature_outcome (read_signature_value sig_text.now) signature.old }
    ensures read { result ≡ 0 → (t : SignatureTextRecord) × IsReadFrom signature.new sig_text.now t }
{
    match SignatureValue::read(sig_text) {
        Ok(read) => {
            *signature = read;
            0
        }
        Err(fault) => number_of(Refusal::Refused(fault)),
    }
}

/// Writes the inputs of the two Ed25519 checks that decide whether the signature is valid for the data. Does
/// not allocate.
#[unsafe(no_mangle)]
pub extern "C" fn page_ask(
    state: &mut State,
    key: &PublicKeyValue,
    signature: &SignatureValue,
    sig_text: &[u8],
    allow_legacy: u32,
    questions: &mut Questions,
    message: &mut [u8],
) -> u32
    // Errors are checked in this order: `allow_legacy` is above 1; those of `State::ask`; the key or a
    // signature is weak. The comment signature is only tested if it has at least 64 bytes. If none of them
    // applies, the result is 0.
    ensures number { result ≡ strict_asking_number state.old key.now signature.now sig_text.now allow_legacy
        (length message.old) }

    // If the signature was read from this text, and `allow_legacy` is 0 or 1, the result is the same as if
    // the text were parsed here and checked under this key.
    ensures text { (t : SignatureTextRecord) → IsReadFrom signature.now sig_text.now t → allow_legacy < 2
        → result ≡ asked_number (asked_strictly (is_strict_text key.now t)
        (result_of_asking_with_text state.old key.now sig_text.now (allow_legacy == 1)
        (length message.old))) }

    // **On success, if the signature was read from this text, `questions` holds the inputs of the two checks
    // for the key and the text, with zeros in place of the digest, and the message of the second check is at
    // the start of the buffer. The state records that it was asked. The data that it was fed is unchanged.**
    ensures asked { result ≡ 0 → (t : SignatureTextRecord) → IsReadFrom signature.now sig_text.now t
        → (read_under key.now (allow_legacy == 1) sig_text.now ≡ Ok t)
        × AreQuestionsWithoutDigest questions.new message.new
        key.now t × WasAskedAbout state.new key.now sig_text.now (allow_legacy == 1) }
    ensures fed { (m : List ℕ) → IsFedState state.old m → IsFedState state.new m }

    // On success, whatever the signature was read from: the state only records that it was asked about this
    // signature, the questions are those for the key and the signature, and the message is the data signature
    // followed by the trusted comment.
    ensures state { result ≡ 0 → state.new ≡ state_after_asking state.old signature.now }
    ensures questions { result ≡ 0 → questions.new ≡ questions_for_value key.now signature.now }
    ensures message { result ≡ 0 → HoldsCommentMessage signature.now sig_text.now message.new }

    // On success, if the signature was read from this text, neither the key nor a signature in the text is
    // weak. The comment signature is only tested if it has at least 64 bytes.
    ensures strict { result ≡ 0 → (t : SignatureTextRecord) → IsReadFrom signature.now sig_text.now t
        → is_strict_text key.now t ≡ true }

    // On success, the buffer after the message is unchanged. After an error, the state, the questions and the
    // buffer are unchanged.
    ensures rest_unchanged { result ≡ 0 → drop questions.new.message_len message.new
        ≡ drop questions.new.message_len message.old }
    ensures unchanged { 0 < result → (state.new ≡ state.old) × (questions.new ≡ questions.old)
        × (message.new ≡ message.old) }
{
    if allow_legacy > 1 {
        return Misuse::BadLegacyFlag.number();
    }
    match state.ask_strictly(
        key,
        signature,
        sig_text,
        allow_legacy == 1,
        questions,
        message,
    ) {
        Ok(true) => 0,
        Ok(false) => WEAK_ED25519,
        Err(refusal) => number_of(refusal),
    }
}

/// Returns the verdict from the results of the two Ed25519 checks, `ANSWER_YES` or `ANSWER_NO`, and finishes
/// the state.
#[unsafe(no_mangle)]
pub extern "C" fn page_verdict(state: &mut State, first: u32, second: u32) -> u32
    // **After a successful `page_ask` and `page_digest`, for every scheme and every message for which
    // `first` and `second` are the results of the two checks: the result is the number of the verdict on the
    // key, the signature file and the message. It is 0 exactly if the signature is valid.**
    ensures verdict { (v : PublicKeyValue) (sig_text message : List ℕ) (legacy : Bool) (accepts : Verifier)
        → IsAnswered state.old accepts v sig_text message legacy first second
        → result ≡ verdict_number (verdict_under accepts v sig_text message legacy) }

    // **So for every public key file that contains this key: the result is 0 exactly if the signature file
    // is a valid signature of the message under that public key. Otherwise it is the error number of the
    // first check that fails.**
    ensures same_verdict_as_texts { (v : PublicKeyValue) (pk_text sig_text message : List ℕ) (legacy : Bool)
        (accepts : Verifier) → IsAnswered state.old accepts v sig_text message legacy first second
        → IsKeyText pk_text v → GivesNumber accepts pk_text sig_text message legacy result }

    // It is API misuse if a result is neither 7955827 (yes) nor 28271 (no), if nothing was asked or if the
    // digest was not returned; then the state is unchanged. Otherwise the state is finished, and the result
    // is 0 exactly if `first` is yes, the comment signature has at least 64 bytes and `second` is yes.
    ensures number { (result, state.new) ≡ verdict_outcome_number state.old first second }
{
    if !is_answer(first) || !is_answer(second) {
        return Misuse::BadAnswer.number();
    }
    match state.verdict(first == ANSWER_YES, second == ANSWER_YES) {
        Ok(()) => 0,
        Err(refusal) => number_of(refusal),
    }
}

// Returns the error number. The error is forgotten instead of dropped: it owns no memory, but dropping its
// type, which can hold a text, would make the module call the function that frees memory.
fn number_of(refusal: Refusal) -> u32
    ensures { result ≡ refusal_number fault_number refusal }
{
    let number = refusal.number();
    forget(refusal);
    number
}

/// Writes the inputs of the two Ed25519 checks that decide whether the signature of a list is valid. Its
/// trusted comment must name the list. Does not allocate.
#[unsafe(no_mangle)]
pub extern "C" fn page_list_ask(
    list: &mut ListValue,
    key: &PublicKeyValue,
    signature: &SignatureValue,
    sig_text: &[u8],
    list_name: &[u8],
    text: &[u8],
    questions: &mut Questions,
    message: &mut [u8],
) -> u32
    // Errors are checked in this order: the public key was not read; the signature was not read; the text is
    // not the one that it was read from; the key IDs differ; the signature is a legacy one; the buffer is too
    // short; the key or a signature is weak. If none of them applies, the result is 0.
    ensures number { result ≡ asked_number (asked_strictly (is_strict_value key.now signature.now)
        (check_ask_arguments key.now signature.now sig_text.now false (length message.old))) }

    // If the signature was read from this text, the result is the same as if the text were parsed here and
    // checked under this key.
    ensures text { (t : SignatureTextRecord) → IsReadFrom signature.now sig_text.now t
        → result ≡ asking_list_number key.now sig_text.now t (length message.old) }

    // **On success, if the signature was read from this text, `questions` holds the inputs of the two checks
    // for the key and the text, with the digest of the list. `list` records this digest, whether the comment
    // signature has at least 64 bytes, and whether the trusted comment names the list.**
    ensures asked { result ≡ 0 → (t : SignatureTextRecord) → IsReadFrom signature.now sig_text.now t
        → (read_under key.now false sig_text.now ≡ Ok t)
        × AreListQuestions questions.new message.new key.now t text.now
        × (list.new ≡ asked_list key.now signature.now (Some list_name.now) text.now t.comments.trusted) }

    // On success, whatever the signature was read from: `list` records what it was asked about, the questions
    // are those for the key and the signature, with the digest of the list, and the message is the data
    // signature followed by the trusted comment.
    ensures list { result ≡ 0 → (c : List ℕ) → comment_of signature.now sig_text.now ≡ Ok c
        → list.new ≡ asked_list key.now signature.now (Some list_name.now) text.now c }
    ensures questions { result ≡ 0 → questions.new ≡ record (questions_for_value key.now signature.now)
        { digest = blake2b_digest 64 text.now } }
    ensures message { result ≡ 0 → HoldsCommentMessage signature.now sig_text.now message.new }

    // On success, if the signature was read from this text, neither the key nor a signature in the text is
    // weak. The comment signature is only tested if it has at least 64 bytes.
    ensures strict { result ≡ 0 → (t : SignatureTextRecord) → IsReadFrom signature.now sig_text.now t
        → is_strict_text key.now t ≡ true }

    // On success, the buffer after the message is unchanged. After an error, the list, the questions and the
    // buffer are unchanged.
    ensures rest_unchanged { result ≡ 0 → drop questions.new.message_len message.new
        ≡ drop questions.new.message_len message.old }
    ensures unchanged { 0 < result → (list.new ≡ list.old) × (questions.new ≡ questions.old)
        × (message.new ≡ message.old) }
{
    asked_number(list.ask(
        key,
        signature,
        sig_text,
        Some(list_name),
        text,
        questions,
        message,
    ))
}

/// Asks as `page_list_ask` does. The trusted comment need not name the list.
#[unsafe(no_mangle)]
pub extern "C" fn page_list_ask_any(
    list: &mut ListValue,
    key: &PublicKeyValue,
    signature: &SignatureValue,
    sig_text: &[u8],
    text: &[u8],
    questions: &mut Questions,
    message: &mut [u8],
) -> u32
    // The promises are those of `page_list_ask`, except that the name of the list is not checked: `list`
    // records for every trusted comment that it names the list.
    ensures number { result ≡ asked_number (asked_strictly (is_strict_value key.now signature.now)
        (check_ask_arguments key.now signature.now sig_text.now false (length message.old))) }
    ensures text { (t : SignatureTextRecord) → IsReadFrom signature.now sig_text.now t
        → result ≡ asking_list_number key.now sig_text.now t (length message.old) }
    ensures asked { result ≡ 0 → (t : SignatureTextRecord) → IsReadFrom signature.now sig_text.now t
        → (read_under key.now false sig_text.now ≡ Ok t)
        × AreListQuestions questions.new message.new key.now t text.now
        × (list.new ≡ asked_list key.now signature.now None text.now t.comments.trusted) }
    ensures list { result ≡ 0 → (c : List ℕ) → comment_of signature.now sig_text.now ≡ Ok c
        → list.new ≡ asked_list key.now signature.now None text.now c }
    ensures questions { result ≡ 0 → questions.new ≡ record (questions_for_value key.now signature.now)
        { digest = blake2b_digest 64 text.now } }
    ensures message { result ≡ 0 → HoldsCommentMessage signature.now sig_text.now message.new }
    ensures strict { result ≡ 0 → (t : SignatureTextRecord) → IsReadFrom signature.now sig_text.now t
        → is_strict_text key.now t ≡ true }
    ensures rest_unchanged { result ≡ 0 → drop questions.new.message_len message.new
        ≡ drop questions.new.message_len message.old }
    ensures unchanged { 0 < result → (list.new ≡ list.old) × (questions.new ≡ questions.old)
        × (message.new ≡ message.old) }
{
    asked_number(list.ask(key, signature, sig_text, None, text, questions, message))
}

/// Returns the verdict on a list from the results of the two Ed25519 checks.
#[unsafe(no_mangle)]
pub extern "C" fn page_list_verdict(list: &mut ListValue, first: u32, second: u32) -> u32
    // **After a successful `page_list_ask` or `page_list_ask_any`, for every scheme for which
    // `first` and `second` are the results of the two checks: the result is 0 exactly if the signature file
    // is a valid prehashed signature of the list under the key, and the trusted comment names the list if it
    // must. Otherwise it is the error number of the first check that fails.**
    ensures verdict { (v : PublicKeyValue) (sig_text text : List ℕ) (name : Option (List ℕ))
        (accepts : Verifier) → IsAnsweredList list.old accepts v sig_text name text first second
        → result ≡ list_verdict_number (list_verdict_under accepts v sig_text name text) }

    // It is API misuse if a result is neither 7955827 (yes) nor 28271 (no), or if nothing was asked; then the
    // list is unchanged. Otherwise the result is 0 and the list is verified exactly if `first` is yes, the
    // comment signature has at least 64 bytes and `second` is yes, and the trusted comment names the list if
    // it must. After an error the list is not verified.
    ensures number { (result, list.new) ≡ list_outcome_number list.old first second }
{
    if !is_answer(first) || !is_answer(second) {
        return Misuse::BadAnswer.number();
    }
    match list.verdict(first == ANSWER_YES, second == ANSWER_YES) {
        Ok(()) => 0,
        Err(refusal) => list_number_of(refusal),
    }
}

/// Finds the only entry of a name in a verified list.
#[unsafe(no_mangle)]
pub extern "C" fn page_list_find(
    list: &ListValue,
    text: &[u8],
    long_digest: u32,
    name: &[u8],
    entry: &mut EntryValue,
    line: &mut u64,
) -> u32
    // **The result is 0 exactly if the list was verified and this is its text, every line is well formed,
    // and exactly one entry has the name.** Then `entry` is that entry, and `line` is 0. Otherwise the
    // result is the error number of the first check that fails, `entry` is unchanged, and `line` is the
    // number of the line at fault, or 0 if no line is at fault.
    ensures number { (result, (entry.new, line.new))
        ≡ finding_number (long_numbered long_digest) list.now text.now name.now entry.old }

    // On success, the digest that later calls take from `entry` is the one in the list.
    ensures digest { result ≡ 0 → (long : LongDigest) (e : Entry) → long_numbered long_digest ≡ Some long
        → found_entry list.now text.now long name.now ≡ Ok e → entry_digest entry.new ≡ Ok e.digest }
{
    *line = 0;
    let Some(long) = LongDigest::of_number(long_digest) else {
        return Misuse::BadHash.number();
    };
    match list.find(text, long, name, entry) {
        Ok(()) => 0,
        Err(refusal) => {
            *line = line_of(&refusal);
            list_number_of(refusal)
        }
    }
}

/// Writes all entries of a verified list.
#[unsafe(no_mangle)]
pub extern "C" fn page_list_entries(
    list: &ListValue,
    text: &[u8],
    long_digest: u32,
    entries: &mut [EntryValue],
    count: &mut usize,
    line: &mut u64,
) -> u32
    // The result is 0 exactly if the list was verified and this is its text, every line is well formed, and
    // the buffer is long enough for all entries. Then the buffer begins with them, in the order of their
    // lines, its rest is unchanged, and `count` is their number. Otherwise the result is the error number
    // of the first check that fails, and the buffer and `count` are unchanged. `line` is the number of the
    // line at fault, or 0.
    ensures { (result, (entries.new, (count.new, line.new)))
        ≡ all_entries_number (long_numbered long_digest) list.now text.now entries.old count.old }
{
    *line = 0;
    let Some(long) = LongDigest::of_number(long_digest) else {
        return Misuse::BadHash.number();
    };
    match list.entries(text, long, entries) {
        Ok(found) => {
            *count = found;
            0
        }
        Err(refusal) => {
            *line = line_of(&refusal);
            list_number_of(refusal)
        }
    }
}

/// Compares the digest of an entry with one that the caller computed, without checking the caller's digest.
#[unsafe(no_mangle)]
pub extern "C" fn page_list_compare_trusting_your_hash(
    entry: &EntryValue,
    hash: u32,
    digest: &[u8],
) -> u32
    // The result is 0 exactly if the entry was read, this is its hash function, and these bytes are its
    // digest. Otherwise it is the error number of the first check that fails. Nothing is said about any
    // data.
    ensures { result ≡ list_result (compared entry.now hash digest.now) }
{
    match entry.compare_trusting_your_hash(hash, digest) {
        Ok(()) => 0,
        Err(refusal) => list_number_of(refusal),
    }
}

/// Begins to compute a SHA-256 digest.
#[unsafe(no_mangle)]
pub extern "C" fn page_sha256_begin(state: &mut StoredSha256)
    // The state has been fed no data, whatever it held before.
    ensures { WasFed256 state.new [] }
{
    *state = StoredSha256::store(&Sha256::new());
}

/// Feeds the next bytes of the data.
#[unsafe(no_mangle)]
pub extern "C" fn page_sha256_update(state: &mut StoredSha256, piece: &[u8])
    // The piece is appended to the data that the state was fed.
    ensures { (m : List ℕ) → WasFed256 state.old m → WasFed256 state.new (m ++ piece.now) }
{
    let mut hasher: Sha256 = state.restore();
    hasher.update(piece);
    *state = StoredSha256::store(&hasher);
}

/// Writes the digest of the data that was fed.
#[unsafe(no_mangle)]
pub extern "C" fn page_sha256_digest(state: &StoredSha256, digest: &mut [u8; 32])
    // **The digest is the SHA-256 digest of all data that the state was fed.**
    ensures { (m : List ℕ) → WasFed256 state.now m → digest.new ≡ sha256 m }
{
    *digest = state.restore().finalize();
}

/// Begins to compute a SHA-512 digest.
#[unsafe(no_mangle)]
pub extern "C" fn page_sha512_begin(state: &mut StoredSha512)
    // The state has been fed no data, whatever it held before.
    ensures { WasFed512 state.new [] }
{
    *state = StoredSha512::store(&Sha512::new());
}

/// Feeds the next bytes of the data.
#[unsafe(no_mangle)]
pub extern "C" fn page_sha512_update(state: &mut StoredSha512, piece: &[u8])
    // The piece is appended to the data that the state was fed.
    ensures { (m : List ℕ) → WasFed512 state.old m → WasFed512 state.new (m ++ piece.now) }
{
    let mut hasher = state.restore();
    hasher.update(piece);
    *state = StoredSha512::store(&hasher);
}

/// Writes the digest of the data that was fed.
#[unsafe(no_mangle)]
pub extern "C" fn page_sha512_digest(state: &StoredSha512, digest: &mut [u8; 64])
    // **The digest is the SHA-512 digest of all data that the state was fed.**
    ensures { (m : List ℕ) → WasFed512 state.now m → digest.new ≡ sha512 m }
{
    *digest = state.restore().finalize();
}

// Returns the number of the line at fault, or 0 if no line is at fault.
fn line_of(refusal: &Refusal<ListFault>) -> u64
    ensures { result ≡ line_at_fault refusal.now }
{
    match refusal {
        Refusal::WrongUse(_) => 0,
        Refusal::Refused(fault) => fault.line(),
    }
}

// Returns the error number. The error is forgotten instead of dropped, as in `number_of`.
fn list_number_of(refusal: Refusal<ListFault>) -> u32
    ensures { result ≡ list_refusal refusal }
{
    let number = refusal.number();
    forget(refusal);
    number
}

// Writes the text of a list error.
fn write_list_error(fault: &ListFault, text: &mut [u8]) -> usize
    requires { is_list_error fault.now ≡ true }
    ensures written { (result ≡ length (list_row fault.now).summary)
        × WritesCut (list_row fault.now).summary text.old text.new }
    ensures below_128_bytes { result < 128 }
{
    match fault.row() {
        Ok((_, _, meaning)) => write_cut(meaning, text),
        Err(_) => 0,
    }
}

// Converts the result of asking to a number.
fn asked_number(answer: Result<bool, Refusal>) -> u32
    ensures { result ≡ asked_number answer }
{
    match answer {
        Ok(is_strict) if is_strict => 0,
        Ok(_) => WEAK_ED25519,
        Err(refusal) => number_of(refusal),
    }
}
