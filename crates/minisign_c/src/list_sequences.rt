//! Makes the calls for lists in the order in which an application makes them, so that contracts can
//! state what the whole sequence does, however the data is split. No program calls these functions.

ghost use Rattle.std.specs.Prelude.{◌≡◌, ◌==◌, ◌≤◌, ◌+◌, ℕ, List, [], Some, Ok, false, true, is_ok, length};
ghost use Rattle.std.specs.Prelude.{if◌then◌else◌};
ghost use Rattle.minisign.specs.Acceptance.{Verifier};
ghost use Rattle.minisign.specs.KeyTexts.{read_public_key};
ghost use Rattle.minisign.specs.SignatureText.{SignatureTextRecord};
ghost use Rattle.minisign_external.specs.PublicKeys.{is_public_key, read_utf8, value_of};
ghost use Rattle.minisign_external.specs.Questions.{read_under};
ghost use Rattle.minisign_external.specs.Signatures.{IsReadFrom};
ghost use Rattle.minisign_external.specs.Signing.{joined};
ghost use Rattle.minisign_external.specs.StrictCalls.{number_with_key, strict, strict_read};
ghost use Rattle.minisign_lists.specs.Digests.{has_digest};
ghost use Rattle.minisign_lists.specs.declared.digests.ListedDigest.{ListedDigest};
ghost use Rattle.minisign_lists.specs.Faults.{list_number};
ghost use Rattle.minisign_lists.specs.declared.faults.ListFault.TheVariants.{DigestMismatch};
ghost use Rattle.minisign_lists.specs.declared.lines.LongDigest.{LongDigest};
ghost use Rattle.minisign_lists.specs.Values.{IsFedValue, entry_digest, list_verdict_under, long_numbered};
ghost use Rattle.minisign_lists.specs.Values.{of_lists, text_check};
ghost use Rattle.minisign_lists.specs.Verdicts.{listed_verdict};
ghost use Rattle.minisign_c.specs.ListCalls.{list_verdict_number};
ghost use Rattle.minisign_c.specs.ListSequences.{AreUtf8, Lookup, data_number, listed_with, lookup_of};
ghost use Rattle.minisign_c.specs.ListSequences.{looked_up};
ghost use Rattle.minisign_c.specs.ListSequences.{strict_listed_number};

use crate::sequences::{answer_of, no_public_key, no_signature};
use crate::{
    minisign_list_ask, minisign_list_begin, minisign_list_find, minisign_list_finish,
    minisign_list_update, minisign_list_verdict, minisign_read_public_key, minisign_read_signature,
};
use minisign::Scheme;
use minisign_external::pieces::results_decide_verdict;
use minisign_external::public_keys::PublicKeyValue;
use minisign_external::signatures::SignatureValue;
use minisign_external::state::Questions;
use minisign_lists::values::{EntryValue, FileValue, ListValue};

/// Checks the concatenated pieces against the entry of a name in a signed list, with a public key file and
/// the signature file of the list, whose trusted comment must name the list. Returns the first error number
/// other than 0 that a call returns, or else 0. `long_digest` is the number of the hash function for digests
/// of 128 digits in lines that do not name one. `room` is a buffer for the message of the comment signature.
/// It must have at least as many bytes as the signature file.
pub fn check_listed_in_sequence<S: Scheme>(
    scheme: &S,
    pk_text: &[u8],
    sig_text: &[u8],
    list_name: &[u8],
    list: &[u8],
    long_digest: u32,
    name: &[u8],
    pieces: &[&[u8]],
    room: &mut [u8],
) -> u32
    requires { length sig_text.now ≤ length room.old }

    // **For every scheme, files, names and data, however the data is split: the result is 0 exactly if the
    // signature file is a valid prehashed signature of the list under the public key file, the trusted
    // comment names the list, every line of the list is well formed, exactly one entry has the name, the
    // concatenated data has the digest in that entry, and neither the key nor a signature is weak. Otherwise
    // it is the error number of the first check that fails.**
    ensures number { result ≡ number_with_key (read_utf8 read_public_key pk_text.now) (λ k.
        strict_listed_number (S.accepts scheme.now) (value_of k) sig_text.now
        (lookup_of list_name.now list.now long_digest name.now) (joined pieces.now)) }

    // **So the result is 0 exactly if `listed_with` is success for the strict scheme, which rejects weak
    // public keys and signatures, and otherwise accepts what the scheme accepts. `listed_with` is the verdict
    // on the data as the entry of its name in the list.**
    ensures accepted { (result == 0) ≡ is_ok (listed_with (strict (S.accepts scheme.now))
        (read_utf8 read_public_key pk_text.now) sig_text.now
        (lookup_of list_name.now list.now long_digest name.now) (joined pieces.now)) }

    // **If the two files, the list and the name are UTF-8 and `long_digest` is a valid number, the result is
    // 0 exactly if `listed_verdict`, which `verify_listed` of `minisign_lists` returns, is success for the
    // strict scheme.** The name of the list need not be UTF-8, because it is only compared as bytes.
    ensures verdict { (long : LongDigest) → long_numbered long_digest ≡ Some long
        → AreUtf8 pk_text.now sig_text.now list.now name.now
        → (result == 0) ≡ is_ok (listed_verdict (strict (S.accepts scheme.now)) pk_text.now sig_text.now
        (Some list_name.now) long list.now name.now (joined pieces.now)) }
{
    let mut key = no_public_key();
    let number = minisign_read_public_key(pk_text, &mut key);
    if number != 0 {
        return number;
    }
    check_under(
        scheme,
        &key,
        sig_text,
        list_name,
        list,
        long_digest,
        name,
        pieces,
        room,
    )
}

/// States that the verdict of the calls for lists is that of `verify_listed`. This function is a law: it does
/// nothing, and exists only for its contract.
#[tactic(auto, using(crate::proofs::ListedVerdicts::calls_agree_with_definition))]
pub fn listed_verdicts_agree()
    // If the two files, the list and the name are UTF-8, and `long_digest`, the number of the hash function
    // for digests of 128 digits, is valid, then `listed_with`, the verdict that `check_listed_in_sequence`
    // returns as a number, equals `listed_verdict`: the trusted comment, or the error of the first check that
    // fails.
    ensures { (accepts : Verifier) (pk_text sig_text : List ℕ) (x : Lookup) (long : LongDigest) (m : List ℕ)
        → x.long ≡ Some long → AreUtf8 pk_text sig_text x.text x.name
        → listed_with accepts (read_utf8 read_public_key pk_text) sig_text x m
        ≡ of_lists (listed_verdict accepts pk_text sig_text (Some x.list_name) long x.text x.name m) }
{}

// Does the rest of `check_listed_in_sequence` after reading the public key.
fn check_under<S: Scheme>(
    scheme: &S,
    key: &PublicKeyValue,
    sig_text: &[u8],
    list_name: &[u8],
    list: &[u8],
    long_digest: u32,
    name: &[u8],
    pieces: &[&[u8]],
    room: &mut [u8],
) -> u32
    requires key { is_public_key key.now ≡ true }
    requires room { length sig_text.now ≤ length room.old }
    ensures { result ≡ strict_listed_number (S.accepts scheme.now) key.now sig_text.now
        (lookup_of list_name.now list.now long_digest name.now) (joined pieces.now) }
{
    let mut verified = no_list();
    let number = verify_list(scheme, key, sig_text, list_name, list, &mut verified, room);
    if number != 0 {
        return number;
    }
    check_file(&verified, list, long_digest, name, pieces)
}

// Reads the signature file and verifies the list with it, under a public key that was read.
fn verify_list<S: Scheme>(
    scheme: &S,
    key: &PublicKeyValue,
    sig_text: &[u8],
    list_name: &[u8],
    list: &[u8],
    verified: &mut ListValue,
    room: &mut [u8],
) -> u32
    requires key { is_public_key key.now ≡ true }
    requires room { length sig_text.now ≤ length room.old }
    ensures number { result ≡ strict_read key.now (read_under key.now false sig_text.now)
        (list_verdict_number (list_verdict_under (strict (S.accepts scheme.now)) key.now sig_text.now
        (Some list_name.now) list.now)) }
    ensures verified { result ≡ 0 → text_check verified.new list.now ≡ Ok tt }
{
    let mut signature = no_signature();
    let number = minisign_read_signature(sig_text, &mut signature);
    if number != 0 {
        return number;
    }
    verify_read(
        scheme, key, &signature, sig_text, list_name, list, verified, room,
    )
}

// Verifies a list with a public key and a signature that were read: asks for the inputs of the two Ed25519
// checks, makes them, and passes in their results.
fn verify_read<S: Scheme>(
    scheme: &S,
    key: &PublicKeyValue,
    signature: &SignatureValue,
    sig_text: &[u8],
    list_name: &[u8],
    list: &[u8],
    verified: &mut ListValue,
    room: &mut [u8],
) -> u32
    requires key { is_public_key key.now ≡ true }
    requires room { length sig_text.now ≤ length room.old }
    requires read { (t : SignatureTextRecord) × IsReadFrom signature.now sig_text.now t }
    ensures number { result ≡ strict_read key.now (read_under key.now false sig_text.now)
        (list_verdict_number (list_verdict_under (strict (S.accepts scheme.now)) key.now sig_text.now
        (Some list_name.now) list.now)) }
    ensures verified { result ≡ 0 → text_check verified.new list.now ≡ Ok tt }
{
    // Does nothing when the program runs: it gives the prover a law that the contract needs.
    results_decide_verdict();
    let mut questions = Questions::none();
    let number = minisign_list_ask(
        verified,
        key,
        signature,
        sig_text,
        list_name,
        list,
        &mut questions,
        room,
    );
    if number != 0 {
        return number;
    }
    let first = scheme.verify(
        &questions.digest,
        &questions.public_key,
        &questions.signature,
    );
    let second = scheme.verify(
        &room[..questions.message_len as usize],
        &questions.public_key,
        &questions.comment_signature,
    );
    let first_answer = answer_of(first);
    let second_answer = answer_of(second);
    minisign_list_verdict(verified, first_answer, second_answer)
}

// Returns a struct that holds no verified list.
fn no_list() -> ListValue {
    ListValue {
        mark: 0,
        text_digest: [0; 64],
        key_id: [0; 8],
        whole: 0,
        is_named: 0,
    }
}

// Returns an empty struct for an entry.
fn no_entry() -> EntryValue {
    EntryValue {
        mark: 0,
        line: 0,
        name_offset: 0,
        name_len: 0,
        digest: [0; 64],
        hash: 0,
        is_escaped: 0,
    }
}

// Checks the concatenated pieces against the entry of a name in a list that was verified. The name of the
// list is already checked, so the contract holds for every `list_name`.
fn check_file(
    verified: &ListValue,
    list: &[u8],
    long_digest: u32,
    name: &[u8],
    pieces: &[&[u8]],
) -> u32
    requires { text_check verified.now list.now ≡ Ok tt }
    ensures { (list_name : List ℕ) → result
        ≡ data_number (looked_up (lookup_of list_name list.now long_digest name.now)) (joined pieces.now) }
{
    let mut entry = no_entry();
    let mut line = 0;
    let number = minisign_list_find(verified, list, long_digest, name, &mut entry, &mut line);
    if number != 0 {
        return number;
    }
    check_data(&entry, pieces)
}

// Checks that the concatenated pieces have the digest in an entry.
fn check_data(entry: &EntryValue, pieces: &[&[u8]]) -> u32
    ensures { (d : ListedDigest) → entry_digest entry.now ≡ Ok d
        → result ≡ (if has_digest d (joined pieces.now) then 0 else list_number DigestMismatch) }
{
    let mut file = FileValue::none();
    let number = minisign_list_begin(entry, &mut file);
    if number != 0 {
        return number;
    }
    let number = feed_file(&mut file, pieces);
    if number != 0 {
        return number;
    }
    minisign_list_finish(&mut file)
}

// Feeds one piece after another.
fn feed_file(file: &mut FileValue, pieces: &[&[u8]]) -> u32
    ensures { (d : ListedDigest) → IsFedValue file.old d []
        → (result ≡ 0) × IsFedValue file.new d (joined pieces.now) }
{
    'pieces: for piece in pieces {
        let number = minisign_list_update(file, *piece);
        if number != 0 {
            return number;
        }
    }
    0
}
