//! The values that a program in another language holds to check files against a signed list: the
//! list, an entry, and the state of checking a file. They have a fixed size. Nothing here allocates.

ghost use Rattle.std.specs.Prelude.{◌≡◌, ◌≢◌, ◌++◌, ◌==◌, ◌+◌, ◌%◌, ◌^◌, ◌≤◌, ℕ, List, []};
ghost use Rattle.std.specs.Prelude.{false, true, Ok, Err, Some, None, option_map, MatchResult, IfOk, IfErr};
ghost use Rattle.std.specs.Prelude.{IfSome, IfNone, OnOk, OnErr, length, take, drop, replicate, map};
ghost use Rattle.std.specs.Prelude.{Option};
ghost use Rattle.std.specs.Prelude.{if◌then◌else◌};
ghost use Rattle.minisign_hash.specs.Blake2b.{blake2b_digest};
ghost use Rattle.minisign_hash.specs.Fed.{IsFed, output_length};
ghost use Rattle.minisign_hash.specs.Stored.{WasFed};
ghost use Rattle.minisign_sha2.specs.Hashers.{IsFed256, IsFed512, WasFed256, WasFed512};
ghost use Rattle.minisign.specs.SignatureText.{SignatureTextRecord};
ghost use Rattle.minisign.specs.Acceptance.{Verifier};
ghost use Rattle.minisign_external.specs.Questions.{Answers, read_under};
ghost use Rattle.minisign_external.specs.Signatures.{IsReadFrom, comment_of};
ghost use Rattle.minisign_external.specs.States.{AreQuestionsWithoutDigest, AreQuestions};
ghost use Rattle.minisign_external.specs.States.{check_ask_arguments, HoldsCommentMessage};
ghost use Rattle.minisign_external.specs.States.{check_buffer_if_read, questions_for_value, with_public_key};
ghost use Rattle.minisign_external.specs.StrictCalls.{asked_strictly, is_strict_text, is_strict_value};
ghost use Rattle.minisign_external.specs.declared.public_keys.PublicKeyValue.{PublicKeyValue};
ghost use Rattle.minisign_external.specs.declared.state.Misuse.TheVariants.{NotBegun};
ghost use Rattle.minisign_external.specs.declared.state.Refusal.TheVariants.{Refused};
ghost use Rattle.minisign_lists.specs.Digests.{ListedDigest, has_digest};
ghost use Rattle.minisign_lists.specs.Faults.{DigestMismatch, map_ok};
ghost use Rattle.minisign_lists.specs.Lines.{Entry};
ghost use Rattle.minisign_lists.specs.Lists.{read_list};
ghost use Rattle.minisign_lists.specs.Numbers.{hash_number};
ghost use Rattle.minisign_lists.specs.Pieces.{IsFedCheck, IsUsable};
ghost use Rattle.minisign_lists.specs.Positions.{line_start};
ghost use Rattle.minisign_lists.specs.Values.{HasAskedList, IsFedValue, IsFinishRefusal, IsFinished};
ghost use Rattle.minisign_lists.specs.Values.{given_list, list_verdict_under};
ghost use Rattle.minisign_lists.specs.Values.{algorithm_numbered, algorithm_of, all_entries};
ghost use Rattle.minisign_lists.specs.Values.{asked_list, compared, compared_digest, digest_of_bytes};
ghost use Rattle.minisign_lists.specs.Values.{digest_of_padded, entry_digest, entry_value, file_mark};
ghost use Rattle.minisign_lists.specs.Values.{found_entry};
ghost use Rattle.minisign_lists.specs.Values.{given_digest, long_numbered, mapped, named_number};
ghost use Rattle.minisign_lists.specs.Values.{padded_digest, put_entry, text_check, entries_outcome};
ghost use Rattle.minisign_lists.specs.Values.{entry_outcome};
ghost use Rattle.minisign_lists.specs.Values.{list_verdict_outcome, utf8_text, value_in, verified_text};

use crate::comments::field_names_list;
use crate::digests::{Algorithm, FileCheck, ListedDigest};
use crate::entries::{Entries, after_line, next_line};
use crate::faults::{ListFault, Result};
use crate::finding::find_listed;
use crate::lines::{EntryView, LongDigest, read_line};
use crate::names::same;
use minisign_base::NamedFault;
use minisign_external::public_keys::PublicKeyValue;
use minisign_external::signatures::SignatureValue;
use minisign_external::state::{Misuse, Questions, Refusal, State};
use minisign_external::verdict::verdict;
use minisign_hash::blake2b::Blake2b;
use minisign_hash::blake2b::stored::StoredBlake2b;
use minisign_sha2::stored::{StoredSha256, StoredSha512};
use minisign_sha2::{Sha256, Sha512};
use std::mem::forget;

// The marks (magic numbers), as eight letters in little endian: of a list that was asked about (`minilask`),
// of a list that was verified (`minilist`), of an entry that was read (`minientr`), and of a file check that
// was begun (`minifile`).
const ASKED: u64 = 7742639302633220461;

const VERIFIED: u64 = 8391166445067594093;

const READ: u64 = 8247338199461816685;

const BEGUN: u64 = 7308332183891896685;

/// A list that is being verified, or was verified: 88 bytes with the layout of C.
#[repr(C)]
#[derive(Clone, Copy)]
pub struct ListValue {
    /// The mark of a list that was asked about a signature, or verified.
    pub mark: u64,
    /// The Blake2b digest of the list, of 64 bytes.
    pub text_digest: [u8; 64],
    /// The key ID of the public key.
    pub key_id: [u8; 8],
    /// 1 if the signature file has the 64 bytes of the comment signature, otherwise 0.
    pub whole: u32,
    /// 1 if the trusted comment names the list or need not name it, otherwise 0.
    pub is_named: u32,
}

/// An entry of a list, 104 bytes with the layout of C.
#[repr(C)]
#[derive(Clone, Copy)]
pub struct EntryValue {
    /// The mark of an entry that was read.
    pub mark: u64,
    /// The number of its line, from 1 on.
    pub line: u64,
    /// The position of the name in the list, without a leading `./`.
    pub name_offset: u64,
    /// The length of the name.
    pub name_len: u64,
    /// The digest, followed by zeros if it has fewer than 64 bytes.
    pub digest: [u8; 64],
    /// The number of the hash function.
    pub hash: u32,
    /// 1 if the name contains escapes, otherwise 0.
    pub is_escaped: u32,
}

/// The state of checking a file against an entry, 768 bytes with the layout of C. Only the hasher
/// of the hash function is used.
#[repr(C)]
#[derive(Clone, Copy)]
pub struct FileValue {
    mark: u64,
    hash: u64,
    digest: [u8; 64],
    sha256: StoredSha256,
    sha512: StoredSha512,
    blake2b: StoredBlake2b,
    reserved: [u64; 4],
}

impl Algorithm {
    /// Returns the number of the hash function: 1 for SHA-256, 2 for SHA-512, 3 for BLAKE2b.
    pub fn number(self) -> u32
        ensures { result ≡ hash_number self }
    {
        match self {
            Algorithm::Sha256 => 1,
            Algorithm::Sha512 => 2,
            Algorithm::Blake2b => 3,
        }
    }

    /// Returns the hash function with this number.
    pub fn of_number(number: u32) -> Option<Algorithm>
        ensures { result ≡ algorithm_numbered number }
    {
        match number {
            1 => Some(Algorithm::Sha256),
            2 => Some(Algorithm::Sha512),
            3 => Some(Algorithm::Blake2b),
            _ => None,
        }
    }
}

impl LongDigest {
    /// Returns the hash function of 128 digits with this number: 2 is SHA-512, 3 is BLAKE2b, and 0
    /// rejects such digits.
    pub fn of_number(number: u32) -> Option<LongDigest>
        ensures { result ≡ long_numbered number }
    {
        match number {
            0 => Some(LongDigest::Rejected),
            2 => Some(LongDigest::Sha512),
            3 => Some(LongDigest::Blake2b),
            _ => None,
        }
    }
}

impl ListedDigest {
    // Returns the hash function of the digest.
    pub(crate) fn algorithm(self) -> Algorithm
        ensures { result ≡ algorithm_of self }
    {
        match self {
            ListedDigest::Sha256(_) => Algorithm::Sha256,
            ListedDigest::Sha512(_) => Algorithm::Sha512,
            ListedDigest::Blake2b(_) => Algorithm::Blake2b,
        }
    }

    // Returns the bytes of the digest, followed by zeros if there are fewer than 64.
    pub(crate) fn padded(self) -> [u8; 64]
        ensures value { result ≡ padded_digest self }
        ensures back { digest_of_padded (algorithm_of self) result ≡ self }
    {
        match self {
            ListedDigest::Sha256(digest) => padded(&digest),
            ListedDigest::Sha512(digest) => digest,
            ListedDigest::Blake2b(digest) => digest,
        }
    }

    // Returns the digest from the bytes that `padded` returns.
    pub(crate) fn of_padded(algorithm: Algorithm, digest: &[u8; 64]) -> ListedDigest
        ensures { result ≡ digest_of_padded algorithm digest.now }
    {
        match algorithm {
            Algorithm::Sha256 => ListedDigest::Sha256(first_32(digest)),
            Algorithm::Sha512 => ListedDigest::Sha512(*digest),
            Algorithm::Blake2b => ListedDigest::Blake2b(*digest),
        }
    }

    /// Returns these bytes as a digest, or `None` if digests of the hash function have another
    /// length.
    pub fn of_bytes(algorithm: Algorithm, bytes: &[u8]) -> Option<ListedDigest>
        ensures { result ≡ digest_of_bytes algorithm bytes.now }
    {
        match algorithm {
            Algorithm::Sha256 => match bytes_32(bytes) {
                Some(digest) => Some(ListedDigest::Sha256(digest)),
                None => None,
            },
            Algorithm::Sha512 => match bytes_64(bytes) {
                Some(digest) => Some(ListedDigest::Sha512(digest)),
                None => None,
            },
            Algorithm::Blake2b => match bytes_64(bytes) {
                Some(digest) => Some(ListedDigest::Blake2b(digest)),
                None => None,
            },
        }
    }
}

// Returns the bytes, if there are 32.
fn bytes_32(bytes: &[u8]) -> Option<[u8; 32]>
    ensures { result ≡ (if length bytes.now == 32 then Some bytes.now else None) }
{
    if bytes.len() != 32 {
        return None;
    }
    let mut digest = [0u8; 32];
    digest.copy_from_slice(bytes);
    Some(digest)
}

// Returns the bytes, if there are 64.
fn bytes_64(bytes: &[u8]) -> Option<[u8; 64]>
    ensures { result ≡ (if length bytes.now == 64 then Some bytes.now else None) }
{
    if bytes.len() != 64 {
        return None;
    }
    let mut digest = [0u8; 64];
    digest.copy_from_slice(bytes);
    Some(digest)
}

// Returns 32 bytes, followed by 32 zeros.
fn padded(digest: &[u8; 32]) -> [u8; 64]
    ensures { result ≡ digest.now ++ replicate 32 0 }
{
    let mut bytes = [0u8; 64];
    let (front, _) = bytes.split_at_mut(32);
    front.copy_from_slice(digest);
    bytes
}

// Returns the first 32 of 64 bytes.
fn first_32(bytes: &[u8; 64]) -> [u8; 32]
    ensures { result ≡ take 32 bytes.now }
{
    let mut digest = [0u8; 32];
    let (front, _) = bytes.split_at(32);
    digest.copy_from_slice(front);
    digest
}

impl ListValue {
    /// Writes the two Ed25519 checks of a list's signature to `questions`, as `State::ask_strictly`
    /// and `State::digest` do for data. Legacy signatures are rejected. If `list_name` is given,
    /// the trusted comment must have exactly this name in its first `file:` field. Returns false,
    /// and writes nothing, if the only problem is that the key or a signature is weak.
    pub fn ask(
        &mut self,
        key: &PublicKeyValue,
        signature: &SignatureValue,
        sig_text: &[u8],
        list_name: Option<&[u8]>,
        text: &[u8],
        questions: &mut Questions,
        message: &mut [u8],
    ) -> std::result::Result<bool, Refusal>
        // The result is that of `State::ask_strictly` for a new state, without legacy signatures.
        ensures value { result ≡ asked_strictly (is_strict_value key.now signature.now)
            (check_ask_arguments key.now signature.now sig_text.now false (length message.old)) }

        // If the signature was read from this text, the result is the same as if the text were parsed here
        // and checked under this key.
        ensures text { (t : SignatureTextRecord) → IsReadFrom signature.now sig_text.now t
            → result ≡ asked_strictly (is_strict_text key.now t) (with_public_key key.now
            (check_buffer_if_read (read_under key.now false sig_text.now) (length message.old))) }

        // **If the result is true and the signature was read from this text, the questions are those about
        // the key and the text, with the digest of the list. The struct records the digest, whether the
        // comment signature has at least 64 bytes, and whether the trusted comment names the list.**
        ensures asked { result ≡ Ok true → (t : SignatureTextRecord) → IsReadFrom signature.now sig_text.now t
            → (read_under key.now false sig_text.now ≡ Ok t)
            × AreQuestions questions.new message.new key.now t
            × (questions.new.digest ≡ blake2b_digest 64 text.now) × (self.new ≡ asked_list key.now
            signature.now (option_map (λ n. n.now) list_name.entry) text.now t.comments.trusted) }

        // If the result is true, whatever the signature was read from: the list records what it was asked
        // about, the questions are those about the key and the signature, with the digest of the list, and
        // the message is the data signature followed by the trusted comment.
        ensures list { result ≡ Ok true → (c : List ℕ) → comment_of signature.now sig_text.now ≡ Ok c
            → self.new ≡ asked_list key.now signature.now (option_map (λ n. n.now) list_name.entry)
            text.now c }
        ensures questions { result ≡ Ok true
            → questions.new ≡ record (questions_for_value key.now signature.now)
            { digest = blake2b_digest 64 text.now } }
        ensures message { result ≡ Ok true → HoldsCommentMessage signature.now sig_text.now message.new }

        // If the result is true, the buffer after the message is unchanged. Otherwise the list, the questions
        // and the buffer are unchanged.
        ensures rest_unchanged { result ≡ Ok true
            → drop questions.new.message_len message.new ≡ drop questions.new.message_len message.old }
        ensures unchanged { result ≢ Ok true
            → (self.new ≡ self.old) × (questions.new ≡ questions.old) × (message.new ≡ message.old) }
    {
        match ask_once(key, signature, sig_text, questions, message) {
            Ok(true) => {
                let digest = digest_of(text);
                questions.digest = digest;
                *self = asked_list(key, signature, list_name, digest, message);
                Ok(true)
            }
            Ok(false) => Ok(false),
            Err(refusal) => Err(refusal),
        }
    }

    /// Decides from the results of the two Ed25519 checks whether the list is verified.
    pub fn verdict(
        &mut self,
        first: bool,
        second: bool,
    ) -> std::result::Result<(), Refusal<ListFault>>
        // **After a successful `ask` about a signature that was read from its file, for every scheme for
        // which `first` and `second` are the results of the two checks: the result is success exactly if the
        // signature file is a valid prehashed signature of the list under the key, and its trusted comment
        // names the list if a name was given. Otherwise the error is that of the first check that fails.**
        ensures verdict { (v : PublicKeyValue) (sig_text text : List ℕ) (name : Option (List ℕ))
            (accepts : Verifier) → HasAskedList self.old v sig_text name text
            → Answers accepts v sig_text text first second
            → result ≡ given_list (list_verdict_under accepts v sig_text name text) }

        // The list is verified exactly if it was asked about, both checks succeed, the comment signature has
        // at least 64 bytes, and the trusted comment names the list if it must. Otherwise the error is that
        // of the first check that fails. After `NotAsked` the list is unchanged, and after any other error
        // it is finished.
        ensures value { (result, self.new) ≡ list_verdict_outcome self.old first second }
    {
        self.decide(first, second)
    }

    // Decides from the results of the two Ed25519 checks whether the list is verified.
    fn decide(&mut self, first: bool, second: bool) -> std::result::Result<(), Refusal<ListFault>>
        ensures { (result, self.new) ≡ list_verdict_outcome self.old first second }
    {
        if self.mark != ASKED {
            return Err(Refusal::WrongUse(Misuse::NotAsked));
        }
        self.mark = 0;
        if let Err(fault) = verdict(self.whole == 1, first, second) {
            return Err(Refusal::Refused(fault.into()));
        }
        if self.is_named != 1 {
            return Err(Refusal::Refused(ListFault::OtherList));
        }
        self.mark = VERIFIED;
        Ok(())
    }

    // Succeeds if the list was verified and `text` is the list.
    fn test_text(&self, text: &[u8]) -> std::result::Result<(), Misuse>
        ensures { result ≡ text_check self.now text.now }
    {
        if self.mark != VERIFIED {
            return Err(Misuse::ListNotVerified);
        }
        if !same(&digest_of(text), &self.text_digest) {
            return Err(Misuse::OtherListText);
        }
        Ok(())
    }

    // Returns the text as a `str`, if the list was verified and `text` is the list.
    fn text<'a>(&self, text: &'a [u8]) -> std::result::Result<&'a str, Refusal<ListFault>>
        ensures { mapped (λ t. t.now) result ≡ verified_text self.now text.now }
    {
        match self.test_text(text) {
            Ok(()) => utf8(text),
            Err(misuse) => Err(Refusal::WrongUse(misuse)),
        }
    }

    // Returns the only entry of a name. `text` must be the list that was verified.
    fn find_entry<'a>(
        &self,
        text: &'a [u8],
        long: LongDigest,
        name: &[u8],
    ) -> std::result::Result<EntryView<'a>, Refusal<ListFault>>
        ensures { result ≡ found_entry self.now text.now long name.now }
    {
        let list = self.text(text)?;
        let name = utf8(name)?;
        match find_listed(long, list, name) {
            Ok(entry) => Ok(entry),
            Err(fault) => Err(Refusal::Refused(fault)),
        }
    }

    /// Finds the only entry of a name. `text` must be the list that was verified.
    pub fn find(
        &self,
        text: &[u8],
        long: LongDigest,
        name: &[u8],
        entry: &mut EntryValue,
    ) -> std::result::Result<(), Refusal<ListFault>>
        // On success, the entry is the only one of the name in the list that was verified, and every line of
        // the list is well formed. Otherwise the error is that of the first check that fails, and the entry
        // is unchanged.
        ensures value { (result, entry.new)
            ≡ entry_outcome (found_entry self.now text.now long name.now) text.now entry.old }

        // On success, the digest that `begin` takes from the entry is the one in the list.
        ensures digest { OnOk result ((e : Entry) → found_entry self.now text.now long name.now ≡ Ok e
            → entry_digest entry.new ≡ Ok e.digest) }
    {
        match self.find_entry(text, long, name) {
            Ok(found) => {
                *entry = EntryValue::of_view(&found, line_start(text, found.line));
                Ok(())
            }
            Err(refusal) => Err(refusal),
        }
    }

    /// Writes all entries to the start of a buffer, and returns how many there are. `text` must be
    /// the list that was verified.
    pub fn entries(
        &self,
        text: &[u8],
        long: LongDigest,
        to: &mut [EntryValue],
    ) -> std::result::Result<usize, Refusal<ListFault>>
        // On success, every line of the list that was verified is well formed, the buffer begins with all
        // entries, in the order of their lines, and its rest is unchanged. Otherwise the error is that of
        // the first check that fails, and the buffer is unchanged.
        ensures { (result, to.new) ≡ entries_outcome (all_entries self.now text.now long) text.now to.old }
    {
        match self.count(text, long) {
            Ok(count) => {
                if count > to.len() {
                    return Err(Refusal::WrongUse(Misuse::NoRoom));
                }
                write_entries(long, text, to);
                Ok(count)
            }
            Err(refusal) => Err(refusal),
        }
    }

    // Returns the number of entries. `text` must be the list that was verified.
    fn count(&self, text: &[u8], long: LongDigest) -> std::result::Result<usize, Refusal<ListFault>>
        ensures { result ≡ mapped length (all_entries self.now text.now long) }
    {
        let list = self.text(text)?;
        match count_entries(long, list) {
            Ok(count) => Ok(count),
            Err(fault) => Err(Refusal::Refused(fault)),
        }
    }
}

// Writes the questions as `State::ask_strictly` does for a new state. Legacy signatures are
// rejected.
fn ask_once(
    key: &PublicKeyValue,
    signature: &SignatureValue,
    sig_text: &[u8],
    questions: &mut Questions,
    message: &mut [u8],
) -> std::result::Result<bool, Refusal>
    ensures value { result ≡ asked_strictly (is_strict_value key.now signature.now)
        (check_ask_arguments key.now signature.now sig_text.now false (length message.old)) }
    ensures text { (t : SignatureTextRecord) → IsReadFrom signature.now sig_text.now t
        → result ≡ asked_strictly (is_strict_text key.now t) (with_public_key key.now
        (check_buffer_if_read (read_under key.now false sig_text.now) (length message.old))) }
    ensures asked { result ≡ Ok true → (t : SignatureTextRecord) → IsReadFrom signature.now sig_text.now t
        → (read_under key.now false sig_text.now ≡ Ok t) × AreQuestionsWithoutDigest questions.new
        message.new key.now t }
    ensures room { result ≡ Ok true → 64 + signature.now.comment_len ≤ length message.old }
    ensures questions { result ≡ Ok true → questions.new ≡ questions_for_value key.now signature.now }
    ensures message { result ≡ Ok true → HoldsCommentMessage signature.now sig_text.now message.new }
    ensures rest_unchanged { result ≡ Ok true
        → drop questions.new.message_len message.new ≡ drop questions.new.message_len message.old }
    ensures unchanged { result ≢ Ok true → (questions.new ≡ questions.old) × (message.new ≡ message.old) }
{
    let mut state = State::new();
    state.ask_strictly(key, signature, sig_text, false, questions, message)
}

// Returns the struct of a list after `ask`. The text of the list has this digest, and `message` begins with
// the message of the second check: the data signature followed by the trusted comment.
fn asked_list(
    key: &PublicKeyValue,
    signature: &SignatureValue,
    list_name: Option<&[u8]>,
    text_digest: [u8; 64],
    message: &[u8],
) -> ListValue
    requires { 64 + signature.now.comment_len ≤ length message.now }
    ensures { (text : List ℕ) → text_digest ≡ blake2b_digest 64 text → result ≡ asked_list key.now
        signature.now (option_map (λ n. n.now) list_name.entry) text
        (take signature.now.comment_len (drop 64 message.now)) }
{
    let (_, rest) = message.split_at(64);
    let (comment, _) = rest.split_at(signature.comment_len as usize);
    ListValue {
        mark: ASKED,
        text_digest,
        key_id: key.key_id,
        whole: u32::from(signature.whole),
        is_named: is_named(list_name, comment),
    }
}

// Returns 1 if no name of the list is given, or the first `file:` field of the trusted comment has
// this name, otherwise 0.
fn is_named(list_name: Option<&[u8]>, comment: &[u8]) -> u32
    ensures { result ≡ named_number (option_map (λ n. n.now) list_name.entry) comment.now }
{
    match list_name {
        Some(list_name) if !field_names_list(comment, list_name) => 0,
        _ => 1,
    }
}

// Returns the Blake2b digest of a text, of 64 bytes.
fn digest_of(text: &[u8]) -> [u8; 64]
    ensures { result ≡ blake2b_digest 64 text.now }
{
    let mut digest = [0u8; 64];
    Blake2b::blake2b(&mut digest, text);
    digest
}

// Returns the text as a `str`, or `NotUtf8`.
pub(crate) fn utf8(text: &[u8]) -> std::result::Result<&str, Refusal<ListFault>>
    ensures { mapped (λ t. t.now) result ≡ utf8_text text.now }
{
    match str::from_utf8(text) {
        Ok(text) => Ok(text),
        Err(_) => Err(Refusal::Refused(ListFault::from(NamedFault::NotUtf8))),
    }
}

// Returns the number of entries of a list.
fn count_entries(long: LongDigest, list: &str) -> Result<usize>
    ensures { result ≡ map_ok length (read_list long list.now) }
{
    let mut entries = Entries::new(long, list);
    let mut count = 0usize;
    'entries: while let Some(_) = entries.next_entry()? {
        count += 1;
    }
    Ok(count)
}

// Writes the entries of a well-formed list, as many as fit into the buffer.
fn write_entries(long: LongDigest, text: &[u8], to: &mut [EntryValue])
    ensures { (es : List Entry) → read_list long text.now ≡ Ok es → length es ≤ length to.old
        → to.new ≡ map (value_in text.now) es ++ drop (length es) to.old }
{
    let mut rest = text;
    let mut line_number = 0u64;
    let mut count = 0usize;
    'lines: while let Some((line, more)) = next_line(rest) {
        let start = text.len() - rest.len();
        rest = more;
        line_number += 1;
        count = put_entry(read_line(long, line_number, line), start, to, count);
    }
}

// Writes the entry of a line that begins at this position, if the line has one and it fits into the buffer.
fn put_entry(
    read: Result<Option<EntryView<'_>>>,
    start: usize,
    to: &mut [EntryValue],
    count: usize,
) -> usize
    ensures { (result, to.new) ≡ put_entry read.entry start to.old count }
{
    let entry = match read {
        Ok(entry) => entry,
        Err(fault) => {
            // Dropping the error could free memory, which the WebAssembly module of the web page
            // cannot do.
            forget(fault);
            return count;
        }
    };
    let Some(entry) = entry else {
        return count;
    };
    if count >= to.len() {
        return count;
    }
    to[count] = EntryValue::of_view(&entry, start);
    count + 1
}

// Returns the position at which the line with this number begins.
fn line_start(text: &[u8], number: u64) -> usize
    ensures { result ≡ line_start number text.now }
{
    let mut rest = text;
    let mut line_number = 1u64;
    'lines: while line_number < number {
        rest = after_line(rest);
        line_number += 1;
    }
    text.len() - rest.len()
}

impl EntryValue {
    // Returns the struct for an entry on a line that begins at this position.
    fn of_view(entry: &EntryView<'_>, line_start: usize) -> EntryValue
        ensures value { result ≡ entry_value entry.now ((line_start + entry.now.start) % 2 ^ 64) }
        ensures digest { entry_digest result ≡ Ok entry.now.digest }
    {
        EntryValue {
            mark: READ,
            line: entry.line,
            name_offset: line_start.wrapping_add(entry.start) as u64,
            name_len: entry.name.len() as u64,
            digest: entry.digest.padded(),
            hash: entry.digest.algorithm().number(),
            is_escaped: u32::from(entry.escaped),
        }
    }

    // Returns the digest of an entry that was read.
    fn listed_digest(&self) -> std::result::Result<ListedDigest, Misuse>
        ensures { result ≡ entry_digest self.now }
    {
        match Algorithm::of_number(self.hash) {
            Some(algorithm) if self.mark == READ => {
                Ok(ListedDigest::of_padded(algorithm, &self.digest))
            }
            _ => Err(Misuse::EntryNotRead),
        }
    }

    /// Compares the digest of the entry with one that the caller computed with its own hash
    /// function. The result is only as good as that function.
    pub fn compare_trusting_your_hash(
        &self,
        hash: u32,
        digest: &[u8],
    ) -> std::result::Result<(), Refusal<ListFault>>
        // On success, these bytes are the digest of the entry, and this is its hash function. Nothing is
        // said about any data. Otherwise the error is that of the first check that fails.
        ensures { result ≡ compared self.now hash digest.now }
    {
        match given_digest(hash, digest) {
            Some(given) => self.compare(given),
            None => Err(Refusal::WrongUse(Misuse::BadHash)),
        }
    }

    // Compares the digest of the entry with a given one, which must be of the same hash function.
    fn compare(&self, given: ListedDigest) -> std::result::Result<(), Refusal<ListFault>>
        ensures { result ≡ compared_digest self.now given }
    {
        if self.mark == READ && self.hash != given.algorithm().number() {
            return Err(Refusal::WrongUse(Misuse::BadHash));
        }
        if self.mark != READ {
            return Err(Refusal::WrongUse(Misuse::EntryNotRead));
        }
        if !same(&given.padded(), &self.digest) {
            return Err(Refusal::Refused(ListFault::DigestMismatch));
        }
        Ok(())
    }
}

/// Returns these bytes as a digest of the hash function with this number, or `None` if there is no
/// such hash function or its digests have another length.
pub fn given_digest(hash: u32, bytes: &[u8]) -> Option<ListedDigest>
    ensures { result ≡ given_digest hash bytes.now }
{
    match Algorithm::of_number(hash) {
        Some(algorithm) => ListedDigest::of_bytes(algorithm, bytes),
        None => None,
    }
}

#[tactic(auto, unfolding(crate::specs::Values::IsFedValue, crate::specs::Pieces::IsFedCheck, crate::specs::Pieces::IsUsable))]
impl FileValue {
    /// Returns a state without a check, which the caller replaces by the result of `begin`. Does
    /// not allocate.
    pub fn none() -> FileValue
        // No check has been begun in the state.
        ensures mark { result.mark ≡ 0 }
        ensures reserved { result.reserved ≡ replicate 4 0 }
    {
        FileValue {
            mark: 0,
            hash: 0,
            digest: [0; 64],
            sha256: StoredSha256 {
                h: [0; 8],
                buffer: [0; 64],
                count: 0,
            },
            sha512: StoredSha512 {
                h: [0; 8],
                buffer: [0; 128],
                count_low: 0,
                count_high: 0,
            },
            blake2b: StoredBlake2b {
                h: [0; 8],
                count_low: 0,
                count_high: 0,
                used: 0,
                buffer: [0; 256],
            },
            reserved: [0; 4],
        }
    }

    // Returns the struct for a check against a SHA-256 digest.
    fn store_256(hasher: &Sha256, digest: &[u8; 32]) -> FileValue
        ensures mark { (result.mark ≡ file_mark) × (result.hash ≡ 1) }
        ensures reserved { result.reserved ≡ replicate 4 0 }
        ensures digest { take 32 result.digest ≡ digest.now }
        ensures fed { (m : List ℕ) → IsFed256 hasher.now m → WasFed256 result.sha256 m }
    {
        let mut value = FileValue::none();
        let stored = StoredSha256::store(hasher);
        let bytes = padded(digest);
        value.mark = BEGUN;
        value.hash = 1;
        value.digest = bytes;
        value.sha256 = stored;
        value
    }

    // Returns the struct for a check against a SHA-512 digest.
    fn store_512(hasher: &Sha512, digest: &[u8; 64]) -> FileValue
        ensures mark { (result.mark ≡ file_mark) × (result.hash ≡ 2) }
        ensures reserved { result.reserved ≡ replicate 4 0 }
        ensures digest { result.digest ≡ digest.now }
        ensures fed { (m : List ℕ) → IsFed512 hasher.now m → WasFed512 result.sha512 m }
    {
        let mut value = FileValue::none();
        let stored = StoredSha512::store(hasher);
        let bytes = *digest;
        value.mark = BEGUN;
        value.hash = 2;
        value.digest = bytes;
        value.sha512 = stored;
        value
    }

    // Returns the struct for a check against a BLAKE2b digest.
    fn store_blake2b(hasher: &Blake2b, digest: &[u8; 64]) -> FileValue
        requires { output_length hasher.now ≡ 64 }
        ensures mark { (result.mark ≡ file_mark) × (result.hash ≡ 3) }
        ensures reserved { result.reserved ≡ replicate 4 0 }
        ensures digest { result.digest ≡ digest.now }
        ensures fed { (m : List ℕ) → IsFed hasher.now m → WasFed result.blake2b m }
    {
        let mut value = FileValue::none();
        let stored = StoredBlake2b::store(hasher);
        let bytes = *digest;
        value.mark = BEGUN;
        value.hash = 3;
        value.digest = bytes;
        value.blake2b = stored;
        value
    }

    // Returns the struct for a check.
    fn store(check: &FileCheck) -> FileValue
        requires { IsUsable check.now }
        ensures fed { (d : ListedDigest) (m : List ℕ) → IsFedCheck check.now d m → IsFedValue result d m }
        ensures reserved { result.reserved ≡ replicate 4 0 }
    {
        match check {
            FileCheck::Sha256(hasher, digest) => FileValue::store_256(hasher, digest),
            FileCheck::Sha512(hasher, digest) => FileValue::store_512(hasher, digest),
            FileCheck::Blake2b(hasher, digest) => FileValue::store_blake2b(hasher, digest),
        }
    }

    // Returns the check that is stored in the struct.
    fn restore(&self) -> std::result::Result<FileCheck, Misuse>
        ensures fed { (d : ListedDigest) (m : List ℕ) → IsFedValue self.now d m
            → MatchResult result (λ c. IsFedCheck c d m) (λ _. ⊥) }
        ensures usable { IfOk result IsUsable }
        ensures is_begun { OnOk result (self.now.mark ≡ file_mark) }
        ensures refused { IfErr result (λ e. (e ≡ NotBegun)
            × ((d : ListedDigest) (m : List ℕ) → ¬ (IsFedValue self.now d m))) }
    {
        if self.mark != BEGUN {
            return Err(Misuse::NotBegun);
        }
        match self.hash {
            1 => Ok(FileCheck::Sha256(self.sha256.restore(), first_32(&self.digest))),
            2 => Ok(FileCheck::Sha512(self.sha512.restore(), self.digest)),
            3 => match self.blake2b.restore() {
                Some(hasher) => Ok(FileCheck::Blake2b(hasher, self.digest)),
                None => Err(Misuse::NotBegun),
            },
            _ => Err(Misuse::NotBegun),
        }
    }

    /// Begins a check of data against the digest of an entry.
    pub fn begin(entry: &EntryValue) -> std::result::Result<FileValue, Misuse>
        // On success, the state has the digest of the entry to compare with, and was fed no data. The only
        // error is that the entry was not read.
        ensures { MatchResult result
            (λ f. (d : ListedDigest) × (entry_digest entry.now ≡ Ok d) × IsFedValue f d [])
            (λ e. entry_digest entry.now ≡ Err e) }
    {
        Ok(FileValue::store(&FileCheck::new(entry.listed_digest()?)))
    }

    /// Feeds the next piece of the data.
    pub fn update(&mut self, piece: &[u8]) -> std::result::Result<(), Misuse>
        // On success, the piece is appended to the data that the state was fed, and the reserved fields are
        // 0. The call fails only if no check was begun; then the state is unchanged.
        ensures fed { (d : ListedDigest) (m : List ℕ) → IsFedValue self.old d m
            → MatchResult result (λ _. IsFedValue self.new d (m ++ piece.now)) (λ _. ⊥) }
        ensures reserved { OnOk result (self.new.reserved ≡ replicate 4 0) }
        ensures was_begun { OnOk result (self.old.mark ≡ file_mark) }
        ensures refused { IfErr result (λ e. (e ≡ NotBegun) × (self.new ≡ self.old)
            × ((d : ListedDigest) (m : List ℕ) → ¬ (IsFedValue self.old d m))) }
    {
        let mut check = self.restore()?;
        check.update(piece);
        *self = FileValue::store(&check);
        Ok(())
    }

    /// Decides whether the data that was fed has the digest of the entry, and finishes the state.
    pub fn finish(&mut self) -> std::result::Result<(), Refusal<ListFault>>
        // **The result is success exactly if all data that the state was fed has the digest of the entry.**
        ensures fed { (d : ListedDigest) (m : List ℕ) → IsFedValue self.old d m
            → result ≡ (if has_digest d m then Ok tt else Err (Refused DigestMismatch)) }

        // If no check was begun, the error is `NotBegun`, and the state is unchanged. Otherwise the state is
        // finished.
        ensures finished { OnOk result (IsFinished self.old self.new) }
        ensures refused { IfErr result (IsFinishRefusal self.old self.new) }
    {
        let check = self.restore()?;
        self.mark = 0;
        if !check.finish() {
            return Err(Refusal::Refused(ListFault::DigestMismatch));
        }
        Ok(())
    }
}
