//! Makes the calls of `include/minisign.h` in the order in which an application makes them, so that
//! contracts can state what the whole sequence does, however the data is split. The functions exist only for
//! their contracts: no program calls them.

ghost use Rattle.std.specs.Prelude.{option_copied, ◌≡◌, ◌==◌, ◌<◌, ◌≤◌, ◌+◌, ◌++◌, ℕ, List, [], None, Ok};
ghost use Rattle.std.specs.Prelude.{false, true, drop, is_ok, length, take};
ghost use Rattle.minisign_base.specs.Fault.{Fault};
ghost use Rattle.minisign_hash.specs.Blake2b.{blake2b_digest};
ghost use Rattle.minisign.specs.KeyTexts.{read_public_key};
ghost use Rattle.minisign.specs.Records.{SecretKeyRecord};
ghost use Rattle.minisign.specs.SignatureText.{SignatureTextRecord};
ghost use Rattle.minisign.specs.Texts.{and_then};
ghost use Rattle.minisign.specs.Signing.{comments_of};
ghost use Rattle.minisign_external.specs.Numbers.{IsAnswer, answer_yes, fault_number, misuse_number};
ghost use Rattle.minisign_external.specs.Numbers.{refusal_number};
ghost use Rattle.minisign_external.specs.PublicKeys.{is_public_key, read_utf8, value_of};
ghost use Rattle.minisign_external.specs.Questions.{read_under, verdict_under};
ghost use Rattle.minisign_external.specs.SecretKeys.{IsOpeningRefusal, IsTextOpeningRefusal, is_read};
ghost use Rattle.minisign_external.specs.SecretKeys.{is_opened, open_record, public_value_of};
ghost use Rattle.minisign_external.specs.SecretKeys.{opened_key_value};
ghost use Rattle.minisign_external.specs.declared.state.Misuse.TheVariants.{KeyNotOpened};
ghost use Rattle.minisign_external.specs.SecretKeys.{unopened_record};
ghost use Rattle.minisign_external.specs.Signatures.{IsReadFrom};
ghost use Rattle.minisign_external.specs.Signing.{HoldsSignedFile, IsSigningRefusal, IsPairOf};
ghost use Rattle.minisign_external.specs.Signing.{joined};
ghost use Rattle.minisign_external.specs.States.{AreQuestionsWithoutDigest, WasAskedAbout, IsFedState};
ghost use Rattle.minisign_external.specs.States.{KeepsQuestions, verdict_number};
ghost use Rattle.minisign_external.specs.StrictCalls.{VerifiesStrictlyForRecord, VerifiesStrictly};
ghost use Rattle.minisign_external.specs.StrictCalls.{number_with_key};
ghost use Rattle.minisign_external.specs.StrictCalls.{strict, strict_verdict_number};
ghost use Rattle.minisign_external.specs.declared.public_keys.PublicKeyValue.{PublicKeyValue};
ghost use Rattle.minisign_external.specs.declared.state.Refusal.{Refusal};
ghost use Rattle.minisign_c.specs.KeyTexts.{IsSigningNumber, opened_by};

use crate::{
    minisign_ask, minisign_comment_message, minisign_digest, minisign_init,
    minisign_open_sealed_key, minisign_open_unsealed_key, minisign_public_key_of,
    minisign_read_public_key, minisign_read_secret_key, minisign_read_signature,
    minisign_signed_text, minisign_update, minisign_verdict,
};
use minisign::Scheme;
use minisign_external::numbers::{ANSWER_NO, ANSWER_YES};
use minisign_external::pieces::results_decide_verdict;
use minisign_external::public_keys::PublicKeyValue;
use minisign_external::secrets::SecretKeyValue;
use minisign_external::signatures::SignatureValue;
use minisign_external::state::{Questions, State};
use minisign_external::unopened_keys::{KeyText, UnopenedKeyValue};
use std::alloc::Global;

/// Verifies the concatenated pieces with a public key file and a signature file. Returns the first error
/// number other than 0 that a call returns, or else the number that `minisign_verdict` returns. `room` is a
/// buffer for the message of the comment signature. It must have at least as many bytes as the signature
/// file.
pub fn verify_in_sequence<S: Scheme>(
    scheme: &S,
    pk_text: &[u8],
    sig_text: &[u8],
    pieces: &[&[u8]],
    room: &mut [u8],
) -> u32
    requires { length sig_text.now ≤ length room.old }

    // **For every scheme, files and data, however the data is split: the result is 0 exactly if the signature
    // file is a valid prehashed signature of the concatenated data under the public key file, and neither the
    // public key nor a signature in the signature file is weak. Otherwise it is the error number of the first
    // check that fails. A weak key or signature has an error number of its own, whatever the scheme
    // returns.**
    ensures number { result ≡ number_with_key (read_utf8 read_public_key pk_text.now) (λ k.
        strict_verdict_number (S.accepts scheme.now) (value_of k) sig_text.now (joined pieces.now) false) }

    // **So the result is 0 exactly if the verdict is success for the strict scheme, which rejects weak public
    // keys and signatures, and otherwise accepts what the scheme accepts.**
    ensures accepted { (result == 0) ≡ is_ok (and_then (read_utf8 read_public_key pk_text.now) (λ k.
        verdict_under (strict (S.accepts scheme.now)) (value_of k) sig_text.now (joined pieces.now) false)) }
{
    let mut key = no_public_key();
    let number = minisign_read_public_key(pk_text, &mut key);
    if number != 0 {
        return number;
    }
    verify_under(scheme, &key, sig_text, pieces, room)
}

// Verifies the concatenated pieces with a public key that was read.
fn verify_under<S: Scheme>(
    scheme: &S,
    key: &PublicKeyValue,
    sig_text: &[u8],
    pieces: &[&[u8]],
    room: &mut [u8],
) -> u32
    requires key { is_public_key key.now ≡ true }
    requires room { length sig_text.now ≤ length room.old }
    ensures { result ≡ strict_verdict_number (S.accepts scheme.now) key.now sig_text.now (joined pieces.now)
        false }
{
    let mut signature = no_signature();
    let number = minisign_read_signature(sig_text, &mut signature);
    if number != 0 {
        return number;
    }
    verify_read(scheme, key, &signature, sig_text, pieces, room)
}

// Returns an empty struct for a signature.
pub(crate) fn no_signature() -> SignatureValue {
    SignatureValue {
        mark: 0,
        key_id: [0; 8],
        signature: [0; 64],
        comment_signature: [0; 64],
        comment_offset: 0,
        comment_len: 0,
        text_digest: [0; 32],
        algorithm: [0; 2],
        legacy: 0,
        whole: 0,
        reserved: 0,
    }
}

// Verifies the concatenated pieces with a public key and a signature that were read.
fn verify_read<S: Scheme>(
    scheme: &S,
    key: &PublicKeyValue,
    signature: &SignatureValue,
    sig_text: &[u8],
    pieces: &[&[u8]],
    room: &mut [u8],
) -> u32
    requires key { is_public_key key.now ≡ true }
    requires room { length sig_text.now ≤ length room.old }
    requires read { (t : SignatureTextRecord) × IsReadFrom signature.now sig_text.now t }
    ensures { result ≡ strict_verdict_number (S.accepts scheme.now) key.now sig_text.now (joined pieces.now)
        false }
{
    let mut state = State::new();
    minisign_init(&mut state);
    let mut questions = Questions::none();
    let number = minisign_ask(
        &mut state,
        key,
        signature,
        sig_text,
        0,
        &mut questions,
        room,
    );
    if number != 0 {
        return number;
    }
    let number = feed(&mut state, pieces);
    if number != 0 {
        return number;
    }
    answer(scheme, &mut state, &questions, room)
}

// Feeds one piece after another.
fn feed(state: &mut State, pieces: &[&[u8]]) -> u32
    requires { IsFedState state.old [] }
    ensures fed { (result ≡ 0) × IsFedState state.new (joined pieces.now) }
    ensures questions_kept { KeepsQuestions state.old state.new }
{
    'pieces: for piece in pieces {
        let number = minisign_update(state, *piece);
        if number != 0 {
            return number;
        }
    }
    0
}

// Computes the digest, lets the scheme check both signatures, and returns the error number of the verdict.
fn answer<S: Scheme>(scheme: &S, state: &mut State, questions: &Questions, room: &[u8]) -> u32
    requires { questions.now.message_len ≤ length room.now }
    ensures { (v : PublicKeyValue) (text m : List ℕ) (t : SignatureTextRecord) → IsFedState state.old m
        → WasAskedAbout state.old v text false → read_under v false text ≡ Ok t
        → AreQuestionsWithoutDigest questions.now room.now v
        t → result ≡ verdict_number (verdict_under (S.accepts scheme.now) v text m false) }
{
    // This call has no effect. It gives the prover a law that the contract needs.
    results_decide_verdict();
    let mut digest = [0u8; 64];
    let number = minisign_digest(state, &mut digest);
    if number != 0 {
        return number;
    }
    let first = scheme.verify(&digest, &questions.public_key, &questions.signature);
    let second = scheme.verify(
        &room[..questions.message_len as usize],
        &questions.public_key,
        &questions.comment_signature,
    );
    minisign_verdict(state, answer_of(first), answer_of(second))
}

// Converts a result of the scheme to the answer that `minisign_verdict` takes.
pub(crate) fn answer_of(is_accepted: bool) -> u32
    ensures is_answer { IsAnswer result }
    ensures yes_if_accepted { (result == answer_yes) ≡ is_accepted }
{
    if is_accepted { ANSWER_YES } else { ANSWER_NO }
}

/// Signs the concatenated pieces with a secret key file, which it opens with its password if there is one.
/// Writes the signature file to `text`, and its length to `text_len`. Returns the first error number other
/// than 0 that a call returns, or else 0. `room` is a buffer for the message of the comment signature. It
/// must have at least 64 bytes more than the trusted comment.
pub fn sign_in_sequence<S: Scheme>(
    alloc: Global,
    scheme: &S,
    key_text: &KeyText<'_>,
    pieces: &[&[u8]],
    trusted: &[u8],
    untrusted: &[u8],
    room: &mut [u8],
    text: &mut [u8],
    text_len: &mut usize,
) -> u32
    requires { 64 + length trusted.now ≤ length room.old }

    // **If the result is 0, the secret key file opens to a key, and the signature file that was written
    // verifies under two conditions: the key consists of a seed and the seed's public key, and neither this
    // public key nor one of the two signatures is weak. Verifies means that the verdict on the signature file
    // and the concatenated data, under this public key, is the trusted comment. That verdict uses the strict
    // scheme, which rejects weak public keys and signatures, and otherwise accepts what the scheme accepts.
    // This holds for every scheme and for all data, however it is split.**
    ensures verifies { result ≡ 0 → (k : SecretKeyRecord) × (opened_by key_text.now ≡ Ok k)
        × VerifiesStrictlyForRecord S.Scheme scheme.now k (joined pieces.now) trusted.now
        (take text_len.new text.new) }

    // On success, the signature file contains the two signatures that the scheme makes with the key: the
    // signature of the digest of the concatenated data, and the signature of the concatenation of that
    // signature and the trusted comment. The rest of the buffer is unchanged.
    ensures text { result ≡ 0 → (k : SecretKeyRecord) × (opened_by key_text.now ≡ Ok k)
        × HoldsSignedFile S.Scheme scheme.now (opened_key_value k.keynum k.secret)
        (comments_of trusted.now untrusted.now) (joined pieces.now) text.new text_len.new }
    ensures rest_unchanged { result ≡ 0 → drop text_len.new text.new ≡ drop text_len.new text.old }

    // Any other result is an error number. If the key file does not open, it is the number of an error of
    // opening it. If it opens, it is the number of an error of `minisign_signed_text` for the public half of
    // the key, the comments, the two signatures and the buffer. After an error the buffer and the length are
    // unchanged.
    ensures refused { 0 < result → IsSigningNumber S.Scheme scheme.now key_text.now
        (comments_of trusted.now untrusted.now) (joined pieces.now) text.old result }
    ensures unchanged { 0 < result → (text.new ≡ text.old) × (text_len.new ≡ text_len.old) }
{
    let mut key = no_secret_key();
    let number = open(alloc, key_text, &mut key);
    if number != 0 {
        return number;
    }
    sign_with(
        alloc, scheme, &key, pieces, trusted, untrusted, room, text, text_len,
    )
}

// Returns an empty struct for a public key.
pub(crate) fn no_public_key() -> PublicKeyValue {
    PublicKeyValue {
        mark: 0,
        key: [0; 32],
        key_id: [0; 8],
    }
}

// Returns an empty struct for an open secret key.
fn no_secret_key() -> SecretKeyValue {
    SecretKeyValue {
        mark: 0,
        key_id: [0; 8],
        secret: [0; 64],
    }
}

// Returns an empty struct for a secret key that will be read but not opened.
fn no_unopened_key() -> UnopenedKeyValue {
    UnopenedKeyValue {
        mark: 0,
        bytes: [0; 158],
        is_sealed: 0,
        log2_rows: 0,
        work: 0,
        reserved: 0,
    }
}

// Reads a secret key file and opens the key.
#[tactic(auto, using(crate::proofs::Refusals::reading_refusal))]
fn open(alloc: Global, key_text: &KeyText<'_>, key: &mut SecretKeyValue) -> u32
    ensures opened { result ≡ 0 → (k : SecretKeyRecord) × (opened_by key_text.now ≡ Ok k)
        × (key.new ≡ opened_key_value k.keynum k.secret) }
    ensures refused { 0 < result → (r : Refusal Fault) × (result ≡ refusal_number fault_number r)
        × IsTextOpeningRefusal key_text.now.text.now (option_copied key_text.now.password)
        key_text.now.most_rows r }
    ensures unchanged { 0 < result → key.new ≡ key.old }
{
    let mut unopened = no_unopened_key();
    let number = minisign_read_secret_key(key_text.text, &mut unopened);
    if number != 0 {
        return number;
    }
    open_parsed(alloc, key_text, &unopened, key)
}

// Opens the key that was read, with the password if there is one.
fn open_parsed(
    alloc: Global,
    key_text: &KeyText<'_>,
    unopened: &UnopenedKeyValue,
    key: &mut SecretKeyValue,
) -> u32
    requires { is_read unopened.now ≡ true }
    ensures opened { result ≡ 0 → (k : SecretKeyRecord) × (open_record (unopened_record unopened.now)
        (option_copied key_text.now.password) key_text.now.most_rows ≡ Ok k)
        × (key.new ≡ opened_key_value k.keynum k.secret) }
    ensures refused { 0 < result → (r : Refusal Fault) × (result ≡ refusal_number fault_number r)
        × IsOpeningRefusal (unopened_record unopened.now) (option_copied key_text.now.password)
        key_text.now.most_rows r }
    ensures unchanged { 0 < result → key.new ≡ key.old }
{
    match key_text.password {
        Some(password) => minisign_open_sealed_key(
            alloc,
            unopened,
            password,
            key_text.keep_every,
            key_text.most_rows,
            key,
        ),
        None => minisign_open_unsealed_key(unopened, key),
    }
}

// Signs with an open key.
fn sign_with<S: Scheme>(
    alloc: Global,
    scheme: &S,
    key: &SecretKeyValue,
    pieces: &[&[u8]],
    trusted: &[u8],
    untrusted: &[u8],
    room: &mut [u8],
    text: &mut [u8],
    text_len: &mut usize,
) -> u32
    requires { 64 + length trusted.now ≤ length room.old }
    ensures verifies { result ≡ 0 → VerifiesStrictly S.Scheme scheme.now key.now (joined pieces.now)
        trusted.now (take text_len.new text.new) }
    ensures text { result ≡ 0 → HoldsSignedFile S.Scheme scheme.now key.now
        (comments_of trusted.now untrusted.now) (joined pieces.now) text.new text_len.new }
    ensures rest_unchanged { result ≡ 0 → drop text_len.new text.new ≡ drop text_len.new text.old }
    ensures refused { 0 < result → (r : Refusal Fault) × (result ≡ refusal_number fault_number r)
        × IsSigningRefusal S.Scheme scheme.now key.now (comments_of trusted.now untrusted.now)
        (joined pieces.now) text.old r }
    ensures unchanged { 0 < result → (text.new ≡ text.old) × (text_len.new ≡ text_len.old) }
{
    // This call has no effect. It gives the prover a law that the clause `verifies` needs.
    results_decide_verdict();
    let mut public_key = no_public_key();
    let number = public_half(key, &mut public_key);
    if number != 0 {
        return number;
    }
    let mut digest = [0u8; 64];
    let number = digest_of(pieces, &mut digest);
    if number != 0 {
        return number;
    }
    let first = sign_first(scheme, key, &digest);
    let mut second = [0u8; 64];
    let number = sign_second(scheme, key, &first, trusted, room, &mut second);
    if number != 0 {
        return number;
    }
    minisign_signed_text(
        alloc,
        &public_key,
        &first,
        &second,
        trusted,
        untrusted,
        text,
        text_len,
    )
}

// Writes the public key of an open key.
#[tactic(auto, using(crate::proofs::PublicHalves::half_of_success, crate::proofs::PublicHalves::half_of_error))]
fn public_half(key: &SecretKeyValue, public_key: &mut PublicKeyValue) -> u32
    ensures success { result ≡ 0 → (is_opened key.now ≡ true) × (public_value_of key.now ≡ Ok public_key.new)
        × (public_key.new.key_id ≡ key.now.key_id) }
    ensures refused { 0 < result → (result ≡ misuse_number KeyNotOpened) × (is_opened key.now ≡ false) }
    ensures unchanged { 0 < result → public_key.new ≡ public_key.old }
{
    minisign_public_key_of(key, public_key)
}

// Computes the digest of the concatenated pieces.
fn digest_of(pieces: &[&[u8]], digest: &mut [u8; 64]) -> u32
    ensures { (result ≡ 0) × (digest.new ≡ blake2b_digest 64 (joined pieces.now)) }
{
    let mut state = State::new();
    minisign_init(&mut state);
    let number = feed(&mut state, pieces);
    if number != 0 {
        return number;
    }
    minisign_digest(&mut state, digest)
}

// Returns the scheme's signature of the digest.
fn sign_first<S: Scheme>(scheme: &S, key: &SecretKeyValue, digest: &[u8; 64]) -> [u8; 64]
    ensures signed_by_scheme { result ≡ S.signature_of scheme.now digest.now key.now.secret None }
    ensures accepted { (seed : List ℕ) → IsPairOf (S.public_of scheme.now) seed key.now
        → S.accepts scheme.now digest.now (S.public_of scheme.now seed) result ≡ true }
{
    scheme.signature(digest, &key.secret, None)
}

// Computes the scheme's signature of the concatenation of the first signature and the trusted comment.
fn sign_second<S: Scheme>(
    scheme: &S,
    key: &SecretKeyValue,
    first: &[u8; 64],
    trusted: &[u8],
    room: &mut [u8],
    second: &mut [u8; 64],
) -> u32
    requires { 64 + length trusted.now ≤ length room.old }
    ensures signed_by_scheme { (result ≡ 0)
        × (second.new ≡ S.signature_of scheme.now (first.now ++ trusted.now) key.now.secret None) }
    ensures accepted { (seed : List ℕ) → IsPairOf (S.public_of scheme.now) seed key.now
        → S.accepts scheme.now (first.now ++ trusted.now) (S.public_of scheme.now seed) second.new ≡ true }
{
    let number = minisign_comment_message(first, trusted, room);
    if number != 0 {
        return number;
    }
    *second = scheme.signature(&room[..64 + trusted.len()], &key.secret, None);
    0
}
