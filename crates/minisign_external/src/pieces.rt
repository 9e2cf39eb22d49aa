//! Makes the calls of verifying and signing in the order in which an application in another language makes
//! them, so that contracts can state what the whole sequence does, however the data is split.

ghost use Rattle.std.specs.Prelude.{◌≡◌, ◌≤◌, ◌+◌, ◌++◌, ℕ, List, [], Bool, None, Ok, true, false};
ghost use Rattle.std.specs.Prelude.{length, take, drop, OnErr, IfOk, IfErr, MatchResult};
ghost use Rattle.minisign_hash.specs.Blake2b.{blake2b_digest};
ghost use Rattle.minisign.specs.Acceptance.{Verifier};
ghost use Rattle.minisign.specs.SignatureText.{SignatureTextRecord};
ghost use Rattle.minisign_external.specs.Questions.{Answers, read_under, verdict_under};
ghost use Rattle.minisign_external.specs.SecretKeys.{is_opened, opened_text};
ghost use Rattle.minisign_external.specs.SecretKeys.{public_value_of};
ghost use Rattle.minisign.specs.Records.{SecretKeyRecord};
ghost use Rattle.std.specs.Option.{option_copied};
ghost use Rattle.minisign_external.specs.Signatures.{IsReadFrom};
ghost use Rattle.minisign_external.specs.Signing.{HoldsSignatureFile, IsPairOf, comments_of, HoldsSignedFile};
ghost use Rattle.minisign_external.specs.Signing.{IsSigningRefusal, SignedFileVerifies, joined};
ghost use Rattle.minisign_external.specs.Signing.{IsTextSigningRefusal};
ghost use Rattle.minisign_external.specs.PublicKeys.{is_public_key};
ghost use Rattle.minisign_external.specs.States.{AreQuestionsWithoutDigest, WasAskedAbout, IsFedState};
ghost use Rattle.minisign_external.specs.States.{KeepsQuestions, without_trusted_comment, with_public_key};
ghost use Rattle.minisign_external.specs.declared.public_keys.PublicKeyValue.{PublicKeyValue};
ghost use Rattle.minisign_external.specs.declared.secrets.SecretKeyValue.{SecretKeyValue};
ghost use Rattle.minisign_external.specs.declared.state.Questions.{Questions};
ghost use Rattle.minisign_external.specs.declared.state.Misuse.TheVariants.{KeyNotOpened};

use crate::public_keys::PublicKeyValue;
use crate::secrets::SecretKeyValue;
use crate::signatures::SignatureValue;
use crate::signed_texts::{write_comment_message, write_signed_text};
use crate::state::{Misuse, Questions, Refusal, State};
use crate::unopened_keys::KeyText;
use minisign_base::scheme::Scheme;
use std::alloc::Global;

/// Verifies the concatenated pieces: parses the signature file, asks about the key and the signature, feeds
/// one piece after another, computes the digest, lets the scheme make both checks, and gets the verdict. A
/// legacy signature is never accepted. `room` must have at least as many bytes as the signature file. Does
/// not allocate.
pub fn verify_pieces<S: Scheme>(
    scheme: &S,
    key: &PublicKeyValue,
    sig_text: &[u8],
    pieces: &[&[u8]],
    room: &mut [u8],
) -> Result<(), Refusal>
    requires { length sig_text.now ≤ length room.old }

    // **For every scheme, public key that was read, signature file and data, however the data is split: the
    // result is the verdict on the key, the file and the concatenated data. The call succeeds exactly if the
    // signature is valid and prehashed; otherwise the error is that of the first check that fails. A public
    // key that was not read is API misuse.**
    ensures { result ≡ with_public_key key.now (without_trusted_comment
        (verdict_under (S.accepts scheme.now) key.now sig_text.now (joined pieces.now)
        false)) }
{
    if !key.is_public_key() {
        return Err(Refusal::WrongUse(Misuse::PublicKeyNotRead));
    }
    match SignatureValue::read(sig_text) {
        Ok(signature) => verify_read(scheme, key, &signature, sig_text, pieces, room),
        Err(fault) => Err(Refusal::Refused(fault)),
    }
}

/// Signs the concatenated pieces with an open key: feeds one piece after another, computes the digest, lets
/// the scheme sign it, and then that signature followed by the trusted comment, and writes the signature file
/// to the start of `to`. Returns its length. `room` must have at least 64 bytes more than the trusted
/// comment.
pub fn sign_pieces<S: Scheme>(
    alloc: Global,
    scheme: &S,
    key: &SecretKeyValue,
    pieces: &[&[u8]],
    trusted: &[u8],
    untrusted: &[u8],
    room: &mut [u8],
    to: &mut [u8],
) -> Result<usize, Refusal>
    requires { 64 + length trusted.now ≤ length room.old }

    // **On success, if the secret key consists of a seed and the seed's public key, the signature file that
    // was written verifies: the verdict on it and the concatenated data, under that public key, is the
    // trusted comment. This holds for every scheme and for all data, however it is split.**
    ensures verifies { IfOk result (λ len. (seed : List ℕ) (w : PublicKeyValue) → IsPairOf (S.public_of
        scheme.now) seed key.now → public_value_of key.now ≡ Ok w → verdict_under (S.accepts scheme.now) w
        (take len to.new) (joined pieces.now) false ≡ Ok trusted.now) }

    // On success, the signature file contains the two signatures that the scheme makes with the key: the
    // signature of the digest of the concatenated data, and the signature of the concatenation of that
    // signature and the trusted comment. The rest of the buffer is unchanged.
    ensures text { IfOk result (HoldsSignedFile S.Scheme scheme.now key.now
        (comments_of trusted.now untrusted.now) (joined pieces.now) to.new) }
    ensures rest_unchanged { IfOk result (λ len. drop len to.new ≡ drop len to.old) }

    // The errors are, in this order: the key is not open; those of `write_signed_text` for its public key,
    // these comments and this buffer. After an error the buffer is unchanged.
    ensures refused { IfErr result (IsSigningRefusal S.Scheme scheme.now key.now
        (comments_of trusted.now untrusted.now) (joined pieces.now) to.old) }
    ensures unchanged { OnErr result (to.new ≡ to.old) }
{
    let public_key = public_half(key)?;
    let digest = digest_of(pieces)?;
    let (first, second) = sign_both(scheme, key, &digest, trusted, room)?;
    write_signed_text(alloc, &public_key, &first, &second, trusted, untrusted, to)
}

/// Signs the concatenated pieces with a secret key file: reads and opens it, with its password if there is
/// one, and continues as `sign_pieces`.
pub fn sign_pieces_by_text<S: Scheme>(
    alloc: Global,
    scheme: &S,
    key_text: &KeyText<'_>,
    pieces: &[&[u8]],
    trusted: &[u8],
    untrusted: &[u8],
    room: &mut [u8],
    to: &mut [u8],
) -> Result<usize, Refusal>
    requires { 64 + length trusted.now ≤ length room.old }

    // **On success, the secret key file opens to a key. If that key consists of a seed and the seed's public
    // key, the signature file that was written verifies: the verdict on it and the concatenated data, under
    // that public key, is the trusted comment. This holds for every scheme and for all data, however it is
    // split.**
    ensures verifies { IfOk result (λ len. (k : SecretKeyRecord) ×
        (opened_text key_text.now.text.now (option_copied key_text.now.password) key_text.now.most_rows
        ≡ Ok k)
        × SignedFileVerifies S.Scheme scheme.now k (joined pieces.now) trusted.now (take len to.new)) }

    // The errors are, in this order: those of opening the key file; those of `sign_pieces` with that key.
    // After an error the buffer is unchanged. On success, the rest of the buffer is unchanged.
    ensures refused { IfErr result (IsTextSigningRefusal S.Scheme scheme.now key_text.now.text.now
        (option_copied key_text.now.password) key_text.now.most_rows
        (comments_of trusted.now untrusted.now) (joined pieces.now) to.old) }
    ensures unchanged { OnErr result (to.new ≡ to.old) }
    ensures rest_unchanged { IfOk result (λ len. drop len to.new ≡ drop len to.old) }
{
    match key_text.open(alloc) {
        Ok(key) => sign_pieces(alloc, scheme, &key, pieces, trusted, untrusted, room, to),
        Err(refusal) => Err(refusal),
    }
}

// Verifies the concatenated pieces with a signature that was read from its file.
fn verify_read<S: Scheme>(
    scheme: &S,
    key: &PublicKeyValue,
    signature: &SignatureValue,
    sig_text: &[u8],
    pieces: &[&[u8]],
    room: &mut [u8],
) -> Result<(), Refusal>
    requires room { length sig_text.now ≤ length room.old }
    requires key { is_public_key key.now ≡ true }
    requires read { (t : SignatureTextRecord) × IsReadFrom signature.now sig_text.now t }
    ensures { result ≡ without_trusted_comment
        (verdict_under (S.accepts scheme.now) key.now sig_text.now (joined pieces.now)
        false) }
{
    let mut state = State::new();
    let mut questions = Questions::none();
    match state.ask(key, signature, sig_text, false, &mut questions, room) {
        Ok(()) => {
            feed(&mut state, pieces)?;
            finish(scheme, state, &questions, room)
        }
        Err(refusal) => Err(refusal),
    }
}

// Returns the public key of an open key.
#[tactic(auto, using(crate::proofs::PublicHalves::half_of_success, crate::proofs::PublicHalves::half_of_error))]
fn public_half(key: &SecretKeyValue) -> Result<PublicKeyValue, Misuse>
    ensures success { IfOk result (λ w. (is_opened key.now ≡ true) × (public_value_of key.now ≡ Ok w)
        × (w.key_id ≡ key.now.key_id)) }
    ensures refused { IfErr result (λ m. (m ≡ KeyNotOpened) × (is_opened key.now ≡ false)) }
{
    key.public_key()
}

// Feeds one piece after another.
fn feed(state: &mut State, pieces: &[&[u8]]) -> Result<(), Misuse>
    requires { IsFedState state.old [] }
    ensures fed { MatchResult result (λ _. IsFedState state.new (joined pieces.now))
        (λ _. ⊥) }
    ensures questions_kept { KeepsQuestions state.old state.new }
{
    'pieces: for piece in pieces {
        state.update(*piece)?;
    }
    Ok(())
}

// Computes the digest, lets the scheme make both checks, and returns the verdict.
fn finish<S: Scheme>(
    scheme: &S,
    mut state: State,
    questions: &Questions,
    room: &[u8],
) -> Result<(), Refusal>
    requires { questions.now.message_len ≤ length room.now }
    ensures { (v : PublicKeyValue) (text m : List ℕ) (t : SignatureTextRecord) → IsFedState state m
        → WasAskedAbout state v text false → read_under v false text ≡ Ok t
        → AreQuestionsWithoutDigest questions.now room.now v
        t → result ≡ without_trusted_comment (verdict_under (S.accepts scheme.now) v text m false) }
{
    let mut digest = [0u8; 64];
    state.digest(&mut digest)?;
    let first = scheme.verify(&digest, &questions.public_key, &questions.signature);
    let second = scheme.verify(
        &room[..questions.message_len as usize],
        &questions.public_key,
        &questions.comment_signature,
    );
    state.verdict(first, second)
}

// Returns the digest of the concatenated pieces.
fn digest_of(pieces: &[&[u8]]) -> Result<[u8; 64], Misuse>
    ensures { MatchResult result
        (λ digest. digest ≡ blake2b_digest 64 (joined pieces.now)) (λ _. ⊥) }
{
    let mut state = State::new();
    feed(&mut state, pieces)?;
    let mut digest = [0u8; 64];
    state.digest(&mut digest)?;
    Ok(digest)
}

// Returns the signatures that the scheme makes with a key: the signature of the digest, and the signature of
// the concatenation of that signature and the trusted comment.
fn sign_both<S: Scheme>(
    scheme: &S,
    key: &SecretKeyValue,
    digest: &[u8; 64],
    trusted: &[u8],
    room: &mut [u8],
) -> Result<([u8; 64], [u8; 64]), Misuse>
    requires { 64 + length trusted.now ≤ length room.old }
    ensures signed_by_scheme { MatchResult result
        (λ both. (both.0 ≡ S.signature_of scheme.now digest.now key.now.secret None)
        × (both.1 ≡ S.signature_of scheme.now (both.0 ++ trusted.now) key.now.secret None)) (λ _. ⊥) }
    ensures accepted { IfOk result (λ both. (seed : List ℕ) → IsPairOf (S.public_of scheme.now) seed key.now
        → (S.accepts scheme.now digest.now (S.public_of scheme.now seed) both.0 ≡ true)
        × (S.accepts scheme.now (both.0 ++ trusted.now) (S.public_of scheme.now seed) both.1 ≡ true)) }
{
    let first = scheme.signature(digest, &key.secret, None);
    let len = write_comment_message(&first, trusted, room)?;
    let second = scheme.signature(&room[..len], &key.secret, None);
    Ok((first, second))
}

/// States that a scheme's results of the two checks that `State::ask` asks for are those on which the verdict
/// depends. This function is a law: it does nothing, and exists only for its contract.
#[tactic(auto, using(crate::proofs::ResultsOfQuestions::results_of_questions, crate::proofs::SignedFiles::own_verdict))]
pub fn results_decide_verdict()
    // If the application makes the two checks with its scheme, with the inputs that `State::ask` returned and
    // the digest of a message, then their results are those of the two checks for the key, the signature text
    // and that message. The promise of `State::verdict` needs this.
    ensures results_are_checks { (accepts : Verifier) (v : PublicKeyValue) (text message room digest : List ℕ)
        (t : SignatureTextRecord) (q : Questions) → read_under v false text ≡ Ok t
        → AreQuestionsWithoutDigest q room v t
        → digest ≡ blake2b_digest 64 message → (first second : Bool) → first ≡ accepts digest q.public_key
        q.signature → second ≡ accepts (take q.message_len room) q.public_key q.comment_signature
        → Answers accepts v text message first second }

    // If a scheme accepts both signatures in a signature file (that of the digest of a message, and that of
    // the concatenation of this signature and the trusted comment) under the public key of a seed, then the
    // file verifies under that public key: the verdict on the file and the message is the trusted comment.
    // The file must have been written for the key that consists of the seed and this public key.
    ensures signed_file_verifies { (accepts : Verifier) (public_of : List ℕ
        → List ℕ) (seed : List ℕ) (v : SecretKeyValue)
        (w : PublicKeyValue) → IsPairOf public_of seed v → is_opened v ≡ true → public_value_of v ≡ Ok w
        → (message digest trusted untrusted first second bytes : List ℕ) (len : ℕ) → digest ≡ blake2b_digest
        64 message → length second ≡ 64
        → HoldsSignatureFile v.key_id (comments_of trusted untrusted) first second
        bytes len → (accepts digest (public_of seed) first ≡ true) × (accepts (first ++ trusted) (public_of
        seed) second ≡ true) → verdict_under accepts w (take len bytes) message false ≡ Ok trusted }
{}
