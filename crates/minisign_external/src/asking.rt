//! Verifies with a signature file, for a program in another language that holds the state: writes the inputs
//! of the two Ed25519 checks (the questions), and returns the verdict from their results.

ghost use Rattle.std.specs.Prelude.{◌≡◌, ◌≢◌, ◌<◌, ◌≤◌, ◌+◌, ℕ, Bool, List, Ok, Err, true, OnOk};
ghost use Rattle.std.specs.Prelude.{OnErr, IfOk, IfErr, MatchResult, ◌++◌, length, drop, take};
ghost use Rattle.minisign_hash.specs.Blake2b.{blake2b_digest};
ghost use Rattle.minisign.specs.Acceptance.{Verifier};
ghost use Rattle.minisign.specs.SignatureText.{SignatureTextRecord};
ghost use Rattle.minisign_external.specs.Questions.{Answers, AnswersComment, IsKeyText};
ghost use Rattle.minisign_external.specs.Questions.{comment_verdict_under, read_under, verdict_under};
ghost use Rattle.minisign_external.specs.Signatures.{IsReadFrom, comment_of};
ghost use Rattle.minisign_external.specs.States.{AreQuestionsWithoutDigest, AreQuestions, GivesVerdict};
ghost use Rattle.minisign_external.specs.States.{WasAskedAbout, HoldsCommentMessage, HasReturnedDigest};
ghost use Rattle.minisign_external.specs.States.{IsAskFedRefusal, IsFedState, IsMarkedFinalized};
ghost use Rattle.minisign_external.specs.States.{IsTextRefusal, state_after_asking, check_ask_arguments};
ghost use Rattle.minisign_external.specs.States.{asking_misuse, result_of_asking, result_of_asking_with_text};
ghost use Rattle.minisign_external.specs.States.{comment_result, finalized_mark, without_trusted_comment};
ghost use Rattle.minisign_external.specs.States.{was_asked, is_begun, questions_for_value, check_buffer};
ghost use Rattle.minisign_external.specs.States.{verdict_outcome, verdict_misuse};
ghost use Rattle.minisign_external.specs.StrictCalls.{asked_strictly, is_strict_text, is_strict_value};
ghost use Rattle.minisign_external.specs.declared.public_keys.PublicKeyValue.{PublicKeyValue};
ghost use Rattle.minisign_external.specs.declared.state.Refusal.TheVariants.{WrongUse};

use crate::public_keys::PublicKeyValue;
use crate::signatures::SignatureValue;
use crate::signed_texts::write_comment_message;
use crate::state::{ASKED, Asked, FED, FINALIZED, Misuse, Questions, Refusal, State};
use crate::strict::is_strict_value;
use crate::verdict::{comment_verdict, verdict};
use minisign::judge_key;

impl State {
    /// Writes the inputs of the two Ed25519 checks that verify the data (the questions), usually before any
    /// data is fed. The caller makes the checks. `sig_text` must be the text from which the signature was
    /// read; only its trusted comment is used. The message of the second check is written to the start of
    /// `message`, which needs 64 bytes more than the trusted comment.
    ///
    /// The clause `value` lists the errors in the order in which they are checked. Does not allocate.
    pub fn ask(
        &mut self,
        key: &PublicKeyValue,
        signature: &SignatureValue,
        sig_text: &[u8],
        allow_legacy: bool,
        questions: &mut Questions,
        message: &mut [u8],
    ) -> Result<(), Refusal>
        // Errors are checked in this order: the state was already asked or its digest returned, or it was
        // never initialized; the public key was not read; the signature was not read; the text is not the one
        // that it was read from (compared by digest); the key IDs differ; the signature is a legacy one and
        // these are not allowed; the buffer is too short. If none of them applies, the call succeeds.
        ensures value { result ≡ result_of_asking self.old key.now signature.now sig_text.now allow_legacy
            (length message.old) }

        // If the signature was read from this text, the result is the same as if the text were parsed here
        // and checked under this key.
        ensures text { (t : SignatureTextRecord) → IsReadFrom signature.now sig_text.now t
            → result ≡ result_of_asking_with_text self.old key.now sig_text.now allow_legacy
            (length message.old) }

        // **On success, if the signature was read from this text, `questions` holds the inputs of the two
        // checks for the key and the text, with zeros in place of the digest, and the message of the second
        // check is at the start of the buffer. The state records that it was asked. The data that it was fed
        // is unchanged.**
        ensures asked { OnOk result ((t : SignatureTextRecord) → IsReadFrom signature.now sig_text.now t
            → (read_under key.now allow_legacy sig_text.now ≡ Ok t)
            × AreQuestionsWithoutDigest questions.new message.new
            key.now t × WasAskedAbout self.new key.now sig_text.now allow_legacy) }
        ensures fed { (m : List ℕ) → IsFedState self.old m → IsFedState self.new m }

        // On success, whatever the signature was read from: the state only records that it was asked about
        // this signature, the questions are those for the key and the signature, and the message is the data
        // signature followed by the trusted comment.
        ensures state { OnOk result (self.new ≡ state_after_asking self.old signature.now) }
        ensures questions { OnOk result (questions.new ≡ questions_for_value key.now signature.now) }
        ensures message { OnOk result (HoldsCommentMessage signature.now sig_text.now message.new) }

        // If the signature was read from this text, and the result is an error of the library and not API
        // misuse, then verification with this key and text fails with the same error, for every scheme and
        // every message.
        ensures same_error_as_texts { (t : SignatureTextRecord) → IsReadFrom signature.now sig_text.now t
            → IfErr result (IsTextRefusal key.now sig_text.now allow_legacy) }

        // On success, the buffer after the message is unchanged. After an error, the state, the questions and
        // the buffer are unchanged.
        ensures rest_unchanged { OnOk result
            (drop questions.new.message_len message.new ≡ drop questions.new.message_len message.old) }
        ensures unchanged { OnErr result
            ((self.new ≡ self.old) × (questions.new ≡ questions.old) × (message.new ≡ message.old)) }
    {
        if self.mark != FED || self.was_asked() || self.was_asked_bare() {
            return Err(Refusal::WrongUse(self.asking_misuse()));
        }
        match self.open_questions(key, signature, sig_text, allow_legacy, questions, message) {
            Ok(_) => Ok(()),
            Err(refusal) => Err(refusal),
        }
    }

    /// Writes the questions as `ask` does, but only if neither the key nor a signature is weak (strict
    /// Ed25519 rejects its bytes, whatever the message is). Returns true if it wrote the questions, and false
    /// if the only problem is that one of them is weak. The comment signature is only tested if it has at
    /// least 64 bytes. Does not allocate.
    pub fn ask_strictly(
        &mut self,
        key: &PublicKeyValue,
        signature: &SignatureValue,
        sig_text: &[u8],
        allow_legacy: bool,
        questions: &mut Questions,
        message: &mut [u8],
    ) -> Result<bool, Refusal>
        // If `ask` would fail, so does this call, with the same error; otherwise the result is true exactly
        // if neither the key nor a signature is weak. The comment signature is only tested if it has at least
        // 64 bytes.
        ensures value { result ≡ asked_strictly (is_strict_value key.now signature.now)
            (result_of_asking self.old key.now signature.now sig_text.now allow_legacy (length message.old)) }

        // If the signature was read from this text, the result is the same as if the text were parsed here
        // and checked under this key.
        ensures text { (t : SignatureTextRecord) → IsReadFrom signature.now sig_text.now t
            → result ≡ asked_strictly (is_strict_text key.now t)
            (result_of_asking_with_text self.old key.now sig_text.now allow_legacy (length message.old)) }

        // If the result is true, the questions, the message and the state are as a successful `ask` leaves
        // them. The data that the state was fed is unchanged.
        ensures asked { result ≡ Ok true → (t : SignatureTextRecord) → IsReadFrom signature.now sig_text.now t
            → (read_under key.now allow_legacy sig_text.now ≡ Ok t)
            × AreQuestionsWithoutDigest questions.new message.new
            key.now t × WasAskedAbout self.new key.now sig_text.now allow_legacy }
        ensures fed { (m : List ℕ) → IsFedState self.old m → IsFedState self.new m }
        ensures state { result ≡ Ok true → self.new ≡ state_after_asking self.old signature.now }
        ensures questions { result ≡ Ok true → questions.new ≡ questions_for_value key.now signature.now }
        ensures message { result ≡ Ok true → HoldsCommentMessage signature.now sig_text.now message.new }

        // If the result is true, the buffer after the message is unchanged. Otherwise the state, the
        // questions and the buffer are unchanged.
        ensures rest_unchanged { result ≡ Ok true
            → drop questions.new.message_len message.new ≡ drop questions.new.message_len message.old }
        ensures unchanged { result ≢ Ok true
            → (self.new ≡ self.old) × (questions.new ≡ questions.old) × (message.new ≡ message.old) }
    {
        if is_strict_value(key, signature) {
            match self.ask(key, signature, sig_text, allow_legacy, questions, message) {
                Ok(()) => Ok(true),
                Err(refusal) => Err(refusal),
            }
        } else {
            match self.check_asking(key, signature, sig_text, allow_legacy, message.len()) {
                Ok(()) => Ok(false),
                Err(refusal) => Err(refusal),
            }
        }
    }

    // Returns the result that `ask` would return, without asking.
    fn check_asking(
        &self,
        key: &PublicKeyValue,
        signature: &SignatureValue,
        sig_text: &[u8],
        allow_legacy: bool,
        room: usize,
    ) -> Result<(), Refusal>
        ensures { result ≡ result_of_asking self.now key.now signature.now sig_text.now allow_legacy room }
    {
        let can_be_asked = self.mark == FED && !self.was_asked() && !self.was_asked_bare();
        if !can_be_asked {
            return Err(Refusal::WrongUse(self.asking_misuse()));
        }
        check_questions(key, signature, sig_text, allow_legacy, room)
    }

    /// Writes the questions as `ask` does, but after the data was fed, and even if the state was asked
    /// before. Also finalizes the digest and writes it to the questions; the state then accepts no more data.
    /// Returns the trusted comment, which is not verified yet. After an error, the state, the questions and
    /// the buffer are unchanged.
    pub fn ask_fed<'a>(
        &mut self,
        key: &PublicKeyValue,
        signature: &SignatureValue,
        sig_text: &'a [u8],
        allow_legacy: bool,
        questions: &mut Questions,
        message: &mut [u8],
    ) -> Result<&'a str, Refusal>
        // On success, if the signature was read from this text, `questions` holds the inputs of the two
        // checks for the key and the text, and the result is the trusted comment. The digest in the questions
        // is that of all data that the state was fed, and the state accepts no more data.
        ensures asked { IfOk result (λ c. (t : SignatureTextRecord) → IsReadFrom signature.now sig_text.now t
            → (read_under key.now allow_legacy sig_text.now ≡ Ok t) × AreQuestions questions.new message.new
            key.now t × WasAskedAbout self.new key.now sig_text.now allow_legacy
            × (c.now ≡ t.comments.trusted)) }
        ensures digest { OnOk result
            ((m : List ℕ) → IsFedState self.old m → (questions.new.digest ≡ blake2b_digest 64 m)
            × HasReturnedDigest self.new m) }
        ensures finalized { OnOk result (IsMarkedFinalized self.new) }

        // On success, whatever the signature was read from: nothing of the state is changed but its mark and
        // the record that it was asked, the questions are those for the key and the signature, with the
        // digest, and the message is the data signature followed by the trusted comment.
        ensures state { OnOk result
            (self.new ≡ record (state_after_asking self.old signature.now) { mark = finalized_mark }) }
        ensures questions { OnOk result (questions.new ≡ record (questions_for_value key.now signature.now)
            { digest = questions.new.digest }) }
        ensures message { OnOk result (HoldsCommentMessage signature.now sig_text.now message.new) }

        // On success, the key and the signature were read, the signature was read from this text, and the
        // key, the signature, the text and the buffer size cause none of the errors of `ask`.
        ensures checks_passed { OnOk result
            (check_ask_arguments key.now signature.now sig_text.now allow_legacy
            (length message.old) ≡ Ok tt) }

        // Errors are checked in this order: the state accepts no data; then those of `ask` about the key, the
        // signature, the text and the buffer size. After an error, the state, the questions and the buffer
        // are unchanged. On success, the buffer after the message is unchanged.
        ensures refused { IfErr result
            (IsAskFedRefusal self.old key.now signature.now sig_text.now allow_legacy (length message.old)) }
        ensures same_error_as_texts { (t : SignatureTextRecord) → IsReadFrom signature.now sig_text.now t
            → IfErr result (IsTextRefusal key.now sig_text.now allow_legacy) }
        ensures unchanged { OnErr result
            ((self.new ≡ self.old) × (questions.new ≡ questions.old) × (message.new ≡ message.old)) }
        ensures rest_unchanged { OnOk result
            (drop questions.new.message_len message.new ≡ drop questions.new.message_len message.old) }
    {
        let mut finalized_state = *self;
        let mut digest = [0u8; 64];
        finalized_state.digest(&mut digest)?;
        let comment = self.open_questions(
            key,
            signature,
            sig_text,
            allow_legacy,
            questions,
            message,
        )?;
        questions.digest = digest;
        self.mark = FINALIZED;
        Ok(comment)
    }

    // Makes the checks of `ask` that do not depend on the state, writes the questions, and returns the
    // trusted comment.
    fn open_questions<'a>(
        &mut self,
        key: &PublicKeyValue,
        signature: &SignatureValue,
        sig_text: &'a [u8],
        allow_legacy: bool,
        questions: &mut Questions,
        message: &mut [u8],
    ) -> Result<&'a str, Refusal>
        ensures value { MatchResult result
            (λ _. check_ask_arguments key.now signature.now sig_text.now allow_legacy
            (length message.old) ≡ Ok tt)
            (λ r. check_ask_arguments key.now signature.now sig_text.now allow_legacy
            (length message.old) ≡ Err r) }
        ensures questions { OnOk result (questions.new ≡ questions_for_value key.now signature.now) }
        ensures comment { IfOk result (λ c. (comment_of signature.now sig_text.now ≡ Ok c.now)
            × (length c.now ≡ signature.now.comment_len) × (64 + length c.now ≤ length message.old)
            × (take (64 + length c.now) message.new ≡ signature.now.signature ++ c.now)) }
        ensures asked { OnOk result (self.new ≡ state_after_asking self.old signature.now) }
        ensures unchanged { OnErr result
            ((self.new ≡ self.old) × (questions.new ≡ questions.old) × (message.new ≡ message.old)) }
        ensures rest_unchanged { OnOk result
            (drop questions.new.message_len message.new ≡ drop questions.new.message_len message.old) }
    {
        if !key.is_public_key() {
            return Err(Refusal::WrongUse(Misuse::PublicKeyNotRead));
        }
        let comment = signature.comment_in(sig_text)?;
        judge_key(&key.key_id, &signature.signature(), allow_legacy)?;
        let len = write_comment_message(&signature.signature, comment.as_bytes(), message)?;
        *questions = questions_for_value(key, signature, len as u64);
        self.asked = Asked {
            mark: ASKED,
            whole: u64::from(signature.whole),
        };
        Ok(comment)
    }

    /// Returns the verdict on the comment signature only: success if it has at least 64 bytes and the scheme
    /// accepts it. It says nothing about any data. It is API misuse if nothing was asked or the state was
    /// finished. Does not allocate.
    pub fn comment_verdict(&self, second: bool) -> Result<(), Refusal>
        // After a successful `ask`, for every scheme for which `second` is the result of the second check:
        // the call succeeds exactly if the comment signature is valid under the key. It says nothing about
        // any data.
        ensures verdict { (v : PublicKeyValue) (sig_text : List ℕ) (legacy : Bool) (accepts : Verifier)
            → WasAskedAbout self.now v sig_text legacy → AnswersComment accepts v sig_text second → is_begun
            self.now ≡ true
            → result ≡ without_trusted_comment (comment_verdict_under accepts v sig_text legacy) }

        // It is API misuse if nothing was asked, or if the state was never initialized or was finished by a
        // verdict. Otherwise the call succeeds exactly if the comment signature has at least 64 bytes and
        // `second` is true.
        ensures value { result ≡ comment_result self.now second }
    {
        if !self.is_begun() || !self.was_asked() {
            return Err(Refusal::WrongUse(self.verdict_misuse()));
        }
        match comment_verdict(self.asked.whole == 1, second) {
            Ok(()) => Ok(()),
            Err(fault) => Err(Refusal::Refused(fault)),
        }
    }

    /// Returns the verdict from the scheme's results of the two checks, after the digest was returned, and
    /// finishes the state.
    ///
    /// Succeeds exactly if the signature is valid for the data that the state was fed, under the scheme with
    /// these results. Otherwise the error is that of the first check that fails. It is API misuse if nothing
    /// was asked or the digest was not returned; then the state is unchanged. Does not allocate.
    pub fn verdict(&mut self, first: bool, second: bool) -> Result<(), Refusal>
        // After a successful `ask` and the digest, for every scheme and every message for which `first` and
        // `second` are the results of the two checks: the result is the verdict on the key, the signature
        // text and the message.
        ensures verdict { (v : PublicKeyValue) (sig message : List ℕ) (legacy : Bool) (accepts : Verifier)
            → WasAskedAbout self.old v sig legacy → IsMarkedFinalized self.old
            → Answers accepts v sig message first
            second → result ≡ without_trusted_comment (verdict_under accepts v sig message legacy) }

        // So for every public key file that contains this key: the call succeeds exactly if the signature
        // file is a valid signature of the message under that public key. Otherwise the error is that of
        // the first check that fails.
        ensures same_verdict_as_texts { (v : PublicKeyValue) (pk sig message : List ℕ) (legacy : Bool)
            (accepts : Verifier)
            → WasAskedAbout self.old v sig legacy → IsMarkedFinalized self.old → IsKeyText pk v
            → Answers accepts v sig message first second → GivesVerdict accepts pk sig message legacy result }

        // It is API misuse if nothing was asked or the digest was not returned; then the state is unchanged.
        // Otherwise the state is finished, and the call succeeds exactly if `first` is true, the comment
        // signature has at least 64 bytes and `second` is true.
        ensures value { (result, self.new) ≡ verdict_outcome self.old first second }
    {
        if self.mark != FINALIZED || !self.was_asked() {
            return Err(Refusal::WrongUse(self.verdict_misuse()));
        }
        self.mark = 0;
        match verdict(self.asked.whole == 1, first, second) {
            Ok(()) => Ok(()),
            Err(fault) => Err(Refusal::Refused(fault)),
        }
    }

    // Returns the API misuse for a state that cannot be asked: `AlreadyAsked` if it was asked before or its
    // digest was returned, `NotBegun` if it is not initialized or is finished.
    pub(crate) fn asking_misuse(&self) -> Misuse
        ensures { result ≡ asking_misuse self.now }
    {
        if self.is_begun() {
            Misuse::AlreadyAsked
        } else {
            Misuse::NotBegun
        }
    }

    // Returns the API misuse for a state that gives no verdict: `NotAsked` if nothing was asked or its digest
    // was not returned, `NotBegun` if it is not initialized or is finished.
    pub(crate) fn verdict_misuse(&self) -> Misuse
        ensures { result ≡ verdict_misuse self.now }
    {
        if self.is_begun() {
            Misuse::NotAsked
        } else {
            Misuse::NotBegun
        }
    }
}

// Makes the checks of `ask` that do not depend on the state, for a buffer of `room` bytes.
fn check_questions(
    key: &PublicKeyValue,
    signature: &SignatureValue,
    sig_text: &[u8],
    allow_legacy: bool,
    room: usize,
) -> Result<(), Refusal>
    ensures { result ≡ check_ask_arguments key.now signature.now sig_text.now allow_legacy room }
{
    if !key.is_public_key() {
        return Err(Refusal::WrongUse(Misuse::PublicKeyNotRead));
    }
    if let Err(misuse) = signature.comment_in(sig_text) {
        return Err(Refusal::WrongUse(misuse));
    }
    match judge_key(&key.key_id, &signature.signature(), allow_legacy) {
        Ok(()) => check_buffers(signature.comment_len, room),
        Err(fault) => Err(Refusal::Refused(fault)),
    }
}

// Checks that a buffer of `room` bytes is long enough for the message with a trusted comment of this length.
fn check_buffers(comment_len: u64, room: usize) -> Result<(), Refusal>
    ensures { result ≡ check_buffer comment_len room }
{
    if room < 64 || ((room - 64) as u64) < comment_len {
        return Err(Refusal::WrongUse(Misuse::NoRoom));
    }
    Ok(())
}

// Returns the questions for a key and a signature, with zeros in place of the digest. `message_len` is the
// length of the message of the second check.
fn questions_for_value(
    key: &PublicKeyValue,
    signature: &SignatureValue,
    message_len: u64,
) -> Questions
    ensures { result ≡ record (questions_for_value key.now signature.now) { message_len = message_len } }
{
    Questions {
        public_key: key.key,
        digest: [0; 64],
        signature: signature.signature,
        comment_signature: signature.comment_signature,
        message_len,
        comment_offset: 64,
        comment_len: signature.comment_len,
        legacy: u32::from(signature.legacy),
        reserved: 0,
    }
}
