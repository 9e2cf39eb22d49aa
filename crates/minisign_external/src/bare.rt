//! Verifies with a bare signature, which is one without comments, for a program in another language that
//! holds the state: writes the inputs of the only Ed25519 check, and returns the verdict from its result.
//! Nothing here allocates.

ghost use Rattle.std.specs.Prelude.{◌≡◌, ℕ, Bool, List, Ok, true};
ghost use Rattle.minisign.specs.Acceptance.{Verifier};
ghost use Rattle.minisign.specs.Records.{SignatureRecord};
ghost use Rattle.minisign_external.specs.Bare.{AnswersBare, WasAskedAboutBare, check_ask_bare_arguments};
ghost use Rattle.minisign_external.specs.Bare.{result_of_asking_bare, bare_question, bare_verdict_under};
ghost use Rattle.minisign_external.specs.Bare.{bare_asking_outcome, bare_verdict_outcome};
ghost use Rattle.minisign_external.specs.Signatures.{signature_of_value};
ghost use Rattle.minisign_external.specs.States.{IsFedState, IsMarkedFinalized, result_of_check};
ghost use Rattle.minisign_external.specs.declared.public_keys.PublicKeyValue.{PublicKeyValue};

use crate::public_keys::PublicKeyValue;
use crate::signatures::SignatureValue;
use crate::state::{Asked, BARE_ASKED, FED, FINALIZED, Misuse, Questions, Refusal, State};
use crate::strict::is_strict;
use crate::verdict::verdict;
use minisign::judge_key;

impl State {
    /// Writes the only question for verifying the data with a bare signature: the inputs of one Ed25519
    /// check. The signature may also come from a signature file; then its comments are not verified. Returns
    /// true if the question was written, and false if the only problem is that the key or the signature is
    /// weak.
    ///
    /// The errors are, in this order: the state was already asked or its digest returned (`AlreadyAsked`),
    /// or it was never initialized (`NotBegun`); `PublicKeyNotRead`; `SignatureNotRead`; `DifferentKeyIds`;
    /// `LegacyNotAccepted`. Does not allocate.
    pub fn ask_bare(
        &mut self,
        key: &PublicKeyValue,
        signature: &SignatureValue,
        allow_legacy: bool,
        questions: &mut Questions,
    ) -> Result<bool, Refusal>
        // If the result is true, `questions` holds the inputs of the check for the key and the signature,
        // with zeros in place of the digest and in the fields about a comment, and the state records that it
        // was asked about a bare signature. Otherwise the state and the questions are unchanged, and the
        // result is the first error that applies or, if there is no error, false, because the key or the
        // signature is weak.
        ensures value { (result, self.new, questions.new) ≡ bare_asking_outcome
            (result_of_asking_bare self.old key.now signature.now allow_legacy) key.now signature.now self.old
            questions.old }

        // The data that the state was fed is unchanged. If the result is true, the state was asked about this
        // key and this signature, which has passed the checks that need no scheme.
        ensures fed { (m : List ℕ) → IsFedState self.old m → IsFedState self.new m }
        ensures asked { result ≡ Ok true
            → WasAskedAboutBare self.new key.now (signature_of_value signature.now) allow_legacy }
    {
        if self.mark != FED || self.was_asked() || self.was_asked_bare() {
            return Err(Refusal::WrongUse(self.asking_misuse()));
        }
        check_bare(key, signature, allow_legacy)?;
        if !is_strict(&key.key, &signature.signature) {
            return Ok(false);
        }
        *questions = bare_question(key, signature);
        self.asked = Asked {
            mark: BARE_ASKED,
            whole: 0,
        };
        Ok(true)
    }

    /// Returns the verdict on a bare signature from the scheme's result of the check, after the digest was
    /// returned, and finishes the state.
    ///
    /// Succeeds exactly if the signature is valid for the data that the state was fed, under the scheme with
    /// this result. It is API misuse if the state was not asked about a bare signature or the digest was not
    /// returned; then the state is unchanged. Does not allocate.
    pub fn bare_verdict(&mut self, first: bool) -> Result<(), Refusal>
        // After a successful `ask_bare` and the digest, for every scheme and every message for which
        // `first` is the result of the check: the result is the verdict on the key, the bare signature and
        // the message.
        ensures verdict { (v : PublicKeyValue) (s : SignatureRecord) (message : List ℕ) (legacy : Bool)
            (accepts : Verifier) → WasAskedAboutBare self.old v s legacy → IsMarkedFinalized self.old
            → AnswersBare accepts v s message first
            → result ≡ result_of_check (bare_verdict_under accepts v s message legacy) }

        // It is API misuse if the state was not asked about a bare signature or the digest was not
        // returned; then the state is unchanged. Otherwise the state is finished, and the call succeeds
        // exactly if `first` is true.
        ensures value { (result, self.new) ≡ bare_verdict_outcome self.old first }
    {
        if self.mark != FINALIZED || !self.was_asked_bare() {
            return Err(Refusal::WrongUse(self.verdict_misuse()));
        }
        self.mark = 0;
        match verdict(true, first, true) {
            Ok(()) => Ok(()),
            Err(fault) => Err(Refusal::Refused(fault)),
        }
    }
}

// Makes the checks of `ask_bare` that do not depend on the state, except the check for weak keys and
// signatures.
fn check_bare(
    key: &PublicKeyValue,
    signature: &SignatureValue,
    allow_legacy: bool,
) -> Result<(), Refusal>
    ensures { result ≡ check_ask_bare_arguments key.now signature.now allow_legacy }
{
    if !key.is_public_key() {
        return Err(Refusal::WrongUse(Misuse::PublicKeyNotRead));
    }
    if !signature.has_signature() {
        return Err(Refusal::WrongUse(Misuse::SignatureNotRead));
    }
    match judge_key(&key.key_id, &signature.signature(), allow_legacy) {
        Ok(()) => Ok(()),
        Err(fault) => Err(Refusal::Refused(fault)),
    }
}

// Returns the inputs of the check for a key and a signature, with zeros in place of the digest.
fn bare_question(key: &PublicKeyValue, signature: &SignatureValue) -> Questions
    ensures { result ≡ bare_question key.now signature.now }
{
    Questions {
        public_key: key.key,
        digest: [0; 64],
        signature: signature.signature,
        comment_signature: [0; 64],
        message_len: 0,
        comment_offset: 0,
        comment_len: 0,
        legacy: u32::from(signature.legacy),
        reserved: 0,
    }
}
