//! The outputs of an installation for the application: the question for Ed25519 and the new record. Nothing
//! here allocates.

ghost use Rattle.std.specs.Prelude.{◌≡◌, ◌<◌, ◌==◌, Some, drop, length, take, true};
ghost use Rattle.std.specs.Option.{unwrap_or};
ghost use Rattle.minisign_install.specs.Installations.{HoldsState, IsWritten, first_key, record_due};
ghost use Rattle.minisign_install.specs.Installations.{IsWrittenIf};
ghost use Rattle.minisign_install.specs.Installations.{IsNewRecord, about, question_due, question_of};
ghost use Rattle.minisign_install.specs.Step.{CheckComment, CheckRecord};
ghost use Rattle.minisign_install.specs.Step.{State, key_of, new_key, new_record, new_version, signed_digest};

use crate::installation::progress::Progress;
use crate::installation::{Operation, Question};
use crate::recording::{KeyAndDigest, write_record};

impl Progress {
    // Returns the question that is due.
    pub(crate) fn question(&self) -> Option<Question>
        ensures { (s : State) → HoldsState self.now s → result ≡ question_due s }
    {
        if !self.is_read() {
            return None;
        }
        match self.signer() {
            Some(key) => self.question_under(key),
            None => None,
        }
    }

    // Returns true if the signature file was read.
    fn is_read(&self) -> bool
        ensures read { (s : State) → HoldsState self.now s → result ≡ (length s.signature == 64) }
        ensures judged { result ≡ (self.now.judged.is_judged == 1) }
    {
        self.judged.is_judged == 1
    }

    // Returns the question that is due, under this key.
    fn question_under(&self, key: [u8; 32]) -> Option<Question>
        requires { (self.now.judged.is_judged == 1) ≡ true }
        ensures { (s : State) → HoldsState self.now s → result ≡ question_of s.due key s }
    {
        match self.due() {
            Operation::CheckComment => Some(self.comment_question(key)),
            Operation::CheckList => Some(self.data_question(key)),
            Operation::CheckRecord => self.record_question(key),
            Operation::CheckTarget => Some(self.data_question(key)),
            Operation::CheckData => Some(self.data_question(key)),
            _ => None,
        }
    }

    // Returns the question about the trusted comment.
    fn comment_question(&self, key: [u8; 32]) -> Question
        requires { (self.now.judged.is_judged == 1) ≡ true }
        ensures { (s : State) → HoldsState self.now s → Some result ≡ question_of CheckComment key s }
    {
        Question {
            key,
            signature: self.judged.comment_signature,
            digest: [0; 64],
            is_comment: 1,
        }
    }

    // Returns the question about the digest in the record, if it has one.
    fn record_question(&self, key: [u8; 32]) -> Option<Question>
        requires { (self.now.judged.is_judged == 1) ≡ true }
        ensures { (s : State) → HoldsState self.now s → result ≡ question_of CheckRecord key s }
    {
        if self.has_digest() {
            Some(self.question_about(key, self.recorded.digest))
        } else {
            None
        }
    }

    // Returns true if the record has a digest and is not ignored.
    fn has_digest(&self) -> bool
        ensures { result ≡ (self.now.recorded.has_digest == 1) }
    {
        self.recorded.has_digest == 1
    }

    // Returns the question about the digest of the list, or without a list about that of the bytes that were
    // read.
    fn data_question(&self, key: [u8; 32]) -> Question
        requires { (self.now.judged.is_judged == 1) ≡ true }
        ensures { (s : State) → HoldsState self.now s
            → result ≡ about key s.signature (signed_digest s) }
    {
        self.question_about(key, self.digest())
    }

    // Returns the question about this digest.
    fn question_about(&self, key: [u8; 32], digest: [u8; 64]) -> Question
        ensures { result ≡ about key self.now.judged.signature digest }
    {
        Question {
            key,
            signature: self.judged.signature,
            digest,
            is_comment: 0,
        }
    }

    // Writes the new record, if writing it is due.
    pub(crate) fn record_text(&self, to: &mut [u8]) -> usize
        ensures written { (s : State) → HoldsState self.now s
            → IsWrittenIf (record_due s) result to.old to.new }
        ensures reads_back { (s : State) → HoldsState self.now s → 0 < result
            → IsNewRecord s (take result to.new) }
        ensures rest_unchanged { drop result to.new ≡ drop result to.old }
    {
        if !self.due().is_writing_record() {
            return 0;
        }
        match self.signer() {
            Some(signer) => self.write_new_record(signer, to),
            None => 0,
        }
    }

    // Writes the new record if this key has signed.
    fn write_new_record(&self, signer: [u8; 32], to: &mut [u8]) -> usize
        ensures written { (s : State) → HoldsState self.now s → key_of s.signers ≡ signer
            → IsWritten (new_record s) result to.old to.new }
        ensures reads_back { (s : State) → HoldsState self.now s → key_of s.signers ≡ signer
            → 0 < result → IsNewRecord s (take result to.new) }
        ensures rest_unchanged { drop result to.new ≡ drop result to.old }
    {
        let version = self.new_version();
        let values = KeyAndDigest {
            key: self.new_key(signer),
            digest: self.digest(),
        };
        write_record(self.chosen.numbering(), version, &values, to)
    }

    // Returns the version number of the new record. A roll-back does not decrease it.
    fn new_version(&self) -> u64
        ensures { (s : State) → HoldsState self.now s → result ≡ new_version s }
    {
        if self.is_rolling_back() {
            self.recorded.version
        } else {
            self.judged.version
        }
    }

    // Returns the key of the new record: the signer, or after a roll-back the key in the old record.
    fn new_key(&self, signer: [u8; 32]) -> [u8; 32]
        ensures { (s : State) → HoldsState self.now s → key_of s.signers ≡ signer → result ≡ new_key s }
    {
        if self.is_rolling_back() {
            self.recorded_key(signer)
        } else {
            signer
        }
    }

    // Returns the key that the old record names, or the signer if it names none.
    fn recorded_key(&self, signer: [u8; 32]) -> [u8; 32]
        ensures { (s : State) → HoldsState self.now s → result ≡ unwrap_or s.recorded.key signer }
    {
        if self.recorded.has_key == 1 {
            self.recorded.key
        } else {
            signer
        }
    }

    // Returns the first key that may have signed, if there is one. Once the comment is found to be signed,
    // this is the key that signed it.
    fn signer(&self) -> Option<[u8; 32]>
        ensures { (s : State) → HoldsState self.now s → result ≡ first_key s.signers }
    {
        if self.key_matches == 1 {
            Some(self.chosen.key.key)
        } else if self.other_key_matches == 1 {
            Some(self.chosen.other.key)
        } else {
            None
        }
    }
}
