//! The state of an installation, and the step that follows each event. Nothing here allocates.

ghost use Rattle.std.specs.Prelude.{◌≡◌, ◌≢◌, ◌++◌, ℕ, List, Err, IfErr, None, true, false, if◌then◌else◌};
ghost use Rattle.std.specs.Prelude.{◌==◌};
ghost use Rattle.minisign_external.specs.declared.state.Misuse.TheVariants.{NotDue};
ghost use Rattle.minisign_external.specs.declared.state.Refusal.TheVariants.{Refused, WrongUse};
ghost use Rattle.minisign_install.specs.Installations.{HoldsState, RunLeadsTo, Steps, operation_of};
ghost use Rattle.minisign_install.specs.Installations.{end_event, options_by, piece_event};
ghost use Rattle.minisign_install.specs.Step.{Answered, CheckComment, CheckData, CheckTarget, Done, Failed};
ghost use Rattle.minisign_install.specs.Step.{InUse, Lock, ReadRecord};
ghost use Rattle.minisign_install.specs.Step.{PieceCopied, PieceRead};
ghost use Rattle.minisign_install.specs.Step.{State, TargetMissing, after_comment, after_copy};
ghost use Rattle.minisign_install.specs.Step.{after_data, after_digest, after_piece, after_target, begin};
ghost use Rattle.minisign_install.specs.Step.{compare, go, install, is_listed, signed_digest};
ghost use Rattle.minisign_install.specs.Step.{is_failure, is_newer, is_rolling_back, next_key, reject};

use crate::faults::InstallFault;
use crate::installation::listing::ListingValue;
use crate::installation::reading::Reading;
use crate::installation::{Choices, Operation};
use minisign_base::NamedFault;
use minisign_external::numbers::Numbered;
use minisign_external::public_keys::PublicKeyValue;
use minisign_external::state::{Misuse, Refusal};

/// The options that the application chose at the beginning, 136 bytes. An option is 1 or 0.
#[repr(C)]
#[derive(Clone, Copy)]
pub struct Chosen {
    pub(crate) key: PublicKeyValue,
    pub(crate) other: PublicKeyValue,
    pub(crate) numbering: u32,
    pub(crate) is_first: u32,
    pub(crate) again: u32,
    pub(crate) is_check: u32,
    pub(crate) must_expire: u32,
    pub(crate) new_key: u32,
    pub(crate) roll_back: u32,
    pub(crate) is_list: u32,
    pub(crate) long_digest: u32,
    pub(crate) reserved: u32,
}

/// The part of the record that applies to this run, 120 bytes. Each value is valid if its flag is 1.
#[repr(C)]
#[derive(Clone, Copy)]
pub struct RecordedValue {
    pub(crate) version: u64,
    pub(crate) key: [u8; 32],
    pub(crate) digest: [u8; 64],
    pub(crate) has_version: u32,
    pub(crate) has_key: u32,
    pub(crate) has_digest: u32,
    pub(crate) reserved: u32,
}

/// The contents of the signature file, 160 bytes. `fault` is the number of the error for which the trusted
/// comment is rejected, or 0.
#[repr(C)]
#[derive(Clone, Copy)]
pub struct Judgment {
    pub(crate) version: u64,
    pub(crate) size: u64,
    pub(crate) signature: [u8; 64],
    pub(crate) comment_signature: [u8; 64],
    pub(crate) is_judged: u32,
    pub(crate) has_size: u32,
    pub(crate) fault: u32,
    pub(crate) reserved: u32,
}

/// The state of an installation, 976 bytes with the layout of C.
#[repr(C)]
#[derive(Clone, Copy)]
pub struct Progress {
    // The number of the operation that is due.
    pub(crate) due: u32,
    // The number of the error with which the run is rejected, or 0.
    pub(crate) error: u32,
    pub(crate) chosen: Chosen,
    pub(crate) recorded: RecordedValue,
    pub(crate) judged: Judgment,
    // 1 if the first key may have signed, and 1 if the other key may have.
    pub(crate) key_matches: u32,
    pub(crate) other_key_matches: u32,
    // 1 if the first of these keys has signed the comment.
    pub(crate) is_signed: u32,
    // 1 if the digest in the record is that of the update.
    pub(crate) is_recorded: u32,
    // The number of bytes of the signed size that were not copied yet, if `has_left` is 1.
    pub(crate) left: u64,
    pub(crate) has_left: u32,
    // 1 if the first of the keys that may have signed has signed the list.
    pub(crate) is_list_signed: u32,
    // The hash of the file that is being read.
    pub(crate) reading: Reading,
    // The digest of the signed list, and the result of looking up the name in it.
    pub(crate) listing: ListingValue,
}

impl Progress {
    // Returns the operation that is due.
    pub(crate) fn due(&self) -> Operation
        ensures { result ≡ operation_of self.now.due }
    {
        Operation::of_number(self.due)
    }

    // Makes this operation due.
    pub(crate) fn go(&mut self, due: Operation)
        ensures { (s : State) → HoldsState self.old s → HoldsState self.new (go due s) }
    {
        self.due = due.number();
    }

    // Rejects the run. If it has temporary files, removing them is due first. Only the first error of a run
    // is returned.
    pub(crate) fn reject(&mut self, fault: InstallFault) -> Result<(), Refusal<InstallFault>>
        ensures next_state { (s : State) → HoldsState self.old s
            → RunLeadsTo s (reject fault s) result self.new }
        ensures never_not_due { IfErr result (λ r. r ≢ WrongUse NotDue) }
        ensures refused { IfErr result (λ r. r ≡ Refused fault) }
    {
        let is_first = self.error == 0;
        self.error = fault.number();
        self.go(self.due().rejected());
        if is_first {
            Err(Refusal::Refused(fault))
        } else {
            Ok(())
        }
    }

    // Reports that the operation was done.
    pub(crate) fn done(&mut self) -> Result<(), Refusal<InstallFault>>
        ensures steps { (s : State) → HoldsState self.old s → Steps Done s result self.new }
        ensures misuse { result ≡ Err (WrongUse NotDue) → self.new ≡ self.old }
    {
        let due = self.due();
        if due.is_copying() {
            return self.end_copy();
        }
        match due.next() {
            Some(next) => {
                self.go(next);
                Ok(())
            }
            None => Err(Refusal::WrongUse(Misuse::NotDue)),
        }
    }

    // Reports the end of the file that is being read.
    pub(crate) fn end_piece(&mut self) -> Result<(), Refusal<InstallFault>>
        ensures steps { (s : State) → HoldsState self.old s → Steps (end_event s.due) s result self.new }
        ensures misuse { result ≡ Err (WrongUse NotDue) → self.new ≡ self.old }
    {
        if !self.due().is_reading() {
            return Err(Refusal::WrongUse(Misuse::NotDue));
        }
        self.done()
    }

    // Reports that another process holds the lock.
    pub(crate) fn in_use(&mut self) -> Result<(), Refusal<InstallFault>>
        ensures steps { (s : State) → HoldsState self.old s → Steps InUse s result self.new }
        ensures misuse { result ≡ Err (WrongUse NotDue) → self.new ≡ self.old }
    {
        if !self.due().is_locking() {
            return Err(Refusal::WrongUse(Misuse::NotDue));
        }
        self.reject(InstallFault::TargetInUse)
    }

    // Reports that the operation failed with this error.
    pub(crate) fn failed(&mut self, fault: NamedFault) -> Result<(), Refusal<InstallFault>>
        ensures steps { (s : State) → HoldsState self.old s → Steps (Failed fault) s result self.new }
        ensures misuse { result ≡ Err (WrongUse NotDue) → self.new ≡ self.old }
    {
        if is_failure(fault) {
            self.fail(fault)
        } else {
            Err(Refusal::WrongUse(Misuse::NotDue))
        }
    }

    // Reports that the operation failed with one of the errors that an operation can fail with.
    fn fail(&mut self, fault: NamedFault) -> Result<(), Refusal<InstallFault>>
        requires { is_failure fault ≡ true }
        ensures steps { (s : State) → HoldsState self.old s → Steps (Failed fault) s result self.new }
        ensures misuse { result ≡ Err (WrongUse NotDue) → self.new ≡ self.old }
    {
        let due = self.due();
        if due.has_ended() {
            Err(Refusal::WrongUse(Misuse::NotDue))
        } else if due.is_removing() {
            self.go(Operation::Rejected);
            Ok(())
        } else {
            self.reject(due.failure(fault))
        }
    }

    // Reports that all data was copied.
    fn end_copy(&mut self) -> Result<(), Refusal<InstallFault>>
        ensures next_state { (s : State) → HoldsState self.old s
            → RunLeadsTo s (after_copy s.left s) result self.new }
        ensures never_not_due { IfErr result (λ r. r ≢ WrongUse NotDue) }
    {
        if self.has_left == 1 && self.left != 0 {
            return self.reject(InstallFault::OtherSize);
        }
        self.go(Operation::ReadBack);
        Ok(())
    }

    // Reports that `len` bytes were copied.
    pub(crate) fn copied(&mut self, len: u64) -> Result<(), Refusal<InstallFault>>
        ensures steps { (s : State) → HoldsState self.old s → Steps (PieceCopied len) s result self.new }
        ensures misuse { result ≡ Err (WrongUse NotDue) → self.new ≡ self.old }
    {
        if !self.due().is_copying() {
            return Err(Refusal::WrongUse(Misuse::NotDue));
        }
        self.count(len)
    }

    // Subtracts a copied piece from the signed size, and rejects the run if the data is longer.
    fn count(&mut self, len: u64) -> Result<(), Refusal<InstallFault>>
        ensures next_state { (s : State) → HoldsState self.old s
            → RunLeadsTo s (after_piece len s.left s) result self.new }
        ensures never_not_due { IfErr result (λ r. r ≢ WrongUse NotDue) }
    {
        if self.has_left != 1 {
            return Ok(());
        }
        if len > self.left {
            return self.reject(InstallFault::OtherSize);
        }
        self.left -= len;
        Ok(())
    }

    // Begins to install the update. The hash of the installed file is discarded.
    fn install(&mut self)
        ensures { (s : State) → HoldsState self.old s → HoldsState self.new (install s) }
    {
        self.reading = Reading::begin(self.reading_for());
        let due = if self.chosen.is_check == 1 {
            Operation::WouldInstall
        } else {
            Operation::RemoveLeftovers
        };
        self.due = due.number();
    }

    // Reports that there is no installed file.
    pub(crate) fn no_target(&mut self) -> Result<(), Refusal<InstallFault>>
        ensures steps { (s : State) → HoldsState self.old s → Steps TargetMissing s result self.new }
        ensures misuse { result ≡ Err (WrongUse NotDue) → self.new ≡ self.old }
    {
        if !self.due().is_reading_target() {
            return Err(Refusal::WrongUse(Misuse::NotDue));
        }
        self.install();
        Ok(())
    }

    // Reports the next bytes of the file that is being read.
    pub(crate) fn piece(&mut self, bytes: &[u8]) -> Result<(), Refusal<InstallFault>>
        ensures steps { (s : State) → HoldsState self.old s → Steps (PieceRead bytes.now) s result self.new }
        ensures misuse { result ≡ Err (WrongUse NotDue) → self.new ≡ self.old }
    {
        if !self.due().is_reading() {
            return Err(Refusal::WrongUse(Misuse::NotDue));
        }
        self.reading = self.reading.updated(self.reading_for(), bytes);
        Ok(())
    }

    // Reports the next bytes of the file that is being read, or its end if there are none.
    pub(crate) fn bytes(&mut self, bytes: &[u8]) -> Result<(), Refusal<InstallFault>>
        ensures steps { (s : State) → HoldsState self.old s
            → Steps (piece_event s.due bytes.now) s result self.new }
        ensures misuse { result ≡ Err (WrongUse NotDue) → self.new ≡ self.old }
    {
        if bytes.is_empty() {
            self.end_piece()
        } else {
            self.piece(bytes)
        }
    }

    // Continues after the signatures of the comment and of the list, if there is one, were found to be valid,
    // and both were accepted: compares the update with the record and the installed file, or installs it.
    pub(crate) fn compare(&mut self)
        ensures { (s : State) → HoldsState self.old s → HoldsState self.new (compare s) }
    {
        if self.is_newer() {
            self.install();
        } else if self.recorded.has_digest == 1 {
            self.go(Operation::CheckRecord);
        } else if self.is_rolling_back() {
            self.install();
        } else {
            self.go(Operation::ReadTarget);
        }
    }

    // Returns true if the update is newer than the recorded version, or there is none.
    fn is_newer(&self) -> bool
        ensures { (s : State) → HoldsState self.now s → result ≡ is_newer s }
    {
        self.recorded.has_version != 1 || self.recorded.version < self.judged.version
    }

    // Returns true if the update is older than the recorded version.
    pub(crate) fn is_rolling_back(&self) -> bool
        ensures { (s : State) → HoldsState self.now s → result ≡ is_rolling_back s }
    {
        self.recorded.has_version == 1 && self.judged.version < self.recorded.version
    }

    // Reports the result of Ed25519 for the question that is due.
    pub(crate) fn answer(&mut self, accepted: bool) -> Result<(), Refusal<InstallFault>>
        ensures steps { (s : State) → HoldsState self.old s → Steps (Answered accepted) s result self.new }
        ensures misuse { result ≡ Err (WrongUse NotDue) → self.new ≡ self.old }
    {
        match self.due() {
            Operation::CheckComment => self.answer_comment(accepted),
            Operation::CheckList => self.answer_list(accepted),
            Operation::CheckRecord => {
                self.answer_record(accepted);
                Ok(())
            }
            Operation::CheckTarget => self.answer_target(accepted),
            Operation::CheckData => self.answer_data(accepted),
            _ => Err(Refusal::WrongUse(Misuse::NotDue)),
        }
    }

    // Reports the result of Ed25519 for the question about the comment.
    fn answer_comment(&mut self, accepted: bool) -> Result<(), Refusal<InstallFault>>
        requires { operation_of self.old.due ≡ CheckComment }
        ensures steps { (s : State) → HoldsState self.old s → Steps (Answered accepted) s result self.new }
        ensures never_not_due { IfErr result (λ r. r ≢ WrongUse NotDue) }
    {
        if accepted {
            self.accept_comment()
        } else {
            self.next_key()
        }
    }

    // Reports the result of Ed25519 for the question about the installed file.
    fn answer_target(&mut self, accepted: bool) -> Result<(), Refusal<InstallFault>>
        requires { operation_of self.old.due ≡ CheckTarget }
        ensures steps { (s : State) → HoldsState self.old s → Steps (Answered accepted) s result self.new }
        ensures never_not_due { IfErr result (λ r. r ≢ WrongUse NotDue) }
    {
        if accepted && self.is_listed() {
            self.accept_target();
            Ok(())
        } else {
            self.replace_target()
        }
    }

    // Reports the result of Ed25519 for the question about the temporary file.
    fn answer_data(&mut self, accepted: bool) -> Result<(), Refusal<InstallFault>>
        requires { operation_of self.old.due ≡ CheckData }
        ensures steps { (s : State) → HoldsState self.old s → Steps (Answered accepted) s result self.new }
        ensures never_not_due { IfErr result (λ r. r ≢ WrongUse NotDue) }
    {
        if accepted {
            self.accept_data()
        } else {
            self.reject(NamedFault::SignatureRefused.into())
        }
    }

    // Continues after the signature was found to be valid for the digest of the temporary file, or for that
    // of the list. The run goes on if the file also has the listed digest, or there is no list.
    fn accept_data(&mut self) -> Result<(), Refusal<InstallFault>>
        ensures next_state { (s : State) → HoldsState self.old s
            → RunLeadsTo s (after_data (is_listed s) s) result self.new }
        ensures never_not_due { IfErr result (λ r. r ≢ WrongUse NotDue) }
    {
        if self.is_listed() {
            self.go(Operation::SetPermissions);
            Ok(())
        } else {
            self.reject(InstallFault::DigestMismatch)
        }
    }

    // Continues after a key was found to have signed the comment.
    fn accept_comment(&mut self) -> Result<(), Refusal<InstallFault>>
        ensures next_state { (s : State) → HoldsState self.old s
            → RunLeadsTo s (after_comment s.fault (record s { is_signed = true })) result self.new }
        ensures never_not_due { IfErr result (λ r. r ≢ WrongUse NotDue) }
    {
        self.is_signed = 1;
        match self.fault() {
            Some(fault) => self.reject(fault),
            None => {
                self.accept_signed();
                Ok(())
            }
        }
    }

    // Continues after the signed comment was accepted. If there is a list, reading it is due next.
    fn accept_signed(&mut self)
        ensures { (s : State) → HoldsState self.old s → HoldsState self.new (after_comment None s) }
    {
        if self.chosen.is_list == 1 {
            self.go(Operation::ReadList);
        } else {
            self.compare();
        }
    }

    // Returns the error with which the comment is rejected, if there is one.
    fn fault(&self) -> Option<InstallFault>
        ensures { (s : State) → HoldsState self.now s → result ≡ s.fault }
    {
        InstallFault::of_number(self.judged.fault)
    }

    // Continues after the key was found not to have signed the comment: with the next key, if there is one.
    fn next_key(&mut self) -> Result<(), Refusal<InstallFault>>
        ensures next_state { (s : State) → HoldsState self.old s
            → RunLeadsTo s (next_key s.signers s) result self.new }
        ensures never_not_due { IfErr result (λ r. r ≢ WrongUse NotDue) }
    {
        if self.key_matches == 1 && self.other_key_matches == 1 {
            self.key_matches = 0;
            return Ok(());
        }
        self.reject(NamedFault::CommentSignatureRefused.into())
    }

    // Continues with the result of Ed25519 for the question about the digest in the record.
    fn answer_record(&mut self, accepted: bool)
        ensures { (s : State) → HoldsState self.old s → HoldsState self.new (after_digest accepted s) }
    {
        if accepted {
            self.is_recorded = 1;
            self.go(Operation::ReadTarget);
        } else if self.is_rolling_back() {
            self.install();
        } else {
            self.is_recorded = 0;
            self.go(Operation::ReadTarget);
        }
    }

    // Continues after the installed file was found to be the update: it is synced, unless the run is a check.
    fn accept_target(&mut self)
        ensures { (s : State) → HoldsState self.old s → HoldsState self.new (after_target true s) }
    {
        if self.chosen.is_check == 1 {
            self.go(Operation::AlreadyInstalled);
        } else {
            self.go(Operation::SyncTarget);
        }
    }

    // Continues after the installed file was found not to be the update: replaces it if the record is that of
    // the update or `again` is set, else rejects the run.
    fn replace_target(&mut self) -> Result<(), Refusal<InstallFault>>
        ensures next_state { (s : State) → HoldsState self.old s
            → RunLeadsTo s (after_target false s) result self.new }
        ensures never_not_due { IfErr result (λ r. r ≢ WrongUse NotDue) }
    {
        if self.is_recorded == 1 || self.chosen.again == 1 {
            self.install();
            return Ok(());
        }
        self.reject(InstallFault::SameNumber)
    }

    // Returns the version number of the update if a key has signed the comment.
    pub(crate) fn version(&self) -> u64
        ensures { (s : State) → HoldsState self.now s → result ≡ (if s.is_signed then s.version else 0) }
    {
        if self.is_signed == 1 {
            self.judged.version
        } else {
            0
        }
    }

    // Returns the signed size if a key has signed the comment.
    pub(crate) fn size(&self) -> Option<u64>
        ensures { (s : State) → HoldsState self.now s → result ≡ (if s.is_signed then s.size else None) }
    {
        if self.is_signed == 1 && self.judged.has_size == 1 {
            Some(self.judged.size)
        } else {
            None
        }
    }

    // Returns the digest for which the signature must be valid: that of the list, or without a list that of
    // the bytes that were read.
    pub(crate) fn digest(&self) -> [u8; 64]
        ensures { (s : State) → HoldsState self.now s → result ≡ signed_digest s }
    {
        if self.chosen.is_list == 1 {
            self.listing.list_digest
        } else {
            self.reading.blake2b_digest()
        }
    }

    // Begins an installation.
    pub(crate) fn begin(key: &PublicKeyValue, other: &PublicKeyValue, choices: &Choices) -> Progress
        ensures { (file : List ℕ)
            → HoldsState result (begin (options_by key.now other.now choices.now file)) }
    {
        let due = first_operation(choices).number();
        Progress {
            due,
            error: 0,
            chosen: Chosen {
                key: *key,
                other: *other,
                numbering: choices.numbering,
                is_first: choices.is_first,
                again: choices.again,
                is_check: choices.is_check,
                must_expire: choices.must_expire,
                new_key: choices.new_key,
                roll_back: choices.roll_back,
                is_list: choices.is_list,
                long_digest: choices.long_digest,
                reserved: 0,
            },
            recorded: RecordedValue {
                version: 0,
                key: [0; 32],
                digest: [0; 64],
                has_version: 0,
                has_key: 0,
                has_digest: 0,
                reserved: 0,
            },
            judged: Judgment {
                version: 0,
                size: 0,
                signature: [0; 64],
                comment_signature: [0; 64],
                is_judged: 0,
                has_size: 0,
                fault: 0,
                reserved: 0,
            },
            key_matches: 0,
            other_key_matches: 0,
            is_signed: 0,
            is_recorded: 0,
            left: 0,
            has_left: 0,
            is_list_signed: 0,
            reading: Reading::begin(None),
            listing: ListingValue::none(),
        }
    }
}

// Returns true if an operation can fail with this error.
fn is_failure(fault: NamedFault) -> bool
    ensures { result ≡ is_failure fault }
{
    matches!(
        fault,
        NamedFault::OutOfMemory
            | NamedFault::ReadingFailed
            | NamedFault::WritingFailed
            | NamedFault::RandomSourceFailed
    )
}

// Returns the first operation. A check takes no lock.
fn first_operation(choices: &Choices) -> Operation
    ensures { result ≡ (if choices.now.is_check == 1 then ReadRecord else Lock) }
{
    if choices.is_check == 1 {
        Operation::ReadRecord
    } else {
        Operation::Lock
    }
}
