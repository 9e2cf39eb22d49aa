//! An installation as a struct of fixed size, for applications in other languages. The application performs
//! the operation that is due, reports what happened, and goes on with the next one. Nothing here allocates.

ghost use Rattle.std.specs.Prelude.{◌≡◌, ◌==◌, List, Some, None, Err, MatchResult, OnErr};
ghost use Rattle.std.specs.Prelude.{if◌then◌else◌, true, false, ℕ, ◌<◌, take, drop};
ghost use Rattle.minisign_external.specs.Numbers.{answer_yes, is_answer};
ghost use Rattle.minisign_external.specs.declared.state.Misuse.TheVariants.{BadAnswer, NoRoom, NotDue};
ghost use Rattle.minisign_external.specs.declared.state.Refusal.TheVariants.{WrongUse};
ghost use Rattle.minisign_install.specs.Installations.{CallSteps, Represents, are_flags, choices_fit};
ghost use Rattle.minisign_install.specs.Installations.{SignatureSteps};
ghost use Rattle.minisign_install.specs.Installations.{begun_mark, choices_misuse, error_number};
ghost use Rattle.minisign_install.specs.Installations.{options_by, piece_event};
ghost use Rattle.minisign_install.specs.Step.{Answered, Done, Failed, InUse, PieceCopied, State};
ghost use Rattle.minisign_install.specs.Step.{ListRead, RecordRead, TargetMissing, begin, line_at_fault};
ghost use Rattle.minisign_install.specs.Step.{step};
ghost use Rattle.minisign_install.specs.Installations.{is_copying, is_locking, is_over, is_reading};
ghost use Rattle.minisign_install.specs.Installations.{is_reading_list, is_reading_record};
ghost use Rattle.minisign_install.specs.Installations.{is_reading_target, is_removing};
ghost use Rattle.minisign_install.specs.Installations.{is_writing_record, operation_of, record_due};
ghost use Rattle.minisign_install.specs.Installations.{IsNewRecord, is_reading_signature, question_due};
ghost use Rattle.minisign_install.specs.Installations.{IsWrittenIf};
ghost use Rattle.minisign_install.specs.Step.{Rejected, RemoveFiles, failure, has_files, next};

mod judging;
mod listing;
mod output;
mod progress;
mod reading;
mod recorded;
mod signature;

use crate::faults::InstallFault;
pub use judging::judge_comment;
use minisign_base::NamedFault;
use minisign_external::numbers::{ANSWER_YES, is_answer};
use minisign_external::public_keys::PublicKeyValue;
use minisign_external::state::{Misuse, Refusal};
use minisign_lists::LongDigest;
use progress::Progress;

// The mark (magic number) of an installation that was begun: the letters `minstall`.
const BEGUN: u64 = 7812726606361684333;

/// An installation, 1024 bytes with the layout of C.
#[repr(C)]
#[derive(Clone, Copy)]
pub struct Installation {
    mark: u64,
    progress: Progress,
    reserved: [u64; 5],
}

/// A question for Ed25519: is the signature valid under the key? Its message is the digest, or, if
/// `is_comment` is 1, the message that `signature` wrote. 164 bytes with the layout of C.
#[repr(C)]
#[derive(Clone, Copy)]
pub struct Question {
    /// The public key.
    pub key: [u8; 32],
    /// The signature.
    pub signature: [u8; 64],
    /// The digest of the data or the list, or the digest in the record. Zeros if `is_comment` is 1.
    pub digest: [u8; 64],
    /// 1 if the question is about the trusted comment, otherwise 0.
    pub is_comment: u32,
}

/// The options of an installation, with the layout of C. All except `numbering` and `long_digest` are 0 or 1.
#[repr(C)]
#[derive(Clone, Copy)]
pub struct Choices {
    /// The field of the trusted comment that holds the version number: 0 for `timestamp:`, 1 for `version:`.
    pub numbering: u32,
    /// Install even if no version is recorded.
    pub is_first: u32,
    /// Replace different data that has the recorded version.
    pub again: u32,
    /// Only find out whether a run would install the update, and change nothing.
    pub is_check: u32,
    /// Reject an update if its comment does not say when it expires.
    pub must_expire: u32,
    /// Ignore the record if it was made under a key that was not passed.
    pub new_key: u32,
    /// Install an update even if it is older than the recorded version, which stays recorded.
    pub roll_back: u32,
    /// The signature is that of a signed list of files, in which the data must be listed.
    pub is_list: u32,
    /// The hash function of 128 hexadecimal digits on a line of the list that does not name it: 2 for
    /// SHA-512, 3 for BLAKE2b, or 0 if such a line is malformed.
    pub long_digest: u32,
}

/// The operation that is due, or the end of the run. The operations are numbered from 0 on, in this order.
#[derive(Clone, Copy, PartialEq, Eq, Debug)]
pub enum Operation {
    /// Nothing: the installation was never begun.
    Nothing,
    /// Lock the target, and wait for the lock as long as the user allows. Report `done`, or `in_use`.
    Lock,
    /// Read the record, and report its bytes, or that there is none.
    ReadRecord,
    /// Read the signature file and the clock, once.
    ReadSignature,
    /// Check with Ed25519 if the signature of the trusted comment is valid, and report the result.
    CheckComment,
    /// Read the signed list, once, and report its bytes and the name to look up in it.
    ReadList,
    /// Check with Ed25519 if the signature is valid for the digest of the list, and report the result.
    CheckList,
    /// Check with Ed25519 if the signature is valid for the digest in the record, and report the result.
    CheckRecord,
    /// Read the installed file and report its bytes piece by piece, or that there is no such file.
    ReadTarget,
    /// Check with Ed25519 if the signature is valid for the digest of the installed file or, with `is_list`,
    /// for that of the list, and report the result.
    CheckTarget,
    /// Sync the installed file, which is already the update.
    SyncTarget,
    /// Sync the directory, so that the name of the installed file survives a crash.
    SyncTargetName,
    /// Remove the temporary files that killed runs have left behind. Files that cannot be removed are
    /// ignored.
    RemoveLeftovers,
    /// Create the temporary file of the data under a random name.
    CreateFile,
    /// Copy the data to its temporary file, and report the length of each piece.
    CopyData,
    /// Read back the temporary file of the data through the same descriptor, and report its bytes piece by
    /// piece.
    ReadBack,
    /// Check with Ed25519 if the signature is valid for the digest of the bytes that were read back or, with
    /// `is_list`, for that of the list, and report the result.
    CheckData,
    /// Give the temporary file of the data the permissions of the installed file.
    SetPermissions,
    /// Sync the temporary file of the data.
    SyncFile,
    /// Create the temporary file of the record under a random name.
    CreateRecord,
    /// Write the new record to its temporary file.
    WriteRecord,
    /// Sync the temporary file of the record.
    SyncRecord,
    /// Rename the temporary file of the record to the record.
    RenameRecord,
    /// Sync the directory, so that a crash does not undo this rename.
    SyncRecordName,
    /// Rename the temporary file of the data to the target.
    RenameFile,
    /// Sync the directory, so that a crash does not undo this rename.
    SyncFileName,
    /// Remove the temporary files that this run made and did not rename.
    RemoveFiles,
    /// The run has ended: the update is installed.
    Installed,
    /// The run has ended: the update was installed already.
    AlreadyInstalled,
    /// The check has ended: a run with the same options would install the update.
    WouldInstall,
    /// The run has ended: the update is rejected.
    Rejected,
}

impl Installation {
    /// Begins an installation. The first operation that is due is to lock the target or, for a check, to read
    /// the record. An application that has one key passes it twice.
    pub fn new(
        key: &PublicKeyValue,
        other: &PublicKeyValue,
        choices: &Choices,
    ) -> Result<Installation, Misuse>
        ensures { MatchResult result
            (λ i. (choices_misuse choices.now ≡ None) × ((file : List ℕ)
            → Represents i (begin (options_by key.now other.now choices.now file))))
            (λ m. choices_misuse choices.now ≡ Some m) }
    {
        match choices.test() {
            Ok(()) => Ok(Installation {
                mark: BEGUN,
                progress: Progress::begin(key, other, choices),
                reserved: [0; 5],
            }),
            Err(misuse) => Err(misuse),
        }
    }

    // Returns true if the installation was begun.
    fn is_begun(&self) -> bool
        ensures { result ≡ (self.now.mark == begun_mark) }
    {
        self.mark == BEGUN
    }

    /// Returns the operation that is due, or the end of the run.
    pub fn due(&self) -> Operation
        ensures { (s : State) → Represents self.now s → result ≡ s.due }
    {
        if self.is_begun() {
            self.progress.due()
        } else {
            Operation::Nothing
        }
    }

    /// Reports that the operation that is due was done.
    pub fn done(&mut self) -> Result<(), Refusal<InstallFault>>
        // If the installation represents a state, the result and the new state are those that `step`
        // computes from this state and this event.
        ensures steps { CallSteps Done self.old self.new result }
        // After `NotDue` the installation is unchanged.
        ensures misuse { result ≡ Err (WrongUse NotDue) → self.new ≡ self.old }
    {
        if self.is_begun() {
            self.progress.done()
        } else {
            Err(Refusal::WrongUse(Misuse::NotDue))
        }
    }

    /// Reports that a piece of `len` bytes was copied.
    pub fn copied(&mut self, len: u64) -> Result<(), Refusal<InstallFault>>
        // If the installation represents a state, the result and the new state are those that `step`
        // computes from this state and this event.
        ensures steps { CallSteps (PieceCopied len) self.old self.new result }
        // After `NotDue` the installation is unchanged.
        ensures misuse { result ≡ Err (WrongUse NotDue) → self.new ≡ self.old }
    {
        if self.is_begun() {
            self.progress.copied(len)
        } else {
            Err(Refusal::WrongUse(Misuse::NotDue))
        }
    }

    /// Reports that the operation that is due failed: memory ran out, or reading, writing or the random
    /// source failed.
    pub fn failed(&mut self, fault: NamedFault) -> Result<(), Refusal<InstallFault>>
        // If the installation represents a state, the result and the new state are those that `step`
        // computes from this state and this event.
        ensures steps { CallSteps (Failed fault) self.old self.new result }
        // After `NotDue` the installation is unchanged.
        ensures misuse { result ≡ Err (WrongUse NotDue) → self.new ≡ self.old }
    {
        if self.is_begun() {
            self.progress.failed(fault)
        } else {
            Err(Refusal::WrongUse(Misuse::NotDue))
        }
    }

    /// Reports that another process holds the lock, and the application gave up waiting for it.
    pub fn in_use(&mut self) -> Result<(), Refusal<InstallFault>>
        // If the installation represents a state, the result and the new state are those that `step`
        // computes from this state and this event.
        ensures steps { CallSteps InUse self.old self.new result }
        // After `NotDue` the installation is unchanged.
        ensures misuse { result ≡ Err (WrongUse NotDue) → self.new ≡ self.old }
    {
        if self.is_begun() {
            self.progress.in_use()
        } else {
            Err(Refusal::WrongUse(Misuse::NotDue))
        }
    }

    /// Reports the bytes of the record.
    pub fn record(&mut self, bytes: &[u8]) -> Result<(), Refusal<InstallFault>>
        // If the installation represents a state, the result and the new state are those that `step`
        // computes from this state and this event.
        ensures steps { CallSteps (RecordRead (Some bytes.now)) self.old self.new result }
        // After `NotDue` the installation is unchanged.
        ensures misuse { result ≡ Err (WrongUse NotDue) → self.new ≡ self.old }
    {
        if self.is_begun() {
            self.progress.record(bytes)
        } else {
            Err(Refusal::WrongUse(Misuse::NotDue))
        }
    }

    /// Reports that there is no record.
    pub fn no_record(&mut self) -> Result<(), Refusal<InstallFault>>
        // If the installation represents a state, the result and the new state are those that `step`
        // computes from this state and this event.
        ensures steps { CallSteps (RecordRead None) self.old self.new result }
        // After `NotDue` the installation is unchanged.
        ensures misuse { result ≡ Err (WrongUse NotDue) → self.new ≡ self.old }
    {
        if self.is_begun() {
            self.progress.no_record()
        } else {
            Err(Refusal::WrongUse(Misuse::NotDue))
        }
    }

    /// Reports the next bytes of the file that is being read, or its end, if `bytes` is empty.
    pub fn piece(&mut self, bytes: &[u8]) -> Result<(), Refusal<InstallFault>>
        // If the installation represents a state, the result and the new state are those that `step`
        // computes from this state and this event.
        ensures steps { (s : State) → Represents self.old s
            → Represents self.new (step s (piece_event s.due bytes.now)).1
            × (result ≡ (step s (piece_event s.due bytes.now)).0) }
        // After `NotDue` the installation is unchanged.
        ensures misuse { result ≡ Err (WrongUse NotDue) → self.new ≡ self.old }
    {
        if self.is_begun() {
            self.progress.bytes(bytes)
        } else {
            Err(Refusal::WrongUse(Misuse::NotDue))
        }
    }

    /// Reports that there is no file at the target.
    pub fn no_target(&mut self) -> Result<(), Refusal<InstallFault>>
        // If the installation represents a state, the result and the new state are those that `step`
        // computes from this state and this event.
        ensures steps { CallSteps TargetMissing self.old self.new result }
        // After `NotDue` the installation is unchanged.
        ensures misuse { result ≡ Err (WrongUse NotDue) → self.new ≡ self.old }
    {
        if self.is_begun() {
            self.progress.no_target()
        } else {
            Err(Refusal::WrongUse(Misuse::NotDue))
        }
    }

    /// Reports the signature file and the time, in seconds since the beginning of 1970, or `None` for a time
    /// before that. Writes the message of the question about the trusted comment to the start of `message`,
    /// and returns its length. `file` is the name that the trusted comment must contain. A buffer as long as
    /// the signature file is always long enough.
    ///
    /// If the message does not fit into the buffer, the result is `NoRoom`, and nothing is reported.
    pub fn signature(
        &mut self,
        sig_text: &[u8],
        file: &[u8],
        time: Option<u64>,
        message: &mut [u8],
    ) -> Result<usize, Refusal<InstallFault>>
        // If the installation represents a state with the file name `file` in its options, the result and
        // the new state are those that `step` computes from it and this event. After `NoRoom` and `NotDue`
        // the installation is unchanged. After every error the buffer is unchanged.
        ensures steps { (s : State) → Represents self.old s → s.options.file ≡ file.now
            → SignatureSteps sig_text.now time s result (Represents self.new) message.old message.new }
        ensures unchanged { OnErr result (message.new ≡ message.old) }
        ensures misuse { result ≡ Err (WrongUse NotDue) → self.new ≡ self.old }
        ensures unchanged_if_no_room { result ≡ Err (WrongUse NoRoom) → self.new ≡ self.old }
    {
        if self.is_begun() {
            self.progress.signature(sig_text, file, time, message)
        } else {
            Err(Refusal::WrongUse(Misuse::NotDue))
        }
    }

    /// Reports the signed list of files, which must be passed as a whole, and the name to look up in it.
    pub fn list(&mut self, list: &[u8], name: &[u8]) -> Result<(), Refusal<InstallFault>>
        // If the installation represents a state, the result and the new state are those that `step`
        // computes from this state and this event.
        ensures steps { CallSteps (ListRead list.now name.now) self.old self.new result }
        // After `NotDue` the installation is unchanged.
        ensures misuse { result ≡ Err (WrongUse NotDue) → self.new ≡ self.old }
    {
        if self.is_begun() {
            self.progress.list(list, name)
        } else {
            Err(Refusal::WrongUse(Misuse::NotDue))
        }
    }

    /// Returns the question for Ed25519 that is due, or `None` if none is due.
    pub fn question(&self) -> Option<Question>
        ensures { (s : State) → Represents self.now s → result ≡ question_due s }
    {
        if self.is_begun() {
            self.progress.question()
        } else {
            None
        }
    }

    /// Reports the result of Ed25519: `ANSWER_YES` or `ANSWER_NO`.
    pub fn answer(&mut self, accepted: u32) -> Result<(), Refusal<InstallFault>>
        ensures steps { is_answer accepted ≡ true
            → CallSteps (Answered (accepted == answer_yes)) self.old self.new result }
        // Any other number is rejected, and the installation is unchanged.
        ensures rejects_bad_answer { is_answer accepted ≡ false
            → (result ≡ Err (WrongUse BadAnswer)) × (self.new ≡ self.old) }
        // After `NotDue` the installation is unchanged.
        ensures misuse { result ≡ Err (WrongUse NotDue) → self.new ≡ self.old }
    {
        if is_answer(accepted) {
            self.answered(accepted == ANSWER_YES)
        } else {
            Err(Refusal::WrongUse(Misuse::BadAnswer))
        }
    }

    // Reports the result of Ed25519.
    fn answered(&mut self, accepted: bool) -> Result<(), Refusal<InstallFault>>
        // If the installation represents a state, the result and the new state are those that `step`
        // computes from this state and this event.
        ensures steps { CallSteps (Answered accepted) self.old self.new result }
        // After `NotDue` the installation is unchanged.
        ensures misuse { result ≡ Err (WrongUse NotDue) → self.new ≡ self.old }
    {
        if self.is_begun() {
            self.progress.answer(accepted)
        } else {
            Err(Refusal::WrongUse(Misuse::NotDue))
        }
    }

    /// Returns true if Ed25519 has accepted the signature of the trusted comment under one of the keys.
    pub fn is_signed(&self) -> bool
        ensures { (s : State) → Represents self.now s → result ≡ s.is_signed }
    {
        if self.is_begun() {
            self.progress.is_signed == 1
        } else {
            false
        }
    }

    /// Returns the version number of the update, or 0 unless `is_signed` is true.
    pub fn version(&self) -> u64
        ensures { (s : State) → Represents self.now s → result ≡ (if s.is_signed then s.version else 0) }
    {
        if self.is_begun() {
            self.progress.version()
        } else {
            0
        }
    }

    /// Returns the signed size, if the comment has one and `is_signed` is true.
    pub fn size(&self) -> Option<u64>
        ensures { (s : State) → Represents self.now s → result ≡ (if s.is_signed then s.size else None) }
    {
        if self.is_begun() {
            self.progress.size()
        } else {
            None
        }
    }

    /// Writes the new record to the start of `to`, if writing it is due. Returns its length, or 0 if writing
    /// it is not due or the buffer is too short. A record has at most 224 bytes.
    pub fn record_text(&self, to: &mut [u8]) -> usize
        ensures written { (s : State) → Represents self.now s
            → IsWrittenIf (record_due s) result to.old to.new }
        // The bytes that were written parse to the version number, the key and the digest that the run
        // records: those of the update, or after a roll-back the recorded version and its key.
        ensures reads_back { (s : State) → Represents self.now s → 0 < result
            → IsNewRecord s (take result to.new) }
        // The rest of the buffer is unchanged, in every case.
        ensures rest_unchanged { drop result to.new ≡ drop result to.old }
    {
        if self.is_begun() {
            self.progress.record_text(to)
        } else {
            0
        }
    }

    /// Returns the number of the error with which the run is rejected, or 0 if it is not rejected.
    pub fn error(&self) -> u32
        ensures { (s : State) → Represents self.now s → result ≡ error_number s.error }
    {
        if self.is_begun() {
            self.progress.error
        } else {
            0
        }
    }

    /// Returns the number of the line of the list for which the run is rejected: the first malformed line, or
    /// the second line with the name. Returns 0 if the run is not rejected for a line, or if the signature of
    /// the list was not found to be valid.
    pub fn line(&self) -> u64
        ensures { (s : State) → Represents self.now s → result ≡ line_at_fault s }
    {
        if self.is_begun() {
            self.progress.line()
        } else {
            0
        }
    }
}

impl Choices {
    // Returns true if each option is 0 or 1.
    fn are_flags(&self) -> bool
        ensures { result ≡ are_flags self.now }
    {
        self.is_first <= 1
            && self.again <= 1
            && self.is_check <= 1
            && self.must_expire <= 1
            && self.new_key <= 1
            && self.roll_back <= 1
            && self.is_list <= 1
    }

    // Returns true unless `is_first`, which installs without a record, is combined with an option that needs
    // one.
    fn fit_together(&self) -> bool
        ensures { result ≡ choices_fit self.now }
    {
        self.is_first != 1 || (self.new_key != 1 && self.roll_back != 1)
    }

    // Returns `BadOption` if an option is not 0 or 1 or two options must not be combined, else `BadNumbering`
    // if there is no such field, else `BadHash` if `long_digest` is not 0, 2 or 3.
    fn test(&self) -> Result<(), Misuse>
        ensures { MatchResult result (λ _. choices_misuse self.now ≡ None)
            (λ m. choices_misuse self.now ≡ Some m) }
    {
        if !self.are_flags() || !self.fit_together() {
            return Err(Misuse::BadOption);
        }
        if self.numbering > 1 {
            return Err(Misuse::BadNumbering);
        }
        match LongDigest::of_number(self.long_digest) {
            Some(_) => Ok(()),
            None => Err(Misuse::BadHash),
        }
    }
}

impl Operation {
    /// Returns the number of the operation.
    pub fn number(self) -> u32
        ensures { operation_of result ≡ self }
    {
        self as u32
    }

    // Returns the operation with this number, or `Nothing` if there is none.
    pub(crate) fn of_number(number: u32) -> Operation
        ensures { result ≡ operation_of number }
    {
        use Operation::*;
        if number > 30 {
            return Nothing;
        }
        match number {
            0 => Nothing,
            1 => Lock,
            2 => ReadRecord,
            3 => ReadSignature,
            4 => CheckComment,
            5 => ReadList,
            6 => CheckList,
            7 => CheckRecord,
            8 => ReadTarget,
            9 => CheckTarget,
            10 => SyncTarget,
            11 => SyncTargetName,
            12 => RemoveLeftovers,
            13 => CreateFile,
            14 => CopyData,
            15 => ReadBack,
            16 => CheckData,
            17 => SetPermissions,
            18 => SyncFile,
            19 => CreateRecord,
            20 => WriteRecord,
            21 => SyncRecord,
            22 => RenameRecord,
            23 => SyncRecordName,
            24 => RenameFile,
            25 => SyncFileName,
            26 => RemoveFiles,
            27 => Installed,
            28 => AlreadyInstalled,
            29 => WouldInstall,
            30 => Rejected,
            _ => Nothing,
        }
    }

    // Returns the operation that always follows this one when it is done, or `None` if the next operation
    // depends on the state.
    pub(crate) fn next(self) -> Option<Operation>
        ensures { result ≡ next self }
    {
        use Operation::*;
        Some(match self {
            Lock => ReadRecord,
            ReadTarget => CheckTarget,
            SyncTarget => SyncTargetName,
            SyncTargetName => AlreadyInstalled,
            RemoveLeftovers => CreateFile,
            CreateFile => CopyData,
            ReadBack => CheckData,
            SetPermissions => SyncFile,
            SyncFile => CreateRecord,
            CreateRecord => WriteRecord,
            WriteRecord => SyncRecord,
            SyncRecord => RenameRecord,
            RenameRecord => SyncRecordName,
            SyncRecordName => RenameFile,
            RenameFile => SyncFileName,
            SyncFileName => Installed,
            RemoveFiles => Rejected,
            _ => return None,
        })
    }

    // Returns true if, when this operation is due, the run has a temporary file that it has not renamed.
    pub(crate) fn has_files(self) -> bool
        ensures { result ≡ has_files self }
    {
        use Operation::*;
        matches!(
            self,
            CopyData
                | ReadBack
                | CheckData
                | SetPermissions
                | SyncFile
                | CreateRecord
                | WriteRecord
                | SyncRecord
                | RenameRecord
                | SyncRecordName
                | RenameFile
        )
    }

    // Returns the operation that is due if the run is rejected at this one.
    pub(crate) fn rejected(self) -> Operation
        ensures { result ≡ (if has_files self then RemoveFiles else Rejected) }
    {
        if self.has_files() {
            Operation::RemoveFiles
        } else {
            Operation::Rejected
        }
    }

    // Returns true if the run has ended, or was never begun.
    pub(crate) fn has_ended(self) -> bool
        ensures { result ≡ is_over self }
    {
        use Operation::*;
        matches!(
            self,
            Nothing | Installed | AlreadyInstalled | WouldInstall | Rejected
        )
    }

    // Returns true if temporary files are being removed.
    pub(crate) fn is_removing(self) -> bool
        ensures { result ≡ is_removing self }
    {
        matches!(self, Operation::RemoveFiles)
    }

    // Returns the error with which the run is rejected if this operation fails.
    pub(crate) fn failure(self, fault: NamedFault) -> InstallFault
        ensures { result ≡ failure self fault }
    {
        use Operation::*;
        match self {
            SyncTarget | SyncTargetName | SyncFileName => InstallFault::DirectoryNotSynced,
            _ => fault.into(),
        }
    }

    // Returns true if the operation is to lock the target.
    pub(crate) fn is_locking(self) -> bool
        ensures { result ≡ is_locking self }
    {
        matches!(self, Operation::Lock)
    }

    // Returns true if the operation is to read the record.
    pub(crate) fn is_reading_record(self) -> bool
        ensures { result ≡ is_reading_record self }
    {
        matches!(self, Operation::ReadRecord)
    }

    // Returns true if the operation is to read the signature file.
    pub(crate) fn is_reading_signature(self) -> bool
        ensures { result ≡ is_reading_signature self }
    {
        matches!(self, Operation::ReadSignature)
    }

    // Returns true if the operation is to read the signed list.
    pub(crate) fn is_reading_list(self) -> bool
        ensures { result ≡ is_reading_list self }
    {
        matches!(self, Operation::ReadList)
    }

    // Returns true if the operation is to write the new record.
    pub(crate) fn is_writing_record(self) -> bool
        ensures { result ≡ is_writing_record self }
    {
        matches!(self, Operation::WriteRecord)
    }

    // Returns true if the data is being copied.
    pub(crate) fn is_copying(self) -> bool
        ensures { result ≡ is_copying self }
    {
        matches!(self, Operation::CopyData)
    }

    // Returns true if the installed file is being read.
    pub(crate) fn is_reading_target(self) -> bool
        ensures { result ≡ is_reading_target self }
    {
        matches!(self, Operation::ReadTarget)
    }

    // Returns true if the installed file or the temporary file is being read.
    pub(crate) fn is_reading(self) -> bool
        ensures { result ≡ is_reading self }
    {
        matches!(self, Operation::ReadTarget | Operation::ReadBack)
    }
}
