//! Decides whether a recorded run is that of a lawful application, so that the laws in `histories` apply to
//! it. Nothing here allocates.

ghost use Rattle.std.specs.Prelude.{◌≡◌, ◌++◌, ◌<◌, ◌≤◌, ℕ, List, IfSome, None, Some, MatchOption, true};
ghost use Rattle.std.specs.Prelude.{false};
ghost use Rattle.std.specs.Prelude.{Option, option_map, take, bytes_eq, length, Result, Err, is_some, []};
ghost use Rattle.std.specs.Prelude.{if◌then◌else◌, ◌≢◌, ◌∷◌, ◌+◌};
ghost use Rattle.minisign_external.specs.declared.state.Refusal.TheVariants.{WrongUse};
ghost use Rattle.minisign_external.specs.declared.state.Misuse.TheVariants.{NotDue};
ghost use Rattle.minisign_external.specs.declared.state.Misuse.{Misuse};
ghost use Rattle.minisign.specs.SignatureText.{read_signature};
ghost use Rattle.minisign_external.specs.PublicKeys.{read_utf8};
ghost use Rattle.minisign_install.specs.Applications.{Snapshot, Others, Performs, grown};
ghost use Rattle.minisign_install.specs.Installations.{Represents, choices_misuse, options_by, question_due};
ghost use Rattle.minisign_install.specs.Step.{Answered, Done, Failed, InUse, PieceCopied, PieceRead, State};
ghost use Rattle.minisign_install.specs.Step.{CopyData, Lock, ReadRecord, ReadSignature, ReadTarget, begin};
ghost use Rattle.minisign_install.specs.Step.{RecordRead, SignatureRead, TargetMissing, WriteRecord, after};
ghost use Rattle.minisign_install.specs.Step.{new_record, step};
ghost use Rattle.minisign_install.specs.StepRuns.{World};
ghost use Rattle.minisign_install.specs.Traces.{HasReported, IsFollowed};
ghost use Rattle.minisign_install.specs.Traces.{CanGrow, HasCopied, MessageFits, HasWritten, IsDoneAs};
ghost use Rattle.minisign_install.specs.Traces.{IsNextRead, ReportMatches, IsPieceOf, IsReadFrom};
ghost use Rattle.minisign_install.specs.Traces.{IsRecordDue};
ghost use Rattle.minisign_install.specs.Traces.{IsRecorded, is_reported, source_at};
ghost use Rattle.minisign_install.specs.Traces.{FollowerHolds, HasFollowed, IsLawful, IsLawfulCall};
ghost use Rattle.minisign_install.specs.Traces.{AreFilesOf};
ghost use Rattle.minisign_install.specs.Traces.{HasInputs};
ghost use Rattle.minisign_install.specs.Traces.{affected, bytes_seen, changed, event_of, has_failed};
ghost use Rattle.minisign_install.specs.Traces.{installs, is_done, is_growing, is_listed, is_nothing};
ghost use Rattle.minisign_install.specs.Traces.{is_plain, is_read, read_after, seen_as, with_bytes, world_of};

use crate::faults::InstallFault;
use crate::installation::{Choices, Installation, Operation};
use minisign_base::NamedFault;
use minisign_external::numbers::{ANSWER_NO, ANSWER_YES};
use minisign_external::public_keys::PublicKeyValue;
use minisign_external::state::Refusal;

/// A file. Files with the same number are the same file.
#[derive(Clone, Copy)]
pub struct FileView<'a> {
    pub number: u64,
    pub bytes: &'a [u8],
}

/// The files that processes find: the installed file, the record, and the two temporary files of this run.
#[derive(Clone, Copy)]
pub struct Files<'a> {
    pub target: Option<FileView<'a>>,
    pub recorded: Option<FileView<'a>>,
    pub data_file: Option<FileView<'a>>,
    pub record_file: Option<FileView<'a>>,
    /// This run holds the lock.
    pub is_locked: bool,
    /// Another run holds the lock.
    pub is_busy: bool,
}

/// A message, a key and a signature that Ed25519 accepts.
#[derive(Clone, Copy)]
pub struct Signed<'a> {
    pub message: &'a [u8],
    pub key: [u8; 32],
    pub signature: [u8; 64],
}

/// The inputs of the run.
#[derive(Clone, Copy)]
pub struct RunInputs<'a> {
    /// All signatures that Ed25519 accepts.
    pub signed: &'a [Signed<'a>],
    /// The bytes of the record.
    pub recorded: Option<&'a [u8]>,
    /// The bytes of the signature file.
    pub sig_text: &'a [u8],
    /// The data.
    pub update: &'a [u8],
    /// The maximum length of the installed file.
    pub max_size: usize,
}

/// An event that the application reports to the installer, by a call of `Installation`.
#[derive(Clone, Copy)]
pub enum Report<'a> {
    Done,
    InUse,
    Failed(NamedFault),
    Recorded(Option<&'a [u8]>),
    Signature(&'a [u8], Option<u64>),
    Answered(bool),
    NoTarget,
    Piece(&'a [u8]),
    Copied(u64),
}

/// The effect of an operation on the files. `Data` is the temporary file of the data, `Record` that of the
/// record.
#[derive(Clone, Copy)]
pub enum Effect<'a> {
    Nothing,
    Locked,
    /// The file with this number was read to its end.
    TargetOpened(u64),
    /// The file that was read to its end was synced.
    TargetSynced,
    /// The directory was synced.
    NamesSynced,
    LeftoversRemoved,
    DataCreated(u64),
    DataGrown(&'a [u8]),
    DataPermitted,
    DataSynced,
    DataRenamed,
    RecordCreated(u64),
    RecordWritten(&'a [u8]),
    RecordSynced,
    RecordRenamed,
    FilesRemoved,
}

/// The change that another process made.
#[derive(Clone, Copy)]
pub enum Change<'a> {
    /// It replaced or removed the installed file.
    Target(Option<FileView<'a>>),
    /// It replaced or removed the record.
    Recorded(Option<FileView<'a>>),
    /// It locked the target, or unlocked it.
    Busy(bool),
}

/// A line of a trace.
#[derive(Clone, Copy)]
pub enum Line<'a> {
    /// A change by another process.
    Others(Change<'a>),
    /// The operation that was due: what the application reported, and the effect of the operation on the
    /// files.
    Call(Report<'a>, Effect<'a>),
}

// The state of a run after some lines of its trace. `source` is the content of the file that is being read,
// and `read` the part of it that was read so far.
#[derive(Clone, Copy)]
pub struct Follower<'a> {
    pub(crate) installation: Installation,
    pub(crate) files: Files<'a>,
    pub(crate) read: &'a [u8],
    pub(crate) source: &'a [u8],
    // The length of the message of the question about the trusted comment, once it is written.
    pub(crate) message_len: usize,
}

// Returns true if the table contains this signature.
fn is_listed(table: &[Signed], message: &[u8], key: &[u8; 32], signature: &[u8; 64]) -> bool
    ensures { result ≡ is_listed table.now message.now key.now signature.now }
{
    'signatures: for signed in table {
        if signed.message == message && signed.key == *key && signed.signature == *signature {
            return true;
        }
    }
    false
}

// Returns the prefix of `whole` that consists of `front` and `piece`, if `whole` begins with them.
fn extended<'a>(whole: &'a [u8], front: &[u8], piece: &[u8]) -> Option<&'a [u8]>
    ensures sound { IfSome result (λ r. (r.now ≡ front.now ++ piece.now)
        × ((rest : List ℕ) × (r.now ++ rest ≡ whole.now))) }
    ensures complete { IsPieceOf whole.now front.now piece.now → is_some result ≡ true }
{
    if whole.len() < front.len() || whole.len() - front.len() < piece.len() {
        return None;
    }
    let (grown, _) = whole.split_at(front.len() + piece.len());
    let (start, next) = grown.split_at(front.len());
    if *start == *front && *next == *piece {
        Some(grown)
    } else {
        None
    }
}

// Returns the bytes of a file, or none if there is no file.
fn bytes_seen<'a>(file: &Option<FileView<'a>>) -> &'a [u8]
    ensures { result.now ≡ bytes_seen file.now }
{
    match *file {
        Some(file) => file.bytes,
        None => &[],
    }
}

impl<'a> Effect<'a> {
    // Returns true if the operation had no effect.
    fn is_nothing(&self) -> bool
        ensures { result ≡ is_nothing self.now }
    {
        matches!(*self, Effect::Nothing)
    }

    // Returns true if data was appended to the temporary file.
    fn is_growing(&self) -> bool
        ensures { result ≡ is_growing self.now }
    {
        matches!(*self, Effect::DataGrown(_))
    }

    // Returns true if the operation has this effect whenever it succeeds, whatever the files contain.
    fn is_plain(&self, due: Operation) -> bool
        ensures { result ≡ is_plain due self.now }
    {
        match due {
            Operation::SyncTarget => matches!(*self, Effect::TargetSynced),
            Operation::SyncTargetName => matches!(*self, Effect::NamesSynced),
            Operation::RemoveLeftovers => matches!(*self, Effect::LeftoversRemoved),
            Operation::CreateFile => matches!(*self, Effect::DataCreated(_)),
            Operation::SetPermissions => matches!(*self, Effect::DataPermitted),
            Operation::SyncFile => matches!(*self, Effect::DataSynced),
            Operation::CreateRecord => matches!(*self, Effect::RecordCreated(_)),
            Operation::SyncRecord => matches!(*self, Effect::RecordSynced),
            Operation::RenameRecord => matches!(*self, Effect::RecordRenamed),
            Operation::SyncRecordName => matches!(*self, Effect::NamesSynced),
            Operation::RenameFile => matches!(*self, Effect::DataRenamed),
            Operation::SyncFileName => matches!(*self, Effect::NamesSynced),
            Operation::RemoveFiles => matches!(*self, Effect::FilesRemoved),
            _ => false,
        }
    }

    // Returns true if the operation may have this effect although it fails.
    fn has_failed(&self, due: Operation) -> bool
        ensures { result ≡ has_failed due self.now }
    {
        match (due, *self) {
            (Operation::RenameRecord, Effect::RecordRenamed) => true,
            (Operation::RenameFile, Effect::DataRenamed) => true,
            (Operation::RemoveFiles, Effect::FilesRemoved) => true,
            _ => self.is_nothing(),
        }
    }
}

impl<'a> Files<'a> {
    // Returns true if the file at the target has this number, and these bytes.
    fn is_read(&self, number: u64, read: &[u8]) -> bool
        ensures { result ≡ is_read number read.now self.now.target }
    {
        match self.target {
            Some(file) => file.number == number && file.bytes == read,
            None => false,
        }
    }

    // Returns true if the operation may be reported as done with this effect. Writing the record is checked
    // by `has_written`.
    fn are_done(&self, due: Operation, effect: &Effect<'a>, read: &[u8], update: &[u8]) -> bool
        ensures { result ≡ is_done due effect.now self.now read.now update.now }
    {
        match (due, *effect) {
            (Operation::Lock, Effect::Locked) => !self.is_busy,
            (Operation::ReadTarget, Effect::TargetOpened(number)) => self.is_read(number, read),
            (Operation::CopyData, Effect::Nothing) => *bytes_seen(&self.data_file) == *update,
            (Operation::ReadBack, Effect::Nothing) => *read == *bytes_seen(&self.data_file),
            _ => effect.is_plain(due),
        }
    }

    // Returns the files after an effect that is not `DataGrown`.
    fn after(&self, effect: &Effect<'a>) -> Files<'a>
        ensures { is_growing effect.now ≡ false → (m : Snapshot) → AreFilesOf self.now m
            → AreFilesOf result (affected effect.now m) }
    {
        match *effect {
            Effect::Locked => Files {
                is_locked: true,
                ..*self
            },
            Effect::DataCreated(number) => Files {
                data_file: Some(FileView { number, bytes: &[] }),
                ..*self
            },
            Effect::DataRenamed => Files {
                target: self.data_file,
                data_file: None,
                ..*self
            },
            Effect::RecordCreated(number) => Files {
                record_file: Some(FileView { number, bytes: &[] }),
                ..*self
            },
            Effect::RecordWritten(bytes) => Files {
                record_file: with_bytes(&self.record_file, bytes),
                ..*self
            },
            Effect::RecordRenamed => Files {
                recorded: self.record_file,
                record_file: None,
                ..*self
            },
            Effect::FilesRemoved => Files {
                data_file: None,
                record_file: None,
                ..*self
            },
            _ => *self,
        }
    }

    // Returns the files after this change by another process, or `None` if other processes must not make it:
    // the record does not change while this run holds the lock.
    fn changed(&self, change: &Change<'a>) -> Option<Files<'a>>
        ensures sound { IfSome result (λ f. (m : Snapshot) → AreFilesOf self.now m
            → Others m (changed change.now m) × AreFilesOf f (changed change.now m)) }
        ensures complete { (m : Snapshot) → AreFilesOf self.now m → Others m (changed change.now m)
            → is_some result ≡ true }
    {
        match *change {
            Change::Target(target) => Some(Files { target, ..*self }),
            Change::Recorded(recorded) => {
                if self.is_locked {
                    None
                } else {
                    Some(Files { recorded, ..*self })
                }
            }
            Change::Busy(is_busy) => Some(Files { is_busy, ..*self }),
        }
    }
}

// Returns the file with its bytes replaced by these.
fn with_bytes<'a>(file: &Option<FileView<'a>>, bytes: &'a [u8]) -> Option<FileView<'a>>
    ensures { option_map seen_as result ≡ with_bytes bytes.now (option_map seen_as file.now) }
{
    match *file {
        Some(file) => Some(FileView {
            number: file.number,
            bytes,
        }),
        None => None,
    }
}

// Returns true if this is the result of an event that fitted the operation that was due.
fn was_due(outcome: Result<(), Refusal<InstallFault>>) -> bool
    ensures wrong { outcome ≡ Err (WrongUse NotDue) → result ≡ false }
    ensures due { ((m : Misuse) → outcome ≢ Err (WrongUse m)) → result ≡ true }
{
    !matches!(outcome, Err(Refusal::WrongUse(_)))
}

// Reports an event to the installer. Returns true if it fits the operation that was due. For a signature
// file, which `report_signature` reports, and for an empty piece the result is false.
fn has_reported(installation: &mut Installation, report: &Report) -> bool
    ensures sound { result ≡ true → (s : State) → Represents installation.old s
        → Represents installation.new (step s (event_of report.now)).1
        × (is_some (after s.due (event_of report.now) s) ≡ true) }
    ensures complete { (s : State) → Represents installation.old s
        → is_some (after s.due (event_of report.now) s) ≡ true → is_reported report.now ≡ true
        → result ≡ true }
{
    match *report {
        Report::Done => was_due(installation.done()),
        Report::InUse => was_due(installation.in_use()),
        Report::Failed(fault) => was_due(installation.failed(fault)),
        Report::Recorded(Some(bytes)) => was_due(installation.record(bytes)),
        Report::Recorded(None) => was_due(installation.no_record()),
        Report::Signature(_, _) => false,
        Report::Answered(true) => was_due(installation.answer(ANSWER_YES)),
        Report::Answered(false) => was_due(installation.answer(ANSWER_NO)),
        Report::NoTarget => was_due(installation.no_target()),
        Report::Piece(bytes) => !bytes.is_empty() && was_due(installation.piece(bytes)),
        Report::Copied(len) => was_due(installation.copied(len)),
    }
}

impl<'a> Follower<'a> {
    // Returns true if these bytes are the new record.
    fn is_new_record(&self, bytes: &[u8]) -> bool
        ensures sound { result ≡ true → (s : State) → Represents self.now.installation s → s.due ≡ WriteRecord
            → bytes.now ≡ new_record s }
        ensures complete { (s : State) → Represents self.now.installation s → IsRecordDue s bytes.now
            → result ≡ true }
    {
        let mut room = [0u8; 224];
        let len = self.installation.record_text(&mut room);
        if len == 0 || len > 224 {
            return false;
        }
        let (text, _) = room.split_at(len);
        *bytes == *text
    }

    // Returns true if the effect is that the new record was written.
    fn has_written(&self, effect: &Effect<'a>) -> bool
        ensures sound { result ≡ true → (w : World) (s : State) (m : Snapshot)
            → Represents self.now.installation s
            → s.due ≡ WriteRecord → Performs w s WriteRecord Done m (affected effect.now m) }
        ensures complete { (s : State) → Represents self.now.installation s → HasWritten s effect.now
            → result ≡ true }
    {
        match *effect {
            Effect::RecordWritten(bytes) => self.is_new_record(bytes),
            _ => false,
        }
    }

    // Returns true if the operation that is due may be reported as done with this effect.
    fn is_done(&self, inputs: &RunInputs<'a>, effect: &Effect<'a>) -> bool
        ensures sound { result ≡ true → (message : List ℕ) (s : State) (m : Snapshot)
            → FollowerHolds (world_of inputs.now) self.now message s m
            → Performs (world_of inputs.now) s s.due Done m (affected effect.now m) }
        ensures complete { (message : List ℕ) (s : State) (m : Snapshot)
            → FollowerHolds (world_of inputs.now) self.now message s m
            → Performs (world_of inputs.now) s s.due Done m (affected effect.now m)
            → IsDoneAs s s.due effect.now → result ≡ true }
    {
        match self.installation.due() {
            Operation::WriteRecord => self.has_written(effect),
            due => self.files.are_done(due, effect, self.read, inputs.update),
        }
    }

    // Returns true if the application may report that another run holds the lock.
    fn is_in_use(&self, effect: &Effect<'a>) -> bool
        ensures sound { result ≡ true → (w : World) (message : List ℕ) (s : State) (m : Snapshot)
            → FollowerHolds w self.now message s m → Performs w s s.due InUse m (affected effect.now m) }
        ensures complete { (s : State) → Represents self.now.installation s → s.due ≡ Lock
            → self.now.files.is_busy ≡ true → is_nothing effect.now ≡ true → result ≡ true }
    {
        self.installation.due() == Operation::Lock && self.files.is_busy && effect.is_nothing()
    }

    // Returns true if the operation that is due may have failed with this effect.
    fn has_failed(&self, fault: NamedFault, effect: &Effect<'a>) -> bool
        ensures sound { result ≡ true → (w : World) (message : List ℕ) (s : State) (m : Snapshot)
            → FollowerHolds w self.now message s m
            → Performs w s s.due (Failed fault) m (affected effect.now m) }
        ensures complete { (s : State) → Represents self.now.installation s
            → has_failed s.due effect.now ≡ true → result ≡ true }
    {
        effect.has_failed(self.installation.due())
    }

    // Returns true if reading the record is due, and it is both the one among the inputs and the current
    // file.
    fn has_read_record(&self, inputs: &RunInputs<'a>, record: Option<&'a [u8]>) -> bool
        ensures sound { result ≡ true → (message : List ℕ) (s : State) (m : Snapshot)
            → FollowerHolds (world_of inputs.now) self.now message s m
            → Performs (world_of inputs.now) s s.due (RecordRead (option_map (λ r. r.now) record.entry)) m m }
        ensures complete { (s : State) → Represents self.now.installation s → s.due ≡ ReadRecord
            → option_map (λ r. r.now) record.entry ≡ (world_of inputs.now).found_record
            → option_map (λ r. r.now) record.entry ≡ option_map (λ v. v.bytes.now) self.now.files.recorded
            → result ≡ true }
    {
        self.installation.due() == Operation::ReadRecord
            && same(record, inputs.recorded)
            && same(record, bytes_at(&self.files.recorded))
    }

    // Returns true if reading the signature file is due, and it is the one among the inputs of the run.
    fn has_read_signature(&self, inputs: &RunInputs<'a>, text: &[u8]) -> bool
        ensures sound { result ≡ true → (time : Option ℕ) (message : List ℕ) (s : State) (m : Snapshot)
            → FollowerHolds (world_of inputs.now) self.now message s m
            → Performs (world_of inputs.now) s s.due
            (SignatureRead (read_utf8 read_signature text.now) time) m m }
        ensures complete { (s : State) → Represents self.now.installation s → s.due ≡ ReadSignature
            → text.now ≡ inputs.now.sig_text.now → result ≡ true }
    {
        self.installation.due() == Operation::ReadSignature && *text == *inputs.sig_text
    }

    // Returns true if reading the target is due, and there is no file.
    fn has_no_target(&self) -> bool
        ensures sound { result ≡ true → (w : World) (message : List ℕ) (s : State) (m : Snapshot)
            → FollowerHolds w self.now message s m → Performs w s s.due TargetMissing m m }
        ensures complete { (s : State) → Represents self.now.installation s → s.due ≡ ReadTarget
            → self.now.files.target ≡ None → result ≡ true }
    {
        self.installation.due() == Operation::ReadTarget && self.files.target.is_none()
    }

    // Returns true if this is the result of Ed25519 for the question that is due.
    fn has_answered(&self, inputs: &RunInputs<'a>, message: &[u8], accepted: bool) -> bool
        ensures sound { result ≡ true → (file : List ℕ) (s : State) (m : Snapshot)
            → HasInputs (world_of inputs.now) file s
            → FollowerHolds (world_of inputs.now) self.now message.now s m
            → Performs (world_of inputs.now) s s.due (Answered accepted) m m }
        ensures complete { (file : List ℕ) (s : State) (m : Snapshot)
            → HasInputs (world_of inputs.now) file s
            → FollowerHolds (world_of inputs.now) self.now message.now s m
            → Performs (world_of inputs.now) s s.due (Answered accepted) m m
            → is_some (question_due s) ≡ true → result ≡ true }
    {
        let Some(question) = self.installation.question() else {
            return false;
        };
        if question.is_comment != 1 {
            return accepted
                == is_listed(
                    inputs.signed,
                    &question.digest,
                    &question.key,
                    &question.signature,
                );
        }
        if self.message_len == 0 || self.message_len > message.len() {
            return false;
        }
        let (text, _) = message.split_at(self.message_len);
        accepted == is_listed(inputs.signed, text, &question.key, &question.signature)
    }

    // Returns the bytes that were read including this piece, if it is the next piece of the file that is
    // being read.
    fn next_read(&self, max_size: usize, bytes: &[u8]) -> Option<&'a [u8]>
        ensures sound { IfSome result (λ r. (w : World) (message : List ℕ) (s : State) (m : Snapshot)
            → w.max_size ≡ max_size → FollowerHolds w self.now message s m
            → (r.now ≡ s.read ++ bytes.now) × Performs w s s.due (PieceRead bytes.now) m m) }
        ensures complete { (w : World) (message : List ℕ) (s : State) (m : Snapshot) → w.max_size ≡ max_size
            → FollowerHolds w self.now message s m → Performs w s s.due (PieceRead bytes.now) m m
            → IsNextRead s self.now.source.now bytes.now → is_some result ≡ true }
    {
        if bytes.is_empty() {
            return None;
        }
        match self.installation.due() {
            Operation::ReadTarget => match extended(self.source, self.read, bytes) {
                Some(read) if read.len() <= max_size => Some(read),
                _ => None,
            },
            Operation::ReadBack => extended(bytes_seen(&self.files.data_file), self.read, bytes),
            _ => None,
        }
    }

    // Returns the contents of the temporary file of the data including this piece, if it is the next piece of
    // the data.
    fn next_data(&self, update: &'a [u8], len: u64, piece: &[u8]) -> Option<&'a [u8]>
        ensures sound { IfSome result (λ r. (w : World) (message : List ℕ) (s : State) (m : Snapshot)
            → w.update ≡ update.now → FollowerHolds w self.now message s m
            → (r.now ≡ bytes_seen self.now.files.data_file ++ piece.now)
            × Performs w s s.due (PieceCopied len) m (record m { data_file = grown piece.now m.data_file })) }
        ensures complete { (s : State) → Represents self.now.installation s → s.due ≡ CopyData → 0 < len
            → length piece.now ≡ len → IsPieceOf update.now (bytes_seen self.now.files.data_file) piece.now
            → is_some result ≡ true }
    {
        if self.installation.due() != Operation::CopyData || len == 0 || piece.len() as u64 != len {
            return None;
        }
        extended(update, bytes_seen(&self.files.data_file), piece)
    }

    // Returns true if the effect is that the next piece of the data, of this length, was copied.
    fn has_copied(&self, update: &'a [u8], len: u64, effect: &Effect<'a>) -> bool
        ensures sound { result ≡ true → (w : World) (message : List ℕ) (s : State) (m : Snapshot)
            → w.update ≡ update.now → FollowerHolds w self.now message s m
            → Performs w s s.due (PieceCopied len) m (affected effect.now m) }
        ensures complete { (s : State) → Represents self.now.installation s → s.due ≡ CopyData
            → HasCopied update.now (bytes_seen self.now.files.data_file) len effect.now → result ≡ true }
    {
        match *effect {
            Effect::DataGrown(piece) => self.next_data(update, len, piece).is_some(),
            _ => false,
        }
    }

    // Returns true if the application has performed the operation that is due, with this effect, and its
    // report is true.
    fn has_performed(
        &self,
        inputs: &RunInputs<'a>,
        message: &[u8],
        report: &Report<'a>,
        effect: &Effect<'a>,
    ) -> bool
        ensures sound { result ≡ true → (file : List ℕ) (s : State) (m : Snapshot)
            → HasInputs (world_of inputs.now) file s
            → FollowerHolds (world_of inputs.now) self.now message.now s m
            → Performs (world_of inputs.now) s s.due (event_of report.now) m (affected effect.now m) }
        ensures complete { (file : List ℕ) (s : State) (m : Snapshot)
            → HasInputs (world_of inputs.now) file s
            → FollowerHolds (world_of inputs.now) self.now message.now s m
            → Performs (world_of inputs.now) s s.due (event_of report.now) m (affected effect.now m)
            → ReportMatches inputs.now s m self.now.source.now report.now effect.now → result ≡ true }
    {
        match *report {
            Report::Done => self.is_done(inputs, effect),
            Report::InUse => self.is_in_use(effect),
            Report::Failed(fault) => self.has_failed(fault, effect),
            Report::Recorded(record) => {
                effect.is_nothing() && self.has_read_record(inputs, record)
            }
            Report::Signature(text, _) => {
                effect.is_nothing() && self.has_read_signature(inputs, text)
            }
            Report::Answered(accepted) => {
                effect.is_nothing() && self.has_answered(inputs, message, accepted)
            }
            Report::NoTarget => effect.is_nothing() && self.has_no_target(),
            Report::Piece(bytes) => {
                effect.is_nothing() && self.next_read(inputs.max_size, bytes).is_some()
            }
            Report::Copied(len) => self.has_copied(inputs.update, len, effect),
        }
    }

    // Returns the files after this effect, or `None` if the piece is not the next one of the data.
    fn next_files(&self, inputs: &RunInputs<'a>, effect: &Effect<'a>) -> Option<Files<'a>>
        ensures sound { IfSome result (λ f. (message : List ℕ) (s : State) (m : Snapshot)
            → FollowerHolds (world_of inputs.now) self.now message s m
            → AreFilesOf f (affected effect.now m)) }
        ensures complete { (s : State) → Represents self.now.installation s
            → CanGrow s inputs.now.update.now (bytes_seen self.now.files.data_file) effect.now
            → is_some result ≡ true }
    {
        match *effect {
            Effect::DataGrown(piece) => {
                match self.next_data(inputs.update, piece.len() as u64, piece) {
                    Some(bytes) => Some(Files {
                        data_file: with_bytes(&self.files.data_file, bytes),
                        ..self.files
                    }),
                    None => None,
                }
            }
            _ => Some(self.files.after(effect)),
        }
    }

    // Returns the bytes that were read including this report, or `None` if its piece is not the next one of
    // the file.
    fn now_read(&self, inputs: &RunInputs<'a>, report: &Report<'a>) -> Option<&'a [u8]>
        ensures sound { IfSome result (λ r. (message : List ℕ) (s : State) (m : Snapshot)
            → FollowerHolds (world_of inputs.now) self.now message s m
            → r.now ≡ read_after (event_of report.now) s.read) }
        ensures complete { (message : List ℕ) (s : State) (m new : Snapshot)
            → FollowerHolds (world_of inputs.now) self.now message s m
            → Performs (world_of inputs.now) s s.due (event_of report.now) m new
            → IsReadFrom s self.now.source.now report.now → is_some result ≡ true }
    {
        match *report {
            Report::Piece(bytes) => self.next_read(inputs.max_size, bytes),
            _ => Some(self.read),
        }
    }

    // Keeps the content of the installed file as long as none of it was read. So the pieces that are read are
    // those of the file that was at the target when reading began.
    fn open_target(&mut self)
        ensures follows { (w : World) (message : List ℕ) (s : State) (m : Snapshot)
            → FollowerHolds w self.old message s m → FollowerHolds w self.new message s m }
        ensures source { (w : World) (message : List ℕ) (s : State) (m : Snapshot)
            → FollowerHolds w self.old message s m → self.new.source.now ≡ source_at s m self.old.source.now }
    {
        if self.read.is_empty() {
            self.source = bytes_seen(&self.files.target);
        }
    }

    // Reports the signature file. Returns true if it was due.
    fn report_signature(
        &mut self,
        file: &[u8],
        message: &mut [u8],
        text: &[u8],
        time: Option<u64>,
    ) -> bool
        ensures sound { result ≡ true → (w : World) (s : State) → Represents self.old.installation s
            → s.options.file ≡ file.now → w.text ≡ read_utf8 read_signature text.now
            → HasReported w (SignatureRead (read_utf8 read_signature text.now) time) s self.new message.new }
        ensures complete { (w : World) (s : State) → Represents self.old.installation s
            → s.options.file ≡ file.now → w.text ≡ read_utf8 read_signature text.now
            → MessageFits w message.old → s.due ≡ ReadSignature → result ≡ true }
        ensures unchanged { (self.new.files ≡ self.old.files) × (self.new.read ≡ self.old.read)
            × (self.new.source ≡ self.old.source) }
    {
        match self.installation.signature(text, file, time, message) {
            Ok(len) => {
                self.message_len = len;
                true
            }
            Err(Refusal::WrongUse(_)) => false,
            Err(Refusal::Refused(_)) => {
                self.message_len = 0;
                true
            }
        }
    }

    // Reports an event to the installer. Returns true if it fits the operation that was due.
    fn reports(&mut self, file: &[u8], message: &mut [u8], report: &Report<'a>) -> bool
        ensures sound { result ≡ true → (w : World) (s : State) (m new : Snapshot) → HasInputs w file.now s
            → FollowerHolds w self.old message.old s m → Performs w s s.due (event_of report.now) m new
            → HasReported w (event_of report.now) s self.new message.new }
        ensures complete { (w : World) (s : State) (m new : Snapshot) → HasInputs w file.now s
            → FollowerHolds w self.old message.old s m → Performs w s s.due (event_of report.now) m new
            → is_some (after s.due (event_of report.now) s) ≡ true → MessageFits w message.old
            → result ≡ true }
        ensures unchanged { (self.new.files ≡ self.old.files) × (self.new.read ≡ self.old.read)
            × (self.new.source ≡ self.old.source) }
    {
        match *report {
            Report::Signature(text, time) => self.report_signature(file, message, text, time),
            _ => has_reported(&mut self.installation, report),
        }
    }

    // Stores the bytes that were read, or discards them if the update is to be installed now.
    fn keep_read(&mut self, read: &'a [u8])
        ensures read { (s : State) → Represents self.old.installation s
            → self.new.read.now ≡ (if installs s.due then [] else read.now) }
        ensures unchanged { (self.new.installation ≡ self.old.installation)
            × (self.new.files ≡ self.old.files) × (self.new.message_len ≡ self.old.message_len)
            × (self.new.source ≡ self.old.source) }
    {
        match self.installation.due() {
            Operation::RemoveLeftovers | Operation::WouldInstall => self.read = &[],
            _ => self.read = read,
        }
    }

    // Checks a call. Returns false if a lawful application does not make it.
    fn call(
        &mut self,
        inputs: &RunInputs<'a>,
        file: &[u8],
        message: &mut [u8],
        report: &Report<'a>,
        effect: &Effect<'a>,
    ) -> bool
        ensures sound { result ≡ true → HasFollowed (world_of inputs.now) file.now (event_of report.now)
            effect.now self.old self.new message.old message.new }
        ensures complete { (s : State) (m : Snapshot) → HasInputs (world_of inputs.now) file.now s
            → FollowerHolds (world_of inputs.now) self.old message.old s m
            → MessageFits (world_of inputs.now) message.old
            → IsLawfulCall (world_of inputs.now) s m (event_of report.now) effect.now
            → ReportMatches inputs.now s m (source_at s m self.old.source.now) report.now effect.now
            → result ≡ true }
    {
        self.open_target();
        if !self.has_performed(inputs, message, report, effect) {
            return false;
        }
        let Some(files) = self.next_files(inputs, effect) else {
            return false;
        };
        let Some(read) = self.now_read(inputs, report) else {
            return false;
        };
        if !self.reports(file, message, report) {
            return false;
        }
        self.files = files;
        self.keep_read(read);
        true
    }

    // Checks a line of a trace. Returns false if the run is not that of a lawful application.
    fn line(
        &mut self,
        inputs: &RunInputs<'a>,
        file: &[u8],
        message: &mut [u8],
        line: &Line<'a>,
    ) -> bool
        ensures sound { result ≡ true → IsFollowed (world_of inputs.now) file.now line.now self.old self.new
            message.old message.new }
        ensures complete { (s : State) (m : Snapshot) → HasInputs (world_of inputs.now) file.now s
            → FollowerHolds (world_of inputs.now) self.old message.old s m
            → MessageFits (world_of inputs.now) message.old
            → IsRecorded inputs.now s m self.old.source.now (line.now ∷ []) → result ≡ true }
    {
        match *line {
            Line::Others(change) => match self.files.changed(&change) {
                Some(files) => {
                    self.files = files;
                    true
                }
                None => false,
            },
            Line::Call(report, effect) => self.call(inputs, file, message, &report, &effect),
        }
    }
}

// Returns true if both have the same bytes, or both are `None`.
fn same(one: Option<&[u8]>, other: Option<&[u8]>) -> bool
    ensures sound { result ≡ true → option_map (λ r. r.now) one.entry ≡ option_map (λ r. r.now) other.entry }
    ensures complete { option_map (λ r. r.now) one.entry ≡ option_map (λ r. r.now) other.entry
        → result ≡ true }
{
    match (one, other) {
        (Some(one), Some(other)) => *one == *other,
        (None, None) => true,
        _ => false,
    }
}

// Returns the bytes of a file, or `None` if there is no file.
fn bytes_at<'a>(file: &Option<FileView<'a>>) -> Option<&'a [u8]>
    ensures { option_map (λ r. r.now) result ≡ option_map (λ v. v.bytes.now) file.now }
{
    match *file {
        Some(file) => Some(file.bytes),
        None => None,
    }
}

/// Decides whether a recorded run is that of a lawful application. Returns `None` if it is, or the number
/// of the first line that a lawful application cannot have caused, from 0 on. If the options are not valid,
/// this is line 0.
///
/// `begun` has the files at the beginning, and `inputs` the inputs of the run. `message` is a buffer at least
/// as long as the signature file.
///
/// Some lawful runs are rejected: a trace must not record the bytes that a failed operation leaves in a
/// temporary file, and the pieces that are read must be those of the file that is at the target when reading
/// begins. A trace cannot record that a signed list was read, so only the beginning of a run with a list is
/// accepted, up to the reading of the list.
pub fn first_unlawful_line<'a>(
    key: &PublicKeyValue,
    other: &PublicKeyValue,
    choices: &Choices,
    file: &[u8],
    begun: &Files<'a>,
    inputs: &RunInputs<'a>,
    message: &mut [u8],
    trace: &[Line<'a>],
) -> Option<usize>
    // If the result is `None`, the run is that of an application that performs the operations of `step`, so
    // all laws about such applications hold for it.
    ensures lawful { result ≡ None → (m : Snapshot) → AreFilesOf begun.now m
        → IsLawful (world_of inputs.now) (options_by key.now other.now choices.now file.now) m trace.now }
    // If the result is `Some(n)`, the first n lines are a run of such an application.
    ensures before { IfSome result (λ n. (m : Snapshot) → AreFilesOf begun.now m
        → IsLawful (world_of inputs.now) (options_by key.now other.now choices.now file.now) m
        (take n trace.now)) }
    // If the result is `Some(n)`, the first n + 1 lines are not those of an application that performs the
    // operations of `step`, and records the report and the effect of each operation. This assumes that the
    // options can be combined, and that the buffer is large enough for the message of the trusted comment.
    ensures unlawful { IfSome result (λ n. choices_misuse choices.now ≡ None
        → MessageFits (world_of inputs.now) message.old → (m : Snapshot) → AreFilesOf begun.now m
        → IsRecorded inputs.now (begin (options_by key.now other.now choices.now file.now)) m []
        (take (n + 1) trace.now) → ⊥) }
{
    let Ok(installation) = Installation::new(key, other, choices) else {
        return Some(0);
    };
    let mut follower = Follower {
        installation,
        files: *begun,
        read: &[],
        source: &[],
        message_len: 0,
    };
    let mut at = 0;
    'lines: while at < trace.len() {
        if !follower.line(inputs, file, message, &trace[at]) {
            return Some(at);
        }
        at += 1;
    }
    None
}
