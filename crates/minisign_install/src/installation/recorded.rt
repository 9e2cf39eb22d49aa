//! Checks the record. Nothing here allocates.

ghost use Rattle.std.specs.Prelude.{◌≡◌, ◌==◌, ◌||◌, ◌&&◌, List, ℕ, Some, None, Err, IfErr};
ghost use Rattle.std.specs.Prelude.{◌≢◌};
ghost use Rattle.minisign_external.specs.declared.state.Misuse.TheVariants.{NotDue};
ghost use Rattle.minisign_external.specs.declared.state.Refusal.TheVariants.{WrongUse};
ghost use Rattle.minisign_install.specs.Decisions.{judge_record, judge_version, names_other_key};
ghost use Rattle.minisign_install.specs.Decisions.{nothing_recorded, record_fault, recorded_version};
ghost use Rattle.minisign_install.specs.Installations.{HoldsState, RunLeadsTo, Steps, judgment_of};
ghost use Rattle.minisign_install.specs.Installations.{numbering_of};
ghost use Rattle.minisign_install.specs.Installations.{numbered, options_of, recorded_of};
ghost use Rattle.minisign_install.specs.Step.{ReadSignature, RecordRead, State, after_record};

use crate::comments::Numbering;
use crate::faults::InstallFault;
use crate::installation::Operation;
use crate::installation::progress::{Chosen, Progress, RecordedValue};
use crate::recording::{is_foreign_key, number_for, record_digest, record_key, unfit_record_fault};
use minisign_external::state::{Misuse, Refusal};

impl Progress {
    // Reports the bytes of the record.
    pub(crate) fn record(&mut self, bytes: &[u8]) -> Result<(), Refusal<InstallFault>>
        ensures steps { (s : State) → HoldsState self.old s
            → Steps (RecordRead (Some bytes.now)) s result self.new }
        ensures misuse { result ≡ Err (WrongUse NotDue) → self.new ≡ self.old }
    {
        if !self.due().is_reading_record() {
            return Err(Refusal::WrongUse(Misuse::NotDue));
        }
        let judged = judge_record(&self.chosen, bytes);
        self.take_record(judged)
    }

    // Reports that there is no record.
    pub(crate) fn no_record(&mut self) -> Result<(), Refusal<InstallFault>>
        ensures steps { (s : State) → HoldsState self.old s → Steps (RecordRead None) s result self.new }
        ensures misuse { result ≡ Err (WrongUse NotDue) → self.new ≡ self.old }
    {
        if !self.due().is_reading_record() {
            return Err(Refusal::WrongUse(Misuse::NotDue));
        }
        let judged = judge_missing_record(&self.chosen);
        self.take_record(judged)
    }

    // Continues with the contents of the record, or rejects the run.
    fn take_record(
        &mut self,
        judged: Result<RecordedValue, InstallFault>,
    ) -> Result<(), Refusal<InstallFault>>
        ensures next_state { (s : State) → HoldsState self.old s
            → RunLeadsTo s (after_record (judgment_of judged) s) result self.new }
        ensures never_not_due { IfErr result (λ r. r ≢ WrongUse NotDue) }
    {
        match judged {
            Ok(recorded) => {
                self.keep_record(recorded);
                Ok(())
            }
            Err(fault) => self.reject(fault),
        }
    }

    // Stores the contents of the record. Reading the signature file is due next.
    fn keep_record(&mut self, recorded: RecordedValue)
        ensures { (s : State) → HoldsState self.old s
            → HoldsState self.new (record s { due = ReadSignature; recorded = recorded_of recorded }) }
    {
        self.recorded = recorded;
        self.go(Operation::ReadSignature);
    }
}

// Returns the contents of a record, or the error with which it is rejected.
fn judge_record(chosen: &Chosen, bytes: &[u8]) -> Result<RecordedValue, InstallFault>
    ensures { (file : List ℕ) → judge_record (options_of chosen.now file) (Some bytes.now)
        ≡ judgment_of result }
{
    match version_for(bytes, chosen.numbering()) {
        Some(version) => Ok(used_record(chosen, bytes, version)),
        None => judge_unnumbered(chosen, bytes),
    }
}

// Ignores a record without a version number for the field if `is_first` is set, else returns an error.
fn judge_unnumbered(chosen: &Chosen, bytes: &[u8]) -> Result<RecordedValue, InstallFault>
    ensures { (file : List ℕ) → judge_version (options_of chosen.now file) bytes.now None
        ≡ judgment_of result }
{
    if chosen.is_first == 1 {
        Ok(RecordedValue::nothing())
    } else {
        Err(fault_for(bytes, chosen.numbering()))
    }
}

// Ignores that there is no record if `is_first` is set, else returns an error.
fn judge_missing_record(chosen: &Chosen) -> Result<RecordedValue, InstallFault>
    ensures { (file : List ℕ) → judge_record (options_of chosen.now file) None ≡ judgment_of result }
{
    if chosen.is_first == 1 {
        Ok(RecordedValue::nothing())
    } else {
        Err(InstallFault::NoRecord)
    }
}

// Returns the contents of a record with this version, or nothing if the record is ignored.
fn used_record(chosen: &Chosen, bytes: &[u8], version: u64) -> RecordedValue
    ensures { (file : List ℕ) → judge_version (options_of chosen.now file) bytes.now (Some version)
        ≡ Ok (recorded_of result) }
{
    if is_ignored(chosen, bytes) {
        RecordedValue::nothing()
    } else {
        RecordedValue::of(version, bytes)
    }
}

// Returns true if the record names a key that was not given, and the options say to ignore such a record.
fn is_ignored(chosen: &Chosen, bytes: &[u8]) -> bool
    ensures { (file : List ℕ) → result ≡ ((chosen.now.is_first == 1 || chosen.now.new_key == 1)
        && names_other_key (options_of chosen.now file) bytes.now) }
{
    (chosen.is_first == 1 || chosen.new_key == 1)
        && is_foreign_key(bytes, &chosen.key.key, &chosen.other.key)
}

// Returns the version number of a record, if it has one for this field.
#[tactic(auto, using(crate::proofs::Recorded::version_is))]
fn version_for(bytes: &[u8], numbering: Numbering) -> Option<u64>
    ensures { result ≡ recorded_version numbering bytes.now }
{
    number_for(bytes, numbering)
}

// Returns the error with which a record without a version number for this field is rejected.
fn fault_for(bytes: &[u8], numbering: Numbering) -> InstallFault
    ensures { result ≡ record_fault numbering bytes.now }
{
    unfit_record_fault(bytes, numbering)
}

impl RecordedValue {
    // Returns the version number of the record, unless it is ignored.
    pub(crate) fn version(&self) -> Option<u64>
        ensures { result ≡ (recorded_of self.now).version }
    {
        if self.has_version == 1 {
            Some(self.version)
        } else {
            None
        }
    }

    // Returns the contents of an ignored record: none.
    fn nothing() -> RecordedValue
        ensures { recorded_of result ≡ nothing_recorded }
    {
        RecordedValue {
            version: 0,
            key: [0; 32],
            digest: [0; 64],
            has_version: 0,
            has_key: 0,
            has_digest: 0,
            reserved: 0,
        }
    }

    // Returns this version with the key and the digest that the record names.
    fn of(version: u64, bytes: &[u8]) -> RecordedValue
        ensures { recorded_of result ≡ numbered version bytes.now }
    {
        let key = record_key(bytes);
        let digest = record_digest(bytes);
        RecordedValue {
            version,
            key: key.unwrap_or([0; 32]),
            digest: digest.unwrap_or([0; 64]),
            has_version: 1,
            has_key: u32::from(key.is_some()),
            has_digest: u32::from(digest.is_some()),
            reserved: 0,
        }
    }
}

impl Chosen {
    // Returns the field that has the version number.
    pub(crate) fn numbering(&self) -> Numbering
        ensures { result ≡ numbering_of self.now.numbering }
    {
        if self.numbering == 1 {
            Numbering::Version
        } else {
            Numbering::Timestamp
        }
    }
}
