//! The functions of `include/minisign_install.h`: an installation, step by step.

ghost use Rattle.std.specs.Prelude.{◌≡◌, ◌⊎◌, ◌<◌, ◌==◌, if◌then◌else◌, ℕ, List, Some, None, true, false};
ghost use Rattle.std.specs.Prelude.{MatchOption, drop, take};
ghost use Rattle.minisign_external.specs.Numbers.{answer_yes, is_answer, misuse_number};
ghost use Rattle.minisign_external.specs.declared.state.Misuse.TheVariants.{BadAnswer, NoRoom, NotDue};
ghost use Rattle.minisign_install.specs.Installations.{Represents, error_number, operation_of, options_by};
ghost use Rattle.minisign_install.specs.Installations.{IsNewRecord, piece_event, question_due, record_due};
ghost use Rattle.minisign_install.specs.Installations.{IsWrittenIf};
ghost use Rattle.minisign_install.specs.Step.{Answered, Done, PieceCopied, RecordRead, State, TargetMissing};
ghost use Rattle.minisign_install.specs.Step.{ListRead, begin, line_at_fault, step};
ghost use Rattle.minisign_c.specs.InstallCalls.{NumberReads, NumberSteps, ReturnsQuestion, ReturnsVersionOf};
ghost use Rattle.minisign_c.specs.InstallCalls.{failure_event, failure_of, starting_misuse, step_number};
ghost use Rattle.minisign_c.specs.InstallCalls.{time_of};

use minisign_base::NamedFault;
use minisign_external::numbers::Numbered;
use minisign_external::public_keys::PublicKeyValue;
use minisign_external::state::{Misuse, Refusal};
use minisign_install::installation::{Choices, Installation, judge_comment};
use minisign_install::{InstallFault, Numbering};

// Converts the result of a call to a number: 0 for success, otherwise the error number.
fn number_of(said: Result<(), Refusal<InstallFault>>) -> u32
    ensures { result ≡ step_number said }
{
    match said {
        Ok(()) => 0,
        Err(refusal) => refusal.number(),
    }
}

/// Begins an installation. The first operation that is due is to lock the target or, for a check, to read the
/// record.
#[unsafe(no_mangle)]
pub extern "C" fn minisign_install_init(
    installation: &mut Installation,
    key: &PublicKeyValue,
    other: &PublicKeyValue,
    options: &Choices,
) -> u32
    // On success, the installation represents the first state of a run with these keys and options.
    ensures begun { result ≡ 0 → (file : List ℕ)
        → Represents installation.new (begin (options_by key.now other.now options.now file)) }
    // The errors are, in this order: an option is neither 0 nor 1, or two options must not be combined;
    // `numbering` is neither 0 nor 1; `long_digest` is not 0, 2 or 3; a public key was not read. After an
    // error the installation is unchanged.
    ensures number { MatchOption (starting_misuse key.now other.now options.now) (result ≡ 0)
        (λ m. result ≡ misuse_number m) }
    ensures unchanged { 0 < result → installation.new ≡ installation.old }
{
    match Installation::new(key, other, options) {
        Ok(begun) => {
            if !(key.is_public_key() && other.is_public_key()) {
                return Misuse::PublicKeyNotRead.number();
            }
            *installation = begun;
            0
        }
        Err(misuse) => misuse.number(),
    }
}

/// Returns the number of the operation that is due, or of the end of the run.
#[unsafe(no_mangle)]
pub extern "C" fn minisign_install_due(installation: &Installation) -> u32
    // If the installation represents a state, the number is that of the operation that is due.
    ensures { (s : State) → Represents installation.now s → operation_of result ≡ s.due }
{
    installation.due().number()
}

/// Reports that the operation that is due was done.
#[unsafe(no_mangle)]
pub extern "C" fn minisign_install_done(installation: &mut Installation) -> u32
    // If the installation represents a state, the result and the new state are those that `step` computes
    // from this state and this event.
    ensures steps { NumberSteps Done installation.old installation.new result }
    // After `NotDue` the installation is unchanged.
    ensures misuse { result ≡ misuse_number NotDue → installation.new ≡ installation.old }
{
    number_of(installation.done())
}

/// Reports that a piece of this many bytes was copied.
#[unsafe(no_mangle)]
pub extern "C" fn minisign_install_copied(installation: &mut Installation, piece_len: usize) -> u32
    // If the installation represents a state, the result and the new state are those that `step` computes
    // from this state and this event.
    ensures steps { NumberSteps (PieceCopied piece_len) installation.old installation.new result }
    // After `NotDue` the installation is unchanged.
    ensures misuse { result ≡ misuse_number NotDue → installation.new ≡ installation.old }
{
    number_of(installation.copied(piece_len as u64))
}

/// Reports that the operation that is due failed with the error that has this number.
#[unsafe(no_mangle)]
pub extern "C" fn minisign_install_failed(installation: &mut Installation, why: u32) -> u32
    // If an operation can fail with this error and the installation represents a state, the result and the
    // new state are those that `step` computes. If no operation can fail with it, the result is `NotDue`.
    ensures steps { MatchOption (failure_event why) (result ≡ misuse_number NotDue)
        (λ e. NumberSteps e installation.old installation.new result) }
    // After `NotDue` the installation is unchanged.
    ensures misuse { result ≡ misuse_number NotDue → installation.new ≡ installation.old }
{
    if why == InstallFault::TargetInUse.number() {
        return number_of(installation.in_use());
    }
    match failure_of(why) {
        Some(fault) => number_of(installation.failed(fault)),
        None => Misuse::NotDue.number(),
    }
}

// Returns the error with this number, if an operation can fail with it.
fn failure_of(number: u32) -> Option<NamedFault>
    ensures { result ≡ failure_of number }
{
    if number == NamedFault::OutOfMemory.number() {
        Some(NamedFault::OutOfMemory)
    } else if number == NamedFault::ReadingFailed.number() {
        Some(NamedFault::ReadingFailed)
    } else if number == NamedFault::WritingFailed.number() {
        Some(NamedFault::WritingFailed)
    } else if number == NamedFault::RandomSourceFailed.number() {
        Some(NamedFault::RandomSourceFailed)
    } else {
        None
    }
}

/// Reports the bytes of the record.
#[unsafe(no_mangle)]
pub extern "C" fn minisign_install_record(installation: &mut Installation, record: &[u8]) -> u32
    // If the installation represents a state, the result and the new state are those that `step` computes
    // from this state and this event.
    ensures steps { NumberSteps (RecordRead (Some «record».now)) installation.old installation.new result }
    // After `NotDue` the installation is unchanged.
    ensures misuse { result ≡ misuse_number NotDue → installation.new ≡ installation.old }
{
    number_of(installation.record(record))
}

/// Reports that there is no record.
#[unsafe(no_mangle)]
pub extern "C" fn minisign_install_no_record(installation: &mut Installation) -> u32
    // If the installation represents a state, the result and the new state are those that `step` computes
    // from this state and this event.
    ensures steps { NumberSteps (RecordRead None) installation.old installation.new result }
    // After `NotDue` the installation is unchanged.
    ensures misuse { result ≡ misuse_number NotDue → installation.new ≡ installation.old }
{
    number_of(installation.no_record())
}

/// Reports the next bytes of the file that is being read, or its end, if `piece` is empty.
#[unsafe(no_mangle)]
pub extern "C" fn minisign_install_piece(installation: &mut Installation, piece: &[u8]) -> u32
    // If the installation represents a state, the result and the new state are those that `step` computes
    // from this state and this event.
    ensures steps { (s : State) → Represents installation.old s
        → Represents installation.new (step s (piece_event s.due piece.now)).1
        × (result ≡ step_number (step s (piece_event s.due piece.now)).0) }
    // After `NotDue` the installation is unchanged.
    ensures misuse { result ≡ misuse_number NotDue → installation.new ≡ installation.old }
{
    number_of(installation.piece(piece))
}

/// Reports that there is no file at the target.
#[unsafe(no_mangle)]
pub extern "C" fn minisign_install_no_target(installation: &mut Installation) -> u32
    // If the installation represents a state, the result and the new state are those that `step` computes
    // from this state and this event.
    ensures steps { NumberSteps TargetMissing installation.old installation.new result }
    // After `NotDue` the installation is unchanged.
    ensures misuse { result ≡ misuse_number NotDue → installation.new ≡ installation.old }
{
    number_of(installation.no_target())
}

/// Reports the signature file and the time, and writes the message of the check of the trusted comment.
#[unsafe(no_mangle)]
pub extern "C" fn minisign_install_signature(
    installation: &mut Installation,
    sig_text: &[u8],
    file: &[u8],
    now: i64,
    message: &mut [u8],
    message_len: &mut usize,
) -> u32
    // If the installation represents a state with the file name `file` in its options, the result, the
    // message, its length and the new state are those that `step` computes from it and this event. A time
    // before 1970 is passed on as no time.
    ensures steps { NumberReads sig_text.now file.now (time_of now) installation.old installation.new result
        message_len.old message_len.new message.old message.new }
    // After `NotDue` and `NoRoom` the installation is unchanged. After every error the buffer and the length
    // are unchanged.
    ensures misuse { (result ≡ misuse_number NotDue) ⊎ (result ≡ misuse_number NoRoom)
        → installation.new ≡ installation.old }
    ensures unchanged { 0 < result → (message_len.new ≡ message_len.old) × (message.new ≡ message.old) }
{
    match installation.signature(sig_text, file, time_of(now), message) {
        Ok(len) => {
            *message_len = len;
            0
        }
        Err(refusal) => refusal.number(),
    }
}

// Converts the time that the application reports, in seconds since 1970. A time before 1970 becomes `None`.
fn time_of(now: i64) -> Option<u64>
    ensures { result ≡ time_of now }
{
    u64::try_from(now).ok()
}

/// Reports the signed list of files, and the name to look up in it.
#[unsafe(no_mangle)]
pub extern "C" fn minisign_install_list(
    installation: &mut Installation,
    list: &[u8],
    name: &[u8],
) -> u32
    // If the installation represents a state, the result and the new state are those that `step` computes
    // from this state and this event.
    ensures steps { NumberSteps (ListRead list.now name.now) installation.old installation.new result }
    // After `NotDue` the installation is unchanged.
    ensures misuse { result ≡ misuse_number NotDue → installation.new ≡ installation.old }
{
    number_of(installation.list(list, name))
}

/// Writes the inputs of the Ed25519 check that is due (the question): a public key, a signature, and the
/// digest for which the signature is to be verified. For the check of the trusted comment, the digest is
/// zeros, because `minisign_install_signature` has already written its message.
#[unsafe(no_mangle)]
pub extern "C" fn minisign_install_question(
    installation: &Installation,
    key: &mut [u8; 32],
    signature: &mut [u8; 64],
    digest: &mut [u8; 64],
) -> u32
    // If the installation represents a state, the inputs are those of the check that is due. If none is due,
    // the result is `NotDue`, and nothing is written.
    ensures asked { (s : State) → Represents installation.now s → ReturnsQuestion (question_due s) result
        (record { key = key.old; signature = signature.old; digest = digest.old })
        (record { key = key.new; signature = signature.new; digest = digest.new }) }
    ensures unchanged { 0 < result → (result ≡ misuse_number NotDue) × (key.new ≡ key.old)
        × (signature.new ≡ signature.old) × (digest.new ≡ digest.old) }
{
    match installation.question() {
        Some(question) => {
            let (asked_key, asked_signature, asked_digest) = (
                question.key,
                question.signature,
                question.digest,
            );
            *key = asked_key;
            *signature = asked_signature;
            *digest = asked_digest;
            0
        }
        None => Misuse::NotDue.number(),
    }
}

/// Reports the result of the Ed25519 check: `ANSWER_YES` or `ANSWER_NO`.
#[unsafe(no_mangle)]
pub extern "C" fn minisign_install_answer(installation: &mut Installation, answer: u32) -> u32
    // If the installation represents a state, the result and the new state are those that `step` computes
    // from this state and this event.
    ensures steps { is_answer answer ≡ true
        → NumberSteps (Answered (answer == answer_yes)) installation.old installation.new result }
    // Any other number is rejected, and the installation is unchanged.
    ensures rejects_bad_answer { is_answer answer ≡ false
        → (result ≡ misuse_number BadAnswer) × (installation.new ≡ installation.old) }
    // After `NotDue` the installation is unchanged.
    ensures misuse { result ≡ misuse_number NotDue → installation.new ≡ installation.old }
{
    number_of(installation.answer(answer))
}

/// Returns 1 if the trusted comment has been verified under one of the keys, otherwise 0.
#[unsafe(no_mangle)]
pub extern "C" fn minisign_install_is_signed(installation: &Installation) -> u32
    ensures { (s : State) → Represents installation.now s → result ≡ (if s.is_signed then 1 else 0) }
{
    u32::from(installation.is_signed())
}

/// Returns the version number of the update, or 0 if its trusted comment has not been verified.
#[unsafe(no_mangle)]
pub extern "C" fn minisign_install_version(installation: &Installation) -> u64
    ensures { (s : State) → Represents installation.now s
        → result ≡ (if s.is_signed then s.version else 0) }
{
    installation.version()
}

/// Writes the size of the data that the trusted comment gives and returns 1, or returns 0 if the comment
/// gives no size or has not been verified.
#[unsafe(no_mangle)]
pub extern "C" fn minisign_install_size(installation: &Installation, size: &mut u64) -> u32
    ensures { (s : State) → Represents installation.now s
        → MatchOption (if s.is_signed then s.size else None) ((result ≡ 0) × (size.new ≡ size.old))
        (λ n. (result ≡ 1) × (size.new ≡ n)) }
{
    match installation.size() {
        Some(signed) => {
            *size = signed;
            1
        }
        None => 0,
    }
}

/// Writes the new record, if writing it is due. Returns its length, or 0 if it is not due or the buffer is
/// too short.
#[unsafe(no_mangle)]
pub extern "C" fn minisign_install_record_text(
    installation: &Installation,
    text: &mut [u8],
) -> usize
    // If a record is due in the state that the installation represents, and fits the buffer, the call writes
    // it. It parses to the version number, the key and the digest that the run records. If none is due, or
    // it is longer than the buffer, the result is 0, and nothing is written.
    ensures written { (s : State) → Represents installation.now s
        → IsWrittenIf (record_due s) result text.old text.new }
    ensures reads_back { (s : State) → Represents installation.now s → 0 < result
        → IsNewRecord s (take result text.new) }
    // The rest of the buffer is unchanged, in every case.
    ensures rest_unchanged { drop result text.new ≡ drop result text.old }
{
    installation.record_text(text)
}

/// Returns the number of the error that made the run fail, or 0.
#[unsafe(no_mangle)]
pub extern "C" fn minisign_install_error(installation: &Installation) -> u32
    ensures { (s : State) → Represents installation.now s → result ≡ error_number s.error }
{
    installation.error()
}

/// Returns the number of the line of the list for which the run is rejected, or 0.
#[unsafe(no_mangle)]
pub extern "C" fn minisign_install_line(installation: &Installation) -> u64
    // If the installation represents a state, the result is the number of its line at fault: that of the
    // first malformed line or of the second line with the name, after the signature of the list was
    // verified.
    ensures { (s : State) → Represents installation.now s → result ≡ line_at_fault s }
{
    installation.line()
}

/// Checks the fields of a trusted comment that the caller has verified, and writes its version number.
#[unsafe(no_mangle)]
pub extern "C" fn minisign_judge_comment(
    comment: &[u8],
    file: &[u8],
    numbering: u32,
    now: u64,
    kept: u64,
    number: &mut u64,
) -> u32
    // If all checks pass, the result is 0, and `number` is the version number. Otherwise the result is the
    // error number of the first check that fails, and `number` is unchanged. If `numbering` is neither 0 nor
    // 1, the error is `BadNumbering`.
    ensures { ReturnsVersionOf comment.now file.now numbering now kept result number.old number.new }
{
    let Some(numbering) = Numbering::of_number(numbering) else {
        return Misuse::BadNumbering.number();
    };
    match judge_comment(comment, file, numbering, now, kept) {
        Ok(version) => {
            *number = version;
            0
        }
        Err(fault) => fault.number(),
    }
}
