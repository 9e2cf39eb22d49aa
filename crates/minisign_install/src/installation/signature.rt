//! The step after the signature file was read. Nothing here allocates.

ghost use Rattle.std.specs.Prelude.{◌≡◌, ◌≢◌, ◌==◌, List, ℕ, Ok, Err, IfErr, IfOk, OnErr};
ghost use Rattle.std.specs.Prelude.{bytes_eq};
ghost use Rattle.std.specs.Prelude.{IfSome, is_some, take, true};
ghost use Rattle.minisign.specs.SignatureText.{SignatureTextRecord, read_signature, view_of};
ghost use Rattle.minisign.specs.Texts.{map_ok};
ghost use Rattle.minisign_external.specs.PublicKeys.{read_utf8};
ghost use Rattle.minisign_external.specs.declared.state.Misuse.TheVariants.{NoRoom, NotDue};
ghost use Rattle.minisign_external.specs.declared.state.Refusal.TheVariants.{Refused, WrongUse};
ghost use Rattle.minisign_install.specs.Decisions.{judge_keys};
ghost use Rattle.minisign_install.specs.Faults.{Library, Named, NotUtf8, is_installer_fault};
ghost use Rattle.minisign_install.specs.Installations.{HoldsState, RunLeadsTo, SignatureLeads};
ghost use Rattle.minisign_install.specs.Installations.{SignatureSteps, given};
ghost use Rattle.minisign_install.specs.Installations.{IsJudgedAs, IsReadAs, judge_form, options_of};
ghost use Rattle.minisign_install.specs.Installations.{without_length};
ghost use Rattle.minisign_install.specs.Installations.{IsOwnNumber, first_key, judged_text};
ghost use Rattle.minisign_external.specs.declared.public_keys.PublicKeyValue.{PublicKeyValue};
ghost use Rattle.minisign_install.specs.Step.{State, after_signature, reject};

use crate::faults::InstallFault;
use crate::installation::Operation;
use crate::installation::judging::{comment_fault, signed_size, version_in};
use crate::installation::progress::{Chosen, Judgment, Progress};
use minisign::{SignatureView, read_signature};
use minisign_base::{NamedFault, PError};
use minisign_external::numbers::Numbered;
use minisign_external::public_keys::PublicKeyValue;
use minisign_external::signed_texts::write_comment_message;
use minisign_external::state::{Misuse, Refusal};

impl Progress {
    // Reports the signature file and the time, and writes the message of the question about its comment.
    pub(crate) fn signature(
        &mut self,
        sig_text: &[u8],
        file: &[u8],
        time: Option<u64>,
        message: &mut [u8],
    ) -> Result<usize, Refusal<InstallFault>>
        ensures steps { (s : State) → HoldsState self.old s → s.options.file ≡ file.now
            → SignatureSteps sig_text.now time s result (HoldsState self.new) message.old message.new }
        ensures unchanged { OnErr result (message.new ≡ message.old) }
        ensures misuse { result ≡ Err (WrongUse NotDue) → self.new ≡ self.old }
        ensures unchanged_if_no_room { result ≡ Err (WrongUse NoRoom) → self.new ≡ self.old }
    {
        if !self.due().is_reading_signature() {
            return Err(Refusal::WrongUse(Misuse::NotDue));
        }
        self.judge_text(sig_text, file, time, message)
    }

    // Checks the signature file and writes the message of the question about its comment.
    fn judge_text(
        &mut self,
        sig_text: &[u8],
        file: &[u8],
        time: Option<u64>,
        message: &mut [u8],
    ) -> Result<usize, Refusal<InstallFault>>
        ensures next_state { (s : State) → HoldsState self.old s → s.options.file ≡ file.now
            → SignatureLeads (judged_text s sig_text.now) time s result self.new message.old message.new }
        ensures unchanged { OnErr result (message.new ≡ message.old) }
        ensures never_not_due { IfErr result (λ r. r ≢ WrongUse NotDue) }
        ensures unchanged_if_no_room { result ≡ Err (WrongUse NoRoom) → self.new ≡ self.old }
    {
        match str::from_utf8(file) {
            Ok(name) => match read_text(sig_text) {
                Ok(view) => self.judge_view(&view, name, time, message),
                Err(fault) => self.refuse(fault),
            },
            Err(_) => self.refuse(NamedFault::NotUtf8.into()),
        }
    }

    // Checks a parsed signature file.
    fn judge_view(
        &mut self,
        view: &SignatureView<'_>,
        file: &str,
        time: Option<u64>,
        message: &mut [u8],
    ) -> Result<usize, Refusal<InstallFault>>
        ensures next_state { (s : State) (t : SignatureTextRecord) → HoldsState self.old s
            → s.options.file ≡ file.now → view.now ≡ view_of t
            → SignatureLeads (judge_keys s.options (given self.old.chosen t) t) time s result self.new
            message.old message.new }
        ensures unchanged { OnErr result (message.new ≡ message.old) }
        ensures never_not_due { IfErr result (λ r. r ≢ WrongUse NotDue) }
        ensures unchanged_if_no_room { result ≡ Err (WrongUse NoRoom) → self.new ≡ self.old }
    {
        match judge_keys(&self.chosen, view) {
            Ok(second) => self.accept_text(view, &second, file, time, message),
            Err(fault) => self.refuse(fault),
        }
    }

    // Rejects the run with this error. No message is written.
    fn refuse(&mut self, fault: PError) -> Result<usize, Refusal<InstallFault>>
        ensures next_state { (s : State) → HoldsState self.old s
            → RunLeadsTo s (reject (Library fault) s) (without_length result) self.new }
        ensures is_zero { IfOk result (λ n. n ≡ 0) }
        ensures refused { IfErr result (λ r. r ≡ Refused (Library fault)) }
    {
        match self.reject(fault.into()) {
            Ok(()) => Ok(0),
            Err(refusal) => Err(refusal),
        }
    }

    // Continues after the signature file has passed the checks that need no Ed25519.
    fn accept_text(
        &mut self,
        view: &SignatureView<'_>,
        second: &[u8; 64],
        file: &str,
        time: Option<u64>,
        message: &mut [u8],
    ) -> Result<usize, Refusal<InstallFault>>
        ensures next_state { (s : State) (t : SignatureTextRecord) → HoldsState self.old s
            → s.options.file ≡ file.now → view.now ≡ view_of t → second.now ≡ take 64 t.comments.signature
            → SignatureLeads (Ok (t, given self.old.chosen t)) time s result self.new
            message.old message.new }
        ensures unchanged { OnErr result (message.new ≡ message.old) }
        ensures never_not_due { IfErr result (λ r. r ≢ WrongUse NotDue) }
        ensures unchanged_if_no_room { result ≡ Err (WrongUse NoRoom) → self.new ≡ self.old }
    {
        let first = view.signature().sig;
        match write_comment_message(&first, view.trusted_comment().as_bytes(), message) {
            Ok(len) => {
                self.keep_signature(view, second, file, time);
                Ok(len)
            }
            Err(misuse) => Err(Refusal::WrongUse(misuse)),
        }
    }

    // Stores the contents of the signature file. The question about its comment is due next.
    fn keep_signature(
        &mut self,
        view: &SignatureView<'_>,
        second: &[u8; 64],
        file: &str,
        time: Option<u64>,
    )
        ensures { (s : State) (t : SignatureTextRecord) → HoldsState self.old s → s.options.file ≡ file.now
            → view.now ≡ view_of t → second.now ≡ take 64 t.comments.signature
            → HoldsState self.new (after_signature (Ok (t, given self.old.chosen t)) time s) }
    {
        let recorded = self.recorded.version();
        self.judged = Judgment::of(&self.chosen, view, second, file, recorded, time);
        self.left = self.judged.size;
        self.has_left = self.judged.has_size;
        self.key_matches = flag(has_key_id(view, &self.chosen.key));
        self.other_key_matches = flag(has_key_id(view, &self.chosen.other));
        self.go(Operation::CheckComment);
    }
}

impl Judgment {
    // Checks the comment of a signature file, and returns the result with the signatures of the file.
    fn of(
        chosen: &Chosen,
        view: &SignatureView<'_>,
        second: &[u8; 64],
        file: &str,
        recorded: Option<u64>,
        time: Option<u64>,
    ) -> Judgment
        ensures { (t : SignatureTextRecord) → view.now ≡ view_of t
            → IsReadAs result (options_of chosen.now file.now) t second.now recorded time }
    {
        let comment = view.trusted_comment();
        let size = signed_size(chosen, comment);
        Judgment {
            version: version_in(comment, chosen.numbering()).unwrap_or(0),
            size: size.unwrap_or(0),
            signature: view.signature().sig,
            comment_signature: *second,
            is_judged: 1,
            has_size: u32::from(size.is_some()),
            fault: number_of(comment_fault(chosen, file, recorded, time, comment)),
            reserved: 0,
        }
    }
}

// Returns the number of an installation error, or 0.
fn number_of(fault: Option<InstallFault>) -> u32
    requires { IfSome fault (λ e. is_installer_fault e ≡ true) }
    ensures { IsOwnNumber result fault }
{
    match fault {
        Some(fault) => fault.number(),
        None => 0,
    }
}

// Returns 1 if `holds` is true, otherwise 0.
fn flag(holds: bool) -> u32
    ensures { (result == 1) ≡ holds }
{
    u32::from(holds)
}

// Parses a signature file, which must be UTF-8.
fn read_text(sig_text: &[u8]) -> Result<SignatureView<'_>, PError>
    ensures { result ≡ map_ok view_of (read_utf8 read_signature sig_text.now) }
{
    match str::from_utf8(sig_text) {
        Ok(text) => read_signature(text),
        Err(_) => Err(not_utf8()),
    }
}

// Returns the error of a file that is not UTF-8.
fn not_utf8() -> PError
    ensures { result ≡ Named NotUtf8 }
{
    NamedFault::NotUtf8.into()
}

// Performs the checks that need no Ed25519, and returns the signature of the comment.
fn judge_keys(chosen: &Chosen, view: &SignatureView<'_>) -> Result<[u8; 64], PError>
    ensures { (t : SignatureTextRecord) (file : List ℕ) → view.now ≡ view_of t
        → IsJudgedAs (judge_keys (options_of chosen.now file) (given chosen.now t) t) t (given chosen.now t)
        result }
{
    if may_have_signed(chosen, view) {
        judge_form(view)
    } else {
        Err(NamedFault::DifferentKeyIds {
            signature: view.signature().keynum,
            key: chosen.other.key_id,
        }
        .into())
    }
}

// Returns true if one of the keys has the key ID of the signature.
fn may_have_signed(chosen: &Chosen, view: &SignatureView<'_>) -> bool
    ensures { (t : SignatureTextRecord) → view.now ≡ view_of t
        → result ≡ is_some (first_key (given chosen.now t)) }
{
    has_key_id(view, &chosen.key) || has_key_id(view, &chosen.other)
}

// Returns true if the key has the key ID of the signature.
fn has_key_id(view: &SignatureView<'_>, key: &PublicKeyValue) -> bool
    ensures { result ≡ bytes_eq view.now.signature.keynum key.now.key_id }
{
    view.signature().keynum == key.key_id
}

// Returns the signature of the comment, or an error if the data signature is a legacy one or the comment
// signature is too short.
fn judge_form(view: &SignatureView<'_>) -> Result<[u8; 64], PError>
    ensures { (t : SignatureTextRecord) (signers : List PublicKeyValue) → view.now ≡ view_of t
        → IsJudgedAs (judge_form t signers) t signers result }
{
    if !view.is_prehashed() {
        return Err(NamedFault::LegacyNotAccepted.into());
    }
    match view.comment_signature() {
        Some(second) => Ok(second),
        None => Err(NamedFault::CommentSignatureRefused.into()),
    }
}
