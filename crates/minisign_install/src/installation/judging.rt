//! Checks the trusted comment. Nothing here allocates.

ghost use Rattle.std.specs.Prelude.{◌≡◌, ◌==◌, ◌∷◌, [], Bool, List, ℕ, Some, None, IfSome, is_some, true};
ghost use Rattle.std.specs.Prelude.{not, false};
ghost use Rattle.minisign_install.specs.Comments.{expiries, expiry_label, file_label, size_label};
ghost use Rattle.minisign_install.specs.Comments.{value_of, values_of};
ghost use Rattle.minisign_install.specs.Decisions.{comment_only_fault, comment_fault, expiry_fault, is_below};
ghost use Rattle.minisign_install.specs.Decisions.{is_named, judge_comment_only, judge_comment};
ghost use Rattle.minisign_install.specs.Decisions.{is_too_old, number_in, number_of, size_fault, size_in};
ghost use Rattle.minisign_install.specs.Decisions.{signed_size, unless, version_in};
ghost use Rattle.minisign_install.specs.Faults.{NoNumber, OlderUpdate, OtherFile, is_installer_fault};
ghost use Rattle.minisign_install.specs.Installations.{list_of, options_of};

use crate::comments::{self, Numbering, first_expiry, first_value, value};
use crate::faults::InstallFault;
use crate::installation::progress::Chosen;
use minisign_base::NamedFault;

// Returns the error if the trusted comment is rejected: that of the first check that fails.
pub(crate) fn comment_fault(
    chosen: &Chosen,
    file: &str,
    recorded: Option<u64>,
    time: Option<u64>,
    comment: &str,
) -> Option<InstallFault>
    ensures value { result ≡ comment_fault (options_of chosen.now file.now) recorded time comment.now }
    ensures installer_fault { IfSome result (λ e. is_installer_fault e ≡ true) }
{
    match name_fault(comment, file) {
        Some(fault) => Some(fault),
        None => match number_fault(chosen, comment) {
            Some(fault) => Some(fault),
            None => match expiry_fault(comment, chosen.must_expire(), time) {
                Some(fault) => Some(fault),
                None => match size_fault(comment) {
                    Some(fault) => Some(fault),
                    None => age_fault(chosen, recorded, comment),
                },
            },
        },
    }
}

// Returns an error unless the comment names the file.
fn name_fault(comment: &str, file: &str) -> Option<InstallFault>
    ensures value { result ≡ unless (is_named file.now (value_of file_label comment.now)) OtherFile }
    ensures installer_fault { IfSome result (λ e. is_installer_fault e ≡ true) }
{
    match value(comment, "file:") {
        Some(name) => {
            if name == file {
                None
            } else {
                Some(InstallFault::OtherFile)
            }
        }
        None => Some(InstallFault::OtherFile),
    }
}

// Returns an error unless the comment has a version number.
fn number_fault(chosen: &Chosen, comment: &str) -> Option<InstallFault>
    ensures value { (file : List ℕ) → result
        ≡ unless (is_some (version_in (options_of chosen.now file).numbering comment.now)) NoNumber }
    ensures installer_fault { IfSome result (λ e. is_installer_fault e ≡ true) }
{
    match version_in(comment, chosen.numbering()) {
        Some(_) => None,
        None => Some(InstallFault::NoNumber),
    }
}

// Returns the error if the fields `expires:` are rejected at this time.
fn expiry_fault(comment: &str, must_expire: bool, time: Option<u64>) -> Option<InstallFault>
    ensures value { result ≡ expiry_fault must_expire time (expiries must_expire comment.now)
        (number_of (value_of expiry_label comment.now)) }
    ensures installer_fault { IfSome result (λ e. is_installer_fault e ≡ true) }
{
    match first_expiry(comment, must_expire) {
        None => {
            if must_expire {
                Some(InstallFault::NoExpiry)
            } else {
                None
            }
        }
        Some(rest) => match first_expiry(rest, must_expire) {
            Some(_) => Some(InstallFault::BadExpiry),
            None => expiry_at(comment, time),
        },
    }
}

// Returns the error if the only field `expires:` is rejected at this time.
fn expiry_at(comment: &str, time: Option<u64>) -> Option<InstallFault>
    ensures value { (must : Bool) (v : List ℕ) → result
        ≡ expiry_fault must time (v ∷ []) (number_of (value_of expiry_label comment.now)) }
    ensures installer_fault { IfSome result (λ e. is_installer_fault e ≡ true) }
{
    match expiry_in(comment) {
        Some(until) => {
            if is_below(time, Some(until)) {
                None
            } else {
                Some(InstallFault::Expired)
            }
        }
        None => Some(InstallFault::BadExpiry),
    }
}

// Returns the number in the first field `expires:`, if there is one.
fn expiry_in(comment: &str) -> Option<u64>
    ensures { result ≡ number_of (value_of expiry_label comment.now) }
{
    match value(comment, "expires:") {
        Some(text) => number_in(text),
        None => None,
    }
}

// Returns the error if the fields `size:` are rejected.
fn size_fault(comment: &str) -> Option<InstallFault>
    ensures value { result ≡ size_fault (values_of size_label comment.now) }
    ensures installer_fault { IfSome result (λ e. is_installer_fault e ≡ true) }
{
    match first_value(comment, "size:") {
        None => None,
        Some(_) => match size_in(comment) {
            Some(_) => None,
            None => Some(InstallFault::BadSize),
        },
    }
}

// Returns an error if the update is older than the recorded version and `roll_back` is not set.
fn age_fault(chosen: &Chosen, recorded: Option<u64>, comment: &str) -> Option<InstallFault>
    ensures value { (file : List ℕ) → result ≡ unless (not (is_too_old (options_of chosen.now file) recorded
        (version_in (options_of chosen.now file).numbering comment.now))) OlderUpdate }
    ensures installer_fault { IfSome result (λ e. is_installer_fault e ≡ true) }
{
    if is_below(version_in(comment, chosen.numbering()), recorded) && !chosen.roll_back() {
        Some(InstallFault::OlderUpdate)
    } else {
        None
    }
}

// Returns the version number of the update, if the comment has one.
pub(crate) fn version_in(comment: &str, numbering: Numbering) -> Option<u64>
    ensures { result ≡ version_in numbering comment.now }
{
    match value(comment, numbering.label()) {
        Some(text) => number_in(text),
        None => None,
    }
}

// Returns the signed size of the data. With a list it is `None`, because the comment of a list does not say
// how long the data is.
pub(crate) fn signed_size(chosen: &Chosen, comment: &str) -> Option<u64>
    ensures { result ≡ signed_size (list_of chosen.now.is_list chosen.now.long_digest) comment.now }
{
    if chosen.is_list == 1 {
        None
    } else {
        size_in(comment)
    }
}

// Returns the signed size, if the comment has one field `size:`, with a number.
fn size_in(comment: &str) -> Option<u64>
    ensures { result ≡ size_in comment.now }
{
    match first_value(comment, "size:") {
        None => None,
        Some((digits, rest)) => match first_value(rest, "size:") {
            Some(_) => None,
            None => number_in(digits),
        },
    }
}

// Parses decimal digits.
fn number_in(text: &str) -> Option<u64>
    ensures { result ≡ number_in text.now }
{
    comments::number_of(text)
}

// Returns true if both numbers exist and the first is less than the second.
fn is_below(number: Option<u64>, bound: Option<u64>) -> bool
    ensures { result ≡ is_below number bound }
{
    match (number, bound) {
        (Some(number), Some(bound)) => number < bound,
        _ => false,
    }
}

/// Checks the fields of a trusted comment, and returns the version number of the update. Only the comment is
/// checked, not its signature: this is for applications that install in another way. `time` is in seconds
/// since the beginning of 1970. The version must not be below `least`.
pub fn judge_comment(
    comment: &[u8],
    file: &[u8],
    numbering: Numbering,
    time: u64,
    least: u64,
) -> Result<u64, InstallFault>
    // The result is the version number if all checks pass, otherwise the error of the first check that fails.
    ensures { result ≡ judge_comment file.now numbering time least comment.now }
{
    match str::from_utf8(comment) {
        Ok(comment) => match str::from_utf8(file) {
            Ok(file) => judge_comment_only(comment, file, numbering, time, least),
            Err(_) => Err(NamedFault::NotUtf8.into()),
        },
        Err(_) => Err(NamedFault::NotUtf8.into()),
    }
}

// Returns the version number of the update, or the error of the first check that fails.
fn judge_comment_only(
    comment: &str,
    file: &str,
    numbering: Numbering,
    time: u64,
    least: u64,
) -> Result<u64, InstallFault>
    ensures { result ≡ judge_comment_only file.now numbering time least comment.now }
{
    match comment_only_fault(comment, file, numbering, time, least) {
        Some(fault) => Err(fault),
        None => Ok(version_in(comment, numbering).unwrap_or(0)),
    }
}

// Returns the error of the first check that fails, if one fails.
fn comment_only_fault(
    comment: &str,
    file: &str,
    numbering: Numbering,
    time: u64,
    least: u64,
) -> Option<InstallFault>
    ensures { result ≡ comment_only_fault file.now numbering time least comment.now }
{
    match name_fault(comment, file) {
        Some(fault) => Some(fault),
        None => match version_fault(comment, numbering) {
            Some(fault) => Some(fault),
            None => match expiry_fault(comment, false, Some(time)) {
                Some(fault) => Some(fault),
                None => older_fault(comment, numbering, least),
            },
        },
    }
}

// Returns an error unless the comment has a version number.
fn version_fault(comment: &str, numbering: Numbering) -> Option<InstallFault>
    ensures { result ≡ unless (is_some (version_in numbering comment.now)) NoNumber }
{
    match version_in(comment, numbering) {
        Some(_) => None,
        None => Some(InstallFault::NoNumber),
    }
}

// Returns an error if the version is below `least`.
fn older_fault(comment: &str, numbering: Numbering, least: u64) -> Option<InstallFault>
    ensures { result
        ≡ unless (not (is_below (version_in numbering comment.now) (Some least))) OlderUpdate }
{
    if is_below(version_in(comment, numbering), Some(least)) {
        Some(InstallFault::OlderUpdate)
    } else {
        None
    }
}

impl Chosen {
    // Returns true if the comment has to say when the update expires.
    fn must_expire(&self) -> bool
        ensures { result ≡ (self.now.must_expire == 1) }
    {
        self.must_expire == 1
    }

    // Returns true if an older update is to be installed.
    fn roll_back(&self) -> bool
        ensures { result ≡ (self.now.roll_back == 1) }
    {
        self.roll_back == 1
    }
}
