//! The errors of an installation: those of the library, and errors that only an installation has. Each has a
//! number, a kind and a text. Nothing here allocates.

ghost use Rattle.std.specs.Prelude.{◌≡◌, ◌<◌, List, ℕ, Some, true, IfSome, MatchResult, length};
ghost use Rattle.minisign_external.specs.Numbers.{WritesCut};
ghost use Rattle.minisign_base.specs.Faults.{row};
ghost use Rattle.minisign_install.specs.Faults.{IsErrorText, Named, is_installer_fault, install_number};
ghost use Rattle.minisign_install.specs.Faults.{install_row, Library};

use minisign_base::ErrorKind::{self, Io, Misc, Verify};
use minisign_base::{NamedFault, PError};
use minisign_external::numbers::{self, Numbered};
use std::fmt;

/// The error with which an installation is rejected. `Display` writes the text.
#[derive(Debug, Drop)]
pub enum InstallFault {
    /// An error of the library: a key file or signature file is invalid, reading or writing failed, or memory
    /// ran out.
    Library(PError),
    /// Another installation holds the lock on this target.
    TargetInUse,
    /// No version is recorded for this target, and `is_first` is not set.
    NoRecord,
    /// The version record of this target contains no version number, and `is_first` is not set.
    DamagedRecord,
    /// The trusted comment does not name the file that the caller expects.
    OtherFile,
    /// The trusted comment lacks the field that was chosen for the version number, or the value of the first
    /// such field is not a decimal number below 2^64.
    NoNumber,
    /// The version number of the update is below the recorded one, and `roll_back` is not set.
    OlderUpdate,
    /// The update is installed but could not be synced, so a crash may bring back the previous
    /// file.
    DirectoryNotSynced,
    /// The version record holds a timestamp and not a version, and `is_first` is not set.
    KeptByTimestamp,
    /// The version record holds a version and not a timestamp, and `is_first` is not set.
    KeptByVersion,
    /// The update has expired at the time that the caller passes.
    Expired,
    /// The trusted comment has more than one field `expires:`, or its value is not a decimal number below
    /// 2^64. If `must_expire` is set, this is also the error for a label that differs from `expires:` only in
    /// case or in white space.
    BadExpiry,
    /// This version is already recorded, but the installed file is different, and `again` is not
    /// set.
    SameNumber,
    /// The trusted comment has no field `expires:`, and `must_expire` is set.
    NoExpiry,
    /// The trusted comment has more than one field `size:`, or its value is not a decimal number
    /// below 2^64.
    BadSize,
    /// The data is longer or shorter than the field `size:` of the trusted comment says.
    OtherSize,
    /// The name that is looked up is not one that a list can contain.
    BadName,
    /// A line of the list is malformed.
    MalformedLine,
    /// No line of the list has the name.
    NotListed,
    /// Two lines of the list have the name.
    ListedTwice,
    /// The data does not have the listed digest.
    DigestMismatch,
}

impl InstallFault {
    /// Returns the kind of the error.
    pub fn kind(&self) -> &ErrorKind
        // The result is the kind in the table of installation errors (`install_row`), or the kind of the
        // library's error.
        ensures { result.now ≡ (install_row self.now).kind }
    {
        match self.row() {
            Ok((_, kind, _)) => kind,
            Err(fault) => fault.kind(),
        }
    }

    /// Returns the installation error with this number.
    pub(crate) fn of_number(number: u32) -> Option<InstallFault>
        ensures found { (e : InstallFault) → is_installer_fault e ≡ true → number ≡ install_number e
            → result ≡ Some e }
        ensures installer_fault { IfSome result (λ e. (is_installer_fault e ≡ true)
            × (number ≡ install_number e)) }
    {
        use InstallFault::*;
        Some(match number {
            46 => TargetInUse,
            47 => NoRecord,
            48 => DamagedRecord,
            49 => OtherFile,
            50 => NoNumber,
            51 => OlderUpdate,
            52 => DirectoryNotSynced,
            53 => KeptByTimestamp,
            54 => KeptByVersion,
            55 => Expired,
            56 => BadExpiry,
            57 => SameNumber,
            58 => NoExpiry,
            59 => BadSize,
            60 => OtherSize,
            90 => BadName,
            91 => MalformedLine,
            92 => NotListed,
            93 => ListedTwice,
            94 => DigestMismatch,
            _ => return None,
        })
    }

    // Returns the number, the kind and the text of an installation error, or `Err` with the error of the
    // library.
    pub(crate) fn row(&self) -> Result<&'static (u32, ErrorKind, &'static str), &PError>
        ensures { MatchResult result
            (λ r. (is_installer_fault self.now ≡ true)
            × (row r.now.0 r.now.1 r.now.2.now ≡ install_row self.now))
            (λ fault. self.now ≡ Library fault.now) }
    {
        use InstallFault::*;
        Ok(match self {
            Library(fault) => return Err(fault),
            TargetInUse => &(46, Io, "another installation of this file is running"),
            NoRecord => &(47, Io, "no version is recorded yet"),
            DamagedRecord => &(48, Io, "the version record is damaged"),
            OtherFile => &(
                49,
                Verify,
                "the trusted comment does not name the file to install",
            ),
            NoNumber => &(
                50,
                Verify,
                "the trusted comment has no valid version number",
            ),
            OlderUpdate => &(51, Verify, "the update is older than the recorded version"),
            DirectoryNotSynced => &(
                52,
                Io,
                "the update is installed, but the directory could not be synced to disk",
            ),
            KeptByTimestamp => &(
                53,
                Io,
                "the version record holds a timestamp, not a version",
            ),
            KeptByVersion => &(
                54,
                Io,
                "the version record holds a version, not a timestamp",
            ),
            Expired => &(55, Verify, "the update has expired"),
            BadExpiry => &(
                56,
                Verify,
                "the trusted comment has an invalid or repeated expires: field",
            ),
            SameNumber => &(
                57,
                Verify,
                "this version is already recorded, but the installed file is different",
            ),
            NoExpiry => &(
                58,
                Verify,
                "the trusted comment does not say when the update expires",
            ),
            BadSize => &(
                59,
                Verify,
                "the trusted comment has an invalid or repeated size: field",
            ),
            OtherSize => &(
                60,
                Verify,
                "the size of the data is not the one in the trusted comment",
            ),
            BadName => &(
                90,
                Misc,
                "a list can only contain relative paths without .. or special characters",
            ),
            MalformedLine => &(91, Misc, "a line of the list is malformed"),
            NotListed => &(92, Verify, "the list does not contain this name"),
            ListedTwice => &(93, Verify, "the list contains this name twice"),
            DigestMismatch => &(
                94,
                Verify,
                "the digest of the data is not the one in the list",
            ),
        })
    }
}

/// Returns the number in the table of installation errors, or the number of the library's error.
impl Numbered for InstallFault {
    ghost number_of = { install_number };

    fn number(&self) -> u32 {
        match self.row() {
            Ok((number, _, _)) => *number,
            Err(fault) => fault.number(),
        }
    }
}

/// Writes the text in the table of installation errors, or the text of the library's error.
impl fmt::Display for InstallFault {
    ghost output = { λ e. Some (install_row e).summary };

    fn fmt<W: fmt::Write>(&self, f: &mut fmt::Formatter<W>) -> fmt::Result {
        match self.row() {
            Ok((_, _, text)) => f.write_str(text),
            Err(fault) => fault.fmt(f),
        }
    }
}

/// Wraps an error of the library: the result is `Library` with this error.
impl From<PError> for InstallFault {
    ghost from_gives = { λ f e. e ≡ Library f };

    fn from(fault: PError) -> InstallFault {
        InstallFault::Library(fault)
    }
}

/// Wraps a named error of the library: the result is `Library` with this error.
impl From<NamedFault> for InstallFault {
    ghost from_gives = { λ f e. e ≡ Library (Named f) };

    fn from(fault: NamedFault) -> InstallFault {
        InstallFault::Library(fault.into())
    }
}

/// Returns the text of an error number in English. For an error of the library it omits the key IDs.
pub fn error_text(number: u32) -> &'static str
    // The result is the text of the API misuse, of the installation error or of the library's error that has
    // this number, without key IDs. For 0 it is "no error", and for a number without a meaning "unknown
    // error". It has fewer than 128 bytes.
    ensures meaning { IsErrorText number result.now }
    ensures below_128_bytes { length result.now < 128 }
{
    if let Some(fault) = InstallFault::of_number(number) {
        if let Ok((_, _, text)) = fault.row() {
            return text;
        }
    }
    numbers::error_text(number)
}

/// Writes the text of an error number, in English, to the front of `to`, terminated by a 0 and truncated if
/// `to` is too short. Returns the length of the whole text, at most 127 bytes. The bytes after the 0 are
/// unchanged. If `to` is empty nothing is written.
pub fn write_error_text(number: u32, to: &mut [u8]) -> usize
    // The buffer holds as much of the text of `error_text` as fits before a terminating 0 byte, and the bytes
    // after the 0 are unchanged. The result is the length of the whole text.
    ensures written { (text : List ℕ) × IsErrorText number text × (result ≡ length text)
        × WritesCut text to.old to.new }
    ensures below_128_bytes { result < 128 }
{
    numbers::write_cut(error_text(number), to)
}
