//! The errors of checking a file against a signed list. None of these functions allocates.

ghost use Rattle.std.specs.Prelude.{◌≡◌, ◌<◌, Some, true, IfOk, MatchResult, length};
ghost use Rattle.minisign_base.specs.Fault.{Named};
ghost use Rattle.minisign_base.specs.Faults.{row};
ghost use Rattle.minisign_lists.specs.Faults.{Library, is_list_error, list_fault_numbered, list_number};
ghost use Rattle.minisign_lists.specs.Faults.{list_row, line_of_fault};

use minisign_base::ErrorKind::{self, Misc, Verify};
use minisign_base::{NamedFault, PError};
use minisign_external::numbers::Numbered;
use std::fmt;

/// The error with which a file or a list is rejected. `Display` writes the text.
#[derive(Debug, Drop)]
pub enum ListFault {
    /// An error of the library: a key file or signature file is invalid, or the signature of the list is.
    Library(PError),
    /// The trusted comment does not name the list.
    OtherList,
    /// No list can contain the name.
    BadName,
    /// A line of the list is malformed. Lines are numbered from 1 on.
    MalformedLine { line: u64 },
    /// No line of the list has the name.
    NotListed,
    /// Two lines of the list have the name. `line` is the number of the second one.
    ListedTwice { line: u64 },
    /// The data does not have the listed digest.
    DigestMismatch,
}

/// The result of a call of this crate.
pub type Result<T> = std::result::Result<T, ListFault>;

impl ListFault {
    /// Returns the kind of the error.
    pub fn kind(&self) -> &ErrorKind
        // The result is the kind in the table of list errors (`list_row`), or the kind of the library's
        // error.
        ensures { result.now ≡ (list_row self.now).kind }
    {
        match self.row() {
            Ok((_, kind, _)) => kind,
            Err(fault) => fault.kind(),
        }
    }

    /// Returns the number of the line at fault, or 0 if no line is at fault.
    pub fn line(&self) -> u64
        // The result is the number of the malformed line, or of the second line with the name. For every
        // other error it is 0.
        ensures { result ≡ line_of_fault self.now }
    {
        match self {
            ListFault::MalformedLine { line } => *line,
            ListFault::ListedTwice { line } => *line,
            _ => 0,
        }
    }

    /// Returns the list error with this number. Its line is 0.
    pub fn of_number(number: u32) -> Option<ListFault>
        // The result is the list error with this number, if there is one.
        ensures { result ≡ list_fault_numbered number }
    {
        use ListFault::*;
        Some(match number {
            89 => OtherList,
            90 => BadName,
            91 => MalformedLine { line: 0 },
            92 => NotListed,
            93 => ListedTwice { line: 0 },
            94 => DigestMismatch,
            _ => return None,
        })
    }

    /// Returns the number, the kind and the text of a list error, or `Err` with the error of the library.
    pub fn row(&self) -> std::result::Result<&'static (u32, ErrorKind, &'static str), &PError>
        ensures row { MatchResult result
            (λ r. (is_list_error self.now ≡ true) × (row r.now.0 r.now.1 r.now.2.now ≡ list_row self.now))
            (λ fault. self.now ≡ Library fault.now) }
        ensures below_128_bytes { IfOk result (λ r. length r.now.2.now < 128) }
    {
        use ListFault::*;
        Ok(match self {
            Library(fault) => return Err(fault),
            OtherList => &(89, Verify, "the trusted comment does not name the list"),
            BadName => &(
                90,
                Misc,
                "a list can only contain relative paths without .. or special characters",
            ),
            MalformedLine { line: _ } => &(91, Misc, "a line of the list is malformed"),
            NotListed => &(92, Verify, "the list does not contain this name"),
            ListedTwice { line: _ } => &(93, Verify, "the list contains this name twice"),
            DigestMismatch => &(
                94,
                Verify,
                "the digest of the data is not the one in the list",
            ),
        })
    }
}

/// Returns the number in the table of list errors, or the number of the library's error.
impl Numbered for ListFault {
    ghost number_of = { list_number };

    fn number(&self) -> u32 {
        match self.row() {
            Ok((number, _, _)) => *number,
            Err(fault) => fault.number(),
        }
    }
}

/// Writes the text in the table of list errors, or the text of the library's error.
impl fmt::Display for ListFault {
    ghost output = { λ e. Some (list_row e).summary };

    fn fmt<W: fmt::Write>(&self, f: &mut fmt::Formatter<W>) -> fmt::Result {
        match self.row() {
            Ok((_, _, text)) => f.write_str(text),
            Err(fault) => fault.fmt(f),
        }
    }
}

/// Wraps an error of the library: the result is `Library` with this error.
impl From<PError> for ListFault {
    ghost from_gives = { λ e f. f ≡ Library e };

    fn from(fault: PError) -> ListFault {
        ListFault::Library(fault)
    }
}

/// Wraps a named error of the library: the result is `Library` with this error.
impl From<NamedFault> for ListFault {
    ghost from_gives = { λ e f. f ≡ Library (Named e) };

    fn from(fault: NamedFault) -> ListFault {
        ListFault::Library(fault.into())
    }
}
