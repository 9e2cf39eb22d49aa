//! The error type of the library, and the conversions from the errors of std, key derivation and base64.

ghost use Rattle.std.specs.Prelude.{◌≡◌, Some, string_bytes};
ghost use Rattle.minisign_base.specs.Fault.{Named, Custom, kind_of, name_of, text_of};
ghost use Rattle.minisign_base.specs.declared.faults.NamedFault.TheVariants.{OutOfMemory};
ghost use Rattle.minisign_base.specs.declared.faults.NamedFault.TheVariants.{InputOrOutputFailed};
ghost use Rattle.minisign_base.specs.declared.faults.NamedFault.TheVariants.{FormattingFailed, InvalidUtf8};
ghost use Rattle.minisign_base.specs.declared.faults.NamedFault.TheVariants.{InvalidParameters};
ghost use Rattle.minisign_base.specs.declared.faults.NamedFault.TheVariants.{InvalidOutputLength};
ghost use Rattle.minisign_base.specs.Derivation.{derivation_fault};
ghost use Rattle.minisign_base.specs.Decoding.{decoding_fault};

use crate::faults::{NamedFault, TEXT_ROOM};
use base64::DecodeAllocError;
use minisign_kdf::{InvalidOutputLen, InvalidParams, KdfError};
use std::alloc::{AllocError, AllocFailed};
use std::marker::Model;
use std::string::FromUtf8Error;
use std::{fmt, io};

/// The kind of problem that an error reports.
#[derive(Clone, Copy, Debug, PartialEq, Eq)]
pub enum ErrorKind {
    /// Generating keys failed.
    Generate,
    /// Signing failed.
    Sign,
    /// Verifying a signature or a checksum failed.
    Verify,
    /// Reading or writing failed, or a key file or signature file has the wrong format.
    Io,
    /// Any other error.
    Misc,
    /// Hashing failed.
    Hash,
    /// Deriving a key from a password failed.
    KDF,
    /// Generating random bytes failed.
    RNG,
    /// A secret key file is not base64. Callers in Rust also get this kind if std rejects bytes that are not
    /// UTF-8.
    Encoding,
    /// A secret key is encrypted, but the call needs a decrypted one.
    EncryptedKey,
    /// An allocation failed.
    OutOfMemory,
}

/// An error: a named error of the library, or a kind and a text that the caller chose. `Display` writes the
/// text.
#[derive(Debug, Drop)]
pub struct PError {
    meaning: Meaning,
}

/// A value or an error.
pub type Result<T> = std::result::Result<T, PError>;

// The meaning of an error: a named error, or a kind with a text. The text is either constant
// (`StaticText`) or allocated (`OwnedText`).
#[derive(Debug, Drop)]
enum Meaning {
    Named(NamedFault),
    StaticText(ErrorKind, &'static str),
    OwnedText(ErrorKind, String),
}

impl Model for PError {
    ghost use Rattle.minisign_base.specs.Fault.{Fault, fault_of};

    ghost Value = { Fault };

    ghost view = { λ e. fault_of e.meaning };
}

impl PError {
    /// Returns an error with this kind and text.
    pub fn new(kind: ErrorKind, text: String) -> PError
        ensures { result ≡ Custom kind (string_bytes text) }
    {
        PError {
            meaning: Meaning::OwnedText(kind, text),
        }
    }

    /// Returns an error with this kind and a constant text. Does not allocate.
    pub fn fixed(kind: ErrorKind, text: &'static str) -> PError
        ensures { result ≡ Custom kind text.now }
    {
        PError {
            meaning: Meaning::StaticText(kind, text),
        }
    }

    /// Returns the named error, or `None` if the caller chose the kind and the text, even if a named error
    /// has the same text. Does not allocate.
    pub fn named(&self) -> Option<NamedFault>
        ensures { result ≡ name_of self.now }
    {
        match &self.meaning {
            Meaning::Named(fault) => Some(*fault),
            _ => None,
        }
    }

    /// Returns the text that `Display` writes. A text that contains key IDs is written to the buffer `room`;
    /// the other texts are not copied. Does not allocate.
    pub fn text<'a>(&'a self, room: &'a mut [u8; TEXT_ROOM]) -> &'a [u8]
        ensures { result.now ≡ text_of self.now }
    {
        match &self.meaning {
            Meaning::Named(fault) => fault.text(room),
            Meaning::StaticText(_, text) => text.as_bytes(),
            Meaning::OwnedText(_, text) => text.as_bytes(),
        }
    }

    /// Returns the kind of the error.
    pub fn kind(&self) -> &ErrorKind
        ensures { result.now ≡ kind_of self.now }
    {
        match &self.meaning {
            Meaning::Named(fault) => fault.kind(),
            Meaning::StaticText(kind, _) => kind,
            Meaning::OwnedText(kind, _) => kind,
        }
    }
}

/// Writes the text of the error.
impl fmt::Display for PError {
    ghost output = { λ e. Some (text_of e) };

    fn fmt<W: fmt::Write>(&self, f: &mut fmt::Formatter<W>) -> fmt::Result {
        match &self.meaning {
            Meaning::Named(fault) => fault.fmt(f),
            Meaning::StaticText(_, text) => f.write_str(text),
            Meaning::OwnedText(_, text) => f.write_str(text.as_str()),
        }
    }
}

/// Returns the error with this name.
impl From<NamedFault> for PError {
    ghost from_gives = { λ f e. e ≡ Named f };

    fn from(fault: NamedFault) -> PError {
        PError {
            meaning: Meaning::Named(fault),
        }
    }
}

/// A failed allocation becomes `out of memory`.
impl From<AllocError> for PError {
    ghost from_gives = { λ _ e. e ≡ Named OutOfMemory };

    fn from(_error: AllocError) -> PError {
        NamedFault::OutOfMemory.into()
    }
}

/// A failed allocation becomes `out of memory`.
impl<T: Drop> From<AllocFailed<T>> for PError {
    ghost from_gives = { λ _ e. e ≡ Named OutOfMemory };

    fn from(_error: AllocFailed<T>) -> PError {
        NamedFault::OutOfMemory.into()
    }
}

/// Every error of std's streams becomes `InputOrOutputFailed`.
impl From<io::Error> for PError {
    ghost from_gives = { λ _ e. e ≡ Named InputOrOutputFailed };

    fn from(_error: io::Error) -> PError {
        NamedFault::InputOrOutputFailed.into()
    }
}

/// Every error of formatting becomes `FormattingFailed`.
impl From<fmt::Error> for PError {
    ghost from_gives = { λ _ e. e ≡ Named FormattingFailed };

    fn from(_error: fmt::Error) -> PError {
        NamedFault::FormattingFailed.into()
    }
}

/// The error of bytes that are not UTF-8 becomes `InvalidUtf8`.
impl From<FromUtf8Error> for PError {
    ghost from_gives = { λ _ e. e ≡ Named InvalidUtf8 };

    fn from(_error: FromUtf8Error) -> PError {
        NamedFault::InvalidUtf8.into()
    }
}

/// The error of parameters that scrypt rejects becomes `InvalidParameters`.
impl From<InvalidParams> for PError {
    ghost from_gives = { λ _ e. e ≡ Named InvalidParameters };

    fn from(_error: InvalidParams) -> PError {
        NamedFault::InvalidParameters.into()
    }
}

/// The error of a wrong output length becomes `InvalidOutputLength`.
impl From<InvalidOutputLen> for PError {
    ghost from_gives = { λ _ e. e ≡ Named InvalidOutputLength };

    fn from(_error: InvalidOutputLen) -> PError {
        NamedFault::InvalidOutputLength.into()
    }
}

/// Each error of key derivation becomes the named error for it.
impl From<KdfError> for PError {
    ghost from_gives = { λ d e. e ≡ derivation_fault d };

    fn from(error: KdfError) -> PError {
        match error {
            KdfError::OutOfMemory => NamedFault::OutOfMemory.into(),
            KdfError::InvalidOutputLen => NamedFault::InvalidOutputLength.into(),
        }
    }
}

/// Each error of decoding base64 becomes the named error for it.
impl From<DecodeAllocError> for PError {
    ghost from_gives = { λ d e. e ≡ decoding_fault d };

    fn from(error: DecodeAllocError) -> PError {
        match error {
            DecodeAllocError::DecodeError(_) => NamedFault::SecretKeyNotBase64.into(),
            DecodeAllocError::OutOfMemory => NamedFault::OutOfMemory.into(),
        }
    }
}
