//! The errors of key derivation and the conversions between them.

ghost use Rattle.std.specs.Prelude.{◌≡◌, Some, codes};

use std::alloc::AllocError;
use std::fmt;

/// The parameters of scrypt are invalid.
#[derive(Clone, Copy, Debug, PartialEq)]
pub struct InvalidParams;

/// Writes exactly the text of the error.
impl fmt::Display for InvalidParams {
    ghost output = { λ _. Some (codes "invalid scrypt parameters") };

    fn fmt<W: fmt::Write>(&self, f: &mut fmt::Formatter<W>) -> fmt::Result {
        f.write_str("invalid scrypt parameters")
    }
}

/// The output is empty or longer than 137438953440 bytes.
#[derive(Clone, Copy, Debug, PartialEq)]
pub struct InvalidOutputLen;

/// Writes exactly the text of the error.
impl fmt::Display for InvalidOutputLen {
    ghost output = { λ _. Some (codes "invalid output length") };

    fn fmt<W: fmt::Write>(&self, f: &mut fmt::Formatter<W>) -> fmt::Result {
        f.write_str("invalid output length")
    }
}

/// The errors of deriving a key.
#[derive(Clone, Copy, Debug, PartialEq)]
pub enum KdfError {
    /// An allocation failed.
    OutOfMemory,
    /// The output is empty or longer than 137438953440 bytes.
    InvalidOutputLen,
}

/// Writes exactly the text of the error.
impl fmt::Display for KdfError {
    ghost use Rattle.minisign_kdf.specs.Faults.{error_text};

    ghost output = { λ e. Some (error_text e) };

    fn fmt<W: fmt::Write>(&self, f: &mut fmt::Formatter<W>) -> fmt::Result {
        match self {
            KdfError::OutOfMemory => f.write_str("out of memory"),
            KdfError::InvalidOutputLen => f.write_str("invalid output length"),
        }
    }
}

/// Converts a failed allocation to `OutOfMemory`.
impl From<AllocError> for KdfError {
    ghost use Rattle.minisign_kdf.specs.declared.errors.KdfError.TheVariants.{OutOfMemory};

    ghost from_gives = { λ _ e. e ≡ OutOfMemory };

    fn from(_: AllocError) -> KdfError {
        KdfError::OutOfMemory
    }
}

/// Converts the error `InvalidOutputLen` to the variant of the same name.
impl From<InvalidOutputLen> for KdfError {
    ghost use Rattle.minisign_kdf.specs.declared.errors.KdfError.TheVariants.{InvalidOutputLen};

    ghost from_gives = { λ _ e. e ≡ InvalidOutputLen };

    fn from(_: InvalidOutputLen) -> KdfError {
        KdfError::InvalidOutputLen
    }
}
