//! Error numbers for programs in other languages, and their texts. Nothing here allocates.

ghost use Rattle.std.specs.Prelude.{◌≡◌, ◌==◌, ◌<◌, IfSome, List, ℕ, find, length};
ghost use Rattle.minisign_base.specs.Faults.{fault_row};
ghost use Rattle.minisign_external.specs.Numbers.{IsKindOf, IsMeaning, WritesCut, is_answer, fault_number};
ghost use Rattle.minisign_external.specs.Numbers.{kind_number};
ghost use Rattle.minisign_external.specs.Numbers.{misuse_number, misuse_text, refusal_number};

use crate::state::{Misuse, Refusal};
use minisign_base::{ErrorKind, NamedFault, PError};

/// The number that a caller passes in as the result of an Ed25519 check if the signature is valid: the
/// letters `yes`, one byte each. It is neither 0 nor 1, nor an error number.
pub const ANSWER_YES: u32 = 7955827;

/// The number that a caller passes in if the signature is not valid: the letters `no`, one byte each.
pub const ANSWER_NO: u32 = 28271;

/// Returns true if the number is `ANSWER_YES` or `ANSWER_NO`.
pub fn is_answer(number: u32) -> bool
    ensures { result ≡ is_answer number }
{
    number == ANSWER_YES || number == ANSWER_NO
}

/// The public key or a signature is one that strict Ed25519 rejects: a point has a small order or is not
/// canonical, or the second half of a signature is not below the group order. The calls for other languages
/// add this error to those of the library.
pub const WEAK_ED25519: u32 = 81;

// The number of an error without a name, which no call of this library returns.
const UNNAMED: u32 = 255;

/// An error that has a number for programs in other languages.
pub trait Numbered {
    // The number of the error.
    ghost number_of: { Self → ℕ };

    /// Returns the error number.
    fn number(&self) -> u32
        // The result is the error's number in the table of its type.
        ensures { result ≡ number_of self.now };
}

/// The number of an error of the library, or 255 for an error without a name, which no call returns.
impl Numbered for PError {
    ghost number_of = { fault_number };

    fn number(&self) -> u32 {
        match self.named() {
            Some(fault) => fault.number(),
            None => UNNAMED,
        }
    }
}

impl<F: Numbered> Refusal<F> {
    /// Returns the error number of the API misuse or of the error.
    pub fn number(&self) -> u32
        // The result is the number of the API misuse or of the error, each in its table. In the library's
        // table, only out of memory has the number 7.
        ensures { result ≡ refusal_number F.number_of self.now }
    {
        match self {
            Refusal::WrongUse(misuse) => misuse.number(),
            Refusal::Refused(error) => error.number(),
        }
    }
}

impl Misuse {
    /// All kinds of API misuse.
    pub const ALL: [Misuse; 23] = [
        Misuse::NotBegun,
        Misuse::AlreadyAsked,
        Misuse::NotAsked,
        Misuse::BadAnswer,
        Misuse::NoRoom,
        Misuse::BadLegacyFlag,
        Misuse::BadComment,
        Misuse::BadPasswordFlag,
        Misuse::UnreadableComment,
        Misuse::NotDue,
        Misuse::BadOption,
        Misuse::BadNumbering,
        Misuse::KeyNotOpened,
        Misuse::KeyNotRead,
        Misuse::SignatureNotRead,
        Misuse::OtherSignatureText,
        Misuse::PublicKeyNotRead,
        Misuse::EmptyPassword,
        Misuse::WeakSealing,
        Misuse::ListNotVerified,
        Misuse::OtherListText,
        Misuse::BadHash,
        Misuse::EntryNotRead,
    ];

    /// Returns the error number of the API misuse: 1 to 6, 9 to 15, 61 to 63, or 82 to 88.
    pub fn number(&self) -> u32
        ensures { result ≡ misuse_number self.now }
    {
        match self {
            Misuse::NotBegun => 1,
            Misuse::AlreadyAsked => 2,
            Misuse::NotAsked => 3,
            Misuse::BadAnswer => 4,
            Misuse::NoRoom => 5,
            Misuse::BadLegacyFlag => 6,
            Misuse::BadComment => 9,
            Misuse::BadPasswordFlag => 10,
            Misuse::UnreadableComment => 11,
            Misuse::NotDue => 12,
            Misuse::BadOption => 13,
            Misuse::BadNumbering => 14,
            Misuse::KeyNotOpened => 15,
            Misuse::KeyNotRead => 63,
            Misuse::SignatureNotRead => 62,
            Misuse::OtherSignatureText => 61,
            Misuse::PublicKeyNotRead => 82,
            Misuse::EmptyPassword => 83,
            Misuse::WeakSealing => 84,
            Misuse::ListNotVerified => 85,
            Misuse::OtherListText => 86,
            Misuse::BadHash => 87,
            Misuse::EntryNotRead => 88,
        }
    }

    /// Returns the English text of the API misuse.
    pub fn text(&self) -> &'static str
        ensures { result.now ≡ misuse_text self.now }
    {
        match self {
            Misuse::NotBegun => {
                "the state is not initialized, or its verdict was already returned: call minisign_init first"
            }
            Misuse::AlreadyAsked => {
                "this call comes too late: minisign_ask or minisign_digest was already called for this state"
            }
            Misuse::NotAsked => {
                "no verdict is possible yet: call minisign_ask and minisign_digest first"
            }
            Misuse::BadAnswer => {
                "the result of an Ed25519 check must be MINISIGN_ANSWER_YES or MINISIGN_ANSWER_NO"
            }
            Misuse::NoRoom => "a buffer is too small for this call",
            Misuse::BadLegacyFlag => "the parameter 'allow_legacy' must be 0 or 1",
            Misuse::BadComment => {
                "a comment contains a line break, or the trusted comment begins or ends with white space"
            }
            Misuse::BadPasswordFlag => "the parameter 'with_password' must be 0, 1 or 2",
            Misuse::UnreadableComment => {
                "a comment is too long for Minisign, or contains a zero byte or a carriage return"
            }
            Misuse::NotDue => {
                "unexpected call or error number: minisign_install_due returns the step that is expected now"
            }
            Misuse::BadOption => {
                "an option of the installation is not valid, or must not be combined with another option"
            }
            Misuse::BadNumbering => {
                "'numbering' must be MINISIGN_NUMBERING_TIMESTAMP or MINISIGN_NUMBERING_VERSION"
            }
            Misuse::KeyNotOpened => {
                "the secret key is not open: call minisign_open_sealed_key or minisign_open_unsealed_key first"
            }
            Misuse::KeyNotRead => "no secret key was read: call minisign_read_secret_key first",
            Misuse::SignatureNotRead => {
                "no signature was read, or it has no comments: call minisign_read_signature first"
            }
            Misuse::OtherSignatureText => {
                "the signature was read from a different signature file than the one passed with it"
            }
            Misuse::PublicKeyNotRead => {
                "no public key was read: call minisign_read_public_key first"
            }
            Misuse::EmptyPassword => "the password must not be empty",
            Misuse::WeakSealing => {
                "the salt is all zeros, or a scrypt limit is below Minisign's minimum"
            }
            Misuse::ListNotVerified => "the list has not been verified",
            Misuse::OtherListText => "the text is not the list that was verified",
            Misuse::BadHash => "the hash function or the length of its digest is not accepted here",
            Misuse::EntryNotRead => "the entry has not been read from a list",
        }
    }
}

/// Writes the English text of an error number to the start of `to`, truncated if necessary and terminated by
/// a 0 byte. Returns the length of the whole text, which is at most 127 bytes. The bytes after the 0 are
/// unchanged. If `to` is empty, nothing is written.
pub fn write_error_text(number: u32, to: &mut [u8]) -> usize
    // The text is that of the API misuse or of the error that has this number, without key IDs. For 0 it is
    // "no error", and for a number without a meaning "unknown error". It has fewer than 128 bytes. The buffer
    // holds as much of it as fits before a terminating 0 byte, and the bytes after the 0 are unchanged. The
    // result is the length of the whole text.
    ensures written { (text : List ℕ) × IsMeaning number text × (result ≡ length text)
        × WritesCut text to.old to.new }
    ensures below_128_bytes { result < 128 }
{
    write_cut(error_text(number), to)
}

/// Writes a text, truncated if necessary, and a 0 byte. Returns the length of the whole text.
pub fn write_cut(text: &str, to: &mut [u8]) -> usize
    // The buffer holds as much of the text as fits before a terminating 0 byte, and the bytes after the 0 are
    // unchanged. The result is the length of the whole text.
    ensures length { result ≡ length text.now }
    ensures cut { WritesCut text.now to.old to.new }
{
    let bytes = text.as_bytes();
    if to.is_empty() {
        return bytes.len();
    }
    let len = bytes.len().min(to.len() - 1);
    let (front, rest) = to.split_at_mut(len);
    let (cut, _) = bytes.split_at(len);
    front.copy_from_slice(cut);
    rest[0] = 0;
    bytes.len()
}

/// Returns the English text of an error number, without key IDs: "no error" for 0, and "unknown error" for a
/// number without a meaning. It has fewer than 128 bytes.
pub fn error_text(number: u32) -> &'static str
    ensures meaning { IsMeaning number result.now }
    ensures below_128_bytes { length result.now < 128 }
{
    if number == 0 {
        return "no error";
    }
    if number == WEAK_ED25519 {
        return "weak or non-canonical Ed25519 public key or signature";
    }
    if let Some(misuse) = misuse_of(number) {
        return misuse.text();
    }
    match fault_of(number) {
        Some(fault) => fault.summary(),
        None => "unknown error",
    }
}

// Returns the API misuse that has this number.
fn misuse_of(number: u32) -> Option<Misuse>
    ensures found { IfSome result (λ m. number ≡ misuse_number m) }
    ensures first_with_number { result ≡ find (λ m. misuse_number m == number) Misuse.ALL }
{
    Misuse::ALL
        .iter()
        .copied()
        .find(|misuse| misuse.number() == number)
}

// Returns the named error that has this number, with zeros as its key IDs.
fn fault_of(number: u32) -> Option<NamedFault>
    ensures found { IfSome result (λ f. number ≡ (fault_row f).number) }
    ensures first_with_number { result ≡ find (λ f. (fault_row f).number == number) NamedFault.ALL }
{
    NamedFault::ALL
        .iter()
        .copied()
        .find(|fault| fault.number() == number)
}

/// The number of the kind of API misuse.
pub const MISUSE_KIND: u32 = 1;

/// Returns the number of a kind of errors: 2 to 12, in the order of `ErrorKind`.
pub fn kind_number(kind: &ErrorKind) -> u32
    ensures { result ≡ kind_number kind.now }
{
    match kind {
        ErrorKind::Generate => 2,
        ErrorKind::Sign => 3,
        ErrorKind::Verify => 4,
        ErrorKind::Io => 5,
        ErrorKind::Misc => 6,
        ErrorKind::Hash => 7,
        ErrorKind::KDF => 8,
        ErrorKind::RNG => 9,
        ErrorKind::Encoding => 10,
        ErrorKind::EncryptedKey => 11,
        ErrorKind::OutOfMemory => 12,
    }
}

/// Returns the number of the kind of the error that has this number: 1 for API misuse, otherwise that of
/// `kind_number`. Returns 0 for 0 and for a number without a meaning.
pub fn error_kind(number: u32) -> u32
    ensures { IsKindOf number result }
{
    if number == 0 {
        return 0;
    }
    if number == WEAK_ED25519 {
        return kind_number(&ErrorKind::Verify);
    }
    if let Some(_misuse) = misuse_of(number) {
        return MISUSE_KIND;
    }
    match fault_of(number) {
        Some(fault) => kind_number(fault.kind()),
        None => 0,
    }
}
