//! The named errors of all calls of Minisign, as one enum, with their numbers, kinds and texts. Nothing
//! here allocates.

ghost use Rattle.std.specs.Prelude.{◌≡◌, Some};
ghost use Rattle.minisign_base.specs.Faults.{fault_row, named_text};

use crate::errors::ErrorKind::{
    self, Encoding, EncryptedKey, Generate, Io, KDF, Misc, RNG, Verify,
};
use crate::helpers::joined;
use crate::key_ids::KeyId;
use std::{fmt, str};

/// The size in bytes of the buffer for a text that contains key IDs. Every such text fits.
pub const TEXT_ROOM: usize = 96;

/// An error that a call of Minisign returns. `Display` writes its text.
#[derive(Clone, Copy, Debug, PartialEq, Eq)]
pub enum NamedFault {
    /// An allocation failed, or the requested size is too large for any allocation.
    OutOfMemory,
    /// Reading from a source, a file or a prompt failed.
    ReadingFailed,
    /// Writing to a sink or a prompt, or flushing it, failed.
    WritingFailed,
    /// Marking a place of a source, or going back to it, failed.
    GoingBackFailed,
    /// A random source failed or had too few bytes.
    RandomSourceFailed,
    /// A decoded key or signature has too few bytes.
    RecordTooShort,
    /// The input is not UTF-8: a file, a typed line, a password, a comment or a name.
    NotUtf8,
    /// The input ended before a line could be read.
    EndOfInput,
    /// A password is longer than 1024 bytes.
    PasswordTooLong,
    /// The two passwords typed for a new key pair differ.
    PasswordsDiffer,
    /// The memory limit of an encrypted key is above 2^30 bytes, or its limits give scrypt more than 2^20
    /// rows.
    ParametersTooHigh,
    /// The limits of an encrypted key give parameters that scrypt rejects.
    InvalidParameters,
    /// Decrypting the key takes more rows of scrypt than the caller allows.
    WorkTooHigh,
    /// The signature file has no untrusted comment line.
    MissingUntrustedComment,
    /// The signature file has no signature line.
    MissingSignature,
    /// The signature file has no trusted comment line.
    MissingTrustedComment,
    /// The signature file has no comment signature line.
    MissingGlobalSignature,
    /// The first line of the signature file does not begin with `untrusted comment: `.
    UntrustedCommentPrefix,
    /// A line of the signature file is not base64.
    SignatureNotBase64,
    /// The third line of the signature file does not begin with `trusted comment: `.
    TrustedCommentPrefix,
    /// The algorithm of the signature is neither `Ed` nor `ED`.
    UnsupportedSignatureAlgorithm,
    /// The public key file has no comment line.
    MissingPublicKeyComment,
    /// The public key file has no key line.
    MissingEncodedPublicKey,
    /// The second line of the public key file is not 56 bytes long.
    PublicKeyLineLength,
    /// The second line of the public key file is not base64.
    PublicKeyLineNotBase64,
    /// A bare base64 public key is not 56 bytes long.
    BarePublicKeyLength,
    /// A bare public key is not base64.
    BarePublicKeyNotBase64,
    /// The secret key file has no comment line.
    MissingSecretKeyComment,
    /// The secret key file has no key line.
    MissingEncodedSecretKey,
    /// The second line of the secret key file is not base64.
    SecretKeyNotBase64,
    /// The key was to be opened without a password, but it names a key derivation, so it may be
    /// encrypted.
    KeyMightBeEncrypted,
    /// The key was to be opened with a password, but it names no key derivation, so it is not encrypted.
    KeyNotEncrypted,
    /// An encrypted key names a key derivation other than `Sc`, which is scrypt.
    UnsupportedEncryptionAlgorithm,
    /// The checksum does not match after decryption, so the password is probably wrong.
    WrongPassword,
    /// The checksum of an unencrypted secret key does not match.
    CorruptedKey,
    /// The secret key must be decrypted before it can sign.
    EncryptedKeyRefused,
    /// The given public key does not accept the comment signature.
    RefusedByGivenKey { key: [u8; 8] },
    /// The signature was made with a key that has another key ID.
    DifferentKeyIds { signature: [u8; 8], key: [u8; 8] },
    /// The signature is a legacy one, and only prehashed ones are allowed.
    LegacyNotAccepted,
    /// The signature of the data is not valid.
    SignatureRefused,
    /// The comment signature is too short or not valid.
    CommentSignatureRefused,
    /// A signature box without comments was asked for its trusted comment.
    TrustedCommentAbsent,
    /// A signature box without comments was asked for its text.
    SignatureBoxIncomplete,
    /// The system clock is set before 1970 or cannot be read.
    ClockIncorrect,
    /// The data had a different digest when it was read again.
    DataChanged,
    /// The key derivation cannot give an output of this length.
    InvalidOutputLength,
    /// An error of std's input and output.
    InputOrOutputFailed,
    /// An error of std's formatting.
    FormattingFailed,
    /// std reported bytes that are not UTF-8.
    InvalidUtf8,
}

impl NamedFault {
    /// All named errors, with key IDs of zeros.
    pub const ALL: [NamedFault; 49] = [
        NamedFault::OutOfMemory,
        NamedFault::ReadingFailed,
        NamedFault::WritingFailed,
        NamedFault::GoingBackFailed,
        NamedFault::RandomSourceFailed,
        NamedFault::RecordTooShort,
        NamedFault::NotUtf8,
        NamedFault::EndOfInput,
        NamedFault::PasswordTooLong,
        NamedFault::PasswordsDiffer,
        NamedFault::ParametersTooHigh,
        NamedFault::InvalidParameters,
        NamedFault::WorkTooHigh,
        NamedFault::MissingUntrustedComment,
        NamedFault::MissingSignature,
        NamedFault::MissingTrustedComment,
        NamedFault::MissingGlobalSignature,
        NamedFault::UntrustedCommentPrefix,
        NamedFault::SignatureNotBase64,
        NamedFault::TrustedCommentPrefix,
        NamedFault::UnsupportedSignatureAlgorithm,
        NamedFault::MissingPublicKeyComment,
        NamedFault::MissingEncodedPublicKey,
        NamedFault::PublicKeyLineLength,
        NamedFault::PublicKeyLineNotBase64,
        NamedFault::BarePublicKeyLength,
        NamedFault::BarePublicKeyNotBase64,
        NamedFault::MissingSecretKeyComment,
        NamedFault::MissingEncodedSecretKey,
        NamedFault::SecretKeyNotBase64,
        NamedFault::KeyMightBeEncrypted,
        NamedFault::KeyNotEncrypted,
        NamedFault::UnsupportedEncryptionAlgorithm,
        NamedFault::WrongPassword,
        NamedFault::CorruptedKey,
        NamedFault::EncryptedKeyRefused,
        NamedFault::RefusedByGivenKey { key: [0; 8] },
        NamedFault::DifferentKeyIds {
            signature: [0; 8],
            key: [0; 8],
        },
        NamedFault::LegacyNotAccepted,
        NamedFault::SignatureRefused,
        NamedFault::CommentSignatureRefused,
        NamedFault::TrustedCommentAbsent,
        NamedFault::SignatureBoxIncomplete,
        NamedFault::ClockIncorrect,
        NamedFault::DataChanged,
        NamedFault::InvalidOutputLength,
        NamedFault::InputOrOutputFailed,
        NamedFault::FormattingFailed,
        NamedFault::InvalidUtf8,
    ];

    /// Returns the kind of the error.
    pub fn kind(&self) -> &'static ErrorKind
        ensures { result.now ≡ (fault_row self.now).kind }
    {
        &self.row().1
    }

    /// Returns the number by which programs in other languages know the error.
    pub fn number(&self) -> u32
        ensures { result ≡ (fault_row self.now).number }
    {
        self.row().0
    }

    /// Returns the text of the error without key IDs, at most 127 bytes. It is the whole text, except for
    /// `DifferentKeyIds`, `RefusedByGivenKey` and `EncryptedKeyRefused`.
    pub fn summary(&self) -> &'static str
        ensures { result.now ≡ (fault_row self.now).summary }
    {
        self.row().2
    }

    /// Returns the text that `Display` writes. A text that contains key IDs is written to the buffer `room`;
    /// the other texts are not copied. Does not allocate.
    pub fn text<'a>(&self, room: &'a mut [u8; TEXT_ROOM]) -> &'a [u8]
        ensures { result.now ≡ named_text self.now }
    {
        match self {
            NamedFault::DifferentKeyIds { signature, key } => joined(
                room,
                b"Signature key id: ",
                &KeyId(*signature).digits(),
                b" is different from public key: ",
                &KeyId(*key).digits(),
            ),
            NamedFault::RefusedByGivenKey { key } => joined(
                room,
                self.summary().as_bytes(),
                b": ",
                &KeyId(*key).digits(),
                b"",
            ),
            NamedFault::EncryptedKeyRefused =>
                "Cannot sign with an encrypted secret key. The key must be decrypted first. Options include: SecretKeyBox::into_secret_key(password), SecretKey::from_box(box, password), SecretKey::from_file(path, password), or use KeyPair::generate_unencrypted_keypair() for passwordless keys.".as_bytes(),
            _ => self.summary().as_bytes(),
        }
    }

    // Returns the number, the kind and the summary.
    fn row(&self) -> &'static (u32, ErrorKind, &'static str)
        ensures { record { number = result.now.0; kind = result.now.1; summary = result.now.2.now }
            ≡ fault_row self.now }
    {
        use NamedFault::*;
        match self {
            OutOfMemory => &(7, ErrorKind::OutOfMemory, "out of memory"),
            ReadingFailed => &(64, Io, "reading failed"),
            WritingFailed => &(65, Io, "writing failed"),
            GoingBackFailed => &(66, Io, "going back failed"),
            RandomSourceFailed => &(67, RNG, "random source failed"),
            RecordTooShort => &(20, Io, "failed to fill whole buffer"),
            NotUtf8 => &(8, Io, "stream did not contain valid UTF-8"),
            EndOfInput => &(68, Io, "unexpected end of input"),
            PasswordTooLong => &(69, Misc, "passphrase can't exceed 1024 bytes length"),
            PasswordsDiffer => &(70, Generate, "passwords don't match!"),
            ParametersTooHigh => &(40, KDF, "scrypt parameters too high"),
            InvalidParameters => &(41, KDF, "invalid scrypt parameters"),
            WorkTooHigh => &(43, KDF, "scrypt work too high"),
            MissingUntrustedComment => &(21, Io, "Missing untrusted comment"),
            MissingSignature => &(22, Io, "Missing signature"),
            MissingTrustedComment => &(23, Io, "Missing trusted comment"),
            MissingGlobalSignature => &(24, Io, "Missing global signature"),
            UntrustedCommentPrefix => &(
                25,
                Verify,
                "Untrusted comment must start with: untrusted comment: ",
            ),
            SignatureNotBase64 => &(26, Io, "invalid base64"),
            TrustedCommentPrefix => &(
                27,
                Verify,
                "Trusted comment should start with: trusted comment: ",
            ),
            UnsupportedSignatureAlgorithm => &(28, Verify, "Unsupported signature algorithm"),
            MissingPublicKeyComment => &(16, Io, "Missing comment in public key"),
            MissingEncodedPublicKey => &(17, Io, "Missing encoded key in public key"),
            PublicKeyLineLength => &(
                18,
                Io,
                "Base64 conversion failed - was an actual public key given?",
            ),
            PublicKeyLineNotBase64 => &(
                19,
                Io,
                "Base64 conversion failed - was an actual public key given?: invalid base64",
            ),
            BarePublicKeyLength => &(
                44,
                Io,
                "base64 conversion failed - was an actual public key given?",
            ),
            BarePublicKeyNotBase64 => &(
                45,
                Io,
                "base64 conversion failed - was an actual public key given?: invalid base64",
            ),
            MissingSecretKeyComment => &(33, Io, "Missing comment in secret key"),
            MissingEncodedSecretKey => &(34, Io, "Missing encoded key in secret key"),
            SecretKeyNotBase64 => &(35, Encoding, "invalid base64"),
            KeyMightBeEncrypted => &(36, Io, "Key might be encrypted"),
            KeyNotEncrypted => &(38, Io, "Key is not encrypted"),
            UnsupportedEncryptionAlgorithm => &(39, Io, "Unsupported encryption algorithm"),
            WrongPassword => &(42, Verify, "Wrong password for that key"),
            CorruptedKey => &(37, Verify, "Corrupted key"),
            EncryptedKeyRefused => &(
                71,
                EncryptedKey,
                "Cannot sign with an encrypted secret key.",
            ),
            RefusedByGivenKey { .. } => &(
                72,
                Verify,
                "Could not verify signature with the provided public key ID",
            ),
            DifferentKeyIds { .. } => &(
                29,
                Verify,
                "Signature key id is different from public key",
            ),
            LegacyNotAccepted => &(30, Verify, "Legacy signatures are not accepted"),
            SignatureRefused => &(31, Verify, "Signature verification failed"),
            CommentSignatureRefused => &(32, Verify, "Comment signature verification failed"),
            TrustedCommentAbsent => &(73, Misc, "trusted comment is not present"),
            SignatureBoxIncomplete => &(
                74,
                Misc,
                "Incomplete SignatureBox: trusted comment is missing",
            ),
            ClockIncorrect => &(75, Misc, "system clock is incorrect"),
            DataChanged => &(76, Verify, "Data changed between verification and output"),
            InvalidOutputLength => &(77, KDF, "invalid output length"),
            InputOrOutputFailed => &(78, Io, "input or output failed"),
            FormattingFailed => &(79, Io, "an error occurred when formatting an argument"),
            InvalidUtf8 => &(80, Encoding, "invalid UTF-8"),
        }
    }
}

/// Writes the text of the error.
impl fmt::Display for NamedFault {
    ghost output = { λ f. Some (named_text f) };

    fn fmt<W: fmt::Write>(&self, f: &mut fmt::Formatter<W>) -> fmt::Result {
        let mut room = [0; TEXT_ROOM];
        match str::from_utf8(self.text(&mut room)) {
            Ok(text) => f.write_str(text),
            Err(_) => Err(fmt::Error),
        }
    }
}
