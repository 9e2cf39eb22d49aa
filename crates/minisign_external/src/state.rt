//! The state of verifying or signing one file, a struct of fixed size for programs in other languages. To
//! verify, the program asks the state about a key and a signature, which returns the inputs of two Ed25519
//! checks (the questions). Then it feeds the data in pieces, finalizes the digest, makes the two checks
//! itself, and passes in their results for the verdict. To sign, it feeds the data and finalizes the digest.

ghost use Rattle.std.specs.Prelude.{◌≡◌, ◌++◌, ℕ, List, [], false, Ok, OnOk, IfOk, IfErr, MatchResult};
ghost use Rattle.std.specs.Prelude.{length};
ghost use Rattle.minisign_hash.specs.Blake2b.{blake2b_digest};
ghost use Rattle.minisign_hash.specs.Fed.{IsFed, has_finalized, output_length};
ghost use Rattle.minisign_external.specs.States.{HasReturnedDigest, IsBlank, IsFedState, IsMarkedFed};
ghost use Rattle.minisign_external.specs.States.{IsMarkedFinalized, IsNotFed, KeepsQuestions, fed_mark};
ghost use Rattle.minisign_external.specs.States.{was_asked, was_asked_bare, is_begun, no_questions};
ghost use Rattle.minisign_external.specs.declared.state.Refusal.TheVariants.{Refused, WrongUse};

use minisign_base::PError;
use minisign_hash::blake2b::Blake2b;
use minisign_hash::blake2b::stored::StoredBlake2b;

// The mark (magic number) of a state that accepts data: the letters `minisign`, little endian.
pub(crate) const FED: u64 = 7955443211184269677;

// The mark of a state whose digest was returned: the letters `minissum`.
pub(crate) const FINALIZED: u64 = 7887337261936568685;

// The mark in a state that was asked about a signature file: the letters `minisask`.
pub(crate) const ASKED: u64 = 7742639332697991533;

// The mark in a state that was asked about a bare signature: the letters `minisbar`.
pub(crate) const BARE_ASKED: u64 = 8241977040894323053;

/// The state of verifying or signing one file, 512 bytes with the layout of C.
#[repr(C)]
#[derive(Clone, Copy)]
pub struct State {
    pub(crate) mark: u64,
    hash: StoredBlake2b,
    pub(crate) asked: Asked,
    reserved: [u64; 18],
}

// Records in a state that questions were asked, and about which kind of signature. All fields are 0 before
// that.
#[repr(C)]
#[derive(Clone, Copy, Default)]
pub(crate) struct Asked {
    // `ASKED` after asking about a signature file, `BARE_ASKED` after asking about a bare signature,
    // otherwise any other value.
    pub(crate) mark: u64,
    // 1 if the comment signature has at least 64 bytes, otherwise 0.
    pub(crate) whole: u64,
}

/// The inputs of the two Ed25519 checks that the caller must make, with the layout of C.
#[repr(C)]
#[derive(Clone, Copy)]
pub struct Questions {
    /// The public key for both checks.
    pub public_key: [u8; 32],
    /// The digest of the data, or zeros until it is known.
    pub digest: [u8; 64],
    /// The signature for the first check. Its message is the digest, or the data itself if `legacy` is 1.
    pub signature: [u8; 64],
    /// The signature for the second check, or zeros if the signature file has fewer than 64 bytes of it.
    pub comment_signature: [u8; 64],
    /// The length of the message for the second check.
    pub message_len: u64,
    /// The position of the trusted comment in the message for the second check.
    pub comment_offset: u64,
    /// The length of the trusted comment in bytes.
    pub comment_len: u64,
    /// 1 if the signature is a legacy one, which signs the data itself, otherwise 0.
    pub legacy: u32,
    /// Reserved, 0.
    pub reserved: u32,
}

/// A usage error of a state or of a call.
#[derive(Clone, Copy, Debug, PartialEq, Eq)]
pub enum Misuse {
    /// The state is not initialized, or its verdict was already returned.
    NotBegun,
    /// `minisign_ask`, `minisign_ask_bare` or `minisign_digest` was already called.
    AlreadyAsked,
    /// `minisign_ask`, `minisign_ask_bare` or `minisign_digest` was not called yet.
    NotAsked,
    /// The result of an Ed25519 check is neither `MINISIGN_ANSWER_YES` nor `MINISIGN_ANSWER_NO`.
    BadAnswer,
    /// A buffer that was passed is too small.
    NoRoom,
    /// The parameter `allow_legacy` is neither 0 nor 1.
    BadLegacyFlag,
    /// A comment would change when it is read back, because it contains a line feed, or begins or ends
    /// with white space.
    BadComment,
    /// The parameter `with_password` is not 0, 1 or 2.
    BadPasswordFlag,
    /// Minisign would not read a comment back, because it is too long, or contains a zero byte or a
    /// carriage return.
    UnreadableComment,
    /// The installation expects a different call now, or no operation can fail with the error that was
    /// reported.
    NotDue,
    /// An option of an installation other than `numbering` and `long_digest` is neither 0 nor 1, or two
    /// options must not be combined.
    BadOption,
    /// The option `numbering` is neither `MINISIGN_NUMBERING_TIMESTAMP` nor
    /// `MINISIGN_NUMBERING_VERSION`.
    BadNumbering,
    /// The secret key was neither opened nor set by `minisign_take_secret_key`.
    KeyNotOpened,
    /// No secret key was read into the struct.
    KeyNotRead,
    /// No signature was read into the struct, or only a bare signature, which lacks the comments that the
    /// call needs.
    SignatureNotRead,
    /// The signature was read from a different signature file than the one that was passed with it.
    OtherSignatureText,
    /// No public key was read into the struct.
    PublicKeyNotRead,
    /// The password is empty, and `with_password` does not allow an empty one.
    EmptyPassword,
    /// The salt is all zeros, or a scrypt limit is below the minimum of Minisign.
    WeakSealing,
    /// The list was not verified.
    ListNotVerified,
    /// The text is not the list that was verified.
    OtherListText,
    /// The hash function, or the length of its digest, is not one that this call accepts. For an
    /// installation, this is the option `long_digest`.
    BadHash,
    /// The entry was not read from a list.
    EntryNotRead,
}

/// The error of a call: API misuse, or an error of type `F`, which is `PError` unless a crate has errors of
/// its own.
#[derive(Debug, Drop)]
pub enum Refusal<F = PError> {
    /// API misuse.
    WrongUse(Misuse),
    /// The call failed with this error.
    Refused(F),
}

/// Wraps an error of the library: the result is `Refused` with this error.
impl From<PError> for Refusal {
    ghost from_gives = { λ e r. r ≡ Refused e };

    fn from(fault: PError) -> Refusal {
        Refusal::Refused(fault)
    }
}

/// Wraps API misuse: the result is `WrongUse` with this error.
impl<F> From<Misuse> for Refusal<F> {
    ghost from_gives = { λ m r. r ≡ WrongUse m };

    fn from(misuse: Misuse) -> Refusal<F> {
        Refusal::WrongUse(misuse)
    }
}

impl Questions {
    /// Returns a value with all fields 0, for `State::ask` to overwrite. Does not allocate.
    pub fn none() -> Questions
        // All fields of the result are 0.
        ensures { result ≡ no_questions }
    {
        Questions {
            public_key: [0; 32],
            digest: [0; 64],
            signature: [0; 64],
            comment_signature: [0; 64],
            message_len: 0,
            comment_offset: 0,
            comment_len: 0,
            legacy: 0,
            reserved: 0,
        }
    }
}

impl State {
    /// Returns a state that has been fed no data. Does not allocate.
    pub fn new() -> State
        // The new state has been fed no data, nothing was asked, and its reserved fields are 0.
        ensures fed { IsFedState result [] }
        ensures blank { IsBlank result }
    {
        State {
            mark: FED,
            hash: StoredBlake2b::store(&Blake2b::new(64)),
            asked: Asked::default(),
            reserved: [0; 18],
        }
    }

    /// Feeds the next bytes of the data. Fails if the state was never initialized, was finished by a verdict,
    /// or its digest was already returned. Then the state is unchanged. Does not allocate.
    pub fn update(&mut self, piece: &[u8]) -> Result<(), Misuse>
        // On success, the piece is appended to the data that the state was fed. What the state records about
        // being asked is unchanged. The call fails only if the digest was already returned, or if the state
        // was never initialized or was finished by a verdict. After an error, the state is unchanged.
        ensures fed { (m : List ℕ) → IsFedState self.old m
            → MatchResult result (λ _. IsFedState self.new (m ++ piece.now)) (λ _. ⊥) }
        ensures questions_kept { KeepsQuestions self.old self.new }
        ensures was_begun { OnOk result (IsMarkedFed self.old) }
        ensures other_fields_unchanged { OnOk result (self.new ≡ record self.old { hash = self.new.hash }) }
        ensures refused { IfErr result (λ e. IsNotFed self.old e × (self.new ≡ self.old)) }
    {
        let mut hasher = self.hasher()?;
        hasher.update(piece);
        self.hash = StoredBlake2b::store(&hasher);
        Ok(())
    }

    /// Writes the 64-byte digest of the data that the state was fed. The state then accepts no more data. The
    /// errors are those of `update`. After an error, the state and `digest` are unchanged.
    pub fn digest(&mut self, digest: &mut [u8; 64]) -> Result<(), Misuse>
        // On success, the digest is the Blake2b digest (64 bytes) of all data that the state was fed, and the
        // state accepts no more data. What the state records about being asked is unchanged. The call fails
        // only if the digest was already returned, or if the state was never initialized or was finished by a
        // verdict. After an error, the state and the digest are unchanged.
        ensures digest { (m : List ℕ) → IsFedState self.old m
            → MatchResult result (λ _. (digest.new ≡ blake2b_digest 64 m) × HasReturnedDigest self.new m)
            (λ _. ⊥) }
        ensures questions_kept { KeepsQuestions self.old self.new }
        ensures finalized { OnOk result (IsMarkedFed self.old × IsMarkedFinalized self.new) }
        ensures other_fields_unchanged { OnOk result (self.new ≡ record self.old { mark = self.new.mark }) }
        ensures refused { IfErr result
            (λ e. IsNotFed self.old e × (self.new ≡ self.old) × (digest.new ≡ digest.old)) }
    {
        let mut hasher = self.hasher()?;
        hasher.finalize(digest);
        self.mark = FINALIZED;
        Ok(())
    }

    // Returns true if the state was initialized and no verdict has finished it.
    pub(crate) fn is_begun(&self) -> bool
        ensures { result ≡ is_begun self.now }
    {
        self.mark == FED || self.mark == FINALIZED
    }

    // Returns true if the state was asked about a signature file.
    pub(crate) fn was_asked(&self) -> bool
        ensures { result ≡ was_asked self.now }
    {
        self.asked.mark == ASKED
    }

    // Returns true if the state was asked about a bare signature.
    pub(crate) fn was_asked_bare(&self) -> bool
        ensures { result ≡ was_asked_bare self.now }
    {
        self.asked.mark == BARE_ASKED
    }

    // Returns the hasher, restored to the data that the state was fed. Fails if the state accepts no data.
    fn hasher(&self) -> Result<Blake2b, Misuse>
        ensures fed { (m : List ℕ) → IsFedState self.now m → MatchResult result (λ b. IsFed b m) (λ _. ⊥) }
        ensures length { IfOk result (λ b. output_length b ≡ 64) }
        ensures finalized { IfOk result (λ b. has_finalized b ≡ false) }
        ensures mark { OnOk result (self.now.mark ≡ fed_mark) }
        ensures refused { IfErr result (IsNotFed self.now) }
    {
        if self.mark == FINALIZED {
            return Err(Misuse::AlreadyAsked);
        }
        if self.mark != FED {
            return Err(Misuse::NotBegun);
        }
        match self.hash.restore() {
            Some(hasher) => Ok(hasher),
            None => Err(Misuse::NotBegun),
        }
    }
}
