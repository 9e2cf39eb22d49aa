//! `SignatureBox`, a signature with its comments.

ghost use Rattle.std.specs.Prelude.{◌≡◌, ◌≢◌, ◌||◌, ◌+◌, ◌≤◌, [], ◌∷◌, ◌++◌, List, ℕ, bytes_eq, false, None};
ghost use Rattle.std.specs.Prelude.{Some, Ok, Err, length, string_bytes, MatchOption, MatchResult, IfOk};
ghost use Rattle.std.specs.Prelude.{IfErr, IfSome};
ghost use Rattle.minisign_base.specs.Fault.{Named};
ghost use Rattle.minisign_base.specs.declared.faults.NamedFault.TheVariants.{OutOfMemory};
ghost use Rattle.minisign_base.specs.declared.faults.NamedFault.TheVariants.{SignatureBoxIncomplete};
ghost use Rattle.minisign_base.specs.declared.faults.NamedFault.TheVariants.{TrustedCommentAbsent};
ghost use Rattle.minisign_base.specs.declared.faults.NamedFault.TheVariants.{TrustedCommentPrefix};
ghost use Rattle.minisign_base.specs.declared.faults.NamedFault.TheVariants.{UnsupportedSignatureAlgorithm};
ghost use Rattle.minisign_base.specs.declared.faults.NamedFault.TheVariants.{UntrustedCommentPrefix};
ghost use Rattle.minisign.specs.Records.{CommentsRecord, SignatureBoxRecord, IsKnownAlgorithm};
ghost use Rattle.minisign.specs.Records.{legacy_algorithm, prehashed_algorithm};
ghost use Rattle.minisign.specs.SignatureText.{AreOneLine, AreReadBack, box_read_back, comments_read_back};
ghost use Rattle.minisign.specs.SignatureText.{read_signature, read_signature_box, signature_in_lines};
ghost use Rattle.minisign.specs.SignatureText.{signature_text, trusted_comment_label};
ghost use Rattle.minisign.specs.Reading.{IsReadFromFile};
ghost use Rattle.minisign.specs.Texts.{IsValueOrNoMemory, untrusted_comment_label};

use crate::constants::{SIGALG, SIGALG_PREHASHED};
use crate::in_place::read_parts;
use crate::reading::read_text_file;
use crate::signature::Signature;
use crate::signature_bones::SignatureBones;
use crate::texts::{decode, encode, next_line};
use minisign_base::{NamedFault, Result};
use std::alloc::Global;
use std::marker::Model;
use std::rt::Files;

/// A signature with a known algorithm, and its comments unless it was made from a bare signature.
#[derive(Drop)]
pub struct SignatureBox {
    pub(crate) signature: Signature,
    pub(crate) comments: Option<Comments>,
}

// The comments of a signature box. `global_sig` is the comment signature: it signs the signature of
// the data followed by the trusted comment.
#[derive(Drop)]
pub(crate) struct Comments {
    pub(crate) untrusted_comment: String,
    pub(crate) trusted_comment: String,
    pub(crate) global_sig: Vec<u8>,
}

impl Model for Comments {
    ghost use Rattle.std.specs.Prelude.{string_bytes};
    ghost use Rattle.minisign.specs.Records.{CommentsRecord};

    ghost Value = { CommentsRecord };

    ghost view = { λ c. record {
      untrusted = string_bytes c.untrusted_comment;
      trusted = string_bytes c.trusted_comment;
      signature = c.global_sig.items;
    } };
}

impl Model for SignatureBox {
    ghost use Rattle.minisign.specs.Records.{SignatureBoxRecord, IsKnownAlgorithm};

    ghost Value = { SignatureBoxRecord };

    ghost view = { λ b. record { signature = b.signature; comments = b.comments } };

    ghost invariant = { λ b. IsKnownAlgorithm b.signature.algorithm };
}

impl SignatureBox {
    ghost use Rattle.std.specs.Option.{option_map_or};
    ghost use Rattle.minisign.specs.Records.{is_prehashed};

    /// Returns a box without comments. Does not allocate.
    pub fn from_bones(bones: SignatureBones) -> SignatureBox
        ensures { result ≡ record { signature = bones; comments = None } }
    {
        SignatureBox {
            signature: bones.signature,
            comments: None,
        }
    }

    /// Parses a signature text of four lines: `untrusted comment: ` and the untrusted comment; the base64
    /// of the 74 bytes of a signature; `trusted comment: ` and the trusted comment; the base64 of the
    /// comment signature, of any length. The second line, the fourth line and the trusted comment are
    /// trimmed of white space. The untrusted comment is kept as it is, and later lines are ignored.
    ///
    /// Errors come in this order: a missing line, the first one first; a different label of the first line;
    /// a second line that is not base64, or of fewer than 74 bytes; a different label of the third line; an
    /// algorithm other than `Ed` and `ED`; a fourth line that is not base64. An allocation may fail after
    /// the text was parsed.
    pub fn from_string(alloc: Global, text: &str) -> Result<SignatureBox>
        // The result is out of memory, or it depends only on the text: it is the signature box in the text,
        // as `specs/SignatureText` defines it, or the error of the first check that fails.
        ensures { IsValueOrNoMemory result (read_signature_box text.now) }
    {
        read_text(alloc, text)
    }

    /// Parses a signature text as `from_string` does, and takes ownership of it.
    pub fn try_from_string(alloc: Global, text: String) -> Result<SignatureBox>
        // The text is parsed, or rejected, as `SignatureBox::from_string` promises.
        ensures { IsValueOrNoMemory result (read_signature_box (string_bytes text)) }
    {
        read_text(alloc, text.as_str())
    }

    /// Parses the signature text in the file at `path`, as `from_string` does. The path is used as given.
    ///
    /// Errors come in this order: a file that cannot be opened or read, `ReadingFailed`; a file that is not
    /// UTF-8, `NotUtf8`; the errors of `from_string`. An allocation may fail at any time. The contract does
    /// not say that the text comes from the named file.
    pub fn from_file<F: Files>(files: &F, alloc: Global, path: &str) -> Result<SignatureBox>
        // On success, the result is what parsing some text gives. An error is out of memory, a file that
        // could not be opened or read, a file that is not UTF-8, or the error of parsing some text. The
        // contract does not say that the text comes from the named file.
        ensures { IsReadFromFile read_signature_box result }
    {
        let text = read_text_file(files, alloc, path)?;
        SignatureBox::from_string(alloc, text.as_str())
    }

    /// Returns the text of the box: the four lines that `from_string` parses, each ended by a line feed.
    /// The errors are a box that was made from a bare signature, and a failed allocation.
    ///
    /// Comments are written as they are. They are read back unchanged if the untrusted comment has no line
    /// feed and no carriage return at its end, and the trusted comment has no line feed and no white space
    /// at its ends. A carriage return at the end of the untrusted comment is dropped when the text is read.
    pub fn to_string(&self, alloc: Global) -> Result<String>
        // On success, the result is the text of this box in the form that `specs/SignatureText` defines.
        // The errors are a box made from a bare signature, which is always rejected, and out of memory.
        ensures text { MatchOption self.now.comments (result ≡ Err (Named SignatureBoxIncomplete))
            (λ c. MatchResult result (λ t. string_bytes t ≡ signature_text self.now.signature c)
            (λ e. e ≡ Named OutOfMemory)) }

        // On success, the text parses to this box if the untrusted comment has no line feed and no carriage
        // return at its end, and the trusted comment has no line feed and is trimmed.
        ensures reads_back { IfSome self.now.comments (λ c. AreReadBack c.untrusted c.trusted)
            → IfOk result (λ t. read_signature_box (string_bytes t) ≡ Ok self.now) }

        // On success, if neither comment has a line feed and the trusted comment is trimmed, the text
        // parses to this box, except that one carriage return at the end of the untrusted comment is
        // dropped.
        ensures reads { IfSome self.now.comments (λ c. AreOneLine c.untrusted c.trusted)
            → IfOk result (λ t. read_signature_box (string_bytes t) ≡ Ok (box_read_back self.now)) }
    {
        match &self.comments {
            Some(comments) => written(alloc, &self.signature, comments),
            None => Err(NamedFault::SignatureBoxIncomplete.into()),
        }
    }

    /// Returns the text of the box as `to_string` does, and consumes the box.
    pub fn into_string(self, alloc: Global) -> Result<String>
        // The text, the errors and what the text parses to are as `SignatureBox::to_string` promises.
        ensures text { MatchOption self.comments (result ≡ Err (Named SignatureBoxIncomplete))
            (λ c. MatchResult result (λ t. string_bytes t ≡ signature_text self.signature c)
            (λ e. e ≡ Named OutOfMemory)) }
        ensures reads_back { IfSome self.comments (λ c. AreReadBack c.untrusted c.trusted)
            → IfOk result (λ t. read_signature_box (string_bytes t) ≡ Ok self) }
        ensures reads { IfSome self.comments (λ c. AreOneLine c.untrusted c.trusted)
            → IfOk result (λ t. read_signature_box (string_bytes t) ≡ Ok (box_read_back self)) }
    {
        self.to_string(alloc)
    }

    /// Returns the bytes of the box's text, with the errors of `to_string`.
    pub fn to_bytes(&self, alloc: Global) -> Result<Vec<u8>>
        // On success, the bytes are those of the text that `SignatureBox::to_string` returns. The errors
        // are the same.
        ensures { MatchOption self.now.comments (result ≡ Err (Named SignatureBoxIncomplete))
            (λ c. MatchResult result (λ v. v.items ≡ signature_text self.now.signature c)
            (λ e. e ≡ Named OutOfMemory)) }
    {
        Ok(self.to_string(alloc)?.into_bytes())
    }

    /// Returns a copy of the box. The only error is `OutOfMemory`.
    pub fn try_clone(&self, alloc: Global) -> Result<SignatureBox>
        ensures copy_is_equal { IfOk result (λ b. b ≡ self.now) }
        ensures only_out_of_memory { IfErr result (λ e. e ≡ Named OutOfMemory) }
    {
        match &self.comments {
            Some(comments) => Ok(SignatureBox {
                signature: self.signature.clone()?,
                comments: Some(comments.try_clone(alloc)?),
            }),
            None => Ok(SignatureBox {
                signature: self.signature.clone()?,
                comments: None,
            }),
        }
    }

    /// Returns true if the signature is prehashed: it signs the digest of the data, not the data itself.
    pub fn is_prehashed(&self) -> bool
        ensures { result ≡ is_prehashed self.now.signature }
    {
        self.signature.sig_alg == SIGALG_PREHASHED
    }

    /// Returns the untrusted comment, which is not signed; it is empty for a bare signature. The only error
    /// is `OutOfMemory`.
    pub fn untrusted_comment(&self, alloc: Global) -> Result<String>
        // On success, the result is the untrusted comment, which is empty for a bare signature. The only
        // error is out of memory.
        ensures comment { IfOk result
            (λ t. string_bytes t ≡ option_map_or (λ c. c.untrusted) self.now.comments []) }
        ensures only_out_of_memory { IfErr result (λ e. e ≡ Named OutOfMemory) }
    {
        match &self.comments {
            Some(comments) => Ok(String::from_str(alloc, comments.untrusted_comment.as_str())?),
            None => Ok(String::new(alloc)),
        }
    }

    /// Returns the trusted comment, which is signed. The errors are a bare signature, which has none, and a
    /// failed allocation.
    pub fn trusted_comment(&self, alloc: Global) -> Result<String>
        // On success, the result is the trusted comment. A box without comments is always an error, and the
        // only other error is out of memory.
        ensures { MatchOption self.now.comments (result ≡ Err (Named TrustedCommentAbsent))
            (λ c. MatchResult result (λ t. string_bytes t ≡ c.trusted) (λ e. e ≡ Named OutOfMemory)) }
    {
        match &self.comments {
            Some(comments) => Ok(String::from_str(alloc, comments.trusted_comment.as_str())?),
            None => Err(NamedFault::TrustedCommentAbsent.into()),
        }
    }

    /// Returns the key ID of the key that signed, 8 bytes.
    pub fn keynum(&self) -> &[u8]
        ensures { result.now ≡ self.now.signature.keynum }
    {
        &self.signature.keynum[..]
    }
}

impl Comments {
    fn try_clone(&self, alloc: Global) -> Result<Comments>
        ensures copy_is_equal { IfOk result (λ c. c ≡ self.now) }
        ensures only_out_of_memory { IfErr result (λ e. e ≡ Named OutOfMemory) }
    {
        Ok(Comments {
            untrusted_comment: String::from_str(alloc, self.untrusted_comment.as_str())?,
            trusted_comment: String::from_str(alloc, self.trusted_comment.as_str())?,
            global_sig: Vec::from_slice(alloc, &self.global_sig)?,
        })
    }
}

// Returns the text of a signature with comments.
fn written(alloc: Global, signature: &Signature, comments: &Comments) -> Result<String>
    ensures text { IfOk result (λ t. string_bytes t ≡ signature_text signature.now comments.now) }
    ensures reads_back { AreReadBack comments.now.untrusted comments.now.trusted
        → IsKnownAlgorithm signature.now.algorithm → IfOk result (λ t. read_signature_box (string_bytes t)
        ≡ Ok (record { signature = signature.now; comments = Some comments.now })) }
    ensures reads { AreOneLine comments.now.untrusted comments.now.trusted
        → IsKnownAlgorithm signature.now.algorithm → IfOk result (λ t. read_signature_box (string_bytes t)
        ≡ Ok (record { signature = signature.now; comments = Some (comments_read_back comments.now) })) }
    ensures only_out_of_memory { IfErr result (λ e. e ≡ Named OutOfMemory) }
{
    let bytes = signature.to_bytes(alloc)?;
    let encoded = encode(alloc, &bytes)?;
    let global_sig = encode(alloc, &comments.global_sig)?;
    let text = format!(in alloc;
        "untrusted comment: {}\n{}\ntrusted comment: {}\n{}\n",
        comments.untrusted_comment, encoded, comments.trusted_comment, global_sig
    )?;
    Ok(text)
}

// The first four lines of a signature text.
#[derive(Clone, Copy, Drop)]
pub(crate) struct TextLines<'a> {
    pub(crate) untrusted_comment: &'a str,
    pub(crate) signature: &'a str,
    pub(crate) trusted_comment: &'a str,
    pub(crate) global_sig: &'a str,
}

// Parses a signature text. Nothing is allocated for a text that is rejected.
fn read_text(alloc: Global, text: &str) -> Result<SignatureBox>
    ensures { IsValueOrNoMemory result (read_signature_box text.now) }
{
    let parts = read_parts(text)?;
    let Some(global_sig) = decode(alloc, parts.comment_signature)? else {
        return Err(NamedFault::SignatureNotBase64.into());
    };
    let comments = Comments {
        untrusted_comment: String::from_str(alloc, parts.untrusted_comment)?,
        trusted_comment: String::from_str(alloc, parts.trusted_comment)?,
        global_sig,
    };
    Ok(SignatureBox {
        signature: parts.signature,
        comments: Some(comments),
    })
}

// Splits off the first four lines of a text.
pub(crate) fn four_lines(text: &str) -> Result<TextLines<'_>>
    ensures { MatchResult result (λ l. (read_signature text.now ≡ signature_in_lines (l.untrusted_comment.now
        ∷ l.signature.now ∷ l.trusted_comment.now ∷ l.global_sig.now ∷ [])) × (length l.signature.now + length
        l.trusted_comment.now ≤ length text.now)) (λ e. read_signature text.now ≡ Err e) }
{
    let mut lines = text.lines();
    let Some(untrusted_comment) = next_line(&mut lines) else {
        return Err(NamedFault::MissingUntrustedComment.into());
    };
    let Some(signature) = next_line(&mut lines) else {
        return Err(NamedFault::MissingSignature.into());
    };
    let Some(trusted_comment) = next_line(&mut lines) else {
        return Err(NamedFault::MissingTrustedComment.into());
    };
    let Some(global_sig) = next_line(&mut lines) else {
        return Err(NamedFault::MissingGlobalSignature.into());
    };
    Ok(TextLines {
        untrusted_comment,
        signature,
        trusted_comment,
        global_sig,
    })
}

// Returns the comment in the first line.
#[tactic(auto, unfolding(crate::specs::Texts::untrusted_comment_label))]
pub(crate) fn untrusted_comment_in(line: &str) -> Result<&str>
    ensures { MatchResult result (λ c. line.now ≡ untrusted_comment_label ++ c.now)
        (λ e. (e ≡ Named UntrustedCommentPrefix) × ((comment : List ℕ)
        → line.now ≢ untrusted_comment_label ++ comment)) }
{
    match line.strip_prefix("untrusted comment: ") {
        Some(comment) => Ok(comment),
        None => Err(NamedFault::UntrustedCommentPrefix.into()),
    }
}

// Returns the comment in the third line.
#[tactic(auto, unfolding(crate::specs::SignatureText::trusted_comment_label))]
pub(crate) fn trusted_comment_in(line: &str) -> Result<&str>
    ensures { MatchResult result (λ c. line.now ≡ trusted_comment_label ++ c.now)
        (λ e. (e ≡ Named TrustedCommentPrefix) × ((comment : List ℕ)
        → line.now ≢ trusted_comment_label ++ comment)) }
{
    match line.strip_prefix("trusted comment: ") {
        Some(comment) => Ok(comment),
        None => Err(NamedFault::TrustedCommentPrefix.into()),
    }
}

// Returns `UnsupportedSignatureAlgorithm` unless the algorithm is `Ed` or `ED`.
pub(crate) fn with_known_algorithm(signature: Signature) -> Result<Signature>
    ensures { MatchResult result (λ s. (s ≡ signature) × IsKnownAlgorithm s.algorithm)
        (λ e. (e ≡ Named UnsupportedSignatureAlgorithm) × ((bytes_eq signature.algorithm legacy_algorithm ||
        bytes_eq signature.algorithm prehashed_algorithm) ≡ false)) }
{
    if signature.sig_alg != SIGALG && signature.sig_alg != SIGALG_PREHASHED {
        return Err(NamedFault::UnsupportedSignatureAlgorithm.into());
    }
    Ok(signature)
}
