//! Calls that verify data with a public key text and a signature text, and return the trusted
//! comment.

ghost use Rattle.std.specs.Prelude.{◌≡◌, ◌≤◌, ◌⊎◌, ℕ, List, Ok, Err, true, false, length, string_bytes, IfOk};
ghost use Rattle.std.specs.Prelude.{IfErr, OnOk};
ghost use Rattle.minisign_base.specs.Fault.{Named};
ghost use Rattle.minisign_base.specs.declared.faults.NamedFault.TheVariants.{OutOfMemory, ReadingFailed};
ghost use Rattle.minisign_base.specs.DeviceCalls.{rereader_call, sink_call, no_sink};
ghost use Rattle.minisign_base.specs.Devices.{PrefixIsRemoved};
ghost use Rattle.minisign.specs.Acceptance.{options_of};
ghost use Rattle.minisign.specs.Headline.{CopyIsVouchedWith, TextsVouchWith, verdict};
ghost use Rattle.minisign.specs.Headline.{IsVerdictIfNothingFails};
ghost use Rattle.minisign.specs.Reading.{HasFailed, KnownBytesAre, IsReadFromFile, ReadsWhole};
ghost use Rattle.minisign.specs.Texts.{IsValueOrNoMemory, map_ok};
ghost use Rattle.minisign.specs.Records.{PublicKeyRecord, SignatureBoxRecord};
ghost use Rattle.minisign.specs.SignatureText.{read_signature};
ghost use Rattle.minisign.specs.Verifying.{VerifyingTextsFails, VerifyingTextsSucceeds, read_texts};

use crate::in_place::{read_public_key, read_signature};
use crate::judging::judge_view;
use crate::options::VerifyOptions;
use crate::public_key::PublicKey;
use crate::reading::{read_text_file, zeros};
use crate::signature_box::SignatureBox;
use crate::verifying::verify;
use crate::verifying_texts::read_texts;
use minisign_base::devices::sinks::{NoSink, Sink};
use minisign_base::devices::sources::{FileSource, Rereader};
use minisign_base::scheme::Scheme;
use minisign_base::{NamedFault, Result};
use std::alloc::Global;
use std::fs;
use std::rt::Files;

/// Verifies that `sig_text` is a valid signature of all the unread data of `data_reader` under the
/// public key in `pk_text`, and returns the trusted comment, which was signed with the data. Does
/// what `verify_texts` does, with named options in place of three flags.
///
/// Errors and their order are those of `verify_texts`. Memory for the trusted comment is allocated before
/// anything is read, reported or copied.
pub fn verify_with<S: Scheme, R: Rereader, W: Sink, O: Sink>(
    alloc: Global,
    scheme: &S,
    pk_text: &str,
    sig_text: &str,
    data_reader: &mut R,
    options: VerifyOptions,
    status: &mut W,
    out: &mut O,
) -> Result<String>
    // Provided that the source's bytes are known, that no device fails and, if the data is copied, that the
    // source is steady, the result is out of memory or exactly the verdict on the two texts and the data:
    // the trusted comment if the signature is valid, and otherwise the error of the first check that fails.
    ensures headline { IsVerdictIfNothingFails (S.accepts scheme.now) pk_text.now sig_text.now options
        (rereader_call R.Source R.steady data_reader.old data_reader.new) (sink_call W.Sink status.old
        status.new) (sink_call O.Sink out.old out.new) (map_ok string_bytes result) }

    // On success, the result is the trusted comment of the signature text.
    ensures comment { IfOk result
        (λ t. map_ok (λ s. s.comments.trusted) (read_signature sig_text.now) ≡ Ok (string_bytes t)) }

    // On success and after an error, everything holds that the clauses `accepted` and `refused` of
    // `verify_texts` promise.
    ensures accepted { OnOk result (VerifyingTextsSucceeds (S.accepts scheme.now) pk_text.now sig_text.now
        options (rereader_call R.Source R.steady data_reader.old data_reader.new)
        (sink_call W.Sink status.old status.new) (sink_call O.Sink out.old out.new)) }
    ensures refused { IfErr result (VerifyingTextsFails (S.accepts scheme.now) pk_text.now sig_text.now
        options (rereader_call R.Source R.steady data_reader.old data_reader.new)
        (sink_call W.Sink status.old status.new) (sink_call O.Sink out.old out.new)) }

    // With `quiet`, `status` is unchanged. Without `output`, `out` is unchanged.
    ensures status_unchanged { options.quiet ≡ true → status.new ≡ status.old }
    ensures out_unchanged { options.output ≡ false → out.new ≡ out.old }

    // Without `output`, the unread bytes of `data_reader` are a suffix of those before the call,
    // whatever the result.
    ensures prefix_removed { options.output ≡ false → PrefixIsRemoved (R.ahead data_reader.old)
        (R.ahead data_reader.new) }
{
    let (pk, signature_box, comment) = read_with_comment(alloc, pk_text, sig_text)?;
    verify(
        alloc,
        scheme,
        &pk,
        &signature_box,
        data_reader,
        options.quiet,
        options.output,
        options.allow_legacy,
        status,
        out,
    )?;
    Ok(comment)
}

// Parses the public key, then the signature, and returns both with the signature's trusted comment.
fn read_with_comment(
    alloc: Global,
    pk_text: &str,
    sig_text: &str,
) -> Result<(PublicKey, SignatureBox, String)>
    ensures read { IsValueOrNoMemory {V = PublicKeyRecord × SignatureBoxRecord}
        (map_ok (λ all. (all.0, all.1)) result)
        (read_texts pk_text.now sig_text.now) }
    ensures comment { IfOk result
        (λ all. map_ok (λ s. s.comments.trusted) (read_signature sig_text.now) ≡ Ok (string_bytes all.2)) }
{
    let (pk, signature_box) = read_texts(alloc, pk_text, sig_text)?;
    let comment = signature_box.trusted_comment(alloc)?;
    Ok((pk, signature_box, comment))
}

/// Verifies that `sig_text` is a valid signature of `message` under the public key in `pk_text`, and
/// returns the trusted comment, which was signed with the message.
///
/// Errors come in this order: those of `PublicKey::from_box` for the public key text; those of
/// `SignatureBox::from_string` for the signature text; then those of the signature checks of `verify`. A
/// legacy signature is always rejected. An allocation may fail at any time. The message is not copied.
///
/// ```
/// let comment = verify_bytes(alloc, &scheme, PUBLIC_KEY, signature, update)?;
/// ```
pub fn verify_bytes<S: Scheme>(
    alloc: Global,
    scheme: &S,
    pk_text: &str,
    sig_text: &str,
    message: &[u8],
) -> Result<String>
    // The result is out of memory or exactly the verdict on the two texts and the message: the trusted
    // comment if the signature is valid, and otherwise the error of the first check that fails.
    ensures { IsValueOrNoMemory (map_ok string_bytes result)
        (verdict (S.accepts scheme.now) pk_text.now sig_text.now message.now false) }
{
    let mut room = zeros(alloc, sig_text.len())?;
    let comment = verify_in_place(scheme, pk_text, sig_text, message, false, &mut room)?;
    Ok(String::from_str(alloc, comment)?)
}

/// Verifies that `sig_text` is a valid signature of `message` under the public key in `pk_text`, and
/// returns the trusted comment, which was signed with the message, as a slice of `sig_text`. Does not
/// allocate. `room` is scratch space at least as long as `sig_text`; its contents afterwards are
/// unspecified.
///
/// Errors come in this order: those of `read_public_key` for the public key text; those of `read_signature`
/// for the signature text; key IDs that differ; a legacy signature, unless `allow_legacy` is set; a signature
/// that the scheme does not accept; a comment signature that has fewer than 64 bytes or that the scheme
/// does not accept.
///
/// ```
/// let comment = verify_in_place(&scheme, PUBLIC_KEY, signature, update, false, &mut room)?;
/// ```
pub fn verify_in_place<'a, S: Scheme>(
    scheme: &S,
    pk_text: &str,
    sig_text: &'a str,
    message: &[u8],
    allow_legacy: bool,
    room: &mut [u8],
) -> Result<&'a str>
    requires { length sig_text.now ≤ length room.old }

    // For every scheme, all texts and every message, the result is exactly the verdict: the trusted comment
    // if the signature is valid, and otherwise the error of the first check that fails. The verdict is a
    // function of the two texts, the message and `allow_legacy`.
    ensures { map_ok (λ t. t.now) result
        ≡ verdict (S.accepts scheme.now) pk_text.now sig_text.now message.now allow_legacy }
{
    let pk = read_public_key(pk_text)?;
    let view = read_signature(sig_text)?;
    judge_view(scheme, &pk, &view, message, allow_legacy, room)?;
    Ok(view.trusted_comment())
}

/// Verifies that the file at `sig_path` holds a valid signature of the file at `data_path` under the public
/// key in `pk_text`, and returns the trusted comment, which was signed with the data. The paths are used as
/// given. The data is read in pieces of 64 KiB, so memory use does not grow with its size.
///
/// Errors come in this order: a signature file that cannot be opened or read, `ReadingFailed`; a signature
/// file that is not UTF-8, `NotUtf8`; a data file that cannot be opened, `ReadingFailed`; a public key or a
/// signature that does not parse, as for `verify_bytes`; a data file that cannot be read, `ReadingFailed`;
/// then the checks of the signature, as for `verify_bytes`. An allocation may fail at any time.
///
/// ```
/// let comment = verify_file(&rt, rt.alloc(), &scheme, PUBLIC_KEY, "update.tar.minisig", "update.tar")?;
/// ```
pub fn verify_file<F: Files, S: Scheme>(
    files: &F,
    alloc: Global,
    scheme: &S,
    pk_text: &str,
    sig_path: &str,
    data_path: &str,
) -> Result<String>
    // The result is the verdict on the public key text, some signature text and some data; or it is out of
    // memory, `reading failed` or the error for a text that is not UTF-8, and the contract does not say when.
    // Nor does it say that the signature text and the data come from the named files; only the code and tests
    // show this.
    ensures { (message : List ℕ)
        × IsReadFromFile (λ sig_text. verdict (S.accepts scheme.now) pk_text.now sig_text message false)
        (map_ok string_bytes result) }
{
    let sig_text = read_text_file(files, alloc, sig_path)?;
    match fs::open(files, data_path) {
        Ok(file) => verify_opened_file(
            alloc,
            scheme,
            pk_text,
            sig_text.as_str(),
            &mut FileSource::new(file),
        ),
        Err(_) => Err(NamedFault::ReadingFailed.into()),
    }
}

/// Verifies that `sig_text` is a valid signature of all the unread data of `data_reader` under the
/// public key in `pk_text`, and returns the trusted comment, which was signed with the data. The
/// data is read in pieces of 64 KiB, so memory use does not grow with its size, and it is not
/// copied.
///
/// Errors come in this order: a text that does not parse, as for `verify_bytes`; data that cannot be read,
/// `ReadingFailed`, only if `data_reader` failed; then the checks of the signature, as for `verify_bytes`. An
/// allocation may fail at any time.
///
/// ```
/// let comment = verify_reader(alloc, &scheme, PUBLIC_KEY, signature, &mut ReaderSource::new(reader))?;
/// ```
pub fn verify_reader<S: Scheme, R: Rereader>(
    alloc: Global,
    scheme: &S,
    pk_text: &str,
    sig_text: &str,
    data_reader: &mut R,
) -> Result<String>
    // Provided that the source's bytes are known and that it does not fail, the result is out of memory or
    // exactly the verdict on the two texts and the data: the trusted comment if the signature is valid, and
    // otherwise the error of the first check that fails.
    ensures headline { IsVerdictIfNothingFails (S.accepts scheme.now) pk_text.now sig_text.now
        (options_of true false false) (rereader_call R.Source R.steady data_reader.old data_reader.new)
        no_sink
        no_sink (map_ok string_bytes result) }

    // On success, all the unread data was read to its end without an error, and the texts are valid
    // for it with the comment that is returned. This holds even if the source's bytes are not
    // known.
    ensures vouched { IfOk result
        (λ t. (message : List ℕ) × ReadsWhole R.Source data_reader.old data_reader.new message
        × TextsVouchWith (S.accepts scheme.now) pk_text.now sig_text.now message false (string_bytes t)) }

    // An error is out of memory; or `reading failed`, only if the source's error count rose; or the error
    // of the verdict on the two texts and the data.
    ensures refused { IfErr result (λ e. (e ≡ Named OutOfMemory) ⊎ HasFailed ReadingFailed R.faults
        data_reader.old data_reader.new e ⊎ ((bytes : List ℕ) × KnownBytesAre (R.ahead data_reader.old)
        bytes × (verdict (S.accepts scheme.now) pk_text.now sig_text.now bytes false ≡ Err e))) }

    // After an error, either a text was rejected or an allocation for one failed, and `data_reader` is
    // unchanged; or a stage of `verify` failed. That stage is either reading, if an allocation or the
    // source failed, or checking the signature, after all the data was read without an error.
    ensures failed { IfErr result
        (VerifyingTextsFails (S.accepts scheme.now) pk_text.now sig_text.now (options_of true false false)
        (rereader_call R.Source R.steady data_reader.old data_reader.new) no_sink no_sink) }

    // The unread bytes of `data_reader` are a suffix of those before the call, whatever the result.
    ensures prefix_removed { PrefixIsRemoved (R.ahead data_reader.old) (R.ahead data_reader.new) }
{
    let silent = VerifyOptions::SILENT;
    verify_with(
        alloc,
        scheme,
        pk_text,
        sig_text,
        data_reader,
        silent,
        &mut NoSink,
        &mut NoSink,
    )
}

// Verifies the contents of an opened file. The contract does not say which data was verified.
fn verify_opened_file<S: Scheme, R: Rereader>(
    alloc: Global,
    scheme: &S,
    pk_text: &str,
    sig_text: &str,
    data_reader: &mut R,
) -> Result<String>
    ensures { (message : List ℕ)
        × IsReadFromFile (λ sig_text. verdict (S.accepts scheme.now) pk_text.now sig_text message false)
        (map_ok string_bytes result) }
{
    verify_reader(alloc, scheme, pk_text, sig_text, data_reader)
}

/// Verifies that `sig_text` is a valid signature of all the unread data of `data_reader` under the
/// public key in `pk_text`, copies the data to `out`, and returns the trusted comment, which was
/// signed with the data.
///
/// The data is read twice in pieces of 64 KiB, so memory use does not grow with its size. Nothing is copied
/// before the signature has been verified.
///
/// Errors come in this order: a text that does not parse; for a prehashed signature, a source that cannot
/// mark its place, `GoingBackFailed`; a first reading that fails, `ReadingFailed`; a check of the signature,
/// as for `verify_bytes`. After each of these errors, `out` is unchanged. Then come a source that cannot go
/// back, `GoingBackFailed`; a second reading that fails, `ReadingFailed`, or a write to `out` that fails,
/// `WritingFailed`, whichever is first; a second reading with a different digest, `DataChanged`; and a flush
/// of `out` that fails, `WritingFailed`. An allocation may fail until the second reading begins. After any
/// error, discard what `out` received. On success, `out` is flushed.
///
/// ```
/// let comment = copy_verified(alloc, &scheme, PUBLIC_KEY, signature, &mut download, &mut new_file)?;
/// ```
pub fn copy_verified<S: Scheme, R: Rereader, O: Sink>(
    alloc: Global,
    scheme: &S,
    pk_text: &str,
    sig_text: &str,
    data_reader: &mut R,
    out: &mut O,
) -> Result<String>
    // Provided that the source is steady, that its bytes are known and that no device fails, the result is
    // out of memory or exactly the verdict on the two texts and the data: the trusted comment if the
    // signature is valid, and otherwise the error of the first check that fails.
    ensures headline { IsVerdictIfNothingFails (S.accepts scheme.now) pk_text.now sig_text.now
        (options_of true true false) (rereader_call R.Source R.steady data_reader.old data_reader.new) no_sink
        (sink_call O.Sink out.old out.new) (map_ok string_bytes result) }

    // On success, the texts are valid, with the comment that is returned, for the bytes that `out`
    // received, and these were flushed. They are what a second reading returned, and have the
    // digest of the first. If the source is steady and its bytes are known, they are the bytes that
    // were unread before the call.
    ensures copied { IfOk result (λ t. CopyIsVouchedWith (S.accepts scheme.now) pk_text.now sig_text.now
        (rereader_call R.Source R.steady data_reader.old data_reader.new) (sink_call O.Sink out.old out.new)
        (string_bytes t)) }

    // After an error, either a text was rejected or an allocation for one failed, and nothing was read or
    // copied; or a stage of `verify` failed. So either nothing was copied, or the signature is valid for
    // what was read first, and then going back, an allocation, the second reading or `out` failed, or the
    // second reading had a different digest.
    ensures refused { IfErr result (VerifyingTextsFails (S.accepts scheme.now) pk_text.now sig_text.now
        (options_of true true false) (rereader_call R.Source R.steady data_reader.old data_reader.new) no_sink
        (sink_call O.Sink out.old out.new)) }
{
    verify_with(
        alloc,
        scheme,
        pk_text,
        sig_text,
        data_reader,
        VerifyOptions::COPYING,
        &mut NoSink,
        out,
    )
}
