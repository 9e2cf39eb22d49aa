//! The command `verify-raw`: verifies the data from a reader with a raw public key and a raw signature, which
//! are files of bytes without base64 and comments.

ghost use Rattle.std.specs.Prelude.{◌≡◌, ℕ, ◌≤◌, List, OnOk, OnErr, IfErr};
ghost use Rattle.std.specs.Io.KnownBytes.{Appends};
ghost use Rattle.minisign.specs.Devices.{PrefixIsRemoved};
ghost use Rattle.minisign.specs.DeviceCalls.{SinkReceives, rereader_call, sink_call, source_call};
ghost use Rattle.minisign.specs.Acceptance.{verified_text};
ghost use Rattle.minisign.specs.Texts.{line};
ghost use Rattle.minisign.specs.Reading.{ReadsWhole};
ghost use Rattle.minisign_tool.specs.Report.{EndsWithFault, SaysAfterWarning};
ghost use Rattle.minisign_tool.specs.VerifyRaw.{RawFilesFail, RawFilesVouch, SaysLinePrefix, VerifyRawFails};
ghost use Rattle.minisign_tool.specs.VerifyRaw.{VouchesRaw};

use crate::report::{report, warn};
use minisign::base::devices::sinks::{NoSink, Sink};
use minisign::base::devices::sources::{Rereader, Source};
use minisign::base::scheme::Scheme;
use minisign::reading::read_to_end;
use minisign::{PublicKey, Result, SignatureBones, SignatureBox, verify};
use std::alloc::Global;

/// Verifies all the unread data of `data_reader` with the public key in the first 42 bytes of `pk_file` and
/// the signature in the first 74 bytes of `sig_file`; later bytes of both are ignored. Both files are read
/// whole, the key file first, before the data is read. Writes to `errors` the warning that the toy scheme is
/// not secure, and after it the status line or an error line. Returns the exit status: 0 if the signature is
/// valid, otherwise 1.
pub fn run_verify_raw<S: Scheme, P: Source, Q: Source, R: Rereader, W: Sink>(
    alloc: Global,
    scheme: &S,
    pk_file: &mut P,
    sig_file: &mut Q,
    data_reader: &mut R,
    errors: &mut W,
) -> u8
    // The exit status is 0 or 1.
    ensures status { result ≤ 1 }

    // **The exit status is 0 only if both files and the data were read whole, without an error, and the
    // signature in the one file is valid for the data under the public key in the other.** Then `errors`
    // received the warning, or a prefix of it if the stream failed, and the status line, and nothing else.
    ensures accepted { result ≡ 0 → RawFilesVouch (S.accepts scheme.now) (source_call P.Source pk_file.old
        pk_file.new) (source_call Q.Source sig_file.old sig_file.new) (rereader_call R.Source R.steady
        data_reader.old data_reader.new) (SaysAfterWarning W.Sink errors.old errors.new) }

    // With exit status 1, one of these failed: reading the key file, and then nothing was read from the
    // signature file and the data; reading the signature file, and then no data was read; or `verify_raw`
    // with the bytes of both files. Reading a file fails if the file or an allocation fails. Between the
    // warning and the error line at most a prefix of the status line was written.
    ensures refused { result ≡ 1 → EndsWithFault W.Sink errors.old errors.new (RawFilesFail
        (S.accepts scheme.now) (source_call P.Source pk_file.old pk_file.new) (source_call Q.Source
        sig_file.old sig_file.new) (rereader_call R.Source R.steady data_reader.old data_reader.new)) }

    // The unread data is a suffix of the data that was unread before, if both are known.
    ensures prefix_removed { PrefixIsRemoved (R.ahead data_reader.old) (R.ahead data_reader.new) }
{
    warn(errors);
    match verify_with_files(alloc, scheme, pk_file, sig_file, data_reader, errors) {
        Ok(()) => 0,
        Err(fault) => report(errors, &fault),
    }
}

// Reads the key file and the signature file whole, and then verifies the data.
fn verify_with_files<S: Scheme, P: Source, Q: Source, R: Rereader, W: Sink>(
    alloc: Global,
    scheme: &S,
    pk_file: &mut P,
    sig_file: &mut Q,
    data_reader: &mut R,
    errors: &mut W,
) -> Result<()>
    ensures accepted { OnOk result (RawFilesVouch (S.accepts scheme.now) (source_call P.Source pk_file.old
        pk_file.new) (source_call Q.Source sig_file.old sig_file.new) (rereader_call R.Source R.steady
        data_reader.old data_reader.new) (SinkReceives (sink_call W.Sink errors.old errors.new))) }
    ensures no_new_fault { OnOk result (W.sink_faults errors.new ≡ W.sink_faults errors.old) }
    ensures refused { IfErr result (RawFilesFail (S.accepts scheme.now) (source_call P.Source pk_file.old
        pk_file.new) (source_call Q.Source sig_file.old sig_file.new) (rereader_call R.Source R.steady
        data_reader.old data_reader.new) (sink_call W.Sink errors.old errors.new)) }
    ensures prefix_removed { PrefixIsRemoved (R.ahead data_reader.old) (R.ahead data_reader.new) }
{
    let key = read_to_end(alloc, pk_file)?;
    let signature = read_to_end(alloc, sig_file)?;
    verify_raw(alloc, scheme, &key, &signature, data_reader, errors)
}

/// Verifies all the unread data of `data_reader` with the public key in the first 42 bytes of `key`
/// and the signature in the first 74 bytes of `signature`; later bytes of both are ignored.
///
/// Before any data is read, a key that is too short is rejected, and then a signature that is too short
/// or has an unknown algorithm. On success `errors` receives the status line. If `errors` fails, it may
/// have received a prefix of that line. After any other error it is unchanged.
pub fn verify_raw<S: Scheme, R: Rereader, W: Sink>(
    alloc: Global,
    scheme: &S,
    key: &[u8],
    signature: &[u8],
    data_reader: &mut R,
    errors: &mut W,
) -> Result<()>
    // On success, `key` begins with a public key, `signature` begins with a signature of a known algorithm,
    // and this is a valid signature of the digest of all the unread data. Legacy signatures are rejected.
    ensures accepted { OnOk result ((message : List ℕ)
        × ReadsWhole R.Source data_reader.old data_reader.new message
        × VouchesRaw (S.accepts scheme.now) key.now signature.now message) }

    // On success, the status line was written.
    ensures errors_received { OnOk result (Appends (W.taken errors.old) (W.taken errors.new)
        (line verified_text)) }
    ensures no_new_fault { OnOk result (W.sink_faults errors.new ≡ W.sink_faults errors.old) }

    // After an error, either `key` is too short, or `signature` is too short or has an unknown algorithm, and
    // in these cases no data was read; or verification with the key and the signature failed. At most a
    // prefix of the status line was written.
    ensures refused { IfErr result (VerifyRawFails (S.accepts scheme.now) key.now signature.now
        (rereader_call R.Source R.steady data_reader.old data_reader.new)
        (sink_call W.Sink errors.old errors.new)) }
    ensures prefix_received { OnErr result (SaysLinePrefix (sink_call W.Sink errors.old errors.new)) }
    ensures prefix_removed { PrefixIsRemoved (R.ahead data_reader.old) (R.ahead data_reader.new) }
{
    let pk = PublicKey::from_bytes(key)?;
    let bones = SignatureBones::from_bytes(signature)?;
    let signature_box = SignatureBox::from_bones(bones);
    let (quiet, output, allow_legacy) = (false, false, false);
    verify(
        alloc,
        scheme,
        &pk,
        &signature_box,
        data_reader,
        quiet,
        output,
        allow_legacy,
        errors,
        &mut NoSink,
    )
}
