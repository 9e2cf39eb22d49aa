//! Opens the files that a command names, calls the command's function (such as `run_verify`) with them and
//! the standard streams, and returns the exit status. An error that occurs before this call is returned
//! instead, and nothing is written to the error stream.

ghost use Rattle.std.specs.Prelude.{◌≡◌, ◌≤◌, ◌⊎◌, ℕ, List, Some, Err, IsOk, IfOk, IfErr};
ghost use Rattle.minisign.specs.Fault.{Fault, Named};
ghost use Rattle.minisign.specs.NamedFaults.{ClockIncorrect, ReadingFailed};
ghost use Rattle.minisign_tool.specs.Copying.{input_is_output};
ghost use Rattle.minisign_tool.specs.Endings.{SaysOnlyFaults, SaysRawVerdict, SaysVerdict, SomeBytesVouch};
ghost use Rattle.minisign_tool.specs.Endings.{SomeTextsVouch};
ghost use Rattle.minisign_tool.specs.Replacing.{HoldsContents, mode_for_all, mode_for_owner};
ghost use Rattle.minisign_tool.specs.Report.{TakesOrFails, fault_line};

use crate::cat::run_cat;
use crate::keygen::run_keygen;
use crate::replacing::{
    Contents, MODE_FOR_ALL, MODE_FOR_OWNER, is_same_file, replace_both, replace_file,
};
use crate::report::report;
use crate::sign::{SigningDevices, run_sign};
use crate::verify::{VerifyingDevices, run_verify};
use crate::verify_raw::run_verify_raw;
use minisign::Result;
use minisign::base::devices::random_sources::SourceRandom;
use minisign::base::devices::sinks::{Sink, VecSink, WriterSink};
use minisign::base::devices::sources::{FileSource, ReaderSource};
use minisign::base::helpers::unix_timestamp;
use minisign::base::prompt::Prompt;
use minisign::base::scheme::Scheme;
use minisign::base::{ErrorKind, NamedFault, PError};
use std::fs;
use std::fs::File;

/// Opens the device of random bytes, and runs `keygen` with it, with a prompt on standard input and output,
/// and with memory as output. Writes the two files last.
pub fn keygen_files<S: Scheme, W: Sink>(
    rt: &HostRuntime,
    scheme: &S,
    pk: &str,
    sk: &str,
    errors: &mut W,
) -> Result<u8>
    // The exit status is 0 or 1.
    ensures status { IfOk result (λ s. s ≤ 1) }

    // With exit status 0, only the warning was sent. With exit status 1, only the warning and then
    // the error line were sent.
    ensures errors_received { IfOk result (SaysOnlyFaults W.Sink errors.old errors.new) }

    // The only error before `run_keygen` is called is `reading failed`, and then nothing was written.
    ensures refused { IfErr result (λ e. (e ≡ Named ReadingFailed) × (errors.new ≡ errors.old)) }
{
    let random_file = open(rt, "/dev/urandom")?;
    let mut pk_text = VecSink::new(rt.alloc());
    let mut sk_text = VecSink::new(rt.alloc());
    let status = run_keygen(
        rt.alloc(),
        scheme,
        &mut SourceRandom::new(ReaderSource::new(random_file)),
        &mut Prompt::new(ReaderSource::new(rt.stdin()), WriterSink::new(rt.stdout())),
        &mut pk_text,
        &mut sk_text,
        errors,
    );
    if status != 0 {
        return Ok(status);
    }
    let (public, secret) = contents_of_pair(pk, pk_text.as_slice(), sk, sk_text.as_slice());
    Ok(end_replacing(errors, replace_both(rt, public, secret)))
}

// Returns the new contents of the two files of a key pair.
fn contents_of_pair<'a>(
    pk: &'a str,
    pk_text: &'a [u8],
    sk: &'a str,
    sk_text: &'a [u8],
) -> (Contents<'a>, Contents<'a>)
    // A new public key file may be read by everybody, a new secret key file only by its owner, and
    // each gets its own text.
    ensures public { HoldsContents result.0 pk.now mode_for_all pk_text.now }
    ensures secret { HoldsContents result.1 sk.now mode_for_owner sk_text.now }
{
    let public = Contents {
        path: pk,
        mode: MODE_FOR_ALL,
        bytes: pk_text,
    };
    let secret = Contents {
        path: sk,
        mode: MODE_FOR_OWNER,
        bytes: sk_text,
    };
    (public, secret)
}

/// Opens the secret key, the data and the device of random bytes, reads the clock, and runs `sign` with
/// them, with a prompt on standard input and output, and with memory as output. Writes the signature file
/// last.
pub fn sign_files<S: Scheme, W: Sink>(
    rt: &HostRuntime,
    scheme: &S,
    sk: &str,
    file: &str,
    sig: &str,
    errors: &mut W,
) -> Result<u8>
    // The exit status is 0 or 1.
    ensures status { IfOk result (λ s. s ≤ 1) }

    // With exit status 0, only the warning was sent. With exit status 1, only the warning and then
    // the error line were sent.
    ensures errors_received { IfOk result (SaysOnlyFaults W.Sink errors.old errors.new) }

    // The only errors before `run_sign` is called are `reading failed` and that of the clock, and then
    // nothing was written.
    ensures refused { IfErr result (λ e. ((e ≡ Named ReadingFailed) ⊎ (e ≡ Named ClockIncorrect))
        × (errors.new ≡ errors.old)) }
{
    let (sk_file, data_file, random_file) = open_three(rt, sk, file, "/dev/urandom")?;
    let unix_time = unix_timestamp(rt)?;
    let mut devices = SigningDevices {
        sk_file: ReaderSource::new(sk_file),
        data_reader: ReaderSource::new(data_file),
        random: SourceRandom::new(ReaderSource::new(random_file)),
        prompt: Prompt::new(ReaderSource::new(rt.stdin()), WriterSink::new(rt.stdout())),
    };
    let mut signature = VecSink::new(rt.alloc());
    let status = run_sign(
        rt.alloc(),
        scheme,
        &mut devices,
        unix_time,
        &mut signature,
        errors,
    );
    if status != 0 {
        return Ok(status);
    }
    let contents = contents_of_signature(sig, &signature);
    Ok(end_replacing(errors, replace_file(rt, contents)))
}

// Returns the new contents of the signature file.
fn contents_of_signature<'a>(sig: &'a str, text: &'a VecSink) -> Contents<'a>
    // A new signature file may be read by everybody, and gets the text that was made.
    ensures { (bytes : List ℕ) → ⟦<VecSink as Sink>⟧.taken text.now ≡ Some bytes
        → HoldsContents result sig.now mode_for_all bytes }
{
    Contents {
        path: sig,
        mode: MODE_FOR_ALL,
        bytes: text.as_slice(),
    }
}

/// Opens the public key, the data and the signature, and runs `verify` with them.
pub fn verify_files<S: Scheme, W: Sink>(
    rt: &HostRuntime,
    scheme: &S,
    pk: &str,
    file: &str,
    sig: &str,
    errors: &mut W,
) -> Result<u8>
    // The exit status is 0 or 1.
    ensures status { IfOk result (λ s. s ≤ 1) }

    // For every scheme, the exit status is 0 only if some texts of a public key and a signature are
    // valid for some data.
    ensures accepted { IfOk result (λ s. s ≡ 0 → SomeTextsVouch (S.accepts scheme.now)) }

    // With exit status 0, the status lines were written after the warning was sent. With exit status 1, the
    // error line was sent last.
    ensures errors_received { IfOk result (SaysVerdict W.Sink errors.old errors.new) }

    // The only error before `run_verify` is called is `reading failed`, and then nothing was written.
    ensures refused { IfErr result (λ e. (e ≡ Named ReadingFailed) × (errors.new ≡ errors.old)) }
{
    let (pk_file, data_file, sig_file) = open_three(rt, pk, file, sig)?;
    let mut devices = VerifyingDevices {
        pk_file: ReaderSource::new(pk_file),
        sig_file: ReaderSource::new(sig_file),
        data_reader: ReaderSource::new(data_file),
    };
    Ok(run_verify(rt.alloc(), scheme, &mut devices, errors))
}

/// Opens the public key and the signature, and runs `verify-raw` with them and standard input.
pub fn verify_raw_files<S: Scheme, W: Sink>(
    rt: &HostRuntime,
    scheme: &S,
    pk: &str,
    sig: &str,
    errors: &mut W,
) -> Result<u8>
    // The exit status is 0 or 1.
    ensures status { IfOk result (λ s. s ≤ 1) }

    // For every scheme, the exit status is 0 only if the bytes of some public key and some bare
    // signature are valid for some data.
    ensures accepted { IfOk result (λ s. s ≡ 0 → SomeBytesVouch (S.accepts scheme.now)) }

    // With exit status 0, the status line was written after the warning was sent. With exit status 1, the
    // error line was sent last.
    ensures errors_received { IfOk result (SaysRawVerdict W.Sink errors.old errors.new) }

    // The only error before `run_verify_raw` is called is `reading failed`, and then nothing was written.
    ensures refused { IfErr result (λ e. (e ≡ Named ReadingFailed) × (errors.new ≡ errors.old)) }
{
    let pk_file = open(rt, pk)?;
    let sig_file = open(rt, sig)?;
    Ok(run_verify_raw(
        rt.alloc(),
        scheme,
        &mut ReaderSource::new(pk_file),
        &mut ReaderSource::new(sig_file),
        &mut ReaderSource::new(rt.stdin()),
        errors,
    ))
}

/// Opens the public key, the data and the signature, and runs `cat` with them and standard output.
/// The data must be seekable, because it is read twice. Rejects data from the file that standard
/// output is redirected to, without reading it, because otherwise the copy would be read as data.
pub fn cat_files<S: Scheme, W: Sink>(
    rt: &HostRuntime,
    scheme: &S,
    pk: &str,
    file: &str,
    sig: &str,
    errors: &mut W,
) -> Result<u8>
    // The exit status is 0 or 1.
    ensures status { IfOk result (λ s. s ≤ 1) }

    // For every scheme, the exit status is 0 only if some texts of a public key and a signature are
    // valid for some data.
    ensures accepted { IfOk result (λ s. s ≡ 0 → SomeTextsVouch (S.accepts scheme.now)) }

    // With exit status 0, the status lines were written after the warning was sent. With exit status 1, the
    // error line was sent last.
    ensures errors_received { IfOk result (SaysVerdict W.Sink errors.old errors.new) }

    // The only errors before `run_cat` is called are `reading failed` and `input file is output file`, for
    // data from the file that standard output is redirected to. Then nothing was written.
    ensures refused { IfErr result (λ e. ((e ≡ Named ReadingFailed) ⊎ (e ≡ input_is_output))
        × (errors.new ≡ errors.old)) }
{
    let (pk_file, data_file, sig_file) = open_three(rt, pk, file, sig)?;
    if is_output(rt, &data_file) {
        return Err(input_is_output());
    }
    let mut devices = VerifyingDevices {
        pk_file: ReaderSource::new(pk_file),
        sig_file: ReaderSource::new(sig_file),
        data_reader: FileSource::new(data_file),
    };
    let mut out = WriterSink::new(rt.stdout());
    Ok(run_cat(rt.alloc(), scheme, &mut devices, &mut out, errors))
}

// Returns the exit status after replacing files. If that failed, reports the error.
fn end_replacing<W: Sink>(errors: &mut W, replaced: Result<()>) -> u8
    ensures status { result ≤ 1 }
    ensures silent { result ≡ 0 → IsOk replaced × (errors.new ≡ errors.old) }
    ensures shown { result ≡ 1 → (e : Fault) × (replaced ≡ Err e)
        × TakesOrFails W.Sink errors.old errors.new (fault_line e) }
{
    match replaced {
        Ok(()) => 0,
        Err(fault) => report(errors, &fault),
    }
}

// Opens three files for reading, in this order.
fn open_three(
    rt: &HostRuntime,
    first: &str,
    second: &str,
    third: &str,
) -> Result<(File, File, File)>
    ensures { IfErr result (λ e. e ≡ Named ReadingFailed) }
{
    Ok((open(rt, first)?, open(rt, second)?, open(rt, third)?))
}

fn open(rt: &HostRuntime, path: &str) -> Result<File>
    ensures { IfErr result (λ e. e ≡ Named ReadingFailed) }
{
    match fs::open(rt, path) {
        Ok(file) => Ok(file),
        Err(_) => Err(NamedFault::ReadingFailed.into()),
    }
}

// Returns true if the file is a regular one and standard output is redirected to the same file. The
// system shows standard output under `/proc`; if there is no `/proc`, the result is false.
fn is_output(rt: &HostRuntime, file: &File) -> bool {
    match (file.metadata(), fs::metadata(rt, "/proc/self/fd/1")) {
        (Ok(input), Ok(output)) => input.is_file() && is_same_file(&input, &output),
        _ => false,
    }
}

/// Returns the error for data from the file that standard output is redirected to.
#[tactic(auto, unfolding(crate::specs::Copying::input_is_output))]
pub fn input_is_output() -> PError
    ensures { result ≡ input_is_output }
{
    PError::fixed(ErrorKind::Io, "input file is output file")
}
