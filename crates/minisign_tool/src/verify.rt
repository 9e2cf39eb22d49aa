//! The command `verify`: verifies the data in a file with the texts of a public key and a signature.

ghost use Rattle.std.specs.Prelude.{◌≡◌, ◌≤◌, false, OnOk, IfErr};
ghost use Rattle.minisign.specs.Devices.{PrefixIsRemoved};
ghost use Rattle.minisign.specs.DeviceCalls.{SinkReceives, sink_call};
ghost use Rattle.minisign_tool.specs.Report.{EndsWithFault, SaysAfterWarning};
ghost use Rattle.minisign_tool.specs.Verify.{FilesFail, FilesVouch, verifying_call};

use crate::report::{report, warn};
use crate::text_files::read_both_texts;
use minisign::base::devices::sinks::{NoSink, Sink};
use minisign::base::devices::sources::{Rereader, Source};
use minisign::base::scheme::Scheme;
use minisign::{Result, verify_texts};
use std::alloc::Global;

/// The input of the commands `verify` and `cat`.
#[derive(Drop)]
pub struct VerifyingDevices<P, Q, R> {
    /// Holds the text of the public key.
    pub pk_file: P,
    /// Holds the text of the signature.
    pub sig_file: Q,
    /// Provides the data to verify.
    pub data_reader: R,
}

/// Verifies the data of `devices` with the texts of their public key and their signature. Legacy
/// signatures are rejected. Both files are read whole, the key first, and must be UTF-8, before the
/// data is read. Writes the warning, and after it the status lines or the line of an error, to
/// `errors`. Returns the exit status: 0 if the signature is valid, otherwise 1.
pub fn run_verify<S: Scheme, P: Source, Q: Source, R: Rereader, W: Sink>(
    alloc: Global,
    scheme: &S,
    devices: &mut VerifyingDevices<P, Q, R>,
    errors: &mut W,
) -> u8
    // The exit status is 0 or 1.
    ensures status { result ≤ 1 }

    // **The exit status is 0 only if both text files were read whole, the texts are valid for all of the
    // data, and the status lines were written after the warning was sent.**
    ensures accepted { result ≡ 0 → FilesVouch (S.accepts scheme.now)
        (verifying_call P.Source Q.Source R.Source R.steady devices.old devices.new)
        (SaysAfterWarning W.Sink errors.old errors.new) }

    // With exit status 1, either a file could not be read as a text, and no data was read, or verification
    // failed, as `verify_texts` promises. The warning was sent first and the error line last.
    ensures refused { result ≡ 1 → EndsWithFault W.Sink errors.old errors.new
        (FilesFail (S.accepts scheme.now)
        (verifying_call P.Source Q.Source R.Source R.steady devices.old devices.new)) }
    ensures prefix_removed { PrefixIsRemoved (R.ahead devices.old.data_reader)
        (R.ahead devices.new.data_reader) }
{
    warn(errors);
    match verify_with_files(alloc, scheme, devices, errors) {
        Ok(()) => 0,
        Err(fault) => report(errors, &fault),
    }
}

// Reads the texts of the public key and of the signature, and then verifies the data. Nothing is
// copied.
fn verify_with_files<S: Scheme, P: Source, Q: Source, R: Rereader, W: Sink>(
    alloc: Global,
    scheme: &S,
    devices: &mut VerifyingDevices<P, Q, R>,
    errors: &mut W,
) -> Result<()>
    ensures accepted { OnOk result (FilesVouch (S.accepts scheme.now)
        (verifying_call P.Source Q.Source R.Source R.steady devices.old devices.new)
        (SinkReceives (sink_call W.Sink errors.old errors.new))) }
    ensures no_new_fault { OnOk result (W.sink_faults errors.new ≡ W.sink_faults errors.old) }
    ensures refused { IfErr result (FilesFail (S.accepts scheme.now)
        (verifying_call P.Source Q.Source R.Source R.steady devices.old devices.new)
        (sink_call W.Sink errors.old errors.new)) }
    ensures prefix_removed { PrefixIsRemoved (R.ahead devices.old.data_reader)
        (R.ahead devices.new.data_reader) }
{
    let (pk_text, sig_text) = read_both_texts(alloc, &mut devices.pk_file, &mut devices.sig_file)?;
    let (quiet, output, allow_legacy) = (false, false, false);
    verify_texts(
        alloc,
        scheme,
        &pk_text,
        &sig_text,
        &mut devices.data_reader,
        quiet,
        output,
        allow_legacy,
        errors,
        &mut NoSink,
    )
}
