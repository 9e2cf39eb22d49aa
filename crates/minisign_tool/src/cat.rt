//! The command `cat`: verifies data as `verify` does, and copies them to the output.

ghost use Rattle.std.specs.Prelude.{◌≡◌, ◌≤◌, false, true, OnOk, IfErr};
ghost use Rattle.minisign.specs.DeviceCalls.{SinkReceives, sink_call};
ghost use Rattle.minisign_tool.specs.Report.{EndsWithFault, SaysAfterWarning};
ghost use Rattle.minisign_tool.specs.Verify.{FilesFailToCopy, FilesVouchForCopy, verifying_call};

use crate::report::{report, warn};
use crate::text_files::read_both_texts;
use crate::verify::VerifyingDevices;
use minisign::base::devices::sinks::Sink;
use minisign::base::devices::sources::{Rereader, Source};
use minisign::base::scheme::Scheme;
use minisign::{Result, verify_texts};
use std::alloc::Global;

/// Verifies as `run_verify` does, and then reads the data a second time and copies it to `out`. If both
/// readings have the same digest, `out` is flushed. The data's source must be able to go back: its position
/// is marked before any data is read. Writes the warning that the scheme is a toy, and after it the status
/// lines or an error line, to `errors`. Returns the exit status: 0 if the signature is valid and the verified
/// data were copied, otherwise 1. Use the contents of `out` only if 0 is returned.
pub fn run_cat<S: Scheme, P: Source, Q: Source, R: Rereader, O: Sink, W: Sink>(
    alloc: Global,
    scheme: &S,
    devices: &mut VerifyingDevices<P, Q, R>,
    out: &mut O,
    errors: &mut W,
) -> u8
    // The exit status is 0 or 1.
    ensures status { result ≤ 1 }

    // **The exit status is 0 only if both text files were read whole, the texts are valid for all of the
    // data and for the copy that was written, and the status lines were written after the warning was
    // sent.**
    ensures accepted { result ≡ 0 → FilesVouchForCopy (S.accepts scheme.now)
        (verifying_call P.Source Q.Source R.Source R.steady devices.old devices.new)
        (sink_call O.Sink out.old out.new) (SaysAfterWarning W.Sink errors.old errors.new) }

    // With exit status 0, `out` did not fail.
    ensures out_no_new_fault { result ≡ 0 → O.sink_faults out.new ≡ O.sink_faults out.old }

    // With exit status 1, either a file could not be read as a text, and no data was read, or `verify_texts`
    // failed, as its contract describes; this includes failures to write to `out`. The warning was sent first
    // and the error line last.
    ensures refused { result ≡ 1 → EndsWithFault W.Sink errors.old errors.new
        (FilesFailToCopy (S.accepts scheme.now) (verifying_call P.Source Q.Source R.Source R.steady
        devices.old devices.new) (sink_call O.Sink out.old out.new)) }
{
    warn(errors);
    match copy_with_files(alloc, scheme, devices, out, errors) {
        Ok(()) => 0,
        Err(fault) => report(errors, &fault),
    }
}

// Reads the texts of the public key and of the signature, and then verifies and copies the data.
fn copy_with_files<S: Scheme, P: Source, Q: Source, R: Rereader, O: Sink, W: Sink>(
    alloc: Global,
    scheme: &S,
    devices: &mut VerifyingDevices<P, Q, R>,
    out: &mut O,
    errors: &mut W,
) -> Result<()>
    ensures accepted { OnOk result (FilesVouchForCopy (S.accepts scheme.now)
        (verifying_call P.Source Q.Source R.Source R.steady devices.old devices.new)
        (sink_call O.Sink out.old out.new) (SinkReceives (sink_call W.Sink errors.old errors.new))) }
    ensures no_new_fault { OnOk result (W.sink_faults errors.new ≡ W.sink_faults errors.old) }
    ensures out_no_new_fault { OnOk result (O.sink_faults out.new ≡ O.sink_faults out.old) }
    ensures refused { IfErr result (FilesFailToCopy (S.accepts scheme.now)
        (verifying_call P.Source Q.Source R.Source R.steady devices.old devices.new)
        (sink_call O.Sink out.old out.new) (sink_call W.Sink errors.old errors.new)) }
{
    let (pk_text, sig_text) = read_both_texts(alloc, &mut devices.pk_file, &mut devices.sig_file)?;
    let (quiet, output, allow_legacy) = (false, true, false);
    verify_texts(
        alloc,
        scheme,
        &pk_text,
        &sig_text,
        &mut devices.data_reader,
        quiet,
        output,
        allow_legacy,
        errors,
        out,
    )
}
