//! Writes the warning, the usage and error lines to the error stream. A failure to write them is ignored:
//! it does not change the exit status. In the contracts of this program, a line "was sent" if it was
//! written completely, or if the error stream failed and received a prefix of it.

ghost use Rattle.std.specs.Prelude.{◌≡◌, ◌++◌, codes, MatchResult, OnOk, OnErr};
ghost use Rattle.std.specs.Io.KnownBytes.{Appends};
ghost use Rattle.minisign.specs.Devices.{ErrorCountRises, AppendsPrefix};
ghost use Rattle.minisign.specs.Texts.{line};
ghost use Rattle.minisign_tool.specs.Report.{TakesOrFails, fault_line, usage_line, warning_line};

use minisign::base::devices::DeviceFault;
use minisign::base::devices::sinks::{Sink, write_all};
use minisign::base::faults::TEXT_ROOM;
use minisign::base::helpers::joined;
use minisign::base::{PError, Result};

/// Warns that the scheme is a toy. Every run writes this line first. Does not allocate.
#[tactic(auto, unfolding(crate::specs::Report::warning_line))]
pub fn warn<W: Sink>(errors: &mut W)
    // The warning was written completely, or the error stream failed and received a prefix of it.
    ensures { TakesOrFails W.Sink errors.old errors.new warning_line }
{
    let _ = write_all(errors, b"warning: insecure toy scheme, for tests only\n");
}

/// Shows the usage, and returns the exit status for wrong arguments. Does not allocate.
#[tactic(auto, unfolding(crate::specs::Report::usage_line))]
pub fn usage<W: Sink>(errors: &mut W) -> u8
    // The exit status is 2. The usage was written completely, or the error stream failed and received a
    // prefix of it.
    ensures status { result ≡ 2 }
    ensures errors_received { TakesOrFails W.Sink errors.old errors.new usage_line }
{
    let _ = write_all(
        errors,
        b"usage: minisign_tool keygen PK SK | sign SK FILE SIG | verify PK FILE SIG | verify-raw PK SIG | cat PK FILE SIG\n",
    );
    2
}

/// Shows an error, and returns the exit status for errors. Does not allocate.
pub fn report<W: Sink>(errors: &mut W, fault: &PError) -> u8
    // The exit status is 1. `error: ` and the text of this error were written as a line, or the error
    // stream failed and received a prefix of it.
    ensures status { result ≡ 1 }
    ensures errors_received { TakesOrFails W.Sink errors.old errors.new (fault_line fault.now) }
{
    let mut room = [0; TEXT_ROOM];
    let _ = put_fault(errors, fault.text(&mut room));
    1
}

/// Returns the exit status of the program, from the result of a command. An `Ok` holds the exit status,
/// and the command has written its lines already. An `Err` means that the program failed before it called
/// the command's function (such as `run_verify`) and that nothing was written yet. In this case, `end`
/// shows the warning and the error.
pub fn end<W: Sink>(errors: &mut W, answer: Result<u8>) -> u8
    // If the command returned an exit status, the result is this status, and nothing is written. After an
    // error, the exit status is 1, and the warning and the error line were sent.
    ensures { MatchResult answer (λ s. (result ≡ s) × (errors.new ≡ errors.old))
        (λ e. (result ≡ 1) × ((warned : W) × TakesOrFails W.Sink errors.old warned warning_line
        × TakesOrFails W.Sink warned errors.new (fault_line e))) }
{
    match answer {
        Ok(status) => status,
        Err(fault) => {
            warn(errors);
            report(errors, &fault)
        }
    }
}

// Writes the line of an error with this text. If the text has at most 504 bytes, as the text of every
// named error has, one call of `write_all` writes the whole line. A longer text takes three calls.
fn put_fault<W: Sink>(errors: &mut W, text: &[u8]) -> std::result::Result<(), DeviceFault>
    ensures bytes { OnOk result
        (Appends (W.taken errors.old) (W.taken errors.new) (codes "error: " ++ line text.now)) }
    ensures no_new_fault { OnOk result (W.sink_faults errors.new ≡ W.sink_faults errors.old) }
    ensures refused { OnErr result (ErrorCountRises (W.sink_faults errors.old) (W.sink_faults errors.new)) }
    ensures prefix_received { OnErr result
        (AppendsPrefix (W.taken errors.old) (W.taken errors.new) (codes "error: " ++ line text.now)) }
{
    let mut room = [0; 512];
    if text.len() <= 504 {
        write_all(errors, joined(&mut room, b"error: ", text, b"\n", b""))
    } else {
        write_all(errors, b"error: ")?;
        write_all(errors, text)?;
        write_all(errors, b"\n")
    }
}
