//! The program `minisign_tool`, which signs and verifies with an insecure toy scheme, and prints a warning
//! about it.
#![tactic(auto)]

ghost use Rattle.std.specs.Prelude.{◌≡◌, ◌≤◌, drop, map, option_map, string_bytes, IfOk, IsOk, OnErr, OnOk};
ghost use Rattle.minisign_tool.specs.Commands.{AsksFor, ReadAsksFor};
ghost use Rattle.minisign_tool.specs.Endings.{SaysCommand, ShowsCommand, ShowsWarningAndUsage};
ghost use Rattle.minisign_tool.specs.declared.commands.Command.{Command};

mod arguments;
mod cat;
mod commands;
mod files;
mod keygen;
mod permissions;
mod replacing;
mod report;
mod sign;
mod streams;
mod text_files;
mod verify;
mod verify_raw;

use arguments::{read_arguments, words_of};
use commands::{Command, command_of};
use files::{cat_files, keygen_files, sign_files, verify_files, verify_raw_files};
use minisign::Result;
use minisign::base::NamedFault;
use minisign::base::devices::sinks::{Sink, WriterSink};
use minisign::base::scheme::Scheme;
use minisign::base::toy::ToyScheme;
use report::{end, usage, warn};
use std::process::ExitCode;
use streams::hold_closed_streams;

fn main(rt: HostRuntime) -> ExitCode {
    let mut errors = WriterSink::new(rt.stderr());
    // No file may get the descriptor of a closed stream, or a prompt or an error message would go to that
    // file.
    let answer = match hold_closed_streams(&rt) {
        Ok(_held) => run(&rt, &ToyScheme::new(), read_arguments(&rt), &mut errors),
        Err(_) => Err(NamedFault::ReadingFailed.into()),
    };
    ExitCode::from(end(&mut errors, answer))
}

// Runs the command that the arguments ask for, if they could be read, and returns its exit status.
// If the run fails before the command's function (such as `run_verify`) is called, returns the error and
// writes nothing.
fn run<S: Scheme, W: Sink>(
    rt: &HostRuntime,
    scheme: &S,
    arguments: Result<Option<Vec<String>>>,
    errors: &mut W,
) -> Result<u8>
    // The exit status is at most 2. After an error nothing was written.
    ensures status { IfOk result (λ s. s ≤ 2) }
    ensures errors_unchanged { OnErr result (errors.new ≡ errors.old) }

    // There is an exit status only if the arguments could be read.
    ensures read { OnOk result (IsOk arguments) }

    // **`verify` and `cat` exit with status 0 only if some texts of a public key and a signature
    // are valid for some data, and `verify-raw` only if the bytes of some public key and some bare
    // signature are valid for some data; the usage exits with status 2.** The lines that are sent
    // to the error stream are those of the command for its exit status, or the warning and then the
    // usage.
    //
    // If an argument is not UTF-8, the command is the usage.
    ensures command_shown { IfOk result (λ s. IfOk arguments (λ a. (command : Command) × ReadAsksFor
        (option_map (λ v. map (λ w. string_bytes w) (drop 1 v.items)) a) command × ShowsCommand
        (S.accepts scheme.now) command s × SaysCommand W.Sink command errors.old errors.new s)) }
{
    match arguments? {
        Some(arguments) => run_arguments(rt, scheme, &arguments, errors),
        None => Ok(show_usage(errors)),
    }
}

// Runs the command that these arguments ask for. The first argument is the program's path.
fn run_arguments<S: Scheme, W: Sink>(
    rt: &HostRuntime,
    scheme: &S,
    arguments: &[String],
    errors: &mut W,
) -> Result<u8>
    // The exit status is at most 2. After an error nothing was written.
    ensures status { IfOk result (λ s. s ≤ 2) }
    ensures errors_unchanged { OnErr result (errors.new ≡ errors.old) }

    // **`verify` and `cat` exit with status 0 only if some texts of a public key and a signature
    // are valid for some data, and `verify-raw` only if the bytes of some public key and some bare
    // signature are valid for some data; the usage exits with status 2.** The lines that are sent
    // to the error stream are those of the command for its exit status, or the warning and then the
    // usage.
    ensures command_shown { IfOk result (λ s. (command : Command) × AsksFor (map (λ a. string_bytes a)
        (drop 1 arguments.now)) command × ShowsCommand (S.accepts scheme.now) command s
        × SaysCommand W.Sink command errors.old errors.new s) }
{
    let words = words_of(rt.alloc(), arguments)?;
    run_command(rt, scheme, command_of(&words), errors)
}

fn run_command<S: Scheme, W: Sink>(
    rt: &HostRuntime,
    scheme: &S,
    command: Command<'_>,
    errors: &mut W,
) -> Result<u8>
    // The exit status is at most 2. After an error nothing was written.
    ensures status { IfOk result (λ s. s ≤ 2) }
    ensures errors_unchanged { OnErr result (errors.new ≡ errors.old) }

    // **`verify` and `cat` exit with status 0 only if some texts of a public key and a signature
    // are valid for some data, and `verify-raw` only if the bytes of some public key and some bare
    // signature are valid for some data; the usage exits with status 2.** The lines that are sent
    // to the error stream are those of the command for its exit status, or the warning and then the
    // usage.
    ensures command_shown { IfOk result (ShowsCommand (S.accepts scheme.now) command.entry) }
    ensures errors_received { IfOk result (SaysCommand W.Sink command.entry errors.old errors.new) }
{
    match command {
        Command::Keygen { pk, sk } => keygen_files(rt, scheme, pk, sk, errors),
        Command::Sign { sk, file, sig } => sign_files(rt, scheme, sk, file, sig, errors),
        Command::Verify { pk, file, sig } => verify_files(rt, scheme, pk, file, sig, errors),
        Command::VerifyRaw { pk, sig } => verify_raw_files(rt, scheme, pk, sig, errors),
        Command::Cat { pk, file, sig } => cat_files(rt, scheme, pk, file, sig, errors),
        Command::Usage => Ok(show_usage(errors)),
    }
}

// Shows the usage after the warning, and returns its exit status.
fn show_usage<W: Sink>(errors: &mut W) -> u8
    // The usage was sent after the warning, and the exit status is 2.
    ensures status { result ≡ 2 }
    ensures errors_received { ShowsWarningAndUsage W.Sink errors.old errors.new }
{
    warn(errors);
    usage(errors)
}
