//! `Prompt`, which writes texts to a person and reads lines.

ghost use Rattle.std.specs.Prelude.{◌≡◌, ◌⊎◌, ℕ, ◌+◌, ◌≤◌, List, [], ◌∷◌, length, take, Ok, Err, IfOk, IfErr};
ghost use Rattle.std.specs.Prelude.{OnOk, OnErr, MatchOption, MatchResult, string_bytes};
ghost use Rattle.std.specs.Io.KnownBytes.{Appends, Consumes, IsAtEnd};
ghost use Rattle.std.specs.Str.Lines.{strip_carriage_return};
ghost use Rattle.minisign_base.specs.Devices.{AppendsPrefix, ErrorCountRises, EqualIfSecondKnown};
ghost use Rattle.minisign_base.specs.DeviceCalls.{SinkFailsAtPart, SinkCompletesPart, prompt_call, sink_call};
ghost use Rattle.minisign_base.specs.DeviceCalls.{source_call};
ghost use Rattle.minisign_base.specs.Fault.{Fault, Named};
ghost use Rattle.minisign_base.specs.declared.faults.NamedFault.TheVariants.{EndOfInput, ReadingFailed};
ghost use Rattle.minisign_base.specs.declared.faults.NamedFault.TheVariants.{WritingFailed};
ghost use Rattle.minisign_base.specs.Prompts.{ConversationEnds, HasFailedInLine, HasReadLine, Say, Step};
ghost use Rattle.minisign_base.specs.Prompts.{StepEnds, marking_steps, written};
ghost use Rattle.minisign_base.specs.Passwords.{accepted_line, password_of};

use crate::devices::sinks::{NoSink, Sink, put_and_flush};
use crate::devices::sources::{NoSource, Source};
use crate::errors::Result;
use crate::faults::NamedFault;

// The maximum number of bytes that are read for a line: a password of 1024 bytes, a carriage return and a
// line feed.
pub(crate) const LINE_BYTES: usize = 1026;

/// The maximum length in bytes of a typed password.
pub const PASSWORD_BYTES: usize = 1024;

/// A reader and a writer, such as a terminal's input and output, for asking a person.
#[derive(Drop)]
pub struct Prompt<R, W> {
    /// The source of lines.
    pub reader: R,
    /// The sink for texts.
    pub writer: W,
}

impl<R: Source, W: Sink> Prompt<R, W> {
    /// Returns a prompt that uses this reader and writer. Nothing is read or written yet.
    pub fn new(reader: R, writer: W) -> Prompt<R, W>
        ensures { result ≡ record { reader = reader; writer = writer } }
    {
        Prompt { reader, writer }
    }

    /// Returns the reader and the writer. Does not read, write or flush.
    pub fn into_parts(self) -> (R, W)
        ensures { result ≡ (self.reader, self.writer) }
    {
        let Prompt { reader, writer } = self;
        (reader, writer)
    }

    /// Writes a text and flushes it. After an error the writer has received a prefix of the text. Does not
    /// allocate, and does not use the reader.
    pub fn say(&mut self, text: &str) -> Result<()>
        // On success, the text was written and flushed. The only error is `writing failed`, after which the
        // writer has received a prefix of the text. The reader is unchanged.
        ensures step_ends { StepEnds (prompt_call R.Source W.Sink self.old self.new) (Say text.now) result }
    {
        match put_text(&mut self.writer, text) {
            Ok(()) => Ok(()),
            Err(fault) => Err(fault),
        }
    }

    // Writes `<empty>` and a line feed if the password is empty.
    pub(crate) fn mark_empty(&mut self, password: &str) -> Result<()>
        ensures conversation_ends { ConversationEnds (prompt_call R.Source W.Sink self.old self.new)
            (marking_steps password.now) result }
    {
        if !password.is_empty() {
            return Ok(());
        }
        self.say("<empty>\n")
    }

    // Reads a line into a buffer of 1026 bytes and returns it as a password.
    pub(crate) fn read_password(&mut self, line: Vec<u8>) -> Result<String>
        requires { length line.items ≡ 1026 }
        ensures writer { self.new.writer ≡ self.old.writer }
        ensures password { IfOk result (λ password. (bytes : List ℕ)
            × HasReadLine (source_call R.Source self.old.reader self.new.reader) bytes
            × (password_of bytes ≡ Ok (string_bytes password))) }
        ensures refused { IfErr result (λ e. ((e ≡ Named ReadingFailed) × HasFailedInLine (source_call
            R.Source self.old.reader self.new.reader)) ⊎ ((bytes : List ℕ) × HasReadLine (source_call R.Source
            self.old.reader self.new.reader) bytes × (password_of bytes ≡ Err e))) }
    {
        let mut line = line;
        let length = read_line(&mut self.reader, &mut line)?;
        line.truncate(length);
        accepted_line(line)
    }
}

impl Prompt<NoSource, NoSink> {
    /// Returns a prompt without input and output. Text that is written to it is discarded, and
    /// asking for a password fails with `EndOfInput`. Does not allocate.
    pub fn silent() -> Prompt<NoSource, NoSink>
        // A line that is read from a silent prompt gives `EndOfInput` instead of a password, because the
        // input is empty.
        ensures { (old new : Prompt NoSource NoSink) (bytes : List ℕ)
            → HasReadLine (source_call ⟦<NoSource as Source>⟧ old.reader new.reader) bytes
            → password_of bytes ≡ Err (Named EndOfInput) }
    {
        Prompt::new(NoSource, NoSink)
    }
}

fn put_text<W: Sink>(writer: &mut W, text: &str) -> Result<()>
    ensures part_received { OnOk result (SinkCompletesPart
        (sink_call W.Sink writer.old writer.new) text.now) }
    ensures failed { IfErr result (λ e. (e ≡ Named WritingFailed)
        × SinkFailsAtPart (sink_call W.Sink writer.old writer.new) text.now) }
{
    match put_and_flush(writer, text.as_bytes()) {
        Ok(()) => Ok(()),
        Err(_) => Err(NamedFault::WritingFailed.into()),
    }
}

// Reads a line into the buffer and returns its length without the line feed and one carriage return
// before it. Reads one byte at a time, so that nothing after the line is consumed, and at most 1026
// bytes.
fn read_line<R: Source>(source: &mut R, line: &mut [u8]) -> Result<usize>
    requires { length line.old ≡ 1026 }
    ensures read { IfOk result (λ n. (bytes : List ℕ)
        × HasReadLine (source_call R.Source source.old source.new) bytes
        × (n ≤ length line.new) × (password_of bytes ≡ accepted_line (take n line.new))) }
    ensures refused { IfErr result (λ e. ((e ≡ Named ReadingFailed) × HasFailedInLine
        (source_call R.Source source.old source.new)) ⊎ ((bytes : List ℕ) × HasReadLine
        (source_call R.Source source.old source.new) bytes × (password_of bytes ≡ Err e))) }
{
    let mut used = 0;
    'bytes: while used < line.len() {
        match next_byte(source)? {
            Some(b'\n') => return Ok(without_carriage_return(&line[..used])),
            Some(byte) => line[used] = byte,
            None if used == 0 => return Err(NamedFault::EndOfInput.into()),
            None => return Ok(used),
        }
        used += 1;
    }
    Err(NamedFault::PasswordTooLong.into())
}

// Returns the next byte, or `None` at the end.
fn next_byte<R: Source>(source: &mut R) -> Result<Option<u8>>
    ensures byte { IfOk result (λ next. MatchOption next (Consumes (R.ahead source.old) (R.ahead source.new)
        [] × IsAtEnd (R.ahead source.new) × (R.left source.new ≡ R.left source.old)) (λ b. Consumes
        (R.ahead source.old) (R.ahead source.new) (b ∷ []) × (R.left source.new + 1 ≡ R.left source.old))) }
    ensures no_new_fault { OnOk result (R.faults source.new ≡ R.faults source.old) }
    ensures refused { IfErr result
        (λ e. (e ≡ Named ReadingFailed) × ErrorCountRises (R.faults source.old) (R.faults source.new)) }
    ensures unchanged { OnErr result (EqualIfSecondKnown (R.ahead source.old) (R.ahead source.new)) }
{
    let mut byte = [0u8; 1];
    match source.read(&mut byte) {
        Ok(0) => Ok(None),
        Ok(_) => Ok(Some(byte[0])),
        Err(_) => Err(NamedFault::ReadingFailed.into()),
    }
}

/// States which bytes a prompt's writer receives in the steps of a conversation. This function is a law: it
/// does nothing, and exists only for its contract.
pub fn conversations_are_written<R: Source, W: Sink>()
    // If all steps of a conversation succeeded, the writer received exactly the texts of these steps, without
    // an error. If the conversation stopped with an error, the writer received a prefix of the texts of all
    // steps.
    ensures all_received { (old new : Prompt R W) (steps : List Step)
        → ConversationEnds (prompt_call R.Source W.Sink old new) steps (Ok tt)
        → Appends (W.taken old.writer) (W.taken new.writer) (written steps) }
    ensures no_new_fault { (old new : Prompt R W) (steps : List Step)
        → ConversationEnds (prompt_call R.Source W.Sink old new) steps (Ok tt)
        → W.sink_faults new.writer ≡ W.sink_faults old.writer }
    ensures prefix_received { (old new : Prompt R W) (steps : List Step) (e : Fault)
        → ConversationEnds (prompt_call R.Source W.Sink old new) steps (Err e)
        → AppendsPrefix (W.taken old.writer) (W.taken new.writer) (written steps) }
{}

// Returns the length of a line without one carriage return at its end.
fn without_carriage_return(line: &[u8]) -> usize
    ensures bound { result ≤ length line.now }
    ensures line { take result line.now ≡ strip_carriage_return line.now }
{
    if !line.is_empty() && line[line.len() - 1] == b'\r' {
        line.len() - 1
    } else {
        line.len()
    }
}

// Returns the line as a password if it is UTF-8 and has at most 1024 bytes.
#[tactic(auto, unfolding(crate::specs::Passwords::accepted_line))]
fn accepted_line(line: Vec<u8>) -> Result<String>
    ensures outcome { MatchResult result
        (λ password. accepted_line line.items ≡ Ok (string_bytes password))
        (λ e. accepted_line line.items ≡ Err e) }
{
    let Ok(password) = String::from_utf8(line) else {
        return Err(NamedFault::NotUtf8.into());
    };
    if password.len() > PASSWORD_BYTES {
        return Err(NamedFault::PasswordTooLong.into());
    }
    Ok(password)
}
