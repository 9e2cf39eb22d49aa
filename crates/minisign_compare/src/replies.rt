//! The answer to a request: the result of the call, the bytes that it wrote, and the numbers of reads and of
//! random bytes.

ghost use Rattle.std.specs.Prelude.{◌≡◌, ℕ, List, [], ◌++◌, Err, IfErr, IfOk, MatchOption, None, OnErr, OnOk};
ghost use Rattle.std.specs.Prelude.{Some, codes, false, if◌then◌else◌, string_bytes, true};
ghost use Rattle.minisign_base.specs.Fault.{Named};
ghost use Rattle.minisign_base.specs.declared.faults.NamedFault.TheVariants.{OutOfMemory};
ghost use Rattle.minisign_compare.specs.Fields.{begun, first_of, is_incomplete, with_bytes, with_number};
ghost use Rattle.minisign_compare.specs.declared.refusals.Refusal.TheVariants.{Fault};

use crate::refusals::Refusal;
use crate::words::times_in;
use minisign::PError;
use minisign::base::NamedFault;
use minisign::base::devices::sinks::VecSink;
use minisign::base::devices::sources::SliceSource;
use minisign::base::prompt::Prompt;
use minisign::reading::read_to_end;
use std::alloc::{AllocError, Global};

/// Fields `NAME=VALUE`, separated by single spaces. `is_short` is true if a field is missing or
/// incomplete because an allocation failed.
#[derive(Drop)]
pub struct Fields {
    alloc: Global,
    text: String,
    is_short: bool,
}

impl Fields {
    /// Returns no fields.
    pub fn new(alloc: Global) -> Fields
        ensures { string_bytes result.text ≡ [] }
    {
        Fields {
            alloc,
            text: String::new(alloc),
            is_short: false,
        }
    }

    /// Returns the fields as they are printed.
    pub fn as_str(&self) -> &str
        ensures { result.now ≡ string_bytes self.now.text }
    {
        self.text.as_str()
    }

    /// Adds a field of bytes: `x` and two lowercase hexadecimal digits for each byte.
    pub fn bytes(&mut self, name: &str, bytes: &[u8])
        ensures text { self.new.is_short ≡ false
            → string_bytes self.new.text ≡ with_bytes (string_bytes self.old.text) name.now bytes.now }
        ensures stays_short { self.old.is_short ≡ true → self.new.is_short ≡ true }
    {
        match hex::encode(self.alloc, bytes) {
            Ok(digits) => self.put(name, "x", digits.as_str()),
            Err(_) => self.is_short = true,
        }
    }

    /// Adds a field of a decimal number.
    pub fn number(&mut self, name: &str, number: u64)
        ensures text { self.new.is_short ≡ false
            → string_bytes self.new.text ≡ with_number (string_bytes self.old.text) name.now number }
        ensures stays_short { self.old.is_short ≡ true → self.new.is_short ≡ true }
    {
        match format!(in self.alloc; "{number}") {
            Ok(digits) => self.put(name, "", digits.as_str()),
            Err(_) => self.is_short = true,
        }
    }

    /// Adds a field of a flag: 1 or 0.
    pub fn flag(&mut self, name: &str, flag: bool)
        ensures text { self.new.is_short ≡ false → string_bytes self.new.text
            ≡ begun (string_bytes self.old.text) name.now ++ (if flag then codes "1" else codes "0") }
        ensures stays_short { self.old.is_short ≡ true → self.new.is_short ≡ true }
    {
        self.put(name, "", if flag { "1" } else { "0" });
    }

    // Adds a field with a mark before the value.
    fn put(&mut self, name: &str, mark: &str, value: &str)
        ensures text { self.new.is_short ≡ false → string_bytes self.new.text
            ≡ begun (string_bytes self.old.text) name.now ++ mark.now ++ value.now }
        ensures stays_short { self.old.is_short ≡ true → self.new.is_short ≡ true }
    {
        if self.push(name, mark, value).is_err() {
            self.is_short = true;
        }
    }

    // Writes a field. If an allocation fails, only a part of it is written.
    fn push(&mut self, name: &str, mark: &str, value: &str) -> Result<(), AllocError>
        ensures text { OnOk result (string_bytes self.new.text
            ≡ begun (string_bytes self.old.text) name.now ++ mark.now ++ value.now) }
        ensures incomplete { OnErr result ((more : List ℕ)
            × (string_bytes self.new.text ≡ string_bytes self.old.text ++ more)) }
        ensures kept { self.new.is_short ≡ self.old.is_short }
    {
        if !self.text.is_empty() {
            self.text.push_str(" ")?;
        }
        self.text.push_str(name)?;
        self.text.push_str("=")?;
        self.text.push_str(mark)?;
        self.text.push_str(value)
    }
}

/// The result of a request's call, and its effects.
#[derive(Drop)]
pub struct Reply {
    /// The fields of the result.
    pub fields: Fields,
    /// The fields of the call's effects.
    pub tail: Fields,
    /// The fields with the bytes that the call wrote, and with the number of unread typed lines.
    pub deeds: Fields,
    /// The bytes that the Rust crate would write to standard output: the texts of a prompt, or a
    /// copy of the data.
    pub stdout: Vec<u8>,
    /// The bytes that the Rust crate would write to standard error: the status lines.
    pub stderr: Vec<u8>,
    /// The number of unread typed lines.
    pub typed_left: u64,
    // The first error that a call returned instead of the value of a field.
    fault: Option<PError>,
}

impl Reply {
    /// Returns an empty reply.
    pub fn new(alloc: Global) -> Reply {
        Reply {
            fields: Fields::new(alloc),
            tail: Fields::new(alloc),
            deeds: Fields::new(alloc),
            stdout: Vec::new(alloc),
            stderr: Vec::new(alloc),
            typed_left: 0,
            fault: None,
        }
    }

    /// Adds a field of the bytes that a call returned.
    pub fn returned_bytes(&mut self, name: &str, returned: minisign::Result<Vec<u8>>)
        // On success, the field is added. After an error, the error is stored if it is the first one.
        ensures added { IfOk returned (λ value. (self.new.fault ≡ self.old.fault)
            × (self.new.fields.is_short ≡ false → string_bytes self.new.fields.text
            ≡ with_bytes (string_bytes self.old.fields.text) name.now value.items)) }
        ensures stays_short { self.old.fields.is_short ≡ true → self.new.fields.is_short ≡ true }
        ensures refused { IfErr returned (λ e. (self.new.fields ≡ self.old.fields)
            × (self.new.fault ≡ first_of self.old.fault e)) }
        ensures kept { (self.new.tail ≡ self.old.tail) × (self.new.deeds ≡ self.old.deeds)
            × (self.new.stdout ≡ self.old.stdout) × (self.new.stderr ≡ self.old.stderr)
            × (self.new.typed_left ≡ self.old.typed_left) }
    {
        match returned {
            Ok(bytes) => self.fields.bytes(name, &bytes),
            Err(fault) => self.keep(fault),
        }
    }

    /// Adds a field of the text that a call returned.
    pub fn returned_text(&mut self, name: &str, returned: minisign::Result<String>)
        // On success, the field is added. After an error, the error is stored if it is the first one.
        ensures added { IfOk returned (λ value. (self.new.fault ≡ self.old.fault)
            × (self.new.fields.is_short ≡ false → string_bytes self.new.fields.text
            ≡ with_bytes (string_bytes self.old.fields.text) name.now (string_bytes value))) }
        ensures stays_short { self.old.fields.is_short ≡ true → self.new.fields.is_short ≡ true }
        ensures refused { IfErr returned (λ e. (self.new.fields ≡ self.old.fields)
            × (self.new.fault ≡ first_of self.old.fault e)) }
        ensures kept { (self.new.tail ≡ self.old.tail) × (self.new.deeds ≡ self.old.deeds)
            × (self.new.stdout ≡ self.old.stdout) × (self.new.stderr ≡ self.old.stderr)
            × (self.new.typed_left ≡ self.old.typed_left) }
    {
        match returned {
            Ok(text) => self.fields.bytes(name, text.as_bytes()),
            Err(fault) => self.keep(fault),
        }
    }

    /// Stores the error that a call returned, if it is the first one.
    pub fn keep(&mut self, fault: PError)
        ensures first { self.new.fault ≡ first_of self.old.fault fault }
        ensures kept { (self.new.fields ≡ self.old.fields) × (self.new.tail ≡ self.old.tail)
            × (self.new.deeds ≡ self.old.deeds) × (self.new.stdout ≡ self.old.stdout)
            × (self.new.stderr ≡ self.old.stderr) × (self.new.typed_left ≡ self.old.typed_left) }
    {
        if self.fault.is_none() {
            self.fault = Some(fault);
        }
    }

    /// Stores the bytes that a prompt wrote, and the number of typed lines that it did not read.
    pub fn end_prompt(&mut self, alloc: Global, prompt: Prompt<SliceSource<'_>, VecSink>) {
        let (mut reader, writer) = prompt.into_parts();
        self.stdout = writer.into_vec();
        match read_to_end(alloc, &mut reader) {
            Ok(rest) => self.typed_left = times_in(&rest, b'\n'),
            Err(fault) => self.keep(fault),
        }
    }

    /// Adds the fields with the bytes that were written. Returns `OutOfMemory` if a field is incomplete, else
    /// the stored error if there is one, else `answer`.
    pub fn end(&mut self, answer: Result<(), Refusal>) -> Result<(), Refusal>
        ensures incomplete { is_incomplete self.new ≡ true
            → (result ≡ Err (Fault (Named OutOfMemory))) × (self.new.fault ≡ self.old.fault) }
        ensures complete { is_incomplete self.new ≡ false → (self.new.fault ≡ None)
            × MatchOption self.old.fault (result ≡ answer) (λ fault. result ≡ Err (Fault fault)) }
        ensures deeds { self.new.deeds.is_short ≡ false → string_bytes self.new.deeds.text
            ≡ with_number (with_bytes (with_bytes (string_bytes self.old.deeds.text)
            (codes "stdout") self.old.stdout.items) (codes "stderr") self.old.stderr.items)
            (codes "typed_left") self.old.typed_left }
        ensures stays_short { self.old.deeds.is_short ≡ true → self.new.deeds.is_short ≡ true }
        ensures kept { (self.new.fields ≡ self.old.fields) × (self.new.tail ≡ self.old.tail)
            × (self.new.stdout ≡ self.old.stdout) × (self.new.stderr ≡ self.old.stderr)
            × (self.new.typed_left ≡ self.old.typed_left) }
    {
        self.deeds.bytes("stdout", &self.stdout);
        self.deeds.bytes("stderr", &self.stderr);
        self.deeds.number("typed_left", self.typed_left);
        if self.fields.is_short || self.tail.is_short || self.deeds.is_short {
            return Err(Refusal::Fault(NamedFault::OutOfMemory.into()));
        }
        match self.fault.take() {
            Some(fault) => Err(Refusal::Fault(fault)),
            None => answer,
        }
    }
}
