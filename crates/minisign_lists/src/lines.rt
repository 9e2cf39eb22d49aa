//! Parses the lines of a list. Nothing here allocates.

ghost use Rattle.std.specs.Prelude.{◌≡◌, ◌==◌, ◌<◌, ◌+◌, ◌≤◌, ◌-◌, ◌^◌, IfSome, IsTrue, not, ◌&&◌, ◌∷◌};
ghost use Rattle.std.specs.Prelude.{ℕ, true, false, List, Option};
ghost use Rattle.std.specs.Prelude.{option_map, bytes_eq, length, codes, take, drop};
ghost use Rattle.std.specs.List.{list_any};
ghost use Rattle.std.specs.Option.{option_or};
ghost use Rattle.minisign_lists.specs.Faults.{map_ok};
ghost use Rattle.minisign_lists.specs.Lines.{Entry, NamedDigest, digit_count, entry_of, if_escaped};
ghost use Rattle.minisign_lists.specs.Lines.{is_comment, begins_with_backslash, label};
ghost use Rattle.minisign_lists.specs.Lines.{long_form, plain_form, read_line, tagged_form, named};
ghost use Rattle.minisign_lists.specs.Lines.{written_in};

use crate::digests::{Algorithm, ListedDigest, digest_of_digits};
use crate::faults::{ListFault, Result};
use crate::names::{has_backslash, has_control, is_path, same, without_dot};
use std::marker::Model;

/// The hash function of 128 digits on a line that does not name it.
#[derive(Clone, Copy, Debug, PartialEq, Eq)]
pub enum LongDigest {
    /// The line is malformed.
    Rejected,
    /// SHA-512, as sha512sum writes it.
    Sha512,
    /// BLAKE2b with 64 bytes, as b2sum writes it.
    Blake2b,
}

// The digest and the name on a line, as they are written. `start` is the number of bytes before the
// name.
#[derive(Drop)]
pub(crate) struct NamedDigest<'a> {
    digest: ListedDigest,
    name: &'a [u8],
    start: usize,
}

/// An entry of a list.
#[derive(Drop)]
pub struct EntryView<'a> {
    /// The number of its line, from 1 on.
    pub line: u64,
    /// The digest that the file must have.
    pub digest: ListedDigest,
    /// The name as it is written, without a leading `./`.
    pub name: &'a [u8],
    /// The number of bytes of the line before the name.
    pub start: usize,
    /// True if the name contains escapes, which this library does not resolve.
    pub escaped: bool,
}

impl<'a> Model for NamedDigest<'a> {
    ghost use Rattle.minisign_lists.specs.Lines.{NamedDigest};

    ghost Value = { NamedDigest };

    ghost view = { λ v. record { digest = v.digest; name = v.name.now; start = v.start } };
}

impl<'a> Model for EntryView<'a> {
    ghost use Rattle.minisign_lists.specs.Lines.{Entry};

    ghost Value = { Entry };

    ghost view = { λ v. record {
      line = v.line;
      digest = v.digest;
      name = v.name.now;
      start = v.start;
      escaped = v.escaped;
    } };
}

impl Algorithm {
    // Returns the number of bytes of a digest.
    pub(crate) fn size(self) -> usize
        ensures { result + result ≡ digit_count self }
    {
        match self {
            Algorithm::Sha256 => 32,
            Algorithm::Sha512 => 64,
            Algorithm::Blake2b => 64,
        }
    }

    // Returns the number of hexadecimal digits of a digest.
    pub(crate) fn digit_count(self) -> usize
        ensures { result ≡ digit_count self }
    {
        match self {
            Algorithm::Sha256 => 64,
            Algorithm::Sha512 => 128,
            Algorithm::Blake2b => 128,
        }
    }

    // Returns the beginning of a line that names this hash function.
    pub(crate) fn label(self) -> &'static [u8]
        ensures { result.now ≡ label self }
    {
        match self {
            Algorithm::Sha256 => b"SHA256 (",
            Algorithm::Sha512 => b"SHA512 (",
            Algorithm::Blake2b => b"BLAKE2b (",
        }
    }
}

// Decodes the digits, and returns the digest with the name, or `None` if the digits encode no
// digest.
fn named<'a>(
    algorithm: Algorithm,
    digits: &[u8],
    name: &'a [u8],
    start: usize,
) -> Option<NamedDigest<'a>>
    ensures { result ≡ named algorithm digits.now name.now start }
{
    match digest_of_digits(algorithm, digits) {
        Some(digest) => Some(NamedDigest {
            digest,
            name,
            start,
        }),
        None => None,
    }
}

// Parses `HEX  NAME` or `HEX *NAME`.
fn plain_form(algorithm: Algorithm, line: &[u8]) -> Option<NamedDigest<'_>>
    ensures value { result ≡ plain_form algorithm line.now }
    ensures within { IfSome result (λ w. w.start + length w.name ≤ length line.now) }
{
    let size = algorithm.digit_count();
    if line.len() < size + 2 {
        return None;
    }
    let (digits, rest) = line.split_at(size);
    let (between, name) = rest.split_at(2);
    if !same(between, b"  ") && !same(between, b" *") {
        return None;
    }
    named(algorithm, digits, name, size + 2)
}

// Parses `SHA256 (NAME) = HEX`.
fn tagged_form(algorithm: Algorithm, line: &[u8]) -> Option<NamedDigest<'_>>
    ensures value { result ≡ tagged_form algorithm line.now }
    ensures within { IfSome result (λ w. w.start + length w.name ≤ length line.now) }
{
    let label = algorithm.label();
    let size = algorithm.digit_count();
    if line.len() < label.len() + 4 + size {
        return None;
    }
    let (front, rest) = line.split_at(label.len());
    let (name, rest) = rest.split_at(rest.len() - (size + 4));
    let (between, digits) = rest.split_at(4);
    if !same(front, label) || !same(between, b") = ") {
        return None;
    }
    named(algorithm, digits, name, label.len())
}

// Parses 128 digits and a name on a line that does not name its hash function.
fn long_form(long: LongDigest, line: &[u8]) -> Option<NamedDigest<'_>>
    ensures value { result ≡ long_form long line.now }
    ensures within { IfSome result (λ w. w.start + length w.name ≤ length line.now) }
{
    match long {
        LongDigest::Rejected => None,
        LongDigest::Sha512 => plain_form(Algorithm::Sha512, line),
        LongDigest::Blake2b => plain_form(Algorithm::Blake2b, line),
    }
}

// Parses the digest and the name on a line of any form.
fn written_in(long: LongDigest, line: &[u8]) -> Option<NamedDigest<'_>>
    ensures value { result ≡ written_in long line.now }
    ensures within { IfSome result (λ w. w.start + length w.name ≤ length line.now) }
{
    if let Some(found) = tagged_form(Algorithm::Sha256, line) {
        return Some(found);
    }
    if let Some(found) = tagged_form(Algorithm::Sha512, line) {
        return Some(found);
    }
    if let Some(found) = tagged_form(Algorithm::Blake2b, line) {
        return Some(found);
    }
    if let Some(found) = plain_form(Algorithm::Sha256, line) {
        return Some(found);
    }
    long_form(long, line)
}

// Returns the entry only if its name contains a backslash.
fn if_escaped(found: Option<NamedDigest<'_>>) -> Option<NamedDigest<'_>>
    ensures { result ≡ if_escaped found.entry }
{
    match found {
        Some(found) if has_backslash(found.name) => Some(found),
        _ => None,
    }
}

// Returns the entry of a line, if its name is a relative path. `before` is the number of bytes
// before the form: 1 if the line begins with a backslash, otherwise 0.
fn entry_of<'a>(
    line: u64,
    escaped: bool,
    before: usize,
    found: Option<NamedDigest<'a>>,
) -> Result<Option<EntryView<'a>>>
    requires { IfSome found (λ w. before + w.start + length w.name < 2 ^ 64) }
    ensures { result ≡ entry_of line escaped before found.entry }
{
    let Some(found) = found else {
        return Err(ListFault::MalformedLine { line });
    };
    let name = without_dot(found.name);
    if !is_path(name) {
        return Err(ListFault::MalformedLine { line });
    }
    Ok(Some(EntryView {
        line,
        digest: found.digest,
        name,
        start: before + found.start + (found.name.len() - name.len()),
        escaped,
    }))
}

// Returns true if the line is empty or begins with `#`.
fn is_comment(line: &[u8]) -> bool
    ensures { result ≡ is_comment line.now }
{
    match line.first() {
        Some(first) => *first == b'#',
        None => true,
    }
}

// Returns true if the line begins with a backslash.
fn begins_with_backslash(line: &[u8]) -> bool
    ensures value { result ≡ begins_with_backslash line.now }
    ensures some { IsTrue result → 1 ≤ length line.now }
{
    match line.first() {
        Some(first) => *first == b'\\',
        None => false,
    }
}

// Parses the entry on a line that begins with a backslash.
fn escaped_entry(long: LongDigest, number: u64, line: &[u8]) -> Result<Option<EntryView<'_>>>
    requires { 1 ≤ length line.now }
    ensures { result ≡ entry_of number true 1 (if_escaped (written_in long (drop 1 line.now))) }
{
    let (_, rest) = line.split_at(1);
    let found = if_escaped(written_in(long, rest));
    entry_of(number, true, 1, found)
}

// Parses the line with this number. Returns `None` if it is empty or a comment.
pub(crate) fn read_line(long: LongDigest, number: u64, line: &[u8]) -> Result<Option<EntryView<'_>>>
    ensures { result ≡ read_line long number line.now }
{
    if has_control(line) {
        return Err(ListFault::MalformedLine { line: number });
    }
    if is_comment(line) {
        return Ok(None);
    }
    if begins_with_backslash(line) {
        escaped_entry(long, number, line)
    } else {
        entry_of(number, false, 0, written_in(long, line))
    }
}
