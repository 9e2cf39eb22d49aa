//! The record beside the target, a file of three lines about the newest update: `version:` or `timestamp:`
//! with its version number, the key that signed it, and the digest of its data, both in hexadecimal digits.

ghost use Rattle.std.specs.Prelude.{Some, ◌≡◌, ◌⊎◌, ℕ, ◌==◌, ◌<◌, ◌≤◌, ◌+◌, ◌*◌, ◌++◌, ◌∷◌, []};
ghost use Rattle.std.specs.Prelude.{MatchOption, length, take, drop};
ghost use Rattle.hex.specs.Hex.{encode_lower};
ghost use Rattle.minisign_install.specs.Faults.{DamagedRecord};
ghost use Rattle.minisign_install.specs.RecordTexts.{foreign_record_fault, other_field, HasNoNumber};
ghost use Rattle.minisign_install.specs.RecordTexts.{IsNumberFor};
ghost use Rattle.minisign_install.specs.RecordTexts.{has_last_lines, is_foreign_key, last_lines, first_line};
ghost use Rattle.minisign_install.specs.RecordTexts.{record_digest, record_key, record_of, record_text};

use crate::comments::{Numbering, number_of, strip};
use crate::faults::InstallFault;

// The greatest length of the first line. A longer line is not a version number.
const MAX_LINE: usize = 64;

// The length of the two last lines of a record, after the version number: 64 and 128 hexadecimal digits, each
// with a line feed before it.
const LAST_LINES: usize = 194;

/// The contents of the two last lines of a record, 96 bytes.
#[repr(C)]
#[derive(Clone, Copy)]
pub(crate) struct KeyAndDigest {
    // The key that signed the update.
    pub(crate) key: [u8; 32],
    // The digest of the data.
    pub(crate) digest: [u8; 64],
}

// Returns the error for a record that has no version number for the field: it has one for the other field, or
// it is damaged.
pub(crate) fn unfit_record_fault(bytes: &[u8], numbering: Numbering) -> InstallFault
    ensures reason { ((result ≡ foreign_record_fault (other_field numbering))
        × ((n : ℕ) × IsNumberFor (other_field numbering) bytes.now n))
        ⊎ ((result ≡ DamagedRecord) × HasNoNumber (other_field numbering) bytes.now) }
{
    let other = numbering.other();
    match (number_for(bytes, other), other) {
        (Some(_), Numbering::Timestamp) => InstallFault::KeptByTimestamp,
        (Some(_), Numbering::Version) => InstallFault::KeptByVersion,
        (None, _) => InstallFault::DamagedRecord,
    }
}

// Returns the version number of a record, if it has one for this field. A number without a label counts for
// each field.
pub(crate) fn number_for(bytes: &[u8], numbering: Numbering) -> Option<u64>
    ensures { MatchOption result (HasNoNumber numbering bytes.now) (IsNumberFor numbering bytes.now) }
{
    let Ok(text) = str::from_utf8(record_text(bytes)) else {
        return None;
    };
    match strip(text, numbering.label()) {
        Some(value) => number_of(value),
        // Both cases are written out, because the prover needs them.
        None => match number_of(text) {
            Some(number) => Some(number),
            None => None,
        },
    }
}

// Returns the part of a record that contains its version number: the first of three lines, or a record of at
// most 64 bytes, except for a line feed at its end.
fn record_text(bytes: &[u8]) -> &[u8]
    ensures { result.now ≡ record_text bytes.now }
{
    if bytes.len() > MAX_LINE {
        return first_line(bytes);
    }
    match bytes.split_last() {
        Some((last, line)) if *last == b'\n' => line,
        _ => bytes,
    }
}

// Returns the first line of a record of three lines, or nothing if the record has another form.
fn first_line(bytes: &[u8]) -> &[u8]
    ensures { result.now ≡ first_line bytes.now }
{
    if !has_last_lines(bytes) {
        return &[];
    }
    let (line, _) = bytes.split_at(bytes.len() - LAST_LINES);
    line
}

// Returns true if the record has a length that three lines can have, and a line feed ends the first one.
fn has_last_lines(bytes: &[u8]) -> bool
    ensures { result ≡ has_last_lines bytes.now }
{
    let len = bytes.len();
    LAST_LINES <= len && len <= LAST_LINES + MAX_LINE && ends_line(bytes[len - LAST_LINES])
}

// Returns true if the byte is a line feed.
fn ends_line(byte: u8) -> bool
    ensures { result ≡ (byte == 10) }
{
    byte == b'\n'
}

// Returns the digest of the data for which a record was written, if the record has one.
pub(crate) fn record_digest(bytes: &[u8]) -> Option<[u8; 64]>
    ensures { result ≡ record_digest bytes.now }
{
    if !has_last_lines(bytes) {
        return None;
    }
    let (_, digits) = bytes.split_at(bytes.len() - 128);
    let mut digest = [0u8; 64];
    match hex::decode_to_slice(digits, &mut digest) {
        Ok(()) => Some(digest),
        Err(_) => None,
    }
}

// Returns the key that a record names, if it names one.
pub(crate) fn record_key(bytes: &[u8]) -> Option<[u8; 32]>
    ensures { result ≡ record_key bytes.now }
{
    if !has_last_lines(bytes) {
        return None;
    }
    let (_, lines) = bytes.split_at(bytes.len() - 193);
    let (digits, _) = lines.split_at(64);
    let mut key = [0u8; 32];
    match hex::decode_to_slice(digits, &mut key) {
        Ok(()) => Some(key),
        Err(_) => None,
    }
}

// Returns true if the record names a key that is neither of these two.
pub(crate) fn is_foreign_key(bytes: &[u8], key: &[u8; 32], other: &[u8; 32]) -> bool
    ensures { result ≡ is_foreign_key (key.now ∷ other.now ∷ []) (record_key bytes.now) }
{
    match record_key(bytes) {
        Some(named) => is_neither(&named, key, other),
        None => false,
    }
}

// Returns true if the key is neither of these two.
fn is_neither(named: &[u8; 32], key: &[u8; 32], other: &[u8; 32]) -> bool
    ensures { result ≡ is_foreign_key (key.now ∷ other.now ∷ []) (Some named.now) }
{
    *named != *key && *named != *other
}

// Writes a record to the start of `to` and returns its length. If `to` is too short, writes nothing and
// returns 0.
pub(crate) fn write_record(
    numbering: Numbering,
    number: u64,
    values: &KeyAndDigest,
    to: &mut [u8],
) -> usize
    ensures written { 0 < result
        → (result ≤ length to.new)
        × (take result to.new ≡ record_of numbering number values.now.key values.now.digest) }
    ensures rest_unchanged { drop result to.new ≡ drop result to.old }
    ensures unwritten { result ≡ 0
        → (to.new ≡ to.old)
        × (length to.old < length (record_of numbering number values.now.key values.now.digest)) }
{
    let mut buffer = itoa::Buffer::new();
    let digits = buffer.format(number).as_bytes();
    let label = numbering.label().as_bytes();
    let line = label.len() + digits.len();
    if to.len() < line + LAST_LINES {
        return 0;
    }
    let (whole, _) = to.split_at_mut(line + LAST_LINES);
    let (first, others) = whole.split_at_mut(line);
    fill(first, label, digits);
    write_last_lines(values, others);
    line + LAST_LINES
}

// Fills the buffer with the first line: the label and the digits.
fn fill(to: &mut [u8], label: &[u8], digits: &[u8])
    requires { length to.old ≡ length label.now + length digits.now }
    ensures { to.new ≡ label.now ++ digits.now }
{
    let (front, back) = to.split_at_mut(label.len());
    front.copy_from_slice(label);
    back.copy_from_slice(digits);
}

// Fills the buffer with the two last lines of a record, each with a line feed before it.
fn write_last_lines(values: &KeyAndDigest, to: &mut [u8])
    requires { length to.old ≡ 194 }
    ensures { to.new ≡ last_lines values.now.key values.now.digest }
{
    let (key, digest) = to.split_at_mut(65);
    write_line(&values.key, key);
    write_line(&values.digest, digest);
}

// Fills the buffer with a line feed and the hexadecimal digits of these bytes.
fn write_line(bytes: &[u8], to: &mut [u8])
    requires { length to.old ≡ 1 + 2 * length bytes.now }
    ensures { to.new ≡ 10 ∷ encode_lower bytes.now }
{
    let (end, digits) = to.split_at_mut(1);
    end.fill(b'\n');
    match hex::encode_to_slice(bytes, digits) {
        Ok(()) => {}
        Err(_) => unreachable!(),
    }
}
