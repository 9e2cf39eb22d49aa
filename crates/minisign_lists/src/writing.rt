//! Writes lists. Nothing here allocates.

ghost use Rattle.std.specs.Prelude.{◌≡◌, ◌≤◌, ◌+◌, ◌*◌, ℕ, List, length, take, drop, Some, None, nat_le};
ghost use Rattle.std.specs.Prelude.{Ok, Err, if◌then◌else◌};
ghost use Rattle.hex.specs.Hex.{IsBytes, encode_lower};
ghost use Rattle.minisign_lists.specs.Faults.{MalformedLine};
ghost use Rattle.minisign_lists.specs.Digests.{ListedDigest};
ghost use Rattle.minisign_lists.specs.Lines.{LongDigest, label};
ghost use Rattle.minisign_lists.specs.Values.{algorithm_of};
ghost use Rattle.minisign_lists.specs.Writing.{append_check, appended, bytes_of, free_name, is_ended};
ghost use Rattle.minisign_lists.specs.Writing.{IsReadBack, digest_size, line_end, written_line};
ghost use Rattle.minisign_lists.specs.Lists.{listed_entry};
ghost use Rattle.minisign_lists.specs.declared.lines.LongDigest.TheVariants.{Rejected};

use crate::digests::ListedDigest;
use crate::faults::{ListFault, Result};
use crate::finding::find_listed;
use crate::lines::LongDigest;
use crate::names::without_dot;
use crate::values::utf8;
use hex::encode_to_slice;
use minisign_external::state::{Misuse, Refusal};

// Returns the number of bytes of an entry's line without the name.
fn extra_size(digest: ListedDigest) -> usize
    ensures value { result ≡ length (label (algorithm_of digest)) + 5 + 2 * length (bytes_of digest) }
    ensures small { result ≤ 142 }
{
    match digest {
        ListedDigest::Sha256(_) => 77,
        ListedDigest::Sha512(_) => 141,
        ListedDigest::Blake2b(_) => 142,
    }
}

// Returns the length of the line of an entry, if it fits into `room` bytes.
fn line_size(digest: ListedDigest, name: &[u8], room: usize) -> Option<usize>
    ensures { result ≡ (if nat_le (length (written_line digest name.now)) room
        then Some (length (written_line digest name.now)) else None) }
{
    let extra = extra_size(digest);
    if room < extra || room - extra < name.len() {
        return None;
    }
    Some(extra + name.len())
}

// Writes the line of an entry to a buffer of exactly this size.
fn write_line(digest: ListedDigest, name: &[u8], to: &mut [u8])
    requires { length to.old
        ≡ length (label (algorithm_of digest)) + 5 + 2 * length (bytes_of digest) + length name.now }
    ensures { to.new ≡ written_line digest name.now }
{
    let label = digest.algorithm().label();
    let (front, rest) = to.split_at_mut(label.len());
    front.copy_from_slice(label);
    let (middle, end) = rest.split_at_mut(name.len());
    middle.copy_from_slice(name);
    write_end(digest, end);
}

// Writes the end of the line of an entry to a buffer of exactly this size.
fn write_end(digest: ListedDigest, to: &mut [u8])
    requires { length to.old ≡ 5 + 2 * length (bytes_of digest) }
    ensures { to.new ≡ line_end digest }
{
    let (front, rest) = to.split_at_mut(4);
    front.copy_from_slice(b") = ");
    let (digits, end) = rest.split_at_mut(rest.len() - 1);
    write_digits(digest, digits);
    end.copy_from_slice(b"\n");
}

// Writes a digest as hexadecimal digits to a buffer of exactly this size.
fn write_digits(digest: ListedDigest, to: &mut [u8])
    requires { length to.old ≡ 2 * length (bytes_of digest) }
    ensures { to.new ≡ encode_lower (bytes_of digest) }
{
    let _ = match digest {
        ListedDigest::Sha256(bytes) => encode_to_slice(bytes, to),
        ListedDigest::Sha512(bytes) => encode_to_slice(bytes, to),
        ListedDigest::Blake2b(bytes) => encode_to_slice(bytes, to),
    };
}

// Succeeds if a list does not contain the name, and is empty or ends with a line feed.
fn test_name(list: &str, name: &str) -> Result<()>
    ensures { result ≡ free_name (listed_entry Rejected list.now name.now) list.now }
{
    match find_listed(LongDigest::Rejected, list, name) {
        Ok(entry) => Err(ListFault::ListedTwice { line: entry.line }),
        Err(ListFault::NotListed) => test_end(list.as_bytes()),
        Err(fault) => Err(fault),
    }
}

// Succeeds if a list is empty or ends with a line feed.
fn test_end(list: &[u8]) -> Result<()>
    ensures { result ≡ (if is_ended list.now then Ok tt else Err (MalformedLine 0)) }
{
    if list.is_empty() || list[list.len() - 1] == b'\n' {
        Ok(())
    } else {
        Err(ListFault::MalformedLine { line: 0 })
    }
}

// Succeeds if the first `len` bytes of a buffer are a list to which an entry with this name can be
// appended. Does not check whether the buffer has space for the new line.
fn test_append(text: &[u8], len: usize, name: &[u8]) -> std::result::Result<(), Refusal<ListFault>>
    ensures { result ≡ append_check text.now len name.now }
{
    if len > text.len() {
        return Err(Refusal::WrongUse(Misuse::NoRoom));
    }
    let (list, _) = text.split_at(len);
    let list = utf8(list)?;
    let name = utf8(name)?;
    match test_name(list, name) {
        Ok(()) => Ok(()),
        Err(fault) => Err(Refusal::Refused(fault)),
    }
}

/// Appends an entry to a list, which is the first `len` bytes of a buffer. Returns the new length.
///
/// The errors are, in this order: `NoRoom`, if `len` is greater than the buffer; `NotUtf8`, for the
/// list or the name; those of [`find_listed`] except `NotListed`; `ListedTwice`, if the list
/// already has the name; `MalformedLine`, if the list is not empty and does not end with a line
/// feed; `NoRoom`, if the new line does not fit into the buffer.
pub fn append_entry(
    text: &mut [u8],
    len: usize,
    digest: ListedDigest,
    name: &[u8],
) -> std::result::Result<usize, Refusal<ListFault>>
    // On success, the line of the entry is written after the list, and the rest of the buffer is unchanged.
    // Otherwise the error is that of the first check that fails, and the buffer is unchanged.
    ensures { (result, text.new) ≡ appended text.old len digest name.now }
{
    if let Err(refusal) = test_append(text, len, name) {
        return Err(refusal);
    }
    let name = without_dot(name);
    let Some(size) = line_size(digest, name, text.len() - len) else {
        return Err(Refusal::WrongUse(Misuse::NoRoom));
    };
    let (_, rest) = text.split_at_mut(len);
    let (line, _) = rest.split_at_mut(size);
    write_line(digest, name, line);
    Ok(len + size)
}

/// States that an appended entry can be read back. This function is a law: it does nothing, and exists only
/// for its contract.
#[tactic(auto, using(crate::proofs::RoundTrip::appended_is_read_back))]
pub fn appended_entries_are_read_back()
    // After a successful `append_entry` of a digest with the bytes of its hash function, the list parses to
    // the entries that it had and one more, with this digest and this name, for every choice of the hash
    // function of 128 digits. No other entry has the name, so looking it up finds the new entry.
    ensures { (long : LongDigest) (buffer : List ℕ) (len n : ℕ) (digest : ListedDigest) (name new : List ℕ)
        → IsBytes (bytes_of digest) → length (bytes_of digest) ≡ digest_size digest
        → appended buffer len digest name ≡ (Ok n, new)
        → IsReadBack long (take len buffer) (take n new) digest name }
{}
