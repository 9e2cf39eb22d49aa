//! Reads data to its end, and hashes it, keeps it in memory or checks that it is UTF-8.

ghost use Rattle.std.specs.Prelude.{◌≡◌, ℕ, ◌<◌, List, ◌++◌, false, length, string_bytes, vec_len};
ghost use Rattle.std.specs.Prelude.{MatchResult, IfOk, IfErr};
ghost use Rattle.minisign_hash.specs.Blake2b.{blake2b_digest};
ghost use Rattle.minisign_hash.specs.Fed.{IsFed, has_finalized, output_length};
ghost use Rattle.minisign_base.specs.Devices.{ErrorCountRises, PrefixIsRemoved};
ghost use Rattle.minisign_base.specs.Fault.{Named};
ghost use Rattle.minisign_base.specs.declared.faults.NamedFault.TheVariants.{OutOfMemory};
ghost use Rattle.minisign.specs.Reading.{IsReadFault, ReadsWhole, IsTextFault, IsTextFileFault};

use minisign_base::devices::DeviceFault;
use minisign_base::devices::sources::{ReaderSource, Source};
use minisign_base::{NamedFault, Result};
use minisign_hash::blake2b::Blake2b;
use std::alloc::Global;
use std::fs;
use std::rt::Files;

// The size of the read buffer in bytes.
const PIECE_BYTES: usize = 65536;

// Reads the file as text. A file that cannot be opened gives `ReadingFailed`, as one that cannot be read.
pub(crate) fn read_text_file<F: Files>(files: &F, alloc: Global, path: &str) -> Result<String>
    ensures { IfErr result IsTextFileFault }
{
    match fs::open(files, path) {
        Ok(file) => read_text(alloc, &mut ReaderSource::new(file)),
        Err(_) => Err(NamedFault::ReadingFailed.into()),
    }
}

/// Reads all unread data and returns it as text. The errors are a failing source (`ReadingFailed`),
/// bytes that are not UTF-8 (`NotUtf8`), and a failed allocation, which may come at any time.
pub fn read_text<S: Source>(alloc: Global, source: &mut S) -> Result<String>
    // On success, the text consists of all the unread bytes, and these are UTF-8. An error is out
    // of memory, and the source did not fail; or the source failed; or the unread bytes are not
    // UTF-8.
    ensures text { IfOk result (λ t. ReadsWhole S.Source source.old source.new (string_bytes t)) }
    ensures refused { IfErr result (IsTextFault S.Source source.old source.new) }
    ensures prefix_removed { PrefixIsRemoved (S.ahead source.old) (S.ahead source.new) }
{
    let bytes = read_to_end(alloc, source)?;
    match String::from_utf8(bytes) {
        Ok(text) => Ok(text),
        Err(_) => Err(NamedFault::NotUtf8.into()),
    }
}

/// Reads all unread data, in pieces of 64 KiB, and returns it. The errors are a failing source, and
/// a failed allocation for the buffer or for the data. Some data may have been read before the
/// error.
pub fn read_to_end<S: Source>(alloc: Global, source: &mut S) -> Result<Vec<u8>>
    // On success, the result consists of all the unread bytes. There are two errors: out of memory,
    // if the source did not fail; or the error of a read that failed, and then the source's error
    // count rose. A place that was marked is still marked.
    ensures bytes { IfOk result (λ v. ReadsWhole S.Source source.old source.new v.items) }
    ensures refused { IfErr result (IsReadFault S.Source source.old source.new) }
    ensures prefix_removed { PrefixIsRemoved (S.ahead source.old) (S.ahead source.new) }
    ensures is_marked_unchanged { S.is_marked source.new ≡ S.is_marked source.old }
{
    let mut buf = piece_buffer(alloc)?;
    let mut received = Vec::new(alloc);
    append_all(source, &mut buf, &mut received)?;
    Ok(received)
}

// Returns the 64-byte Blake2b digest of all unread data. The data is read in pieces, so memory use
// does not grow with its size.
pub(crate) fn prehash<S: Source>(alloc: Global, source: &mut S) -> Result<[u8; 64]>
    ensures digest { IfOk result (λ d. (message : List ℕ) × ReadsWhole S.Source source.old source.new message
        × (d ≡ blake2b_digest 64 message)) }
    ensures refused { IfErr result (IsReadFault S.Source source.old source.new) }
    ensures prefix_removed { PrefixIsRemoved (S.ahead source.old) (S.ahead source.new) }
    ensures is_marked_unchanged { S.is_marked source.new ≡ S.is_marked source.old }
{
    let mut buf = piece_buffer(alloc)?;
    let mut hasher = Blake2b::new(64);
    match feed(source, &mut buf, &mut hasher) {
        Ok(()) => Ok(final_digest(&mut hasher)),
        Err(_) => Err(NamedFault::ReadingFailed.into()),
    }
}

// Returns the 64-byte digest of the data that was hashed.
pub(crate) fn final_digest(hasher: &mut Blake2b) -> [u8; 64]
    requires { output_length hasher.old ≡ 64 }
    ensures { (message : List ℕ) → IsFed hasher.old message → result ≡ blake2b_digest 64 message }
{
    let mut digest = [0u8; 64];
    hasher.finalize(&mut digest);
    digest
}

// Hashes all unread data, through the buffer.
fn feed<S: Source>(
    source: &mut S,
    buf: &mut [u8],
    hasher: &mut Blake2b,
) -> std::result::Result<(), DeviceFault>
    requires not_empty { 0 < length buf.old }
    requires open { has_finalized hasher.old ≡ false }
    ensures fed { MatchResult result (λ _. (message : List ℕ) × ReadsWhole S.Source source.old source.new
        message × ((m : List ℕ) → IsFed hasher.old m → IsFed hasher.new (m ++ message)))
        (λ _. ErrorCountRises (S.faults source.old) (S.faults source.new)) }
    ensures length { output_length hasher.new ≡ output_length hasher.old }
    ensures prefix_removed { PrefixIsRemoved (S.ahead source.old) (S.ahead source.new) }
    ensures is_marked_unchanged { S.is_marked source.new ≡ S.is_marked source.old }
{
    'pieces: loop {
        let n = source.read(buf)?;
        if n == 0 {
            return Ok(());
        }
        hasher.update(&buf[..n]);
    }
}

// Appends all unread data to `received`, through the buffer.
fn append_all<S: Source>(source: &mut S, buf: &mut [u8], received: &mut Vec<u8>) -> Result<()>
    requires { 0 < length buf.old }
    ensures data { MatchResult result (λ _. (message : List ℕ) × ReadsWhole S.Source source.old source.new
        message × (received.new.items ≡ received.old.items ++ message)) (IsReadFault S.Source source.old
        source.new) }
    ensures prefix_removed { PrefixIsRemoved (S.ahead source.old) (S.ahead source.new) }
    ensures is_marked_unchanged { S.is_marked source.new ≡ S.is_marked source.old }
{
    'pieces: loop {
        match source.read(buf) {
            Ok(n) => {
                if n == 0 {
                    return Ok(());
                }
                received.extend_from_slice(&buf[..n])?;
            }
            Err(_) => return Err(NamedFault::ReadingFailed.into()),
        }
    }
}

pub(crate) fn piece_buffer(alloc: Global) -> Result<Vec<u8>>
    ensures len { IfOk result (λ v. vec_len v ≡ PIECE_BYTES) }
    ensures only_out_of_memory { IfErr result (λ e. e ≡ Named OutOfMemory) }
{
    zeros(alloc, PIECE_BYTES)
}

pub(crate) fn zeros(alloc: Global, len: usize) -> Result<Vec<u8>>
    ensures len { IfOk result (λ v. vec_len v ≡ len) }
    ensures only_out_of_memory { IfErr result (λ e. e ≡ Named OutOfMemory) }
{
    Ok(vec![in alloc; 0u8; len]?)
}
