//! Copying verified data: either the data that was kept in memory, or a second reading of the source, which
//! must have the digest of the first.

ghost use Rattle.std.specs.Prelude.{◌≡◌, ◌⊎◌, ℕ, ◌<◌, ◌++◌, List, true, false, bytes_eq, length, Ok, Err};
ghost use Rattle.std.specs.Prelude.{IfOk, IfErr, OnOk, MatchResult};
ghost use Rattle.minisign_hash.specs.Blake2b.{blake2b_digest};
ghost use Rattle.minisign_hash.specs.Fed.{IsFed, has_finalized, output_length};
ghost use Rattle.minisign_base.specs.Devices.{IsEmptyIfKnown};
ghost use Rattle.minisign_base.specs.Fault.{Named};
ghost use Rattle.minisign_base.specs.declared.faults.NamedFault.TheVariants.{DataChanged, GoingBackFailed};
ghost use Rattle.minisign_base.specs.declared.faults.NamedFault.TheVariants.{ReadingFailed, WritingFailed};
ghost use Rattle.minisign_base.specs.DeviceCalls.{Flushes, GoesBack, IsWritingFault, WritesBytes};
ghost use Rattle.minisign_base.specs.DeviceCalls.{rereader_call};
ghost use Rattle.minisign_base.specs.DeviceCalls.{sink_call, no_sink};
ghost use Rattle.minisign.specs.Reading.{Copies, HasFailed};
ghost use Rattle.minisign.specs.Verifying.{StagesEnd, second_copy_stages, held_copy_stages};

use crate::reading::{final_digest, piece_buffer};
use crate::signed_data::SignedData;
use minisign_base::devices::sinks::{Sink, write_all};
use minisign_base::devices::sources::Rereader;
use minisign_base::{NamedFault, Result};
use minisign_hash::blake2b::Blake2b;
use std::alloc::Global;

// Copies the data to `out` and flushes, if `output` is set. If `signed` is a digest, the data was not kept
// in memory, so it is read again from the mark.
pub(crate) fn copy_out<R: Rereader, O: Sink>(
    alloc: Global,
    signed: &SignedData,
    data_reader: &mut R,
    output: bool,
    out: &mut O,
) -> Result<()>
    ensures { (second : List ℕ)
        × StagesEnd (rereader_call R.Source R.steady data_reader.old data_reader.new) no_sink
        (sink_call O.Sink out.old out.new) (held_copy_stages output signed.now second) result }
{
    if !output {
        return Ok(());
    }
    match signed {
        SignedData::Digest(digest) => copy_again(alloc, digest, data_reader, out),
        SignedData::Message(bytes) => {
            put_bytes(out, bytes)?;
            flush(out)
        }
        SignedData::NoData => Ok(()),
    }
}

// Goes back to the mark, copies the data, and flushes `out` only if the data has this digest.
fn copy_again<R: Rereader, O: Sink>(
    alloc: Global,
    digest: &[u8; 64],
    data_reader: &mut R,
    out: &mut O,
) -> Result<()>
    ensures { (second : List ℕ)
        × StagesEnd (rereader_call R.Source R.steady data_reader.old data_reader.new) no_sink
        (sink_call O.Sink out.old out.new) (second_copy_stages digest.now second) result }
{
    go_back(data_reader)?;
    let second = copy_hashed(alloc, data_reader, out)?;
    check_same(digest, &second)?;
    flush(out)
}

// Returns `DataChanged` if the digest of the second reading differs from that of the first.
fn check_same(digest: &[u8; 64], second: &[u8; 64]) -> Result<()>
    ensures { MatchResult result (λ _. bytes_eq second.now digest.now ≡ true)
        (λ e. (e ≡ Named DataChanged) × (bytes_eq second.now digest.now ≡ false)) }
{
    if second != digest {
        return Err(NamedFault::DataChanged.into());
    }
    Ok(())
}

// Copies all unread data to `out` and returns its 64-byte Blake2b digest. Does not flush.
fn copy_hashed<R: Rereader, O: Sink>(
    alloc: Global,
    data_reader: &mut R,
    out: &mut O,
) -> Result<[u8; 64]>
    requires { IsEmptyIfKnown (R.since data_reader.old) }
    ensures copied { IfOk result (λ d. (message : List ℕ) × (d ≡ blake2b_digest 64 message)
        × Copies (rereader_call R.Source R.steady data_reader.old data_reader.new)
        (sink_call O.Sink out.old out.new) message (Ok tt)) }
    ensures refused { IfErr result (λ e. (message : List ℕ)
        × Copies (rereader_call R.Source R.steady data_reader.old data_reader.new)
        (sink_call O.Sink out.old out.new) message (Err e)) }
{
    let mut buf = piece_buffer(alloc)?;
    let mut hasher = Blake2b::new(64);
    copy_pieces(data_reader, &mut buf, &mut hasher, out)?;
    Ok(final_digest(&mut hasher))
}

// Copies all unread data to `out` through `buf` and hashes it. Does not flush.
fn copy_pieces<R: Rereader, O: Sink>(
    data_reader: &mut R,
    buf: &mut [u8],
    hasher: &mut Blake2b,
    out: &mut O,
) -> Result<()>
    requires not_empty { 0 < length buf.old }
    requires open { has_finalized hasher.old ≡ false }
    requires anew { IsEmptyIfKnown (R.since data_reader.old) }
    ensures copied { OnOk result ((message : List ℕ) × ((m : List ℕ) → IsFed hasher.old m
        → IsFed hasher.new (m ++ message)) × Copies (rereader_call R.Source R.steady data_reader.old
        data_reader.new) (sink_call O.Sink out.old out.new) message (Ok tt)) }
    ensures refused { IfErr result (λ e. (message : List ℕ)
        × Copies (rereader_call R.Source R.steady data_reader.old data_reader.new)
        (sink_call O.Sink out.old out.new) message (Err e)) }
    ensures failed { IfErr result
        (λ e. HasFailed ReadingFailed R.faults data_reader.old data_reader.new e
        ⊎ IsWritingFault (sink_call O.Sink out.old out.new) e) }
    ensures length { output_length hasher.new ≡ output_length hasher.old }
{
    'pieces: loop {
        match data_reader.read(buf) {
            Ok(n) => {
                if n == 0 {
                    return Ok(());
                }
                hasher.update(&buf[..n]);
                put_bytes(out, &buf[..n])?;
            }
            Err(_) => return Err(NamedFault::ReadingFailed.into()),
        }
    }
}

fn go_back<R: Rereader>(data_reader: &mut R) -> Result<()>
    ensures { MatchResult result (λ _. GoesBack (rereader_call R.Source R.steady data_reader.old
        data_reader.new) (Ok tt)) (λ e. (e ≡ Named GoingBackFailed)
        × GoesBack (rereader_call R.Source R.steady data_reader.old data_reader.new) (Err tt)) }
{
    match data_reader.back() {
        Ok(()) => Ok(()),
        Err(_) => Err(NamedFault::GoingBackFailed.into()),
    }
}

fn put_bytes<O: Sink>(out: &mut O, bytes: &[u8]) -> Result<()>
    ensures { WritesBytes (sink_call O.Sink out.old out.new) bytes.now result }
{
    match write_all(out, bytes) {
        Ok(()) => Ok(()),
        Err(_) => Err(NamedFault::WritingFailed.into()),
    }
}

fn flush<O: Sink>(out: &mut O) -> Result<()>
    ensures { MatchResult result
        (λ _. Flushes (sink_call O.Sink out.old out.new) (Ok tt))
        (λ e. (e ≡ Named WritingFailed) × Flushes (sink_call O.Sink out.old out.new) (Err tt)) }
{
    match out.flush() {
        Ok(()) => Ok(()),
        Err(_) => Err(NamedFault::WritingFailed.into()),
    }
}
