//! Sinks, to which bytes are written: the trait, its implementations, and functions that write all bytes of
//! a slice.

ghost use Rattle.std.specs.Prelude.{Option, ◌≡◌, ◌⊎◌, ℕ, ◌<◌, List, [], ◌∷◌, ◌++◌, length, None, Some, IsOk};
ghost use Rattle.std.specs.Prelude.{IfOk, IfErr, OnOk, OnErr};
ghost use Rattle.std.specs.Io.KnownBytes.{Appends};
ghost use Rattle.minisign_base.specs.Devices.{ErrorCountRises, AppendsPrefix, HasWritten, HasFlushed};
ghost use Rattle.minisign_base.specs.Devices.{EqualIfSecondKnown};
ghost use Rattle.minisign_base.specs.Fault.{Named};
ghost use Rattle.minisign_base.specs.declared.faults.NamedFault.TheVariants.{OutOfMemory, WritingFailed};

use super::{DeviceFault, FaultCount};
use crate::errors;
use crate::faults::NamedFault;
use std::alloc::{AllocError, Global};
use std::io::Write;

/// A destination for bytes.
pub trait Sink {
    // The bytes received so far, if they are known.
    ghost taken: { Self → Option (List ℕ) };

    // The bytes flushed so far, if they are known: all that had been received at the last flush.
    ghost flushed: { Self → Option (List ℕ) } = { λ _. None };

    // The number of errors so far.
    ghost sink_faults: { Self → ℕ };

    /// Writes a prefix of `bytes` and returns its length, which is at least one byte unless `bytes` is
    /// empty. After an error nothing was written. Flushes nothing.
    fn write(&mut self, bytes: &[u8]) -> Result<usize, DeviceFault>
        // On success, the sink received a prefix of `bytes`, at least one byte unless `bytes` is empty.
        // After an error, it received nothing, and the error count has risen.
        //
        // A write flushes nothing. The flushed bytes are known only for a sink that defines `flushed`; the
        // sinks of this library do not.
        ensures { HasWritten taken flushed sink_faults self.old self.new bytes.now result };

    /// Flushes all that was received. Writes nothing itself.
    fn flush(&mut self) -> Result<(), DeviceFault>
        // A flush adds nothing to what the sink received. On success, all that the sink received is
        // flushed. After an error, what was flushed is unchanged or no longer known.
        ensures { HasFlushed taken flushed sink_faults self.old self.new result };
}

/// A buffer that grows. Fails only if an allocation fails.
#[derive(Drop)]
pub struct VecSink {
    bytes: Vec<u8>,
    faults: FaultCount,
}

impl VecSink {
    /// Returns an empty buffer that grows with this allocator.
    pub fn new(alloc: Global) -> VecSink
        ensures taken { ⟦<VecSink as Sink>⟧.taken result ≡ Some [] }
        ensures faults { ⟦<VecSink as Sink>⟧.sink_faults result ≡ 0 }
    {
        VecSink {
            bytes: Vec::new(alloc),
            faults: FaultCount(0),
        }
    }

    /// Returns the bytes received so far.
    pub fn as_slice(&self) -> &[u8]
        ensures { ⟦<VecSink as Sink>⟧.taken self.now ≡ Some result.now }
    {
        self.bytes.as_slice()
    }

    /// Returns the bytes received so far as a vector.
    pub fn into_vec(self) -> Vec<u8>
        ensures { ⟦<VecSink as Sink>⟧.taken self ≡ Some result.items }
    {
        let VecSink { bytes, faults: _ } = self;
        bytes
    }
}

impl Sink for VecSink {
    ghost taken = { λ s. Some s.bytes.items };

    ghost sink_faults = { λ s. s.faults.0 };

    // On success, the sink received all the bytes. After an error, it received none of them.
    fn write(&mut self, bytes: &[u8]) -> Result<usize, DeviceFault>
        ensures takes { IfOk result (λ n. n ≡ length bytes.now) }
        ensures bytes { OnOk result
            (Appends (⟦<VecSink as Sink>⟧.taken self.old) (⟦<VecSink as Sink>⟧.taken self.new) bytes.now) }
        ensures write { HasWritten ⟦<VecSink as Sink>⟧.taken ⟦<VecSink as Sink>⟧.flushed
            ⟦<VecSink as Sink>⟧.sink_faults self.old self.new bytes.now result }
    {
        match self.bytes.extend_from_slice(bytes) {
            Ok(()) => Ok(bytes.len()),
            Err(AllocError) => Err(self.faults.raise()),
        }
    }

    // Always succeeds.
    fn flush(&mut self) -> Result<(), DeviceFault>
        ensures succeeds { IsOk result }
        ensures unchanged { self.new ≡ self.old }
    {
        Ok(())
    }
}

/// Accepts all bytes and keeps none. Never fails.
#[derive(Clone, Copy, Drop)]
pub struct NoSink;

impl Sink for NoSink {
    ghost taken = { λ _. None };

    ghost sink_faults = { λ _. 0 };

    fn write(&mut self, bytes: &[u8]) -> Result<usize, DeviceFault> {
        Ok(bytes.len())
    }

    fn flush(&mut self) -> Result<(), DeviceFault> {
        Ok(())
    }
}

/// Writes to any std writer. The received bytes are known if those of the writer are. A write is an error
/// if the writer accepts 0 bytes although there are some, or reports more bytes than it was given.
#[derive(Drop)]
pub struct WriterSink<W> {
    writer: W,
    faults: FaultCount,
}

impl<W: Write> WriterSink<W> {
    /// Returns a sink for the writer. Bytes that the writer already contains count as received.
    pub fn new(writer: W) -> WriterSink<W>
        ensures taken { ⟦<WriterSink<W> as Sink>⟧.taken result ≡ W.contents writer }
        ensures faults { ⟦<WriterSink<W> as Sink>⟧.sink_faults result ≡ 0 }
    {
        WriterSink {
            writer,
            faults: FaultCount(0),
        }
    }
}

impl<W: Write> Sink for WriterSink<W> {
    ghost taken = { λ s. W.contents s.writer };

    ghost sink_faults = { λ s. s.faults.0 };

    fn write(&mut self, bytes: &[u8]) -> Result<usize, DeviceFault> {
        match self.writer.write(bytes) {
            Ok(n) if n <= bytes.len() && (n > 0 || bytes.is_empty()) => Ok(n),
            _ => Err(self.faults.raise()),
        }
    }

    fn flush(&mut self) -> Result<(), DeviceFault> {
        match self.writer.flush() {
            Ok(()) => Ok(()),
            Err(_) => Err(self.faults.raise()),
        }
    }
}

/// Writes a label, a text and a line feed in one call of `write_all`, so that programs that run at the same
/// time do not mix their lines: a sink that accepts everything at once gets a single write.
///
/// Allocates the line. If that fails, returns `OutOfMemory`, and the sink is unchanged. If the sink fails,
/// returns `WritingFailed`, and the sink has received a prefix of the line.
pub fn put_line<S: Sink>(
    alloc: Global,
    sink: &mut S,
    label: &[u8],
    text: &[u8],
) -> errors::Result<()>
    // On success, the sink received the whole line. There are two errors: out of memory, with the sink
    // unchanged; and `writing failed`, if the sink failed after it received a prefix of the line.
    ensures bytes { OnOk result
        (Appends (S.taken sink.old) (S.taken sink.new) (label.now ++ text.now ++ 10 ∷ [])) }
    ensures no_new_fault { OnOk result (S.sink_faults sink.new ≡ S.sink_faults sink.old) }
    ensures refused { IfErr result (λ e. ((e ≡ Named OutOfMemory) × (sink.new ≡ sink.old))
        ⊎ ((e ≡ Named WritingFailed) × ErrorCountRises (S.sink_faults sink.old) (S.sink_faults sink.new))) }
    ensures prefix_received { OnErr result
        (AppendsPrefix (S.taken sink.old) (S.taken sink.new) (label.now ++ text.now ++ 10 ∷ [])) }

    // Nothing is flushed.
    ensures unflushed { S.flushed sink.new ≡ S.flushed sink.old }
{
    let line = line_of(alloc, label, text)?;
    match write_all(sink, &line) {
        Ok(()) => Ok(()),
        Err(_) => Err(NamedFault::WritingFailed.into()),
    }
}

/// Writes all of `bytes` and flushes them. After an error the sink has received a prefix of them.
pub fn put_and_flush<S: Sink>(sink: &mut S, bytes: &[u8]) -> Result<(), DeviceFault>
    // On success, the sink received all the bytes.
    ensures bytes { OnOk result (Appends (S.taken sink.old) (S.taken sink.new) bytes.now) }

    // On success, everything that the sink received is flushed.
    ensures flushed { OnOk result (EqualIfSecondKnown (S.taken sink.new) (S.flushed sink.new)) }

    // After an error, the sink's error count has risen, and the sink received a prefix of the bytes. On
    // success, the error count is unchanged.
    ensures no_new_fault { OnOk result (S.sink_faults sink.new ≡ S.sink_faults sink.old) }
    ensures refused { OnErr result (ErrorCountRises (S.sink_faults sink.old) (S.sink_faults sink.new)) }
    ensures prefix_received { OnErr result (AppendsPrefix (S.taken sink.old) (S.taken sink.new) bytes.now) }
{
    write_all(sink, bytes)?;
    match sink.flush() {
        Ok(()) => Ok(()),
        Err(fault) => Err(fault),
    }
}

/// Writes all of `bytes` and flushes nothing. After an error the sink has received a prefix of them.
pub fn write_all<S: Sink>(sink: &mut S, bytes: &[u8]) -> Result<(), DeviceFault>
    // On success, the sink received all the bytes.
    ensures bytes { OnOk result (Appends (S.taken sink.old) (S.taken sink.new) bytes.now) }

    // After an error, the sink's error count has risen, and the sink received a prefix of the bytes. On
    // success, the error count is unchanged.
    ensures no_new_fault { OnOk result (S.sink_faults sink.new ≡ S.sink_faults sink.old) }
    ensures refused { OnErr result (ErrorCountRises (S.sink_faults sink.old) (S.sink_faults sink.new)) }
    ensures prefix_received { OnErr result (AppendsPrefix (S.taken sink.old) (S.taken sink.new) bytes.now) }

    // Nothing is flushed.
    ensures unflushed { S.flushed sink.new ≡ S.flushed sink.old }
{
    let mut at = 0;
    'rest: while at < bytes.len() {
        at += sink.write(&bytes[at..])?;
    }
    Ok(())
}

// Returns the label, the text and a line feed as one line.
fn line_of(alloc: Global, label: &[u8], text: &[u8]) -> errors::Result<Vec<u8>>
    ensures line { IfOk result (λ v. v.items ≡ label.now ++ text.now ++ 10 ∷ []) }
    ensures only_out_of_memory { IfErr result (λ e. e ≡ Named OutOfMemory) }
{
    let mut line = Vec::new(alloc);
    line.extend_from_slice(label)?;
    line.extend_from_slice(text)?;
    line.push(b'\n')?;
    Ok(line)
}
