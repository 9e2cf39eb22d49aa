//! The devices that a request describes. The source counts its reads, and the random source its bytes.

ghost use Rattle.std.specs.Prelude.{◌≡◌, ◌↔◌, ◌≤◌, ◌==◌, ◌+◌, ◌-◌, ◌^◌, ◌&&◌, ◌||◌, not, Some, IfErr, IfOk};
ghost use Rattle.std.specs.Prelude.{IsOk, IsSomeAnd, MatchOption, OnErr, OnOk, codes, drop, if◌then◌else◌};
ghost use Rattle.std.specs.Prelude.{is_ok, length, ltb, min, option_map};
ghost use Rattle.std.specs.Str.{bytes_eq};
ghost use Rattle.std.specs.Option.{is_some, unwrap_or};
ghost use Rattle.minisign_base.specs.Devices.{HasFilled, HasGoneBack, HasMarked, HasRead};

use crate::refusals::Refusal;
use crate::words::{bytes_of, number_of};
use minisign::base::devices::DeviceFault;
use minisign::base::devices::random_sources::{FixedRandom, RandomSource};
use minisign::base::devices::sinks::VecSink;
use minisign::base::devices::sources::{Rereader, SliceSource, Source};
use minisign::base::prompt::Prompt;
use minisign_fixtures::devices::sinks::LimitedSink;
use std::alloc::Global;

// The number of random bytes that a word with `c` describes, which is more than any call takes.
const COUNTED_BYTES: u16 = 512;

/// The data of a request: `x..[,pos=P][,chunk=C][,fail=N][,second=x..]`. `x` and hexadecimal digits are the
/// bytes. P is the offset at which reading begins, C the maximum number of bytes for each read, and N the
/// number of the read that fails, from 1 on. `second` has the bytes that are read after going back.
#[derive(Drop)]
pub struct DataWord {
    bytes: Vec<u8>,
    second: Option<Vec<u8>>,
    place: usize,
    chunk: usize,
    failing_read: u64,
    ghost chunk_not_zero: { 1 ≤ chunk },
}

impl DataWord {
    /// Parses the description.
    pub fn read(alloc: Global, word: &str) -> Result<DataWord, Refusal> {
        let mut parts = word.split(',');
        let Some(first) = parts.next() else {
            return Err(Refusal::BadRequest);
        };
        let mut data = DataWord {
            bytes: bytes_of(alloc, first)?,
            second: None,
            place: 0,
            chunk: usize::MAX,
            failing_read: 0,
        };
        for part in parts {
            data.refine(alloc, part)?;
        }
        Ok(data)
    }

    // Parses one part after the bytes.
    fn refine(&mut self, alloc: Global, part: &str) -> Result<(), Refusal> {
        let Some((name, value)) = part.split_once('=') else {
            return Err(Refusal::BadRequest);
        };
        if name == "second" {
            self.second = Some(bytes_of(alloc, value)?);
            return Ok(());
        }
        self.set(name, number_of(value)?)
    }

    // Sets the part with this name, whose value is a number. Rejects other names, and a maximum of 0 bytes
    // for each read.
    fn set(&mut self, name: &str, number: usize) -> Result<(), Refusal>
        ensures succeeds { is_ok result ≡ (bytes_eq name.now (codes "pos")
            || (bytes_eq name.now (codes "fail") || (bytes_eq name.now (codes "chunk") && ltb 0 number))) }
        ensures place { self.new.place
            ≡ (if bytes_eq name.now (codes "pos") then number else self.old.place) }
        ensures chunk { self.new.chunk
            ≡ (if bytes_eq name.now (codes "chunk") && ltb 0 number then number else self.old.chunk) }
        ensures failing_read { self.new.failing_read
            ≡ (if bytes_eq name.now (codes "fail") then number else self.old.failing_read) }
        ensures kept { (self.new.bytes ≡ self.old.bytes) × (self.new.second ≡ self.old.second) }
    {
        match name {
            "pos" => self.place = number,
            "chunk" if number > 0 => self.chunk = number,
            "fail" => self.failing_read = number as u64,
            _ => return Err(Refusal::BadRequest),
        }
        Ok(())
    }

    /// Returns the source of the data.
    pub fn source(&self) -> CountedSource<'_> {
        CountedSource {
            rest: from_place(&self.bytes, self.place),
            marked: None,
            second: match &self.second {
                Some(bytes) => Some(bytes.as_slice()),
                None => None,
            },
            place: self.place as u64,
            chunk: self.chunk,
            failing_read: self.failing_read,
            reads: 0,
            faults: 0,
        }
    }
}

/// A source that counts its reads and the bytes that it returned.
#[derive(Drop)]
pub struct CountedSource<'a> {
    rest: &'a [u8],
    marked: Option<(&'a [u8], u64)>,
    second: Option<&'a [u8]>,
    place: u64,
    chunk: usize,
    failing_read: u64,
    reads: u64,
    faults: u64,
    ghost chunk_not_zero: { 1 ≤ chunk },
}

impl<'a> CountedSource<'a> {
    /// Returns the number of reads, including those that failed.
    pub fn reads(&self) -> u64
        ensures { result ≡ self.now.reads }
    {
        self.reads
    }

    /// Returns the position of the next byte.
    pub fn place(&self) -> u64
        ensures { result ≡ self.now.place }
    {
        self.place
    }
}

impl<'a> Source for CountedSource<'a> {
    ghost ahead = { λ s. Some s.rest.now };

    ghost is_marked = { λ s. is_some s.marked };

    ghost left = { λ s. length s.rest.now };

    ghost faults = { λ s. s.faults };

    // Fails exactly if it is the read that has to fail. It is counted even if it fails. On success, the
    // number of bytes is the greatest that is allowed, and the position is after them.
    fn read(&mut self, buf: &mut [u8]) -> Result<usize, DeviceFault>
        ensures succeeds { is_ok result
            ≡ not (min (self.old.reads + 1) (2 ^ 64 - 1) == self.old.failing_read) }
        ensures number { IfOk result
            (λ n. n ≡ min (min (length self.old.rest.now) (length buf.new)) self.old.chunk) }
        ensures read { HasRead ⟦<CountedSource<'a> as Source>⟧.ahead ⟦<CountedSource<'a> as Source>⟧.behind
            ⟦<CountedSource<'a> as Source>⟧.since ⟦<CountedSource<'a> as Source>⟧.is_marked
            ⟦<CountedSource<'a> as Source>⟧.left ⟦<CountedSource<'a> as Source>⟧.faults self.old self.new
            buf.new result }
        ensures counted { self.new.reads ≡ min (self.old.reads + 1) (2 ^ 64 - 1) }
        ensures after_success { IfOk result (λ n. (self.new.rest.now ≡ drop n self.old.rest.now)
            × (self.new.place ≡ min (self.old.place + n) (2 ^ 64 - 1))
            × (self.new.faults ≡ self.old.faults)) }
        ensures after_error { IfErr result (λ _. (self.new.rest ≡ self.old.rest)
            × (self.new.place ≡ self.old.place)
            × (self.new.faults ≡ min (self.old.faults + 1) (2 ^ 64 - 1))) }
        ensures kept { (self.new.marked ≡ self.old.marked) × (self.new.second ≡ self.old.second)
            × (self.new.chunk ≡ self.old.chunk) × (self.new.failing_read ≡ self.old.failing_read) }
    {
        self.reads = self.reads.saturating_add(1);
        if self.reads == self.failing_read {
            self.faults = self.faults.saturating_add(1);
            return Err(DeviceFault);
        }
        let n = self.rest.len().min(buf.len()).min(self.chunk);
        let (front, rest) = self.rest.split_at(n);
        buf[..n].copy_from_slice(front);
        self.rest = rest;
        self.place = self.place.saturating_add(n as u64);
        Ok(n)
    }
}

impl<'a> Rereader for CountedSource<'a> {
    ghost steady = { λ _. ⊥ };

    // Always succeeds. Everything but the mark is unchanged.
    fn mark(&mut self) -> Result<(), DeviceFault>
        ensures succeeds { IsOk result }
        ensures mark { HasMarked ⟦<CountedSource<'a> as Rereader>⟧.steady
            ⟦<CountedSource<'a> as Source>⟧.ahead ⟦<CountedSource<'a> as Source>⟧.behind
            ⟦<CountedSource<'a> as Source>⟧.since ⟦<CountedSource<'a> as Source>⟧.is_marked
            ⟦<CountedSource<'a> as Source>⟧.faults self.old self.new result }
        ensures marked { MatchOption self.new.marked ⊥
            (λ m. (m.0.now ≡ self.old.rest.now) × (m.1 ≡ self.old.place)) }
        ensures kept { (self.new.rest.now ≡ self.old.rest.now) × (self.new.second ≡ self.old.second)
            × (self.new.place ≡ self.old.place) × (self.new.chunk ≡ self.old.chunk)
            × (self.new.failing_read ≡ self.old.failing_read) × (self.new.reads ≡ self.old.reads)
            × (self.new.faults ≡ self.old.faults) }
    {
        self.marked = Some((self.rest, self.place));
        Ok(())
    }

    // Fails exactly if no place is marked. On success, the position is the marked one.
    fn back(&mut self) -> Result<(), DeviceFault>
        ensures succeeds { is_ok result ≡ is_some self.old.marked }
        ensures back { HasGoneBack ⟦<CountedSource<'a> as Source>⟧.ahead
            ⟦<CountedSource<'a> as Source>⟧.behind ⟦<CountedSource<'a> as Source>⟧.since
            ⟦<CountedSource<'a> as Source>⟧.is_marked ⟦<CountedSource<'a> as Source>⟧.faults self.old
            self.new result }
        ensures place { OnOk result (option_map (λ p. p.1) self.old.marked ≡ Some self.new.place) }
        // On success, the unread bytes are those after the marked position, of other data if there is any.
        ensures rest { OnOk result (MatchOption self.old.marked ⊥ (λ m. self.new.rest.now
            ≡ unwrap_or (option_map (λ other. drop m.1 other.now) self.old.second) m.0.now)) }
        ensures unchanged { IfErr result (λ _. (self.new.rest ≡ self.old.rest)
            × (self.new.place ≡ self.old.place)) }
        ensures kept { (self.new.marked ≡ self.old.marked) × (self.new.second ≡ self.old.second)
            × (self.new.chunk ≡ self.old.chunk) × (self.new.failing_read ≡ self.old.failing_read)
            × (self.new.reads ≡ self.old.reads) }
    {
        let Some((rest, place)) = self.marked else {
            self.faults = self.faults.saturating_add(1);
            return Err(DeviceFault);
        };
        self.rest = match self.second {
            Some(second) => from_place(second, place as usize),
            None => rest,
        };
        self.place = place;
        Ok(())
    }
}

// Returns the bytes from a position on, or none if the position is after them.
fn from_place(bytes: &[u8], place: usize) -> &[u8]
    ensures { result.now ≡ drop place bytes.now }
{
    if place < bytes.len() {
        &bytes[place..]
    } else {
        &[]
    }
}

/// The sink of a request: `-` or nothing accepts everything, and `N` accepts N bytes. With an `f` in front,
/// each flush fails.
#[derive(Clone, Copy)]
pub struct SinkWord {
    capacity: usize,
    flushes: usize,
}

impl SinkWord {
    /// Parses the description.
    pub fn read(word: &str) -> Result<SinkWord, Refusal> {
        let (capacity, flushes) = match word.strip_prefix("f") {
            Some(rest) => (rest, 0),
            None => (word, usize::MAX),
        };
        let capacity = capacity_of(capacity)?;
        Ok(SinkWord { capacity, flushes })
    }

    /// Returns the sink, which is empty.
    pub fn sink(self, alloc: Global) -> LimitedSink {
        LimitedSink::new(alloc, self.capacity).flushed(self.flushes)
    }
}

// Parses the number of bytes that a sink accepts.
fn capacity_of(word: &str) -> Result<usize, Refusal> {
    match word {
        "" | "-" => Ok(usize::MAX),
        number => number_of(number),
    }
}

/// A random source that returns given bytes, and counts the bytes that were taken.
#[derive(Drop)]
pub struct CountedRandom<'a> {
    random: FixedRandom<'a>,
    drawn: u64,
}

impl<'a> CountedRandom<'a> {
    pub fn new(bytes: &'a [u8]) -> CountedRandom<'a> {
        CountedRandom {
            random: FixedRandom::new(bytes),
            drawn: 0,
        }
    }

    /// Returns the number of bytes that were taken.
    pub fn drawn(&self) -> u64
        ensures { result ≡ self.now.drawn }
    {
        self.drawn
    }
}

impl<'a> RandomSource for CountedRandom<'a> {
    ghost random_ahead = { λ s. ⟦<FixedRandom<'a> as RandomSource>⟧.random_ahead s.random };

    ghost random_faults = { λ s. ⟦<FixedRandom<'a> as RandomSource>⟧.random_faults s.random };

    // Fails exactly if fewer bytes are left than `buf` has, and then the bytes that are left are unchanged.
    // On success, the bytes are counted.
    fn fill(&mut self, buf: &mut [u8]) -> Result<(), DeviceFault>
        ensures succeeds { IsOk result ↔ IsSomeAnd (⟦<FixedRandom<'a> as RandomSource>⟧.random_ahead
            self.old.random) (λ xs. length buf.old ≤ length xs) }
        ensures unchanged { OnErr result (⟦<FixedRandom<'a> as RandomSource>⟧.random_ahead self.new.random
            ≡ ⟦<FixedRandom<'a> as RandomSource>⟧.random_ahead self.old.random) }
        ensures fill { HasFilled ⟦<CountedRandom<'a> as RandomSource>⟧.random_ahead
            ⟦<CountedRandom<'a> as RandomSource>⟧.random_faults self.old self.new buf.new result }
        ensures counted { OnOk result (self.new.drawn ≡ min (self.old.drawn + length buf.old) (2 ^ 64 - 1)) }
        ensures not_counted { IfErr result (λ _. self.new.drawn ≡ self.old.drawn) }
    {
        match self.random.fill(buf) {
            Ok(()) => {
                self.drawn = self.drawn.saturating_add(buf.len() as u64);
                Ok(())
            }
            Err(fault) => Err(fault),
        }
    }
}

/// Parses random bytes: `c` and a decimal number for bytes that count up from this number and wrap
/// around after 255, or else `x` and the bytes in hexadecimal.
pub fn random_bytes(alloc: Global, word: &str) -> Result<Vec<u8>, Refusal> {
    match word.strip_prefix("c") {
        Some(first) => counted_bytes(alloc, number_of(first)?),
        None => bytes_of(alloc, word),
    }
}

// Returns bytes that count up from a first one and wrap around.
fn counted_bytes(alloc: Global, first: u8) -> Result<Vec<u8>, Refusal> {
    let mut bytes = Vec::new(alloc);
    let mut next = first;
    for _ in 0..COUNTED_BYTES {
        bytes.push(next)?;
        next = next.wrapping_add(1);
    }
    Ok(bytes)
}

/// Returns a prompt that reads these typed lines and stores its output.
pub fn typed_prompt(alloc: Global, typed: &[u8]) -> Prompt<SliceSource<'_>, VecSink> {
    Prompt::new(SliceSource::new(typed), VecSink::new(alloc))
}
