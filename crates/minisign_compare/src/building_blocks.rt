//! Answers requests for hashes, derived keys, limits, numbers, the clock and typed passwords.

ghost use Rattle.std.specs.Prelude.{◌≡◌, ◌≤◌, ℕ, List, ◌++◌, false, OnOk, length};
ghost use Rattle.minisign_hash.specs.Fed.{IsFed, has_finalized, output_length};

use crate::devices::typed_prompt;
use crate::refusals::Refusal;
use crate::replies::{Fields, Reply};
use crate::requests::BlockRequest;
use crate::words::{bytes_of, number_of, typed_lines_of, word};
use minisign::base::devices::sinks::Sink;
use minisign::base::devices::sources::Source;
use minisign::base::helpers::{
    get_password, load_u64_le, raw_scrypt_params, store_u64_le, unix_timestamp,
};
use minisign::base::prompt::Prompt;
use minisign::hash::blake2b::Blake2b;
use minisign::hash::util::fixed_time_eq;
use minisign_kdf::{Params, scrypt};
use std::alloc::Global;
use std::io;
use std::time::{Clock, Duration};

/// Answers any request that is not about keys, signatures, pairs or a table.
pub fn answer(
    alloc: Global,
    request: &BlockRequest,
    line: &str,
    reply: &mut Reply,
) -> Result<(), Refusal> {
    match request {
        BlockRequest::Limits => answer_limits(line, reply),
        BlockRequest::Blake2b => answer_blake2b(alloc, line, reply),
        BlockRequest::Scrypt => answer_scrypt(alloc, line, reply),
        BlockRequest::Equal => answer_equal(alloc, line, reply),
        BlockRequest::Store => answer_store(line, reply),
        BlockRequest::Load => answer_load(alloc, line, reply),
        BlockRequest::Timestamp => answer_timestamp(line, reply),
        BlockRequest::Password => answer_password(alloc, line, reply),
    }
}

fn answer_limits(line: &str, reply: &mut Reply) -> Result<(), Refusal> {
    let memlimit = number_of(word(line, 1))?;
    let opslimit = number_of(word(line, 2))?;
    let n_log2_max = number_of(word(line, 3))?;
    show_params(raw_scrypt_params(memlimit, opslimit, n_log2_max), reply);
    Ok(())
}

// Adds the fields of scrypt parameters.
fn show_params(returned: minisign::Result<Params>, reply: &mut Reply) {
    match returned {
        Ok(params) => {
            reply.fields.number("n_log2", params.n_log2() as u64);
            reply.fields.number("r", params.r() as u64);
            reply.fields.number("p", params.p() as u64);
        }
        Err(fault) => reply.keep(fault),
    }
}

fn answer_blake2b(alloc: Global, line: &str, reply: &mut Reply) -> Result<(), Refusal> {
    let outlen = number_of(word(line, 1))?;
    let bytes = bytes_of(alloc, word(line, 3))?;
    if outlen == 0 || outlen > 64 {
        return Err(Refusal::OutsideConditions);
    }
    let mut room = [0u8; 64];
    show_digests(
        &mut room[..outlen],
        word(line, 2),
        &bytes,
        &mut reply.fields,
    )
}

// Adds the fields of a digest. The bytes are hashed in a single call, and then in pieces with a state that is
// finalized twice. The length of `room` is the length of the digest.
fn show_digests(
    room: &mut [u8],
    cuts: &str,
    bytes: &[u8],
    fields: &mut Fields,
) -> Result<(), Refusal>
    requires not_empty { 1 ≤ length room.old }
    requires fits { length room.old ≤ 64 }
{
    let mut state = Blake2b::new(room.len());
    feed(&mut state, cuts, bytes)?;
    Blake2b::blake2b(room, bytes);
    fields.bytes("whole", room);
    state.finalize(room);
    fields.bytes("pieces", room);
    state.finalize(room);
    fields.bytes("again", room);
    Ok(())
}

// Feeds all bytes to the state: in a single call if `cuts` is `-`, otherwise split at the positions in this
// comma-separated list.
fn feed(state: &mut Blake2b, cuts: &str, bytes: &[u8]) -> Result<(), Refusal>
    requires { has_finalized state.old ≡ false }
    ensures fed { OnOk result ((m : List ℕ) → IsFed state.old m → IsFed state.new (m ++ bytes.now)) }
    ensures length { OnOk result (output_length state.new ≡ output_length state.old) }
{
    let mut rest = bytes;
    if cuts != "-" {
        'pieces: for cut in cuts.split(',') {
            let place = number_of::<usize>(cut)?;
            let fed = bytes.len().saturating_sub(rest.len());
            let (piece, more) = rest.split_at(place.saturating_sub(fed).min(rest.len()));
            state.update(piece);
            rest = more;
        }
    }
    state.update(rest);
    Ok(())
}

fn answer_scrypt(alloc: Global, line: &str, reply: &mut Reply) -> Result<(), Refusal> {
    let password = bytes_of(alloc, word(line, 5))?;
    let salt = bytes_of(alloc, word(line, 6))?;
    answer_key(alloc, line, (&password, &salt), reply)
}

// Parses the parameters and the length of a derived key, and adds the key. `texts` are the password and the
// salt.
fn answer_key(
    alloc: Global,
    line: &str,
    texts: (&[u8], &[u8]),
    reply: &mut Reply,
) -> Result<(), Refusal> {
    let n_log2 = number_of(word(line, 1))?;
    let r = number_of(word(line, 2))?;
    let p = number_of(word(line, 3))?;
    let length = number_of(word(line, 4))?;
    reply.returned_bytes("out", derive_key(alloc, texts, (n_log2, r, p), length));
    Ok(())
}

// Derives a key of this length with these parameters.
fn derive_key(
    alloc: Global,
    (password, salt): (&[u8], &[u8]),
    (n_log2, r, p): (u8, u32, u32),
    length: usize,
) -> minisign::Result<Vec<u8>> {
    let params = Params::new(n_log2, r, p)?;
    let mut key = vec![in alloc; 0u8; length]?;
    scrypt(alloc, password, salt, &params, &mut key)?;
    Ok(key)
}

fn answer_equal(alloc: Global, line: &str, reply: &mut Reply) -> Result<(), Refusal> {
    let first = bytes_of(alloc, word(line, 1))?;
    let second = bytes_of(alloc, word(line, 2))?;
    reply.fields.flag("eq", fixed_time_eq(&first, &second));
    Ok(())
}

fn answer_store(line: &str, reply: &mut Reply) -> Result<(), Refusal> {
    let number = number_of(word(line, 1))?;
    reply.fields.bytes("out", &store_u64_le(number));
    Ok(())
}

fn answer_load(alloc: Global, line: &str, reply: &mut Reply) -> Result<(), Refusal> {
    let bytes = bytes_of(alloc, word(line, 1))?;
    if bytes.len() < 8 {
        return Err(Refusal::OutsideConditions);
    }
    reply.fields.number("out", load_u64_le(&bytes));
    Ok(())
}

// A clock that always shows the same time or, with `None`, cannot be read.
#[derive(Drop)]
struct FixedClock(Option<Duration>);

impl Clock for FixedClock {
    fn monotonic(&self) -> io::Result<Duration> {
        self.since_1970()
    }

    fn since_1970(&self) -> io::Result<Duration> {
        match self.0 {
            Some(unix_time) => Ok(unix_time),
            None => Err(io::Error::from(io::ErrorKind::Other)),
        }
    }
}

// Returns a clock that shows this number of seconds since 1970, or one that cannot be read if the
// word begins with `-`.
fn clock_of(word: &str) -> Result<FixedClock, Refusal> {
    if word.starts_with("-") {
        return Ok(FixedClock(None));
    }
    Ok(FixedClock(Some(Duration::new(number_of(word)?, 0))))
}

fn answer_timestamp(line: &str, reply: &mut Reply) -> Result<(), Refusal> {
    let clock = clock_of(word(line, 1))?;
    match unix_timestamp(&clock) {
        Ok(unix_time) => reply.fields.number("out", unix_time),
        Err(fault) => reply.keep(fault),
    }
    Ok(())
}

fn ask_password<R: Source, W: Sink>(
    alloc: Global,
    prompt: &mut Prompt<R, W>,
) -> minisign::Result<String> {
    get_password(alloc, prompt, "Password: ")
}

fn answer_password(alloc: Global, line: &str, reply: &mut Reply) -> Result<(), Refusal> {
    let typed = typed_lines_of(alloc, word(line, 1))?;
    let mut prompt = typed_prompt(alloc, &typed);
    let password = ask_password(alloc, &mut prompt);
    reply.end_prompt(alloc, prompt);
    reply.returned_text("out", password);
    Ok(())
}
