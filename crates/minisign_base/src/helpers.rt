//! Integers as bytes, the scrypt parameters for a key's limits, password prompts, and the clock.

ghost use Rattle.std.specs.Prelude.{◌≡◌, ℕ, ◌+◌, ◌/◌, ◌%◌, ◌^◌, ◌<◌, ◌≤◌, ◌++◌, List, Ok, Err, IfOk, IfErr};
ghost use Rattle.std.specs.Prelude.{length, string_bytes, take, if◌then◌else◌, max, min, nat_lt};
ghost use Rattle.std.specs.Int.{from_le_bytes, to_le_bytes, w64};
ghost use Rattle.std.specs.Time.{system_time_nanos};
ghost use Rattle.minisign_base.specs.Fault.{Named};
ghost use Rattle.minisign_base.specs.declared.faults.NamedFault.TheVariants.{ClockIncorrect, OutOfMemory};
ghost use Rattle.minisign_base.specs.Limits.{IsCostLog2, cost_log2, limits, numbers};
ghost use Rattle.minisign_base.specs.DeviceCalls.{prompt_call};
ghost use Rattle.minisign_base.specs.Prompts.{ConversationEnds, asking_steps};
ghost use Rattle.minisign_base.specs.Passwords.{password_of};

use crate::devices::sinks::Sink;
use crate::devices::sources::Source;
use crate::errors::Result;
use crate::faults::NamedFault;
use crate::prompt::{LINE_BYTES, Prompt};
use minisign_kdf::Params;
use std::alloc::Global;
use std::time::{Clock, SystemTime, UNIX_EPOCH};

// The block size r of every derivation.
const BLOCK_SIZE: u32 = 8;

/// Returns the eight bytes of a number, least significant first. Does not allocate.
pub fn store_u64_le(x: u64) -> [u8; 8]
    ensures { result ≡ to_le_bytes w64 x }
{
    x.to_le_bytes()
}

/// Returns the number in the first eight of at least eight bytes, least significant first. Does not
/// allocate.
pub fn load_u64_le(bytes: &[u8]) -> u64
    requires { 8 ≤ length bytes.now }
    ensures { result ≡ from_le_bytes w64 (take 8 bytes.now) }
{
    let (front, _) = bytes.split_at(8);
    let mut first = [0u8; 8];
    first.copy_from_slice(front);
    u64::from_le_bytes(first)
}

/// Concatenates four pieces at the start of `room` and returns the result. Does not allocate.
pub fn joined<'a>(
    room: &'a mut [u8],
    first: &[u8],
    second: &[u8],
    third: &[u8],
    fourth: &[u8],
) -> &'a [u8]
    requires { length first.now + length second.now + length third.now + length fourth.now ≤ length room.old }
    ensures { result.now ≡ first.now ++ (second.now ++ (third.now ++ fourth.now)) }
{
    let end = copy_at(room, 0, first);
    let end = copy_at(room, end, second);
    let end = copy_at(room, end, third);
    let end = copy_at(room, end, fourth);
    &room[..end]
}

// Copies `piece` to `room` from index `at` on, and returns the index after it.
fn copy_at(room: &mut [u8], at: usize, piece: &[u8]) -> usize
    requires { at + length piece.now ≤ length room.old }
    ensures end { result ≡ at + length piece.now }
    ensures len { length room.new ≡ length room.old }
    ensures bytes { take result room.new ≡ take at room.old ++ piece.now }
{
    let end = at + piece.len();
    room[at..end].copy_from_slice(piece);
    end
}

/// Asks for a password: writes the text, flushes it, and reads a line, byte by byte, up to a line feed or
/// the end of the input. The line feed and one carriage return before it are not part of the password. If
/// the password is empty, `<empty>` and a line feed are written and flushed.
///
/// One line is allocated first; if that fails, returns `OutOfMemory`, with nothing written or read. The
/// other errors come in this order: `WritingFailed` and `ReadingFailed` if a device fails, `EndOfInput` if
/// the input is empty, `PasswordTooLong` if 1026 bytes contain no line feed (no more are read), `NotUtf8`,
/// and `PasswordTooLong` for more than 1024 bytes.
pub fn get_password<R: Source, W: Sink>(
    alloc: Global,
    prompt: &mut Prompt<R, W>,
    text: &str,
) -> Result<String>
    // On success, the result is the password in the first line of the unread bytes, as `specs/Passwords`
    // defines it. The text was written and flushed, followed by `<empty>` and a line feed if the password is
    // empty. No more than the line was read, and no device failed.
    ensures asked { IfOk result (λ password. (bytes : List ℕ) × (password_of bytes
        ≡ Ok (string_bytes password)) × ConversationEnds (prompt_call R.Source W.Sink prompt.old prompt.new)
        (asking_steps text.now bytes) (Ok tt)) }

    // An error comes from the first of these steps that failed: an allocation, with nothing written or read;
    // writing the text, with nothing read; reading the line, after the text was flushed; checking that the
    // line is a password; or writing `<empty>` for an empty password.
    ensures refused { IfErr result (λ e. (bytes : List ℕ)
        × ConversationEnds (prompt_call R.Source W.Sink prompt.old prompt.new)
        (asking_steps text.now bytes) (Err e)) }
{
    let line = line_buffer(alloc)?;
    prompt.say(text)?;
    let password = prompt.read_password(line)?;
    prompt.mark_empty(&password)?;
    Ok(password)
}

// Allocates the buffer for a line.
fn line_buffer(alloc: Global) -> Result<Vec<u8>>
    ensures length { IfOk result (λ v. length v.items ≡ 1026) }
    ensures only_out_of_memory { IfErr result (λ e. e ≡ Named OutOfMemory) }
{
    Ok(vec![in alloc; 0u8; LINE_BYTES]?)
}

/// Returns the time in seconds since 1970, rounded down. Returns `ClockIncorrect` if the clock cannot be
/// read or is set before 1970. Does not allocate.
pub fn unix_timestamp(clock: &impl Clock) -> Result<u64>
    // The only error is `system clock is incorrect`. The contract does not say what the returned time is.
    ensures { IfErr result (λ e. e ≡ Named ClockIncorrect) }
{
    let Ok(now) = SystemTime::now(clock) else {
        return Err(NamedFault::ClockIncorrect.into());
    };
    seconds_since_1970(now)
}

// Returns the seconds from 1970 to `now`, rounded down.
fn seconds_since_1970(now: SystemTime) -> Result<u64>
    ensures { result ≡ Ok (system_time_nanos now / 1000000000) }
{
    match now.duration_since(UNIX_EPOCH) {
        Ok(passed) => Ok(passed.as_secs()),
        Err(_) => Err(NamedFault::ClockIncorrect.into()),
    }
}

/// Returns the scrypt parameters for a memory limit in bytes and an operations limit, as `specs/Limits`
/// defines them. r is 8, and an operations limit below 32768 is raised to 32768. If the operations limit is
/// below a 32nd of the memory limit, it bounds N, and p is 1. Otherwise the memory limit bounds N, and the
/// operations limit gives p.
///
/// Returns `ParametersTooHigh` exactly if N would be above 2^`n_log2_max`, and otherwise
/// `InvalidParameters` exactly if scrypt rejects the parameters (RFC 7914, section 2). Does not allocate.
#[tactic(auto, unfolding(crate::specs::Limits::numbers))]
pub fn raw_scrypt_params(memlimit: u64, opslimit: u64, n_log2_max: u8) -> Result<Params>
    // The result is what `specs/Limits` defines for these limits: the scrypt parameters, or the error for
    // limits that are too high or that scrypt rejects.
    ensures outcome { result ≡ limits (numbers memlimit opslimit) n_log2_max }

    // By its definition, N is the least power of two, from 2 on, that is above half of the greatest cost
    // within the limits, or 2^63 if there is none below.
    ensures least { IsCostLog2 (if nat_lt (max 32768 opslimit) (memlimit / 32) then max 32768 opslimit / 32
        else memlimit / 1024)
        (numbers memlimit opslimit).n_log2 }
{
    let operations = opslimit.max(32768);
    if operations < memlimit / 32 {
        return checked_params(cost_log2(operations / 32), 1, n_log2_max);
    }
    let n_log2 = cost_log2(memlimit / 1024);
    checked_params(n_log2, parallelization(operations, n_log2), n_log2_max)
}

// Returns the parameters with this cost and this parallelization, unless the cost is above the
// allowed one or scrypt rejects them.
#[tactic(auto, unfolding(crate::specs::Limits::limits))]
fn checked_params(n_log2: u8, p: u32, n_log2_max: u8) -> Result<Params>
    ensures { result ≡ limits (record { n_log2 = n_log2; r = 8; p = p }) n_log2_max }
{
    if n_log2 > n_log2_max {
        return Err(NamedFault::ParametersTooHigh.into());
    }
    Ok(Params::new(n_log2, BLOCK_SIZE, p)?)
}

// Returns the least n of at least 1 with 2^n above half of the greatest cost. The definition caps n
// at 63, which is never reached, because the greatest cost is always below 2^59.
fn cost_log2(greatest: u64) -> u8
    requires { greatest < 2 ^ 59 }
    ensures least { IsCostLog2 greatest result }
    ensures value { result ≡ cost_log2 greatest }
{
    let half = (greatest / 2).max(1);
    half.ilog2() as u8 + 1
}

// Returns p for the case that the memory limit bounds N. The quotient is reduced modulo 2^32 before
// it is limited.
fn parallelization(operations: u64, n_log2: u8) -> u32
    requires n_log2 { n_log2 < 64 }
    ensures { result ≡ min 0x3fffffff (operations / 4 / 2 ^ n_log2 % 2 ^ 32) / 8 }
{
    let quotient = (operations / 4) >> n_log2;
    let low = (quotient & 0xffff_ffff) as u32;
    low.min(0x3fff_ffff) / BLOCK_SIZE
}
