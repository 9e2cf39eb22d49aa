//! Compares the results of calls with expected outcomes, bytes and texts.

use minisign_base::errors::Result;
use minisign_base::faults::NamedFault;
use std::alloc::Global;
use std::fmt;
use std::fmt::Write;

/// The outcome of a call: success, without the value, or the error.
#[derive(Clone, Copy, Debug, PartialEq, Eq)]
pub enum Outcome {
    /// The call succeeds.
    Accepted,
    /// The call returns this error.
    Refused(NamedFault),
}

/// Returns true if the result has this outcome: any value for `Accepted`, or exactly this error,
/// including its key IDs. An error that a caller made from a kind and a text never matches.
pub fn matches_outcome<T>(answer: &Result<T>, expected: Outcome) -> bool {
    match answer {
        Ok(_) => expected == Outcome::Accepted,
        Err(fault) => match fault.named() {
            Some(named) => expected == Outcome::Refused(named),
            None => false,
        },
    }
}

/// Returns true if the result has this outcome, as `matches_outcome` does, and drops the result.
pub fn is_outcome<T: Drop>(answer: Result<T>, expected: Outcome) -> bool {
    matches_outcome(&answer, expected)
}

/// Returns the result of a check, or false if the check returned an error.
pub fn check_holds(answer: Result<bool>) -> bool {
    match answer {
        Ok(right) => right,
        Err(_) => false,
    }
}

fn is_right_or_out_of_memory(answer: &Result<bool>) -> bool {
    match answer {
        Ok(right) => *right,
        Err(fault) => fault.named() == Some(NamedFault::OutOfMemory),
    }
}

/// Returns the result of a check. If it returned an error, returns true if the error is out of
/// memory.
pub fn check_holds_or_out_of_memory(answer: Result<bool>) -> bool {
    is_right_or_out_of_memory(&answer)
}

/// As `check_holds_or_out_of_memory`, but also returns true for `WritingFailed`, which a sink returns if
/// it cannot grow.
pub fn check_holds_or_unwritten(answer: Result<bool>) -> bool {
    is_right_or_out_of_memory(&answer)
        || matches_outcome(&answer, Outcome::Refused(NamedFault::WritingFailed))
}

/// Returns true if the call returned these bytes.
pub fn gives_record(bytes: Result<Vec<u8>>, record: &[u8]) -> bool {
    match bytes {
        Ok(bytes) => bytes.as_slice() == record,
        Err(_) => false,
    }
}

/// Returns true if the call returned this text.
pub fn gives_text(shown: Result<String>, text: &str) -> bool {
    match shown {
        Ok(shown) => shown.as_str() == text,
        Err(_) => false,
    }
}

/// Returns the bytes in lowercase hexadecimal, two digits each.
pub fn hexadecimal(alloc: Global, bytes: &[u8]) -> std::result::Result<String, fmt::Error> {
    let mut text = String::new(alloc);
    for byte in bytes {
        write!(text, "{byte:02x}")?;
    }
    Ok(text)
}

/// Returns the first `len` bytes, or all if there are fewer.
pub fn front(bytes: &[u8], len: usize) -> &[u8] {
    &bytes[..len.min(bytes.len())]
}

/// Returns 200 bytes: 0, 1, 2 and so on.
pub fn counted() -> [u8; 200] {
    let mut bytes = [0u8; 200];
    for i in 0..200 {
        bytes[i] = i as u8;
    }
    bytes
}
