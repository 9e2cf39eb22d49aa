//! Parses the words of a request, which are separated by single spaces: bytes, texts, numbers and
//! flags.

ghost use Rattle.std.specs.Prelude.{◌≡◌, ℕ, List, ◌++◌, Ok, IfOk, codes, string_bytes};
ghost use Rattle.hex.specs.Hex.{decode_of};

use crate::refusals::Refusal;
use hex::FromHexError;
use minisign::base::NamedFault;
use std::alloc::Global;
use std::str::FromStr;

/// Returns the word at this position. The request's name is at position 0.
pub fn word(line: &str, number: usize) -> &str {
    match line.split(' ').nth(number) {
        Some(word) => word,
        None => "",
    }
}

/// Returns the number of times that a byte occurs.
pub fn times_in(bytes: &[u8], byte_sought: u8) -> u64 {
    let mut times = 0u64;
    for byte in bytes {
        if *byte == byte_sought {
            times = times.saturating_add(1);
        }
    }
    times
}

/// Parses bytes: `x` and two hexadecimal digits for each byte.
pub fn bytes_of(alloc: Global, word: &str) -> Result<Vec<u8>, Refusal>
    ensures { IfOk result (λ v. (digits : List ℕ) × (word.now ≡ codes "x" ++ digits)
        × (decode_of digits ≡ Ok v.items)) }
{
    let Some(digits) = word.strip_prefix("x") else {
        return Err(Refusal::BadRequest);
    };
    match hex::decode(alloc, digits) {
        Ok(bytes) => Ok(bytes),
        Err(FromHexError::OutOfMemory) => Err(Refusal::Fault(NamedFault::OutOfMemory.into())),
        Err(_) => Err(Refusal::BadRequest),
    }
}

/// Parses a text, which is written as the bytes of its UTF-8 encoding.
pub fn text_of(alloc: Global, word: &str) -> Result<String, Refusal>
    ensures { IfOk result (λ t. (digits : List ℕ) × (word.now ≡ codes "x" ++ digits)
        × (decode_of digits ≡ Ok (string_bytes t))) }
{
    match String::from_utf8(bytes_of(alloc, word)?) {
        Ok(text) => Ok(text),
        Err(_) => Err(Refusal::BadRequest),
    }
}

/// Returns the bytes as text if they are UTF-8.
pub fn text_in(bytes: &[u8]) -> Result<&str, Refusal>
    ensures { IfOk result (λ t. t.now ≡ bytes.now) }
{
    match str::from_utf8(bytes) {
        Ok(text) => Ok(text),
        Err(_) => Err(Refusal::BadRequest),
    }
}

/// Parses a text, or `-` for no text.
pub fn text_or_none_of(alloc: Global, word: &str) -> Result<Option<String>, Refusal> {
    match word {
        "-" => Ok(None),
        word => Ok(Some(text_of(alloc, word)?)),
    }
}

/// Parses typed lines: `-` for none, or texts separated by commas. Each line ends with a line feed.
pub fn typed_lines_of(alloc: Global, word: &str) -> Result<Vec<u8>, Refusal> {
    let mut typed = Vec::new(alloc);
    if word != "-" {
        for part in word.split(',') {
            type_line(alloc, part, &mut typed)?;
        }
    }
    Ok(typed)
}

// Appends one line and its line feed.
fn type_line(alloc: Global, word: &str, typed: &mut Vec<u8>) -> Result<(), Refusal> {
    let mut line = text_of(alloc, word)?;
    line.push_str("\n")?;
    typed.extend_from_slice(line.as_bytes())?;
    Ok(())
}

/// Parses a flag: 0 is false, and any other number below 256 is true.
pub fn flag_of(word: &str) -> Result<bool, Refusal> {
    Ok(number_of::<u8>(word)? != 0)
}

/// Parses a decimal number.
pub fn number_of<N: FromStr>(word: &str) -> Result<N, Refusal>
where
    N::Err: Drop,
{
    match word.parse::<N>() {
        Ok(number) => Ok(number),
        Err(_) => Err(Refusal::BadRequest),
    }
}
