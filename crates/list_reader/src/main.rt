//! Looks up files in lists, for tests that compare this library with other programs. Reads requests
//! from standard input, one on each line, and prints one line with the answer to each:
//!
//!     LONG LIST NAME DATA
//!
//! Words after these four are ignored.
//!
//! LONG says how to read a digest of 128 digits on a line that does not name its hash function: as
//! SHA-512 (`sha512`), as BLAKE2b (`blake2b`), or not at all, so that the line is malformed (`-`).
//! LIST, NAME and DATA are hexadecimal digits between brackets, so that no word is empty.
//!
//! The answer is `ok N` or `mismatch N` if line N of the list has the name, and the data has or does
//! not have the digest there. Otherwise it is `bad_name`, `malformed N`, `not_listed`, `twice N` or
//! `not_utf8`, where N is the number of the line at fault. The program stops with exit status 3 if a
//! request is malformed or there is not enough memory.

#![tactic(auto)]

use hex::FromHexError;
use minisign_lists::{ListFault, LongDigest, find_listed};
use std::alloc::Global;
use std::io::{self, BufRead, BufReader, BufWriter, Write};
use std::process::ExitCode;

// The answer to a request, or the reason why there is no answer.
#[derive(Drop)]
enum Answer {
    Listed(u64),
    Mismatch(u64),
    Rejected(ListFault),
    NotUtf8,
    BadRequest,
    OutOfMemory,
}

fn main(rt: HostRuntime) -> io::Result<ExitCode> {
    let mut answers = BufWriter::new(rt.alloc(), io::writer(&rt))?;
    for line in BufReader::new(rt.alloc(), rt.reader())?.lines(rt.alloc()) {
        let line = line?;
        if !write_answer(&answer_to(rt.alloc(), line.as_str()), &mut answers)? {
            answers.flush()?;
            return Ok(ExitCode::from(3));
        }
    }
    answers.flush()?;
    Ok(ExitCode::SUCCESS)
}

// Writes an answer. Returns false if there is no answer.
fn write_answer<W: Write>(answer: &Answer, answers: &mut W) -> io::Result<bool> {
    match answer {
        Answer::Listed(line) => writeln!(answers, "ok {line}")?,
        Answer::Mismatch(line) => writeln!(answers, "mismatch {line}")?,
        Answer::Rejected(fault) => match fault {
            ListFault::BadName => writeln!(answers, "bad_name")?,
            ListFault::MalformedLine { line } => writeln!(answers, "malformed {line}")?,
            ListFault::NotListed => writeln!(answers, "not_listed")?,
            ListFault::ListedTwice { line } => writeln!(answers, "twice {line}")?,
            _ => return Ok(false),
        },
        Answer::NotUtf8 => writeln!(answers, "not_utf8")?,
        _ => return Ok(false),
    }
    Ok(true)
}

// Returns the word with this index, or an empty word.
fn word(line: &str, index: usize) -> &str {
    match line.split(' ').nth(index) {
        Some(word) => word,
        None => "",
    }
}

// Decodes the hexadecimal digits between the brackets of a word.
fn bytes_of(alloc: Global, word: &str) -> Result<Vec<u8>, Answer> {
    let Some(rest) = word.strip_prefix("[") else {
        return Err(Answer::BadRequest);
    };
    let Some(digits) = rest.strip_suffix("]") else {
        return Err(Answer::BadRequest);
    };
    match hex::decode(alloc, digits) {
        Ok(bytes) => Ok(bytes),
        Err(FromHexError::OutOfMemory) => Err(Answer::OutOfMemory),
        Err(_) => Err(Answer::BadRequest),
    }
}

// Returns the answer to the request in this line.
fn answer_to(alloc: Global, line: &str) -> Answer {
    let long = match word(line, 0) {
        "-" => LongDigest::Rejected,
        "sha512" => LongDigest::Sha512,
        "blake2b" => LongDigest::Blake2b,
        _ => return Answer::BadRequest,
    };
    match looked_up(alloc, long, line) {
        Ok(answer) => answer,
        Err(answer) => answer,
    }
}

// Decodes the other words of the request, looks up its name in its list, and compares its data with
// the digest there.
fn looked_up(alloc: Global, long: LongDigest, line: &str) -> Result<Answer, Answer> {
    let list = bytes_of(alloc, word(line, 1))?;
    let name = bytes_of(alloc, word(line, 2))?;
    let message = bytes_of(alloc, word(line, 3))?;
    let (Ok(list), Ok(name)) = (str::from_utf8(&list), str::from_utf8(&name)) else {
        return Ok(Answer::NotUtf8);
    };
    Ok(match find_listed(long, list, name) {
        Ok(entry) => {
            let line = entry.line;
            if entry.digest.matches(&message) {
                Answer::Listed(line)
            } else {
                Answer::Mismatch(line)
            }
        }
        Err(fault) => Answer::Rejected(fault),
    })
}
