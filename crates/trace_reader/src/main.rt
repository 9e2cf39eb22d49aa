//! Decides, for tests, whether recorded runs of an installer are lawful: the application performs the
//! operation that is due and reports what happened, and only other processes change the files otherwise.
//!
//! Reads one run from each line of standard input, and prints one line for each run: `lawful`; or the index,
//! from 0 on, of the first item that a lawful application or another process cannot have caused; or
//! `malformed` if the line cannot be parsed. The exit status is 3 if there is not enough memory.
//!
//! The words on a line are separated by single spaces. Bytes are hexadecimal digits between brackets. `-`
//! stands for a file that does not exist. A line begins with these words:
//!
//!     OPTIONS KEY KEY NAME SIGNATURE DATA MAX-SIZE RECORD-READ TARGET-INODE TARGET RECORD-INODE RECORD
//!
//! - OPTIONS are the letters of the options, or `-`: F `--first`, A `--again`, C `--check`, X
//!   `--must-expire`, K `--new-key`, B `--roll-back`, and T if the version is the field `timestamp:`. The
//!   signature is always that of the data, and not that of a list.
//! - KEY is a key ID and a public key. NAME is the file name that the trusted comment has to contain.
//! - SIGNATURE is the content of the signature file, and DATA is the update.
//! - MAX-SIZE is the maximum size that the installed file ever has.
//! - RECORD-READ is the content of the record that the run reads.
//! - TARGET and RECORD are the installed file and the record at the beginning. Files with the same INODE
//!   number are the same file.
//!
//! Any number of items follow, each in one of these forms:
//!
//!     signed MESSAGE KEY SIGNATURE
//!     target INODE BYTES
//!     record INODE BYTES
//!     busy 0|1 -
//!     call REPORT BYTES NUMBER EFFECT INODE BYTES
//!
//! `signed` lists a signature that Ed25519 accepts. `target`, `record` and `busy` are changes by another
//! process: it replaces a file, or takes or releases the lock. In a `call`, REPORT is the event that the
//! application reports to the installer, with its bytes and its number. EFFECT is the effect of the operation
//! on the files, with the file and its bytes. The functions `report` and `effect` below list their names.

#![tactic(auto)]

use hex::FromHexError;
use minisign_base::NamedFault;
use minisign_external::public_keys::PublicKeyValue;
use minisign_install::installation::Choices;
use minisign_install::traces::{
    Change, Effect, FileView, Files, Line, Report, RunInputs, Signed, first_unlawful_line,
};
use std::alloc::{AllocError, AllocFailed, Global};
use std::io::{self, BufRead, BufReader, BufWriter, Write};
use std::process::ExitCode;

// The reason why there is no decision.
#[derive(Drop)]
enum Failure {
    Malformed,
    OutOfMemory,
}

// The words of a line, and the bytes that they encode.
#[derive(Clone, Copy)]
struct Words<'a> {
    words: &'a [&'a str],
    bytes: &'a [Vec<u8>],
}

fn main(rt: HostRuntime) -> io::Result<ExitCode> {
    let mut out = BufWriter::new(rt.alloc(), io::writer(&rt))?;
    for line in BufReader::new(rt.alloc(), rt.reader())?.lines(rt.alloc()) {
        let line = line?;
        match decide(rt.alloc(), line.as_str()) {
            Ok(Some(at)) => writeln!(out, "{at}")?,
            Ok(None) => writeln!(out, "lawful")?,
            Err(Failure::Malformed) => writeln!(out, "malformed")?,
            Err(Failure::OutOfMemory) => {
                out.flush()?;
                return Ok(ExitCode::from(3));
            }
        }
    }
    out.flush()?;
    Ok(ExitCode::SUCCESS)
}

// Decodes a word. A word without brackets encodes no bytes.
fn bytes_of(alloc: Global, word: &str) -> Result<Vec<u8>, Failure> {
    let Some(rest) = word.strip_prefix("[") else {
        return Ok(Vec::new(alloc));
    };
    let Some(digits) = rest.strip_suffix("]") else {
        return Err(Failure::Malformed);
    };
    match hex::decode(alloc, digits) {
        Ok(bytes) => Ok(bytes),
        Err(FromHexError::OutOfMemory) => Err(Failure::OutOfMemory),
        Err(_) => Err(Failure::Malformed),
    }
}

impl<'a> Words<'a> {
    // Returns a word, or the empty word after the last one.
    fn word(&self, at: usize) -> &'a str {
        match self.words.get(at) {
            Some(word) => *word,
            None => "",
        }
    }

    fn bytes(&self, at: usize) -> &'a [u8] {
        match self.bytes.get(at) {
            Some(bytes) => bytes.as_slice(),
            None => &[],
        }
    }

    // Returns a word as a number, or 0 if it is not a number.
    fn number(&self, at: usize) -> u64 {
        match self.word(at).parse::<u64>() {
            Ok(number) => number,
            Err(_) => 0,
        }
    }

    // Returns the bytes of a word, or `None` for `-`.
    fn optional(&self, at: usize) -> Option<&'a [u8]> {
        if self.word(at) == "-" {
            None
        } else {
            Some(self.bytes(at))
        }
    }

    // Returns a file that is written as a number and bytes, or `None` for `-`.
    fn file(&self, at: usize) -> Option<FileView<'a>> {
        if self.word(at) == "-" {
            None
        } else {
            Some(FileView {
                number: self.number(at),
                bytes: self.bytes(at.saturating_add(1)),
            })
        }
    }

    fn has_option(&self, option: char) -> bool {
        self.word(0).contains(option)
    }

    fn choices(&self) -> Choices {
        Choices {
            numbering: if self.has_option('T') { 0 } else { 1 },
            is_first: self.has_option('F') as u32,
            again: self.has_option('A') as u32,
            is_check: self.has_option('C') as u32,
            must_expire: self.has_option('X') as u32,
            new_key: self.has_option('K') as u32,
            roll_back: self.has_option('B') as u32,
            is_list: 0,
            long_digest: 0,
        }
    }

    // Returns a key ID with its key, or zeros if the word does not have 40 bytes.
    fn key(&self, at: usize) -> PublicKeyValue {
        let bytes = self.bytes(at);
        let mut key_id = [0u8; 8];
        let mut key = [0u8; 32];
        if bytes.len() == 40 {
            let (front, back) = bytes.split_at(8);
            key_id.copy_from_slice(front);
            key.copy_from_slice(back);
        }
        PublicKeyValue {
            mark: 0,
            key,
            key_id,
        }
    }

    // Returns a signature that Ed25519 accepts. If a length is wrong, the key and the signature are zeros.
    fn signed(&self, at: usize) -> Signed<'a> {
        let mut key = [0u8; 32];
        let mut signature = [0u8; 64];
        let key_bytes = self.bytes(at.saturating_add(2));
        let signature_bytes = self.bytes(at.saturating_add(3));
        if key_bytes.len() == 32 && signature_bytes.len() == 64 {
            key.copy_from_slice(key_bytes);
            signature.copy_from_slice(signature_bytes);
        }
        Signed {
            message: self.bytes(at.saturating_add(1)),
            key,
            signature,
        }
    }

    fn report(&self, at: usize) -> Option<Report<'a>> {
        let bytes = self.bytes(at.saturating_add(1));
        let number = at.saturating_add(2);
        Some(match self.word(at) {
            "done" => Report::Done,
            "in_use" => Report::InUse,
            "failed" => Report::Failed(NamedFault::WritingFailed),
            "record" => Report::Recorded(self.optional(at.saturating_add(1))),
            "signature" if self.word(number) == "-" => Report::Signature(bytes, None),
            "signature" => Report::Signature(bytes, Some(self.number(number))),
            "accepted" => Report::Answered(true),
            "refused" => Report::Answered(false),
            "no_target" => Report::NoTarget,
            "piece" => Report::Piece(bytes),
            "copied" => Report::Copied(self.number(number)),
            _ => return None,
        })
    }

    fn effect(&self, at: usize) -> Option<Effect<'a>> {
        let number = self.number(at.saturating_add(1));
        let bytes = self.bytes(at.saturating_add(2));
        Some(match self.word(at) {
            "-" => Effect::Nothing,
            "locked" => Effect::Locked,
            "target_opened" => Effect::TargetOpened(number),
            "target_synced" => Effect::TargetSynced,
            "names_synced" => Effect::NamesSynced,
            "leftovers_removed" => Effect::LeftoversRemoved,
            "data_created" => Effect::DataCreated(number),
            "data_grown" => Effect::DataGrown(bytes),
            "data_permitted" => Effect::DataPermitted,
            "data_synced" => Effect::DataSynced,
            "data_renamed" => Effect::DataRenamed,
            "record_created" => Effect::RecordCreated(number),
            "record_written" => Effect::RecordWritten(bytes),
            "record_synced" => Effect::RecordSynced,
            "record_renamed" => Effect::RecordRenamed,
            "files_removed" => Effect::FilesRemoved,
            _ => return None,
        })
    }

    // Returns the item that begins at a word, as a line of the trace.
    fn item(&self, at: usize) -> Option<Line<'a>> {
        let next = at.saturating_add(1);
        match self.word(at) {
            "target" => Some(Line::Others(Change::Target(self.file(next)))),
            "record" => Some(Line::Others(Change::Recorded(self.file(next)))),
            "busy" => Some(Line::Others(Change::Busy(self.word(next) == "1"))),
            "call" => match (self.report(next), self.effect(at.saturating_add(4))) {
                (Some(report), Some(effect)) => Some(Line::Call(report, effect)),
                _ => None,
            },
            _ => None,
        }
    }
}

impl From<AllocError> for Failure {
    fn from(_error: AllocError) -> Failure {
        Failure::OutOfMemory
    }
}

impl<T: Drop> From<AllocFailed<T>> for Failure {
    fn from(_error: AllocFailed<T>) -> Failure {
        Failure::OutOfMemory
    }
}

// Returns the bytes of each word.
fn all_bytes(alloc: Global, words: &[&str]) -> Result<Vec<Vec<u8>>, Failure> {
    let mut all = Vec::new(alloc);
    for word in words {
        all.push(bytes_of(alloc, word)?)?;
    }
    Ok(all)
}

// Returns the signatures that Ed25519 accepts, and the other items as lines of a trace.
fn items<'a>(alloc: Global, words: Words<'a>) -> Result<(Vec<Signed<'a>>, Vec<Line<'a>>), Failure> {
    let mut signed = Vec::new(alloc);
    let mut lines = Vec::new(alloc);
    let mut at = 12;
    while at < words.words.len() {
        if words.word(at) == "signed" {
            signed.push(words.signed(at))?;
            at += 4;
        } else {
            let Some(line) = words.item(at) else {
                return Err(Failure::Malformed);
            };
            lines.push(line)?;
            at += if words.word(at) == "call" { 7 } else { 3 };
        }
    }
    Ok((signed, lines))
}

// Parses a run, and returns the index of its first unlawful item, or `None` if the run is lawful.
fn decide(alloc: Global, line: &str) -> Result<Option<usize>, Failure> {
    let words: Vec<&str> = line.split(' ').collect(alloc)?;
    let bytes = all_bytes(alloc, &words)?;
    let words = Words {
        words: &words,
        bytes: &bytes,
    };
    let (signed, lines) = items(alloc, words)?;
    let initial_files = Files {
        target: words.file(8),
        recorded: words.file(10),
        data_file: None,
        record_file: None,
        is_locked: false,
        is_busy: false,
    };
    let inputs = RunInputs {
        signed: &signed,
        recorded: words.optional(7),
        sig_text: words.bytes(4),
        update: words.bytes(5),
        max_size: words.number(6) as usize,
    };
    let mut message = vec![in alloc; 0u8; words.bytes(4).len()]?;
    Ok(first_unlawful_line(
        &words.key(1),
        &words.key(2),
        &words.choices(),
        words.bytes(3),
        &initial_files,
        &inputs,
        &mut message,
        &lines,
    ))
}
