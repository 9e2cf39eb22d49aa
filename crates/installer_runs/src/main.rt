//! Makes sequences of calls of `Installation`, for tests. Each line of standard input describes one sequence:
//!
//!     NAME;OPTIONS;RECORD;COMMENT;CALLS
//!
//! The program makes the calls in CALLS, until one is not due. Then it prints NAME, the operation
//! that is due and the error number of the run. If there is a question for Ed25519, or a new
//! record, it prints these too.
//!
//! OPTIONS is a string of these letters:
//!
//! - `F`: `--first`, `A`: `--again`, `C`: `--check`
//! - `X`: `--must-expire`, `K`: `--new-key`, `B`: `--roll-back`
//! - `T`: the version number is in the field `timestamp:`, otherwise it is in `version:`
//! - `1`: the same key is passed twice
//! - `2`: the second key has the key ID of the signature
//! - `o`: the first key does not have the key ID of the signature
//! - `l`: the signature is a legacy one
//! - `s`: the comment signature has 63 bytes and not 64
//! - `-`: the time is before 1970, otherwise it is 100
//! - `L`: the signature is that of a list
//! - `5`: 128 digits in a list are SHA-512, otherwise they are malformed
//!
//! RECORD is `own`, a record of version 2 that names the first key; `other`, one that names a key that is not
//! passed; `old`, version 2 in the format of minisign-install 0.2; or else the record itself.
//!
//! COMMENT is the trusted comment. CALLS are the names that the functions `call` and `list` list, separated
//! by spaces. The installed file and the data consist of pieces of the bytes `piece`.

#![tactic(auto)]

use minisign_base::NamedFault;
use minisign_external::numbers::{ANSWER_NO, ANSWER_YES};
use minisign_external::public_keys::PublicKeyValue;
use minisign_external::state::Refusal;
use minisign_install::InstallFault;
use minisign_install::installation::{Choices, Installation};
use std::alloc::{AllocError, Global};
use std::io::{self, BufRead, BufReader, BufWriter, Write};
use std::process::ExitCode;

// A record of version 2 that names the first key.
const RECORD_OF_FIRST_KEY: &str =
    "version:2\n0000000000000000000000000000000000000000000000000000000000000001\n22222222222222222222222222222222222222222222222222222222222222222222222222222222222222222222222222222222222222222222222222222222";

// A record of version 2 that names a key that is not passed.
const RECORD_OF_UNKNOWN_KEY: &str =
    "version:2\n9999999999999999999999999999999999999999999999999999999999999999\n22222222222222222222222222222222222222222222222222222222222222222222222222222222222222222222222222222222222222222222222222222222";

// The signature lines of a prehashed and of a legacy signature.
const PREHASHED: &str =
    "RUQBAgMEBQYHCAUFBQUFBQUFBQUFBQUFBQUFBQUFBQUFBQUFBQUFBQUFBQUFBQUFBQUFBQUFBQUFBQUFBQUFBQUFBQUFBQUFBQU=";

const LEGACY: &str =
    "RWQBAgMEBQYHCAUFBQUFBQUFBQUFBQUFBQUFBQUFBQUFBQUFBQUFBQUFBQUFBQUFBQUFBQUFBQUFBQUFBQUFBQUFBQUFBQUFBQU=";

// A comment signature of 64 bytes, and one of 63.
const COMMENT_SIGNATURE: &str =
    "BgYGBgYGBgYGBgYGBgYGBgYGBgYGBgYGBgYGBgYGBgYGBgYGBgYGBgYGBgYGBgYGBgYGBgYGBgYGBgYGBgYGBg==";

const SHORT_COMMENT_SIGNATURE: &str =
    "BgYGBgYGBgYGBgYGBgYGBgYGBgYGBgYGBgYGBgYGBgYGBgYGBgYGBgYGBgYGBgYGBgYGBgYGBgYGBgYGBgYG";

fn main(rt: HostRuntime) -> io::Result<ExitCode> {
    let mut out = BufWriter::new(rt.alloc(), io::writer(&rt))?;
    for line in BufReader::new(rt.alloc(), rt.reader())?.lines(rt.alloc()) {
        let line = line?;
        write_run(rt.alloc(), line.as_str(), &mut out)?;
    }
    out.flush()?;
    Ok(ExitCode::SUCCESS)
}

// Returns the field with this index, or an empty text if the line has fewer fields.
fn field(line: &str, index: usize) -> &str {
    match line.split(';').nth(index) {
        Some(field) => field,
        None => "",
    }
}

// Returns 1 if the option is given, otherwise 0.
fn has(options: &str, option: char) -> u32 {
    if options.contains(option) { 1 } else { 0 }
}

fn choices(options: &str) -> Choices {
    Choices {
        numbering: 1 - has(options, 'T').min(1),
        is_first: has(options, 'F'),
        again: has(options, 'A'),
        is_check: has(options, 'C'),
        must_expire: has(options, 'X'),
        new_key: has(options, 'K'),
        roll_back: has(options, 'B'),
        is_list: has(options, 'L'),
        long_digest: 2 * has(options, '5').min(1),
    }
}

// Returns the two keys that are passed to the installation.
fn keys(options: &str) -> (PublicKeyValue, PublicKeyValue) {
    let id = [1, 2, 3, 4, 5, 6, 7, 8];
    let mut bytes = [0u8; 32];
    bytes[31] = 1;
    let key = PublicKeyValue {
        mark: 0,
        key: bytes,
        key_id: if has(options, 'o') == 1 { [7; 8] } else { id },
    };
    let other = PublicKeyValue {
        mark: 0,
        key: [17; 32],
        key_id: if has(options, '2') == 1 { id } else { [9; 8] },
    };
    if has(options, '1') == 1 {
        (key, key)
    } else {
        (key, other)
    }
}

// Returns the list that the call with this name passes.
fn list(name: &str) -> &str {
    match name {
        "list" => "34235a2c502e3919d3f00af5dabb87cb58aef4566b10631f2a5db94950ebffbd  app\n",
        "list_of_pieces" =>
            "2da140dfddd31db670fe68f4cbd2b03c61953a3a0317c47e22077d91d467d55ce9fb31d980580050e4ec322a74d76005e2cf1ae5ed66803d371a0c640cca8989  app\n",
        "list_with_blake2b" =>
            "BLAKE2b (app) = 94d4852f927363b8e8c9456298e41ee95783e0b650c2e138c126d7d3c285abbcf75cf8292d7971c620979747a821e74162572661b244cea818fcfc3f816a0715\n",
        "list_of_other_data" =>
            "d9298a10d1b0735837dc4bd85dac641b0f3cef27a47e5d53a54f2f3f5b2fcffa  app\n",
        "list_of_other_file" =>
            "34235a2c502e3919d3f00af5dabb87cb58aef4566b10631f2a5db94950ebffbd  tool\n",
        "list_with_two_entries" =>
            "# two entries\n34235a2c502e3919d3f00af5dabb87cb58aef4566b10631f2a5db94950ebffbd  app\n34235a2c502e3919d3f00af5dabb87cb58aef4566b10631f2a5db94950ebffbd *app\n",
        "list_with_malformed_line" =>
            "34235a2c502e3919d3f00af5dabb87cb58aef4566b10631f2a5db94950ebffbd  app\napp\n",
        _ => "",
    }
}

fn record(name: &str) -> &str {
    match name {
        "own" => RECORD_OF_FIRST_KEY,
        "other" => RECORD_OF_UNKNOWN_KEY,
        "old" => "2\n",
        _ => name,
    }
}

fn signature_file(alloc: Global, options: &str, comment: &str) -> Result<String, AllocError> {
    let first = if has(options, 'l') == 1 {
        LEGACY
    } else {
        PREHASHED
    };
    let second = if has(options, 's') == 1 {
        SHORT_COMMENT_SIGNATURE
    } else {
        COMMENT_SIGNATURE
    };
    format!(in alloc; "untrusted comment: u\n{first}\ntrusted comment: {comment}\n{second}\n")
}

// Returns true unless the call failed with API misuse.
fn was_due<T: Drop>(result_of_call: Result<T, Refusal<InstallFault>>) -> bool {
    !matches!(result_of_call, Err(Refusal::WrongUse(_)))
}

// Makes the call with this name. Returns false if it is not due or no call has this name. `text` is the
// signature file.
fn call(installation: &mut Installation, name: &str, line: &str, text: &str) -> bool {
    let time = if has(field(line, 1), '-') == 1 {
        None
    } else {
        Some(100)
    };
    let mut message = [0u8; 500];
    match name {
        "done" => was_due(installation.done()),
        "record" => was_due(installation.record(record(field(line, 2)).as_bytes())),
        "no_record" => was_due(installation.no_record()),
        "signature" => was_due(installation.signature(text.as_bytes(), b"app", time, &mut message)),
        "accepted" => installation.question().is_some() && was_due(installation.answer(ANSWER_YES)),
        "refused" => installation.question().is_some() && was_due(installation.answer(ANSWER_NO)),
        "no_target" => was_due(installation.no_target()),
        "piece" => was_due(installation.piece(b"piece")),
        "end" => was_due(installation.piece(b"")),
        "copied" => was_due(installation.copied(5)),
        "failed" => was_due(installation.failed(NamedFault::WritingFailed)),
        "in_use" => was_due(installation.in_use()),
        "pieces" => report_pieces(installation),
        _ => {
            !list(name).is_empty() && was_due(installation.list(list(name).as_bytes(), b"./app"))
        }
    }
}

// Reports 40 pieces. Returns false if they are not due.
fn report_pieces(installation: &mut Installation) -> bool {
    'pieces: for _ in 0..40 {
        if !was_due(installation.piece(b"piece")) {
            return false;
        }
    }
    true
}

// Makes the calls of a run until one is not due, and writes the state of the installation.
fn write_run<W: Write>(alloc: Global, line: &str, out: &mut W) -> io::Result<()> {
    let (key, other) = keys(field(line, 1));
    let text = signature_file(alloc, field(line, 1), field(line, 3))?;
    let name = field(line, 0);
    let Ok(mut installation) = Installation::new(&key, &other, &choices(field(line, 1))) else {
        writeln!(out, "{name}: options that do not fit together")?;
        return Ok(());
    };
    for each in field(line, 4).split(' ') {
        if !call(&mut installation, each, line, text.as_str()) {
            writeln!(out, "{name}: {each} is not due at {:?}", installation.due())?;
            return Ok(());
        }
    }
    writeln!(
        out,
        "{name}: {:?} {}",
        installation.due(),
        installation.error()
    )?;
    if installation.line() > 0 {
        writeln!(out, "line {}", installation.line())?;
    }
    if let Some(asked) = installation.question() {
        let (key, digest) = (asked.key[31], asked.digest[0]);
        let (signature, comment) = (asked.signature[0], asked.is_comment);
        writeln!(
            out,
            "key {key} signature {signature} digest {digest} comment {comment}"
        )?;
    }
    let mut buffer = [0u8; 230];
    let len = installation.record_text(&mut buffer).min(230);
    let (written, _) = buffer.split_at(len);
    if let Ok(written) = str::from_utf8(written) {
        if len > 0 {
            writeln!(out, "{written}")?;
        }
    }
    Ok(())
}
