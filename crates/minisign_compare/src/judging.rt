//! Answers requests that sign and verify.

use crate::devices::{CountedRandom, CountedSource, DataWord, random_bytes};
use crate::public_keys::{key_of, key_of_text};
use crate::refusals::Refusal;
use crate::replies::Reply;
use crate::requests::Request;
use crate::secret_keys;
use crate::signatures::{box_of, show_returned};
use crate::table::Table;
use crate::words::{flag_of, number_of, text_or_none_of, word};
use minisign::base::devices::sinks::VecSink;
use minisign::base::toy::{ToyScheme, Triple};
use minisign::{PublicKey, SecretKey, SignatureBox, sign, verify};
use std::alloc::Global;

/// Answers `sign`.
pub fn answer_sign(
    alloc: Global,
    table: &Table,
    line: &str,
    reply: &mut Reply,
) -> Result<(), Refusal> {
    let data = DataWord::read(alloc, word(line, 3))?;
    let random = random_bytes(alloc, word(line, 6))?;
    sign_with_comments(alloc, table, line, (&data, &random), reply)
}

// Parses the comments, and signs. `given` is the data and the random bytes.
fn sign_with_comments(
    alloc: Global,
    table: &Table,
    line: &str,
    given: (&DataWord, &[u8]),
    reply: &mut Reply,
) -> Result<(), Refusal> {
    let unix_time = number_of(word(line, 7))?;
    let trusted = text_or_none_of(alloc, word(line, 4))?;
    let untrusted = text_or_none_of(alloc, word(line, 5))?;
    let comments = (trusted.as_deref(), untrusted.as_deref());
    sign_with_keys(alloc, table, line, given, comments, unix_time, reply)
}

// Parses the keys, and signs. `comments` is the trusted comment and the untrusted one.
fn sign_with_keys(
    alloc: Global,
    table: &Table,
    line: &str,
    given: (&DataWord, &[u8]),
    comments: (Option<&str>, Option<&str>),
    unix_time: u64,
    reply: &mut Reply,
) -> Result<(), Refusal> {
    let sk = secret_keys::key_of(alloc, word(line, 2))?;
    let pk = key_or_none(alloc, word(line, 1))?;
    let triples = table.triples(alloc)?;
    let keys = (pk.as_ref(), &sk);
    sign_data(alloc, &triples, keys, given, comments, unix_time, reply);
    Ok(())
}

// Signs the data, and adds the fields of the result.
fn sign_data(
    alloc: Global,
    triples: &[Triple<'_>],
    keys: (Option<&PublicKey>, &SecretKey),
    (data, bytes): (&DataWord, &[u8]),
    comments: (Option<&str>, Option<&str>),
    unix_time: u64,
    reply: &mut Reply,
) {
    let mut source = data.source();
    let mut random = CountedRandom::new(bytes);
    let signed = call_sign(
        alloc,
        triples,
        keys,
        &mut source,
        comments,
        &mut random,
        unix_time,
    );
    reply.tail.number("drawn", random.drawn());
    show_reads(&source, reply);
    show_returned(alloc, signed, reply);
}

// Calls the library to sign.
fn call_sign(
    alloc: Global,
    triples: &[Triple<'_>],
    (pk, sk): (Option<&PublicKey>, &SecretKey),
    source: &mut CountedSource<'_>,
    (trusted_comment, untrusted_comment): (Option<&str>, Option<&str>),
    random: &mut CountedRandom<'_>,
    unix_time: u64,
) -> minisign::Result<SignatureBox> {
    sign(
        alloc,
        &ToyScheme::with_table(triples),
        pk,
        sk,
        source,
        trusted_comment,
        untrusted_comment,
        random,
        unix_time,
    )
}

/// Answers `verify` or `verify_texts`.
pub fn answer_verify(
    alloc: Global,
    table: &Table,
    request: &Request,
    line: &str,
    reply: &mut Reply,
) -> Result<(), Refusal> {
    let pk = match request {
        Request::VerifyTexts => key_of_text(alloc, word(line, 1))?,
        _ => key_of(alloc, word(line, 1))?,
    };
    let signature_box = box_of(alloc, word(line, 2))?;
    judge_box(alloc, table, (&pk, &signature_box), line, reply)
}

// Verifies a box with a public key and the other words of the request.
fn judge_box(
    alloc: Global,
    table: &Table,
    texts: (&PublicKey, &SignatureBox),
    line: &str,
    reply: &mut Reply,
) -> Result<(), Refusal> {
    let flags = flags_of(line)?;
    let data = DataWord::read(alloc, word(line, 3))?;
    let triples = table.triples(alloc)?;
    judge_data(alloc, &triples, texts, &data, flags, reply);
    Ok(())
}

// Parses the flags of a request: quiet, output, legacy.
fn flags_of(line: &str) -> Result<(bool, bool, bool), Refusal> {
    let quiet = flag_of(word(line, 4))?;
    let output = flag_of(word(line, 5))?;
    Ok((quiet, output, flag_of(word(line, 6))?))
}

// Verifies the data, and adds the fields of the result.
fn judge_data(
    alloc: Global,
    triples: &[Triple<'_>],
    texts: (&PublicKey, &SignatureBox),
    data: &DataWord,
    flags: (bool, bool, bool),
    reply: &mut Reply,
) {
    let mut source = data.source();
    let mut status = VecSink::new(alloc);
    let mut out = VecSink::new(alloc);
    let verdict = call_verify(
        alloc,
        triples,
        texts,
        &mut source,
        flags,
        &mut status,
        &mut out,
    );
    reply.stdout = out.into_vec();
    reply.stderr = status.into_vec();
    show_reads(&source, reply);
    if let Err(fault) = verdict {
        reply.keep(fault);
    }
}

// Calls the library to verify.
fn call_verify(
    alloc: Global,
    triples: &[Triple<'_>],
    (pk, signature_box): (&PublicKey, &SignatureBox),
    source: &mut CountedSource<'_>,
    (quiet, output, allow_legacy): (bool, bool, bool),
    status: &mut VecSink,
    out: &mut VecSink,
) -> minisign::Result<()> {
    verify(
        alloc,
        &ToyScheme::with_table(triples),
        pk,
        signature_box,
        source,
        quiet,
        output,
        allow_legacy,
        status,
        out,
    )
}

// Adds the fields about how the data was read.
fn show_reads(source: &CountedSource<'_>, reply: &mut Reply) {
    reply.tail.number("reads", source.reads());
    reply.tail.number("pos", source.place());
}

// Parses the record of a public key, or `-` for no key.
fn key_or_none(alloc: Global, word: &str) -> Result<Option<PublicKey>, Refusal> {
    if word == "-" {
        return Ok(None);
    }
    Ok(Some(key_of(alloc, word)?))
}
