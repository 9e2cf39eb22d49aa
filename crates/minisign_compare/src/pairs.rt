//! Answers requests for key pairs.

use crate::devices::{CountedRandom, SinkWord, random_bytes, typed_prompt};
use crate::refusals::Refusal;
use crate::replies::Reply;
use crate::requests::PairRequest;
use crate::words::{text_or_none_of, typed_lines_of, word};
use minisign::KeyPair;
use minisign::base::devices::sinks::VecSink;
use minisign::base::devices::sources::SliceSource;
use minisign::base::prompt::Prompt;
use minisign::base::toy::ToyScheme;
use minisign_fixtures::devices::sinks::LimitedSink;
use std::alloc::Global;

// The devices of a call that generates a pair.
#[derive(Drop)]
struct Devices<'a> {
    random: CountedRandom<'a>,
    prompt: Prompt<SliceSource<'a>, VecSink>,
    pk_sink: LimitedSink,
    sk_sink: LimitedSink,
}

/// Answers a request whose name begins with `gen_`.
pub fn answer(
    alloc: Global,
    request: &PairRequest,
    line: &str,
    reply: &mut Reply,
) -> Result<(), Refusal> {
    let positions = word_positions(request);
    let pk_sink = SinkWord::read(word_or_dash(line, positions[0]))?;
    let sk_sink = SinkWord::read(word_or_dash(line, positions[1]))?;
    let random = random_bytes(alloc, word(line, 1))?;
    let typed = typed_lines_of(alloc, word_or_dash(line, positions[4]))?;
    let devices = Devices {
        random: CountedRandom::new(&random),
        prompt: typed_prompt(alloc, &typed),
        pk_sink: pk_sink.sink(alloc),
        sk_sink: sk_sink.sink(alloc),
    };
    answer_with_devices(alloc, request, line, devices, reply)
}

// Returns the positions of five words of a request: the two sinks, the comment, the password and the typed
// lines. The position is 0 if the request has no such word.
fn word_positions(request: &PairRequest) -> &'static [usize; 5] {
    match request {
        PairRequest::Plain => &[0, 0, 0, 0, 0],
        PairRequest::Sealed => &[0, 0, 0, 2, 3],
        PairRequest::WritePlain => &[2, 3, 0, 0, 0],
        PairRequest::WriteSealed => &[2, 3, 4, 5, 6],
    }
}

// Returns the word at this position, or `-` if the position is 0.
fn word_or_dash(line: &str, position: usize) -> &str {
    match position {
        0 => "-",
        position => word(line, position),
    }
}

// Parses the comment and the password, generates the pair with these devices, and adds the fields of the
// result.
fn answer_with_devices(
    alloc: Global,
    request: &PairRequest,
    line: &str,
    mut devices: Devices<'_>,
    reply: &mut Reply,
) -> Result<(), Refusal> {
    let positions = word_positions(request);
    let comment = text_or_none_of(alloc, word_or_dash(line, positions[2]))?;
    let password = text_or_none_of(alloc, word_or_dash(line, positions[3]))?;
    let pair = generate(alloc, request, &mut devices, comment.as_deref(), password);
    show_devices(alloc, request, devices, reply);
    show(alloc, pair, reply);
    Ok(())
}

// Calls the library to generate a pair.
fn generate(
    alloc: Global,
    request: &PairRequest,
    devices: &mut Devices<'_>,
    comment: Option<&str>,
    password: Option<String>,
) -> minisign::Result<KeyPair> {
    match request {
        PairRequest::Plain => generate_unencrypted(devices),
        PairRequest::Sealed => generate_encrypted(alloc, devices, password),
        PairRequest::WritePlain => write_unencrypted(alloc, devices),
        PairRequest::WriteSealed => write_encrypted(alloc, devices, comment, password),
    }
}

fn generate_unencrypted(devices: &mut Devices<'_>) -> minisign::Result<KeyPair> {
    KeyPair::generate_unencrypted_keypair(&ToyScheme::new(), &mut devices.random)
}

fn generate_encrypted(
    alloc: Global,
    devices: &mut Devices<'_>,
    password: Option<String>,
) -> minisign::Result<KeyPair> {
    KeyPair::generate_encrypted_keypair(
        alloc,
        &ToyScheme::new(),
        &mut devices.random,
        password,
        &mut devices.prompt,
    )
}

fn write_unencrypted(alloc: Global, devices: &mut Devices<'_>) -> minisign::Result<KeyPair> {
    KeyPair::generate_and_write_unencrypted_keypair(
        alloc,
        &ToyScheme::new(),
        &mut devices.random,
        &mut devices.pk_sink,
        &mut devices.sk_sink,
    )
}

fn write_encrypted(
    alloc: Global,
    devices: &mut Devices<'_>,
    comment: Option<&str>,
    password: Option<String>,
) -> minisign::Result<KeyPair> {
    KeyPair::generate_and_write_encrypted_keypair(
        alloc,
        &ToyScheme::new(),
        &mut devices.random,
        &mut devices.pk_sink,
        &mut devices.sk_sink,
        comment,
        password,
        &mut devices.prompt,
    )
}

// Adds the output of the prompt, the number of random bytes that were taken and, if the pair was
// written, the bytes that the two sinks received.
fn show_devices(alloc: Global, request: &PairRequest, devices: Devices<'_>, reply: &mut Reply) {
    reply.end_prompt(alloc, devices.prompt);
    reply.tail.number("drawn", devices.random.drawn());
    if let PairRequest::WritePlain | PairRequest::WriteSealed = request {
        reply.tail.bytes("sink1", devices.pk_sink.as_slice());
        reply.tail.bytes("sink2", devices.sk_sink.as_slice());
    }
}

// Adds the fields of the pair that a call returned, or stores its error.
fn show(alloc: Global, returned: minisign::Result<KeyPair>, reply: &mut Reply) {
    match returned {
        Ok(pair) => show_pair(alloc, &pair, reply),
        Err(fault) => reply.keep(fault),
    }
}

// Adds the fields of a pair.
fn show_pair(alloc: Global, pair: &KeyPair, reply: &mut Reply) {
    reply.returned_bytes("pk", pair.pk.to_bytes(alloc));
    reply.returned_bytes("sk", pair.sk.to_bytes(alloc));
    reply.fields.flag("encrypted", pair.sk.is_encrypted());
}
