//! Tests that callers can use the names that `minisign` exports at its root, and the names of
//! `minisign_base`, which `minisign` re-exports as a module. Each test compares results with precomputed
//! values. `hash` tests the names of `minisign_hash`, and `signatures::calls` uses the names for signing and
//! verifying.

use crate::display::displays_as;
use crate::signatures::calls::{signed_text, verified_texts};
use crate::tables::assert_row;
use minisign::minisign_base::{
    KeyId, fill_from, get_password, load_u64_le, put_and_flush, put_line, raw_scrypt_params,
    store_u64_le, unix_timestamp, write_all,
};
use minisign::{
    DEFAULT_COMMENT, DeviceFault, FileSource, FixedRandom, Params, Prompt, RandomSource,
    ReaderSource, Rereader, Result, SIG_DEFAULT_CONFIG_DIR, SIG_DEFAULT_CONFIG_DIR_ENV_VAR,
    SIG_DEFAULT_PKFILE, SIG_DEFAULT_SKFILE, SIG_SUFFIX, Scheme, SliceSource, Source, SourceRandom,
    ToyScheme, Triple, VecSink, VerifyOptions, WriterSink,
};
use minisign_fixtures::keys::KEY_ID;
use minisign_fixtures::outcomes::Outcome::Accepted;
use minisign_fixtures::outcomes::{gives_text, is_outcome};
use minisign_fixtures::texts::{KEY_TEXT, SECRET_TEXT, SIGNATURE_TEXT, STATUS_LINES};
use std::alloc::Global;
use std::io::Cursor;

// The random bytes of the precomputed signatures.
const ZEROS: [u8; 128] = [0; 128];

// The constants with default names (of files, of their directory, and of the environment variable for the
// directory) and with the default comment, and their expected values.
const NAMES: [(&str, &str); 6] = [
    (SIG_DEFAULT_CONFIG_DIR_ENV_VAR, "RSIGN_CONFIG_DIR"),
    (SIG_DEFAULT_CONFIG_DIR, ".rsign"),
    (SIG_DEFAULT_PKFILE, "rsign.pub"),
    (SIG_DEFAULT_SKFILE, "rsign.key"),
    (SIG_SUFFIX, ".minisig"),
    (DEFAULT_COMMENT, "signature from rsign secret key"),
];

// Hides the table from proofs, which would otherwise unfold all of it.
fn names() -> &'static [(&'static str, &'static str)] {
    &NAMES
}

#[test]
fn default_names_and_comment_are_those_of_rsign(rt: HostRuntime) {
    for row in names() {
        assert_row(&rt, row.0 == row.1, row);
    }
}

// Returns true if signing the data with key A gives `SIGNATURE_TEXT`, the precomputed signature of `abc`.
fn gives_precomputed_signature<R: Source, Z: RandomSource>(
    alloc: Global,
    data: &mut R,
    random: &mut Z,
) -> bool {
    let mut prompt = Prompt::new(SliceSource::new(b""), VecSink::new(alloc));
    let text = signed_text(alloc, SECRET_TEXT, None, &mut prompt, data, random);
    gives_text(text, SIGNATURE_TEXT)
}

#[test]
fn signs_data_of_each_source(rt: HostRuntime) {
    let alloc = rt.alloc();
    let mut reader_source = ReaderSource::new(b"abc".as_slice());
    let matches_for_reader = gives_precomputed_signature(
        alloc,
        &mut reader_source,
        &mut FixedRandom::new(&ZEROS),
    );
    assert_row(&rt, matches_for_reader, &"a reader");
    let mut random = SourceRandom::new(SliceSource::new(&ZEROS));
    let matches_for_random_source = gives_precomputed_signature(
        alloc,
        &mut SliceSource::new(b"abc"),
        &mut random,
    );
    assert_row(&rt, matches_for_random_source, &"random bytes of a source");
}

// Options: write status lines, copy the data, and reject legacy signatures.
const STRICT: VerifyOptions = VerifyOptions {
    quiet: false,
    output: true,
    allow_legacy: false,
};

// Verifies and copies a file, with a writer as the status sink.
fn copied(alloc: Global, status_lines: &mut Vec<u8>, out: &mut VecSink) -> Result<()> {
    let mut data = FileSource::new(Cursor::new(b"abc".as_slice()));
    let mut status = WriterSink::new(status_lines);
    let texts = (KEY_TEXT, SIGNATURE_TEXT);
    verified_texts(alloc, texts, &mut data, STRICT, &mut status, out)
}

// Returns true if verifying the file succeeds, with the expected status lines and copy.
fn is_copied(alloc: Global) -> bool {
    let mut status_lines = Vec::new(alloc);
    let mut out = VecSink::new(alloc);
    let matches = is_outcome(copied(alloc, &mut status_lines, &mut out), Accepted);
    let has_status_lines = status_lines.as_slice() == STATUS_LINES;
    let has_copy = out.as_slice() == b"abc".as_slice();
    matches && has_status_lines && has_copy
}

#[test]
fn verifies_and_copies_data(rt: HostRuntime) {
    assert!(rt; is_copied(rt.alloc()));
}

// Returns true if a toy scheme with a table accepts the triple in the table, and rejects a triple that is not
// in the table.
fn accepts_only_listed_triple() -> bool {
    let triples = [Triple {
        message: b"m",
        public_key: [1; 32],
        signature: [2; 64],
    }];
    let scheme = ToyScheme::with_table(&triples);
    let accepts_listed = scheme.verify(b"m", &[1; 32], &[2; 64]);
    let accepts_other = scheme.verify(b"n", &[1; 32], &[2; 64]);
    accepts_listed && !accepts_other
}

#[test]
fn toy_scheme_accepts_table_and_reader_has_no_mark(rt: HostRuntime) {
    let marked = ReaderSource::new(b"abc".as_slice()).mark();
    assert!(rt; accepts_only_listed_triple() && marked == Err(DeviceFault));
}

// Returns true if the default limits give the default scrypt parameters.
fn default_limits_give_default_params() -> bool {
    let Ok(limits) = raw_scrypt_params(33554432, 1048576, 20) else {
        return false;
    };
    Params::new(15, 8, 1) == Ok(limits)
}

// Returns true if a number is stored as eight bytes and loaded from them again.
fn stores_and_loads_number() -> bool {
    let stored = store_u64_le(255);
    stored == [255, 0, 0, 0, 0, 0, 0, 0] && load_u64_le(&stored) == 255
}

#[test]
fn library_reexports_helpers(rt: HostRuntime) {
    let helpers_work = default_limits_give_default_params()
        && stores_and_loads_number()
        && fills_buffer();
    assert!(rt; helpers_work);
    assert!(rt; is_recent(&unix_timestamp(&rt)));
    assert!(rt; displays_as(rt.alloc(), &KeyId(KEY_ID), "0807060504030201"));
    assert!(rt; asks_for_password(rt.alloc()));
}

// Returns true if the clock returns a time after November 2023.
fn is_recent(unix_time: &Result<u64>) -> bool {
    match unix_time {
        Ok(unix_time) => *unix_time > 1700000000,
        Err(_) => false,
    }
}

// Returns true if a buffer is filled from a source.
fn fills_buffer() -> bool {
    let mut front = [0u8; 2];
    let filled = fill_from(&mut SliceSource::new(b"abc"), &mut front);
    filled.is_ok() && front == *b"ab"
}

// Returns true if `get_password` shows its prompt and returns the typed password, and what is written later
// comes after the prompt.
fn asks_for_password(alloc: Global) -> bool {
    let mut prompt = Prompt::new(SliceSource::new(b"p\n"), VecSink::new(alloc));
    let password = get_password(alloc, &mut prompt, "Password: ");
    let is_typed = gives_text(password, "p");
    let (_, mut output) = prompt.into_parts();
    let written = write_all(&mut output, b"a").is_ok();
    let flushed = put_and_flush(&mut output, b"b").is_ok();
    let wrote_line = put_line(alloc, &mut output, b"c", b"d").is_ok();
    let prompted = output.as_slice() == b"Password: abcd\n".as_slice();
    is_typed && written && flushed && wrote_line && prompted
}
