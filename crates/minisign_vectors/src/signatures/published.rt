//! Tests of the published legacy signature, with a reader that cannot seek. The data of a legacy
//! signature is kept in memory, so it is copied without a second reading.

use crate::signatures::calls::{Sinks, ample};
use crate::tables::assert_row;
use minisign::{Result, verify_texts};
use minisign_base::devices::sources::ReaderSource;
use minisign_base::faults::NamedFault::{LegacyNotAccepted, SignatureRefused};
use minisign_base::toy::{ToyScheme, Triple};
use minisign_fixtures::outcomes::Outcome::{self, Accepted, Refused};
use minisign_fixtures::outcomes::is_outcome;
use std::alloc::Global;

// The public key of this signature, as the upstream crate publishes it.
const KEY_TEXT: &str =
    "untrusted comment: minisign public key: E7620F1842B4E81F\nRWQf6LRCGA9i53mlYecO4IzT51TGPpvWucNSCh1CBM0QTaLn73Y7GFO3\n";

// A legacy signature of `test`, which the upstream crate publishes.
const LEGACY_TEXT: &str =
    "untrusted comment: signature from minisign secret key\nRWQf6LRCGA9i59SLOFxz6NxvASXDJeRtuZykwQepbDEGt87ig1BNpWaVWuNrm73YiIiJbq71Wi+dP9eKL8OC351vwIasSSbXxwA=\ntrusted comment: timestamp:1555779966\tfile:test\nQtKMXWyYcwdpZAlPF7tE2ENJkRd1ujvKjlj1m9RtHTBnZPa5WKU5uWRs5GoP5M/VqE81QFuMKI5k/SfNQUaOAA==";

// The key bytes, the signature, the trusted comment and the comment signature.
const KEY: [u8; 32] = [
    0x79, 0xa5, 0x61, 0xe7, 0x0e, 0xe0, 0x8c, 0xd3, 0xe7, 0x54, 0xc6, 0x3e, 0x9b, 0xd6, 0xb9, 0xc3,
    0x52, 0x0a, 0x1d, 0x42, 0x04, 0xcd, 0x10, 0x4d, 0xa2, 0xe7, 0xef, 0x76, 0x3b, 0x18, 0x53, 0xb7,
];

const SIGNATURE: [u8; 64] = [
    0xd4, 0x8b, 0x38, 0x5c, 0x73, 0xe8, 0xdc, 0x6f, 0x01, 0x25, 0xc3, 0x25, 0xe4, 0x6d, 0xb9, 0x9c,
    0xa4, 0xc1, 0x07, 0xa9, 0x6c, 0x31, 0x06, 0xb7, 0xce, 0xe2, 0x83, 0x50, 0x4d, 0xa5, 0x66, 0x95,
    0x5a, 0xe3, 0x6b, 0x9b, 0xbd, 0xd8, 0x88, 0x88, 0x89, 0x6e, 0xae, 0xf5, 0x5a, 0x2f, 0x9d, 0x3f,
    0xd7, 0x8a, 0x2f, 0xc3, 0x82, 0xdf, 0x9d, 0x6f, 0xc0, 0x86, 0xac, 0x49, 0x26, 0xd7, 0xc7, 0x00,
];

const COMMENT: &[u8; 30] = b"timestamp:1555779966\tfile:test";

const COMMENT_SIGNATURE: [u8; 64] = [
    0x42, 0xd2, 0x8c, 0x5d, 0x6c, 0x98, 0x73, 0x07, 0x69, 0x64, 0x09, 0x4f, 0x17, 0xbb, 0x44, 0xd8,
    0x43, 0x49, 0x91, 0x17, 0x75, 0xba, 0x3b, 0xca, 0x8e, 0x58, 0xf5, 0x9b, 0xd4, 0x6d, 0x1d, 0x30,
    0x67, 0x64, 0xf6, 0xb9, 0x58, 0xa5, 0x39, 0xb9, 0x64, 0x6c, 0xe4, 0x6a, 0x0f, 0xe4, 0xcf, 0xd5,
    0xa8, 0x4f, 0x35, 0x40, 0x5b, 0x8c, 0x28, 0x8e, 0x64, 0xfd, 0x27, 0xcd, 0x41, 0x46, 0x8e, 0x00,
];

// The status lines after success.
const STATUS_LINES: &[u8] =
    b"Signature and comment signature verified\nTrusted comment: timestamp:1555779966\tfile:test\n";

const UNACCEPTED: Outcome = Refused(LegacyNotAccepted);

const REFUSED: Outcome = Refused(SignatureRefused);

// The data, whether it is copied, whether legacy signatures are allowed, the expected outcome, and
// the copy.
type Row = (&'static str, bool, bool, Outcome, &'static str);

const ROWS: [Row; 5] = [
    ("test", true, true, Accepted, "test"),
    ("test", false, true, Accepted, ""),
    ("test", true, false, UNACCEPTED, ""),
    ("test", false, false, UNACCEPTED, ""),
    ("test2", true, true, REFUSED, ""),
];

// Hides the table from proofs, which would otherwise unfold all of it.
fn rows() -> &'static [Row] {
    &ROWS
}

// Verifies the data of a row from a reader that cannot seek, with a scheme that accepts both
// signatures of the published text.
fn verified(alloc: Global, row: &Row, sinks: &mut Sinks) -> Result<()> {
    let (message, output, allow_legacy, _, _) = *row;
    let mut signed = [0u8; 94];
    let (signature, comment) = signed.split_at_mut(64);
    signature.copy_from_slice(&SIGNATURE);
    comment.copy_from_slice(COMMENT);
    let triples = [
        Triple {
            message: b"test",
            public_key: KEY,
            signature: SIGNATURE,
        },
        Triple {
            message: &signed,
            public_key: KEY,
            signature: COMMENT_SIGNATURE,
        },
    ];
    let mut data = ReaderSource::new(message.as_bytes());
    verify_texts(
        alloc,
        &ToyScheme::with_table(&triples),
        KEY_TEXT,
        LEGACY_TEXT,
        &mut data,
        false,
        output,
        allow_legacy,
        &mut sinks.status,
        &mut sinks.out,
    )
}

// Returns true if the outcome, the status lines and the copy are the expected ones.
fn gives_expected(alloc: Global, row: &Row) -> bool {
    let (_, _, _, outcome, copied) = *row;
    let mut sinks = ample(alloc);
    let answer = verified(alloc, row, &mut sinks);
    let matches = is_outcome(answer, outcome);
    let status_lines = if outcome == Accepted {
        STATUS_LINES
    } else {
        b""
    };
    matches && sinks.status.as_slice() == status_lines && sinks.out.as_slice() == copied.as_bytes()
}

#[test]
fn copies_published_legacy_signature_without_seeking(rt: HostRuntime) {
    for row in rows() {
        assert_row(&rt, gives_expected(rt.alloc(), row), row);
    }
}
