//! Tests of the example caller that verifies a download by a signed list.

use crate::callers::signed_with;
use crate::tables::assert_row;
use minisign_base::faults::NamedFault::{self, ReadingFailed, SignatureRefused};
use minisign_base::toy::ToyScheme;
use minisign_examples::downloading::{SignedList, verify_download};
use minisign_fixtures::devices::sources::FailingSource;
use minisign_fixtures::texts::{KEY_TEXT, SECRET_TEXT};
use minisign_lists::Result;
use std::alloc::Global;

// A list as sha256sum writes it. `tool.tar` has the digest of `abc` in FIPS 180-4, and so have both
// lines of `twice`.
const LIST: &str =
    "ba7816bf8f01cfea414140de5dae2223b00361a396177a9cb410ff61f20015ad  tool.tar\nba7816bf8f01cfea414140de5dae2223b00361a396177a9cb410ff61f20015ad  twice\nba7816bf8f01cfea414140de5dae2223b00361a396177a9cb410ff61f20015ad  twice\n";

// The first line of the list. The signature of `LIST` is not valid for it.
const SHORTER: &str =
    "ba7816bf8f01cfea414140de5dae2223b00361a396177a9cb410ff61f20015ad  tool.tar\n";

const NAMED: &str = "timestamp:7\tfile:SHA256SUMS";

// Success, an error of lists with this number, or an error of the library.
#[derive(Clone, Copy, Debug)]
enum Expected {
    Verified,
    Numbered(u32),
    Named(NamedFault),
}

use Expected::{Named, Numbered, Verified};

// The list, the trusted comment of `LIST`'s signature, the name of the download, its data, the
// number of reads (of one byte each) before a read fails, and the expected outcome.
type Row = (
    &'static str,
    &'static str,
    &'static str,
    &'static str,
    usize,
    Expected,
);

const ROWS: [Row; 13] = [
    (LIST, NAMED, "tool.tar", "abc", 9, Verified),
    (LIST, NAMED, "./tool.tar", "abc", 9, Verified),
    (LIST, NAMED, "tool.tar", "abd", 9, Numbered(94)),
    (LIST, NAMED, "tool.tar", "ab", 9, Numbered(94)),
    (LIST, NAMED, "tool.tar", "abc", 0, Named(ReadingFailed)),
    (LIST, NAMED, "tool.tar", "abc", 2, Named(ReadingFailed)),
    (LIST, NAMED, "tool.tar", "abc", 3, Named(ReadingFailed)),
    (LIST, NAMED, "tool", "abc", 0, Numbered(92)),
    (LIST, NAMED, "twice", "abc", 0, Numbered(93)),
    (LIST, NAMED, "../tool.tar", "abc", 0, Numbered(90)),
    (LIST, "file:SHA512SUMS", "tool.tar", "abc", 0, Numbered(89)),
    (LIST, "SHA256SUMS", "tool.tar", "abc", 0, Numbered(89)),
    (
        SHORTER,
        NAMED,
        "tool.tar",
        "abc",
        0,
        Named(SignatureRefused),
    ),
];

// Hides the table from proofs, which would otherwise unfold all of it.
fn rows() -> &'static [Row] {
    &ROWS
}

// Returns true if the result is the trusted comment or an error, as expected.
fn is_answer(answer: &Result<&str>, comment: &str, expected: Expected) -> bool {
    match answer {
        Ok(trusted) => match expected {
            Verified => *trusted == comment,
            _ => false,
        },
        Err(fault) => match (fault.row(), expected) {
            (Ok((number, _, _)), Numbered(expected)) => *number == expected,
            (Err(fault), Named(expected)) => fault.named() == Some(expected),
            _ => false,
        },
    }
}

// Returns true if verifying the download with this signature has the expected outcome.
fn is_verified(alloc: Global, sig_text: &str, row: &Row) -> bool {
    let (text, comment, name, data, reads, expected) = *row;
    let Ok(mut buf) = vec![in alloc; 0u8; 512] else {
        return false;
    };
    if buf.is_empty() || sig_text.len() > buf.len() {
        return false;
    }
    let list = SignedList {
        name: "SHA256SUMS",
        text,
        sig_text,
    };
    let mut download = FailingSource::new(data.as_bytes(), reads);
    let toy = ToyScheme::new();
    let answer = verify_download(&toy, KEY_TEXT, list, name, &mut download, &mut buf);
    is_answer(&answer, comment, expected)
}

// Returns true if `LIST` is signed with the comment, and verifying has the expected outcome.
fn is_decided(alloc: Global, row: &Row) -> bool {
    let signed = signed_with(alloc, (SECRET_TEXT, ""), LIST.as_bytes(), row.1);
    match signed {
        Ok(sig_text) => is_verified(alloc, sig_text.as_str(), row),
        Err(_) => false,
    }
}

// A download is verified only if its list is, and has one entry with its name and digest. If the
// list is rejected, nothing is read.
#[test]
fn a_download_is_verified_by_its_list(rt: HostRuntime) {
    for row in rows() {
        assert_row(&rt, is_decided(rt.alloc(), row), row);
    }
}
