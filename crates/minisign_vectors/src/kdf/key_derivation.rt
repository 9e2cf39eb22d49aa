//! Tests of HMAC (RFC 4231, sections 4.2 to 4.8), of PBKDF2 (RFC 7914, section 11, the vector with
//! one iteration), and of the parameters that scrypt accepts. `tests/rows/deriving.py` has the
//! parameters that scrypt rejects, and the derived keys.

use crate::display::shows;
use crate::tables::assert_row;
use minisign_fixtures::outcomes::front;
use minisign_kdf::{Params, hmac_sha256, pbkdf2_once};
use std::alloc::Global;

const ASCENDING: [u8; 25] = [
    1, 2, 3, 4, 5, 6, 7, 8, 9, 10, 11, 12, 13, 14, 15, 16, 17, 18, 19, 20, 21, 22, 23, 24, 25,
];

const HASHED_FIRST_TEXT: &[u8] = b"Test Using Larger Than Block-Size Key - Hash Key First";

const LARGER_DATA_TEXT: &[u8] =
    b"This is a test using a larger than block-size key and a larger than block-size data. The key needs to be hashed before being used by the HMAC algorithm.";

const CODE_OF_JEFE: &str = "5bdcc146bf60754e6a042426089575c75a003f089d2739839dec58b964ec3843";

// The section of RFC 4231, the key, the parts of the text, and the published bytes of the
// authentication code.
type Code = (
    &'static str,
    &'static [u8],
    &'static [&'static [u8]],
    &'static str,
);

// The text of section 4.3 is also passed in two and in four parts. For section 4.6, the RFC publishes
// only the first 16 bytes of the code.
const CODES: [Code; 9] = [
    (
        "4.2",
        &[0x0b; 20],
        &[b"Hi There"],
        "b0344c61d8db38535ca8afceaf0bf12b881dc200c9833da726e9376c2e32cff7",
    ),
    (
        "4.3",
        b"Jefe",
        &[b"what do ya want for nothing?"],
        CODE_OF_JEFE,
    ),
    (
        "4.3 in two parts",
        b"Jefe",
        &[b"what do ya want ", b"for nothing?"],
        CODE_OF_JEFE,
    ),
    (
        "4.3 in four parts",
        b"Jefe",
        &[b"", b"what", b"", b" do ya want for nothing?"],
        CODE_OF_JEFE,
    ),
    (
        "4.4",
        &[0xaa; 20],
        &[&[0xdd; 50]],
        "773ea91e36800e46854db8ebd09181a72959098b3ef8c122d9635514ced565fe",
    ),
    (
        "4.5",
        &ASCENDING,
        &[&[0xcd; 50]],
        "82558a389a443c0ea4cc819899f2083a85f0faa3e578f8077a2e3ff46729665b",
    ),
    (
        "4.6",
        &[0x0c; 20],
        &[b"Test With Truncation"],
        "a3b6167473100ee06e0c796c2955552b",
    ),
    (
        "4.7",
        &[0xaa; 131],
        &[HASHED_FIRST_TEXT],
        "60e431591ee0b67f0d8a26aacbf5b77f8e0bc6213728c5140546040f0ee37f54",
    ),
    (
        "4.8",
        &[0xaa; 131],
        &[LARGER_DATA_TEXT],
        "9b09ffa71b942fcb27635fbcd5b0e944bfdc63644f0713938a7f51535c3a35e2",
    ),
];

// Hides the table from proofs, which would otherwise unfold all of it.
fn codes() -> &'static [Code] {
    &CODES
}

// Returns true if the authentication code begins with the published bytes.
fn is_code(alloc: Global, row: &Code) -> bool {
    let (_, key, parts, expected) = *row;
    let code = hmac_sha256(key, parts);
    shows(alloc, front(&code, expected.len() / 2), expected)
}

#[test]
fn hmac_matches_rfc_4231(rt: HostRuntime) {
    for row in codes() {
        assert_row(&rt, is_code(rt.alloc(), row), &row.0);
    }
}

// RFC 7914, section 11, the vector with one iteration.
const KEY_OF_PASSWD: &str =
    "55ac046e56e3089fec1691c22544b605f94185216dde0465e68b9d57c20dacbc49ca9cccf179b645991664b39d77ef317c71b845b1e30bd509112041d3a19783";

#[test]
fn pbkdf2_matches_rfc_7914(rt: HostRuntime) {
    let mut key = [0u8; 64];
    pbkdf2_once(b"passwd", b"salt", &mut key);
    assert!(rt; shows(rt.alloc(), &key, KEY_OF_PASSWD));
}

// Returns true if the parameters are accepted and returned unchanged.
fn is_accepted(n_log2: u8, r: u32, p: u32) -> bool {
    match Params::new(n_log2, r, p) {
        Ok(params) => params.n_log2() == n_log2 && params.r() == r && params.p() == p,
        Err(_) => false,
    }
}

// log2(N), r and p. Most rows are at a limit: the next larger value is among the rejected parameters in
// `tests/rows/deriving.py`.
const PARAMETERS: [(u8, u32, u32); 11] = [
    (1, 1, 1),
    (15, 1, 1),
    (31, 2, 1),
    (20, 8, 512),
    (1, 32768, 32767),
    (1, 1073741823, 1),
    (1, 1, 1073741823),
    (53, 8, 1),
    (54, 7, 1),
    (54, 4, 1),
    (1, 8, 134217727),
];

// Hides the table from proofs, which would otherwise unfold all of it.
fn parameters() -> &'static [(u8, u32, u32)] {
    &PARAMETERS
}

#[test]
fn accepts_allowed_parameters(rt: HostRuntime) {
    for row in parameters() {
        assert_row(&rt, is_accepted(row.0, row.1, row.2), row);
    }
}
