//! Tests of decrypting keys with every k-th row kept.

use crate::keys::sealed::calls::{Expected, OpeningCall, gives, opens_as_expected};
use crate::tables::assert_row;
use minisign::SecretKeyBox;
use minisign_base::faults::NamedFault::WrongPassword;
use minisign_fixtures::outcomes::Outcome::{self, Accepted, Refused};
use minisign_fixtures::texts::SEALED;
use std::alloc::Global;

const WRONG: Outcome = Refused(WrongPassword);

const PROMPTED: &str =
    "Password: Deriving a key from the password and decrypting the secret key... done\n";

// A pair from random bytes that are all 9, encrypted under `password` with Python's hashlib. N is
// 32768 and p is 1.
pub const SEALED_FROM_NINES: &str =
    "c\nRWRTY0IyCQkJCQkJCQkJCQkJCQkJCQkJCQkJCQkJCQkJCQkJCQkAABAAAAAAAAAAAAIAAAAAdY1HWKBn010LeW41YGMTziKGY5Pm20tfKSqKx1RaT1NVOm7mrYQStRXjCDlaDbjJt6my7s8HA1hNnc81ePgmYR40irkegWz1I4xX4mKUEhI8fTRSfYSEcdd1W1ItYg79QyqNCekYjxw=\n";

// The text of this key, decrypted.
pub const OPENED: &str =
    "untrusted comment: rsign encrypted secret key\nRWRTY0IyCQkJCQkJCQkJCQkJCQkJCQkJCQkJCQkJCQkJCQkJCQkAABAAAAAAAAAAAAIAAAAACQkJCQkJCQkJCQkJCQkJCQkJCQkJCQkJCQkJCQkJCQkJCQkJCQkJCVNTU1NTU1NTU1NTU1NTU1NTU1NTU1NTU1NTU1NTU1NTl01hHj4yTh1EA1233vng2mdcEMYAlvnZumxtDRWM800=\n";

// Returns true if `SEALED_FROM_NINES` decrypts to the expected key with every k-th row kept, with a given and
// with a typed password.
fn opens(alloc: Global, k: u64) -> bool {
    let call = OpeningCall::FromBoxKeeping(k);
    let passed = gives(
        alloc,
        SEALED_FROM_NINES,
        Some("password"),
        b"",
        call,
        OPENED,
    );
    let typed = gives(alloc, SEALED_FROM_NINES, None, b"password\n", call, OPENED);
    passed && typed
}

#[test]
fn opens_same_key_for_every_number_of_kept_rows(rt: HostRuntime) {
    for k in [1u64, 7, 16] {
        assert_row(&rt, opens(rt.alloc(), k), &k);
    }
}

// Returns true if decrypting `SEALED` with these typed bytes has this outcome. Other tests decrypt
// this key with `from_box`.
fn opens_typed_as_expected(alloc: Global, k: u64, bytes: &[u8], outcome: Outcome) -> bool {
    let sk_box = SecretKeyBox::from_string(alloc, SEALED);
    let expected_result = Expected {
        outcome,
        prompted: PROMPTED,
        unread: 0,
    };
    opens_as_expected(
        alloc,
        sk_box,
        None,
        bytes,
        OpeningCall::FromBoxKeeping(k),
        expected_result,
    )
}

#[test]
fn opens_key_with_typed_password(rt: HostRuntime) {
    for k in [1u64, 7, 100] {
        let opened = opens_typed_as_expected(rt.alloc(), k, b"password\n", Accepted);
        assert_row(&rt, opened, &k);
    }
    let unopened = opens_typed_as_expected(rt.alloc(), 16, b"Password\n", WRONG);
    assert_row(&rt, unopened, &"another password");
}
