//! Tests of an encrypted ("sealed") key for which scrypt has many parts: its parallelization p is 512. Both
//! limits in the key are 0. The operations limit is then raised to 32768, so N is 2, r is 8 and p is 512.

use crate::keys::sealed::calls::{OpeningCall, gives, has_outcome};
use crate::tables::assert_row;
use minisign::SecretKeyBox;
use minisign_base::faults::NamedFault::WorkTooHigh;
use minisign_fixtures::outcomes::Outcome::{self, Accepted, Refused};
use minisign_fixtures::texts::COUNTED_SEALED_WITH_EMPTY_PASSWORD;
use std::alloc::Global;

const TOO_MUCH_WORK: Outcome = Refused(WorkTooHigh);

/// Key A of `minisign_fixtures::keys`, with a salt and limits of zeros, encrypted with the password
/// `password` by Python's hashlib.
pub const SEALED_IN_PARTS: &str =
    "c\nRWRTY0IyAAAAAAAAAAAAAAAAAAAAAAAAAAAAAAAAAAAAAAAAAAAAAAAAAAAAAAAAAAAAAAAA2WJDahgPnk+50DhxreJRd9hoM2iVXjCf6NmwZwaGnlxvZz7Z3W9lublG1jeVK2pso+Uiu/bavTPvrJyAWS9J0ecRWRfUH3m9+qALBiU7o32H+PLLCuWUc0KaO1rrXxnq2f3DAMdo25o=\n";

// The decrypted key file.
const OPENED: &str =
    "untrusted comment: rsign encrypted secret key\nRWRTY0IyAAAAAAAAAAAAAAAAAAAAAAAAAAAAAAAAAAAAAAAAAAAAAAAAAAAAAAAAAAAAAAAAAQIDBAUGBwgAAAAAAAAAAAAAAAAAAAAAAAAAAAAAAAAAAAAAAAAAAFpaWlpaWlpaWlpaWlpaWlpaWlpaWlpaWlpaWlpaWlpazoeDdHm2Hr/pRluKO3DYzP11U/WDPdZWSdZKEnx6ifg=\n";

// Returns true if the key decrypts to `OPENED` with only every k-th row of scrypt's memory kept.
fn opens(alloc: Global, k: u64) -> bool {
    let call = OpeningCall::FromBoxKeeping(k);
    gives(alloc, SEALED_IN_PARTS, Some("password"), b"", call, OPENED)
}

#[test]
fn opens_key_in_many_parts(rt: HostRuntime) {
    for k in [1u64, 2, 3] {
        assert_row(&rt, opens(rt.alloc(), k), &k);
    }
}

// A key file, its password, a bound on p, and the expected outcome.
type Bounded = (&'static str, &'static str, u32, Outcome);

// For each key, the bounds 0, p - 1 and p; for the first key also the greatest bound. The second key is a
// generated one, for which p is 1.
const BOUNDED: [Bounded; 6] = [
    (SEALED_IN_PARTS, "password", 0, TOO_MUCH_WORK),
    (SEALED_IN_PARTS, "password", 511, TOO_MUCH_WORK),
    (SEALED_IN_PARTS, "password", 512, Accepted),
    (SEALED_IN_PARTS, "password", u32::MAX, Accepted),
    (COUNTED_SEALED_WITH_EMPTY_PASSWORD, "", 0, TOO_MUCH_WORK),
    (COUNTED_SEALED_WITH_EMPTY_PASSWORD, "", 1, Accepted),
];

// Hides the table from proofs, which would otherwise unfold all of it.
fn bounded() -> &'static [Bounded] {
    &BOUNDED
}

// Returns true if decrypting with this password and this bound has the expected outcome.
fn has_expected_outcome(alloc: Global, row: &Bounded) -> bool {
    let (text, password, max_p, expected) = *row;
    let sk_box = SecretKeyBox::from_string(alloc, text);
    has_outcome(
        alloc,
        sk_box,
        password,
        OpeningCall::FromBoxWithin(max_p),
        expected,
    )
}

#[test]
fn rejects_more_parts_than_the_bound(rt: HostRuntime) {
    for row in bounded() {
        assert_row(&rt, has_expected_outcome(rt.alloc(), row), row);
    }
}
