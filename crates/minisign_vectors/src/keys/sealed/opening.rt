//! Tests of decrypting keys within a bound, in less memory, and with prompts that cannot be written
//! to.

use crate::keys::sealed::calls::{
    Expected, OpeningCall, gives, has_outcome, opened, opens_as_expected,
};
use crate::tables::assert_row;
use minisign::{Result, SecretKey, SecretKeyBox};
use minisign_base::devices::sources::SliceSource;
use minisign_base::faults::NamedFault::{
    EndOfInput, InvalidParameters, ParametersTooHigh, WorkTooHigh, WritingFailed, WrongPassword,
};
use minisign_base::prompt::Prompt;
use minisign_fixtures::devices::sinks::LimitedSink;
use minisign_fixtures::keys::{CHECKSUM, secret_record};
use minisign_fixtures::outcomes::Outcome::{self, Refused};
use minisign_fixtures::outcomes::{front, is_outcome};
use minisign_fixtures::texts::{SEALED_AS_MINISIGN, SEALED_AS_USUAL};
use std::alloc::Global;

// The prompt's output up to the derivation, and in total.
const DERIVING: &str =
    "Password: Deriving a key from the password and decrypting the secret key... ";

const WHOLE_OUTPUT: &str =
    "Password: Deriving a key from the password and decrypting the secret key... done\n";

// The decrypted texts of the keys with the default limits and with those of the C program.
const OPENED_AS_USUAL: &str =
    "untrusted comment: rsign encrypted secret key\nRWRTY0IyICEiIyQlJicoKSorLC0uLzAxMjM0NTY3ODk6Ozw9Pj8AABAAAAAAAAAAAAIAAAAAAQIDBAUGBwgAAAAAAAAAAAAAAAAAAAAAAAAAAAAAAAAAAAAAAAAAAFpaWlpaWlpaWlpaWlpaWlpaWlpaWlpaWlpaWlpaWlpazoeDdHm2Hr/pRluKO3DYzP11U/WDPdZWSdZKEnx6ifg=\n";

const OPENED_AS_MINISIGN: &str =
    "untrusted comment: rsign encrypted secret key\nRWRTY0IyICEiIyQlJicoKSorLC0uLzAxMjM0NTY3ODk6Ozw9Pj8AAAACAAAAAAAAAEAAAAAAAQIDBAUGBwgAAAAAAAAAAAAAAAAAAAAAAAAAAAAAAAAAAAAAAAAAAFpaWlpaWlpaWlpaWlpaWlpaWlpaWlpaWlpaWlpaWlpazoeDdHm2Hr/pRluKO3DYzP11U/WDPdZWSdZKEnx6ifg=\n";

const WRONG: Outcome = Refused(WrongPassword);

const TOO_HIGH: Outcome = Refused(ParametersTooHigh);

const INVALID: Outcome = Refused(InvalidParameters);

const TOO_MUCH_WORK: Outcome = Refused(WorkTooHigh);

const ENDED: Outcome = Refused(EndOfInput);

const UNWRITTEN: Outcome = Refused(WritingFailed);

// Returns a box with key A's record and these limits. The record is marked as encrypted but is not,
// so decrypting it gives a wrong checksum.
fn limited_box(alloc: Global, memory: u64, operations: u64) -> Result<SecretKeyBox> {
    let mut record = secret_record(b"Sc", &CHECKSUM);
    let (operations, memory) = (operations.to_le_bytes(), memory.to_le_bytes());
    for i in 0..8usize {
        record[38 + i] = operations[i];
        record[46 + i] = memory[i];
    }
    SecretKey::from_bytes(&record)?.to_box(alloc, None)
}

// The memory limit, the operations limit, a bound on the parallelization, and the expected outcome.
type Limits = (u64, u64, u32, Outcome);

const LIMITS: [Limits; 12] = [
    (0, u64::MAX, 16, TOO_MUCH_WORK),
    (0, 0, 511, TOO_MUCH_WORK),
    (0, 0, 512, WRONG),
    (33554432, 1048576, 0, TOO_MUCH_WORK),
    (1073741825, 0, 0, TOO_HIGH),
    (0, 1099511627776, 0, INVALID),
    (0, 1099511627776, u32::MAX, INVALID),
    (1073741825, 0, u32::MAX, TOO_HIGH),
    (u64::MAX, 0, u32::MAX, TOO_HIGH),
    (1073741824, 0, u32::MAX, WRONG),
    (1073741824, 0, 1, WRONG),
    (1073741824, 0, 0, TOO_MUCH_WORK),
];

// Hides the table from proofs, which would otherwise unfold all of it.
fn limits() -> &'static [Limits] {
    &LIMITS
}

// Returns true if decrypting with these limits and this bound has the expected outcome.
fn is_bounded(alloc: Global, row: &Limits) -> bool {
    let (memory, operations, max_p, expected) = *row;
    let sk_box = limited_box(alloc, memory, operations);
    has_outcome(
        alloc,
        sk_box,
        "p",
        OpeningCall::FromBoxWithin(max_p),
        expected,
    )
}

#[test]
fn rejects_limits_above_the_bounds(rt: HostRuntime) {
    for row in limits() {
        assert_row(&rt, is_bounded(rt.alloc(), row), row);
    }
}

// The default limits give p = 1.
#[test]
fn opens_key_with_default_limits_within_one_part(rt: HostRuntime) {
    let (alloc, call) = (rt.alloc(), OpeningCall::FromBoxWithin(1));
    let text = OPENED_AS_USUAL;
    assert!(rt; gives(alloc, SEALED_AS_USUAL, Some("password"), b"", call, text));
}

// The limits of the C program need 1 GiB for rows. With every 16th row kept, 64 MiB are enough.
#[test]
fn opens_key_of_minisign_in_less_memory(rt: HostRuntime) {
    let (alloc, call) = (rt.alloc(), OpeningCall::FromBoxKeeping(16));
    let text = OPENED_AS_MINISIGN;
    assert!(rt; gives(alloc, SEALED_AS_MINISIGN, None, b"password\n", call, text));
}

const LATE: [Limits; 3] = [
    (1073741825, 0, u32::MAX, TOO_HIGH),
    (0, 1099511627776, u32::MAX, INVALID),
    (0, u64::MAX, 16, TOO_MUCH_WORK),
];

// Returns true if a typed password gives the expected outcome: the limits are checked after the
// password and before the derivation.
fn is_bounded_late(alloc: Global, row: &Limits) -> bool {
    let (memory, operations, max_p, outcome) = *row;
    let sk_box = limited_box(alloc, memory, operations);
    let expected_result = Expected {
        outcome,
        prompted: DERIVING,
        unread: 0,
    };
    opens_as_expected(
        alloc,
        sk_box,
        None,
        b"p\n",
        OpeningCall::FromBoxWithin(max_p),
        expected_result,
    )
}

// Limits are rejected only after the password was typed.
#[test]
fn rejects_limits_only_after_password_was_typed(rt: HostRuntime) {
    for row in &LATE {
        assert_row(&rt, is_bounded_late(rt.alloc(), row), row);
    }
}

// The number of bytes that fit into the prompt's writer, the memory limit, the typed bytes, and the
// expected outcome. If the writer fails at the line after the derivation, this error comes before that
// of a wrong password, and after those of the limits.
const CAPACITIES: [(usize, u64, &str, Outcome); 9] = [
    (4, 1048576, "p\n", UNWRITTEN),
    (10, 1048576, "p\n", UNWRITTEN),
    (75, 1048576, "p\n", UNWRITTEN),
    (76, 1048576, "p\n", UNWRITTEN),
    (80, 1048576, "p\n", UNWRITTEN),
    (81, 1048576, "p\n", WRONG),
    (76, 1073741825, "p\n", TOO_HIGH),
    (75, 1073741825, "p\n", UNWRITTEN),
    (10, 1048576, "", ENDED),
];

// Hides the table from proofs, which would otherwise unfold all of it.
fn capacities() -> &'static [(usize, u64, &'static str, Outcome)] {
    &CAPACITIES
}

// Returns true if decrypting with this much space in the prompt's writer has the expected outcome and
// fills the space.
fn fills(alloc: Global, row: &(usize, u64, &str, Outcome)) -> bool {
    let (room, memory, line, outcome) = *row;
    let sk_box = limited_box(alloc, memory, 0);
    let writer = LimitedSink::new(alloc, room);
    let mut prompt = Prompt::new(SliceSource::new(line.as_bytes()), writer);
    let answer = opened(alloc, sk_box, None, &mut prompt, OpeningCall::FromBox);
    let matches = is_outcome(answer, outcome);
    matches && prompt.writer.as_slice() == front(WHOLE_OUTPUT.as_bytes(), room)
}

// The error of a failing writer is returned at the point where it writes, between the errors of earlier and
// later checks.
#[test]
fn reports_failing_writer_in_order(rt: HostRuntime) {
    for row in capacities() {
        assert_row(&rt, fills(rt.alloc(), row), row);
    }
}
