//! Tests of the example caller that makes a key pair under a password and signs a release.

use crate::callers::checked;
use crate::signatures::calls::text_has_comments;
use minisign::Result;
use minisign_base::devices::random_sources::FixedRandom;
use minisign_base::faults::NamedFault::{RandomSourceFailed, SignatureRefused};
use minisign_base::toy::ToyScheme;
use minisign_examples::releasing::{Release, sign_release};
use minisign_fixtures::outcomes::Outcome::{Accepted, Refused};
use minisign_fixtures::outcomes::{check_holds, counted, is_outcome};
use minisign_fixtures::texts::COUNTED_PUBLIC_TEXT;
use std::alloc::Global;

// Makes a release with these random bytes.
fn released(alloc: Global, random: &[u8]) -> Result<Release> {
    sign_release(
        alloc,
        &ToyScheme::new(),
        "key password",
        b"lorem ipsum",
        &mut FixedRandom::new(random),
        0,
    )
}

// Returns true if the two texts are those of the release: default comments with the time 0, and
// valid for the update only.
fn are_released(alloc: Global, texts: (&str, &str)) -> bool {
    let dated = check_holds(text_has_comments(alloc, texts.1, "timestamp:0"));
    let taken = checked(alloc, texts, b"lorem ipsum", "timestamp:0");
    let other = checked(alloc, texts, b"lorem ipsun", "timestamp:0");
    let is_taken = is_outcome(taken, Accepted);
    let is_refused = is_outcome(other, Refused(SignatureRefused));
    dated && is_taken && is_refused && texts.0 == COUNTED_PUBLIC_TEXT
}

// Returns true if a release was made and its texts are as expected.
fn is_release_as_expected(alloc: Global, made: &Result<Release>) -> bool {
    match made {
        Ok(made) => are_released(alloc, (made.pk_text.as_str(), made.sig_text.as_str())),
        Err(_) => false,
    }
}

// The release is valid with its texts. Too few random bytes are an error.
#[test]
fn makes_valid_release(rt: HostRuntime) {
    let made = released(rt.alloc(), &counted());
    assert!(rt; is_release_as_expected(rt.alloc(), &made));
    assert!(rt; is_outcome(released(rt.alloc(), &[7; 199]), Refused(RandomSourceFailed)));
}
