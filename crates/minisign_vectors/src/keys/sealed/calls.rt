//! Decrypts keys for all tests, and compares the result and the use of the prompt.

use crate::keys::refused_allocations::secret_text;
use minisign::{Result, SecretKey, SecretKeyBox};
use minisign_base::devices::sinks::Sink;
use minisign_base::devices::sources::Source;
use minisign_base::prompt::Prompt;
use minisign_fixtures::outcomes::{Outcome, gives_text, is_outcome};
use minisign_fixtures::prompts::{bytes_left, password_copy, typed};
use std::alloc::Global;

/// The call that decrypts a key: `from_box`, which allows every p of scrypt; `from_box_within`, which
/// rejects a p above the given maximum; or `from_box_keeping`, which keeps only every k-th row of
/// scrypt's memory.
#[derive(Clone, Copy)]
pub enum OpeningCall {
    FromBox,
    FromBoxWithin(u32),
    FromBoxKeeping(u64),
}

/// The expected result of decrypting: the outcome, what the prompt shows, and the number of unread
/// typed bytes, counted up to ten.
#[derive(Clone, Copy)]
pub struct Expected<'a> {
    pub outcome: Outcome,
    pub prompted: &'a str,
    pub unread: usize,
}

/// Decrypts the key in the box, with this prompt.
pub fn opened<R: Source, W: Sink>(
    alloc: Global,
    sk_box: Result<SecretKeyBox>,
    password: Option<&str>,
    prompt: &mut Prompt<R, W>,
    call: OpeningCall,
) -> Result<SecretKey> {
    let sk_box = sk_box?;
    let password = password_copy(alloc, password)?;
    match call {
        OpeningCall::FromBox => SecretKey::from_box(alloc, sk_box, password, prompt),
        OpeningCall::FromBoxWithin(max_p) => SecretKey::from_box_within(
            alloc, sk_box, password, prompt, max_p,
        ),
        OpeningCall::FromBoxKeeping(k) => SecretKey::from_box_keeping(
            alloc,
            sk_box,
            password,
            prompt,
            k.max(1),
        ),
    }
}

/// Returns true if decrypting has the expected result. `bytes` are the bytes that are typed at the
/// prompt.
pub fn opens_as_expected(
    alloc: Global,
    sk_box: Result<SecretKeyBox>,
    password: Option<&str>,
    bytes: &[u8],
    call: OpeningCall,
    expected_result: Expected,
) -> bool {
    let mut prompt = typed(alloc, bytes);
    let answer = opened(alloc, sk_box, password, &mut prompt, call);
    let matches = is_outcome(answer, expected_result.outcome);
    let left = bytes_left(&mut prompt.reader);
    matches
        && left == expected_result.unread
        && prompt.writer.as_slice() == expected_result.prompted.as_bytes()
}

/// Returns true if decrypting with a given password has this outcome and leaves the prompt
/// unchanged.
pub fn has_outcome(
    alloc: Global,
    sk_box: Result<SecretKeyBox>,
    password: &str,
    call: OpeningCall,
    outcome: Outcome,
) -> bool {
    let expected_result = Expected {
        outcome,
        prompted: "",
        unread: 6,
    };
    opens_as_expected(
        alloc,
        sk_box,
        Some(password),
        b"typed\n",
        call,
        expected_result,
    )
}

/// Returns true if decrypting gives a decrypted key with this text. If `password` is `None`, the
/// prompt asks for it and reads `bytes`.
pub fn gives(
    alloc: Global,
    sealed: &str,
    password: Option<&str>,
    bytes: &[u8],
    call: OpeningCall,
    text: &str,
) -> bool {
    let sk_box = SecretKeyBox::from_string(alloc, sealed);
    let mut prompt = typed(alloc, bytes);
    let answer = opened(alloc, sk_box, password, &mut prompt, call);
    has_text(alloc, &answer, text)
}

// Returns true if the key is decrypted and has this text.
fn has_text(alloc: Global, answer: &Result<SecretKey>, text: &str) -> bool {
    match answer {
        Ok(key) => !key.is_encrypted() && gives_text(secret_text(alloc, key), text),
        Err(_) => false,
    }
}
