//! Prompts that read typed lines from a slice, and passwords that a test passes.

use crate::devices::sources::OneBytePerRead;
use minisign_base::devices::sinks::VecSink;
use minisign_base::devices::sources::Source;
use minisign_base::errors::Result;
use minisign_base::prompt::Prompt;
use std::alloc::Global;

/// Returns a prompt with this input, one byte for each read.
pub fn typed<'a>(alloc: Global, bytes: &'a [u8]) -> Prompt<OneBytePerRead<'a>, VecSink> {
    Prompt::new(OneBytePerRead::new(bytes), VecSink::new(alloc))
}

/// Returns a copy of the password, if there is one.
pub fn password_copy(alloc: Global, password: Option<&str>) -> Result<Option<String>> {
    match password {
        Some(password) => Ok(Some(String::from_str(alloc, password)?)),
        None => Ok(None),
    }
}

/// Returns the number of bytes that a source still returns, up to ten.
pub fn bytes_left<R: Source>(source: &mut R) -> usize {
    let mut count = 0usize;
    for _ in 0..10 {
        match source.read(&mut [0u8; 1]) {
            Ok(n) => count = count.saturating_add(n),
            Err(_) => return count,
        }
    }
    count
}
