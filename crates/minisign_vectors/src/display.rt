//! Compares bytes and displayed values with the expected texts of test tables.

use minisign_fixtures::outcomes::hexadecimal;
use std::alloc::Global;
use std::fmt::Display;

/// Returns true if the bytes in lowercase hexadecimal are this text.
pub fn shows(alloc: Global, bytes: &[u8], expected: &str) -> bool {
    let shown = hexadecimal(alloc, bytes);
    is_text(&shown, expected)
}

/// Returns true if `Display` writes this text.
pub fn displays_as<T: Display>(alloc: Global, value: &T, expected: &str) -> bool {
    let shown = format!(in alloc; "{value}");
    is_text(&shown, expected)
}

fn is_text<E>(shown: &Result<String, E>, expected: &str) -> bool {
    match shown {
        Ok(shown) => shown.as_str() == expected,
        Err(_) => false,
    }
}
