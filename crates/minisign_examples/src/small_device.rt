//! A caller that decrypts a secret key with little memory.

ghost use Rattle.std.specs.Prelude.{None};
ghost use Rattle.minisign.specs.Sealing.{open_key};
ghost use Rattle.minisign.specs.Texts.{IsValueOrNoMemory};

use minisign::{Prompt, Result, SecretKey, SecretKeyBox};
use std::alloc::Global;

// Every 8th row of scrypt is kept: an eighth of the memory, for twice the time.
const ROWS_PER_KEPT_ROW: u64 = 8;

/// Decrypts the secret key in `sk_text` with the password in an eighth of the usual memory: 4 MiB
/// with the default limits. The result and the errors are those of a call that keeps every row.
pub fn open_in_little_memory(alloc: Global, sk_text: &str, password: &str) -> Result<SecretKey>
    // The result is out of memory, or exactly what the text decrypts to under the password: the key, or the
    // error of the first check that fails.
    ensures { IsValueOrNoMemory result (open_key sk_text.now password.now None) }
{
    let sk_box = SecretKeyBox::from_string(alloc, sk_text)?;
    let passed_in = Some(String::from_str(alloc, password)?);
    SecretKey::from_box_keeping(
        alloc,
        sk_box,
        passed_in,
        &mut Prompt::silent(),
        ROWS_PER_KEPT_ROW,
    )
}
