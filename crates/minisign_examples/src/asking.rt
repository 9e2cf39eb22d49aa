//! A caller that asks for the password again if it was wrong.

ghost use Rattle.std.specs.Prelude.{◌≡◌, ◌≢◌, Err, true, false};
ghost use Rattle.minisign.specs.Fault.{Named};
ghost use Rattle.minisign.specs.NamedFaults.{WrongPassword};
ghost use Rattle.minisign_examples.specs.Asking.{IsOpeningAgain};

use minisign::{NamedFault, Prompt, Result, SecretKey, SecretKeyBox, Sink, Source};
use std::alloc::Global;

/// Decrypts the secret key in `sk_text` with the password that is typed. If the password was wrong, asks
/// again, up to `more` times. Returns any other error at once, because another password would not help.
pub fn open_asking<R: Source, W: Sink>(
    alloc: Global,
    sk_text: &str,
    prompt: &mut Prompt<R, W>,
    more: u32,
) -> Result<SecretKey>
    ensures { IsOpeningAgain R.Source W.Sink more prompt.old prompt.new sk_text.now result }
{
    if more == 0 {
        return open_once(alloc, sk_text, prompt);
    }
    let opened = open_once(alloc, sk_text, prompt);
    if !is_password_wrong(&opened) {
        return opened;
    }
    open_asking(alloc, sk_text, prompt, more - 1)
}

// Returns true if the key was rejected because of the password.
fn is_password_wrong(opened: &Result<SecretKey>) -> bool
    ensures wrong { result ≡ true → opened.now ≡ Err (Named WrongPassword) }
    ensures other { result ≡ false → opened.now ≢ Err (Named WrongPassword) }
{
    match opened {
        Ok(_) => false,
        Err(fault) => fault.named() == Some(NamedFault::WrongPassword),
    }
}

fn open_once<R: Source, W: Sink>(
    alloc: Global,
    sk_text: &str,
    prompt: &mut Prompt<R, W>,
) -> Result<SecretKey>
    ensures { IsOpeningAgain R.Source W.Sink 0 prompt.old prompt.new sk_text.now result }
{
    let sk_box = SecretKeyBox::from_string(alloc, sk_text)?;
    SecretKey::from_box(alloc, sk_box, None, prompt)
}
