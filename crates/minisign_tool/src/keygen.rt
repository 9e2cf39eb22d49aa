//! The command `keygen`: generates an encrypted key pair under a password that is typed twice, and writes
//! both texts.

ghost use Rattle.std.specs.Prelude.{◌≡◌, ◌≤◌};
ghost use Rattle.minisign.specs.DeviceCalls.{prompt_call, random_call, sink_call};
ghost use Rattle.minisign_tool.specs.Keygen.{MakesKeys, ShowsNoKeys};
ghost use Rattle.minisign_tool.specs.Report.{TakesOrFails, warning_line};

use crate::report::{report, warn};
use minisign::KeyPair;
use minisign::base::devices::random_sources::RandomSource;
use minisign::base::devices::sinks::Sink;
use minisign::base::devices::sources::Source;
use minisign::base::prompt::Prompt;
use minisign::base::scheme::Scheme;
use std::alloc::Global;

/// Generates an encrypted key pair. Takes 72 random bytes first, then asks for the password twice.
/// Makes both texts, and then writes the public key's to `pk_sink` and the secret key's, with the
/// default comment, to `sk_sink`. Writes the warning, and after it the line of an error, to
/// `errors`.
///
/// Returns the exit status: 0 if both texts were written, otherwise 1. If no pair is made, or an allocation
/// fails for its texts, both sinks are unchanged. A sink that failed has received a prefix of its text.
pub fn run_keygen<S: Scheme, Z: RandomSource, R: Source, W: Sink, P: Sink, K: Sink, E: Sink>(
    alloc: Global,
    scheme: &S,
    random: &mut Z,
    prompt: &mut Prompt<R, W>,
    pk_sink: &mut P,
    sk_sink: &mut K,
    errors: &mut E,
) -> u8
    // The exit status is 0 or 1.
    ensures status { result ≤ 1 }

    // **The exit status is 0 only if a key pair was made from bytes of the random source under a password
    // that was typed twice, both texts were written, and the secret key's text decrypts under that password
    // to the key that belongs to the public key.** The warning was sent before.
    ensures makes_keys { result ≡ 0 → MakesKeys (S.public_of scheme.now)
        (random_call Z.RandomSource random.old random.new) (prompt_call R.Source W.Sink prompt.old prompt.new)
        (sink_call P.Sink pk_sink.old pk_sink.new) (sink_call K.Sink sk_sink.old sk_sink.new) }
    ensures warned { result ≡ 0 → TakesOrFails E.Sink errors.old errors.new warning_line }

    // With exit status 1, either no pair was made, and both sinks are unchanged, or writing failed as
    // `KeyPair::generate_and_write_encrypted_keypair` promises.
    ensures refused { result ≡ 1 → ShowsNoKeys E.Sink errors.old errors.new (S.public_of scheme.now)
        (random_call Z.RandomSource random.old random.new) (prompt_call R.Source W.Sink prompt.old prompt.new)
        (sink_call P.Sink pk_sink.old pk_sink.new) (sink_call K.Sink sk_sink.old sk_sink.new) }
{
    warn(errors);
    let (password, comment) = (None, None);
    match KeyPair::generate_and_write_encrypted_keypair(
        alloc, scheme, random, pk_sink, sk_sink, comment, password, prompt,
    ) {
        Ok(_) => 0,
        Err(fault) => report(errors, &fault),
    }
}
