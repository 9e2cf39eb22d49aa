//! The command `sign`: signs the data in a file with the secret key in a file, and writes the signature
//! text.

ghost use Rattle.std.specs.Prelude.{◌≡◌, ◌≤◌, string_bytes, IfOk, IfErr, OnOk};
ghost use Rattle.minisign.specs.Devices.{PrefixIsRemoved};
ghost use Rattle.minisign.specs.DeviceCalls.{SinkCompletesPart, sink_call};
ghost use Rattle.minisign_tool.specs.Report.{ShowsOnlyFault, TakesOrFails, warning_line};
ghost use Rattle.minisign_tool.specs.Sign.{FileSigningFails, HasWrittenSigned, HasWrittenVouched};
ghost use Rattle.minisign_tool.specs.Sign.{MakesSigned, MakesVouched, NoSignature, WriteFails, signing_call};

use crate::report::{report, warn};
use minisign::base::NamedFault;
use minisign::base::devices::random_sources::RandomSource;
use minisign::base::devices::sinks::{Sink, put_and_flush};
use minisign::base::devices::sources::Source;
use minisign::base::prompt::Prompt;
use minisign::base::scheme::Scheme;
use minisign::reading::read_text;
use minisign::{Result, default_comments_are_read_back, sign_texts};
use std::alloc::Global;

/// The input of the command `sign`.
#[derive(Drop)]
pub struct SigningDevices<K, R, Z, A, B> {
    /// Holds the text of the secret key.
    pub sk_file: K,
    /// Provides the data to sign.
    pub data_reader: R,
    /// Provides the 128 random bytes for the two signatures.
    pub random: Z,
    /// Asks for the password of an encrypted key.
    pub prompt: Prompt<A, B>,
}

/// Signs the data of `devices` with the text of their secret key, writes the signature text to `signature`,
/// and flushes it. The key's file is read whole first and must be UTF-8. If the key is encrypted, the
/// prompt asks for the password. The comments are the default ones, with `unix_time` in seconds since 1970.
/// The warning and the line of an error go to `errors`. Returns the exit status: 0 if `signature` received
/// the whole text, otherwise 1. `signature` is unchanged until the text is made.
pub fn run_sign<
    S: Scheme,
    K: Source,
    R: Source,
    Z: RandomSource,
    A: Source,
    B: Sink,
    G: Sink,
    W: Sink,
>(
    alloc: Global,
    scheme: &S,
    devices: &mut SigningDevices<K, R, Z, A, B>,
    unix_time: u64,
    signature: &mut G,
    errors: &mut W,
) -> u8
    // The exit status is 0 or 1.
    ensures status { result ≤ 1 }

    // **The exit status is 0 only if a whole signature text was written that, if the key is
    // genuine, parses to a signature box which is valid under the public key of this key.**
    ensures headline { result ≡ 0 → HasWrittenVouched (S.accepts scheme.now) (S.public_of scheme.now)
        (signing_call K.Source R.Source Z.RandomSource A.Source B.Sink devices.old devices.new)
        (sink_call G.Sink signature.old signature.new) }

    // With exit status 0, the text is the one that `sign_texts` promises, with the default comments, for
    // the data that was read: it is made with the key in the key's file, decrypted with the typed password if
    // it is encrypted. If this key is genuine, the text parses to a signature box that is valid for the data,
    // as the clause `headline` states. The warning was sent.
    ensures signed { result ≡ 0 → HasWrittenSigned S.Scheme scheme.now
        (signing_call K.Source R.Source Z.RandomSource A.Source B.Sink devices.old devices.new)
        (sink_call G.Sink signature.old signature.new) unix_time }
    ensures errors_received { result ≡ 0 → TakesOrFails W.Sink errors.old errors.new warning_line }

    // With exit status 1, either the key's file could not be read as a text, and nothing else was used; or
    // signing failed, and nothing was written; or the text was not written completely.
    ensures refused { result ≡ 1 → ShowsOnlyFault W.Sink errors.old errors.new
        (FileSigningFails S.Scheme scheme.now (signing_call K.Source R.Source Z.RandomSource A.Source B.Sink
        devices.old devices.new) (sink_call G.Sink signature.old signature.new) unix_time) }

    // The unread bytes of the source and of the random source are suffixes of those before the
    // call, whatever the result.
    ensures prefix_removed { PrefixIsRemoved (R.ahead devices.old.data_reader)
        (R.ahead devices.new.data_reader) }
    ensures random_prefix_removed { PrefixIsRemoved (Z.random_ahead devices.old.random)
        (Z.random_ahead devices.new.random) }
{
    warn(errors);
    match write_signature(alloc, scheme, devices, unix_time, signature) {
        Ok(()) => 0,
        Err(fault) => report(errors, &fault),
    }
}

// Makes the signature text, and then writes it to `signature`.
fn write_signature<S: Scheme, K: Source, R: Source, Z: RandomSource, A: Source, B: Sink, G: Sink>(
    alloc: Global,
    scheme: &S,
    devices: &mut SigningDevices<K, R, Z, A, B>,
    unix_time: u64,
    signature: &mut G,
) -> Result<()>
    ensures headline { OnOk result (HasWrittenVouched (S.accepts scheme.now) (S.public_of scheme.now)
        (signing_call K.Source R.Source Z.RandomSource A.Source B.Sink devices.old devices.new)
        (sink_call G.Sink signature.old signature.new)) }
    ensures signed { OnOk result (HasWrittenSigned S.Scheme scheme.now
        (signing_call K.Source R.Source Z.RandomSource A.Source B.Sink devices.old devices.new)
        (sink_call G.Sink signature.old signature.new) unix_time) }
    ensures refused { IfErr result (FileSigningFails S.Scheme scheme.now
        (signing_call K.Source R.Source Z.RandomSource A.Source B.Sink devices.old devices.new)
        (sink_call G.Sink signature.old signature.new) unix_time) }
    ensures prefix_removed { PrefixIsRemoved (R.ahead devices.old.data_reader)
        (R.ahead devices.new.data_reader) }
    ensures random_prefix_removed { PrefixIsRemoved (Z.random_ahead devices.old.random)
        (Z.random_ahead devices.new.random) }
{
    let text = make_text(alloc, scheme, devices, unix_time)?;
    write_text(signature, &text)
}

// Reads the text of the secret key, and makes the signature text with it and the default comments.
fn make_text<S: Scheme, K: Source, R: Source, Z: RandomSource, A: Source, B: Sink>(
    alloc: Global,
    scheme: &S,
    devices: &mut SigningDevices<K, R, Z, A, B>,
    unix_time: u64,
) -> Result<String>
    ensures headline { IfOk result (λ t. MakesVouched (S.accepts scheme.now) (S.public_of scheme.now)
        (signing_call K.Source R.Source Z.RandomSource A.Source B.Sink devices.old devices.new)
        (string_bytes t)) }
    ensures signed { IfOk result (λ t. MakesSigned S.Scheme scheme.now
        (signing_call K.Source R.Source Z.RandomSource A.Source B.Sink devices.old devices.new) unix_time
        (string_bytes t)) }
    ensures refused { IfErr result (NoSignature
        (signing_call K.Source R.Source Z.RandomSource A.Source B.Sink devices.old devices.new)) }
    ensures prefix_removed { PrefixIsRemoved (R.ahead devices.old.data_reader)
        (R.ahead devices.new.data_reader) }
    ensures random_prefix_removed { PrefixIsRemoved (Z.random_ahead devices.old.random)
        (Z.random_ahead devices.new.random) }
{
    let sk_text = read_text(alloc, &mut devices.sk_file)?;
    let (password, trusted_comment, untrusted_comment) = (None, None, None);
    default_comments_are_read_back(unix_time);
    sign_texts(
        alloc,
        scheme,
        &sk_text,
        password,
        &mut devices.prompt,
        &mut devices.data_reader,
        trusted_comment,
        untrusted_comment,
        &mut devices.random,
        unix_time,
    )
}

fn write_text<G: Sink>(sink: &mut G, text: &str) -> Result<()>
    ensures written { OnOk result (SinkCompletesPart (sink_call G.Sink sink.old sink.new) text.now) }
    ensures refused { IfErr result (WriteFails (sink_call G.Sink sink.old sink.new) text.now) }
{
    match put_and_flush(sink, text.as_bytes()) {
        Ok(()) => Ok(()),
        Err(_) => Err(NamedFault::WritingFailed.into()),
    }
}
