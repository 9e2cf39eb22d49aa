//! Verifies data with the texts of a public key and a signature.

ghost use Rattle.std.specs.Prelude.{◌≡◌, ◌⊎◌, true, false, Ok, IfErr, OnOk, OnErr};
ghost use Rattle.minisign_base.specs.Devices.{PrefixIsRemoved};
ghost use Rattle.minisign_base.specs.DeviceCalls.{SinkReceivesPrefix, rereader_call, sink_call};
ghost use Rattle.minisign.specs.Acceptance.{options_of};
ghost use Rattle.minisign.specs.Records.{PublicKeyRecord, SignatureBoxRecord};
ghost use Rattle.minisign.specs.Verifying.{status_unless_quiet, VerifyingTextsFails, VerifyingTextsSucceeds};
ghost use Rattle.minisign.specs.Verifying.{read_texts};
ghost use Rattle.minisign.specs.Texts.{IsValueOrNoMemory, map_ok};
ghost use Rattle.minisign.specs.Headline.{CopyIsVouchedFor, IfNothingFails, verdict};

use crate::in_place::read_public_key;
use crate::public_key::PublicKey;
use crate::signature_box::SignatureBox;
use crate::verifying::verify;
use minisign_base::Result;
use minisign_base::devices::sinks::Sink;
use minisign_base::devices::sources::Rereader;
use minisign_base::scheme::Scheme;
use std::alloc::Global;

/// Verifies that `sig_text` is a valid signature of all the unread data of `data_reader` under the
/// public key in `pk_text`. Parses the public key as `PublicKey::from_box` does and the signature
/// as `SignatureBox::from_string` does, and then calls `verify`.
///
/// The public key is parsed first, then the signature, both before any data is read. If either is rejected,
/// `data_reader`, `status` and `out` are unchanged. Everything else is as documented for `verify`.
pub fn verify_texts<S: Scheme, R: Rereader, W: Sink, O: Sink>(
    alloc: Global,
    scheme: &S,
    pk_text: &str,
    sig_text: &str,
    data_reader: &mut R,
    quiet: bool,
    output: bool,
    allow_legacy: bool,
    status: &mut W,
    out: &mut O,
) -> Result<()>
    // Provided that the source's bytes are known, that no device fails and, if the data is copied, that the
    // source is steady, the result is out of memory or exactly the verdict: success if the signature is
    // valid for the data under the public key, and otherwise the error of the first check that fails. The
    // verdict is a function of the two texts, the data and `allow_legacy`.
    ensures headline { IfNothingFails output (rereader_call R.Source R.steady data_reader.old
        data_reader.new) (sink_call W.Sink status.old status.new) (sink_call O.Sink out.old out.new) result
        (λ bytes. map_ok (λ _. tt)
        (verdict (S.accepts scheme.now) pk_text.now sig_text.now bytes allow_legacy)) }

    // On success, both texts were parsed, and everything that `verify` promises on success holds for the
    // parsed public key and signature box.
    ensures accepted { OnOk result (VerifyingTextsSucceeds (S.accepts scheme.now) pk_text.now sig_text.now
        (options_of quiet output allow_legacy) (rereader_call R.Source R.steady data_reader.old
        data_reader.new) (sink_call W.Sink status.old status.new) (sink_call O.Sink out.old out.new)) }

    // On success with `output`, the signature is valid for the bytes that `out` received, even if the
    // second reading returned different data from the first.
    ensures vouched { output ≡ true
        → OnOk result (CopyIsVouchedFor (S.accepts scheme.now) pk_text.now sig_text.now allow_legacy
        (sink_call O.Sink out.old out.new)) }

    // If a text is rejected, or an allocation for one fails, nothing has been read, reported or copied. The
    // public key text is checked before the signature text.
    //
    // Any other error is one that `verify` returns for the parsed public key and signature box, and the
    // promises that `verify` makes about errors hold.
    ensures refused { IfErr result (VerifyingTextsFails (S.accepts scheme.now) pk_text.now sig_text.now
        (options_of quiet output allow_legacy) (rereader_call R.Source R.steady data_reader.old
        data_reader.new) (sink_call W.Sink status.old status.new) (sink_call O.Sink out.old out.new)) }

    // After an error, `status` is unchanged or has received a prefix of the status lines.
    ensures status_prefix_received { OnErr result ((status.new ≡ status.old) ⊎
        ((key : PublicKeyRecord) × (box : SignatureBoxRecord) × (read_texts pk_text.now sig_text.now
        ≡ Ok (key, box)) × SinkReceivesPrefix (sink_call W.Sink status.old status.new)
        (status_unless_quiet quiet
        box))) }

    // Without `output`, the unread bytes of `data_reader` are a suffix of those before the call.
    ensures prefix_removed { output ≡ false
        → PrefixIsRemoved (R.ahead data_reader.old) (R.ahead data_reader.new) }

    // With `quiet`, `status` is unchanged.
    ensures status_unchanged { quiet ≡ true → status.new ≡ status.old }

    // Without `output`, `out` is unchanged.
    ensures out_unchanged { output ≡ false → out.new ≡ out.old }
{
    let (pk, signature_box) = read_texts(alloc, pk_text, sig_text)?;
    verify(
        alloc,
        scheme,
        &pk,
        &signature_box,
        data_reader,
        quiet,
        output,
        allow_legacy,
        status,
        out,
    )
}

// Parses both texts, the public key first.
pub(crate) fn read_texts(
    alloc: Global,
    pk_text: &str,
    sig_text: &str,
) -> Result<(PublicKey, SignatureBox)>
    ensures { IsValueOrNoMemory result (read_texts pk_text.now sig_text.now) }
{
    let pk = read_public_key(pk_text)?;
    let signature_box = SignatureBox::from_string(alloc, sig_text)?;
    Ok((pk, signature_box))
}
