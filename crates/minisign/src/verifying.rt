//! Verifies data with a parsed public key and signature box.

ghost use Rattle.std.specs.Prelude.{◌≡◌, ◌↔◌, ℕ, Bool, List, true, false, ◌⊎◌, Ok, Err, IfOk, IfErr, OnOk};
ghost use Rattle.std.specs.Prelude.{OnErr};
ghost use Rattle.minisign_base.specs.Devices.{PrefixIsRemoved};
ghost use Rattle.minisign_base.specs.Fault.{Named};
ghost use Rattle.minisign_base.specs.declared.faults.NamedFault.TheVariants.{GoingBackFailed, OutOfMemory};
ghost use Rattle.minisign_base.specs.DeviceCalls.{IsWritingFault, Marks, SinkReceives, SinkReceivesPrefix};
ghost use Rattle.minisign_base.specs.DeviceCalls.{rereader_call};
ghost use Rattle.minisign_base.specs.DeviceCalls.{sink_call, no_sink};
ghost use Rattle.minisign.specs.Records.{PublicKeyRecord, SignatureBoxRecord};
ghost use Rattle.minisign.specs.Acceptance.{Verifier, Vouches, accepts_comments, options_of, judge};
ghost use Rattle.minisign.specs.Acceptance.{judge_key, judged_parts, status_lines, judge_answers};
ghost use Rattle.minisign.specs.Headline.{TextsVouchWith, IfNothingFails, verdict};
ghost use Rattle.minisign.specs.Texts.{IsValueOrNoMemory, IsReading, and_then};
ghost use Rattle.minisign.specs.Verifying.{HoldsSigned, StagesEnd, is_reread, reading_stages, VerifyingFails};
ghost use Rattle.minisign.specs.Verifying.{VerifyingSucceeds, status_unless_quiet};

use crate::comment_signature::accepts_comments;
use crate::copying::copy_out;
use crate::judging::judge_key;
use crate::public_key::PublicKey;
use crate::signature_box::SignatureBox;
use crate::signed_data::{SignedData, read_signed_data};
use minisign_base::devices::sinks::{Sink, put_line};
use minisign_base::devices::sources::Rereader;
use minisign_base::scheme::Scheme;
use minisign_base::{NamedFault, Result};
use std::alloc::Global;

/// Verifies that `signature_box` is a valid signature of all the unread data of `data_reader` under
/// `pk`. With `output`, copies the verified data to `out`.
///
/// The data is read to its end first, in pieces of 64 KiB. It is hashed while it is read, so memory use
/// does not grow with its size. Only the data of a legacy signature is kept in memory, and only if
/// `allow_legacy` is set. Then the signature is checked, and the first condition that fails is returned as
/// an error, with `status` and `out` unchanged. On success, unless `quiet` is set, `status` receives a line
/// that says so, and a second line with the trusted comment if there is one. `status` is not flushed.
///
/// With `output`, the data of a prehashed signature is read twice: its start is marked first, and after the
/// verdict the source goes back to the mark. The second reading is hashed while it is copied. If its digest
/// equals that of the first reading, `out` is flushed. Otherwise `DataChanged` is returned, and `out` holds
/// the unverified data of the second reading, not flushed: discard it. The data of a legacy signature is
/// written from memory and flushed, without a second reading.
///
/// Errors of `data_reader` come before any check of the signature, then errors of `status`, and errors of
/// `out` last. An allocation may fail for the read buffer, the data of a legacy signature, the comment
/// message and the status lines, with `status` and `out` unchanged, and for the buffer of the second
/// reading.
pub fn verify<S: Scheme, R: Rereader, W: Sink, O: Sink>(
    alloc: Global,
    scheme: &S,
    pk: &PublicKey,
    signature_box: &SignatureBox,
    data_reader: &mut R,
    quiet: bool,
    output: bool,
    allow_legacy: bool,
    status: &mut W,
    out: &mut O,
) -> Result<()>
    // Provided that the source's bytes are known, that no device fails and, if the data is copied, that the
    // source is steady, the result is out of memory or exactly what the function `judge` gives for the public
    // key, the signature box, the data and `allow_legacy`.
    ensures headline { IfNothingFails output (rereader_call R.Source R.steady data_reader.old
        data_reader.new) (sink_call W.Sink status.old status.new) (sink_call O.Sink out.old out.new) result
        (λ message. judge (S.accepts scheme.now) pk.now signature_box.now message allow_legacy) }

    // On success, the signature box is valid for all the unread bytes of `data_reader`. That means:
    // the key IDs are equal; the signature is prehashed, or `allow_legacy` is set; the scheme
    // accepts the signature for the Blake2b digest of the data (for a legacy signature, for the
    // data itself); and the comment signature, if there is one, has at least 64 bytes, and the
    // scheme accepts the first 64 for the signature followed by the trusted comment. All the data
    // was read to its end without an error. The marked bytes are unchanged, except with `output` for a
    // prehashed signature.
    //
    // On success, `status` received exactly the status lines, or nothing with `quiet`, and was not flushed.
    // Neither `status` nor `out` failed.
    //
    // On success with `output`, the signature box is valid for the bytes that `out` received, whatever a
    // second reading returned. These bytes have the digest of the verified data; for a legacy signature
    // they are the verified data. They are also the verified data if the source is steady and its bytes are
    // known.
    //
    // On success with `output` for a prehashed signature, the source went back to the mark and was read to
    // its end again. `out` received what the second reading returned, and its digest equals that of the
    // first reading. So data that changes between the two readings is rejected exactly if its digest is
    // different.
    //
    // On success with `output`, the copy was flushed. If verification fails before the digests are
    // compared, `out` was not flushed.
    ensures accepted { OnOk result (VerifyingSucceeds (S.accepts scheme.now) pk.now signature_box.now
        (options_of quiet output allow_legacy) (rereader_call R.Source R.steady data_reader.old
        data_reader.new) (sink_call W.Sink status.old status.new) (sink_call O.Sink out.old out.new)) }

    // An error comes from one of the following stages. All earlier stages succeeded, no later stage was
    // started, and each stage changes only the devices that it uses. First the start of the data is marked,
    // if the data of a prehashed signature is to be copied. Then the data is read to its end, the signature
    // is checked, and unless `quiet` is set the status lines are written. With `output`, the data of a
    // prehashed signature is then copied: the source goes back to the mark, the data is read again and
    // written, its digest is compared, and `out` is flushed. The data of a legacy signature is written and
    // flushed.
    //
    // If the signature is rejected, all the data was read without an error, the error is the one that the
    // function `judge` gives for that data, and `status` and `out` are unchanged.
    //
    // `going back failed` is returned only if marking fails, before anything is read, or if going back
    // fails, before anything is copied. The source's error count rose, and no place is marked.
    //
    // `reading failed` is returned only if the source's error count rose during a read. If a mark was set, it
    // stays set, but nothing is promised about the bytes that going back to it restores.
    //
    // `writing failed` is returned for `status` only if its error count rose, only for a valid signature,
    // and never with `quiet`. `status` has received a prefix of its lines, and `out` is unchanged.
    //
    // `writing failed` is returned for `out` only if its error count rose, and after `status` received its
    // lines. `out` has received a prefix of the second reading, or of the data of a legacy signature; if
    // the flush failed, it has received all of it.
    //
    // `Data changed between verification and output` is returned only if the whole second reading was
    // copied and its digest differs from that of the verified data.
    //
    // Out of memory is returned only if no error count rose. Either it occurs in the first reading, while
    // the signature is checked or before `status` receives anything, and `status` and `out` are unchanged;
    // or it occurs after going back and before the second reading begins, and nothing was copied. So
    // neither a device's error nor a partial copy is ever reported as out of memory.
    //
    // A read only removes bytes from the front of the source's unread bytes. Going back restores
    // the marked bytes, which for a steady source are those that were unread at first.
    ensures refused { IfErr result (VerifyingFails (S.accepts scheme.now) pk.now signature_box.now
        (options_of quiet output allow_legacy) (rereader_call R.Source R.steady data_reader.old
        data_reader.new) (sink_call W.Sink status.old status.new) (sink_call O.Sink out.old out.new)) }

    // After an error, `status` has received a prefix of the status lines, which may be empty.
    ensures status_prefix_received { OnErr result
        (SinkReceivesPrefix (sink_call W.Sink status.old status.new)
        (status_unless_quiet quiet signature_box.now)) }

    // Except with `output` for a prehashed signature, the unread bytes of `data_reader` are a suffix
    // of those before the call, whatever the result.
    ensures prefix_removed { is_reread output signature_box.now ≡ false
        → PrefixIsRemoved (R.ahead data_reader.old) (R.ahead data_reader.new) }

    // With `quiet`, `status` is unchanged.
    ensures status_unchanged { quiet ≡ true → status.new ≡ status.old }

    // Without `output`, `out` is unchanged.
    ensures out_unchanged { output ≡ false → out.new ≡ out.old }
{
    let signed = read_data(alloc, signature_box, data_reader, output, allow_legacy)?;
    judge(
        alloc,
        scheme,
        pk,
        signature_box,
        signed.as_bytes(),
        allow_legacy,
    )?;
    say(alloc, status, signature_box, quiet)?;
    copy_out(alloc, &signed, data_reader, output, out)
}

/// States which parts of the inputs never change a verdict, for every scheme. This function is a law: it does
/// nothing, and exists only for its contract.
#[tactic(auto, using(crate::proofs::Verdicts::unvouched_same))]
pub fn unvouched_parts_change_no_verdict()
    // The verdict does not depend on the untrusted comment, on the public key's algorithm bytes, or on any
    // bytes after the 64th of the comment signature.
    ensures { (accepts : Verifier) (pk key : PublicKeyRecord) (x other : SignatureBoxRecord)
        (message : List ℕ) (legacy : Bool) → judged_parts key other ≡ judged_parts pk x →
        judge accepts key other message legacy ≡ judge accepts pk x message legacy }
{}

/// States that the functions `judge` and `verdict` agree with the records that list the conditions for a
/// valid signature. This function is a law: it does nothing, and exists only for its contract.
#[tactic(auto, using(crate::proofs::Verdicts::judge_decided, crate::proofs::Verdicts::verdict_decided))]
pub fn verdicts_are_decided()
    // The function `judge` accepts a signature box exactly if the box is valid for the message under the
    // public key.
    ensures judge { (accepts : Verifier) (pk : PublicKeyRecord) (x : SignatureBoxRecord) (message : List ℕ)
        (legacy : Bool) →
        (judge accepts pk x message legacy ≡ Ok tt) ↔ Vouches accepts pk x message legacy }

    // The function `verdict` gives a comment exactly if the signature text is valid for the message under
    // the public key text and has this trusted comment. There is at most one such comment, and there is
    // none if `verdict` gives an error.
    ensures verdict { (accepts : Verifier) (pk_text sig_text message : List ℕ) (legacy : Bool) →
        IsReading (TextsVouchWith accepts pk_text sig_text message legacy)
        (verdict accepts pk_text sig_text message legacy) }
{}

// Marks the beginning of the data if it will be read again, and reads the data to its end.
fn read_data<R: Rereader>(
    alloc: Global,
    signature_box: &SignatureBox,
    data_reader: &mut R,
    output: bool,
    allow_legacy: bool,
) -> Result<SignedData>
    ensures held { IfOk result (λ d. (message : List ℕ) × HoldsSigned d signature_box.now allow_legacy message
        × StagesEnd (rereader_call R.Source R.steady data_reader.old data_reader.new) no_sink no_sink
        (reading_stages (is_reread output signature_box.now) message) (Ok tt)) }
    ensures refused { IfErr result (λ e. (message : List ℕ)
        × StagesEnd (rereader_call R.Source R.steady data_reader.old data_reader.new) no_sink no_sink
        (reading_stages (is_reread output signature_box.now) message) (Err e)) }
    ensures prefix_removed { PrefixIsRemoved (R.ahead data_reader.old) (R.ahead data_reader.new) }
{
    mark_place(data_reader, reads_again(signature_box, output))?;
    read_signed_data(alloc, signature_box, data_reader, allow_legacy)
}

// Returns true if the data will be read twice: it is to be copied, and only its digest is kept in memory.
fn reads_again(signature_box: &SignatureBox, output: bool) -> bool
    ensures { result ≡ is_reread output signature_box.now }
{
    output && signature_box.is_prehashed()
}

fn mark_place<R: Rereader>(data_reader: &mut R, again: bool) -> Result<()>
    ensures ahead { OnOk result (R.ahead data_reader.new ≡ R.ahead data_reader.old) }
    ensures unmarked { again ≡ false → data_reader.new ≡ data_reader.old }
    ensures marked { again ≡ true
        → OnOk result (Marks (rereader_call R.Source R.steady data_reader.old data_reader.new) (Ok tt)) }
    ensures refused { IfErr result (λ e. (again ≡ true) × (e ≡ Named GoingBackFailed)
        × Marks (rereader_call R.Source R.steady data_reader.old data_reader.new) (Err tt)) }
{
    if !again {
        return Ok(());
    }
    match data_reader.mark() {
        Ok(()) => Ok(()),
        Err(_) => Err(NamedFault::GoingBackFailed.into()),
    }
}

// Makes the checks of a signature in their order. `signed` is the digest of the data, or the data
// of a legacy signature.
fn judge<S: Scheme>(
    alloc: Global,
    scheme: &S,
    pk: &PublicKey,
    signature_box: &SignatureBox,
    signed: &[u8],
    allow_legacy: bool,
) -> Result<()>
    ensures { IsValueOrNoMemory result
        (and_then (judge_key pk.now.keynum signature_box.now.signature allow_legacy) (λ _.
        judge_answers (S.accepts scheme.now signed.now pk.now.key signature_box.now.signature.signature)
        (accepts_comments (S.accepts scheme.now) pk.now signature_box.now))) }
{
    let signature = &signature_box.signature;
    judge_key(pk.key_id(), signature, allow_legacy)?;
    if !scheme.verify(signed, &pk.keynum_pk.pk, &signature.sig) {
        return Err(NamedFault::SignatureRefused.into());
    }
    if !accepts_comments(alloc, scheme, pk, signature_box)? {
        return Err(NamedFault::CommentSignatureRefused.into());
    }
    Ok(())
}

// Writes the status lines unless `quiet` is set.
fn say<W: Sink>(
    alloc: Global,
    status: &mut W,
    signature_box: &SignatureBox,
    quiet: bool,
) -> Result<()>
    ensures status_received { OnOk result (SinkReceives (sink_call W.Sink status.old status.new)
        (status_unless_quiet quiet signature_box.now)) }
    ensures no_new_fault { OnOk result (W.sink_faults status.new ≡ W.sink_faults status.old) }
    ensures status_unchanged { quiet ≡ true → status.new ≡ status.old }
    ensures refused { IfErr result
        (λ e. (quiet ≡ false) × (((e ≡ Named OutOfMemory) × (status.new ≡ status.old))
        ⊎ IsWritingFault (sink_call W.Sink status.old status.new) e)) }
    ensures unflushed { W.flushed status.new ≡ W.flushed status.old }
    ensures prefix_received { OnErr result
        (SinkReceivesPrefix (sink_call W.Sink status.old status.new)
        (status_unless_quiet quiet signature_box.now)) }
{
    if quiet {
        return Ok(());
    }
    say_lines(alloc, status, signature_box)
}

// Writes the status lines in one write.
#[tactic(auto, unfolding(crate::specs::Acceptance::verified_text, crate::specs::Acceptance::trusted_comment_text))]
fn say_lines<W: Sink>(alloc: Global, status: &mut W, signature_box: &SignatureBox) -> Result<()>
    ensures status_received { OnOk result (SinkReceives (sink_call W.Sink status.old status.new)
        (status_lines signature_box.now)) }
    ensures no_new_fault { OnOk result (W.sink_faults status.new ≡ W.sink_faults status.old) }
    ensures refused { IfErr result (λ e. ((e ≡ Named OutOfMemory) × (status.new ≡ status.old))
        ⊎ IsWritingFault (sink_call W.Sink status.old status.new) e) }
    ensures unflushed { W.flushed status.new ≡ W.flushed status.old }
    ensures prefix_received { OnErr result
        (SinkReceivesPrefix (sink_call W.Sink status.old status.new) (status_lines signature_box.now)) }
{
    match &signature_box.comments {
        Some(comments) => put_line(
            alloc,
            status,
            b"Signature and comment signature verified\nTrusted comment: ",
            comments.trusted_comment.as_bytes(),
        ),
        None => put_line(
            alloc,
            status,
            b"Signature and comment signature verified",
            b"",
        ),
    }
}
