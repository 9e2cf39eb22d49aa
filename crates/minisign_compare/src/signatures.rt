//! Answers the requests about signatures, whose names begin with `sig_` or `bones_`.

use crate::refusals::Refusal;
use crate::replies::Reply;
use crate::requests::SignatureRequest;
use crate::words::{bytes_of, text_in, text_of, word};
use minisign::{SignatureBones, SignatureBox};
use std::alloc::Global;

/// Answers a request whose name begins with `sig_` or `bones_`.
pub fn answer(
    rt: &HostRuntime,
    request: &SignatureRequest,
    line: &str,
    reply: &mut Reply,
) -> Result<(), Refusal> {
    let bytes = bytes_of(rt.alloc(), word(line, 1))?;
    match request {
        SignatureRequest::FromString | SignatureRequest::FromFile => {
            answer_text(rt, request, &bytes, reply)
        }
        _ => answer_record(rt.alloc(), request, &bytes, reply),
    }
}

// Parses a signature from a text or from the file with this name, and adds its fields.
fn answer_text(
    rt: &HostRuntime,
    request: &SignatureRequest,
    bytes: &[u8],
    reply: &mut Reply,
) -> Result<(), Refusal> {
    let text = text_in(bytes)?;
    let returned = match request {
        SignatureRequest::FromFile => SignatureBox::from_file(rt, rt.alloc(), text),
        _ => SignatureBox::from_string(rt.alloc(), text),
    };
    show_returned(rt.alloc(), returned, reply);
    Ok(())
}

// Answers a request about a bare signature, which is given by its 74-byte record.
fn answer_record(
    alloc: Global,
    request: &SignatureRequest,
    bytes: &[u8],
    reply: &mut Reply,
) -> Result<(), Refusal> {
    let bones = SignatureBones::from_bytes(bytes)?;
    match request {
        SignatureRequest::FromBytes => show_bones(alloc, &bones, reply),
        _ => show_part(alloc, request, &SignatureBox::from_bones(bones), reply),
    }
    Ok(())
}

// Adds the fields of a bare signature.
fn show_bones(alloc: Global, bones: &SignatureBones, reply: &mut Reply) {
    reply.returned_bytes("bones", bones.to_bytes(alloc));
    reply.fields.flag("prehashed", bones.is_prehashed());
}

// Adds the comment, or the text, of the box that the request names.
fn show_part(
    alloc: Global,
    request: &SignatureRequest,
    signature_box: &SignatureBox,
    reply: &mut Reply,
) {
    match request {
        SignatureRequest::UntrustedComment => {
            reply.returned_text("untrusted", signature_box.untrusted_comment(alloc));
        }
        SignatureRequest::TrustedComment => {
            reply.returned_text("trusted", signature_box.trusted_comment(alloc));
        }
        _ => reply.returned_text("text", signature_box.to_string(alloc)),
    }
}

/// Parses a signature box from a word: `bones:` and the record of a bare signature, or the text of
/// a signature file.
pub fn box_of(alloc: Global, word: &str) -> Result<SignatureBox, Refusal> {
    let Some(record) = word.strip_prefix("bones:") else {
        let text = text_of(alloc, word)?;
        return Ok(SignatureBox::from_string(alloc, text.as_str())?);
    };
    let bytes = bytes_of(alloc, record)?;
    Ok(SignatureBox::from_bones(SignatureBones::from_bytes(&bytes)?))
}

/// Adds the fields of the signature that a call returned, or stores its error.
pub fn show_returned(alloc: Global, returned: minisign::Result<SignatureBox>, reply: &mut Reply) {
    match returned {
        Ok(signature_box) => show(alloc, &signature_box, reply),
        Err(fault) => reply.keep(fault),
    }
}

// Adds the fields of a signature.
fn show(alloc: Global, signature_box: &SignatureBox, reply: &mut Reply) {
    reply.returned_bytes("bones", record_of(alloc, signature_box));
    reply.fields.bytes("keynum", signature_box.keynum());
    reply.fields.flag("prehashed", signature_box.is_prehashed());
    reply.returned_text("untrusted", signature_box.untrusted_comment(alloc));
    reply.returned_text("trusted", signature_box.trusted_comment(alloc));
    reply.returned_text("text", signature_box.to_string(alloc));
}

// Returns the record of a box's signature, without the comments.
fn record_of(alloc: Global, signature_box: &SignatureBox) -> minisign::Result<Vec<u8>> {
    let bones = SignatureBones::from(signature_box.try_clone(alloc)?);
    bones.to_bytes(alloc)
}
