//! `SignedData`, the data as it is held in memory after it was read.

ghost use Rattle.std.specs.Prelude.{◌≡◌, List, ℕ, MatchResult};
ghost use Rattle.minisign_base.specs.Devices.{PrefixIsRemoved};
ghost use Rattle.minisign.specs.Reading.{IsReadFault, ReadsWhole};
ghost use Rattle.minisign.specs.Verifying.{HoldsSigned, held_bytes};

use crate::reading::{prehash, read_to_end};
use crate::signature_box::SignatureBox;
use minisign_base::Result;
use minisign_base::devices::sources::Source;
use std::alloc::Global;

// The data in the form that the signature signs.
#[derive(Drop)]
pub(crate) enum SignedData {
    // Prehashed: the 64-byte Blake2b digest of the data. The data itself is not kept.
    Digest([u8; 64]),
    // Legacy: the data itself.
    Message(Vec<u8>),
    // A legacy signature that will be rejected, because legacy signatures are not allowed. No data is kept,
    // because the signature is rejected without a check of the data.
    NoData,
}

impl SignedData {
    // Returns the bytes that the signature signs.
    pub(crate) fn as_bytes(&self) -> &[u8]
        ensures { result.now ≡ held_bytes self.now }
    {
        match self {
            SignedData::Digest(digest) => digest,
            SignedData::Message(bytes) => bytes,
            SignedData::NoData => b"",
        }
    }
}

// Reads all unread data in pieces. It is kept in memory only for a legacy signature that is
// allowed. Otherwise it is hashed, so that an attacker cannot fill the memory with a large file.
// The data is read to its end even if the signature will be rejected, because read errors come
// before the verdict.
pub(crate) fn read_signed_data<R: Source>(
    alloc: Global,
    signature_box: &SignatureBox,
    data_reader: &mut R,
    allow_legacy: bool,
) -> Result<SignedData>
    ensures held { MatchResult result (λ d. (message : List ℕ) × ReadsWhole R.Source data_reader.old
        data_reader.new message × HoldsSigned d signature_box.now allow_legacy message)
        (IsReadFault R.Source data_reader.old data_reader.new) }
    ensures prefix_removed { PrefixIsRemoved (R.ahead data_reader.old) (R.ahead data_reader.new) }
    ensures is_marked_unchanged { R.is_marked data_reader.new ≡ R.is_marked data_reader.old }
{
    if !signature_box.is_prehashed() && allow_legacy {
        return Ok(SignedData::Message(read_to_end(alloc, data_reader)?));
    }
    let digest = prehash(alloc, data_reader)?;
    if signature_box.is_prehashed() {
        Ok(SignedData::Digest(digest))
    } else {
        Ok(SignedData::NoData)
    }
}
