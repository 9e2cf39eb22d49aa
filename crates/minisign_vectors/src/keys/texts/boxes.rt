//! Tests that converting a key box to a text gives the text that it was made from.
//! `tests/rows/public_keys.py` and `tests/rows/secret_keys.py` test parsing and writing.

use crate::display::displays_as;
use minisign::{PublicKeyBox, Result, SecretKeyBox};
use minisign_fixtures::outcomes::{gives_record, gives_text};
use minisign_fixtures::texts::{KEY_TEXT, SECRET_TEXT};
use std::alloc::Global;

// Returns the text of a copy of the box.
fn public_copy(alloc: Global, pk_box: &PublicKeyBox) -> Result<String> {
    let copy = pk_box.try_clone(alloc)?;
    Ok(copy.into_string())
}

// Returns true if a box made from this text gives back the text: as bytes, from a copy of the box,
// by `Display`, and by conversion to a `String`.
fn is_public_text(alloc: Global, text: &str) -> bool {
    let Ok(made_of) = String::from_str(alloc, text) else {
        return false;
    };
    let pk_box = PublicKeyBox::from(made_of);
    let bytes = gives_record(pk_box.to_bytes(alloc), text.as_bytes());
    let copy = gives_text(public_copy(alloc, &pk_box), text);
    let shown = displays_as(alloc, &pk_box, text);
    let turned = gives_text(Ok(String::from(pk_box)), text);
    bytes && copy && shown && turned
}

// Returns the text of a copy of a secret key's box.
fn secret_copy(alloc: Global, sk_box: &SecretKeyBox) -> Result<String> {
    let copy = sk_box.try_clone(alloc)?;
    Ok(copy.into_string())
}

// Returns true if a secret key's box made from this text gives back the text in these four ways.
fn is_secret_text(alloc: Global, text: &str) -> bool {
    let Ok(made_of) = String::from_str(alloc, text) else {
        return false;
    };
    let sk_box = SecretKeyBox::from(made_of);
    let bytes = gives_record(sk_box.to_bytes(alloc), text.as_bytes());
    let copy = gives_text(secret_copy(alloc, &sk_box), text);
    let shown = displays_as(alloc, &sk_box, text);
    let turned = gives_text(Ok(String::from(sk_box)), text);
    bytes && copy && shown && turned
}

#[test]
fn boxes_give_back_their_texts(rt: HostRuntime) {
    assert!(rt; is_public_text(rt.alloc(), KEY_TEXT));
    assert!(rt; is_secret_text(rt.alloc(), SECRET_TEXT));
}
