//! Minisign: keys, signatures, and the verification of data with a public key and a signature.
//!
//! The caller passes in a signature scheme, a source of random bytes, and the devices that bytes are read
//! from and written to.

#![tactic(auto)]

mod base64_front;
pub mod calls;
mod comment_place;
mod comment_signature;
mod constants;
mod copying;
mod drawing;
mod fields;
pub mod in_place;
mod judging;
pub mod key_calls;
pub mod keynum;
pub mod keypair;
pub mod making;
mod memory;
mod opening;
pub mod options;
pub mod parts;
pub mod public_key;
pub mod public_key_box;
pub mod reading;
mod sealing;
pub mod secret_key;
pub mod secret_key_box;
pub mod secret_key_in_place;
pub mod signature;
pub mod signature_bones;
pub mod signature_box;
mod signed_data;
pub mod signing;
pub mod signing_texts;
mod texts;
pub mod verifying;
pub mod verifying_texts;

pub use calls::{
    copy_verified, verify_bytes, verify_file, verify_in_place, verify_reader, verify_with,
};
pub use comment_place::trusted_comment_place;
pub use constants::{
    DEFAULT_COMMENT, SIG_DEFAULT_CONFIG_DIR, SIG_DEFAULT_CONFIG_DIR_ENV_VAR, SIG_DEFAULT_PKFILE,
    SIG_DEFAULT_SKFILE, SIG_SUFFIX,
};
pub use in_place::{SignatureView, read_bare_public_key, read_public_key, read_signature};
pub use judging::judge_key;
pub use key_calls::{open_with_password, sign_bytes, sign_file, sign_reader};
pub use keypair::KeyPair;
pub use making::{Sealing, make_public_key, make_secret_key};
pub use minisign_base;
pub use minisign_base as base;
pub use minisign_base::{
    DeviceFault, ErrorKind, FileSource, FixedRandom, NamedFault, NoSink, NoSource, PError, Params,
    Prompt, RandomSource, ReaderSource, Rereader, Result, Scheme, Sink, SliceSource, Source,
    SourceRandom, ToyScheme, Triple, VecSink, WriterSink,
};
pub use minisign_hash;
pub use minisign_hash as hash;
pub use minisign_kdf::clear_memory;
pub use options::VerifyOptions;
pub use parts::write_comment_message;
pub use public_key::PublicKey;
pub use public_key_box::PublicKeyBox;
pub use secret_key::SecretKey;
pub use secret_key_box::SecretKeyBox;
pub use secret_key_in_place::read_secret_key;
pub use signature::Signature;
pub use signature_bones::SignatureBones;
pub use signature_box::SignatureBox;
pub use signing::{default_comments_are_read_back, sign};
pub use signing_texts::sign_texts;
pub use texts::texts_are_decided;
pub use verifying::{unvouched_parts_change_no_verdict, verdicts_are_decided, verify};
pub use verifying_texts::verify_texts;
