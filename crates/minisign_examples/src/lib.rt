//! Example callers of the libraries, each proved. The tests of `minisign_vectors` run all of them
//! except `asking`.
//!
//! - `updating` verifies an update and checks its name.
//! - `downloading` verifies a download by the signed list of its release.
//! - `rotating` accepts a new public key that the old one has signed.
//! - `releasing` makes key pairs and signs releases.
//! - `small_device` decrypts a secret key in little memory.
//! - `asking` asks for a password again if it was wrong.
//! - `example` signs a message and verifies the signature, with parsed keys.

#![tactic(auto)]

pub mod asking;
pub mod downloading;
pub mod example;
pub mod releasing;
pub mod rotating;
pub mod small_device;
pub mod updating;
