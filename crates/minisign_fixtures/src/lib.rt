//! Code that the tests in `minisign_vectors` and the program `minisign_compare` share: key A with
//! its encoded keys and signatures, devices that fail, and paths of temporary files. It has no
//! tests of its own.

#![tactic(auto)]

pub mod devices;
pub mod files;
pub mod keys;
pub mod outcomes;
pub mod prompts;
pub mod texts;
