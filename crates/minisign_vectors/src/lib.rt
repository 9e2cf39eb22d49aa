//! Tests of the library that cannot be written as requests to the program `minisign_compare`, which reads
//! requests, makes the calls that they name, and prints the results. Most tests of the library are such
//! requests, in `tests/rows/`. This crate tests calls for which there is no request, devices that fail at a
//! chosen operation, failed allocations, and example callers. The calls for a scheme outside the library are
//! tested from C in `tests/c`, and installing is tested on real files by `tests/installer`.
//!
//! Each expected value comes from outside: from a standard, from Python's hashlib, from the
//! upstream tool, or worked out by hand from a definition. None is the output of a crate of this
//! repository.
//!
//! The comments of the tests call the fixed key pair of `minisign_fixtures::keys` "key A". Its public key
//! file is `KEY_TEXT`. Its secret key file is `SECRET_TEXT` or, encrypted with the password `password`,
//! `SEALED`.

#![tactic(auto)]

#[cfg(test)]
mod callers;
#[cfg(test)]
mod devices_and_errors;
#[cfg(test)]
mod display;
#[cfg(test)]
mod downloads;
#[cfg(test)]
mod files;
#[cfg(test)]
mod hash;
#[cfg(test)]
mod kdf;
#[cfg(test)]
mod keys;
#[cfg(test)]
mod names;
// An example caller. Its contract is proved with the crate, so it is not limited to tests.
pub mod passwords;
#[cfg(test)]
mod releases;
#[cfg(test)]
mod signatures;
#[cfg(test)]
mod silent_calls;
#[cfg(test)]
mod tables;
