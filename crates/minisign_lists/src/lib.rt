//! Checks files against a signed list, such as `SHA256SUMS` with its signature `SHA256SUMS.minisig`.
//!
//! A list has one line for each file, with its digest and its name. [`verify_listed`] verifies the
//! list and compares data in memory with its entry, and [`ListedFile`] does so with data in pieces.
//! [`Entries`] reads all entries. No call allocates.

#![tactic(auto)]

pub mod comments;
pub mod digests;
pub mod entries;
pub mod faults;
pub mod finding;
pub mod lines;
pub mod names;
pub mod values;
pub mod verifying;
pub mod writing;

pub use comments::names_list;
pub use digests::{Algorithm, FileCheck, ListedDigest};
pub use entries::Entries;
pub use faults::{ListFault, Result};
pub use finding::find_listed;
pub use lines::{EntryView, LongDigest};
pub use verifying::{ListedFile, verify_listed};
