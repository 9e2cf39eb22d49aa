//! Key derivation: HMAC and PBKDF2 with SHA-256, and scrypt (RFC 2104, RFC 8018, RFC 7914).
//!
//! scrypt fills a large memory with N rows and then looks rows up. [`scrypt`] keeps all rows in memory.
//! [`scrypt_keeping`] keeps only every k-th row and computes the others again, which saves memory and
//! costs time. [`scrypt_in`] does so too, in memory that the caller provides. All three derive the same
//! key. [`Rows`] are the kept rows, and [`mix_kept`] is the step of scrypt that looks rows up.
//!
//! The definitions in `specs/` define the result of each call, with the names of its RFC.

#![tactic(auto)]

mod block_mix;
mod diagonal_order;
pub mod errors;
pub mod hmac;
pub mod kept_rows;
pub mod key_derivation;
pub mod params;
pub mod pbkdf2;
pub mod rom_mix;
mod row_memory;
mod salsa;

pub use errors::{InvalidOutputLen, InvalidParams, KdfError};
pub use hmac::hmac_sha256;
pub use kept_rows::Rows;
pub use key_derivation::{clear_memory, scrypt, scrypt_in, scrypt_keeping};
pub use params::Params;
pub use pbkdf2::pbkdf2_once;
pub use rom_mix::mix_kept;
