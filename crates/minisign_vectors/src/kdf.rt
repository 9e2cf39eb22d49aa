//! Tests of HMAC, PBKDF2 and scrypt that no request to `minisign_compare` can describe: parameters,
//! rows that are not kept in memory, and failed allocations. `tests/rows/deriving.py` has test vectors
//! of derived keys.

mod kept_rows;
mod key_derivation;
pub mod passed_memory;
mod refused_allocations;
