//! Blake2b without a key (RFC 7693), for data that comes in pieces, and conversions of 32-bit and
//! 64-bit words to and from little endian bytes.
//!
//! ```rust
//! use minisign_hash::Blake2b;
//!
//! let mut digest = [0u8; 64];
//! let mut hasher = Blake2b::new(64);
//! hasher.update(b"a");
//! hasher.update(b"bc");
//! hasher.finalize(&mut digest);
//! ```
//!
//! No call allocates. No call fails, except those of `WriteExt` if the writer fails.

#![tactic(auto)]

pub mod blake2b;
pub mod constants;
pub mod cryptoutil;
pub mod util;

pub use blake2b::Blake2b;
pub use blake2b::stored::StoredBlake2b;
pub use constants::{
    BLAKE2B_BLOCKBYTES, BLAKE2B_KEYBYTES, BLAKE2B_OUTBYTES, BLAKE2B_PERSONALBYTES,
    BLAKE2B_SALTBYTES,
};
pub use cryptoutil::{
    WriteExt, copy_memory, read_u64v_le, write_u32_le, write_u64_le, write_u64v_le,
};
pub use util::fixed_time_eq;
