//! The sizes of Blake2b in bytes (RFC 7693, 2.1 and 2.5).

/// The length of a block.
pub const BLAKE2B_BLOCKBYTES: usize = 128;

/// The length of the longest digest.
pub const BLAKE2B_OUTBYTES: usize = 64;

/// The length of the longest key. No call of this crate takes a key.
pub const BLAKE2B_KEYBYTES: usize = 64;

/// The length of a salt. No call of this crate takes a salt.
pub const BLAKE2B_SALTBYTES: usize = 16;

/// The length of a personalization string. No call of this crate takes one.
pub const BLAKE2B_PERSONALBYTES: usize = 16;

// Proves that the sizes are those of RFC 7693.
const _: () = prove!(BLAKE2B_BLOCKBYTES == 128);

const _: () = prove!(BLAKE2B_OUTBYTES == 64);

const _: () = prove!(BLAKE2B_KEYBYTES == 64);

const _: () = prove!(BLAKE2B_SALTBYTES == 16);

const _: () = prove!(BLAKE2B_PERSONALBYTES == 16);
