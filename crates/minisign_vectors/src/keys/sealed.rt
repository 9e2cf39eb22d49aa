//! Tests of encrypted secret keys that no request to `minisign_compare` can describe: a bound on
//! the work, rows that are not kept, and prompts that fail or return bytes that are not UTF-8.
//! `tests/rows/sealed_keys.py` has all other cases.

pub mod calls;
mod faults;
pub mod in_parts;
mod in_place;
mod less_memory;
mod opening;
