//! Tests of keys: their texts and records, encrypted keys, and generated pairs.

mod generated;
pub mod refused_allocations;
pub mod sealed;
mod texts;
