//! Verifies and signs for a caller that has its own Ed25519: returns the inputs of the Ed25519 checks (the
//! questions), and decides from their results (the answers).

#![tactic(auto)]

pub mod asking;
pub mod bare;
pub mod making;
pub mod numbers;
pub mod pieces;
pub mod public_keys;
pub mod secrets;
pub mod signatures;
pub mod signed_texts;
pub mod state;
pub mod strict;
pub mod unopened_keys;
pub mod value_records;
pub mod verdict;
