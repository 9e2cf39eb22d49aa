//! Devices for tests: they split bytes finely, accept a limited number, or fail.

pub mod random;
pub mod sinks;
pub mod sources;
pub mod turn;
