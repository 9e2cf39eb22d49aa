//! Tests of devices that fail, and of failed allocations.

mod failing;
mod refused_allocations;
