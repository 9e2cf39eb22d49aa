//! Tests of texts and records of keys and signatures.

mod boxes;
mod records;
