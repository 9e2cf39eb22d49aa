//! Tests of signatures: their texts, signing and verifying.

pub mod calls;
mod devices;
mod published;
mod signing;
mod texts;
mod verifying;
