//! Tests of devices, prompts and errors.

mod devices;
mod faults;
mod lines;
mod prompts;
mod reading;
