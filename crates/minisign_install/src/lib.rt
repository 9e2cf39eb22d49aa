//! Installs an update if one of the given public keys has signed it. The application makes all system calls;
//! this crate decides which operation comes next.

#![tactic(auto)]

pub mod comments;
pub mod faults;
pub mod histories;
pub mod installation;
mod recording;
pub mod steps;
pub mod traces;

pub use comments::Numbering;
pub use faults::InstallFault;
