//! The base of the other crates: errors, devices, prompts, the interface of a signature scheme, and
//! the limits of key derivation.

#![tactic(auto)]

pub mod devices;
pub mod errors;
pub mod faults;
pub mod helpers;
pub mod key_ids;
pub mod prompt;
pub mod scheme;
pub mod toy;

pub use devices::DeviceFault;
pub use devices::random_sources::{FixedRandom, RandomSource, SourceRandom};
pub use devices::sinks::{NoSink, Sink, VecSink, WriterSink, put_and_flush, put_line, write_all};
pub use devices::sources::{
    FileSource, NoSource, ReaderSource, Rereader, SliceSource, Source, fill_from,
};
pub use errors::{ErrorKind, PError, Result};
pub use faults::NamedFault;
pub use helpers::{get_password, load_u64_le, raw_scrypt_params, store_u64_le, unix_timestamp};
pub use key_ids::KeyId;
pub use minisign_kdf::Params;
pub use prompt::Prompt;
pub use scheme::Scheme;
pub use toy::{ToyScheme, Triple};
