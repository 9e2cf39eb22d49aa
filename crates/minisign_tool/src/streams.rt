//! Keeps the file descriptors of closed standard streams occupied, so that no other file gets one of them.

use std::fs::File;
use std::os::fd::AsFd;
use std::{fs, io};

/// The directories that are open in place of closed standard streams, for as long as this value exists.
#[derive(Drop)]
pub struct HeldStreams {
    _input: Option<File>,
    _output: Option<File>,
    _errors: Option<File>,
}

/// Opens a directory in place of each standard stream that is closed. Otherwise the first files that are
/// opened would get the descriptors of closed streams, and a password would be read from a key's file, or a
/// message written into a signature. A directory can be neither read nor written this way, so a closed
/// stream still behaves like a closed one.
pub fn hold_closed_streams(rt: &HostRuntime) -> io::Result<HeldStreams> {
    Ok(HeldStreams {
        _input: hold(rt, rt.stdin())?,
        _output: hold(rt, rt.stdout())?,
        _errors: hold(rt, rt.stderr())?,
    })
}

// Opens a directory in place of a closed stream. It gets the lowest free descriptor.
fn hold<F: AsFd + Drop>(rt: &HostRuntime, stream: F) -> io::Result<Option<File>> {
    match stream.as_fd().try_clone_to_owned() {
        Ok(_open) => Ok(None),
        Err(_) => Ok(Some(fs::open(rt, "/")?)),
    }
}
