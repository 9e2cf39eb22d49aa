//! Paths of files in the directory for temporary files, with the ID of the process in their names.

use minisign_base::errors::Result;
use std::{env, process};

/// Returns the path of a file with this name.
pub fn path_of(rt: &HostRuntime, name: &str) -> Result<String> {
    let id = process::id(rt.process());
    let parent = env::temp_dir(rt)?;
    let path = format!(in rt.alloc(); "{}/minisign_{id}_{name}", parent.as_str())?;
    Ok(path)
}
