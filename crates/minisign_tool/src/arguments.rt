//! Reads the program's arguments.

ghost use Rattle.std.specs.Prelude.{◌≡◌, drop, map, string_bytes, IfErr, IfOk};
ghost use Rattle.minisign.specs.Fault.{Named};
ghost use Rattle.minisign.specs.NamedFaults.{OutOfMemory};

use minisign::base::{NamedFault, Result};
use std::alloc::{AllocError, Global};
use std::env::FillError;
use std::rt::Env;
use std::{env, io};

// The environment with an empty text in place of the program's path, because the path need not be
// UTF-8.
#[derive(Drop)]
struct UnnamedProgram<'a, R>(&'a R);

impl<R: Env> Env for UnnamedProgram<'_, R> {
    fn arg(&self, i: usize, buf: &mut [u8]) -> std::result::Result<usize, FillError> {
        if i == 0 {
            return Ok(0);
        }
        self.0.arg(i, buf)
    }

    fn var(&self, name: &str, buf: &mut [u8]) -> std::result::Result<usize, FillError> {
        self.0.var(name, buf)
    }

    fn var_at(&self, i: usize, buf: &mut [u8]) -> std::result::Result<usize, FillError> {
        self.0.var_at(i, buf)
    }
}

/// Returns the arguments, with an empty text in place of the program's path, or `None` if another argument
/// is not UTF-8.
pub fn read_arguments<R: Env + AllocGlobal>(rt: &R) -> Result<Option<Vec<String>>>
    // Reading the arguments fails only if an allocation fails.
    ensures { IfErr result (λ e. e ≡ Named OutOfMemory) }
{
    match env::args(&(UnnamedProgram(rt), rt.alloc())) {
        Ok(arguments) => {
            let mut words = Vec::new(rt.alloc());
            'words: for word in arguments {
                words.push(word)?;
            }
            Ok(Some(words))
        }
        Err(error) if error.kind() == io::ErrorKind::OutOfMemory => {
            Err(NamedFault::OutOfMemory.into())
        }
        Err(_) => Ok(None),
    }
}

/// Returns the arguments without the first one, which is the program's path. Fails only if an allocation
/// fails.
pub fn words_of(alloc: Global, arguments: &[String]) -> std::result::Result<Vec<&str>, AllocError>
    // On success, the result holds the texts of all arguments after the first one, in order.
    ensures { IfOk result (λ v. map (λ w. w.now) v.items ≡ map (λ s. string_bytes s) (drop 1 arguments.now)) }
{
    let mut words = Vec::with_capacity(alloc, arguments.len())?;
    if let [_program, behind @ ..] = arguments {
        'words: for argument in behind {
            words.push(argument.as_str())?;
        }
    }
    Ok(words)
}
