//! The triples that the toy scheme accepts in addition to its own signatures.

ghost use Rattle.std.specs.Prelude.{◌≡◌, [], ◌∷◌, ◌++◌, IfErr, OnOk};

use crate::refusals::Refusal;
use crate::words::{bytes_of, word};
use minisign::base::toy::Triple;
use std::alloc::Global;

// A message, a public key and a signature.
#[derive(Drop)]
struct Listed {
    message: Vec<u8>,
    public_key: [u8; 32],
    signature: [u8; 64],
}

/// The triples that requests added.
#[derive(Drop)]
pub struct Table {
    listed: Vec<Listed>,
}

impl Table {
    /// Returns an empty table.
    pub fn new(alloc: Global) -> Table {
        Table {
            listed: Vec::new(alloc),
        }
    }

    /// Answers `table_clear`: removes all triples.
    pub fn clear(&mut self)
        ensures { self.new.listed.items ≡ [] }
    {
        self.listed.clear();
    }

    /// Answers `table_add`: adds a triple.
    pub fn add(&mut self, alloc: Global, line: &str) -> Result<(), Refusal>
        ensures added { OnOk result ((triple : Listed)
            × (self.new.listed.items ≡ self.old.listed.items ++ (triple ∷ []))) }
        ensures unchanged { IfErr result (λ _. self.new.listed.items ≡ self.old.listed.items) }
    {
        let public_key = array_of::<32>(alloc, word(line, 2))?;
        let signature = array_of::<64>(alloc, word(line, 3))?;
        let message = bytes_of(alloc, word(line, 1))?;
        self.listed.push(Listed {
            message,
            public_key,
            signature,
        })?;
        Ok(())
    }

    /// Returns the triples in the form that the scheme expects.
    pub fn triples(&self, alloc: Global) -> Result<Vec<Triple<'_>>, Refusal> {
        let mut triples = Vec::new(alloc);
        for listed in self.listed.iter() {
            triples.push(Triple {
                message: &listed.message,
                public_key: listed.public_key,
                signature: listed.signature,
            })?;
        }
        Ok(triples)
    }
}

// Parses a word as an array of exactly `N` bytes.
fn array_of<const N: usize>(alloc: Global, word: &str) -> Result<[u8; N], Refusal> {
    let bytes = bytes_of(alloc, word)?;
    if bytes.len() != N {
        return Err(Refusal::BadRequest);
    }
    let mut array = [0u8; N];
    array.copy_from_slice(&bytes);
    Ok(array)
}
