//! `MemorySource`, a source that reads from a slice and never fails.

ghost use Rattle.std.specs.Prelude.{◌≡◌, true, Some, length, ⊤};

use minisign_base::devices::DeviceFault;
use minisign_base::devices::sources::{Rereader, Source};

// A source that reads from a slice. It never fails, because a place is always marked: at first, the
// beginning of the slice.
#[derive(Drop)]
pub(crate) struct MemorySource<'a> {
    rest: &'a [u8],
    marked: &'a [u8],
}

impl<'a> MemorySource<'a> {
    pub(crate) fn new(bytes: &'a [u8]) -> MemorySource<'a>
        ensures ahead { ⟦<MemorySource<'a> as Source>⟧.ahead result ≡ Some bytes.now }
    {
        MemorySource {
            rest: bytes,
            marked: bytes,
        }
    }
}

impl<'a> Source for MemorySource<'a> {
    ghost ahead = { λ s. Some s.rest.now };

    ghost behind = { λ s. Some s.marked.now };

    ghost is_marked = { λ _. true };

    ghost left = { λ s. length s.rest.now };

    ghost faults = { λ _. 0 };

    fn read(&mut self, buf: &mut [u8]) -> Result<usize, DeviceFault> {
        let n = buf.len().min(self.rest.len());
        let (front, rest) = self.rest.split_at(n);
        buf[..n].copy_from_slice(front);
        self.rest = rest;
        Ok(n)
    }
}

impl<'a> Rereader for MemorySource<'a> {
    ghost steady = { λ _. ⊤ };

    fn mark(&mut self) -> Result<(), DeviceFault> {
        self.marked = self.rest;
        Ok(())
    }

    fn back(&mut self) -> Result<(), DeviceFault> {
        self.rest = self.marked;
        Ok(())
    }
}
