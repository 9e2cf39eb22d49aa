//! Conversions of 32-bit and 64-bit words from and to little endian bytes, and copying.

ghost use Rattle.std.specs.Prelude.{◌≡◌, ◌+◌, ◌*◌, ◌≤◌, ◌++◌, ◌∷◌, [], length, take, drop, OnOk};
ghost use Rattle.std.specs.Int.{w32, w64, from_le_bytes, to_le_bytes};
ghost use Rattle.std.specs.Io.KnownBytes.{Appends};
ghost use Rattle.minisign_hash.specs.Words.{bytes_of_words64, words64_of};

use std::io;
use std::io::Write;

/// Writes numbers as little endian bytes to any writer of std. Each call returns what the writer's own
/// `write_all` returns for these bytes.
pub trait WriteExt: Write {
    /// Writes the byte `val`.
    fn write_u8(&mut self, val: u8) -> io::Result<()>
        ensures { OnOk result
            (Appends (Self.contents self.old) (Self.contents self.new) (val ∷ [])) };

    /// Writes the four bytes of `val`, lowest byte first.
    fn write_u32_le(&mut self, val: u32) -> io::Result<()>
        ensures { OnOk result
            (Appends (Self.contents self.old) (Self.contents self.new) (to_le_bytes w32 val)) };

    /// Writes the eight bytes of `val`, lowest byte first.
    fn write_u64_le(&mut self, val: u64) -> io::Result<()>
        ensures { OnOk result
            (Appends (Self.contents self.old) (Self.contents self.new) (to_le_bytes w64 val)) };
}

impl<W: Write> WriteExt for W {
    fn write_u8(&mut self, val: u8) -> io::Result<()> {
        self.write_all(&[val])
    }

    fn write_u32_le(&mut self, val: u32) -> io::Result<()> {
        let mut bytes = [0u8; 4];
        write_u32_le(&mut bytes, val);
        self.write_all(&bytes)
    }

    fn write_u64_le(&mut self, val: u64) -> io::Result<()> {
        let mut bytes = [0u8; 8];
        write_u64_le(&mut bytes, val);
        self.write_all(&bytes)
    }
}

/// Writes the words of `input` to `dst`, eight bytes for each word, lowest byte first.
#[inline(always)]
pub fn write_u64v_le(dst: &mut [u8], input: &[u64])
    requires { length dst.old ≡ 8 * length input.now }
    ensures { dst.new ≡ bytes_of_words64 input.now }
{
    'words: for i in 0..input.len() {
        write_u64_le(&mut dst[8 * i..8 * i + 8], input[i]);
    }
}

/// Writes `input` to the eight bytes of `dst`, lowest byte first.
#[inline(always)]
pub fn write_u64_le(dst: &mut [u8], input: u64)
    requires { length dst.old ≡ 8 }
    ensures { dst.new ≡ to_le_bytes w64 input }
{
    let bytes: [u8; 8] = input.to_le_bytes();
    dst.copy_from_slice(&bytes);
}

/// Writes `input` to the four bytes of `dst`, lowest byte first.
#[inline(always)]
pub fn write_u32_le(dst: &mut [u8], input: u32)
    requires { length dst.old ≡ 4 }
    ensures { dst.new ≡ to_le_bytes w32 input }
{
    let bytes: [u8; 4] = input.to_le_bytes();
    dst.copy_from_slice(&bytes);
}

/// Reads 64-bit words from the bytes of `input` into `dst`, eight bytes for each word, lowest byte first.
#[inline(always)]
pub fn read_u64v_le(dst: &mut [u64], input: &[u8])
    requires { 8 * length dst.old ≡ length input.now }
    ensures { dst.new ≡ words64_of input.now }
{
    'words: for i in 0..dst.len() {
        dst[i] = read_word(input, i);
    }
}

// Reads word number `i` of `input`.
#[inline(always)]
fn read_word(input: &[u8], i: usize) -> u64
    requires { 8 * i + 8 ≤ length input.now }
    ensures { result ≡ from_le_bytes w64 (take 8 (drop (8 * i) input.now)) }
{
    let at = 8 * i;
    u64::from_le_bytes([
        input[at],
        input[at + 1],
        input[at + 2],
        input[at + 3],
        input[at + 4],
        input[at + 5],
        input[at + 6],
        input[at + 7],
    ])
}

/// Copies `src` to the start of `dst`, which must be at least as long. The rest of `dst` is unchanged.
#[inline(always)]
pub fn copy_memory(src: &[u8], dst: &mut [u8])
    requires { length src.now ≤ length dst.old }
    ensures { dst.new ≡ src.now ++ drop (length src.now) dst.old }
{
    dst[..src.len()].copy_from_slice(src);
}
