//! scryptBlockMix (RFC 7914, section 4) on blocks whose words are in diagonal order.

ghost use Rattle.std.specs.Prelude.{◌≡◌, ◌+◌, ◌-◌, ◌*◌, ◌%◌, ◌≤◌, length, bit_xor};
ghost use Rattle.std.specs.Simd.Lanes.{zip2};
ghost use Rattle.minisign_kdf.specs.Diagonal.{block_words, diagonal_bytes, placed_words};
ghost use Rattle.minisign_kdf.specs.Salsa20.{bytes_of_words32, salsa20_8};
ghost use Rattle.minisign_kdf.specs.Scrypt.{block_mix, row_at};

use crate::salsa::{Block, salsa20_8, xor_of};

// Applies scryptBlockMix `times` times to `from`, with the result in `into`. The previous contents
// of `into` and `work` are ignored.
pub(crate) fn mix_times(r: usize, times: usize, from: &[u32], into: &mut [u32], work: &mut [u32])
    requires r_positive { 1 ≤ r }
    requires times { 1 ≤ times }
    requires from_len { length from.now ≡ 32 * r }
    requires into_len { length into.old ≡ 32 * r }
    requires work_len { length work.old ≡ 32 * r }
    ensures { diagonal_bytes into.new ≡ row_at r (diagonal_bytes from.now) times }
{
    begin_mixing(r, times, from, into, work);
    'pairs: for _pair in 0..(times - 1) / 2 {
        block_mix(r, into, work);
        block_mix(r, work, into);
    }
}

// Applies scryptBlockMix to `from` once if `times` is odd, and otherwise twice, with the result in
// `into`. The number of remaining applications is then even.
fn begin_mixing(r: usize, times: usize, from: &[u32], into: &mut [u32], work: &mut [u32])
    requires r_positive { 1 ≤ r }
    requires from_len { length from.now ≡ 32 * r }
    requires into_len { length into.old ≡ 32 * r }
    requires work_len { length work.old ≡ 32 * r }
    ensures { diagonal_bytes into.new ≡ row_at r (diagonal_bytes from.now) (2 - times % 2) }
{
    if times % 2 == 1 {
        block_mix(r, from, into);
    } else {
        block_mix(r, from, work);
        block_mix(r, work, into);
    }
}

// Computes scryptBlockMix of the 2 * r blocks of `from` into `into`. As the RFC requires, the even
// blocks of the result come before the odd ones.
pub(crate) fn block_mix(r: usize, from: &[u32], into: &mut [u32])
    requires r_positive { 1 ≤ r }
    requires from_len { length from.now ≡ 32 * r }
    requires into_len { length into.old ≡ 32 * r }
    ensures { diagonal_bytes into.new ≡ block_mix r (diagonal_bytes from.now) }
{
    let mut x = Block::load(&from[32 * r - 16..]);
    let (even, odd) = into.split_at_mut(16 * r);
    'pairs: for i in 0..r {
        x = mix_block(x, Block::load(&from[32 * i..32 * i + 16]));
        x.store(&mut even[16 * i..16 * i + 16]);
        x = mix_block(x, Block::load(&from[32 * i + 16..32 * i + 32]));
        x.store(&mut odd[16 * i..16 * i + 16]);
    }
}

// Computes scryptBlockMix of the xor of `from` and `row` into `into`.
pub(crate) fn xor_block_mix(r: usize, from: &[u32], row: &[u32], into: &mut [u32])
    requires r_positive { 1 ≤ r }
    requires from_len { length from.now ≡ 32 * r }
    requires row_len { length row.now ≡ 32 * r }
    requires into_len { length into.old ≡ 32 * r }
    ensures { diagonal_bytes into.new
        ≡ block_mix r (diagonal_bytes (zip2 bit_xor from.now row.now)) }
{
    let mut x = load_xored(&from[32 * r - 16..], &row[32 * r - 16..]);
    let (even, odd) = into.split_at_mut(16 * r);
    'pairs: for i in 0..r {
        let at = 32 * i;
        x = mix_block(x, load_xored(&from[at..at + 16], &row[at..at + 16]));
        x.store(&mut even[16 * i..16 * i + 16]);
        let at = at + 16;
        x = mix_block(x, load_xored(&from[at..at + 16], &row[at..at + 16]));
        x.store(&mut odd[16 * i..16 * i + 16]);
    }
}

// Applies Salsa20/8 to the xor of two blocks.
#[inline(always)]
fn mix_block(x: Block, block: Block) -> Block
    ensures { bytes_of_words32 (block_words result)
        ≡ salsa20_8 (zip2 bit_xor (bytes_of_words32 (block_words x))
        (bytes_of_words32 (block_words block))) }
{
    salsa20_8(xor_of(x, block))
}

#[inline(always)]
fn load_xored(words: &[u32], others: &[u32]) -> Block
    requires words_len { length words.now ≡ 16 }
    requires others_len { length others.now ≡ 16 }
    ensures { placed_words result ≡ zip2 bit_xor words.now others.now }
{
    xor_of(Block::load(words), Block::load(others))
}
