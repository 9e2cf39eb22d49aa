//! The Salsa20/8 core (RFC 7914, section 3) on blocks whose words are in diagonal order, which
//! `specs/Diagonal.antt` defines. In this order, the rounds are SIMD operations on whole rows of
//! four words.

ghost use Rattle.std.specs.Prelude.{◌≡◌, ◌<◌, length, map, bit_xor};
ghost use Rattle.std.specs.Int.{w32, rotate_left};
ghost use Rattle.std.specs.Simd.Lanes.{zip2};
ghost use Rattle.minisign_kdf.specs.Diagonal.{block_words, column_round, placed_words, row_round};
ghost use Rattle.minisign_kdf.specs.Diagonal.{salsa_words, transposed_square};
ghost use Rattle.minisign_kdf.specs.Salsa20.{add32, double_round};

use std::simd::u32x4;

/// A block's sixteen words in diagonal order: the rows hold the words 0, 5, 10, 15, the words 4, 9,
/// 14, 3, the words 8, 13, 2, 7 and the words 12, 1, 6, 11.
#[derive(Clone, Copy)]
pub(crate) struct Block {
    a: [u32; 4],
    b: [u32; 4],
    c: [u32; 4],
    d: [u32; 4],
}

impl Block {
    // Reads a block from words in diagonal order.
    #[inline(always)]
    pub(crate) fn load(words: &[u32]) -> Block
        requires { length words.now ≡ 16 }
        ensures { placed_words result ≡ words.now }
    {
        let a = u32x4::from_slice(words).to_array();
        let b = u32x4::from_slice(&words[4..]).to_array();
        let c = u32x4::from_slice(&words[8..]).to_array();
        let d = u32x4::from_slice(&words[12..]).to_array();
        Block { a, b, c, d }
    }

    // Writes the words in diagonal order.
    #[inline(always)]
    pub(crate) fn store(self, words: &mut [u32])
        requires { length words.old ≡ 16 }
        ensures { words.new ≡ placed_words self }
    {
        let (front, back) = words.split_at_mut(8);
        let (a, b) = front.split_at_mut(4);
        let (c, d) = back.split_at_mut(4);
        u32x4::from_array(self.a).copy_to_slice(a);
        u32x4::from_array(self.b).copy_to_slice(b);
        u32x4::from_array(self.c).copy_to_slice(c);
        u32x4::from_array(self.d).copy_to_slice(d);
    }
}

// Applies Salsa20/8 to a block.
#[inline(always)]
pub(crate) fn salsa20_8(x: Block) -> Block
    ensures { block_words result ≡ salsa_words (block_words x) }
{
    sum_of(double_round(double_round(double_round(double_round(x)))), x)
}

// Xors two blocks.
#[inline(always)]
pub(crate) fn xor_of(x: Block, y: Block) -> Block
    ensures { placed_words result ≡ zip2 bit_xor (placed_words x) (placed_words y) }
{
    let a = (u32x4::from_array(x.a) ^ u32x4::from_array(y.a)).to_array();
    let b = (u32x4::from_array(x.b) ^ u32x4::from_array(y.b)).to_array();
    let c = (u32x4::from_array(x.c) ^ u32x4::from_array(y.c)).to_array();
    let d = (u32x4::from_array(x.d) ^ u32x4::from_array(y.d)).to_array();
    Block { a, b, c, d }
}

// Adds the words of two blocks, modulo 2^32.
#[inline(always)]
fn sum_of(x: Block, y: Block) -> Block
    ensures { placed_words result ≡ zip2 add32 (placed_words x) (placed_words y) }
{
    let a = (u32x4::from_array(x.a) + u32x4::from_array(y.a)).to_array();
    let b = (u32x4::from_array(x.b) + u32x4::from_array(y.b)).to_array();
    let c = (u32x4::from_array(x.c) + u32x4::from_array(y.c)).to_array();
    let d = (u32x4::from_array(x.d) + u32x4::from_array(y.d)).to_array();
    Block { a, b, c, d }
}

#[inline(always)]
fn double_round(x: Block) -> Block
    ensures { block_words result ≡ double_round (block_words x) }
{
    row_round(column_round(x))
}

#[inline(always)]
fn column_round(x: Block) -> Block
    ensures { block_words result ≡ column_round (block_words x) }
{
    let b = xor_rotated_sum(x.b, x.a, x.d, 7);
    let c = xor_rotated_sum(x.c, b, x.a, 9);
    let d = xor_rotated_sum(x.d, c, b, 13);
    let a = xor_rotated_sum(x.a, d, c, 18);
    Block { a, b, c, d }
}

// The row round is the column round of the transposed block.
#[inline(always)]
fn row_round(x: Block) -> Block
    ensures { block_words result ≡ row_round (block_words x) }
{
    transposed(column_round(transposed(x)))
}

// Transposes the block, taken as a square of four rows of four words in the order of RFC 7914.
#[inline(always)]
fn transposed(x: Block) -> Block
    ensures { block_words result ≡ transposed_square (block_words x) }
{
    let a = x.a;
    let b = u32x4::from_array(x.d)
        .rotate_elements_left::<1>()
        .to_array();
    let c = u32x4::from_array(x.c)
        .rotate_elements_left::<2>()
        .to_array();
    let d = u32x4::from_array(x.b)
        .rotate_elements_right::<1>()
        .to_array();
    Block { a, b, c, d }
}

// Xors each word of `x` with the sum of those of `y` and `z`, rotated left by `bits` bits.
#[inline(always)]
fn xor_rotated_sum(x: [u32; 4], y: [u32; 4], z: [u32; 4], bits: u32) -> [u32; 4]
    requires low { 0 < bits }
    requires high { bits < 32 }
    ensures { result ≡ zip2 bit_xor x (map (λ s. rotate_left w32 s bits) (zip2 add32 y z)) }
{
    let sum = u32x4::from_array(y) + u32x4::from_array(z);
    let rotated = (sum << u32x4::splat(bits)) | (sum >> u32x4::splat(32 - bits));
    (u32x4::from_array(x) ^ rotated).to_array()
}
