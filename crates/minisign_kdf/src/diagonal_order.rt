//! Conversion of a part's bytes to words in diagonal order, and back.

ghost use Rattle.std.specs.Prelude.{◌≡◌, ◌+◌, ◌*◌, ◌%◌, length};
ghost use Rattle.minisign_kdf.specs.Diagonal.{diagonal_bytes, standard_order};
ghost use Rattle.minisign_kdf.specs.Salsa20.{bytes_of_words32};

// The number of words in a block.
const BLOCK_WORDS: usize = 16;

// Reads the words of blocks, least significant byte first, and puts those of each block into
// diagonal order.
pub(crate) fn load_part(bytes: &[u8], words: &mut [u32])
    requires whole { length words.old % 16 ≡ 0 }
    requires len { length bytes.now ≡ 4 * length words.old }
    ensures { diagonal_bytes words.new ≡ bytes.now }
{
    let count = words.len() / BLOCK_WORDS;
    'block: for i in 0..count {
        load_block(&bytes[64 * i..64 * i + 64], &mut words[16 * i..16 * i + 16]);
    }
}

fn load_block(bytes: &[u8], words: &mut [u32])
    requires bytes_len { length bytes.now ≡ 64 }
    requires words_len { length words.old ≡ 16 }
    ensures { bytes_of_words32 (standard_order words.new) ≡ bytes.now }
{
    let mut plain = [0u32; 16];
    load_words(bytes, &mut plain);
    words.copy_from_slice(&in_diagonal_order(&plain));
}

// Reads words, least significant byte first.
fn load_words(bytes: &[u8], words: &mut [u32])
    requires { length bytes.now ≡ 4 * length words.old }
    ensures { bytes_of_words32 words.new ≡ bytes.now }
{
    'words: for i in 0..words.len() {
        words[i] = u32::from_le_bytes([
            bytes[4 * i],
            bytes[4 * i + 1],
            bytes[4 * i + 2],
            bytes[4 * i + 3],
        ]);
    }
}

// Puts the words of a block into diagonal order.
fn in_diagonal_order(x: &[u32; 16]) -> [u32; 16]
    ensures { standard_order result ≡ x.now }
{
    [
        x[0], x[5], x[10], x[15], x[4], x[9], x[14], x[3], x[8], x[13], x[2], x[7], x[12], x[1],
        x[6], x[11],
    ]
}

// Puts the words of each block back into the order of RFC 7914 and writes them, least significant byte first.
pub(crate) fn store_part(words: &[u32], bytes: &mut [u8])
    requires whole { length words.now % 16 ≡ 0 }
    requires len { length bytes.old ≡ 4 * length words.now }
    ensures { bytes.new ≡ diagonal_bytes words.now }
{
    let count = words.len() / BLOCK_WORDS;
    'block: for i in 0..count {
        let plain = in_standard_order(&words[16 * i..16 * i + 16]);
        store_words(&plain, &mut bytes[64 * i..64 * i + 64]);
    }
}

// Puts the words of a block from diagonal order into the order of RFC 7914.
fn in_standard_order(x: &[u32]) -> [u32; 16]
    requires { length x.now ≡ 16 }
    ensures { result ≡ standard_order x.now }
{
    [
        x[0], x[13], x[10], x[7], x[4], x[1], x[14], x[11], x[8], x[5], x[2], x[15], x[12], x[9],
        x[6], x[3],
    ]
}

// Writes words, least significant byte first.
fn store_words(words: &[u32], bytes: &mut [u8])
    requires { length bytes.old ≡ 4 * length words.now }
    ensures { bytes.new ≡ bytes_of_words32 words.now }
{
    'words: for i in 0..words.len() {
        bytes[4 * i..4 * i + 4].copy_from_slice(&words[i].to_le_bytes());
    }
}
