//! Decodes base64 without allocating: keeps the first bytes and checks the whole text.

ghost use Rattle.std.specs.Prelude.{◌≡◌, ◌+◌, ◌*◌, ◌/◌, ◌%◌, ◌≤◌, List, ℕ, false, length, min, take};
ghost use Rattle.std.specs.Prelude.{MatchOption};
ghost use Rattle.minisign.specs.Texts.{IsBase64Of, is_base64};

use base64::engine::general_purpose::STANDARD;

// The piece size of `is_base64`: 64 characters, which decode to 48 bytes.
const PIECE_CHARS: usize = 64;

const PIECE_BYTES: usize = 48;

// Decodes base64 into `room` and returns the number of bytes written: all decoded bytes, or as many as
// fit. Returns `None` if any part of the text is not base64. The length of `room` must be a multiple of 3.
pub(crate) fn decode_front(text: &[u8], room: &mut [u8]) -> Option<usize>
    requires { length room.old % 3 ≡ 0 }
    ensures { MatchOption result (is_base64 text.now ≡ false) (λ n. (bytes : List ℕ)
        × IsBase64Of text.now bytes × (n ≡ min (length bytes) (length room.old)) × (n ≤ length room.new)
        × (take n room.new ≡ take n bytes)) }
{
    let fitting = room.len() / 3 * 4;
    if text.len() <= fitting {
        return decode_piece(text, room);
    }
    let (front, rest) = text.split_at(fitting);
    let Some(count) = decode_piece(front, room) else {
        return None;
    };
    if count != room.len() {
        return None;
    }
    if is_base64(rest) { Some(count) } else { None }
}

// Returns true if the text is base64. The text is decoded in pieces of fixed size, so that nothing is
// allocated.
pub(crate) fn is_base64(text: &[u8]) -> bool
    ensures { result ≡ is_base64 text.now }
{
    let mut room = [0u8; PIECE_BYTES];
    let mut rest = text;
    'pieces: while rest.len() > PIECE_CHARS {
        let (piece, behind) = rest.split_at(PIECE_CHARS);
        let Some(count) = decode_piece(piece, &mut room) else {
            return false;
        };
        if count != PIECE_BYTES {
            return false;
        }
        rest = behind;
    }
    decode_piece(rest, &mut room).is_some()
}

// Decodes base64 that fits into `room` and returns the number of bytes, or `None` if the text is
// not base64.
fn decode_piece(text: &[u8], room: &mut [u8]) -> Option<usize>
    requires { (length text.now + 3) / 4 * 3 ≤ length room.old }
    ensures { MatchOption result (is_base64 text.now ≡ false)
        (λ n. (bytes : List ℕ) × IsBase64Of text.now bytes
        × (n ≡ length bytes) × (n ≤ length room.new) × (take n room.new ≡ bytes)) }
{
    match STANDARD.decode_slice(text, room) {
        Ok(count) => Some(count),
        Err(_) => None,
    }
}
