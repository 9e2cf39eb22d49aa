//! Finds weak public keys and signatures: those that strict Ed25519 rejects for their bytes, whatever the
//! message is. It compares numbers and does no arithmetic on the curve. Nothing here allocates.

ghost use Rattle.std.specs.Prelude.{◌≡◌, ◌==◌, ◌^◌, length, nat_lt};
ghost use Rattle.std.specs.List.{list_any};
ghost use Rattle.std.specs.Simd.Lanes.{number_l};
ghost use Rattle.minisign_external.specs.StrictCalls.{is_strict_value};
ghost use Rattle.minisign_external.specs.StrictEd25519.{is_strict, is_strict_point, is_strict_signature};
ghost use Rattle.minisign_external.specs.StrictEd25519.{number_of, small_order_ys, y_of};

use crate::public_keys::PublicKeyValue;
use crate::signatures::SignatureValue;
use std::simd::{u8x32, u64x4};

// Numbers here have 256 bits, in four words, the least significant first.

// The prime of the field.
const FIELD_PRIME: [u64; 4] = [
    0xffff_ffff_ffff_ffed,
    0xffff_ffff_ffff_ffff,
    0xffff_ffff_ffff_ffff,
    0x7fff_ffff_ffff_ffff,
];

// The order of the group.
const GROUP_ORDER: [u64; 4] = [
    0x5812_631a_5cf5_d3ed,
    0x14de_f9de_a2f7_9cd6,
    0,
    0x1000_0000_0000_0000,
];

// The y coordinates of the points of small order: of orders 1, 2, 4, 8 and 8.
const ORDER_ONE: [u64; 4] = [1, 0, 0, 0];

const ORDER_TWO: [u64; 4] = [
    0xffff_ffff_ffff_ffec,
    0xffff_ffff_ffff_ffff,
    0xffff_ffff_ffff_ffff,
    0x7fff_ffff_ffff_ffff,
];

const ORDER_FOUR: [u64; 4] = [0, 0, 0, 0];

const ORDER_EIGHT: [u64; 4] = [
    0x4fd8_4d3d_706a_17c7,
    0x0f67_100d_760b_3cba,
    0xc6cc_392c_fa53_202a,
    0x7a03_ac92_77fd_c74e,
];

const ORDER_EIGHT_NEGATED: [u64; 4] = [
    0xb027_b2c2_8f95_e826,
    0xf098_eff2_89f4_c345,
    0x3933_c6d3_05ac_dfd5,
    0x05fc_536d_8802_38b1,
];

/// Returns true if neither the key nor a signature is weak. The comment signature is only tested if it has at
/// least 64 bytes.
pub fn is_strict_value(key: &PublicKeyValue, signature: &SignatureValue) -> bool
    // The result is true exactly if `is_strict` is true of the public key and the data signature and, if the
    // comment signature has at least 64 bytes, that signature passes the same test.
    ensures { result ≡ is_strict_value key.now signature.now }
{
    is_strict(&key.key, &signature.signature)
        && (signature.whole != 1 || is_strict_signature(&signature.comment_signature))
}

/// Returns true if neither this public key nor this signature is weak.
pub fn is_strict(key: &[u8; 32], signature: &[u8; 64]) -> bool
    // The result is true exactly if three numbers are allowed: the y coordinates in the public key and in the
    // first half of the signature (R) are below the field prime and not those of points of small order, and
    // the second half of the signature (S) is below the group order (RFC 8032, section 5.1).
    ensures { result ≡ is_strict key.now signature.now }
{
    is_strict_point(key) && is_strict_signature(signature)
}

// Returns true if R is a strict point and S is below the group order.
fn is_strict_signature(signature: &[u8; 64]) -> bool
    ensures { result ≡ is_strict_signature signature.now }
{
    let (r, s) = signature.split_at(32);
    is_strict_point(r) && is_below(number_of(s), GROUP_ORDER)
}

// Returns true if the y coordinate in these 32 bytes is canonical and not that of a point of small order.
fn is_strict_point(point: &[u8]) -> bool
    requires { length point.now ≡ 32 }
    ensures { result ≡ is_strict_point point.now }
{
    let y = y_of(point);
    is_below(y, FIELD_PRIME) && !has_small_order(y)
}

// Returns true if this is the y coordinate of a point of small order.
fn has_small_order(y: [u64; 4]) -> bool
    ensures { result ≡ list_any (λ small. number_l (2 ^ 64) y == small) small_order_ys }
{
    is_same(y, ORDER_ONE)
        || is_same(y, ORDER_TWO)
        || is_same(y, ORDER_FOUR)
        || is_same(y, ORDER_EIGHT)
        || is_same(y, ORDER_EIGHT_NEGATED)
}

// Returns the y coordinate in the encoding of a point.
fn y_of(point: &[u8]) -> [u64; 4]
    requires { length point.now ≡ 32 }
    ensures { number_l (2 ^ 64) result ≡ y_of point.now }
{
    let [a, b, c, d] = number_of(point);
    [a, b, c, d % 0x8000_0000_0000_0000]
}

// Returns the number that 32 bytes encode.
fn number_of(bytes: &[u8]) -> [u64; 4]
    requires { length bytes.now ≡ 32 }
    ensures { number_l (2 ^ 64) result ≡ number_of bytes.now }
{
    u64x4::from_le_bytes(u8x32::from_slice(bytes)).to_array()
}

// Returns true if a is below b.
fn is_below(a: [u64; 4], b: [u64; 4]) -> bool
    ensures { result ≡ nat_lt (number_l (2 ^ 64) a) (number_l (2 ^ 64) b) }
{
    let [a0, a1, a2, a3] = a;
    let [b0, b1, b2, b3] = b;
    if a3 != b3 {
        return a3 < b3;
    }
    if a2 != b2 {
        return a2 < b2;
    }
    if a1 != b1 {
        return a1 < b1;
    }
    a0 < b0
}

// Returns true if the numbers are equal.
fn is_same(a: [u64; 4], b: [u64; 4]) -> bool
    ensures { result ≡ (number_l (2 ^ 64) a == number_l (2 ^ 64) b) }
{
    let [a0, a1, a2, a3] = a;
    let [b0, b1, b2, b3] = b;
    a0 == b0 && a1 == b1 && a2 == b2 && a3 == b3
}
