//! The toy scheme, for tests. It is insecure: everybody who has the public key can sign.

ghost use Rattle.std.specs.Prelude.{◌≡◌, ℕ, List, ◌++◌, Option, take, drop, bit_xor};
ghost use Rattle.std.specs.Simd.Lanes.{zip2};
ghost use Rattle.minisign_base.specs.Toy.{toy_public_of, fold_of, toy_signature_of, toy_accepts};
ghost use Rattle.minisign_base.specs.Toy.{toy_accepts_with, is_listed};
ghost use Rattle.minisign_base.specs.ToyLaw.{accepts_own_signature};

use crate::scheme::Scheme;
use std::simd::u8x32;

/// A scheme that meets the law of schemes and protects nothing, for tests only.
///
/// The public key is the seed with each byte xored with `5a`. A signature has two halves of 32 bytes. The
/// first is random, or zeros if no random bytes were given. The second is the xor of the first half, the
/// public key and the folded message. A message is folded into 32 bytes, of which byte i is the xor of the
/// message's bytes i, i + 32, i + 64 and so on.
///
/// With a table, the scheme also accepts the triples in the table. So signatures of other schemes, such as
/// Ed25519, can be used in tests without an implementation of the scheme.
#[derive(Clone, Copy)]
pub struct ToyScheme<'a> {
    table: &'a [Triple<'a>],
}

/// A message, a public key and a signature that a table accepts together.
#[derive(Clone, Copy)]
pub struct Triple<'a> {
    pub message: &'a [u8],
    pub public_key: [u8; 32],
    pub signature: [u8; 64],
}

impl<'a> ToyScheme<'a> {
    /// Returns a scheme that accepts the signatures it makes, and no others.
    pub fn new() -> ToyScheme<'a>
        ensures public_of { (seed : List ℕ)
            → ⟦<ToyScheme<'a> as Scheme>⟧.public_of result seed ≡ toy_public_of seed }
        ensures signature_of { (m secret : List ℕ) (z : Option (List ℕ))
            → ⟦<ToyScheme<'a> as Scheme>⟧.signature_of result m secret z
            ≡ toy_signature_of m secret z }
        ensures accepts { (m key signature : List ℕ)
            → ⟦<ToyScheme<'a> as Scheme>⟧.accepts result m key signature
            ≡ toy_accepts m key signature }
    {
        ToyScheme { table: &[] }
    }

    /// Returns a scheme that accepts the signatures it makes and the triples of the table, and no others.
    pub fn with_table(table: &'a [Triple<'a>]) -> ToyScheme<'a>
        ensures public_of { (seed : List ℕ)
            → ⟦<ToyScheme<'a> as Scheme>⟧.public_of result seed ≡ toy_public_of seed }
        ensures signature_of { (m secret : List ℕ) (z : Option (List ℕ))
            → ⟦<ToyScheme<'a> as Scheme>⟧.signature_of result m secret z
            ≡ toy_signature_of m secret z }
        ensures accepts { (m key signature : List ℕ)
            → ⟦<ToyScheme<'a> as Scheme>⟧.accepts result m key signature
            ≡ toy_accepts_with table.now m key signature }
    {
        ToyScheme { table }
    }
}

impl<'a> Scheme for ToyScheme<'a> {
    ghost public_of = { λ _ seed. toy_public_of seed };

    ghost signature_of = { λ _ m secret z. toy_signature_of m secret z };

    ghost accepts = { λ s m key signature. toy_accepts_with s.table.now m key signature };

    fn keypair(&self, seed: &[u8; 32]) -> ([u8; 64], [u8; 32]) {
        let public_key = masked(seed);
        (joined(seed, &public_key), public_key)
    }

    fn signature(&self, message: &[u8], secret_key: &[u8; 64], z: Option<&[u8; 64]>) -> [u8; 64] {
        let random = match z {
            Some(z) => first_half(z),
            None => [0; 32],
        };
        joined(&random, &tied(&random, &second_half(secret_key), message))
    }

    fn verify(&self, message: &[u8], public_key: &[u8; 32], signature: &[u8; 64]) -> bool {
        is_listed(self.table, message, public_key, signature)
            || is_tied(message, public_key, signature)
    }

    ghost accepts_own = { λ s. accepts_own_signature s.table.now };
}

// Returns true if the table contains this triple.
fn is_listed(table: &[Triple], message: &[u8], public_key: &[u8; 32], signature: &[u8; 64]) -> bool
    ensures { result ≡ is_listed table.now message.now public_key.now signature.now }
{
    'triples: for triple in table {
        if triple.message == message
            && triple.public_key == *public_key
            && triple.signature == *signature
        {
            return true;
        }
    }
    false
}

// Returns true if the second half of the signature is the one that belongs to the first half, the public key
// and the message.
fn is_tied(message: &[u8], public_key: &[u8; 32], signature: &[u8; 64]) -> bool
    ensures { result ≡ toy_accepts message.now public_key.now signature.now }
{
    let expected = tied(&first_half(signature), public_key, message);
    let (_, given) = signature.split_at(32);
    given == expected.as_slice()
}

// Returns the public key of a seed: each byte xored with `5a`.
fn masked(seed: &[u8; 32]) -> [u8; 32]
    ensures { result ≡ toy_public_of seed.now }
{
    (u8x32::from_array(*seed) ^ u8x32::splat(0x5a)).to_array()
}

// Returns the second half of the signature whose first half is `random`.
fn tied(random: &[u8; 32], public_key: &[u8; 32], message: &[u8]) -> [u8; 32]
    ensures { result ≡ zip2 bit_xor (zip2 bit_xor random.now public_key.now) (fold_of message.now) }
{
    let keyed = u8x32::from_array(*random) ^ u8x32::from_array(*public_key);
    (keyed ^ u8x32::from_array(fold(message))).to_array()
}

// Folds the message into 32 bytes by xor.
fn fold(message: &[u8]) -> [u8; 32]
    ensures { result ≡ fold_of message.now }
{
    let mut columns = [0u8; 32];
    for (j, byte) in message.iter().enumerate() {
        columns[j % 32] ^= *byte;
    }
    columns
}

fn first_half(bytes: &[u8; 64]) -> [u8; 32]
    ensures { result ≡ take 32 bytes.now }
{
    let (front, _) = bytes.split_at(32);
    let mut half = [0u8; 32];
    half.copy_from_slice(front);
    half
}

fn second_half(bytes: &[u8; 64]) -> [u8; 32]
    ensures { result ≡ drop 32 bytes.now }
{
    let (_, back) = bytes.split_at(32);
    let mut half = [0u8; 32];
    half.copy_from_slice(back);
    half
}

fn joined(left: &[u8; 32], right: &[u8; 32]) -> [u8; 64]
    ensures { result ≡ left.now ++ right.now }
{
    let mut bytes = [0u8; 64];
    let (front, back) = bytes.split_at_mut(32);
    front.copy_from_slice(left);
    back.copy_from_slice(right);
    bytes
}
