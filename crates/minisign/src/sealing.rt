//! The scrypt stream that is xored with the last 104 bytes of a secret key, to encrypt and to decrypt it.

ghost use Rattle.std.specs.Prelude.{◌≡◌, ◌≤◌, ◌⊎◌, Some, Ok, Err, length, bit_xor, IsOk, MatchResult, IfOk};
ghost use Rattle.std.specs.Prelude.{IfErr, OnOk, replicate};
ghost use Rattle.std.specs.Int.{from_le_bytes, w64};
ghost use Rattle.std.specs.Simd.Lanes.{zip2};
ghost use Rattle.minisign_base.specs.Fault.{Named};
ghost use Rattle.minisign_base.specs.Limits.{numbers};
ghost use Rattle.minisign_base.specs.declared.faults.NamedFault.TheVariants.{OutOfMemory};
ghost use Rattle.minisign.specs.Sealing.{allowed_work, key_limits, stream_of, opening_memory};
ghost use Rattle.minisign.specs.Sealing.{sealed_by_scrypt};

use crate::secret_key::SecretKey;
use minisign_base::helpers::{load_u64_le, raw_scrypt_params};
use minisign_base::{NamedFault, Params, Result};
use minisign_kdf::{clear_memory, scrypt_in, scrypt_keeping};
use std::alloc::Global;

// The greatest memory limit with which keys are encrypted or decrypted, in bytes.
const MEMLIMIT_MAX: u64 = 1073741824;

// The base-2 logarithm of the greatest cost N with which keys are encrypted or decrypted.
const N_LOG2_MAX: u8 = 20;

// How a key is derived: with a bound on scrypt's parallelization p, if there is one, and with every k-th
// row kept in memory, k at least 1.
#[derive(Clone, Copy)]
pub(crate) struct Derivation {
    pub(crate) bound: Option<u32>,
    pub(crate) k: u64,
}

pub(crate) fn xor_bytes(bytes: &mut [u8], stream: &[u8])
    requires { length bytes.old ≡ length stream.now }
    ensures { bytes.new ≡ zip2 bit_xor bytes.old stream.now }
{
    'bytes: for i in 0..bytes.len() {
        bytes[i] ^= stream[i];
    }
}

// Derives the stream for the password.
#[tactic(auto, using(crate::proofs::SealingLimits::derived_stream))]
pub(crate) fn derive_stream(
    alloc: Global,
    sk: &SecretKey,
    password: &[u8],
    derivation: Derivation,
) -> Result<[u8; 104]>
    requires { 1 ≤ derivation.k }
    ensures stream { IfOk result (λ s. s ≡ stream_of sk.now password.now) }
    ensures allowed { OnOk result (IsOk (allowed_work sk.now derivation.bound)) }
    ensures refused { IfErr result (λ e.
        ((e ≡ Named OutOfMemory) × IsOk (allowed_work sk.now derivation.bound))
        ⊎ (allowed_work sk.now derivation.bound ≡ Err e)) }
{
    let params = bounded_params(sk, derivation.bound)?;
    let mut stream = [0u8; 104];
    scrypt_keeping(
        alloc,
        password,
        &sk.kdf_salt,
        &params,
        derivation.k,
        &mut stream,
    )?;
    Ok(stream)
}

// Derives the stream for the password in the caller's memory, which is all zero afterwards.
#[tactic(auto, using(crate::proofs::SealingLimits::derived_stream))]
pub(crate) fn derive_stream_in_place(
    sk: &SecretKey,
    password: &[u8],
    k: u64,
    max_p: u32,
    words: &mut [u32],
    bytes: &mut [u8],
) -> Result<[u8; 104]>
    requires k_positive { 1 ≤ k }
    requires sealed { sealed_by_scrypt sk.now ≡ Ok sk.now }
    requires words { (opening_memory sk.now k).0 ≤ length words.old }
    requires bytes { (opening_memory sk.now k).1 ≤ length bytes.old }
    ensures stream { IfOk result (λ s. s ≡ stream_of sk.now password.now) }
    ensures allowed { OnOk result (IsOk (allowed_work sk.now (Some max_p))) }
    ensures refused { IfErr result (λ e. allowed_work sk.now (Some max_p) ≡ Err e) }
    ensures words_cleared { words.new ≡ replicate (length words.old) 0 }
    ensures bytes_cleared { bytes.new ≡ replicate (length bytes.old) 0 }
{
    match bounded_params(sk, Some(max_p)) {
        Ok(params) => {
            let mut derived = [0u8; 104];
            scrypt_in(
                password,
                &sk.kdf_salt,
                &params,
                k,
                words,
                bytes,
                &mut derived,
            );
            Ok(derived)
        }
        Err(fault) => {
            clear_memory(words, bytes);
            Err(fault)
        }
    }
}

// Returns the scrypt parameters for the key's limits, if these are allowed and p is within the
// bound.
#[tactic(auto, using(crate::proofs::SealingLimits::allowed_numbers))]
pub(crate) fn bounded_params(sk: &SecretKey, bound: Option<u32>) -> Result<Params>
    ensures { MatchResult result (λ v. (numbers (from_le_bytes w64 sk.now.memory_limit)
        (from_le_bytes w64 sk.now.operations_limit) ≡ v) × (allowed_work sk.now bound ≡ Ok v))
        (λ e. allowed_work sk.now bound ≡ Err e) }
{
    let params = key_params(sk)?;
    match bound {
        Some(max_p) => {
            if params.p() > max_p {
                return Err(NamedFault::WorkTooHigh.into());
            }
            Ok(params)
        }
        None => Ok(params),
    }
}

// Returns the scrypt parameters for the key's limits, if these are allowed.
pub(crate) fn key_params(sk: &SecretKey) -> Result<Params>
    ensures { result ≡ key_limits sk.now }
{
    let memlimit = load_u64_le(&sk.kdf_memlimit_le);
    let opslimit = load_u64_le(&sk.kdf_opslimit_le);
    if memlimit > MEMLIMIT_MAX {
        return Err(NamedFault::ParametersTooHigh.into());
    }
    raw_scrypt_params(memlimit, opslimit, N_LOG2_MAX)
}
