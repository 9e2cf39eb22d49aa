//! Reads and writes the records of keys and signatures. A record is the bytes that the base64 in a file
//! encodes. Nothing here allocates.

ghost use Rattle.std.specs.Prelude.{◌≡◌, ◌+◌, ◌++◌, length, replicate, if◌then◌else◌, Ok};
ghost use Rattle.minisign.specs.Records.{is_prehashed};
ghost use Rattle.minisign.specs.Texts.{map_ok};
ghost use Rattle.minisign_external.specs.PublicKeys.{key_outcome};
ghost use Rattle.minisign_external.specs.ValueRecords.{bare_value, has_signature, public_key_in};
ghost use Rattle.minisign_external.specs.ValueRecords.{public_key_record, read_bare_value, secret_key_record};
ghost use Rattle.minisign_external.specs.ValueRecords.{signature_in, signature_record, record_outcome};
ghost use Rattle.minisign_external.specs.ValueRecords.{unsealed_algorithms};

use crate::public_keys::{PUBLIC, PublicKeyValue};
use crate::secrets::SecretKeyValue;
use crate::signatures::{READ, SignatureValue};
use crate::state::Misuse;
use minisign::{Result, SecretKey, Signature};
use minisign_base::NamedFault;

// The mark of a bare signature, which was read from a record: the letters `minisigb`.
pub(crate) const BARE: u64 = 7090752082729134445;

// The algorithm of a public key, of a secret key and of a legacy signature: the letters `Ed`.
const ED: [u8; 2] = [69, 100];

// The algorithm of a prehashed signature: the letters `ED`.
const ED_PREHASHED: [u8; 2] = [69, 68];

// The algorithm of a secret key, no key derivation, and the algorithm of its checksum: `Ed`, two zeros, `B2`.
const UNSEALED_ALGORITHMS: [u8; 6] = [69, 100, 0, 0, 66, 50];

/// Reads a public key from its record, the first 42 bytes: the algorithm (2 bytes), the key ID (8) and the
/// key (32). Later bytes are ignored, and the algorithm is not checked.
///
/// The only error is `RecordTooShort`, for fewer bytes. After an error the value is unchanged.
pub fn read_public_key_record(bytes: &[u8], value: &mut PublicKeyValue) -> Result<()>
    // On success, `value` holds the key and the key ID that the first 42 bytes of `bytes` contain, and is
    // marked as read. If there are fewer bytes, the error is `RecordTooShort`, and `value` is unchanged.
    ensures { (result, value.new) ≡ key_outcome (public_key_in bytes.now) value.old }
{
    if bytes.len() < 42 {
        return Err(NamedFault::RecordTooShort.into());
    }
    let (_, rest) = bytes.split_at(2);
    let (key_id, rest) = rest.split_at(8);
    let (key, _) = rest.split_at(32);
    *value = PublicKeyValue {
        mark: PUBLIC,
        key: array_of(key),
        key_id: array_of(key_id),
    };
    Ok(())
}

/// Writes the record of a public key, with the algorithm `Ed`. The only error is `PublicKeyNotRead`, after
/// which the record is unchanged.
pub fn write_public_key_record(
    value: &PublicKeyValue,
    bytes: &mut [u8; 42],
) -> std::result::Result<(), Misuse>
    // If the public key was read, the record is its 42 bytes, with the algorithm `Ed`. Otherwise the error is
    // `PublicKeyNotRead`, and the record is unchanged.
    ensures { (result, bytes.new) ≡ record_outcome (public_key_record value.now) bytes.old }
{
    if !value.is_public_key() {
        return Err(Misuse::PublicKeyNotRead);
    }
    join(bytes, &ED, &value.key_id, &value.key);
    Ok(())
}

/// Writes the record of an open secret key, as one that is not encrypted: without a key derivation, with
/// zeros as the salt and the limits, and with the checksum. The only error is `KeyNotOpened`, after which the
/// record is unchanged.
#[tactic(auto, unfolding(minisign::specs::Generation::unsealed_key))]
pub fn write_secret_key_record(
    value: &SecretKeyValue,
    bytes: &mut [u8; 158],
) -> std::result::Result<(), Misuse>
    // If the key is open, the record is the 158 bytes of the unencrypted secret key with its key ID and its
    // 64 secret bytes. Otherwise the error is `KeyNotOpened`, and the record is unchanged.
    ensures { (result, bytes.new) ≡ record_outcome (secret_key_record value.now) bytes.old }
{
    if !value.is_opened() {
        return Err(Misuse::KeyNotOpened);
    }
    let key = SecretKey::from_parts(value.key_id, value.secret);
    write_unsealed(bytes, &value.key_id, &value.secret, key.checksum());
    Ok(())
}

// Writes the fields of a key that is not encrypted: the algorithms, zeros as the salt and the limits, the key
// ID, the secret and the checksum.
fn write_unsealed(to: &mut [u8], key_id: &[u8; 8], secret: &[u8; 64], checksum: &[u8; 32])
    requires { length to.old ≡ 158 }
    ensures { to.new ≡ unsealed_algorithms ++ replicate 48 0 ++ (key_id.now ++ secret.now ++ checksum.now) }
{
    let (algorithms, rest) = to.split_at_mut(6);
    let (sealing, secrets) = rest.split_at_mut(48);
    write_algorithms(algorithms);
    sealing.fill(0);
    join(secrets, key_id, secret, checksum);
}

// Writes `Ed`, no key derivation, and `B2`.
fn write_algorithms(to: &mut [u8])
    requires { length to.old ≡ 6 }
    ensures { to.new ≡ unsealed_algorithms }
{
    to.copy_from_slice(&UNSEALED_ALGORITHMS);
}

impl SignatureValue {
    /// Reads a bare signature, one without comments, from its record, the first 74 bytes: the algorithm (2
    /// bytes), the key ID (8) and the signature (64). Later bytes are ignored.
    ///
    /// The errors are, in this order: `RecordTooShort`, for fewer bytes; `UnsupportedSignatureAlgorithm`.
    pub fn read_record(bytes: &[u8]) -> Result<SignatureValue>
        // On success, the result holds the key ID, the algorithm and the signature that the first 74 bytes
        // of `bytes` contain, and no comments. Otherwise the error is that of the first check that fails:
        // fewer bytes, and then an algorithm other than `Ed` and `ED`.
        ensures { result ≡ read_bare_value bytes.now }
    {
        match signature_in(bytes) {
            Ok(signature) => Ok(SignatureValue::of_signature(&signature)),
            Err(fault) => Err(fault),
        }
    }

    // Returns the struct for a bare signature.
    fn of_signature(signature: &Signature) -> SignatureValue
        ensures { result ≡ bare_value signature.now }
    {
        SignatureValue {
            mark: BARE,
            key_id: signature.keynum,
            signature: signature.sig,
            comment_signature: [0; 64],
            comment_offset: 0,
            comment_len: 0,
            text_digest: [0; 32],
            algorithm: signature.sig_alg,
            legacy: legacy_number(signature),
            whole: 0,
            reserved: 0,
        }
    }

    /// Returns true if the signature was read, from a text or from a record.
    pub fn has_signature(&self) -> bool
        ensures { result ≡ has_signature self.now }
    {
        self.mark == READ || self.mark == BARE
    }

    /// Writes the record of a signature that was read from a text or from a record. The only error is
    /// `SignatureNotRead`, after which the record is unchanged.
    pub fn write_record(&self, bytes: &mut [u8; 74]) -> std::result::Result<(), Misuse>
        // If the signature was read, the record is its 74 bytes. Otherwise the error is `SignatureNotRead`,
        // and the record is unchanged.
        ensures { (result, bytes.new) ≡ record_outcome (signature_record self.now) bytes.old }
    {
        if !self.has_signature() {
            return Err(Misuse::SignatureNotRead);
        }
        join(bytes, &self.algorithm, &self.key_id, &self.signature);
        Ok(())
    }
}

// Parses the first 74 bytes to a signature with a known algorithm.
fn signature_in(bytes: &[u8]) -> Result<Signature>
    ensures { result ≡ signature_in bytes.now }
{
    if bytes.len() < 74 {
        return Err(NamedFault::RecordTooShort.into());
    }
    let (algorithm, rest) = bytes.split_at(2);
    let (key_id, rest) = rest.split_at(8);
    let (signature, _) = rest.split_at(64);
    let sig_alg = array_of(algorithm);
    if sig_alg != ED && sig_alg != ED_PREHASHED {
        return Err(NamedFault::UnsupportedSignatureAlgorithm.into());
    }
    Ok(Signature {
        sig_alg,
        keynum: array_of(key_id),
        sig: array_of(signature),
    })
}

// Returns 1 if the signature is a legacy one, which signs the data itself, otherwise 0.
fn legacy_number(signature: &Signature) -> u8
    ensures { result ≡ (if is_prehashed signature.now then 0 else 1) }
{
    if signature.sig_alg == ED_PREHASHED {
        0
    } else {
        1
    }
}

// Copies `N` bytes to an array.
pub(crate) fn array_of<const N: usize>(bytes: &[u8]) -> [u8; N]
    requires { length bytes.now ≡ N }
    ensures { result ≡ bytes.now }
{
    let mut array = [0u8; N];
    array.copy_from_slice(bytes);
    array
}

// Writes three fields one after the other.
fn join(to: &mut [u8], first: &[u8], second: &[u8], third: &[u8])
    requires { length to.old ≡ length first.now + length second.now + length third.now }
    ensures { to.new ≡ first.now ++ second.now ++ third.now }
{
    let (front, rest) = to.split_at_mut(first.len());
    let (middle, back) = rest.split_at_mut(second.len());
    front.copy_from_slice(first);
    middle.copy_from_slice(second);
    back.copy_from_slice(third);
}
