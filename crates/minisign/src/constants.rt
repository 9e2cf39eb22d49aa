//! Algorithm names, default file and directory names, default comments, and the limits of new keys.

/// The default untrusted comment of a signature.
pub const DEFAULT_COMMENT: &str = "signature from rsign secret key";

/// The environment variable that names the directory of keys and settings.
pub const SIG_DEFAULT_CONFIG_DIR_ENV_VAR: &str = "RSIGN_CONFIG_DIR";

/// The directory of keys and settings in the user's home directory. It is used if
/// `SIG_DEFAULT_CONFIG_DIR_ENV_VAR` is not set.
pub const SIG_DEFAULT_CONFIG_DIR: &str = ".rsign";

/// The file name of the public key.
pub const SIG_DEFAULT_PKFILE: &str = "rsign.pub";

/// The file name of the secret key.
pub const SIG_DEFAULT_SKFILE: &str = "rsign.key";

/// The suffix that is added to the name of a file to get the name of its signature file.
pub const SIG_SUFFIX: &str = ".minisig";

/// The algorithm of a legacy signature, which signs the data itself.
pub(crate) const SIGALG: [u8; 2] = [b'E', b'd'];

/// The algorithm of a prehashed signature, which signs the digest of the data.
pub(crate) const SIGALG_PREHASHED: [u8; 2] = [b'E', b'D'];

/// No key derivation: the secret key was never encrypted.
pub(crate) const KDF_NONE: [u8; 2] = [0, 0];

/// Key derivation with scrypt: the secret key was encrypted.
pub(crate) const KDF_ALG: [u8; 2] = [b'S', b'c'];

/// The label of the untrusted comment.
pub(crate) const COMMENT_PREFIX: &str = "untrusted comment: ";

/// The default untrusted comment of a secret key file.
pub(crate) const SECRETKEY_DEFAULT_COMMENT: &str = "rsign encrypted secret key";

/// The algorithm of a secret key's checksum: Blake2b.
pub(crate) const CHK_ALG: [u8; 2] = [b'B', b'2'];

/// The operations limit of newly encrypted keys.
pub(crate) const OPSLIMIT: u64 = 1048576;

/// The memory limit of newly encrypted keys, in bytes.
pub(crate) const MEMLIMIT: u64 = 33554432;
