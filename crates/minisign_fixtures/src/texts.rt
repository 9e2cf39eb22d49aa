//! Key files and signature files as texts: those of key A, which `keys` describes, and those of the
//! pair that is generated from the random bytes 0, 1, 2 and so on.
//!
//! The base64 is from Python's base64 module. The encrypted bytes are the bytes of the key, xored
//! with the scrypt output of Python's hashlib. Key A is encrypted with the salt whose bytes count
//! up from 0x20, by `tests/library/sealed_keys.py`.

/// Key A's public key file: 114 bytes, 57 of them in the first line.
pub const KEY_TEXT: &str =
    "untrusted comment: minisign public key: 0807060504030201\nRWQBAgMEBQYHCFpaWlpaWlpaWlpaWlpaWlpaWlpaWlpaWlpaWlpaWlpa\n";

/// Key A's secret key file, not encrypted: 259 bytes, 46 of them in the first line.
pub const SECRET_TEXT: &str =
    "untrusted comment: rsign encrypted secret key\nRWQAAEIyAAAAAAAAAAAAAAAAAAAAAAAAAAAAAAAAAAAAAAAAAAAAAAAAAAAAAAAAAAAAAAAAAQIDBAUGBwgAAAAAAAAAAAAAAAAAAAAAAAAAAAAAAAAAAAAAAAAAAFpaWlpaWlpaWlpaWlpaWlpaWlpaWlpaWlpaWlpaWlpazoeDdHm2Hr/pRluKO3DYzP11U/WDPdZWSdZKEnx6ifg=\n";

/// Key A's secret key file, encrypted with `password`. The memory limit is 1048576 and the
/// operations limit 0, so N is 1024 and p is 1.
pub const SEALED: &str =
    "c\nRWRTY0IyICEiIyQlJicoKSorLC0uLzAxMjM0NTY3ODk6Ozw9Pj8AAAAAAAAAAAAAEAAAAAAANzLJ/MLV6VpKMIMxcHP/PKMk4Bi0eFdmecBNpsg4ynwt/HpMxIwJcRDauwXAlysg905AtUdJ1s3zc9686k8nFa2Pz7MgLfQOna+YbhXPDg/sopzDAu0uhPc67LTI7waUd6Z1TNToWRQ=\n";

/// The same as `SEALED`, but encrypted with the empty password.
pub const SEALED_WITH_EMPTY_PASSWORD: &str =
    "c\nRWRTY0IyICEiIyQlJicoKSorLC0uLzAxMjM0NTY3ODk6Ozw9Pj8AAAAAAAAAAAAAEAAAAAAA1DkFeSFrLVKcwd/U0CI9mSavW9NxS4F4EQL92MDkC8uWs0JuRQz6LvKq8SxCaEzQ9atdFcGf+AzNzb5P/9sKQMB2AMmAjhrMMVLg/zh9xJgdEhLMHykwaQZcV4+yRqrbnzM9EwHWjT8=\n";

/// Key A's secret key file, encrypted with `password` and the limits of the Rust crate `minisign`:
/// the memory limit is 33554432 and the operations limit 1048576, so N is 32768 and p is 1.
pub const SEALED_AS_USUAL: &str =
    "c\nRWRTY0IyICEiIyQlJicoKSorLC0uLzAxMjM0NTY3ODk6Ozw9Pj8AABAAAAAAAAAAAAIAAAAAjUss1iTpx2jHan0ASsaZQwP1dCaRM+oU2FIKEwvLutgH2C0JcjxT/CuY4tv6CM1b3wkKEKHGEe71QgwDScCLEz6+FcNBj3NBoDjmf+b5TY9u8fOF0PBBHUDJaJTqFTelg2U253BVfy0=\n";

/// Key A's secret key file, encrypted with `password` and the limits of Minisign, the C program:
/// the memory limit is 1073741824 and the operations limit 33554432, so N is 1048576 and p is 1.
pub const SEALED_AS_MINISIGN: &str =
    "c\nRWRTY0IyICEiIyQlJicoKSorLC0uLzAxMjM0NTY3ODk6Ozw9Pj8AAAACAAAAAAAAAEAAAAAAfNjz++TIKpp4IyGrjJGmCSx73rDg3YioSercimsbLYSEmCVnqNXlkhOlMnO28DQkrhqE6TPG4CHMRLKTyPTH/aM8cigR6hHlyOu2QlHuGt7c7Ymi2nZ4nmOlTg5ZxOkXvKWEU0RI3L4=\n";

/// The signature file of `abc` under key A, with the comments `c` and `t`: 230 bytes.
pub const SIGNATURE_TEXT: &str =
    "untrusted comment: c\nRUQBAgMEBQYHCAAAAAAAAAAAAAAAAAAAAAAAAAAAAAAAAAAAAAAAAAAAnV06XOjtbnryLxgygHtgJg6o/+bp8Qy3qGtn2FWlYag=\ntrusted comment: t\nAAAAAAAAAAAAAAAAAAAAAAAAAAAAAAAAAAAAAAAAAACzB2AGsrc0IKh1QmjaITp8VPKlvLOrVu3yMT2CD/878g==\n";

/// The legacy signature file of `abc` under key A, with the comments `c` and `t`.
pub const LEGACY_TEXT: &str =
    "untrusted comment: c\nRWQBAgMEBQYHCAAAAAAAAAAAAAAAAAAAAAAAAAAAAAAAAAAAAAAAAAAAOzg5WlpaWlpaWlpaWlpaWlpaWlpaWlpaWlpaWlpaWlo=\ntrusted comment: t\nAAAAAAAAAAAAAAAAAAAAAAAAAAAAAAAAAAAAAAAAAAAVYmMAAAAAAAAAAAAAAAAAAAAAAAAAAAAAAAAAAAAAAA==\n";

/// The status lines after verifying these signatures: 60 bytes.
pub const STATUS_LINES: &[u8] = b"Signature and comment signature verified\nTrusted comment: t\n";

/// The public key file of the pair from the random bytes 0, 1, 2 and so on: 114 bytes.
pub const COUNTED_PUBLIC_TEXT: &str =
    "untrusted comment: minisign public key: 2726252423222120\nRWQgISIjJCUmJ1pbWFleX1xdUlNQUVZXVFVKS0hJTk9MTUJDQEFGR0RF\n";

/// The secret key file of this pair, encrypted with the empty password.
pub const COUNTED_SEALED_WITH_EMPTY_PASSWORD: &str =
    "untrusted comment: rsign encrypted secret key\nRWRTY0IyKCkqKywtLi8wMTIzNDU2Nzg5Ojs8PT4/QEFCQ0RFRkcAABAAAAAAAAAAAAIAAAAAIoT8yd+PcQfH6lwE1U7O9qfndmpt7swxBoez0bsWiknOfDOOpFGbhjh5qsz72GDfpXvgyyaj1ApsXB8h6ndwyMLnkT37fS678tPzO+d7NuqTnl9nkchMiqeXIS9wInpMPH1nK9B1duY=\n";
