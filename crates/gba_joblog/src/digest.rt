//! Digests of files.

ghost use Rattle.std.specs.Prelude.{◌≡◌};
ghost use Rattle.hex.specs.Hex.{encode_lower};
ghost use Rattle.sha2.specs.Sha256.{sha256};

use sha2::{Digest, Sha256};

/// The SHA-256 digest of a file (FIPS 180-4), as jobs and logs state it: the 32 bytes, the first digits first.
pub fn digest_of(bytes: &[u8]) -> [u8; 32]
    ensures { result ≡ sha256 bytes.now }
{
    Sha256::digest(bytes)
}

/// The 64 hexadecimal digits of a digest in lower case, as logs and reports state it.
pub fn digits_of(digest: &[u8; 32]) -> [u8; 64]
    ensures { result ≡ encode_lower digest.now }
{
    let mut digits = [0u8; 64];
    if hex::encode_to_slice(digest.as_slice(), &mut digits).is_err() {
        unreachable!()
    }
    digits
}
