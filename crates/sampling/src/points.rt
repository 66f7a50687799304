//! The point of some bytes.

ghost use Rattle.std.specs.Prelude.{◌≡◌, ◌<◌, ◌^◌};
ghost use Rattle.sampling.specs.Sampling.{point_of};

use sha2::{Digest, Sha256};

/// The number that the first six bytes of the SHA-256 digest (FIPS 180-4) write, high byte first.
/// It is below 2^48.
pub fn point(bytes: &[u8]) -> u64
    ensures value { result ≡ point_of bytes.now }
    ensures below { result < 2 ^ 48 }
{
    let digest: [u8; 32] = Sha256::digest(bytes);
    u64::from_be_bytes([
        0, 0, digest[0], digest[1], digest[2], digest[3], digest[4], digest[5],
    ])
}
