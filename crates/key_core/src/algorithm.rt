// Signature algorithms by their number: which keys can be used, and how long keys and signatures are.
ghost use Rattle.std.specs.Prelude.{◌≡◌, ◌≤◌};
ghost use Rattle.wire_core.specs.FirstFault.{first_fault};
ghost use Rattle.key_core.specs.Algorithms.{signature_length, key_lines, KeyQuestion};

use crate::fault::KeyFault;

/// The largest number of an algorithm.
pub const LAST_ALGORITHM: u32 = 17;

// The signature lengths of the RSA sizes, in bytes: 1024, 2048, 4096 and 8192 bits with exponent 65537, then 2048 and
// 3072 bits with exponent 3.
const SIGNATURE_LENGTHS: [u32; 6] = [128, 256, 512, 1024, 256, 384];

/// The length of a signature by this algorithm, in bytes: that of the RSA modulus.
pub fn signature_length(algorithm: u32) -> u32
    requires { algorithm ≤ 17 }
    ensures { result ≡ signature_length algorithm }
{
    SIGNATURE_LENGTHS[(algorithm / 3) as usize]
}

/// What is wrong with a key of this algorithm and of so many bytes, or nothing.
///
/// The number of the algorithm is over 17; its hash is SHA-1; or the key has not the length of the algorithm, which is 8
/// bytes and twice the modulus. The first of these is the answer.
pub fn key_fault(algorithm: u32, size: u32) -> Option<KeyFault>
    ensures { let key : KeyQuestion = record { algorithm = algorithm; size = size } in result ≡ first_fault key_lines key }
{
    if algorithm > LAST_ALGORITHM {
        Some(KeyFault::Algorithm)
    } else if algorithm % 3 == 0 {
        Some(KeyFault::Sha1)
    } else if size != 8 + 2 * signature_length(algorithm) {
        Some(KeyFault::Size)
    } else {
        None
    }
}
