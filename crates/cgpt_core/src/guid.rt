// The GUIDs that the commands of a run may use.
ghost use Rattle.std.specs.Prelude.{◌≡◌, take};
ghost use Rattle.byteorder.specs.Endian.{little_bytes};
ghost use Rattle.cgpt_core.specs.Guids as spec;

use byteorder::{ByteOrder, LittleEndian};
use sha2::{Digest, Sha256};
use uuid::{Builder, Uuid};

/// The GUID of the command `number`, from 0, of a run with this seed: the first 16 bytes of the SHA-256 of the seed and of the
/// number, which is four bytes with the lowest first, with the version of a random one and the variant of RFC 9562 set.
pub fn guid_of_run(seed: &[u8; 32], number: u32) -> Uuid
    ensures { result ≡ spec.guid_of_run seed.now number }
{
    let mut hasher = Sha256::new();
    hasher.update(seed.as_slice());
    hasher.update(bytes_of(number).as_slice());
    let digest = hasher.finalize();
    Builder::from_random_bytes(first_half(&digest)).into_uuid()
}

fn first_half(digest: &[u8; 32]) -> [u8; 16]
    ensures { result ≡ take 16 digest.now }
{
    let mut half = [0; 16];
    half.copy_from_slice(&digest[..16]);
    half
}

fn bytes_of(number: u32) -> [u8; 4]
    ensures { result ≡ little_bytes 4 number }
{
    let mut bytes = [0; 4];
    LittleEndian::write_u32(&mut bytes, number);
    bytes
}
