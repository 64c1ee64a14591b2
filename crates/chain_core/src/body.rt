// The body: read in pieces, each hashed as it comes, and then asked for.
ghost use Rattle.std.specs.Prelude.{◌≡◌, ◌+◌, ◌≤◌, vec_len, vec_capacity};
ghost use Rattle.chain_core.specs.Bodies.{TakesPiece, ReadsBody, ChecksBody};

use crate::fault::{BodyFault, Failure};
use crate::hasher::Hasher;
use board_core::{Failed, Flash, Hook};
use key_core::{LARGEST_KEY, LAST_ALGORITHM, PackedKey, signature_length};
use rom_core::Area;

/// The most bytes of a body that are read with one call.
const PIECE: u32 = 65536;

// Reads `count` bytes from `at` behind the bytes of the body that are there, and adds them to the message. The body has room
// for them, and takes no memory.
fn take_piece<F: Flash>(
    flash: &mut F,
    at: u32,
    count: u32,
    hasher: &mut Hasher,
    body: &mut Vec<u8>,
) -> Result<(), Failed>
    requires inside { at + count ≤ (F.state flash.old).medium.size }
    requires room { vec_len body.old + count ≤ vec_capacity body.old }
    ensures meets { TakesPiece at count (F.state flash.old) (F.state flash.new) hasher.old hasher.new body.old.items body.new.items result }
    ensures capacity { vec_capacity body.old ≤ vec_capacity body.new }
{
    let start = body.len();
    body.resize(start + count as usize, 0).unwrap();
    let piece = &mut body[start..];
    flash.read(at, piece)?;
    hasher.update(piece);
    Ok(())
}

// Reads `len` bytes from `at` as the body, and answers the hasher that has taken them in. The body has room for them, and
// takes no memory.
fn read_body<F: Flash>(
    flash: &mut F,
    at: u32,
    len: u32,
    algorithm: u32,
    body: &mut Vec<u8>,
) -> Result<Hasher, Failed>
    requires inside { at + len ≤ (F.state flash.old).medium.size }
    requires room { len ≤ vec_capacity body.old }
    ensures meets { ReadsBody at len algorithm (F.state flash.old) (F.state flash.new) body.new.items result }
    ensures capacity { vec_capacity body.old ≤ vec_capacity body.new }
{
    // The flash's size is a u32, so no place in the body wraps.
    let _size = flash.size();
    let mut hasher = Hasher::new(algorithm);
    body.clear();
    let mut done = 0;
    while done < len {
        let count = (len - done).min(PIECE);
        take_piece(flash, at + done, count, &mut hasher, body)?;
        done += count;
    }
    Ok(hasher)
}

/// Where a body stands in the flash.
#[derive(Clone, Copy, Debug)]
pub struct BodyPlace {
    /// The area that it begins.
    pub area: Area,
    /// How many bytes it has.
    pub len: u32,
}

/// The body that stands at a place of the flash, of which `signature` is to be one of the data key `key`.
/// Where nothing is wrong, `body` holds its bytes. It is read in pieces of at most 65,536 bytes, each hashed as it comes.
/// `body` has room for as many bytes as the area has, so no memory is taken. Flash and hook keep their content.
///
/// A `BodyFault` is the first line of the body table whose test holds. `Failure`: the flash or the hook failed, and its count
/// of faults rose.
pub fn verify_flash_body<F: Flash, H: Hook>(
    flash: &mut F,
    hook: &mut H,
    key: &PackedKey,
    signature: &[u8],
    place: BodyPlace,
    body: &mut Vec<u8>,
) -> Result<Option<BodyFault>, Failure>
    requires inside { place.area.at + place.area.size ≤ (F.state flash.old).medium.size }
    requires room { place.area.size ≤ vec_capacity body.old }
    requires algorithm { key.now.algorithm ≤ LAST_ALGORITHM }
    requires size { key.now.size ≤ LARGEST_KEY }
    ensures meets { ChecksBody key.now signature.now place.area place.len
        (F.state flash.old) (F.state flash.new) (H.state hook.old) (H.state hook.new) body.new.items result }
    ensures capacity { vec_capacity body.old ≤ vec_capacity body.new }
{
    if place.len == 0 {
        return Ok(Some(BodyFault::Empty));
    }
    if place.len > place.area.size {
        return Ok(Some(BodyFault::TooLarge));
    }
    if signature.len() != signature_length(key.algorithm) as usize {
        return Ok(Some(BodyFault::SigSize));
    }
    let hasher = match read_body(flash, place.area.at, place.len, key.algorithm, body) {
        Ok(hasher) => hasher,
        Err(Failed) => return Err(Failure::Store),
    };
    match hasher.verify(hook, key, signature) {
        Ok(true) => Ok(None),
        Ok(false) => Ok(Some(BodyFault::Refused)),
        Err(Failed) => Err(Failure::Hook),
    }
}
