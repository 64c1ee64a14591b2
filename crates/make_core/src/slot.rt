// The keyblock, the preamble and the body of a slot of firmware.
ghost use Rattle.std.specs.Prelude.{◌≡◌, ◌<◌};
ghost use Rattle.make_core.specs.Firmware.{signed_keyblock, keyblock, signed_preamble, preamble, vblock, body_size, AreTags};

use crate::layout::*;
use crate::putting::{put_bytes, put_fill, put_words};
use sha2::{Digest, Sha512};

/// How many bytes the body of a slot has.
pub fn body_size(number: u32) -> u32
    ensures { result ≡ body_size number }
{
    LEAST_BODY + BODY_STEP * (number % 64)
}

/// What is signed of a keyblock with these flags, whose data key has this tag.
pub fn make_signed_keyblock(number: u32, flags: u32, key_tag: u32) -> [u8; KEYBLOCK_SIGNED]
    requires { key_tag < 256 }
    ensures { result ≡ signed_keyblock number flags key_tag }
{
    let head = [
        FORMAT_MAJOR,
        FORMAT_MINOR,
        KEYBLOCK_SIZE as u32,
        0,
        (KEYBLOCK_SIGNATURE_BYTES - KEYBLOCK_SIGNATURE) as u32,
        0,
        SIGNATURE_SIZE as u32,
        0,
        KEYBLOCK_SIGNED as u32,
        0,
        (KEYBLOCK_SIGNED - KEYBLOCK_HASH) as u32,
        0,
        HASH_SIZE as u32,
        0,
        KEYBLOCK_SIGNED as u32,
        0,
        flags,
        0,
        (KEYBLOCK_HEAD - KEYBLOCK_DATA_KEY) as u32,
        0,
        KEY_SIZE as u32,
        0,
        ALGORITHM,
        0,
        KEY_VERSION,
        0,
    ];
    let mut out = [0; KEYBLOCK_SIGNED];
    put_bytes(&mut out, 0, &KEYBLOCK_MAGIC);
    put_words(&mut out, KEYBLOCK_NUMBERS, &head);
    put_fill(&mut out, KEYBLOCK_HEAD, number, key_tag, 0, KEY_SIZE);
    out
}

/// A keyblock with these flags, whose data key and whose signature have these tags.
pub fn make_keyblock(number: u32, flags: u32, key_tag: u32, tag: u32) -> [u8; KEYBLOCK_SIZE]
    requires key_tag { key_tag < 256 }
    requires tag { tag < 256 }
    ensures { result ≡ keyblock number flags key_tag tag }
{
    let signed = make_signed_keyblock(number, flags, key_tag);
    let hash = Sha512::digest(&signed);
    let mut out = [0; KEYBLOCK_SIZE];
    put_bytes(&mut out, 0, &signed);
    put_bytes(&mut out, KEYBLOCK_SIGNED, &hash);
    put_fill(
        &mut out,
        KEYBLOCK_SIGNATURE_BYTES,
        number,
        tag,
        0,
        SIGNATURE_SIZE,
    );
    out
}

/// What is signed of a preamble, whose body's signature has this tag.
pub fn make_signed_preamble(number: u32, body_signature: u32) -> [u8; PREAMBLE_SIGNED]
    requires { body_signature < 256 }
    ensures { result ≡ signed_preamble number body_signature }
{
    let head = [
        PREAMBLE_SIZE as u32,
        0,
        (PREAMBLE_SIGNED - PREAMBLE_SIGNATURE) as u32,
        0,
        SIGNATURE_SIZE as u32,
        0,
        PREAMBLE_SIGNED as u32,
        0,
        FORMAT_MAJOR,
        FORMAT_MINOR,
        1 + number % 8,
        0,
        (PREAMBLE_HEAD - PREAMBLE_SUBKEY) as u32,
        0,
        KEY_SIZE as u32,
        0,
        ALGORITHM,
        0,
        KEY_VERSION,
        0,
        (PREAMBLE_BODY_SIGNATURE_BYTES - PREAMBLE_BODY_SIGNATURE) as u32,
        0,
        SIGNATURE_SIZE as u32,
        0,
        body_size(number),
        0,
        0,
    ];
    let mut out = [0; PREAMBLE_SIGNED];
    put_words(&mut out, 0, &head);
    put_fill(&mut out, PREAMBLE_HEAD, number, KERNEL_SUBKEY, 0, KEY_SIZE);
    put_fill(
        &mut out,
        PREAMBLE_BODY_SIGNATURE_BYTES,
        number,
        body_signature,
        0,
        SIGNATURE_SIZE,
    );
    out
}

/// A preamble, whose body's signature and whose own have these tags.
pub fn make_preamble(number: u32, body_signature: u32, tag: u32) -> [u8; PREAMBLE_SIZE]
    requires body_tag { body_signature < 256 }
    requires tag { tag < 256 }
    ensures { result ≡ preamble number body_signature tag }
{
    let mut out = [0; PREAMBLE_SIZE];
    put_bytes(&mut out, 0, &make_signed_preamble(number, body_signature));
    put_fill(&mut out, PREAMBLE_SIGNED, number, tag, 0, SIGNATURE_SIZE);
    out
}

/// The keyblock and the preamble of a slot.
pub fn make_vblock(number: u32, tags: &SlotTags) -> [u8; VBLOCK_SIZE]
    requires { AreTags tags.now }
    ensures { result ≡ vblock number tags.now }
{
    let keyblock = make_keyblock(number, FIRMWARE_FLAGS, FIRMWARE_KEY, tags.keyblock);
    let preamble = make_preamble(number, tags.body_signature, tags.preamble);
    let mut out = [0; VBLOCK_SIZE];
    put_bytes(&mut out, 0, &keyblock);
    put_bytes(&mut out, KEYBLOCK_SIZE, &preamble);
    out
}
