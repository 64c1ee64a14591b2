// The keyblock and the preamble of a kernel.
ghost use Rattle.std.specs.Prelude.{◌≡◌, ◌<◌};
ghost use Rattle.make_core.specs.Kernel.{signed_kernel_preamble, kernel_head, kernel_body_size, AreKernelTags};

use crate::drive_layout::*;
use crate::layout::{FORMAT_MAJOR, KEYBLOCK_SIZE, PREAMBLE_SIGNATURE, SIGNATURE_SIZE};
use crate::putting::{put_bytes, put_fill, put_words};
use crate::slot::make_keyblock;

/// How many bytes the body of a kernel has.
pub fn kernel_body_size(number: u32) -> u32
    ensures { result ≡ kernel_body_size number }
{
    LEAST_KERNEL_BODY + 512 * (number % 16)
}

/// What is signed of the preamble of a kernel of this version, whose body's signature has this tag.
pub fn make_signed_kernel_preamble(
    number: u32,
    version: u32,
    body_signature: u32,
) -> [u8; KERNEL_PREAMBLE_SIGNED]
    requires { body_signature < 256 }
    ensures { result ≡ signed_kernel_preamble number version body_signature }
{
    let head = [
        KERNEL_PREAMBLE_SIZE,
        0,
        (KERNEL_PREAMBLE_SIGNED - PREAMBLE_SIGNATURE) as u32,
        0,
        SIGNATURE_SIZE as u32,
        0,
        KERNEL_PREAMBLE_SIGNED as u32,
        0,
        FORMAT_MAJOR,
        KERNEL_PREAMBLE_MINOR,
        version,
        0,
        LOAD_ADDRESS,
        0,
        0,
        0,
        0,
        0,
        (KERNEL_PREAMBLE_HEAD - KERNEL_BODY_SIGNATURE) as u32,
        0,
        SIGNATURE_SIZE as u32,
        0,
        kernel_body_size(number),
        0,
        0,
        0,
        0,
        0,
        0,
    ];
    let mut out = [0; KERNEL_PREAMBLE_SIGNED];
    put_words(&mut out, 0, &head);
    put_fill(
        &mut out,
        KERNEL_PREAMBLE_HEAD,
        number,
        body_signature,
        0,
        SIGNATURE_SIZE,
    );
    out
}

/// The keyblock of a kernel, and its preamble of this version up to the zeros at its end.
pub fn make_kernel_head(number: u32, version: u32, tags: &KernelTags) -> [u8; KERNEL_HEAD]
    requires { AreKernelTags tags.now }
    ensures { result ≡ kernel_head number version tags.now }
{
    let keyblock = make_keyblock(number, tags.flags, tags.key, tags.keyblock);
    let signed = make_signed_kernel_preamble(number, version, tags.body_signature);
    let mut out = [0; KERNEL_HEAD];
    put_bytes(&mut out, 0, &keyblock);
    put_bytes(&mut out, KEYBLOCK_SIZE, &signed);
    put_fill(
        &mut out,
        KEYBLOCK_SIZE + KERNEL_PREAMBLE_SIGNED,
        number,
        tags.preamble,
        0,
        SIGNATURE_SIZE,
    );
    out
}
