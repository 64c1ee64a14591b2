// CRC-32 by halves of bytes, as the partition tables of UEFI have it.
ghost use Rattle.std.specs.Prelude.{◌≡◌, ◌<◌, ◌^◌};
ghost use Rattle.wire_core.specs.Crc32.{crc32_of};
ghost use Rattle.wire_core.specs.Register.{shifts, after_byte};

// What four zero bits make of each register of four bits.
const HALVES: [u32; 16] = [
    0x0000_0000,
    0x1db7_1064,
    0x3b6e_20c8,
    0x26d9_30ac,
    0x76dc_4190,
    0x6b6b_51f4,
    0x4db2_6158,
    0x5005_713c,
    0xedb8_8320,
    0xf00f_9344,
    0xd6d6_a3e8,
    0xcb61_b38c,
    0x9b64_c2b0,
    0x86d3_d2d4,
    0xa00a_e278,
    0xbdbd_f21c,
];

/// The CRC-32 of the bytes: the reflected one of the polynomial 0x04c11db7, with all ones as initial value and a final
/// complement. That of no bytes is 0. Source: the UEFI specification, section 5.3.
pub fn crc32(bytes: &[u8]) -> u32
    ensures { result ≡ crc32_of bytes.now }
{
    bytes
        .iter()
        .fold(0xffff_ffff, |crc, byte| with_byte(crc, *byte))
        ^ 0xffff_ffff
}

// The register after one more byte.
fn with_byte(crc: u32, byte: u8) -> u32
    ensures { result ≡ after_byte crc byte }
{
    with_half(with_half(crc ^ u32::from(byte)))
}

// The register after four zero bits.
fn with_half(crc: u32) -> u32
    ensures { result ≡ shifts 4 crc }
{
    HALVES[(crc & 15) as usize] ^ (crc >> 4)
}
