// CRC-8 by bytes, as vboot computes it for nvdata and the TPM spaces.
ghost use Rattle.std.specs.Prelude.{◌≡◌, [], ◌∷◌, ◌++◌};
ghost use Rattle.wire_core.specs.Crc8.{byte_bits, crc8_divisor, crc8_of, remainder};

/// The CRC-8 of the bytes: polynomial x^8 + x^2 + x + 1, initial value 0, the most significant bit first, no final xor.
/// That of no bytes is 0. Source: `vb2_crc8` of vboot_reference.
pub fn crc8(bytes: &[u8]) -> u8
    ensures { result ≡ crc8_of bytes.now }
{
    bytes.iter().fold(0, |crc, byte| shifted_out(crc ^ *byte))
}

// The CRC-8 of one byte: eight steps of the division.
fn shifted_out(byte: u8) -> u8
    ensures { result ≡ crc8_of (byte ∷ []) }
{
    let mut crc = byte;
    for _ in 0_u8..8 {
        crc = shifted(crc);
    }
    crc
}

// One step of the division: the highest bit goes out, and a zero bit comes in.
fn shifted(crc: u8) -> u8
    ensures { byte_bits result ≡ remainder crc8_divisor 1 (byte_bits crc ++ 0 ∷ []) }
{
    let rest = crc << 1;
    if crc & 0x80 == 0 { rest } else { rest ^ 0x07 }
}
