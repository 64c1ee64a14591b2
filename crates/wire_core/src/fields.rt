// Little-endian fields of a buffer: reading one, and writing one in its place.
ghost use Rattle.std.specs.Prelude.{◌≡◌, ◌+◌, ◌≤◌, length};
ghost use Rattle.wire_core.specs.Fields.{number_at, with_number};

use byteorder::{ByteOrder, LittleEndian};

/// The little-endian `u16` in the two bytes from `at`.
pub fn u16_at(bytes: &[u8], at: usize) -> u16
    requires { at + 2 ≤ length bytes.now }
    ensures { result ≡ number_at 2 bytes.now at }
{
    LittleEndian::read_u16(&bytes[at..])
}

/// The little-endian `u32` in the four bytes from `at`.
pub fn u32_at(bytes: &[u8], at: usize) -> u32
    requires { at + 4 ≤ length bytes.now }
    ensures { result ≡ number_at 4 bytes.now at }
{
    LittleEndian::read_u32(&bytes[at..])
}

/// The little-endian `u64` in the eight bytes from `at`.
pub fn u64_at(bytes: &[u8], at: usize) -> u64
    requires { at + 8 ≤ length bytes.now }
    ensures { result ≡ number_at 8 bytes.now at }
{
    LittleEndian::read_u64(&bytes[at..])
}

/// Writes `value` as a little-endian `u16` into the two bytes from `at`. All other bytes stay.
pub fn put_u16(bytes: &mut [u8], at: usize, value: u16)
    requires { at + 2 ≤ length bytes.old }
    ensures { bytes.new ≡ with_number 2 bytes.old at value }
{
    LittleEndian::write_u16(&mut bytes[at..], value);
}

/// Writes `value` as a little-endian `u32` into the four bytes from `at`. All other bytes stay.
pub fn put_u32(bytes: &mut [u8], at: usize, value: u32)
    requires { at + 4 ≤ length bytes.old }
    ensures { bytes.new ≡ with_number 4 bytes.old at value }
{
    LittleEndian::write_u32(&mut bytes[at..], value);
}

/// Writes `value` as a little-endian `u64` into the eight bytes from `at`. All other bytes stay.
pub fn put_u64(bytes: &mut [u8], at: usize, value: u64)
    requires { at + 8 ≤ length bytes.old }
    ensures { bytes.new ≡ with_number 8 bytes.old at value }
{
    LittleEndian::write_u64(&mut bytes[at..], value);
}
