// What both spaces of the TPM have: what can be wrong with one, and its CRC.
ghost use Rattle.std.specs.Prelude.{◌≡◌, ◌≤◌, ◌<◌, ◌+◌, length, drop};
ghost use Rattle.wire_core.specs.Crc8.{crc8_of};
ghost use Rattle.record_core.specs.Space.{fault_number, with_crc, with_front_crc};

use wire_core::crc8;

/// What is wrong with the bytes of a space. The first of these that holds is answered.
#[derive(Clone, Copy, Debug, PartialEq, Eq)]
pub enum SpaceFault {
    /// The number of bytes is not that of the space.
    Size,
    /// The CRC-8 is not that of the bytes before it, or in a kernel space of 40 bytes of those behind it.
    Crc,
    /// The version of the structure is not one that is known.
    Version,
    /// The kernel space of 13 bytes has another uid.
    Uid,
}

impl SpaceFault {
    /// The number of the fault, 1 to 4, which a screen or a request shows as the subcode.
    pub fn number(&self) -> u8
        ensures number { result ≡ fault_number self.now }
        ensures from_one { 1 ≤ result }
        ensures to_four { result ≤ 4 }
    {
        match self {
            SpaceFault::Size => 1,
            SpaceFault::Crc => 2,
            SpaceFault::Version => 3,
            SpaceFault::Uid => 4,
        }
    }
}

// Writes the CRC-8 of the bytes before `at` into the byte there.
pub(crate) fn renew_crc(bytes: &mut [u8], at: usize)
    requires { at < length bytes.old }
    ensures { bytes.new ≡ with_crc at bytes.old }
{
    bytes[at] = crc8(&bytes[..at]);
}

// Writes the CRC-8 of the bytes behind `at` into the byte there.
pub(crate) fn renew_front_crc(bytes: &mut [u8], at: usize)
    requires { at < length bytes.old }
    ensures { bytes.new ≡ with_front_crc at bytes.old }
{
    bytes[at] = crc_behind(bytes, at);
}

// The CRC-8 of the bytes behind `at`.
pub(crate) fn crc_behind(bytes: &[u8], at: usize) -> u8
    requires { at < length bytes.now }
    ensures { result ≡ crc8_of (drop (at + 1) bytes.now) }
{
    crc8(&bytes[at + 1..])
}
