// The firmware space of the TPM: 10 bytes that are always good. The constants are its layout, in bytes from the start, and
// the least version of its structure.
ghost use Rattle.std.specs.Prelude.{◌≡◌, Some};
ghost use Rattle.record_core.specs.Space.{IsGoodFirmware, firmware_fault, firmware_flags, firmware_versions, good_bytes};
ghost use Rattle.record_core.specs.Space.{stored_firmware_version, with_firmware_flags, with_firmware_versions};

use crate::space::{SpaceFault, renew_crc};
use std::marker::Model;
use wire_core::{crc8, put_u32, u32_at};

const STRUCT_VERSION_AT: usize = 0;

const FLAGS_AT: usize = 1;

const VERSIONS_AT: usize = 2;

const CRC_AT: usize = 9;

const LEAST_STRUCT_VERSION: u8 = 2;

/// A good firmware space, seen as its 10 bytes.
/// Source: vboot_reference, firmware/2lib/2secdata_firmware.c.
#[derive(Clone, Copy, Debug, PartialEq, Eq)]
pub struct FwSpace {
    bytes: [u8; 10],
}

impl Model for FwSpace {
    ghost use Rattle.std.specs.Prelude.{List, ℕ};
    ghost use Rattle.record_core.specs.Space.{IsGoodFirmware};

    ghost Value = { List ℕ };

    ghost view = { λ space. space.bytes };

    ghost invariant = { λ space. IsGoodFirmware space.bytes };

    ghost inverse = { λ bytes. record { bytes = bytes } };
}

impl FwSpace {
    /// The space in these bytes, or the first fault: `Size`, `Crc` or `Version`.
    pub fn from_bytes(bytes: &[u8]) -> Result<FwSpace, SpaceFault>
        ensures { result ≡ good_bytes (firmware_fault bytes.now) bytes.now }
    {
        let Ok(space) = <[u8; 10]>::try_from(bytes) else {
            return Err(SpaceFault::Size);
        };
        if space[CRC_AT] != crc8(&space[..CRC_AT]) {
            return Err(SpaceFault::Crc);
        }
        if space[STRUCT_VERSION_AT] < LEAST_STRUCT_VERSION {
            return Err(SpaceFault::Version);
        }
        Ok(FwSpace { bytes: space })
    }

    /// The 10 bytes.
    pub fn to_bytes(&self) -> [u8; 10]
        ensures same { result ≡ self.now }
        ensures good { IsGoodFirmware self.now }
    {
        self.bytes
    }

    /// The flags: 0x01 where the last boot was a developer's, 0x02 in developer mode.
    pub fn flags(&self) -> u8
        ensures { result ≡ firmware_flags self.now }
    {
        self.bytes[FLAGS_AT]
    }

    /// Replaces the flags. All other bytes stay, but the CRC.
    pub fn set_flags(&mut self, flags: u8)
        ensures bytes { self.new ≡ with_firmware_flags self.old flags }
        ensures good { IsGoodFirmware self.new }
        ensures flags { firmware_flags self.new ≡ flags }
        ensures versions { firmware_versions self.new ≡ firmware_versions self.old }
        ensures stored { stored_firmware_version self.new ≡ stored_firmware_version self.old }
    {
        self.bytes[FLAGS_AT] = flags;
        renew_crc(&mut self.bytes, CRC_AT);
    }

    /// The version word: the key's version in the upper 16 bits, the firmware's in the lower.
    pub fn versions(&self) -> u32
        ensures versions { result ≡ firmware_versions self.now }
        ensures stored { stored_firmware_version self.now ≡ Some result }
    {
        u32_at(&self.bytes, VERSIONS_AT)
    }

    /// Replaces the version word. All other bytes stay, but the CRC.
    pub fn set_versions(&mut self, versions: u32)
        ensures bytes { self.new ≡ with_firmware_versions self.old versions }
        ensures good { IsGoodFirmware self.new }
        ensures versions { firmware_versions self.new ≡ versions }
        ensures flags { firmware_flags self.new ≡ firmware_flags self.old }
        ensures stored { stored_firmware_version self.new ≡ Some versions }
    {
        put_u32(&mut self.bytes, VERSIONS_AT, versions);
        renew_crc(&mut self.bytes, CRC_AT);
    }
}
