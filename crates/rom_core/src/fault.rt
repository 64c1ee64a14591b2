// What can be wrong with a flash map or a GBB.
ghost use Rattle.std.specs.Prelude.{◌≡◌};
ghost use Rattle.rom_core.specs.Faults.{map_fault_number, gbb_fault_number};

/// What is wrong with a flash map, numbered by the lines of its table. The fault of a map is the first line whose test
/// holds.
#[derive(Clone, Copy, Debug, PartialEq, Eq)]
pub enum MapFault {
    /// The flash has not a multiple of 4,096 bytes, or over 33,554,432.
    FlashSize = 1,
    /// No head of a map stands at the place of the map.
    NoMap = 2,
    /// One of the six areas of a boot is not there.
    MissingArea = 3,
    /// One of them has no byte, or does not lie inside the flash.
    AreaOutside = 4,
    /// A VBLOCK has over 65,536 bytes, or a FW_MAIN over 16,777,216.
    AreaTooLarge = 5,
    /// RW_NVRAM does not begin at a multiple of 4,096, or has under 8,192 bytes.
    AreaShape = 6,
    /// Two of them lie in one page of 4,096 bytes, or one of those that are written and the map. The GBB may share pages
    /// with the map.
    AreaOverlap = 7,
}

/// What is wrong with a GBB, numbered by the lines of its table. The fault of a GBB is the first line whose test holds.
#[derive(Clone, Copy, Debug, PartialEq, Eq)]
pub enum GbbFault {
    /// The area has fewer bytes than the head.
    Size = 1,
    /// It does not begin with the magic text.
    Magic = 2,
    /// The major version is not 1, the minor version is under 2, or the size of the head is under 128.
    Version = 3,
    /// The HWID or a key begins inside the head or ends past the area; the HWID has no byte or over 256; or a key's range
    /// does not hold its structure and, behind it, its bytes.
    Outside = 4,
}

impl MapFault {
    /// The line of the map table, 1 to 7.
    pub fn number(self) -> u8
        ensures { result ≡ map_fault_number self }
    {
        self as u8
    }
}

impl GbbFault {
    /// The line of the GBB's table, 1 to 4.
    pub fn number(self) -> u8
        ensures { result ≡ gbb_fault_number self }
    {
        self as u8
    }
}
