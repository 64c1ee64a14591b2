// What is shown of a flash, and of a partition.
use key_core::KeyblockFault;
use preamble_core::{FwPreambleFault, KernelPreambleFault};
use rom_core::{GbbFault, Map};

/// What is shown of a flash with a map.
#[derive(Clone, Copy, Debug, PartialEq, Eq)]
pub struct FlashFacts {
    /// The number of bytes of the flash.
    pub size: u32,
    /// The place of the map, in bytes.
    pub map_at: u32,
    /// The areas that the map names.
    pub map: Map,
    /// The GBB, or what is wrong with it.
    pub gbb: Result<GbbFacts, GbbFault>,
    /// Slot A, or what is wrong with its keyblock.
    pub slot_a: Result<SlotFacts, KeyblockFault>,
    /// That of slot B.
    pub slot_b: Result<SlotFacts, KeyblockFault>,
}

/// What is shown of a GBB.
#[derive(Clone, Copy, Debug, PartialEq, Eq)]
pub struct GbbFacts {
    /// The minor version of the format.
    pub minor: u16,
    /// The flags.
    pub flags: u32,
    /// The bytes of the HWID, and zeros after them.
    pub hwid: [u8; 256],
}

/// What is shown of a keyblock.
#[derive(Clone, Copy, Debug, PartialEq, Eq)]
pub struct KeyblockFacts {
    /// Its size with all its parts, in bytes.
    pub size: u32,
    /// Its flags.
    pub flags: u32,
    /// The number of the data key's algorithm.
    pub algorithm: u32,
    /// The data key's version.
    pub version: u32,
}

/// What is shown of a slot whose keyblock has no fault.
#[derive(Clone, Copy, Debug, PartialEq, Eq)]
pub struct SlotFacts {
    /// The keyblock at the front of its area.
    pub keyblock: KeyblockFacts,
    /// The firmware preamble behind it, or what is wrong with it.
    pub preamble: Result<PreambleFacts, FwPreambleFault>,
}

/// What is shown of a firmware preamble.
#[derive(Clone, Copy, Debug, PartialEq, Eq)]
pub struct PreambleFacts {
    /// Its size with all its parts, in bytes.
    pub size: u32,
    /// The firmware's version.
    pub version: u32,
    /// Its flags.
    pub flags: u32,
    /// The size of the firmware body, in bytes.
    pub body_len: u32,
}

/// What is shown of a partition that a drive has.
#[derive(Clone, Copy, Debug, PartialEq, Eq)]
pub enum PartitionFacts {
    /// It has under 128 sectors, which is too short for the head of a kernel.
    Short,
    /// The kernel at its front, or what is wrong with the keyblock there.
    Kernel(Result<KernelFacts, KeyblockFault>),
}

/// What is shown of a kernel whose keyblock has no fault.
#[derive(Clone, Copy, Debug, PartialEq, Eq)]
pub struct KernelFacts {
    /// The keyblock at the front of its partition.
    pub keyblock: KeyblockFacts,
    /// The kernel preamble behind it, or what is wrong with it.
    pub preamble: Result<KernelPreambleFacts, KernelPreambleFault>,
}

/// What is shown of a kernel preamble.
#[derive(Clone, Copy, Debug, PartialEq, Eq)]
pub struct KernelPreambleFacts {
    /// Its size with all its parts, in bytes.
    pub size: u32,
    /// The kernel's version.
    pub version: u32,
    /// The address that the body is loaded at.
    pub load_address: u64,
    /// The size of the kernel body, in bytes.
    pub body_len: u32,
}
