// What a boot comes to where no device fails.
use board_core::Drive;
use fwsel_core::Slot;
use kernel_core::BootMode;
use rom_core::MapFault;

/// What a boot hands over: the firmware of a slot and a kernel, or in a recovery a kernel alone.
#[derive(Clone, Copy, Debug, PartialEq, Eq)]
pub struct Hand {
    /// The mode of the boot.
    pub mode: BootMode,
    /// The drive of the kernel.
    pub drive: Drive,
    /// The slot of the firmware, or none in a recovery.
    pub slot: Option<Slot>,
    /// The version word of the firmware: its data key's version in the upper 16 bits, and its own in the lower. 0 in a recovery.
    pub fw_version: u32,
    /// The number of bytes of the firmware. 0 in a recovery.
    pub fw_len: u32,
    /// The index of the kernel's partition, from 1 to 128.
    pub partition: u32,
    /// The version word of the kernel: its data key's version in the upper 16 bits, and its own in the lower.
    pub kernel_version: u32,
    /// The number of bytes of the kernel.
    pub kernel_len: u32,
    /// The address that the kernel is loaded at.
    pub load_address: u64,
    /// The version word of the firmware that is stored after the boot, or none where the firmware space has a fault.
    pub stored_fw: Option<u32>,
    /// The version word of the kernel that is stored after the boot, or none where the kernel space has a fault.
    pub stored_kernel: Option<u32>,
}

/// What a boot comes to where no device fails.
#[derive(Clone, Copy, Debug, PartialEq, Eq)]
pub enum Outcome {
    /// The boot goes on with these bytes, which the room hands out.
    HandOver(Hand),
    /// A recovery by hand asked for developer mode, and it is switched on from the next boot on.
    DevEnabled,
    /// The slot has a fault, or the disk has no table or no good kernel, and the machine is to boot again: the recovery reason
    /// and subcode, and whether a recovery was asked for.
    Reboot {
        reason: u8,
        subcode: u8,
        requested: bool,
    },
    /// A screen asks for a recovery, with the reason and, beside it, more on it.
    Screen {
        reason: u8,
        subcode: u8,
    },
    /// The map of the flash has this fault, and nothing is changed.
    BadFlash(MapFault),
}
