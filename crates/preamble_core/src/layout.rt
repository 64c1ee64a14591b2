// Places and sizes of preambles, in bytes. A place counts from the start of the preamble.
// Source: `struct vb2_fw_preamble` and `struct vb2_kernel_preamble` of vboot_reference
// (firmware/2lib/include/2struct.h). All numbers are little-endian.

// ---- both preambles

/// The u32 size of the preamble, with all that it points to. A reserved u32 follows.
pub const PREAMBLE_SIZE: u32 = 0;

/// The signature over the preamble's signed part.
pub const PREAMBLE_SIGNATURE: u32 = 8;

/// The u32 major version of the format.
pub const PREAMBLE_MAJOR: u32 = 32;

/// The one major version that is read.
pub const PREAMBLE_MAJOR_VERSION: u32 = 2;

/// The u32 minor version of the format.
pub const PREAMBLE_MINOR: u32 = 36;

/// The u32 version of the firmware or the kernel. A reserved u32 follows.
pub const PREAMBLE_VERSION: u32 = 40;

// ---- firmware

/// The packed key that the kernel's keyblock is signed with.
pub const FIRMWARE_SUBKEY: u32 = 48;

/// The signature of the firmware body.
pub const FIRMWARE_BODY_SIGNATURE: u32 = 80;

/// The u32 flags.
pub const FIRMWARE_FLAGS: u32 = 104;

/// The size of the structure itself.
pub const FIRMWARE_HEAD: u32 = 108;

// ---- kernel

/// The u64 address that the body is loaded at.
pub const KERNEL_LOAD_ADDRESS: u32 = 48;

/// The signature of the kernel body. Before it stand the u64 address of the bootloader, its u32 size and a reserved u32.
pub const KERNEL_BODY_SIGNATURE: u32 = 72;

/// The size of the structure itself at minor version 0.
pub const KERNEL_HEAD: u32 = 96;

/// The same at minor version 1, which adds the u64 address of the vmlinuz header, its u32 size and a reserved u32.
pub const KERNEL_HEAD_1: u32 = 112;

/// The same from minor version 2 on, which adds the u32 flags.
pub const KERNEL_HEAD_2: u32 = 116;
