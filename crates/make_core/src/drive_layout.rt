// Places, sizes and tags of generated drives, in bytes.
// Source: the UEFI specification, sections 5.3.2 and 5.3.3, for the partition table, whose places `gpt_core` has; and
// `struct vb2_kernel_preamble` of vboot_reference (firmware/2lib/include/2struct.h). The GUIDs of kernels and root file
// systems are those of ChromeOS (host/lib/include/gpt.h there). Which partitions there are is the project's own.

// ---- the whole

/// The sectors of a drive, each of 512 bytes.
pub const DRIVE_SECTORS: u64 = 16384;

/// The sectors that are written at once.
pub const PIECE_SECTORS: u32 = 64;

/// The bytes that are written at once.
pub const PIECE_SIZE: usize = 32768;

/// The pieces of a drive.
pub const PIECES: u32 = 256;

/// The first and the last usable sector.
pub const USABLE: (u64, u64) = (34, 16350);

/// The place of the primary header.
pub const PRIMARY_AT: usize = 512;

/// The place of the primary entries.
pub const PRIMARY_ENTRIES_AT: usize = 1024;

/// The place of the backup entries.
pub const BACKUP_ENTRIES_AT: usize = 8_371_712;

/// The place of the backup header.
pub const BACKUP_AT: usize = 8_388_096;

/// The place of the first kernel, partition 2: sector 64.
pub const FIRST_KERNEL_AT: usize = 32768;

/// The place of the second kernel, partition 4: sector 576.
pub const SECOND_KERNEL_AT: usize = 294_912;

// ---- a kernel

/// The tags by which the bytes of a kernel are filled, and what its keyblock says.
#[derive(Clone, Copy)]
pub struct KernelTags {
    /// The flags of the keyblock.
    pub flags: u32,
    /// The key that signs the keyblock.
    pub signer: u32,
    /// The data key.
    pub key: u32,
    /// The body.
    pub body: u32,
    /// The signature of the keyblock.
    pub keyblock: u32,
    /// The signature of the preamble.
    pub preamble: u32,
    /// The signature of the body.
    pub body_signature: u32,
}

/// The kernel in partition 2 of the disk: the kernel subkey signs its keyblock.
pub const KERNEL_A: KernelTags = KernelTags {
    flags: 7,
    signer: 4,
    key: 5,
    body: 9,
    keyblock: 27,
    preamble: 28,
    body_signature: 29,
};

/// The kernel in partition 4 of the disk.
pub const KERNEL_B: KernelTags = KernelTags {
    flags: 7,
    signer: 4,
    key: 5,
    body: 10,
    keyblock: 30,
    preamble: 31,
    body_signature: 32,
};

/// The kernel on the stick: good in recovery alone (flags 11), and the recovery key signs its keyblock.
pub const KERNEL_STICK: KernelTags = KernelTags {
    flags: 11,
    signer: 2,
    key: 6,
    body: 11,
    keyblock: 33,
    preamble: 34,
    body_signature: 35,
};

/// The bytes of a kernel preamble. Those behind its signature are 0.
pub const KERNEL_PREAMBLE_SIZE: u32 = 64_584;

/// How many of its bytes are signed. The bytes of its signature follow.
pub const KERNEL_PREAMBLE_SIGNED: usize = 372;

/// The minor part of the version of its format: 2.2.
pub const KERNEL_PREAMBLE_MINOR: u32 = 2;

/// The address at which a kernel is loaded.
pub const LOAD_ADDRESS: u32 = 0x10_0000;

/// The place of the head of the body's signature in it.
pub const KERNEL_BODY_SIGNATURE: usize = 72;

/// The size of its head. The bytes of the body's signature follow.
pub const KERNEL_PREAMBLE_HEAD: usize = 116;

/// The bytes of a keyblock and of the preamble behind it, up to the zeros.
pub const KERNEL_HEAD: usize = 1580;

/// The place of a kernel's body in its partition, behind keyblock and preamble.
pub const KERNEL_BODY_AT: usize = 65536;

/// The least bytes of a kernel's body.
pub const LEAST_KERNEL_BODY: u32 = 131_072;

// ---- the table

/// The tag of the disk's GUID. The GUID of entry i has the tag behind it by i.
pub const DISK_TAG: u32 = 40;

/// The tag of the stick's GUID.
pub const STICK_TAG: u32 = 80;

/// An entry of a table.
#[derive(Clone, Copy)]
pub struct EntryRow {
    /// Its index, from 1.
    pub index: u32,
    /// The GUID of its type, as it is stored.
    pub kind: [u8; 16],
    /// Its first sector.
    pub begin: u32,
    /// Its sectors.
    pub size: u32,
    /// Its attributes.
    pub attributes: u64,
    /// Its name, and zeros behind it.
    pub name: [u8; 10],
}

// fe3a2a5d-4f32-41a7-b725-accc3285a309
const KERNEL: [u8; 16] = *b"\x5d\x2a\x3a\xfe\x32\x4f\xa7\x41\xb7\x25\xac\xcc\x32\x85\xa3\x09";

// 3cb8e202-3b7e-47dd-8a3c-7ff2a13cfcec
const ROOTFS: [u8; 16] = *b"\x02\xe2\xb8\x3c\x7e\x3b\xdd\x47\x8a\x3c\x7f\xf2\xa1\x3c\xfc\xec";

// c12a7328-f81f-11d2-ba4b-00a0c93ec93b
const EFI: [u8; 16] = *b"\x28\x73\x2a\xc1\x1f\xf8\xd2\x11\xba\x4b\x00\xa0\xc9\x3e\xc9\x3b";

// ebd0a0a2-b9e5-4433-87c0-68b6b72699c7
const DATA: [u8; 16] = *b"\xa2\xa0\xd0\xeb\xe5\xb9\x33\x44\x87\xc0\x68\xb6\xb7\x26\x99\xc7";

// Bit 48 is the lowest of the priority, and bit 56 says that the kernel was successful.
const PRIORITY_2: u64 = 0x0102_0000_0000_0000;

const PRIORITY_1: u64 = 0x0101_0000_0000_0000;

// The entry of partition 2, which disk and stick have.
const KERN_A: EntryRow = EntryRow {
    index: 2,
    kind: KERNEL,
    begin: 64,
    size: 512,
    attributes: PRIORITY_2,
    name: *b"KERN-A\0\0\0\0",
};

/// The entries of the stick.
pub const STICK_ROWS: [EntryRow; 1] = [KERN_A];

/// The entries of the disk.
pub const DISK_ROWS: [EntryRow; 12] = [
    EntryRow {
        index: 1,
        kind: DATA,
        begin: 8192,
        size: 4096,
        attributes: 0,
        name: *b"STATE\0\0\0\0\0",
    },
    KERN_A,
    EntryRow {
        index: 3,
        kind: ROOTFS,
        begin: 2048,
        size: 1024,
        attributes: 0,
        name: *b"ROOT-A\0\0\0\0",
    },
    EntryRow {
        index: 4,
        kind: KERNEL,
        begin: 576,
        size: 512,
        attributes: PRIORITY_1,
        name: *b"KERN-B\0\0\0\0",
    },
    EntryRow {
        index: 5,
        kind: ROOTFS,
        begin: 3072,
        size: 1024,
        attributes: 0,
        name: *b"ROOT-B\0\0\0\0",
    },
    EntryRow {
        index: 6,
        kind: KERNEL,
        begin: 1088,
        size: 1,
        attributes: 0,
        name: *b"KERN-C\0\0\0\0",
    },
    EntryRow {
        index: 7,
        kind: ROOTFS,
        begin: 1089,
        size: 1,
        attributes: 0,
        name: *b"ROOT-C\0\0\0\0",
    },
    EntryRow {
        index: 8,
        kind: DATA,
        begin: 1090,
        size: 1,
        attributes: 0,
        name: *b"OEM\0\0\0\0\0\0\0",
    },
    EntryRow {
        index: 9,
        kind: DATA,
        begin: 1091,
        size: 1,
        attributes: 0,
        name: *b"reserved\0\0",
    },
    EntryRow {
        index: 10,
        kind: DATA,
        begin: 1092,
        size: 1,
        attributes: 0,
        name: *b"reserved\0\0",
    },
    EntryRow {
        index: 11,
        kind: DATA,
        begin: 1093,
        size: 1,
        attributes: 0,
        name: *b"RWFW\0\0\0\0\0\0",
    },
    EntryRow {
        index: 12,
        kind: EFI,
        begin: 1100,
        size: 64,
        attributes: 0,
        name: *b"EFI-SYSTEM",
    },
];
