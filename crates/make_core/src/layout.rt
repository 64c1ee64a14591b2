// Places, sizes and tags of generated images, in bytes.
// Source: `struct fmap` and `struct fmap_area` of the flashmap library (lib/fmap.h), and `struct vb2_gbb_header`,
// `struct vb2_keyblock` and `struct vb2_fw_preamble` of vboot_reference (firmware/2lib/include/2struct.h). Which areas
// there are, and by which tags bytes are filled, is the project's own.

// ---- keys and signatures

/// The bytes of a key of algorithm 4.
pub const KEY_SIZE: usize = 520;

/// The bytes of a signature of algorithm 4.
pub const SIGNATURE_SIZE: usize = 256;

/// RSA 2048 with SHA-256.
pub const ALGORITHM: u32 = 4;

/// The version of each key.
pub const KEY_VERSION: u32 = 1;

/// The size of the head of a packed key. Its bytes follow, where nothing else is said.
pub const KEY_HEAD: usize = 32;

/// The tag of the root key.
pub const ROOT_KEY: u32 = 1;

/// The tag of the recovery key.
pub const RECOVERY_KEY: u32 = 2;

/// The tag of the data key of both slots.
pub const FIRMWARE_KEY: u32 = 3;

/// The tag of the kernel subkey.
pub const KERNEL_SUBKEY: u32 = 4;

/// The tags by which the bytes of a slot are filled.
#[derive(Clone, Copy)]
pub struct SlotTags {
    /// The body.
    pub body: u32,
    /// The signature of the keyblock.
    pub keyblock: u32,
    /// The signature of the preamble.
    pub preamble: u32,
    /// The signature of the body.
    pub body_signature: u32,
}

/// The tags of slot A.
pub const SLOT_A: SlotTags = SlotTags {
    body: 7,
    keyblock: 21,
    preamble: 22,
    body_signature: 23,
};

/// The tags of slot B.
pub const SLOT_B: SlotTags = SlotTags {
    body: 8,
    keyblock: 24,
    preamble: 25,
    body_signature: 26,
};

// ---- a keyblock

/// What a keyblock begins with.
pub const KEYBLOCK_MAGIC: [u8; 8] = *b"CHROMEOS";

/// The place of the first number behind it.
pub const KEYBLOCK_NUMBERS: usize = 8;

/// The version of the format of keyblocks and preambles: 2.1.
pub const FORMAT_MAJOR: u32 = 2;

/// The minor part of it.
pub const FORMAT_MINOR: u32 = 1;

/// The place of a keyblock's signature head.
pub const KEYBLOCK_SIGNATURE: usize = 24;

/// The place of the head of its hash.
pub const KEYBLOCK_HASH: usize = 48;

/// The place of the head of its data key.
pub const KEYBLOCK_DATA_KEY: usize = 80;

/// The size of its head. The bytes of the data key follow.
pub const KEYBLOCK_HEAD: usize = 112;

/// How many of its bytes are signed. The hash follows.
pub const KEYBLOCK_SIGNED: usize = 632;

/// The place of the bytes of its signature, behind the hash.
pub const KEYBLOCK_SIGNATURE_BYTES: usize = 696;

/// The bytes of a keyblock.
pub const KEYBLOCK_SIZE: usize = 952;

/// The bytes of a hash, which is SHA-512.
pub const HASH_SIZE: usize = 64;

/// The flags of a firmware keyblock: good with the developer switch off and on, and not in recovery.
pub const FIRMWARE_FLAGS: u32 = 7;

// ---- a firmware preamble

/// The place of a preamble's signature head.
pub const PREAMBLE_SIGNATURE: usize = 8;

/// The place of the head of the kernel subkey.
pub const PREAMBLE_SUBKEY: usize = 48;

/// The place of the head of the body's signature.
pub const PREAMBLE_BODY_SIGNATURE: usize = 80;

/// The size of its head. The bytes of the kernel subkey follow.
pub const PREAMBLE_HEAD: usize = 108;

/// The place of the bytes of the body's signature.
pub const PREAMBLE_BODY_SIGNATURE_BYTES: usize = 628;

/// How many of its bytes are signed. The bytes of its signature follow.
pub const PREAMBLE_SIGNED: usize = 884;

/// The bytes of a preamble.
pub const PREAMBLE_SIZE: usize = 1140;

/// The bytes of a keyblock and the preamble behind it.
pub const VBLOCK_SIZE: usize = 2092;

// ---- a body

/// The least bytes of a body.
pub const LEAST_BODY: u32 = 65_536;

/// The bytes by which bodies differ in size.
pub const BODY_STEP: u32 = 512;

// ---- the map of the flash

/// What a flash map begins with.
pub const MAP_MAGIC: [u8; 8] = *b"__FMAP__";

/// The version of the format of the map: 1.1.
pub const MAP_VERSION: [u8; 2] = [1, 1];

/// The name of the map.
pub const MAP_NAME: [u8; 4] = *b"FMAP";

/// How many areas the map has, a little-endian `u16`.
pub const MAP_AREAS: [u8; 2] = [6, 0];

// ---- the GBB

/// What a GBB begins with.
pub const GBB_MAGIC: [u8; 4] = *b"$GBB";

/// The version of the format of the GBB: 1.2, two little-endian `u16`.
pub const GBB_VERSION: [u8; 4] = [1, 0, 2, 0];

/// The size of its head.
pub const GBB_HEAD: usize = 128;

/// The text of the HWID.
pub const HWID: [u8; 14] = *b"DEMO TEST 1234";

/// The bytes of the HWID: its text and two NULs.
pub const HWID_SIZE: u32 = 16;

/// The place of the root key in the GBB.
pub const GBB_ROOT_KEY: usize = 144;

/// The place of the recovery key in the GBB.
pub const GBB_RECOVERY_KEY: usize = 696;

/// The bytes of a packed key: its head and the key's bytes.
pub const PACKED_KEY: usize = 552;

/// The bytes of a GBB. A bitmap block of no bytes would stand behind them.
pub const GBB_SIZE: usize = 1248;

// ---- nvdata

/// What stands first in a page of nvdata: a head of generation 0 with its CRC-8, and a cell with a record and its CRC-8.
pub const NV_PAGE: [u8; 32] = [
    0x4e, 0x56, 0x50, 0x47, 0, 0, 0, 0, 0, 0, 0, 0, 0, 0, 0, 0x77, 0x40, 0, 0, 0, 0, 0, 0, 0x02, 0,
    0, 0, 0, 0, 0, 0, 0xa5,
];

// ---- the areas of the flash

/// The bytes of the flash.
pub const FLASH_SIZE: u32 = 1_048_576;

/// The bytes of a page, which a flash erases at once.
pub const PAGE_SIZE: u32 = 4096;

/// The place of the map.
pub const MAP_AT: u32 = 4096;

/// The place and the size of the GBB.
pub const GBB_AREA: (u32, u32) = (8192, 16_384);

/// The place and the size of nvdata: two pages.
pub const NVRAM_AREA: (u32, u32) = (32_768, 8192);

/// The place and the size of slot A's keyblock and preamble.
pub const VBLOCK_A_AREA: (u32, u32) = (65_536, 65_536);

/// The place and the size of slot A's body.
pub const MAIN_A_AREA: (u32, u32) = (131_072, 131_072);

/// The place and the size of slot B's keyblock and preamble.
pub const VBLOCK_B_AREA: (u32, u32) = (262_144, 65_536);

/// The place and the size of slot B's body.
pub const MAIN_B_AREA: (u32, u32) = (327_680, 131_072);

// ---- the pages of the flash in which parts begin

/// The page of the map.
pub const MAP_PAGE: u32 = MAP_AT / PAGE_SIZE;

/// The page of the GBB.
pub const GBB_PAGE: u32 = GBB_AREA.0 / PAGE_SIZE;

/// The first page of nvdata.
pub const NV_FIRST_PAGE: u32 = NVRAM_AREA.0 / PAGE_SIZE;

/// The page of slot A's keyblock and preamble.
pub const VBLOCK_A_PAGE: u32 = VBLOCK_A_AREA.0 / PAGE_SIZE;

/// The page of slot B's keyblock and preamble.
pub const VBLOCK_B_PAGE: u32 = VBLOCK_B_AREA.0 / PAGE_SIZE;

/// The first page of slot A's body.
pub const MAIN_A_PAGE: u32 = MAIN_A_AREA.0 / PAGE_SIZE;

/// The last page of the area of slot A's body.
pub const MAIN_A_LAST: u32 = MAIN_A_PAGE + MAIN_A_AREA.1 / PAGE_SIZE - 1;

/// The first page of slot B's body.
pub const MAIN_B_PAGE: u32 = MAIN_B_AREA.0 / PAGE_SIZE;

/// The last page of the area of slot B's body.
pub const MAIN_B_LAST: u32 = MAIN_B_PAGE + MAIN_B_AREA.1 / PAGE_SIZE - 1;

// ---- the spaces of the TPM

/// The firmware space: struct version 2, flags 0, versions 0x00010001, and a CRC-8 at the end.
pub const FIRMWARE_SPACE: [u8; 10] = [0x02, 0, 0x01, 0, 0x01, 0, 0, 0, 0, 0x4f];

/// The kernel space: struct version 2, the uid 0x4752574c, versions 0x00010001, and a CRC-8 at the end.
pub const KERNEL_SPACE: [u8; 13] = [
    0x02, 0x4c, 0x57, 0x52, 0x47, 0x01, 0, 0x01, 0, 0, 0, 0, 0x55,
];
