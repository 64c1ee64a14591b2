// Places and sizes of the flash map and of the GBB, in bytes. A place counts from the start of its structure.
// Source: `struct fmap` and `struct fmap_area` of the flashmap library (lib/fmap.h), and `struct vb2_gbb_header` of
// vboot_reference (firmware/2lib/include/2struct.h). All numbers are little-endian.

// ---- the flash map

/// What a flash map begins with.
pub const MAP_MAGIC: [u8; 8] = *b"__FMAP__";

/// The u8 major version of the format. The u8 minor version follows, and then the u64 base address, the u32 size of the
/// flash and the name of the map, 32 bytes: none of them is looked at.
pub const MAP_MAJOR: u32 = 8;

/// The one major version that is read.
pub const MAP_MAJOR_VERSION: u8 = 1;

/// The u16 count of areas.
pub const MAP_COUNT: u32 = 54;

/// The size of the head of a map. The rows of its areas follow.
pub const MAP_HEAD: u32 = 56;

/// The most areas that a map has.
pub const MOST_AREAS: u16 = 128;

/// The u32 place of an area in the flash.
pub const AREA_AT: u32 = 0;

/// The u32 size of an area.
pub const AREA_SIZE: u32 = 4;

/// The name of an area, which ends before its first NUL.
pub const AREA_NAME: u32 = 8;

/// The bytes of a name.
pub const NAME_SIZE: u32 = 32;

/// The size of the row of an area. Its last two bytes are flags, which are not looked at.
pub const AREA_ROW: u32 = 42;

/// A map is looked for at the multiples of this.
pub const MAP_STRIDE: u32 = 64;

// ---- the areas of a map

/// The bytes of a page, which a flash erases at once.
pub const PAGE_SIZE: u32 = 4096;

/// The most bytes of a flash.
pub const LARGEST_FLASH: u32 = 33_554_432;

/// The most bytes of the area of a keyblock and a preamble.
pub const LARGEST_VBLOCK: u32 = 65_536;

/// The most bytes of the area of a firmware body.
pub const LARGEST_MAIN: u32 = 16_777_216;

/// The least bytes of the area of nvdata: two pages.
pub const LEAST_NVRAM: u32 = 8192;

// ---- the GBB

/// What a GBB begins with.
pub const GBB_MAGIC: [u8; 4] = *b"$GBB";

/// The u16 major version of the format.
pub const GBB_MAJOR: u32 = 4;

/// The one major version that is read.
pub const GBB_MAJOR_VERSION: u16 = 1;

/// The u16 minor version of the format.
pub const GBB_MINOR: u32 = 6;

/// The least minor version that is read.
pub const GBB_LEAST_MINOR: u16 = 2;

/// The u32 size of the head.
pub const GBB_HEAD_SIZE: u32 = 8;

/// The u32 flags.
pub const GBB_FLAGS: u32 = 12;

/// The range of the HWID: its u32 place, from the start of the GBB, and its u32 size.
pub const GBB_HWID: u32 = 16;

/// The range of the root key, a packed key and its bytes.
pub const GBB_ROOT_KEY: u32 = 24;

/// The range of the recovery key, a packed key and its bytes. Before it stands that of the bitmap block, which is not
/// looked at; behind it stand the digest of the HWID, 32 bytes, and 48 bytes of padding, which are not looked at either.
pub const GBB_RECOVERY_KEY: u32 = 40;

/// The size of the head.
pub const GBB_HEAD: u32 = 128;

/// The most bytes that a HWID has.
pub const LARGEST_HWID: u32 = 256;
