// Places and sizes of the structures that keys are packed in, in bytes. A place counts from the start of its structure.
// Source: `struct vb2_packed_key`, `struct vb2_signature` and `struct vb2_keyblock` of vboot_reference
// (firmware/2lib/include/2struct.h). All numbers are little-endian, and each u32 here stands before a reserved u32.

// ---- a signature

/// The u32 offset of the signature's bytes, from the start of the structure.
pub const SIGNATURE_OFFSET: u32 = 0;

/// The u32 size of the signature's bytes.
pub const SIGNATURE_SIZE: u32 = 8;

/// The u32 size of the data that is signed.
pub const SIGNATURE_DATA_SIZE: u32 = 16;

/// The size of the structure itself.
pub const SIGNATURE_HEAD: u32 = 24;

// ---- a packed key

/// The u32 offset of the key's bytes, from the start of the structure.
pub const KEY_OFFSET: u32 = 0;

/// The u32 size of the key's bytes.
pub const KEY_SIZE: u32 = 8;

/// The u32 number of the algorithm.
pub const KEY_ALGORITHM: u32 = 16;

/// The u32 version of the key.
pub const KEY_VERSION: u32 = 24;

/// The size of the structure itself.
pub const KEY_HEAD: u32 = 32;

// ---- a keyblock

/// What a keyblock begins with.
pub const KEYBLOCK_MAGIC: [u8; 8] = *b"CHROMEOS";

/// The u32 major version of the format.
pub const KEYBLOCK_MAJOR: u32 = 8;

/// The one major version that is read.
pub const KEYBLOCK_MAJOR_VERSION: u32 = 2;

/// The u32 size of the keyblock, with all that it points to.
pub const KEYBLOCK_SIZE: u32 = 16;

/// The signature over the keyblock's signed part.
pub const KEYBLOCK_SIGNATURE: u32 = 24;

/// The SHA-512 of the keyblock's signed part, in a signature structure.
pub const KEYBLOCK_HASH: u32 = 48;

/// The u32 flags.
pub const KEYBLOCK_FLAGS: u32 = 72;

/// The packed data key.
pub const KEYBLOCK_DATA_KEY: u32 = 80;

/// The size of the structure itself.
pub const KEYBLOCK_HEAD: u32 = 112;
