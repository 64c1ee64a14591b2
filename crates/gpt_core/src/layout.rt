// Places and sizes of a partition table, in bytes but where a sector is said. All numbers are little-endian.
// Source: the UEFI specification, sections 5.3.2 ("GPT Header") and 5.3.3 ("GPT Partition Entry Array").

// The fewest sectors of a disk that has room for both copies and two usable sectors.
pub(crate) const LEAST_SECTORS: u64 = 69;

// The most sectors of a disk whose table is read.
pub(crate) const MOST_SECTORS: u64 = 4_294_967_296;

// The first usable sector behind the primary copy, at the least.
pub(crate) const LEAST_USABLE: u64 = 34;

// How far the last usable sector stays below the number of sectors, at the least.
pub(crate) const BACKUP_SECTORS: u64 = 34;

// ---- a copy

pub(crate) const SECTOR: usize = 512;

pub(crate) const ENTRIES_SIZE: usize = 16384;

pub(crate) const COPY_SIZE: usize = 16896;

// ---- a header

// The magic bytes `EFI PART`, the u32 revision 0x00010000, and the u32 size of the header, 92.
pub(crate) const SIGNATURE: [u8; 16] = *b"EFI PART\0\0\x01\0\x5c\0\0\0";

pub(crate) const HEADER_SIZE: usize = 92;

// The u32 CRC-32 of the header, with this field 0.
pub(crate) const HEADER_CRC: usize = 16;

// The u64 sector in which it stands.
pub(crate) const MY_LBA: usize = 24;

// The u64 first and last usable sector.
pub(crate) const FIRST_USABLE: usize = 40;

pub(crate) const LAST_USABLE: usize = 48;

// The GUID of the disk, 16 bytes.
pub(crate) const DISK_GUID: usize = 56;

// The u64 first sector of the entries.
pub(crate) const ENTRIES_LBA: usize = 72;

// The u32 number of entries, and the u32 size of one.
pub(crate) const ENTRY_COUNT_AT: usize = 80;

pub(crate) const ENTRY_SIZE_AT: usize = 84;

// The u32 CRC-32 of the entries.
pub(crate) const ENTRIES_CRC: usize = 88;

// ---- an entry

pub(crate) const ENTRY_COUNT: u32 = 128;

pub(crate) const ENTRY_SIZE: u32 = 128;

pub(crate) const GUID_SIZE: usize = 16;

// The entry's own GUID, behind that of its type.
pub(crate) const ENTRY_UNIQUE: usize = 16;

// Its u64 first and last sector, and its u64 attributes.
pub(crate) const ENTRY_FIRST: usize = 32;

pub(crate) const ENTRY_LAST: usize = 40;

pub(crate) const ENTRY_ATTRIBUTES: usize = 48;

// Its name of 36 units of UTF-16.
pub(crate) const ENTRY_NAME: usize = 56;
