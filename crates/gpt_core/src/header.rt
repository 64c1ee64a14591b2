// The header of a copy: reading one, and making one.
ghost use Rattle.std.specs.Prelude.{◌≡◌, ◌≤◌, ◌&&◌, length};
ghost use Rattle.gpt_core.specs.Format as spec;
ghost use Rattle.gpt_core.specs.Format.{has_signature, has_own_crc, has_place, has_entries_place, has_counts, has_bounds, header_rest};
ghost use Rattle.gpt_core.specs.Format.{header_sector};
ghost use Rattle.gpt_core.specs.Heads.{head_in, table_with};

use crate::bytes::Bytes;
use crate::layout::{
    BACKUP_SECTORS, DISK_GUID, ENTRIES_CRC, ENTRIES_LBA, ENTRY_COUNT, ENTRY_COUNT_AT, ENTRY_SIZE,
    ENTRY_SIZE_AT, FIRST_USABLE, GUID_SIZE, HEADER_CRC, HEADER_SIZE, LAST_USABLE, LEAST_USABLE,
    MY_LBA, SECTOR, SIGNATURE,
};
use crate::side::{Side, entries_place, header_place, other_of};
use wire_core::{crc32, put_u32, u32_at, u64_at};

/// What a header says of the table beside its entries. Source: the UEFI specification, section 5.3.2.
#[derive(Clone, Copy, Debug, PartialEq, Eq)]
pub struct Head {
    /// The GUID of the disk, as it is stored.
    pub guid: [u8; 16],
    /// The first usable sector.
    pub first: u64,
    /// The last usable sector.
    pub last: u64,
}

// What a header says.
pub(crate) fn head_in(header: &[u8]) -> Head
    requires { length header.now ≡ 512 }
    ensures { result ≡ head_in header.now }
{
    let mut guid = [0; GUID_SIZE];
    guid.copy_from_slice(&header[DISK_GUID..DISK_GUID + GUID_SIZE]);
    Head {
        guid,
        first: u64_at(header, FIRST_USABLE),
        last: u64_at(header, LAST_USABLE),
    }
}

// Whether the CRC of a header is that of its 92 bytes with this field 0.
fn has_own_crc(header: &[u8]) -> bool
    requires { length header.now ≡ 512 }
    ensures { result ≡ has_own_crc header.now }
{
    let mut bytes = [0; HEADER_SIZE];
    bytes.copy_from_slice(&header[..HEADER_SIZE]);
    put_u32(&mut bytes, HEADER_CRC, 0);
    u32_at(header, HEADER_CRC) == crc32(&bytes)
}

fn has_counts(header: &[u8]) -> bool
    requires { length header.now ≡ 512 }
    ensures { result ≡ has_counts header.now }
{
    u32_at(header, ENTRY_COUNT_AT) == ENTRY_COUNT && u32_at(header, ENTRY_SIZE_AT) == ENTRY_SIZE
}

fn has_bounds(sectors: u64, header: &[u8]) -> bool
    requires size { length header.now ≡ 512 }
    requires enough { 69 ≤ sectors }
    ensures { result ≡ has_bounds sectors header.now }
{
    let first = u64_at(header, FIRST_USABLE);
    let last = u64_at(header, LAST_USABLE);
    LEAST_USABLE <= first && first <= last && last <= sectors - BACKUP_SECTORS
}

fn is_signed(header: &[u8]) -> bool
    requires { length header.now ≡ 512 }
    ensures { result ≡ (has_signature header.now && has_own_crc header.now) }
{
    header.starts_with(&SIGNATURE) && has_own_crc(header)
}

fn is_in_place(side: Side, sectors: u64, header: &[u8]) -> bool
    requires size { length header.now ≡ 512 }
    requires enough { 69 ≤ sectors }
    ensures { result ≡ (has_place side sectors header.now && has_entries_place side sectors header.now) }
{
    u64_at(header, MY_LBA) == header_place(side, sectors)
        && u64_at(header, ENTRIES_LBA) == entries_place(side, sectors)
}

fn is_shaped(sectors: u64, header: &[u8]) -> bool
    requires size { length header.now ≡ 512 }
    requires enough { 69 ≤ sectors }
    ensures { result ≡ (has_counts header.now && has_bounds sectors header.now) }
{
    has_counts(header) && has_bounds(sectors, header)
}

// Whether a header passes the tests that look at it alone.
pub(crate) fn is_good_header(side: Side, sectors: u64, header: &[u8]) -> bool
    requires size { length header.now ≡ 512 }
    requires enough { 69 ≤ sectors }
    ensures { result ≡ spec.is_good_header side sectors header.now }
{
    is_signed(header) && is_in_place(side, sectors, header) && is_shaped(sectors, header)
}

// Whether the CRC of the entries is that in the header.
pub(crate) fn has_entries_crc(header: &[u8], entries: &[u8]) -> bool
    requires { length header.now ≡ 512 }
    ensures { result ≡ spec.has_entries_crc header.now entries.now }
{
    u32_at(header, ENTRIES_CRC) == crc32(entries)
}

// The bytes of a header behind its own CRC.
fn header_rest(side: Side, sectors: u64, head: &Head, entries: &[u8]) -> Bytes
    requires { 69 ≤ sectors }
    ensures bytes { result ≡ header_rest side sectors (table_with head.now entries.now) }
    ensures size { length result ≡ 72 }
{
    let mut rest = Bytes::new();
    rest.push_u32(0);
    rest.push_u64(header_place(side, sectors));
    rest.push_u64(header_place(other_of(side), sectors));
    rest.push_u64(head.first);
    rest.push_u64(head.last);
    rest.push(&head.guid);
    rest.push_u64(entries_place(side, sectors));
    rest.push_u32(ENTRY_COUNT);
    rest.push_u32(ENTRY_SIZE);
    rest.push_u32(crc32(entries));
    rest
}

// The 92 bytes of a header with this CRC.
fn header_with(crc: u32, rest: &Bytes) -> Bytes
    requires { length rest.now ≡ 72 }
    ensures bytes { result ≡ spec.header_with crc rest.now }
    ensures size { length result ≡ 92 }
{
    let mut bytes = Bytes::new();
    bytes.push(&SIGNATURE);
    bytes.push_u32(crc);
    bytes.push(rest.as_slice());
    bytes
}

/// The sector of the header of a copy, for a disk of so many sectors: its 92 bytes with their CRC, and zeros behind them.
/// `entries` are all bytes of the entries, over which the header has a CRC.
pub fn header_sector(side: Side, sectors: u64, head: &Head, entries: &[u8]) -> [u8; SECTOR]
    requires { 69 ≤ sectors }
    ensures { result ≡ header_sector side sectors (table_with head.now entries.now) }
{
    let rest = header_rest(side, sectors, head, entries);
    let crc = crc32(header_with(0, &rest).as_slice());
    header_with(crc, &rest).sector()
}
