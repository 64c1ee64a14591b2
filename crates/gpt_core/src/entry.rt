// One entry of a table, as its fields.
ghost use Rattle.std.specs.Prelude.{◌≡◌, ◌+◌, ◌<◌, ◌≤◌, length, get_or};
ghost use Rattle.board_core.specs.Flash.{range};
ghost use Rattle.gpt_core.specs.Placing.{unused_entry, with_each, IsWide};
ghost use Rattle.gpt_core.specs.Entries.{units_in, entry_in, entry_bytes, with_entry, with_attributes};

use crate::bytes::Bytes;
use crate::entries::place_of;
use crate::layout::{
    ENTRY_ATTRIBUTES, ENTRY_FIRST, ENTRY_LAST, ENTRY_NAME, ENTRY_SIZE, ENTRY_UNIQUE, GUID_SIZE,
};
use byteorder::{ByteOrder, LittleEndian};
use wire_core::{put_u64, u64_at};

/// An entry of a table. Its GUIDs are in the order in which the disk stores them. Source: the UEFI specification, section
/// 5.3.3.
#[derive(Clone, Copy, Debug, PartialEq, Eq)]
pub struct Entry {
    /// The GUID of its type. All zeros: the entry is unused.
    pub kind: [u8; 16],
    /// Its own GUID.
    pub unique: [u8; 16],
    /// Its first sector.
    pub first: u64,
    /// Its last sector.
    pub last: u64,
    /// Its attributes: bits 48 to 51 are the priority of a kernel, 52 to 55 its tries, and 56 says that it was successful.
    pub attributes: u64,
    /// Its name in UTF-16, and zeros behind it.
    pub name: [u16; 36],
}

// The 16 bytes of a GUID.
fn guid_at(bytes: &[u8], at: usize) -> [u8; GUID_SIZE]
    requires { at + 16 ≤ length bytes.now }
    ensures { result ≡ range bytes.now at 16 }
{
    let mut guid = [0; GUID_SIZE];
    guid.copy_from_slice(&bytes[at..at + GUID_SIZE]);
    guid
}

// The 36 units of a name.
fn name_at(bytes: &[u8], at: usize) -> [u16; 36]
    requires { at + 72 ≤ length bytes.now }
    ensures { result ≡ units_in 36 (range bytes.now at 72) }
{
    let mut name = [0; 36];
    LittleEndian::read_u16_into(&bytes[at..at + 72], &mut name);
    name
}

// Entry `k`, from 0.
pub(crate) fn entry_at(entries: &[u8], k: u32) -> Entry
    requires size { length entries.now ≡ 16384 }
    requires place { k < 128 }
    ensures { result ≡ entry_in entries.now k }
{
    let at = place_of(k);
    Entry {
        kind: guid_at(entries, at),
        unique: guid_at(entries, at + ENTRY_UNIQUE),
        first: u64_at(entries, at + ENTRY_FIRST),
        last: u64_at(entries, at + ENTRY_LAST),
        attributes: u64_at(entries, at + ENTRY_ATTRIBUTES),
        name: name_at(entries, at + ENTRY_NAME),
    }
}

// The 128 bytes of an entry.
fn bytes_of(entry: &Entry) -> Bytes
    ensures bytes { result ≡ entry_bytes entry.now }
    ensures size { length result ≡ 128 }
    ensures wide { IsWide entry.now }
{
    let mut name = [0; 72];
    LittleEndian::write_u16_into(&entry.name, &mut name);
    let mut bytes = Bytes::new();
    bytes.push(&entry.kind);
    bytes.push(&entry.unique);
    bytes.push_u64(entry.first);
    bytes.push_u64(entry.last);
    bytes.push_u64(entry.attributes);
    bytes.push(&name);
    bytes
}

/// Puts an entry in the place of entry `k`, from 0, of the 16,384 bytes of the entries.
pub fn put_entry(entries: &mut [u8], k: u32, entry: &Entry)
    requires size { length entries.old ≡ 16384 }
    requires place { k < 128 }
    ensures { entries.new ≡ with_entry entries.old k entry.now }
{
    put_fields(entries, k, entry);
}

// The same, and the fields have their sizes.
pub(crate) fn put_fields(entries: &mut [u8], k: u32, entry: &Entry)
    requires size { length entries.old ≡ 16384 }
    requires place { k < 128 }
    ensures entries { entries.new ≡ with_entry entries.old k entry.now }
    ensures wide { IsWide entry.now }
{
    let at = place_of(k);
    let bytes = bytes_of(entry);
    entries[at..at + ENTRY_SIZE as usize].copy_from_slice(bytes.as_slice());
}

// Puts these attributes in entry `k`.
pub(crate) fn put_attributes(entries: &mut [u8], k: u32, attributes: u64)
    requires size { length entries.old ≡ 16384 }
    requires place { k < 128 }
    ensures { entries.new ≡ with_attributes entries.old k attributes }
{
    put_u64(entries, place_of(k) + ENTRY_ATTRIBUTES, attributes);
}

// Puts attributes in all entries.
pub(crate) fn put_all_attributes(entries: &mut [u8], attributes: &[u64; 128])
    requires size { length entries.old ≡ 16384 }
    ensures entries { entries.new ≡ with_each 128 (λ k. get_or attributes.now k 0) entries.old }
    ensures size { length entries.new ≡ 16384 }
{
    for k in 0..128 {
        put_attributes(entries, k, attributes[k as usize]);
    }
}

impl Entry {
    /// An entry that is unused: all its bytes are 0.
    pub fn unused() -> Entry
        ensures { result ≡ unused_entry }
    {
        Entry {
            kind: [0; 16],
            unique: [0; 16],
            first: 0,
            last: 0,
            attributes: 0,
            name: [0; 36],
        }
    }
}
