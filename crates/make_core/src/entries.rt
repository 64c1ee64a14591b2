// The entries of a partition table.
ghost use Rattle.std.specs.Prelude.{◌≡◌, ◌+◌, ◌<◌, ◌≤◌, ◌++◌, length, replicate, All};
ghost use Rattle.gpt_core.specs.Entries.{no_entries};
ghost use Rattle.make_core.specs.Table.{guid, entry_of, with_rows, IsRow};

use crate::drive_layout::EntryRow;
use crate::putting::put_fill;
use gpt_core::{Entry, put_entry};

/// The GUID of this tag, as it is stored.
pub fn make_guid(number: u32, tag: u32) -> [u8; 16]
    requires { tag < 256 }
    ensures { result ≡ guid number tag }
{
    let mut b = [0; 16];
    put_fill(&mut b, 0, number, tag, 0, 16);
    [
        b[3],
        b[2],
        b[1],
        b[0],
        b[5],
        b[4],
        b[7],
        b[6] % 16 + 64,
        b[8] % 64 + 128,
        b[9],
        b[10],
        b[11],
        b[12],
        b[13],
        b[14],
        b[15],
    ]
}

// A name in UTF-16, and zeros behind it.
fn make_label(text: &[u8; 10]) -> [u16; 36]
    ensures { result ≡ text.now ++ replicate 26 0 }
{
    let mut name = [0; 36];
    for k in 0..text.len() {
        name[k] = text[k] as u16;
    }
    name
}

// A row as an entry of the table whose own GUID has this tag.
fn make_entry(number: u32, tag: u32, row: &EntryRow) -> Entry
    requires { IsRow tag row.now }
    ensures { result ≡ entry_of number tag row.now }
{
    Entry {
        kind: row.kind,
        unique: make_guid(number, tag + row.index),
        first: row.begin as u64,
        last: row.begin as u64 + row.size as u64 - 1,
        attributes: row.attributes,
        name: make_label(&row.name),
    }
}

/// The entries of the table whose own GUID has this tag, and zeros in the place of all that have no row.
pub fn make_entries(number: u32, tag: u32, rows: &[EntryRow]) -> [u8; 16384]
    requires { All (IsRow tag) rows.now }
    ensures { result ≡ with_rows number tag rows.now no_entries }
{
    let mut entries = [0; 16384];
    for row in rows {
        put_entry(&mut entries, row.index - 1, &make_entry(number, tag, row));
    }
    entries
}
