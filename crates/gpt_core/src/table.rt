// A table in memory.
ghost use Rattle.std.specs.Prelude.{◌≡◌, ◌↔◌, ◌<◌, ◌≤◌, length, get_or, IfOk, IsTrue};
ghost use Rattle.gpt_core.specs.Entries.{zeros, no_entries, entry_in};
ghost use Rattle.gpt_core.specs.Heads.{table_with};
ghost use Rattle.gpt_core.specs.Format.{header_sector};
ghost use Rattle.gpt_core.specs.Placing.{with_each, IsWide};
ghost use Rattle.gpt_core.specs.Room.{empty_table, new_table, table_with_entry, table_with_attributes};

use crate::entry::{Entry, entry_at, put_all_attributes, put_attributes, put_fields};
use crate::header::{Head, header_sector};
use crate::layout::{BACKUP_SECTORS, ENTRIES_SIZE, GUID_SIZE, LEAST_USABLE, SECTOR};
use crate::side::Side;
use std::alloc::{AllocError, Global};
use std::marker::Model;

// A table, seen as the record of what it says.
#[derive(Drop)]
pub(crate) struct Table {
    head: Head,
    entries: Vec<u8>,
}

impl Model for Table {
    ghost use Rattle.std.specs.Prelude.{◌≡◌, length};
    ghost use Rattle.gpt_core.specs.Format.{PartitionTable};
    ghost use Rattle.gpt_core.specs.Heads.{table_with};

    ghost Value = { PartitionTable };

    ghost view = { λ t. table_with t.head t.entries.items };

    ghost invariant = { λ t. length t.entries.items ≡ 16384 };
}

// So many zeros.
pub(crate) fn zeros(alloc: Global, count: usize) -> Result<Vec<u8>, AllocError>
    ensures { IfOk result (λ bytes. bytes.items ≡ zeros count) }
{
    vec![in alloc; 0; count]
}

// Makes all bytes 0.
fn clear(bytes: &mut [u8])
    ensures { bytes.new ≡ zeros (length bytes.old) }
{
    bytes.fill(0);
}

impl Table {
    // The empty table.
    pub(crate) fn reserve(alloc: Global) -> Result<Table, AllocError>
        ensures { IfOk result (λ table. table ≡ empty_table) }
    {
        let entries = zeros(alloc, ENTRIES_SIZE)?;
        Ok(Table {
            head: Head {
                guid: [0; GUID_SIZE],
                first: 0,
                last: 0,
            },
            entries,
        })
    }

    // What it says beside its entries.
    pub(crate) fn head(&self) -> Head
        ensures guid { result.guid ≡ self.now.guid }
        ensures first { result.first ≡ self.now.first_usable }
        ensures last { result.last ≡ self.now.last_usable }
    {
        self.head
    }

    // The bytes of its entries.
    pub(crate) fn entries(&self) -> &[u8]
        ensures value { result.now ≡ self.now.entries }
        ensures size { length result.now ≡ 16384 }
    {
        self.entries.as_slice()
    }

    // Takes what a copy says.
    pub(crate) fn take(&mut self, head: Head, entries: &[u8])
        requires { length entries.now ≡ 16384 }
        ensures { self.new ≡ table_with head entries.now }
    {
        self.head = head;
        self.entries.as_mut_slice().copy_from_slice(entries);
    }

    // Says this, with no used entry.
    fn blank(&mut self, head: Head)
        ensures { self.new ≡ table_with head no_entries }
    {
        self.head = head;
        clear(self.entries.as_mut_slice());
    }

    // Becomes the empty table.
    pub(crate) fn clear(&mut self)
        ensures { self.new ≡ empty_table }
    {
        self.blank(Head {
            guid: [0; GUID_SIZE],
            first: 0,
            last: 0,
        });
    }

    // Becomes a new table of a disk with so many sectors.
    pub(crate) fn start(&mut self, sectors: u64, guid: [u8; GUID_SIZE])
        requires { 69 ≤ sectors }
        ensures table { self.new ≡ new_table sectors guid }
        ensures guid_size { length guid ≡ 16 }
    {
        self.blank(Head {
            guid,
            first: LEAST_USABLE,
            last: sectors - BACKUP_SECTORS,
        });
    }

    // Whether it says this.
    pub(crate) fn says(&self, head: &Head, entries: &[u8]) -> bool
        ensures { IsTrue result ↔ (self.now ≡ table_with head.now entries.now) }
    {
        self.head == *head && self.entries.as_slice() == entries
    }

    // Entry `k`, from 0.
    pub(crate) fn entry(&self, k: u32) -> Entry
        requires { k < 128 }
        ensures { result ≡ entry_in self.now.entries k }
    {
        entry_at(self.entries.as_slice(), k)
    }

    pub(crate) fn set_entry(&mut self, k: u32, entry: &Entry)
        requires { k < 128 }
        ensures table { self.new ≡ table_with_entry self.old k entry.now }
        ensures size { length self.new.entries ≡ 16384 }
        ensures wide { IsWide entry.now }
    {
        put_fields(self.entries.as_mut_slice(), k, entry);
    }

    pub(crate) fn set_attributes(&mut self, k: u32, attributes: u64)
        requires { k < 128 }
        ensures table { self.new ≡ table_with_attributes self.old k attributes }
        ensures size { length self.new.entries ≡ 16384 }
        ensures old_size { length self.old.entries ≡ 16384 }
    {
        put_attributes(self.entries.as_mut_slice(), k, attributes);
    }

    // Gives each entry its attributes.
    pub(crate) fn set_all_attributes(&mut self, attributes: &[u64; 128])
        ensures table { self.new ≡ record self.old { entries = with_each 128 (λ k. get_or attributes.now k 0) self.old.entries } }
        ensures size { length self.new.entries ≡ 16384 }
        ensures old_size { length self.old.entries ≡ 16384 }
    {
        put_all_attributes(self.entries.as_mut_slice(), attributes);
    }

    // The sector of a copy's header.
    pub(crate) fn header(&self, side: Side, sectors: u64) -> [u8; SECTOR]
        requires { 69 ≤ sectors }
        ensures { result ≡ header_sector side sectors self.now }
    {
        header_sector(side, sectors, &self.head, self.entries.as_slice())
    }
}
