// The room for the table of a disk.
ghost use Rattle.std.specs.Prelude.{◌≡◌, ◌↔◌, ◌-◌, ◌≤◌, ℕ, true, false, length, get_or, IfOk, IsTrue};
ghost use Rattle.gpt_core.specs.Entries.{entry_in};
ghost use Rattle.gpt_core.specs.Format.{IsValidTable};
ghost use Rattle.gpt_core.specs.Placing as spec;
ghost use Rattle.gpt_core.specs.Placing.{unused_entry, MayStand};
ghost use Rattle.gpt_core.specs.Room.{empty_room, found_room, room_with, started_room, committed_room, Fits, table_with_entry};
ghost use Rattle.gpt_core.specs.Room.{table_with_attributes, table_with_each, IsValidFound};

use crate::entry::Entry;
use crate::found::Found;
use crate::layout::{COPY_SIZE, LEAST_SECTORS, MOST_SECTORS};
use crate::placing::{is_free, is_unique};
use crate::side::Side;
use crate::table::{Table, zeros};
use board_core::Disk;
use std::alloc::{AllocError, Global};
use std::marker::Model;

// The bytes of both copies, as they were read.
#[derive(Drop)]
pub(crate) struct Images {
    pub(crate) primary: Vec<u8>,
    pub(crate) backup: Vec<u8>,
    ghost primary_size: { length primary.items ≡ 16896 },
    ghost backup_size: { length backup.items ≡ 16896 },
}

/// The room for the table of one disk. Contracts see the number of sectors of the disk, or 0 where it has no table of one;
/// the copy from which the table was read; whether both copies agreed; the table that was read; and the table as it is
/// now. It takes about 65 KiB.
#[derive(Drop)]
pub struct GptRoom {
    pub(crate) sectors: u64,
    pub(crate) source: Option<Side>,
    pub(crate) agree: bool,
    pub(crate) found: Table,
    pub(crate) table: Table,
    pub(crate) images: Images,
}

impl Model for GptRoom {
    ghost use Rattle.gpt_core.specs.Room.{RoomView, IsSound};

    ghost Value = { RoomView };

    ghost view = { λ r. record { sectors = r.sectors; source = r.source; agree = r.agree; found = r.found; table = r.table } };

    ghost invariant = { λ r. IsSound r.sectors r.table };
}

impl Images {
    fn reserve(alloc: Global) -> Result<Images, AllocError> {
        let primary = zeros(alloc, COPY_SIZE)?;
        let backup = zeros(alloc, COPY_SIZE)?;
        Ok(Images { primary, backup })
    }
}

impl GptRoom {
    /// An empty room. It takes all the memory that the calls of this crate need.
    pub fn reserve(alloc: Global) -> Result<GptRoom, AllocError>
        ensures { IfOk result (λ room. room ≡ empty_room) }
    {
        let found = Table::reserve(alloc)?;
        let table = Table::reserve(alloc)?;
        let images = Images::reserve(alloc)?;
        Ok(GptRoom {
            sectors: 0,
            source: None,
            agree: false,
            found,
            table,
            images,
        })
    }

    /// Entry `index`, from 1 to 128.
    pub fn entry(&self, index: u32) -> Entry
        requires least { 1 ≤ index }
        requires most { index ≤ 128 }
        ensures { result ≡ entry_in self.now.table.entries (index - 1) }
    {
        self.table.entry(index - 1)
    }

    /// Gives entry `index`, from 1 to 128, these attributes. It changes the table in the room alone.
    pub fn set_attributes(&mut self, index: u32, attributes: u64)
        requires least { 1 ≤ index }
        requires most { index ≤ 128 }
        ensures { self.new ≡ record self.old { table = table_with_attributes self.old.table (index - 1) attributes } }
    {
        self.table.set_attributes(index - 1, attributes);
    }

    /// Makes this entry `index`, from 1 to 128. It changes the table in the room alone. The new table is to be one whose
    /// used entries lie in the usable sectors, share no sector and have different unique GUIDs.
    pub fn set_entry(&mut self, index: u32, entry: &Entry)
        requires least { 1 ≤ index }
        requires most { index ≤ 128 }
        requires fits { Fits self.old.table (index - 1) entry.now }
        ensures { self.new ≡ record self.old { table = table_with_entry self.old.table (index - 1) entry.now } }
    {
        self.table.set_entry(index - 1, entry);
    }

    /// Whether no used entry but entry `index`, from 1 to 128, has one of the sectors `first` to `last`.
    pub fn is_free(&self, index: u32, first: u64, last: u64) -> bool
        requires least { 1 ≤ index }
        requires most { index ≤ 128 }
        ensures { result ≡ spec.is_free self.now.table.entries (index - 1) first last }
    {
        is_free(self.table.entries(), index - 1, first, last)
    }

    /// Whether no used entry but entry `index`, from 1 to 128, has this unique GUID.
    pub fn is_unique(&self, index: u32, unique: &[u8; 16]) -> bool
        requires least { 1 ≤ index }
        requires most { index ≤ 128 }
        ensures { result ≡ spec.is_unique self.now.table.entries (index - 1) unique.now }
    {
        is_unique(self.table.entries(), index - 1, unique)
    }

    /// Makes this entry `index`, from 1 to 128. It changes the table in the room alone. The entry is to lie in the usable
    /// sectors, and no other used entry is to have one of its sectors or its unique GUID.
    pub fn place_entry(&mut self, index: u32, entry: &Entry)
        requires least { 1 ≤ index }
        requires most { index ≤ 128 }
        requires stands { MayStand self.old.table (index - 1) entry.now }
        ensures { self.new ≡ record self.old { table = table_with_entry self.old.table (index - 1) entry.now } }
    {
        self.table.set_entry(index - 1, entry);
    }

    /// Makes all bytes of entry `index`, from 1 to 128, 0. It changes the table in the room alone.
    pub fn erase_entry(&mut self, index: u32)
        requires least { 1 ≤ index }
        requires most { index ≤ 128 }
        ensures { self.new ≡ record self.old { table = table_with_entry self.old.table (index - 1) unused_entry } }
    {
        self.table.set_entry(index - 1, &Entry::unused());
    }

    /// Gives each entry its attributes, the first those that come first. It changes the table in the room alone.
    pub fn set_all_attributes(&mut self, attributes: &[u64; 128])
        ensures { self.new ≡ record self.old { table = table_with_each self.old.table (λ k. get_or attributes.now k 0) } }
    {
        self.table.set_all_attributes(attributes);
    }

    /// Makes a table with this GUID and no used entry in the room, for a disk of 69 to 4,294,967,296 sectors. For any other
    /// disk it answers `false`, and the room stays as it was. What was read stays noted: the copies that a commit writes
    /// first are chosen by it.
    pub fn start<D: Disk>(&mut self, disk: &mut D, guid: [u8; 16]) -> bool
        ensures disk { D.state disk.new ≡ D.state disk.old }
        ensures answer { IsTrue result ↔ ((69 ≤ (D.state disk.old).medium.sectors) × ((D.state disk.old).medium.sectors ≤ 4294967296)) }
        ensures started { IsTrue result → self.new ≡ started_room self.old (D.state disk.old).medium.sectors guid }
        ensures same { result ≡ false → self.new ≡ self.old }
    {
        let sectors = disk.sectors();
        if sectors < LEAST_SECTORS || MOST_SECTORS < sectors {
            return false;
        }
        self.sectors = sectors;
        self.table.start(sectors, guid);
        true
    }

    /// The GUID of the disk, as it is stored.
    pub fn guid(&self) -> [u8; 16]
        requires { 1 ≤ self.now.sectors }
        ensures { result ≡ self.now.table.guid }
    {
        self.table.head().guid
    }

    /// The first and the last usable sector.
    pub fn usable(&self) -> (u64, u64)
        requires { 1 ≤ self.now.sectors }
        ensures first { result.0 ≡ self.now.table.first_usable }
        ensures last { result.1 ≡ self.now.table.last_usable }
    {
        let head = self.table.head();
        (head.first, head.last)
    }

    /// Whether the table differs from the one that was read, or the copies did not agree.
    pub fn changed(&self) -> bool
        ensures { (result ≡ false) ↔ (IsTrue self.now.agree × (self.now.table ≡ self.now.found)) }
    {
        !self.agree || !self.table.says(&self.found.head(), self.found.entries())
    }

    // Becomes an empty room.
    pub(crate) fn clear(&mut self)
        ensures { self.new ≡ empty_room }
    {
        self.sectors = 0;
        self.source = None;
        self.agree = false;
        self.found.clear();
        self.table.clear();
    }

    // Notes how the table was found.
    pub(crate) fn hold_found(&mut self, sectors: u64, found: Found)
        requires { IsValidFound found sectors self.old.table }
        ensures { self.new ≡ found_room found sectors self.old.table }
    {
        let (source, agree) = match found {
            Found::Primary { agree } => (Side::Primary, agree),
            Found::Backup => (Side::Backup, false),
            Found::None => {
                self.clear();
                return;
            }
        };
        self.hold(sectors, source, agree);
    }

    // Notes the table as the one that was read.
    fn hold(&mut self, sectors: u64, source: Side, agree: bool)
        requires { IsValidTable sectors self.old.table }
        ensures { self.new ≡ room_with sectors source agree self.old.table }
    {
        self.sectors = sectors;
        self.source = Some(source);
        self.agree = agree;
        self.found.take(self.table.head(), self.table.entries());
    }

    // Notes that the table stands in both copies.
    pub(crate) fn note_commit(&mut self)
        ensures { self.new ≡ committed_room self.old }
    {
        self.source = Some(Side::Primary);
        self.agree = true;
        self.found.take(self.table.head(), self.table.entries());
    }
}
