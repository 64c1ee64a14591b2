// Both copies of a table are written, the source last.
ghost use Rattle.std.specs.Prelude.{◌≡◌, ◌≤◌, length, IsTrue, OnOk, OnErr};
ghost use Rattle.gpt_core.specs.Copies.{content_with};
ghost use Rattle.gpt_core.specs.Format.{PartitionTable};
ghost use Rattle.gpt_core.specs.Tables.{BothHold, GivesTable, IsSource};
ghost use Rattle.gpt_core.specs.Commits.{WritesBoth, InOrder, FailsToCommit, Commits};
ghost use Rattle.gpt_core.specs.Room.{committed_room};

use crate::room::GptRoom;
use crate::side::{Side, first_of, header_from, other_of};
use crate::writing::write_side;
use board_core::{Disk, Failed};

// Writes both copies of a table, each as its entries, its header and a flush. The copy that is not the source is the
// first, and the primary where there is no source.
pub(crate) fn write_both<D: Disk>(
    disk: &mut D,
    source: Option<Side>,
    entries: &[u8],
    primary: &[u8],
    backup: &[u8],
) -> Result<(), Failed>
    requires settled { (D.state disk.old).medium.pending ≡ 0 }
    requires enough { 69 ≤ (D.state disk.old).medium.sectors }
    requires entries_size { length entries.now ≡ 16384 }
    requires primary_size { length primary.now ≡ 512 }
    requires backup_size { length backup.now ≡ 512 }
    ensures meets { WritesBoth (content_with entries.now primary.now backup.now) (D.state disk.old) (D.state disk.new) result }
    ensures order { IsTrue (D.state disk.old).medium.told → OnErr result
        (InOrder source (content_with entries.now primary.now backup.now) (D.state disk.old).medium (D.state disk.new).medium) }
    ensures made { (table : PartitionTable)
        → GivesTable (content_with entries.now primary.now backup.now) table (D.state disk.old).medium.sectors
        → IsTrue (D.state disk.old).medium.told
        → OnOk result (BothHold table (D.state disk.old).medium.sectors (D.state disk.new).medium.bytes) }
    ensures fails { (table : PartitionTable)
        → GivesTable (content_with entries.now primary.now backup.now) table (D.state disk.old).medium.sectors
        → IsTrue (D.state disk.old).medium.told
        → OnErr result (IsSource source (D.state disk.old).medium.sectors (D.state disk.old).medium.bytes
        → FailsToCommit table (D.state disk.old).medium (D.state disk.new).medium) }
{
    let first = first_of(source);
    let second = other_of(first);
    write_side(disk, first, entries, header_from(first, primary, backup))?;
    write_side(disk, second, entries, header_from(second, primary, backup))?;
    Ok(())
}

/// Writes the table of the room into both copies of the disk: first the copy that is not the source, as its entries, its
/// header and a flush, and then the source alike. Without a source the primary copy is the first. So at each stop one copy
/// is as it was, or stands new. It makes 6 changing calls, and nothing is pending after it.
///
/// After `Ok` both copies are good and agree, all other bytes of the disk are as they were, and the room holds the table as
/// the one that was read.
///
/// `Failed`: the disk failed, and counted a failed change. All bytes outside both copies are as they were. The room is as it
/// was, and the table is to be read again before a further commit.
pub fn commit<D: Disk>(disk: &mut D, room: &mut GptRoom) -> Result<(), Failed>
    requires settled { (D.state disk.old).medium.pending ≡ 0 }
    requires known { 1 ≤ room.old.sectors }
    requires same_disk { room.old.sectors ≡ (D.state disk.old).medium.sectors }
    requires source { IsTrue (D.state disk.old).medium.told
        → IsSource room.old.source (D.state disk.old).medium.sectors (D.state disk.old).medium.bytes }
    ensures meets { Commits room.old.source room.old.table (D.state disk.old) (D.state disk.new) result }
    ensures noted { OnOk result (room.new ≡ committed_room room.old) }
    ensures same { OnErr result (room.new ≡ room.old) }
{
    let primary = room.table.header(Side::Primary, room.sectors);
    let backup = room.table.header(Side::Backup, room.sectors);
    let entries = room.table.entries();
    write_both(disk, room.source, entries, &primary, &backup)?;
    room.note_commit();
    Ok(())
}
