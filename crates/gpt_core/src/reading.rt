// The copies of a disk are read whole, and the table that they hold is taken into a room.
ghost use Rattle.std.specs.Prelude.{◌≡◌, ◌≤◌, length};
ghost use Rattle.gpt_core.specs.Reads.{ReadsCopy};
ghost use Rattle.gpt_core.specs.Room.{ReadsBoth, ReadsTable};

use crate::finding::find_table;
use crate::found::Found;
use crate::layout::{LEAST_SECTORS, MOST_SECTORS};
use crate::room::{GptRoom, Images};
use crate::side::{Side, copy_place};
use board_core::{Disk, Failed};

// Reads the 33 sectors of a copy, as they stand on the disk.
fn read_copy<D: Disk>(disk: &mut D, side: Side, copy: &mut [u8]) -> Result<(), Failed>
    requires settled { (D.state disk.old).medium.pending ≡ 0 }
    requires enough { 69 ≤ (D.state disk.old).medium.sectors }
    requires size { length copy.old ≡ 16896 }
    ensures { ReadsCopy side copy.new (D.state disk.old) (D.state disk.new) result }
{
    let place = copy_place(side, disk.sectors());
    disk.read(place, copy)
}

// Reads both copies.
fn read_both<D: Disk>(disk: &mut D, images: &mut Images) -> Result<(), Failed>
    requires settled { (D.state disk.old).medium.pending ≡ 0 }
    requires enough { 69 ≤ (D.state disk.old).medium.sectors }
    ensures { ReadsBoth images.new.primary.items images.new.backup.items (D.state disk.old) (D.state disk.new) result }
{
    read_copy(disk, Side::Primary, images.primary.as_mut_slice())?;
    read_copy(disk, Side::Backup, images.backup.as_mut_slice())
}

/// Reads the table of a disk into the room: that of the good primary copy, else that of the good backup copy, else none.
/// `None` comes exactly where neither copy is good, as on each disk of under 69 or over 4,294,967,296 sectors, which is not
/// read at all. It reads 66 sectors at most, each once, and changes nothing on the disk.
///
/// A room after `None` or `Failed` is an empty one.
///
/// `Failed`: the disk failed, and counted it.
pub fn read_table<D: Disk>(disk: &mut D, room: &mut GptRoom) -> Result<Found, Failed>
    requires { (D.state disk.old).medium.pending ≡ 0 }
    ensures meets { ReadsTable (D.state disk.old) (D.state disk.new) room.new result }
{
    room.sectors = 0;
    let sectors = disk.sectors();
    if sectors < LEAST_SECTORS || MOST_SECTORS < sectors {
        room.clear();
        return Ok(Found::None);
    }
    let Ok(()) = read_both(disk, &mut room.images) else {
        room.clear();
        return Err(Failed);
    };
    let found = find_table(sectors, &room.images, &mut room.table);
    room.hold_found(sectors, found);
    Ok(found)
}
