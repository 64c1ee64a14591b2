// One copy of the table is written: its entries, its header, and a flush.
ghost use Rattle.std.specs.Prelude.{◌≡◌, ◌+◌, ◌/◌, ◌%◌, ◌≤◌, length};
ghost use Rattle.gpt_core.specs.Writes.{WritesCopy};
ghost use Rattle.gpt_core.specs.Copies.{entries_lba, header_lba};

use crate::side::{Side, entries_place, header_place};
use board_core::{Disk, Failed};

// Writes two ranges of whole sectors and flushes.
pub(crate) fn write_copy<D: Disk>(
    disk: &mut D,
    first: u64,
    one: &[u8],
    second: u64,
    two: &[u8],
) -> Result<(), Failed>
    requires settled { (D.state disk.old).medium.pending ≡ 0 }
    requires whole_one { length one.now % 512 ≡ 0 }
    requires whole_two { length two.now % 512 ≡ 0 }
    requires inside_one { first + length one.now / 512 ≤ (D.state disk.old).medium.sectors }
    requires inside_two { second + length two.now / 512 ≤ (D.state disk.old).medium.sectors }
    requires few { length one.now / 512 + length two.now / 512 ≤ 64 }
    ensures { WritesCopy first one.now second two.now (D.state disk.old) (D.state disk.new) result }
{
    disk.write(first, one)?;
    disk.write(second, two)?;
    disk.flush()?;
    Ok(())
}

// Writes a copy of the table, in its place.
pub(crate) fn write_side<D: Disk>(
    disk: &mut D,
    side: Side,
    entries: &[u8],
    header: &[u8],
) -> Result<(), Failed>
    requires settled { (D.state disk.old).medium.pending ≡ 0 }
    requires enough { 69 ≤ (D.state disk.old).medium.sectors }
    requires entries_size { length entries.now ≡ 16384 }
    requires header_size { length header.now ≡ 512 }
    ensures { WritesCopy (entries_lba side (D.state disk.old).medium.sectors) entries.now
        (header_lba side (D.state disk.old).medium.sectors) header.now (D.state disk.old) (D.state disk.new) result }
{
    let sectors = disk.sectors();
    let entries_at = entries_place(side, sectors);
    let header_at = header_place(side, sectors);
    write_copy(disk, entries_at, entries, header_at, header)
}
