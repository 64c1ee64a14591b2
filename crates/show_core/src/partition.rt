// Showing a partition.
ghost use Rattle.std.specs.Prelude.{◌≡◌, length};
ghost use Rattle.show_core.specs.Partition.{ShowsPartition};

use crate::partition_reading::{Missing, read_partition};
use crate::printing::text_of_partition;
use board_core::{Disk, Failed, Sink};
use gpt_core::GptRoom;

/// Why a partition was not shown.
#[derive(Clone, Copy, Debug, PartialEq, Eq)]
pub enum PartitionFault {
    /// The disk failed, and nothing was put.
    Device,
    /// Neither copy of the disk's table is good. Nothing was put.
    NoTable,
    /// The index is not from 1 to 128, or the entry is unused. Nothing was put.
    NoEntry,
    /// The sink failed, and a front of the text was put.
    Write,
}

/// Puts what the kernel in partition `index` is: its keyblock and its preamble, or that the partition is too short for one. The
/// table of the disk says where it is. Nothing is put before all is read. The disk keeps its content, and at most 194
/// sectors of it are read. `room` holds the table afterwards, and `vblock`, of 65,536 bytes, any bytes.
///
/// `NoTable` comes before `NoEntry`. `Device` and `Write`: that device counted a fault.
pub fn show_partition<D: Disk, O: Sink>(
    disk: &mut D,
    room: &mut GptRoom,
    vblock: &mut [u8],
    index: u32,
    out: &mut O,
) -> Result<(), PartitionFault>
    requires size { length vblock.old ≡ 65536 }
    requires settled { (D.state disk.old).medium.pending ≡ 0 }
    ensures meets { ShowsPartition index (D.state disk.old) (D.state disk.new) (O.state out.old) (O.state out.new) result }
{
    let facts = match read_partition(disk, room, vblock, index) {
        Ok(Ok(facts)) => facts,
        Ok(Err(Missing::Table)) => return Err(PartitionFault::NoTable),
        Ok(Err(Missing::Entry)) => return Err(PartitionFault::NoEntry),
        Err(Failed) => return Err(PartitionFault::Device),
    };
    let text = text_of_partition(index, &facts);
    let Ok(_) = out.put(text.as_slice()) else {
        return Err(PartitionFault::Write);
    };
    Ok(())
}
