// Reading what is shown of a partition.
ghost use Rattle.std.specs.Prelude.{◌≡◌, ◌+◌, ◌≤◌, length, IfSome};
ghost use Rattle.gpt_core.specs.Format.{IsValidTable};
ghost use Rattle.show_core.specs.Facts as spec;
ghost use Rattle.show_core.specs.Partition.{entry_place, ReadsKernel, ReadsPartition};

use crate::facts::{KernelFacts, KernelPreambleFacts, PartitionFacts};
use crate::reading::keyblock_facts;
use board_core::{Disk, Failed};
use gpt_core::{Found, GptRoom, read_table};
use key_core::{KeyblockFault, KeyblockView, Seal};
use preamble_core::{KernelPreambleFault, KernelPreambleView};

// What there is not.
#[derive(Clone, Copy, Debug, PartialEq, Eq)]
pub enum Missing {
    // A good copy of a table.
    Table,
    // A used entry of that index.
    Entry,
}

// What is shown of the kernel preamble that these bytes begin with.
fn kernel_preamble_facts(bytes: &[u8]) -> Result<KernelPreambleFacts, KernelPreambleFault>
    ensures { result ≡ spec.kernel_preamble_facts bytes.now }
{
    match KernelPreambleView::check(bytes) {
        Ok(preamble) => Ok(KernelPreambleFacts {
            size: preamble.common().size(),
            version: preamble.common().version(),
            load_address: preamble.load_address(),
            body_len: preamble.common().body_len(),
        }),
        Err(fault) => Err(fault),
    }
}

// What is shown of the kernel whose keyblock these bytes begin with.
fn kernel_facts(bytes: &[u8]) -> Result<KernelFacts, KeyblockFault>
    ensures { result ≡ spec.kernel_facts bytes.now }
{
    match KeyblockView::check(bytes, Seal::Signature) {
        Ok(keyblock) => {
            let size = keyblock.size();
            Ok(KernelFacts {
                keyblock: keyblock_facts(&keyblock),
                preamble: kernel_preamble_facts(&bytes[size as usize..]),
            })
        }
        Err(fault) => Err(fault),
    }
}

// Reads what is shown of the partition of so many sectors from `first`. `vblock` is room for its first 128 sectors.
fn read_kernel<D: Disk>(
    disk: &mut D,
    first: u64,
    sectors: u64,
    vblock: &mut [u8],
) -> Result<PartitionFacts, Failed>
    requires size { length vblock.old ≡ 65536 }
    requires inside { first + sectors ≤ (D.state disk.old).medium.sectors }
    requires settled { (D.state disk.old).medium.pending ≡ 0 }
    ensures { ReadsKernel first sectors (D.state disk.old) (D.state disk.new) result }
{
    if sectors < 128 {
        return Ok(PartitionFacts::Short);
    }
    disk.read(first, vblock)?;
    Ok(PartitionFacts::Kernel(kernel_facts(vblock)))
}

// The first sector of entry `index` and the number of its sectors, where the entry is used.
fn place_of(room: &GptRoom, index: u32) -> Option<(u64, u64)>
    requires known { 1 ≤ room.now.sectors }
    requires valid { IsValidTable room.now.sectors room.now.table }
    ensures place { result ≡ entry_place index room.now.table.entries }
    ensures inside { IfSome result (λ place. place.0 + place.1 ≤ room.now.sectors) }
{
    if index < 1 || 128 < index {
        return None;
    }
    let entry = room.entry(index);
    if entry.kind == [0; 16] {
        return None;
    }
    Some((entry.first, entry.last - entry.first + 1))
}

// Reads what is shown of partition `index` of a drive, which is looked up in its table. `vblock` is room for 128 sectors.
pub(crate) fn read_partition<D: Disk>(
    disk: &mut D,
    room: &mut GptRoom,
    vblock: &mut [u8],
    index: u32,
) -> Result<Result<PartitionFacts, Missing>, Failed>
    requires size { length vblock.old ≡ 65536 }
    requires settled { (D.state disk.old).medium.pending ≡ 0 }
    ensures { ReadsPartition index (D.state disk.old) (D.state disk.new) result }
{
    if let Found::None = read_table(disk, room)? {
        return Ok(Err(Missing::Table));
    }
    let Some((first, sectors)) = place_of(room, index) else {
        return Ok(Err(Missing::Entry));
    };
    let facts = read_kernel(disk, first, sectors, vblock)?;
    Ok(Ok(facts))
}
