// The parts of the calls of a fuse over a disk, over the disk below, the fuse's log and its list of the pending writes.
ghost use Rattle.std.specs.Prelude.{◌≡◌, ◌+◌, ◌*◌, ◌/◌, ◌%◌, ◌≤◌, [], length, IsTrue, OnOk, OnErr, is_err, vec_len, vec_capacity};
ghost use Rattle.board_core.specs.Disk.{ReadsDisk, Flushes};
ghost use Rattle.board_core.specs.FuseDiskParts.{Mirrors, WritesContent, ReadsThenWrites, FrontLasts, FrontTorn, WritesFront, TearsFlush};
ghost use Rattle.board_core.specs.FuseDiskParts.{TearsWrite, CutsDiskWrite, CutsFlush};

use crate::device::Failed;
use crate::disk::Disk;
use crate::torn::{Torn, note};

/// Reads sectors, and where that fails lists none as pending any more.
pub fn read_below<D: Disk>(
    inner: &mut D,
    writes: &mut Vec<Torn>,
    lba: u64,
    buf: &mut [u8],
) -> Result<(), Failed>
    requires whole { length buf.old % 512 ≡ 0 }
    requires inside { lba + length buf.old / 512 ≤ (D.state inner.old).medium.sectors }
    ensures meets { ReadsDisk lba buf.new (D.state inner.old) (D.state inner.new) result }
    ensures listed { OnOk result (writes.new.items ≡ writes.old.items) }
    ensures none_listed { OnErr result (writes.new.items ≡ []) }
    ensures capacity { vec_capacity writes.old ≤ vec_capacity writes.new }
{
    let answer = inner.read(lba, buf);
    if answer.is_err() {
        writes.clear();
    }
    answer
}

/// Flushes the disk, and lists no sector as pending any more.
pub fn flush_below<D: Disk>(inner: &mut D, writes: &mut Vec<Torn>) -> Result<(), Failed>
    ensures meets { Flushes (D.state inner.old) (D.state inner.new) result }
    ensures none_listed { writes.new.items ≡ [] }
    ensures capacity { vec_capacity writes.old ≤ vec_capacity writes.new }
{
    let answer = inner.flush();
    writes.clear();
    answer
}

/// Flushes the disk, and notes each pending sector with the bytes that it was meant to hold. Where the disk fails, its own
/// notes stand alone. Nothing is pending after it.
pub fn settle<D: Disk>(inner: &mut D, torn: &mut Vec<Torn>, writes: &mut Vec<Torn>)
    requires mirrors { Mirrors (D.state inner.old).medium writes.old.items }
    requires room { vec_len torn.old + length writes.old.items ≤ vec_capacity torn.old }
    ensures sectors { (D.state inner.new).medium.sectors ≡ (D.state inner.old).medium.sectors }
    ensures told { (D.state inner.new).medium.told ≡ (D.state inner.old).medium.told }
    ensures none_pending { (D.state inner.new).medium.pending ≡ 0 }
    ensures left_torn { TearsFlush (D.state inner.old) (D.state inner.new) torn.old.items torn.new.items }
    ensures cut { CutsFlush (D.state inner.old) (D.state inner.new) torn.old.items torn.new.items }
{
    if inner.flush().is_err() {
        return;
    }
    let _ = torn.append(writes);
}

/// Reads the old bytes of the range, and then writes it and lists its sectors as pending. `was` is room for the old bytes.
///
/// `Failed`: the disk failed, and nothing is pending. Where it failed in the read, no write was made.
pub fn write_after_read<D: Disk>(
    inner: &mut D,
    writes: &mut Vec<Torn>,
    lba: u64,
    bytes: &[u8],
    was: &mut [u8],
) -> Result<(), Failed>
    requires whole { length bytes.now % 512 ≡ 0 }
    requires inside { lba + length bytes.now / 512 ≤ (D.state inner.old).medium.sectors }
    requires few { (D.state inner.old).medium.pending + length bytes.now / 512 ≤ 64 }
    requires mirrors { Mirrors (D.state inner.old).medium writes.old.items }
    requires held { 64 ≤ vec_capacity writes.old }
    requires was { length was.old ≡ length bytes.now }
    ensures mirrors { Mirrors (D.state inner.new).medium writes.new.items }
    ensures held { 64 ≤ vec_capacity writes.new }
    ensures content { WritesContent lba bytes.now (D.state inner.old).medium (D.state inner.new).medium result }
    ensures fused { ReadsThenWrites lba bytes.now (D.state inner.old) (D.state inner.new) result }
{
    let _sectors = inner.sectors();
    let answer = read_below(inner, writes, lba, was);
    if answer.is_err() {
        return answer;
    }
    if inner.write(lba, bytes).is_err() {
        writes.clear();
        return Err(Failed);
    }
    note(writes, lba * 512, was, bytes, bytes);
    Ok(())
}

// Writes the first sectors of a write, where there are any, and makes all pending writes last. Nothing is pending after it.
fn write_and_flush<D: Disk>(inner: &mut D, lba: u64, front: &[u8]) -> Result<(), Failed>
    requires whole { length front.now % 512 ≡ 0 }
    requires inside { lba + length front.now / 512 ≤ (D.state inner.old).medium.sectors }
    requires few { (D.state inner.old).medium.pending + length front.now / 512 ≤ 64 }
    // The pending writes stand in the disk.
    requires mirrors { IsTrue (D.state inner.old).medium.told → Mirrors (D.state inner.old).medium (D.state inner.old).medium.writes }
    ensures sectors { (D.state inner.new).medium.sectors ≡ (D.state inner.old).medium.sectors }
    ensures told { (D.state inner.new).medium.told ≡ (D.state inner.old).medium.told }
    ensures none_pending { (D.state inner.new).medium.pending ≡ 0 }
    ensures ok { FrontLasts lba front.now (D.state inner.old).medium (D.state inner.new).medium result }
    ensures err { FrontTorn lba front.now (D.state inner.old).medium (D.state inner.new).medium result }
    ensures calls { WritesFront lba front.now (D.state inner.old) (D.state inner.new) (is_err result) }
{
    if front.is_empty() {
        return inner.flush();
    }
    inner.write(lba, front)?;
    inner.flush()
}

/// The chosen write: it keeps its first `keep / 512` sectors, and all pending writes last. Each pending sector and the
/// whole range are noted. `was` and `left` are room for the bytes of the range before the call and after it. Where the disk
/// fails, its own notes stand alone; where it fails in the read of the old bytes, no write is made. Nothing is pending after
/// it.
pub fn cut_write<D: Disk>(
    inner: &mut D,
    torn: &mut Vec<Torn>,
    writes: &mut Vec<Torn>,
    lba: u64,
    bytes: &[u8],
    keep: u32,
    was: &mut [u8],
    left: &mut [u8],
)
    requires whole { length bytes.now % 512 ≡ 0 }
    requires inside { lba + length bytes.now / 512 ≤ (D.state inner.old).medium.sectors }
    requires few { (D.state inner.old).medium.pending + length bytes.now / 512 ≤ 64 }
    requires mirrors { Mirrors (D.state inner.old).medium writes.old.items }
    requires room { vec_len torn.old + 64 ≤ vec_capacity torn.old }
    requires was { length was.old ≡ length bytes.now }
    requires left { length left.old ≡ length bytes.now }
    ensures sectors { (D.state inner.new).medium.sectors ≡ (D.state inner.old).medium.sectors }
    ensures told { (D.state inner.new).medium.told ≡ (D.state inner.old).medium.told }
    ensures none_pending { (D.state inner.new).medium.pending ≡ 0 }
    ensures left_torn { TearsWrite lba bytes.now (D.state inner.old) (D.state inner.new) torn.old.items torn.new.items }
    ensures cut { CutsDiskWrite keep lba bytes.now (D.state inner.old) (D.state inner.new) torn.old.items torn.new.items }
{
    let _sectors = inner.sectors();
    if inner.read(lba, was).is_err() {
        return;
    }
    let kept = bytes.len().min(keep as usize / 512 * 512);
    if write_and_flush(inner, lba, &bytes[..kept]).is_err() {
        return;
    }
    let _ = torn.append(writes);
    left.copy_from_slice(was);
    left[..kept].copy_from_slice(&bytes[..kept]);
    note(torn, lba * 512, was, bytes, left);
}
