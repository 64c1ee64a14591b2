// A disk of sectors of 512 bytes, whose writes last once they are flushed.
ghost use Rattle.std.specs.Prelude.{◌≡◌, ℕ, ◌+◌, ◌*◌, ◌/◌, ◌%◌, ◌≤◌, length, IsTrue};
ghost use Rattle.board_core.specs.declared.counters.FuseState.TheVariants.{Armed};
ghost use Rattle.board_core.specs.Disk.{DiskState, ReadsDisk, WritesDisk, Flushes};

use crate::device::Failed;

/// Sectors of 512 bytes, by their number (LBA). A write lasts once a flush has answered Ok. This is the project's own
/// model of a device. `write` and `flush` are its changing calls.
///
/// Each call that answers `Failed` raises the count of faults, and a failed write or flush raises the number of failed
/// changes too. A failed call ends what was pending: it notes each sector that was pending as torn, a record for each
/// write of it, and nothing is pending after it. A failed write or flush may leave any bytes in these sectors and in the
/// first ones of its own, which it notes too; a failed read leaves every byte.
pub trait Disk {
    ghost state: { Self → DiskState };

    /// The number of sectors, so few that each byte's place fits a u64. A device that is absent has 0. No call changes
    /// it.
    fn sectors(&self) -> u64
        ensures sectors { result ≡ (state self.now).medium.sectors }
        ensures addressable { result ≤ 36028797018963967 };

    /// How many sectors were written since the last flush that answered Ok. One that was written twice counts twice.
    fn pending(&self) -> u32
        ensures { result ≡ (state self.now).medium.pending };

    /// Fills `buf`, which is whole sectors long, with the sectors from `lba`. It sees all writes so far.
    ///
    /// `Failed`: `buf` holds any bytes. No byte of the disk changed. Each sector that was pending is noted as torn, with the
    /// bytes that stand there, and nothing is pending.
    fn read(&mut self, lba: u64, buf: &mut [u8]) -> Result<(), Failed>
        requires whole { length buf.old % 512 ≡ 0 }
        requires inside { lba + length buf.old / 512 ≤ (state self.old).medium.sectors }
        ensures meets { ReadsDisk lba buf.new (state self.old) (state self.new) result };

    /// Writes whole sectors from `lba`, of which at most 64 are then pending.
    ///
    /// `Failed`: any bytes may stand in each range that was pending and in the first sectors of this one. All are noted
    /// as torn, and nothing is pending.
    fn write(&mut self, lba: u64, bytes: &[u8]) -> Result<(), Failed>
        requires whole { length bytes.now % 512 ≡ 0 }
        requires inside { lba + length bytes.now / 512 ≤ (state self.old).medium.sectors }
        requires room { (state self.old).medium.pending + length bytes.now / 512 ≤ 64 }
        ensures meets { WritesDisk lba bytes.now (state self.old) (state self.new) result };

    /// Makes all writes so far last.
    ///
    /// `Failed`: any bytes may stand in each range that was pending. All are noted as torn, and nothing is pending.
    fn flush(&mut self) -> Result<(), Failed>
        ensures meets { Flushes (state self.old) (state self.new) result };

    /// An armed stop has a call to go.
    ghost armed: { (disk : Self) (left keep : ℕ) → (state disk).counters.stop ≡ Armed left keep → 1 ≤ left };

    /// The bytes that are told are those of the sectors.
    ghost told_size: { (d : Self) → IsTrue (state d).medium.told → length (state d).medium.bytes ≡ (state d).medium.sectors * 512 };

    /// The pending writes that are told are as many as the pending sectors.
    ghost told_pending: { (d : Self) → IsTrue (state d).medium.told → length (state d).medium.writes ≡ (state d).medium.pending };
}
