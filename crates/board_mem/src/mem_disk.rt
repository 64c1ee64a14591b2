// A disk in memory. Its file names nothing of specs/ that names the disk.
ghost use Rattle.std.specs.Prelude.{◌≡◌, ◌+◌, ◌*◌, ◌%◌, ◌≤◌, length, All, vec_len, vec_capacity};
ghost use Rattle.board_core.specs.Disk.{IsSectorOf};
ghost use Rattle.board_mem.specs.Fails.{plan_of, failures_to_come};

use crate::fails::Schedule;
use board_core::Torn;

/// A disk whose sectors are in memory, and whose calls fail by a list. It tells its content.
#[derive(Drop)]
pub struct MemDisk {
    pub(crate) bytes: Vec<u8>,
    pub(crate) schedule: Schedule,
    pub(crate) faults: u64,
    pub(crate) failed_changes: u64,
    pub(crate) sectors_read: u64,
    pub(crate) torn: Vec<Torn>,
    // The pending sectors, as the records of what each was and was meant to be.
    pub(crate) writes: Vec<Torn>,
    ghost whole: { length bytes.items % 512 ≡ 0 },
    // A failure notes at most 64 sectors.
    ghost room: { vec_len torn + 64 * failures_to_come (plan_of schedule) ≤ vec_capacity torn },
    ghost few: { vec_len writes ≤ 64 },
    ghost held: { 64 ≤ vec_capacity writes },
    ghost in_sectors: { All (IsSectorOf (length bytes.items)) writes.items },
}
