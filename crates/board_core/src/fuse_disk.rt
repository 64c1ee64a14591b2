// A fuse over a disk. Its calls are in `fuse_disk_calls`: the struct's file names nothing of specs/ that names the struct.
ghost use Rattle.std.specs.Prelude.{◌≡◌, ℕ, ◌+◌, ◌≤◌, vec_len, vec_capacity};
ghost use Rattle.board_core.specs.declared.counters.FuseState.TheVariants.{Armed, Dead};
ghost use Rattle.board_core.specs.FuseDiskParts.{Mirrors};

use crate::counters::Counters;
use crate::disk::Disk;
use crate::torn::Torn;

/// A disk that is stopped at a chosen changing call. It meets the disk's trait, and an unarmed one is its disk. This is
/// the project's own model of a loss of power. While it is armed it has memory for the records of 64 torn sectors.
///
/// An armed one reads the old bytes of a range before it writes it, and does not count these reads. Where such a read
/// fails, the write is not made and answers `Failed`: the disk below has ended what was pending and noted it.
#[derive(Drop)]
pub struct FuseDisk<D: Disk> {
    pub(crate) inner: D,
    pub(crate) counters: Counters,
    pub(crate) sectors_read: u64,
    pub(crate) torn: Vec<Torn>,
    // The pending sectors of an armed fuse, as records that hold what was meant.
    pub(crate) writes: Vec<Torn>,
    ghost to_go: { (left keep : ℕ) → counters.stop ≡ Armed left keep → 1 ≤ left },
    // Nothing is pending below a dead fuse.
    ghost settled: { counters.stop ≡ Dead → (D.state inner).medium.pending ≡ 0 },
    ghost room: { (left keep : ℕ) → counters.stop ≡ Armed left keep → vec_len torn + 64 ≤ vec_capacity torn },
    ghost held: { (left keep : ℕ) → counters.stop ≡ Armed left keep → 64 ≤ vec_capacity writes },
    ghost mirrors: { (left keep : ℕ) → counters.stop ≡ Armed left keep → Mirrors (D.state inner).medium writes.items },
}
