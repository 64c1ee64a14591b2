// A flash in memory. Its file names nothing of specs/ that names the flash.
ghost use Rattle.std.specs.Prelude.{◌+◌, ◌*◌, ◌^◌, ◌<◌, ◌≤◌, vec_len, vec_capacity};
ghost use Rattle.board_mem.specs.Fails.{plan_of, failures_to_come};

use crate::fails::Schedule;
use board_core::Torn;

/// A flash whose bytes are in memory, and whose calls fail by a list. It tells its content.
#[derive(Drop)]
pub struct MemFlash {
    pub(crate) bytes: Vec<u8>,
    pub(crate) schedule: Schedule,
    pub(crate) faults: u64,
    pub(crate) failed_changes: u64,
    pub(crate) torn: Vec<Torn>,
    ghost fits: { vec_len bytes < 2 ^ 32 },
    // A failure notes at most a page, which is 8 records.
    ghost room: { vec_len torn + 8 * failures_to_come (plan_of schedule) ≤ vec_capacity torn },
}
