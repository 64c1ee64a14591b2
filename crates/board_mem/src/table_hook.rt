// A hook over a table of rows in memory. Its file names nothing of specs/ that names the hook.
ghost use Rattle.std.specs.Prelude.{◌≤◌, vec_len};

use crate::fails::Schedule;
use board_core::HookRow;

/// A hook whose rows are in memory, at most 4,096, and whose calls fail by a list. It tells its content.
#[derive(Drop)]
pub struct TableHook {
    pub(crate) rows: Vec<HookRow>,
    pub(crate) schedule: Schedule,
    pub(crate) faults: u64,
    ghost few: { vec_len rows ≤ 4096 },
}
