// What a hook over a table does.
ghost use Rattle.std.specs.Prelude.{◌≡◌, ◌↔◌, ◌≤◌, length, IsTrue, IfOk, IsErrOf, is_err, is_some};
ghost use Rattle.board_core.specs.Hook.{HasNoRoom, Verifies, Enrolls};
ghost use Rattle.board_mem.specs.Fails.{FollowsPlan, next_failure, after_call, count_with};
ghost use Rattle.board_mem.specs.TableHook.{table_hook_state, table_hook_plan};

use crate::fails::{FailAt, Schedule};
use crate::table_hook::TableHook;
use board_core::{EnrollFault, Failed, Hook, HookRow, MOST_ROWS, has_row, is_accepted, raise};
use std::alloc::{AllocError, Global};

impl TableHook {
    /// A hook with these rows, of whose calls these fail. It takes the memory of both lists here; `enroll` takes more.
    /// `AllocError` is want of memory.
    pub fn new(alloc: Global, rows: &[HookRow], fails: &[FailAt]) -> Result<TableHook, AllocError>
        requires { length rows.now ≤ 4096 }
        ensures rows { IfOk result (λ hook. (table_hook_state hook).rows ≡ rows.now) }
        ensures faults { IfOk result (λ hook. (table_hook_state hook).faults ≡ 0) }
        ensures fails { IfOk result (λ hook. (table_hook_plan hook).fails ≡ fails.now) }
        ensures calls { IfOk result (λ hook. (table_hook_plan hook).calls ≡ 0) }
    {
        Ok(TableHook {
            rows: rows.to_vec(alloc)?,
            schedule: Schedule::new(alloc, fails)?,
            faults: 0,
        })
    }

    /// The rows, in the order in which they were enrolled.
    pub fn rows(&self) -> &[HookRow]
        ensures rows { result.now ≡ (table_hook_state self.now).rows }
        ensures few { length result.now ≤ 4096 }
    {
        &self.rows
    }
}

impl Hook for TableHook {
    ghost state = { table_hook_state };

    fn verify(
        &mut self,
        algorithm: u32,
        key: &[u8],
        digest: &[u8],
        signature: &[u8],
    ) -> Result<bool, Failed>
        ensures meets { Verifies algorithm key.now digest.now signature.now (table_hook_state self.old) (table_hook_state self.new) result }
        ensures planned { FollowsPlan (table_hook_plan self.old) (table_hook_plan self.new) (is_err result) }
        ensures faults { (table_hook_state self.new).faults ≡ count_with (is_err result) (table_hook_state self.old).faults }
    {
        if self.schedule.next().is_some() {
            self.faults = raise(self.faults);
            return Err(Failed);
        }
        Ok(is_accepted(&self.rows, algorithm, key, digest, signature))
    }

    fn enroll(&mut self, row: &HookRow) -> Result<(), EnrollFault>
        ensures meets { Enrolls row.now (table_hook_state self.old) (table_hook_state self.new) result }
        ensures failed { IsErrOf result EnrollFault.Failed ↔ IsTrue (is_some (next_failure (table_hook_plan self.old))) }
        ensures full { next_failure (table_hook_plan self.old) ≡ None → (IsErrOf result EnrollFault.Full ↔ HasNoRoom row.now
            (table_hook_state self.old).rows) }
        ensures plan { table_hook_plan self.new ≡ after_call (table_hook_plan self.old) }
        ensures faults { (table_hook_state self.new).faults ≡ count_with (is_some (next_failure (table_hook_plan self.old)))
            (table_hook_state self.old).faults }
    {
        if self.schedule.next().is_some() {
            self.faults = raise(self.faults);
            return Err(EnrollFault::Failed);
        }
        if has_row(&self.rows, row) {
            return Ok(());
        }
        if self.rows.len() >= MOST_ROWS {
            return Err(EnrollFault::Full);
        }
        match self.rows.push(*row) {
            Ok(()) => Ok(()),
            Err(_) => Err(EnrollFault::Memory),
        }
    }
}
