// One boot over a board: what it holds is read, the plan is made, its changes are made, and the spaces are locked.
ghost use Rattle.std.specs.Prelude.{◌≡◌, IsTrue, true};
ghost use Rattle.board_core.specs.Tpm.{unlocked};
ghost use Rattle.board_core.specs.World.{world};
ghost use Rattle.gpt_core.specs.Format.{PartitionTable};
ghost use Rattle.gpt_core.specs.Room.{CanCommit};
ghost use Rattle.nvstore_core.specs.Pages.{IsStateOf, InRange};
ghost use Rattle.boot_core.specs.Carries.{IsSettled};
ghost use Rattle.boot_core.specs.Hands.{handed_by};
ghost use Rattle.boot_core.specs.Plan.{IsOfOneForm};
ghost use Rattle.boot_core.specs.Steps.{IsAreaIn, Finishes};
ghost use Rattle.boot_core.specs.Boots.{Boots};

use crate::changing::make_changes;
use crate::found::Found;
use crate::locking::lock_at;
use crate::outcome::Outcome;
use crate::plan::Plan;
use crate::planning::make_plan;
use crate::reading::read_board;
use crate::room::Room;
use crate::switches::Switches;
use board_core::{Disk, Fault, Flash, Hook, Platform, Tpm};
use gpt_core::GptRoom;

/// Boots a board on whose drives nothing is pending. It takes no memory.
///
/// Everything is read before anything is changed: what flash and TPM hold, in normal and developer mode the selected slot, and then
/// the kernels of a drive; slot and kernel are verified in the room. The changes are those of the plan: the firmware space, the
/// nvdata record, the table of the disk, the kernel space, and a second record where the disk cannot be booted. Both spaces are
/// locked after the last change where the boot goes on, and left unlocked where it ends. Where it goes on, the room hands out
/// firmware and kernel. Nothing is written to a stick.
///
/// A `Fault` is the first call of a device that failed, and ends the boot: that device counted it. The changes that are
/// counted as done are whole. The next one has happened or not; it has only where it is one of that device.
pub fn boot<F: Flash, T: Tpm, D: Disk, E: Disk, H: Hook>(
    p: &mut Platform<F, T, D, E, H>,
    room: &mut Room,
    sw: Switches,
) -> Result<Outcome, Fault>
    requires { IsSettled (world F.state T.state H.state p.old) }
    ensures { Boots sw (world F.state T.state H.state p.old) (world F.state T.state H.state p.new) (handed_by room.new) result }
{
    let found = match read_board(p) {
        Ok(Ok(found)) => found,
        Ok(Err(fault)) => return Ok(Outcome::BadFlash(fault)),
        Err(fault) => return Err(fault),
    };
    let plan = make_plan(p, room, sw, &found)?;
    carry_out(p, &mut room.gpt, &found, &plan)
}

// Makes the changes of a plan, and locks both spaces where the boot goes on.
fn carry_out<F: Flash, T: Tpm, D: Disk, E: Disk, H: Hook>(
    p: &mut Platform<F, T, D, E, H>,
    gpt: &mut GptRoom,
    found: &Found,
    plan: &Plan,
) -> Result<Outcome, Fault>
    requires settled { IsSettled (world F.state T.state H.state p.old) }
    requires unlocked { (world F.state T.state H.state p.old).tpm.locks ≡ unlocked }
    requires area { IsAreaIn (world F.state T.state H.state p.old).flash.medium.size found.now.map.nvram.at }
    requires state { IsTrue (world F.state T.state H.state p.old).flash.medium.told → IsStateOf found.now.map.nvram.at
        (world F.state T.state H.state p.old).flash.medium.bytes found.now.state }
    requires within { InRange found.now.state }
    requires ready { plan.now.table ≡ true → CanCommit (world F.state T.state H.state p.old).disk gpt.old }
    requires alike { IsOfOneForm plan.now }
    ensures { (table : PartitionTable) → (plan.now.table ≡ true → table ≡ gpt.old.table)
        → Finishes table found.now plan.now (world F.state T.state H.state p.old) (world F.state T.state H.state p.new) result }
{
    let done = make_changes(p, gpt, found, plan)?;
    lock_at(p, plan.outcome, done)?;
    Ok(plan.outcome)
}
