// Making the plan of a boot: its mode is decided, the selected slot is verified where the mode boots one, and it is looked for a
// kernel.
ghost use Rattle.std.specs.Prelude.{◌≡◌};
ghost use Rattle.board_core.specs.World.{world};
ghost use Rattle.rom_core.specs.MapFits.{FitsFlash};
ghost use Rattle.boot_core.specs.Carries.{IsSettled};
ghost use Rattle.boot_core.specs.Steps.{PlansSlot, PlansRecovery, PlansBoot};

use crate::drive_seen::look_at;
use crate::drives::{drive_of, recovery_of, rules_of};
use crate::found::Found;
use crate::plan::{
    GoodSlot, Plan, boot_mode_of, drive_plan, enables_dev, enabling_plan, facts_of, reboot_plan,
    recovery_plan, screen_plan,
};
use crate::room::Room;
use crate::slots::check_slot;
use crate::switches::Switches;
use board_core::{Disk, Drive, Fault, Flash, Hook, Platform, Tpm};
use fwsel_core::{Mode, mode, select};
use kernel_core::BootMode;

/// Makes the plan of a boot with these switches and findings. Nothing is changed.
///
/// A `Fault` is one of the flash, of a drive or of the hook, before any change.
pub fn make_plan<F: Flash, T: Tpm, D: Disk, E: Disk, H: Hook>(
    p: &mut Platform<F, T, D, E, H>,
    room: &mut Room,
    sw: Switches,
    found: &Found,
) -> Result<Plan, Fault>
    requires fits { FitsFlash (world F.state T.state H.state p.old).flash.medium.size found.now.map }
    requires settled { IsSettled (world F.state T.state H.state p.old) }
    ensures { PlansBoot sw found.now (world F.state T.state H.state p.old) (world F.state T.state H.state p.new) room.new result }
{
    match mode(&facts_of(sw, found)) {
        Mode::Manual => plan_recovery(p, room, sw, found),
        Mode::Broken { reason, subcode } => Ok(screen_plan(found, reason, subcode)),
        Mode::Normal => plan_slot(p, room, sw, found, false),
        Mode::Developer => plan_slot(p, room, sw, found, true),
    }
}

// Makes the plan of a recovery by hand, which boots a stick, or switches developer mode on.
fn plan_recovery<F: Flash, T: Tpm, D: Disk, E: Disk, H: Hook>(
    p: &mut Platform<F, T, D, E, H>,
    room: &mut Room,
    sw: Switches,
    found: &Found,
) -> Result<Plan, Fault>
    requires { IsSettled (world F.state T.state H.state p.old) }
    ensures { PlansRecovery sw found.now (world F.state T.state H.state p.old) (world F.state T.state H.state p.new) room.new result }
{
    if enables_dev(sw, &found.firmware) {
        return Ok(enabling_plan(found));
    }
    let key = recovery_of(&found.gbb);
    let rules = rules_of(sw, found, BootMode::Recovery);
    room.has_firmware = false;
    let seen = look_at(p, room, Drive::Stick, &key, &rules)?;
    Ok(recovery_plan(found, &seen))
}

// Makes the plan of a boot that goes on with a slot, where that is good.
fn plan_slot<F: Flash, T: Tpm, D: Disk, E: Disk, H: Hook>(
    p: &mut Platform<F, T, D, E, H>,
    room: &mut Room,
    sw: Switches,
    found: &Found,
    developer: bool,
) -> Result<Plan, Fault>
    requires fits { FitsFlash (world F.state T.state H.state p.old).flash.medium.size found.now.map }
    requires settled { IsSettled (world F.state T.state H.state p.old) }
    ensures { PlansSlot sw found.now developer (world F.state T.state H.state p.old)
        (world F.state T.state H.state p.new) room.new result }
{
    let mut next = found.state.nv;
    let selection = select(&mut next);
    let ok = match check_slot(p, room, found, selection.slot)? {
        Ok(ok) => ok,
        Err(fault) => return Ok(reboot_plan(found, developer, selection, &fault)),
    };
    room.has_firmware = true;
    let slot = GoodSlot {
        developer,
        selection,
        ok,
    };
    let drive = drive_of(sw, found, developer);
    let rules = rules_of(sw, found, boot_mode_of(developer));
    let seen = look_at(p, room, drive, &slot.ok.subkey, &rules)?;
    Ok(drive_plan(found, &slot, drive, &seen))
}
