// The command that boots a board.
ghost use Rattle.board_core.specs.World.{world};
ghost use Rattle.boot_core.specs.Carries.{IsSettled};
ghost use Rattle.command_core.specs.Booting.{BootWorks, BootRuns, BootEnds};

use crate::answer::{Answer, Status};
use crate::printing::print;
use board_core::{Device, Disk, Flash, Hook, Platform, Sink, Tpm};
use boot_core::{Room, Switches, boot};
use rom_core::locate;
use std::alloc::Global;

/// Boots a board with these switches, prints what it came to, and answers the exit status. Its memory is taken
/// before the first call of a device.
pub fn run_boot<F: Flash, T: Tpm, D: Disk, E: Disk, H: Hook, O: Sink>(
    alloc: Global,
    p: &mut Platform<F, T, D, E, H>,
    sw: Switches,
    out: &mut O,
) -> Status
    requires { IsSettled (world F.state T.state H.state p.old) }
    ensures runs { BootRuns sw (world F.state T.state H.state p.old) (world F.state T.state H.state p.new)
        (O.state out.old) (O.state out.new) result }
    ensures ends { BootEnds sw (world F.state T.state H.state p.old) (world F.state T.state H.state p.new)
        (O.state out.old) (O.state out.new) result }
{
    let answer = work_boot(alloc, p, sw);
    print(out, &answer)
}

// Takes the memory of a boot, looks for the map of the flash, and boots.
fn work_boot<F: Flash, T: Tpm, D: Disk, E: Disk, H: Hook>(
    alloc: Global,
    p: &mut Platform<F, T, D, E, H>,
    sw: Switches,
) -> Answer
    requires { IsSettled (world F.state T.state H.state p.old) }
    ensures { BootWorks sw (world F.state T.state H.state p.old) (world F.state T.state H.state p.new) result }
{
    let Ok(mut room) = Room::reserve(alloc) else {
        return Answer::OutOfMemory;
    };
    let Ok(at) = locate(&mut p.flash) else {
        return Answer::Failed(Device::Flash);
    };
    p.map_at = at;
    match boot(p, &mut room, sw) {
        Ok(outcome) => Answer::Booted(outcome),
        Err(fault) => Answer::Faulted(fault),
    }
}
