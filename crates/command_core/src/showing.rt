// The command that shows the firmware of the flash.
ghost use Rattle.board_core.specs.World.{world};
ghost use Rattle.command_core.specs.Showing.{LocatesAndShows, EndsShow, Shows};

use crate::answer::{Answer, Status};
use crate::printing::print;
use board_core::{Device, Disk, Flash, Hook, Platform, Sink, Tpm};
use rom_core::layout::LARGEST_VBLOCK;
use rom_core::locate;
use show_core::{ShowFault, show_flash};

/// Shows the firmware of the flash, and answers the exit status.
pub fn run_show<F: Flash, T: Tpm, D: Disk, E: Disk, H: Hook, O: Sink>(
    p: &mut Platform<F, T, D, E, H>,
    out: &mut O,
) -> Status
    ensures { Shows (world F.state T.state H.state p.old) (world F.state T.state H.state p.new) (O.state out.old) (O.state out.new) result }
{
    let answer = locate_and_show(&mut p.flash, out);
    end_show(out, answer)
}

// Looks for the map of a flash, and puts what the flash is.
fn locate_and_show<F: Flash, O: Sink>(flash: &mut F, out: &mut O) -> Result<(), ShowFault>
    ensures { LocatesAndShows (F.state flash.old) (F.state flash.new) (O.state out.old) (O.state out.new) result }
{
    let Ok(at) = locate(flash) else {
        return Err(ShowFault::Device);
    };
    let mut vblock = [0; LARGEST_VBLOCK as usize];
    show_flash(flash, at, &mut vblock, out)
}

// Ends a showing, and answers the exit status.
fn end_show<O: Sink>(out: &mut O, answer: Result<(), ShowFault>) -> Status
    ensures { EndsShow answer (O.state out.old) (O.state out.new) result }
{
    match answer {
        Ok(()) => Status::Done,
        Err(ShowFault::Write) => Status::SinkFault,
        Err(ShowFault::Device) => print(out, &Answer::Failed(Device::Flash)),
        Err(ShowFault::BadFlash(fault)) => print(out, &Answer::BadFlash(fault)),
    }
}
