// The command on the partition table of a drive.
ghost use Rattle.std.specs.Prelude.{◌≡◌};
ghost use Rattle.uuid.specs.Parts.{swap_fields};
ghost use Rattle.board_core.specs.World.{world};
ghost use Rattle.boot_core.specs.Carries.{IsSettled};
ghost use Rattle.command_core.specs.Prints.{Prints};
ghost use Rattle.command_core.specs.Partitions.{EndsCgpt, WorksOnDrive, WorksTable};

use crate::answer::{Answer, CgptRefusal, Status};
use crate::printing::print;
use board_core::{Device, Disk, Drive, Flash, Hook, Platform, Sink, Tpm};
use cgpt_core::{CgptCall, CgptFault, cgpt};
use gpt_core::GptRoom;
use std::alloc::Global;
use uuid::Uuid;

/// Works a command on the partition table of the drive that the call names, with a GUID that it may use, and answers the exit status. Its memory is taken
/// before the first call of a device.
pub fn run_cgpt<F: Flash, T: Tpm, D: Disk, E: Disk, H: Hook, O: Sink>(
    alloc: Global,
    p: &mut Platform<F, T, D, E, H>,
    call: &CgptCall,
    fresh: Uuid,
    out: &mut O,
) -> Status
    requires { IsSettled (world F.state T.state H.state p.old) }
    ensures { WorksTable call.now (swap_fields fresh) (world F.state T.state H.state p.old) (world F.state T.state H.state p.new) (O.state out.old)
        (O.state out.new) result }
{
    let Ok(mut room) = GptRoom::reserve(alloc) else {
        return print(out, &Answer::OutOfMemory);
    };
    let answer = work_cgpt(p, &mut room, call, fresh, out);
    end_cgpt(out, call.drive, answer)
}

// Works a command on the drive that the call names.
fn work_cgpt<F: Flash, T: Tpm, D: Disk, E: Disk, H: Hook, O: Sink>(
    p: &mut Platform<F, T, D, E, H>,
    room: &mut GptRoom,
    call: &CgptCall,
    fresh: Uuid,
    out: &mut O,
) -> Result<(), CgptFault>
    requires { IsSettled (world F.state T.state H.state p.old) }
    ensures { WorksOnDrive call.now (swap_fields fresh) (world F.state T.state H.state p.old) (world F.state T.state H.state p.new) (O.state out.old)
        (O.state out.new) result }
{
    match call.drive {
        Drive::Disk => cgpt(&mut p.disk, room, call, fresh, out),
        Drive::Stick => cgpt(&mut p.stick, room, call, fresh, out),
    }
}

// Prints why a command was refused.
fn refuse<O: Sink>(out: &mut O, why: CgptRefusal) -> Status
    ensures prints { Prints (Answer.RefusedCgpt why) (O.state out.old) (O.state out.new) result }
    ensures not_usage { result ≡ Status.Usage → ⊥ }
    ensures not_memory { result ≡ Status.NoMemory → ⊥ }
{
    print(out, &Answer::RefusedCgpt(why))
}

// Ends a command, and answers the exit status.
fn end_cgpt<O: Sink>(out: &mut O, drive: Drive, answer: Result<(), CgptFault>) -> Status
    ensures ends { EndsCgpt drive answer (O.state out.old) (O.state out.new) result }
    ensures not_usage { result ≡ Status.Usage → ⊥ }
    ensures not_memory { result ≡ Status.NoMemory → ⊥ }
{
    match answer {
        Ok(()) => Status::Done,
        Err(CgptFault::Write) => Status::SinkFault,
        Err(CgptFault::Device) => print(out, &Answer::Failed(drive.device())),
        Err(CgptFault::DiskTooSmall) => refuse(out, CgptRefusal::DiskTooSmall),
        Err(CgptFault::NoTable) => refuse(out, CgptRefusal::NoTable),
        Err(CgptFault::NoEntry) => refuse(out, CgptRefusal::NoEntry),
        Err(CgptFault::NoFreeEntry) => refuse(out, CgptRefusal::NoFreeEntry),
        Err(CgptFault::BadValue) => refuse(out, CgptRefusal::BadValue),
        Err(CgptFault::Outside) => refuse(out, CgptRefusal::Outside),
        Err(CgptFault::Overlap) => refuse(out, CgptRefusal::Overlap),
        Err(CgptFault::DuplicateUnique) => refuse(out, CgptRefusal::DuplicateUnique),
    }
}
