// The command that shows the kernel in a partition.
ghost use Rattle.std.specs.Prelude.{◌≡◌, length};
ghost use Rattle.board_core.specs.World.{world};
ghost use Rattle.boot_core.specs.Carries.{IsSettled};
ghost use Rattle.command_core.specs.KernelShowing.{EndsKernel, ShowsOnDrive, ShowsKernel};

use crate::answer::{Answer, CgptRefusal, Status};
use crate::printing::print;
use board_core::{Disk, Drive, Flash, Hook, Platform, Sink, Tpm};
use gpt_core::GptRoom;
use rom_core::layout::LARGEST_VBLOCK;
use show_core::{PartitionFault, show_partition};
use std::alloc::Global;

/// Shows the kernel in partition `index` of a drive, and answers the exit status. Its memory is taken before the first call
/// of a device.
pub fn run_show_partition<F: Flash, T: Tpm, D: Disk, E: Disk, H: Hook, O: Sink>(
    alloc: Global,
    p: &mut Platform<F, T, D, E, H>,
    drive: Drive,
    index: u32,
    out: &mut O,
) -> Status
    requires { IsSettled (world F.state T.state H.state p.old) }
    ensures { ShowsKernel drive index (world F.state T.state H.state p.old) (world F.state T.state H.state p.new) (O.state out.old)
        (O.state out.new) result }
{
    let Ok(mut room) = GptRoom::reserve(alloc) else {
        return print(out, &Answer::OutOfMemory);
    };
    let mut vblock = [0; LARGEST_VBLOCK as usize];
    let answer = show_on_drive(p, &mut room, &mut vblock, drive, index, out);
    end_kernel(out, drive, answer)
}

// Shows a partition of this drive.
fn show_on_drive<F: Flash, T: Tpm, D: Disk, E: Disk, H: Hook, O: Sink>(
    p: &mut Platform<F, T, D, E, H>,
    room: &mut GptRoom,
    vblock: &mut [u8],
    drive: Drive,
    index: u32,
    out: &mut O,
) -> Result<(), PartitionFault>
    requires size { length vblock.old ≡ 65536 }
    requires settled { IsSettled (world F.state T.state H.state p.old) }
    ensures { ShowsOnDrive drive index (world F.state T.state H.state p.old) (world F.state T.state H.state p.new) (O.state out.old)
        (O.state out.new) result }
{
    match drive {
        Drive::Disk => show_partition(&mut p.disk, room, vblock, index, out),
        Drive::Stick => show_partition(&mut p.stick, room, vblock, index, out),
    }
}

// Ends a showing, and answers the exit status.
fn end_kernel<O: Sink>(out: &mut O, drive: Drive, answer: Result<(), PartitionFault>) -> Status
    ensures ends { EndsKernel drive answer (O.state out.old) (O.state out.new) result }
    ensures not_usage { result ≡ Status.Usage → ⊥ }
    ensures not_memory { result ≡ Status.NoMemory → ⊥ }
{
    match answer {
        Ok(()) => Status::Done,
        Err(PartitionFault::Write) => Status::SinkFault,
        Err(PartitionFault::Device) => print(out, &Answer::Failed(drive.device())),
        Err(PartitionFault::NoTable) => print(out, &Answer::RefusedCgpt(CgptRefusal::NoTable)),
        Err(PartitionFault::NoEntry) => print(out, &Answer::RefusedCgpt(CgptRefusal::NoEntry)),
    }
}
