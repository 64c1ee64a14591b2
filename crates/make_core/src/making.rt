// Making the machine of a number.
ghost use Rattle.std.specs.Prelude.{◌≡◌, ◌↔◌, IsTrue, IsErr, IsErrOf, IfErr, OnOk, None};
ghost use Rattle.board_core.specs.World.{world};
ghost use Rattle.make_core.specs.Enrolling.{LacksRoom};
ghost use Rattle.make_core.specs.Make.{HasOtherSize, HasCause, IsMade, LeftBy, CountsOf, KeepsRest, SizeOf, MakesImages, MakesMachine, hook_fault};
ghost use Rattle.make_core.specs.Rows.{machine_rows};

use crate::drive::make_disk;
use crate::drive_layout::DRIVE_SECTORS;
use crate::drive_writing::{write_drive, write_stick};
use crate::layout::{FLASH_SIZE, MAP_AT};
use crate::rows::{enroll_all, make_rows};
use crate::spaces::write_spaces;
use crate::writing::write_flash;
use board_core::{Device, Disk, EnrollFault, Flash, Hook, Platform, Tpm};

/// Why a machine was not made.
#[derive(Clone, Copy, Debug, PartialEq, Eq)]
pub enum MakeFault {
    /// The device has not the size of a generated image. Nothing was changed.
    Size(Device),
    /// The device failed, and its count of faults rose. The images may be in part the new ones.
    Device(Device),
    /// The hook has no room for a row, since 4,096 others stand. All images are the machine's, and the rows before it are
    /// enrolled.
    HookFull,
    /// There was no memory for a row. All images are the machine's, and the rows before it are enrolled.
    Memory,
}

// The first device that has not the size of a generated image.
fn wrong_size<F: Flash, T: Tpm, D: Disk, E: Disk, H: Hook>(
    p: &Platform<F, T, D, E, H>,
) -> Option<Device>
    ensures { SizeOf (world F.state T.state H.state p.now) result }
{
    let flash = p.flash.size();
    if flash != FLASH_SIZE {
        return Some(Device::Flash);
    }
    let disk = p.disk.sectors();
    if disk != DRIVE_SECTORS {
        return Some(Device::Disk);
    }
    let stick = p.stick.sectors();
    if stick == 0 {
        return None;
    }
    if stick != DRIVE_SECTORS {
        return Some(Device::Stick);
    }
    None
}

// Makes the images of the flash, the TPM, the disk and the stick, in this order. An error is the first device that failed:
// those behind it are as they were.
fn make_images<F: Flash, T: Tpm, D: Disk, E: Disk, H: Hook>(
    p: &mut Platform<F, T, D, E, H>,
    number: u32,
) -> Result<(), Device>
    requires disk { (world F.state T.state H.state p.old).disk.medium.pending ≡ 0 }
    requires stick { (world F.state T.state H.state p.old).stick.medium.pending ≡ 0 }
    requires sizes { SizeOf (world F.state T.state H.state p.old) None }
    ensures { MakesImages number (world F.state T.state H.state p.old) (world F.state T.state H.state p.new) result }
{
    let Ok(()) = write_flash(&mut p.flash, number) else {
        return Err(Device::Flash);
    };
    let Ok(()) = write_spaces(&mut p.tpm) else {
        return Err(Device::Tpm);
    };
    let Ok(()) = write_drive(&mut p.disk, number, &make_disk(number)) else {
        return Err(Device::Disk);
    };
    let Ok(()) = write_stick(&mut p.stick, number) else {
        return Err(Device::Stick);
    };
    Ok(())
}

// The refusal of a machine by the refusal of one of its rows.
fn hook_fault(fault: EnrollFault) -> MakeFault
    ensures { result ≡ hook_fault fault }
{
    match fault {
        EnrollFault::Failed => MakeFault::Device(Device::Hook),
        EnrollFault::Full => MakeFault::HookFull,
        EnrollFault::Memory => MakeFault::Memory,
    }
}

// What `make` does where every size is right.
fn make_machine<F: Flash, T: Tpm, D: Disk, E: Disk, H: Hook>(
    p: &mut Platform<F, T, D, E, H>,
    number: u32,
) -> Result<(), MakeFault>
    requires disk { (world F.state T.state H.state p.old).disk.medium.pending ≡ 0 }
    requires stick { (world F.state T.state H.state p.old).stick.medium.pending ≡ 0 }
    requires sizes { SizeOf (world F.state T.state H.state p.old) None }
    ensures { MakesMachine number (world F.state T.state H.state p.old) (world F.state T.state H.state p.new) result }
{
    if let Err(device) = make_images(p, number) {
        return Err(MakeFault::Device(device));
    }
    match enroll_all(&mut p.hook, &make_rows(number)) {
        Ok(()) => {
            p.map_at = MAP_AT;
            Ok(())
        }
        Err(fault) => Err(hook_fault(fault)),
    }
}

/// Makes the machine of a number on a board: the flash; both spaces of the TPM, which it starts first and leaves unlocked;
/// the disk; the stick, unless it has no sectors; then the rows of both slots, of the kernels in partitions 2 and 4 and of
/// that of the stick in the hook; and it sets `map_at` to the place of the map, in bytes. What stood on the devices does not
/// matter. Which bytes these are is this project's own; `machine_flash`, `machine_spaces`, `machine_disk`, `machine_stick`
/// and `machine_rows` of specs/ say them, after the formats of vboot_reference, of the flashmap library and of UEFI.
///
/// After each error `map_at` is as before. `Size`: the first device of another size, which are 1,048,576 bytes of the flash,
/// 16,384 sectors of the disk, and none or 16,384 of the stick; nothing was changed. `Device`: that device failed. What was
/// made before that stands, and nothing behind it was touched. `HookFull`: a row of the machine meets 4,096 others.
/// `Memory`: there was none for a row. Nothing is pending on either drive, whatever the answer.
pub fn make<F: Flash, T: Tpm, D: Disk, E: Disk, H: Hook>(
    p: &mut Platform<F, T, D, E, H>,
    number: u32,
) -> Result<(), MakeFault>
    requires disk { (world F.state T.state H.state p.old).disk.medium.pending ≡ 0 }
    requires stick { (world F.state T.state H.state p.old).stick.medium.pending ≡ 0 }
    ensures size { (device : Device) → IsErrOf result (MakeFault.Size device) ↔ HasOtherSize device (world F.state T.state H.state p.old) }
    ensures causes { IfErr result (HasCause number (world F.state T.state H.state p.old) (world F.state T.state H.state p.new)) }
    ensures full { let old = world F.state T.state H.state p.old in
        IsTrue old.hook.told → LacksRoom (machine_rows number) old.hook.rows → IsErr result }
    ensures ok { OnOk result (IsMade number (world F.state T.state H.state p.old) (world F.state T.state H.state p.new)) }
    ensures err { IfErr result (LeftBy number (world F.state T.state H.state p.old) (world F.state T.state H.state p.new)) }
    ensures counters { CountsOf (world F.state T.state H.state p.old) (world F.state T.state H.state p.new) result }
    ensures kept { KeepsRest (world F.state T.state H.state p.old) (world F.state T.state H.state p.new) }
{
    match wrong_size(p) {
        Some(device) => Err(MakeFault::Size(device)),
        None => make_machine(p, number),
    }
}
