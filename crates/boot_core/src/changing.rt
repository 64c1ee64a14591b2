// Making the changes of a plan, one after another, up to the first that fails.
ghost use Rattle.std.specs.Prelude.{◌≡◌, ℕ, ◌+◌, ◌*◌, ◌≤◌, true, false, IsTrue, OnOk, IfOk, length, fold};
ghost use Rattle.board_core.specs.declared.device.Space.TheVariants as space;
ghost use Rattle.board_core.specs.Tpm.{is_locked, unlocked};
ghost use Rattle.board_core.specs.World.{world};
ghost use Rattle.nvstore_core.specs.declared.state.NvState.{NvState};
ghost use Rattle.nvstore_core.specs.Pages.{IsStateOf, InRange};
ghost use Rattle.nvstore_core.specs.Saving.{KeepsWritten};
ghost use Rattle.gpt_core.specs.Format.{PartitionTable};
ghost use Rattle.gpt_core.specs.Room.{CanCommit};
ghost use Rattle.boot_core.specs.Changes.{Firmware, Record, Kernel, listed, tabled, state_with};
ghost use Rattle.boot_core.specs.Plan.{IsOfOneForm, first_changes, later_changes, changes_of};
ghost use Rattle.boot_core.specs.Carries.{Targets, IsSettled, CarriesOut};
ghost use Rattle.boot_core.specs.Steps.{SameDrives, IsAreaIn, to_of, WritesTable, StoresIn, MakesFirst, MakesLater, Makes};

use crate::found::Found;
use crate::plan::Plan;
use board_core::{Device, Disk, Fault, Flash, Hook, Platform, Space, Tpm};
use gpt_core::{GptRoom, commit};
use nvstore_core::{NvState, save};
use record_core::{FwSpace, KernelSpace, Nv};

// Writes the firmware space, where it changes, and answers the number of changes.
fn write_firmware<F: Flash, T: Tpm, D: Disk, E: Disk, H: Hook>(
    p: &mut Platform<F, T, D, E, H>,
    change: &Option<FwSpace>,
) -> Result<u8, Fault>
    requires settled { IsSettled (world F.state T.state H.state p.old) }
    requires unlocked { is_locked space.Firmware (world F.state T.state H.state p.old).tpm.locks ≡ false }
    ensures carried { (to : Targets) (state : NvState) → CarriesOut 0 to state (listed Firmware change.now)
        (world F.state T.state H.state p.old) (world F.state T.state H.state p.new) result }
    ensures count { IfOk result (λ count. count ≡ length (listed Firmware change.now)) }
    ensures locks { (world F.state T.state H.state p.new).tpm.locks ≡ (world F.state T.state H.state p.old).tpm.locks }
    ensures flash { (world F.state T.state H.state p.new).flash ≡ (world F.state T.state H.state p.old).flash }
    ensures drives { SameDrives (world F.state T.state H.state p.old) (world F.state T.state H.state p.new) }
{
    let Some(firmware) = change else {
        return Ok(0);
    };
    let Ok(_) = p.tpm.write(Space::Firmware, &firmware.to_bytes()) else {
        return Err(Fault {
            device: Device::Tpm,
            done: 0,
        });
    };
    Ok(1)
}

// Stores the record, where it changes, after so many changes, and answers how many there are then.
fn store_record<F: Flash, T: Tpm, D: Disk, E: Disk, H: Hook>(
    p: &mut Platform<F, T, D, E, H>,
    area: u32,
    state: &mut NvState,
    change: &Option<Nv>,
    done: u8,
) -> Result<u8, Fault>
    requires settled { IsSettled (world F.state T.state H.state p.old) }
    requires area { IsAreaIn (world F.state T.state H.state p.old).flash.medium.size area }
    requires state { IsTrue (world F.state T.state H.state p.old).flash.medium.told → IsStateOf area
        (world F.state T.state H.state p.old).flash.medium.bytes state.old }
    requires within { InRange state.old }
    requires few { done ≤ 4 }
    ensures carried { (table : PartitionTable) → CarriesOut done (record { area = area; table = table }) state.old
        (listed Record change.now) (world F.state T.state H.state p.old) (world F.state T.state H.state p.new) result }
    ensures kept { IsTrue (world F.state T.state H.state p.old).flash.medium.told → KeepsWritten area state.old
        (world F.state T.state H.state p.old).flash.medium.bytes (world F.state T.state H.state p.new).flash.medium.bytes }
    ensures count { IfOk result (λ count. count ≡ done + length (listed Record change.now)) }
    ensures state { OnOk result (state.new ≡ fold state_with state.old (listed Record change.now)) }
    ensures page { IsTrue (world F.state T.state H.state p.old).flash.medium.told → StoresIn area state.old change.now
        (world F.state T.state H.state p.old).flash.medium.bytes (world F.state T.state H.state p.new).flash.medium.bytes }
    ensures stands { IsTrue (world F.state T.state H.state p.old).flash.medium.told → OnOk result (IsStateOf area
        (world F.state T.state H.state p.new).flash.medium.bytes state.new) }
    ensures within { InRange state.new }
    ensures locks { (world F.state T.state H.state p.new).tpm.locks ≡ (world F.state T.state H.state p.old).tpm.locks }
    ensures drives { SameDrives (world F.state T.state H.state p.old) (world F.state T.state H.state p.new) }
{
    let Some(nv) = change else {
        return Ok(done);
    };
    let Ok(_) = save(&mut p.flash, area, state, nv) else {
        return Err(Fault {
            device: Device::Flash,
            done,
        });
    };
    Ok(done + 1)
}

// Writes the table of the room into both copies of the disk, where it is to be written, after so many changes, and answers how
// many there are then.
fn write_table<F: Flash, T: Tpm, D: Disk, E: Disk, H: Hook>(
    p: &mut Platform<F, T, D, E, H>,
    gpt: &mut GptRoom,
    wanted: bool,
    done: u8,
) -> Result<u8, Fault>
    requires settled { IsSettled (world F.state T.state H.state p.old) }
    requires ready { wanted ≡ true → CanCommit (world F.state T.state H.state p.old).disk gpt.old }
    requires few { done ≤ 4 }
    ensures carried { (to : Targets) (state : NvState) → (wanted ≡ true → to.table ≡ gpt.old.table)
        → CarriesOut done to state (tabled wanted) (world F.state T.state H.state p.old) (world F.state T.state H.state p.new) result }
    ensures count { IfOk result (λ count. count ≡ done + length (tabled wanted)) }
    ensures locks { (world F.state T.state H.state p.new).tpm.locks ≡ (world F.state T.state H.state p.old).tpm.locks }
    ensures flash { (world F.state T.state H.state p.new).flash ≡ (world F.state T.state H.state p.old).flash }
    ensures drives { WritesTable wanted gpt.old.table (world F.state T.state H.state p.old) (world F.state T.state H.state p.new) result }
{
    if !wanted {
        return Ok(done);
    }
    let Ok(()) = commit(&mut p.disk, gpt) else {
        return Err(Fault {
            device: Device::Disk,
            done,
        });
    };
    Ok(done + 1)
}

// Writes the kernel space, where it changes, after so many changes, and answers how many there are then.
fn write_kernel<F: Flash, T: Tpm, D: Disk, E: Disk, H: Hook>(
    p: &mut Platform<F, T, D, E, H>,
    change: &Option<KernelSpace>,
    done: u8,
) -> Result<u8, Fault>
    requires settled { IsSettled (world F.state T.state H.state p.old) }
    requires unlocked { is_locked space.Kernel (world F.state T.state H.state p.old).tpm.locks ≡ false }
    requires few { done ≤ 4 }
    ensures carried { (to : Targets) (state : NvState) → CarriesOut done to state (listed Kernel change.now)
        (world F.state T.state H.state p.old) (world F.state T.state H.state p.new) result }
    ensures count { IfOk result (λ count. count ≡ done + length (listed Kernel change.now)) }
    ensures locks { (world F.state T.state H.state p.new).tpm.locks ≡ (world F.state T.state H.state p.old).tpm.locks }
    ensures flash { (world F.state T.state H.state p.new).flash ≡ (world F.state T.state H.state p.old).flash }
    ensures drives { SameDrives (world F.state T.state H.state p.old) (world F.state T.state H.state p.new) }
{
    let Some(kernel) = change else {
        return Ok(done);
    };
    let Ok(_) = p.tpm.write(Space::Kernel, kernel.as_slice()) else {
        return Err(Fault {
            device: Device::Tpm,
            done,
        });
    };
    Ok(done + 1)
}

// Makes the first changes of a plan, which are the firmware space and the record, and answers how many they are.
fn make_first<F: Flash, T: Tpm, D: Disk, E: Disk, H: Hook>(
    p: &mut Platform<F, T, D, E, H>,
    found: &Found,
    state: &mut NvState,
    plan: &Plan,
) -> Result<u8, Fault>
    requires settled { IsSettled (world F.state T.state H.state p.old) }
    requires unlocked { is_locked space.Firmware (world F.state T.state H.state p.old).tpm.locks ≡ false }
    requires area { IsAreaIn (world F.state T.state H.state p.old).flash.medium.size found.now.map.nvram.at }
    requires state { IsTrue (world F.state T.state H.state p.old).flash.medium.told → IsStateOf found.now.map.nvram.at
        (world F.state T.state H.state p.old).flash.medium.bytes state.old }
    requires within { InRange state.old }
    ensures makes { (table : PartitionTable) → MakesFirst (to_of found.now table) state.old plan.now
        (world F.state T.state H.state p.old) (world F.state T.state H.state p.new) result }
    ensures count { IfOk result (λ count. count ≡ length (first_changes plan.now)) }
    ensures state { OnOk result (state.new ≡ fold state_with state.old (first_changes plan.now)) }
    ensures stands { IsTrue (world F.state T.state H.state p.old).flash.medium.told → OnOk result (IsStateOf found.now.map.nvram.at
        (world F.state T.state H.state p.new).flash.medium.bytes state.new) }
    ensures within { InRange state.new }
    ensures locks { (world F.state T.state H.state p.new).tpm.locks ≡ (world F.state T.state H.state p.old).tpm.locks }
{
    let first = write_firmware(p, &plan.firmware)?;
    store_record(p, found.map.nvram.at, state, &plan.nv, first)
}

// Makes the later changes of a plan, which are the table of the room, the kernel space and the last record, after so many changes,
// and answers how many there are then.
fn make_later<F: Flash, T: Tpm, D: Disk, E: Disk, H: Hook>(
    p: &mut Platform<F, T, D, E, H>,
    gpt: &mut GptRoom,
    area: u32,
    state: &mut NvState,
    plan: &Plan,
    done: u8,
) -> Result<u8, Fault>
    requires settled { IsSettled (world F.state T.state H.state p.old) }
    requires unlocked { is_locked space.Kernel (world F.state T.state H.state p.old).tpm.locks ≡ false }
    requires area { IsAreaIn (world F.state T.state H.state p.old).flash.medium.size area }
    requires state { IsTrue (world F.state T.state H.state p.old).flash.medium.told → IsStateOf area
        (world F.state T.state H.state p.old).flash.medium.bytes state.old }
    requires within { InRange state.old }
    requires ready { plan.now.table ≡ true → CanCommit (world F.state T.state H.state p.old).disk gpt.old }
    requires few { done ≤ 2 }
    ensures makes { (table : PartitionTable) → (plan.now.table ≡ true → table ≡ gpt.old.table)
        → MakesLater done (record { area = area; table = table }) state.old plan.now
        (world F.state T.state H.state p.old) (world F.state T.state H.state p.new) result }
    ensures count { IfOk result (λ count. count ≡ done + length (later_changes plan.now)) }
    ensures locks { (world F.state T.state H.state p.new).tpm.locks ≡ (world F.state T.state H.state p.old).tpm.locks }
{
    let second = write_table(p, gpt, plan.table, done)?;
    let third = write_kernel(p, &plan.kernel, second)?;
    store_record(p, area, state, &plan.last, third)
}

/// Makes the changes of a plan, and answers how many they are. The table that is written is that of the room.
///
/// A `Fault` names the device of the change that failed, and the number of changes before it.
pub fn make_changes<F: Flash, T: Tpm, D: Disk, E: Disk, H: Hook>(
    p: &mut Platform<F, T, D, E, H>,
    gpt: &mut GptRoom,
    found: &Found,
    plan: &Plan,
) -> Result<u8, Fault>
    requires settled { IsSettled (world F.state T.state H.state p.old) }
    requires unlocked { (world F.state T.state H.state p.old).tpm.locks ≡ unlocked }
    requires area { IsAreaIn (world F.state T.state H.state p.old).flash.medium.size found.now.map.nvram.at }
    requires state { IsTrue (world F.state T.state H.state p.old).flash.medium.told → IsStateOf found.now.map.nvram.at
        (world F.state T.state H.state p.old).flash.medium.bytes found.now.state }
    requires within { InRange found.now.state }
    requires ready { plan.now.table ≡ true → CanCommit (world F.state T.state H.state p.old).disk gpt.old }
    requires alike { IsOfOneForm plan.now }
    ensures makes { (table : PartitionTable) → (plan.now.table ≡ true → table ≡ gpt.old.table)
        → Makes table found.now plan.now (world F.state T.state H.state p.old) (world F.state T.state H.state p.new) result }
    ensures count { IfOk result (λ count. count ≡ length (changes_of plan.now)) }
    ensures locks { (world F.state T.state H.state p.new).tpm.locks ≡ (world F.state T.state H.state p.old).tpm.locks }
{
    let mut state = found.state;
    let done = make_first(p, found, &mut state, plan)?;
    make_later(p, gpt, found.map.nvram.at, &mut state, plan, done)
}
