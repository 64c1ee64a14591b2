// The rows of the plan of a boot: from what was found and seen, the outcome and the changes, before anything is changed. Constants
// are recovery reasons, subcodes of a screen, and a flag of the firmware space.
ghost use Rattle.std.specs.Prelude.{◌≡◌, IfSome, None};
ghost use Rattle.fwsel_core.specs.Selection.{selection_of};
ghost use Rattle.boot_core.specs.Facts as facts;
ghost use Rattle.boot_core.specs.Plan as spec;
ghost use Rattle.boot_core.specs.Spaces.{RaisesVersion, RaisesKernel, firmware_kept, firmware_stored_after, kernel_kept};
ghost use Rattle.walk_core.specs.Seen as seen_spec;

use crate::found::Found;
use crate::outcome::{Hand, Outcome};
use crate::spaces::{
    booted, disables_dev, enabled, enabling_change, firmware_stored, firmware_stored_after,
    flags_change, is_trying, kernel_change, kernel_stored, kernel_stored_after, screened,
    second_change, version_change,
};
use crate::switches::Switches;
use board_core::Drive;
use chain_core::{SlotFault, SlotOk};
use fwsel_core::{ModeFacts, Selection, fail};
use kernel_core::BootMode;
use record_core::{FwSpace, KernelSpace, Nv, SpaceFault};
use rom_core::{Gbb, GbbFault};
use walk_core::{Kernel, Seen, Walked};

const REASON_MANUAL: u8 = 2;

const REASON_NO_TABLE: u8 = 30;

const REASON_NO_KERNEL: u8 = 31;

const REASON_NO_EXTERNAL: u8 = 32;

const NO_TABLE: u8 = 1;

const NO_KERNEL: u8 = 2;

const DEVELOPER_MODE: u8 = 0x02;

/// The outcome of a boot and its changes, in their order. A change that would change nothing is left out.
#[derive(Clone, Copy, Debug)]
pub struct Plan {
    /// What the boot comes to.
    pub outcome: Outcome,
    /// The firmware space that is to be written.
    pub firmware: Option<FwSpace>,
    /// The nvdata record that is to be stored.
    pub nv: Option<Nv>,
    /// Whether the table of the room is to be written into both copies of the disk.
    pub table: bool,
    /// The kernel space that is to be written.
    pub kernel: Option<KernelSpace>,
    /// The nvdata record that is to be stored last.
    pub last: Option<Nv>,
}

// ---- what the mode is decided from

/// What the mode of a boot is decided from.
pub fn facts_of(sw: Switches, found: &Found) -> ModeFacts
    ensures { result ≡ facts.facts_of sw found.now }
{
    ModeFacts {
        recovery: sw.recovery,
        gbb: flags_of_gbb(&found.gbb),
        firmware: flags_or_fault(&found.firmware),
        kernel: fault_of_kernel(&found.kernel),
        nv: found.state.nv,
    }
}

fn flags_of_gbb(gbb: &Result<Gbb, GbbFault>) -> Result<u32, u8>
    ensures { result ≡ facts.gbb_fact gbb.now }
{
    match gbb {
        Ok(gbb) => Ok(gbb.flags),
        Err(fault) => Err(fault.number()),
    }
}

fn flags_or_fault(space: &Result<FwSpace, SpaceFault>) -> Result<u8, u8>
    ensures { result ≡ facts.flags_fact space.now }
{
    match space {
        Ok(space) => Ok(space.flags()),
        Err(fault) => Err(fault.number()),
    }
}

fn fault_of_kernel(space: &Result<KernelSpace, SpaceFault>) -> Option<u8>
    ensures { result ≡ facts.kernel_fact space.now }
{
    match space {
        Ok(_) => None,
        Err(fault) => Some(fault.number()),
    }
}

// ---- without a good slot

// A plan that changes the record alone.
fn record_plan(outcome: Outcome, nv: Option<Nv>) -> Plan
    ensures { result ≡ spec.record_plan outcome nv }
{
    Plan {
        outcome,
        firmware: None,
        nv,
        table: false,
        kernel: None,
        last: None,
    }
}

/// The plan of a boot that ends at a screen: the request for it is taken back.
pub fn screen_plan(found: &Found, reason: u8, subcode: u8) -> Plan
    ensures { result ≡ spec.screen_plan_of found.now reason subcode }
{
    let next = screened(&found.state.nv);
    record_plan(
        Outcome::Screen { reason, subcode },
        found.state.change_to(&next),
    )
}

/// The plan of a boot whose slot was selected so and has a fault.
pub fn reboot_plan(found: &Found, developer: bool, selection: Selection, fault: &SlotFault) -> Plan
    requires { selection ≡ selection_of found.now.state.nv }
    ensures plan { result ≡ spec.reboot_plan_of found.now developer fault.now }
    ensures version { IfSome result.firmware (RaisesVersion found.now.firmware) }
{
    let disable_dev = disables_dev(&found.state.nv);
    let reason = fault.reason();
    let subcode = fault.subcode();
    let mut next = booted(&found.state.nv);
    let requested = fail(&mut next, Some(selection), reason, subcode);
    Plan {
        outcome: Outcome::Reboot {
            reason,
            subcode,
            requested,
        },
        firmware: flags_change(&found.firmware, developer, disable_dev),
        nv: found.state.change_to(&next),
        table: false,
        kernel: None,
        last: None,
    }
}

// ---- with a good slot

/// A slot that was selected and found good, and the mode that boots it.
#[derive(Clone, Copy, Debug)]
pub struct GoodSlot {
    /// Whether it is booted in developer mode.
    pub developer: bool,
    /// What the record selects.
    pub selection: Selection,
    /// What the check of the slot found.
    pub ok: SlotOk,
}

/// The mode of a boot that goes on with a slot.
pub fn boot_mode_of(developer: bool) -> BootMode
    ensures { result ≡ spec.boot_mode_of developer }
{
    if developer {
        BootMode::Developer
    } else {
        BootMode::Normal
    }
}

// This plan with what a good slot changes before it: the firmware space and the record.
fn good_plan(found: &Found, slot: &GoodSlot, later: Plan) -> Plan
    requires { slot.now.selection ≡ selection_of found.now.state.nv }
    ensures plan { result ≡ spec.good_plan_of found.now slot.now.developer slot.now.ok later.outcome later.table later.kernel later.last }
    ensures version { IfSome result.firmware (RaisesVersion found.now.firmware) }
    ensures kept { firmware_kept found.now.firmware result.firmware
        ≡ firmware_stored_after found.now.firmware found.now.state.nv (selection_of found.now.state.nv) slot.now.ok.version }
{
    Plan {
        firmware: version_change(
            &found.firmware,
            slot.developer,
            &found.state.nv,
            slot.selection,
            slot.ok.version,
        ),
        nv: found.state.change_to(&booted(&found.state.nv)),
        ..later
    }
}

// What is handed over: the firmware of the slot, and this kernel.
fn hand_of(
    found: &Found,
    slot: &GoodSlot,
    drive: Drive,
    kernel: &Kernel,
    stored_kernel: Option<u32>,
) -> Hand
    requires { slot.now.selection ≡ selection_of found.now.state.nv }
    ensures { result ≡ spec.hand_of found.now slot.now.developer slot.now.ok drive kernel.now stored_kernel }
{
    let version = slot.ok.version;
    Hand {
        mode: boot_mode_of(slot.developer),
        drive,
        slot: Some(slot.selection.slot),
        fw_version: version,
        fw_len: slot.ok.body_len,
        partition: kernel.partition,
        kernel_version: kernel.version,
        kernel_len: kernel.body_len,
        load_address: kernel.load_address,
        stored_fw: firmware_stored_after(&found.firmware, &found.state.nv, slot.selection, version),
        stored_kernel,
    }
}

/// The plan of a boot with a good slot, by what is seen on its drive.
pub fn drive_plan(found: &Found, slot: &GoodSlot, drive: Drive, seen: &Seen) -> Plan
    requires { slot.now.selection ≡ selection_of found.now.state.nv }
    ensures plan { result ≡ spec.drive_plan_of found.now slot.now.developer slot.now.ok drive seen.now }
    ensures version { IfSome result.firmware (RaisesVersion found.now.firmware) }
    ensures kernel { IfSome result.kernel (RaisesKernel found.now.kernel) }
    ensures stored { spec.TellsStored found.now result }
{
    match drive {
        Drive::Stick => stick_plan(found, slot, seen),
        Drive::Disk => match seen {
            Seen::NoTable => failed_plan(found, slot, REASON_NO_TABLE, false),
            Seen::Table { walked, changed } => disk_plan(found, slot, walked, *changed),
        },
    }
}

// Nothing is written to a stick.
fn stick_plan(found: &Found, slot: &GoodSlot, seen: &Seen) -> Plan
    requires { slot.now.selection ≡ selection_of found.now.state.nv }
    ensures plan { result ≡ spec.stick_plan_of found.now slot.now.developer slot.now.ok (spec.missing_subcode seen.now)
        (seen_spec.kernel_of seen.now) }
    ensures version { IfSome result.firmware (RaisesVersion found.now.firmware) }
    ensures kernel { IfSome result.kernel (RaisesKernel found.now.kernel) }
    ensures stored { spec.TellsStored found.now result }
{
    let outcome = match kernel_of(seen) {
        Some(kernel) => {
            let stored = kernel_stored(&found.kernel);
            Outcome::HandOver(hand_of(found, slot, Drive::Stick, &kernel, stored))
        }
        None => Outcome::Screen {
            reason: REASON_NO_EXTERNAL,
            subcode: missing_subcode(seen),
        },
    };
    good_plan(found, slot, record_plan(outcome, None))
}

// The disk cannot be booted: after the record of the attempt comes that of its failure.
fn failed_plan(found: &Found, slot: &GoodSlot, reason: u8, table: bool) -> Plan
    requires selected { slot.now.selection ≡ selection_of found.now.state.nv }
    requires some { reason ≡ 0 → ⊥ }
    ensures plan { result ≡ spec.failed_plan_of found.now slot.now.developer slot.now.ok reason table }
    ensures version { IfSome result.firmware (RaisesVersion found.now.firmware) }
    ensures kernel { IfSome result.kernel (RaisesKernel found.now.kernel) }
    ensures stored { spec.TellsStored found.now result }
{
    let first = booted(&found.state.nv);
    let mut second = first;
    let requested = fail(&mut second, Some(slot.selection), reason, 0);
    let outcome = Outcome::Reboot {
        reason,
        subcode: 0,
        requested,
    };
    good_plan(
        found,
        slot,
        Plan {
            table,
            last: second_change(&first, &second),
            ..record_plan(outcome, None)
        },
    )
}

// By the walk over the kernels of the disk.
fn disk_plan(found: &Found, slot: &GoodSlot, walked: &Walked, changed: bool) -> Plan
    requires { slot.now.selection ≡ selection_of found.now.state.nv }
    ensures plan { result ≡ spec.disk_plan_of found.now slot.now.developer slot.now.ok walked.now.chosen walked.now.lowest changed }
    ensures version { IfSome result.firmware (RaisesVersion found.now.firmware) }
    ensures kernel { IfSome result.kernel (RaisesKernel found.now.kernel) }
    ensures stored { spec.TellsStored found.now result }
{
    let Some(kernel) = &walked.chosen else {
        return failed_plan(found, slot, REASON_NO_KERNEL, changed);
    };
    let on_trial = is_trying(&booted(&found.state.nv));
    let stored = kernel_stored_after(&found.kernel, &found.state.nv, on_trial, walked.lowest);
    let hand = hand_of(found, slot, Drive::Disk, kernel, stored);
    good_plan(
        found,
        slot,
        Plan {
            table: changed,
            kernel: kernel_change(&found.kernel, &found.state.nv, on_trial, walked.lowest),
            ..record_plan(Outcome::HandOver(hand), None)
        },
    )
}

// ---- a recovery by hand

/// Whether developer mode is asked for, and is off.
pub fn enables_dev(sw: Switches, space: &Result<FwSpace, SpaceFault>) -> bool
    ensures { result ≡ spec.enables_dev sw space.now }
{
    match space {
        Ok(space) => sw.enable_dev && space.flags() & DEVELOPER_MODE == 0,
        Err(_) => false,
    }
}

/// The plan of a recovery in which developer mode is switched on.
pub fn enabling_plan(found: &Found) -> Plan
    ensures plan { result ≡ spec.enabling_plan_of found.now }
    ensures version { IfSome result.firmware (RaisesVersion found.now.firmware) }
{
    Plan {
        outcome: Outcome::DevEnabled,
        firmware: enabling_change(&found.firmware),
        nv: found.state.change_to(&enabled(&found.state.nv)),
        table: false,
        kernel: None,
        last: None,
    }
}

/// The plan of another recovery, by what is seen on the stick.
pub fn recovery_plan(found: &Found, seen: &Seen) -> Plan
    ensures plan { result ≡ spec.recovery_plan_of found.now seen.now }
    ensures stored { spec.TellsStored found.now result }
{
    let outcome = match kernel_of(seen) {
        Some(kernel) => Outcome::HandOver(recovery_hand(found, &kernel)),
        None => Outcome::Screen {
            reason: REASON_MANUAL,
            subcode: missing_subcode(seen),
        },
    };
    let next = screened(&found.state.nv);
    record_plan(outcome, found.state.change_to(&next))
}

// What is handed over in a recovery: a kernel of the stick, and no firmware.
fn recovery_hand(found: &Found, kernel: &Kernel) -> Hand
    ensures hand { result ≡ spec.recovery_hand_of found.now kernel.now }
    ensures stored { (result.stored_fw ≡ firmware_kept found.now.firmware None) × (result.stored_kernel ≡ kernel_kept found.now.kernel None) }
{
    Hand {
        mode: BootMode::Recovery,
        drive: Drive::Stick,
        slot: None,
        fw_version: 0,
        fw_len: 0,
        partition: kernel.partition,
        kernel_version: kernel.version,
        kernel_len: kernel.body_len,
        load_address: kernel.load_address,
        stored_fw: firmware_stored(&found.firmware),
        stored_kernel: kernel_stored(&found.kernel),
    }
}

// ---- what is seen

fn kernel_of(seen: &Seen) -> Option<Kernel>
    ensures { result ≡ seen_spec.kernel_of seen.now }
{
    match seen {
        Seen::NoTable => None,
        Seen::Table { walked, .. } => walked.chosen,
    }
}

// Why a stick is not booted.
fn missing_subcode(seen: &Seen) -> u8
    ensures { result ≡ spec.missing_subcode seen.now }
{
    match seen {
        Seen::NoTable => NO_TABLE,
        Seen::Table { .. } => NO_KERNEL,
    }
}
