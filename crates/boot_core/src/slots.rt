// The firmware slot that a boot verifies. The constant is a flag of the GBB.
ghost use Rattle.std.specs.Prelude.{◌≡◌};
ghost use Rattle.board_core.specs.World.{world};
ghost use Rattle.rom_core.specs.MapFits.{FitsFlash};
ghost use Rattle.boot_core.specs.Slots.{vblock_of, main_of, no_key, root_of, stored_of, checks_versions};
ghost use Rattle.boot_core.specs.Steps.{ChecksSlot};

use crate::found::Found;
use crate::reading::fault_of;
use crate::room::Room;
use board_core::{Device, Disk, Fault, Flash, Hook, Platform, Tpm};
use chain_core::{Failure, SlotFault, SlotOk, SlotRequest, verify_slot};
use fwsel_core::Slot;
use key_core::{LARGEST_KEY, PackedKey};
use record_core::{FwSpace, SpaceFault};
use rom_core::{Area, Gbb, GbbFault, Map};

const GBB_NO_ROLLBACK_CHECK: u32 = 0x20;

/// Verifies a slot of a board, in which nothing is changed. Of a good slot the room hands out the body.
///
/// A `SlotFault` is the first line whose test holds, of the tables of keyblock, preamble and body. A `Fault` is one of the flash
/// or of the hook, before any change.
pub fn check_slot<F: Flash, T: Tpm, D: Disk, E: Disk, H: Hook>(
    p: &mut Platform<F, T, D, E, H>,
    room: &mut Room,
    found: &Found,
    slot: Slot,
) -> Result<Result<SlotOk, SlotFault>, Fault>
    requires { FitsFlash (world F.state T.state H.state p.old).flash.medium.size found.now.map }
    ensures { ChecksSlot found.now slot (world F.state T.state H.state p.old) (world F.state T.state H.state p.new) room.new.slot result }
{
    let root = root_of(&found.gbb);
    let stored = stored_of(&found.firmware);
    let rollback = checks_versions(&found.gbb);
    let vblock = vblock_of(&found.map, slot);
    let main = main_of(&found.map, slot);
    let request = SlotRequest {
        vblock,
        main,
        stored,
        rollback,
    };
    match verify_slot(&mut p.flash, &mut p.hook, &root, request, &mut room.slot) {
        Ok(answer) => Ok(answer),
        Err(Failure::Store) => Err(fault_of(Device::Flash)),
        Err(Failure::Hook) => Err(fault_of(Device::Hook)),
    }
}

// The root key; a key of no bytes, which signs nothing, where the GBB has a fault.
fn root_of(gbb: &Result<Gbb, GbbFault>) -> PackedKey
    ensures { result ≡ root_of gbb.now }
{
    match gbb {
        Ok(gbb) => gbb.root,
        Err(_) => no_key(),
    }
}

/// A key of no bytes, which signs nothing.
pub fn no_key() -> PackedKey
    ensures { result ≡ no_key }
{
    PackedKey {
        algorithm: 0,
        version: 0,
        size: 0,
        bytes: [0; LARGEST_KEY],
    }
}

// Whether the version of a slot is compared with the stored one.
fn checks_versions(gbb: &Result<Gbb, GbbFault>) -> bool
    ensures { result ≡ checks_versions gbb.now }
{
    match gbb {
        Ok(gbb) => gbb.flags & GBB_NO_ROLLBACK_CHECK == 0,
        Err(_) => true,
    }
}

// The stored version word of the firmware.
fn stored_of(space: &Result<FwSpace, SpaceFault>) -> u32
    ensures { result ≡ stored_of space.now }
{
    match space {
        Ok(space) => space.versions(),
        Err(_) => 0,
    }
}

// The area of a slot's keyblock and preamble.
fn vblock_of(map: &Map, slot: Slot) -> Area
    ensures { result ≡ vblock_of slot map.now }
{
    match slot {
        Slot::A => map.vblock_a,
        Slot::B => map.vblock_b,
    }
}

// The area of a slot's body.
fn main_of(map: &Map, slot: Slot) -> Area
    ensures { result ≡ main_of slot map.now }
{
    match slot {
        Slot::A => map.main_a,
        Slot::B => map.main_b,
    }
}
