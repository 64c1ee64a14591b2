// The check of a whole slot.
ghost use Rattle.std.specs.Prelude.{◌≡◌, ◌+◌, ◌≤◌, drop, length, vec_capacity};
ghost use Rattle.chain_core.specs.Slot.{slot_question, VerifiesSlot};

use crate::body::{BodyPlace, verify_flash_body};
use crate::fault::Failure;
use crate::keyblock::verify_keyblock;
use crate::preamble::{combined_version, verify_preamble};
use crate::room::{LARGEST_MAIN, LARGEST_VBLOCK, SlotRoom};
use crate::slot_fault::{SlotFault, SlotOk};
use board_core::{Failed, Flash, Hook};
use key_core::{PackedKey, pack};
use rom_core::Area;

/// What is asked of a slot: its two areas, the stored version word, and whether it is looked at.
#[derive(Clone, Copy, Debug)]
pub struct SlotRequest {
    /// The area that keyblock and preamble stand in.
    pub vblock: Area,
    /// The area that the body stands in.
    pub main: Area,
    /// The stored version word: the key's version in the upper 16 bits, and the firmware's in the lower 16.
    pub stored: u32,
    /// Whether versions are compared with the stored ones.
    pub rollback: bool,
}

// The bytes from a place on.
fn behind(bytes: &[u8], at: u32) -> &[u8]
    requires { at ≤ length bytes.now }
    ensures { result.now ≡ drop at bytes.now }
{
    &bytes[at as usize..]
}

// Verifies the slot of which keyblock and preamble are read into `head`, and the body into `body`.
fn check_slot<F: Flash, H: Hook>(
    flash: &mut F,
    hook: &mut H,
    root: &PackedKey,
    request: SlotRequest,
    head: &mut [u8],
    body: &mut Vec<u8>,
) -> Result<Result<SlotOk, SlotFault>, Failure>
    requires vblock_inside { request.vblock.at + request.vblock.size ≤ (F.state flash.old).medium.size }
    requires main_inside { request.main.at + request.main.size ≤ (F.state flash.old).medium.size }
    requires head { length head.old ≡ request.vblock.size }
    requires room { request.main.size ≤ vec_capacity body.old }
    ensures meets { VerifiesSlot (slot_question root.now request (F.state flash.old) (H.state hook.old))
        (F.state flash.old) (F.state flash.new) (H.state hook.old) (H.state hook.new) body.new.items result }
    ensures capacity { vec_capacity body.old ≤ vec_capacity body.new }
{
    if flash.read(request.vblock.at, head).is_err() {
        return Err(Failure::Store);
    }
    let keyblock = match verify_keyblock(hook, root, head, request.stored, request.rollback) {
        Ok(Ok(keyblock)) => keyblock,
        Ok(Err(fault)) => return Ok(Err(SlotFault::Keyblock(fault))),
        Err(Failed) => return Err(Failure::Hook),
    };
    let key = pack(&keyblock.data_key());
    let rest = behind(head, keyblock.size());
    let preamble = match verify_preamble(hook, &key, rest, request.stored, request.rollback) {
        Ok(Ok(preamble)) => preamble,
        Ok(Err(fault)) => return Ok(Err(SlotFault::Preamble(fault))),
        Err(Failed) => return Err(Failure::Hook),
    };
    let common = preamble.common();
    let body_len = common.body_len();
    match verify_flash_body(
        flash,
        hook,
        &key,
        common.body_signature(),
        BodyPlace {
            area: request.main,
            len: body_len,
        },
        body,
    ) {
        Ok(None) => Ok(Ok(SlotOk {
            version: combined_version(key.version, common.version()),
            body_len,
            subkey: pack(&preamble.subkey()),
        })),
        Ok(Some(fault)) => Ok(Err(SlotFault::Body(fault))),
        Err(failure) => Err(failure),
    }
}

// The same, with room for the largest area of keyblock and preamble.
fn check_in_room<F: Flash, H: Hook>(
    flash: &mut F,
    hook: &mut H,
    root: &PackedKey,
    request: SlotRequest,
    room: &mut Vec<u8>,
    body: &mut Vec<u8>,
) -> Result<Result<SlotOk, SlotFault>, Failure>
    requires vblock_inside { request.vblock.at + request.vblock.size ≤ (F.state flash.old).medium.size }
    requires main_inside { request.main.at + request.main.size ≤ (F.state flash.old).medium.size }
    requires head { request.vblock.size ≤ length room.old.items }
    requires room { request.main.size ≤ vec_capacity body.old }
    ensures meets { VerifiesSlot (slot_question root.now request (F.state flash.old) (H.state hook.old))
        (F.state flash.old) (F.state flash.new) (H.state hook.old) (H.state hook.new) body.new.items result }
    ensures same_length { length room.new.items ≡ length room.old.items }
    ensures capacity { vec_capacity body.old ≤ vec_capacity body.new }
{
    let head = &mut room[..request.vblock.size as usize];
    check_slot(flash, hook, root, request, head, body)
}

/// Verifies the slot of which keyblock and preamble stand in one area of the flash and the body in another: `root` is to have
/// signed the keyblock, and the keyblock's data key the preamble and the body. The stored version word is looked at only where
/// the request says so. The areas are those of a map without a fault.
///
/// The first area is read with one call, and the body in pieces of at most 65,536 bytes, each hashed as it comes. Of a good
/// slot the room hands out the body. No memory is taken, and flash and hook keep their content.
///
/// A `SlotFault` is the first line whose test holds, of the keyblock table, then of the firmware preamble table, then of the
/// body table. `Failure`: the flash or the hook failed, and its count of faults rose; then nothing else was decided.
pub fn verify_slot<F: Flash, H: Hook>(
    flash: &mut F,
    hook: &mut H,
    root: &PackedKey,
    request: SlotRequest,
    room: &mut SlotRoom,
) -> Result<Result<SlotOk, SlotFault>, Failure>
    requires vblock_inside { request.vblock.at + request.vblock.size ≤ (F.state flash.old).medium.size }
    requires vblock_size { request.vblock.size ≤ LARGEST_VBLOCK }
    requires main_inside { request.main.at + request.main.size ≤ (F.state flash.old).medium.size }
    requires main_size { request.main.size ≤ LARGEST_MAIN }
    ensures meets { VerifiesSlot (slot_question root.now request (F.state flash.old) (H.state hook.old))
        (F.state flash.old) (F.state flash.new) (H.state hook.old) (H.state hook.new) room.new result }
{
    let head = &mut room.vblock;
    check_in_room(flash, hook, root, request, head, &mut room.body)
}
