// Selection of a firmware slot: which one this boot tries, and what the record says of it afterwards.
ghost use Rattle.std.specs.Prelude.{◌≡◌, ◌==◌, ◌&&◌};
ghost use Rattle.record_core.specs.declared.field.NvField.{NvField};
ghost use Rattle.record_core.specs.Field.{field_of};
ghost use Rattle.fwsel_core.specs.Selection.{slot_to_try, selection_of, selected_record, selected_value};

use crate::slot::Slot;
use record_core::{Nv, NvField};

// Results of a boot in the record's fields `Result` and `PrevResult`.
const UNKNOWN: u8 = 0;

const TRYING: u8 = 1;

/// What a selection answers.
#[derive(Clone, Copy, Debug, PartialEq, Eq)]
pub struct Selection {
    /// The slot that this boot tries.
    pub slot: Slot,
    /// The slot of the last boot.
    pub last_slot: Slot,
    /// The result of the last boot: 0 unknown, 1 trying, 2 success, 3 failure.
    pub last_result: u8,
}

/// Selects the firmware slot of this boot and notes it in the record. It has no refusal.
/// Source: `vb2_select_fw_slot` of vboot_reference.
pub fn select(nv: &mut Nv) -> Selection
    ensures selection { result ≡ selection_of nv.old }
    ensures record_after { nv.new ≡ selected_record nv.old }
    ensures each_field { (f : NvField) → field_of nv.new f ≡ selected_value nv.old f }
{
    let last_slot = nv.get(NvField::Tried);
    let last_result = nv.get(NvField::Result);
    let tries = nv.get(NvField::TryCount);
    let next = nv.get(NvField::TryNext);
    let slot = choose(last_slot, last_result, tries, next);
    nv.set(NvField::PrevTried, last_slot);
    nv.set(NvField::PrevResult, last_result);
    nv.set(NvField::Result, if 0 < tries { TRYING } else { UNKNOWN });
    nv.set(NvField::TryCount, tries.saturating_sub(1));
    nv.set(NvField::TryNext, slot.number());
    nv.set(NvField::Tried, slot.number());
    Selection {
        slot,
        last_slot: Slot::from_number(last_slot),
        last_result,
    }
}

// The slot to try next, but the other one where its tries have run out.
fn choose(last_slot: u8, last_result: u8, tries: u8, next: u8) -> Slot
    ensures { result ≡ slot_to_try ((last_result == 1) && (last_slot == next) && (tries == 0)) next }
{
    let slot = Slot::from_number(next);
    if last_result == TRYING && last_slot == next && tries == 0 {
        return slot.other();
    }
    slot
}
