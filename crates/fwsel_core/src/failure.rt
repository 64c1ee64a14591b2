// A boot attempt that failed: the other slot is to be tried next, or a recovery is asked for.
ghost use Rattle.std.specs.Prelude.{◌≡◌, Some, if◌then◌else◌};
ghost use Rattle.fwsel_core.specs.Failure.{both_failed, is_unasked, with_request, noted_record, asks_for_recovery, failed_record};

use crate::selection::Selection;
use record_core::{Nv, NvField};

// The result of a boot that failed, in the record's field `Result`.
const FAILURE: u8 = 3;

/// Notes in the record that a boot attempt failed, with the reason for a recovery and its subcode, and answers whether a
/// recovery is asked for from now on.
///
/// Where a slot was selected, its result is failure, no try is left, and the other slot is to be tried next. A recovery is asked
/// for where no slot was selected, or where the boot before tried the other slot and failed too; unless the record asks for one
/// already, whose reason and subcode stay. The reason is not 0. It has no refusal.
/// Source: `vb2api_fail` of vboot_reference.
pub fn fail(nv: &mut Nv, selection: Option<Selection>, reason: u8, subcode: u8) -> bool
    requires { reason ≡ 0 → ⊥ }
    ensures requested { result ≡ asks_for_recovery selection nv.old }
    ensures record_after { nv.new ≡ failed_record selection reason subcode nv.old }
{
    let Some(selection) = selection else {
        return request(nv, reason, subcode);
    };
    note_failure(nv, selection);
    failed_twice(selection) && request(nv, reason, subcode)
}

// Notes that the selected slot failed.
fn note_failure(nv: &mut Nv, selection: Selection)
    ensures { nv.new ≡ noted_record (Some selection) nv.old }
{
    nv.set(NvField::Result, FAILURE);
    nv.set(NvField::TryCount, 0);
    nv.set(NvField::TryNext, selection.slot.other().number());
}

// Whether the boot before tried the other slot and failed too.
fn failed_twice(selection: Selection) -> bool
    ensures { result ≡ both_failed selection }
{
    let other = selection.slot.other();
    selection.last_slot.number() == other.number() && selection.last_result == FAILURE
}

// Asks for a recovery, unless one is asked for already, and answers whether it did.
fn request(nv: &mut Nv, reason: u8, subcode: u8) -> bool
    ensures requested { result ≡ is_unasked nv.old }
    ensures record_after { nv.new ≡ (if is_unasked nv.old then with_request nv.old reason subcode else nv.old) }
{
    if nv.get(NvField::RecoveryRequest) != 0 {
        return false;
    }
    nv.set(NvField::RecoveryRequest, reason);
    nv.set(NvField::RecoverySubcode, subcode);
    true
}
