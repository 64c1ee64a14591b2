// What a boot makes of the nvdata record and of both spaces of the TPM. A change that would change nothing is none. Constants are
// flags of the firmware space, and results of a boot in the record.
ghost use Rattle.std.specs.Prelude.{◌≡◌, ◌≤◌, IfSome, None};
ghost use Rattle.record_core.specs.Space.{stored_firmware_version, stored_kernel_version};
ghost use Rattle.boot_core.specs.Spaces as spec;
ghost use Rattle.boot_core.specs.Spaces.{RaisesVersion, RaisesKernel};

use fwsel_core::{Selection, boot_flags, select};
use record_core::{Ceiling, FwSpace, KernelSpace, Nv, NvField, SpaceFault};

const SUCCESS: u8 = 2;

const TRYING: u8 = 1;

const DEVELOPER_MODE: u8 = 0x02;

// ---- the record

/// The record that a boot leaves which goes on with a slot: the selected one, and developer mode is no longer to be switched off.
pub fn booted(nv: &Nv) -> Nv
    ensures { result ≡ spec.booted_record nv.now }
{
    let mut next = *nv;
    select(&mut next);
    next.set(NvField::DisableDev, 0);
    next
}

/// The record in which a request for a recovery is taken back.
pub fn screened(nv: &Nv) -> Nv
    ensures { result ≡ spec.screened_record nv.now }
{
    let mut next = *nv;
    next.set(NvField::RecoveryRequest, 0);
    next.set(NvField::RecoverySubcode, 0);
    next
}

/// The same, and developer mode is not to be switched off.
pub fn enabled(nv: &Nv) -> Nv
    ensures { result ≡ spec.enabled_record nv.now }
{
    let mut next = screened(nv);
    next.set(NvField::DisableDev, 0);
    next
}

/// Whether the record says that developer mode is to be switched off.
pub fn disables_dev(nv: &Nv) -> bool
    ensures { result ≡ spec.disables_dev nv.now }
{
    nv.get(NvField::DisableDev) != 0
}

/// Whether the record says that the slot is on trial.
pub fn is_trying(nv: &Nv) -> bool
    ensures { result ≡ spec.is_trying nv.now }
{
    nv.get(NvField::Result) == TRYING
}

/// The second record, where it is another one than the first, which stands by then.
pub fn second_change(first: &Nv, second: &Nv) -> Option<Nv>
    ensures { result ≡ spec.second_change first.now second.now }
{
    if second.as_slice() == first.as_slice() {
        None
    } else {
        Some(*second)
    }
}

// ---- the firmware space

/// The firmware space with the flags after a boot, where it differs.
pub fn flags_change(
    space: &Result<FwSpace, SpaceFault>,
    developer: bool,
    disable_dev: bool,
) -> Option<FwSpace>
    ensures change { result ≡ spec.flags_change space.now developer disable_dev }
    ensures version { IfSome result (RaisesVersion space.now) }
{
    let Ok(old) = space else {
        return None;
    };
    space_change(old, with_flags(old, developer, disable_dev))
}

/// The firmware space with flags and version after a good slot, where it differs. The version rises to the ceiling of the record at
/// most.
pub fn version_change(
    space: &Result<FwSpace, SpaceFault>,
    developer: bool,
    nv: &Nv,
    selection: Selection,
    version: u32,
) -> Option<FwSpace>
    ensures change { result ≡ spec.version_change space.now developer nv.now selection version }
    ensures kept { spec.firmware_kept space.now result ≡ spec.firmware_stored_after space.now nv.now selection version }
    ensures version { IfSome result (RaisesVersion space.now) }
{
    let Ok(old) = space else {
        return None;
    };
    let mut new = with_flags(old, developer, disables_dev(nv));
    new.set_versions(new_firmware_version(nv, selection, old.versions(), version));
    space_change(old, new)
}

/// The firmware space with developer mode on, where it was off.
pub fn enabling_change(space: &Result<FwSpace, SpaceFault>) -> Option<FwSpace>
    ensures change { result ≡ spec.enabling_change space.now }
    ensures version { IfSome result (RaisesVersion space.now) }
{
    let Ok(old) = space else {
        return None;
    };
    let mut new = *old;
    new.set_flags(old.flags() | DEVELOPER_MODE);
    space_change(old, new)
}

/// The version of the firmware that is stored in a space, or none where it has a fault.
pub fn firmware_stored(space: &Result<FwSpace, SpaceFault>) -> Option<u32>
    ensures is { result ≡ spec.firmware_stored space.now }
    ensures kept { spec.firmware_kept space.now None ≡ result }
{
    match space {
        Ok(space) => Some(space.versions()),
        Err(_) => None,
    }
}

/// The one that is stored after a good slot of this version.
pub fn firmware_stored_after(
    space: &Result<FwSpace, SpaceFault>,
    nv: &Nv,
    selection: Selection,
    version: u32,
) -> Option<u32>
    ensures { result ≡ spec.firmware_stored_after space.now nv.now selection version }
{
    match space {
        Ok(space) => Some(new_firmware_version(nv, selection, space.versions(), version)),
        Err(_) => None,
    }
}

// The space with the flags after a boot.
fn with_flags(old: &FwSpace, developer: bool, disable_dev: bool) -> FwSpace
    ensures bytes { result ≡ spec.booted_firmware old.now developer disable_dev }
    ensures stored { stored_firmware_version result ≡ stored_firmware_version old.now }
{
    let mut new = *old;
    new.set_flags(boot_flags(old.flags(), developer, disable_dev));
    new
}

// The stored version after a good slot of this version, by the ceiling of the record.
fn new_firmware_version(nv: &Nv, selection: Selection, stored: u32, version: u32) -> u32
    ensures is { result ≡ spec.new_firmware_version nv.now selection stored version }
    ensures no_lower { stored ≤ result }
{
    let rise = if stored < version && has_succeeded(selection) {
        version
    } else {
        stored
    };
    capped(stored, rise, nv.ceiling(Ceiling::Firmware))
}

// The greater of the stored version and the lesser of its rise and a ceiling.
fn capped(stored: u32, rise: u32, ceiling: u32) -> u32
    ensures is { result ≡ spec.capped stored rise ceiling }
    ensures no_lower { stored ≤ result }
{
    stored.max(rise.min(ceiling))
}

// Whether the boot before tried the same slot and came to its end.
fn has_succeeded(selection: Selection) -> bool
    ensures { result ≡ spec.has_succeeded selection }
{
    selection.last_slot.number() == selection.slot.number() && selection.last_result == SUCCESS
}

// The new space, where it differs from the old one.
fn space_change(old: &FwSpace, new: FwSpace) -> Option<FwSpace>
    ensures change { result ≡ spec.space_change old.now new }
    ensures kept { spec.firmware_kept (Ok old.now) result ≡ stored_firmware_version new }
    ensures is { IfSome result (λ space. space ≡ new) }
{
    if new.to_bytes() == old.to_bytes() {
        None
    } else {
        Some(new)
    }
}

// ---- the kernel space

/// The kernel space with the version after a kernel was chosen, of which the walk found this lowest version to store. It rises to the
/// ceiling of the record at most.
pub fn kernel_change(
    space: &Result<KernelSpace, SpaceFault>,
    nv: &Nv,
    on_trial: bool,
    lowest: u32,
) -> Option<KernelSpace>
    ensures change { result ≡ spec.kernel_change space.now nv.now on_trial lowest }
    ensures kept { spec.kernel_kept space.now result ≡ spec.kernel_stored_after space.now nv.now on_trial lowest }
    ensures version { IfSome result (RaisesKernel space.now) }
{
    let Ok(old) = space else {
        return None;
    };
    let mut new = *old;
    new.set_versions(new_kernel_version(nv, on_trial, old.versions(), lowest));
    if new.as_slice() == old.as_slice() {
        None
    } else {
        Some(new)
    }
}

/// The version of the kernel that is stored in a space, or none where it has a fault.
pub fn kernel_stored(space: &Result<KernelSpace, SpaceFault>) -> Option<u32>
    ensures is { result ≡ spec.kernel_stored space.now }
    ensures kept { spec.kernel_kept space.now None ≡ result }
{
    match space {
        Ok(space) => Some(space.versions()),
        Err(_) => None,
    }
}

/// The one that is stored after a kernel was chosen.
pub fn kernel_stored_after(
    space: &Result<KernelSpace, SpaceFault>,
    nv: &Nv,
    on_trial: bool,
    lowest: u32,
) -> Option<u32>
    ensures { result ≡ spec.kernel_stored_after space.now nv.now on_trial lowest }
{
    match space {
        Ok(space) => Some(new_kernel_version(nv, on_trial, space.versions(), lowest)),
        Err(_) => None,
    }
}

// The stored version after a kernel was chosen: the lowest one to store, where it is over the stored one and the slot is not on
// trial, by the ceiling of the record.
fn new_kernel_version(nv: &Nv, on_trial: bool, stored: u32, lowest: u32) -> u32
    ensures is { result ≡ spec.new_kernel_version nv.now on_trial stored lowest }
    ensures no_lower { stored ≤ result }
{
    let rise = if stored < lowest && !on_trial {
        lowest
    } else {
        stored
    };
    capped(stored, rise, nv.ceiling(Ceiling::Kernel))
}
