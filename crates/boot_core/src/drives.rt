// The drive that a boot looks at, and what its kernels are held to. The constant is a flag of the GBB.
ghost use Rattle.std.specs.Prelude.{◌≡◌};
ghost use Rattle.boot_core.specs.Drives as spec;

use crate::found::Found;
use crate::plan::facts_of;
use crate::slots::no_key;
use crate::switches::{Choice, Switches};
use board_core::Drive;
use fwsel_core::is_developer_on;
use kernel_core::{BootMode, KernelRules};
use key_core::PackedKey;
use record_core::{KernelSpace, Nv, NvField, SpaceFault};
use rom_core::{Gbb, GbbFault};

const GBB_EXTERNAL_BOOT: u32 = 0x10;

/// The drive of a boot that goes on with a slot: the removable one in developer mode alone, where that is allowed and asked for.
pub fn drive_of(sw: Switches, found: &Found, developer: bool) -> Drive
    ensures { result ≡ spec.drive_of sw found.now developer }
{
    if developer && is_external_allowed(found) && is_external_wanted(sw.choice, &found.state.nv) {
        Drive::Stick
    } else {
        Drive::Disk
    }
}

fn is_external_allowed(found: &Found) -> bool
    ensures { result ≡ spec.is_external_allowed found.now }
{
    found.state.nv.get(NvField::ExternalBoot) == 1 || allows_external(&found.gbb)
}

fn allows_external(gbb: &Result<Gbb, GbbFault>) -> bool
    ensures { result ≡ spec.gbb_says gbb.now 0x10 }
{
    match gbb {
        Ok(gbb) => gbb.flags & GBB_EXTERNAL_BOOT != 0,
        Err(_) => false,
    }
}

fn is_external_wanted(choice: Choice, nv: &Nv) -> bool
    ensures { result ≡ spec.is_external_wanted choice nv.now }
{
    match choice {
        Choice::External => true,
        Choice::Internal => false,
        Choice::Default => nv.get(NvField::DefaultBoot) == 1,
    }
}

/// What the kernels of a boot in this mode are held to.
pub fn rules_of(sw: Switches, found: &Found, mode: BootMode) -> KernelRules
    ensures { result ≡ spec.rules_of sw found.now mode }
{
    KernelRules {
        mode,
        signed_only: found.state.nv.get(NvField::SignedOnly) != 0,
        dev_on: is_developer_on(&facts_of(sw, found)),
        stored: stored_kernel_of(&found.kernel),
    }
}

/// The recovery key; a key of no bytes, which signs nothing, where the GBB has a fault.
pub fn recovery_of(gbb: &Result<Gbb, GbbFault>) -> PackedKey
    ensures { result ≡ spec.recovery_of gbb.now }
{
    match gbb {
        Ok(gbb) => gbb.recovery,
        Err(_) => no_key(),
    }
}

fn stored_kernel_of(space: &Result<KernelSpace, SpaceFault>) -> u32
    ensures { result ≡ spec.stored_kernel_of space.now }
{
    match space {
        Ok(space) => space.versions(),
        Err(_) => 0,
    }
}
