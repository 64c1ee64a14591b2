// The kernel space of a TPM in its newer form.
ghost use Rattle.crossystem_core.specs.Migrating.{Migrates};

use crate::fault::MigrateFault;
use board_core::{Failed, Space, Tpm};
use space_core::read_kernel_space;

/// Starts the TPM, which unlocks both spaces, and brings its kernel space from the form before version 1.0 into that of version 1.0,
/// with the same versions, no flags and a hash of zeros, by one write. A space that is in that form stays. It answers whether it
/// wrote. No memory is taken.
///
/// `Refused`: exactly where the kernel space has that fault, unless the TPM failed. Nothing was written. `Failed`: the TPM failed, and
/// counted it. The kernel space is the one of before or the new one.
pub fn migrate<T: Tpm>(tpm: &mut T) -> Result<bool, MigrateFault>
    ensures { Migrates (T.state tpm.old) (T.state tpm.new) result }
{
    let Ok(()) = tpm.startup() else {
        return Err(MigrateFault::Failed);
    };
    let space = match read_kernel_space(tpm) {
        Ok(Ok(space)) => space,
        Ok(Err(fault)) => return Err(MigrateFault::Refused(fault)),
        Err(Failed) => return Err(MigrateFault::Failed),
    };
    if space.is_v1() {
        return Ok(false);
    }
    let migrated = space.migrated();
    let Ok(()) = tpm.write(Space::Kernel, migrated.as_slice()) else {
        return Err(MigrateFault::Failed);
    };
    Ok(true)
}
