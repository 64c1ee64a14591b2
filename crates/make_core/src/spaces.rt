// Writing both spaces of a TPM.
ghost use Rattle.std.specs.Prelude.{is_err};
ghost use Rattle.make_core.specs.Spaces.{WritesSpaces};

use crate::layout::{FIRMWARE_SPACE, KERNEL_SPACE};
use board_core::{Failed, Space, Tpm};

/// Starts the TPM, which unlocks both spaces, and writes the spaces of a machine.
///
/// `Failed`: the TPM failed. No space is written, or that of the firmware, or both.
pub fn write_spaces<T: Tpm>(tpm: &mut T) -> Result<(), Failed>
    ensures { WritesSpaces (T.state tpm.old) (T.state tpm.new) (is_err result) }
{
    tpm.startup()?;
    tpm.write(Space::Firmware, &FIRMWARE_SPACE)?;
    tpm.write(Space::Kernel, &KERNEL_SPACE)
}
