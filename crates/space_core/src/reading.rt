// Reading the spaces of a TPM.
ghost use Rattle.space_core.specs.Reading.{ReadsFirmware, ReadsKernel, ReadsSpaces};

use board_core::{Failed, Space, Tpm};
use record_core::{FwSpace, KernelSpace, SpaceFault};

/// Reads the firmware space with one call. It changes nothing.
///
/// A `SpaceFault` is the first that the space has. `Failed`: the TPM failed, and counted it.
pub fn read_firmware_space<T: Tpm>(tpm: &mut T) -> Result<Result<FwSpace, SpaceFault>, Failed>
    ensures { ReadsFirmware (T.state tpm.old) (T.state tpm.new) result }
{
    let mut bytes = [0; 64];
    let len = tpm.read(Space::Firmware, &mut bytes)?;
    Ok(FwSpace::from_bytes(&bytes[..len]))
}

/// Reads the kernel space with one call. It changes nothing.
///
/// A `SpaceFault` is the first that the space has. `Failed`: the TPM failed, and counted it.
pub fn read_kernel_space<T: Tpm>(tpm: &mut T) -> Result<Result<KernelSpace, SpaceFault>, Failed>
    ensures { ReadsKernel (T.state tpm.old) (T.state tpm.new) result }
{
    let mut bytes = [0; 64];
    let len = tpm.read(Space::Kernel, &mut bytes)?;
    Ok(KernelSpace::from_bytes(&bytes[..len]))
}

/// Reads the firmware space and then the kernel space, each with one call. It changes nothing.
///
/// `Failed`: the TPM failed, and counted it.
pub fn read_spaces<T: Tpm>(
    tpm: &mut T,
) -> Result<(Result<FwSpace, SpaceFault>, Result<KernelSpace, SpaceFault>), Failed>
    ensures { ReadsSpaces (T.state tpm.old) (T.state tpm.new) result }
{
    let firmware = read_firmware_space(tpm)?;
    let kernel = read_kernel_space(tpm)?;
    Ok((firmware, kernel))
}
