// Reading what a machine keeps.
ghost use Rattle.std.specs.Prelude.{◌≡◌};
ghost use Rattle.rom_core.specs.MapFits.{FitsFlash};
ghost use Rattle.crossystem_core.specs.Reading.{ReadsFlash, ReadsVersions, ReadsView, hwid_by};
ghost use Rattle.crossystem_core.specs.Reading as spec;

use crate::showing::{CrossView, Hwid};
use board_core::{Device, Failed, Flash, Tpm};
use nvstore_core::{NvState, load};
use record_core::{FwSpace, KernelSpace, SpaceFault};
use rom_core::{Gbb, GbbFault, Map, MapFault, read_gbb, read_map};
use space_core::read_spaces;

fn hwid_of(gbb: &Result<Gbb, GbbFault>) -> Option<Hwid>
    ensures { result ≡ hwid_by gbb.now }
{
    match gbb {
        Ok(gbb) => Some(Hwid::new(gbb.hwid)),
        Err(_) => None,
    }
}

// Reads nvdata and the HWID of a flash with these areas.
fn read_flash<F: Flash>(flash: &mut F, map: &Map) -> Result<(NvState, Option<Hwid>), Failed>
    requires { FitsFlash (F.state flash.old).medium.size map.now }
    ensures { ReadsFlash map.now (F.state flash.old) (F.state flash.new) result }
{
    let state = load(flash, map.nvram.at)?;
    let gbb = read_gbb(flash, map.gbb)?;
    Ok((state, hwid_of(&gbb)))
}

fn firmware_version(space: Result<FwSpace, SpaceFault>) -> Option<u32>
    ensures { result ≡ spec.firmware_by space }
{
    match space {
        Ok(space) => Some(space.versions()),
        Err(_) => None,
    }
}

fn kernel_version(space: Result<KernelSpace, SpaceFault>) -> Option<u32>
    ensures { result ≡ spec.kernel_by space }
{
    match space {
        Ok(space) => Some(space.versions()),
        Err(_) => None,
    }
}

// Reads the stored versions.
fn read_versions<T: Tpm>(tpm: &mut T) -> Result<(Option<u32>, Option<u32>), Failed>
    ensures { ReadsVersions (T.state tpm.old) (T.state tpm.new) result }
{
    let (firmware, kernel) = read_spaces(tpm)?;
    Ok((firmware_version(firmware), kernel_version(kernel)))
}

/// Reads what a machine keeps whose map stands at `map_at`, in bytes: the map, nvdata and the GBB of the flash, and then both spaces
/// of the TPM. It changes nothing and does not start the TPM, so both locks stay.
///
/// A `MapFault` is the first line of the map table whose test holds, and is answered before the TPM is called. `Device`: the flash or
/// the TPM failed, and counted it.
pub fn view<F: Flash, T: Tpm>(
    flash: &mut F,
    tpm: &mut T,
    map_at: u32,
) -> Result<Result<CrossView, MapFault>, Device>
    ensures { ReadsView map_at (F.state flash.old) (F.state flash.new) (T.state tpm.old) (T.state tpm.new) result }
{
    let map = match read_map(flash, map_at) {
        Ok(Ok(map)) => map,
        Ok(Err(fault)) => return Ok(Err(fault)),
        Err(Failed) => return Err(Device::Flash),
    };
    let Ok((state, hwid)) = read_flash(flash, &map) else {
        return Err(Device::Flash);
    };
    let Ok((firmware, kernel)) = read_versions(tpm) else {
        return Err(Device::Tpm);
    };
    Ok(Ok(CrossView {
        state,
        nvram: map.nvram.at,
        firmware,
        kernel,
        hwid,
    }))
}
