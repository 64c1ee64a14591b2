// Reading what a board holds, before anything of it is changed.
ghost use Rattle.std.specs.Prelude.{◌≡◌, IsTrue, OnOk, IfOk, IfErr};
ghost use Rattle.rom_core.specs.MapFits.{FitsFlash};
ghost use Rattle.board_core.specs.World.{world};
ghost use Rattle.boot_core.specs.Steps.{ReadsBoard, ReadsFound};

use crate::found::Found;
use board_core::{Device, Disk, Fault, Flash, Hook, Platform, Tpm};
use nvstore_core::load;
use rom_core::{Map, MapFault, read_gbb, read_map};
use space_core::read_spaces;

/// A fault of a device before any change.
pub fn fault_of(device: Device) -> Fault
    ensures { result ≡ record { device = device; done = 0 } }
{
    Fault { device, done: 0 }
}

/// Starts the TPM, and reads the map of the flash, nvdata, the GBB and both spaces. A fault of the map is answered before
/// the rest is read.
///
/// A `Fault` is one of the flash or of the TPM, before any change.
pub fn read_board<F: Flash, T: Tpm, D: Disk, E: Disk, H: Hook>(
    p: &mut Platform<F, T, D, E, H>,
) -> Result<Result<Found, MapFault>, Fault>
    ensures { ReadsBoard (world F.state T.state H.state p.old) (world F.state T.state H.state p.new) result }
{
    let Ok(_) = p.tpm.startup() else {
        return Err(fault_of(Device::Tpm));
    };
    let Ok(map) = read_map(&mut p.flash, p.map_at) else {
        return Err(fault_of(Device::Flash));
    };
    match map {
        Ok(map) => {
            let found = read_found(p, &map)?;
            Ok(Ok(found))
        }
        Err(fault) => Ok(Err(fault)),
    }
}

// Reads nvdata, the GBB and both spaces of a board whose flash has this map.
fn read_found<F: Flash, T: Tpm, D: Disk, E: Disk, H: Hook>(
    p: &mut Platform<F, T, D, E, H>,
    map: &Map,
) -> Result<Found, Fault>
    requires { FitsFlash (world F.state T.state H.state p.old).flash.medium.size map.now }
    ensures { ReadsFound map.now (world F.state T.state H.state p.old) (world F.state T.state H.state p.new) result }
{
    let Ok(state) = load(&mut p.flash, map.nvram.at) else {
        return Err(fault_of(Device::Flash));
    };
    let Ok(gbb) = read_gbb(&mut p.flash, map.gbb) else {
        return Err(fault_of(Device::Flash));
    };
    let Ok((firmware, kernel)) = read_spaces(&mut p.tpm) else {
        return Err(fault_of(Device::Tpm));
    };
    Ok(Found {
        map: *map,
        state,
        gbb,
        firmware,
        kernel,
    })
}
