// Showing a flash.
ghost use Rattle.std.specs.Prelude.{◌≡◌, length};
ghost use Rattle.show_core.specs.Show.{ShowsFlash};

use crate::printing::text_of_facts;
use crate::reading::read_facts;
use board_core::{Failed, Flash, Sink};
use rom_core::MapFault;

/// Why a flash was not shown.
#[derive(Clone, Copy, Debug, PartialEq, Eq)]
pub enum ShowFault {
    /// The flash failed, and nothing was put.
    Device,
    /// What is wrong with the map of the flash. Nothing was put.
    BadFlash(MapFault),
    /// The sink failed, and a front of the text was put.
    Write,
}

/// Puts what the firmware of a flash is, whose map stands at `map_at`, in bytes: the map, the GBB, and the keyblock and the
/// preamble of each slot. Nothing is put before all is read. No image is changed. `vblock` is room for the area of a
/// keyblock and a preamble, and holds any bytes afterwards.
pub fn show_flash<F: Flash, O: Sink>(
    flash: &mut F,
    map_at: u32,
    vblock: &mut [u8],
    out: &mut O,
) -> Result<(), ShowFault>
    requires { length vblock.old ≡ 65536 }
    ensures { ShowsFlash map_at (F.state flash.old) (F.state flash.new) (O.state out.old) (O.state out.new) result }
{
    let facts = match read_facts(flash, map_at, vblock) {
        Ok(Ok(facts)) => facts,
        Ok(Err(fault)) => return Err(ShowFault::BadFlash(fault)),
        Err(Failed) => return Err(ShowFault::Device),
    };
    let text = text_of_facts(&facts);
    let Ok(_) = out.put(text.as_slice()) else {
        return Err(ShowFault::Write);
    };
    Ok(())
}
