// Reading what is shown of a flash.
ghost use Rattle.std.specs.Prelude.{◌≡◌, ◌+◌, ◌≤◌, length};
ghost use Rattle.show_core.specs.Facts as spec;
ghost use Rattle.show_core.specs.Reading.{ReadsSlot, ReadsGbbFacts, ReadsAreas, ReadsFacts};
ghost use Rattle.rom_core.specs.MapFits.{FitsFlash};

use crate::facts::{FlashFacts, GbbFacts, KeyblockFacts, PreambleFacts, SlotFacts};
use board_core::{Failed, Flash};
use key_core::{KeyblockFault, KeyblockView, Seal};
use preamble_core::{FwPreambleFault, FwPreambleView};
use rom_core::{Area, GbbFault, Map, MapFault, read_gbb, read_map};

// What is shown of the firmware preamble that these bytes begin with.
fn preamble_facts(bytes: &[u8]) -> Result<PreambleFacts, FwPreambleFault>
    ensures { result ≡ spec.preamble_facts bytes.now }
{
    match FwPreambleView::check(bytes) {
        Ok(preamble) => Ok(PreambleFacts {
            size: preamble.common().size(),
            version: preamble.common().version(),
            flags: preamble.flags(),
            body_len: preamble.common().body_len(),
        }),
        Err(fault) => Err(fault),
    }
}

// What is shown of a keyblock.
pub(crate) fn keyblock_facts(keyblock: &KeyblockView) -> KeyblockFacts
    ensures { result ≡ spec.facts_of_keyblock keyblock.now }
{
    let key = keyblock.data_key();
    KeyblockFacts {
        size: keyblock.size(),
        flags: keyblock.flags(),
        algorithm: key.algorithm(),
        version: key.version(),
    }
}

// What is shown of the slot whose keyblock these bytes begin with.
fn slot_facts(bytes: &[u8]) -> Result<SlotFacts, KeyblockFault>
    ensures { result ≡ spec.slot_facts bytes.now }
{
    match KeyblockView::check(bytes, Seal::Signature) {
        Ok(keyblock) => {
            let size = keyblock.size();
            Ok(SlotFacts {
                keyblock: keyblock_facts(&keyblock),
                preamble: preamble_facts(&bytes[size as usize..]),
            })
        }
        Err(fault) => Err(fault),
    }
}

// Reads what is shown of the slot whose keyblock stands at the front of this area. `bytes` is room for the area's bytes.
fn read_slot<F: Flash>(
    flash: &mut F,
    area: Area,
    bytes: &mut [u8],
) -> Result<Result<SlotFacts, KeyblockFault>, Failed>
    requires inside { area.at + area.size ≤ (F.state flash.old).medium.size }
    requires room { length bytes.old ≡ area.size }
    ensures { ReadsSlot area (F.state flash.old) (F.state flash.new) result }
{
    flash.read(area.at, bytes)?;
    Ok(slot_facts(bytes))
}

// Reads what is shown of the GBB in this area.
fn read_gbb_facts<F: Flash>(flash: &mut F, area: Area) -> Result<Result<GbbFacts, GbbFault>, Failed>
    requires { area.at + area.size ≤ (F.state flash.old).medium.size }
    ensures { ReadsGbbFacts area (F.state flash.old) (F.state flash.new) result }
{
    match read_gbb(flash, area)? {
        Ok(gbb) => {
            let hwid = gbb.hwid;
            Ok(Ok(GbbFacts {
                minor: gbb.minor,
                flags: gbb.flags,
                hwid,
            }))
        }
        Err(fault) => Ok(Err(fault)),
    }
}

// Reads what is shown of a flash with these areas. `vblock` is room for the area of a keyblock and a preamble.
fn read_areas<F: Flash>(
    flash: &mut F,
    map_at: u32,
    map: &Map,
    vblock: &mut [u8],
) -> Result<FlashFacts, Failed>
    requires fits { FitsFlash (F.state flash.old).medium.size map.now }
    requires room { length vblock.old ≡ 65536 }
    ensures { ReadsAreas map_at map.now (F.state flash.old) (F.state flash.new) result }
{
    let size = flash.size();
    let gbb = read_gbb_facts(flash, map.gbb)?;
    let room = &mut vblock[..map.vblock_a.size as usize];
    let slot_a = read_slot(flash, map.vblock_a, room)?;
    let room = &mut vblock[..map.vblock_b.size as usize];
    let slot_b = read_slot(flash, map.vblock_b, room)?;
    Ok(FlashFacts {
        size,
        map_at,
        map: *map,
        gbb,
        slot_a,
        slot_b,
    })
}

/// Reads what is shown of the flash whose map stands at `map_at`. It changes nothing. `vblock` is room for the area of a
/// keyblock and a preamble.
///
/// A `MapFault` is the first line of the map table whose test holds. `Failed`: the flash failed, and counted it.
pub fn read_facts<F: Flash>(
    flash: &mut F,
    map_at: u32,
    vblock: &mut [u8],
) -> Result<Result<FlashFacts, MapFault>, Failed>
    requires { length vblock.old ≡ 65536 }
    ensures { ReadsFacts map_at (F.state flash.old) (F.state flash.new) result }
{
    let map = match read_map(flash, map_at)? {
        Ok(map) => map,
        Err(fault) => return Ok(Err(fault)),
    };
    let facts = read_areas(flash, map_at, &map, vblock)?;
    Ok(Ok(facts))
}
