// Reading the map of a flash.
ghost use Rattle.std.specs.Prelude.{◌≡◌, ◌+◌, ◌*◌, ◌≤◌, true, false, length, IsTrue, is_err, IfOk, IfSome, IfNone};
ghost use Rattle.board_core.specs.Counters.{Observed};
ghost use Rattle.rom_core.specs.Map.{count_of, head_at, is_map_at};
ghost use Rattle.rom_core.specs.Reading.{map_count, ReadsAreas, ReadsMap};

use crate::fault::MapFault;
use crate::layout::{
    AREA_ROW, LARGEST_FLASH, MAP_COUNT, MAP_HEAD, MAP_MAGIC, MAP_MAJOR, MAP_MAJOR_VERSION,
    MOST_AREAS, PAGE_SIZE,
};
use crate::map::{Map, check_areas};
use board_core::{Failed, Flash};
use wire_core::u16_at;

// The bytes of as many rows as a map has at most.
const ROWS_SIZE: usize = AREA_ROW as usize * MOST_AREAS as usize;

/// The count of areas in the head of a map at `at` of a flash of this size, where the bytes are one.
pub(crate) fn map_count(size: u32, at: u32, head: &[u8]) -> Option<u16>
    requires { length head.now ≡ 56 }
    ensures count { result ≡ map_count size at head.now }
    ensures fits { IfSome result (λ count. (count ≤ 128) × (at + 56 + 42 * count ≤ size)) }
{
    if !head.starts_with(&MAP_MAGIC) || head[MAP_MAJOR as usize] != MAP_MAJOR_VERSION {
        return None;
    }
    let count = u16_at(head, MAP_COUNT as usize);
    if count > MOST_AREAS {
        return None;
    }
    let end = u64::from(at) + u64::from(MAP_HEAD) + u64::from(AREA_ROW) * u64::from(count);
    if end > u64::from(size) {
        return None;
    }
    Some(count)
}

// The count of areas of the map at `at`, where one stands there.
fn read_count<F: Flash>(flash: &mut F, size: u32, at: u32) -> Result<Option<u16>, Failed>
    requires { size ≡ (F.state flash.old).medium.size }
    ensures counters { Observed (F.state flash.old).counters (F.state flash.new).counters (is_err result) }
    ensures medium { (F.state flash.new).medium ≡ (F.state flash.old).medium }
    ensures stands { IsTrue (F.state flash.old).medium.told → IfOk result (λ found. IfSome found (λ _. is_map_at size
        (F.state flash.old).medium.bytes at ≡ true)) }
    ensures count { IsTrue (F.state flash.old).medium.told → IfOk result (λ found. IfSome found (λ count. count ≡ count_of (head_at
        (F.state flash.old).medium.bytes at))) }
    ensures none { IsTrue (F.state flash.old).medium.told → IfOk result (λ found. IfNone found (is_map_at size
        (F.state flash.old).medium.bytes at ≡ false)) }
    ensures fits { IfOk result (λ found. IfSome found (λ count. (count ≤ 128) × (at + 56 + 42 * count ≤ size))) }
{
    if u64::from(at) + u64::from(MAP_HEAD) > u64::from(size) {
        return Ok(None);
    }
    let mut head = [0; MAP_HEAD as usize];
    flash.read(at, &mut head)?;
    Ok(map_count(size, at, &head))
}

// Reads the rows of the map at `at`, which has so many, and checks its areas. `rows` is room for their bytes.
fn read_areas<F: Flash>(
    flash: &mut F,
    size: u32,
    at: u32,
    count: u16,
    rows: &mut [u8],
) -> Result<Result<Map, MapFault>, Failed>
    requires size { size ≡ (F.state flash.old).medium.size }
    requires inside { at + 56 + 42 * count ≤ size }
    requires few { count ≤ 128 }
    requires rows { length rows.old ≡ 42 * count }
    ensures { ReadsAreas at count (F.state flash.old) (F.state flash.new) result }
{
    flash.read(at + MAP_HEAD, rows)?;
    Ok(check_areas(size, at, rows))
}

/// The six areas of a boot, out of the map at `map_at` of the flash. It changes nothing.
///
/// The answer may be the first line of the map table whose test holds, as a `MapFault`. `Failed`: the flash failed.
pub fn read_map<F: Flash>(flash: &mut F, map_at: u32) -> Result<Result<Map, MapFault>, Failed>
    ensures { ReadsMap map_at (F.state flash.old) (F.state flash.new) result }
{
    let size = flash.size();
    if size % PAGE_SIZE != 0 || size > LARGEST_FLASH {
        return Ok(Err(MapFault::FlashSize));
    }
    let Some(count) = read_count(flash, size, map_at)? else {
        return Ok(Err(MapFault::NoMap));
    };
    let mut rows = [0; ROWS_SIZE];
    let end = AREA_ROW as usize * count as usize;
    read_areas(flash, size, map_at, count, &mut rows[..end])
}
