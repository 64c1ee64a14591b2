// The six areas of a boot, out of the rows of a flash map.
ghost use Rattle.std.specs.Prelude.{◌≡◌, ◌/◌, ◌≤◌, not, length, Some, None, IfOk, IfErr, OnOk};
ghost use Rattle.wire_core.specs.FirstFault.{first_fault};
ghost use Rattle.rom_core.specs.Map.{rows_in, areas_in, written_areas, any_outside, any_too_large, is_misshapen, any_overlap, map_area};
ghost use Rattle.rom_core.specs.Map.{area_lines};
ghost use Rattle.rom_core.specs.MapFits.{FitsFlash, IsApart};

use crate::area::{Area, any_share};
use crate::fault::MapFault;
use crate::layout::{AREA_ROW, LARGEST_MAIN, LARGEST_VBLOCK, LEAST_NVRAM, MAP_HEAD, PAGE_SIZE};
use crate::map_rows::areas_in;

/// The six areas of a boot. Each lies inside the flash.
#[derive(Clone, Copy, Debug, PartialEq, Eq)]
pub struct Map {
    /// `GBB`: the root key, the recovery key and the flags.
    pub gbb: Area,
    /// `RW_NVRAM`: the pages of nvdata, from a multiple of 4,096 on, at least two.
    pub nvram: Area,
    /// `VBLOCK_A`: the keyblock and the preamble of slot A, at most 65,536 bytes.
    pub vblock_a: Area,
    /// `FW_MAIN_A`: the firmware body of slot A, at most 16,777,216 bytes.
    pub main_a: Area,
    /// `VBLOCK_B`: those of slot B.
    pub vblock_b: Area,
    /// `FW_MAIN_B`: that of slot B.
    pub main_b: Area,
}

// The six areas of the map at `at` of a flash of this size, out of its rows. An error is the first of lines 3 to 7 of the
// map table whose test holds.
pub(crate) fn check_areas(size: u32, at: u32, rows: &[u8]) -> Result<Map, MapFault>
    requires { length rows.now ≤ 5376 }
    ensures fault { IfErr result (λ fault. first_fault area_lines (record {
      size = size;
      at = at;
      rows = rows_in
          (length rows.now / 42) rows.now;
    }) ≡ Some fault) }
    ensures none { OnOk result (first_fault area_lines (record { size = size; at = at; rows = rows_in (length rows.now / 42) rows.now }) ≡
        None) }
    ensures areas { IfOk result (λ map. areas_in (rows_in (length rows.now / 42) rows.now) ≡ Some map) }
    ensures fits { IfOk result (FitsFlash size) }
    ensures apart { IfOk result (IsApart at (length rows.now / 42)) }
{
    let Some(map) = areas_in(rows) else {
        return Err(MapFault::MissingArea);
    };
    if !map.is_in(size) {
        return Err(MapFault::AreaOutside);
    }
    if map.is_too_large() {
        return Err(MapFault::AreaTooLarge);
    }
    if map.is_misshapen() {
        return Err(MapFault::AreaShape);
    }
    if map.overlaps(&map_area(at, rows)) {
        return Err(MapFault::AreaOverlap);
    }
    Ok(map)
}

// The head of a map and its rows.
fn map_area(at: u32, rows: &[u8]) -> Area
    requires { length rows.now ≤ 5376 }
    ensures { result ≡ map_area at (length rows.now / 42) }
{
    Area {
        at,
        size: MAP_HEAD + AREA_ROW * (rows.len() as u32 / AREA_ROW),
    }
}

impl Map {
    // The areas that are written.
    fn written(&self) -> [Area; 5]
        ensures { result ≡ written_areas self.now }
    {
        [
            self.nvram,
            self.vblock_a,
            self.main_a,
            self.vblock_b,
            self.main_b,
        ]
    }

    // Whether each area has a byte, and all of its bytes lie in a flash of this size.
    fn is_in(&self, size: u32) -> bool
        ensures { result ≡ not (any_outside size self.now) }
    {
        self.gbb.is_in(size)
            && self.nvram.is_in(size)
            && self.vblock_a.is_in(size)
            && self.main_a.is_in(size)
            && self.vblock_b.is_in(size)
            && self.main_b.is_in(size)
    }

    fn is_too_large(&self) -> bool
        ensures { result ≡ any_too_large self.now }
    {
        self.vblock_a.size > LARGEST_VBLOCK
            || self.vblock_b.size > LARGEST_VBLOCK
            || self.main_a.size > LARGEST_MAIN
            || self.main_b.size > LARGEST_MAIN
    }

    // Whether nvdata does not begin at a page, or has not two of them.
    fn is_misshapen(&self) -> bool
        ensures { result ≡ is_misshapen self.now }
    {
        self.nvram.at % PAGE_SIZE != 0 || self.nvram.size < LEAST_NVRAM
    }

    // Whether an area that is written shares a page with the map, with the GBB or with another one.
    fn overlaps(&self, map: &Area) -> bool
        ensures { result ≡ any_overlap map.now self.now }
    {
        let written = self.written();
        map.shares_with(&written) || self.gbb.shares_with(&written) || any_share(&written)
    }
}
