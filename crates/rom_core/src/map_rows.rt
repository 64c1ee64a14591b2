// The rows of a flash map, which name its areas.
ghost use Rattle.std.specs.Prelude.{◌≡◌, ◌/◌, length};
ghost use Rattle.rom_core.specs.Map as spec;
ghost use Rattle.rom_core.specs.Map.{row_of, rows_in, areas_in};

use crate::area::Area;
use crate::layout::{AREA_AT, AREA_NAME, AREA_ROW, AREA_SIZE, NAME_SIZE};
use crate::map::Map;
use crate::names::before_nul;
use wire_core::u32_at;

// The name in a row.
fn name_of(row: &[u8]) -> &[u8]
    requires { length row.now ≡ 42 }
    ensures { result.now ≡ (row_of row.now).name }
{
    before_nul(&row[AREA_NAME as usize..(AREA_NAME + NAME_SIZE) as usize])
}

// The area in a row.
fn area_of(row: &[u8]) -> Area
    requires { length row.now ≡ 42 }
    ensures { result ≡ (row_of row.now).area }
{
    Area {
        at: u32_at(row, AREA_AT as usize),
        size: u32_at(row, AREA_SIZE as usize),
    }
}

// The area of the first row of this name.
fn area_named(rows: &[u8], name: &[u8]) -> Option<Area>
    ensures { result ≡ spec.area_named name.now (rows_in (length rows.now / 42) rows.now) }
{
    let mut rest = rows;
    while rest.len() >= AREA_ROW as usize {
        let (row, others) = rest.split_at(AREA_ROW as usize);
        if name_of(row) == name {
            return Some(area_of(row));
        }
        rest = others;
    }
    None
}

/// The six areas of a boot, where each is there.
pub fn areas_in(rows: &[u8]) -> Option<Map>
    ensures { result ≡ areas_in (rows_in (length rows.now / 42) rows.now) }
{
    Some(Map {
        gbb: area_named(rows, b"GBB")?,
        nvram: area_named(rows, b"RW_NVRAM")?,
        vblock_a: area_named(rows, b"VBLOCK_A")?,
        main_a: area_named(rows, b"FW_MAIN_A")?,
        vblock_b: area_named(rows, b"VBLOCK_B")?,
        main_b: area_named(rows, b"FW_MAIN_B")?,
    })
}
