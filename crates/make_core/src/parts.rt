// The map of the flash, and the GBB.
ghost use Rattle.std.specs.Prelude.{◌≡◌, ◌<◌, ◌≤◌, length};
ghost use Rattle.make_core.specs.Layout.{name_field, area_row, map_head, flash_map, gbb_head, packed_key, gbb};

use crate::layout::*;
use crate::putting::{put_bytes, put_fill, put_words};
use sha2::{Digest, Sha256};

// A name, with zeros behind its text.
fn make_name(text: &[u8]) -> [u8; 32]
    requires { length text.now ≤ 32 }
    ensures { result ≡ name_field text.now }
{
    let mut out = [0; 32];
    out[..text.len()].copy_from_slice(text);
    out
}

// The row of an area, whose place and size these are.
fn make_area_row(area: (u32, u32), name: &[u8]) -> [u8; 42]
    requires { length name.now ≤ 32 }
    ensures { result ≡ area_row area.0 area.1 name.now }
{
    let mut out = [0; 42];
    put_words(&mut out, 0, &[area.0, area.1]);
    put_bytes(&mut out, 8, &make_name(name));
    put_bytes(&mut out, 40, &[0, 0]);
    out
}

fn make_map_head() -> [u8; 56]
    ensures { result ≡ map_head }
{
    let mut out = [0; 56];
    put_bytes(&mut out, 0, &MAP_MAGIC);
    put_bytes(&mut out, MAP_MAGIC.len(), &MAP_VERSION);
    put_words(&mut out, 10, &[0, 0, FLASH_SIZE]);
    put_bytes(&mut out, 22, &make_name(&MAP_NAME));
    put_bytes(&mut out, 54, &MAP_AREAS);
    out
}

/// The map of the flash.
pub fn make_map() -> [u8; 308]
    ensures { result ≡ flash_map }
{
    let mut out = [0; 308];
    put_bytes(&mut out, 0, &make_map_head());
    put_bytes(&mut out, 56, &make_area_row(GBB_AREA, b"GBB"));
    put_bytes(&mut out, 98, &make_area_row(NVRAM_AREA, b"RW_NVRAM"));
    put_bytes(&mut out, 140, &make_area_row(VBLOCK_A_AREA, b"VBLOCK_A"));
    put_bytes(&mut out, 182, &make_area_row(MAIN_A_AREA, b"FW_MAIN_A"));
    put_bytes(&mut out, 224, &make_area_row(VBLOCK_B_AREA, b"VBLOCK_B"));
    put_bytes(&mut out, 266, &make_area_row(MAIN_B_AREA, b"FW_MAIN_B"));
    out
}

fn make_gbb_head() -> [u8; GBB_HEAD]
    ensures { result ≡ gbb_head }
{
    let numbers = [
        GBB_HEAD as u32,
        0,
        GBB_HEAD as u32,
        HWID_SIZE,
        GBB_ROOT_KEY as u32,
        PACKED_KEY as u32,
        GBB_SIZE as u32,
        0,
        GBB_RECOVERY_KEY as u32,
        PACKED_KEY as u32,
    ];
    let digest = Sha256::digest(&HWID);
    let mut out = [0; GBB_HEAD];
    put_bytes(&mut out, 0, &GBB_MAGIC);
    put_bytes(&mut out, 4, &GBB_VERSION);
    put_words(&mut out, 8, &numbers);
    put_bytes(&mut out, 48, &digest);
    put_bytes(&mut out, 80, &[0; 48]);
    out
}

// A packed key of this tag.
fn make_packed_key(number: u32, tag: u32) -> [u8; PACKED_KEY]
    requires { tag < 256 }
    ensures { result ≡ packed_key number tag }
{
    let head = [
        KEY_HEAD as u32,
        0,
        KEY_SIZE as u32,
        0,
        ALGORITHM,
        0,
        KEY_VERSION,
        0,
    ];
    let mut out = [0; PACKED_KEY];
    put_words(&mut out, 0, &head);
    put_fill(&mut out, KEY_HEAD, number, tag, 0, KEY_SIZE);
    out
}

/// The GBB.
pub fn make_gbb(number: u32) -> [u8; GBB_SIZE]
    ensures { result ≡ gbb number }
{
    let mut out = [0; GBB_SIZE];
    put_bytes(&mut out, 0, &make_gbb_head());
    put_bytes(&mut out, GBB_HEAD, &HWID);
    put_bytes(&mut out, GBB_HEAD + HWID.len(), &[0, 0]);
    put_bytes(&mut out, GBB_ROOT_KEY, &make_packed_key(number, ROOT_KEY));
    put_bytes(
        &mut out,
        GBB_RECOVERY_KEY,
        &make_packed_key(number, RECOVERY_KEY),
    );
    out
}
