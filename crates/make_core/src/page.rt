// The pages of the flash.
ghost use Rattle.std.specs.Prelude.{◌≡◌, ◌+◌, ◌*◌, ◌<◌, ◌≤◌, length};
ghost use Rattle.board_core.specs.Flash.{range};
ghost use Rattle.make_core.specs.Firmware.{body, AreTags};
ghost use Rattle.make_core.specs.Layout.{padded_page, machine_flash};

use crate::layout::*;
use crate::parts::{make_gbb, make_map};
use crate::putting::{put_bytes, put_fill};
use crate::slot::{body_size, make_vblock};
use board_core::make_erased_page;

// A page that begins with these bytes, and is erased behind them.
fn make_padded_page(bytes: &[u8]) -> [u8; 4096]
    requires { length bytes.now ≤ 4096 }
    ensures { result ≡ padded_page bytes.now }
{
    let mut page = make_erased_page();
    put_bytes(&mut page, 0, bytes);
    page
}

// A page of the body of a slot, from a place in the body, in bytes.
fn make_body_page(number: u32, tags: &SlotTags, from: u32) -> [u8; 4096]
    requires tags { AreTags tags.now }
    requires near { from < 1048576 }
    ensures { result ≡ padded_page (range (body number tags.now) from 4096) }
{
    let mut page = make_erased_page();
    let size = body_size(number);
    if size <= from {
        return page;
    }
    let count = (size - from).min(PAGE_SIZE) as usize;
    put_fill(&mut page, 0, number, tags.body, from, count);
    page
}

/// The page of this number of the flash.
pub fn make_page(number: u32, page: u32) -> [u8; 4096]
    requires { page < 256 }
    ensures { result ≡ range (machine_flash number) (page * 4096) 4096 }
{
    match page {
        MAP_PAGE => make_padded_page(&make_map()),
        GBB_PAGE => make_padded_page(&make_gbb(number)),
        NV_FIRST_PAGE => make_padded_page(&NV_PAGE),
        VBLOCK_A_PAGE => make_padded_page(&make_vblock(number, &SLOT_A)),
        VBLOCK_B_PAGE => make_padded_page(&make_vblock(number, &SLOT_B)),
        MAIN_A_PAGE..=MAIN_A_LAST => {
            make_body_page(number, &SLOT_A, (page - MAIN_A_PAGE) * PAGE_SIZE)
        }
        MAIN_B_PAGE..=MAIN_B_LAST => {
            make_body_page(number, &SLOT_B, (page - MAIN_B_PAGE) * PAGE_SIZE)
        }
        _ => make_erased_page(),
    }
}
