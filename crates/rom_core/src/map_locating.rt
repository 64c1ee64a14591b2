// Looking for the map of a flash.
ghost use Rattle.std.specs.Prelude.{◌≡◌, ◌+◌, ◌%◌, ◌≤◌, ◌<◌, length, IfSome, IfNone};
ghost use Rattle.rom_core.specs.Reading.{NoHeadBelow, IsFirstHead, LooksThrough, Locates};

use crate::layout::{MAP_HEAD, MAP_STRIDE, PAGE_SIZE};
use crate::map_reading::map_count;
use board_core::{Failed, Flash};

// The place of the first head of a map in a page, at a multiple of 64. The page begins at `at` of a flash of this size.
fn first_head(size: u32, at: u32, page: &[u8]) -> Option<u32>
    requires { at + length page.now ≤ size }
    ensures found { IfSome result (IsFirstHead size at page.now) }
    ensures none { IfNone result (NoHeadBelow size at page.now (length page.now)) }
{
    let mut place = 0;
    while place + MAP_HEAD as usize <= page.len() {
        let head = &page[place..place + MAP_HEAD as usize];
        if map_count(size, at + place as u32, head).is_some() {
            return Some(at + place as u32);
        }
        place += MAP_STRIDE as usize;
    }
    None
}

// The place of the first map in the page at `at`. `page` is room for as many of its bytes as a flash of this size has.
fn look<F: Flash>(flash: &mut F, size: u32, at: u32, page: &mut [u8]) -> Result<Option<u32>, Failed>
    requires size { size ≡ (F.state flash.old).medium.size }
    requires page { at % 4096 ≡ 0 }
    requires inside { at + length page.old ≤ size }
    requires few { length page.old ≤ 4096 }
    requires all { length page.old < 4096 → at + length page.old ≡ size }
    ensures { LooksThrough at (F.state flash.old) (F.state flash.new) result }
{
    flash.read(at, page)?;
    Ok(first_head(size, at, page))
}

/// The lowest multiple of 64, in bytes, at which a flash map stands, or 0 where none does. It changes nothing.
///
/// `Failed`: the flash failed.
pub fn locate<F: Flash>(flash: &mut F) -> Result<u32, Failed>
    ensures { Locates (F.state flash.old) (F.state flash.new) result }
{
    let size = flash.size();
    let mut page = [0; PAGE_SIZE as usize];
    for number in 0..size.div_ceil(PAGE_SIZE) {
        let at = number * PAGE_SIZE;
        let count = (size - at).min(PAGE_SIZE) as usize;
        if let Some(found) = look(flash, size, at, &mut page[..count])? {
            return Ok(found);
        }
    }
    Ok(0)
}
