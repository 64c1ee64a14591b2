// Writing an image to a flash, page by page.
ghost use Rattle.std.specs.Prelude.{◌≡◌, ◌↔◌, ◌+◌, ◌*◌, ◌<◌, ◌≤◌, IsTrue, is_err};
ghost use Rattle.board_core.specs.Flash.{IsErased};
ghost use Rattle.make_core.specs.Layout.{machine_flash};
ghost use Rattle.make_core.specs.Pages.{BlanksPage, FillsPage, RewritesPage};
ghost use Rattle.make_core.specs.Writing.{WritesFlash};

use crate::layout::{FLASH_SIZE, PAGE_SIZE};
use crate::page::make_page;
use board_core::{Failed, Flash};

// Whether each byte is 0xff.
fn is_blank(bytes: &[u8]) -> bool
    ensures { IsTrue result ↔ IsErased bytes.now }
{
    bytes.iter().all(|byte| *byte == 0xff)
}

// Erases a page, unless it is erased.
fn blank_page<F: Flash>(flash: &mut F, page: u32) -> Result<(), Failed>
    requires few { page < 256 }
    requires inside { page * 4096 + 4096 ≤ (F.state flash.old).medium.size }
    ensures { BlanksPage (page * 4096) (F.state flash.old) (F.state flash.new) (is_err result) }
{
    let mut was = [0; 4096];
    flash.read(page * PAGE_SIZE, &mut was)?;
    if is_blank(&was) {
        return Ok(());
    }
    flash.erase(page)
}

// Programs an erased page, unless it is to stay erased.
fn fill_page<F: Flash>(flash: &mut F, page: u32, bytes: &[u8; 4096]) -> Result<(), Failed>
    requires few { page < 256 }
    requires inside { page * 4096 + 4096 ≤ (F.state flash.old).medium.size }
    ensures { FillsPage (page * 4096) bytes.now (F.state flash.old) (F.state flash.new) (is_err result) }
{
    if is_blank(bytes) {
        return Ok(());
    }
    flash.program(page * PAGE_SIZE, bytes)
}

// Makes a page hold these bytes.
fn rewrite_page<F: Flash>(flash: &mut F, page: u32, bytes: &[u8; 4096]) -> Result<(), Failed>
    requires few { page < 256 }
    requires inside { page * 4096 + 4096 ≤ (F.state flash.old).medium.size }
    ensures { RewritesPage (page * 4096) bytes.now (F.state flash.old) (F.state flash.new) (is_err result) }
{
    blank_page(flash, page)?;
    fill_page(flash, page, bytes)
}

/// Writes the flash of a machine. Each page is erased once, unless it is erased already, and programmed once, unless it is
/// to be erased.
///
/// `Failed`: the flash failed. The pages before some page are the machine's, those behind it are as they were.
pub fn write_flash<F: Flash>(flash: &mut F, number: u32) -> Result<(), Failed>
    requires { (F.state flash.old).medium.size ≡ 1048576 }
    ensures { WritesFlash (machine_flash number) (F.state flash.old) (F.state flash.new) (is_err result) }
{
    for page in 0..FLASH_SIZE / PAGE_SIZE {
        rewrite_page(flash, page, &make_page(number, page))?;
    }
    Ok(())
}
