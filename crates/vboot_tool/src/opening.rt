// How the program opens its board.
ghost use Rattle.std.specs.Prelude.{IfOk};
ghost use Rattle.vboot_tool.specs.Opening.{IsSettledBoard};

use board_core::{Fuse, FuseDisk, FuseTpm, Platform};
use board_file::{
    FileDisk, FileFlash, FileHook, FileTpm, Folder, OpenFault, open_disk, open_flash, open_stick,
};
use std::alloc::Global;
use std::rt::Files;

// A missing flash image is made of so many erased pages.
const NEW_FLASH_PAGES: u32 = 256;

// A missing disk image is made of so many sectors of zeros.
const NEW_DISK_SECTORS: u32 = 16384;

/// A board over the files of the current folder.
pub type FileBoard<'a, R> = Platform<
    FileFlash<<R as Files>::File>,
    FileTpm<'a, R>,
    FileDisk<<R as Files>::File>,
    FileDisk<<R as Files>::File>,
    FileHook<'a, R>,
>;

/// Opens the files in order: that of the flash, those of the two spaces of the TPM, those of the disk and the stick, and
/// that of accepted signatures.
///
/// `OpenFault`: that of the first that was not opened.
pub fn open_board<'a, R: Files + AllocGlobal>(
    alloc: Global,
    folder: &'a Folder<'a, R>,
) -> Result<FileBoard<'a, R>, OpenFault>
    ensures { IfOk result (λ board. IsSettledBoard board) }
{
    let flash = open_flash(folder, NEW_FLASH_PAGES)?;
    let tpm = FileTpm::open(folder)?;
    let disk = open_disk(folder, NEW_DISK_SECTORS)?;
    let stick = open_stick(folder)?;
    let hook = FileHook::open(folder)?;
    Ok(Platform {
        flash: Fuse::new(alloc, flash),
        tpm: FuseTpm::new(tpm),
        disk: FuseDisk::new(alloc, disk),
        stick: FuseDisk::new(alloc, stick),
        hook,
        map_at: 0,
    })
}
