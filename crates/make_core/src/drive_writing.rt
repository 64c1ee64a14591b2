// Writing an image to a disk, piece by piece.
ghost use Rattle.std.specs.Prelude.{◌≡◌, ◌⊎◌, ◌+◌, ◌*◌, ◌<◌, ◌≤◌, length, is_err};
ghost use Rattle.make_core.specs.Drive.{drive_bytes, machine_stick, IsDrive};
ghost use Rattle.make_core.specs.DriveWrites.{WritesPiece, WritesDrive, WritesStick};

use crate::drive::{Drive, make_stick};
use crate::drive_layout::{PIECE_SECTORS, PIECE_SIZE, PIECES};
use crate::pieces::make_piece;
use board_core::{Disk, Failed};

// Writes a piece from a sector, and flushes.
fn write_piece<D: Disk>(disk: &mut D, lba: u64, bytes: &[u8; PIECE_SIZE]) -> Result<(), Failed>
    requires settled { (D.state disk.old).medium.pending ≡ 0 }
    requires inside { lba + 64 ≤ (D.state disk.old).medium.sectors }
    ensures { WritesPiece lba bytes.now (D.state disk.old) (D.state disk.new) (is_err result) }
{
    disk.write(lba, bytes)?;
    disk.flush()?;
    Ok(())
}

/// Writes a drive of 16,384 sectors, each piece with one write and one flush.
///
/// `Failed`: the disk failed. The pieces before some piece are the image's, those behind it are as they were.
pub fn write_drive<D: Disk>(disk: &mut D, number: u32, drive: &Drive) -> Result<(), Failed>
    requires settled { (D.state disk.old).medium.pending ≡ 0 }
    requires size { (D.state disk.old).medium.sectors ≡ 16384 }
    requires drive { IsDrive drive.now }
    ensures { WritesDrive (drive_bytes number drive.now) (D.state disk.old) (D.state disk.new) (is_err result) }
{
    for piece in 0..PIECES {
        let bytes = make_piece(number, drive, piece);
        write_piece(disk, (piece * PIECE_SECTORS) as u64, &bytes)?;
    }
    Ok(())
}

/// Writes the stick of the machine of a number, which has no sectors or 16,384. One without sectors is not touched.
///
/// `Failed`: the stick failed. The pieces before some piece are the image's, those behind it are as they were.
pub fn write_stick<D: Disk>(stick: &mut D, number: u32) -> Result<(), Failed>
    requires settled { (D.state stick.old).medium.pending ≡ 0 }
    requires size { ((D.state stick.old).medium.sectors ≡ 0) ⊎ ((D.state stick.old).medium.sectors ≡ 16384) }
    ensures { WritesStick (machine_stick number) (D.state stick.old).medium.sectors (D.state stick.old) (D.state stick.new)
        (is_err result) }
{
    if stick.sectors() == 0 {
        return Ok(());
    }
    write_drive(stick, number, &make_stick(number))
}
