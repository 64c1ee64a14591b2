// The machine of a case: the images that a command is run on.
ghost use Rattle.std.specs.Prelude.{◌≡◌, ◌≤◌, ◌<◌, ◌^◌, ◌%◌, length, vec_len, IfOk};

use board_core::{Disk, HookRow};
use std::alloc::{AllocError, Global};

/// A space of the TPM, of at most 64 bytes.
#[derive(Clone, Copy, Debug)]
pub struct SpaceImage {
    bytes: [u8; 64],
    len: usize,
    ghost few: { len ≤ 64 },
}

impl SpaceImage {
    /// The space of no bytes.
    pub fn empty() -> SpaceImage {
        SpaceImage {
            bytes: [0; 64],
            len: 0,
        }
    }

    /// The space of these bytes, of which the first 64 are taken.
    pub fn of(bytes: &[u8]) -> SpaceImage {
        let len = bytes.len().min(64);
        let mut image = SpaceImage::empty();
        image.bytes[..len].copy_from_slice(&bytes[..len]);
        image.len = len;
        image
    }

    /// The bytes.
    pub fn as_slice(&self) -> &[u8]
        ensures { length result.now ≤ 64 }
    {
        &self.bytes[..self.len]
    }
}

/// The bytes of a drive, in whole sectors of 512.
#[derive(Drop)]
pub struct DriveImage {
    bytes: Vec<u8>,
    ghost whole: { length bytes.items % 512 ≡ 0 },
}

/// The most sectors of a drive.
const MOST_SECTORS: u32 = 16384;

impl DriveImage {
    /// A drive of so many sectors of zeros, at most 16,384.
    pub fn zeros(alloc: Global, sectors: u32) -> Result<DriveImage, AllocError> {
        let sectors = sectors.min(MOST_SECTORS);
        Ok(DriveImage {
            bytes: vec![in alloc; 0; sectors as usize * 512]?,
        })
    }

    /// What a drive holds, of which the first 16,384 sectors are taken.
    pub fn of<D: Disk>(alloc: Global, disk: &mut D) -> Result<DriveImage, AllocError> {
        let sectors = disk.sectors().min(u64::from(MOST_SECTORS));
        let mut image = DriveImage {
            bytes: vec![in alloc; 0; sectors as usize * 512]?,
        };
        let _ = disk.read(0, &mut image.bytes);
        Ok(image)
    }

    /// The bytes.
    pub fn as_slice(&self) -> &[u8]
        ensures { length result.now % 512 ≡ 0 }
    {
        &self.bytes
    }

    /// The same drive once more.
    pub fn copy(&self, alloc: Global) -> Result<DriveImage, AllocError> {
        Ok(DriveImage {
            bytes: self.bytes.to_vec(alloc)?,
        })
    }

    /// Puts bytes into it from a place, in bytes, and answers whether they lie inside.
    pub fn rewrite(&mut self, at: usize, bytes: &[u8]) -> bool {
        put_bytes(&mut self.bytes, at, bytes)
    }
}

// Puts bytes into others from a place, and answers whether they lie inside.
fn put_bytes(image: &mut [u8], at: usize, bytes: &[u8]) -> bool {
    let size = image.len();
    if at > size || bytes.len() > size - at {
        return false;
    }
    image[at..at + bytes.len()].copy_from_slice(bytes);
    true
}

/// The most accepted signatures of a machine.
const MOST_ROWS: usize = 4096;

/// The images of a flash, of both spaces of a TPM and of both drives, and the accepted signatures.
#[derive(Drop)]
pub struct Machine {
    pub flash: Vec<u8>,
    pub firmware: SpaceImage,
    pub kernel: SpaceImage,
    pub disk: DriveImage,
    pub stick: DriveImage,
    pub rows: Vec<HookRow>,
    ghost small: { vec_len flash < 2 ^ 32 },
    ghost few: { vec_len rows ≤ 4096 },
}

impl Machine {
    /// A machine whose flash has so many erased bytes, whose spaces are empty, whose drives have no sectors, and which accepts no
    /// signature.
    pub fn erased(alloc: Global, size: u32) -> Result<Machine, AllocError> {
        Ok(Machine {
            flash: vec![in alloc; 0xff; size as usize]?,
            firmware: SpaceImage::empty(),
            kernel: SpaceImage::empty(),
            disk: DriveImage::zeros(alloc, 0)?,
            stick: DriveImage::zeros(alloc, 0)?,
            rows: Vec::new(alloc),
        })
    }

    /// Appends accepted signatures, and answers whether there is room for them.
    pub fn accept(&mut self, rows: &[HookRow]) -> Result<bool, AllocError> {
        for row in rows {
            if self.rows.len() >= MOST_ROWS {
                return Ok(false);
            }
            self.rows.push(*row)?;
        }
        Ok(true)
    }

    /// The same machine once more.
    pub fn copy(&self, alloc: Global) -> Result<Machine, AllocError> {
        Ok(Machine {
            flash: self.flash.to_vec(alloc)?,
            firmware: self.firmware,
            kernel: self.kernel,
            disk: self.disk.copy(alloc)?,
            stick: self.stick.copy(alloc)?,
            rows: self.rows.to_vec(alloc)?,
        })
    }

    /// Puts bytes into the flash from a place, in bytes, and answers whether they lie inside.
    pub fn rewrite(&mut self, at: usize, bytes: &[u8]) -> bool {
        put_bytes(&mut self.flash, at, bytes)
    }
}
