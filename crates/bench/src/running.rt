// Running words on a machine, over devices in memory.
ghost use Rattle.std.specs.Prelude.{◌≡◌, ◌≤◌, length, IfOk};
ghost use Rattle.board_core.specs.FuseDisk.{fuse_disk_state};

use crate::line::Failing;
use crate::machine::{DriveImage, Machine, SpaceImage};
use board_core::{Flash, Fuse, FuseDisk, FuseTpm, HookRow, Platform, Space, Tpm};
use board_mem::{FailAt, MemDisk, MemFlash, MemSink, MemTpm, TableHook};
use command_core::run;
use std::alloc::{AllocError, Global};

/// The most bytes that a command prints.
const MOST_TEXT: usize = 65536;

/// What a run came to: its text and its status, and the machine after it.
#[derive(Drop)]
pub struct Ran {
    pub text: Vec<u8>,
    pub status: u8,
    pub after: Machine,
}

// The calls of a device that are to fail: the one that is named, where it is of this device.
fn fails_of(
    alloc: Global,
    device: Failing,
    failing: Option<(Failing, FailAt)>,
) -> Result<Vec<FailAt>, AllocError> {
    let mut fails = Vec::new(alloc);
    if let Some((of, fail)) = failing {
        if of == device {
            fails.push(fail)?;
        }
    }
    Ok(fails)
}

// A drive that holds this image.
fn drive_with(
    alloc: Global,
    image: &DriveImage,
    fails: &[FailAt],
) -> Result<FuseDisk<MemDisk>, AllocError>
    ensures { IfOk result (λ disk. (fuse_disk_state disk).medium.pending ≡ 0) }
{
    let disk = MemDisk::new(alloc, image.as_slice(), fails)?;
    Ok(FuseDisk::new(alloc, disk))
}

// The bytes of a flash.
fn bytes_of<F: Flash>(alloc: Global, flash: &mut F) -> Result<Vec<u8>, AllocError> {
    let size = flash.size();
    let mut bytes = vec![in alloc; 0u8; size as usize]?;
    let _ = flash.read(0, &mut bytes);
    Ok(bytes)
}

fn space_of<T: Tpm>(tpm: &mut T, space: Space) -> SpaceImage {
    let mut buf = [0; 64];
    match tpm.read(space, &mut buf) {
        Ok(len) => SpaceImage::of(&buf[..len]),
        Err(_) => SpaceImage::empty(),
    }
}

// The seed of each run: so its GUIDs are known.
const SEED: [u8; 32] = [0; 32];

/// Runs these words on a machine, where a call of a device is to fail or none is.
pub fn run_on(
    alloc: Global,
    machine: &Machine,
    words: &[String],
    failing: Option<(Failing, FailAt)>,
) -> Result<Ran, AllocError> {
    let flash_fails = fails_of(alloc, Failing::Flash, failing)?;
    let tpm_fails = fails_of(alloc, Failing::Tpm, failing)?;
    let disk_fails = fails_of(alloc, Failing::Disk, failing)?;
    let stick_fails = fails_of(alloc, Failing::Stick, failing)?;
    let hook_fails = fails_of(alloc, Failing::Hook, failing)?;
    let sink_fails = fails_of(alloc, Failing::Sink, failing)?;
    let flash = MemFlash::new(alloc, &machine.flash, &flash_fails)?;
    let firmware = machine.firmware;
    let kernel = machine.kernel;
    let tpm = MemTpm::new(alloc, firmware.as_slice(), kernel.as_slice(), &tpm_fails)?;
    let hook = TableHook::new(alloc, &machine.rows, &hook_fails)?;
    let mut out = MemSink::new(alloc, MOST_TEXT, &sink_fails)?;
    let mut board = Platform {
        flash: Fuse::new(alloc, flash),
        tpm: FuseTpm::new(tpm),
        disk: drive_with(alloc, &machine.disk, &disk_fails)?,
        stick: drive_with(alloc, &machine.stick, &stick_fails)?,
        hook,
        map_at: 0,
    };
    let status = run(alloc, words, SEED, &mut board, &mut out).code();
    let rows = board.hook.rows().to_vec(alloc)?;
    let mut after = machine_of(alloc, &mut board.flash, &mut board.tpm, rows)?;
    after.disk = DriveImage::of(alloc, &mut board.disk)?;
    after.stick = DriveImage::of(alloc, &mut board.stick)?;
    Ok(Ran {
        text: out.bytes().to_vec(alloc)?,
        status,
        after,
    })
}

// What a flash and a TPM hold, with these accepted signatures and no drives.
fn machine_of<F: Flash, T: Tpm>(
    alloc: Global,
    flash: &mut F,
    tpm: &mut T,
    rows: Vec<HookRow>,
) -> Result<Machine, AllocError>
    requires { length rows.items ≤ 4096 }
{
    let bytes = bytes_of(alloc, flash)?;
    if bytes.len() > u32::MAX as usize {
        return Machine::erased(alloc, 0);
    }
    Ok(Machine {
        flash: bytes,
        firmware: space_of(tpm, Space::Firmware),
        kernel: space_of(tpm, Space::Kernel),
        disk: DriveImage::zeros(alloc, 0)?,
        stick: DriveImage::zeros(alloc, 0)?,
        rows,
    })
}
