// A TPM over two files of the current folder. It tells no content: what a file keeps is not claimed.
ghost use Rattle.std.specs.Prelude.{◌≡◌, ◌≤◌, false, IfOk};

use crate::folder::Folder;
use crate::open_fault::{BoardFile, OpenFault};
use board_core::{Failed, Space, Tpm, raise};
use std::fs::{Files, OpenOptions};
use std::io::Read;

/// The greatest number of bytes of a space.
const SPACE_SIZE: usize = 64;

const NEW_FIRMWARE_FILE: &str = "tpm_fw.bin.new";

const NEW_KERNEL_FILE: &str = "tpm_kernel.bin.new";

/// A TPM whose spaces are files: a missing file is an empty space. Both begin unlocked. A write makes a new file and
/// renames it, so that a stop leaves the old bytes or the new ones. Each failure of the file system is counted.
#[derive(Drop)]
pub struct FileTpm<'a, R: Files> {
    folder: &'a Folder<'a, R>,
    is_firmware_locked: bool,
    is_kernel_locked: bool,
    faults: u64,
    failed_changes: u64,
}

impl<'a, R: Files> FileTpm<'a, R> {
    /// The TPM of the current folder, with both spaces unlocked. No failure is counted yet.
    ///
    /// `OpenFault::CannotOpen`: the first of the two files, that of the firmware space before that of the kernel space,
    /// which is a link or no file, cannot be read, or has over 64 bytes.
    pub fn open(folder: &'a Folder<'a, R>) -> Result<FileTpm<'a, R>, OpenFault>
        ensures counts { IfOk result (λ tpm. (tpm.faults ≡ 0) × (tpm.failed_changes ≡ 0)) }
        ensures unlocked { IfOk result (λ tpm. (tpm.is_firmware_locked ≡ false) × (tpm.is_kernel_locked ≡ false)) }
    {
        let mut buf = [0; SPACE_SIZE];
        for space in [Space::Firmware, Space::Kernel] {
            let file = file_of(space);
            if folder.is_link(file.name()) || read_file(folder, file.name(), &mut buf).is_err() {
                return Err(OpenFault::CannotOpen(file));
            }
        }
        Ok(FileTpm {
            folder,
            is_firmware_locked: false,
            is_kernel_locked: false,
            faults: 0,
            failed_changes: 0,
        })
    }
}

fn file_of(space: Space) -> BoardFile {
    match space {
        Space::Firmware => BoardFile::FirmwareSpace,
        Space::Kernel => BoardFile::KernelSpace,
    }
}

fn new_file_of(space: Space) -> &'static str {
    match space {
        Space::Firmware => NEW_FIRMWARE_FILE,
        Space::Kernel => NEW_KERNEL_FILE,
    }
}

// Reads a whole file, and answers how many bytes it has. One of over 64 is refused.
fn read_file<R: Files>(folder: &Folder<R>, name: &str, buf: &mut [u8; 64]) -> Result<usize, Failed>
    ensures within { IfOk result (λ count. count ≤ 64) }
{
    let mut file = match folder.open(OpenOptions::new().read(true), name) {
        Ok(Some(file)) => file,
        Ok(None) => return Ok(0),
        Err(_) => return Err(Failed),
    };
    let mut count = 0;
    'pieces: for _ in 0..=SPACE_SIZE {
        let Ok(more) = file.read(&mut buf[count..]) else {
            return Err(Failed);
        };
        if more == 0 {
            break;
        }
        count += more;
    }
    match file.read(&mut [0]) {
        Ok(0) => Ok(count),
        _ => Err(Failed),
    }
}

impl<R: Files> Tpm for FileTpm<'_, R> {
    ghost use Rattle.std.specs.Prelude.{[], false};
    ghost use Rattle.std.proofs.lemmas.Bool.{false≢true};
    ghost use Rattle.board_core.specs.Counters.{plain_counters};
    ghost use Rattle.board_core.specs.Tpm.{TpmState};

    ghost state = { λ tpm. record { told = false; spaces = record { firmware = []; kernel = [] }; locks = record { firmware = tpm.is_firmware_locked; kernel = tpm.is_kernel_locked }; counters = plain_counters tpm.faults tpm.failed_changes } };

    ghost armed = { λ tpm left keep h. Prim.cc };

    ghost told_size = { λ tpm told. absurd (false≢true told) };

    fn startup(&mut self) -> Result<(), Failed> {
        self.is_firmware_locked = false;
        self.is_kernel_locked = false;
        Ok(())
    }

    fn read(&mut self, space: Space, buf: &mut [u8; 64]) -> Result<usize, Failed> {
        let Ok(count) = read_file(self.folder, file_of(space).name(), buf) else {
            self.faults = raise(self.faults);
            return Err(Failed);
        };
        Ok(count)
    }

    fn write(&mut self, space: Space, bytes: &[u8]) -> Result<(), Failed> {
        let (name, new_name) = (file_of(space).name(), new_file_of(space));
        if self.folder.replace(name, new_name, bytes).is_err() {
            self.faults = raise(self.faults);
            self.failed_changes = raise(self.failed_changes);
            return Err(Failed);
        }
        Ok(())
    }

    fn lock(&mut self, space: Space) -> Result<(), Failed> {
        match space {
            Space::Firmware => self.is_firmware_locked = true,
            Space::Kernel => self.is_kernel_locked = true,
        }
        Ok(())
    }
}
