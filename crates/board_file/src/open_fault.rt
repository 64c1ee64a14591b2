// The files of a board, and why one was not opened.
ghost use Rattle.std.specs.Prelude.{◌≡◌, ◌≤◌, length};
ghost use Rattle.board_file.specs.Files.{file_name};

use std::fmt;
use thiserror::Error;

/// A file of a board, in the current folder.
#[derive(Clone, Copy, Debug, Drop, PartialEq, Eq)]
pub enum BoardFile {
    /// The flash.
    Flash,
    /// The firmware space of the TPM.
    FirmwareSpace,
    /// The kernel space of the TPM.
    KernelSpace,
    /// The internal disk.
    Disk,
    /// The stick.
    Stick,
    /// The accepted signatures.
    Hook,
}

impl BoardFile {
    /// The name of the file.
    pub fn name(self) -> &'static str
        ensures name { result.now ≡ file_name self }
        ensures short { length result.now ≤ 16 }
    {
        match self {
            BoardFile::Flash => "flash.bin",
            BoardFile::FirmwareSpace => "tpm_fw.bin",
            BoardFile::KernelSpace => "tpm_kernel.bin",
            BoardFile::Disk => "disk.img",
            BoardFile::Stick => "stick.img",
            BoardFile::Hook => "hook.toml",
        }
    }
}

impl fmt::Display for BoardFile {
    fn fmt<W: fmt::Write>(&self, f: &mut fmt::Formatter<W>) -> fmt::Result {
        f.write_str(self.name())
    }
}

/// Why a device over a file was not opened. Nothing that stood is changed.
#[derive(Clone, Copy, Debug, Drop, PartialEq, Eq, Error)]
pub enum OpenFault {
    /// This file is there and cannot be opened, or holds what the device does not take.
    #[error("cannot open {0}")]
    CannotOpen(BoardFile),
    /// There was no memory for what the file holds.
    #[error("out of memory")]
    Memory,
}
