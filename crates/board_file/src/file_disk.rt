// A disk over a file, or any other stream with places. It tells no content: what a file keeps is not claimed.
ghost use Rattle.std.specs.Prelude.{◌≡◌, ◌≤◌, IfOk, IfSome};

use crate::folder::Folder;
use crate::open_fault::{BoardFile, OpenFault};
use crate::stream::Places;
use board_core::{Disk, Failed, raise};
use std::fs::{Files, OpenFile, OpenOptions};
use std::io;
use std::io::{Read, Seek, SeekFrom, Write};

const NEW_DISK_FILE: &str = "disk.img.new";

/// A disk whose sectors of 512 bytes are those of a stream, or one of no sectors. Bytes of the stream behind the last whole
/// sector are not touched. Each failure of the stream is counted.
#[derive(Drop)]
pub struct FileDisk<S> {
    stream: Option<Places<S>>,
    sectors: u64,
    pending: u32,
    faults: u64,
    failed_changes: u64,
    // The place of each byte fits a u64.
    ghost addressable: { sectors ≤ 36028797018963967 },
}

impl<S> FileDisk<S> {
    /// A disk of the whole sectors of a stream of so many bytes. No failure is counted yet, and nothing is pending.
    pub fn new(stream: S, size: u64) -> FileDisk<S>
        ensures pending { result.pending ≡ 0 }
        ensures faults { result.faults ≡ 0 }
        ensures failed_changes { result.failed_changes ≡ 0 }
    {
        FileDisk::over(Places::new(stream, u64::MAX), size)
    }

    fn over(stream: Places<S>, size: u64) -> FileDisk<S>
        ensures pending { result.pending ≡ 0 }
        ensures faults { result.faults ≡ 0 }
        ensures failed_changes { result.failed_changes ≡ 0 }
    {
        FileDisk {
            stream: Some(stream),
            sectors: size / 512,
            pending: 0,
            faults: 0,
            failed_changes: 0,
        }
    }

    /// A disk that is absent, with no sectors.
    pub fn absent() -> FileDisk<S>
        ensures sectors { result.sectors ≡ 0 }
        ensures pending { result.pending ≡ 0 }
        ensures faults { result.faults ≡ 0 }
        ensures failed_changes { result.failed_changes ≡ 0 }
    {
        FileDisk {
            stream: None,
            sectors: 0,
            pending: 0,
            faults: 0,
            failed_changes: 0,
        }
    }
}

/// The internal disk of the current folder, with nothing pending and no failure counted yet. A missing file is made of so
/// many sectors of zeros, which take no room on most file systems until they are written.
///
/// `OpenFault::CannotOpen`: it is no file or a link to nowhere, or can be neither opened nor made.
pub fn open_disk<R: Files>(folder: &Folder<R>, sectors: u32) -> Result<FileDisk<R::File>, OpenFault>
    ensures settled { IfOk result (λ disk. disk.pending ≡ 0) }
    ensures counts { IfOk result (λ disk. (disk.faults ≡ 0) × (disk.failed_changes ≡ 0)) }
{
    match open_or_make(folder, sectors) {
        Ok(disk) => Ok(disk),
        Err(_) => Err(OpenFault::CannotOpen(BoardFile::Disk)),
    }
}

/// The stick of the current folder, with nothing pending and no failure counted yet. A missing file is a stick of no
/// sectors. One that may be read alone is there, and each write to it fails.
///
/// `OpenFault::CannotOpen`: it is no file or a link to nowhere, or cannot be read.
pub fn open_stick<R: Files>(folder: &Folder<R>) -> Result<FileDisk<R::File>, OpenFault>
    ensures settled { IfOk result (λ disk. disk.pending ≡ 0) }
    ensures counts { IfOk result (λ disk. (disk.faults ≡ 0) × (disk.failed_changes ≡ 0)) }
{
    match open_or_read(folder) {
        Ok(Some(stick)) => Ok(stick),
        Ok(None) => Ok(FileDisk::absent()),
        Err(_) => Err(OpenFault::CannotOpen(BoardFile::Stick)),
    }
}

fn open_file<R: Files>(
    folder: &Folder<R>,
    writes: bool,
    name: &str,
) -> io::Result<Option<FileDisk<R::File>>>
    ensures settled { IfOk result (λ opened. IfSome opened (λ disk. disk.pending ≡ 0)) }
    ensures counts { IfOk result (λ opened. IfSome opened (λ disk. (disk.faults ≡ 0) × (disk.failed_changes ≡ 0))) }
{
    let mut options = OpenOptions::new();
    options.read(true).write(writes);
    let Some(mut file) = folder.open(&options, name)? else {
        return Ok(None);
    };
    let size = file.seek(SeekFrom::End(0))?;
    Ok(Some(FileDisk::over(Places::new(file, folder.most()), size)))
}

fn open_or_make<R: Files>(folder: &Folder<R>, sectors: u32) -> io::Result<FileDisk<R::File>>
    ensures settled { IfOk result (λ disk. disk.pending ≡ 0) }
    ensures counts { IfOk result (λ disk. (disk.faults ≡ 0) × (disk.failed_changes ≡ 0)) }
{
    if let Some(disk) = open_file(folder, true, BoardFile::Disk.name())? {
        return Ok(disk);
    }
    make_zeros(folder, sectors)?;
    match open_file(folder, true, BoardFile::Disk.name())? {
        Some(disk) => Ok(disk),
        None => Err(io::Error::from(io::ErrorKind::NotFound)),
    }
}

fn make_zeros<R: Files>(folder: &Folder<R>, sectors: u32) -> io::Result<()> {
    let size = sectors as u64 * 512;
    if size > folder.most() {
        return Err(io::Error::from(io::ErrorKind::InvalidInput));
    }
    let file = folder.create(NEW_DISK_FILE)?;
    file.set_len(size)?;
    folder.put_in_place(file, NEW_DISK_FILE, BoardFile::Disk.name())
}

// The stick for reading and writing, or for reading alone where it may not be written.
fn open_or_read<R: Files>(folder: &Folder<R>) -> io::Result<Option<FileDisk<R::File>>>
    ensures settled { IfOk result (λ opened. IfSome opened (λ disk. disk.pending ≡ 0)) }
    ensures counts { IfOk result (λ opened. IfSome opened (λ disk. (disk.faults ≡ 0) × (disk.failed_changes ≡ 0))) }
{
    match open_file(folder, true, BoardFile::Stick.name()) {
        Err(e) if is_protected(e.kind()) => open_file(folder, false, BoardFile::Stick.name()),
        opened => opened,
    }
}

// Whether a file may not be written.
fn is_protected(kind: io::ErrorKind) -> bool {
    kind == io::ErrorKind::PermissionDenied || kind == io::ErrorKind::ReadOnlyFilesystem
}

// Reads from a place of a stream, in bytes. Where there is none, nothing is asked of it.
fn read_from<S: Read + Write + Seek + OpenFile>(
    stream: &mut Option<Places<S>>,
    at: u64,
    buf: &mut [u8],
) -> Result<(), Failed> {
    match stream {
        Some(stream) => stream.read_at(at, buf),
        None => Ok(()),
    }
}

// Writes from a place of a stream, in bytes. Where there is none, nothing is asked of it.
fn write_to<S: Read + Write + Seek + OpenFile>(
    stream: &mut Option<Places<S>>,
    at: u64,
    bytes: &[u8],
) -> Result<(), Failed> {
    match stream {
        Some(stream) => stream.write_at(at, bytes),
        None => Ok(()),
    }
}

// Makes the bytes of a stream last.
fn sync<S: Read + Write + Seek + OpenFile>(stream: &Option<Places<S>>) -> Result<(), Failed> {
    match stream {
        Some(stream) => stream.sync(),
        None => Ok(()),
    }
}

impl<S: Read + Write + Seek + OpenFile> Disk for FileDisk<S> {
    ghost use Rattle.std.specs.Prelude.{[], false};
    ghost use Rattle.std.proofs.lemmas.Bool.{false≢true};
    ghost use Rattle.board_core.specs.Counters.{plain_counters};
    ghost use Rattle.board_core.specs.Disk.{DiskState};
    ghost use Rattle.board_file.specs.FileDisk.{untold_disk};

    ghost state = { λ disk. record { medium = untold_disk disk.sectors disk.pending; counters = plain_counters disk.faults disk.failed_changes } };

    ghost armed = { λ disk left keep h. Prim.cc };

    ghost told_size = { λ disk told. absurd (false≢true told) };

    ghost told_pending = { λ disk told. absurd (false≢true told) };

    fn sectors(&self) -> u64 {
        self.sectors
    }

    fn pending(&self) -> u32 {
        self.pending
    }

    fn read(&mut self, lba: u64, buf: &mut [u8]) -> Result<(), Failed> {
        if read_from(&mut self.stream, lba * 512, buf).is_err() {
            self.pending = 0;
            self.faults = raise(self.faults);
            return Err(Failed);
        }
        Ok(())
    }

    fn write(&mut self, lba: u64, bytes: &[u8]) -> Result<(), Failed> {
        if write_to(&mut self.stream, lba * 512, bytes).is_err() {
            self.pending = 0;
            self.faults = raise(self.faults);
            self.failed_changes = raise(self.failed_changes);
            return Err(Failed);
        }
        self.pending += (bytes.len() / 512) as u32;
        Ok(())
    }

    fn flush(&mut self) -> Result<(), Failed> {
        self.pending = 0;
        if sync(&self.stream).is_err() {
            self.faults = raise(self.faults);
            self.failed_changes = raise(self.failed_changes);
            return Err(Failed);
        }
        Ok(())
    }
}
