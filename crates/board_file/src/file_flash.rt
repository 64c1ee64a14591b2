// A flash over a file, or any other stream with places. It tells no content: what a file keeps is not claimed.
ghost use Rattle.std.specs.Prelude.{◌≡◌, IfOk};

use crate::folder::Folder;
use crate::open_fault::{BoardFile, OpenFault};
use crate::stream::Places;
use board_core::{Failed, Flash, make_erased_page, raise};
use std::fs::{Files, OpenFile, OpenOptions};
use std::io;
use std::io::{Read, Seek, SeekFrom, Write};

const PAGE_SIZE: usize = 4096;

const NEW_FLASH_FILE: &str = "flash.bin.new";

/// A flash whose bytes are those of a stream. Each failure of the stream is counted.
#[derive(Drop)]
pub struct FileFlash<S> {
    stream: Places<S>,
    size: u32,
    faults: u64,
    failed_changes: u64,
}

impl<S> FileFlash<S> {
    /// A flash of so many bytes, which are the first of the stream. No failure is counted yet.
    pub fn new(stream: S, size: u32) -> FileFlash<S>
        ensures size { result.size ≡ size }
        ensures faults { result.faults ≡ 0 }
        ensures failed_changes { result.failed_changes ≡ 0 }
    {
        FileFlash::over(Places::new(stream, u64::MAX), size)
    }

    fn over(stream: Places<S>, size: u32) -> FileFlash<S>
        ensures size { result.size ≡ size }
        ensures faults { result.faults ≡ 0 }
        ensures failed_changes { result.failed_changes ≡ 0 }
    {
        FileFlash {
            stream,
            size,
            faults: 0,
            failed_changes: 0,
        }
    }
}

/// The flash of the current folder, with the size of its file, and no failure counted yet. A missing file is made of so
/// many erased pages of 4,096 bytes.
///
/// `OpenFault::CannotOpen`: it is no file or a link to nowhere, can be neither opened nor made, or has over 4,294,967,295
/// bytes.
pub fn open_flash<R: Files>(folder: &Folder<R>, pages: u32) -> Result<FileFlash<R::File>, OpenFault>
    ensures counts { IfOk result (λ flash. (flash.faults ≡ 0) × (flash.failed_changes ≡ 0)) }
{
    match open_or_make(folder, pages) {
        Ok(flash) => Ok(flash),
        Err(_) => Err(OpenFault::CannotOpen(BoardFile::Flash)),
    }
}

fn open_or_make<R: Files>(folder: &Folder<R>, pages: u32) -> io::Result<FileFlash<R::File>>
    ensures counts { IfOk result (λ flash. (flash.faults ≡ 0) × (flash.failed_changes ≡ 0)) }
{
    let mut options = OpenOptions::new();
    options.read(true).write(true);
    let mut file = match folder.open(&options, BoardFile::Flash.name())? {
        Some(file) => file,
        None => {
            make_erased(folder, pages)?;
            options.open(folder.files(), BoardFile::Flash.name())?
        }
    };
    let size = file.seek(SeekFrom::End(0))?;
    match u32::try_from(size) {
        Ok(size) => Ok(FileFlash::over(Places::new(file, folder.most()), size)),
        Err(_) => Err(io::Error::from(io::ErrorKind::InvalidData)),
    }
}

fn make_erased<R: Files>(folder: &Folder<R>, pages: u32) -> io::Result<()> {
    if pages as u64 * PAGE_SIZE as u64 > folder.most() {
        return Err(io::Error::from(io::ErrorKind::InvalidInput));
    }
    let mut file = folder.create(NEW_FLASH_FILE)?;
    let blank = make_erased_page();
    for _ in 0..pages {
        file.write_all(&blank)?;
    }
    folder.put_in_place(file, NEW_FLASH_FILE, BoardFile::Flash.name())
}

// Programs bytes. What is shorter than a page is a record of nvdata, with which all that was changed before it is made to last.
fn program_at<S: Read + Write + Seek + OpenFile>(
    stream: &mut Places<S>,
    at: u64,
    bytes: &[u8],
) -> Result<(), Failed> {
    stream.write_at(at, bytes)?;
    if bytes.len() < PAGE_SIZE {
        stream.sync()?;
    }
    Ok(())
}

impl<S: Read + Write + Seek + OpenFile> Flash for FileFlash<S> {
    ghost use Rattle.std.specs.Prelude.{[], false};
    ghost use Rattle.std.proofs.lemmas.Bool.{false≢true};
    ghost use Rattle.board_core.specs.Counters.{plain_counters};
    ghost use Rattle.board_core.specs.Flash.{FlashState};

    ghost state = { λ flash. record { medium = record { size = flash.size; told = false; bytes = []; torn = [] }; counters = plain_counters flash.faults flash.failed_changes } };

    ghost armed = { λ flash left keep h. Prim.cc };

    ghost told_size = { λ flash told. absurd (false≢true told) };

    fn size(&self) -> u32 {
        self.size
    }

    fn read(&mut self, at: u32, buf: &mut [u8]) -> Result<(), Failed> {
        if self.stream.read_at(at as u64, buf).is_err() {
            self.faults = raise(self.faults);
            return Err(Failed);
        }
        Ok(())
    }

    fn program(&mut self, at: u32, bytes: &[u8]) -> Result<(), Failed> {
        if program_at(&mut self.stream, at as u64, bytes).is_err() {
            self.faults = raise(self.faults);
            self.failed_changes = raise(self.failed_changes);
            return Err(Failed);
        }
        Ok(())
    }

    fn erase(&mut self, page: u32) -> Result<(), Failed> {
        let blank = make_erased_page();
        if self.stream.write_at(page as u64 * 4096, &blank).is_err() {
            self.faults = raise(self.faults);
            self.failed_changes = raise(self.failed_changes);
            return Err(Failed);
        }
        Ok(())
    }
}
