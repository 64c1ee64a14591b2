// The current folder, which one run has at a time: how its files are opened, and made anew so that a stop leaves the old file
// whole or the new one.
use crate::open_fault::{BoardFile, OpenFault};
use std::fs::{File, Files, Metadata, OpenFile, OpenOptions};
use std::io::{Read, Write};
use std::os::fd::AsRawFd;
use std::{fs, io};

// Numbers under this one are those of standard input, output and error.
const FIRST_FREE: i32 = 3;

// What the system tells of the limits of a process.
const LIMITS: &str = "/proc/self/limits";

const THIS_FOLDER: &str = ".";

/// An open folder of the system, as far as a run needs it to have that folder for itself.
pub trait Handle {
    /// The number of its descriptor.
    fn number(&self) -> i32;

    /// Takes the lock of the folder, which ends with the process, however that ends.
    ///
    /// An error: another process has it, or the file system has no locks.
    fn take_lock(&self) -> io::Result<()>;
}

impl Handle for File {
    fn number(&self) -> i32 {
        self.as_raw_fd()
    }

    fn take_lock(&self) -> io::Result<()> {
        Ok(self.try_lock()?)
    }
}

/// The current folder, of which this run has the lock. No number of a standard stream was free when it was taken, so that no file
/// of it takes the place of a stream that was closed.
#[derive(Drop)]
pub struct Folder<'a, R: Files> {
    files: &'a R,
    handle: R::File,
    most: u64,
}

impl<'a, R: Files> Folder<'a, R>
where
    R::File: Handle,
{
    /// Takes the current folder.
    ///
    /// `OpenFault::CannotOpen` names the flash, which would be the first to be opened: another run has the folder, it cannot be
    /// read, its file system has no locks, or the number of a standard stream is free.
    pub fn take(files: &'a R) -> Result<Folder<'a, R>, OpenFault> {
        match take_folder(files) {
            Ok(folder) => Ok(folder),
            Err(_) => Err(OpenFault::CannotOpen(BoardFile::Flash)),
        }
    }
}

fn take_folder<R: Files>(files: &R) -> io::Result<Folder<'_, R>>
where
    R::File: Handle,
{
    let handle = File::open(files, THIS_FOLDER)?;
    if handle.number() < FIRST_FREE {
        return Err(io::Error::from(io::ErrorKind::Other));
    }
    handle.take_lock()?;
    Ok(Folder {
        files,
        handle,
        most: size_limit(files).unwrap_or(u64::MAX),
    })
}

// The limit on the size of a file that this process writes, where the system tells one. A write behind it would end the process by
// a signal.
fn size_limit<R: Files>(files: &R) -> Option<u64> {
    let mut file = File::open(files, LIMITS).ok()?;
    let mut buf = [0; 1024];
    let count = file.read(&mut buf).ok()?;
    let text = str::from_utf8(&buf[..count]).ok()?;
    let line = text.lines().find(|line| line.starts_with("Max file size"))?;
    line.split_whitespace().nth(3)?.parse().ok()
}

impl<R: Files> Folder<'_, R> {
    /// The runtime of this run.
    pub(crate) fn files(&self) -> &R {
        self.files
    }

    /// The greatest size of a file that this process may write, in bytes.
    pub(crate) fn most(&self) -> u64 {
        self.most
    }

    /// What is known of the file of this name, through a link; none where there is none.
    ///
    /// An error: it is no file, as a folder, a pipe or a device is none, or a link to nowhere, or nothing can be known of it.
    pub(crate) fn find(&self, name: &str) -> io::Result<Option<Metadata>> {
        match fs::metadata(self.files, name) {
            Ok(found) if found.is_file() => Ok(Some(found)),
            Ok(_) => Err(io::Error::from(io::ErrorKind::InvalidInput)),
            Err(e) if e.kind() == io::ErrorKind::NotFound && !self.is_link(name) => Ok(None),
            Err(e) => Err(e),
        }
    }

    /// Whether a link has this name.
    pub(crate) fn is_link(&self, name: &str) -> bool {
        matches!(fs::symlink_metadata(self.files, name), Ok(found) if found.is_symlink())
    }

    /// Opens the file of this name; none where there is none.
    pub(crate) fn open(&self, how: &OpenOptions, name: &str) -> io::Result<Option<R::File>> {
        match self.find(name)? {
            Some(_) => Ok(Some(how.open(self.files, name)?)),
            None => Ok(None),
        }
    }

    /// A new file of this name, in place of one that a run left that did not come to its end. It is not made through a link.
    pub(crate) fn create(&self, new_name: &str) -> io::Result<R::File> {
        match fs::remove_file(self.files, new_name) {
            Err(e) if e.kind() != io::ErrorKind::NotFound => return Err(e),
            _ => {}
        }
        File::create_new(self.files, new_name)
    }

    /// Puts a file that was written in the place of the one with this name. Its bytes last before it takes the name, and so does
    /// the name, where the file system can.
    pub(crate) fn put_in_place(&self, file: R::File, new_name: &str, name: &str) -> io::Result<()> {
        file.sync_all()?;
        drop(file);
        fs::rename(self.files, new_name, name)?;
        match self.handle.sync_all() {
            Err(e) if !is_unable(e.kind()) => Err(e),
            _ => Ok(()),
        }
    }

    /// Makes a file anew with these bytes, by a new file that takes its place and keeps its mode.
    ///
    /// An error: a link has the name, the bytes are more than this process may write, or the file system failed.
    pub(crate) fn replace(&self, name: &str, new_name: &str, bytes: &[u8]) -> io::Result<()> {
        if self.is_link(name) || bytes.len() as u64 > self.most {
            return Err(io::Error::from(io::ErrorKind::InvalidInput));
        }
        let old = self.find(name)?;
        let mut file = self.create(new_name)?;
        file.write_all(bytes)?;
        if let Some(old) = old {
            // A file system without modes keeps none.
            let _ = file.set_permissions(old.permissions());
        }
        self.put_in_place(file, new_name, name)
    }
}

// Whether a call failed because the file system does not have it.
fn is_unable(kind: io::ErrorKind) -> bool {
    kind == io::ErrorKind::InvalidInput || kind == io::ErrorKind::Unsupported
}
