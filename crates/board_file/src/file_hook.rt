// A hook over a file of accepted signatures. It tells the rows by which it answers: those that were read from the file
// when it was opened, and those that were enrolled since. What the file keeps is not claimed.
ghost use Rattle.std.specs.Prelude.{◌≡◌, ◌≤◌, vec_len, IfOk};

use crate::folder::Folder;
use crate::hook_file::read_hook;
use crate::hook_file_fault::HookFileFault;
use crate::hook_text::{HookTextFault, text_of_rows};
use crate::open_fault::{BoardFile, OpenFault};
use board_core::{EnrollFault, Failed, Hook, HookRow, MOST_ROWS, has_row, is_accepted, raise};
use std::alloc::Global;
use std::fs::Files;
use std::{fs, io};

const NEW_HOOK_FILE: &str = "hook.toml.new";

// A file has at most so many bytes for each row that may be in it.
const ROW_SIZE: u64 = 512;

/// A hook whose rows are those of a file, which is read when it is opened. A row that is enrolled makes the file anew and
/// renames it, so that a stop leaves the old rows or the new ones; comments of the old file are not kept. Each failure of
/// the file system is counted.
#[derive(Drop)]
pub struct FileHook<'a, R: Files> {
    folder: &'a Folder<'a, R>,
    alloc: Global,
    rows: Vec<HookRow>,
    faults: u64,
    ghost few: { vec_len rows ≤ 4096 },
}

impl<'a, R: Files + AllocGlobal> FileHook<'a, R> {
    /// The hook of the current folder. A missing file has no rows. No failure is counted yet.
    ///
    /// `OpenFault::CannotOpen`: the file is no file or a link to nowhere, cannot be read, or has over 2,097,152 bytes (512 for
    /// each of 4,096 rows), or `read_hook` refuses it. `OpenFault::Memory`: there is none for its text or its rows.
    pub fn open(folder: &'a Folder<'a, R>) -> Result<FileHook<'a, R>, OpenFault>
        ensures counts { IfOk result (λ hook. hook.faults ≡ 0) }
    {
        Ok(FileHook {
            folder,
            alloc: folder.files().alloc(),
            rows: read_rows(folder)?,
            faults: 0,
        })
    }
}

fn read_rows<R: Files + AllocGlobal>(folder: &Folder<R>) -> Result<Vec<HookRow>, OpenFault>
    ensures few { IfOk result (λ rows. vec_len rows ≤ 4096) }
{
    let alloc = folder.files().alloc();
    let Some(text) = read_text(folder)? else {
        return Ok(Vec::new(alloc));
    };
    match read_hook(alloc, &text) {
        Ok(rows) => Ok(rows),
        Err(HookFileFault::BadHookFile(_)) => Err(OpenFault::CannotOpen(BoardFile::Hook)),
        Err(HookFileFault::Memory) => Err(OpenFault::Memory),
    }
}

// The text of the file, where there is one.
fn read_text<R: Files + AllocGlobal>(folder: &Folder<R>) -> Result<Option<String>, OpenFault> {
    match folder.find(BoardFile::Hook.name()) {
        Ok(Some(found)) if found.len() <= MOST_ROWS as u64 * ROW_SIZE => {}
        Ok(None) => return Ok(None),
        _ => return Err(OpenFault::CannotOpen(BoardFile::Hook)),
    }
    match fs::read_to_string(folder.files(), BoardFile::Hook.name()) {
        Ok(text) => Ok(Some(text)),
        Err(e) if e.kind() == io::ErrorKind::OutOfMemory => Err(OpenFault::Memory),
        Err(_) => Err(OpenFault::CannotOpen(BoardFile::Hook)),
    }
}

impl<R: Files> Hook for FileHook<'_, R> {
    ghost use Rattle.std.specs.Prelude.{true};
    ghost use Rattle.board_core.specs.Hook.{HookState};

    ghost state = { λ hook. record { told = true; rows = hook.rows.items; faults = hook.faults } };

    fn verify(
        &mut self,
        algorithm: u32,
        key: &[u8],
        digest: &[u8],
        signature: &[u8],
    ) -> Result<bool, Failed> {
        Ok(is_accepted(&self.rows, algorithm, key, digest, signature))
    }

    fn enroll(&mut self, row: &HookRow) -> Result<(), EnrollFault> {
        if has_row(&self.rows, row) {
            return Ok(());
        }
        if self.rows.len() >= MOST_ROWS {
            return Err(EnrollFault::Full);
        }
        let Ok(_) = self.rows.reserve(1) else {
            return Err(EnrollFault::Memory);
        };
        let text = match text_of_rows(self.alloc, &self.rows, row) {
            Ok(text) => text,
            Err(HookTextFault::Memory) => return Err(EnrollFault::Memory),
            Err(HookTextFault::Algorithm) => {
                self.faults = raise(self.faults);
                return Err(EnrollFault::Failed);
            }
        };
        let name = BoardFile::Hook.name();
        if self
            .folder
            .replace(name, NEW_HOOK_FILE, text.as_bytes())
            .is_err()
        {
            self.faults = raise(self.faults);
            return Err(EnrollFault::Failed);
        }
        // There is room for it.
        let _ = self.rows.push(*row);
        Ok(())
    }
}
