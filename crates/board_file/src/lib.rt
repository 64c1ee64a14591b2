//! The devices of a board over files of the current folder, and over standard input and output.
//!
//! - `file_flash`, `file_disk`, `file_tpm`, `file_hook`, `std_source` and `std_sink` have a device each, which counts its failures. They
//!   tell no content, but for the rows in memory of a hook: what a file keeps is not claimed.
//! - `hook_file` reads the file of accepted signatures, `hook_file_fault` says why it did not, and `hook_text` writes it.
//! - `folder` takes the current folder for one run, and opens its files and makes them anew. `stream` reads and writes at a place, and
//!   `open_fault` names the files and says why one was not opened.
#![tactic(auto)]

mod file_disk;
mod file_flash;
mod file_hook;
mod file_tpm;
mod folder;
mod hook_file;
mod hook_file_fault;
mod hook_text;
mod open_fault;
mod std_sink;
mod std_source;
mod stream;

pub use file_disk::{FileDisk, open_disk, open_stick};
pub use file_flash::{FileFlash, open_flash};
pub use file_hook::FileHook;
pub use file_tpm::FileTpm;
pub use folder::{Folder, Handle};
pub use hook_file::read_hook;
pub use hook_file_fault::HookFileFault;
pub use open_fault::{BoardFile, OpenFault};
pub use std_sink::StdSink;
pub use std_source::StdSource;
