//! The devices of a board, as traits that may fail at any call, and fuses that stop one at a chosen call.
//!
//! - `flash`, `tpm`, `disk`, `hook` and `streams` have a trait for each device. Each call has one relation over what the
//!   device holds and counts before it and after it.
//! - `counters` has what a device counts and where its stop stands, and `torn` the records of ranges left torn.
//! - `fuse` and `fuse_calls` are a fuse over a flash, `fuse_tpm` and `fuse_tpm_calls` one over a TPM, and `fuse_disk` and
//!   `fuse_disk_calls` one over a disk: a struct and its calls. `fuse_disk_parts` has the parts of the calls of the last.
//! - `hook_row` is a row of a hook, and `hook_rows` looks one up in a list.
//! - `device` has the names of the devices, and `platform` a board of them.
#![tactic(auto)]

mod counters;
mod device;
mod disk;
mod flash;
mod fuse;
mod fuse_calls;
mod fuse_disk;
mod fuse_disk_calls;
mod fuse_disk_parts;
mod fuse_tpm;
mod fuse_tpm_calls;
mod hook;
mod hook_row;
mod hook_rows;
mod platform;
mod streams;
mod torn;
mod tpm;

pub use counters::{Counters, FuseState, Turn, raise};
pub use device::{Device, Drive, Failed, Fault, Space};
pub use disk::Disk;
pub use flash::{Flash, make_erased_page};
pub use fuse::Fuse;
pub use fuse_disk::FuseDisk;
pub use fuse_tpm::FuseTpm;
pub use hook::{EnrollFault, Hook};
pub use hook_row::HookRow;
pub use hook_rows::{MOST_ROWS, has_row, is_accepted};
pub use platform::Platform;
pub use streams::{Sink, Source};
pub use torn::{Torn, note};
pub use tpm::Tpm;
