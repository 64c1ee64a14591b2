//! Devices in memory, for tests and for images that a program makes: `MemFlash`, `MemTpm`, `MemDisk`, `TableHook`,
//! `MemSource` and `MemSink`. Each tells its content, takes its memory when it is made, and fails exactly at the calls that its list
//! of `FailAt` names (a sink also where a put does not fit). `Remains` says what a failed change leaves. In contracts its
//! content is `mem_flash_state` and the like of specs/, and its list `mem_flash_plan` and the like.
#![tactic(auto)]

mod fails;
mod mem_disk;
mod mem_disk_calls;
mod mem_flash;
mod mem_flash_calls;
mod mem_sink;
mod mem_sink_calls;
mod mem_source;
mod mem_source_calls;
mod mem_tpm;
mod mem_tpm_calls;
mod ranges;
mod table_hook;
mod table_hook_calls;

pub use fails::{FailAt, Remains};
pub use mem_disk::MemDisk;
pub use mem_flash::MemFlash;
pub use mem_sink::MemSink;
pub use mem_source::MemSource;
pub use mem_tpm::MemTpm;
pub use table_hook::TableHook;
