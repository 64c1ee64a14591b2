// A TPM in memory. Its file names nothing of specs/ that names the TPM.
ghost use Rattle.std.specs.Prelude.{◌≤◌, length, vec_capacity};

use crate::fails::Schedule;

/// One space of a TPM: its bytes, at most 64, and its lock.
#[derive(Drop)]
pub struct MemSpace {
    pub(crate) bytes: Vec<u8>,
    pub(crate) is_locked: bool,
    ghost fits: { length bytes.items ≤ 64 },
    ghost room: { 64 ≤ vec_capacity bytes },
}

/// A TPM whose spaces are in memory, and whose calls fail by a list. It tells its content.
#[derive(Drop)]
pub struct MemTpm {
    pub(crate) firmware: MemSpace,
    pub(crate) kernel: MemSpace,
    pub(crate) schedule: Schedule,
    pub(crate) faults: u64,
    pub(crate) failed_changes: u64,
}
