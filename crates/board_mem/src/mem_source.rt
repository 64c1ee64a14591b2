// A source in memory. Its file names nothing of specs/ that names the source.
ghost use Rattle.std.specs.Prelude.{◌≤◌, vec_len};

use crate::fails::Schedule;

/// A source whose bytes are in memory, and whose takes fail by a list. It tells its content.
#[derive(Drop)]
pub struct MemSource {
    pub(crate) bytes: Vec<u8>,
    pub(crate) taken: usize,
    pub(crate) schedule: Schedule,
    pub(crate) faults: u64,
    ghost within: { taken ≤ vec_len bytes },
}
