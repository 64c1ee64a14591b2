// A sink in memory. Its file names nothing of specs/ that names the sink.
ghost use Rattle.std.specs.Prelude.{◌≤◌, vec_len, vec_capacity};

use crate::fails::Schedule;

/// A sink of so many bytes in memory, whose puts fail by a list. It tells its content.
#[derive(Drop)]
pub struct MemSink {
    pub(crate) bytes: Vec<u8>,
    pub(crate) capacity: usize,
    pub(crate) schedule: Schedule,
    pub(crate) faults: u64,
    ghost within: { vec_len bytes ≤ capacity },
    ghost room: { capacity ≤ vec_capacity bytes },
}
