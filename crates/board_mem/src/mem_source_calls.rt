// What a source in memory does.
ghost use Rattle.std.specs.Prelude.{◌≡◌, ◌≤◌, ◌++◌, length, drop, min, IfOk, OnErr, is_err};
ghost use Rattle.board_core.specs.Streams.{Takes};
ghost use Rattle.board_mem.specs.Fails.{FollowsPlan, count_with};
ghost use Rattle.board_mem.specs.MemSource.{mem_source_state, mem_source_plan};

use crate::fails::{FailAt, Schedule};
use crate::mem_source::MemSource;
use board_core::{Failed, Source, raise};
use std::alloc::{AllocError, Global};

impl MemSource {
    /// A source of these bytes, of whose takes these fail. It takes all its memory here: that of the bytes and the list.
    /// `AllocError` is want of memory.
    pub fn new(alloc: Global, content: &[u8], fails: &[FailAt]) -> Result<MemSource, AllocError>
        ensures bytes { IfOk result (λ source. (mem_source_state source).bytes ≡ content.now) }
        ensures faults { IfOk result (λ source. (mem_source_state source).faults ≡ 0) }
        ensures fails { IfOk result (λ source. (mem_source_plan source).fails ≡ fails.now) }
        ensures calls { IfOk result (λ source. (mem_source_plan source).calls ≡ 0) }
    {
        Ok(MemSource {
            bytes: content.to_vec(alloc)?,
            taken: 0,
            schedule: Schedule::new(alloc, fails)?,
            faults: 0,
        })
    }
}

// Copies bytes to the front of a buffer.
fn copy_to_front(buf: &mut [u8], bytes: &[u8])
    requires { length bytes.now ≤ length buf.old }
    ensures { buf.new ≡ bytes.now ++ drop (length bytes.now) buf.old }
{
    buf[..bytes.len()].copy_from_slice(bytes);
}

impl Source for MemSource {
    ghost state = { mem_source_state };

    fn take(&mut self, buf: &mut [u8]) -> Result<usize, Failed>
        ensures meets { Takes buf.new (mem_source_state self.old) (mem_source_state self.new) result }
        ensures planned { FollowsPlan (mem_source_plan self.old) (mem_source_plan self.new) (is_err result) }
        ensures faults { (mem_source_state self.new).faults ≡ count_with (is_err result) (mem_source_state self.old).faults }
        // As many bytes as there are and as the buffer holds.
        ensures count { IfOk result (λ count. count ≡ min (length buf.old) (length (mem_source_state self.old).bytes)) }
        ensures rest { IfOk result (λ count. drop count buf.new ≡ drop count buf.old) }
        ensures untouched { OnErr result (buf.new ≡ buf.old) }
    {
        if self.schedule.next().is_some() {
            self.faults = raise(self.faults);
            return Err(Failed);
        }
        let count = buf.len().min(self.bytes.len() - self.taken);
        copy_to_front(buf, &self.bytes[self.taken..self.taken + count]);
        self.taken += count;
        Ok(count)
    }
}
