// What a sink in memory does.
ghost use Rattle.std.specs.Prelude.{◌≡◌, [], length, IfOk, OnErr, is_err};
ghost use Rattle.board_core.specs.Streams.{Puts};
ghost use Rattle.board_mem.specs.Fails.{after_call, count_with};
ghost use Rattle.board_mem.specs.MemSink.{mem_sink_state, mem_sink_plan, mem_sink_capacity, refuses_put};

use crate::fails::{FailAt, Schedule};
use crate::mem_sink::MemSink;
use board_core::{Failed, Sink, raise};
use std::alloc::{AllocError, Global};

impl MemSink {
    /// An empty sink for at most `capacity` bytes, of whose puts these fail. It takes all its memory here: that of the
    /// bytes and the list. `AllocError` is want of memory.
    pub fn new(alloc: Global, capacity: usize, fails: &[FailAt]) -> Result<MemSink, AllocError>
        ensures bytes { IfOk result (λ sink. (mem_sink_state sink).bytes ≡ []) }
        ensures faults { IfOk result (λ sink. (mem_sink_state sink).faults ≡ 0) }
        ensures capacity { IfOk result (λ sink. mem_sink_capacity sink ≡ capacity) }
        ensures fails { IfOk result (λ sink. (mem_sink_plan sink).fails ≡ fails.now) }
        ensures calls { IfOk result (λ sink. (mem_sink_plan sink).calls ≡ 0) }
    {
        Ok(MemSink {
            bytes: Vec::with_capacity(alloc, capacity)?,
            capacity,
            schedule: Schedule::new(alloc, fails)?,
            faults: 0,
        })
    }

    /// The bytes that were put, the oldest first.
    pub fn bytes(&self) -> &[u8]
        ensures { result.now ≡ (mem_sink_state self.now).bytes }
    {
        &self.bytes
    }
}

impl Sink for MemSink {
    ghost state = { mem_sink_state };

    fn put(&mut self, bytes: &[u8]) -> Result<(), Failed>
        ensures meets { Puts bytes.now (mem_sink_state self.old) (mem_sink_state self.new) result }
        ensures refused { is_err result ≡ refuses_put self.old (length bytes.now) }
        ensures none { OnErr result ((mem_sink_state self.new).bytes ≡ (mem_sink_state self.old).bytes) }
        ensures faults { (mem_sink_state self.new).faults ≡ count_with (is_err result) (mem_sink_state self.old).faults }
        ensures plan { mem_sink_plan self.new ≡ after_call (mem_sink_plan self.old) }
        ensures capacity { mem_sink_capacity self.new ≡ mem_sink_capacity self.old }
    {
        let is_named = self.schedule.next().is_some();
        if is_named || self.capacity - self.bytes.len() < bytes.len() {
            self.faults = raise(self.faults);
            return Err(Failed);
        }
        // The room was reserved, so this takes no memory and does not fail.
        let _ = self.bytes.extend_from_slice(bytes);
        Ok(())
    }
}
