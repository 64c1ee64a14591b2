// A source of bytes and a sink of bytes.
ghost use Rattle.board_core.specs.Streams.{StreamState, Takes, Puts};

use crate::device::Failed;

/// Bytes that are taken in order, as those of standard input. This is the project's own model of a device. It has a
/// count of faults, and no stop.
pub trait Source {
    ghost state: { Self → StreamState };

    /// Moves the next bytes to the front of `buf`, and answers how many. It moves at least one, unless the input has
    /// ended or `buf` is empty: a 0 for a buffer that is not empty is the end.
    ///
    /// `Failed`: the source failed, its count of faults rose, and no byte was moved.
    fn take(&mut self, buf: &mut [u8]) -> Result<usize, Failed>
        ensures meets { Takes buf.new (state self.old) (state self.new) result };
}

/// Bytes that are put in order, as those of standard output. This is the project's own model of a device. It has a
/// count of faults, and no stop.
pub trait Sink {
    ghost state: { Self → StreamState };

    /// Appends all the bytes.
    ///
    /// `Failed`: the sink failed, its count of faults rose, and a front of the bytes was appended, perhaps none or all.
    fn put(&mut self, bytes: &[u8]) -> Result<(), Failed>
        ensures meets { Puts bytes.now (state self.old) (state self.new) result };
}
