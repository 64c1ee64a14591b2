// A sink over a writer, as standard output is one. It tells no content.
use board_core::{Failed, Sink, raise};
use std::io::Write;

/// A sink whose bytes go to a writer. Each failure of the writer is counted.
#[derive(Drop)]
pub struct StdSink<W> {
    writer: W,
    faults: u64,
}

impl<W> StdSink<W> {
    ghost use Rattle.std.specs.Prelude.{◌≡◌};

    /// A sink over this writer. No failure is counted yet.
    pub fn new(writer: W) -> StdSink<W>
        ensures faults { result.faults ≡ 0 }
    {
        StdSink { writer, faults: 0 }
    }
}

impl<W: Write> Sink for StdSink<W> {
    ghost use Rattle.std.specs.Prelude.{[], false};
    ghost use Rattle.board_core.specs.Streams.{StreamState};

    ghost state = { λ sink. record { told = false; bytes = []; faults = sink.faults } };

    fn put(&mut self, bytes: &[u8]) -> Result<(), Failed> {
        if self.writer.write_all(bytes).is_err() || self.writer.flush().is_err() {
            self.faults = raise(self.faults);
            return Err(Failed);
        }
        Ok(())
    }
}
