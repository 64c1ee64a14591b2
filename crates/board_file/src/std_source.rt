// A source over a reader, as standard input is one. It tells no content.
use board_core::{Failed, Source, raise};
use std::io::Read;

/// A source whose bytes come from a reader. Each failure of the reader is counted.
#[derive(Drop)]
pub struct StdSource<I> {
    reader: I,
    faults: u64,
}

impl<I> StdSource<I> {
    ghost use Rattle.std.specs.Prelude.{◌≡◌};

    /// A source over this reader. No failure is counted yet.
    pub fn new(reader: I) -> StdSource<I>
        ensures faults { result.faults ≡ 0 }
    {
        StdSource { reader, faults: 0 }
    }
}

impl<I: Read> Source for StdSource<I> {
    ghost use Rattle.std.specs.Prelude.{[], false};
    ghost use Rattle.board_core.specs.Streams.{StreamState};

    ghost state = { λ source. record { told = false; bytes = []; faults = source.faults } };

    fn take(&mut self, buf: &mut [u8]) -> Result<usize, Failed> {
        let Ok(count) = self.reader.read(buf) else {
            self.faults = raise(self.faults);
            return Err(Failed);
        };
        Ok(count)
    }
}
