// Reading and writing at a place of a stream, in bytes from its start.
ghost use Rattle.std.specs.Prelude.{◌≡◌};

use board_core::Failed;
use std::fs::OpenFile;
use std::io::{Read, Seek, SeekFrom, Write};

/// A stream with places, of which no byte from a limit on is written.
#[derive(Drop)]
pub struct Places<S> {
    stream: S,
    most: u64,
}

impl<S> Places<S> {
    /// The places of a stream, of which so many bytes may be written.
    pub fn new(stream: S, most: u64) -> Places<S> {
        Places { stream, most }
    }
}

impl<S: Read + Write + Seek + OpenFile> Places<S> {
    /// Fills `buf` with the bytes from a place. `Failed`: `buf` holds any bytes.
    pub fn read_at(&mut self, at: u64, buf: &mut [u8]) -> Result<(), Failed> {
        if self.stream.seek(SeekFrom::Start(at)).is_err() || self.stream.read_exact(buf).is_err() {
            return Err(Failed);
        }
        Ok(())
    }

    /// Writes the bytes from a place. `Failed`: perhaps some of them stand there, and where they pass the limit none does.
    pub fn write_at(&mut self, at: u64, bytes: &[u8]) -> Result<(), Failed> {
        let is_within = at <= self.most && bytes.len() as u64 <= self.most - at;
        if !is_within
            || self.stream.seek(SeekFrom::Start(at)).is_err()
            || self.stream.write_all(bytes).is_err()
        {
            return Err(Failed);
        }
        Ok(())
    }

    /// Makes all bytes that were written last. `Failed`: perhaps some do not.
    pub fn sync(&self) -> Result<(), Failed> {
        self.stream.sync_data().map_err(|_| Failed)
    }
}
