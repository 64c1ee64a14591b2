// Bytes that are put together on the stack, up to a sector.
ghost use Rattle.std.specs.Prelude.{◌≡◌, ◌+◌, ◌-◌, ◌≤◌, [], ◌++◌, length, replicate};
ghost use Rattle.byteorder.specs.Endian.{little_bytes};

use crate::layout::SECTOR;
use byteorder::{ByteOrder, LittleEndian};
use std::marker::Model;

// At most 512 bytes, seen as the list of them. The room behind them is 0.
#[derive(Drop)]
pub(crate) struct Bytes {
    bytes: [u8; SECTOR],
    len: usize,
}

impl Model for Bytes {
    ghost use Rattle.std.specs.Prelude.{List, ℕ, ◌≡◌, ◌-◌, ◌≤◌, take, drop, replicate};
    ghost use Rattle.gpt_core.specs.Room.{IsPadded};

    ghost Value = { List ℕ };

    ghost view = { λ b. take b.len b.bytes };

    ghost invariant = { λ b. IsPadded b.len b.bytes };
}

impl Bytes {
    // No bytes.
    pub(crate) fn new() -> Bytes
        ensures { result ≡ [] }
    {
        Bytes {
            bytes: [0; SECTOR],
            len: 0,
        }
    }

    // The bytes so far.
    pub(crate) fn as_slice(&self) -> &[u8]
        ensures { result.now ≡ self.now }
    {
        &self.bytes[..self.len]
    }

    // Appends some bytes.
    pub(crate) fn push(&mut self, more: &[u8])
        requires { length self.old + length more.now ≤ 512 }
        ensures bytes { self.new ≡ self.old ++ more.now }
        ensures size { length self.new ≡ length self.old + length more.now }
    {
        let end = self.len + more.len();
        self.bytes[self.len..end].copy_from_slice(more);
        self.len = end;
    }

    // Appends a little-endian `u32`.
    pub(crate) fn push_u32(&mut self, number: u32)
        requires { length self.old + 4 ≤ 512 }
        ensures bytes { self.new ≡ self.old ++ little_bytes 4 number }
        ensures size { length self.new ≡ length self.old + 4 }
    {
        let mut bytes = [0; 4];
        LittleEndian::write_u32(&mut bytes, number);
        self.push(&bytes);
    }

    // Appends a little-endian `u64`.
    pub(crate) fn push_u64(&mut self, number: u64)
        requires { length self.old + 8 ≤ 512 }
        ensures bytes { self.new ≡ self.old ++ little_bytes 8 number }
        ensures size { length self.new ≡ length self.old + 8 }
    {
        let mut bytes = [0; 8];
        LittleEndian::write_u64(&mut bytes, number);
        self.push(&bytes);
    }

    // The bytes, and zeros behind them up to a whole sector.
    pub(crate) fn sector(self) -> [u8; SECTOR]
        ensures { result ≡ self ++ replicate (512 - length self) 0 }
    {
        self.bytes
    }
}
