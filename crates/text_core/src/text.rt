// A text that is put together without taking memory.
ghost use Rattle.std.specs.Prelude.{◌≡◌, ◌+◌, ◌≤◌, [], ◌++◌, length, decimal, map};
ghost use Rattle.text_core.specs.Numbers.{hex_number};
ghost use Rattle.text_core.specs.Shown as spec;

use itoa::Buffer;
use std::marker::Model;

/// The most bytes of a text.
pub const CAPACITY: usize = 2048;

/// A text of at most 2,048 bytes, seen as the list of its bytes.
#[derive(Drop)]
pub struct Text {
    bytes: [u8; CAPACITY],
    len: usize,
}

impl Model for Text {
    ghost use Rattle.std.specs.Prelude.{List, ℕ, ◌≤◌, take};

    ghost Value = { List ℕ };

    ghost view = { λ text. take text.len text.bytes };

    ghost invariant = { λ text. text.len ≤ 2048 };
}

impl Text {
    /// The empty text.
    pub fn new() -> Text
        ensures { result ≡ [] }
    {
        Text {
            bytes: [0; CAPACITY],
            len: 0,
        }
    }

    /// The bytes of the text.
    pub fn as_slice(&self) -> &[u8]
        ensures { result.now ≡ self.now }
    {
        &self.bytes[..self.len]
    }

    /// Appends some bytes.
    pub fn push(&mut self, more: &[u8])
        requires { length self.old + length more.now ≤ 2048 }
        ensures text { self.new ≡ self.old ++ more.now }
        ensures size { length self.new ≡ length self.old + length more.now }
    {
        let end = self.len + more.len();
        self.bytes[self.len..end].copy_from_slice(more);
        self.len = end;
    }

    /// Appends a number in decimal digits, without leading zeros.
    pub fn push_decimal(&mut self, number: u64)
        requires { length self.old + 20 ≤ 2048 }
        ensures text { self.new ≡ self.old ++ decimal number }
        ensures size { length self.new ≤ length self.old + 20 }
    {
        let mut buffer = Buffer::new();
        self.push(buffer.format(number).as_bytes());
    }

    /// Appends `0x` and the eight hexadecimal digits of a number, in lower case.
    pub fn push_hex(&mut self, number: u32)
        requires { length self.old + 10 ≤ 2048 }
        ensures text { self.new ≡ self.old ++ hex_number 4 number }
        ensures size { length self.new ≡ length self.old + 10 }
    {
        let mut digits = [0; 8];
        let _ = hex::encode_to_slice(number.to_be_bytes(), &mut digits);
        self.push(b"0x");
        self.push(&digits);
    }

    /// Appends `0x` and the sixteen hexadecimal digits of a number, in lower case.
    pub fn push_long_hex(&mut self, number: u64)
        requires { length self.old + 18 ≤ 2048 }
        ensures text { self.new ≡ self.old ++ hex_number 8 number }
        ensures size { length self.new ≡ length self.old + 18 }
    {
        let mut digits = [0; 16];
        let _ = hex::encode_to_slice(number.to_be_bytes(), &mut digits);
        self.push(b"0x");
        self.push(&digits);
    }

    /// Appends bytes as they are shown: `?` in the place of each that is no printable character of ASCII.
    pub fn push_shown(&mut self, bytes: &[u8])
        requires { length self.old + length bytes.now ≤ 2048 }
        ensures text { self.new ≡ self.old ++ map spec.shown_byte bytes.now }
        ensures size { length self.new ≡ length self.old + length bytes.now }
    {
        for byte in bytes {
            self.push(&[shown_byte(*byte)]);
        }
    }
}

// A byte, or `?` in the place of one that is no printable character.
fn shown_byte(byte: u8) -> u8
    ensures { result ≡ spec.shown_byte byte }
{
    if (b' '..=b'~').contains(&byte) {
        byte
    } else {
        b'?'
    }
}
