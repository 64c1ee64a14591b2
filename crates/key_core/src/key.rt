// Keys: a view of one in its buffer, and a copy of one.
ghost use Rattle.std.specs.Prelude.{◌≡◌, ◌+◌, ◌≤◌, ◌<◌, ◌^◌, length, take};
ghost use Rattle.key_core.specs.Algorithms.{padded};
ghost use Rattle.key_core.specs.Parts.{Key, key_in};

use crate::parts::{KeyHead, part};
use std::marker::Model;

/// The size of the largest key that can be used, one of 8,192 bits, in bytes.
pub const LARGEST_KEY: usize = 2056;

/// A key in its buffer: contracts see its algorithm, version and bytes.
#[derive(Debug, Drop)]
pub struct KeyView<'a> {
    algorithm: u32,
    version: u32,
    bytes: &'a [u8],
}

impl<'a> Model for KeyView<'a> {
    ghost Value = { Key };

    ghost view = { λ k. record { algorithm = k.algorithm; version = k.version; bytes = k.bytes.now } };

    ghost invariant = { λ k. length k.bytes.now < 2 ^ 32 };
}

impl KeyView<'_> {
    /// The number of the key's algorithm.
    pub fn algorithm(&self) -> u32
        ensures { result ≡ self.now.algorithm }
    {
        self.algorithm
    }

    /// The key's version.
    pub fn version(&self) -> u32
        ensures { result ≡ self.now.version }
    {
        self.version
    }

    /// The key's bytes.
    pub fn bytes(&self) -> &[u8]
        ensures value { result.now ≡ self.now.bytes }
        ensures len { length result.now < 2 ^ 32 }
    {
        self.bytes
    }

    /// The same view, for as long as this one is borrowed.
    pub fn reborrow(&self) -> KeyView<'_>
        ensures { result ≡ self.now }
    {
        KeyView {
            algorithm: self.algorithm,
            version: self.version,
            bytes: self.bytes,
        }
    }
}

impl KeyHead {
    /// The key that the packed key holds.
    pub fn view<'a>(&self, bytes: &'a [u8]) -> KeyView<'a>
        requires { self.now.at + self.now.offset + self.now.size ≤ length bytes.now }
        ensures value { result ≡ key_in bytes.now self.now }
        ensures len { length result.bytes ≡ self.now.size }
    {
        KeyView {
            algorithm: self.algorithm,
            version: self.version,
            bytes: part(bytes, self.at, self.offset, self.size),
        }
    }
}

/// A copy of a key.
#[derive(Clone, Copy, Debug, PartialEq, Eq)]
pub struct PackedKey {
    /// The number of the key's algorithm.
    pub algorithm: u32,
    /// The key's version.
    pub version: u32,
    /// The size of the key's bytes. A key of more than 2,056 bytes cannot be used.
    pub size: u32,
    /// The key's bytes, and zeros after them. Where `size` is over 2,056 all are zeros.
    pub bytes: [u8; LARGEST_KEY],
}

/// A copy of the key. One of more than 2,056 bytes leaves its bytes out.
pub fn pack(key: &KeyView<'_>) -> PackedKey
    ensures algorithm { result.algorithm ≡ key.now.algorithm }
    ensures version { result.version ≡ key.now.version }
    ensures size { result.size ≡ length key.now.bytes }
    ensures bytes { result.bytes ≡ padded 2056 key.now.bytes }
    ensures front { length key.now.bytes ≤ 2056 → take (length key.now.bytes) result.bytes ≡ key.now.bytes }
{
    PackedKey {
        algorithm: key.algorithm,
        version: key.version,
        size: key.bytes.len() as u32,
        bytes: padded(key.bytes),
    }
}

// The bytes, and zeros after them. Where there is no room for the bytes, all are zeros.
fn padded(bytes: &[u8]) -> [u8; LARGEST_KEY]
    ensures { result ≡ padded 2056 bytes.now }
{
    let mut room = [0; LARGEST_KEY];
    if bytes.len() > LARGEST_KEY {
        return room;
    }
    room[..bytes.len()].copy_from_slice(bytes);
    room
}
