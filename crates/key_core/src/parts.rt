// Signatures and packed keys: structures that point to bytes of the buffer that they stand in.
ghost use Rattle.std.specs.Prelude.{◌≡◌, ◌+◌, ◌≤◌, length, IsTrue};
ghost use Rattle.wire_core.specs.Fields.{number_at};
ghost use Rattle.key_core.specs.Parts.{is_inside, pointed_to, signature_at, signature_is_inside, signature_bytes, key_at, key_is_inside};
ghost use Rattle.key_core.specs.Parts.{key_in};

use crate::layout::*;
use wire_core::u32_at;

/// The numbers of a signature structure, and the place that it stands at.
#[derive(Clone, Copy, Debug, PartialEq, Eq)]
pub struct SignatureHead {
    /// The place of the structure in its buffer, in bytes.
    pub at: u32,
    /// The place of the signature's bytes, from the structure's start.
    pub offset: u32,
    /// The size of the signature's bytes.
    pub size: u32,
    /// The size of the data that is signed, in bytes.
    pub data_size: u32,
}

/// The numbers of a packed key, and the place that it stands at.
#[derive(Clone, Copy, Debug, PartialEq, Eq)]
pub struct KeyHead {
    /// The place of the structure in its buffer, in bytes.
    pub at: u32,
    /// The place of the key's bytes, from the structure's start.
    pub offset: u32,
    /// The size of the key's bytes.
    pub size: u32,
    /// The number of the key's algorithm.
    pub algorithm: u32,
    /// The key's version.
    pub version: u32,
}

/// Whether what a structure at `at` points to, `size` bytes at `offset` from the structure's start, stands behind the
/// `head` bytes of the structure itself and ends at or before `limit`. All are bytes, and no sum wraps.
pub fn is_inside(limit: u32, at: u32, head: u32, offset: u32, size: u32) -> bool
    ensures { result ≡ is_inside limit at head offset size }
{
    let end = u64::from(at) + u64::from(offset) + u64::from(size);
    head <= offset && end <= u64::from(limit)
}

/// The numbers of the signature structure that stands at `at`.
pub fn signature_at(bytes: &[u8], at: u32) -> SignatureHead
    requires { at + 24 ≤ length bytes.now }
    ensures { result ≡ signature_at bytes.now at }
{
    SignatureHead {
        at,
        offset: field(bytes, at, SIGNATURE_OFFSET),
        size: field(bytes, at, SIGNATURE_SIZE),
        data_size: field(bytes, at, SIGNATURE_DATA_SIZE),
    }
}

/// The numbers of the packed key that stands at `at`.
pub fn key_at(bytes: &[u8], at: u32) -> KeyHead
    requires { at + 32 ≤ length bytes.now }
    ensures { result ≡ key_at bytes.now at }
{
    KeyHead {
        at,
        offset: field(bytes, at, KEY_OFFSET),
        size: field(bytes, at, KEY_SIZE),
        algorithm: field(bytes, at, KEY_ALGORITHM),
        version: field(bytes, at, KEY_VERSION),
    }
}

impl SignatureHead {
    /// Whether the signature's bytes stand behind the structure and end at or before `limit`, in bytes.
    pub fn is_inside(&self, limit: u32) -> bool
        ensures { result ≡ signature_is_inside limit self.now }
    {
        is_inside(limit, self.at, SIGNATURE_HEAD, self.offset, self.size)
    }

    /// The signature's bytes.
    pub fn part<'a>(&self, bytes: &'a [u8]) -> &'a [u8]
        requires { self.now.at + self.now.offset + self.now.size ≤ length bytes.now }
        ensures value { result.now ≡ signature_bytes bytes.now self.now }
        ensures len { length result.now ≡ self.now.size }
    {
        part(bytes, self.at, self.offset, self.size)
    }
}

impl KeyHead {
    /// Whether the key's bytes stand behind the structure and end at or before `limit`, in bytes.
    pub fn is_inside(&self, limit: u32) -> bool
        ensures { result ≡ key_is_inside limit self.now }
    {
        is_inside(limit, self.at, KEY_HEAD, self.offset, self.size)
    }
}

// The u32 at `place` in the structure that stands at `at`.
fn field(bytes: &[u8], at: u32, place: u32) -> u32
    requires { at + place + 4 ≤ length bytes.now }
    ensures { result ≡ number_at 4 bytes.now (at + place) }
{
    u32_at(bytes, at as usize + place as usize)
}

// The bytes that a structure at `at` points to.
pub(crate) fn part(bytes: &[u8], at: u32, offset: u32, size: u32) -> &[u8]
    requires { at + offset + size ≤ length bytes.now }
    ensures value { result.now ≡ pointed_to bytes.now at offset size }
    ensures len { length result.now ≡ size }
{
    let start = at as usize + offset as usize;
    &bytes[start..start + size as usize]
}
