// The bytes of a key's copy.
ghost use Rattle.std.specs.Prelude.{◌≡◌, ◌≤◌, length, take};

use key_core::{LARGEST_KEY, PackedKey};

// The bytes of a key that has room in its copy.
pub(crate) fn key_bytes(key: &PackedKey) -> &[u8]
    requires { key.now.size ≤ LARGEST_KEY }
    ensures value { result.now ≡ take key.now.size key.now.bytes }
    ensures len { length result.now ≡ key.now.size }
{
    &key.bytes[..key.size as usize]
}
