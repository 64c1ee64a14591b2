// What a kernel's body is checked by.
use key_core::PackedKey;

// A body that is to be checked: the data key that is to have signed it, its signature, the byte of its partition that it begins
// at, and how many bytes it has.
#[derive(Clone, Copy)]
pub(crate) struct SignedBody<'a> {
    pub(crate) key: &'a PackedKey,
    pub(crate) signature: &'a [u8],
    pub(crate) at: u32,
    pub(crate) len: u32,
}
