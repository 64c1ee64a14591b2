// What the head of a kernel is found to be: good, or wrong in one of its two parts.
use key_core::KeyblockFault;
use preamble_core::KernelPreambleFault;

/// A head that is good.
#[derive(Clone, Copy, Debug, PartialEq, Eq)]
pub struct HeadOk {
    /// The version word: the data key's version in the upper 16 bits, and the kernel's in the lower 16.
    pub version: u32,
    /// The address that the body is loaded at.
    pub load_address: u64,
    /// The place of the body in the partition, in bytes: right behind keyblock and preamble.
    pub body_at: u32,
    /// The number of bytes of the body.
    pub body_len: u32,
}

/// What is wrong with a head: the first of keyblock and preamble that has a fault, and that fault.
#[derive(Clone, Copy, Debug, PartialEq, Eq)]
pub enum HeadFault {
    /// The keyblock has a fault.
    Keyblock(KeyblockFault),
    /// The preamble has a fault.
    Preamble(KernelPreambleFault),
}
