// What a slot is found to be: good, or wrong in one of its three parts.
ghost use Rattle.std.specs.Prelude.{◌≡◌};
ghost use Rattle.chain_core.specs.SlotNumbers.{reason_of, subcode_of};

use crate::fault::BodyFault;
use key_core::{KeyblockFault, PackedKey};
use preamble_core::FwPreambleFault;

/// A slot that is good.
#[derive(Clone, Copy, Debug, PartialEq, Eq)]
pub struct SlotOk {
    /// The version word: the data key's version in the upper 16 bits, and the firmware's in the lower 16.
    pub version: u32,
    /// The number of bytes of the body.
    pub body_len: u32,
    /// The key that signs the kernel's keyblock. It may be too large to be used.
    pub subkey: PackedKey,
}

/// What is wrong with a slot: the first part of keyblock, preamble and body that has a fault, and that fault.
#[derive(Clone, Copy, Debug, PartialEq, Eq)]
pub enum SlotFault {
    /// The keyblock has a fault.
    Keyblock(KeyblockFault),
    /// The preamble has a fault.
    Preamble(FwPreambleFault),
    /// The body has a fault.
    Body(BodyFault),
}

impl SlotFault {
    /// The recovery reason of the fault: 20 for the keyblock, 21 for the preamble, 22 for the body.
    pub fn reason(&self) -> u8
        ensures { result ≡ reason_of self.now }
    {
        match self {
            SlotFault::Keyblock(_) => 20,
            SlotFault::Preamble(_) => 21,
            SlotFault::Body(_) => 22,
        }
    }

    /// The number of the fault's line in its table.
    pub fn subcode(&self) -> u8
        ensures { result ≡ subcode_of self.now }
    {
        match self {
            SlotFault::Keyblock(fault) => *fault as u8,
            SlotFault::Preamble(fault) => *fault as u8,
            SlotFault::Body(fault) => *fault as u8,
        }
    }
}
