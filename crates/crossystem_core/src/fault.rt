// Why the tool did not do what it was asked.
use board_core::Device;
use record_core::SpaceFault;
use rom_core::MapFault;

/// Why a key was not set.
#[derive(Clone, Copy, Debug, PartialEq, Eq)]
pub enum SetFault {
    /// The key is read only.
    ReadOnly,
    /// The text is none of those that the key takes.
    BadValue,
}

/// Why a word was refused.
#[derive(Clone, Copy, Debug, PartialEq, Eq)]
pub enum CrossCode {
    /// No key has the name before the word's sign.
    UnknownKey,
    /// The word sets a key that is read only.
    ReadOnly,
    /// The word sets a key to a text that it does not take.
    BadValue,
}

/// What the tool came to where it was not done.
#[derive(Clone, Copy, Debug, PartialEq, Eq)]
pub enum CrossFault {
    /// A word was refused, the first such word, counted from 1. No device was called.
    Refused {
        /// Its number, from 1.
        word: u64,
        /// Why.
        code: CrossCode,
    },
    /// The flash or the TPM failed. Nothing was put.
    Device(Device),
    /// What is wrong with the map of the flash. Nothing was changed or put.
    BadFlash(MapFault),
    /// The word of this number, from 1, asked for another value than the key has. The sets and the lines before it count.
    Differs {
        /// Its number, from 1.
        word: u64,
    },
    /// The sink failed. The change was made, and a beginning of the lines was put.
    Write,
}

/// Why the kernel space was not brought into its newer form.
#[derive(Clone, Copy, Debug, PartialEq, Eq)]
pub enum MigrateFault {
    /// What is wrong with the kernel space. Nothing was written.
    Refused(SpaceFault),
    /// The TPM failed. The kernel space is the one of before or the new one.
    Failed,
}
