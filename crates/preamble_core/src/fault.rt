// What can be wrong with a preamble.
ghost use Rattle.std.specs.Prelude.{◌≡◌};
ghost use Rattle.preamble_core.specs.Lines.{firmware_line};

/// What is wrong with a firmware preamble, numbered by the lines of its table. The fault of a preamble is the first line
/// whose test holds.
#[derive(Clone, Copy, Debug, PartialEq, Eq)]
pub enum FwPreambleFault {
    /// Fewer bytes are there than the structure has.
    TooSmall = 1,
    /// The major version is not 2.
    Version = 2,
    /// Its size is less than the structure's, or over the bytes that are there.
    Size = 3,
    /// The signature's bytes do not lie behind its structure and inside the preamble.
    SigOutside = 4,
    /// What is signed is less than the structure.
    SignedTooLittle = 5,
    /// What is signed is more than the preamble.
    SignedTooMuch = 6,
    /// The kernel subkey's bytes do not lie behind the packed key and inside what is signed.
    SubkeyOutside = 7,
    /// The body signature's bytes do not lie behind its structure and inside what is signed.
    BodySigOutside = 8,
    /// The signature has not the length of the data key's algorithm.
    SigSize = 9,
    /// The signature is not one of what is signed.
    Refused = 10,
    /// The firmware version does not fit 16 bits.
    VersionRange = 11,
    /// The versions of key and firmware are older than the stored ones.
    Rollback = 12,
}

/// What is wrong with a kernel preamble, numbered by the lines of its table. The fault of a preamble is the first line
/// whose test holds. A firmware preamble has each of these lines too, and one more behind line 6.
#[derive(Clone, Copy, Debug, PartialEq, Eq)]
pub enum KernelPreambleFault {
    /// Fewer bytes are there than the structure of minor version 0 has.
    TooSmall = 1,
    /// The major version is not 2.
    Version = 2,
    /// Its size is less than the structure's at its minor version, or over the bytes that are there.
    Size = 3,
    /// The signature's bytes do not lie behind its structure and inside the preamble.
    SigOutside = 4,
    /// What is signed is less than the structure at its minor version.
    SignedTooLittle = 5,
    /// What is signed is more than the preamble.
    SignedTooMuch = 6,
    /// The body signature's bytes do not lie behind its structure and inside what is signed.
    BodySigOutside = 7,
    /// The signature has not the length of the data key's algorithm.
    SigSize = 8,
    /// The signature is not one of what is signed.
    Refused = 9,
    /// The kernel version does not fit 16 bits.
    VersionRange = 10,
    /// The versions of key and kernel are older than the stored ones.
    Rollback = 11,
}

/// The line of the firmware preamble table that is also this one of the kernel preamble table.
pub fn firmware_line(fault: KernelPreambleFault) -> FwPreambleFault
    ensures { result ≡ firmware_line fault }
{
    match fault {
        KernelPreambleFault::TooSmall => FwPreambleFault::TooSmall,
        KernelPreambleFault::Version => FwPreambleFault::Version,
        KernelPreambleFault::Size => FwPreambleFault::Size,
        KernelPreambleFault::SigOutside => FwPreambleFault::SigOutside,
        KernelPreambleFault::SignedTooLittle => FwPreambleFault::SignedTooLittle,
        KernelPreambleFault::SignedTooMuch => FwPreambleFault::SignedTooMuch,
        KernelPreambleFault::BodySigOutside => FwPreambleFault::BodySigOutside,
        KernelPreambleFault::SigSize => FwPreambleFault::SigSize,
        KernelPreambleFault::Refused => FwPreambleFault::Refused,
        KernelPreambleFault::VersionRange => FwPreambleFault::VersionRange,
        KernelPreambleFault::Rollback => FwPreambleFault::Rollback,
    }
}
