// The mode of a boot, and the facts from which it is decided.

use record_core::Nv;

/// The mode of a boot.
#[derive(Clone, Copy, Debug, PartialEq, Eq)]
pub enum Mode {
    /// A signed firmware and a signed kernel from the disk.
    Normal,
    /// A signed firmware, and a kernel that the owner may have made.
    Developer,
    /// A recovery by hand, asked for by the switch or the GBB: a signed kernel from the stick.
    Manual,
    /// A recovery that the machine asks for: nothing is booted, and the screen says why.
    Broken {
        /// Why: 10 a fault of the GBB, 11 of the firmware space, 12 of the kernel space; else nvdata's request.
        reason: u8,
        /// The number of the fault, or the subcode of nvdata's request.
        subcode: u8,
    },
}

/// What a boot knows when it decides its mode.
#[derive(Clone, Copy, Debug)]
pub struct ModeFacts {
    /// The recovery switch is on.
    pub recovery: bool,
    /// The flags of the GBB, or the number of its fault.
    pub gbb: Result<u32, u8>,
    /// The flags of the firmware space, or the number of its fault.
    pub firmware: Result<u8, u8>,
    /// The number of the kernel space's fault, if it has one.
    pub kernel: Option<u8>,
    /// The nvdata record.
    pub nv: Nv,
}
