// What a kernel is held to.
ghost use Rattle.std.specs.Prelude.{◌≡◌};
ghost use Rattle.kernel_core.specs.Rules.{hash_is_enough, versions_are_checked, developer_flag, recovery_flag};

use key_core::PackedKey;

/// The mode of a boot that comes to its kernel.
#[derive(Clone, Copy, Debug, PartialEq, Eq)]
pub enum BootMode {
    /// A kernel of the disk, by the key of the firmware slot.
    Normal,
    /// The same, and the owner may allow kernels of their own.
    Developer,
    /// A kernel of a stick, by the recovery key.
    Recovery,
}

/// What is asked of a kernel.
#[derive(Clone, Copy, Debug)]
pub struct KernelRequest {
    /// The key that is to have signed its keyblock.
    pub key: PackedKey,
    /// What it is held to.
    pub rules: KernelRules,
}

/// What a kernel is held to.
#[derive(Clone, Copy, Debug, PartialEq, Eq)]
pub struct KernelRules {
    /// The mode of the boot.
    pub mode: BootMode,
    /// Whether developer mode allows signed kernels alone.
    pub signed_only: bool,
    /// Whether developer mode is on, which it can be in each of the modes.
    pub dev_on: bool,
    /// The stored version word: the key's version in the upper 16 bits, and the kernel's in the lower 16.
    pub stored: u32,
}

impl KernelRules {
    /// Whether a matching hash of the keyblock is enough: in developer mode, unless signed kernels alone are allowed. Then the
    /// keyblock's flags are not checked either.
    pub fn hash_is_enough(&self) -> bool
        ensures { result ≡ hash_is_enough self.now }
    {
        match self.mode {
            BootMode::Developer => !self.signed_only,
            _ => false,
        }
    }

    /// Whether versions are checked against the stored ones: in normal mode, and in developer mode where signed kernels alone
    /// are allowed.
    pub fn versions_are_checked(&self) -> bool
        ensures { result ≡ versions_are_checked self.now }
    {
        match self.mode {
            BootMode::Normal => true,
            BootMode::Developer => self.signed_only,
            BootMode::Recovery => false,
        }
    }

    // The flag that a keyblock is to have by developer mode: 2 where it is on, and 1 where it is off.
    pub(crate) fn developer_flag(&self) -> u32
        ensures { result ≡ developer_flag self.now }
    {
        if self.dev_on { 2 } else { 1 }
    }

    // The flag that a keyblock is to have by recovery mode: 8 in it, and 4 in the other modes.
    pub(crate) fn recovery_flag(&self) -> u32
        ensures { result ≡ recovery_flag self.now }
    {
        match self.mode {
            BootMode::Recovery => 8,
            _ => 4,
        }
    }
}
