// What a walk over the kernels of a drive comes to.

/// The kernel that was chosen.
#[derive(Clone, Copy, Debug, PartialEq, Eq)]
pub struct Kernel {
    /// The index of its entry, from 1 to 128.
    pub partition: u32,
    /// The version word: the data key's version in the upper 16 bits, and the kernel's in the lower 16.
    pub version: u32,
    /// The address that the body is loaded at.
    pub load_address: u64,
    /// The number of bytes of the body.
    pub body_len: u32,
}

/// What a walk found.
#[derive(Clone, Copy, Debug, PartialEq, Eq)]
pub struct Walked {
    /// The good candidate than which no good candidate is earlier, or none where no candidate is good.
    pub chosen: Option<Kernel>,
    /// The least version word among the chosen kernel and the later candidates whose heads are good, in normal mode where the
    /// chosen version is over the stored one. Else the stored one.
    pub lowest: u32,
}
